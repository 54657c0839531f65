//! From what the rows of a trace come to, to what is written.

ghost use Rattle.std.specs.Prelude.{◌≡◌, Bool, IfOk, IfSome, false, option_map};
ghost use Rattle.hart_step.specs.HartSets.{set_state_of};
ghost use Rattle.judge_words.specs.Job.{job_view};
ghost use Rattle.page_layers.specs.Memories.{layered_bytes, layered_ram};
ghost use Rattle.judge_run.specs.Answer.{answer_by_lines, answer_with, asks_origins, origins_if, state_written};
ghost use Rattle.row_origin.specs.Histories.{HistoryView, IsKept};
ghost use Rattle.row_origin.specs.Origins.{origins_in};
ghost use Rattle.judge_run.specs.Ends.{BacksFound, CanStepOn, HasZerosOutside, IsReadBack, Writes, WritesFound, answer_view};
ghost use Rattle.judge_run.specs.Parts.{end_of};
ghost use Rattle.judge_run.specs.Starts.{CanGoOn};
ghost use Rattle.judge_run.specs.Stops.{is_no_job};

use crate::answer::Answer;
use crate::outcomes::{outcome_of, ruling_at_end};
use crate::progress::TraceEnd;
use crate::stop::Stop;
use hart_step::Harts;
use hart_words::NoMemory;
use judge_words::{Command, Job, Product};
use outside_ports::{Sink, write_all};
use page_layers::Layered;
use row_origin::{History, Origins};
use rvfi_rows::Verdict;
use state_text::write_state;
use trace_report::{Outcome, Ruling, report, status};

/// What a job comes to by what the rows of its trace do, and with what these did, where it was asked
/// for.
pub fn answer_with<'a>(job: &Job, end: TraceEnd<Layered<'a>>) -> Result<Answer<'a>, NoMemory>
    requires { IfSome end.harts (CanGoOn layered_ram) }
    ensures answer { IfOk result (λ answer. (history : HistoryView)
        → IsKept (asks_origins (job_view job.now).command) history end.entry.history
        → answer_view answer ≡ answer_with (job_view job.now)
        (end_of (job_view job.now) layered_bytes end.entry) history) }
    ensures can_step { IfOk result CanStepOn }
    ensures jobs { IfOk result (λ answer. is_no_job answer.outcome ≡ false) }
{
    let ruling = ruling_at_end(job, end.ending, end.verdict);
    let origins = origins_kept(&end.history);
    let harts = copy_of(harts_written(job, ruling, end.harts))?;
    Ok(Answer {
        outcome: outcome_of(job, ruling),
        harts,
        origins,
    })
}

/// Who wrote what the row that differs read, where what rows did was kept.
fn origins_kept(history: &Option<History>) -> Option<Origins>
    ensures { (origin : Bool) (view : HistoryView) → IsKept origin view history.now
        → option_map origins_in result ≡ origins_if origin view }
{
    match history {
        None => None,
        Some(history) => history.origins(),
    }
}

/// The harts whose state is written: the last ones, where the words ask for it and the ruling is that
/// the rows agree.
fn harts_written<'a>(
    job: &Job,
    ruling: Ruling,
    harts: Option<Harts<Layered<'a>>>,
) -> Option<Harts<Layered<'a>>>
    requires { IfSome harts (CanGoOn layered_ram) }
    ensures state { option_map (set_state_of layered_bytes) result
        ≡ state_written (job_view job.now).command ruling
        (option_map (set_state_of layered_bytes) harts.entry) }
    ensures can_step { IfSome result (CanGoOn layered_ram) }
{
    match (&job.command, ruling) {
        (
            Command::Judge {
                product: Product::State,
                ..
            },
            Ruling::Verdict(Verdict::Agrees { .. }),
        ) => harts,
        _ => None,
    }
}

/// The same harts, over a copy of their memory. What was written is a layer in the copy, whose pages
/// are found in their order.
#[tactic(auto, using(crate::proofs::Passing::same_state))]
fn copy_of<'a>(harts: Option<Harts<Layered<'a>>>) -> Result<Option<Harts<Layered<'a>>>, NoMemory>
    requires { IfSome harts (CanGoOn layered_ram) }
    ensures state { IfOk result (λ other. option_map (set_state_of layered_bytes) other
        ≡ option_map (set_state_of layered_bytes) harts.entry) }
    ensures can_step { IfOk result (λ other. IfSome other (CanGoOn layered_ram)) }
{
    match harts {
        None => Ok(None),
        Some(harts) => Ok(Some(harts.copy()?)),
    }
}

/// Writes what was found, and gives the status: that of the outcome, 5 where a read or a write
/// failed, and 6 where memory was refused.
pub fn write_found<O: Sink>(found: &Result<Answer<'_>, Stop>, out: &mut O) -> u8
    requires { IfOk found.now CanStepOn }
    ensures written { WritesFound answer_view found.now result (O.held out.old) (O.held out.new)
        (O.faults out.old) (O.faults out.new) }
    ensures back { BacksFound answer_view found.now }
{
    match found {
        Ok(answer) => write_answer(answer, out),
        Err(Stop::Known(outcome)) => write_outcome(outcome, None, out),
        Err(Stop::ReadFault) => 5,
        Err(Stop::NoMemory) => 6,
    }
}

/// Writes the text of an answer, and gives its status, or 5 where a write failed.
fn write_answer<O: Sink>(answer: &Answer<'_>, out: &mut O) -> u8
    requires { CanStepOn answer.now }
    ensures written { Writes (answer_view answer.now) result (O.held out.old) (O.held out.new)
        (O.faults out.old) (O.faults out.new) }
    ensures back { IfSome (answer_view answer.now).state
        (λ state. HasZerosOutside state → IsReadBack state) }
{
    match &answer.harts {
        None => write_outcome(&answer.outcome, answer.origins.as_ref(), out),
        Some(harts) => match write_state(harts, out) {
            Ok(()) => status(&answer.outcome),
            Err(_) => 5,
        },
    }
}

/// Writes the line of an outcome, with those of origins after it, and gives its status, or 5 where a
/// write failed.
pub fn write_outcome<O: Sink>(outcome: &Outcome, origins: Option<&Origins>, out: &mut O) -> u8
    ensures { Writes
        (answer_by_lines outcome.now (option_map (λ origins. origins_in origins.now) origins.entry))
        result (O.held out.old) (O.held out.new) (O.faults out.old) (O.faults out.new) }
{
    let text = report(outcome, origins);
    let text = text.as_slice();
    let done = write_all(out, text);
    if done < text.len() {
        5
    } else {
        status(outcome)
    }
}
