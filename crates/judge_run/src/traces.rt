//! Judging the trace of a job.

ghost use Rattle.std.specs.Prelude.{◌≡◌, IfOk};
ghost use Rattle.judge_words.specs.Job.{job_view, IsLawful};
ghost use Rattle.trace_lines.specs.Pieces.{piece_view};
ghost use Rattle.judge_run.specs.Answer.{asks_origins, columns_in, trace_answer};
ghost use Rattle.judge_run.specs.Ends.{CanStepOn, answer_view};
ghost use Rattle.judge_run.specs.Starts.{CanBegin, start_view};
ghost use Rattle.judge_run.specs.Stops.{MeantBy, MeantWhereKnown, CountsStop, MissesStop, IsJobs, IsJobsAnswer, WasRead};

use crate::answer::Answer;
use crate::answers::answer_with;
use crate::outcomes::{outcome_of, without_header};
use crate::progress::Progress;
use crate::remaining::judge_rows;
use crate::start::Start;
use crate::stop::{Stop, line_stop};
use crate::workers::Workers;
use hart_set::HartSet;
use judge_words::Job;
use outside_ports::{Gate, Shelf};
use page_layers::Layered;
use row_origin::history_if;
use rvfi_rows::{Columns, HeaderError, RowCounts, read_header};
use std::alloc::Global;
use std::thread::Threads;
use trace_lines::{LineTaker, Piece};
use trace_report::Ruling;

/// Reads the trace of a job, a file of this name, and judges its rows from the start. The lines
/// after the first are taken once that is known to be a header.
pub fn judge_trace<'a, R, G: Gate, H: Shelf>(
    workers: &Workers<R, G>,
    job: &Job,
    name: &str,
    start: &'a Start,
    shelf: &mut H,
) -> Result<Answer<'a>, Stop>
where
    R: Threads + Sync,
    requires lawful { IsLawful (job_view job.now) }
    requires begins { CanBegin start.now }
    requires asked { workers.now.origin ≡ asks_origins (job_view job.now).command }
    ensures known_files { H.known_files shelf.new ≡ H.known_files shelf.old }
    ensures meant { MeantWhereKnown (H.known_files shelf.old) answer_view result
        (λ files. trace_answer (job_view job.now) (start_view start.entry.now) (files name.now)) }
    ensures can_step { IfOk result CanStepOn }
    ensures jobs { IsJobsAnswer result }
    ensures faults { CountsStop result (H.faults shelf.old) (H.faults shelf.new) }
    ensures misses { MissesStop result (H.known_files shelf.old)
        (λ files. trace_answer (job_view job.now) (start_view start.entry.now) (files name.now))
        (H.misses shelf.old) (H.misses shelf.new) }
{
    let taker = LineTaker::open(workers.alloc, name, job.max_trace)?;
    let (first, taker) = match taker.next_lines(shelf, 1) {
        Ok(taken) => taken,
        Err(error) => return Err(line_stop(error)),
    };
    let columns = match columns_in(workers.alloc, job, &first) {
        Ok(columns) => columns,
        Err(stop) => return Err(stop),
    };
    let cores = Vec::from_slice(workers.alloc, start.cores.as_slice())?;
    let progress = Progress {
        taker,
        harts: HartSet {
            cores,
            mem: Layered::over(workers.alloc, &start.image),
        },
        counts: RowCounts::zero(),
        history: history_if(workers.alloc, workers.origin),
    };
    match judge_rows(workers, job, &columns, progress, shelf) {
        Ok(end) => {
            let answer = answer_with(job, end)?;
            Ok(answer)
        }
        Err(error) => Err(line_stop(error)),
    }
}

/// The columns that the first of these lines names.
#[tactic(auto, unfolding(crate::specs::Answer::columns_in))]
fn columns_in(alloc: Global, job: &Job, piece: &Piece) -> Result<Columns, Stop>
    ensures meant { MeantBy (λ columns. columns) result
        (columns_in (job_view job.now) (piece_view piece.now)) }
    ensures jobs { IsJobs result }
    ensures read { WasRead result }
{
    match piece.lines.get(0) {
        None => Err(Stop::Known(outcome_of(job, without_header(job, piece.ending)))),
        Some(header) => match read_header(alloc, header) {
            Ok(columns) => Ok(columns.with_harts(job.harts)),
            Err(HeaderError::NoMemory) => Err(Stop::NoMemory),
            Err(HeaderError::Fault(fault)) => {
                Err(Stop::Known(outcome_of(job, Ruling::HeaderFault(fault))))
            }
        },
    }
}
