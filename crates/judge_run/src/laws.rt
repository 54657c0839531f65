//! What holds of every way to judge a trace in segments, and of what is made.

ghost use Rattle.std.specs.Prelude.{◌≡◌, ℕ, false, List, Option, Some, None};
ghost use Rattle.board_core.specs.declared.event.Event.{Event};
ghost use Rattle.outside_ports.specs.Ports.{Files};
ghost use Rattle.rvfi_rows.specs.Columns.{TraceColumns};
ghost use Rattle.rvfi_rows.specs.declared.verdict.Verdict.TheVariants.{Agrees};
ghost use Rattle.hart_step.specs.declared.state.Core.{Core};
ghost use Rattle.hart_step.specs.HartSets.{SetState};
ghost use Rattle.segment_judge.specs.declared.found.Found.{Found};
ghost use Rattle.segment_judge.specs.Judgements.{Judgement};
ghost use Rattle.judge_words.specs.Job.{JobView, job_of};
ghost use Rattle.judge_words.specs.declared.job.Command.TheVariants.{Make};
ghost use Rattle.trace_report.specs.declared.outcome.Ruling.TheVariants.{Verdict};
ghost use Rattle.trace_lines.specs.declared.piece.Ending.{Ending};
ghost use Rattle.judge_run.specs.Answer.{AnswerView, answer, answer_by_line, asks_origins};
ghost use Rattle.judge_run.specs.Pieces.{RunsGoOn};
ghost use Rattle.judge_run.specs.Events.{AnyEvents};

/// However the lines are cut, whatever is guessed of the harts before each piece, and whatever
/// claims, looks and posts the workers make in whichever order: the join of what these leave found
/// has the verdict of the harts that are stepped by all rows in order, and the state after them.
pub fn any_events()
    ensures { (start : SetState) (columns : TraceColumns) (pieces : List (List (List ℕ)))
        (guesses : List SetState) (events : List Event)
        (founds : List (Found (Judgement (List Core))))
        → AnyEvents start columns pieces guesses events founds }
{}

/// Every made trace agrees: whatever words ask for it, whatever its number and its rows are, and
/// whatever files there are, the answer names the two numbers and rules that so many rows agree,
/// each of them valid.
pub fn made_traces_agree()
    ensures { (words : List (List ℕ)) (job : JobView) (files : Files) (number rows : ℕ)
        → job_of words ≡ Some job → job.command ≡ Make number rows
        → answer words files ≡ Some (answer_by_line (record {
          made = Some (record { number = number; rows = rows });
          ruling = Verdict (Agrees rows rows);
        })) }
{}

/// Where the words do not ask for origins, the answer has none: the bytes that are written are one
/// line, or the text of a state, as they are with no such word.
pub fn no_origins_without_the_flag()
    ensures { (words : List (List ℕ)) (job : JobView) (files : Files) (given : AnswerView)
        → job_of words ≡ Some job → asks_origins job.command ≡ false
        → answer words files ≡ Some given → given.origins ≡ None }
{}

/// A trace may be judged in pieces, by runs that go on from one another: where a run's rows agree
/// and it writes the state after them, a run over more rows that begins from that text comes to
/// what one run over all rows does. A row's number is less by the first run's rows, and the number
/// after `agrees` by its valid ones. Both runs have the same header, map and choices. That the text
/// is read back as the state is a clause of `judge`, for every state that a run writes.
pub fn runs_go_on()
    ensures { (first second : JobView) (image : Option (List ℕ)) (trace after header : List ℕ)
        (lines more : List (List ℕ)) (ending : Ending) (saved : SetState)
        → RunsGoOn first second image trace after header lines more ending saved }
{}
