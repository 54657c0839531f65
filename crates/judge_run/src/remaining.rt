//! Judging the rows of a trace that remain, part by part.

ghost use Rattle.std.specs.Prelude.{◌≡◌, ◌<◌, ◌^◌, IfOk, IfSome, string_bytes};
ghost use Rattle.judge_words.specs.Job.{IsLawful, job_view};
ghost use Rattle.outside_ports.specs.Faults.{CountsFault, CountsMiss};
ghost use Rattle.outside_ports.specs.Ports.{IsThere, file_of};
ghost use Rattle.trace_lines.specs.Errors.{is_read_fault};
ghost use Rattle.verdict_join.specs.Walks.{IsWithinRows};
ghost use Rattle.judge_run.specs.PartHistories.{IsHistoryTold, PassesHistory};
ghost use Rattle.judge_run.specs.Parts.{CanContinue, CanContinueWith, FollowsPart, IsEndTold, IsNearerEnd, PassesWhereKnown};
ghost use Rattle.judge_run.specs.Starts.{CanGoOn};

use crate::parts::{Settled, settle_and_take};
use crate::progress::{Lookahead, Passed, Progress, Remaining, TraceEnd};
use crate::tally::verdict_after_rows;
use crate::workers::Workers;
use hart_words::PhysMem;
use judge_words::Job;
use outside_ports::{Gate, Shelf};
use rvfi_rows::{Columns, RowCounts, Verdict};
use std::thread::Threads;
use trace_lines::{Ending, LineError};

/// Judges the rows that are left, part by part. No more of them than a window is held, and after a
/// part that does not agree no more are taken.
pub fn judge_rows<R, G: Gate, H: Shelf, M: PhysMem + Drop + Send + Sync>(
    workers: &Workers<R, G>,
    job: &Job,
    columns: &Columns,
    progress: Progress<M>,
    shelf: &mut H,
) -> Result<TraceEnd<M>, LineError>
where
    R: Threads + Sync,
    requires lawful { IsLawful (job_view job.now) }
    requires going { CanContinue M.ram progress }
    requires file_exists { IsThere (H.known_files shelf.old) (string_bytes progress.taker.name) }
    ensures known_files { H.known_files shelf.new ≡ H.known_files shelf.old }
    ensures meant { let file = file_of (H.known_files shelf.old)
        (string_bytes progress.taker.name) in
        IfOk result (IsEndTold (job_view job.now) columns.now M.bytes file progress) }
    ensures history { let file = file_of (H.known_files shelf.old)
        (string_bytes progress.taker.name) in
        IfOk result (IsHistoryTold workers.now.origin columns.now M.bytes file progress) }
    ensures can_step { IfOk result (λ end. IfSome end.harts (CanGoOn M.ram)) }
    ensures faults { CountsFault is_read_fault result (H.faults shelf.old) (H.faults shelf.new) }
    ensures misses { CountsMiss is_read_fault result (H.known_files shelf.old)
        (string_bytes progress.taker.name) (H.misses shelf.old) (H.misses shelf.new) }
{
    let lookahead = Lookahead::none(workers.alloc);
    let mut remaining = Remaining {
        progress,
        lookahead,
    };
    'parts: loop {
        match judge_part(workers, job, columns, remaining, shelf) {
            Ok(Passed::Continue(next)) => remaining = next,
            Ok(Passed::Ends(end)) => return Ok(end),
            Err(error) => return Err(error),
        }
    }
}

/// Judges the rows of the next part.
fn judge_part<R, G: Gate, H: Shelf, M: PhysMem + Drop + Send + Sync>(
    workers: &Workers<R, G>,
    job: &Job,
    columns: &Columns,
    remaining: Remaining<M>,
    shelf: &mut H,
) -> Result<Passed<M>, LineError>
where
    R: Threads + Sync,
    requires lawful { IsLawful (job_view job.now) }
    requires going { CanContinueWith job.now.sharing.window M.ram remaining }
    requires file_exists { IsThere (H.known_files shelf.old)
        (string_bytes remaining.progress.taker.name) }
    ensures known_files { H.known_files shelf.new ≡ H.known_files shelf.old }
    ensures meant { let file = file_of (H.known_files shelf.old)
        (string_bytes remaining.progress.taker.name) in
        IfOk result (PassesWhereKnown (job_view job.now) columns.now M.bytes file remaining) }
    ensures history { let file = file_of (H.known_files shelf.old)
        (string_bytes remaining.progress.taker.name) in
        IfOk result (PassesHistory workers.now.origin columns.now M.bytes file remaining) }
    ensures nearer { IfOk result (IsNearerEnd job.now.sharing.window M.ram remaining) }
    ensures faults { CountsFault is_read_fault result (H.faults shelf.old) (H.faults shelf.new) }
    ensures misses { CountsMiss is_read_fault result (H.known_files shelf.old)
        (string_bytes remaining.progress.taker.name) (H.misses shelf.old) (H.misses shelf.new) }
{
    let counts = remaining.progress.counts;
    if remaining.lookahead.is_over() {
        return Ok(Passed::Ends(TraceEnd {
            verdict: Verdict::Agrees {
                rows: counts.rows,
                valid: counts.valid,
            },
            ending: remaining.lookahead.ending,
            harts: Some(remaining.progress.harts),
            history: remaining.progress.history,
        }));
    }
    let settled = match settle_and_take(workers, job, columns, remaining, shelf) {
        Ok(settled) => settled,
        Err(error) => return Err(error),
    };
    Ok(passed_with(counts, settled))
}

/// Where a part leads, after so many rows: on from the harts after it where its rows agree.
fn passed_with<M: Drop>(counts: RowCounts, settled: Settled<M>) -> Passed<M>
    requires below_2_to_62 { counts.rows < 2 ^ 62 }
    requires within { IsWithinRows (2 ^ 62) settled.joined.verdict }
    ensures { FollowsPart counts settled result }
{
    let Settled {
        joined,
        lookahead,
        taker,
    } = settled;
    match (joined.verdict, joined.end) {
        (Verdict::Agrees { rows, valid }, Some(harts)) => {
            let progress = Progress {
                taker,
                harts,
                counts: counts.plus(RowCounts { rows, valid }),
                history: joined.history,
            };
            Passed::Continue(Remaining {
                progress,
                lookahead,
            })
        }
        (verdict, _) => Passed::Ends(TraceEnd {
            verdict: verdict_after_rows(counts, verdict),
            ending: Ending::More,
            harts: None,
            history: joined.history,
        }),
    }
}
