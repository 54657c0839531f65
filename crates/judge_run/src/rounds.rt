//! Settling the segments of a trace in rounds.

ghost use Rattle.std.specs.Prelude.{◌≡◌, ◌≤◌, ◌<◌, ◌+◌, ◌⊎◌, ◌^◌, IfOk, IfSome, length, option_map};
ghost use Rattle.std.specs.List.{flat_map};
ghost use Rattle.hart_step.specs.HartSets.{SetCanStep, SetHoldsWords, set_state_of};
ghost use Rattle.rvfi_rows.specs.Rows.{rows_of};
ghost use Rattle.rvfi_rows.specs.Segments.{line_count_of, segment_lines};
ghost use Rattle.boundary_guess.specs.Truth.{SetNoMarks, ShowChanges};
ghost use Rattle.row_origin.specs.Histories.{IsKept};
ghost use Rattle.segment_judge.specs.Histories.{history_from};
ghost use Rattle.segment_judge.specs.Judgements.{by_set};
ghost use Rattle.segment_judge.specs.Laws.{conclusion_from};
ghost use Rattle.judge_run.specs.Settling.{IsTallied, LeadsBy, SettlesInRounds};

use crate::segments::judge_round;
use crate::tally::{AfterRound, Settling, Tally};
use crate::workers::Workers;
use hart_step::{Harts, set_holds_words};
use hart_words::{NoMemory, PhysMem};
use outside_ports::Gate;
use row_origin::{follow, history_if};
use rvfi_rows::{Columns, Segment};
use segment_workers::Steps;
use std::alloc::Global;
use std::sync::ledger::Ledger;
use std::thread::Threads;
use verdict_join::Joined;

/// The verdict on the rows of the lines of segments under these columns, and the harts after them
/// where they agree. The harts before each segment are guessed, workers judge them side by side, and
/// the verdicts are joined from the true state up to the first segment that has to be judged again;
/// what is left is guessed anew from there, in a further round. There are as many rounds as there
/// are segments judged again, or one more. Each counts one on `steps`. With `origin` what the rows
/// did is kept.
pub fn settle<R, G: Gate, M: PhysMem + Drop + Send + Sync, L: Ledger>(
    rt: &R,
    alloc: Global,
    start: Harts<M>,
    columns: &Columns,
    segments: &[Segment],
    workers: u32,
    gate: &G,
    origin: bool,
    steps: &mut Steps<L>,
) -> Result<Joined<M>, NoMemory>
where
    R: Threads + Sync,
    requires can_step { SetCanStep M.ram start }
    requires workers { (1 ≤ workers) × (workers ≤ 64) }
    requires below_2_to_32 { length segments.now < 2 ^ 32 }
    requires lines { line_count_of segments.now < 2 ^ 60 }
    ensures verdict { IfOk result (λ joined. joined.verdict
        ≡ (conclusion_from by_set (set_state_of M.bytes start)
        (rows_of columns.now (flat_map segment_lines segments.now))).verdict) }
    ensures end { IfOk result (λ joined. option_map (set_state_of M.bytes) joined.end
        ≡ (conclusion_from by_set (set_state_of M.bytes start)
        (rows_of columns.now (flat_map segment_lines segments.now))).end) }
    ensures rounds { IfOk result (SettlesInRounds M.bytes columns.now segments.now
        (set_state_of M.bytes start) steps.old steps.new) }
    // Where memory runs out too.
    ensures at_most_segments { steps.new ≤ steps.old + length segments.now }
    ensures one_round { 0 < length segments.now → IfOk result (λ joined. steps.old < steps.new) }
    ensures count { IfOk result (λ joined. (steps.new ≡ steps.old + joined.rejudged)
        ⊎ (steps.new ≡ steps.old + joined.rejudged + 1)) }
    // Where the valid rows show what they change, no segment is judged again. No row shows the
    // entries of page tables that a hart sets.
    ensures none { SetNoMarks start.cores.items
        → ShowChanges (rows_of columns.now (flat_map segment_lines segments.now))
        → IfOk result (λ joined. joined.rejudged ≡ 0) }
    ensures can_step { IfOk result (λ joined. IfSome joined.end (SetCanStep M.ram)) }
    ensures history { IfOk result (λ joined. IsKept origin
        (history_from (set_state_of M.bytes start)
        (rows_of columns.now (flat_map segment_lines segments.now))) joined.history) }
{
    let workers = Workers {
        rt,
        alloc,
        gate,
        count: workers,
        origin,
    };
    settle_in_rounds(&workers, start, columns, segments, steps)
}

/// The same by these workers.
pub fn settle_in_rounds<R, G: Gate, M: PhysMem + Drop + Send + Sync, L: Ledger>(
    workers: &Workers<R, G>,
    start: Harts<M>,
    columns: &Columns,
    segments: &[Segment],
    steps: &mut Steps<L>,
) -> Result<Joined<M>, NoMemory>
where
    R: Threads + Sync,
    requires can_step { SetCanStep M.ram start }
    requires below_2_to_32 { length segments.now < 2 ^ 32 }
    requires lines { line_count_of segments.now < 2 ^ 60 }
    ensures rounds { IfOk result (SettlesInRounds M.bytes columns.now segments.now
        (set_state_of M.bytes start) steps.old steps.new) }
    ensures can_step { IfOk result (λ joined. IfSome joined.end (SetCanStep M.ram)) }
    ensures at_most_all { steps.new ≤ steps.old + length segments.now }
    ensures words { SetHoldsWords (set_state_of M.bytes start) }
    ensures history { IfOk result (λ joined. IsKept workers.now.origin
        (history_from (set_state_of M.bytes start)
        (rows_of columns.now (flat_map segment_lines segments.now))) joined.history) }
{
    set_holds_words(&start);
    let tally = Tally::new();
    let mut settling = Settling {
        harts: start,
        tally,
        history: history_if(workers.alloc, workers.origin),
    };
    'rounds: loop {
        if segments.len() <= settling.tally.settled {
            return Ok(settling.tally.agreement(settling.harts, settling.history));
        }
        match settle_some(workers, columns, segments, settling, steps) {
            Ok(AfterRound::Continue(next)) => settling = next,
            Ok(AfterRound::Ends(joined)) => return Ok(joined),
            Err(NoMemory) => return Err(NoMemory),
        }
    }
}

/// One round over the segments that are left, of which there is one at least.
fn settle_some<R, G: Gate, M: PhysMem + Drop + Send + Sync, L: Ledger>(
    workers: &Workers<R, G>,
    columns: &Columns,
    segments: &[Segment],
    settling: Settling<M>,
    steps: &mut Steps<L>,
) -> Result<AfterRound<M>, NoMemory>
where
    R: Threads + Sync,
    requires can_step { SetCanStep M.ram settling.harts }
    requires left { settling.tally.settled < length segments.now }
    requires below_2_to_32 { length segments.now < 2 ^ 32 }
    requires lines { line_count_of segments.now < 2 ^ 60 }
    requires tallied { IsTallied columns.now segments.now settling.tally }
    ensures leads { IfOk result (LeadsBy workers.now.origin M.bytes M.ram columns.now segments.now
        settling) }
    ensures steps { IfOk result (λ following. steps.new ≡ steps.old + 1) }
    ensures at_most_one { steps.new ≤ steps.old + 1 }
{
    let Settling {
        harts,
        tally,
        mut history,
    } = settling;
    let left = &segments[tally.settled..];
    let mut round = judge_round(workers, harts, columns, left, steps)?;
    follow(&mut history, &round.history, tally.counts.rows)?;
    round.history = history;
    Ok(tally.following(round))
}
