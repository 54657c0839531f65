//! Judging a trace in segments.

ghost use Rattle.std.specs.Prelude.{◌≡◌, ◌+◌, ◌<◌, ◌≤◌, ◌^◌, IfOk, IfSome, length, option_map, take};
ghost use Rattle.std.specs.List.{All, flat_map};
ghost use Rattle.hart_step.specs.HartSets.{SetCanStep, set_state_of};
ghost use Rattle.rvfi_rows.specs.Rows.{rows_of};
ghost use Rattle.rvfi_rows.specs.Segments.{line_count_of, segment_lines};
ghost use Rattle.row_origin.specs.Histories.{IsKept};
ghost use Rattle.segment_judge.specs.Founds.{IsLawfulFound};
ghost use Rattle.segment_judge.specs.Histories.{history_from};
ghost use Rattle.segment_judge.specs.Judgements.{by_set};
ghost use Rattle.segment_judge.specs.Laws.{conclusion_from};
ghost use Rattle.verdict_join.specs.Joining.{candidates_of};
ghost use Rattle.verdict_join.specs.Laws.{AreJudgedInTurn};
ghost use Rattle.judge_run.specs.Events.{AreLeft};
ghost use Rattle.judge_run.specs.Settling.{IsRoundOver};

use crate::workers::Workers;
use boundary_guess::guesses;
use hart_step::Harts;
use hart_words::{NoMemory, PhysMem};
use outside_ports::Gate;
use rvfi_rows::{Columns, Segment};
use segment_judge::{Found, Judged};
use segment_workers::{Steps, run};
use std::sync::ledger::Ledger;
use std::thread::Threads;
use verdict_board::Board;
use verdict_join::{Round, join_round};

/// A round over segments that were read: from guesses made of the state before the first, up to the
/// first that does not agree or has to be judged again.
pub fn judge_round<R, G: Gate, M: PhysMem + Drop + Send + Sync, L: Ledger>(
    workers: &Workers<R, G>,
    start: Harts<M>,
    columns: &Columns,
    segments: &[Segment],
    steps: &mut Steps<L>,
) -> Result<Round<M>, NoMemory>
where
    R: Threads + Sync,
    requires can_step { SetCanStep M.ram start }
    requires below_2_to_32 { length segments.now < 2 ^ 32 }
    requires lines { line_count_of segments.now < 2 ^ 60 }
    ensures over { IfOk result
        (IsRoundOver M.bytes M.ram columns.now segments.now (set_state_of M.bytes start)) }
    ensures history { IfOk result (λ round. IsKept workers.now.origin
        (history_from (set_state_of M.bytes start)
        (rows_of columns.now (flat_map segment_lines (take round.settled segments.now))))
        round.history) }
    ensures steps { IfOk result (λ round. steps.new ≡ steps.old + 1) }
    ensures at_most_one { steps.new ≤ steps.old + 1 }
{
    // Where much was written so far, it is a layer of memory from here on, which copies share.
    let start = start.copy()?;
    let guesses = guesses(workers.alloc, &start, columns, segments)?;
    let founds = find_by_workers(workers, &guesses, columns, segments, steps)?;
    join_round(
        workers.alloc,
        start,
        columns,
        segments,
        &guesses,
        founds,
        workers.origin,
    )
}

/// What the workers find of segments, from the guesses before them. The events of the board that
/// they worked at leave that, so that what is said of all such lists holds of it. Up to the first
/// that does not agree from its guess, each is judged.
fn find_by_workers<R, G: Gate, M: PhysMem + Drop + Send + Sync, L: Ledger>(
    workers: &Workers<R, G>,
    guesses: &[Harts<M>],
    columns: &Columns,
    segments: &[Segment],
    steps: &mut Steps<L>,
) -> Result<Vec<Found<Judged<M>>>, NoMemory>
where
    R: Threads + Sync,
    requires below_2_to_32 { length segments.now < 2 ^ 32 }
    requires one_each { length guesses.now ≡ length segments.now }
    requires guesses { All (SetCanStep M.ram) guesses.now }
    ensures lawful { IfOk result (λ founds. All
        (IsLawfulFound workers.now.origin M.bytes M.ram columns.now segments.now guesses.now) founds.items) }
    ensures events { IfOk result (λ founds.
        AreLeft M.bytes M.ram columns.now segments.now guesses.now founds.items) }
    ensures judged { IfOk result (λ founds. AreJudgedInTurn by_set
        (candidates_of M.bytes columns.now segments.now guesses.now founds.items)) }
    ensures steps { IfOk result (λ founds. steps.new ≡ steps.old + 1) }
    ensures at_most_one { steps.new ≤ steps.old + 1 }
{
    let n = segments.len() as u32;
    let (board, seats) = Board::open(workers.alloc, n, workers.count)?;
    let (founds, seat) = run(
        workers.rt,
        workers.alloc,
        &board,
        seats,
        guesses,
        columns,
        segments,
        workers.gate,
        workers.origin,
        steps,
    )?;
    let _closed = board.close(seat);
    Ok(founds)
}
