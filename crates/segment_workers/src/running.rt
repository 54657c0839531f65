//! A worker for each seat.

ghost use Rattle.std.specs.Prelude.{◌≡◌, ◌+◌, ◌<◌, ◌≤◌, ◌^◌, IfOk, length, map, vec_len};
ghost use Rattle.std.specs.List.{All};
ghost use Rattle.hart_step.specs.HartSets.{SetCanStep};
ghost use Rattle.segment_judge.specs.Founds.{IsLawfulFound};
ghost use Rattle.verdict_board.specs.Seats.{IsAt, view_of};
ghost use Rattle.verdict_board.specs.Views.{IsWhole};
ghost use Rattle.segment_workers.specs.Runs.{AreAllSeats, ArePosted, DrewEach, FoundBelow, HasReason, HaveOwnLooks};
ghost use Rattle.segment_workers.specs.Works.{HaveDone, IsFreshSeat, seat_of};

use crate::chain::call_each;
use crate::steps::Steps;
use crate::task::Task;
use crate::work::{Work, Worker};
use hart_step::Harts;
use hart_words::{NoMemory, PhysMem};
use outside_ports::Gate;
use rvfi_rows::{Columns, Segment};
use segment_judge::{Found, Judged};
use std::alloc::Global;
use std::sync::ledger::Ledger;
use std::thread::Threads;
use verdict_board::{Board, Seat};

/// Judges segments from the guesses before them, by one worker for each seat of a board: what was
/// found of them, in any order, and the seats as one. A segment is skipped where one before it was
/// posted. With `keeps_history` the history of each that is judged is kept. Where memory is refused
/// nothing is handed back. The call counts one on `steps`.
pub fn run<R: Threads + Sync, M: PhysMem + Drop + Send + Sync, G: Gate, L: Ledger>(
    rt: &R,
    alloc: Global,
    board: &Board,
    seats: Vec<Seat>,
    guesses: &[Harts<M>],
    columns: &Columns,
    segments: &[Segment],
    gate: &G,
    keeps_history: bool,
    steps: &mut Steps<L>,
) -> Result<(Vec<Found<Judged<M>>>, Seat), NoMemory>
    requires seats { AreAllSeats (length segments.now) board.now seats.items }
    requires one_each { length guesses.now ≡ length segments.now }
    requires can_step { All (SetCanStep M.ram) guesses.now }
    requires below_2_to_32 { length segments.now < 2 ^ 32 }
    ensures lawful { IfOk result (λ done. All
        (IsLawfulFound keeps_history M.bytes M.ram columns.now segments.now guesses.now)
        done.0.items) }
    ensures once { IfOk result (λ done. FoundBelow (length segments.now) done.0.items) }
    ensures drawn { IfOk result (λ done.
        DrewEach (length segments.now) (view_of done.1).draws) }
    ensures by { IfOk result (λ done. HaveOwnLooks (view_of done.1) done.0.items) }
    ensures reasons { IfOk result (λ done.
        All (HasReason (view_of done.1).posts) done.0.items) }
    ensures posted { IfOk result (λ done. ArePosted done.0.items (view_of done.1).posts) }
    ensures at { IfOk result (λ done. IsAt board.now done.1) }
    ensures whole { IfOk result (λ done. IsWhole (view_of done.1)) }
    ensures steps { steps.new ≡ steps.old + 1 }
{
    steps.count();
    let workers = workers_at(alloc, seats)?;
    let task = Task {
        alloc,
        board,
        guesses,
        columns,
        segments,
        gate,
        keeps_history,
    };
    let work = |worker: Worker| -> Result<Work<M>, NoMemory>
        requires { All (SetCanStep M.ram) task.guesses.now
            × IsFreshSeat (length task.segments.now) task.board.now worker.seat }
        ensures { IfOk result (HaveDone
            (IsLawfulFound task.entry.keeps_history M.bytes M.ram task.entry.columns.now
            task.entry.segments.now
            task.entry.guesses.now)
            (length task.entry.segments.now) (view_of worker.seat).seats 1
            task.entry.board.now) }
    { task.work(worker) };
    let works = call_each(rt, &work, workers)?;
    let Work { founds, seat } = task.gather(works)?;
    Ok((founds, seat))
}

/// A worker at each seat.
fn workers_at(alloc: Global, seats: Vec<Seat>) -> Result<Vec<Worker>, NoMemory>
    requires { vec_len seats ≤ 64 }
    ensures { IfOk result (λ workers. map seat_of workers.items ≡ seats.items) }
{
    let mut workers = Vec::with_capacity(alloc, seats.len())?;
    let mut number = 0;
    for seat in seats {
        workers.push(Worker { number, seat })?;
        number += 1;
    }
    Ok(workers)
}
