//! What workers do.

ghost use Rattle.std.specs.Prelude.{◌≡◌, ◌<◌, ◌^◌, length};
ghost use Rattle.segment_workers.specs.Runs.{ends_trace};

use crate::work::{Work, Worker};
use hart_step::Harts;
use hart_words::{NoMemory, PhysMem};
use outside_ports::Gate;
use rvfi_rows::{Columns, Segment, Verdict};
use segment_judge::{Found, Judged, What, judge};
use std::alloc::Global;
use verdict_board::{Board, Seat};

/// What all workers share: the board, and the segments with a guess before each.
#[derive(Drop)]
pub(crate) struct Task<'a, M: PhysMem, G> {
    pub alloc: Global,
    pub board: &'a Board,
    pub guesses: &'a [Harts<M>],
    pub columns: &'a Columns,
    pub segments: &'a [Segment],
    pub gate: &'a G,
    /// Whether histories are kept.
    pub keeps_history: bool,
    ghost theirs: { board.now.segments ≡ length segments.now },
    ghost one_each: { length guesses.now ≡ length segments.now },
    ghost below_2_to_32: { length segments.now < 2 ^ 32 },
}

impl<'a, M: PhysMem + Drop, G: Gate> Task<'a, M, G> {
    ghost use Rattle.std.specs.Prelude.{IfOk, vec_len};
    ghost use Rattle.std.specs.List.{All};
    ghost use Rattle.board_core.specs.Bags.{Has};
    ghost use Rattle.hart_step.specs.HartSets.{SetCanStep};
    ghost use Rattle.segment_judge.specs.Founds.{IsJudgedFrom, IsLawfulFound, IsLawfulWhat};
    ghost use Rattle.verdict_board.specs.Seats.{IsAt, IsSameSeat, view_of};
    ghost use Rattle.verdict_board.specs.Views.{lead};
    ghost use Rattle.segment_workers.specs.Works.{FindsSo, HaveDone, IsFreshSeat};

    /// Works at a seat until no segment is left. Where memory is refused the worker stops.
    pub fn work(&self, worker: Worker) -> Result<Work<M>, NoMemory>
        requires can_step { All (SetCanStep M.ram) self.now.guesses.now }
        requires new { IsFreshSeat (length self.now.segments.now) self.now.board.now worker.seat }
        ensures { IfOk result (λ work. HaveDone
            (IsLawfulFound self.now.keeps_history M.bytes M.ram self.now.columns.now
            self.now.segments.now
            self.now.guesses.now)
            (length self.now.segments.now) (view_of worker.seat).seats 1 self.now.board.now
            work) }
    {
        let Worker { number, mut seat } = worker;
        let mut founds = Vec::new(self.alloc);
        while let Some(seg) = self.board.claim(&mut seat) {
            let what = self.find(number, seg, &mut seat)?;
            founds.push(Found { seg, what })?;
        }
        Ok(Work { founds, seat })
    }

    /// Joins the seats of all workers, and gathers what they found.
    pub fn gather(&self, mut works: Vec<Result<Work<M>, NoMemory>>) -> Result<Work<M>, NoMemory>
        requires nonempty { 0 < vec_len works }
        requires done { All (λ work. IfOk work (HaveDone
            (IsLawfulFound self.now.keeps_history M.bytes M.ram self.now.columns.now
            self.now.segments.now
            self.now.guesses.now)
            (length self.now.segments.now) (vec_len works) 1 self.now.board.now)) works.items }
        ensures { IfOk result (HaveDone
            (IsLawfulFound self.now.keeps_history M.bytes M.ram self.now.columns.now
            self.now.segments.now
            self.now.guesses.now)
            (length self.now.segments.now) (vec_len works) (vec_len works) self.now.board.now) }
    {
        let mut all = match works.pop() {
            None => unreachable!(),
            Some(work) => work?,
        };
        for work in works {
            let mut work = work?;
            all.founds.append(&mut work.founds)?;
            self.board.join(&mut all.seat, work.seat);
        }
        Ok(all)
    }

    /// Finds out about a segment that the seat drew, between the gate's two calls.
    fn find(&self, worker: u32, seg: u32, seat: &mut Seat) -> Result<What<Judged<M>>, NoMemory>
        requires can_step { All (SetCanStep M.ram) self.now.guesses.now }
        requires at { IsAt self.now.board.now seat.old }
        requires below { seg < length self.now.segments.now }
        requires drawn { Has (view_of seat.old).draws (lead (view_of seat.old), seg) }
        ensures at { IsAt self.now.board.now seat.new }
        ensures same { IsSameSeat (view_of seat.old) (view_of seat.new) }
        ensures lawful { IfOk result (λ what. IsLawfulWhat self.now.keeps_history M.bytes M.ram
            self.now.columns.now
            self.now.segments.now self.now.guesses.now seg what) }
        ensures finds { IfOk result (FindsSo (view_of seat.old) (view_of seat.new) seg) }
    {
        self.gate.before(worker, seg);
        let what = self.look_and_judge(seg, seat);
        self.gate.after(worker, seg);
        what
    }

    /// Judges a segment that the seat drew, and posts it where it ends the trace; skips it where a
    /// segment before it was posted.
    fn look_and_judge(&self, seg: u32, seat: &mut Seat) -> Result<What<Judged<M>>, NoMemory>
        requires can_step { All (SetCanStep M.ram) self.now.guesses.now }
        requires at { IsAt self.now.board.now seat.old }
        requires below { seg < length self.now.segments.now }
        requires drawn { Has (view_of seat.old).draws (lead (view_of seat.old), seg) }
        ensures at { IsAt self.now.board.now seat.new }
        ensures same { IsSameSeat (view_of seat.old) (view_of seat.new) }
        ensures lawful { IfOk result (λ what. IsLawfulWhat self.now.keeps_history M.bytes M.ram
            self.now.columns.now
            self.now.segments.now self.now.guesses.now seg what) }
        ensures finds { IfOk result (FindsSo (view_of seat.old) (view_of seat.new) seg) }
    {
        let least = self.board.look(seat);
        if least < seg {
            return Ok(What::Skipped(least));
        }
        let judged = self.judge(seg)?;
        if ends_trace(&judged.verdict) {
            self.board.post(seat, seg);
        }
        Ok(What::Judged(judged))
    }

    /// Judges a segment from the guess before it.
    fn judge(&self, seg: u32) -> Result<Judged<M>, NoMemory>
        requires can_step { All (SetCanStep M.ram) self.now.guesses.now }
        requires below { seg < length self.now.segments.now }
        ensures { IfOk result (IsJudgedFrom self.now.keeps_history M.bytes M.ram
            self.now.columns.now
            self.now.segments.now self.now.guesses.now seg) }
    {
        let number = seg as usize;
        judge(
            self.alloc,
            &self.guesses[number],
            self.columns,
            &self.segments[number],
            self.keeps_history,
        )
    }
}

/// Whether a verdict ends the trace.
fn ends_trace(verdict: &Verdict) -> bool
    ensures { result ≡ ends_trace verdict.now }
{
    match verdict {
        Verdict::Agrees { .. } => false,
        Verdict::Differs { .. } | Verdict::Refused { .. } => true,
    }
}
