//! Walking segments from the true state before the first.

ghost use Rattle.std.specs.Prelude.{◌≡◌, ◌<◌, ◌^◌, IfOk, length};
ghost use Rattle.std.specs.Option.{is_none};
ghost use Rattle.std.specs.List.{All};
ghost use Rattle.rvfi_rows.specs.Segments.{row_count_of};
ghost use Rattle.verdict_join.specs.Walks.{ArePlaced};

use crate::adoption::adopted_judgement;
use crate::joined::Round;
use crate::walk::Walk;
use hart_step::Harts;
use hart_words::{NoMemory, PhysMem};
use row_origin::history_if;
use rvfi_rows::{Columns, RowCounts, Segment};
use segment_judge::{Found, Judged, What};
use std::alloc::Global;

/// Segments, each with a guess of the harts before it.
#[derive(Drop)]
pub(crate) struct GuessedSegments<'a, M: PhysMem> {
    pub columns: &'a Columns,
    pub segments: &'a [Segment],
    pub guesses: &'a [Harts<M>],
    /// Whether histories are kept.
    pub origin: bool,
    ghost one_each: { length guesses.now ≡ length segments.now },
    ghost below_2_to_32: { length segments.now < 2 ^ 32 },
    // Each line has four rows at most.
    ghost rows: { row_count_of columns.now segments.now < 2 ^ 62 },
}

impl<'a, M: PhysMem + Drop> GuessedSegments<'a, M> {
    ghost use Rattle.std.specs.Prelude.{IfSome, take};
    ghost use Rattle.std.specs.List.{flat_map};
    ghost use Rattle.rvfi_rows.specs.Rows.{rows_of};
    ghost use Rattle.rvfi_rows.specs.Segments.{segment_lines};
    ghost use Rattle.hart_step.specs.HartSets.{SetCanStep, set_state_of};
    ghost use Rattle.row_origin.specs.Histories.{IsKept};
    ghost use Rattle.segment_judge.specs.Founds.{IsLawfulFound};
    ghost use Rattle.segment_judge.specs.Histories.{history_from};
    ghost use Rattle.verdict_join.specs.Joining.{WalksThem, candidates_of};

    /// Walks the segments in order, from the harts before the first, by what was found of them: to
    /// the first that does not agree or has to be judged again.
    pub fn walk(
        &self,
        alloc: Global,
        start: Harts<M>,
        founds: Vec<Found<Judged<M>>>,
    ) -> Result<Round<M>, NoMemory>
        requires can_step { SetCanStep M.ram start }
        requires guesses { All (SetCanStep M.ram) self.now.guesses.now }
        requires lawful { All (IsLawfulFound self.now.origin M.bytes M.ram self.now.columns.now
            self.now.segments.now self.now.guesses.now) founds.items }
        ensures walks { IfOk result (λ round. WalksThem M.bytes
            (candidates_of M.bytes self.now.columns.now self.now.segments.now
            self.now.guesses.now founds.items) (set_state_of M.bytes start) round) }
        ensures can_step { IfOk result (λ round. IfSome round.end (SetCanStep M.ram)) }
        ensures ram { IfOk result (λ round.
            IfSome round.end (λ set. M.ram set.mem ≡ M.ram start.mem)) }
        ensures history { IfOk result (λ round. IsKept self.now.origin
            (history_from (set_state_of M.bytes start) (rows_of self.now.columns.now
            (flat_map segment_lines (take round.settled self.now.segments.now))))
            round.history) }
    {
        let segments = self.segments;
        let guesses = self.guesses;
        let places = judged_segments(alloc, segments.len(), &founds)?;
        let mut walk = Walk {
            harts: start,
            counts: RowCounts::zero(),
            rejudged: 0,
            history: history_if(alloc, self.origin),
        };
        for number in 0..segments.len() {
            let judged = adopted_judgement(&walk.harts, &guesses[number], places[number]);
            let is_last = is_last(judged);
            match walk.pass(alloc, self.columns, &segments[number], judged, self.origin)? {
                None => {
                    if is_last {
                        return Ok(walk.agreeing_round(number + 1));
                    }
                }
                Some(verdict) => return Ok(walk.ending_round(number + 1, verdict)),
            }
        }
        Ok(walk.agreeing_round(segments.len()))
    }
}

/// Whether a walk ends after a segment of which this was adopted: nothing was, and it had to be
/// judged again.
fn is_last<M: PhysMem>(adopted: Option<&Judged<M>>) -> bool
    ensures { result ≡ is_none adopted.entry }
{
    adopted.is_none()
}

/// How each of so many segments was judged, where it was.
fn judged_segments<'a, M: PhysMem + Drop>(
    alloc: Global,
    count: usize,
    founds: &'a [Found<Judged<M>>],
) -> Result<Vec<Option<&'a Judged<M>>>, NoMemory>
    requires below { All (λ found. found.seg < count) founds.now }
    ensures { IfOk result (λ places. ArePlaced count founds.now places.items) }
{
    let mut places = Vec::with_capacity(alloc, count)?;
    for _ in 0..count {
        places.push(None)?;
    }
    for found in founds {
        if let What::Judged(judged) = &found.what {
            places[found.seg as usize] = Some(judged);
        }
    }
    Ok(places)
}
