//! The join of a round of segments.

ghost use Rattle.std.specs.Prelude.{◌≡◌, ◌≤◌, ◌<◌, ◌^◌, IfOk, IfSome, length, option_map, take};
ghost use Rattle.std.specs.List.{All, flat_map};
ghost use Rattle.hart_step.specs.HartSets.{SetCanStep, set_state_of};
ghost use Rattle.rvfi_rows.specs.Rows.{rows_of};
ghost use Rattle.rvfi_rows.specs.Segments.{line_count_of, segment_lines};
ghost use Rattle.row_origin.specs.Histories.{IsKept};
ghost use Rattle.segment_judge.specs.Founds.{IsLawfulFound};
ghost use Rattle.segment_judge.specs.Histories.{history_from};
ghost use Rattle.segment_judge.specs.Judgements.{by_set};
ghost use Rattle.segment_judge.specs.Laws.{conclusion_from};
ghost use Rattle.verdict_join.specs.Joining.{WalksThem, candidates_of};

use crate::guessed_segments::GuessedSegments;
use crate::joined::Round;
use hart_step::Harts;
use hart_words::{NoMemory, PhysMem};
use rvfi_rows::{Columns, Segment};
use segment_judge::{Found, Judged};
use std::alloc::Global;

/// Joins the verdicts of a round's segments, from the harts before the first. What was found of
/// them may stand in any order, with any segment missing, and any found twice. The walk ends after
/// the first segment that has to be judged again, so that the guesses after it can be made anew
/// from the true state there. The verdict and the harts after it are those of the segments that
/// were settled, which are one at least where there is any. With `origin` the history of their rows
/// is kept. Where memory is refused nothing is handed back.
#[tactic(auto, using(rvfi_rows::proofs::PortRows::rows_few))]
pub fn join_round<M: PhysMem + Drop>(
    alloc: Global,
    start: Harts<M>,
    columns: &Columns,
    segments: &[Segment],
    guesses: &[Harts<M>],
    founds: Vec<Found<Judged<M>>>,
    origin: bool,
) -> Result<Round<M>, NoMemory>
    requires can_step { SetCanStep M.ram start }
    requires one_each { length guesses.now ≡ length segments.now }
    requires guesses { All (SetCanStep M.ram) guesses.now }
    requires lawful { All
        (IsLawfulFound origin M.bytes M.ram columns.now segments.now guesses.now) founds.items }
    requires segments { length segments.now < 2 ^ 32 }
    requires lines { line_count_of segments.now < 2 ^ 60 }
    ensures round { IfOk result (λ round. WalksThem M.bytes
        (candidates_of M.bytes columns.now segments.now guesses.now founds.items)
        (set_state_of M.bytes start) round) }
    ensures settled { IfOk result (λ round. round.settled ≤ length segments.now) }
    ensures settles_one { IfOk result (λ round. 0 < length segments.now → 0 < round.settled) }
    ensures again { IfOk result (λ round. round.rejudged ≤ 1) }
    ensures verdict { IfOk result (λ round. round.verdict
        ≡ (conclusion_from by_set (set_state_of M.bytes start)
        (rows_of columns.now (flat_map segment_lines (take round.settled segments.now)))).verdict) }
    ensures end { IfOk result (λ round. option_map (set_state_of M.bytes) round.end
        ≡ (conclusion_from by_set (set_state_of M.bytes start)
        (rows_of columns.now (flat_map segment_lines (take round.settled segments.now)))).end) }
    ensures can_step { IfOk result (λ round. IfSome round.end (SetCanStep M.ram)) }
    ensures ram { IfOk result (λ round.
        IfSome round.end (λ set. M.ram set.mem ≡ M.ram start.mem)) }
    ensures history { IfOk result (λ round. IsKept origin
        (history_from (set_state_of M.bytes start)
        (rows_of columns.now (flat_map segment_lines (take round.settled segments.now))))
        round.history) }
{
    let guessed = GuessedSegments {
        columns,
        segments,
        guesses,
        origin,
    };
    guessed.walk(alloc, start, founds)
}
