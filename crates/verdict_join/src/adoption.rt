//! Which judgements of segments are adopted.

ghost use Rattle.std.specs.Prelude.{◌≡◌, ◌&&◌, true, Bool, List, IfSome};
ghost use Rattle.hart_step.specs.declared.state.Core.{Core};
ghost use Rattle.hart_step.specs.HartSets.{SetCanStep, set_state_of};
ghost use Rattle.read_footprint.specs.Footprints.{Accesses, agree, footprint_of};
ghost use Rattle.read_footprint.specs.Sets.{IsFootprintOf};
ghost use Rattle.rvfi_rows.specs.Rows.{RowReading};
ghost use Rattle.row_origin.specs.Histories.{IsKept};
ghost use Rattle.segment_judge.specs.Histories.{history_from};
ghost use Rattle.segment_judge.specs.Judged.{IsJudgement, IsUsable, HoldsInOtherMemories};
ghost use Rattle.verdict_join.specs.Joins.{Sameness};
ghost use Rattle.verdict_join.specs.Laws.{TellsApart};
ghost use Rattle.verdict_join.specs.Walks.{Concludes, IsMissedAs};

use hart_step::Harts;
use hart_words::PhysMem;
use segment_judge::Judged;

/// Whether a guess is met: it is the true state but for memory, and agrees with it in memory on
/// what the segment read.
pub(crate) fn is_met<M: PhysMem + Drop>(
    now: &Harts<M>,
    guess: &Harts<M>,
    judged: &Judged<M>,
) -> bool
    requires now { SetCanStep M.ram now.now }
    requires guess { SetCanStep M.ram guess.now }
    requires usable { IsUsable M.ram (M.ram guess.now.mem) judged.now }
    ensures met { (same : Sameness (List Core)) → TellsApart same → (accesses : List Accesses)
        → IsFootprintOf judged.now.footprint accesses
        → result ≡ (same guess.now.cores.items now.now.cores.items
        && agree (M.bytes guess.now.mem) (M.bytes now.now.mem) (footprint_of accesses)) }
    ensures concludes { result ≡ true → (rows : List RowReading)
        → HoldsInOtherMemories M.bytes (set_state_of M.bytes guess.now) rows judged.now
        → Concludes M.bytes (set_state_of M.bytes now.now) rows judged.now }
    ensures usable { result ≡ true → IsUsable M.ram (M.ram now.now.mem) judged.now }
    // What its rows did from the guess they do from the true state.
    ensures kept { result ≡ true → (origin : Bool) (rows : List RowReading)
        → IsJudgement M.bytes (set_state_of M.bytes guess.now) rows judged.now
        → IsKept origin (history_from (set_state_of M.bytes guess.now) rows) judged.now.history
        → IsKept origin (history_from (set_state_of M.bytes now.now) rows) judged.now.history }
{
    guess.same_but_memory(now) && judged.footprint.agree(&guess.mem, &now.mem)
}

/// How a segment was judged from a guess, where the guess is met.
pub(crate) fn adopted_judgement<'a, M: PhysMem + Drop>(
    now: &Harts<M>,
    guess: &Harts<M>,
    judged: Option<&'a Judged<M>>,
) -> Option<&'a Judged<M>>
    requires now { SetCanStep M.ram now.now }
    requires guess { SetCanStep M.ram guess.now }
    requires usable { IfSome judged (λ judged. IsUsable M.ram (M.ram guess.now.mem) judged.now) }
    ensures misses { (same : Sameness (List Core)) → TellsApart same → (rows : List RowReading)
        → IfSome judged.entry (λ judged.
        IsJudgement M.bytes (set_state_of M.bytes guess.now) rows judged.now)
        → IsMissedAs same (set_state_of M.bytes guess.now) (set_state_of M.bytes now.now) rows
        judged.entry result }
    ensures concludes { (rows : List RowReading)
        → IfSome judged.entry (λ judged.
        IsJudgement M.bytes (set_state_of M.bytes guess.now) rows judged.now)
        → IfSome result (λ judged.
        Concludes M.bytes (set_state_of M.bytes now.now) rows judged.now) }
    ensures usable { IfSome result (λ judged. IsUsable M.ram (M.ram now.now.mem) judged.now) }
    ensures kept { (origin : Bool) (rows : List RowReading)
        → IfSome judged.entry (λ judged.
        IsJudgement M.bytes (set_state_of M.bytes guess.now) rows judged.now)
        → IfSome judged.entry (λ judged. IsKept origin
        (history_from (set_state_of M.bytes guess.now) rows) judged.now.history)
        → IfSome result (λ judged. IsKept origin
        (history_from (set_state_of M.bytes now.now) rows) judged.now.history) }
{
    match judged {
        None => None,
        Some(judged) => {
            if is_met(now, guess, judged) {
                Some(judged)
            } else {
                None
            }
        }
    }
}
