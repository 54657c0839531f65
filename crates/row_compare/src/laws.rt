//! What holds of every comparison.

ghost use Rattle.hart_words.specs.Signals.{Shown};
ghost use Rattle.rvfi_rows.specs.declared.expected.Retired.{Retired as Retirement};
ghost use Rattle.row_compare.specs.Laws.{AgreesInAll, DiffersWhereShown};

/// A signal that is not shown, or is free, never differs. The values of a difference are unequal
/// and have no bit outside the mask.
#[tactic(auto, using(crate::proofs::Among::differs_where_shown))]
pub fn differences_are_of_shown_signals()
    ensures { (retired : Retirement) (shown : Shown) → DiffersWhereShown retired shown }
{}

/// Where no difference is found, no signal at all differs.
#[tactic(auto, using(crate::proofs::Among::agrees_in_all))]
pub fn agreement_is_in_all_signals()
    ensures { (retired : Retirement) (shown : Shown) → AgreesInAll retired shown }
{}
