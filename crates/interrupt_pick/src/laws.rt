//! What holds of every interrupt that is picked.

ghost use Rattle.std.specs.Prelude.{ℕ};
ghost use Rattle.hart_words.specs.declared.privilege.Mode.{Mode};
ghost use Rattle.csr_file.specs.declared.csrs.Csrs.{Csrs};
ghost use Rattle.interrupt_pick.specs.Laws.{PicksFirst, PicksNoneRightly, PicksTaken, PicksWhereEntered};

/// What is picked is pending and enabled, is taken in S where it is delegated and else in M, and
/// never in a mode below the one that it comes in.
#[tactic(auto, using(crate::proofs::Taken::picks_taken))]
pub fn picks_are_taken()
    ensures { (csrs : Csrs) (mode : Mode) (lines : ℕ) → PicksTaken csrs mode lines }
{}

/// The mode that is picked is the one that `trap_entry::enter` enters for that interrupt.
#[tactic(auto, using(crate::proofs::Entered::picks_where_entered))]
pub fn picks_are_where_entered()
    ensures { (csrs : Csrs) (mode : Mode) (lines : ℕ) → PicksWhereEntered csrs mode lines }
{}

/// What is picked is the first, in the standard's order, of the interrupts that M takes; where M
/// takes none, the first of those that S takes. Nothing is picked just where neither takes one.
#[tactic(auto, using(crate::proofs::Firsts::picks_first, crate::proofs::Firsts::picks_none_rightly))]
pub fn picks_are_first()
    ensures first { (csrs : Csrs) (mode : Mode) (lines : ℕ) → PicksFirst csrs mode lines }
    ensures none { (csrs : Csrs) (mode : Mode) (lines : ℕ) → PicksNoneRightly csrs mode lines }
{}
