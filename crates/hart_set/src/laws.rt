//! What holds of every set of harts.

ghost use Rattle.std.specs.Prelude.{◌≡◌, ℕ, List, [], ◌∷◌, Some, None, slice_get};
ghost use Rattle.hart_words.specs.Memory.{AgreeOn, Bytes};
ghost use Rattle.hart_words.specs.Signals.{Shown};
ghost use Rattle.rvfi_rows.specs.Meanings.{Meaning};
ghost use Rattle.hart_set.specs.Laws.{as_set, idle, set_run, StepsItsHart, TakesItsHart};

/// Memories that agree on what the step of a hart reads give the same step of the set: the same
/// harts after it, the same facts about it, the same reads and the same writes.
pub fn steps_are_framed<C>()
    ensures { (meaning : Meaning C) (cores : List C) (shown : Shown) (number : ℕ)
        (one other : Bytes) → AgreeOn (set_run meaning cores shown number one).reads one other
        → set_run meaning cores shown number other ≡ set_run meaning cores shown number one }
{}

/// A row's hart does what it does alone over that memory. Each other hart is as it was, but for
/// what it loses by the bytes that were written: its reservation, where one of them lies in its
/// block.
pub fn rows_step_their_hart<C>()
    ensures { (meaning : Meaning C) (cores : List C) (shown : Shown) (number : ℕ) (core : C)
        (bytes : Bytes) → slice_get cores number ≡ Some core
        → StepsItsHart meaning cores shown number core bytes }
{}

/// The same of the state that a guess takes from a plain row.
pub fn rows_are_taken_by_their_hart<C>()
    ensures { (meaning : Meaning C) (cores : List C) (shown : Shown) (number : ℕ) (core : C)
        (bytes : Bytes) → slice_get cores number ≡ Some core
        → TakesItsHart meaning cores shown number core bytes }
{}

/// With one hart the set is that hart.
pub fn one_hart_is_the_hart<C>()
    ensures { (meaning : Meaning C) (core : C) (shown : Shown) (bytes : Bytes)
        → set_run meaning (core ∷ []) shown 0 bytes
        ≡ as_set ((meaning.stepped core shown).run bytes) }
{}

/// A hart that is not there does nothing, and nothing is done to the others.
pub fn absent_harts_do_nothing<C>()
    ensures { (meaning : Meaning C) (cores : List C) (shown : Shown) (number : ℕ) (bytes : Bytes)
        → slice_get cores number ≡ None → set_run meaning cores shown number bytes ≡ idle cores }
{}
