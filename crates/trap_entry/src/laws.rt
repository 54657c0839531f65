//! What holds of every entry and return.

ghost use Rattle.std.specs.Prelude.{ℕ, Bool};
ghost use Rattle.hart_words.specs.declared.privilege.Mode.{Mode};
ghost use Rattle.csr_file.specs.declared.csrs.Csrs.{Csrs};
ghost use Rattle.trap_entry.specs.Entries.{status_into_machine, status_into_supervisor};
ghost use Rattle.trap_entry.specs.Returns.{status_by_mret, status_by_sret, mret_of, sret_of};
ghost use Rattle.trap_entry.specs.Laws.{ChangesOnly, EntersOnly, is_status, IsStackedForMachine, IsStackedForSupervisor, IsUnstackedByMret, IsUnstackedBySret, MretUndoesEntry, SretUndoesEntry, NeverLowers};

/// Entries and returns change the registers that they name, and no other.
#[tactic(auto, using(crate::proofs::Rest::enters_only, crate::proofs::Rest::mret_only, crate::proofs::Rest::sret_only))]
pub fn the_rest_stays()
    ensures enter { (csrs : Csrs) (mode : Mode) (interrupt : Bool) (cause tval pc : ℕ)
        → EntersOnly csrs mode interrupt cause tval pc }
    ensures mret { (csrs : Csrs) → ChangesOnly is_status csrs (mret_of csrs) }
    ensures sret { (csrs : Csrs) → ChangesOnly is_status csrs (sret_of csrs) }
{}

/// The stack of mstatus, field by field.
pub fn the_stack_of_mstatus()
    ensures into_machine { (status : ℕ) (mode : Mode)
        → IsStackedForMachine status mode (status_into_machine status mode) }
    ensures into_supervisor { (status : ℕ) (mode : Mode)
        → IsStackedForSupervisor status mode (status_into_supervisor status mode) }
    ensures by_mret { (status : ℕ) → IsUnstackedByMret status (status_by_mret status) }
    ensures by_sret { (status : ℕ) → IsUnstackedBySret status (status_by_sret status) }
{}

/// A return gives back the mode, the address and the enables that an entry stacked.
pub fn returns_undo_entries()
    ensures mret { (csrs : Csrs) (mode : Mode) (interrupt : Bool) (cause tval pc : ℕ)
        → MretUndoesEntry csrs mode interrupt cause tval pc }
    ensures sret { (csrs : Csrs) (mode : Mode) (interrupt : Bool) (cause tval pc : ℕ)
        → SretUndoesEntry csrs mode interrupt cause tval pc }
{}

/// A trap is never entered in a mode below the one that it comes in.
#[tactic(auto, using(crate::proofs::Undone::never_lowers))]
pub fn traps_never_lower_the_mode()
    ensures { (csrs : Csrs) (mode : Mode) (interrupt : Bool) (cause : ℕ)
        → NeverLowers csrs mode interrupt cause }
{}
