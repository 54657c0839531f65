//! What holds of accesses, whatever a core makes of its registers and its protection.

ghost use Rattle.std.specs.Prelude.{◌≡◌, ℕ, Some, IfOk};
ghost use Rattle.hart_words.specs.declared.privilege.Access.{Access};
ghost use Rattle.hart_words.specs.declared.privilege.Mode.{Mode};
ghost use Rattle.csr_table.specs.declared.registers.CsrRow.{CsrRow};
ghost use Rattle.csr_table.specs.Addresses.{csr_row_of};
ghost use Rattle.csr_file.specs.declared.csrs.Csrs.{Csrs};
ghost use Rattle.rv_integer.specs.declared.int_result.CsrRequest.{CsrRequest};
ghost use Rattle.rv_integer.specs.declared.int_result.SystemRequest.TheVariants.{Csr};
ghost use Rattle.hart_step.specs.declared.choices.RowChoices.{RowChoices};
ghost use Rattle.hart_step.specs.declared.instruction.Instruction.{Instruction};
ghost use Rattle.hart_step.specs.declared.state.Core.{Core};
ghost use Rattle.hart_step.specs.Instructions.{system_execution};
ghost use Rattle.hart_laws.specs.Profiles.{Accesses, AllowsAll, GivesRdAlone, IsDecided, IsIllegal, IsMissing, LacksEntries};

/// An access to a register that the core does not have is illegal in every mode, whatever the row
/// shows; and so is one to a register of protection where the core has no entry.
#[tactic(auto, using(crate::proofs::Profiles::missing_is_illegal, crate::proofs::Profiles::lacking_is_illegal))]
pub fn registers_that_are_missing_trap()
    ensures missing { (core : Core) (choices : RowChoices) (request : CsrRequest) (row : CsrRow)
        → Accesses request → csr_row_of request.address ≡ Some row → IsMissing core row
        → IsIllegal core choices request }
    ensures protection { (core : Core) (choices : RowChoices) (request : CsrRequest)
        (row : CsrRow) → Accesses request → csr_row_of request.address ≡ Some row
        → LacksEntries core row → IsIllegal core choices request }
{}

/// What a row gives for a register that the core decides goes to the destination, and decides
/// nothing else: an access that retires leaves every other register, the mode and what is reserved
/// as they were.
#[tactic(auto, using(crate::proofs::Profiles::decided_gives))]
pub fn registers_of_the_row_give_rd_alone()
    ensures { (core : Core) (choices : RowChoices) (instruction : Instruction)
        (request : CsrRequest) (row : CsrRow) → csr_row_of request.address ≡ Some row
        → IsDecided core row
        → IfOk (system_execution core choices instruction (Csr request))
        (GivesRdAlone core instruction) }
{}

/// Where a core has no entry of protection, protection refuses no mode any access, a read of a page
/// table among them.
#[tactic(auto, using(crate::proofs::Profiles::allows_all))]
pub fn no_entries_refuse_nothing()
    ensures { (csrs : Csrs) (mode : Mode) (pa len : ℕ) (access : Access)
        → AllowsAll csrs mode pa len access }
{}
