//! Returns from traps, waits and fences. From the Privileged Architecture's chapters "Machine-Level
//! ISA" and "Supervisor-Level ISA".

ghost use Rattle.std.specs.Prelude.{◌≡◌};
ghost use Rattle.hart_step.specs.Cores.{IsSound};
ghost use Rattle.hart_step.specs.Returns.{may_mret, may_use_supervisor_instruction, wfi_traps, core_after_mret, core_after_sret};

use crate::choices::RowChoices;
use crate::state::Core;
use csr_file::fields::TW;
use csr_file::{StoredCsr, has_bit};
use hart_words::Mode;
use trap_entry::{mret, sret};

impl Core {
    /// Whether MRET is legal: in M alone.
    pub(crate) fn may_mret(&self) -> bool
        ensures { result ≡ may_mret self.now.mode }
    {
        matches!(self.mode, Mode::Machine)
    }

    /// Whether an instruction of S is legal: in M, and in S unless this bit of mstatus makes it
    /// trap there.
    #[tactic(auto, unfolding(crate::specs::Returns::may_use_supervisor_instruction))]
    pub(crate) fn may_use_supervisor_instruction(&self, bit: u8) -> bool
        ensures { result ≡ may_use_supervisor_instruction self.now bit }
    {
        match self.mode {
            Mode::Machine => true,
            Mode::Supervisor => !has_bit(self.csrs.get(StoredCsr::Mstatus), bit),
            Mode::User => false,
        }
    }

    /// Whether WFI traps: where it may, and the row says so.
    #[tactic(auto, unfolding(crate::specs::Returns::wfi_traps))]
    pub(crate) fn wfi_traps(&self, choices: &RowChoices) -> bool
        ensures { result ≡ wfi_traps self.now choices.now }
    {
        !self.may_use_supervisor_instruction(TW) && choices.traps
    }

    #[tactic(auto, unfolding(crate::specs::Returns::core_after_mret))]
    pub(crate) fn return_by_mret(&mut self)
        ensures state { self.new ≡ core_after_mret self.old }
        ensures sound { IsSound self.old → IsSound self.new }
        ensures map { self.new.map ≡ self.old.map }
    {
        (self.mode, self.pc) = mret(&mut self.csrs);
    }

    #[tactic(auto, unfolding(crate::specs::Returns::core_after_sret))]
    pub(crate) fn return_by_sret(&mut self)
        ensures state { self.new ≡ core_after_sret self.old }
        ensures sound { IsSound self.old → IsSound self.new }
        ensures map { self.new.map ≡ self.old.map }
    {
        (self.mode, self.pc) = sret(&mut self.csrs);
    }
}
