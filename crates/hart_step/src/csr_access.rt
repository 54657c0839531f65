//! The accesses of instructions to control and status registers. From the Unprivileged ISA's
//! chapter ""Zicsr", Control and Status Register (CSR) Instructions".

ghost use Rattle.std.specs.Prelude.{◌≡◌, ℕ, true};
ghost use Rattle.std.specs.Result.{is_ok};
ghost use Rattle.hart_step.specs.CsrAccess.{csr_read_and_write, with_choices, traps_at, traps_by, old_value_by, old_value_of, new_value_of, csrs_after_request, csr_access_result};
ghost use Rattle.csr_file.specs.Access.{csr_write_at};
ghost use Rattle.hart_step.specs.Changes.{csr_access_by, csrs_by};

use crate::changes::CsrWrite;
use crate::choices::RowChoices;
use crate::state::Core;
use csr_file::{CsrRead, Illegal, Presence};
use csr_table::{Csr, CsrRow, row};
use rv_decode::CsrOp;
use rv_integer::CsrRequest;

impl Core {
    /// An access: the destination's value, and what it writes.
    #[tactic(auto, unfolding(crate::specs::CsrAccess::csr_access_result))]
    pub(crate) fn access_csr(
        &self,
        request: &CsrRequest,
        choices: &RowChoices,
    ) -> Result<(u64, Option<CsrWrite>), Illegal>
        ensures accessed { csr_access_by self.now result
            ≡ csr_access_result self.now choices.now request.now }
    {
        if self.traps_at(choices, request.address) {
            Err(Illegal)
        } else {
            self.read_and_write(request, choices)
        }
    }

    /// Whether the row makes an access to the register at an address trap, as a core may make each
    /// access to some registers.
    #[tactic(auto, unfolding(crate::specs::CsrAccess::traps_at))]
    fn traps_at(&self, choices: &RowChoices, address: u16) -> bool
        ensures { result ≡ traps_at self.now choices.now address }
    {
        choices.traps && self.may_trap(row(address))
    }

    fn may_trap(&self, row: Option<CsrRow>) -> bool
        ensures { (choices : RowChoices) → choices.traps ≡ true
            → result ≡ traps_by self.now.csrs.profile choices row }
    {
        match row {
            None => false,
            Some(row) => matches!(self.csrs.profile.presence(row.csr), Presence::MayTrap),
        }
    }

    /// An access that the row does not say trapped.
    #[tactic(auto, unfolding(crate::specs::CsrAccess::csr_read_and_write))]
    fn read_and_write(
        &self,
        request: &CsrRequest,
        choices: &RowChoices,
    ) -> Result<(u64, Option<CsrWrite>), Illegal>
        ensures accessed { csr_access_by self.now result
            ≡ csr_read_and_write self.now choices.now request.now }
    {
        let (value, base) = self.old(request, choices)?;
        let write = self.write_of(request, base)?;
        Ok((value, write))
    }

    /// What a read gives: the value for the destination, and what the set and clear forms start
    /// from. A form that does not read gets nothing.
    #[tactic(auto, unfolding(crate::specs::CsrAccess::old_value_of))]
    fn old(&self, request: &CsrRequest, choices: &RowChoices) -> Result<(u64, u64), Illegal>
        ensures { result ≡ old_value_of self.now choices.now request.now }
    {
        if request.reads {
            self.old_by(choices, request.address, row(request.address))
        } else {
            Ok((0, 0))
        }
    }

    fn old_by(
        &self,
        choices: &RowChoices,
        address: u16,
        row: Option<CsrRow>,
    ) -> Result<(u64, u64), Illegal>
        ensures { result ≡ old_value_by self.now choices.now address row }
    {
        let row = match row {
            None => return Err(Illegal),
            Some(row) => row,
        };
        let read = self.csrs.read(address, self.mode, choices.lines.up)?;
        Ok(self.with_choices(choices, row.csr, read))
    }

    /// The bits that the core decides, and lines that the row does not show, come from the
    /// destination's value.
    fn with_choices(&self, choices: &RowChoices, csr: Csr, read: CsrRead) -> (u64, u64)
        ensures { result ≡ with_choices self.now choices.now csr read }
    {
        let taken = self.csrs.adopted_bits(csr, choices.lines.shown);
        (
            read.value | choices.rd_wdata.unwrap_or(0) & taken,
            read.base,
        )
    }

    /// The form's write, where it is legal.
    fn write_of(&self, request: &CsrRequest, base: u64) -> Result<Option<CsrWrite>, Illegal>
        ensures { csrs_by self.now result ≡ csrs_after_request self.now request.now base }
    {
        if !request.writes {
            return Ok(None);
        }
        if !self.may_write_csr(request.address) {
            return Err(Illegal);
        }
        Ok(Some(CsrWrite {
            address: request.address,
            value: new_of(request.op, base, request.operand),
        }))
    }

    /// Whether a write is legal: of a register that may be read, and is not read-only.
    #[tactic(auto, unfolding(csr_file::specs::Access::csr_read_at, csr_file::specs::Access::csr_write_at, csr_file::specs::Access::may_write))]
    fn may_write_csr(&self, address: u16) -> bool
        ensures { (value : ℕ)
            → is_ok (csr_write_at self.now.csrs address self.now.mode value) ≡ result }
    {
        match row(address) {
            None => false,
            Some(row) => !row.read_only && self.csrs.read(address, self.mode, 0).is_ok(),
        }
    }
}

/// What the form writes.
fn new_of(op: CsrOp, base: u64, operand: u64) -> u64
    ensures { result ≡ new_value_of op base operand }
{
    match op {
        CsrOp::Write => operand,
        CsrOp::Set => base | operand,
        CsrOp::Clear => base & !operand,
    }
}
