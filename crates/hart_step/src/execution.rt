//! The instruction at pc: fetched, decoded and executed.

ghost use Rattle.std.specs.Prelude.{◌≡◌, ◌≤◌, ◌<◌, ◌+◌, ◌^◌, ◌%◌, ◌⊎◌, ◌++◌, [], length, OnOk, IfOk, IfSome};
ghost use Rattle.hart_words.specs.Actions.{Notes};
ghost use Rattle.rvfi_rows.specs.Cells.{shown_in};
ghost use Rattle.rv_decode.specs.Operands.{HasEvenOffset, operands_of};
ghost use Rattle.hart_step.specs.Choices.{row_choices_of};
ghost use Rattle.hart_step.specs.Cores.{IsSound};
ghost use Rattle.hart_step.specs.CsrAccess.{csr_access_result};
ghost use Rattle.hart_step.specs.Instructions.{next_address, call_from, after_csr, system_execution, execution_of, op_for, op_of, instruction_run};
ghost use Rattle.hart_step.specs.declared.changes.Change.{Change};
ghost use Rattle.hart_step.specs.declared.instruction.InstructionOutcome.TheVariants.{Trapped};
ghost use Rattle.hart_step.specs.Changes.{retirement_of, completion_by, completion_by_change, KeepsSound, run_by, AreInRam, AreStores};

use crate::changes::{Change, InstructionNotes, Retirement};
use crate::choices::{RowChoices, row_choices_of};
use crate::instruction::{Exception, Instruction, InstructionOutcome};
use crate::state::Core;
use csr_file::fields::{TSR, TVM};
use hart_words::{Cause, MOST_SETS, Mode, PhysMem};
use mem_access::{ACCESS_SETS, Accesses, AddressSpace, FETCH_READS, FETCH_SETS};
use rv_compressed::expand;
use rv_decode::{Op, decode, decode_with};
use rv_integer::{CsrRequest, IntResult, SystemRequest, compute};
use rvfi_rows::{Accessed, Row};

impl Core {
    /// Fetches, decodes and executes what stands at pc: what becomes of it, and what it changes in
    /// the hart. What it reads and what it writes is noted.
    pub(crate) fn run<M: PhysMem>(
        &self,
        mem: &M,
        row: &Row,
        accesses: &mut Accesses,
        notes: &mut InstructionNotes,
    )
        requires sound { IsSound self.now }
        requires ram { M.ram mem.now ≡ self.now.map.ram }
        requires room { length accesses.old.seen ≤ 0 }
        requires unset { length accesses.old.sets ≤ 0 }
        requires blank { accesses.old.stores ≡ [] }
        ensures ran { Notes (instruction_run self.now (shown_in row.now)) (run_by self.now notes.new)
            accesses.old.seen accesses.new.seen accesses.old.sets
            (accesses.new.sets ++ accesses.new.stores) (M.bytes mem.now) }
        ensures keeps { KeepsSound self.now notes.new.change }
        ensures set { length accesses.new.sets ≤ MOST_SETS }
        ensures set_in_ram { AreInRam self.now.map.ram accesses.new.sets }
        ensures stored { AreStores self.now.map.ram accesses.new.stores }
    {
        let space = AddressSpace {
            mem,
            csrs: &self.csrs,
            map: &self.map,
            choices: &self.choices,
            mode: self.mode,
        };
        let fetched = space.fetch(self.pc, accesses);
        let (word, len) = match fetched {
            Ok(word) => word,
            Err(exception) => return notes.trap(None, exception),
        };
        let bits = u64::from(word);
        let op = match self.op_for(word, len) {
            Some(op) => op,
            None => return notes.trap(Some(bits), (Cause::IllegalInstruction, bits)),
        };
        let instruction = Instruction {
            op,
            bits,
            len: u64::from(len),
        };
        match self.execute(&instruction, row, mem, accesses, &mut notes.change) {
            Ok(access) => notes.executed = InstructionOutcome::Retired {
                instruction,
                access,
            },
            Err(exception) => notes.trap(Some(bits), exception),
        }
    }

    /// What the bits of an instruction of this length mean to the hart.
    fn op_for(&self, word: u32, len: u8) -> Option<Op>
        requires lengths { (len ≡ 2) ⊎ (len ≡ 4) }
        requires short { len ≡ 2 → word < 2 ^ 16 }
        ensures meaning { result ≡ op_for self.now word len }
        ensures even { IfSome result HasEvenOffset }
    {
        if len == 2 {
            expand(word as u16)
        } else {
            decode_with(word, self.choices.bits)
        }
    }

    /// An instruction: what it changes in the hart and the access that it makes, or the exception
    /// that it raises.
    fn execute<M: PhysMem>(
        &self,
        instruction: &Instruction,
        row: &Row,
        mem: &M,
        accesses: &mut Accesses,
        change: &mut Change,
    ) -> Result<Option<Accessed>, Exception>
        requires sound { IsSound self.now }
        requires ram { M.ram mem.now ≡ self.now.map.ram }
        requires room { length accesses.old.seen ≤ FETCH_READS }
        requires sets { length accesses.old.sets ≤ FETCH_SETS }
        requires sets_in_ram { AreInRam self.now.map.ram accesses.old.sets }
        requires blank { accesses.old.stores ≡ [] }
        requires even { instruction.now.len % 2 ≡ 0 }
        requires offset { HasEvenOffset instruction.now.op }
        ensures executed { Notes (execution_of self.now
            (row_choices_of (shown_in row.now) (operands_of instruction.now.op).rd) instruction.now)
            (completion_by self.now change.new result)
            accesses.old.seen accesses.new.seen accesses.old.sets
            (accesses.new.sets ++ accesses.new.stores) (M.bytes mem.now) }
        ensures keeps { OnOk result (KeepsSound self.now change.new) }
        ensures set { length accesses.new.sets ≤ FETCH_SETS + ACCESS_SETS }
        ensures set_in_ram { AreInRam self.now.map.ram accesses.new.sets }
        ensures stored { AreStores self.now.map.ram accesses.new.stores }
    {
        let operands = instruction.op.operands();
        let a = self.registers.get(operands.rs1);
        let b = self.registers.get(operands.rs2);
        match compute(instruction.op, a, b, self.pc, instruction.len) {
            IntResult::Value(value) => {
                *change = Change::Registers(self.to_next(instruction, value));
                Ok(None)
            }
            IntResult::Jump { link, target } => {
                *change = Change::Registers(Retirement::of(instruction, link, target));
                Ok(None)
            }
            IntResult::Continue { next_pc } => {
                *change = Change::Registers(Retirement::of(instruction, 0, next_pc));
                Ok(None)
            }
            IntResult::Access(request) => {
                let choices = row_choices_of(row, operands.rd);
                match self.access(&request, &choices, mem, accesses) {
                    Ok(answer) => {
                        let done = self.to_next(instruction, answer.value);
                        *change = Change::Access(done, answer.reservation);
                        Ok(answer.access)
                    }
                    Err(exception) => Err(exception),
                }
            }
            IntResult::System(request) => {
                let choices = row_choices_of(row, operands.rd);
                match self.execute_system(instruction, request, &choices) {
                    Ok(done) => {
                        *change = done;
                        Ok(None)
                    }
                    Err(exception) => Err(exception),
                }
            }
        }
    }

    /// An instruction of the opcode SYSTEM: what it changes in the hart, or the exception that it
    /// raises.
    #[tactic(auto, unfolding(crate::specs::Instructions::system_execution, crate::specs::Instructions::core_after_retirement))]
    fn execute_system(
        &self,
        instruction: &Instruction,
        request: SystemRequest,
        choices: &RowChoices,
    ) -> Result<Change, Exception>
        requires sound { IsSound self.now }
        requires even { instruction.now.len % 2 ≡ 0 }
        ensures executed { completion_by_change self.now result
            ≡ system_execution self.now choices.now instruction.now request }
        ensures keeps { IfOk result (KeepsSound self.now) }
    {
        match request {
            SystemRequest::Csr(request) => self.execute_csr(instruction, &request, choices),
            SystemRequest::EnvironmentCall => Err((call_from(self.mode), 0)),
            SystemRequest::Breakpoint => Err((Cause::Breakpoint, self.pc)),
            SystemRequest::MachineReturn => {
                if !self.may_mret() {
                    return Err(illegal(instruction));
                }
                Ok(Change::MachineReturn)
            }
            SystemRequest::SupervisorReturn => {
                if !self.may_use_supervisor_instruction(TSR) {
                    return Err(illegal(instruction));
                }
                Ok(Change::SupervisorReturn)
            }
            SystemRequest::WaitForInterrupt => {
                if self.wfi_traps(choices) {
                    return Err(illegal(instruction));
                }
                Ok(Change::Registers(self.to_next(instruction, 0)))
            }
            SystemRequest::TranslationFence => {
                if !self.may_use_supervisor_instruction(TVM) {
                    return Err(illegal(instruction));
                }
                Ok(Change::Registers(self.to_next(instruction, 0)))
            }
        }
    }

    /// An access to a control and status register.
    #[tactic(auto, unfolding(crate::specs::Instructions::after_csr, crate::specs::Instructions::core_after_retirement))]
    fn execute_csr(
        &self,
        instruction: &Instruction,
        request: &CsrRequest,
        choices: &RowChoices,
    ) -> Result<Change, Exception>
        requires sound { IsSound self.now }
        requires even { instruction.now.len % 2 ≡ 0 }
        ensures executed { completion_by_change self.now result ≡ after_csr self.now instruction.now
            (csr_access_result self.now choices.now request.now) }
        ensures keeps { IfOk result (KeepsSound self.now) }
    {
        match self.access_csr(request, choices) {
            Ok((value, write)) => Ok(Change::Csr(self.to_next(instruction, value), write)),
            Err(_) => Err(illegal(instruction)),
        }
    }

    /// The destination's value, where the hart goes on after the instruction.
    fn to_next(&self, instruction: &Instruction, value: u64) -> Retirement
        ensures value { result
            ≡ retirement_of instruction.now value (next_address self.now instruction.now) }
        ensures even { self.now.pc % 2 ≡ 0 → instruction.now.len % 2 ≡ 0 → result.next_pc % 2 ≡ 0 }
    {
        Retirement::of(instruction, value, self.pc.wrapping_add(instruction.len))
    }
}

/// What the bits of an instruction of this length mean, without bit manipulation.
pub(crate) fn op_of(word: u32, len: u8) -> Option<Op>
    requires lengths { (len ≡ 2) ⊎ (len ≡ 4) }
    requires short { len ≡ 2 → word < 2 ^ 16 }
    ensures meaning { result ≡ op_of word len }
    ensures even { IfSome result HasEvenOffset }
{
    if len == 2 {
        expand(word as u16)
    } else {
        decode(word)
    }
}

/// An illegal instruction: the trap value is its bits.
fn illegal(instruction: &Instruction) -> Exception
    ensures { result ≡ (Cause.IllegalInstruction, instruction.now.bits) }
{
    (Cause::IllegalInstruction, instruction.bits)
}

/// The cause of an environment call from a mode.
fn call_from(mode: Mode) -> Cause
    ensures { result ≡ call_from mode }
{
    match mode {
        Mode::User => Cause::EnvironmentCallFromUser,
        Mode::Supervisor => Cause::EnvironmentCallFromSupervisor,
        Mode::Machine => Cause::EnvironmentCallFromMachine,
    }
}
