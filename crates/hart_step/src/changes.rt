//! What an instruction changes in the hart. A step notes it, and puts it in place once memory has
//! what the instruction writes: until then nothing has changed.

ghost use Rattle.std.specs.Prelude.{◌≡◌, ◌%◌, None};
ghost use Rattle.hart_step.specs.Cores.{IsSound};
ghost use Rattle.hart_step.specs.declared.changes.Change.{Change};
ghost use Rattle.hart_step.specs.declared.instruction.InstructionOutcome.TheVariants.{Trapped};
ghost use Rattle.hart_step.specs.Changes.{core_after_noted_retirement, csrs_after_write, core_after_change, KeepsSound, retirement_of};

use crate::instruction::{Exception, Instruction, InstructionOutcome};
use crate::state::Core;
use hart_words::Cause;
use rv_atomic::Reservation;

/// The destination's value, and where the hart goes on.
#[derive(Clone, Copy, Debug)]
pub struct Retirement {
    /// The destination, 0 where there is none.
    pub rd: u8,
    pub value: u64,
    pub next_pc: u64,
}

impl Retirement {
    /// After an instruction.
    pub fn of(instruction: &Instruction, value: u64, next_pc: u64) -> Retirement
        ensures { result ≡ retirement_of instruction.now value next_pc }
    {
        Retirement {
            rd: instruction.op.operands().rd,
            value,
            next_pc,
        }
    }
}

/// A write of a control and status register.
#[derive(Clone, Copy, Debug)]
pub struct CsrWrite {
    pub address: u16,
    pub value: u64,
}

/// What an instruction changes in the hart, but for memory.
#[derive(Clone, Copy, Debug)]
pub enum Change {
    /// Nothing: it raised an exception.
    Nothing,
    /// The destination and pc.
    Registers(Retirement),
    /// These, and what is reserved after an access to memory.
    Access(Retirement, Reservation),
    /// These, and a control and status register.
    Csr(Retirement, Option<CsrWrite>),
    /// What MRET changes.
    MachineReturn,
    /// What SRET changes.
    SupervisorReturn,
}

/// What becomes of the instruction at pc, as it is noted.
#[derive(Clone, Copy, Debug)]
pub struct InstructionNotes {
    pub executed: InstructionOutcome,
    pub change: Change,
}

impl InstructionNotes {
    /// Nothing yet: a place for what is noted.
    pub fn nothing() -> InstructionNotes
        ensures { result
            ≡ record { executed = Trapped None (Cause.IllegalInstruction, 0); change = Change.Nothing } }
    {
        InstructionNotes {
            executed: InstructionOutcome::Trapped {
                insn: None,
                exception: (Cause::IllegalInstruction, 0),
            },
            change: Change::Nothing,
        }
    }

    /// Notes an exception, which changes nothing before its entry.
    pub fn trap(&mut self, insn: Option<u64>, exception: Exception)
        ensures { self.new ≡ record { executed = Trapped insn exception; change = Change.Nothing } }
    {
        self.executed = InstructionOutcome::Trapped { insn, exception };
        self.change = Change::Nothing;
    }
}

impl Core {
    /// Puts in place what an instruction changes.
    pub(crate) fn apply(&mut self, change: &Change)
        ensures state { self.new ≡ core_after_change self.old change.now }
        ensures sound { IsSound self.old → KeepsSound self.old change.now → IsSound self.new }
        ensures map { self.new.map ≡ self.old.map }
    {
        match change {
            Change::Nothing => {}
            Change::Registers(done) => self.retire(done),
            Change::Access(done, reservation) => {
                self.reservation = *reservation;
                self.retire(done);
            }
            Change::Csr(done, write) => {
                self.write_csr(write);
                self.retire(done);
            }
            Change::MachineReturn => self.return_by_mret(),
            Change::SupervisorReturn => self.return_by_sret(),
        }
    }

    /// The destination gets its value, and the hart goes on.
    fn retire(&mut self, done: &Retirement)
        ensures state { self.new ≡ core_after_noted_retirement self.old done.now }
        ensures sound { IsSound self.old → done.now.next_pc % 2 ≡ 0 → IsSound self.new }
        ensures map { self.new.map ≡ self.old.map }
    {
        self.registers.set(done.rd, done.value);
        self.pc = done.next_pc;
    }

    /// Writes a control and status register, where one is written. A refused write changes nothing.
    fn write_csr(&mut self, write: &Option<CsrWrite>)
        ensures state { self.new ≡ record self.old { csrs = csrs_after_write self.old write.now } }
        ensures sound { IsSound self.old → IsSound self.new }
    {
        if let Some(write) = write {
            match self.csrs.write(write.address, self.mode, write.value) {
                Ok(()) | Err(_) => {}
            }
        }
    }
}
