//! Instructions, and what becomes of them.

ghost use Rattle.std.specs.Prelude.{◌≡◌};
ghost use Rattle.hart_step.specs.Steps.{insn_of};

use hart_words::Cause;
use rv_decode::Op;
use rvfi_rows::Accessed;

/// An exception: its cause and the trap value.
pub type Exception = (Cause, u64);

/// An instruction that was fetched: what it means, its bits, and its length in bytes, 2 or 4.
#[derive(Clone, Copy, Debug)]
pub struct Instruction {
    pub op: Op,
    pub bits: u64,
    pub len: u64,
}

/// What became of the instruction at pc.
#[derive(Clone, Copy, Debug)]
pub enum InstructionOutcome {
    /// It raised an exception; its bits are known where it could be fetched.
    Trapped {
        insn: Option<u64>,
        exception: Exception,
    },
    /// It was retired, with the access that it made.
    Retired {
        instruction: Instruction,
        access: Option<Accessed>,
    },
}

impl InstructionOutcome {
    /// The bits that were fetched.
    pub fn insn(&self) -> Option<u64>
        ensures { result ≡ insn_of self.now }
    {
        match self {
            InstructionOutcome::Trapped { insn, .. } => *insn,
            InstructionOutcome::Retired { instruction, .. } => Some(instruction.bits),
        }
    }
}
