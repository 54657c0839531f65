//! What the reference hart did at a valid row of a trace.

ghost use Rattle.std.specs.Prelude.{◌≡◌, []};
ghost use Rattle.rvfi_rows.specs.declared.expected.Expected.TheVariants.{Halted};

use csr_file::Csrs;
use hart_words::{Cause, InsnBits, Mode, Registers, Seen, Wrote};

/// What a step gave: what the reference hart did, and what was read from memory and written to it.
#[derive(Debug, Drop)]
pub struct Stepped {
    pub expected: Expected,
    pub seen: Seen,
    pub wrote: Wrote,
}

impl Stepped {
    /// Of a hart that had halted: it did nothing, and neither read nor wrote.
    pub fn halted() -> Stepped
        ensures expected { result.expected ≡ Halted }
        ensures seen { result.seen ≡ [] }
        ensures wrote { result.wrote ≡ [] }
    {
        Stepped {
            expected: Expected::Halted,
            seen: Seen::empty(),
            wrote: Wrote::empty(),
        }
    }
}

/// What the reference hart did at a row: facts alone. Which signals they hold the row to, and under
/// which masks, is the comparison's to say.
#[derive(Clone, Copy, Debug)]
pub enum Expected {
    /// Nothing: the hart had halted before.
    Halted,
    /// One instruction was retired, or took a synchronous trap.
    Retired(Retired),
}

/// One instruction that was retired, or took a synchronous trap.
#[derive(Clone, Copy, Debug)]
pub struct Retired {
    /// The order index, where one was known.
    pub order: Option<u64>,
    /// Whether the row asked for an interrupt, and none could be taken.
    pub lacks_interrupt: bool,
    /// The instruction's address, after an interrupt's entry.
    pub pc: u64,
    /// The mode of the instruction, after an interrupt's entry.
    pub mode: Mode,
    /// The instruction's bits, where it could be fetched.
    pub insn: Option<u64>,
    /// What rows show of an instruction of 16 bits.
    pub insn_bits: InsnBits,
    /// What the instruction did, or the cause of its trap.
    pub effects: Result<Effects, Cause>,
    /// The control and status registers around the instruction, where the row shows a column of
    /// one. They are large, and few rows show such a column.
    pub csrs: Option<CsrsAround>,
    /// The interrupt lines at the row, by their bits in mip.
    pub lines: u64,
}

/// The control and status registers around an instruction.
#[derive(Clone, Copy, Debug)]
pub struct CsrsAround {
    /// Before the instruction, after an interrupt's entry.
    pub before: Csrs,
    /// After the row, a trap's entry included.
    pub after: Csrs,
}

/// What an instruction that does not trap did.
#[derive(Clone, Copy, Debug)]
pub struct Effects {
    /// The integer registers before the instruction.
    pub registers: Registers,
    /// The registers that it reads, 0 where it reads none.
    pub rs1: u8,
    pub rs2: u8,
    /// The register that it writes, 0 where it writes none, and its value then.
    pub rd: u8,
    pub rd_value: u64,
    /// The address of the next instruction.
    pub next_pc: u64,
    /// The memory access that it made.
    pub access: Option<Accessed>,
}

/// A data access of an instruction.
#[derive(Clone, Copy, Debug)]
pub struct Accessed {
    /// The virtual address of its first byte.
    pub va: u64,
    /// The physical address of that byte.
    pub pa: u64,
    /// How many bytes it has: 1, 2, 4 or 8.
    pub len: u8,
    /// The number that was read, where it reads.
    pub read: Option<u64>,
    /// The number that was written, where it writes.
    pub written: Option<u64>,
}
