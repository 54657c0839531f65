//! What a core may do where the standard leaves it to the maker.

ghost use Rattle.std.specs.Prelude.{◌≡◌};
ghost use Rattle.hart_words.specs.Options.{are_by_row, are_cut, are_done, are_set, has_cause, is_zero_for};

/// What a load or a store at an address that is no multiple of its length does. LR, SC and the AMOs
/// trap there in any case. From the Unprivileged ISA's chapter "RV32I Base Integer Instruction Set"
/// (load and store instructions).
#[derive(Clone, Copy, Debug, PartialEq, Eq)]
pub enum Misaligned {
    /// It traps.
    Trap,
    /// The hart carries it out.
    Done,
}

impl Misaligned {
    /// Whether the hart carries them out.
    pub fn are_done(self) -> bool
        ensures { result ≡ are_done self }
    {
        match self {
            Misaligned::Trap => false,
            Misaligned::Done => true,
        }
    }
}

/// A set of causes of exceptions: a cause is in it where the bit of its code is set.
#[derive(Clone, Copy, Debug, PartialEq, Eq)]
pub struct CauseSet {
    pub codes: u16,
}

impl CauseSet {
    /// Whether the cause with this code is in the set.
    #[tactic(auto, using(crate::proofs::Causes::no_high_cause))]
    pub fn has(self, code: u8) -> bool
        ensures { result ≡ has_cause self code }
    {
        code < 16 && (self.codes >> code) % 2 == 1
    }
}

/// What a trap puts into mtval or stval. From the Privileged Architecture's chapters "Machine-Level
/// ISA" and "Supervisor-Level ISA".
#[derive(Clone, Copy, Debug, PartialEq, Eq)]
pub enum TrapValues {
    /// The address that was refused, or the bits of an illegal instruction.
    Value,
    /// 0, whatever the trap.
    Zero,
    /// 0 in exceptions of these causes, and in all others as `Value` says.
    ZeroFor(CauseSet),
}

impl TrapValues {
    /// Whether the trap value of the cause with this code is 0.
    pub fn is_zero_for(self, code: u8) -> bool
        ensures { result ≡ is_zero_for self code }
    {
        match self {
            TrapValues::Value => false,
            TrapValues::Zero => true,
            TrapValues::ZeroFor(causes) => causes.has(code),
        }
    }
}

/// What an access does where the leaf of its page lacks A, or for a store D, and lacks nothing
/// else. From the Privileged Architecture's chapter "Supervisor-Level ISA".
#[derive(Clone, Copy, Debug, PartialEq, Eq)]
pub enum Marks {
    /// It is a page fault.
    Fault,
    /// The hart sets them, and the access goes on.
    Set,
}

impl Marks {
    /// Whether the hart sets them.
    pub fn are_set(self) -> bool
        ensures { result ≡ are_set self }
    {
        match self {
            Marks::Fault => false,
            Marks::Set => true,
        }
    }
}

/// What a row's `insn` shows of an instruction of 16 bits. From riscv-formal's description of RVFI.
#[derive(Clone, Copy, Debug, PartialEq, Eq)]
pub enum InsnBits {
    /// The instruction, with zeros above it.
    Full,
    /// The instruction in the low 16 bits, and anything above them.
    Length,
}

impl InsnBits {
    /// Whether the bits above an instruction of 16 bits say nothing.
    pub fn are_cut(self) -> bool
        ensures { result ≡ are_cut self }
    {
        match self {
            InsnBits::Full => false,
            InsnBits::Length => true,
        }
    }
}

/// Whether a device may refuse an access. From the Privileged Architecture's chapter "Machine-Level
/// ISA" (physical memory attributes).
#[derive(Clone, Copy, Debug, PartialEq, Eq)]
pub enum DeviceFaults {
    /// Devices take every load and store, and no atomic operation.
    Never,
    /// A load, a store or an atomic memory operation at a device is refused where the row shows a
    /// trap, and taken where it does not.
    ByRow,
}

impl DeviceFaults {
    /// Whether the row says that a device refused an access.
    pub fn are_by_row(self) -> bool
        ensures { result ≡ are_by_row self }
    {
        match self {
            DeviceFaults::Never => false,
            DeviceFaults::ByRow => true,
        }
    }
}
