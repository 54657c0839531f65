//! Privilege modes, kinds of memory access, exceptions, and the settings that govern accesses. From
//! the Privileged Architecture's chapters "Introduction" and "Machine-Level ISA".

ghost use Rattle.std.specs.Prelude.{◌≡◌};
ghost use Rattle.hart_words.specs.Privilege.{mode_number, cause_code, access_fault_of, page_fault_of};

/// A privilege mode, with its encoding.
#[derive(Clone, Copy, Debug, PartialEq, Eq)]
pub enum Mode {
    User = 0,
    Supervisor = 1,
    Machine = 3,
}

impl Mode {
    /// The encoding: 0 for U, 1 for S, 3 for M.
    pub fn number(self) -> u8
        ensures { result ≡ mode_number self }
    {
        self as u8
    }
}

/// What memory is accessed for. LR counts as a load, SC and the AMOs as stores.
#[derive(Clone, Copy, Debug, PartialEq, Eq)]
pub enum Access {
    Fetch,
    Load,
    Store,
}

impl Access {
    /// The access fault of an access of this kind.
    pub fn access_fault(self) -> Cause
        ensures { result ≡ access_fault_of self }
    {
        match self {
            Access::Fetch => Cause::InstructionAccessFault,
            Access::Load => Cause::LoadAccessFault,
            Access::Store => Cause::StoreAccessFault,
        }
    }

    /// The page fault of an access of this kind.
    pub fn page_fault(self) -> Cause
        ensures { result ≡ page_fault_of self }
    {
        match self {
            Access::Fetch => Cause::InstructionPageFault,
            Access::Load => Cause::LoadPageFault,
            Access::Store => Cause::StorePageFault,
        }
    }
}

/// An exception, with its code in mcause.
#[derive(Clone, Copy, Debug, PartialEq, Eq)]
pub enum Cause {
    InstructionAccessFault = 1,
    IllegalInstruction = 2,
    Breakpoint = 3,
    LoadAddressMisaligned = 4,
    LoadAccessFault = 5,
    StoreAddressMisaligned = 6,
    StoreAccessFault = 7,
    EnvironmentCallFromUser = 8,
    EnvironmentCallFromSupervisor = 9,
    EnvironmentCallFromMachine = 11,
    InstructionPageFault = 12,
    LoadPageFault = 13,
    StorePageFault = 15,
}

impl Cause {
    /// The exception code.
    pub fn code(self) -> u8
        ensures { result ≡ cause_code self }
    {
        self as u8
    }
}

/// An entry of physical memory protection: its configuration byte and its address register, which
/// holds bits 55:2 of an address.
#[derive(Clone, Copy, Debug, PartialEq, Eq)]
pub struct PmpEntry {
    pub cfg: u8,
    pub addr: u64,
}

/// What a translation depends on beside satp: the mode of the access, and mstatus' SUM and MXR.
#[derive(Clone, Copy, Debug, PartialEq, Eq)]
pub struct WalkFlags {
    pub mode: Mode,
    pub sum: bool,
    pub mxr: bool,
}
