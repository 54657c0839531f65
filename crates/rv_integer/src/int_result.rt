//! What an instruction asks for.

use hart_words::AccessSize;
use rv_decode::{AmoOp, CsrOp, Width};

/// What an instruction asks for, short of memory and control registers.
#[derive(Clone, Copy, Debug, PartialEq, Eq)]
pub enum IntResult {
    /// The value of the destination register; the next instruction follows.
    Value(u64),
    /// A jump that leaves the address of the next instruction in the destination register.
    Jump { link: u64, target: u64 },
    /// No register is written, and the hart goes on at `next_pc` (branches taken or not, fences).
    Continue { next_pc: u64 },
    /// An access to memory.
    Access(MemoryRequest),
    /// What the opcode SYSTEM does.
    System(SystemRequest),
}

/// An access to memory.
#[derive(Clone, Copy, Debug, PartialEq, Eq)]
pub struct MemoryRequest {
    /// The virtual address.
    pub address: u64,
    pub size: AccessSize,
    pub op: MemoryOp,
}

/// What an access does with its bytes.
#[derive(Clone, Copy, Debug, PartialEq, Eq)]
pub enum MemoryOp {
    /// Loads them, sign-extended where `signed`.
    Load { signed: bool },
    /// Loads them and reserves their address (LR).
    LoadReserved,
    /// Stores a value of their bits.
    Store { value: u64 },
    /// Stores a value of their bits where the address is still reserved (SC).
    StoreConditional { value: u64 },
    /// An atomic memory operation (AMO) of a width, with the value `b` of rs2.
    Amo { op: AmoOp, width: Width, b: u64 },
}

/// What an instruction of the opcode SYSTEM asks for.
#[derive(Clone, Copy, Debug, PartialEq, Eq)]
pub enum SystemRequest {
    /// An access to a control and status register.
    Csr(CsrRequest),
    /// An environment call (ECALL).
    EnvironmentCall,
    /// A breakpoint (EBREAK).
    Breakpoint,
    /// A return from a trap that was taken in M (MRET).
    MachineReturn,
    /// A return from a trap that was taken in S (SRET).
    SupervisorReturn,
    /// A wait for an interrupt (WFI).
    WaitForInterrupt,
    /// An order of accesses to page tables (SFENCE.VMA).
    TranslationFence,
}

/// An access to a control and status register.
#[derive(Clone, Copy, Debug, PartialEq, Eq)]
pub struct CsrRequest {
    pub address: u16,
    pub op: CsrOp,
    /// The value of rs1, or the immediate.
    pub operand: u64,
    /// Whether the register is read: not by CSRRW and CSRRWI with x0 as destination.
    pub reads: bool,
    /// Whether it is written: not by the set and clear forms with x0 as rs1, or 0 as immediate.
    pub writes: bool,
}
