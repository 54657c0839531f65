//! Why a file is no image.

ghost use Rattle.std.specs.Prelude.{◌≡◌};
ghost use Rattle.elf_image.specs.declared.fault.ElfError.TheVariants as errors;

use std::alloc::{AllocError, AllocFailed};
use thiserror::Error;

/// The first fault of a file. A segment has its place in the program header table, from 0.
#[derive(Clone, Copy, Debug, PartialEq, Eq, Error)]
pub enum ElfFault {
    /// The file ends before its ELF header or its program header table.
    #[error("elf cut short")]
    CutShort,
    /// It is no executable for RISC-V, 64 bits and little-endian.
    #[error("elf of another kind")]
    WrongKind,
    /// The program headers are not of 56 bytes, or too many for the ELF header to count.
    #[error("elf table size")]
    BadTable,
    /// The entry point is odd.
    #[error("elf entry odd")]
    BadEntry,
    /// A segment has more bytes in the file than in memory, or bytes past the end of the file.
    #[error("elf segment {index}: bad size")]
    BadSegment { index: u16 },
    /// A segment is not wholly in RAM.
    #[error("elf segment {index}: outside RAM")]
    OutsideRam { index: u16 },
    /// A segment has an address that one before it has.
    #[error("elf segment {index}: overlap")]
    Overlap { index: u16 },
}

#[derive(Debug, Drop, Error)]
pub enum ElfError {
    #[error("{0}")]
    Fault(ElfFault),
    #[error("out of memory")]
    NoMemory,
}

impl From<ElfFault> for ElfError {
    ghost from_gives = { λ fault e. e ≡ errors.Fault fault };

    fn from(fault: ElfFault) -> ElfError {
        ElfError::Fault(fault)
    }
}

impl From<AllocError> for ElfError {
    ghost from_gives = { λ _ e. e ≡ errors.NoMemory };

    fn from(_e: AllocError) -> ElfError {
        ElfError::NoMemory
    }
}

impl<T: Drop> From<AllocFailed<T>> for ElfError {
    ghost from_gives = { λ _ e. e ≡ errors.NoMemory };

    fn from(_e: AllocFailed<T>) -> ElfError {
        ElfError::NoMemory
    }
}
