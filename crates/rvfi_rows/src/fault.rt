//! Why a header or a row is refused.

ghost use Rattle.std.specs.Prelude.{◌≡◌};
ghost use Rattle.rvfi_rows.specs.declared.fault.HeaderError.TheVariants as header;
ghost use Rattle.rvfi_rows.specs.declared.fault.RowError.TheVariants as row;

use crate::column::Column;
use std::alloc::{AllocError, AllocFailed};
use thiserror::Error;

/// What is wrong with a header: the first of these that holds.
#[derive(Clone, Copy, Debug, PartialEq, Eq, Error)]
pub enum HeaderFault {
    #[error("a carriage return stands inside the header")]
    StrayReturn,
    /// The first known column from the left that stood before.
    #[error("a column stands twice")]
    Twice(Column),
    /// The first `insn` or `pc_rdata` that a port lacks.
    #[error("a column is missing")]
    NoColumn(Column),
}

#[derive(Debug, Drop, Error)]
pub enum HeaderError {
    #[error("{0}")]
    Fault(HeaderFault),
    #[error("out of memory")]
    NoMemory,
}

/// What is wrong with a row: of the whole line first, then of its port's column `valid`, then of its
/// port's known columns from the left, and last of its hart.
#[derive(Clone, Copy, Debug, PartialEq, Eq, Error)]
pub enum RowFault {
    #[error("a carriage return stands inside the row")]
    StrayReturn,
    /// The line has not as many fields as the header.
    #[error("the row has a wrong number of fields")]
    FieldCount,
    /// `insn` or `pc_rdata` is not shown.
    #[error("a column is empty")]
    Empty(Column),
    #[error("a column has no number")]
    NotNumber(Column),
    /// The number needs more bits than the column has.
    #[error("a column has too wide a number")]
    TooWide(Column),
    /// The trace is of fewer harts.
    #[error("the row is of a hart that is not there")]
    NoHart,
}

#[derive(Debug, Drop, Error)]
pub enum RowError {
    #[error("{0}")]
    Fault(RowFault),
    #[error("out of memory")]
    NoMemory,
}

impl From<HeaderFault> for HeaderError {
    ghost from_gives = { λ fault e. e ≡ header.Fault fault };

    fn from(fault: HeaderFault) -> HeaderError {
        HeaderError::Fault(fault)
    }
}

impl From<AllocError> for HeaderError {
    ghost from_gives = { λ _ e. e ≡ header.NoMemory };

    fn from(_e: AllocError) -> HeaderError {
        HeaderError::NoMemory
    }
}

impl<T: Drop> From<AllocFailed<T>> for HeaderError {
    ghost from_gives = { λ _ e. e ≡ header.NoMemory };

    fn from(_e: AllocFailed<T>) -> HeaderError {
        HeaderError::NoMemory
    }
}

impl From<RowFault> for RowError {
    ghost from_gives = { λ fault e. e ≡ row.Fault fault };

    fn from(fault: RowFault) -> RowError {
        RowError::Fault(fault)
    }
}

impl From<AllocError> for RowError {
    ghost from_gives = { λ _ e. e ≡ row.NoMemory };

    fn from(_e: AllocError) -> RowError {
        RowError::NoMemory
    }
}

impl<T: Drop> From<AllocFailed<T>> for RowError {
    ghost from_gives = { λ _ e. e ≡ row.NoMemory };

    fn from(_e: AllocFailed<T>) -> RowError {
        RowError::NoMemory
    }
}
