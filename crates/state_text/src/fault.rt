//! Why a text is no saved state.

ghost use Rattle.std.specs.Prelude.{◌≡◌};
ghost use Rattle.state_text.specs.declared.fault.StateError.TheVariants as errors;

use std::alloc::{AllocError, AllocFailed};
use thiserror::Error;

/// What is wrong with a line.
#[derive(Clone, Copy, Debug, PartialEq, Eq, Error)]
pub enum FaultKind {
    /// It is not the line that stands there in a saved state, or there is none.
    #[error("bad line")]
    BadLine,
    /// Its value is none that the hart can have.
    #[error("bad value")]
    BadValue,
    /// A block of memory, or a reserved one, is not wholly in RAM.
    #[error("outside RAM")]
    OutsideRam,
}

/// The first rule that a text breaks.
#[derive(Clone, Copy, Debug, PartialEq, Eq, Error)]
pub enum StateFault {
    /// It says another number of harts than is asked for.
    #[error("wrong number of harts")]
    WrongHarts,
    /// A line breaks a rule, the first one that does, from 1.
    #[error("line {line}: {kind}")]
    InLine { kind: FaultKind, line: u64 },
}

#[derive(Debug, Drop, Error)]
pub enum StateError {
    #[error("{0}")]
    Fault(StateFault),
    #[error("out of memory")]
    NoMemory,
}

impl From<StateFault> for StateError {
    ghost from_gives = { λ fault e. e ≡ errors.Fault fault };

    fn from(fault: StateFault) -> StateError {
        StateError::Fault(fault)
    }
}

impl From<AllocError> for StateError {
    ghost from_gives = { λ _ e. e ≡ errors.NoMemory };

    fn from(_e: AllocError) -> StateError {
        StateError::NoMemory
    }
}

impl<T: Drop> From<AllocFailed<T>> for StateError {
    ghost from_gives = { λ _ e. e ≡ errors.NoMemory };

    fn from(_e: AllocFailed<T>) -> StateError {
        StateError::NoMemory
    }
}
