//! Why no times are told.

use hart_words::NoMemory;
use std::alloc::AllocError;
use std::io;
use thiserror::Error;
use trace_lines::LineError;

#[derive(Debug, Drop, Error)]
pub enum Failure {
    #[error("stage_times IMAGE TRACE WORKERS PASSES")]
    Words,
    #[error("the image cannot be read")]
    Image,
    #[error("the trace cannot be read")]
    Trace,
    #[error("the trace has no header that can be read")]
    Header,
    #[error("a row differs, cannot be read, or shows less than guesses need")]
    Row,
    #[error("out of memory")]
    NoMemory,
    #[error("{0}")]
    System(io::Error),
}

impl From<NoMemory> for Failure {
    fn from(_error: NoMemory) -> Failure {
        Failure::NoMemory
    }
}

impl From<AllocError> for Failure {
    fn from(_error: AllocError) -> Failure {
        Failure::NoMemory
    }
}

impl From<LineError> for Failure {
    fn from(error: LineError) -> Failure {
        match error {
            LineError::ReadFault => Failure::Trace,
            LineError::NoMemory => Failure::NoMemory,
        }
    }
}

impl From<io::Error> for Failure {
    fn from(error: io::Error) -> Failure {
        Failure::System(error)
    }
}
