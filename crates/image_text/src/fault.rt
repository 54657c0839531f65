//! Why a text is no image.

ghost use Rattle.std.specs.Prelude.{◌≡◌};
ghost use Rattle.image_text.specs.declared.fault.ImageError.TheVariants.{NoMemory};

use std::alloc::{AllocError, AllocFailed};
use thiserror::Error;

/// What is wrong with a token or a comment.
#[derive(Clone, Copy, Debug, PartialEq, Eq, Error)]
pub enum FaultKind {
    /// A token is neither two hexadecimal digits nor an address.
    #[error("bad byte")]
    BadByte,
    /// A token begins with `@`, and 1 to 16 hexadecimal digits do not follow alone.
    #[error("bad address")]
    BadAddress,
    /// A byte's address is not in RAM.
    #[error("outside RAM")]
    OutsideRam,
    /// A byte's address has a byte already.
    #[error("overlap")]
    Overlap,
    /// A comment is never closed.
    #[error("open comment")]
    OpenComment,
}

/// The first fault of a text, with the line, from 1, in which its token or comment begins.
#[derive(Clone, Copy, Debug, PartialEq, Eq, Error)]
#[error("line {line}: {kind}")]
pub struct ImageFault {
    pub kind: FaultKind,
    pub line: u64,
}

#[derive(Debug, Drop, Error)]
pub enum ImageError {
    #[error("{0}")]
    Fault(ImageFault),
    #[error("out of memory")]
    NoMemory,
}

impl From<AllocError> for ImageError {
    ghost from_gives = { λ _ e. e ≡ NoMemory };

    fn from(_e: AllocError) -> ImageError {
        ImageError::NoMemory
    }
}

impl<T: Drop> From<AllocFailed<T>> for ImageError {
    ghost from_gives = { λ _ e. e ≡ NoMemory };

    fn from(_e: AllocFailed<T>) -> ImageError {
        ImageError::NoMemory
    }
}
