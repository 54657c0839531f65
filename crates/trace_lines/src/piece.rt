//! Lines that were taken, and how the lines end.

use line_text::Lines;
use std::alloc::AllocError;
use thiserror::Error;

/// What follows the lines that were taken.
#[derive(Clone, Copy, Debug, PartialEq, Eq)]
pub enum Ending {
    /// More may follow: as many lines as were asked for were taken.
    More,
    /// The end of the file.
    End,
    /// A line, of this number from 1, that has more than 65,536 bytes before its line feed.
    TooLong(u64),
    /// Bytes past the most that are read.
    TooLarge,
}

/// Lines that stand one after another in a file, each without its line feed and a carriage return
/// before that, and what follows.
#[derive(Drop)]
pub struct Piece {
    pub lines: Lines,
    pub ending: Ending,
}

/// Why no lines were taken.
#[derive(Debug, Drop, Error)]
pub enum LineError {
    /// The shelf failed and counted it.
    #[error("a read failed")]
    ReadFault,
    /// Memory was refused; the shelf counts nothing.
    #[error("out of memory")]
    NoMemory,
}

impl From<AllocError> for LineError {
    ghost use Rattle.std.specs.Prelude.{◌≡◌};
    ghost use Rattle.trace_lines.specs.declared.piece.LineError.TheVariants.{NoMemory};

    ghost from_gives = { λ _ e. e ≡ NoMemory };

    fn from(_e: AllocError) -> LineError {
        LineError::NoMemory
    }
}
