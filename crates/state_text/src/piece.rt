//! A piece of a text, which is written as a whole.

ghost use Rattle.std.specs.Prelude.{◌≡◌, ◌≤◌, ◌+◌, ◌++◌, [], List, ℕ, length};
ghost use Rattle.state_text.specs.declared.piece.TheConstants.{PIECE_BYTES};

use arrayvec::ArrayVec;
use std::marker::Model;

/// The most bytes of a piece.
const PIECE_BYTES: usize = 24_640;

/// A piece of so many bytes is written. To a shorter one the lines of a page can be appended.
pub(crate) const FULL_BYTES: usize = 8_192;

/// Bytes in a fixed buffer, which takes no memory beyond itself.
#[derive(Drop)]
pub(crate) struct Piece {
    bytes: ArrayVec<u8, PIECE_BYTES>,
}

impl Model for Piece {
    ghost Value = { List ℕ };

    ghost view = { λ piece. piece.bytes.items };

    ghost invariant = { λ piece. length piece.bytes.items ≤ PIECE_BYTES };
}

impl Piece {
    /// A piece with no bytes.
    pub(crate) fn new() -> Self
        ensures { result ≡ [] }
    {
        Piece {
            bytes: ArrayVec::new(),
        }
    }

    /// The bytes of the piece, in order.
    pub(crate) fn as_slice(&self) -> &[u8]
        ensures { result.now ≡ self.now }
    {
        self.bytes.as_slice()
    }

    /// Appends a line.
    pub(crate) fn put(&mut self, line: &[u8])
        requires { length self.old + length line.now ≤ PIECE_BYTES }
        ensures bytes { self.new ≡ self.old ++ line.now }
        ensures len { length self.new ≡ length self.old + length line.now }
    {
        let _ = self.bytes.try_extend_from_slice(line);
    }
}
