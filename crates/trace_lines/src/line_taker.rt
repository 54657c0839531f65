//! The taker of the lines of a file, piece by piece.

ghost use Rattle.std.specs.Prelude.{◌≡◌, ◌≤◌, ◌<◌, ◌^◌, IfOk, OnOk};
ghost use Rattle.outside_ports.specs.Faults.{CountsFault, CountsMiss};
ghost use Rattle.outside_ports.specs.Ports.{file_of, IsThere};
ghost use Rattle.trace_lines.specs.Errors.{is_read_fault};

use crate::capacity::Capacity;
use crate::line_cursor::LineCursor;
use crate::piece::{LineError, Piece};
use outside_ports::Shelf;
use std::alloc::{AllocError, Global};

/// Takes the lines of one file in order, and reads at most so many bytes of it, as lines are asked
/// for. It holds at most a chunk of the file and the longest line.
#[derive(Drop)]
pub struct LineTaker {
    /// The name of the file.
    pub name: String,
    /// The most bytes that are read of it; what stands past them is `Ending::TooLarge`.
    pub most: u64,
    pub alloc: Global,
    /// Where the next line begins, once something was read.
    pub cursor: Option<LineCursor>,
    /// What the next piece is given at once: as much as the last one took.
    pub capacity: Capacity,
    ghost bounded: { most < 2 ^ 62 },
}

impl LineTaker {
    ghost use Rattle.std.specs.Prelude.{◌+◌, None, length, string_bytes};
    ghost use Rattle.trace_lines.specs.Pieces.{FitsAsked};
    ghost use Rattle.trace_lines.specs.Takers.{Opens, TakesWhereKnown, room_of};

    /// A taker of the lines of the file of this name, of which at most `max` bytes are read.
    pub fn open(alloc: Global, name: &str, max: u64) -> Result<LineTaker, AllocError>
        requires { max < 2 ^ 62 }
        ensures { IfOk result (Opens name.now max) }
    {
        let name = String::from_str(alloc, name)?;
        Ok(LineTaker {
            name,
            most: max,
            alloc,
            cursor: None,
            capacity: Capacity { lines: 0, bytes: 0 },
        })
    }

    /// Takes the next `lines` lines that are not blank, or all that are left where they are fewer,
    /// with what follows them. After an error the taker is gone.
    pub fn next_lines<H: Shelf>(
        self,
        shelf: &mut H,
        lines: usize,
    ) -> Result<(Piece, LineTaker), LineError>
        requires { 0 < lines }
        ensures known_files { H.known_files shelf.new ≡ H.known_files shelf.old }
        ensures takes { let file = file_of (H.known_files shelf.old) (string_bytes self.name) in
            IfOk result (λ taken. TakesWhereKnown file lines self taken.0 taken.1) }
        ensures file_exists { let name = string_bytes self.name in
            OnOk result (self.cursor ≡ None → IsThere (H.known_files shelf.old) name) }
        ensures counts { IfOk result (λ taken. FitsAsked lines taken.0) }
        ensures room { let before = room_of self in
            IfOk result (λ taken. length taken.0.lines + room_of taken.1 ≤ before) }
        ensures faults { let before = H.faults shelf.old in let now = H.faults shelf.new in
            CountsFault is_read_fault result before now }
        ensures misses { let known_files = H.known_files shelf.old in
            let name = string_bytes self.name in let before = H.misses shelf.old in
            CountsMiss is_read_fault result known_files name before (H.misses shelf.new) }
    {
        let LineTaker {
            name,
            most,
            alloc,
            cursor,
            capacity,
        } = self;
        let mut cursor = match cursor {
            Some(cursor) => cursor,
            None => LineCursor::open(alloc, shelf, name.as_str(), most)?,
        };
        let piece = cursor.take_lines(alloc, shelf, name.as_str(), lines, capacity)?;
        let capacity = Capacity::after(&piece.lines);
        Ok((
            piece,
            LineTaker {
                name,
                most,
                alloc,
                cursor: Some(cursor),
                capacity,
            },
        ))
    }
}
