//! A place in a file from which lines are taken.

ghost use Rattle.std.specs.Prelude.{◌≡◌, ◌≤◌, ◌<◌, ◌+◌, ◌^◌, take, drop, vec_len};
ghost use Rattle.line_text.specs.Lines.{IsLine};
ghost use Rattle.trace_lines.specs.Lines.{has_mark};
ghost use Rattle.trace_lines.specs.declared.next.TheConstants.{LONGEST};

use crate::capacity::Capacity;
use crate::next::{Next, push_line};
use crate::piece::{Ending, LineError, Piece};
use line_text::Lines;
use outside_ports::{Shelf, new_chunk};
use std::alloc::{AllocError, Global};

/// What stands after the bytes that were read.
#[derive(Clone, Copy, PartialEq, Eq)]
pub enum Following {
    /// Bytes that were not read, or none.
    Unread,
    /// The end of the file.
    End,
    /// Bytes past the most that are read.
    TooLarge,
}

/// A place in a file, and the bytes that are held from there on. They are at most a chunk more than
/// the longest line.
#[derive(Drop)]
pub struct LineCursor {
    /// The bytes that were read and not yet let go.
    pub bytes: Vec<u8>,
    /// Where among them the next line begins.
    pub at: usize,
    /// How many bytes from there on were searched: no line feed stands among them.
    pub searched: usize,
    /// The number of the next line, from 1; blank lines count.
    pub number: u64,
    /// The most bytes that are read of the file.
    pub most: u64,
    /// How many bytes of it were read.
    pub place: u64,
    pub following: Following,
    /// Where a read puts its bytes.
    pub chunk: Vec<u8>,
    ghost inside: { at + searched ≤ vec_len bytes },
    ghost clear: { IsLine (take searched (drop at bytes.items)) },
    ghost within: { place ≤ most },
    ghost bounded: { most < 2 ^ 62 },
    ghost counted: { number + vec_len bytes ≤ place + at + 1 },
    ghost nonempty: { 0 < vec_len chunk },
    ghost small: { vec_len bytes ≤ LONGEST + vec_len chunk },
}

impl LineCursor {
    ghost use Rattle.std.specs.Prelude.{List, ℕ, IfOk, OnOk, length};
    ghost use Rattle.outside_ports.specs.Faults.{CountsFault, CountsMiss};
    ghost use Rattle.outside_ports.specs.Ports.{file_of, IsThere};
    ghost use Rattle.trace_lines.specs.Cursors.{lines_from_cursor, room_in, ForFile, IsUntaken, IsNewCursor, Holds};
    ghost use Rattle.trace_lines.specs.Errors.{is_read_fault};
    ghost use Rattle.trace_lines.specs.Lines.{file_lines};
    ghost use Rattle.trace_lines.specs.Nexts.{TakesNext, LeavesRoom};
    ghost use Rattle.trace_lines.specs.Pieces.{front_of, back_of, piece_view, FitsAsked};

    /// A cursor at the first line of a file; a byte order mark at the front is passed over.
    pub fn open<H: Shelf>(
        alloc: Global,
        shelf: &mut H,
        name: &str,
        most: u64,
    ) -> Result<Self, LineError>
        requires { most < 2 ^ 62 }
        ensures known_files { H.known_files shelf.new ≡ H.known_files shelf.old }
        ensures file_exists { OnOk result (IsThere (H.known_files shelf.old) name.now) }
        ensures left { IfOk result (λ cursor. ForFile (file_of (H.known_files shelf.old) name.now)
            (λ file. lines_from_cursor file cursor ≡ file_lines most file)) }
        ensures room { IfOk result (λ cursor. room_in cursor ≤ most) }
        ensures faults { CountsFault is_read_fault result (H.faults shelf.old)
            (H.faults shelf.new) }
        ensures misses { let known_files = H.known_files shelf.old in
            CountsMiss is_read_fault result known_files name.now (H.misses shelf.old)
            (H.misses shelf.new) }
    {
        let mut cursor = LineCursor::new(alloc, most)?;
        cursor.fill(shelf, name)?;
        'marking: while cursor.bytes.len() < 3 && cursor.following == Following::Unread {
            cursor.fill(shelf, name)?;
        }
        cursor.pass_mark();
        Ok(cursor)
    }

    #[tactic(auto, using(crate::proofs::Fronts::counts_short))]
    /// Takes so many lines that are not blank, or all that are left where they are fewer. They are
    /// given so much memory at once.
    pub fn take_lines<H: Shelf>(
        &mut self,
        alloc: Global,
        shelf: &mut H,
        name: &str,
        asked: usize,
        capacity: Capacity,
    ) -> Result<Piece, LineError>
        ensures known_files { H.known_files shelf.new ≡ H.known_files shelf.old }
        ensures piece { IfOk result (λ piece. ForFile (file_of (H.known_files shelf.old) name.now)
            (λ file. piece_view piece ≡ front_of asked (lines_from_cursor file self.old))) }
        ensures rest { OnOk result (ForFile (file_of (H.known_files shelf.old) name.now)
            (λ file. lines_from_cursor file self.new
            ≡ back_of asked (lines_from_cursor file self.old))) }
        ensures counts { IfOk result (FitsAsked asked) }
        ensures room { let before = room_in self.old in let now = room_in self.new in
            IfOk result (λ piece. length piece.lines + now ≤ before) }
        ensures faults { CountsFault is_read_fault result (H.faults shelf.old)
            (H.faults shelf.new) }
        ensures misses { let known_files = H.known_files shelf.old in
            CountsMiss is_read_fault result known_files name.now (H.misses shelf.old)
            (H.misses shelf.new) }
    {
        let mut lines = capacity.new_lines(alloc, asked)?;
        'taking: while lines.len() < asked {
            let end = self.take_next(shelf, name, &mut lines)?;
            match end {
                None => {}
                Some(ending) => return Ok(Piece { lines, ending }),
            }
        }
        Ok(Piece {
            lines,
            ending: Ending::More,
        })
    }

    /// A cursor at the front of a file of which nothing was read.
    fn new(alloc: Global, most: u64) -> Result<Self, AllocError>
        requires { most < 2 ^ 62 }
        ensures { IfOk result (IsNewCursor most) }
    {
        let chunk = new_chunk(alloc)?;
        Ok(LineCursor {
            bytes: Vec::new(alloc),
            at: 0,
            searched: 0,
            number: 1,
            most,
            place: 0,
            following: Following::Unread,
            chunk,
        })
    }

    /// Passes over a byte order mark at the front.
    fn pass_mark(&mut self)
        requires { IsUntaken self.old }
        ensures left { (file : List ℕ) → Holds self.old.most self.old file
            → lines_from_cursor file self.new ≡ file_lines self.old.most file }
        ensures room { room_in self.new ≤ room_in self.old }
    {
        if begins_with_mark(&self.bytes) {
            self.at = 3;
            self.searched = 0;
        }
    }

    /// Takes the next line and adds it, unless it is blank; or gives the ending, which then stays.
    fn take_next<H: Shelf>(
        &mut self,
        shelf: &mut H,
        name: &str,
        lines: &mut Lines,
    ) -> Result<Option<Ending>, LineError>
        ensures known_files { H.known_files shelf.new ≡ H.known_files shelf.old }
        ensures takes { IfOk result (λ end. ForFile (file_of (H.known_files shelf.old) name.now)
            (λ file. TakesNext lines.old (lines_from_cursor file self.old) end lines.new
            (lines_from_cursor file self.new))) }
        ensures room { IfOk result (λ end. LeavesRoom end
            (length lines.old) (room_in self.old) (length lines.new) (room_in self.new)) }
        ensures faults { CountsFault is_read_fault result (H.faults shelf.old)
            (H.faults shelf.new) }
        ensures misses { let known_files = H.known_files shelf.old in
            CountsMiss is_read_fault result known_files name.now (H.misses shelf.old)
            (H.misses shelf.new) }
    {
        let next = self.find_next(shelf, name)?;
        match next {
            Next::Line { length, used } => {
                push_line(lines, self.line(length))?;
                self.pass(used);
                Ok(None)
            }
            Next::Ending(ending) => Ok(Some(ending)),
        }
    }
}

/// Whether a byte order mark stands at the front.
fn begins_with_mark(bytes: &[u8]) -> bool
    ensures { result ≡ has_mark bytes.now }
{
    matches!(bytes, [0xef, 0xbb, 0xbf, ..])
}
