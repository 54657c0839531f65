//! Reading on in a file.

ghost use Rattle.std.specs.Prelude.{◌≡◌, ◌≤◌, vec_len, drop};

use crate::line_cursor::{Following, LineCursor};
use crate::piece::LineError;
use outside_ports::{ReadError, Shelf, read_chunk};
use std::alloc::AllocError;

impl LineCursor {
    ghost use Rattle.std.specs.Prelude.{List, ℕ, OnOk, length};
    ghost use Rattle.outside_ports.specs.Faults.{CountsFault, CountsMiss};
    ghost use Rattle.outside_ports.specs.Ports.{file_of, IsThere, Reads};
    ghost use Rattle.trace_lines.specs.declared.line_cursor.Following.TheVariants.{Unread};
    ghost use Rattle.trace_lines.specs.Cursors.{buffered_bytes, ForFile, LeavesTheSame, StaysAt};
    ghost use Rattle.trace_lines.specs.declared.next.TheConstants.{LONGEST};
    ghost use Rattle.trace_lines.specs.Errors.{is_read_fault};

    /// Reads on by one read of a chunk. What was taken is let go of.
    pub fn fill<H: Shelf>(&mut self, shelf: &mut H, name: &str) -> Result<(), LineError>
        requires unread { self.old.following ≡ Unread }
        requires short { length (buffered_bytes self.old) ≤ LONGEST }
        ensures known_files { H.known_files shelf.new ≡ H.known_files shelf.old }
        ensures file_exists { OnOk result (IsThere (H.known_files shelf.old) name.now) }
        ensures reads { OnOk result (ForFile (file_of (H.known_files shelf.old) name.now)
            (LeavesTheSame self.old self.new)) }
        ensures stays { OnOk result (StaysAt self.old self.new) }
        ensures faults { CountsFault is_read_fault result (H.faults shelf.old)
            (H.faults shelf.new) }
        ensures misses { let known_files = H.known_files shelf.old in
            CountsMiss is_read_fault result known_files name.now (H.misses shelf.old)
            (H.misses shelf.new) }
    {
        let count = match read_chunk(shelf, name, self.place, &mut self.chunk) {
            Ok(count) => count,
            Err(ReadError::ReadFault) => return Err(LineError::ReadFault),
            Err(ReadError::NoMemory) => return Err(LineError::NoMemory),
        };
        self.hold(count)?;
        Ok(())
    }

    /// Holds the bytes that a read gave, as many as are within the most; none are the end.
    fn hold(&mut self, count: usize) -> Result<(), AllocError>
        requires unread { self.old.following ≡ Unread }
        requires short { length (buffered_bytes self.old) ≤ LONGEST }
        requires within { count ≤ vec_len self.old.chunk }
        ensures reads { OnOk result ((file : List ℕ)
            → Reads file self.old.place self.old.chunk.items count
            → LeavesTheSame self.old self.new file) }
        ensures stays { OnOk result (StaysAt self.old self.new) }
    {
        if count == 0 {
            self.following = Following::End;
            return Ok(());
        }
        let kept = count.min((self.most - self.place) as usize);
        drop_front(&mut self.bytes, self.at);
        self.at = 0;
        self.bytes.extend_from_slice(&self.chunk[..kept])?;
        self.place += kept as u64;
        if kept < count {
            self.following = Following::TooLarge;
        }
        Ok(())
    }
}

/// Drops so many bytes at the front.
fn drop_front(bytes: &mut Vec<u8>, count: usize)
    requires { count ≤ vec_len bytes.old }
    ensures { bytes.new.items ≡ drop count bytes.old.items }
{
    if count == 0 {
        return;
    }
    let left = bytes.len() - count;
    bytes.copy_within(count.., 0);
    bytes.truncate(left);
}
