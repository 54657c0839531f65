//! Finding what stands next in a file.

ghost use Rattle.std.specs.Prelude.{◌≡◌, ◌≤◌, ◌<◌, ◌+◌, length, take, drop};

use crate::line_cursor::{Following, LineCursor};
use crate::next::{LONGEST, Next};
use crate::piece::{Ending, LineError};
use memchr::memchr;
use outside_ports::Shelf;

impl LineCursor {
    ghost use Rattle.std.specs.Prelude.{List, ℕ, IfOk, OnOk, IfSome, MatchOption};
    ghost use Rattle.outside_ports.specs.Faults.{CountsFault, CountsMiss};
    ghost use Rattle.outside_ports.specs.Ports.{file_of};
    ghost use Rattle.trace_lines.specs.Cursors.{buffered_bytes, lines_from_cursor, lines_after_next, room_in, ForFile, IsUnknown};
    ghost use Rattle.trace_lines.specs.Errors.{is_read_fault};
    ghost use Rattle.trace_lines.specs.Nexts.{FitsHeld, Follows, IsBeforeFeed};

    /// Finds what stands next, and reads on until that is known.
    pub fn find_next<H: Shelf>(&mut self, shelf: &mut H, name: &str) -> Result<Next, LineError>
        ensures known_files { H.known_files shelf.new ≡ H.known_files shelf.old }
        ensures fits { IfOk result (FitsHeld self.new) }
        ensures next { IfOk result (λ next. ForFile (file_of (H.known_files shelf.old) name.now)
            (λ file. Follows file self.new next
            × (lines_from_cursor file self.new ≡ lines_from_cursor file self.old))) }
        ensures room { OnOk result (room_in self.new ≡ room_in self.old) }
        ensures faults { CountsFault is_read_fault result (H.faults shelf.old)
            (H.faults shelf.new) }
        ensures misses { let known_files = H.known_files shelf.old in
            CountsMiss is_read_fault result known_files name.now (H.misses shelf.old)
            (H.misses shelf.new) }
    {
        'reading: loop {
            let place = self.before_feed();
            self.searched = place;
            let known = self.known();
            match known {
                Some(next) => return Ok(next),
                None => self.fill(shelf, name)?,
            }
        }
    }

    #[tactic(auto, using(crate::proofs::Parts::no_feed))]
    /// What stands next, where the bytes that are held tell it: all before the first line feed were
    /// searched.
    fn known(&self) -> Option<Next>
        requires { IsBeforeFeed (buffered_bytes self.now) self.now.searched }
        ensures found { MatchOption result (IsUnknown self.now) (FitsHeld self.now) }
        ensures next { IfSome result (λ next. (file : List ℕ) → Follows file self.now next) }
    {
        let place = self.searched;
        let held = self.bytes.len() - self.at;
        if place > LONGEST {
            return Some(Next::Ending(Ending::TooLong(self.number)));
        }
        if place < held {
            return Some(Next::Line {
                length: place,
                used: place + 1,
            });
        }
        match self.following {
            Following::Unread => None,
            Following::TooLarge => Some(Next::Ending(Ending::TooLarge)),
            Following::End if held == 0 => Some(Next::Ending(Ending::End)),
            Following::End => Some(Next::Line {
                length: held,
                used: held,
            }),
        }
    }

    /// The bytes of the line that stands next.
    pub fn line(&self, count: usize) -> &[u8]
        requires { count ≤ length (buffered_bytes self.now) }
        ensures { result.now ≡ take count (buffered_bytes self.now) }
    {
        &self.bytes[self.at..self.at + count]
    }

    /// Passes over the line that stands next.
    pub fn pass(&mut self, used: usize)
        requires positive { 0 < used }
        requires within { used ≤ length (buffered_bytes self.old) }
        ensures left { (file : List ℕ)
            → lines_from_cursor file self.new ≡ lines_after_next file self.old used }
        ensures room { room_in self.new + used ≡ room_in self.old }
    {
        self.at += used;
        self.searched = 0;
        self.number += 1;
    }

    /// How many bytes are held before the first line feed, or in all.
    fn before_feed(&self) -> usize
        ensures { IsBeforeFeed (buffered_bytes self.now) result }
    {
        let from = self.at + self.searched;
        match memchr(b'\n', rest_of(&self.bytes, from)) {
            Some(place) => self.searched + place,
            None => self.bytes.len() - self.at,
        }
    }
}

/// The bytes from a place on.
fn rest_of(bytes: &[u8], from: usize) -> &[u8]
    requires { from ≤ length bytes.now }
    ensures { result.now ≡ drop from bytes.now }
{
    bytes.split_at(from).1
}
