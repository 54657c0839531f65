//! Segments that several threads read.

ghost use Rattle.std.specs.Prelude.{◌≡◌, ◌<◌, IfOk, length, map};
ghost use Rattle.std.specs.List.{All};
ghost use Rattle.rvfi_rows.specs.Segments.{ReadsPlace, segment_lines};

use crate::columns::Columns;
use crate::rows_read::RowsRead;
use crate::segment::Segment;
use hart_words::NoMemory;
use std::alloc::Global;
use std::sync::atomic::{AtomicU64, Ordering};

/// Segments that several threads read under these columns. Each thread takes the next that none has
/// taken, until none is left, so that a slow one leaves more of them to the others.
#[derive(Drop)]
pub(crate) struct Unread<'a> {
    pub alloc: Global,
    pub columns: &'a Columns,
    pub segments: &'a [Segment],
    /// How many were taken, or more where threads found none left.
    pub taken: AtomicU64,
}

/// What the lines of one of several segments read as.
#[derive(Drop)]
pub(crate) struct PlaceRead {
    pub place: usize,
    pub read: RowsRead,
}

impl<'a> Unread<'a> {
    /// Reads those segments that this thread takes, unless they were read under these columns.
    pub fn read(&self) -> Result<Vec<PlaceRead>, NoMemory>
        ensures { IfOk result (λ done.
            All (ReadsPlace (map segment_lines self.now.segments.now)) done.items) }
    {
        let mut done = Vec::new(self.alloc);
        // No thread takes more than all.
        for _ in 0..self.segments.len() {
            let place = self.taken.fetch_add(1, Ordering::SeqCst) as usize;
            if place >= self.segments.len() {
                return Ok(done);
            }
            if self.segments[place].is_read(self.columns) {
                continue;
            }
            done.push(self.read_at(place)?)?;
        }
        Ok(done)
    }

    /// Reads the segment at a place.
    fn read_at(&self, place: usize) -> Result<PlaceRead, NoMemory>
        requires { place < length self.now.segments.now }
        ensures reads { IfOk result (ReadsPlace (map segment_lines self.now.segments.now)) }
        ensures place { IfOk result (λ one. one.place ≡ place) }
    {
        let read = self.segments[place].read_lines(self.alloc, self.columns)?;
        Ok(PlaceRead { place, read })
    }
}
