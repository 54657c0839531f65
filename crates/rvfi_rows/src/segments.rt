//! Segments that are read side by side.

ghost use Rattle.std.specs.Prelude.{◌≡◌, ◌<◌, IfOk, map, OnOk};
ghost use Rattle.std.specs.List.{All};
ghost use Rattle.rvfi_rows.specs.Segments.{IsRead, ReadsPlace, segment_lines};

use crate::columns::Columns;
use crate::segment::Segment;
use crate::unread::{PlaceRead, Unread};
use hart_words::NoMemory;
use std::alloc::Global;
use std::sync::atomic::AtomicU64;
use std::thread::{Threads, join};

/// Reads the lines of segments that were not read under these columns, in so many threads at most.
/// Where memory is refused some may have been read.
pub fn read_segments<R: Threads + Sync>(
    rt: &R,
    alloc: Global,
    threads: usize,
    columns: &Columns,
    segments: &mut [Segment],
) -> Result<(), NoMemory>
    requires { 0 < threads }
    ensures lines { map segment_lines segments.new ≡ map segment_lines segments.old }
    ensures read { OnOk result (All (IsRead columns.now) segments.new) }
{
    let done = read_places(rt, alloc, threads, columns, segments)?;
    keep_all(segments, done);
    read_unread(alloc, columns, segments)
}

/// Reads the lines of the segments that no thread read: of none, since the threads take all. So
/// memory is refused only where a call asks for it.
fn read_unread(alloc: Global, columns: &Columns, segments: &mut [Segment]) -> Result<(), NoMemory>
    ensures lines { map segment_lines segments.new ≡ map segment_lines segments.old }
    ensures read { OnOk result (All (IsRead columns.now) segments.new) }
{
    for place in 0..segments.len() {
        segments[place].read(alloc, columns)?;
    }
    Ok(())
}

/// What the segments that were not read under these columns read as, in any order.
fn read_places<R: Threads + Sync>(
    rt: &R,
    alloc: Global,
    threads: usize,
    columns: &Columns,
    segments: &[Segment],
) -> Result<Vec<PlaceRead>, NoMemory>
    ensures { IfOk result (λ done. All (ReadsPlace (map segment_lines segments.now)) done.items) }
{
    let unread = Unread {
        alloc,
        columns,
        segments,
        taken: AtomicU64::new(0),
    };
    read_in_threads(rt, threads.min(segments.len()), &unread)
}

/// Has so many threads read segments, this one the last of them. This thread alone makes the
/// others: equal tasks ended sooner so than where new threads make further ones
/// (docs/DECISIONS.md).
#[cycle(threads)]
fn read_in_threads<R: Threads + Sync>(
    rt: &R,
    threads: usize,
    unread: &Unread,
) -> Result<Vec<PlaceRead>, NoMemory>
    ensures { IfOk result (λ done.
        All (ReadsPlace (map segment_lines unread.now.segments.now)) done.items) }
{
    if threads < 2 {
        return unread.read();
    }
    let left = threads - 1;
    let there = || -> Result<Vec<PlaceRead>, NoMemory>
        ensures { IfOk result (λ done.
            All (ReadsPlace (map segment_lines unread.entry.now.segments.now)) done.items) }
    { unread.read() };
    let here = || -> Result<Vec<PlaceRead>, NoMemory>
        ensures { IfOk result (λ done.
            All (ReadsPlace (map segment_lines unread.entry.now.segments.now)) done.items) }
    { read_in_threads(rt, left, unread) };
    let (one, others) = join(rt, there, here);
    let mut done = others?;
    done.append(&mut one?)?;
    Ok(done)
}

/// Keeps what was read of segments in each of them.
fn keep_all(segments: &mut [Segment], done: Vec<PlaceRead>)
    requires { All (ReadsPlace (map segment_lines segments.old)) done.items }
    ensures { map segment_lines segments.new ≡ map segment_lines segments.old }
{
    for one in done {
        let PlaceRead { place, read } = one;
        if place < segments.len() {
            segments[place].keep(read);
        }
    }
}

/// Has segments read in the memory that the rows of others have, one in that of one other, while
/// there are others. It does not go back to the allocator then, which would keep much of it for the
/// thread that asked for it first.
pub fn reuse_rows(segments: &mut [Segment], others: Vec<Segment>)
    ensures { segments.new ≡ segments.old }
{
    let mut others = others;
    for index in 0..segments.len() {
        match others.pop() {
            None => return,
            Some(other) => segments[index].reuse(other),
        }
    }
}
