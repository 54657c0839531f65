//! Taking rows of a trace.

ghost use Rattle.std.specs.Prelude.{◌≡◌, ◌≤◌, ◌+◌, ◌++◌, Decides, IfOk, IfErr, OnOk, false, length, string_bytes};
ghost use Rattle.std.specs.List.{flat_map};
ghost use Rattle.judge_words.specs.Job.{IsLawful, job_view};
ghost use Rattle.outside_ports.specs.Faults.{CountsFault, CountsMiss};
ghost use Rattle.outside_ports.specs.Ports.{IsThere, file_of};
ghost use Rattle.rvfi_rows.specs.Segments.{segment_lines};
ghost use Rattle.trace_lines.specs.Errors.{is_read_fault};
ghost use Rattle.trace_lines.specs.Pieces.{FitsEnding};
ghost use Rattle.trace_lines.specs.declared.piece.Ending.TheVariants.{More};
ghost use Rattle.trace_lines.specs.Takers.{room_of};
ghost use Rattle.judge_run.specs.Taking.{TakesSegments, TakesAfterWhereKnown, TakesLinesWhereKnown, most_lines, taken_lines};

use judge_words::Job;
use line_text::Lines;
use outside_ports::Shelf;
use rvfi_rows::{Segment, reuse_rows};
use std::alloc::Global;
use trace_lines::{Ending, LineError, LineTaker, Piece};

/// Rows that were taken at once, in segments of which none is empty, and what follows them.
#[derive(Drop)]
pub(crate) struct Taken {
    pub segments: Vec<Segment>,
    pub ending: Ending,
}

impl Taken {
    /// The same, its segments to be read in the memory that the rows of others have.
    pub fn in_memory_of(self, others: Vec<Segment>) -> Taken
        ensures segments { result.segments.items ≡ self.segments.items }
        ensures ending { result.ending ≡ self.ending }
    {
        let Taken { segments, ending } = self;
        let mut segments = segments;
        reuse_rows(&mut segments, others);
        Taken { segments, ending }
    }
}

/// What is asked for: so many segments, after lines that end so.
#[derive(Clone, Copy)]
pub(crate) struct Asked {
    pub segments: usize,
    pub ending: Ending,
}

/// Takes the segments that are asked for, or none where nothing follows.
pub fn take_after<H: Shelf>(
    alloc: Global,
    job: &Job,
    asked: Asked,
    taker: LineTaker,
    shelf: &mut H,
) -> Result<(Taken, LineTaker), LineError>
    requires lawful { IsLawful (job_view job.now) }
    requires file_exists { IsThere (H.known_files shelf.old) (string_bytes taker.name) }
    ensures known_files { H.known_files shelf.new ≡ H.known_files shelf.old }
    ensures takes { let file = file_of (H.known_files shelf.old) (string_bytes taker.name) in
        IfOk result (λ taken. TakesAfterWhereKnown file asked.ending taker (taken_lines taken.0)
        taken.0.ending taken.1) }
    ensures taken { IfOk result
        (λ taken. TakesSegments asked taker taken.0.segments.items taken.0.ending taken.1) }
    ensures faults { CountsFault is_read_fault result (H.faults shelf.old) (H.faults shelf.new) }
    ensures misses { CountsMiss is_read_fault result (H.known_files shelf.old)
        (string_bytes taker.name) (H.misses shelf.old) (H.misses shelf.new) }
{
    if is_more(asked.ending) {
        take_segments(alloc, job, asked.segments, taker, shelf)
    } else {
        let segments = Vec::new(alloc);
        let ending = asked.ending;
        Ok((Taken { segments, ending }, taker))
    }
}

/// Takes the next rows: so many segments, each of as many lines, or all that is left where that is
/// less.
fn take_segments<H: Shelf>(
    alloc: Global,
    job: &Job,
    asked: usize,
    taker: LineTaker,
    shelf: &mut H,
) -> Result<(Taken, LineTaker), LineError>
    requires lawful { IsLawful (job_view job.now) }
    requires file_exists { IsThere (H.known_files shelf.old) (string_bytes taker.name) }
    ensures known_files { H.known_files shelf.new ≡ H.known_files shelf.old }
    ensures takes { let file = file_of (H.known_files shelf.old) (string_bytes taker.name) in
        IfOk result (λ taken. TakesLinesWhereKnown file (most_lines (job_view job.now) asked) taker
        (taken_lines taken.0) taken.0.ending taken.1) }
    ensures counts { IfOk result (λ taken. FitsEnding taken.0.ending
        (most_lines (job_view job.now) asked) (length (taken_lines taken.0))) }
    ensures at_most_asked { IfOk result (λ taken. length taken.0.segments.items ≤ asked) }
    ensures full { IfOk result (λ taken.
        length taken.0.segments.items ≤ length (taken_lines taken.0)) }
    ensures room { IfOk result (λ taken.
        length (taken_lines taken.0) + room_of taken.1 ≤ room_of taker) }
    ensures faults { CountsFault is_read_fault result (H.faults shelf.old) (H.faults shelf.new) }
    ensures misses { CountsMiss is_read_fault result (H.known_files shelf.old)
        (string_bytes taker.name) (H.misses shelf.old) (H.misses shelf.new) }
{
    let mut taker = taker;
    let mut segments = Vec::new(alloc);
    'segments: for _ in 0..asked {
        let (piece, next) = match taker.next_lines(shelf, job.sharing.segment) {
            Ok(taken) => taken,
            Err(error) => return Err(error),
        };
        taker = next;
        let Piece { lines, ending } = piece;
        match push_lines(&mut segments, lines) {
            Ok(()) => {}
            Err(error) => return Err(error),
        }
        if !is_more(ending) {
            return Ok((Taken { segments, ending }, taker));
        }
    }
    let ending = Ending::More;
    Ok((Taken { segments, ending }, taker))
}

/// Puts lines after the others, as a segment of their own, unless there are none.
fn push_lines(segments: &mut Vec<Segment>, lines: Lines) -> Result<(), LineError>
    ensures lines { OnOk result (flat_map segment_lines segments.new.items
        ≡ flat_map segment_lines segments.old.items ++ lines) }
    ensures at_most_one_more { OnOk result
        (length segments.new.items ≤ length segments.old.items + 1) }
    ensures full { OnOk result (length segments.new.items
        ≤ length segments.old.items + length lines) }
    ensures memory { IfErr result (λ error. is_read_fault error ≡ false) }
{
    if lines.len() == 0 {
        return Ok(());
    }
    match segments.push(Segment::new(lines)) {
        Ok(()) => Ok(()),
        Err(_) => Err(LineError::NoMemory),
    }
}

/// Whether more lines may follow.
pub fn is_more(ending: Ending) -> bool
    ensures { Decides result (ending ≡ More) }
{
    matches!(ending, Ending::More)
}
