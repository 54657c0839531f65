//! Judging the rows of a trace window by window, stage by stage.

ghost use Rattle.std.specs.Prelude.{◌≡◌, ◌≤◌, ◌<◌, ◌+◌, ◌*◌, ◌^◌, false, IfOk, IfSome, OnOk, length, map};
ghost use Rattle.std.specs.List.{All, flat_map};
ghost use Rattle.hart_step.specs.HartSets.{SetCanStep};
ghost use Rattle.rvfi_rows.specs.Segments.{segment_lines};
ghost use Rattle.segment_judge.specs.Founds.{IsLawfulFound};

use crate::failure::Failure;
use crate::stages::Stages;
use boundary_guess::guesses;
use hart_step::Harts;
use hart_words::{NoMemory, PhysMem};
use line_text::Lines;
use outside_ports::{OpenGate, Shelf};
use rvfi_rows::{Columns, Segment, read_segments, reuse_rows};
use segment_judge::{Found, Judged};
use segment_workers::{Steps, run};
use std::alloc::Global;
use std::marker::Brand;
use std::rt::Clock;
use std::sync::ledger::{Blank, Ledger};
use std::thread::Threads;
use std::time::Instant;
use trace_lines::{Ending, LineTaker, Piece};
use verdict_board::Board;
use verdict_join::{Round, join_round};

/// How many lines a segment has, and how many segments a window has: the judge's defaults.
const SEGMENT: usize = 4_096;

const WINDOW: usize = 64;

/// The segments of a window, and whether it is the last.
#[derive(Drop)]
pub(crate) struct Window {
    pub segments: Vec<Segment>,
    pub is_last: bool,
    ghost at_most_64: { length segments.items ≤ 64 },
    ghost lines: { length (flat_map segment_lines segments.items) ≤ 64 * 4096 },
}

/// What is known before a window: the harts, and where lines are taken from.
#[derive(Drop)]
pub(crate) struct Walk<M> {
    pub harts: Harts<M>,
    pub taker: LineTaker,
    /// The segments of the window before, in the memory of whose rows others are read.
    pub judged: Vec<Segment>,
}

/// So many workers, and what they run in.
#[derive(Drop)]
pub(crate) struct Workers<'a, R> {
    pub rt: &'a R,
    pub alloc: Global,
    pub count: u32,
    ghost at_least_1: { 1 ≤ count },
    ghost at_most_64: { count ≤ 64 },
}

/// The microseconds since a time.
fn since<R: Clock>(rt: &R, time: Instant) -> Result<u64, Failure> {
    let passed = time.elapsed(rt)?;
    Ok(
        passed
            .as_secs()
            .saturating_mul(1_000_000)
            .saturating_add(u64::from(passed.subsec_micros())),
    )
}

/// Puts lines after the others, as a segment of their own.
fn push_lines(segments: &mut Vec<Segment>, lines: Lines) -> Result<(), NoMemory>
    ensures lines { OnOk result (length (flat_map segment_lines segments.new.items)
        ≡ length (flat_map segment_lines segments.old.items) + length lines) }
    ensures one { OnOk result (length segments.new.items ≡ length segments.old.items + 1) }
{
    segments.push(Segment::new(lines))?;
    Ok(())
}

/// Takes the lines of a window.
fn take_window<H: Shelf>(
    alloc: Global,
    taker: LineTaker,
    shelf: &mut H,
) -> Result<(Window, LineTaker), Failure> {
    let mut taker = taker;
    let mut segments = Vec::new(alloc);
    'segments: for _ in 0..WINDOW {
        let (piece, next) = taker.next_lines(shelf, SEGMENT)?;
        taker = next;
        let Piece { lines, ending } = piece;
        push_lines(&mut segments, lines)?;
        if !matches!(ending, Ending::More) {
            let is_last = true;
            return Ok((Window { segments, is_last }, taker));
        }
    }
    let is_last = false;
    Ok((Window { segments, is_last }, taker))
}

/// What the workers find of segments.
fn find<R: Threads + Sync, M: PhysMem + Drop + Send + Sync, L: Ledger>(
    workers: &Workers<R>,
    guesses: &[Harts<M>],
    columns: &Columns,
    segments: &[Segment],
    blank: Blank,
) -> Result<Vec<Found<Judged<M>>>, NoMemory>
    requires below_2_to_32 { length segments.now < 2 ^ 32 }
    requires one_each { length guesses.now ≡ length segments.now }
    requires guesses { All (SetCanStep M.ram) guesses.now }
    requires name { blank.name ≡ L.name }
    requires parts { blank.parts ≡ L.parts }
    requires positive { 0 < blank.parts }
    ensures { IfOk result (λ founds. All
        (IsLawfulFound false M.bytes M.ram columns.now segments.now guesses.now) founds.items) }
{
    let count = segments.len() as u32;
    let (board, seats) = Board::open(workers.alloc, count, workers.count)?;
    let mut steps = Steps::<L>::new(blank);
    let (founds, seat) = run(
        workers.rt,
        workers.alloc,
        &board,
        seats,
        guesses,
        columns,
        segments,
        &OpenGate,
        false,
        &mut steps,
    )?;
    let _closed = board.close(seat);
    Ok(founds)
}

/// Reads the rows of segments, in the memory that those of others have.
fn read<R: Threads + Sync>(
    workers: &Workers<R>,
    columns: &Columns,
    segments: Vec<Segment>,
    judged: Vec<Segment>,
) -> Result<Vec<Segment>, NoMemory>
    ensures { IfOk result (λ read. map segment_lines read.items
        ≡ map segment_lines segments.items) }
{
    let count = workers.count as usize;
    let mut segments = segments;
    reuse_rows(&mut segments, judged);
    read_segments(workers.rt, workers.alloc, count, columns, &mut segments)?;
    Ok(segments)
}

/// Judges segments that were read, after harts: what the stages took, and the harts after them.
fn judge_segments<R: Threads + Sync + Clock, M: PhysMem + Drop + Send + Sync>(
    workers: &Workers<R>,
    columns: &Columns,
    start: Harts<M>,
    segments: &[Segment],
) -> Result<(Stages, Harts<M>), Failure>
    requires can_step { SetCanStep M.ram start }
    requires below_2_to_32 { length segments.now < 2 ^ 32 }
    requires lines { length (flat_map segment_lines segments.now) < 2 ^ 60 }
    ensures { IfOk result (λ judged. SetCanStep M.ram judged.1) }
{
    let begin = Instant::now(workers.rt)?;
    let start = start.copy()?;
    let guesses = guesses(workers.alloc, &start, columns, segments)?;
    let guessing = since(workers.rt, begin)?;
    let begin = Instant::now(workers.rt)?;
    let founds = find::<R, M, Brand>(workers, &guesses, columns, segments, Blank::new(1))?;
    let judging = since(workers.rt, begin)?;
    let begin = Instant::now(workers.rt)?;
    let Round { settled, end, .. } = join_round(
        workers.alloc,
        start,
        columns,
        segments,
        &guesses,
        founds,
        false,
    )?;
    let joining = since(workers.rt, begin)?;
    if settled < segments.len() {
        return Err(Failure::Row);
    }
    let stages = Stages {
        guessing,
        judging,
        joining,
        ..Stages::NONE
    };
    match end {
        Some(end) => Ok((stages, end)),
        None => Err(Failure::Row),
    }
}

/// Takes and judges the rows of the next window: what the stages took, and what is known after it,
/// unless it is the last.
pub fn pass_window<R: Threads + Sync + Clock, M: PhysMem + Drop + Send + Sync, H: Shelf>(
    workers: &Workers<R>,
    columns: &Columns,
    walk: Walk<M>,
    shelf: &mut H,
) -> Result<(Stages, Option<Walk<M>>), Failure>
    requires { SetCanStep M.ram walk.harts }
    ensures { IfOk result (λ passed. IfSome passed.1 (λ walk. SetCanStep M.ram walk.harts)) }
{
    let Walk {
        harts,
        taker,
        judged,
    } = walk;
    let begin = Instant::now(workers.rt)?;
    let (window, taker) = take_window(workers.alloc, taker, shelf)?;
    let lines = since(workers.rt, begin)?;
    let Window { segments, is_last } = window;
    let begin = Instant::now(workers.rt)?;
    let segments = read(workers, columns, segments, judged)?;
    let reading = since(workers.rt, begin)?;
    let (stages, harts) = judge_segments(workers, columns, harts, &segments)?;
    let stages = Stages {
        lines,
        reading,
        ..stages
    };
    if is_last {
        return Ok((stages, None));
    }
    let judged = segments;
    let walk = Walk {
        harts,
        taker,
        judged,
    };
    Ok((stages, Some(walk)))
}
