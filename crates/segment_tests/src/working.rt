ghost use Rattle.std.specs.Prelude.{◌≡◌, ◌<◌, ◌≤◌, IfOk, IsTrue};
ghost use Rattle.std.specs.List.{All};
ghost use Rattle.hart_step.specs.HartSets.{SetCanStep};
ghost use Rattle.line_text.specs.Lines.{IsLine};

use hart_step::{Core, Harts};
use hart_words::{Choices, Map, PhysMem, Span};
use line_text::Lines;
use outside_ports::{Gate, HoldGate, OpenGate};
use page_layers::MapMem;
use rvfi_rows::{Segment, Verdict, read_header};
use segment_judge::{Found, Judged, What};
use segment_workers::{Steps, run};
use std::alloc::Global;
use std::marker::Brand;
use std::process::Abort;
use std::sync::ledger::{Blank, Ledger};
use std::test::Fail;
use std::thread::Threads;
use verdict_board::Board;

const CODE: u64 = 0x8000_0000;

const HEADER: &[u8] = b"insn,pc_rdata,rs1_rdata";

/// Instructions from `CODE` on, each with the line of its row, which is a segment of its own.
type Rows<'a> = &'a [(u64, &'a [u8])];

/// ADDI x1, x0, 5; ADDI x2, x1, 1; ADDI x3, x0, 3; and ADDI x4, x0, 4.
const FOUR: [(u64, &[u8]); 4] = [
    (0x0050_0093, b"0x00500093,0x80000000,"),
    (0x0010_8113, b"0x00108113,0x80000004,5"),
    (0x0030_0193, b"0x00300193,0x80000008,"),
    (0x0040_0213, b"0x00400213,0x8000000c,"),
];

/// ADDI x1, x0, 1 to ADDI x6, x0, 6.
const SIX: [(u64, &[u8]); 6] = [
    (0x0010_0093, b"0x00100093,0x80000000,"),
    (0x0020_0113, b"0x00200113,0x80000004,"),
    (0x0030_0193, b"0x00300193,0x80000008,"),
    (0x0040_0213, b"0x00400213,0x8000000c,"),
    (0x0050_0293, b"0x00500293,0x80000010,"),
    (0x0060_0313, b"0x00600313,0x80000014,"),
];

/// The last of them with a row that cannot be read.
const REFUSED: [(u64, &[u8]); 3] = [
    (0x0010_0093, b"0x00100093,0x80000000,"),
    (0x0020_0113, b"none,0x80000004,"),
    (0x0030_0193, b"0x00300193,0x80000008,"),
];

/// Whether no line feed stands in the bytes.
fn is_line(bytes: &[u8]) -> bool
    ensures { IsTrue result → IsLine bytes.now }
{
    bytes.iter().all(|byte| *byte != b'\n')
}

fn put_line(lines: &mut Lines, line: &[u8]) -> Result<(), Fail> {
    if !is_line(line) {
        return Err(Fail::from("no line"));
    }
    lines.push(line)?;
    Ok(())
}

/// Writes to memory, where so many bytes lie in one page of RAM.
fn put(mem: &mut MapMem, ram: &Span, pa: u64, len: u8, value: u64) -> Result<(), Fail>
    requires ram { mem.old.ram ≡ ram.now }
    ensures ram { mem.new.ram ≡ mem.old.ram }
{
    if !ram.is_place(pa, len) {
        return Err(Fail::from("no place of RAM"));
    }
    mem.write(pa, len, value)?;
    Ok(())
}

/// A memory with the instructions.
fn memory(alloc: Global, ram: Span, rows: Rows) -> Result<MapMem, Fail>
    ensures { IfOk result (λ mem. mem.ram ≡ ram) }
{
    let mut mem = MapMem::zeros(alloc, ram);
    let mut address = CODE;
    'program: for (instruction, _) in rows {
        put(&mut mem, &ram, address, 4, *instruction)?;
        address = address.wrapping_add(4);
    }
    Ok(mem)
}

/// One hart at reset, with another pc.
fn at(alloc: Global, rows: Rows, pc: u64) -> Result<Harts<MapMem>, Fail>
    ensures { IfOk result (SetCanStep (λ mem. mem.ram)) }
{
    if pc % 2 != 0 {
        return Err(Fail::from("odd"));
    }
    let ram = Span::new(CODE, 0x1000).ok_or("no range")?;
    let map = Map::new(ram, None).ok_or("no map")?;
    let memory = memory(alloc, map.ram, rows)?;
    let core = Core::reset(pc, map, Choices::plain());
    Ok(Harts::reset(alloc, core, 1, memory)?)
}

/// A guess before each segment: its pc is right, and all registers are 0.
fn guesses_of(alloc: Global, rows: Rows) -> Result<Vec<Harts<MapMem>>, Fail>
    ensures { IfOk result (λ guesses. All (SetCanStep (λ mem. mem.ram)) guesses.items) }
{
    let mut guesses = Vec::new(alloc);
    let mut pc = CODE;
    'guesses: for _ in rows {
        guesses.push(at(alloc, rows, pc)?)?;
        pc = pc.wrapping_add(4);
    }
    Ok(guesses)
}

fn segments_of(alloc: Global, rows: Rows) -> Result<Vec<Segment>, Fail> {
    let mut segments = Vec::new(alloc);
    for (_, line) in rows {
        let mut lines = Lines::new(alloc);
        put_line(&mut lines, *line)?;
        segments.push(Segment::new(lines))?;
    }
    Ok(segments)
}

/// What is told of a segment.
#[derive(Clone, Copy, Debug, PartialEq, Eq)]
enum Told {
    Agrees,
    Differs,
    Refused,
    Skipped(u32),
}

fn told_of(found: &Found<Judged<MapMem>>) -> Told {
    match &found.what {
        What::Skipped(least) => Told::Skipped(*least),
        What::Judged(judged) => match &judged.verdict {
            Verdict::Agrees { .. } => Told::Agrees,
            Verdict::Differs { .. } => Told::Differs,
            Verdict::Refused { .. } => Told::Refused,
        },
    }
}

/// Each of the segments was found once, and this is told of it.
fn hold_told(rt: &impl Abort, founds: &[Found<Judged<MapMem>>], wanted: &[Told]) {
    assert_eq!(rt; founds.len(), wanted.len());
    let mut number: u32 = 0;
    for known_files in wanted {
        let found = founds.iter().find(|found| found.seg == number).map(told_of);
        assert_eq!(rt; found, Some(*known_files), "segment {number}");
        number = number.wrapping_add(1);
    }
}

/// Workers at so many seats tell this of the segments, and leave the board's words so.
#[derive(Clone, Copy)]
struct Case<'a> {
    rows: Rows<'a>,
    seats: u32,
    known_files: &'a [Told],
    drawn: u64,
    least: u32,
}

fn hold_run<R: Threads + Sync + Abort, G: Gate>(
    rt: &R,
    alloc: Global,
    case: &Case,
    gate: &G,
) -> Result<(), Fail>
    requires { (1 ≤ case.now.seats) × (case.now.seats ≤ 64) }
{
    hold_counted::<R, G, Brand>(rt, alloc, case, gate, Blank::new(1))
}

fn hold_counted<R: Threads + Sync + Abort, G: Gate, L: Ledger>(
    rt: &R,
    alloc: Global,
    case: &Case,
    gate: &G,
    blank: Blank,
) -> Result<(), Fail>
    requires seats { (1 ≤ case.now.seats) × (case.now.seats ≤ 64) }
    requires name { blank.name ≡ L.name }
    requires parts { blank.parts ≡ L.parts }
    requires positive { 0 < blank.parts }
{
    let columns = read_header(alloc, HEADER)?;
    let segments = segments_of(alloc, case.rows)?;
    let guesses = guesses_of(alloc, case.rows)?;
    if guesses.len() != segments.len() {
        return Err(Fail::from("not a guess for each"));
    }
    let n = u32::try_from(segments.len()).ok().ok_or("too many")?;
    let (board, all) = Board::open(alloc, n, case.seats)?;
    let mut steps = Steps::<L>::new(blank);
    let (founds, seat) = run(
        rt, alloc, &board, all, &guesses, &columns, &segments, gate, false, &mut steps,
    )?;
    let (drawn, least) = board.close(seat);
    hold_told(rt, &founds, case.known_files);
    assert_eq!(rt; (drawn, least), (case.drawn, case.least));
    Ok(())
}

/// The second segment differs from its guess or cannot be read, and those after it are skipped.
#[test]
fn skips_after_what_was_posted(rt: HostRuntime) -> Result<(), Fail> {
    let skipped = Told::Skipped(1);
    let differs = Case {
        rows: &FOUR,
        seats: 1,
        known_files: &[Told::Agrees, Told::Differs, skipped, skipped],
        drawn: 5,
        least: 1,
    };
    hold_run(&rt, rt.alloc(), &differs, &OpenGate)?;
    let refused = Case {
        rows: &REFUSED,
        seats: 1,
        known_files: &[Told::Agrees, Told::Refused, skipped],
        drawn: 4,
        least: 1,
    };
    hold_run(&rt, rt.alloc(), &refused, &OpenGate)
}

/// A worker that is held at a segment leaves the others to another, and each passes the gate for
/// each of its segments.
#[test]
fn passes_the_gate(rt: HostRuntime) -> Result<(), Fail> {
    let gate = HoldGate::new();
    let case = Case {
        rows: &SIX,
        seats: 2,
        known_files: &[Told::Agrees; 6],
        drawn: 8,
        least: 6,
    };
    hold_run(&rt, rt.alloc(), &case, &gate)?;
    assert_eq!(rt;
        (gate.befores(), gate.afters(), gate.gave_up()),
        (6, 6, false)
    );
    Ok(())
}

#[test]
fn has_more_seats_than_segments(rt: HostRuntime) -> Result<(), Fail> {
    let case = Case {
        rows: &[SIX[0], SIX[1], SIX[2]],
        seats: 64,
        known_files: &[Told::Agrees; 3],
        drawn: 67,
        least: 3,
    };
    hold_run(&rt, rt.alloc(), &case, &OpenGate)
}
