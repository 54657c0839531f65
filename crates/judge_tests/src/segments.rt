//! Small traces that are settled in rounds: how many segments are judged again, and who passes the
//! gate in how many rounds.

ghost use Rattle.std.specs.Prelude.{◌≡◌, ◌≤◌, ◌<◌, ◌^◌, IsTrue, length};
ghost use Rattle.std.specs.List.{All};
ghost use Rattle.hart_step.specs.HartSets.{SetCanStep};
ghost use Rattle.line_text.specs.Lines.{IsLine};
ghost use Rattle.page_layers.specs.Memories.{layered_ram};
ghost use Rattle.rvfi_rows.specs.Segments.{line_count_of};

use hart_set::HartSet;
use hart_step::{Core, Harts};
use hart_words::{Choices, Map, Span};
use image_text::read_image;
use judge_run::settle;
use line_text::Lines;
use outside_ports::Gate;
use page_image::PageImage;
use page_layers::Layered;
use rvfi_rows::{Columns, Segment, Verdict, read_header};
use segment_workers::Steps;
use std::alloc::{AllocError, Global};
use std::marker::Brand;
use std::process::Abort;
use std::sync::atomic::AtomicU64;
use std::sync::atomic::Ordering::SeqCst;
use std::sync::ledger::{Blank, Ledger};
use std::test::Fail;
use std::thread::Threads;
use trace_maker::make;

const CODE: u64 = 0x8000_0000;

/// AUIPC x2, 1; ADDI x1, x0, 5; SD x1, 0(x2); LD x3, 0(x2); ADDI x4, x3, 1.
const IMAGE: &[u8] = b"@80000000
    17 11 00 00  93 00 50 00  23 30 11 00  83 31 01 00  13 82 11 00
";

/// A header and rows.
#[derive(Drop)]
struct Trace {
    header: &'static [u8],
    rows: &'static [&'static [u8]],
}

/// Each row shows all that its instruction changes.
const SHOWN: Trace = Trace {
    header: b"trap,insn,pc_rdata,rd_addr,rd_wdata,pc_wdata,mem_addr,mem_wmask,mem_wdata",
    rows: &[
        b"0,0x00001117,0x80000000,2,0x80001000,0x80000004,,,",
        b"0,0x00500093,0x80000004,1,5,0x80000008,,,",
        b"0,0x00113023,0x80000008,0,0,0x8000000c,0x80001000,0xff,5",
        b"0,0x00013183,0x8000000c,3,5,0x80000010,0x80001000,0,",
        b"0,0x00118213,0x80000010,4,6,0x80000014,,,",
    ],
};

/// No row shows x2, so each guess but the first has another number there.
const SILENT: Trace = Trace {
    header: b"insn,pc_rdata",
    rows: &[
        b"0x00001117,0x80000000",
        b"0x00500093,0x80000004",
        b"0x00113023,0x80000008",
        b"0x00013183,0x8000000c",
        b"0x00118213,0x80000010",
    ],
};

/// ADDI x1, x0, 5; ADDI x2, x1, 1; ADDI x3, x0, 3; ADDI x4, x0, 4.
const FOUR: &[u8] = b"@80000000 93 00 50 00 13 81 10 00 93 01 30 00 13 02 40 00";

/// The second row shows what it reads, so that it differs from a guess that has no x1.
const READ: Trace = Trace {
    header: b"insn,pc_rdata,rs1_rdata",
    rows: &[
        b"0x00500093,0x80000000,",
        b"0x00108113,0x80000004,5",
        b"0x00300193,0x80000008,",
        b"0x00400213,0x8000000c,",
    ],
};

/// A gate that does nothing but count how often each segment passes it. Segments are numbered from
/// 0 in each round, so segment 0 passes it as often as there are rounds.
#[derive(Drop)]
struct CountGate {
    befores: Vec<AtomicU64>,
    afters: Vec<AtomicU64>,
    /// How often a number passed that no segment has.
    others: AtomicU64,
}

fn zeros(alloc: Global, count: usize) -> Result<Vec<AtomicU64>, AllocError> {
    let mut zeros = Vec::new(alloc);
    for _ in 0..count {
        zeros.push(AtomicU64::new(0))?;
    }
    Ok(zeros)
}

impl CountGate {
    /// A gate for so many segments.
    fn new(alloc: Global, segments: usize) -> Result<Self, AllocError> {
        Ok(CountGate {
            befores: zeros(alloc, segments)?,
            afters: zeros(alloc, segments)?,
            others: AtomicU64::new(0),
        })
    }

    fn count(&self, counts: &[AtomicU64], seg: u32) {
        let count = counts.get(seg as usize).unwrap_or(&self.others);
        count.fetch_add(1, SeqCst);
    }

    /// How often each segment went in and out, and then how often others did either.
    fn passes(&self, alloc: Global) -> Result<Vec<(u64, u64)>, AllocError> {
        let mut passes = Vec::new(alloc);
        for (before, after) in self.befores.iter().zip(self.afters.iter()) {
            passes.push((before.load(SeqCst), after.load(SeqCst)))?;
        }
        let others = self.others.load(SeqCst);
        passes.push((others, others))?;
        Ok(passes)
    }
}

impl Gate for CountGate {
    fn before(&self, _worker: u32, seg: u32) {
        self.count(&self.befores, seg);
    }

    fn after(&self, _worker: u32, seg: u32) {
        self.count(&self.afters, seg);
    }
}

/// Whether no line feed stands in the bytes.
fn is_line(bytes: &[u8]) -> bool
    ensures { IsTrue result → IsLine bytes.now }
{
    bytes.iter().all(|byte| *byte != b'\n')
}

fn put_line(lines: &mut Lines, line: &[u8]) -> Result<(), Fail> {
    if !is_line(line) {
        return Err(Fail::from("no line"));
    }
    lines.push(line)?;
    Ok(())
}

fn lines_with(alloc: Global, rows: &[&[u8]]) -> Result<Lines, Fail> {
    let mut lines = Lines::new(alloc);
    'rows: for row in rows {
        put_line(&mut lines, *row)?;
    }
    Ok(lines)
}

/// Segments of so many lines each, the last one shorter.
fn cut(alloc: Global, lines: &Lines, length: usize) -> Result<Vec<Segment>, Fail> {
    let mut segments = Vec::new(alloc);
    let mut part = Lines::new(alloc);
    for number in 0..lines.len() {
        put_line(&mut part, lines.get(number).ok_or("no such line")?)?;
        if part.len() == length {
            segments.push(Segment::new(part))?;
            part = Lines::new(alloc);
        }
    }
    if part.len() > 0 {
        segments.push(Segment::new(part))?;
    }
    Ok(segments)
}

/// Whether no segment has many lines.
fn are_short(segments: &[Segment]) -> bool
    ensures { IsTrue result → All (λ segment. length segment.lines < 2000) segments.now }
{
    segments.iter().all(|segment| segment.lines.len() < 2000)
}

/// Whether there are few segments, and few lines in them.
fn are_few(segments: &[Segment]) -> bool
    ensures segments { IsTrue result → length segments.now < 2 ^ 32 }
    ensures lines { IsTrue result → line_count_of segments.now < 2 ^ 60 }
{
    segments.len() < 1000 && are_short(segments)
}

/// What is told of segments: the verdict, how many of them were judged again, and how often each
/// went in and out at the gate.
#[derive(Drop)]
struct Told {
    verdict: Verdict,
    rejudged: u32,
    passes: Vec<(u64, u64)>,
}

/// The same of segments that each went out as often as in.
type Wanted<'a> = (Verdict, u32, &'a [u64]);

fn hold_told(rt: &impl Abort, told: &Told, wanted: Wanted) {
    let (verdict, rejudged, passes) = wanted;
    assert_eq!(rt; (told.verdict, told.rejudged), (verdict, rejudged));
    assert_eq!(rt; told.passes.len(), passes.len().saturating_add(1));
    'segments: for (number, found) in told.passes.iter().enumerate() {
        let wanted = passes.get(number).copied().unwrap_or(0);
        assert_eq!(rt; *found, (wanted, wanted), "segment {number}");
    }
}

/// Settles segments by so many workers.
fn settle_few<R: Threads + Sync, L: Ledger>(
    rt: &R,
    start: (Global, Harts<Layered>),
    columns: &Columns,
    segments: &[Segment],
    workers: u32,
    blank: Blank,
) -> Result<Told, Fail>
    requires can_step { SetCanStep layered_ram start.1 }
    requires name { blank.name ≡ L.name }
    requires parts { blank.parts ≡ L.parts }
    requires positive { 0 < blank.parts }
{
    if !are_few(segments) || workers < 1 || 64 < workers {
        return Err(Fail::from("too many segments or workers"));
    }
    let (alloc, start) = start;
    let gate = CountGate::new(alloc, segments.len())?;
    let mut steps = Steps::<L>::new(blank);
    let joined = settle(
        rt, alloc, start, columns, segments, workers, &gate, false, &mut steps,
    )?;
    Ok(Told {
        verdict: joined.verdict,
        rejudged: joined.rejudged,
        passes: gate.passes(alloc)?,
    })
}

/// The same of rows under a header over an image, cut into segments of so many lines.
fn settle_cut<R: Threads + Sync>(
    rt: &R,
    alloc: Global,
    image: &[u8],
    lines: (&[u8], &Lines),
    cuts: (usize, u32),
) -> Result<Told, Fail> {
    let (most, workers) = cuts;
    if most == 0 {
        return Err(Fail::from("no length"));
    }
    let ram = Span::new(CODE, 0x800_0000).ok_or("no range")?;
    let map = Map::new(ram, None).ok_or("no map")?;
    let pieces = read_image(alloc, image, map.ram).map_err(|_| Fail::from("no image"))?;
    let image = PageImage::build(alloc, &pieces, map.ram)?;
    let memory = Layered::over(alloc, &image);
    let core = Core::reset(CODE, map, Choices::plain());
    let start = (alloc, HartSet::reset(alloc, core, 1, memory)?);
    let columns = read_header(alloc, lines.0)?;
    let segments = cut(alloc, lines.1, most)?;
    settle_few::<R, Brand>(rt, start, &columns, &segments, workers, Blank::new(1))
}

/// A trace over an image, cut into segments of so many lines for so many workers, and what is told
/// of it.
#[derive(Drop)]
struct Settled<'a> {
    image: &'a [u8],
    trace: &'a Trace,
    cuts: (usize, u32),
    told: Wanted<'a>,
}

/// No segment is judged again where rows show what changes. Where they do not, a round ends with
/// the first whose guess is wrong, and those after it are guessed anew from the true state; the
/// verdict is the same. Each segment of a round passes the gate once.
#[test]
fn settles_in_rounds(rt: HostRuntime) -> Result<(), Fail> {
    let four = Verdict::Agrees { rows: 4, valid: 4 };
    let five = Verdict::Agrees { rows: 5, valid: 5 };
    let of = |image, trace, cuts, told| Settled {
        image,
        trace,
        cuts,
        told,
    };
    let cases = [
        of(FOUR, &READ, (1, 2), (four, 2, &[2, 2, 1, 1])),
        of(IMAGE, &SHOWN, (1, 2), (five, 0, &[1, 1, 1, 1, 1])),
        of(IMAGE, &SHOWN, (2, 1), (five, 0, &[1, 1, 1])),
        of(IMAGE, &SHOWN, (2, 64), (five, 0, &[1, 1, 1])),
        of(IMAGE, &SILENT, (1, 2), (five, 2, &[2, 2, 2, 1, 1])),
        of(IMAGE, &SILENT, (1, 64), (five, 2, &[2, 2, 2, 1, 1])),
        of(IMAGE, &SILENT, (2, 2), (five, 1, &[2, 1, 1])),
        of(IMAGE, &SILENT, (5, 1), (five, 0, &[1])),
    ];
    let alloc = rt.alloc();
    'cases: for case in cases {
        let lines = lines_with(alloc, case.trace.rows)?;
        let told = settle_cut(
            &rt,
            alloc,
            case.image,
            (case.trace.header, &lines),
            case.cuts,
        )?;
        hold_told(&rt, &told, case.told);
    }
    Ok(())
}

/// Where there is no segment there is no round.
#[test]
fn settles_nothing_without_a_round(rt: HostRuntime) -> Result<(), Fail> {
    let alloc = rt.alloc();
    let told = settle_cut(
        &rt,
        alloc,
        IMAGE,
        (SHOWN.header, &Lines::new(alloc)),
        (1, 2),
    )?;
    let agrees = Verdict::Agrees { rows: 0, valid: 0 };
    hold_told(&rt, &told, (agrees, 0, &[]));
    Ok(())
}

/// A made trace shows all that changes, so that it takes one round, and no segment of it is judged
/// again.
#[test]
fn settles_made_traces_in_one_round(rt: HostRuntime) -> Result<(), Fail> {
    let alloc = rt.alloc();
    let (image, trace) = make(alloc, 7, 1000)?;
    let mut lines = Lines::new(alloc);
    let mut header = trace.as_slice();
    'lines: for (number, line) in trace.split(|byte| *byte == b'\n').enumerate() {
        if number == 0 {
            header = line;
        } else if !line.is_empty() {
            put_line(&mut lines, line)?;
        }
    }
    let agrees = Verdict::Agrees {
        rows: 1000,
        valid: 1000,
    };
    let once = [1; 143];
    for (most, segments) in [(7, 143), (64, 16), (1000, 1)] {
        let told = settle_cut(&rt, alloc, &image, (header, &lines), (most, 2))?;
        hold_told(&rt, &told, (agrees, 0, &once[..segments]));
    }
    Ok(())
}
