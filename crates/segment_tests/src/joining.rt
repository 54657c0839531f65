//! Rounds of small traces, each beside the judging of the lines that it settles as one segment.

ghost use Rattle.std.specs.Prelude.{◌≡◌, ◌≤◌, ◌<◌, ◌^◌, IfOk, IfSome, IsTrue, length, true};
ghost use Rattle.std.specs.List.{All};
ghost use Rattle.hart_step.specs.Cores.{IsSound};
ghost use Rattle.hart_step.specs.HartSets.{SetCanStep};
ghost use Rattle.line_text.specs.Lines.{IsLine};
ghost use Rattle.page_layers.specs.Memories.{map_bytes};
ghost use Rattle.rvfi_rows.specs.Segments.{line_count_of};
ghost use Rattle.segment_judge.specs.Founds.{IsLawfulFound};

use super::guesses::cut;
use boundary_guess::guesses;
use hart_step::{Core, Harts};
use hart_words::{Choices, Difference, Map, Mode, PhysMem, Signal, Span};
use line_text::Lines;
use page_layers::MapMem;
use row_origin::History;
use rvfi_rows::{Column, Columns, Port, RowFault, Segment, Verdict, read_header};
use segment_judge::{Found, Judged, What, judge};
use std::alloc::Global;
use std::process::Abort;
use std::test::Fail;
use verdict_join::join_round;

pub(crate) const CODE: u64 = 0x8000_0000;

pub(crate) const DATA: u64 = 0x8000_1000;

/// A page table, where a test has any.
pub(crate) const BELOW: u64 = 0x8000_3000;

/// Whether no line feed stands in the bytes.
fn is_line(bytes: &[u8]) -> bool
    ensures { IsTrue result → IsLine bytes.now }
{
    bytes.iter().all(|byte| *byte != b'\n')
}

pub(crate) fn put_line(lines: &mut Lines, line: &[u8]) -> Result<(), Fail> {
    if !is_line(line) {
        return Err(Fail::from("no line"));
    }
    lines.push(line)?;
    Ok(())
}

fn lines_with(alloc: Global, rows: &[&[u8]]) -> Result<Lines, Fail> {
    let mut lines = Lines::new(alloc);
    'rows: for row in rows {
        put_line(&mut lines, *row)?;
    }
    Ok(lines)
}

/// The RAM of harts.
fn ram_of(harts: &Harts<MapMem>) -> Span
    requires { SetCanStep (λ mem. mem.ram) harts.now }
    ensures { harts.now.mem.ram ≡ result }
{
    harts.cores[0].map.ram
}

/// The number of so many bytes at an address.
pub(crate) fn number_at(harts: &Harts<MapMem>, pa: u64, len: u8) -> Result<u64, Fail>
    requires { SetCanStep (λ mem. mem.ram) harts.now }
{
    if !ram_of(harts).is_place(pa, len) {
        return Err(Fail::from("no place of RAM"));
    }
    Ok(harts.mem.read(pa, len))
}

/// Writes to memory, where so many bytes lie in one page of RAM.
fn put(mem: &mut MapMem, ram: &Span, pa: u64, len: u8, value: u64) -> Result<(), Fail>
    requires ram { mem.old.ram ≡ ram.now }
    ensures ram { mem.new.ram ≡ mem.old.ram }
{
    if !ram.is_place(pa, len) {
        return Err(Fail::from("no place of RAM"));
    }
    mem.write(pa, len, value)?;
    Ok(())
}

/// What stands in memory, by address and length.
pub(crate) type Number = (u64, u8, u64);

/// A memory with the instructions from `CODE` on, and numbers.
fn memory(alloc: Global, ram: Span, program: &[u32], numbers: &[Number]) -> Result<MapMem, Fail>
    ensures { IfOk result (λ mem. mem.ram ≡ ram) }
{
    let mut mem = MapMem::zeros(alloc, ram);
    let mut place = CODE;
    'program: for instruction in program {
        put(&mut mem, &ram, place, 4, u64::from(*instruction))?;
        place = place.wrapping_add(4);
    }
    'numbers: for (address, len, value) in numbers {
        put(&mut mem, &ram, *address, *len, *value)?;
    }
    Ok(mem)
}

/// A hart at reset at `CODE`.
pub(crate) fn core_at_reset() -> Result<Core, Fail>
    ensures { IfOk result IsSound }
{
    let ram = Span::new(CODE, 0x800_0000).ok_or("no range")?;
    let map = Map::new(ram, None).ok_or("no map")?;
    Ok(Core::reset(CODE, map, Choices::plain()))
}

/// So many harts, each as this one, over such a memory.
pub(crate) fn harts_of(
    alloc: Global,
    core: Core,
    harts: u32,
    program: &[u32],
    numbers: &[Number],
) -> Result<Harts<MapMem>, Fail>
    requires sound { IsSound core }
    requires some { 1 ≤ harts }
    ensures { IfOk result (SetCanStep (λ mem. mem.ram)) }
{
    let memory = memory(alloc, core.map.ram, program, numbers)?;
    Ok(Harts::reset(alloc, core, harts, memory)?)
}

/// One hart at reset at `CODE`, over such a memory.
fn start(alloc: Global, program: &[u32], numbers: &[Number]) -> Result<Harts<MapMem>, Fail>
    ensures { IfOk result (SetCanStep (λ mem. mem.ram)) }
{
    harts_of(alloc, core_at_reset()?, 1, program, numbers)
}

/// Writes a register of control as M does.
pub(crate) fn write(core: &mut Core, address: u16, value: u64) -> Result<(), Fail>
    requires sound { IsSound core.old }
    ensures sound { IsSound core.new }
    ensures map { core.new.map ≡ core.old.map }
{
    core.csrs
        .write(address, Mode::Machine, value)
        .map_err(|_| Fail::from("no register"))
}

/// Reserves the block of a byte of RAM.
fn reserve(core: &mut Core, pa: u64) -> Result<(), Fail>
    requires sound { IsSound core.old }
    ensures sound { IsSound core.new }
    ensures map { core.new.map ≡ core.old.map }
{
    if !core.map.ram.contains(pa) {
        return Err(Fail::from("no RAM"));
    }
    core.reservation.set(pa, core.choices.block_size);
    Ok(())
}

/// What is made another in a hart.
#[derive(Clone, Copy, Debug)]
pub(crate) enum HartDamage {
    Register,
    Pc,
    Mscratch,
    Reservation,
    Order,
    Trapped,
    Halted,
}

/// What is made another in a guess.
#[derive(Clone, Copy, Debug)]
pub(crate) enum Damage {
    /// Of the hart of a number.
    Hart(usize, HartDamage),
    /// A byte of memory.
    Byte(u64),
}

fn damage_core(core: &mut Core, damage: HartDamage) -> Result<(), Fail>
    requires sound { IsSound core.old }
    ensures sound { IsSound core.new }
    ensures map { core.new.map ≡ core.old.map }
{
    match damage {
        HartDamage::Register => {
            core.registers.set(9, 77);
            Ok(())
        }
        HartDamage::Pc => {
            core.pc = 0x8000_0400;
            Ok(())
        }
        HartDamage::Mscratch => write(core, 0x340, 77),
        HartDamage::Reservation => reserve(core, DATA),
        HartDamage::Order => {
            core.next_order = Some(77);
            Ok(())
        }
        HartDamage::Trapped => {
            core.trapped_last = true;
            Ok(())
        }
        HartDamage::Halted => {
            core.halted = !core.halted;
            Ok(())
        }
    }
}

fn damage_hart(harts: &mut Harts<MapMem>, number: usize, damage: HartDamage) -> Result<(), Fail>
    requires { SetCanStep (λ mem. mem.ram) harts.old }
    ensures { SetCanStep (λ mem. mem.ram) harts.new }
{
    if number >= harts.cores.len() {
        return Err(Fail::from("no such hart"));
    }
    damage_core(&mut harts.cores[number], damage)
}

fn damage_harts(harts: &mut Harts<MapMem>, damage: Damage) -> Result<(), Fail>
    requires { SetCanStep (λ mem. mem.ram) harts.old }
    ensures { SetCanStep (λ mem. mem.ram) harts.new }
{
    match damage {
        Damage::Hart(number, damage) => damage_hart(harts, number, damage),
        Damage::Byte(pa) => {
            let byte = number_at(harts, pa, 1)?;
            let ram = ram_of(harts);
            put(&mut harts.mem, &ram, pa, 1, byte ^ 0xff)
        }
    }
}

/// Which guesses are damaged, by the numbers of their segments.
pub(crate) type Damages<'a> = &'a [(usize, Damage)];

fn damage_at(guesses: &mut [Harts<MapMem>], number: usize, damage: Damage) -> Result<(), Fail>
    requires within { number < length guesses.old }
    requires can_step { All (SetCanStep (λ mem. mem.ram)) guesses.old }
    ensures can_step { All (SetCanStep (λ mem. mem.ram)) guesses.new }
    ensures length { length guesses.new ≡ length guesses.old }
{
    damage_harts(&mut guesses[number], damage)
}

/// Numbers beyond the last segment are passed over.
fn damage_guesses(guesses: &mut [Harts<MapMem>], damages: Damages) -> Result<(), Fail>
    requires { All (SetCanStep (λ mem. mem.ram)) guesses.old }
    ensures can_step { All (SetCanStep (λ mem. mem.ram)) guesses.new }
    ensures length { length guesses.new ≡ length guesses.old }
{
    'damages: for (number, damage) in damages {
        if *number < guesses.len() {
            damage_at(guesses, *number, *damage)?;
        }
    }
    Ok(())
}

/// Whether no segment has many lines.
fn are_short(segments: &[Segment]) -> bool
    ensures { IsTrue result → All (λ segment. length segment.lines < 1000) segments.now }
{
    segments.iter().all(|segment| segment.lines.len() < 1000)
}

/// Whether there are few segments, and few lines in them.
fn are_few(segments: &[Segment]) -> bool
    ensures segments { IsTrue result → length segments.now < 2 ^ 32 }
    ensures lines { IsTrue result → line_count_of segments.now < 2 ^ 60 }
{
    segments.len() < 1000 && are_short(segments)
}

/// A trace that is judged: segments with a guess before each.
#[derive(Drop)]
pub(crate) struct Trial {
    pub start: Harts<MapMem>,
    pub columns: Columns,
    pub segments: Vec<Segment>,
    pub guesses: Vec<Harts<MapMem>>,
    ghost one_each: { length guesses.items ≡ length segments.items },
    ghost below_2_to_32: { length segments.items < 2 ^ 32 },
    ghost lines: { line_count_of segments.items < 2 ^ 60 },
}

/// A header and lines, and how many of these make a segment.
#[derive(Drop)]
pub(crate) struct Trace<'a> {
    header: &'a [u8],
    lines: Lines,
    length: usize,
}

impl Trial {
    /// With a guess before each segment, some of which are damaged.
    pub fn of(
        alloc: Global,
        start: Harts<MapMem>,
        columns: Columns,
        segments: Vec<Segment>,
        damages: Damages,
    ) -> Result<Trial, Fail>
        requires { SetCanStep (λ mem. mem.ram) start }
        ensures start { IfOk result (λ trial. SetCanStep (λ mem. mem.ram) trial.start) }
        ensures guesses { IfOk result (λ trial.
            All (SetCanStep (λ mem. mem.ram)) trial.guesses.items) }
    {
        let mut guesses = guesses(alloc, &start, &columns, &segments)?;
        damage_guesses(&mut guesses, damages)?;
        if guesses.len() != segments.len() || !are_few(&segments) {
            return Err(Fail::from("too many segments"));
        }
        Ok(Trial {
            start,
            columns,
            segments,
            guesses,
        })
    }
}

pub(crate) fn trial_of(
    alloc: Global,
    start: Harts<MapMem>,
    trace: Trace,
    damages: Damages,
) -> Result<Trial, Fail>
    requires { SetCanStep (λ mem. mem.ram) start }
    ensures start { IfOk result (λ trial. SetCanStep (λ mem. mem.ram) trial.start) }
    ensures guesses { IfOk result (λ trial. All (SetCanStep (λ mem. mem.ram)) trial.guesses.items) }
{
    let harts = u32::try_from(start.cores.len())
        .ok()
        .ok_or("too many harts")?;
    let columns = read_header(alloc, trace.header)?.with_harts(harts);
    if trace.length == 0 {
        return Err(Fail::from("no length"));
    }
    let segments = cut(alloc, &trace.lines, trace.length)?;
    Trial::of(alloc, start, columns, segments, damages)
}

/// Of which segment something is found, and what.
#[derive(Clone, Copy, Debug)]
pub(crate) enum Find {
    Judges(u32),
    Skips(u32),
}

fn found_of(alloc: Global, trial: &Trial, find: Find) -> Result<Found<Judged<MapMem>>, Fail>
    requires { All (SetCanStep (λ mem. mem.ram)) trial.now.guesses.items }
    ensures { IfOk result (IsLawfulFound true map_bytes (λ mem. mem.ram) trial.now.columns
        trial.now.segments.items trial.now.guesses.items) }
{
    match find {
        Find::Skips(seg) => {
            if seg as usize >= trial.segments.len() {
                return Err(Fail::from("no such segment"));
            }
            Ok(Found {
                seg,
                what: What::Skipped(1),
            })
        }
        Find::Judges(seg) => {
            let number = seg as usize;
            if number >= trial.segments.len() {
                return Err(Fail::from("no such segment"));
            }
            let guess = &trial.guesses[number];
            let judged = judge(alloc, guess, &trial.columns, &trial.segments[number], true)?;
            Ok(Found {
                seg,
                what: What::Judged(judged),
            })
        }
    }
}

fn founds_of(
    alloc: Global,
    trial: &Trial,
    finds: &[Find],
) -> Result<Vec<Found<Judged<MapMem>>>, Fail>
    requires { All (SetCanStep (λ mem. mem.ram)) trial.now.guesses.items }
    ensures { IfOk result (λ founds. All (IsLawfulFound true map_bytes (λ mem. mem.ram)
        trial.now.columns trial.now.segments.items trial.now.guesses.items) founds.items) }
{
    let mut founds = Vec::new(alloc);
    'finds: for find in finds {
        founds.push(found_of(alloc, trial, *find)?)?;
    }
    Ok(founds)
}

/// Both ends are the same harts, with the same bytes in the first lines of the pages.
fn hold_same_end(
    rt: &impl Abort,
    found: &Option<Harts<MapMem>>,
    wanted: &Option<Harts<MapMem>>,
) -> Result<(), Fail>
    requires found { IfSome found.now (SetCanStep (λ mem. mem.ram)) }
    requires wanted { IfSome wanted.now (SetCanStep (λ mem. mem.ram)) }
{
    match (found, wanted) {
        (Some(found), Some(wanted)) => {
            assert!(rt; found.same_but_memory(wanted));
            'places: for place in 0..32u64 {
                for page in [CODE, DATA, BELOW] {
                    let pa = page.wrapping_add(place.wrapping_mul(8));
                    assert_eq!(rt; number_at(found, pa, 8)?, number_at(wanted, pa, 8)?, "{pa}");
                }
            }
            Ok(())
        }
        (None, None) => Ok(()),
        _ => Err(Fail::from("one end alone")),
    }
}

/// Both histories say the same of who wrote what the differing row read.
fn hold_same_origins(
    rt: &impl Abort,
    found: &Option<History>,
    wanted: &Option<History>,
) -> Result<(), Fail> {
    let (Some(found), Some(wanted)) = (found, wanted) else {
        return Err(Fail::from("no history"));
    };
    match (found.origins(), wanted.origins()) {
        (None, None) => Ok(()),
        (Some(found), Some(wanted)) => {
            assert_eq!(rt; found.registers(), wanted.registers());
            assert_eq!(rt; found.bytes(), wanted.bytes());
            Ok(())
        }
        _ => Err(Fail::from("one difference alone")),
    }
}

/// The lines of the first segments, as one segment.
fn first_as_one(alloc: Global, segments: &[Segment], count: usize) -> Result<Segment, Fail> {
    let mut lines = Lines::new(alloc);
    'segments: for segment in segments.iter().take(count) {
        for number in 0..segment.lines.len() {
            put_line(&mut lines, segment.lines.get(number).ok_or("no such line")?)?;
        }
    }
    Ok(Segment::new(lines))
}

/// What a round comes to: the verdict, how many segments it settles, and how many of these were
/// judged again.
type Settled = (Verdict, usize, u32);

/// The round comes to the verdict, and so does the judging of the rows that it settles as one
/// segment, with the same harts after them.
fn hold_round(
    rt: &impl Abort,
    alloc: Global,
    trial: &Trial,
    finds: &[Find],
) -> Result<Settled, Fail>
    requires start { SetCanStep (λ mem. mem.ram) trial.now.start }
    requires guesses { All (SetCanStep (λ mem. mem.ram)) trial.now.guesses.items }
{
    let founds = founds_of(alloc, trial, finds)?;
    let round = join_round(
        alloc,
        trial.start.copy()?,
        &trial.columns,
        &trial.segments,
        &trial.guesses,
        founds,
        true,
    )?;
    let settled = first_as_one(alloc, &trial.segments, round.settled)?;
    let whole = judge(alloc, &trial.start, &trial.columns, &settled, true)?;
    assert_eq!(rt; round.verdict, whole.verdict);
    hold_same_origins(rt, &round.history, &whole.history)?;
    hold_same_end(rt, &round.end, &whole.end)?;
    Ok((round.verdict, round.settled, round.rejudged))
}

pub(crate) fn agrees(rows: u64) -> Verdict {
    Verdict::Agrees { rows, valid: rows }
}

fn differs(row: u64, signal: Signal, expected: u64, found: u64) -> Verdict {
    Verdict::Differs {
        row,
        difference: Difference {
            signal,
            expected,
            found,
        },
    }
}

/// A header, rows, and how many of these make a segment.
pub(crate) type Rows<'a> = (&'a [u8], &'a [&'a [u8]], usize);

pub(crate) fn trace_of<'a>(alloc: Global, rows: &Rows<'a>) -> Result<Trace<'a>, Fail> {
    Ok(Trace {
        header: rows.0,
        lines: lines_with(alloc, rows.1)?,
        length: rows.2,
    })
}

/// ADDI x1, x0, 5; ADDI x2, x1, 1; ADDI x3, x0, 3; ADDI x4, x0, 4.
const SUMS: [u32; 4] = [0x0050_0093, 0x0010_8113, 0x0030_0193, 0x0040_0213];

/// No row shows what was written, so each guess but the first has 0 in x1.
const SILENT: Rows = (
    b"insn,pc_rdata,rs1_rdata",
    &[
        b"0x00500093,0x80000000,",
        b"0x00108113,0x80000004,5",
        b"0x00300193,0x80000008,",
        b"0x00400213,0x8000000c,",
    ],
    1,
);

/// Segments in rising and in falling order, and each twice, where the bit of its number is set.
fn orders_of(alloc: Global, set: u32) -> Result<[Vec<Find>; 3], Fail> {
    let mut rising = Vec::new(alloc);
    let mut falling = Vec::new(alloc);
    let mut twice = Vec::new(alloc);
    for number in 0..4u32 {
        if set >> number & 1 == 1 {
            rising.push(Find::Judges(number))?;
            twice.push(Find::Judges(number))?;
            twice.push(Find::Judges(number))?;
        }
        if set >> (3 - number) & 1 == 1 {
            falling.push(Find::Judges(3 - number))?;
        }
    }
    Ok([rising, falling, twice])
}

/// The round over what was found of the silent rows.
fn join_silent(rt: &impl Abort, alloc: Global, finds: &[Find]) -> Result<Settled, Fail> {
    let harts = start(alloc, &SUMS, &[])?;
    let trial = trial_of(alloc, harts, trace_of(alloc, &SILENT)?, &[])?;
    hold_round(rt, alloc, &trial, finds)
}

/// In whatever order it was found, and where it is missing: the round ends with the first segment
/// of which nothing was found from a guess that is met.
#[test]
fn joins_what_was_found(rt: HostRuntime) -> Result<(), Fail> {
    let alloc = rt.alloc();
    let skipped = [
        Find::Judges(0),
        Find::Judges(1),
        Find::Skips(2),
        Find::Skips(3),
    ];
    let with_first = (agrees(2), 2, 1);
    assert_eq!(rt; join_silent(&rt, alloc, &skipped)?, with_first);
    'sets: for set in 0..16u32 {
        let wanted = if set & 1 == 1 {
            with_first
        } else {
            (agrees(1), 1, 1)
        };
        for finds in &orders_of(alloc, set)? {
            assert_eq!(rt; join_silent(&rt, alloc, finds)?, wanted, "{finds:?}");
        }
    }
    Ok(())
}

/// The round over all segments, each judged from its guess.
pub(crate) fn join_each(rt: &impl Abort, alloc: Global, trial: &Trial) -> Result<Settled, Fail>
    requires start { SetCanStep (λ mem. mem.ram) trial.now.start }
    requires guesses { All (SetCanStep (λ mem. mem.ram)) trial.now.guesses.items }
{
    let mut finds = Vec::new(alloc);
    'finds: for number in 0..trial.segments.len() {
        finds.push(Find::Judges(number as u32))?;
    }
    hold_round(rt, alloc, trial, &finds)
}

/// A program, what stands in memory besides, rows, which guesses are damaged, and what the round
/// over the segments comes to.
type Case<'a> = (&'a [u32], &'a [Number], Rows<'a>, Damages<'a>, Settled);

fn hold_cases(rt: &impl Abort, alloc: Global, cases: &[Case]) -> Result<(), Fail> {
    'cases: for (program, numbers, rows, damages, wanted) in cases {
        let harts = start(alloc, *program, *numbers)?;
        let trial = trial_of(alloc, harts, trace_of(alloc, rows)?, *damages)?;
        let found = join_each(rt, alloc, &trial)?;
        assert_eq!(rt; found, *wanted, "{damages:?}");
    }
    Ok(())
}

/// AUIPC x2, 1; ADDI x1, x0, 5; SD x1, 0(x2); ADDI x1, x0, 6; ADDI x3, x0, 1. The second row does
/// not show x1, so the guesses before the third and the fourth lack it, and all after the store
/// have 0 at `DATA`.
const STORES: [u32; 5] = [
    0x0000_1117,
    0x0050_0093,
    0x0011_3023,
    0x0060_0093,
    0x0010_0193,
];

const STORED: Rows = (
    b"insn,pc_rdata,rd_addr,rd_wdata",
    &[
        b"0x00001117,0x80000000,2,0x80001000",
        b"0x00500093,0x80000004,,",
        b"0x00113023,0x80000008,,",
        b"0x00600093,0x8000000c,1,6",
        b"0x00100193,0x80000010,3,1",
    ],
    1,
);

/// ADDI x1, x0, 5; ADDI x1, x1, 1. The hart halts after the first.
const HALTS: [u32; 2] = [0x0050_0093, 0x0010_8093];

const HALTED: Rows = (
    b"insn,pc_rdata,halt",
    &[b"0x00500093,0x80000000,1", b"0x00108093,0x80000004,0"],
    1,
);

const SHOWN: &[u8] = b"valid,insn,pc_rdata,rd_addr,rd_wdata";

const FIRST: &[u8] = b"1,0x00500093,0x80000000,1,5";

const SECOND: &[u8] = b"1,0x00108113,0x80000004,2,6";

const THIRD: &[u8] = b"1,0x00300193,0x80000008,3,3";

/// The fourth, with another result than it has.
const NINE: &[u8] = b"1,0x00400213,0x8000000c,4,9";

const REFUSED: &[u8] = b"1,none,0x80000008,3,3";

const INVALID: &[u8] = b"0,0x00300193,0x80000008,3,3";

/// Two segments of two rows each.
const DIFFERING: Rows = (SHOWN, &[FIRST, SECOND, THIRD, NINE], 2);

const REFUSING: Rows = (SHOWN, &[FIRST, SECOND, REFUSED, NINE], 2);

const SKIPPING: Rows = (SHOWN, &[FIRST, INVALID, SECOND, THIRD], 2);

const EMPTY: Rows = (SHOWN, &[], 2);

const REGISTER: Damages = &[(1, Damage::Hart(0, HartDamage::Register))];

const NOT_HALTED: Damages = &[(1, Damage::Hart(0, HartDamage::Halted))];

#[test]
fn joins_verdicts(rt: HostRuntime) -> Result<(), Fail> {
    let nine = differs(4, Signal::RdWdata, 4, 9);
    let halts = differs(2, Signal::Valid, 0, 1);
    let insn = Column {
        signal: Signal::Insn,
        port: Port::Zero,
    };
    let refused = Verdict::Refused {
        row: 3,
        fault: RowFault::NotNumber(insn),
    };
    let invalid = Verdict::Agrees { rows: 4, valid: 3 };
    let cases: [Case; 10] = [
        (&SUMS, &[], EMPTY, &[], (agrees(0), 0, 0)),
        (&STORES, &[], STORED, &[], (agrees(3), 3, 1)),
        (&HALTS, &[], HALTED, &[], (halts, 2, 0)),
        (&HALTS, &[], HALTED, NOT_HALTED, (halts, 2, 1)),
        (&SUMS, &[], DIFFERING, &[], (nine, 2, 0)),
        (&SUMS, &[], DIFFERING, REGISTER, (nine, 2, 1)),
        (&SUMS, &[], REFUSING, &[], (refused, 2, 0)),
        (&SUMS, &[], REFUSING, REGISTER, (refused, 2, 1)),
        (&SUMS, &[], SKIPPING, &[], (invalid, 2, 0)),
        (&SUMS, &[], SKIPPING, REGISTER, (invalid, 2, 1)),
    ];
    hold_cases(&rt, rt.alloc(), &cases)
}

/// AUIPC x2, 1; LD x3, 0(x2).
const LOADS: [u32; 2] = [0x0000_1117, 0x0001_3183];

pub(crate) const HELD: u64 = 0x8899_aabb_ccdd_eeff;

const LOADED: Rows = (
    b"insn,pc_rdata,rd_addr,rd_wdata",
    &[
        b"0x00001117,0x80000000,2,0x80001000",
        b"0x00013183,0x80000004,3,0x8899aabbccddeeff",
    ],
    1,
);

/// A guess is met where it is the true state but for bytes that its segment does not read. How many
/// of the two segments are settled, and how many of these were judged again.
#[test]
fn meets_guesses(rt: HostRuntime) -> Result<(), Fail> {
    let cases: [(usize, Damage, (u64, u32)); 15] = [
        (1, Damage::Hart(0, HartDamage::Register), (2, 1)),
        (1, Damage::Hart(0, HartDamage::Pc), (2, 1)),
        (1, Damage::Hart(0, HartDamage::Mscratch), (2, 1)),
        (1, Damage::Hart(0, HartDamage::Reservation), (2, 1)),
        (1, Damage::Hart(0, HartDamage::Order), (2, 1)),
        (1, Damage::Hart(0, HartDamage::Trapped), (2, 1)),
        (1, Damage::Hart(0, HartDamage::Halted), (2, 1)),
        // What the segment fetches and loads, and what stands beside that.
        (1, Damage::Byte(CODE + 3), (2, 0)),
        (1, Damage::Byte(CODE + 4), (2, 1)),
        (1, Damage::Byte(DATA), (2, 1)),
        (1, Damage::Byte(DATA + 7), (2, 1)),
        (1, Damage::Byte(DATA + 8), (2, 0)),
        // The first, which is known.
        (0, Damage::Hart(0, HartDamage::Order), (1, 1)),
        (0, Damage::Byte(CODE), (1, 1)),
        (0, Damage::Byte(DATA), (2, 0)),
    ];
    let numbers: [Number; 1] = [(DATA, 8, HELD)];
    'cases: for (number, damage, (settled, rejudged)) in cases {
        let damages = [(number, damage)];
        let wanted = (agrees(settled), settled as usize, rejudged);
        hold_cases(
            &rt,
            rt.alloc(),
            &[(&LOADS, &numbers, LOADED, &damages, wanted)],
        )?;
    }
    Ok(())
}

/// Both harts run the instructions above, in turn.
const LOADED_BY_TWO: Rows = (
    b"hart,insn,pc_rdata,rd_addr,rd_wdata",
    &[
        b"0,0x00001117,0x80000000,2,0x80001000",
        b"1,0x00001117,0x80000000,2,0x80001000",
        b"0,0x00013183,0x80000004,3,0x8899aabbccddeeff",
        b"1,0x00013183,0x80000004,3,0x8899aabbccddeeff",
    ],
    3,
);

/// A guess is met where each of its harts is the true one: the first, of which no row comes after
/// it, and the second.
#[test]
fn meets_guesses_of_two_harts(rt: HostRuntime) -> Result<(), Fail> {
    let alloc = rt.alloc();
    let cases: [(Damage, u32); 6] = [
        (Damage::Hart(0, HartDamage::Register), 1),
        (Damage::Hart(0, HartDamage::Trapped), 1),
        (Damage::Hart(1, HartDamage::Trapped), 1),
        (Damage::Hart(1, HartDamage::Order), 1),
        (Damage::Byte(DATA), 1),
        (Damage::Byte(DATA + 8), 0),
    ];
    'cases: for (damage, rejudged) in cases {
        let harts = harts_of(alloc, core_at_reset()?, 2, &LOADS, &[(DATA, 8, HELD)])?;
        let trace = trace_of(alloc, &LOADED_BY_TWO)?;
        let trial = trial_of(alloc, harts, trace, &[(1, damage)])?;
        let found = join_each(&rt, alloc, &trial)?;
        assert_eq!(rt; found, (agrees(4), 2, rejudged), "{damage:?}");
    }
    Ok(())
}
