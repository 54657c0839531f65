//! The guesses of a run of compiled code, beside the hart that is stepped.

ghost use Rattle.std.specs.Prelude.{◌≡◌, IfOk};
ghost use Rattle.hart_step.specs.HartSets.{SetCanStep};
ghost use Rattle.page_layers.specs.Memories.{layered_ram};

use super::compiled::IMAGE;
use super::guesses::{cut, put_line, write};
use boundary_guess::guesses;
use hart_set::HartSet;
use hart_step::{Core, Harts};
use hart_words::{Choices, Map, Signal, Span};
use image_text::read_image;
use line_text::Lines;
use page_image::PageImage;
use page_layers::Layered;
use rvfi_rows::{
    Accessed, Columns, Effects, Expected, Row, Segment, Stepped, read_header, read_row,
};
use std::alloc::Global;
use std::process::Abort;
use std::test::Fail;

const CODE: u64 = 0x8000_0000;

const ROWS: usize = 10_000;

/// How many rows make a segment, and how many segments there are then.
const LENGTHS: [(usize, usize); 2] = [(97, 104), (1_000, 10)];

/// All that an instruction of the program changes.
const CHANGES: &[Signal] = &[
    Signal::Insn,
    Signal::PcRdata,
    Signal::Trap,
    Signal::RdAddr,
    Signal::RdWdata,
    Signal::PcWdata,
    Signal::MemAddr,
    Signal::MemWmask,
    Signal::MemWdata,
];

/// A row at which the hart did not trap.
#[derive(Clone, Copy)]
struct Retirement {
    pc: u64,
    insn: u64,
    effects: Effects,
}

impl Retirement {
    fn of(stepped: &Stepped) -> Result<Retirement, Fail> {
        let retired = match stepped.expected {
            Expected::Halted => return Err(Fail::from("it halted")),
            Expected::Retired(retired) => retired,
        };
        match (retired.insn, retired.effects) {
            (Some(insn), Ok(effects)) => Ok(Retirement {
                pc: retired.pc,
                insn,
                effects,
            }),
            _ => Err(Fail::from("it trapped")),
        }
    }

    /// The address after the instruction.
    fn following(&self) -> u64 {
        self.pc.wrapping_add(if self.insn % 4 == 3 { 4 } else { 2 })
    }

    /// Whether the instruction is LR, SC or another of the A extension.
    fn is_atomic(&self) -> bool {
        self.insn % 128 == 0x2f
    }

    /// The value of a signal, where there is one to be shown.
    fn value(&self, signal: Signal) -> Option<u64> {
        let effects = &self.effects;
        match signal {
            Signal::Insn => Some(self.insn),
            Signal::PcRdata => Some(self.pc),
            Signal::Trap => Some(0),
            Signal::RdAddr => Some(u64::from(effects.rd)),
            Signal::RdWdata => Some(effects.rd_value),
            Signal::PcWdata => Some(effects.next_pc),
            Signal::MemAddr => Some(effects.access?.va),
            Signal::MemWmask => Some(write_mask(&effects.access)),
            Signal::MemWdata => effects.access?.written,
            _ => None,
        }
    }
}

/// A bit for each byte that is written.
fn write_mask(access: &Option<Accessed>) -> u64 {
    match access {
        Some(
            Accessed {
                len,
                written: Some(_),
                ..
            },
        ) => match *len {
            1 => 0x01,
            2 => 0x03,
            4 => 0x0f,
            _ => 0xff,
        },
        _ => 0,
    }
}

fn columns_of(alloc: Global, signals: &[Signal]) -> Result<Columns, Fail> {
    let mut header = String::new(alloc);
    'signals: for signal in signals {
        let (prefix, stem, suffix) = (signal.prefix(), signal.stem(), signal.suffix());
        header = format!(in alloc; "{header}{prefix}{stem}{suffix},")?;
    }
    Ok(read_header(alloc, header.as_bytes())?)
}

/// Adds the line of a row that shows these signals.
fn put_row(
    alloc: Global,
    lines: &mut Lines,
    row: &Retirement,
    signals: &[Signal],
) -> Result<(), Fail> {
    let mut line = String::new(alloc);
    'signals: for signal in signals {
        line = match row.value(*signal) {
            None => format!(in alloc; "{line},")?,
            Some(value) => format!(in alloc; "{line}{value},")?,
        };
    }
    put_line(lines, line.as_bytes())
}

fn lines_of(alloc: Global, run: &[Retirement], signals: &[Signal]) -> Result<Lines, Fail> {
    let mut lines = Lines::new(alloc);
    'rows: for row in run {
        put_row(alloc, &mut lines, row, signals)?;
    }
    Ok(lines)
}

/// The signals of all that an instruction changes, but for some.
fn changes_without(alloc: Global, left_out: &[Signal]) -> Result<Vec<Signal>, Fail> {
    let mut kept = Vec::new(alloc);
    'signals: for signal in CHANGES {
        if !left_out.iter().any(|left| left == signal) {
            kept.push(*signal)?;
        }
    }
    Ok(kept)
}

fn map() -> Result<Map, Fail> {
    let ram = Span::new(CODE, 0x800_0000).ok_or("no range")?;
    Ok(Map::new(ram, None).ok_or("no map")?)
}

fn image(alloc: Global, ram: Span) -> Result<PageImage, Fail>
    ensures { IfOk result (λ image. image.ram ≡ ram) }
{
    let pieces = read_image(alloc, IMAGE, ram).map_err(|_| Fail::from("no image"))?;
    let image = PageImage::build(alloc, &pieces, ram)?;
    Ok(image)
}

/// One hart at reset over the program.
fn start<'a>(alloc: Global, map: Map, image: &'a PageImage) -> Result<Harts<Layered<'a>>, Fail>
    requires { image.now.ram ≡ map.ram }
    ensures { IfOk result (λ harts. SetCanStep layered_ram harts) }
{
    let core = Core::reset(CODE, map, Choices::plain());
    Ok(HartSet::reset(alloc, core, 1, Layered::over(alloc, image))?)
}

/// A row by which a hart does what it does by itself.
fn blank_row(alloc: Global) -> Result<Row, Fail> {
    let columns = read_header(alloc, b"insn,pc_rdata")?;
    let row = read_row(alloc, &columns, b"0,0", 0, 1)?.ok_or("the row is valid")?;
    Ok(row)
}

/// Steps the first hart so many times: what it did.
fn run(alloc: Global, harts: &mut Harts<Layered>, count: usize) -> Result<Vec<Retirement>, Fail>
    requires { SetCanStep layered_ram harts.old }
    ensures { SetCanStep layered_ram harts.new }
{
    let row = blank_row(alloc)?;
    let mut run = Vec::new(alloc);
    'rows: for _ in 0..count {
        let stepped = harts.step(&row)?;
        run.push(Retirement::of(&stepped)?)?;
    }
    Ok(run)
}

/// All of both is the same.
fn hold_same(rt: &impl Abort, found: &Harts<Layered>, wanted: &Harts<Layered>, place: usize) {
    assert!(rt; found.same_but_memory(wanted), "{place}");
    assert!(rt; found.mem.same_as(&wanted.mem), "{place}");
}

/// Each guess is the hart as it was stepped by all rows before, of which each segment has so many.
fn hold_true(
    rt: &impl Abort,
    alloc: Global,
    start: &Harts<Layered>,
    found: &[Harts<Layered>],
    length: usize,
) -> Result<(), Fail>
    requires { SetCanStep layered_ram start.now }
{
    let mut harts = start.copy()?;
    'found: for place in 0..found.len() {
        hold_same(rt, &found[place], &harts, place);
        run(alloc, &mut harts, length)?;
    }
    Ok(())
}

/// Without these a row is as plain as with them, or is one of a store that is stepped.
const LEFT_OUT: &[&[Signal]] = &[
    &[],
    &[Signal::Trap],
    &[Signal::MemAddr, Signal::MemWmask, Signal::MemWdata],
];

/// Where the rows of plain instructions show what is changed, each guess is the true state, whether
/// the bytes that are stored are shown or not.
#[test]
fn guesses_compiled_code(rt: HostRuntime) -> Result<(), Fail> {
    let alloc = rt.alloc();
    let map = map()?;
    let image = image(alloc, map.ram)?;
    let start = start(alloc, map, &image)?;
    let run = run(alloc, &mut start.copy()?, ROWS)?;
    // So many rows are 16-bit instructions, store, and are of the A extension.
    let counts = (
        run.iter().filter(|row| row.insn % 4 != 3).count(),
        run.iter()
            .filter(|row| write_mask(&row.effects.access) != 0)
            .count(),
        run.iter().filter(|row| row.is_atomic()).count(),
    );
    assert_eq!(rt; counts, (5_144, 730, 192));
    'left: for left_out in LEFT_OUT {
        let signals = changes_without(alloc, *left_out)?;
        let lines = lines_of(alloc, &run, &signals)?;
        let columns = columns_of(alloc, &signals)?;
        for (length, count) in LENGTHS {
            let found = guesses(alloc, &start, &columns, &cut(alloc, &lines, length)?)?;
            assert_eq!(rt; found.len(), count);
            hold_true(&rt, alloc, &start, &found, length)?;
        }
    }
    Ok(())
}

/// Where rows show their instructions alone, x2 stays 0, so that the first store, at row 6, traps
/// to address 0. No RAM is there, and so each row after it traps to address 0 from there.
#[test]
fn guesses_of_bare_rows(rt: HostRuntime) -> Result<(), Fail> {
    let alloc = rt.alloc();
    let map = map()?;
    let image = image(alloc, map.ram)?;
    let start = start(alloc, map, &image)?;
    let signals = [Signal::Insn, Signal::PcRdata];
    let lines = lines_of(alloc, &run(alloc, &mut start.copy()?, ROWS)?, &signals)?;
    let columns = columns_of(alloc, &signals)?;
    let mut core = Core::reset(0, map, Choices::plain());
    core.trapped_last = true;
    // mcause has an instruction access fault, and MPP of mstatus M.
    write(&mut core, 0x342, 1)?;
    write(&mut core, 0x300, 3 << 11)?;
    let trapped = HartSet::reset(alloc, core, 1, Layered::over(alloc, &image))?;
    for (length, count) in LENGTHS {
        let found = guesses(alloc, &start, &columns, &cut(alloc, &lines, length)?)?;
        assert_eq!(rt; found.len(), count);
        for place in 0..found.len() {
            if place == 0 {
                hold_same(&rt, &found[place], &start, place);
            } else {
                hold_same(&rt, &found[place], &trapped, place);
            }
        }
    }
    Ok(())
}

/// The guess after one row that shows these signals.
fn guess_after<'a>(
    alloc: Global,
    start: &Harts<Layered<'a>>,
    row: &Retirement,
    signals: &[Signal],
) -> Result<Harts<Layered<'a>>, Fail>
    requires { SetCanStep layered_ram start.now }
{
    let mut lines = Lines::new(alloc);
    put_row(alloc, &mut lines, row, signals)?;
    let segments = vec![in alloc; Segment::new(lines), Segment::new(Lines::new(alloc))]?;
    let mut found = guesses(alloc, start, &columns_of(alloc, signals)?, &segments)?;
    Ok(found.pop().ok_or("two guesses")?)
}

/// The state after a row of the program that does not show this signal, which is not of a store: an
/// atomic one is stepped, of another the register stays, or the hart goes on after the instruction.
fn leave_out(core: &mut Core, before: &Core, row: &Retirement, left_out: Signal) {
    if row.is_atomic() {
        return;
    }
    let rd = row.effects.rd;
    match left_out {
        Signal::RdAddr | Signal::RdWdata => core.registers.set(rd, before.registers.get(rd)),
        Signal::PcWdata => core.pc = row.following(),
        _ => {}
    }
}

/// What a row does not show stays as it was, but pc goes on after the instruction: of every seventh
/// row.
#[test]
fn guesses_one_row_more(rt: HostRuntime) -> Result<(), Fail> {
    let alloc = rt.alloc();
    let map = map()?;
    let image = image(alloc, map.ram)?;
    let mut harts = start(alloc, map, &image)?;
    let row = blank_row(alloc)?;
    'rows: for place in 0..ROWS {
        let before = harts.copy()?;
        let stepped = harts.step(&row)?;
        if place % 7 != 0 {
            continue;
        }
        let retirement = Retirement::of(&stepped)?;
        for left_out in [Signal::RdAddr, Signal::RdWdata, Signal::PcWdata] {
            let signals = changes_without(alloc, &[left_out])?;
            let found = guess_after(alloc, &before, &retirement, &signals)?;
            let mut wanted = harts.copy()?;
            leave_out(
                wanted.cores.get_mut(0).ok_or("a hart")?,
                before.cores.get(0).ok_or("a hart")?,
                &retirement,
                left_out,
            );
            hold_same(&rt, &found, &wanted, place);
        }
    }
    Ok(())
}
