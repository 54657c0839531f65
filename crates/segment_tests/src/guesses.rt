ghost use Rattle.std.specs.Prelude.{◌≡◌, IfOk, IsTrue};
ghost use Rattle.std.specs.List.{All};
ghost use Rattle.hart_step.specs.Cores.{IsSound};
ghost use Rattle.hart_step.specs.HartSets.{SetCanStep};
ghost use Rattle.line_text.specs.Lines.{IsLine};

use boundary_guess::guesses;
use hart_set::HartSet;
use hart_step::{Core, Harts};
use hart_words::{Choices, Map, Mode, PhysMem, Span};
use line_text::Lines;
use page_layers::MapMem;
use rvfi_rows::{Columns, Segment, Stepped, read_header, read_row};
use std::alloc::Global;
use std::process::Abort;
use std::test::Fail;

const CODE: u64 = 0x8000_0000;

const DATA: u64 = 0x8000_1000;

/// What stands at `DATA` before the first row.
const HELD: u64 = 0x8899_aabb_ccdd_eeff;

/// ADDI x1, x0, 5; SD x1, 0(x10); and ADDI x2, x1, 1.
const PROGRAM: [(u64, u64); 3] = [
    (CODE, 0x0050_0093),
    (CODE + 4, 0x0015_3023),
    (CODE + 8, 0x0010_8113),
];

const HEADER: &[u8] = b"valid,insn,pc_rdata,rd_addr,rd_wdata,pc_wdata,mem_addr,mem_wmask,mem_wdata";

/// The same columns, the first two in the other order.
const TURNED: &[u8] = b"insn,valid,pc_rdata,rd_addr,rd_wdata,pc_wdata,mem_addr,mem_wmask,mem_wdata";

/// The row of each instruction as it runs.
const FIRST: &[u8] = b"1,0x00500093,0x80000000,1,5,0x80000004,,,";

const STORE: &[u8] = b"1,0x00153023,0x80000004,0,0,0x80000008,0x80001000,0xff,5";

const LAST: &[u8] = b"1,0x00108113,0x80000008,2,6,0x8000000c,,,";

/// The first, with another result than it has.
const SEVEN: &[u8] = b"1,0x00500093,0x80000000,1,7,0x80000004,,,";

/// The store, of another half word and with another address after it.
const HALF: &[u8] = b"1,0x00153023,0x80000004,0,0,0x80000011,0x80001002,0x03,0x1122";

/// The store, at another address and with nothing else shown.
const LITTLE: &[u8] = b"1,0x00153023,0x80000400,,,,,,";

const INVALID: &[u8] = b"0,0x00500093,0x80000000,1,7,0x80000004,,,";

const REFUSED: &[u8] = b"1,none,0x80000000,1,7,0x80000004,,,";

/// Whether no line feed stands in the bytes.
fn is_line(bytes: &[u8]) -> bool
    ensures { IsTrue result → IsLine bytes.now }
{
    bytes.iter().all(|byte| *byte != b'\n')
}

pub(crate) fn put_line(lines: &mut Lines, line: &[u8]) -> Result<(), Fail> {
    if !is_line(line) {
        return Err(Fail::from("no line"));
    }
    lines.push(line)?;
    Ok(())
}

/// Writes to memory, where so many bytes lie in one page of RAM.
fn put(mem: &mut MapMem, ram: &Span, pa: u64, len: u8, value: u64) -> Result<(), Fail>
    requires ram { mem.old.ram ≡ ram.now }
    ensures ram { mem.new.ram ≡ mem.old.ram }
{
    if !ram.is_place(pa, len) {
        return Err(Fail::from("no place of RAM"));
    }
    mem.write(pa, len, value)?;
    Ok(())
}

/// The number at `DATA`, in a memory of this RAM.
fn number_at_data(mem: &MapMem, ram: &Span) -> Result<u64, Fail>
    requires ram { mem.now.ram ≡ ram.now }
{
    if !ram.is_place(DATA, 8) {
        return Err(Fail::from("no place of RAM"));
    }
    Ok(mem.read(DATA, 8))
}

/// A memory with the program, and `HELD` at `DATA`.
fn memory(alloc: Global, ram: Span) -> Result<MapMem, Fail>
    ensures { IfOk result (λ mem. mem.ram ≡ ram) }
{
    let mut mem = MapMem::zeros(alloc, ram);
    'program: for (address, instruction) in PROGRAM {
        put(&mut mem, &ram, address, 4, instruction)?;
    }
    put(&mut mem, &ram, DATA, 8, HELD)?;
    Ok(mem)
}

fn map() -> Result<Map, Fail> {
    let ram = Span::new(CODE, 0x2000).ok_or("no range")?;
    Ok(Map::new(ram, None).ok_or("no map")?)
}

/// The hart before the first row, with `DATA` in x10.
fn first_core(map: Map) -> Core
    ensures sound { IsSound result }
    ensures map { result.map ≡ map }
{
    let mut core = Core::reset(CODE, map, Choices::plain());
    core.registers.set(10, DATA);
    core
}

/// That hart alone, over the program.
fn start(alloc: Global) -> Result<Harts<MapMem>, Fail>
    ensures { IfOk result (λ harts. SetCanStep (λ mem. mem.ram) harts) }
{
    let map = map()?;
    let mem = memory(alloc, map.ram)?;
    Ok(HartSet::reset(alloc, first_core(map), 1, mem)?)
}

/// Writes a register of control as M does.
pub(crate) fn write(core: &mut Core, address: u16, value: u64) -> Result<(), Fail>
    requires sound { IsSound core.old }
    ensures sound { IsSound core.new }
    ensures map { core.new.map ≡ core.old.map }
{
    core.csrs
        .write(address, Mode::Machine, value)
        .map_err(|_| Fail::from("no register"))
}

/// That hart in S, with satp's MODE at Sv39: it can fetch nothing, and each step traps to address
/// 0.
fn translating_hart(alloc: Global) -> Result<Harts<MapMem>, Fail>
    ensures { IfOk result (λ harts. SetCanStep (λ mem. mem.ram) harts) }
{
    let map = map()?;
    let mem = memory(alloc, map.ram)?;
    let mut core = first_core(map);
    write(&mut core, 0x180, 8 << 60)?;
    core.mode = Mode::Supervisor;
    Ok(HartSet::reset(alloc, core, 1, mem)?)
}

/// The numbers in pc, in x1, in x2 and at `DATA`.
type Numbers = (u64, u64, u64, u64);

/// Those of the first hart.
fn numbers(harts: &Harts<MapMem>) -> Result<Numbers, Fail>
    requires { SetCanStep (λ mem. mem.ram) harts.now }
{
    let core = &harts.cores[0];
    Ok((
        core.pc,
        core.registers.get(1),
        core.registers.get(2),
        number_at_data(&harts.mem, &core.map.ram)?,
    ))
}

/// Steps harts by the rows, one after another.
fn follow(
    alloc: Global,
    harts: &mut Harts<MapMem>,
    columns: &Columns,
    lines: &[&[u8]],
) -> Result<(), Fail>
    requires { SetCanStep (λ mem. mem.ram) harts.old }
    ensures { SetCanStep (λ mem. mem.ram) harts.new }
{
    'rows: for line in lines {
        let row = read_row(alloc, columns, *line, 0, 1)?.ok_or("the row is valid")?;
        harts.step(&row)?;
    }
    Ok(())
}

fn segments_of(alloc: Global, segments: &[&[&[u8]]]) -> Result<Vec<Segment>, Fail> {
    let mut kept = Vec::new(alloc);
    'segments: for segment in segments {
        let mut lines = Lines::new(alloc);
        for line in segment.iter() {
            put_line(&mut lines, *line)?;
        }
        kept.push(Segment::new(lines))?;
    }
    Ok(kept)
}

/// Segments of so many lines each, the last one shorter.
pub(crate) fn cut(alloc: Global, lines: &Lines, length: usize) -> Result<Vec<Segment>, Fail> {
    let mut segments = Vec::new(alloc);
    let mut part = Lines::new(alloc);
    for number in 0..lines.len() {
        put_line(&mut part, lines.get(number).ok_or("no such line")?)?;
        if part.len() == length {
            segments.push(Segment::new(part))?;
            part = Lines::new(alloc);
        }
    }
    if part.len() > 0 {
        segments.push(Segment::new(part))?;
    }
    Ok(segments)
}

const BEGIN: Numbers = (CODE, 0, 0, HELD);

/// The lines of segments, and the numbers before each.
type Case<'a> = (&'a [&'a [&'a [u8]]], &'a [Numbers]);

/// The guesses have these numbers.
fn hold_numbers(rt: &impl Abort, guesses: &[Harts<MapMem>], wanted: &[Numbers]) -> Result<(), Fail>
    requires { All (SetCanStep (λ mem. mem.ram)) guesses.now }
{
    assert_eq!(rt; guesses.len(), wanted.len());
    for index in 0..guesses.len() {
        let found = numbers(&guesses[index])?;
        assert_eq!(rt; Some(&found), wanted.get(index), "before segment {index}");
    }
    Ok(())
}

/// The guesses of a case, where no segment was read, where all were read under these columns, and
/// where all were read under others.
fn hold_case(rt: &impl Abort, alloc: Global, case: &Case) -> Result<(), Fail> {
    let columns = read_header(alloc, HEADER)?;
    let start = start(alloc)?;
    let mut segments = segments_of(alloc, case.0)?;
    let found = guesses(alloc, &start, &columns, &segments)?;
    hold_numbers(rt, &found, case.1)?;
    for header in [HEADER, TURNED] {
        let read = read_header(alloc, header)?;
        for segment in segments.iter_mut() {
            segment.read(alloc, &read)?;
        }
        let found = guesses(alloc, &start, &columns, &segments)?;
        hold_numbers(rt, &found, case.1)?;
    }
    assert_eq!(rt; numbers(&start)?, BEGIN);
    Ok(())
}

#[test]
fn guesses_states(rt: HostRuntime) -> Result<(), Fail> {
    let seven = (CODE + 4, 7, 0, HELD);
    let half = (CODE + 16, 7, 0, 0x8899_aabb_1122_eeff);
    let cases: [Case; 10] = [
        (&[], &[]),
        (&[&[SEVEN]], &[BEGIN]),
        (&[&[], &[SEVEN]], &[BEGIN, BEGIN]),
        (&[&[SEVEN], &[HALF], &[LAST]], &[BEGIN, seven, half]),
        (&[&[SEVEN, HALF], &[]], &[BEGIN, half]),
        (&[&[FIRST, LITTLE], &[LAST]], &[BEGIN, (CODE + 8, 5, 0, 5)]),
        (&[&[SEVEN, LITTLE], &[LAST]], &[BEGIN, (CODE + 8, 7, 0, 7)]),
        (
            &[&[INVALID], &[INVALID, SEVEN, INVALID], &[]],
            &[BEGIN, BEGIN, seven],
        ),
        (&[&[REFUSED, SEVEN], &[SEVEN], &[]], &[BEGIN, BEGIN, seven]),
        (
            &[&[SEVEN, REFUSED, LITTLE], &[LAST], &[LAST]],
            &[BEGIN, seven, (CODE + 12, 7, 6, HELD)],
        ),
    ];
    for case in cases.iter() {
        hold_case(&rt, rt.alloc(), case)?;
    }
    Ok(())
}

/// Where the rows show what the instructions do, the guess is the state that steps lead to.
#[test]
fn guesses_as_steps_lead(rt: HostRuntime) -> Result<(), Fail> {
    let alloc = rt.alloc();
    let columns = read_header(alloc, HEADER)?;
    let mut harts = start(alloc)?;
    let segments = segments_of(alloc, &[&[FIRST], &[STORE, LAST], &[]])?;
    let found = guesses(alloc, &harts, &columns, &segments)?;
    let rows: [&[&[u8]]; 3] = [&[], &[FIRST], &[STORE, LAST]];
    assert_eq!(rt; found.len(), rows.len());
    'found: for index in 0..found.len() {
        let lines = rows.get(index).ok_or("as many")?;
        follow(alloc, &mut harts, &columns, *lines)?;
        let guess = &found[index];
        assert!(rt; guess.same_but_memory(&harts));
        assert_eq!(rt; numbers(guess)?, numbers(&harts)?);
    }
    assert_eq!(rt; numbers(&harts)?, (CODE + 12, 5, 6, 5));
    Ok(())
}

/// These columns show the physical address too.
const PHYSICAL: &[u8] = b"valid,insn,pc_rdata,pc_wdata,mem_addr,mem_paddr,mem_wmask,mem_wdata";

/// The numbers after one row.
fn numbers_after(alloc: Global, harts: &Harts<MapMem>, row: &[u8]) -> Result<Numbers, Fail>
    requires { SetCanStep (λ mem. mem.ram) harts.now }
{
    let columns = read_header(alloc, PHYSICAL)?;
    let segments = segments_of(alloc, &[&[row], &[]])?;
    let found = guesses(alloc, harts, &columns, &segments)?;
    if found.len() != 2 {
        return Err(Fail::from("two guesses"));
    }
    numbers(&found[1])
}

/// A store's bytes are taken where the row shows them, in two pages too, where addresses are not
/// translated; where they are, bytes in two pages have no one physical address, and the row is
/// stepped.
#[test]
fn guesses_stores_at_the_end_of_a_page(rt: HostRuntime) -> Result<(), Fail> {
    let alloc = rt.alloc();
    let rows: [(&[u8], u64, bool); 4] = [
        (
            b"1,0x00153023,0x80000000,0x80000010,0x80000ffc,0x80000ffc,0x0f,0x1122334455667788",
            HELD,
            true,
        ),
        (
            b"1,0x00153023,0x80000000,0x80000010,0x80000ffc,0x80000ffc,0xf0,0x1122334455667788",
            0x8899_aabb_1122_3344,
            true,
        ),
        (
            b"1,0x00153023,0x80000000,0x80000010,0x80000ffc,0x80000ffc,0x18,0x1122334455667788",
            0x8899_aabb_ccdd_ee44,
            false,
        ),
        (
            b"1,0x00153023,0x80000000,0x80000010,0x80000ffc,0x80000ffc,0xff,0x1122334455667788",
            0x8899_aabb_1122_3344,
            false,
        ),
    ];
    let here = start(alloc)?;
    let there = translating_hart(alloc)?;
    for (row, data, is_taken) in rows {
        let taken = (CODE + 16, 0, 0, data);
        assert_eq!(rt; numbers_after(alloc, &here, row)?, taken);
        let wanted = if is_taken { taken } else { (0, 0, 0, HELD) };
        assert_eq!(rt; numbers_after(alloc, &there, row)?, wanted);
    }
    Ok(())
}

/// LR.D x12, (x10).
const RESERVE: u64 = 0x1005_362f;

const RESERVING: &[u8] = b"1,0x1005362f,0x80000000,,,,,,";

/// Two harts before the store, each of which has reserved the 64 bytes from `DATA` on.
fn two_harts(alloc: Global) -> Result<Harts<MapMem>, Fail>
    ensures { IfOk result (λ harts. SetCanStep (λ mem. mem.ram) harts) }
{
    let map = map()?;
    let mut mem = memory(alloc, map.ram)?;
    put(&mut mem, &map.ram, CODE, 4, RESERVE)?;
    let columns = read_header(alloc, HEADER)?;
    let row = read_row(alloc, &columns, RESERVING, 0, 1)?.ok_or("the row is valid")?;
    let mut core = first_core(map);
    core.step_into(&mut mem, &row, &mut Stepped::halted())?;
    Ok(HartSet::reset(alloc, core, 2, mem)?)
}

/// These columns show the hart too.
const OF_HARTS: &[u8] = b"hart,insn,pc_rdata,pc_wdata,mem_addr,mem_wmask,mem_wdata";

/// Whether the guess after one row has a reservation of each of the two harts.
fn reserved_after(alloc: Global, harts: &Harts<MapMem>, row: &[u8]) -> Result<(bool, bool), Fail>
    requires { SetCanStep (λ mem. mem.ram) harts.now }
{
    let columns = read_header(alloc, OF_HARTS)?.with_harts(2);
    let segments = segments_of(alloc, &[&[row], &[]])?;
    let found = guesses(alloc, harts, &columns, &segments)?;
    let guess = found.get(1).ok_or("two guesses")?;
    let one = guess.cores.get(0).ok_or("two harts")?;
    let other = guess.cores.get(1).ok_or("two harts")?;
    Ok((
        one.reservation.block.is_some(),
        other.reservation.block.is_some(),
    ))
}

/// In a guess a store takes the reservation of the other hart where it writes in its block, whether
/// the row shows the store or is stepped. Its own hart keeps what it reserved.
#[test]
fn guesses_what_the_other_hart_loses(rt: HostRuntime) -> Result<(), Fail> {
    let alloc = rt.alloc();
    let rows: [(&[u8], (bool, bool)); 5] = [
        (
            b"0,0x00153023,0x80000004,0x80000008,0x80001000,0xff,0",
            (true, false),
        ),
        (
            b"1,0x00153023,0x80000004,0x80000008,0x80001000,0xff,0",
            (false, true),
        ),
        (
            b"1,0x00153023,0x80000004,0x80000008,0x80001038,0x01,0",
            (false, true),
        ),
        (
            b"1,0x00153023,0x80000004,0x80000008,0x80001040,0xff,0",
            (true, true),
        ),
        (b"1,0x00153023,0x80000004,0x80000008,,,", (false, true)),
    ];
    let harts = two_harts(alloc)?;
    for (row, reserved) in rows {
        assert_eq!(rt; reserved_after(alloc, &harts, row)?, reserved);
    }
    Ok(())
}
