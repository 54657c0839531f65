ghost use Rattle.std.specs.Prelude.{◌≡◌, ◌≤◌, IfOk, IfSome, IsTrue};
ghost use Rattle.hart_step.specs.Cores.{IsSound};
ghost use Rattle.hart_step.specs.HartSets.{SetCanStep};
ghost use Rattle.line_text.specs.Lines.{IsLine};
ghost use Rattle.page_layers.specs.Memories.{map_bytes, map_bytes-fits};

use hart_step::{Core, Harts};
use hart_words::{Choices, Difference, Map, Mode, NoMemory, PhysMem, Signal, Span};
use line_text::Lines;
use page_layers::MapMem;
use rvfi_rows::{Column, Columns, Port, RowFault, Segment, Verdict, read_header};
use segment_judge::{Judged, What, judge, judge_from};
use std::alloc::Global;
use std::process::Abort;
use std::test::Fail;

const CODE: u64 = 0x8000_0000;

/// Where the other program stands.
const SHARING: u64 = 0x8000_0020;

const DATA: u64 = 0x8000_1000;

/// The tables of pages: the first, and the one below it.
const ROOT: u64 = 0x8000_2000;

const BELOW: u64 = 0x8000_3000;

/// What stands before the first row at `DATA`, and after that.
const HELD: u64 = 0x8899_aabb_ccdd_eeff;

const BEHIND: u64 = 0x0011_2233_4455_6677;

/// What stands in memory, by address and length. The program: ADDI x1, x0, 5; SD x1, 8(x10);
/// LD x3, 0(x10); LD x4, 8(x10). Page tables that map the first 2 MiB from `CODE` on to themselves:
/// an entry that is valid and names the next table; and one that is valid, may be read, written and
/// executed, and has A and D. Numbers. Another program: LR.D x12, (x10); SC.D x12, x11, (x10);
/// LD x3, 0(x10).
const NUMBERS: [(u64, u8, u64); 11] = [
    (CODE, 4, 0x0050_0093),
    (CODE + 4, 4, 0x0015_3423),
    (CODE + 8, 4, 0x0005_3183),
    (CODE + 12, 4, 0x0085_3203),
    (ROOT + 16, 8, (BELOW >> 12) << 10 | 0x01),
    (BELOW, 8, (CODE >> 12) << 10 | 0xcf),
    (DATA, 8, HELD),
    (DATA + 8, 8, BEHIND),
    (SHARING, 4, 0x1005_362f),
    (SHARING + 4, 4, 0x18b5_362f),
    (SHARING + 8, 4, 0x0005_3183),
];

const HEADER: &[u8] = b"valid,insn,pc_rdata,rd_addr,rd_wdata,pc_wdata";

/// The same columns, the first two in the other order.
const TURNED: &[u8] = b"insn,valid,pc_rdata,rd_addr,rd_wdata,pc_wdata";

/// The row of each instruction as it runs.
const ADD: &[u8] = b"1,0x00500093,0x80000000,1,5,0x80000004";

const STORE: &[u8] = b"1,0x00153423,0x80000004,0,0,0x80000008";

const LOAD: &[u8] = b"1,0x00053183,0x80000008,3,0x8899aabbccddeeff,0x8000000c";

const AGAIN: &[u8] = b"1,0x00853203,0x8000000c,4,5,0x80000010";

/// The last, where nothing was stored before it.
const ALONE: &[u8] = b"1,0x00853203,0x8000000c,4,0x0011223344556677,0x80000010";

/// The first and the third, with another result than they have.
const SEVEN: &[u8] = b"1,0x00500093,0x80000000,1,7,0x80000004";

const ZERO: &[u8] = b"1,0x00053183,0x80000008,3,0,0x8000000c";

const INVALID: &[u8] = b"0,0x00500093,0x80000000,1,7,0x80000004";

const REFUSED: &[u8] = b"1,none,0x80000000,1,7,0x80000004";

/// Whether no line feed stands in the bytes.
fn is_line(bytes: &[u8]) -> bool
    ensures { IsTrue result → IsLine bytes.now }
{
    bytes.iter().all(|byte| *byte != b'\n')
}

fn segment_of(alloc: Global, rows: &[&[u8]]) -> Result<Segment, Fail> {
    let mut lines = Lines::new(alloc);
    'rows: for row in rows {
        if !is_line(*row) {
            return Err(Fail::from("no line"));
        }
        lines.push(*row)?;
    }
    Ok(Segment::new(lines))
}

/// The number of so many bytes at an address.
fn number_at(mem: &MapMem, ram: &Span, pa: u64, len: u8) -> Result<u64, Fail>
    requires ram { mem.now.ram ≡ ram.now }
{
    if !ram.is_place(pa, len) {
        return Err(Fail::from("no place of RAM"));
    }
    Ok(mem.read(pa, len))
}

/// Writes to memory, where so many bytes lie in one page of RAM.
fn put(mem: &mut MapMem, ram: &Span, pa: u64, len: u8, value: u64) -> Result<(), Fail>
    requires ram { mem.old.ram ≡ ram.now }
    ensures ram { mem.new.ram ≡ mem.old.ram }
{
    if !ram.is_place(pa, len) {
        return Err(Fail::from("no place of RAM"));
    }
    mem.write(pa, len, value)?;
    Ok(())
}

/// A memory with `NUMBERS`.
fn memory(alloc: Global, ram: Span) -> Result<MapMem, Fail>
    ensures { IfOk result (λ mem. mem.ram ≡ ram) }
{
    let mut mem = MapMem::zeros(alloc, ram);
    'numbers: for (address, len, value) in NUMBERS {
        put(&mut mem, &ram, address, len, value)?;
    }
    Ok(mem)
}

/// Four pages of RAM.
fn map() -> Result<Map, Fail> {
    let ram = Span::new(CODE, 0x4000).ok_or("no range")?;
    Ok(Map::new(ram, None).ok_or("no map")?)
}

/// A hart at an address of code, with `DATA` in x10.
fn core_at(pc: u64) -> Result<Core, Fail>
    ensures { IfOk result IsSound }
{
    if pc % 2 != 0 {
        return Err(Fail::from("no address of code"));
    }
    let mut core = Core::reset(pc, map()?, Choices::plain());
    core.registers.set(10, DATA);
    Ok(core)
}

/// So many harts, each as this one.
fn harts_of(alloc: Global, core: Core, harts: u32) -> Result<Harts<MapMem>, Fail>
    requires sound { IsSound core }
    requires some { 1 ≤ harts }
    ensures { IfOk result (SetCanStep (λ mem. mem.ram)) }
{
    let mem = memory(alloc, core.map.ram)?;
    Ok(Harts::reset(alloc, core, harts, mem)?)
}

/// One hart, at an address of code.
fn start(alloc: Global, pc: u64) -> Result<Harts<MapMem>, Fail>
    ensures { IfOk result (SetCanStep (λ mem. mem.ram)) }
{
    harts_of(alloc, core_at(pc)?, 1)
}

/// Writes a register of control as M does.
fn write(core: &mut Core, address: u16, value: u64) -> Result<(), Fail>
    requires sound { IsSound core.old }
    ensures sound { IsSound core.new }
    ensures map { core.new.map ≡ core.old.map }
{
    core.csrs
        .write(address, Mode::Machine, value)
        .map_err(|_| Fail::from("no register"))
}

/// The same in S, by the page tables, where an entry of protection grants all.
fn translating(alloc: Global, pc: u64) -> Result<Harts<MapMem>, Fail>
    ensures { IfOk result (SetCanStep (λ mem. mem.ram)) }
{
    let mut core = core_at(pc)?;
    // pmpaddr0, pmpcfg0, and satp with Sv39 as its MODE.
    write(&mut core, 0x3b0, 0x3f_ffff_ffff_ffff)?;
    write(&mut core, 0x3a0, 0x1f)?;
    write(&mut core, 0x180, 8 << 60 | ROOT >> 12)?;
    core.mode = Mode::Supervisor;
    harts_of(alloc, core, 1)
}

/// The RAM of the harts.
fn ram_of(harts: &Harts<MapMem>) -> Span
    requires { SetCanStep (λ mem. mem.ram) harts.now }
    ensures { harts.now.mem.ram ≡ result }
{
    harts.cores[0].map.ram
}

/// The numbers in pc, in x1, in x3, in x4 and after `DATA`.
type Numbers = (u64, u64, u64, u64, u64);

/// Those of the first hart.
fn numbers(harts: &Harts<MapMem>) -> Result<Numbers, Fail>
    requires { SetCanStep (λ mem. mem.ram) harts.now }
{
    let after_data = number_at(&harts.mem, &ram_of(harts), DATA + 8, 8)?;
    let core = &harts.cores[0];
    let registers = &core.registers;
    Ok((
        core.pc,
        registers.get(1),
        registers.get(3),
        registers.get(4),
        after_data,
    ))
}

const BEGIN: Numbers = (CODE, 0, 0, 0, BEHIND);

/// Rows, the verdict on them, and the numbers of the first hart after them.
type Case<'a> = (&'a [&'a [u8]], Verdict, Option<Numbers>);

/// The judging gave what the case wants.
fn hold_judged(rt: &impl Abort, judged: &Judged<MapMem>, case: &Case) -> Result<(), Fail>
    requires { IfSome judged.now.end (SetCanStep (λ mem. mem.ram)) }
{
    assert_eq!(rt; judged.verdict, case.1);
    let end = match &judged.end {
        None => None,
        Some(harts) => Some(numbers(harts)?),
    };
    assert_eq!(rt; end, case.2, "following {:?}", case.1);
    Ok(())
}

/// Judges the segment from harts that are kept, and from harts that are not.
fn hold_segment(
    rt: &impl Abort,
    alloc: Global,
    columns: &Columns,
    segment: &Segment,
    case: &Case,
) -> Result<(), Fail> {
    let harts = start(alloc, CODE)?;
    hold_judged(rt, &judge(alloc, &harts, columns, segment, false)?, case)?;
    assert_eq!(rt; numbers(&harts)?, BEGIN);
    hold_judged(
        rt,
        &judge_from(alloc, harts, columns, segment, false)?,
        case,
    )
}

/// Judges the rows of a case, where they were not read, where they were read under these columns,
/// and where they were read under others.
fn hold_case(rt: &impl Abort, alloc: Global, case: &Case) -> Result<(), Fail> {
    let columns = read_header(alloc, HEADER)?;
    let mut segment = segment_of(alloc, case.0)?;
    hold_segment(rt, alloc, &columns, &segment, case)?;
    'headers: for header in [HEADER, TURNED] {
        let read = read_header(alloc, header)?;
        segment.read(alloc, &read)?;
        hold_segment(rt, alloc, &columns, &segment, case)?;
    }
    Ok(())
}

/// The row has another number in rd.
fn differs(row: u64, expected: u64, found: u64) -> Verdict {
    Verdict::Differs {
        row,
        difference: Difference {
            signal: Signal::RdWdata,
            expected,
            found,
        },
    }
}

/// So many rows agree, and so many of them are valid.
fn agrees(rows: u64, valid: u64) -> Verdict {
    Verdict::Agrees { rows, valid }
}

fn refusal(row: u64, fault: RowFault) -> Verdict {
    Verdict::Refused { row, fault }
}

/// The column `insn` of the only port.
const INSN: Column = Column {
    signal: Signal::Insn,
    port: Port::Zero,
};

/// The row has no number where the instruction should be.
fn no_insn(row: u64) -> Verdict {
    refusal(row, RowFault::NotNumber(INSN))
}

#[test]
fn judges_segments(rt: HostRuntime) -> Result<(), Fail> {
    let cases: [Case; 13] = [
        (&[], agrees(0, 0), Some(BEGIN)),
        (&[INVALID], agrees(1, 0), Some(BEGIN)),
        (&[ADD], agrees(1, 1), Some((CODE + 4, 5, 0, 0, BEHIND))),
        (
            &[ADD, INVALID, STORE],
            agrees(3, 2),
            Some((CODE + 8, 5, 0, 0, 5)),
        ),
        (
            &[INVALID, ADD, STORE, LOAD, AGAIN, INVALID],
            agrees(6, 4),
            Some((CODE + 16, 5, HELD, 5, 5)),
        ),
        (&[SEVEN], differs(1, 5, 7), None),
        (&[SEVEN, REFUSED], differs(1, 5, 7), None),
        (
            &[ADD, INVALID, STORE, ZERO, AGAIN],
            differs(4, HELD, 0),
            None,
        ),
        (&[ADD, STORE, LOAD, ALONE], differs(4, 5, BEHIND), None),
        (&[REFUSED], no_insn(1), None),
        (&[INVALID, REFUSED, SEVEN], no_insn(2), None),
        (
            &[ADD, INVALID, b"", SEVEN],
            refusal(3, RowFault::FieldCount),
            None,
        ),
        (&[ADD, b"1,,0,,,"], refusal(2, RowFault::Empty(INSN)), None),
    ];
    'cases: for case in cases.iter() {
        hold_case(&rt, rt.alloc(), case)?;
    }
    Ok(())
}

const OF_HARTS: &[u8] = b"hart,insn,pc_rdata,rd_addr,rd_wdata,pc_wdata";

/// The rows of two harts: each loads and reserves the number at `DATA`, and one stores there.
const RESERVE_0: &[u8] = b"0,0x1005362f,0x80000020,12,0x8899aabbccddeeff,0x80000024";

const RESERVE_1: &[u8] = b"1,0x1005362f,0x80000020,12,0x8899aabbccddeeff,0x80000024";

const STORED_0: &[u8] = b"0,0x18b5362f,0x80000024,12,0,0x80000028";

const LOST_1: &[u8] = b"1,0x18b5362f,0x80000024,12,1,0x80000028";

/// The last, as if the other hart had not stored.
const STORED_1: &[u8] = b"1,0x18b5362f,0x80000024,12,0,0x80000028";

/// What hart 0 stored, as each hart loads it.
const LOADED_0: &[u8] = b"0,0x00053183,0x80000028,3,0,0x8000002c";

const LOADED_1: &[u8] = b"1,0x00053183,0x80000028,3,0,0x8000002c";

const OF_NONE: &[u8] = b"2,0x1005362f,0x80000020,12,0x8899aabbccddeeff,0x80000024";

/// Judges rows of two harts.
fn verdict_of_two(alloc: Global, rows: &[&[u8]]) -> Result<Verdict, Fail> {
    let columns = read_header(alloc, OF_HARTS)?.with_harts(2);
    let segment = segment_of(alloc, rows)?;
    let harts = harts_of(alloc, core_at(SHARING)?, 2)?;
    Ok(judge_from(alloc, harts, &columns, &segment, false)?.verdict)
}

#[test]
fn judges_two_harts(rt: HostRuntime) -> Result<(), Fail> {
    let cases: [(&[&[u8]], Verdict); 6] = [
        (
            &[RESERVE_0, RESERVE_1, STORED_0, LOST_1, LOADED_1, LOADED_0],
            agrees(6, 6),
        ),
        (&[RESERVE_0, STORED_0, LOADED_0], agrees(3, 3)),
        (&[RESERVE_1, STORED_1, LOADED_1], agrees(3, 3)),
        (
            &[RESERVE_0, RESERVE_1, STORED_0, STORED_1],
            differs(4, 1, 0),
        ),
        (&[RESERVE_0, STORED_0, RESERVE_1], differs(3, 0, HELD)),
        (&[RESERVE_1, OF_NONE], refusal(2, RowFault::NoHart)),
    ];
    'cases: for (rows, verdict) in cases {
        assert_eq!(rt; verdict_of_two(rt.alloc(), rows)?, verdict);
    }
    Ok(())
}

/// Whether a memory whose byte at an address is another agrees on what the rows read.
fn agrees_beside(
    rt: &impl Abort,
    alloc: Global,
    start: Harts<MapMem>,
    rows: &[&[u8]],
    pa: u64,
) -> Result<bool, Fail>
    requires { SetCanStep (λ mem. mem.ram) start }
{
    let columns = read_header(alloc, HEADER)?;
    let segment = segment_of(alloc, rows)?;
    let ram = ram_of(&start);
    let mut other = start.mem.copy()?;
    let byte = number_at(&other, &ram, pa, 1)?;
    put(&mut other, &ram, pa, 1, byte ^ 0xff)?;
    let same = start.mem.copy()?;
    let kept = judge(alloc, &start, &columns, &segment, false)?;
    assert!(rt; kept.footprint.agree(&start.mem, &same));
    let agrees = kept.footprint.agree(&start.mem, &other);
    let judged = judge_from(alloc, start, &columns, &segment, false)?;
    assert_eq!(rt; judged.footprint.agree(&same, &other), agrees);
    Ok(agrees)
}

/// Where the first row runs, the rows, the address of a byte, and whether a memory that has another
/// there agrees.
type Beside<'a> = (u64, &'a [&'a [u8]], u64, bool);

const ALL: &[&[u8]] = &[ADD, STORE, LOAD, AGAIN];

#[test]
fn notes_what_was_read(rt: HostRuntime) -> Result<(), Fail> {
    let cases: [Beside; 20] = [
        (CODE, &[], CODE, true),
        (CODE, &[INVALID], CODE, true),
        (CODE, &[REFUSED], CODE, true),
        // What was fetched.
        (CODE, &[ADD], CODE, false),
        (CODE, &[ADD], CODE + 3, false),
        (CODE, &[ADD], CODE + 4, true),
        (CODE, ALL, CODE + 15, false),
        (CODE, ALL, CODE + 16, true),
        // What was loaded, and what was stored before.
        (CODE, &[ADD, STORE], DATA, true),
        (CODE, ALL, DATA - 1, true),
        (CODE, ALL, DATA, false),
        (CODE, ALL, DATA + 7, false),
        (CODE, ALL, DATA + 8, true),
        (CODE, ALL, DATA + 15, true),
        (CODE + 12, &[ALONE], DATA + 7, true),
        (CODE + 12, &[ALONE], DATA + 8, false),
        (CODE + 12, &[ALONE], DATA + 15, false),
        // A row that differs, and what stands after it.
        (CODE + 8, &[ZERO, AGAIN], DATA, false),
        (CODE + 8, &[ZERO, AGAIN], CODE + 8, false),
        (CODE + 8, &[ZERO, AGAIN], CODE + 12, true),
    ];
    'cases: for (pc, rows, pa, agrees) in cases {
        let alloc = rt.alloc();
        let found = agrees_beside(&rt, alloc, start(alloc, pc)?, rows, pa)?;
        assert_eq!(rt; found, agrees, "{pc} and {pa}");
    }
    Ok(())
}

/// The entries of both page tables that a translation reads, and those beside them.
#[test]
fn notes_page_tables(rt: HostRuntime) -> Result<(), Fail> {
    let cases: [Beside; 8] = [
        (CODE, &[ADD], ROOT + 15, true),
        (CODE, &[ADD], ROOT + 16, false),
        (CODE, &[ADD], ROOT + 23, false),
        (CODE, &[ADD], ROOT + 24, true),
        (CODE, &[ADD], BELOW, false),
        (CODE, &[ADD], BELOW + 8, true),
        (CODE, &[ADD], CODE, false),
        (CODE, &[INVALID], ROOT + 16, true),
    ];
    'cases: for (pc, rows, pa, agrees) in cases {
        let alloc = rt.alloc();
        let found = agrees_beside(&rt, alloc, translating(alloc, pc)?, rows, pa)?;
        assert_eq!(rt; found, agrees, "{pc} and {pa}");
    }
    Ok(())
}

/// A memory that refuses to be written and to be copied.
#[derive(Drop)]
struct Refusing {
    mem: MapMem,
}

impl PhysMem for Refusing {
    ghost bytes = { λ memory. map_bytes memory.mem };

    ghost ram = { λ memory. memory.mem.ram };

    ghost is_ready = { λ _ _. ⊥ };

    ghost bytes_are_bytes = { λ memory. map_bytes-fits memory.mem };

    fn read(&self, pa: u64, len: u8) -> u64 {
        self.mem.read(pa, len)
    }

    fn write(&mut self, _pa: u64, _len: u8, _value: u64) -> Result<(), NoMemory> {
        Err(NoMemory)
    }

    fn ready(&mut self, _pa: u64) -> Result<(), NoMemory> {
        Err(NoMemory)
    }

    fn copy(&self) -> Result<Refusing, NoMemory> {
        Err(NoMemory)
    }
}

/// One hart at the start of the code, over a memory that refuses.
fn start_refusing(alloc: Global) -> Result<Harts<Refusing>, Fail>
    ensures { IfOk result (SetCanStep (λ memory. memory.mem.ram)) }
{
    let core = core_at(CODE)?;
    let mem = Refusing {
        mem: memory(alloc, core.map.ram)?,
    };
    Ok(Harts::reset(alloc, core, 1, mem)?)
}

/// The verdict, where memory was not refused.
fn known_files(judged: Result<Judged<Refusing>, NoMemory>) -> Option<Verdict> {
    match judged {
        Ok(judged) => Some(judged.verdict),
        Err(NoMemory) => None,
    }
}

#[test]
fn stops_without_memory(rt: HostRuntime) -> Result<(), Fail> {
    let cases: [(&[&[u8]], Option<Verdict>); 4] = [
        (&[], Some(Verdict::Agrees { rows: 0, valid: 0 })),
        (&[ADD], Some(Verdict::Agrees { rows: 1, valid: 1 })),
        (
            &[ADD, REFUSED],
            Some(Verdict::Refused {
                row: 2,
                fault: RowFault::NotNumber(INSN),
            }),
        ),
        (&[ADD, STORE], None),
    ];
    'cases: for (rows, verdict) in cases {
        let alloc = rt.alloc();
        let columns = read_header(alloc, HEADER)?;
        let segment = segment_of(alloc, rows)?;
        let harts = start_refusing(alloc)?;
        assert_eq!(rt;
            known_files(judge(alloc, &harts, &columns, &segment, false)),
            None
        );
        assert_eq!(rt;
            known_files(judge_from(alloc, harts, &columns, &segment, false)),
            verdict
        );
    }
    Ok(())
}
