ghost use Rattle.std.specs.Prelude.{◌≡◌, ◌%◌, IfOk};
ghost use Rattle.hart_step.specs.Cores.{IsSound};
ghost use Rattle.hart_step.specs.HartSets.{SetCanStep};

use hart_set::HartSet;
use hart_step::{Core, Harts};
use hart_words::{Cause, Choices, Map, Mode, PhysMem, Span};
use image_text::read_image;
use page_image::PageImage;
use page_layers::{Layered, MapMem};
use rvfi_rows::{Effects, Expected, Retired, Row, Stepped, read_header, read_row};
use std::alloc::Global;
use std::test::Fail;

pub(crate) const CODE: u64 = 0x8000_0000;

pub(crate) const DATA: u64 = 0x8000_1000;

/// The first address past RAM.
const END: u64 = 0x8000_2000;

/// What stands at `DATA`, and in the last eight bytes of RAM.
pub(crate) const HELD: u64 = 0x8899_aabb_ccdd_eeff;

pub(crate) const GIVEN: u64 = 0x1122_3344_5566_7788;

const HEADER: &[u8] = b"insn,pc_rdata,order,intr,halt,mem_addr,mem_rdata,mem_wmask,rd_wdata";

/// A row that shows nothing of use.
const BLANK: &[u8] = b"0,0,,,,,,,";

/// Two pages of RAM, and a page of devices.
pub(crate) fn ram_and_devices() -> Result<Map, Fail> {
    let ram = Span::new(CODE, 0x2000).ok_or("no range")?;
    let io = Span::new(0x1000_0000, 0x1000).ok_or("no range")?;
    Ok(Map::new(ram, Some(io)).ok_or("no map")?)
}

fn row_of(alloc: Global, line: &[u8]) -> Result<Row, Fail> {
    let columns = read_header(alloc, HEADER)?;
    let row = read_row(alloc, &columns, line, 0, 1)?.ok_or("the row is valid")?;
    Ok(row)
}

fn image_of(alloc: Global, ram: Span, text: &str) -> Result<PageImage, Fail>
    ensures { IfOk result (λ image. image.ram ≡ ram) }
{
    let pieces = read_image(alloc, text.as_bytes(), ram)?;
    let image = PageImage::build(alloc, &pieces, ram)?;
    Ok(image)
}

/// One hart over a memory.
pub(crate) fn one_hart<M: PhysMem + Drop>(
    alloc: Global,
    core: Core,
    mem: M,
) -> Result<Harts<M>, Fail>
    requires sound { IsSound core }
    requires ram { M.ram mem ≡ core.map.ram }
    ensures can { IfOk result (SetCanStep M.ram) }
    ensures ram { IfOk result (λ harts. M.ram harts.mem ≡ M.ram mem) }
{
    Ok(HartSet::reset(alloc, core, 1, mem)?)
}

/// The state of the hart, where there is one.
pub(crate) fn core_of<M: PhysMem + Drop>(harts: &Harts<M>) -> Result<Core, Fail> {
    let core = harts.cores.get(0).ok_or("no hart")?;
    Ok(*core)
}

/// A hart at `pc`, with values in x10, x11 and x13.
fn hart_at<M: PhysMem + Drop>(
    alloc: Global,
    mem: M,
    map: Map,
    pc: u64,
    values: [u64; 3],
) -> Result<Harts<M>, Fail>
    requires even { pc % 2 ≡ 0 }
    requires ram { M.ram mem ≡ map.ram }
    ensures can { IfOk result (SetCanStep M.ram) }
    ensures ram { IfOk result (λ harts. M.ram harts.mem ≡ map.ram) }
{
    let mut core = Core::reset(pc, map, Choices::plain());
    core.registers.set(10, values[0]);
    core.registers.set(11, values[1]);
    core.registers.set(13, values[2]);
    one_hart(alloc, core, mem)
}

/// Writes to memory, where so many bytes lie in one page of RAM.
pub(crate) fn put(mem: &mut MapMem, ram: &Span, pa: u64, len: u8, value: u64) -> Result<(), Fail>
    requires ram { mem.old.ram ≡ ram.now }
    ensures ram { mem.new.ram ≡ mem.old.ram }
{
    if !ram.is_place(pa, len) {
        return Err(Fail::from("no place of RAM"));
    }
    mem.write(pa, len, value)?;
    Ok(())
}

/// The number at `DATA`.
fn number_at_data(mem: &MapMem, ram: &Span) -> Result<u64, Fail>
    requires ram { mem.now.ram ≡ ram.now }
{
    if !ram.is_place(DATA, 8) {
        return Err(Fail::from("no place of RAM"));
    }
    Ok(mem.read(DATA, 8))
}

/// A memory with the instruction at `CODE`, and `HELD` at `DATA` and at the end of RAM.
pub(crate) fn memory_with(alloc: Global, ram: Span, instruction: u64) -> Result<MapMem, Fail>
    ensures { IfOk result (λ mem. mem.ram ≡ ram) }
{
    let mut mem = MapMem::zeros(alloc, ram);
    put(&mut mem, &ram, CODE, 4, instruction)?;
    put(&mut mem, &ram, DATA, 8, HELD)?;
    put(&mut mem, &ram, END - 8, 8, HELD)?;
    Ok(mem)
}

/// What the hart did, where it has not halted.
pub(crate) fn retirement_of(step: &Stepped) -> Option<Retired> {
    match step.expected {
        Expected::Halted => None,
        Expected::Retired(retired) => Some(retired),
    }
}

/// What a step wrote to rd, and the next pc; none where it trapped.
fn effects(step: &Stepped) -> Option<(u64, u64)> {
    let effects = retirement_of(step)?.effects.ok()?;
    Some((effects.rd_value, effects.next_pc))
}

/// The address of the next instruction, or the cause of the trap.
fn after(effects: &Result<Effects, Cause>) -> Result<u64, Cause> {
    match effects {
        Ok(effects) => Ok(effects.next_pc),
        Err(cause) => Err(*cause),
    }
}

/// What an instruction writes to rd with values in x10 and x11 and nothing reserved, none where it
/// traps; and the number at `DATA` after it.
fn ran(
    alloc: Global,
    instruction: u64,
    values: (u64, u64),
    line: &[u8],
) -> Result<(Option<u64>, u64), Fail> {
    let map = ram_and_devices()?;
    let mem = memory_with(alloc, map.ram, instruction)?;
    let mut hart = hart_at(alloc, mem, map, CODE, [values.0, values.1, 0])?;
    let row = row_of(alloc, line)?;
    let value = match effects(&hart.step(&row)?) {
        None => None,
        Some((value, _)) => Some(value),
    };
    Ok((value, number_at_data(&hart.mem, &map.ram)?))
}

#[test]
fn loads_from_ram(rt: HostRuntime) -> Result<(), Fail> {
    // LB, LH, LW, LD, LBU, LHU, LWU x12, 0(x10), and LD x12, 64(x10).
    let cases = [
        (0x0005_0603, DATA, Some(u64::MAX)),
        (0x0005_1603, DATA + 2, Some(0xffff_ffff_ffff_ccdd)),
        (0x0005_2603, DATA + 4, Some(0xffff_ffff_8899_aabb)),
        (0x0005_3603, DATA, Some(HELD)),
        (0x0005_4603, DATA + 1, Some(0xee)),
        (0x0005_5603, DATA + 2, Some(0xccdd)),
        (0x0005_6603, DATA + 4, Some(0x8899_aabb)),
        (0x0405_3603, DATA - 64, Some(HELD)),
        (0x0005_1603, DATA + 1, None),
        (0x0005_6603, DATA + 2, None),
        (0x0005_3603, DATA + 4, None),
        (0x0005_3603, u64::MAX, None),
        (0x0005_0603, END - 1, Some(0xffff_ffff_ffff_ff88)),
        (0x0005_3603, END - 8, Some(HELD)),
        (0x0005_0603, END, None),
        (0x0005_3603, END, None),
        (0x0005_0603, CODE - 1, None),
        (0x0005_3603, u64::MAX - 7, None),
        (0x0405_3603, u64::MAX - 63, None),
    ];
    for (instruction, address, want) in cases {
        let (value, _) = ran(rt.alloc(), instruction, (address, 0), BLANK)?;
        assert_eq!(rt; value, want);
    }
    Ok(())
}

#[test]
fn loads_from_devices(rt: HostRuntime) -> Result<(), Fail> {
    let io = 0x1000_0000;
    // The row shows `mem_addr`, `mem_rdata` and `rd_wdata`.
    let cases: [(u64, u64, &[u8], u64); 9] = [
        (
            0x0005_2603,
            io + 4,
            b"0,0,,,,0x10000000,0x8122334455667788,,7",
            0xffff_ffff_8122_3344,
        ),
        (
            0x0005_5603,
            io + 6,
            b"0,0,,,,0x10000000,0x8122334455667788,,7",
            0x8122,
        ),
        (
            0x0005_6603,
            io + 4,
            b"0,0,,,,0x10000004,0x8122334455667788,,7",
            0x5566_7788,
        ),
        (
            0x0005_3603,
            io + 8,
            b"0,0,,,,0x10000000,0x8122334455667788,,7",
            7,
        ),
        (
            0x0005_6603,
            io,
            b"0,0,,,,0x10000004,0x8122334455667788,,7",
            7,
        ),
        (0x0005_6603, io, b"0,0,,,,0x10000000,,,7", 7),
        (0x0005_5603, io, b"0,0,,,,,,,0x12345", 0x2345),
        (
            0x0005_2603,
            io,
            b"0,0,,,,,,,0x80000001",
            0xffff_ffff_8000_0001,
        ),
        (0x0005_3603, io + 0xff8, BLANK, 0),
    ];
    for (instruction, address, line, want) in cases {
        let (value, _) = ran(rt.alloc(), instruction, (address, 0), line)?;
        assert_eq!(rt; value, Some(want));
    }
    Ok(())
}

#[test]
fn stores(rt: HostRuntime) -> Result<(), Fail> {
    // SB, SH, SW, SD x11, 0(x10).
    let cases = [
        (0x00b5_0023, DATA, Some(0), 0x8899_aabb_ccdd_ee88),
        (0x00b5_1023, DATA + 2, Some(0), 0x8899_aabb_7788_eeff),
        (0x00b5_2023, DATA + 4, Some(0), 0x5566_7788_ccdd_eeff),
        (0x00b5_3023, DATA, Some(0), GIVEN),
        (0x00b5_1023, DATA + 1, None, HELD),
        (0x00b5_2023, DATA + 2, None, HELD),
        (0x00b5_3023, DATA + 4, None, HELD),
        (0x00b5_0023, END - 1, Some(0), HELD),
        (0x00b5_0023, END, None, HELD),
        (0x00b5_3023, u64::MAX - 7, None, HELD),
        (0x00b5_3023, 0x1000_0ff8, Some(0), HELD),
        (0x00b5_3023, 0x1000_1000, None, HELD),
    ];
    for (instruction, address, want, held) in cases {
        let found = ran(rt.alloc(), instruction, (address, GIVEN), BLANK)?;
        assert_eq!(rt; found, (want, held));
    }
    Ok(())
}

#[test]
fn exchanges(rt: HostRuntime) -> Result<(), Fail> {
    let alloc = rt.alloc();
    let word = 0xffff_ffff_ccdd_eeff;
    // AMOSWAP, AMOADD, AMOXOR, AMOAND, AMOOR, AMOMIN, AMOMAX, AMOMINU, AMOMAXU x12, x11, (x10): the
    // form of words; that of doublewords has bit 12 set.
    let cases = [
        (0x08b5_262f, 0x8899_aabb_5566_7788, GIVEN),
        (0x00b5_262f, 0x8899_aabb_2244_6687, 0x99bb_de00_2244_6687),
        (0x20b5_262f, 0x8899_aabb_99bb_9977, 0x99bb_99ff_99bb_9977),
        (0x60b5_262f, 0x8899_aabb_4444_6688, 0x0000_2200_4444_6688),
        (0x40b5_262f, 0x8899_aabb_ddff_ffff, 0x99bb_bbff_ddff_ffff),
        (0x80b5_262f, HELD, HELD),
        (0xa0b5_262f, 0x8899_aabb_5566_7788, GIVEN),
        (0xc0b5_262f, 0x8899_aabb_5566_7788, GIVEN),
        (0xe0b5_262f, HELD, HELD),
    ];
    for (instruction, words, doubles) in cases {
        let found = ran(alloc, instruction, (DATA, GIVEN), BLANK)?;
        assert_eq!(rt; found, (Some(word), words));
        let found = ran(alloc, instruction + 0x1000, (DATA, GIVEN), BLANK)?;
        assert_eq!(rt; found, (Some(HELD), doubles));
    }
    // AMOADD.D, LR.W, LR.D, SC.D.
    let io = 0x1000_0000;
    let refused = [
        (0x00b5_362f, DATA + 4),
        (0x00b5_362f, END),
        (0x00b5_362f, io),
        (0x1005_262f, DATA + 2),
        (0x1005_362f, END),
        (0x1005_362f, io),
        (0x18b5_362f, DATA + 4),
        (0x18b5_362f, io),
    ];
    for (instruction, address) in refused {
        let found = ran(alloc, instruction, (address, GIVEN), BLANK)?;
        assert_eq!(rt; found, (None, HELD));
    }
    Ok(())
}

/// What the instruction at `pc` writes to rd, and the next pc; none where it traps.
fn ran_at(alloc: Global, map: Map, text: &str, pc: u64) -> Result<Option<(u64, u64)>, Fail> {
    if pc % 2 != 0 {
        return Err(Fail::from("an odd pc"));
    }
    let image = image_of(alloc, map.ram, text)?;
    let mem = Layered::over(alloc, &image);
    let mut hart = hart_at(alloc, mem, map, pc, [0x8000_0100, 0, 0])?;
    let row = row_of(alloc, BLANK)?;
    Ok(effects(&hart.step(&row)?))
}

#[test]
fn fetches(rt: HostRuntime) -> Result<(), Fail> {
    // C.LI x12, 5; two illegal parcels; a word of ones; ECALL; EBREAK; C.EBREAK; JAL x1, 8; C.JALR
    // x10; and JALR x1, 7(x0). The last parcel of RAM is C.LI, and before it stands an ADDI.
    let text = "@80000000 15 46 00 00 02 80 ff ff ff ff 73 00 00 00 73 00 10 00 02 90
                ef 00 80 00 02 95 e7 00 70 00 @80001ffa 13 06 50 00 15 46";
    // Of the last instruction the second parcel lies past RAM.
    let half = "@80001ffe 13 06";
    let cases = [
        (text, CODE, Some((5, CODE + 2))),
        (text, CODE + 2, None),
        (text, CODE + 4, None),
        (text, CODE + 6, None),
        (text, CODE + 10, None),
        (text, CODE + 14, None),
        (text, CODE + 18, None),
        (text, CODE + 20, Some((CODE + 24, CODE + 28))),
        (text, CODE + 24, Some((CODE + 26, 0x8000_0100))),
        (text, CODE + 26, Some((CODE + 30, 6))),
        (text, END - 6, Some((5, END - 2))),
        (text, END - 2, Some((5, END))),
        (text, END, None),
        (text, 0x1000_0000, None),
        (text, u64::MAX - 1, None),
        (half, END - 2, None),
    ];
    let map = ram_and_devices()?;
    for (text, pc, want) in cases {
        let found = ran_at(rt.alloc(), map, text, pc)?;
        assert_eq!(rt; found, want, "at {pc}");
    }
    Ok(())
}

/// Steps a hart by the rows, one after another.
fn follow<M: PhysMem + Drop>(
    alloc: Global,
    hart: &mut Harts<M>,
    lines: &[&[u8]],
) -> Result<Vec<Stepped>, Fail>
    requires { SetCanStep M.ram hart.old }
{
    let mut steps = Vec::new(alloc);
    'rows: for line in lines {
        let row = row_of(alloc, *line)?;
        steps.push(hart.step(&row)?)?;
    }
    Ok(steps)
}

/// What the steps wrote to rd; none where a step trapped.
fn values(alloc: Global, steps: &Vec<Stepped>) -> Result<Vec<Option<u64>>, Fail> {
    let mut values = Vec::new(alloc);
    for step in steps.iter() {
        let value = match effects(step) {
            None => None,
            Some((value, _)) => Some(value),
        };
        values.push(value)?;
    }
    Ok(values)
}

/// What LR.D of `DATA`, SC.D at this address, stepped by this row, and another SC.D write to rd.
fn values_after_reservation(
    alloc: Global,
    address: u64,
    line: &[u8],
) -> Result<Vec<Option<u64>>, Fail> {
    let text = "@80000000 2f 36 05 10 2f b6 b6 18 2f b6 b6 18 @80001000 07";
    let map = ram_and_devices()?;
    let image = image_of(alloc, map.ram, text)?;
    let mem = Layered::over(alloc, &image);
    let mut hart = hart_at(alloc, mem, map, CODE, [DATA, GIVEN, address])?;
    let steps = follow(alloc, &mut hart, &[BLANK, line, BLANK])?;
    values(alloc, &steps)
}

#[test]
fn stores_where_reserved(rt: HostRuntime) -> Result<(), Fail> {
    // The row shows `mem_wmask` and `rd_wdata`.
    let cases: [(u64, &[u8], u64); 10] = [
        (DATA, BLANK, 0),
        (DATA + 56, BLANK, 0),
        (DATA + 8, b"0,0,,,,,,,0", 0),
        (DATA + 8, b"0,0,,,,,,0,0", 0),
        (DATA, b"0,0,,,,,,,1", 1),
        (DATA, b"0,0,,,,,,,2", 1),
        (DATA, b"0,0,,,,,,0,", 1),
        (DATA + 64, b"0,0,,,,,,255,0", 1),
        (DATA - 8, b"0,0,,,,,,255,0", 1),
        (DATA + 0x800, BLANK, 1),
    ];
    for (address, line, want) in cases {
        let values = values_after_reservation(rt.alloc(), address, line)?;
        assert_eq!(rt;
            values.as_slice(),
            [Some(7), Some(want), Some(1)].as_slice()
        );
    }
    Ok(())
}

#[test]
fn orders_and_halts(rt: HostRuntime) -> Result<(), Fail> {
    let alloc = rt.alloc();
    // Two ADDI x0, x0, 0, and EBREAK.
    let map = ram_and_devices()?;
    let image = image_of(
        alloc,
        map.ram,
        "@80000000 13 00 00 00 13 00 00 00 73 00 10 00",
    )?;
    let mut hart = hart_at(alloc, Layered::over(alloc, &image), map, CODE, [0, 0, 0])?;
    let max = b"0,0,18446744073709551615,1,,,,,".as_slice();
    let entered = b"0,0,,1,,,,,".as_slice();
    let last = b"0,4,5,1,1,,,,".as_slice();
    let steps = follow(alloc, &mut hart, &[BLANK, max, BLANK, entered, last, BLANK])?;
    let core = core_of(&hart)?;
    assert!(rt; core.halted && core.trapped_last);
    assert_eq!(rt; core.next_order, Some(3));
    let wanted = [
        (None, false, CODE, Ok(CODE + 4), Some(0x13)),
        (None, true, CODE + 4, Ok(CODE + 8), Some(0x13)),
        (
            Some(0),
            false,
            CODE + 8,
            Err(Cause::Breakpoint),
            Some(0x10_0073),
        ),
        // The first row of the trap's handler, and one at another address than that. At address 0
        // stands nothing.
        (Some(1), false, 0, Err(Cause::InstructionAccessFault), None),
        (Some(2), true, 0, Err(Cause::InstructionAccessFault), None),
    ];
    for (step, (order, lacks, pc, next, insn)) in steps.iter().zip(wanted) {
        let found = retirement_of(step).ok_or("the hart has not halted")?;
        assert_eq!(rt; found.mode, Mode::Machine);
        assert_eq!(rt;
            (found.order, found.lacks_interrupt, found.pc),
            (order, lacks, pc)
        );
        assert_eq!(rt; found.insn, insn);
        assert_eq!(rt; after(&found.effects), next);
    }
    assert_eq!(rt; steps.len(), 6);
    assert!(rt;
        steps
            .get(5)
            .is_some_and(|step| retirement_of(step).is_none())
    );
    Ok(())
}

/// A plain memory with the bytes of an image.
fn plain(alloc: Global, ram: Span, image: &PageImage) -> Result<MapMem, Fail>
    ensures { IfOk result (λ mem. mem.ram ≡ ram) }
{
    let mut mem = MapMem::zeros(alloc, ram);
    'bytes: for k in 0..0x2000 {
        let byte = image.byte(CODE + k);
        if byte != 0 {
            put(&mut mem, &ram, CODE + k, 1, u64::from(byte))?;
        }
    }
    Ok(mem)
}

/// What rows gave over one memory is what they gave over the other.
#[test]
fn steps_alike_over_both_memories(rt: HostRuntime) -> Result<(), Fail> {
    let alloc = rt.alloc();
    // AUIPC x10, 1; LD x11, 0(x10); LB x12, 7(x10); SD x12, 64(x10); AMOADD.W x13, x11, (x10); LR.D
    // x14, (x10); SC.D x15, x12, (x10); LD x16, 0(x10); LWU x17, 64(x10); SW x17, 2(x10).
    let text = "@80000000 17 15 00 00 83 35 05 00 03 06 75 00 23 30 C5 04
                AF 26 B5 00 2F 37 05 10 AF 37 C5 18 03 38 05 00 83 68 05 04 23 21 15 01
                @80001000 ff ee dd cc bb aa 99 88";
    let map = ram_and_devices()?;
    let image = image_of(alloc, map.ram, text)?;
    let rows: [&[u8]; 11] = [BLANK; 11];
    let mut layered = hart_at(alloc, Layered::over(alloc, &image), map, CODE, [0, 0, 0])?;
    let one = follow(alloc, &mut layered, &rows)?;
    let mem = plain(alloc, map.ram, &image)?;
    let mut plain = hart_at(alloc, mem, map, CODE, [0, 0, 0])?;
    let other = follow(alloc, &mut plain, &rows)?;
    let wanted = [
        Some(DATA),
        Some(HELD),
        Some(0xffff_ffff_ffff_ff88),
        Some(0),
        Some(0xffff_ffff_ccdd_eeff),
        Some(0x8899_aabb_99bb_ddfe),
        Some(0),
        Some(0xffff_ffff_ffff_ff88),
        Some(0xffff_ff88),
        None,
        None,
    ];
    assert_eq!(rt; values(alloc, &one)?.as_slice(), wanted.as_slice());
    let one = format!(in alloc; "{one:?} {:?}", core_of(&layered)?)?;
    let other = format!(in alloc; "{other:?} {:?}", core_of(&plain)?)?;
    assert_eq!(rt; one.as_str(), other.as_str());
    Ok(())
}
