//! Plain rows, the state that one shows, and harts that are copied and compared.

ghost use Rattle.std.specs.Prelude.{◌≡◌, IfOk};
ghost use Rattle.hart_step.specs.HartSets.{SetCanStep};

use crate::tests::{CODE, core_of, memory_with, one_hart, ram_and_devices};
use hart_step::{Core, Harts};
use hart_words::{Choices, Map, Marks, Misaligned, Mode, PhysMem, PmpEntry, Span, TrapValues};
use page_layers::MapMem;
use rvfi_rows::{Row, read_header, read_row};
use std::alloc::Global;
use std::test::Fail;

const HEADER: &[u8] = b"insn,pc_rdata,order,intr,trap,halt,rd_addr,rd_wdata,pc_wdata,\
                        mem_addr,mem_wmask,mem_wdata,mem_paddr";

/// The addresses of mstatus and satp.
const MSTATUS: u16 = 0x300;

const SATP: u16 = 0x180;

/// MODE of satp is Sv39.
const TRANSLATES: u64 = 8 << 60;

/// MPRV of mstatus, with S in MPP.
const MPRV_IN_S: u64 = 1 << 17 | 1 << 11;

fn row_of(alloc: Global, line: &[u8]) -> Result<Row, Fail> {
    let columns = read_header(alloc, HEADER)?;
    let row = read_row(alloc, &columns, line, 0, 1)?.ok_or("the row is valid")?;
    Ok(row)
}

/// A hart at `CODE` over `memory_with` an instruction of zeros.
fn hart_over(alloc: Global, map: Map) -> Result<Harts<MapMem>, Fail>
    ensures can { IfOk result (SetCanStep (λ mem. mem.ram)) }
    ensures ram { IfOk result (λ harts. harts.mem.ram ≡ map.ram) }
{
    let mem = memory_with(alloc, map.ram, 0)?;
    one_hart(alloc, Core::reset(CODE, map, Choices::plain()), mem)
}

/// Changes the state of the hart, where there is one.
fn core_in(harts: &mut Harts<MapMem>) -> Result<&mut Core, Fail> {
    Ok(harts.cores.get_mut(0).ok_or("no hart")?)
}

/// What is different from a hart at reset.
#[derive(Clone, Copy, Debug)]
enum State {
    AtReset,
    Halted,
    TrappedLast,
    /// In M, with satp for S and U.
    BesideTranslation,
    /// In M, with loads and stores as in S.
    UnderMprv,
    /// In S, translated.
    Translated,
    /// In S, with satp's MODE as Bare.
    Bare,
}

fn write(core: &mut Core, address: u16, value: u64) -> Result<(), Fail> {
    core.csrs
        .write(address, Mode::Machine, value)
        .map_err(|_| Fail::from("no register"))
}

fn bring_to(core: &mut Core, state: State) -> Result<(), Fail> {
    match state {
        State::AtReset => Ok(()),
        State::Halted => {
            core.halted = true;
            Ok(())
        }
        State::TrappedLast => {
            core.trapped_last = true;
            Ok(())
        }
        State::BesideTranslation => write(core, SATP, TRANSLATES),
        State::UnderMprv => {
            write(core, SATP, TRANSLATES)?;
            write(core, MSTATUS, MPRV_IN_S)
        }
        State::Translated => {
            core.mode = Mode::Supervisor;
            write(core, SATP, TRANSLATES)
        }
        State::Bare => {
            core.mode = Mode::Supervisor;
            Ok(())
        }
    }
}

/// ADD, SD, C.SD and C.SWSP with all that they show, and rows that lack one thing each.
#[test]
fn tells_plain_rows(rt: HostRuntime) -> Result<(), Fail> {
    let alloc = rt.alloc();
    let cases: [(State, &[u8], bool); 38] = [
        (State::AtReset, b"0x00b50633,0,,,,,12,7,,,,,", true),
        (State::AtReset, b"0x00b50633,0,,0,0,0,,,,,,,", true),
        (State::Halted, b"0x00b50633,0,,,,,12,7,,,,,", false),
        (State::TrappedLast, b"0x00b50633,0,,,,,12,7,,,,,", false),
        (State::AtReset, b"0x00b50633,0,,1,,,12,7,,,,,", false),
        (State::AtReset, b"0x00b50633,0,,,1,,12,7,,,,,", false),
        (State::AtReset, b"0x00b50633,0,,,,1,12,7,,,,,", false),
        // ECALL, CSRRS, and a word of the opcode that means nothing.
        (State::AtReset, b"0x00000073,0,,,,,,,,,,,", false),
        (State::AtReset, b"0xc0002673,0,,,,,12,7,,,,,", false),
        (State::AtReset, b"0x00004073,0,,,,,,,,,,,", false),
        // LR.D, SC.D, AMOADD.D, and a word of the opcode that means nothing.
        (State::AtReset, b"0x1005362f,0,,,,,12,7,,,,,", false),
        (State::AtReset, b"0x18b5362f,0,,,,,12,0,,1,255,1,1", false),
        (State::AtReset, b"0x00b5362f,0,,,,,12,0,,1,255,1,1", false),
        (State::AtReset, b"0x0000002f,0,,,,,,,,,,,", false),
        // C.EBREAK, whatever stands above it; C.JALR x1 and C.NOP; a parcel that means nothing.
        (State::AtReset, b"0x9002,0,,,,,,,,,,,", false),
        (State::AtReset, b"0x00739002,0,,,,,,,,,,,", false),
        (State::AtReset, b"0x9082,0,,,,,1,2,,,,,", true),
        (State::AtReset, b"0x00730001,0,,,,,,,,,,,", true),
        (State::AtReset, b"0,0,,,,,,,,,,,", true),
        // SD.
        (State::AtReset, b"0x00b53023,0,,,,,,,,1,255,1,1", true),
        (State::AtReset, b"0x00b53023,0,,,,,,,,1,0,1,", true),
        (State::AtReset, b"0x00b53023,0,,,,,,,,,255,1,1", false),
        (State::AtReset, b"0x00b53023,0,,,,,,,,1,,1,1", false),
        (State::AtReset, b"0x00b53023,0,,,,,,,,1,255,,1", false),
        (
            State::BesideTranslation,
            b"0x00b53023,0,,,,,,,,1,255,1,",
            true,
        ),
        (State::UnderMprv, b"0x00b53023,0,,,,,,,,1,255,1,", false),
        (State::UnderMprv, b"0x00b53023,0,,,,,,,,1,255,1,1", true),
        (State::Translated, b"0x00b53023,0,,,,,,,,1,255,1,", false),
        (State::Translated, b"0x00b53023,0,,,,,,,,1,255,1,1", true),
        (State::Bare, b"0x00b53023,0,,,,,,,,1,255,1,", true),
        // A load under translation needs no place; nor does a word of STORE that means nothing.
        (State::Translated, b"0x00053603,0,,,,,12,7,,1,,,", true),
        (State::AtReset, b"0x00b57023,0,,,,,,,,,,,", true),
        // C.SD and C.SWSP, whatever stands above them.
        (State::AtReset, b"0xe000,0,,,,,,,,1,255,1,", true),
        (State::AtReset, b"0xe000,0,,,,,,,,,255,1,", false),
        (State::AtReset, b"0x0073e000,0,,,,,,,,1,,1,", false),
        (State::Translated, b"0xe000,0,,,,,,,,1,255,1,", false),
        (State::AtReset, b"0xc002,0,,,,,,,,1,255,,", false),
        (State::AtReset, b"0xc002,0,,,,,,,,1,255,1,", true),
    ];
    'cases: for (state, line, want) in cases.as_slice() {
        let mut hart = hart_over(alloc, ram_and_devices()?)?;
        bring_to(core_in(&mut hart)?, *state)?;
        let row = row_of(alloc, *line)?;
        assert_eq!(rt; hart.is_plain(&row), *want, "{state:?}");
    }
    Ok(())
}

/// The state after a row: x12, pc and the order index.
fn shown_after(alloc: Global, line: &[u8]) -> Result<(u64, u64, Option<u64>), Fail> {
    let mut hart = hart_over(alloc, ram_and_devices()?)?;
    hart.take_shown(&row_of(alloc, line)?)?;
    let core = core_of(&hart)?;
    Ok((core.registers.get(12), core.pc, core.next_order))
}

/// Rows of ADD, C.NOP and a jump: the register, pc and the order index.
#[test]
fn takes_registers(rt: HostRuntime) -> Result<(), Fail> {
    let alloc = rt.alloc();
    let cases: [(&[u8], (u64, u64, Option<u64>)); 10] = [
        (
            b"0x00b50633,0x80000000,,,,,12,7,,,,,",
            (7, 0x8000_0004, None),
        ),
        (
            b"0x00b50633,0x80000000,5,,,,0,7,,,,,",
            (0, 0x8000_0004, Some(6)),
        ),
        (b"0x00b50633,0x80000000,,,,,,7,,,,,", (0, 0x8000_0004, None)),
        (
            b"0x00b50633,0x80000000,,,,,12,,,,,,",
            (0, 0x8000_0004, None),
        ),
        (b"1,0x80000000,,,,,,,,,,,", (0, 0x8000_0002, None)),
        (b"0x00730001,0x80000001,,,,,,,,,,,", (0, 0x8000_0002, None)),
        (
            b"0x67,0x80000000,,,,,,,0x80000100,,,,",
            (0, 0x8000_0100, None),
        ),
        (
            b"0x67,0x80000000,,,,,,,0x80000101,,,,",
            (0, 0x8000_0100, None),
        ),
        (b"0x13,0xfffffffffffffffe,,,,,,,,,,,", (0, 2, None)),
        (b"0x13,0,0xffffffffffffffff,,,,12,1,,,,,", (1, 4, Some(0))),
    ];
    'cases: for (line, want) in cases.as_slice() {
        assert_eq!(rt; shown_after(alloc, *line)?, *want);
    }
    // A known order index counts on where none is shown.
    let mut hart = hart_over(alloc, ram_and_devices()?)?;
    hart.take_shown(&row_of(alloc, b"0x13,0,5,,,,,,,,,,")?)?;
    hart.take_shown(&row_of(alloc, b"0x13,4,,,,,,,,,,,")?)?;
    assert_eq!(rt; core_of(&hart)?.next_order, Some(7));
    Ok(())
}

/// The eight bytes at an address.
fn number_at(mem: &MapMem, ram: &Span, pa: u64) -> Result<u64, Fail>
    requires { mem.now.ram ≡ ram.now }
{
    if !ram.is_place(pa, 8) {
        return Err(Fail::from("no place of RAM"));
    }
    Ok(mem.read(pa, 8))
}

/// The eight bytes at an address after a row.
fn number_after(alloc: Global, map: Map, line: &[u8], pa: u64) -> Result<u64, Fail> {
    let core = Core::reset(0, map, Choices::plain());
    let mut hart = one_hart(alloc, core, MapMem::zeros(alloc, map.ram))?;
    hart.take_shown(&row_of(
        alloc,
        b"0x00b53023,0,,,,,,,,0x80001000,255,0x8899aabbccddeeff,",
    )?)?;
    hart.take_shown(&row_of(alloc, line)?)?;
    number_at(&hart.mem, &map.ram, pa)
}

/// Rows of SD and C.SD that show 0x1122334455667788, over 0x8899aabbccddeeff at 0x80001000.
#[test]
fn takes_stores(rt: HostRuntime) -> Result<(), Fail> {
    let alloc = rt.alloc();
    let map = ram_and_devices()?;
    let cases: [(&[u8], u64, u64); 19] = [
        (
            b"0x00b53023,0,,,,,,,,0x80001000,255,0x1122334455667788,",
            0x8000_1000,
            0x1122_3344_5566_7788,
        ),
        (
            b"0xe000,0,,,,,,,,0x80001000,0xa5,0x1122334455667788,",
            0x8000_1000,
            0x1199_33bb_cc66_ee88,
        ),
        (
            b"0x00b53023,0,,,,,,,,0x80001000,0,0x1122334455667788,",
            0x8000_1000,
            0x8899_aabb_ccdd_eeff,
        ),
        // The low 1, 2, 3 and 4 bytes.
        (
            b"0x00b53023,0,,,,,,,,0x80001000,1,0x1122334455667788,",
            0x8000_1000,
            0x8899_aabb_ccdd_ee88,
        ),
        (
            b"0x00b53023,0,,,,,,,,0x80001000,3,0x1122334455667788,",
            0x8000_1000,
            0x8899_aabb_ccdd_7788,
        ),
        (
            b"0x00b53023,0,,,,,,,,0x80001000,7,0x1122334455667788,",
            0x8000_1000,
            0x8899_aabb_cc66_7788,
        ),
        (
            b"0x00b53023,0,,,,,,,,0x80001000,15,0x1122334455667788,",
            0x8000_1000,
            0x8899_aabb_5566_7788,
        ),
        // The last eight bytes of RAM, and four bytes of which two are after it.
        (
            b"0x00b53023,0,,,,,,,,0x80001ff8,255,0x1122334455667788,",
            0x8000_1ff8,
            0x1122_3344_5566_7788,
        ),
        (
            b"0x00b53023,0,,,,,,,,0x80001ffe,15,0x1122334455667788,",
            0x8000_1ff8,
            0x7788_0000_0000_0000,
        ),
        // In two pages.
        (
            b"0x00b53023,0,,,,,,,,0x80000ffe,15,0x1122334455667788,",
            0x8000_1000,
            0x8899_aabb_ccdd_5566,
        ),
        (
            b"0x00b53023,0,,,,,,,,0x80000ffc,255,0x1122334455667788,",
            0x8000_0ff8,
            0x5566_7788_0000_0000,
        ),
        (
            b"0x00b53023,0,,,,,,,,0x80000ffc,255,0x1122334455667788,",
            0x8000_1000,
            0x8899_aabb_1122_3344,
        ),
        // Half outside RAM, after it and before it.
        (
            b"0x00b53023,0,,,,,,,,0x80001ffc,255,0x1122334455667788,",
            0x8000_1ff8,
            0x5566_7788_0000_0000,
        ),
        (
            b"0x00b53023,0,,,,,,,,0x7ffffffc,255,0x1122334455667788,",
            0x8000_0000,
            0x1122_3344,
        ),
        // The physical address counts where it is shown.
        (
            b"0x00b53023,0,,,,,,,,0x1000,255,0x1122334455667788,0x80001000",
            0x8000_1000,
            0x1122_3344_5566_7788,
        ),
        (
            b"0x00b53023,0,,,,,,,,0x80001000,255,0x1122334455667788,0x80000000",
            0x8000_1000,
            0x8899_aabb_ccdd_eeff,
        ),
        // A device's bytes are nowhere.
        (
            b"0x00b53023,0,,,,,,,,0x10000000,255,0x1122334455667788,",
            0x8000_1000,
            0x8899_aabb_ccdd_eeff,
        ),
        // ADD, and a word of STORE that means nothing, store nothing.
        (
            b"0x00b50633,0,,,,,,,,0x80001000,255,0x1122334455667788,",
            0x8000_1000,
            0x8899_aabb_ccdd_eeff,
        ),
        (
            b"0x00b57023,0,,,,,,,,0x80001000,255,0x1122334455667788,",
            0x8000_1000,
            0x8899_aabb_ccdd_eeff,
        ),
    ];
    'cases: for (line, pa, want) in cases.as_slice() {
        assert_eq!(rt; number_after(alloc, map, *line, *pa)?, *want);
    }
    // Addresses go on at 0.
    let low = Map::new(Span::new(0, 0x1000).ok_or("no range")?, None).ok_or("no map")?;
    let line = b"0x00b53023,0,,,,,,,,0xfffffffffffffffc,255,0x1122334455667788,";
    assert_eq!(rt; number_after(alloc, low, line.as_slice(), 0)?, 0x1122_3344);
    Ok(())
}

/// How many parts `change` knows.
const PARTS: u8 = 17;

/// Changes one part of a state.
fn change(core: &mut Core, part: u8) -> Result<(), Fail> {
    match part {
        0 => core.registers.set(1, 1),
        1 => core.registers.set(31, 1),
        2 => core.pc = CODE + 2,
        3 => core.mode = Mode::User,
        4 => return write(core, SATP, TRANSLATES),
        5 => core.csrs.entries[15] = PmpEntry { cfg: 0, addr: 1 },
        6 => core.reservation.set(CODE, 64),
        7 => core.next_order = Some(0),
        8 => core.trapped_last = true,
        9 => core.halted = true,
        10 => {
            let ram = Span::new(CODE, 0x1000).ok_or("no range")?;
            core.map = Map::with_devices(ram, core.map.io).ok_or("no map")?;
        }
        11 => core.map = Map::new(core.map.ram, None).ok_or("no map")?,
        12 => core.choices.misaligned = Misaligned::Done,
        13 => core.choices.trap_values = TrapValues::Zero,
        14 => core.choices.marks = Marks::Set,
        15 => core.choices.bits = true,
        _ => {
            let (misaligned, values) = (Misaligned::Trap, TrapValues::Value);
            core.choices = Choices::new(misaligned, values, Marks::Fault, 8, false).ok_or(
                "no size of a block",
            )?;
        }
    }
    Ok(())
}

/// A copy is the same, whatever its memory has; a hart with one part changed is not.
#[test]
fn compares_harts(rt: HostRuntime) -> Result<(), Fail> {
    let alloc = rt.alloc();
    let hart = hart_over(alloc, ram_and_devices()?)?;
    'parts: for part in 0..PARTS {
        let mut other = hart.copy()?;
        assert!(rt; hart.same_but_memory(&other));
        change(core_in(&mut other)?, part)?;
        assert!(rt; !hart.same_but_memory(&other), "{part}");
        assert!(rt; other.same_but_memory(&other.copy()?), "{part}");
    }
    Ok(())
}

/// Takes a row.
fn take(alloc: Global, hart: &mut Harts<MapMem>, line: &[u8]) -> Result<(), Fail>
    requires can { SetCanStep (λ mem. mem.ram) hart.old }
    ensures ram { hart.new.mem.ram ≡ hart.old.mem.ram }
{
    hart.take_shown(&row_of(alloc, line)?)?;
    Ok(())
}

/// What is written to a hart or its copy does not reach the other.
#[test]
fn copies_harts(rt: HostRuntime) -> Result<(), Fail> {
    let alloc = rt.alloc();
    let map = ram_and_devices()?;
    let mut hart = hart_over(alloc, map)?;
    let mut other = hart.copy()?;
    take(
        alloc,
        &mut hart,
        b"0x00b53023,0x80000000,,,,,,,,0x80000100,255,1,",
    )?;
    assert!(rt; !hart.same_but_memory(&other));
    take(
        alloc,
        &mut other,
        b"0x00b53023,0x80000000,,,,,,,,0x80000100,255,2,",
    )?;
    assert!(rt; hart.same_but_memory(&other));
    assert_eq!(rt; number_at(&hart.mem, &map.ram, 0x8000_0100)?, 1);
    assert_eq!(rt; number_at(&other.mem, &map.ram, 0x8000_0100)?, 2);
    Ok(())
}
