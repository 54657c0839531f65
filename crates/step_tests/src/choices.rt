//! Single steps under the choices of an implementation: misaligned accesses that the hart carries
//! out, A and D that it sets, and trap values of 0.

ghost use Rattle.std.specs.Prelude.{◌≡◌, IfOk};
ghost use Rattle.hart_step.specs.Cores.{IsSound};
ghost use Rattle.hart_step.specs.HartSets.{SetCanStep};
ghost use Rattle.page_layers.specs.Memories.{map_bytes, map_bytes-fits, HasPage};

use crate::modes::{open_csrs, write_all};
use crate::tests::{CODE, DATA, GIVEN, HELD, core_of, one_hart, put, retirement_of};
use csr_file::StoredCsr;
use hart_step::{Core, Harts};
use hart_words::{
    Cause, Choices, Map, Marks, Misaligned, Mode, NoMemory, PAGE_SIZE, PhysMem, Span, TrapValues,
    Write,
};
use page_layers::MapMem;
use rvfi_rows::{Row, Stepped, read_header, read_row};
use std::alloc::Global;
use std::test::Fail;

/// The root of the page tables, with a leaf of 1 GiB for `CODE` and one for `DATA_AGAIN`. Both lead
/// to the pages from `CODE` on.
const ROOT: u64 = 0x8000_2000;

const CODE_LEAF: u64 = ROOT + 8 * 2;

const DATA_LEAF: u64 = ROOT + 8 * 3;

/// The first address past RAM.
const PAST: u64 = 0x8000_3000;

/// The page number of `CODE` in a leaf.
const PAGES: u64 = 0x8_0000 << 10;

/// `DATA` by the second leaf.
const DATA_AGAIN: u64 = 0xc000_1000;

/// satp with Sv39, and its address.
const TABLES: u64 = 8 << 60 | ROOT >> 12;

const SATP: u16 = 0x180;

/// What a leaf has: that it is valid, R, W, X, A and D.
const V: u64 = 1;

const R: u64 = 1 << 1;

const W: u64 = 1 << 2;

const X: u64 = 1 << 3;

const A: u64 = 1 << 6;

const D: u64 = 1 << 7;

/// LD and LH x12, 0(x10); SD and SW x11, 0(x10).
const LD: u64 = 0x0005_3603;

const LH: u64 = 0x0005_1603;

const SD: u64 = 0x00b5_3023;

const SW: u64 = 0x00b5_2023;

/// LR.D x12, (x10); SC.D and AMOADD.D x12, x11, (x10).
const LR: u64 = 0x1005_362f;

const SC: u64 = 0x18b5_362f;

const AMOADD: u64 = 0x00b5_362f;

/// A row that shows nothing of use.
fn blank(alloc: Global) -> Result<Row, Fail> {
    let columns = read_header(alloc, b"insn,pc_rdata")?;
    Ok(read_row(alloc, &columns, b"0,0", 0, 1)?.ok_or("the row is valid")?)
}

/// Three pages of RAM.
fn three_pages() -> Result<Map, Fail> {
    let ram = Span::new(CODE, 0x3000).ok_or("no range")?;
    Ok(Map::new(ram, None).ok_or("no map")?)
}

/// An instruction at `CODE`, and `HELD` at `DATA`.
fn memory_of(alloc: Global, ram: Span, instruction: u64) -> Result<MapMem, Fail>
    ensures { IfOk result (λ mem. mem.ram ≡ ram) }
{
    let mut mem = MapMem::zeros(alloc, ram);
    put(&mut mem, &ram, CODE, 4, instruction)?;
    put(&mut mem, &ram, DATA, 8, HELD)?;
    Ok(mem)
}

/// The same with two leaves.
fn memory_with_leaves(
    alloc: Global,
    ram: Span,
    instruction: u64,
    leaves: (u64, u64),
) -> Result<MapMem, Fail>
    ensures { IfOk result (λ mem. mem.ram ≡ ram) }
{
    let mut mem = memory_of(alloc, ram, instruction)?;
    put(&mut mem, &ram, CODE_LEAF, 8, PAGES | leaves.0)?;
    put(&mut mem, &ram, DATA_LEAF, 8, PAGES | leaves.1)?;
    Ok(mem)
}

/// The number of 8 bytes at an address.
fn number<M: PhysMem>(mem: &M, ram: &Span, pa: u64) -> Result<u64, Fail>
    requires ram { M.ram mem.now ≡ ram.now }
{
    if !ram.is_place(pa, 8) {
        return Err(Fail::from("no place of RAM"));
    }
    Ok(mem.read(pa, 8))
}

/// A hart at `CODE` in M, with an address in x10 and `GIVEN` in x11.
fn core_with(map: Map, choices: Choices, address: u64) -> Core
    ensures sound { IsSound result }
    ensures map { result.map ≡ map }
{
    let mut core = Core::reset(CODE, map, choices);
    core.registers.set(10, address);
    core.registers.set(11, GIVEN);
    core
}

/// What a step wrote to rd, or the cause of its trap.
fn outcome(step: &Stepped) -> Option<Result<u64, Cause>> {
    match retirement_of(step)?.effects {
        Ok(effects) => Some(Ok(effects.rd_value)),
        Err(cause) => Some(Err(cause)),
    }
}

/// What an instruction gives in M, and the numbers before and at `DATA` after it.
fn result_in_machine_mode(
    alloc: Global,
    misaligned: Misaligned,
    instruction: u64,
    address: u64,
) -> Result<(Option<Result<u64, Cause>>, u64, u64), Fail> {
    let map = three_pages()?;
    let choices = Choices::new(misaligned, TrapValues::Value, Marks::Fault, 64, false).ok_or(
        "no choices",
    )?;
    let mem = memory_of(alloc, map.ram, instruction)?;
    let mut hart = one_hart(alloc, core_with(map, choices, address), mem)?;
    let step = hart.step(&blank(alloc)?)?;
    let before = number(&hart.mem, &map.ram, DATA - 8)?;
    Ok((outcome(&step), before, number(&hart.mem, &map.ram, DATA)?))
}

/// Where the hart carries them out, misaligned loads and stores run over the end of a page, but not
/// over that of RAM; atomic ones trap all the same.
#[test]
fn carries_out_misaligned_accesses(rt: HostRuntime) -> Result<(), Fail> {
    let done = Misaligned::Done;
    let stored_trap = Err(Cause::StoreAddressMisaligned);
    let cases = [
        (
            done,
            SD,
            DATA - 3,
            Ok(0),
            0x6677_8800_0000_0000,
            0x8899_aa11_2233_4455,
        ),
        (
            done,
            SW,
            DATA - 2,
            Ok(0),
            0x7788_0000_0000_0000,
            0x8899_aabb_ccdd_5566,
        ),
        (done, SD, DATA + 1, Ok(0), 0, 0x2233_4455_6677_88ff),
        (done, SD, DATA, Ok(0), 0, GIVEN),
        (Misaligned::Trap, SD, DATA - 3, stored_trap, 0, HELD),
        (done, SD, PAST - 3, Err(Cause::StoreAccessFault), 0, HELD),
        (done, SD, CODE - 3, Err(Cause::StoreAccessFault), 0, HELD),
        (done, SC, DATA + 4, stored_trap, 0, HELD),
        (done, AMOADD, DATA - 4, stored_trap, 0, HELD),
        (done, LD, DATA - 3, Ok(0xbbcc_ddee_ff00_0000), 0, HELD),
        (done, LH, DATA - 1, Ok(0xffff_ffff_ffff_ff00), 0, HELD),
        (done, LD, DATA + 3, Ok(0x0000_0088_99aa_bbcc), 0, HELD),
        (
            done,
            LR,
            DATA + 4,
            Err(Cause::LoadAddressMisaligned),
            0,
            HELD,
        ),
    ];
    for (misaligned, instruction, address, want, before, held) in cases {
        let found = result_in_machine_mode(rt.alloc(), misaligned, instruction, address)?;
        assert_eq!(rt;
            found,
            (Some(want), before, held),
            "{instruction} at {address}"
        );
    }
    Ok(())
}

/// A memory that refuses writes to one page.
#[derive(Drop)]
struct Refusing {
    mem: MapMem,
    page: u64,
}

impl PhysMem for Refusing {
    ghost bytes = { λ memory. map_bytes memory.mem };

    ghost ram = { λ memory. memory.mem.ram };

    ghost is_ready = { λ memory page. HasPage memory.mem page × (page ≡ memory.page → ⊥) };

    ghost bytes_are_bytes = { λ memory. map_bytes-fits memory.mem };

    fn read(&self, pa: u64, len: u8) -> u64 {
        self.mem.read(pa, len)
    }

    fn write(&mut self, pa: u64, len: u8, value: u64) -> Result<(), NoMemory> {
        if pa / PAGE_SIZE == self.page {
            return Err(NoMemory);
        }
        self.mem.write(pa, len, value)
    }

    fn ready(&mut self, pa: u64) -> Result<(), NoMemory> {
        if pa / PAGE_SIZE == self.page {
            return Err(NoMemory);
        }
        self.mem.ready(pa)
    }

    fn copy(&self) -> Result<Refusing, NoMemory> {
        Ok(Refusing {
            mem: self.mem.copy()?,
            page: self.page,
        })
    }
}

/// A hart in S whose accesses are translated, with an address in x10.
fn translating_hart<M: PhysMem + Drop>(
    alloc: Global,
    mem: M,
    map: Map,
    choices: Choices,
    address: u64,
) -> Result<Harts<M>, Fail>
    requires ram { M.ram mem ≡ map.ram }
    ensures can { IfOk result (SetCanStep M.ram) }
    ensures ram { IfOk result (λ harts. M.ram harts.mem ≡ map.ram) }
{
    let mut core = core_with(map, choices, address);
    let mut csrs = open_csrs();
    write_all(&mut csrs, &[(SATP, TABLES)])?;
    core.csrs = csrs;
    core.mode = Mode::Supervisor;
    one_hart(alloc, core, mem)
}

/// Of several writes none is made where memory refuses one: neither the parts of a number nor the
/// entries that are set before it, and the hart stays as it was.
#[test]
fn writes_all_or_nothing(rt: HostRuntime) -> Result<(), Fail> {
    let alloc = rt.alloc();
    let choices = Choices::new(Misaligned::Done, TrapValues::Value, Marks::Set, 64, false).ok_or(
        "no choices",
    )?;
    let map = three_pages()?;
    let leaves = (V | R | X, V | R | W);
    for refused in [CODE, DATA, ROOT] {
        let mem = Refusing {
            mem: memory_with_leaves(alloc, map.ram, SD, leaves)?,
            page: refused / PAGE_SIZE,
        };
        let mut hart = translating_hart(alloc, mem, map, choices, DATA_AGAIN - 3)?;
        let before = hart.copy()?;
        assert!(rt; hart.step(&blank(alloc)?).is_err(), "{refused}");
        assert!(rt; hart.same_but_memory(&before));
        let wanted = [
            (DATA - 8, 0),
            (DATA, HELD),
            (CODE_LEAF, PAGES | V | R | X),
            (DATA_LEAF, PAGES | V | R | W),
        ];
        for (pa, want) in wanted {
            assert_eq!(rt; number(&hart.mem, &map.ram, pa)?, want, "{pa}");
        }
    }
    Ok(())
}

/// What an instruction gives in S, what it writes, and both leaves and the number at `DATA` after
/// it.
type Translated = (Option<Result<u64, Cause>>, usize, (u64, u64), u64);

fn result_in_supervisor_mode(
    alloc: Global,
    marks: Marks,
    instruction: u64,
    address: u64,
    leaves: (u64, u64),
) -> Result<Translated, Fail> {
    let map = three_pages()?;
    let choices = Choices::new(Misaligned::Trap, TrapValues::Value, marks, 64, false).ok_or(
        "no choices",
    )?;
    let mem = memory_with_leaves(alloc, map.ram, instruction, leaves)?;
    let mut hart = translating_hart(alloc, mem, map, choices, address)?;
    let step = hart.step(&blank(alloc)?)?;
    let one = number(&hart.mem, &map.ram, CODE_LEAF)? & 0xff;
    let other = number(&hart.mem, &map.ram, DATA_LEAF)? & 0xff;
    let count = step.wrote.as_slice().len();
    Ok((
        outcome(&step),
        count,
        (one, other),
        number(&hart.mem, &map.ram, DATA)?,
    ))
}

/// A fetch and an access set entries of page tables in one row, and these stay set where the
/// instruction traps and where an SC fails.
#[test]
fn sets_entries(rt: HostRuntime) -> Result<(), Fail> {
    let code = V | R | X;
    let all = V | R | W | X;
    let data = V | R | W;
    let (fault, set) = (Marks::Fault, Marks::Set);
    let page_fault = Err(Cause::StorePageFault);
    let cases = [
        (
            set,
            SD,
            DATA_AGAIN,
            (code, data),
            Ok(0),
            3,
            (code | A, data | A | D),
            GIVEN,
        ),
        (
            set,
            SD,
            DATA,
            (all, data),
            Ok(0),
            3,
            (all | A | D, data),
            GIVEN,
        ),
        (
            set,
            LD,
            DATA_AGAIN,
            (code, data),
            Ok(HELD),
            2,
            (code | A, data | A),
            HELD,
        ),
        (
            set,
            SC,
            DATA_AGAIN,
            (code, data),
            Ok(1),
            2,
            (code | A, data | A | D),
            HELD,
        ),
        (
            set,
            SD,
            DATA_AGAIN,
            (code, V | R),
            page_fault,
            1,
            (code | A, V | R),
            HELD,
        ),
        (
            set,
            LD,
            DATA_AGAIN,
            (code | A, data | A),
            Ok(HELD),
            0,
            (code | A, data | A),
            HELD,
        ),
        (
            fault,
            SD,
            DATA_AGAIN,
            (code | A, data | A),
            page_fault,
            0,
            (code | A, data | A),
            HELD,
        ),
        (
            fault,
            SD,
            DATA_AGAIN,
            (code, data),
            Err(Cause::InstructionPageFault),
            0,
            (code, data),
            HELD,
        ),
    ];
    for (marks, instruction, address, leaves, want, count, after, held) in cases {
        let found = result_in_supervisor_mode(rt.alloc(), marks, instruction, address, leaves)?;
        assert_eq!(rt;
            found,
            (Some(want), count, after, held),
            "{instruction} at {address}"
        );
    }
    Ok(())
}

/// The entries come before the number, each as it was set.
#[test]
fn writes_in_order(rt: HostRuntime) -> Result<(), Fail> {
    let alloc = rt.alloc();
    let map = three_pages()?;
    let choices = Choices::new(Misaligned::Trap, TrapValues::Value, Marks::Set, 64, false).ok_or(
        "no choices",
    )?;
    let leaf = PAGES | V | R | W | X;
    let mem = memory_with_leaves(alloc, map.ram, SD, (V | R | W | X, 0))?;
    let mut hart = translating_hart(alloc, mem, map, choices, DATA)?;
    let step = hart.step(&blank(alloc)?)?;
    let wanted = [
        Write {
            pa: CODE_LEAF,
            len: 8,
            value: leaf | A,
        },
        Write {
            pa: CODE_LEAF,
            len: 8,
            value: leaf | A | D,
        },
        Write {
            pa: DATA,
            len: 8,
            value: GIVEN,
        },
    ];
    assert_eq!(rt; step.wrote.as_slice(), wanted.as_slice());
    Ok(())
}

/// The trap value of an instruction that traps in M.
fn trap_value(
    alloc: Global,
    trap_values: TrapValues,
    instruction: u64,
    address: u64,
) -> Result<u64, Fail> {
    let map = three_pages()?;
    let choices = Choices::new(Misaligned::Trap, trap_values, Marks::Fault, 64, false).ok_or(
        "no choices",
    )?;
    let mem = memory_of(alloc, map.ram, instruction)?;
    let mut hart = one_hart(alloc, core_with(map, choices, address), mem)?;
    let _step = hart.step(&blank(alloc)?)?;
    Ok(core_of(&hart)?.csrs.get(StoredCsr::Mtval))
}

#[test]
fn leaves_trap_values_0(rt: HostRuntime) -> Result<(), Fail> {
    let cases = [
        (TrapValues::Value, SD, DATA + 4, DATA + 4),
        (TrapValues::Zero, SD, DATA + 4, 0),
        (TrapValues::Value, 0xffff_ffff, 0, 0xffff_ffff),
        (TrapValues::Zero, 0xffff_ffff, 0, 0),
    ];
    for (trap_values, instruction, address, want) in cases {
        let found = trap_value(rt.alloc(), trap_values, instruction, address)?;
        assert_eq!(rt; found, want, "{instruction} with {trap_values:?}");
    }
    Ok(())
}
