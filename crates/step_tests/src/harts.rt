//! Harts that share a memory: what a store of one takes from the others.

ghost use Rattle.std.specs.Prelude.{◌≤◌, IfOk};
ghost use Rattle.hart_step.specs.Cores.{IsSound};
ghost use Rattle.hart_step.specs.Meanings.{core_meaning};
ghost use Rattle.hart_set.specs.Calls.{CanStep};

use crate::tests::{CODE, DATA, GIVEN, memory_with, put, ram_and_devices};
use hart_set::HartSet;
use hart_step::Core;
use hart_words::Choices;
use page_layers::MapMem;
use rvfi_rows::{Row, Stepped, read_header, read_row};
use std::alloc::Global;
use std::test::Fail;

/// LR.D x12, (x13), at `CODE`.
const LR: u64 = 0x1006_b62f;

/// SD x11, 0(x10), after it.
const SD: u64 = 0x00b5_3023;

const HEADER: &[u8] = b"insn,pc_rdata,mem_addr,mem_wmask,mem_wdata";

fn row_of(alloc: Global, line: &[u8]) -> Result<Row, Fail> {
    let columns = read_header(alloc, HEADER)?;
    let row = read_row(alloc, &columns, line, 0, 1)?.ok_or("the row is valid")?;
    Ok(row)
}

/// So many harts before a store to an address, each with the block about `DATA` reserved.
fn harts_before_store(
    alloc: Global,
    harts: u32,
    address: u64,
) -> Result<HartSet<Core, MapMem>, Fail>
    requires { 1 ≤ harts }
    ensures { IfOk result (λ set.
        CanStep core_meaning IsSound set.mem.ram set.cores.items) }
{
    let map = ram_and_devices()?;
    let mut mem = memory_with(alloc, map.ram, LR)?;
    put(&mut mem, &map.ram, CODE + 4, 4, SD)?;
    let mut core = Core::reset(CODE, map, Choices::plain());
    core.registers.set(10, address);
    core.registers.set(11, GIVEN);
    core.registers.set(13, DATA);
    core.step_into(&mut mem, &row_of(alloc, b"0,0,,,")?, &mut Stepped::halted())?;
    Ok(HartSet::reset(alloc, core, harts, mem)?)
}

/// Whether the hart of a number has a reservation.
fn has_reserved(set: &HartSet<Core, MapMem>, number: usize) -> Result<bool, Fail> {
    let core = set.cores.get(number).ok_or("no such hart")?;
    Ok(core.reservation.block.is_some())
}

/// Stores inside the block of 64 bytes and beside it, and the rows that show them.
const STORES: [(u64, &[u8], bool); 4] = [
    (
        0x8000_1000,
        b"0x00b53023,0x80000004,0x80001000,0xff,0x1122334455667788",
        false,
    ),
    (
        0x8000_1038,
        b"0x00b53023,0x80000004,0x80001038,0xff,0x1122334455667788",
        false,
    ),
    (
        0x8000_1040,
        b"0x00b53023,0x80000004,0x80001040,0xff,0x1122334455667788",
        true,
    ),
    (
        0x8000_0ff8,
        b"0x00b53023,0x80000004,0x80000ff8,0xff,0x1122334455667788",
        true,
    ),
];

/// A store takes the reservations of the other harts in whose blocks it lies, and not that of its
/// own; what is taken from a plain row is the same.
#[test]
fn stores_take_reservations(rt: HostRuntime) -> Result<(), Fail> {
    let alloc = rt.alloc();
    for (address, line, kept) in STORES {
        let row = row_of(alloc, line)?;
        let mut set = harts_before_store(alloc, 3, address)?;
        let mut taken = set.copy()?;
        assert!(rt; set.same_but_memory(&taken));
        assert!(rt; set.is_plain(&row));
        let wrote = set.step(&row)?.wrote.as_slice().len();
        assert_eq!(rt; wrote, 1);
        assert_eq!(rt; has_reserved(&set, 0)?, true, "{address}");
        assert_eq!(rt; has_reserved(&set, 1)?, kept, "{address}");
        assert_eq!(rt; has_reserved(&set, 2)?, kept, "{address}");
        assert!(rt; !set.same_but_memory(&taken));
        taken.take_shown(&row)?;
        assert!(rt; set.same_but_memory(&taken), "{address}");
    }
    Ok(())
}

/// With one hart a set does what the hart does alone.
#[test]
fn one_hart_keeps_its_reservation(rt: HostRuntime) -> Result<(), Fail> {
    let alloc = rt.alloc();
    let mut set = harts_before_store(alloc, 1, DATA)?;
    let two = harts_before_store(alloc, 2, DATA)?;
    assert!(rt; !set.same_but_memory(&two));
    set.step(&row_of(alloc, b"0,0,,,")?)?;
    assert!(rt; has_reserved(&set, 0)?);
    Ok(())
}
