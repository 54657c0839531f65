//! Joins where a guess differs in the page tables that a later row walks.

ghost use Rattle.std.specs.Prelude.{IfOk};
ghost use Rattle.hart_step.specs.HartSets.{SetCanStep};

use super::joining::{
    BELOW, CODE, DATA, HELD, Rows, agrees, core_at_reset, harts_of, join_each, trace_of, trial_of,
    write,
};
use hart_step::Harts;
use hart_words::Mode;
use page_layers::MapMem;
use std::alloc::Global;
use std::test::Fail;

/// The first page table; the one below it is at `BELOW`.
const ROOT: u64 = 0x8000_2000;

/// An entry of a page table that is valid, may be read, written and executed, has A and D, and is
/// of the page at `CODE`.
const LEAF: u64 = (CODE >> 12) << 10 | 0xcf;

/// ADDI x5, x11, 0; SD x5, 0(x10); ADDI x5, x0, 1; LD x6, 0(x12).
const MAPS: [u32; 4] = [0x0005_8293, 0x0055_3023, 0x0010_0293, 0x0006_3303];

/// In S, by page tables that map the first 2 MiB from `CODE` on to themselves, where an entry of
/// protection grants all. x10 has the place of the next entry, which is not valid yet, x11 what is
/// stored there, and x12 an address that it will map to `DATA`.
fn translating_hart(alloc: Global) -> Result<Harts<MapMem>, Fail>
    ensures { IfOk result (SetCanStep (λ mem. mem.ram)) }
{
    let numbers = [
        (ROOT + 16, 8, (BELOW >> 12) << 10 | 0x01),
        (BELOW, 8, LEAF),
        (DATA, 8, HELD),
    ];
    let mut core = core_at_reset()?;
    core.registers.set(10, BELOW + 8);
    core.registers.set(11, LEAF);
    core.registers.set(12, DATA + 0x20_0000);
    // pmpaddr0, pmpcfg0, and satp with Sv39 as its MODE.
    write(&mut core, 0x3b0, 0x3f_ffff_ffff_ffff)?;
    write(&mut core, 0x3a0, 0x1f)?;
    write(&mut core, 0x180, 8 << 60 | ROOT >> 12)?;
    core.mode = Mode::Supervisor;
    harts_of(alloc, core, 1, &MAPS, &numbers)
}

/// Where the first row does not show x5, the guess before the last has no entry where the load
/// walks.
#[test]
fn walks_page_tables_again(rt: HostRuntime) -> Result<(), Fail> {
    let alloc = rt.alloc();
    let firsts: [(&[u8], u32); 2] = [
        (b"0x00058293,0x80000000,5,0x200000cf", 0),
        (b"0x00058293,0x80000000,,", 1),
    ];
    'firsts: for (first, rejudged) in firsts {
        let rows: [&[u8]; 4] = [
            first,
            b"0x00553023,0x80000004,,",
            b"0x00100293,0x80000008,5,1",
            b"0x00063303,0x8000000c,6,0x8899aabbccddeeff",
        ];
        let rows: Rows = (b"insn,pc_rdata,rd_addr,rd_wdata", &rows, 3);
        let trial = trial_of(
            alloc,
            translating_hart(alloc)?,
            trace_of(alloc, &rows)?,
            &[],
        )?;
        assert_eq!(rt; join_each(&rt, alloc, &trial)?, (agrees(4), 2, rejudged));
    }
    Ok(())
}
