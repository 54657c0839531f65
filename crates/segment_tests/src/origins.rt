ghost use Rattle.std.specs.Prelude.{◌≡◌, ◌+◌, ◌≤◌, ◌^◌, [], IfOk};
ghost use Rattle.std.specs.List.{All};
ghost use Rattle.hart_words.specs.declared.accesses.Read.{Read};
ghost use Rattle.hart_words.specs.declared.accesses.Write.{Write};
ghost use Rattle.row_origin.specs.Last.{CountsFrom, IsNarrow};

use hart_words::{Cause, InsnBits, Mode, NoMemory, Read, Registers, Seen, Write, Wrote};
use row_origin::{Last, Origins};
use rvfi_rows::{Accessed, Effects, Expected, Retired, Stepped};
use std::alloc::Global;
use std::process::Abort;
use std::test::Fail;

/// A register or an address, and the row that wrote it.
type Origin = (u64, Option<u64>);

fn retired(effects: Result<Effects, Cause>) -> Expected {
    Expected::Retired(Retired {
        order: None,
        lacks_interrupt: false,
        pc: 0x8000_0000,
        mode: Mode::Machine,
        insn: Some(0x13),
        insn_bits: InsnBits::Full,
        effects,
        csrs: None,
        lines: 0,
    })
}

fn effects(rs1: u8, rs2: u8, rd: u8, access: Option<Accessed>) -> Effects {
    Effects {
        registers: Registers::zeros(),
        rs1,
        rs2,
        rd,
        rd_value: 7,
        next_pc: 0x8000_0004,
        access,
    }
}

/// A step that reads two registers and writes one.
fn sum(rs1: u8, rs2: u8, rd: u8) -> Stepped
    ensures seen { result.seen ≡ [] }
    ensures wrote { result.wrote ≡ [] }
{
    Stepped {
        expected: retired(Ok(effects(rs1, rs2, rd, None))),
        seen: Seen::empty(),
        wrote: Wrote::empty(),
    }
}

/// A step that takes a trap.
fn trap() -> Stepped
    ensures seen { result.seen ≡ [] }
{
    Stepped {
        expected: retired(Err(Cause::LoadPageFault)),
        seen: Seen::empty(),
        wrote: Wrote::empty(),
    }
}

/// A step that stores.
fn store(pa: u64, len: u8) -> Stepped
    requires { pa + len ≤ 2 ^ 56 }
    ensures seen { result.seen ≡ [] }
    ensures wrote { All (λ (write : Write). IsNarrow write.pa write.len) result.wrote }
{
    let mut wrote = Wrote::empty();
    wrote.put(pa, len, 0);
    Stepped {
        expected: retired(Ok(effects(1, 2, 0, None))),
        seen: Seen::empty(),
        wrote,
    }
}

/// A step that loads from an address, and reads so at last.
fn load(va: u64, pa: u64, len: u8, first: Read, second: Read) -> Stepped
    requires first { IsNarrow first.pa first.len }
    requires second { IsNarrow second.pa second.len }
    ensures { All (λ (read : Read). IsNarrow read.pa read.len) result.seen }
{
    let mut seen = Seen::empty();
    seen.put(first.pa, first.len);
    seen.put(second.pa, second.len);
    let access = Accessed {
        va,
        pa,
        len,
        read: Some(0),
        written: None,
    };
    Stepped {
        expected: retired(Ok(effects(0, 0, 5, Some(access)))),
        seen,
        wrote: Wrote::empty(),
    }
}

/// Whether the registers of origins are these.
fn has_registers(rt: &impl Abort, origins: &Origins, wanted: &[Origin]) {
    assert_eq!(rt; origins.registers().len(), wanted.len());
    for index in 0..wanted.len() {
        let found = origins
            .registers()
            .get(index)
            .map(|origin| (u64::from(origin.number), origin.row));
        assert_eq!(rt; found, Some(wanted[index]), "the register {index}");
    }
}

/// Whether the bytes of origins are these.
fn has_bytes(rt: &impl Abort, origins: &Origins, wanted: &[Origin]) {
    assert_eq!(rt; origins.bytes().len(), wanted.len());
    for index in 0..wanted.len() {
        let found = origins
            .bytes()
            .get(index)
            .map(|origin| (origin.address, origin.row));
        assert_eq!(rt; found, Some(wanted[index]), "the byte {index}");
    }
}

const FETCH: Read = Read {
    pa: 0x8000_1000,
    len: 2,
};

#[test]
fn registers_of_two_harts(rt: HostRuntime) -> Result<(), Fail> {
    let mut last = Last::empty(rt.alloc());
    last.add(&sum(1, 2, 5), 0, 1)?;
    last.add(&sum(1, 2, 5), 0, 2)?;
    last.add(&sum(1, 2, 5), 1, 4)?;
    last.add(&sum(1, 2, 0), 0, 5)?;
    last.add(&sum(1, 2, 31), 1, 6)?;
    has_registers(
        &rt,
        &last.of(&sum(5, 31, 0), 0),
        &[(5, Some(2)), (31, None)],
    );
    has_registers(
        &rt,
        &last.of(&sum(31, 5, 0), 1),
        &[(31, Some(6)), (5, Some(4))],
    );
    has_registers(&rt, &last.of(&sum(5, 5, 0), 0), &[(5, Some(2))]);
    has_registers(&rt, &last.of(&sum(0, 5, 0), 0), &[(5, Some(2))]);
    has_registers(&rt, &last.of(&sum(0, 0, 5), 0), &[]);
    has_registers(&rt, &last.of(&sum(5, 31, 0), 7), &[(5, None), (31, None)]);
    has_registers(&rt, &last.of(&trap(), 0), &[]);
    has_registers(&rt, &last.of(&Stepped::halted(), 0), &[]);
    Ok(())
}

#[test]
fn bytes_of_stores(rt: HostRuntime) -> Result<(), Fail> {
    let mut last = Last::empty(rt.alloc());
    last.add(&store(0x8000_203c, 8), 0, 1)?;
    last.add(&store(0x8000_203e, 1), 1, 2)?;
    let at = 0x8000_203b;
    let read = Read { pa: at, len: 8 };
    let wanted: [Origin; 8] = [
        (at, None),
        (at + 1, Some(1)),
        (at + 2, Some(1)),
        (at + 3, Some(2)),
        (at + 4, Some(1)),
        (at + 5, Some(1)),
        (at + 6, Some(1)),
        (at + 7, Some(1)),
    ];
    has_bytes(&rt, &last.of(&load(at, at, 8, FETCH, read), 0), &wanted);
    let next = Read {
        pa: 0x8000_2043,
        len: 2,
    };
    let after = load(0x1043, 0x8000_2043, 2, FETCH, next);
    has_bytes(
        &rt,
        &last.of(&after, 1),
        &[(0x8000_2043, Some(1)), (0x8000_2044, None)],
    );
    let device = load(0x1000_0000, 0x1000_0000, 2, FETCH, FETCH);
    has_bytes(&rt, &last.of(&device, 0), &[]);
    has_bytes(&rt, &last.of(&store(0x8000_203c, 8), 0), &[]);
    Ok(())
}

#[test]
fn two_pages(rt: HostRuntime) -> Result<(), Fail> {
    let mut last = Last::empty(rt.alloc());
    last.add(&store(0x8000_3001, 2), 0, 3)?;
    last.add(&store(0x8000_9ffe, 2), 0, 4)?;
    let first = Read {
        pa: 0x8000_9ffe,
        len: 2,
    };
    let second = Read {
        pa: 0x8000_3000,
        len: 2,
    };
    let wanted: [Origin; 4] = [
        (0x8000_3000, None),
        (0x8000_3001, Some(3)),
        (0x8000_9ffe, Some(4)),
        (0x8000_9fff, Some(4)),
    ];
    let row = load(0x4000_0ffe, 0x8000_9ffe, 4, first, second);
    has_bytes(&rt, &last.of(&row, 0), &wanted);
    Ok(())
}

/// The last writers of three rows.
fn later_rows(alloc: Global) -> Result<Last, NoMemory>
    ensures { IfOk result (λ last. CountsFrom 3 last) }
{
    let mut last = Last::empty(alloc);
    last.add(&sum(1, 2, 6), 0, 1)?;
    last.add(&sum(1, 2, 5), 1, 2)?;
    last.add(&store(0x8000_2002, 1), 0, 3)?;
    Ok(last)
}

#[test]
fn later_rows_over_others(rt: HostRuntime) -> Result<(), Fail> {
    let mut last = Last::empty(rt.alloc());
    last.add(&sum(1, 2, 5), 0, 1)?;
    last.add(&sum(1, 2, 6), 0, 2)?;
    last.add(&store(0x8000_2000, 8), 0, 3)?;
    let later = later_rows(rt.alloc())?;
    last.lay_over(&later, 3)?;
    has_registers(
        &rt,
        &last.of(&sum(5, 6, 0), 0),
        &[(5, Some(1)), (6, Some(4))],
    );
    has_registers(&rt, &last.of(&sum(5, 6, 0), 1), &[(5, Some(5)), (6, None)]);
    let read = Read {
        pa: 0x8000_2001,
        len: 2,
    };
    let row = load(0x2001, 0x8000_2001, 2, FETCH, read);
    has_bytes(
        &rt,
        &last.of(&row, 0),
        &[(0x8000_2001, Some(3)), (0x8000_2002, Some(6))],
    );
    Ok(())
}
