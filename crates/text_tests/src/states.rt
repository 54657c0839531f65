use csr_file::{CsrProfile, EntryCount, StoredCsr};
use hart_words::{Choices, Map, Mode, Span};
use state_text::{FaultKind, MOST_HARTS, Platform, StateError, StateFault, read_state};
use std::alloc::Global;
use std::test::Fail;

/// The lines of the state after the first of two instructions, ADDI x1, x0, 5 and ADDI x1, x1, 1,
/// from 0x80000000 on.
const LINES: [&str; 78] = [
    "rvstate 1",
    "pc 0000000080000004",
    "mode 3",
    "order 0000000000000001",
    "flags 00",
    "reserved none",
    "x1 0000000000000005",
    "x2 0000000000000000",
    "x3 0000000000000000",
    "x4 0000000000000000",
    "x5 0000000000000000",
    "x6 0000000000000000",
    "x7 0000000000000000",
    "x8 0000000000000000",
    "x9 0000000000000000",
    "x10 0000000000000000",
    "x11 0000000000000000",
    "x12 0000000000000000",
    "x13 0000000000000000",
    "x14 0000000000000000",
    "x15 0000000000000000",
    "x16 0000000000000000",
    "x17 0000000000000000",
    "x18 0000000000000000",
    "x19 0000000000000000",
    "x20 0000000000000000",
    "x21 0000000000000000",
    "x22 0000000000000000",
    "x23 0000000000000000",
    "x24 0000000000000000",
    "x25 0000000000000000",
    "x26 0000000000000000",
    "x27 0000000000000000",
    "x28 0000000000000000",
    "x29 0000000000000000",
    "x30 0000000000000000",
    "x31 0000000000000000",
    "csr_mstatus 0000000a00000000",
    "csr_medeleg 0000000000000000",
    "csr_mideleg 0000000000000000",
    "csr_mie 0000000000000000",
    "csr_mtvec 0000000000000000",
    "csr_stvec 0000000000000000",
    "csr_mcounteren 0000000000000000",
    "csr_scounteren 0000000000000000",
    "csr_menvcfg 0000000000000000",
    "csr_senvcfg 0000000000000000",
    "csr_mcountinhibit 0000000000000000",
    "csr_mscratch 0000000000000000",
    "csr_sscratch 0000000000000000",
    "csr_mepc 0000000000000000",
    "csr_sepc 0000000000000000",
    "csr_mcause 0000000000000000",
    "csr_scause 0000000000000000",
    "csr_mtval 0000000000000000",
    "csr_stval 0000000000000000",
    "csr_mip 0000000000000000",
    "csr_satp 0000000000000000",
    "csr_pmpcfg0 0000000000000000",
    "csr_pmpcfg2 0000000000000000",
    "csr_pmpaddr0 0000000000000000",
    "csr_pmpaddr1 0000000000000000",
    "csr_pmpaddr2 0000000000000000",
    "csr_pmpaddr3 0000000000000000",
    "csr_pmpaddr4 0000000000000000",
    "csr_pmpaddr5 0000000000000000",
    "csr_pmpaddr6 0000000000000000",
    "csr_pmpaddr7 0000000000000000",
    "csr_pmpaddr8 0000000000000000",
    "csr_pmpaddr9 0000000000000000",
    "csr_pmpaddr10 0000000000000000",
    "csr_pmpaddr11 0000000000000000",
    "csr_pmpaddr12 0000000000000000",
    "csr_pmpaddr13 0000000000000000",
    "csr_pmpaddr14 0000000000000000",
    "csr_pmpaddr15 0000000000000000",
    "@0000000080000000 93005000938010000000000000000000",
    "end",
];

/// The lines of the first block and of the end.
pub(crate) const BLOCK: usize = 77;

pub(crate) const END: usize = 78;

pub(crate) fn map() -> Result<Map, Fail> {
    let ram = Span::new(0x8000_0000, 0x1_0000).ok_or("no range")?;
    Ok(Map::new(ram, None).ok_or("no map")?)
}

pub(crate) fn platform() -> Result<Platform, Fail> {
    Ok(Platform {
        profile: CsrProfile::plain(),
        map: map()?,
        choices: Choices::plain(),
    })
}

/// The text with another text in place of one line and its line feed.
pub(crate) fn text_with(alloc: Global, line: usize, other: &str) -> Result<Vec<u8>, Fail> {
    let mut text = Vec::new(alloc);
    let mut number = 0usize;
    for old in &LINES {
        number = number.wrapping_add(1);
        if number == line {
            text.extend_from_slice(other.as_bytes())?;
        } else {
            text.extend_from_slice(old.as_bytes())?;
            text.push(b'\n')?;
        }
    }
    Ok(text)
}

/// The text of two harts: a line that counts them, the lines of the hart twice, with another text
/// in place of one line of the second, and the lines of memory.
pub(crate) fn text_of_two(
    alloc: Global,
    count: &str,
    line: usize,
    other: &str,
) -> Result<Vec<u8>, Fail> {
    let mut text = Vec::new(alloc);
    text.extend_from_slice(b"rvstate 1\n")?;
    text.extend_from_slice(count.as_bytes())?;
    for hart in 0..2usize {
        for (place, old) in LINES.iter().enumerate() {
            if place == 0 || place >= BLOCK.wrapping_sub(1) {
                continue;
            }
            if hart == 1 && place.wrapping_add(1) == line {
                text.extend_from_slice(other.as_bytes())?;
            } else {
                text.extend_from_slice(old.as_bytes())?;
                text.push(b'\n')?;
            }
        }
    }
    text.extend_from_slice(b"@0000000080000000 93005000938010000000000000000000\nend\n")?;
    Ok(text)
}

/// The fault of a text that is to be of so many harts.
fn fault_of(alloc: Global, text: &[u8], harts: u32) -> Result<Option<StateFault>, Fail> {
    fault_on(alloc, &platform()?, text, harts)
}

/// The same on a platform.
fn fault_on(
    alloc: Global,
    platform: &Platform,
    text: &[u8],
    harts: u32,
) -> Result<Option<StateFault>, Fail> {
    if harts == 0 || harts > MOST_HARTS {
        return Ok(None);
    }
    match read_state(alloc, text, platform, harts) {
        Err(StateError::Fault(fault)) => Ok(Some(fault)),
        _ => Ok(None),
    }
}

/// The fault of the text with another line.
fn fault_with(alloc: Global, line: usize, other: &str) -> Result<Option<StateFault>, Fail> {
    let text = text_with(alloc, line, other)?;
    fault_of(alloc, text.as_slice(), 1)
}

#[test]
fn a_state_after_one_row(rt: HostRuntime) -> Result<(), Fail> {
    let text = text_with(rt.alloc(), 0, "")?;
    let state = read_state(rt.alloc(), text.as_slice(), &platform()?, 1)?;
    assert_eq!(rt; state.cores.len(), 1);
    let core = &state.cores[0];
    assert_eq!(rt; core.pc, 0x8000_0004);
    assert_eq!(rt; core.mode, Mode::Machine);
    assert_eq!(rt; core.next_order, Some(1));
    assert!(rt; !core.trapped_last);
    assert!(rt; !core.halted);
    assert!(rt; core.reservation.block.is_none());
    assert_eq!(rt; core.registers.get(1), 5);
    assert_eq!(rt; core.registers.get(2), 0);
    assert_eq!(rt; core.csrs.get(StoredCsr::Mstatus), 0xa_0000_0000);
    for (address, byte) in [
        (0x7fff_ffff, None),
        (0x8000_0000, Some(0x93)),
        (0x8000_0002, Some(0x50)),
        (0x8000_0006, Some(0x10)),
        (0x8000_000f, Some(0x00)),
        (0x8000_0010, None),
    ] {
        assert_eq!(rt; state.pieces.byte(address), byte);
    }
    Ok(())
}

#[test]
fn each_number_has_its_place(rt: HostRuntime) -> Result<(), Fail> {
    for (line, other, stored, value) in [
        (39, "csr_medeleg 0000000000000001\n", StoredCsr::Medeleg, 1),
        (43, "csr_stvec 0000000000000101\n", StoredCsr::Stvec, 0x101),
        (
            45,
            "csr_scounteren 0000000000000007\n",
            StoredCsr::Scounteren,
            7,
        ),
        (
            48,
            "csr_mcountinhibit 0000000000000005\n",
            StoredCsr::Mcountinhibit,
            5,
        ),
        (
            52,
            "csr_sepc fffffffffffffffe\n",
            StoredCsr::Sepc,
            u64::MAX - 1,
        ),
        (57, "csr_mip 0000000000000222\n", StoredCsr::Mip, 0x222),
        (
            58,
            "csr_satp 8000000000000123\n",
            StoredCsr::Satp,
            0x8000_0000_0000_0123,
        ),
    ] {
        let text = text_with(rt.alloc(), line, other)?;
        let state = read_state(rt.alloc(), text.as_slice(), &platform()?, 1)?;
        assert_eq!(rt; state.cores[0].csrs.get(stored), value);
    }
    let text = text_with(rt.alloc(), 60, "csr_pmpcfg2 000000000000991f\n")?;
    let state = read_state(rt.alloc(), text.as_slice(), &platform()?, 1)?;
    assert_eq!(rt; state.cores[0].csrs.entries[8].cfg, 0x1f);
    assert_eq!(rt; state.cores[0].csrs.entries[9].cfg, 0x99);
    let text = text_with(rt.alloc(), 76, "csr_pmpaddr15 003fffffffffffff\n")?;
    let state = read_state(rt.alloc(), text.as_slice(), &platform()?, 1)?;
    assert_eq!(rt; state.cores[0].csrs.entries[15].addr, 0x3f_ffff_ffff_ffff);
    Ok(())
}

#[test]
fn lines_that_are_not_of_the_form(rt: HostRuntime) -> Result<(), Fail> {
    let kind = FaultKind::BadLine;
    for (line, other) in [
        (1, "rvstate 1\r\n"),
        (2, "pc 000000008000000A\n"),
        (2, "pc 00000000080000004\n"),
        (2, "PC 0000000080000004\n"),
        (3, "mode 2\n"),
        (4, "order 1\n"),
        (5, "flags 02\n"),
        (6, "reserved 0x80000040\n"),
        (7, "x2 0000000000000005\n"),
        (38, ""),
        (76, "csr_pmpaddr15 00000000000000000\n"),
        (
            BLOCK,
            "@0000000080000000 00000000000000000000000000000000\n",
        ),
        (
            BLOCK,
            "@0000000080000008 93005000938010000000000000000000\n",
        ),
        (
            BLOCK,
            "@0000000080000000 9300500093801000000000000000000A\n",
        ),
        (BLOCK, "@80000000 93005000938010000000000000000000\n"),
        (END, ""),
        (END, "end"),
        (END, "end\r\n"),
    ] {
        let wanted = StateFault::InLine {
            kind,
            line: line as u64,
        };
        assert_eq!(rt; fault_with(rt.alloc(), line, other)?, Some(wanted));
    }
    let after = StateFault::InLine { kind, line: 79 };
    assert_eq!(rt; fault_with(rt.alloc(), END, "end\n\n")?, Some(after));
    assert_eq!(rt; fault_with(rt.alloc(), END, "end\nend\n")?, Some(after));
    let again = "@0000000080000000 ffffffffffffffffffffffffffffffff\nend\n";
    let second = StateFault::InLine { kind, line: 78 };
    assert_eq!(rt; fault_with(rt.alloc(), END, again)?, Some(second));
    Ok(())
}

/// What a number can be follows what the core makes of its registers: how many entries of physical
/// memory protection it has, and with how many bits; which bits a write changes; and which are 1.
#[test]
fn values_of_a_core(rt: HostRuntime) -> Result<(), Fail> {
    let plain = CsrProfile::plain();
    let few = CsrProfile {
        entry_count: EntryCount::Eight,
        ..plain
    };
    let short = CsrProfile {
        entry_bits: 10,
        ..plain
    };
    let narrow = plain.with_bits(StoredCsr::Medeleg, 0, 0);
    let fixed = plain.with_bits(StoredCsr::Menvcfg, 0, 0x80);
    let cases: [(CsrProfile, usize, &str, bool); 10] = [
        (few, 59, "csr_pmpcfg0 1f00000000000000\n", true),
        (few, 60, "csr_pmpcfg2 000000000000001f\n", false),
        (few, 68, "csr_pmpaddr7 003fffffffffffff\n", true),
        (few, 69, "csr_pmpaddr8 0000000000000001\n", false),
        (short, 61, "csr_pmpaddr0 00000000000003ff\n", true),
        (short, 61, "csr_pmpaddr0 0000000000000400\n", false),
        (narrow, 39, "csr_medeleg 0000000000000000\n", true),
        (narrow, 39, "csr_medeleg 0000000000000001\n", false),
        (fixed, 46, "csr_menvcfg 0000000000000080\n", true),
        (fixed, 46, "csr_menvcfg 0000000000000000\n", false),
    ];
    for (profile, line, other, is_read) in cases {
        let platform = Platform {
            profile,
            ..platform()?
        };
        let text = text_with(rt.alloc(), line, other)?;
        let refused = StateFault::InLine {
            kind: FaultKind::BadValue,
            line: line as u64,
        };
        let wanted = if is_read { None } else { Some(refused) };
        assert_eq!(rt;
            fault_on(rt.alloc(), &platform, text.as_slice(), 1)?,
            wanted,
            "{other}"
        );
    }
    Ok(())
}

#[test]
fn values_that_no_hart_has(rt: HostRuntime) -> Result<(), Fail> {
    for (line, other) in [
        (2, "pc 0000000080000005\n"),
        (6, "reserved 0000000080000020\n"),
        (6, "reserved 0000000000000020\n"),
        (38, "csr_mstatus 0000000000000000\n"),
        (38, "csr_mstatus 0000000a00001000\n"),
        (38, "csr_mstatus 0000000a00000001\n"),
        (39, "csr_medeleg 0000000000000400\n"),
        (42, "csr_mtvec 0000000000000002\n"),
        (51, "csr_mepc 0000000000000001\n"),
        (57, "csr_mip 0000000000000008\n"),
        (58, "csr_satp 9000000000000000\n"),
        (59, "csr_pmpcfg0 0000000000200000\n"),
        (59, "csr_pmpcfg0 0000000000000002\n"),
        (61, "csr_pmpaddr0 0040000000000000\n"),
    ] {
        let wanted = StateFault::InLine {
            kind: FaultKind::BadValue,
            line: line as u64,
        };
        assert_eq!(rt; fault_with(rt.alloc(), line, other)?, Some(wanted));
    }
    Ok(())
}

#[test]
fn blocks_outside_ram(rt: HostRuntime) -> Result<(), Fail> {
    for (line, other) in [
        (6, "reserved 0000000000000000\n"),
        (6, "reserved 0000000080010000\n"),
        (
            BLOCK,
            "@0000000080010000 93005000938010000000000000000000\n",
        ),
        (
            BLOCK,
            "@fffffffffffffff0 93005000938010000000000000000000\n",
        ),
    ] {
        let wanted = StateFault::InLine {
            kind: FaultKind::OutsideRam,
            line: line as u64,
        };
        assert_eq!(rt; fault_with(rt.alloc(), line, other)?, Some(wanted));
    }
    Ok(())
}

#[test]
fn lines_that_may_stand_there(rt: HostRuntime) -> Result<(), Fail> {
    for (line, other) in [
        (3, "mode 0\n"),
        (3, "mode 1\n"),
        (4, "order none\n"),
        (5, "flags 11\n"),
        (6, "reserved 000000008000ffc0\n"),
        (38, "csr_mstatus 0000000a00001800\n"),
        (BLOCK, ""),
        (
            END,
            "@000000008000fff0 00000000000000000000000000000001\nend\n",
        ),
    ] {
        assert_eq!(rt; fault_with(rt.alloc(), line, other)?, None);
    }
    Ok(())
}

#[test]
fn texts_of_faults(rt: HostRuntime) -> Result<(), Fail> {
    for (kind, text) in [
        (FaultKind::BadLine, "line 3: bad line"),
        (FaultKind::BadValue, "line 3: bad value"),
        (FaultKind::OutsideRam, "line 3: outside RAM"),
    ] {
        let fault = StateFault::InLine { kind, line: 3 };
        let written = format!(in rt.alloc(); "{fault}")?;
        assert_eq!(rt; written.as_str(), text);
    }
    let fault = StateFault::WrongHarts;
    let written = format!(in rt.alloc(); "{fault}")?;
    assert_eq!(rt; written.as_str(), "wrong number of harts");
    Ok(())
}

#[test]
fn a_state_of_two_harts(rt: HostRuntime) -> Result<(), Fail> {
    let text = text_of_two(rt.alloc(), "harts 2\n", 2, "pc 0000000080000008\n")?;
    let state = read_state(rt.alloc(), text.as_slice(), &platform()?, 2)?;
    assert_eq!(rt; state.cores.len(), 2);
    assert_eq!(rt; state.cores[0].pc, 0x8000_0004);
    assert_eq!(rt; state.cores[1].pc, 0x8000_0008);
    assert_eq!(rt; state.cores[1].registers.get(1), 5);
    assert_eq!(rt; state.pieces.byte(0x8000_0002), Some(0x50));
    Ok(())
}

/// A fault of the second hart has the number of its own line.
#[test]
fn faults_of_the_second_hart(rt: HostRuntime) -> Result<(), Fail> {
    for (line, other, kind) in [
        (2, "pc 0000000080000005\n", FaultKind::BadValue),
        (3, "mode 2\n", FaultKind::BadLine),
        (6, "reserved 0000000080010000\n", FaultKind::OutsideRam),
        (76, "", FaultKind::BadLine),
    ] {
        let text = text_of_two(rt.alloc(), "harts 2\n", line, other)?;
        let wanted = StateFault::InLine {
            kind,
            line: (line as u64).wrapping_add(76),
        };
        assert_eq!(rt; fault_of(rt.alloc(), text.as_slice(), 2)?, Some(wanted));
    }
    Ok(())
}

/// Second lines, a number of harts that is asked for, and whether they say another.
const SAID: [(&str, u32, bool); 16] = [
    ("harts 0\n", 1, true),
    ("harts 2\n", 1, true),
    ("harts 9\n", 1, true),
    ("harts 18446744073709551617\n", 1, true),
    ("harts 1\n", 1, false),
    ("harts 02\n", 1, false),
    ("harts x\n", 1, false),
    ("harts \n", 1, false),
    ("harts 2 \n", 1, false),
    ("", 2, true),
    ("harts 1\n", 2, true),
    ("harts 02\n", 2, true),
    ("harts 3\n", 2, true),
    ("harts 22\n", 2, true),
    ("harts 2\r\n", 2, true),
    ("harts 2\n", 2, false),
];

#[test]
fn numbers_of_harts_that_are_said(rt: HostRuntime) -> Result<(), Fail> {
    let wrong = Some(StateFault::WrongHarts);
    for (count, harts, is_wrong) in SAID {
        let text = text_of_two(rt.alloc(), count, 0, "")?;
        let fault = fault_of(rt.alloc(), text.as_slice(), harts)?;
        assert_eq!(rt; fault == wrong, is_wrong, "{count}");
        if harts == 1 && !is_wrong {
            let kind = FaultKind::BadLine;
            assert_eq!(rt; fault, Some(StateFault::InLine { kind, line: 2 }));
        }
    }
    Ok(())
}

/// The number is looked at before all else, and its line need not end.
#[test]
fn numbers_of_harts_come_first(rt: HostRuntime) -> Result<(), Fail> {
    let kind = FaultKind::BadLine;
    let first = Some(StateFault::InLine { kind, line: 1 });
    let second = Some(StateFault::InLine { kind, line: 2 });
    let wrong = Some(StateFault::WrongHarts);
    let texts: [(&[u8], u32, Option<StateFault>); 10] = [
        (b"", 1, first),
        (b"", 2, wrong),
        (b"rvstate 1", 1, first),
        (b"rvstate 1\n", 1, second),
        (b"rvstate 2\nharts 2\n", 1, wrong),
        (b"rvstate 2\nharts 2\n", 2, first),
        (b"rvstate 1\nharts 2", 1, wrong),
        (b"rvstate 1\nharts 2", 2, second),
        (b"\nharts 3", 2, wrong),
        (b"harts 2\nrvstate 1\n", 1, first),
    ];
    for (text, harts, fault) in texts {
        assert_eq!(rt; fault_of(rt.alloc(), text, harts)?, fault);
    }
    Ok(())
}
