use csr_file::{Csrs, StoredCsr, has_bit, laws, merge};
use csr_table::Csr;
use hart_words::{CsrName, Mode, PmpEntry};
use std::test::Fail;

const ALL: u64 = u64::MAX;

/// What each register reads as after all ones were written to it at reset: its writable bits and
/// its constants. Views of interrupts are empty while nothing is delegated.
#[test]
fn writes_what_is_writable(rt: HostRuntime) -> Result<(), Fail> {
    let cases = [
        (0x300, 0xA_007E_19AA),
        (0x301, 0x8000_0000_0014_1105),
        (0x302, 0xB3FF),
        (0x303, 0x222),
        (0x304, 0xAAA),
        (0x305, ALL - 2),
        (0x306, 7),
        (0x30A, 1),
        (0x320, 5),
        (0x323, 0),
        (0x33F, 0),
        (0x340, ALL),
        (0x341, ALL - 1),
        (0x342, ALL),
        (0x343, ALL),
        (0x344, 0x222),
        (0x100, 0x2_000C_0122),
        (0x104, 0),
        (0x105, ALL - 2),
        (0x106, 7),
        (0x10A, 1),
        (0x140, ALL),
        (0x141, ALL - 1),
        (0x142, ALL),
        (0x143, ALL),
        (0x144, 0),
        (0x180, 0),
        (0x3A0, 0x9F9F_9F9F_9F9F_9F9F),
        (0x3A2, 0x9F9F_9F9F_9F9F_9F9F),
        (0x3B0, 0x3F_FFFF_FFFF_FFFF),
        (0x3BF, 0x3F_FFFF_FFFF_FFFF),
        (0xB00, 0),
    ];
    for (address, wanted) in cases {
        let mut csrs = Csrs::reset();
        csrs.write(address, Mode::Machine, ALL)?;
        let read = csrs.read(address, Mode::Machine, 0)?;
        assert_eq!(rt; read.value, wanted, "{address}");
        assert_eq!(rt; read.base, wanted, "{address}");
    }
    laws::writes_leave_the_rest();
    laws::merges_by_bits();
    laws::locked_entries_stay();
    Ok(())
}

/// Whether a read and a write are lawful at reset, when no counter is enabled.
#[test]
fn asks_for_the_mode(rt: HostRuntime) -> Result<(), Fail> {
    let cases = [
        (0x300, Mode::Machine, true, true),
        (0x300, Mode::Supervisor, false, false),
        (0x100, Mode::Supervisor, true, true),
        (0x100, Mode::User, false, false),
        (0xB00, Mode::Machine, true, true),
        (0xB00, Mode::Supervisor, false, false),
        (0xC00, Mode::Machine, true, false),
        (0xC01, Mode::Supervisor, false, false),
        (0xC02, Mode::User, false, false),
        (0xC03, Mode::Machine, true, false),
        (0xC1F, Mode::Supervisor, false, false),
        (0xF11, Mode::Machine, true, false),
        (0xF15, Mode::Supervisor, false, false),
        (0x180, Mode::Supervisor, true, true),
        (0x180, Mode::User, false, false),
        (0x181, Mode::Machine, false, false),
        (0x3A0, Mode::Machine, true, true),
        (0x3A1, Mode::Machine, false, false),
        (0x3B0, Mode::Supervisor, false, false),
    ];
    for (address, mode, readable, writable) in cases {
        let mut csrs = Csrs::reset();
        assert_eq!(rt; csrs.read(address, mode, 0).is_ok(), readable, "{address}");
        assert_eq!(rt;
            csrs.write(address, mode, ALL).is_ok(),
            writable,
            "{address}"
        );
    }
    Ok(())
}

/// Bit 1 of mcounteren lets S read `time`, and with that of scounteren U too.
#[test]
fn asks_for_the_enables_of_counters(rt: HostRuntime) -> Result<(), Fail> {
    let mut csrs = Csrs::reset();
    csrs.write(0x306, Mode::Machine, 2)?;
    assert_eq!(rt; csrs.read(0xC01, Mode::Supervisor, 0)?.free, ALL);
    assert!(rt; csrs.read(0xC00, Mode::Supervisor, 0).is_err());
    assert!(rt; csrs.read(0xC01, Mode::User, 0).is_err());
    csrs.write(0x106, Mode::Supervisor, 2)?;
    assert_eq!(rt; csrs.read(0xC01, Mode::User, 0)?.free, ALL);
    assert!(rt; csrs.read(0xC02, Mode::User, 0).is_err());
    Ok(())
}

/// Without mcounteren, scounteren alone lets neither U nor S read a counter.
#[test]
fn asks_for_both_enables_in_u(rt: HostRuntime) -> Result<(), Fail> {
    let mut csrs = Csrs::reset();
    csrs.write(0x106, Mode::Supervisor, 7)?;
    for address in [0xC00, 0xC01, 0xC02] {
        assert!(rt; csrs.read(address, Mode::User, 0).is_err(), "{address}");
        assert!(rt;
            csrs.read(address, Mode::Supervisor, 0).is_err(),
            "{address}"
        );
        assert!(rt; csrs.read(address, Mode::Machine, 0).is_ok(), "{address}");
    }
    Ok(())
}

/// Configurations and addresses, one write after another: what is written, and what the register
/// reads as then. Entry 1 is locked and begins at the address of entry 0.
#[test]
fn locks_entries(rt: HostRuntime) -> Result<(), Fail> {
    let cases = [
        (0x3A0, 0xff_ff00_0202, 0x9f_9f00_0000),
        (0x3A0, 0x1f_0003, 0x9f_9f1f_0003),
        (0x3B2, 5, 5),
        (0x3B3, 6, 0),
        (0x3B4, 7, 0),
        (0x3B2, 8, 8),
        (0x3A0, 0x8900, 0x9f_9f00_8900),
        (0x3B0, 9, 0),
        (0x3B1, 9, 0),
        (0x3B2, 9, 9),
        (0x3A0, 0, 0x9f_9f00_8900),
        (0x3A2, 0x8800_0000_0000_0000, 0x8800_0000_0000_0000),
        (0x3BE, 4, 0),
        (0x3BD, 4, 4),
        (0x3A2, ALL, 0x889F_9F9F_9F9F_9F9F),
    ];
    let mut csrs = Csrs::reset();
    for (address, value, wanted) in cases {
        csrs.write(address, Mode::Machine, value)?;
        assert_eq!(rt;
            csrs.read(address, Mode::Machine, 0)?.value,
            wanted,
            "{address}"
        );
    }
    Ok(())
}

/// Writes of satp, one after another: the value, and what the register reads as then. Of its modes
/// the hart has 0 (Bare) and 8 (Sv39).
#[test]
fn keeps_satp_from_other_modes(rt: HostRuntime) -> Result<(), Fail> {
    let cases = [
        (0x0000_0000_0000_0007, 0x0000_0000_0000_0007),
        (0x8FFF_FFFF_FFFF_FFFF, 0x8FFF_FFFF_FFFF_FFFF),
        (0x9000_0000_0000_0001, 0x8FFF_FFFF_FFFF_FFFF),
        (0x8001_0000_0008_0000, 0x8001_0000_0008_0000),
        (0x1000_0000_0000_0000, 0x8001_0000_0008_0000),
        (0xF000_0000_0000_0000, 0x8001_0000_0008_0000),
        (0x0000_0000_0000_0000, 0x0000_0000_0000_0000),
    ];
    let mut csrs = Csrs::reset();
    for (value, wanted) in cases {
        csrs.write(0x180, Mode::Supervisor, value)?;
        let read = csrs.read(0x180, Mode::Supervisor, 0)?;
        assert_eq!(rt;
            (read.value, read.free, read.base),
            (wanted, 0, wanted),
            "{value}"
        );
        assert_eq!(rt; csrs.shown(CsrName::Satp, 0), wanted, "{value}");
    }
    Ok(())
}

/// Whether satp can be accessed: TVM of mstatus bars S alone, and U never can.
#[test]
fn bars_satp_by_tvm(rt: HostRuntime) -> Result<(), Fail> {
    let cases = [
        (0, Mode::Machine, true),
        (0, Mode::Supervisor, true),
        (0, Mode::User, false),
        (1 << 20, Mode::Machine, true),
        (1 << 20, Mode::Supervisor, false),
        (1 << 20, Mode::User, false),
        (!(1 << 20), Mode::Supervisor, true),
    ];
    for (status, mode, open) in cases {
        let mut csrs = Csrs::reset();
        csrs.write(0x300, Mode::Machine, status)?;
        assert_eq!(rt; csrs.read(0x180, mode, 0).is_ok(), open, "{status}");
        assert_eq!(rt; csrs.write(0x180, mode, 5).is_ok(), open, "{status}");
        assert_eq!(rt; csrs.shown(CsrName::Satp, 0) == 5, open, "{status}");
    }
    Ok(())
}

#[test]
fn keeps_mpp_from_2(rt: HostRuntime) -> Result<(), Fail> {
    let mut csrs = Csrs::reset();
    csrs.write(0x300, Mode::Machine, 0x1800)?;
    assert_eq!(rt; csrs.get(StoredCsr::Mstatus), 0xA_0000_1800);
    csrs.write(0x300, Mode::Machine, 0x1008)?;
    assert_eq!(rt; csrs.get(StoredCsr::Mstatus), 0xA_0000_1808);
    csrs.write(0x300, Mode::Machine, 0x800)?;
    assert_eq!(rt; csrs.get(StoredCsr::Mstatus), 0xA_0000_0800);
    Ok(())
}

/// The supervisor's views follow the delegation, and lines stand beside what is stored.
#[test]
fn shows_interrupts(rt: HostRuntime) -> Result<(), Fail> {
    let mut csrs = Csrs::reset();
    let lines = 0xA88;
    assert_eq!(rt; csrs.shown(CsrName::Mip, lines), 0xA88);
    assert_eq!(rt; csrs.shown(CsrName::Sip, lines), 0);
    assert_eq!(rt; csrs.read(0x144, Mode::Supervisor, 0)?.free, 0);

    csrs.write(0x303, Mode::Machine, 0x202)?;
    csrs.write(0x304, Mode::Machine, 0xA00)?;
    csrs.write(0x104, Mode::Supervisor, 2)?;
    csrs.write(0x144, Mode::Supervisor, ALL)?;
    assert_eq!(rt; csrs.shown(CsrName::Mie, 0), 0x802);
    assert_eq!(rt; csrs.shown(CsrName::Sie, 0), 2);
    assert_eq!(rt; csrs.get(StoredCsr::Mip), 2);
    assert_eq!(rt; csrs.pending_interrupts(lines), 0xA8A);
    assert_eq!(rt; csrs.shown(CsrName::Sip, lines), 0x202);

    let mip = csrs.read(0x344, Mode::Machine, 8)?;
    assert_eq!(rt; (mip.value, mip.free, mip.base), (0xA, 0xA88, 2));
    assert_eq!(rt; csrs.read(0x144, Mode::Supervisor, 0)?.free, 0x200);
    csrs.write(0x344, Mode::Machine, 0x200)?;
    assert_eq!(rt; csrs.read(0x344, Mode::Machine, 0)?.free, 0x888);
    assert_eq!(rt; csrs.read(0x144, Mode::Supervisor, 0)?.free, 0);
    Ok(())
}

/// Of sip only SSIP can be written, whatever is delegated; STIP and SEIP stay as M left them.
#[test]
fn writes_sip(rt: HostRuntime) -> Result<(), Fail> {
    let mut csrs = Csrs::reset();
    csrs.write(0x303, Mode::Machine, 0x222)?;
    csrs.write(0x144, Mode::Supervisor, ALL)?;
    assert_eq!(rt; csrs.get(StoredCsr::Mip), 2);
    csrs.write(0x344, Mode::Machine, 0x222)?;
    csrs.write(0x144, Mode::Supervisor, 0)?;
    assert_eq!(rt; csrs.get(StoredCsr::Mip), 0x220);
    assert_eq!(rt; csrs.read(0x144, Mode::Supervisor, 0)?.value, 0x220);
    Ok(())
}

/// Lines that a row shows are taken from no other column; what the core decides always is.
#[test]
fn takes_from_the_row(rt: HostRuntime) -> Result<(), Fail> {
    let mut csrs = Csrs::reset();
    csrs.write(0x303, Mode::Machine, 0x222)?;
    let cases = [
        (Csr::Cycle, 0x888, ALL),
        (Csr::Time, ALL, ALL),
        (Csr::Mcycle, 0x888, ALL),
        (Csr::Mhpmcounter(3), 0x888, ALL),
        (Csr::Hpmcounter(31), 0x888, ALL),
        (Csr::Mhartid, 0x888, ALL),
        (Csr::Mip, 0, 0xA88),
        (Csr::Mip, 0x888, 0x200),
        (Csr::Mip, ALL, 0),
        (Csr::Sip, 0x888, 0x200),
        (Csr::Sip, 0x200, 0),
        (Csr::Mie, 0, 0),
        (Csr::Sie, 0, 0),
        (Csr::Mstatus, 0, 0),
        (Csr::Sstatus, 0, 0),
        (Csr::Misa, 0, 0),
        (Csr::Mhpmevent(3), 0, 0),
        (Csr::Satp, 0, 0),
    ];
    for (csr, shown, wanted) in cases {
        assert_eq!(rt; csrs.adopted_bits(csr, shown), wanted, "{shown}");
    }
    csrs.write(0x344, Mode::Machine, 0x200)?;
    assert_eq!(rt; csrs.adopted_bits(Csr::Mip, 0x888), 0);
    assert_eq!(rt; csrs.adopted_bits(Csr::Mip, 0), 0x888);
    Ok(())
}

#[test]
fn stores_physical_memory_protection(rt: HostRuntime) -> Result<(), Fail> {
    let mut csrs = Csrs::reset();
    assert_eq!(rt; csrs.entries[15].cfg, 0);
    csrs.entries[1].cfg = 0x1F;
    csrs.entries[15] = PmpEntry { cfg: 0x18, addr: 5 };
    csrs.set(StoredCsr::Satp, 7);
    assert_eq!(rt; csrs.shown(CsrName::Pmpcfg0, 0), 0x1F00);
    assert_eq!(rt; csrs.shown(CsrName::Pmpcfg2, 0), 0x18 << 56);
    assert_eq!(rt; csrs.shown(CsrName::Satp, 0), 7);
    let last = csrs.pmp_entries().get(15).copied().ok_or("no entry")?;
    assert_eq!(rt; (last.cfg, last.addr), (0x18, 5));
    Ok(())
}

#[test]
fn merges_bits(rt: HostRuntime) -> Result<(), Fail> {
    assert_eq!(rt; merge(0xF0, 0xABCD, 0x1234), 0xAB3D);
    assert!(rt; has_bit(1 << 63, 63));
    assert!(rt; !has_bit(ALL, 64));
    Ok(())
}
