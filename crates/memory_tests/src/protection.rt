use hart_words::{Access, Mode, PmpEntry};
use pmp_check::allows;
use std::test::Fail;

const NONE: PmpEntry = PmpEntry { cfg: 0, addr: 0 };

/// Entries that start with these three; all others are off.
fn entries(first: PmpEntry, second: PmpEntry, third: PmpEntry) -> [PmpEntry; 16] {
    let mut all = [NONE; 16];
    all[0] = first;
    all[1] = second;
    all[2] = third;
    all
}

/// A region of four bytes without rights decides for M too where it covers a part.
#[test]
fn part_of_an_access(rt: HostRuntime) -> Result<(), Fail> {
    let entry = PmpEntry {
        cfg: 0x10,
        addr: 0x2000_0040,
    };
    let all = entries(entry, NONE, NONE);
    let cases = [
        (Mode::Machine, 0x8000_0100, 8, false),
        (Mode::Machine, 0x8000_0100, 4, true),
        (Mode::User, 0x8000_0100, 4, false),
        (Mode::Machine, 0x8000_0104, 4, true),
        (Mode::Machine, 0x8000_00fc, 8, false),
        (Mode::Supervisor, 0x8000_0104, 4, false),
    ];
    for (mode, pa, len, allowed) in cases {
        assert_eq!(rt; allows(&all, mode, pa, len, Access::Load), allowed);
    }
    Ok(())
}

/// The largest NAPOT register there is covers all of the 56-bit address space.
#[test]
fn all_of_the_address_space(rt: HostRuntime) -> Result<(), Fail> {
    let entry = PmpEntry {
        cfg: 0x1f,
        addr: 0x3f_ffff_ffff_ffff,
    };
    let all = entries(entry, NONE, NONE);
    for pa in [0, 0x8000_0000, 0xff_ffff_ffff_fff8] {
        assert_eq!(rt; allows(&all, Mode::User, pa, 8, Access::Store), true);
    }
    Ok(())
}

/// Each kind at its first and last byte, one byte outside on either side, and across its edges.
#[test]
fn edges(rt: HostRuntime) -> Result<(), Fail> {
    let off = PmpEntry {
        cfg: 7,
        addr: 0x400,
    };
    // From 0x1000, the register of the entry before, which is off, up to 0x2000.
    let range = PmpEntry {
        cfg: 0x0f,
        addr: 0x800,
    };
    // 4 bytes at 0x1000.
    let four = PmpEntry {
        cfg: 0x17,
        addr: 0x400,
    };
    // 8 bytes at 0x1000, and 4,096 bytes at 0x1000.
    let eight = PmpEntry {
        cfg: 0x1f,
        addr: 0x400,
    };
    let page = PmpEntry {
        cfg: 0x1f,
        addr: 0x5ff,
    };
    let cases = [
        (off, range, 0x1000, 0x1fff),
        (off, four, 0x1000, 0x1003),
        (off, eight, 0x1000, 0x1007),
        (off, page, 0x1000, 0x1fff),
        (range, NONE, 0, 0x1fff),
    ];
    for (first, second, low, high) in cases {
        let all = entries(first, second, NONE);
        assert_eq!(rt; allows(&all, Mode::User, low, 1, Access::Fetch), true);
        assert_eq!(rt; allows(&all, Mode::User, high, 1, Access::Fetch), true);
        assert_eq!(rt; allows(&all, Mode::User, high + 1, 1, Access::Fetch), false);
        assert_eq!(rt; allows(&all, Mode::User, high - 1, 2, Access::Fetch), true);
        assert_eq!(rt; allows(&all, Mode::User, high, 2, Access::Fetch), false);
        if low > 0 {
            assert_eq!(rt; allows(&all, Mode::User, low - 1, 1, Access::Fetch), false);
            assert_eq!(rt; allows(&all, Mode::User, low - 1, 2, Access::Fetch), false);
        }
    }
    Ok(())
}

/// The entries that are there decide. Without any everything is allowed.
#[test]
fn fewer_entries(rt: HostRuntime) -> Result<(), Fail> {
    let page = PmpEntry {
        cfg: 0x99,
        addr: 0x5ff,
    };
    let all = entries(NONE, page, NONE);
    let cases = [
        (&all[..0], Mode::User, true),
        (&all[..0], Mode::Machine, true),
        (&all[..1], Mode::User, false),
        (&all[..1], Mode::Machine, true),
        (&all[..2], Mode::Machine, false),
    ];
    for (some, mode, allowed) in cases {
        assert_eq!(rt; allows(some, mode, 0x1000, 8, Access::Store), allowed);
    }
    Ok(())
}

/// Each right for its access alone, a lock that binds M, and an earlier entry over a later one.
#[test]
fn rights_and_order(rt: HostRuntime) -> Result<(), Fail> {
    let page = |cfg: u8| -> PmpEntry { PmpEntry { cfg, addr: 0x5ff } };
    let cases = [
        (0x19, 0, Mode::User, [false, true, false]),
        (0x1b, 0, Mode::Supervisor, [false, true, true]),
        (0x1c, 0, Mode::User, [true, false, false]),
        (0x18, 0, Mode::Machine, [true, true, true]),
        (0x99, 0, Mode::Machine, [false, true, false]),
        (0x18, 0x1f, Mode::User, [false, false, false]),
        (0x1f, 0x98, Mode::Machine, [true, true, true]),
        (0, 0x9c, Mode::Machine, [true, false, false]),
    ];
    for (first, second, mode, [fetch, load, store]) in cases {
        let all = entries(page(first), page(second), NONE);
        assert_eq!(rt; allows(&all, mode, 0x1234, 4, Access::Fetch), fetch);
        assert_eq!(rt; allows(&all, mode, 0x1234, 4, Access::Load), load);
        assert_eq!(rt; allows(&all, mode, 0x1234, 4, Access::Store), store);
    }
    Ok(())
}
