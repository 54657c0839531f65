use csr_file::{Csrs, StoredCsr};
use hart_words::Mode;
use interrupt_pick::{laws, pick};
use std::test::Fail;

const LINES: u64 = 0xA88;

/// Which interrupt is taken, by the mode, mstatus, mie, mideleg, and the lines.
#[test]
fn picks_by_priority(rt: HostRuntime) -> Result<(), Fail> {
    let (user, supervisor, machine) = (Mode::User, Mode::Supervisor, Mode::Machine);
    let cases = [
        (user, 0, 0x280, 0x200, 0x280, Some((7, machine))),
        (user, 0, 0x280, 0x200, 0x200, Some((9, supervisor))),
        (user, 0, 0xAAA, 0, LINES, Some((11, machine))),
        (user, 0, 0x0AA, 0, LINES, Some((3, machine))),
        (user, 0, 0x222, 0x222, 0, None),
        (user, 0, 0, 0, LINES, None),
        (machine, 0, 0xAAA, 0, LINES, None),
        (machine, 8, 0xAAA, 0, LINES, Some((11, machine))),
        (machine, 0xA, 0x200, 0x200, LINES, None),
        (supervisor, 0, 0x200, 0x200, LINES, None),
        (supervisor, 8, 0x200, 0x200, LINES, None),
        (supervisor, 2, 0x200, 0x200, LINES, Some((9, supervisor))),
        (supervisor, 0, 0x200, 0, LINES, Some((9, machine))),
        (user, 0, 0xAAA, 0, 0x40, None),
    ];
    for (mode, status, enabled, delegated, lines, wanted) in cases {
        let mut csrs = Csrs::reset();
        csrs.set(StoredCsr::Mstatus, 0xA_0000_0000 | status);
        csrs.set(StoredCsr::Mie, enabled);
        csrs.set(StoredCsr::Mideleg, delegated);
        assert_eq!(rt; pick(&csrs, mode, lines), wanted, "{enabled} {lines}");
    }
    Ok(())
}

/// Interrupts that are stored in mip: SEI, then SSI, then STI.
#[test]
fn picks_what_is_stored(rt: HostRuntime) -> Result<(), Fail> {
    for (stored, code) in [(0x222, 9), (0x022, 1), (0x020, 5)] {
        let mut csrs = Csrs::reset();
        csrs.set(StoredCsr::Mie, 0x222);
        csrs.set(StoredCsr::Mip, stored);
        assert_eq!(rt; pick(&csrs, Mode::User, 0), Some((code, Mode::Machine)));
    }
    laws::picks_are_taken();
    laws::picks_are_where_entered();
    Ok(())
}
