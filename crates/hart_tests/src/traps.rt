use csr_file::{Csrs, StoredCsr};
use hart_words::Mode;
use std::test::Fail;
use trap_entry::{enter, laws, mret, sret};

const CONSTANTS: u64 = 0xA_0000_0000;

/// An illegal instruction in M with interrupts enabled goes to the base, although mtvec has mode 1.
#[test]
fn enters_machine(rt: HostRuntime) -> Result<(), Fail> {
    let mut csrs = Csrs::reset();
    csrs.set(StoredCsr::Mtvec, 0x8000_0101);
    csrs.set(StoredCsr::Medeleg, 0xB3FF);
    csrs.set(StoredCsr::Mstatus, CONSTANTS + 0x8);
    let entered = enter(&mut csrs, Mode::Machine, false, 2, 0x13, 0x8000_0004, false);
    assert_eq!(rt; entered, (Mode::Machine, 0x8000_0100));
    assert_eq!(rt; csrs.get(StoredCsr::Mepc), 0x8000_0004);
    assert_eq!(rt; csrs.get(StoredCsr::Mcause), 2);
    assert_eq!(rt; csrs.get(StoredCsr::Mtval), 0x13);
    assert_eq!(rt; csrs.get(StoredCsr::Mstatus), CONSTANTS + 0x1880);
    assert_eq!(rt; mret(&mut csrs), (Mode::Machine, 0x8000_0004));
    assert_eq!(rt; csrs.get(StoredCsr::Mstatus), CONSTANTS + 0x88);
    Ok(())
}

/// A call from U goes to S where bit 8 of medeleg is set; bit 8 of mideleg has no say.
#[test]
fn enters_supervisor(rt: HostRuntime) -> Result<(), Fail> {
    let mut csrs = Csrs::reset();
    csrs.set(StoredCsr::Stvec, 0x8000_2000);
    csrs.set(StoredCsr::Medeleg, 0x100);
    csrs.set(StoredCsr::Mstatus, CONSTANTS + 0x2);
    let entered = enter(&mut csrs, Mode::User, false, 8, 0, 0x1000, false);
    assert_eq!(rt; entered, (Mode::Supervisor, 0x8000_2000));
    assert_eq!(rt; csrs.get(StoredCsr::Sepc), 0x1000);
    assert_eq!(rt; csrs.get(StoredCsr::Scause), 8);
    assert_eq!(rt; csrs.get(StoredCsr::Stval), 0);
    assert_eq!(rt; csrs.get(StoredCsr::Mepc), 0);
    assert_eq!(rt; csrs.get(StoredCsr::Mstatus), CONSTANTS + 0x20);
    assert_eq!(rt; sret(&mut csrs), (Mode::User, 0x1000));
    assert_eq!(rt; csrs.get(StoredCsr::Mstatus), CONSTANTS + 0x22);

    let again = enter(&mut csrs, Mode::Supervisor, false, 8, 0, 0x1000, false);
    assert_eq!(rt; again.0, Mode::Supervisor);
    assert_eq!(rt; csrs.get(StoredCsr::Mstatus), CONSTANTS + 0x120);

    csrs.set(StoredCsr::Medeleg, 0);
    csrs.set(StoredCsr::Mideleg, 0x222);
    let entered = enter(&mut csrs, Mode::User, false, 9, 0, 0x1000, false);
    assert_eq!(rt; entered.0, Mode::Machine);
    Ok(())
}

/// Interrupts of S from U, where they are delegated: at the base in mode 0 of stvec, and with four
/// times the code in mode 1. Both put 0 into stval and leave the registers of M alone.
#[test]
fn enters_supervisor_by_an_interrupt(rt: HostRuntime) -> Result<(), Fail> {
    let cases = [
        (0x8000_2000, 1, 0x8000_2000),
        (0x8000_2000, 9, 0x8000_2000),
        (0x8000_2001, 1, 0x8000_2004),
        (0x8000_2001, 5, 0x8000_2014),
        (0x8000_2001, 9, 0x8000_2024),
    ];
    for (stvec, cause, handler) in cases {
        let mut csrs = Csrs::reset();
        csrs.set(StoredCsr::Stvec, stvec);
        csrs.set(StoredCsr::Mtvec, 0x8000_4001);
        csrs.set(StoredCsr::Mideleg, 0x222);
        csrs.set(StoredCsr::Stval, 0x55);
        csrs.set(StoredCsr::Mstatus, CONSTANTS + 0x102);
        let entered = enter(&mut csrs, Mode::User, true, cause, 0, 0x1000, false);
        assert_eq!(rt; entered, (Mode::Supervisor, handler));
        assert_eq!(rt; csrs.get(StoredCsr::Sepc), 0x1000);
        assert_eq!(rt; csrs.get(StoredCsr::Scause), (1 << 63) + u64::from(cause));
        assert_eq!(rt; csrs.get(StoredCsr::Stval), 0);
        assert_eq!(rt; csrs.get(StoredCsr::Mstatus), CONSTANTS + 0x20);
        assert_eq!(rt; csrs.get(StoredCsr::Mcause), 0);
    }
    Ok(())
}

/// Page faults that are delegated put the trap value into stval, or 0 where every trap value is 0,
/// and go to the base in mode 1 too.
#[test]
fn puts_the_trap_value_into_stval(rt: HostRuntime) -> Result<(), Fail> {
    let cases = [
        (Mode::User, 12, 0x4000_0002, false, 0x4000_0002, 0x20),
        (Mode::User, 12, 0x4000_0002, true, 0, 0x20),
        (
            Mode::User,
            13,
            0x7FFF_FFFF_FFFF_FFFF,
            false,
            0x7FFF_FFFF_FFFF_FFFF,
            0x20,
        ),
        (
            Mode::Supervisor,
            15,
            0xFFFF_FFFF_FFFF_F001,
            false,
            0xFFFF_FFFF_FFFF_F001,
            0x120,
        ),
        (Mode::Supervisor, 15, 0xFFFF_FFFF_FFFF_F001, true, 0, 0x120),
    ];
    for (mode, cause, tval, zero, kept, status) in cases {
        let mut csrs = Csrs::reset();
        csrs.set(StoredCsr::Stvec, 0x8000_2001);
        csrs.set(StoredCsr::Medeleg, 0xB000);
        csrs.set(StoredCsr::Mstatus, CONSTANTS + 0x2);
        let entered = enter(&mut csrs, mode, false, cause, tval, 0x1000, zero);
        assert_eq!(rt; entered, (Mode::Supervisor, 0x8000_2000));
        assert_eq!(rt; csrs.get(StoredCsr::Stval), kept);
        assert_eq!(rt; csrs.get(StoredCsr::Scause), u64::from(cause));
        assert_eq!(rt; csrs.get(StoredCsr::Mtval), 0);
        assert_eq!(rt; csrs.get(StoredCsr::Mstatus), CONSTANTS + status);
    }
    Ok(())
}

/// In mode 1 of the vector an interrupt adds four times its code, modulo 2^64.
#[test]
fn enters_by_the_vector(rt: HostRuntime) -> Result<(), Fail> {
    let cases = [
        (0x8000_1001, true, 7, 0x8000_101C),
        (0x8000_1000, true, 7, 0x8000_1000),
        (0x8000_1001, false, 7, 0x8000_1000),
        (u64::MAX - 2, true, 11, 0x28),
    ];
    for (tvec, interrupt, cause, handler) in cases {
        let mut csrs = Csrs::reset();
        csrs.set(StoredCsr::Mtvec, tvec);
        let entered = enter(&mut csrs, Mode::Supervisor, interrupt, cause, 0, 0, false);
        assert_eq!(rt; entered, (Mode::Machine, handler));
        let bit = if interrupt { 1 << 63 } else { 0 };
        assert_eq!(rt; csrs.get(StoredCsr::Mcause), u64::from(cause) | bit);
        assert_eq!(rt; csrs.get(StoredCsr::Mstatus), CONSTANTS + 0x800);
    }
    Ok(())
}

/// MPRV stays only on a return to M.
#[test]
fn clears_mprv(rt: HostRuntime) -> Result<(), Fail> {
    let cases = [
        (0x2_0000, Mode::User, 0x80),
        (0x2_0880, Mode::Supervisor, 0x88),
        (0x2_1800, Mode::Machine, 0x2_0080),
    ];
    for (status, mode, after) in cases {
        let mut csrs = Csrs::reset();
        csrs.set(StoredCsr::Mstatus, CONSTANTS | status);
        assert_eq!(rt; mret(&mut csrs), (mode, 0));
        assert_eq!(rt; csrs.get(StoredCsr::Mstatus), CONSTANTS | after);
    }
    let mut csrs = Csrs::reset();
    csrs.set(StoredCsr::Mstatus, CONSTANTS + 0x2_0100);
    assert_eq!(rt; sret(&mut csrs), (Mode::Supervisor, 0));
    assert_eq!(rt; csrs.get(StoredCsr::Mstatus), CONSTANTS + 0x20);
    laws::the_rest_stays();
    laws::the_stack_of_mstatus();
    laws::returns_undo_entries();
    laws::traps_never_lower_the_mode();
    Ok(())
}
