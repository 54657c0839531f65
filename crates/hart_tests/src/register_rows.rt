use csr_table::{Csr, CsrRow, laws, row};
use std::test::Fail;

/// Addresses at the edges of the table, from the standard's listing.
#[test]
fn names_registers(rt: HostRuntime) -> Result<(), Fail> {
    let cases = [
        (0x300, Csr::Mstatus, 3, false),
        (0x100, Csr::Sstatus, 1, false),
        (0x180, Csr::Satp, 1, false),
        (0x33F, Csr::Mhpmevent(31), 3, false),
        (0x344, Csr::Mip, 3, false),
        (0x3A0, Csr::Pmpcfg0, 3, false),
        (0x3A2, Csr::Pmpcfg2, 3, false),
        (0x3B0, Csr::Pmpaddr(0), 3, false),
        (0x3BF, Csr::Pmpaddr(15), 3, false),
        (0xB02, Csr::Minstret, 3, false),
        (0xB03, Csr::Mhpmcounter(3), 3, false),
        (0xC00, Csr::Cycle, 0, true),
        (0xC1F, Csr::Hpmcounter(31), 0, true),
        (0xF14, Csr::Mhartid, 3, true),
    ];
    for (address, csr, least_mode, read_only) in cases {
        let wanted = CsrRow {
            least_mode,
            read_only,
            csr,
        };
        assert_eq!(rt; row(address), Some(wanted));
    }
    laws::no_address_is_listed_twice();
    Ok(())
}

#[test]
fn leaves_out_what_is_no_register(rt: HostRuntime) -> Result<(), Fail> {
    for address in [
        0x000, 0x181, 0x3A1, 0x3A3, 0x3A4, 0x3AF, 0x3C0, 0x3EF, 0x321, 0x322, 0xB01, 0xC20, 0xF16,
        0xFFF,
    ] {
        assert_eq!(rt; row(address), None);
    }
    Ok(())
}
