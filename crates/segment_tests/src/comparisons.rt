use csr_file::profile::OptionalCsr;
use csr_file::{CsrProfile, Csrs, EntryCount, Presence, StoredCsr};
use hart_words::{Cause, CsrName, CsrSide, Difference, InsnBits, Mode, Registers, Signal};
use row_compare::first_difference;
use rvfi_rows::{Accessed, CsrsAround, Effects, Expected, Retired, read_header, read_row};
use std::alloc::Global;
use std::process::Abort;
use std::test::Fail;

/// Columns beside `insn` and `pc_rdata`, what a row shows in them, and the signal that differs,
/// with the values expected and found.
type Case<'a> = (&'a str, &'a str, Option<(Signal, u64, u64)>);

/// The first difference of a row in which `insn` and `pc_rdata` are as expected.
fn difference_in(
    alloc: Global,
    expected: &Expected,
    columns: &str,
    fields: &str,
) -> Result<Option<Difference>, Fail> {
    let header = format!(in alloc; "insn,pc_rdata,{columns}")?;
    let line = format!(in alloc; "0x13,0x80000000,{fields}")?;
    let columns = read_header(alloc, header.as_bytes())?;
    let row = read_row(alloc, &columns, line.as_bytes(), 0, 1)?.ok_or("the row is valid")?;
    Ok(first_difference(expected, &row))
}

fn differs(
    rt: &impl Abort,
    alloc: Global,
    expected: &Expected,
    cases: &[Case],
) -> Result<(), Fail> {
    for (columns, fields, difference) in cases {
        let expected_signal = difference.map(|(signal, expected, found)| Difference {
            signal,
            expected,
            found,
        });
        let found = difference_in(alloc, expected, *columns, *fields)?;
        assert_eq!(rt; found, expected_signal, "{columns}: {fields}");
    }
    Ok(())
}

/// An instruction in S-mode that reads x1 and writes x3, or one that traps.
fn retirement_with(effects: Result<Effects, Cause>) -> Retired {
    Retired {
        order: Some(5),
        lacks_interrupt: true,
        pc: 0x8000_0000,
        mode: Mode::Supervisor,
        insn: Some(0x13),
        insn_bits: InsnBits::Full,
        effects,
        csrs: around(Csrs::reset(), Csrs::reset()),
        lines: 0,
    }
}

fn around(before: Csrs, after: Csrs) -> Option<CsrsAround> {
    Some(CsrsAround { before, after })
}

fn effects(access: Option<Accessed>) -> Effects {
    let mut registers = Registers::zeros();
    registers.set(1, 0x11);
    registers.set(2, 0x22);
    Effects {
        registers,
        rs1: 1,
        rs2: 0,
        rd: 3,
        rd_value: 7,
        next_pc: 0x8000_0004,
        access,
    }
}

fn with_access(access: Option<Accessed>) -> Expected {
    Expected::Retired(retirement_with(Ok(effects(access))))
}

#[test]
fn loads(rt: HostRuntime) -> Result<(), Fail> {
    let load = with_access(Some(Accessed {
        va: 0x8000_0103,
        pa: 0x9000_0103,
        len: 1,
        read: Some(0x80),
        written: None,
    }));
    let cases: [Case; 16] = [
        ("mem_addr,mem_rmask,mem_rdata", "0x80000103,1,0x80", None),
        (
            "mem_addr,mem_rmask,mem_rdata",
            "0x80000100,8,0x80000000",
            None,
        ),
        ("mem_addr,mem_rmask", "0x800000fc,0x80", None),
        (
            "mem_addr,mem_rmask",
            "0x800000fb,0",
            Some((Signal::MemAddr, 0x8000_0103, 0x8000_00fb)),
        ),
        (
            "mem_addr",
            "0x80000104",
            Some((Signal::MemAddr, 0x8000_0103, 0x8000_0104)),
        ),
        (
            "mem_addr,mem_rmask,mem_rdata",
            "0x80000100,0x0f,0x80112233",
            None,
        ),
        ("mem_addr,mem_rmask", "0x80000100,0xff", None),
        (
            "mem_addr,mem_rmask",
            "0x80000100,0xf7",
            Some((Signal::MemRmask, 8, 0)),
        ),
        (
            "mem_addr,mem_rdata",
            "0x80000100,0x7f112233",
            Some((Signal::MemRdata, 0x8000_0000, 0x7f00_0000)),
        ),
        ("mem_rmask,mem_rdata", "0,0", None),
        ("mem_wmask", "0", None),
        ("mem_wmask", "1", Some((Signal::MemWmask, 0, 1))),
        (
            "mem_addr,mem_wmask",
            "0x80000103,1",
            Some((Signal::MemWmask, 0, 1)),
        ),
        ("mem_addr,mem_paddr", "0x80000100,0x90000100", None),
        (
            "mem_addr,mem_paddr",
            "0x80000100,0x90000103",
            Some((Signal::MemPaddr, 0x9000_0100, 0x9000_0103)),
        ),
        (
            "mem_paddr",
            "0x90000100",
            Some((Signal::MemPaddr, 0x9000_0103, 0x9000_0100)),
        ),
    ];
    differs(&rt, rt.alloc(), &load, &cases)
}

#[test]
fn stores(rt: HostRuntime) -> Result<(), Fail> {
    let alloc = rt.alloc();
    let whole = with_access(Some(Accessed {
        va: 0x8000_0200,
        pa: 0x8000_0200,
        len: 8,
        read: None,
        written: Some(0x1122_3344_5566_7788),
    }));
    let cases: [Case; 5] = [
        (
            "mem_addr,mem_wmask,mem_wdata",
            "0x80000200,0xff,0x1122334455667788",
            None,
        ),
        (
            "mem_addr,mem_wmask",
            "0x80000200,0x7f",
            Some((Signal::MemWmask, 0xff, 0x7f)),
        ),
        (
            "mem_addr,mem_wdata",
            "0x80000200,0x22334455667788",
            Some((Signal::MemWdata, 0x1122_3344_5566_7788, 0x22_3344_5566_7788)),
        ),
        (
            "mem_wmask,mem_wdata,mem_rmask,mem_paddr",
            "1,2,3,0x80000200",
            None,
        ),
        (
            "mem_wmask,mem_paddr",
            "1,0x80000201",
            Some((Signal::MemPaddr, 0x8000_0200, 0x8000_0201)),
        ),
    ];
    differs(&rt, alloc, &whole, &cases)?;
    // An AMO of 4 bytes that reads and writes.
    let both = with_access(Some(Accessed {
        va: 0x8000_0204,
        pa: 0x8000_0204,
        len: 4,
        read: Some(0x8000_0001),
        written: Some(0xffff_ffff_0000_0002),
    }));
    let cases: [Case; 4] = [
        (
            "mem_addr,mem_rmask,mem_wmask,mem_rdata,mem_wdata",
            "0x80000200,0xff,0xf0,0x8000000100000000,0x2ffffffff",
            None,
        ),
        (
            "mem_addr,mem_wmask,mem_rmask",
            "0x80000200,0xff,0xff",
            Some((Signal::MemWmask, 0xf0, 0xff)),
        ),
        (
            "mem_addr,mem_wmask,mem_rmask",
            "0x80000204,0,0xf0",
            Some((Signal::MemRmask, 0x0f, 0)),
        ),
        (
            "mem_addr,mem_wdata,mem_rdata",
            "0x80000204,3,0x80000001",
            Some((Signal::MemWdata, 2, 3)),
        ),
    ];
    differs(&rt, alloc, &both, &cases)?;
    let none: [Case; 2] = [
        ("mem_addr,mem_rmask,mem_rdata,mem_wmask", "1,2,3,0", None),
        ("mem_wmask", "0x80", Some((Signal::MemWmask, 0, 0x80))),
    ];
    differs(&rt, alloc, &with_access(None), &none)
}

#[test]
fn registers(rt: HostRuntime) -> Result<(), Fail> {
    let cases: [Case; 12] = [
        ("rs1_addr,rs1_rdata", "1,0x11", None),
        (
            "rs1_addr,rs1_rdata",
            "2,0x11",
            Some((Signal::Rs1Addr, 1, 2)),
        ),
        ("rs1_addr,rs1_rdata", ",0x11", None),
        ("rs1_rdata", "0x22", Some((Signal::Rs1Rdata, 0x11, 0x22))),
        // Where the instruction reads no register, the row's own counts.
        ("rs2_addr,rs2_rdata", "2,0x22", None),
        (
            "rs2_addr,rs2_rdata",
            "1,0x22",
            Some((Signal::Rs2Rdata, 0x11, 0x22)),
        ),
        ("rs2_rdata", "0x33", None),
        ("rs2_addr,rs2_rdata", "0,0", None),
        ("rs2_addr,rs2_rdata", "0,9", Some((Signal::Rs2Rdata, 0, 9))),
        ("rd_addr,rd_wdata", "3,7", None),
        ("rd_addr,rd_wdata", "0,7", Some((Signal::RdAddr, 3, 0))),
        ("rd_addr,rd_wdata", "3,0", Some((Signal::RdWdata, 7, 0))),
    ];
    differs(&rt, rt.alloc(), &with_access(None), &cases)
}

/// Of a trap only what comes before `rs1_addr` is compared, and `trap` itself but for calls of the
/// environment and breakpoints.
#[test]
fn traps(rt: HostRuntime) -> Result<(), Fail> {
    let alloc = rt.alloc();
    let not_one = Some((Signal::Trap, 1, 0));
    for (cause, difference) in [
        (Cause::InstructionAccessFault, not_one),
        (Cause::IllegalInstruction, not_one),
        (Cause::Breakpoint, None),
        (Cause::LoadAddressMisaligned, not_one),
        (Cause::StoreAccessFault, not_one),
        (Cause::EnvironmentCallFromUser, None),
        (Cause::EnvironmentCallFromSupervisor, None),
        (Cause::EnvironmentCallFromMachine, None),
        (Cause::StorePageFault, not_one),
    ] {
        let trap = Expected::Retired(retirement_with(Err(cause)));
        let cases: [Case; 4] = [
            ("rs1_addr,rs1_rdata,rs2_addr,rs2_rdata", "9,9,9,9", None),
            (
                "trap,rd_addr,rd_wdata,pc_wdata,mem_rmask",
                "1,9,9,9,9",
                None,
            ),
            (
                "mem_addr,mem_wmask,mem_wdata,mem_rdata,mem_paddr",
                "9,9,9,9,9",
                None,
            ),
            ("trap", "0", difference),
        ];
        differs(&rt, alloc, &trap, &cases)?;
    }
    let unfetched = Expected::Retired(Retired {
        order: None,
        lacks_interrupt: false,
        insn: None,
        pc: 0x8000_0002,
        ..retirement_with(Err(Cause::InstructionPageFault))
    });
    let pc = Some((Signal::PcRdata, 0x8000_0002, 0x8000_0000));
    differs(&rt, alloc, &unfetched, &[("order,intr,trap", "9,1,1", pc)])?;
    let fetched = Expected::Retired(Retired {
        order: None,
        lacks_interrupt: false,
        insn: None,
        ..retirement_with(Err(Cause::InstructionPageFault))
    });
    differs(&rt, alloc, &fetched, &[("order,intr,trap", "9,1,1", None)])?;
    let bits = Expected::Retired(Retired {
        insn: Some(0x1_0013),
        ..retirement_with(Ok(effects(None)))
    });
    let cases: [Case; 2] = [
        ("trap", "0", Some((Signal::Insn, 0x1_0013, 0x13))),
        ("trap", "1", Some((Signal::Trap, 0, 1))),
    ];
    differs(&rt, alloc, &bits, &cases)?;
    let valid = Some((Signal::Valid, 0, 1));
    let ended: [Case; 2] = [
        ("order,csr_mepc_rdata", "9,1", valid),
        ("valid", "1", valid),
    ];
    differs(&rt, alloc, &Expected::Halted, &ended)
}

#[test]
fn modes(rt: HostRuntime) -> Result<(), Fail> {
    for (mode, number, other) in [
        (Mode::User, 0, "1"),
        (Mode::Supervisor, 1, "3"),
        (Mode::Machine, 3, "0"),
    ] {
        let expected = Expected::Retired(Retired {
            mode,
            ..retirement_with(Ok(effects(None)))
        });
        let shown = format!(in rt.alloc(); "{number}")?;
        let cases: [Case; 6] = [
            ("mode", shown.as_str(), None),
            ("mode,ixl", ",2", None),
            ("mode", "2", Some((Signal::Mode, number, 2))),
            ("ixl", "1", Some((Signal::Ixl, 2, 1))),
            ("ixl", "0", Some((Signal::Ixl, 2, 0))),
            ("ixl,mode", "3,2", Some((Signal::Mode, number, 2))),
        ];
        differs(&rt, rt.alloc(), &expected, &cases)?;
        let difference = difference_in(rt.alloc(), &expected, "mode", other)?;
        assert!(rt; difference.is_some());
    }
    Ok(())
}

const fn before(name: CsrName) -> Signal {
    Signal::Csr(name, CsrSide::Rdata)
}

const fn after(name: CsrName) -> Signal {
    Signal::Csr(name, CsrSide::Wdata)
}

/// Registers before and after the row, under the masks that are shown, on a trap's row too.
#[test]
fn registers_under_masks(rt: HostRuntime) -> Result<(), Fail> {
    let mut before_row = Csrs::reset();
    before_row.set(StoredCsr::Mepc, 0x1234);
    let mut after_row = before_row;
    after_row.set(StoredCsr::Mepc, 0x8000_0000);
    after_row.set(StoredCsr::Mcause, 2);
    after_row.set(StoredCsr::Satp, 0x8000_0000_0008_0001);
    let row = Retired {
        csrs: around(before_row, after_row),
        ..retirement_with(Err(Cause::IllegalInstruction))
    };
    let cases: [Case; 14] = [
        ("csr_mepc_rdata,csr_mepc_wdata", "0x1234,0x80000000", None),
        (
            "csr_mepc_rdata",
            "0x80000000",
            Some((before(CsrName::Mepc), 0x1234, 0x8000_0000)),
        ),
        (
            "csr_mepc_wdata",
            "0x1234",
            Some((after(CsrName::Mepc), 0x8000_0000, 0x1234)),
        ),
        ("csr_mepc_rdata,csr_mepc_rmask", "0x5634,0xff", None),
        (
            "csr_mepc_rdata,csr_mepc_rmask",
            "0x5634,0xf00f",
            Some((before(CsrName::Mepc), 0x1004, 0x5004)),
        ),
        ("csr_mepc_rdata,csr_mepc_rmask", "0x5634,0", None),
        // Each data column has its own mask; one that is empty or missing is all ones.
        (
            "csr_mepc_rdata,csr_mepc_rmask,csr_mepc_wmask",
            "0x5634,,0",
            Some((before(CsrName::Mepc), 0x1234, 0x5634)),
        ),
        (
            "csr_mepc_wdata,csr_mepc_rmask",
            "0,0",
            Some((after(CsrName::Mepc), 0x8000_0000, 0)),
        ),
        // A mask without its data compares nothing.
        (
            "csr_mepc_rdata,csr_mepc_rmask,csr_mcause_wmask",
            ",9,9",
            None,
        ),
        ("csr_mcause_rdata,csr_mcause_wdata", "0,2", None),
        (
            "csr_mcause_wdata",
            "0",
            Some((after(CsrName::Mcause), 2, 0)),
        ),
        (
            "csr_satp_rdata,csr_satp_wdata,csr_satp_wmask",
            "0,0x8000000000000000,0xf000000000000000",
            None,
        ),
        (
            "csr_satp_wdata",
            "0x8000000000080000",
            Some((
                after(CsrName::Satp),
                0x8000_0000_0008_0001,
                0x8000_0000_0008_0000,
            )),
        ),
        // MXL of misa is 2; UXL and SXL of mstatus are 2, of which sstatus shows UXL.
        (
            "csr_misa_rdata,csr_misa_rmask,csr_mstatus_rdata,csr_sstatus_wdata",
            "0x8000000000000000,0xc000000000000000,0xa00000000,0x200000001",
            Some((after(CsrName::Sstatus), 0x2_0000_0000, 0x2_0000_0001)),
        ),
    ];
    differs(&rt, rt.alloc(), &Expected::Retired(row), &cases)
}

/// Lines that may be held are not compared after the instruction (3, 7, 9 and 11 of mip, 9 of sip),
/// and before it bit 9 of sip only where mip shows that bit.
#[test]
fn interrupt_lines(rt: HostRuntime) -> Result<(), Fail> {
    let mut csrs = Csrs::reset();
    csrs.set(StoredCsr::Mideleg, 0x222);
    csrs.set(StoredCsr::Mip, 0x2);
    let row = Expected::Retired(Retired {
        csrs: around(csrs, csrs),
        lines: 0x200,
        ..retirement_with(Ok(effects(None)))
    });
    let (mip, sip) = (before(CsrName::Mip), before(CsrName::Sip));
    let cases: [Case; 15] = [
        ("csr_mip_rdata", "0x202", None),
        ("csr_mip_rdata", "2", Some((mip, 0x202, 2))),
        ("csr_mip_rdata", "0xa8a", Some((mip, 0x202, 0xa8a))),
        ("csr_mip_rdata,csr_mip_rmask", "0xa8a,0x202", None),
        ("csr_mip_wdata", "2", None),
        ("csr_mip_wdata", "0xa8a", None),
        ("csr_mip_wdata", "0xa88", Some((after(CsrName::Mip), 2, 0))),
        (
            "csr_mip_wdata,csr_mip_wmask",
            "0x22,0x2a0",
            Some((after(CsrName::Mip), 0, 0x20)),
        ),
        ("csr_sip_wdata", "2", None),
        ("csr_sip_wdata", "0x200", Some((after(CsrName::Sip), 2, 0))),
        ("csr_sip_wdata", "0xa", Some((after(CsrName::Sip), 2, 0xa))),
        ("csr_sip_rdata", "2", None),
        ("csr_sip_rdata", "0x222", Some((sip, 2, 0x22))),
        (
            "csr_sip_rdata,csr_mip_rdata",
            "2,0x202",
            Some((sip, 0x202, 2)),
        ),
        (
            "csr_sip_rdata,csr_mip_rdata,csr_mip_rmask",
            "2,2,0xfff",
            Some((mip, 0x202, 2)),
        ),
    ];
    differs(&rt, rt.alloc(), &row, &cases)?;
    let masked: [Case; 4] = [
        (
            "csr_sip_rdata,csr_mip_rdata,csr_mip_rmask",
            "2,2,0xdff",
            None,
        ),
        (
            "csr_sip_rdata,csr_mip_rdata,csr_mip_rmask",
            "2,0x200,0x200",
            Some((sip, 0x202, 2)),
        ),
        ("csr_sip_rdata,csr_mip_rmask", "2,0x200", None),
        (
            "csr_sip_rdata,csr_sip_rmask,csr_mip_rdata",
            "0,0x2,0x202",
            Some((sip, 2, 0)),
        ),
    ];
    differs(&rt, rt.alloc(), &row, &masked)
}

/// Where rows say nothing above an instruction of 16 bits, these alone are compared and given. One
/// of 32 bits is compared whole. Rows show 0x13 here.
#[test]
fn instructions_of_16_bits(rt: HostRuntime) -> Result<(), Fail> {
    for (insn, insn_bits, difference) in [
        (0x13, InsnBits::Length, None),
        (
            0x1_0013,
            InsnBits::Length,
            Some((Signal::Insn, 0x1_0013, 0x13)),
        ),
        (0x4501, InsnBits::Length, Some((Signal::Insn, 0x4501, 0x13))),
        (0x4501, InsnBits::Full, Some((Signal::Insn, 0x4501, 0x13))),
    ] {
        let expected = Expected::Retired(Retired {
            insn: Some(insn),
            insn_bits,
            ..retirement_with(Ok(effects(None)))
        });
        differs(&rt, rt.alloc(), &expected, &[("trap", "0", difference)])?;
    }
    for (insn_bits, shown, found) in [
        (InsnBits::Length, "0x93004501", None),
        (InsnBits::Length, "0x4501", None),
        (InsnBits::Length, "0x93004503", Some(0x4503)),
        (InsnBits::Full, "0x93004501", Some(0x9300_4501)),
        (InsnBits::Full, "0x4501", None),
    ] {
        let expected = Expected::Retired(Retired {
            insn: Some(0x4501),
            insn_bits,
            ..retirement_with(Ok(effects(None)))
        });
        let columns = read_header(rt.alloc(), b"insn,pc_rdata")?;
        let line = format!(in rt.alloc(); "{shown},0x80000000")?;
        let row = read_row(rt.alloc(), &columns, line.as_bytes(), 0, 1)?.ok_or("a row")?;
        let difference = found.map(|found| Difference {
            signal: Signal::Insn,
            expected: 0x4501,
            found,
        });
        assert_eq!(rt; first_difference(&expected, &row), difference);
    }
    Ok(())
}

/// A row of a core that makes this of its registers, in which those of each kind hold a value.
fn row_of(profile: &CsrProfile) -> Expected {
    let mut csrs = Csrs::reset_of(profile);
    csrs.set(StoredCsr::Mideleg, 0x222);
    Expected::Retired(Retired {
        csrs: around(csrs, csrs),
        lines: 0x22,
        ..retirement_with(Ok(effects(None)))
    })
}

/// A line that a core adds is compared where mip shows it before the instruction, and not after it.
#[test]
fn added_lines(rt: HostRuntime) -> Result<(), Fail> {
    let added = CsrProfile {
        lines: 0x20,
        ..CsrProfile::plain()
    };
    let cases: [Case; 7] = [
        ("csr_mip_rdata", "0x20", None),
        ("csr_mip_rdata", "0", Some((before(CsrName::Mip), 0x20, 0))),
        ("csr_mip_wdata", "0xaa8", None),
        ("csr_mip_wdata", "0x22", Some((after(CsrName::Mip), 0, 2))),
        ("csr_sip_rdata,csr_sip_wdata", "0x220,0x220", None),
        (
            "csr_sip_rdata,csr_mip_rdata",
            "0,0x20",
            Some((before(CsrName::Sip), 0x20, 0)),
        ),
        ("csr_sip_rdata,csr_mip_rdata,csr_mip_rmask", "0,0,0x2", None),
    ];
    differs(&rt, rt.alloc(), &row_of(&added), &cases)?;
    let cases: [Case; 2] = [
        (
            "csr_mip_wdata",
            "0xaa8",
            Some((after(CsrName::Mip), 0, 0x20)),
        ),
        (
            "csr_sip_rdata",
            "0x220",
            Some((before(CsrName::Sip), 0, 0x20)),
        ),
    ];
    differs(&rt, rt.alloc(), &row_of(&CsrProfile::plain()), &cases)
}

/// A misa that the core decides is not compared, and registers of no entries read 0.
#[test]
fn registers_of_a_core(rt: HostRuntime) -> Result<(), Fail> {
    let decided = CsrProfile::plain().with_presence(OptionalCsr::Misa, Presence::FromRow);
    let cases: [Case; 2] = [
        ("csr_misa_rdata,csr_misa_wdata", "1,2", None),
        (
            "csr_misa_rdata,csr_mscratch_wdata",
            "1,2",
            Some((after(CsrName::Mscratch), 0, 2)),
        ),
    ];
    differs(&rt, rt.alloc(), &row_of(&decided), &cases)?;
    let unprotected = CsrProfile {
        entry_count: EntryCount::Zero,
        ..CsrProfile::plain()
    };
    let cases: [Case; 3] = [
        (
            "csr_misa_rdata",
            "1",
            Some((before(CsrName::Misa), 0x8000_0000_0014_1105, 1)),
        ),
        ("csr_pmpcfg0_rdata,csr_pmpcfg2_wdata", "0,0", None),
        (
            "csr_pmpcfg2_rdata",
            "0x1f",
            Some((before(CsrName::Pmpcfg2), 0, 0x1f)),
        ),
    ];
    differs(&rt, rt.alloc(), &row_of(&unprotected), &cases)
}

/// The signals in the order of comparison, with the value expected and another.
const ORDERED: [(Signal, u64, u64); 24] = [
    (Signal::Order, 5, 6),
    (Signal::Intr, 0, 1),
    (Signal::PcRdata, 0x8000_0000, 0x8000_0002),
    (Signal::Mode, 1, 3),
    (Signal::Ixl, 2, 1),
    (Signal::Trap, 0, 1),
    (Signal::Insn, 0x13, 0x93),
    (Signal::Rs1Addr, 1, 2),
    (Signal::Rs1Rdata, 0x11, 0x22),
    (Signal::Rs2Addr, 2, 1),
    (Signal::Rs2Rdata, 0x22, 0x11),
    (Signal::RdAddr, 3, 4),
    (Signal::RdWdata, 7, 8),
    (Signal::PcWdata, 0x8000_0004, 0x8000_0008),
    (Signal::MemAddr, 0x8000_0208, 0x8000_0210),
    (Signal::MemRmask, 0xff, 0xfe),
    (Signal::MemRdata, 1, 3),
    (Signal::MemWmask, 0xff, 0x7f),
    (Signal::MemWdata, 2, 4),
    (Signal::MemPaddr, 0x9000_0208, 0x8000_0208),
    (Signal::Csr(CsrName::Mtvec, CsrSide::Rdata), 0, 4),
    (Signal::Csr(CsrName::Mtvec, CsrSide::Wdata), 8, 0),
    (Signal::Csr(CsrName::Stval, CsrSide::Rdata), 0, 1),
    (Signal::Csr(CsrName::Stval, CsrSide::Wdata), 0, 1),
];

/// Of rows in which ever more signals from the left of that order are right, the first that is
/// wrong is found, whatever the order of the columns.
#[test]
fn order_of_signals(rt: HostRuntime) -> Result<(), Fail> {
    let alloc = rt.alloc();
    let access = Accessed {
        va: 0x8000_0208,
        pa: 0x9000_0208,
        len: 8,
        read: Some(1),
        written: Some(2),
    };
    let mut after_row = Csrs::reset();
    after_row.set(StoredCsr::Mtvec, 8);
    let expected = Expected::Retired(Retired {
        csrs: around(Csrs::reset(), after_row),
        ..retirement_with(Ok(Effects {
            rs2: 2,
            ..effects(Some(access))
        }))
    });
    for first in 0..ORDERED.len() {
        let mut header = String::new(alloc);
        let mut line = String::new(alloc);
        for index in (0..ORDERED.len()).rev() {
            let (signal, right, wrong) = ORDERED[index];
            let value = if index < first { right } else { wrong };
            let (prefix, stem, suffix) = (signal.prefix(), signal.stem(), signal.suffix());
            header = format!(in alloc; "{header}{prefix}{stem}{suffix},")?;
            line = format!(in alloc; "{line}{value},")?;
        }
        let columns = read_header(alloc, header.as_bytes())?;
        let row = read_row(alloc, &columns, line.as_bytes(), 0, 1)?.ok_or("the row is valid")?;
        let (signal, expected_value, found) = ORDERED[first];
        let difference = Difference {
            signal,
            expected: expected_value,
            found,
        };
        assert_eq!(rt; first_difference(&expected, &row), Some(difference));
    }
    Ok(())
}
