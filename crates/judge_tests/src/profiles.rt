//! What the words say of a core's devices, rows, and control and status registers.

use super::words::{job_at, refuses};
use csr_file::profile::OptionalCsr;
use csr_file::{CsrProfile, EntryCount, Presence, StoredCsr};
use hart_words::{CauseSet, DeviceFaults, InsnBits, Marks, Misaligned, TrapValues};
use std::alloc::Global;
use std::process::Abort;
use std::test::Fail;

/// The profile of a job with one option, and as much of `state`.
fn profile_with(rt: &impl Abort, alloc: Global, option: &str) -> Result<CsrProfile, Fail> {
    let profile = job_at(alloc, &["rvjudge", "judge", "i", "t", option])??.profile;
    let same = job_at(alloc, &["rvjudge", "state", option, "i", "t"])??.profile;
    assert_eq!(rt; profile, same);
    Ok(profile)
}

#[test]
fn takes_masks(rt: HostRuntime) -> Result<(), Fail> {
    let lines: [(&str, StoredCsr, u64, u64); 16] = [
        ("--csr=mstatus=0x7E7FAA", StoredCsr::Mstatus, 0x7E_7FAA, 0),
        (
            "--csr=mstatus=6570:0x6600",
            StoredCsr::Mstatus,
            0x19AA,
            0x6600,
        ),
        (
            "--csr=medeleg=0x0:18446744073709551615",
            StoredCsr::Medeleg,
            0,
            u64::MAX,
        ),
        (
            "--csr=mideleg=0xFFFFFFFFFFFFF222",
            StoredCsr::Mideleg,
            !0xDDD,
            0,
        ),
        ("--csr=mideleg=0:0X222", StoredCsr::Mideleg, 0, 0x222),
        ("--csr=mie=0xfffffffffffffaaa:0", StoredCsr::Mie, !0x555, 0),
        ("--csr=mtvec=0xFFFFFFFFFFFFFFFD", StoredCsr::Mtvec, !2, 0),
        (
            "--csr=stvec=0xFFFFFFFFFFFFF000",
            StoredCsr::Stvec,
            !0xFFF,
            0,
        ),
        (
            "--csr=mcounteren=0xFFFFFFFF",
            StoredCsr::Mcounteren,
            0xFFFF_FFFF,
            0,
        ),
        ("--csr=scounteren=2:5", StoredCsr::Scounteren, 2, 5),
        (
            "--csr=mcountinhibit=0xFFFFFFFD",
            StoredCsr::Mcountinhibit,
            0xFFFF_FFFD,
            0,
        ),
        ("--csr=mcountinhibit=0:5", StoredCsr::Mcountinhibit, 0, 5),
        (
            "--csr=menvcfg=0x80000000000000f1",
            StoredCsr::Menvcfg,
            1 << 63 | 0xF1,
            0,
        ),
        ("--csr=senvcfg=0:1", StoredCsr::Senvcfg, 0, 1),
        (
            "--csr=satp=0xF000000000000000",
            StoredCsr::Satp,
            15 << 60,
            0,
        ),
        (
            "--csr=satp=18446744073709551615",
            StoredCsr::Satp,
            u64::MAX,
            0,
        ),
    ];
    for (option, csr, mask, fixed) in lines {
        let profile = profile_with(&rt, rt.alloc(), option)?;
        assert_eq!(rt; profile, CsrProfile::plain().with_bits(csr, mask, fixed));
    }
    Ok(())
}

#[test]
fn takes_presences(rt: HostRuntime) -> Result<(), Fail> {
    let lines: [(&str, OptionalCsr, Presence); 14] = [
        ("--csr=misa=row", OptionalCsr::Misa, Presence::FromRow),
        (
            "--csr=mhpmevent=row",
            OptionalCsr::Mhpmevent,
            Presence::FromRow,
        ),
        (
            "--csr=mcountinhibit=row",
            OptionalCsr::Mcountinhibit,
            Presence::FromRow,
        ),
        ("--csr=menvcfg=row", OptionalCsr::Menvcfg, Presence::FromRow),
        ("--csr=senvcfg=row", OptionalCsr::Senvcfg, Presence::FromRow),
        (
            "--csr=mcounteren=none",
            OptionalCsr::Mcounteren,
            Presence::Absent,
        ),
        ("--csr=menvcfg=none", OptionalCsr::Menvcfg, Presence::Absent),
        (
            "--csr=mhpmcounter=maybe",
            OptionalCsr::Mhpmcounter,
            Presence::MayTrap,
        ),
        (
            "--csr=hpmcounter=none",
            OptionalCsr::Hpmcounter,
            Presence::Absent,
        ),
        (
            "--csr=mconfigptr=none",
            OptionalCsr::Mconfigptr,
            Presence::Absent,
        ),
        ("--csr=cycle=maybe", OptionalCsr::Cycle, Presence::MayTrap),
        ("--csr=time=none", OptionalCsr::Time, Presence::Absent),
        ("--csr=time=maybe", OptionalCsr::Time, Presence::MayTrap),
        ("--csr=instret=none", OptionalCsr::Instret, Presence::Absent),
    ];
    for (option, csr, presence) in lines {
        let profile = profile_with(&rt, rt.alloc(), option)?;
        assert_eq!(rt; profile, CsrProfile::plain().with_presence(csr, presence));
    }
    Ok(())
}

/// Several registers in one list.
#[test]
fn takes_lists_of_registers(rt: HostRuntime) -> Result<(), Fail> {
    let option = "--csr=mcounteren=0:7,time=none,misa=row,mstatus=0x7E1FAA,mhpmevent=maybe";
    let wanted = CsrProfile::plain()
        .with_bits(StoredCsr::Mcounteren, 0, 7)
        .with_bits(StoredCsr::Mstatus, 0x7E_1FAA, 0)
        .with_presence(OptionalCsr::Time, Presence::Absent)
        .with_presence(OptionalCsr::Misa, Presence::FromRow)
        .with_presence(OptionalCsr::Mhpmevent, Presence::MayTrap);
    assert_eq!(rt; profile_with(&rt, rt.alloc(), option)?, wanted);
    Ok(())
}

/// How many entries of protection there are, how many bits an address has, which lines are added.
#[test]
fn takes_entries_and_lines(rt: HostRuntime) -> Result<(), Fail> {
    let plain = CsrProfile::plain();
    let lines: [(&str, EntryCount, u8, u64); 10] = [
        (
            "--ad=fault",
            plain.entry_count,
            plain.entry_bits,
            plain.lines,
        ),
        ("--pmp=0", EntryCount::Zero, 54, 0),
        ("--pmp=8", EntryCount::Eight, 54, 0),
        ("--pmp=0x10", EntryCount::Sixteen, 54, 0),
        ("--pmp-bits=10", EntryCount::Sixteen, 10, 0),
        ("--pmp-bits=54", EntryCount::Sixteen, 54, 0),
        ("--lines=2696", EntryCount::Sixteen, 54, 0),
        ("--lines=0xA8A", EntryCount::Sixteen, 54, 2),
        ("--lines=0xaa8", EntryCount::Sixteen, 54, 0x20),
        ("--lines=0XAAA", EntryCount::Sixteen, 54, 0x22),
    ];
    for (option, count, bits, added) in lines {
        let profile = profile_with(&rt, rt.alloc(), option)?;
        assert_eq!(rt; (profile.entry_count, profile.entry_bits), (count, bits));
        assert_eq!(rt; profile.lines, added);
        assert_eq!(rt; profile.masks, plain.masks);
        assert_eq!(rt; profile.fixed, plain.fixed);
    }
    Ok(())
}

#[test]
fn takes_causes(rt: HostRuntime) -> Result<(), Fail> {
    let lines: [(&str, u16); 4] = [
        ("--mtval=zero:3", 0x8),
        ("--mtval=zero:0x2,3", 0xC),
        ("--mtval=zero:15,13,12", 0xB000),
        ("--mtval=zero:1,2,3,4,5,6,7,12,13,15", 0xB0FE),
    ];
    for (option, codes) in lines {
        let choices = job_at(rt.alloc(), &["rvjudge", "judge", "i", "t", option])??.choices;
        assert_eq!(rt;
            choices.trap_values,
            TrapValues::ZeroFor(CauseSet { codes })
        );
    }
    Ok(())
}

#[test]
fn takes_what_rows_say(rt: HostRuntime) -> Result<(), Fail> {
    let lines: [(&str, InsnBits, DeviceFaults); 5] = [
        ("--bits=off", InsnBits::Full, DeviceFaults::Never),
        ("--insn=full", InsnBits::Full, DeviceFaults::Never),
        ("--insn=length", InsnBits::Length, DeviceFaults::Never),
        ("--io-faults=none", InsnBits::Full, DeviceFaults::Never),
        ("--io-faults=row", InsnBits::Full, DeviceFaults::ByRow),
    ];
    for (option, insn_bits, device_faults) in lines {
        let choices = job_at(rt.alloc(), &["rvjudge", "judge", "i", "t", option])??.choices;
        assert_eq!(rt;
            (choices.insn_bits, choices.device_faults),
            (insn_bits, device_faults)
        );
    }
    Ok(())
}

/// Eight ranges, side by side and apart, in any order.
const EIGHT: &str = "--io=0x7000:4096,0:4096,0x1000:4096,0x88000000:4096,0x3000:4096,0x4000:4096,\
    0x5000:4096,0x7ffff000:4096";

#[test]
fn takes_several_ranges(rt: HostRuntime) -> Result<(), Fail> {
    let one = [Some(0), None, None, None, None, None, None, None];
    let lines: [(&str, [Option<u64>; 8]); 3] = [
        ("--io=0:4096", one),
        (
            "--io=0x10000000:0x1000,0x2000:0x2000",
            [
                Some(0x1000_0000),
                Some(0x2000),
                None,
                None,
                None,
                None,
                None,
                None,
            ],
        ),
        (
            EIGHT,
            [
                Some(0x7000),
                Some(0),
                Some(0x1000),
                Some(0x8800_0000),
                Some(0x3000),
                Some(0x4000),
                Some(0x5000),
                Some(0x7FFF_F000),
            ],
        ),
    ];
    for (option, bases) in lines {
        let map = job_at(rt.alloc(), &["rvjudge", "judge", "i", "t", option])??.map;
        for index in 0..8 {
            assert_eq!(rt; map.io[index].map(|io| io.base), bases[index]);
        }
    }
    Ok(())
}

/// What a name stands for.
#[test]
fn takes_cores(rt: HostRuntime) -> Result<(), Fail> {
    let job = job_at(
        rt.alloc(),
        &["rvjudge", "judge", "i", "--profile", "qemu", "t"],
    )??;
    assert_eq!(rt; job.choices.misaligned, Misaligned::Done);
    assert_eq!(rt;
        job.choices.trap_values,
        TrapValues::ZeroFor(CauseSet { codes: 8 })
    );
    assert_eq!(rt; job.choices.marks, Marks::Set);
    assert_eq!(rt; (job.choices.block_size, job.choices.bits), (64, false));
    let wanted = CsrProfile::plain()
        .with_bits(StoredCsr::Mstatus, 0x7E_7FAA, 0)
        .with_bits(StoredCsr::Medeleg, 0xF0_BFFF, 0)
        .with_bits(StoredCsr::Mideleg, 0x2222, 0)
        .with_bits(StoredCsr::Mie, 0x2AAA, 0)
        .with_bits(StoredCsr::Mcounteren, 0xFFFF_FFFF, 0)
        .with_bits(StoredCsr::Mcountinhibit, 0xFFFF_FFFD, 0)
        .with_bits(StoredCsr::Menvcfg, 0xC000_0000_0000_00F1, 0)
        .with_bits(StoredCsr::Senvcfg, 0xF1, 0)
        .with_bits(StoredCsr::Scounteren, 0xFFFF_FFFF, 0);
    assert_eq!(rt; job.profile, wanted);
    let counts: [(&str, EntryCount); 3] = [
        ("--profile=spike", EntryCount::Sixteen),
        ("--profile=rocket", EntryCount::Eight),
        ("--profile=cva6", EntryCount::Eight),
    ];
    for (option, count) in counts {
        assert_eq!(rt; profile_with(&rt, rt.alloc(), option)?.entry_count, count);
    }
    Ok(())
}

/// A word that is given replaces the profile's, before and after it.
#[test]
fn takes_words_before_those_of_a_core(rt: HostRuntime) -> Result<(), Fail> {
    let lines: [(&[&str], Misaligned, Marks, bool); 4] = [
        (&["--profile=qemu"], Misaligned::Done, Marks::Set, false),
        (
            &["--profile=qemu", "--ad=fault"],
            Misaligned::Done,
            Marks::Fault,
            false,
        ),
        (
            &["--misaligned=trap", "--profile=qemu"],
            Misaligned::Trap,
            Marks::Set,
            false,
        ),
        (
            &["--profile=qemu", "--csr=time=maybe"],
            Misaligned::Done,
            Marks::Set,
            true,
        ),
    ];
    let alloc = rt.alloc();
    for (more, misaligned, marks, is_plain) in lines {
        let mut words = Vec::new(alloc);
        words.extend_from_slice(["rvjudge", "state", "i", "t"].as_slice())?;
        words.extend_from_slice(more)?;
        let job = job_at(alloc, words.as_slice())??;
        assert_eq!(rt; job.choices.misaligned, misaligned);
        assert_eq!(rt; job.choices.marks, marks);
        assert_eq!(rt; job.profile == CsrProfile::plain(), is_plain);
    }
    Ok(())
}

/// No item, no register, twice one, or bits that it cannot have or must have.
const REGISTERS: [&str; 40] = [
    "--csr",
    "--csr=",
    "--csr=,",
    "--csr=mie",
    "--csr=mie=",
    "--csr=mie=0,",
    "--csr=,mie=0",
    "--csr==0",
    "--csr=MIE=0",
    "--csr=mepc=0",
    "--csr=mie=0x",
    "--csr=mie=row",
    "--csr=mie=0=0",
    "--csr=mie=0,mie=0",
    "--csr=mcounteren=7,mcounteren=none",
    "--csr=time=none,misa=row,time=maybe",
    "--csr=mstatus=0x7E7FAB",
    "--csr=mstatus=0x7E11AA",
    "--csr=mstatus=0x79AA:0x6600",
    "--csr=mstatus=0x19AA:1",
    "--csr=mstatus=0x19AA:",
    "--csr=mstatus=0x19AA:0x6600:0",
    "--csr=mideleg=0x2A2",
    "--csr=mideleg=0:4",
    "--csr=mie=0xAAB",
    "--csr=mie=0:2",
    "--csr=mtvec=0xFFFFFFFFFFFFFFFF",
    "--csr=stvec=0xFFFFFFFFFFFFE000",
    "--csr=mcounteren=0x100000000",
    "--csr=scounteren=7:1",
    "--csr=mcountinhibit=2",
    "--csr=satp=0x7FFFFFFFFFFFFFFF",
    "--csr=satp=18446744073709551616",
    "--csr=misa=none",
    "--csr=misa=maybe",
    "--csr=misa=0",
    "--csr=mcounteren=row",
    "--csr=time=row",
    "--csr=mhpmevent3=row",
    "--csr=mconfigptr=kept",
];

/// The same of the other options.
const OTHERS: [&str; 36] = [
    "--pmp",
    "--pmp=",
    "--pmp=1",
    "--pmp=15",
    "--pmp=64",
    "--pmp-bits=9",
    "--pmp-bits=55",
    "--pmp-bits=266",
    "--lines=",
    "--lines=0",
    "--lines=0x22",
    "--lines=0xA80",
    "--lines=0xA8C",
    "--lines=0xEAA",
    "--lines=0x10000000000000A88",
    "--insn=half",
    "--insn=",
    "--io-faults=some",
    "--io-faults",
    "--mtval=zero:",
    "--mtval=zero:0",
    "--mtval=zero:8",
    "--mtval=zero:14",
    "--mtval=zero:16",
    "--mtval=zero:3,",
    "--mtval=zero:3,2,3",
    "--mtval=zero:3,0x3",
    "--mtval=zero:65539",
    "--mtval=value:3",
    "--mtval=:3",
    "--io=0x1000:0x1000,",
    "--io=0x1000:0x1000,0x1000:0x1000",
    "--io=0x1000:0x1000,0x7ffff000:0x2000",
    "--profile",
    "--profile=",
    "--profile=QEMU",
];

/// Nine ranges.
const NINE: &str = "--io=0:4096,0x1000:4096,0x2000:4096,0x3000:4096,0x4000:4096,0x5000:4096,\
    0x6000:4096,0x7000:4096,0x8000:4096";

#[test]
fn refuses_other_registers(rt: HostRuntime) -> Result<(), Fail> {
    let alloc = rt.alloc();
    for option in REGISTERS {
        refuses(&rt, alloc, &["rvjudge", "judge", "i", "t", option])?;
    }
    for option in OTHERS {
        refuses(&rt, alloc, &["rvjudge", "judge", "i", "t", option])?;
    }
    refuses(&rt, alloc, &["rvjudge", "judge", "i", "t", NINE])?;
    refuses(
        &rt,
        alloc,
        &["rvjudge", "judge", "i", "t", "--pmp=8", "--pmp=8"],
    )
}
