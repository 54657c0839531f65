ghost use Rattle.std.specs.Prelude.{◌≤◌, ◌+◌, ◌^◌};
ghost use Rattle.std.specs.List.{All};
ghost use Rattle.hart_words.specs.declared.accesses.Read.{Read};
ghost use Rattle.hart_words.specs.declared.accesses.Write.{Write};
ghost use Rattle.row_origin.specs.Last.{IsNarrow};

use elf_image::ElfFault;
use hart_words::{CsrName, CsrSide, Difference, InsnBits, Mode, Registers, Seen, Signal, Wrote};
use image_text::{FaultKind, ImageFault};
use row_origin::Last;
use rvfi_rows::{
    Accessed, Column, Effects, Expected, HeaderFault, Port, Retired, RowFault, Stepped, Verdict,
};
use state_text::StateFault;
use std::test::Fail;
use trace_report::{Made, Outcome, Ruling, report, status};

#[test]
fn reports_outcomes(rt: HostRuntime) -> Result<(), Fail> {
    let kind = FaultKind::OutsideRam;
    let wide = RowFault::TooWide(Column {
        signal: Signal::Csr(CsrName::Mscratch, CsrSide::Wdata),
        port: Port::Zero,
    });
    let second = Column {
        signal: Signal::PcRdata,
        port: Port::One,
    };
    let insn = Column {
        signal: Signal::Insn,
        port: Port::Zero,
    };
    let difference = Difference {
        signal: Signal::RdWdata,
        expected: 5,
        found: 0xfedc_ba98_7654_3210,
    };
    let cases = [
        (Ruling::NoJob, 2, b"refused words\n".as_slice()),
        (
            Ruling::ImageTooLarge { most: 5 },
            3,
            b"refused image: more than 5 bytes\n",
        ),
        (
            Ruling::ImageFault(ImageFault { kind, line: 7 }),
            3,
            b"refused image: line 7: outside RAM\n",
        ),
        (
            Ruling::ElfFault(ElfFault::WrongKind),
            3,
            b"refused image: elf of another kind\n",
        ),
        (
            Ruling::ElfFault(ElfFault::Overlap { index: 12 }),
            3,
            b"refused image: elf segment 12: overlap\n",
        ),
        (
            Ruling::StateFault(StateFault::InLine {
                kind: state_text::FaultKind::BadValue,
                line: 3,
            }),
            3,
            b"refused image: line 3: bad value\n",
        ),
        (
            Ruling::StateFault(StateFault::WrongHarts),
            3,
            b"refused image: wrong number of harts\n",
        ),
        (Ruling::NoHeader, 4, b"refused trace: no header\n"),
        (
            Ruling::HeaderFault(HeaderFault::Twice(insn)),
            4,
            b"refused trace: column insn twice\n",
        ),
        (
            Ruling::HeaderFault(HeaderFault::NoColumn(second)),
            4,
            b"refused trace: no column pc_rdata_1\n",
        ),
        (
            Ruling::Verdict(Verdict::Refused {
                row: 2,
                fault: RowFault::TooWide(second),
            }),
            4,
            b"refused trace: row 2: pc_rdata_1 too wide\n",
        ),
        (
            Ruling::Verdict(Verdict::Refused {
                row: 2,
                fault: RowFault::NoHart,
            }),
            4,
            b"refused trace: row 2: hart not there\n",
        ),
        (
            Ruling::TooLong { line: 2 },
            4,
            b"refused trace: line 2 too long\n",
        ),
        (
            Ruling::TraceTooLarge { most: u64::MAX },
            4,
            b"refused trace: more than 18446744073709551615 bytes\n",
        ),
        (
            Ruling::Verdict(Verdict::Agrees { rows: 3, valid: 2 }),
            0,
            b"agrees 2\n",
        ),
        (
            Ruling::Verdict(Verdict::Refused {
                row: 9,
                fault: wide,
            }),
            4,
            b"refused trace: row 9: csr_mscratch_wdata too wide\n",
        ),
        (
            Ruling::Verdict(Verdict::Differs { row: 2, difference }),
            1,
            b"differs row 2: rd_wdata expected 0x0000000000000005 found 0xfedcba9876543210\n",
        ),
    ];
    for (ruling, number, line) in cases {
        let outcome = Outcome { made: None, ruling };
        assert_eq!(rt; status(&outcome), number);
        assert_eq!(rt; report(&outcome, None).as_slice(), line);
    }
    Ok(())
}

#[test]
fn reports_what_was_made(rt: HostRuntime) -> Result<(), Fail> {
    let made = Some(Made {
        number: u32::MAX,
        rows: 10,
    });
    let ruling = Ruling::Verdict(Verdict::Agrees {
        rows: 10,
        valid: 10,
    });
    let outcome = Outcome { made, ruling };
    assert_eq!(rt; status(&outcome), 0);
    let line = b"made 4294967295 10: agrees 10\n".as_slice();
    assert_eq!(rt; report(&outcome, None).as_slice(), line);
    Ok(())
}

fn retired(rs1: u8, rs2: u8, rd: u8, access: Option<Accessed>) -> Expected {
    Expected::Retired(Retired {
        order: None,
        lacks_interrupt: false,
        pc: 0x8000_0000,
        mode: Mode::Machine,
        insn: Some(0x13),
        insn_bits: InsnBits::Full,
        effects: Ok(Effects {
            registers: Registers::zeros(),
            rs1,
            rs2,
            rd,
            rd_value: 7,
            next_pc: 0x8000_0004,
            access,
        }),
        csrs: None,
        lines: 0,
    })
}

/// A step that writes a register, and so many bytes from an address on.
fn writes(rd: u8, pa: u64, len: u8) -> Stepped
    requires { pa + len ≤ 2 ^ 56 }
    ensures { All (λ (write : Write). IsNarrow write.pa write.len) result.wrote }
{
    let mut wrote = Wrote::empty();
    wrote.put(pa, len, 0);
    Stepped {
        expected: retired(0, 0, rd, None),
        seen: Seen::empty(),
        wrote,
    }
}

/// A step that reads two registers, and so many bytes from an address on.
fn reads(rs1: u8, rs2: u8, pa: u64, len: u8) -> Stepped
    requires { pa + len ≤ 2 ^ 56 }
    ensures { All (λ (read : Read). IsNarrow read.pa read.len) result.seen }
{
    let mut seen = Seen::empty();
    seen.put(pa, len);
    let access = Accessed {
        va: pa,
        pa,
        len,
        read: Some(0),
        written: None,
    };
    Stepped {
        expected: retired(rs1, rs2, 0, Some(access)),
        seen,
        wrote: Wrote::empty(),
    }
}

/// The last eight bytes below 2^56.
const TOP: u64 = (1 << 56) - 8;

/// The last case has the longest lines and the most of them: two registers and eight bytes, each
/// with the greatest row.
#[test]
fn reports_origins(rt: HostRuntime) -> Result<(), Fail> {
    let mut last = Last::empty(rt.alloc());
    last.add(&writes(30, TOP, 8), 0, u64::MAX)?;
    last.add(&writes(31, 0x8000_2001, 1), 0, u64::MAX)?;
    last.add(&writes(2, 0x8000_2002, 1), 0, 12)?;
    let cases = [
        (last.of(&reads(0, 0, 0x8000_2000, 0), 0), [].as_slice()),
        (
            last.of(&reads(1, 2, 0x8000_2000, 4), 0),
            &[
                "origin x1 reset",
                "origin x2 row 12",
                "origin byte 0x0000000080002000 image",
                "origin byte 0x0000000080002001 row 18446744073709551615",
                "origin byte 0x0000000080002002 row 12",
                "origin byte 0x0000000080002003 image",
            ],
        ),
        (
            last.of(&reads(2, 1, 0xab_cdef, 1), 7),
            &[
                "origin x2 reset",
                "origin x1 reset",
                "origin byte 0x0000000000abcdef image",
            ],
        ),
        (
            last.of(&reads(31, 30, TOP, 8), 0),
            &[
                "origin x31 row 18446744073709551615",
                "origin x30 row 18446744073709551615",
                "origin byte 0x00fffffffffffff8 row 18446744073709551615",
                "origin byte 0x00fffffffffffff9 row 18446744073709551615",
                "origin byte 0x00fffffffffffffa row 18446744073709551615",
                "origin byte 0x00fffffffffffffb row 18446744073709551615",
                "origin byte 0x00fffffffffffffc row 18446744073709551615",
                "origin byte 0x00fffffffffffffd row 18446744073709551615",
                "origin byte 0x00fffffffffffffe row 18446744073709551615",
                "origin byte 0x00ffffffffffffff row 18446744073709551615",
            ],
        ),
    ];
    let outcome = Outcome {
        made: Some(Made {
            number: u32::MAX,
            rows: u32::MAX,
        }),
        ruling: Ruling::Verdict(Verdict::Differs {
            row: u64::MAX,
            difference: Difference {
                signal: Signal::Csr(CsrName::Mscratch, CsrSide::Wdata),
                expected: 5,
                found: u64::MAX,
            },
        }),
    };
    let line = "made 4294967295 4294967295: differs row 18446744073709551615: csr_mscratch_wdata \
        expected 0x0000000000000005 found 0xffffffffffffffff\n";
    for (origins, lines) in cases {
        let mut wanted = Vec::new(rt.alloc());
        wanted.extend_from_slice(line.as_bytes())?;
        for origin in lines {
            wanted.extend_from_slice(origin.as_bytes())?;
            wanted.push(b'\n')?;
        }
        assert_eq!(rt;
            report(&outcome, Some(&origins)).as_slice(),
            wanted.as_slice()
        );
    }
    Ok(())
}
