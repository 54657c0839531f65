//! The limits of files, lines and columns, each at its number and one past it.

use super::runs::{IMAGE, TRACE, output_of};
use std::alloc::{AllocError, Global};
use std::test::Fail;

/// Options, an image and a trace, and the status and the text.
type Case<'a> = (&'a [&'a str], &'a [u8], &'a [u8], u8, &'a [u8]);

const AGREES: &[u8] = b"agrees 1\n";

const NO_HEADER: &[u8] = b"refused trace: no header\n";

const OUTSIDE: &[u8] = b"refused image: line 1: outside RAM\n";

const BAD_ADDRESS: &[u8] = b"refused image: line 1: bad address\n";

/// An image that leaves 0 where the row's instruction should stand.
const ZERO: &[u8] = b"differs row 1: insn expected 0x0000000000000000 found 0x0000000000500093\n";

/// The last page below 2^56 as RAM.
const HIGH: &[&str] = &["--ram=0xfffffffffff000:0x1000", "--pc=0xfffffffffffffc"];

const HIGH_TRACE: &[u8] = b"insn,pc_rdata\n0x00500093,0xfffffffffffffc\n";

/// The first page as RAM.
const LOW: &[&str] = &["--ram=0:4096", "--pc=8"];

/// The number of bytes of a file: the image has 21, the trace 85.
const SIZES: [Case; 12] = [
    (&["--max-image=21"], IMAGE, TRACE, 0, AGREES),
    (
        &["--max-image=20"],
        IMAGE,
        TRACE,
        3,
        b"refused image: more than 20 bytes\n",
    ),
    (&["--max-image=1"], b"\n", TRACE, 1, ZERO),
    (
        &["--max-image=1"],
        b"\n\n",
        TRACE,
        3,
        b"refused image: more than 1 bytes\n",
    ),
    (&["--max-image=1073741824"], IMAGE, TRACE, 0, AGREES),
    (&["--max-trace=85"], IMAGE, TRACE, 0, AGREES),
    (
        &["--max-trace=84"],
        IMAGE,
        TRACE,
        4,
        b"refused trace: more than 84 bytes\n",
    ),
    (&["--max-trace=1"], IMAGE, b"\n", 4, NO_HEADER),
    (
        &["--max-trace=1"],
        IMAGE,
        b"\n\n",
        4,
        b"refused trace: more than 1 bytes\n",
    ),
    (&["--max-trace=1099511627776"], IMAGE, TRACE, 0, AGREES),
    (
        &["--max-image=1073741825"],
        IMAGE,
        TRACE,
        2,
        b"refused words\n",
    ),
    (
        &["--max-trace=1099511627777"],
        IMAGE,
        TRACE,
        2,
        b"refused words\n",
    ),
];

/// Addresses of an image: their digits, and the ends of RAM.
const ADDRESSES: [Case; 14] = [
    (&[], b"@0000000080000000 93 00 50 00", TRACE, 0, AGREES),
    (
        &[],
        b"@00000000080000000 93 00 50 00",
        TRACE,
        3,
        BAD_ADDRESS,
    ),
    (
        LOW,
        b"@8 93 00 50 00",
        b"insn,pc_rdata\n0x00500093,8\n",
        0,
        AGREES,
    ),
    (LOW, b"@ 93 00 50 00", TRACE, 3, BAD_ADDRESS),
    (&[], b"@87ffffff 93", TRACE, 1, ZERO),
    (&[], b"@87ffffff 93 00", TRACE, 3, OUTSIDE),
    (&[], b"@88000000 93", TRACE, 3, OUTSIDE),
    (&[], b"@7fffffff 93", TRACE, 3, OUTSIDE),
    (&[], b"@7fffffff", TRACE, 1, ZERO),
    (&[], b"@ffffffffffffffff 93", TRACE, 3, OUTSIDE),
    (HIGH, b"@fffffffffffffc 93 00 50 00", HIGH_TRACE, 0, AGREES),
    (HIGH, b"@fffffffffffffd 93 00 50 00", HIGH_TRACE, 3, OUTSIDE),
    (HIGH, b"@100000000000000 93", HIGH_TRACE, 3, OUTSIDE),
    (LOW, b"@fff 93 00", TRACE, 3, OUTSIDE),
];

#[test]
fn limits_files_and_addresses(rt: HostRuntime) -> Result<(), Fail> {
    let alloc = rt.alloc();
    'cases: for (options, image, trace, status, text) in SIZES.iter().chain(ADDRESSES.iter()) {
        let mut words = Vec::from_slice(alloc, &["rvjudge", "judge", "i", "t"])?;
        words.extend_from_slice(*options)?;
        let (found, sink) = output_of(&rt, alloc, words.as_slice(), *image, *trace)?;
        assert_eq!(rt; sink.held.as_slice(), *text, "{options:?}");
        assert_eq!(rt; found, *status);
    }
    Ok(())
}

/// Each limit below the length of a trace refuses it, unless a row before the limit decides.
#[test]
fn limits_a_trace(rt: HostRuntime) -> Result<(), Fail> {
    let alloc = rt.alloc();
    let trace = b"\xef\xbb\xbfinsn,pc_rdata\n\n0x00500093,0x80000000\r\nzz\n5";
    for limit in 1..48u64 {
        let number = format!(in alloc; "{limit}")?;
        let words = ["rvjudge", "judge", "i", "t", "--max-trace", number.as_str()];
        let (status, sink) = output_of(&rt, alloc, &words, IMAGE, trace)?;
        assert_eq!(rt; status, 4);
        if limit < 44 {
            assert!(rt; sink.held.starts_with(b"refused trace: more than "));
            assert!(rt; sink.held.ends_with(b" bytes\n"));
        } else {
            let text = b"refused trace: row 2: wrong number of fields\n".as_slice();
            assert_eq!(rt; sink.held.as_slice(), text);
        }
    }
    Ok(())
}

/// A front, so many times a byte, and a back.
type Long<'a> = (&'a [u8], u8, u32, &'a [u8]);

fn long_text(alloc: Global, long: Long) -> Result<Vec<u8>, AllocError> {
    let (front, byte, count, back) = long;
    let mut text = Vec::from_slice(alloc, front)?;
    for _ in 0..count {
        text.push(byte)?;
    }
    text.extend_from_slice(back)?;
    Ok(text)
}

/// A line has 65,536 bytes at most, a carriage return among them, the mark at the front of the file
/// not. The number with so many zeros is that of an instruction.
#[test]
fn bounds_a_line(rt: HostRuntime) -> Result<(), Fail> {
    let header = b"order,insn,pc_rdata,rd_addr,rd_wdata,pc_wdata\n".as_slice();
    let few = b"refused trace: row 1: wrong number of fields\n".as_slice();
    let no_insn = b"refused trace: no column insn\n".as_slice();
    let long = b"refused trace: line 2 too long\n".as_slice();
    let first_long = b"refused trace: line 1 too long\n".as_slice();
    let mark = b"\xef\xbb\xbf".as_slice();
    let number = b"insn,pc_rdata\n0x".as_slice();
    let rest = b"500093,0x80000000\n".as_slice();
    let cases: [(Long, &[u8]); 12] = [
        ((header, b'a', 65_536, b"\n"), few),
        ((header, b'a', 65_537, b"\n"), long),
        ((header, b'a', 65_535, b"\r\n"), few),
        ((header, b'a', 65_536, b"\r\n"), long),
        ((header, b'a', 65_536, b""), few),
        ((header, b'a', 65_537, b""), long),
        ((b"", b'a', 65_536, b"\n"), no_insn),
        ((b"", b'a', 65_537, b"\n"), first_long),
        ((mark, b'a', 65_536, b"\n"), no_insn),
        ((mark, b'a', 65_537, b"\n"), first_long),
        ((number, b'0', 65_517, rest), b"agrees 1\n"),
        ((number, b'0', 65_518, rest), long),
    ];
    'cases: for (line, text) in cases {
        let trace = long_text(rt.alloc(), line)?;
        let words = ["rvjudge", "judge", "i", "t"];
        let (_, sink) = output_of(&rt, rt.alloc(), &words, IMAGE, &trace)?;
        assert_eq!(rt; sink.held.as_slice(), text);
    }
    Ok(())
}

/// A column, its greatest number and the next one, and the text of a row that shows the greatest.
type Column<'a> = (&'a str, &'a str, &'a str, &'a [u8]);

const MOST: &str = "18446744073709551615";

const PAST: &str = "0x10000000000000000";

/// The row is ADDI x1, x0, 5 at 0x80000000; its own two columns are bounded below.
const COLUMNS: [Column; 24] = [
    ("valid", "1", "2", AGREES),
    ("order", MOST, PAST, AGREES),
    (
        "intr",
        "1",
        "2",
        b"differs row 1: intr expected 0x0000000000000000 found 0x0000000000000001\n",
    ),
    ("mode", "3", "4", AGREES),
    (
        "ixl",
        "3",
        "4",
        b"differs row 1: ixl expected 0x0000000000000002 found 0x0000000000000003\n",
    ),
    (
        "trap",
        "1",
        "2",
        b"differs row 1: trap expected 0x0000000000000000 found 0x0000000000000001\n",
    ),
    ("rs1_addr", "31", "32", AGREES),
    ("rs1_rdata", MOST, PAST, AGREES),
    ("rs2_addr", "31", "32", AGREES),
    ("rs2_rdata", MOST, PAST, AGREES),
    (
        "rd_addr",
        "31",
        "32",
        b"differs row 1: rd_addr expected 0x0000000000000001 found 0x000000000000001f\n",
    ),
    (
        "rd_wdata",
        MOST,
        PAST,
        b"differs row 1: rd_wdata expected 0x0000000000000005 found 0xffffffffffffffff\n",
    ),
    (
        "pc_wdata",
        MOST,
        PAST,
        b"differs row 1: pc_wdata expected 0x0000000080000004 found 0xffffffffffffffff\n",
    ),
    ("mem_addr", MOST, PAST, AGREES),
    ("mem_rmask", "255", "256", AGREES),
    ("mem_rdata", MOST, PAST, AGREES),
    (
        "mem_wmask",
        "255",
        "256",
        b"differs row 1: mem_wmask expected 0x0000000000000000 found 0x00000000000000ff\n",
    ),
    ("mem_wdata", MOST, PAST, AGREES),
    ("mem_paddr", MOST, PAST, AGREES),
    ("halt", "1", "2", AGREES),
    ("csr_mepc_rmask", MOST, PAST, AGREES),
    ("csr_mepc_wmask", MOST, PAST, AGREES),
    (
        "csr_mscratch_rdata",
        MOST,
        PAST,
        b"differs row 1: csr_mscratch_rdata expected 0x0000000000000000 found 0xffffffffffffffff\n",
    ),
    (
        "csr_satp_wdata",
        MOST,
        PAST,
        b"differs row 1: csr_satp_wdata expected 0x0000000000000000 found 0xffffffffffffffff\n",
    ),
];

#[test]
fn bounds_numbers_of_columns(rt: HostRuntime) -> Result<(), Fail> {
    let alloc = rt.alloc();
    let words = ["rvjudge", "judge", "i", "t"];
    'columns: for (name, most, past, text) in COLUMNS {
        let row = "0x00500093,0x80000000";
        let trace = format!(in alloc; "insn,pc_rdata,{name}\n{row},{most}\n")?;
        let (_, sink) = output_of(&rt, alloc, &words, IMAGE, trace.as_bytes())?;
        assert_eq!(rt; sink.held.as_slice(), text, "{name}");
        let trace = format!(in alloc; "insn,pc_rdata,{name}\n{row},{past}\n")?;
        let (status, sink) = output_of(&rt, alloc, &words, IMAGE, trace.as_bytes())?;
        let wide = format!(in alloc; "refused trace: row 1: {name} too wide\n")?;
        assert_eq!(rt; sink.held.as_slice(), wide.as_bytes());
        assert_eq!(rt; status, 4);
    }
    Ok(())
}

/// The two columns that each row shows: 32 and 64 bits.
#[test]
fn bounds_words_and_addresses(rt: HostRuntime) -> Result<(), Fail> {
    let cases: [(&[u8], &[u8]); 4] = [
        (
            b"insn,pc_rdata\n0xffffffff,0x80000000\n",
            b"differs row 1: insn expected 0x0000000000500093 found 0x00000000ffffffff\n",
        ),
        (
            b"insn,pc_rdata\n4294967296,0x80000000\n",
            b"refused trace: row 1: insn too wide\n",
        ),
        (
            b"insn,pc_rdata\n0x00500093,0xffffffffffffffff\n",
            b"differs row 1: pc_rdata expected 0x0000000080000000 found 0xffffffffffffffff\n",
        ),
        (
            b"insn,pc_rdata\n0x00500093,18446744073709551616\n",
            b"refused trace: row 1: pc_rdata too wide\n",
        ),
    ];
    'cases: for (trace, text) in cases {
        let words = ["rvjudge", "judge", "i", "t"];
        let (_, sink) = output_of(&rt, rt.alloc(), &words, IMAGE, trace)?;
        assert_eq!(rt; sink.held.as_slice(), text);
    }
    Ok(())
}
