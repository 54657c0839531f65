//! Runs of which each read fails in turn, and whose text is taken up to each of its bytes.

ghost use Rattle.std.specs.Prelude.{◌<◌};
ghost use Rattle.outside_ports.specs.Memory.{known_files_of};

use super::programs::{CALL_IMAGE, CALL_TRACE};
use super::runs::{IMAGE, TRACE, list, named_file};
use super::states::{STATE, STATE_FILES, STATE_WORDS};
use judge_run::judge;
use outside_ports::{DripShelf, FailSink, Failed, MemShelf, MemSink, NamedFile, OpenGate, Shelf};
use std::alloc::{AllocError, Global};
use std::process::Abort;
use std::test::Fail;
use std::thread::Threads;

/// A shelf that gives so many bytes a read, and of which one read fails.
#[derive(Drop)]
struct OneFails {
    shelf: DripShelf,
    /// The number of the read that fails, from 1.
    failing: u64,
    /// How many reads there were.
    calls: u64,
    /// How many of them failed.
    faults: u64,
}

impl OneFails {
    fn new(shelf: DripShelf, failing: u64) -> Self {
        OneFails {
            shelf,
            failing,
            calls: 0,
            faults: 0,
        }
    }
}

impl Shelf for OneFails {
    ghost known_files = { λ shelf. known_files_of shelf.shelf.shelf.files.items };

    ghost faults = { λ shelf. shelf.faults };

    ghost misses = { λ shelf. shelf.shelf.shelf.misses };

    fn read(&mut self, name: &str, at: u64, buf: &mut [u8]) -> Result<usize, Failed> {
        self.calls = self.calls.saturating_add(1);
        let is_failing = self.calls == self.failing;
        match self.shelf.read(name, at, buf) {
            Ok(count) if !is_failing => Ok(count),
            _ => {
                self.faults = self.faults.saturating_add(1);
                Err(Failed)
            }
        }
    }
}

/// The words of a run, the files that it reads, each to its end, and its usual status and text.
type Case = (
    &'static [&'static str],
    &'static [&'static [u8]],
    u8,
    &'static [u8],
);

/// ADDI x1, x0, 5; ADDI x2, x1, 1; ADDI x3, x0, 3; ADDI x4, x0, 4.
const FOUR_IMAGE: &[u8] = b"@80000000 93 00 50 00 13 81 10 00 93 01 30 00 13 02 40 00";

/// No row shows what was written, so that each guess after the first row lacks x1.
const FOUR_TRACE: &[u8] = b"insn,pc_rdata,rs1_rdata
0x00500093,0x80000000,
0x00108113,0x80000004,5
0x00300193,0x80000008,
0x00400213,0x8000000c,
";

/// Entry 0 of protection is given all addresses, and satp Sv39 with its root at 0x80001000. Then
/// MPRV, with MPP as U, and a load at 0x10: the leaf at level 2 has 1 as its page number, which is
/// not aligned there.
const PAGE_IMAGE: &[u8] = b"@80000000
    93 00 f0 ff 73 90 00 3b 93 00 f0 01 73 90 00 3a 93 01 10 00 93 91 f1 03
    37 02 08 00 13 02 12 00 b3 e1 41 00 73 90 01 18 b7 12 02 00 93 82 02 80
    73 90 02 30 03 33 00 01
    @80001000 43 04
";

const PAGE_TRACE: &[u8] = b"insn,pc_rdata,trap,csr_mcause_wdata,csr_mtval_wdata
0xfff00093,0x80000000,0,,
0x3b009073,0x80000004,0,,
0x01f00093,0x80000008,0,,
0x3a009073,0x8000000c,0,,
0x00100193,0x80000010,0,,
0x03f19193,0x80000014,0,,
0x00080237,0x80000018,0,,
0x00120213,0x8000001c,0,,
0x0041e1b3,0x80000020,0,,
0x18019073,0x80000024,0,,
0x000212b7,0x80000028,0,,
0x80028293,0x8000002c,0,,
0x30029073,0x80000030,0,,
0x01003303,0x80000034,1,13,0x10
";

/// The same with MPP as S, and the leaf stored by the program: one of 1 GiB, by which the load at 0
/// reads the first two instructions.
const LEAF_IMAGE: &[u8] = b"@80000000
    93 00 f0 ff 73 90 00 3b 93 00 f0 01 73 90 00 3a 93 01 10 00 93 91 f1 03
    37 02 08 00 13 02 12 00 b3 e1 41 00 73 90 01 18 b7 12 02 00 93 82 02 80
    93 13 c2 00 37 04 00 20 13 04 74 0c 23 b0 83 00 13 04 00 00 73 90 02 30
    03 33 00 00
";

/// Two rows do not show the leaf, so that the guess after the store has another entry there.
const LEAF_TRACE: &[u8] = b"insn,pc_rdata,trap,rd_addr,rd_wdata
0xfff00093,0x80000000,0,1,0xffffffffffffffff
0x3b009073,0x80000004,0,0,0
0x01f00093,0x80000008,0,1,0x1f
0x3a009073,0x8000000c,0,0,0
0x00100193,0x80000010,0,3,1
0x03f19193,0x80000014,0,3,0x8000000000000000
0x00080237,0x80000018,0,4,0x80000
0x00120213,0x8000001c,0,4,0x80001
0x0041e1b3,0x80000020,0,3,0x8000000000080001
0x18019073,0x80000024,0,0,0
0x000212b7,0x80000028,0,5,0x21000
0x80028293,0x8000002c,0,5,0x20800
0x00c21393,0x80000030,0,7,0x80001000
0x20000437,0x80000034,0,,
0x0c740413,0x80000038,0,,
0x0083b023,0x8000003c,0,0,0
0x00000413,0x80000040,0,8,0
0x30029073,0x80000044,0,0,0
0x00003303,0x80000048,0,6,0x3b009073fff00093
";

const PLAIN: &[&str] = &["rvjudge", "judge", "i", "t"];

/// Each segment has one line.
const LINES: &[&str] = &[
    "rvjudge",
    "judge",
    "i",
    "t",
    "--segment",
    "1",
    "--workers",
    "2",
];

/// And each window one segment, so that the lines are taken one by one.
const WINDOWS: &[&str] = &["rvjudge", "judge", "i", "t", "--segment=1", "--window=1"];

const MAKE: &[&str] = &["rvjudge", "make", "7", "1000"];

/// Several segments a window, and several windows.
const BOTH: &[&str] = &["rvjudge", "judge", "i", "t", "--segment=2", "--window=3"];

/// A row, rows whose guesses are wrong, a made trace, control and status registers, page tables:
/// in one window, over the ends of windows or in further rounds; and each other kind of line.
const CASES: [Case; 17] = [
    (PLAIN, &[IMAGE, TRACE], 0, b"agrees 1\n"),
    (LINES, &[FOUR_IMAGE, FOUR_TRACE], 0, b"agrees 4\n"),
    (WINDOWS, &[FOUR_IMAGE, FOUR_TRACE], 0, b"agrees 4\n"),
    (MAKE, &[], 0, b"made 7 1000: agrees 1000\n"),
    (PLAIN, &[CALL_IMAGE, CALL_TRACE], 0, b"agrees 9\n"),
    (WINDOWS, &[CALL_IMAGE, CALL_TRACE], 0, b"agrees 9\n"),
    (PLAIN, &[PAGE_IMAGE, PAGE_TRACE], 0, b"agrees 14\n"),
    (WINDOWS, &[PAGE_IMAGE, PAGE_TRACE], 0, b"agrees 14\n"),
    (LINES, &[LEAF_IMAGE, LEAF_TRACE], 0, b"agrees 19\n"),
    (WINDOWS, &[LEAF_IMAGE, LEAF_TRACE], 0, b"agrees 19\n"),
    (BOTH, &[LEAF_IMAGE, LEAF_TRACE], 0, b"agrees 19\n"),
    (
        PLAIN,
        &[
            IMAGE,
            b"insn,pc_rdata,rd_addr,rd_wdata\n0x00500093,0x80000000,1,6\n",
        ],
        1,
        b"differs row 1: rd_wdata expected 0x0000000000000005 found 0x0000000000000006\n",
    ),
    (&["rvjudge", "judge", "i"], &[], 2, b"refused words\n"),
    (
        PLAIN,
        &[b"@80000000 9"],
        3,
        b"refused image: line 1: bad byte\n",
    ),
    (PLAIN, &[IMAGE, b""], 4, b"refused trace: no header\n"),
    (
        PLAIN,
        &[IMAGE, b"insn,pc_rdata\n0x00500093,0x80000000\nzz\n"],
        4,
        b"refused trace: row 2: wrong number of fields\n",
    ),
    (
        PLAIN,
        &[
            IMAGE,
            b"insn,pc_rdata\n0x00500093,0x80000000\nzz,0x80000004\n",
        ],
        4,
        b"refused trace: row 2: insn not a number\n",
    ),
];

/// The files under their names.
fn files_of(alloc: Global, files: &[&[u8]]) -> Result<Vec<NamedFile>, AllocError> {
    let mut list = Vec::new(alloc);
    'files: for (name, bytes) in ["i", "t"].iter().zip(files.iter()) {
        list.push(named_file(alloc, *name, *bytes)?)?;
    }
    Ok(list)
}

/// How many reads take the files to their ends: each gives at most so many bytes, and the last of a
/// file gives none.
fn reads_of(files: &[&[u8]], most: usize) -> u64
    requires { 0 < most }
{
    let mut reads: u64 = 0;
    'files: for bytes in files {
        reads = reads.saturating_add(bytes.len().div_ceil(most) as u64);
        reads = reads.saturating_add(1);
    }
    reads
}

/// Fails each read of a run, and then one that is not made. No read is made after one that fails.
fn fail_each_read<R: Threads + Sync + Abort>(
    rt: &R,
    alloc: Global,
    case: &Case,
    drip: u16,
) -> Result<(), Fail> {
    let (words, files, status, text) = *case;
    let words = list(alloc, words)?;
    let most = usize::from(drip) + 1;
    let reads = reads_of(files, most);
    'reads: for failing in 1..reads.saturating_add(2) {
        let shelf = DripShelf::new(files_of(alloc, files)?, most);
        let mut shelf = OneFails::new(shelf, failing);
        let mut sink = MemSink::new(alloc);
        let found = judge(rt, alloc, &words, &mut shelf, &mut sink, &OpenGate);
        let found = (found, sink.held.as_slice(), shelf.calls, shelf.faults);
        if failing <= reads {
            assert_eq!(rt; found, (5, b"".as_slice(), failing, 1));
        } else {
            assert_eq!(rt; found, (status, text, reads, 0));
        }
    }
    Ok(())
}

/// Lets a sink take each number of bytes, up to those of the whole text.
fn fail_each_write<R: Threads + Sync + Abort>(
    rt: &R,
    alloc: Global,
    case: &Case,
) -> Result<(), Fail> {
    let (words, files, status, text) = *case;
    let words = list(alloc, words)?;
    let rooms = text.len().saturating_add(1);
    'rooms: for room in 0..rooms {
        let mut shelf = MemShelf::new(files_of(alloc, files)?);
        let mut sink = FailSink::new(alloc, room)?;
        let found = judge(rt, alloc, &words, &mut shelf, &mut sink, &OpenGate);
        let wanted = if room < text.len() { 5 } else { status };
        assert_eq!(rt; found, wanted);
        assert_eq!(rt; Some(sink.held.as_slice()), text.get(..room));
    }
    Ok(())
}

/// Whichever read fails, the status is 5 and nothing is written.
#[test]
fn ends_with_each_read_that_fails(rt: HostRuntime) -> Result<(), Fail> {
    'cases: for case in &CASES {
        for drip in [65_535, 15] {
            fail_each_read(&rt, rt.alloc(), case, drip)?;
        }
    }
    Ok(())
}

/// Where a sink takes some of a text and then fails, the status is 5 and it has these bytes.
#[test]
fn ends_with_each_write_that_fails(rt: HostRuntime) -> Result<(), Fail> {
    'cases: for case in &CASES {
        fail_each_write(&rt, rt.alloc(), case)?;
    }
    Ok(())
}

/// The same of a run that writes the state after it.
#[test]
fn ends_with_each_failure_of_a_state(rt: HostRuntime) -> Result<(), Fail> {
    let case: Case = (STATE_WORDS, STATE_FILES, 0, STATE);
    fail_each_read(&rt, rt.alloc(), &case, 15)?;
    fail_each_write(&rt, rt.alloc(), &case)
}

/// In windows of one line the trace is read no further than the line that differs, here a byte a
/// read, so that a read after it is not made and cannot fail.
#[test]
fn reads_no_further_than_a_difference(rt: HostRuntime) -> Result<(), Fail> {
    let alloc = rt.alloc();
    let trace = b"insn,pc_rdata,rd_wdata\n0x00500093,0x80000000,6\nzz\n";
    let text = b"differs row 1: rd_wdata expected 0x0000000000000005 found 0x0000000000000006\n";
    let words = list(alloc, WINDOWS)?;
    // The image and its end, and the lines with their line feeds.
    let needed: u64 = 21 + 1 + 23 + 24;
    'reads: for failing in 1..needed + 5 {
        let shelf = DripShelf::new(files_of(alloc, &[IMAGE, trace.as_slice()])?, 1);
        let mut shelf = OneFails::new(shelf, failing);
        let mut sink = MemSink::new(alloc);
        let status = judge(&rt, alloc, &words, &mut shelf, &mut sink, &OpenGate);
        let found = (status, sink.held.as_slice());
        if failing <= needed {
            assert_eq!(rt; found, (5, b"".as_slice()));
        } else {
            assert_eq!(rt; found, (1, text.as_slice()));
        }
    }
    Ok(())
}

/// A file that is not there is a read that fails: one of the image, or of the trace.
#[test]
fn ends_with_a_missing_file(rt: HostRuntime) -> Result<(), Fail> {
    let alloc = rt.alloc();
    let words = list(alloc, PLAIN)?;
    for (name, bytes) in [("i", IMAGE), ("t", TRACE)] {
        let mut only = Vec::new(alloc);
        only.push(named_file(alloc, name, bytes)?)?;
        let mut shelf = MemShelf::new(only);
        let mut sink = MemSink::new(alloc);
        let status = judge(&rt, alloc, &words, &mut shelf, &mut sink, &OpenGate);
        assert_eq!(rt; (status, shelf.misses, sink.held.len()), (5, 1, 0));
    }
    Ok(())
}
