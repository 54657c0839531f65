use judge_run::judge;
use outside_ports::{
    DripShelf, FailShelf, FailSink, HoldGate, MemShelf, MemSink, NamedFile, OpenGate, Shelf, Sink,
};
use std::alloc::{AllocError, Global};
use std::process::Abort;
use std::test::Fail;
use std::thread::Threads;
use trace_maker::make;

pub const IMAGE: &[u8] = b"@80000000 93 00 50 00";

pub const TRACE: &[u8] =
    b"order,insn,pc_rdata,rd_addr,rd_wdata,pc_wdata\n0,0x00500093,0x80000000,1,5,0x80000004\n";

pub fn list(alloc: Global, words: &[&str]) -> Result<Vec<String>, AllocError> {
    let mut list = Vec::new(alloc);
    for word in words {
        list.push(String::from_str(alloc, *word)?)?;
    }
    Ok(list)
}

pub fn named_file(alloc: Global, name: &str, bytes: &[u8]) -> Result<NamedFile, AllocError> {
    let name = String::from_str(alloc, name)?;
    let bytes = Vec::from_slice(alloc, bytes)?;
    Ok(NamedFile { name, bytes })
}

fn pair(alloc: Global, image: &[u8], trace: &[u8]) -> Result<Vec<NamedFile>, AllocError> {
    let mut files = Vec::new(alloc);
    files.push(named_file(alloc, "i", image)?)?;
    files.push(named_file(alloc, "t", trace)?)?;
    Ok(files)
}

fn files(alloc: Global, image: &[u8], trace: &[u8]) -> Result<MemShelf, AllocError> {
    Ok(MemShelf::new(pair(alloc, image, trace)?))
}

/// An ELF file of one segment with IMAGE's bytes at 0x80000000, which is its entry point too.
const ELF: [u8; 124] = [
    0x7f, 0x45, 0x4c, 0x46, 2, 1, 1, 0, 0, 0, 0, 0, 0, 0, 0, 0, // class, encoding, version
    2, 0, 243, 0, 1, 0, 0, 0, 0, 0, 0, 0x80, 0, 0, 0, 0, // kind, machine, version, entry
    64, 0, 0, 0, 0, 0, 0, 0, 0, 0, 0, 0, 0, 0, 0, 0, // phoff, shoff
    0, 0, 0, 0, 64, 0, 56, 0, 1, 0, 0, 0, 0, 0, 0, 0, // flags, ehsize, phentsize, phnum
    1, 0, 0, 0, 5, 0, 0, 0, 120, 0, 0, 0, 0, 0, 0, 0, // kind, flags, offset
    0, 0, 0, 0x40, 0, 0, 0, 0, 0, 0, 0, 0x80, 0, 0, 0, 0, // vaddr, paddr
    4, 0, 0, 0, 0, 0, 0, 0, 8, 0, 0, 0, 0, 0, 0, 0, // filesz, memsz
    4, 0, 0, 0, 0, 0, 0, 0, // align
    0x93, 0x00, 0x50, 0x00,
];

/// ADDI x1, x0, -1; SLLI x1, x1, 63; ADDI x2, x0, -1; DIV x3, x1, x2; REM x4, x1, x0; DIVU x5, x1,
/// x0.
const SIX_IMAGE: &[u8] =
    b"@80000000 93 00 f0 ff 93 90 f0 03 13 01 f0 ff b3 c1 20 02 33 e2 00 02 b3 d2 00 02";

const SIX_TRACE: &[u8] = b"insn,pc_rdata,rd_addr,rd_wdata
0xfff00093,0x80000000,1,0xffffffffffffffff
0x03f09093,0x80000004,1,0x8000000000000000
0xfff00113,0x80000008,2,0xffffffffffffffff
0x0220c1b3,0x8000000c,3,0x8000000000000000
0x0200e233,0x80000010,4,0x8000000000000000
0x0200d2b3,0x80000014,5,0xffffffffffffffff
";

/// How many bytes a read gives at most, less one.
const DRIPS: [u16; 6] = [0, 1, 2, 6, 4095, 65535];

/// Most lines of a segment, most segments of a window, and workers.
const SHARES: [[&str; 3]; 9] = [
    ["1", "1", "1"],
    ["1", "1", "4"],
    ["1", "64", "4"],
    ["2", "2", "64"],
    ["3", "1", "2"],
    ["1", "9", "3"],
    ["5", "2", "3"],
    ["1", "1024", "1"],
    ["1048576", "1024", "64"],
];

/// The words, and after them the options that share the work out so.
fn words_with_share(
    alloc: Global,
    words: &[&str],
    share: [&str; 3],
) -> Result<Vec<String>, AllocError> {
    let mut list = list(alloc, words)?;
    let names = ["--segment", "--window", "--workers"];
    for (name, value) in names.iter().zip(share) {
        list.push(String::from_str(alloc, *name)?)?;
        list.push(String::from_str(alloc, value)?)?;
    }
    Ok(list)
}

/// What a run over these files writes, and its status: the same however few bytes a read gives, and
/// however the work is shared out.
pub fn output_of<R: Threads + Sync + Abort>(
    rt: &R,
    alloc: Global,
    words: &[&str],
    image: &[u8],
    trace: &[u8],
) -> Result<(u8, MemSink), AllocError> {
    let plain = list(alloc, words)?;
    let mut shelf = files(alloc, image, trace)?;
    let mut sink = MemSink::new(alloc);
    let status = judge(rt, alloc, &plain, &mut shelf, &mut sink, &OpenGate);
    for drip in DRIPS {
        let mut shelf = DripShelf::new(pair(alloc, image, trace)?, usize::from(drip) + 1);
        let mut dripped = MemSink::new(alloc);
        let again = judge(rt, alloc, &plain, &mut shelf, &mut dripped, &OpenGate);
        assert_eq!(rt; again, status);
        assert_eq!(rt; dripped.held, sink.held);
    }
    for share in SHARES {
        let words = words_with_share(alloc, words, share)?;
        let mut shelf = files(alloc, image, trace)?;
        let mut cut = MemSink::new(alloc);
        let again = judge(rt, alloc, &words, &mut shelf, &mut cut, &OpenGate);
        assert_eq!(rt; again, status);
        assert_eq!(rt; cut.held, sink.held);
    }
    Ok((status, sink))
}

#[test]
fn judges_words_images_and_traces(rt: HostRuntime) -> Result<(), Fail> {
    let row: &[&str] = &["rvjudge", "judge", "i", "t"];
    let few: &[&str] = &["rvjudge", "judge", "i"];
    let none: &[&str] = &[];
    let six = b"insn,pc_rdata,rd_addr,rd_wdata\n0x00500093,0x80000000,1,6\n";
    let halts = b"insn,pc_rdata,halt\n0x00500093,0x80000000,1\n";
    let halted = b"insn,pc_rdata,halt\n0x00500093,0x80000000,1\n0,0,0\n";
    let cases = [
        (row, IMAGE, TRACE, 0, b"agrees 1\n".as_slice()),
        (
            row,
            IMAGE,
            six,
            1,
            b"differs row 1: rd_wdata expected 0x0000000000000005 found 0x0000000000000006\n",
        ),
        (row, IMAGE, halts, 0, b"agrees 1\n"),
        (
            row,
            IMAGE,
            halted,
            1,
            b"differs row 2: valid expected 0x0000000000000000 found 0x0000000000000001\n",
        ),
        (row, IMAGE, b"", 4, b"refused trace: no header\n"),
        (
            row,
            b"@zz",
            TRACE,
            3,
            b"refused image: line 1: bad address\n",
        ),
        (few, IMAGE, TRACE, 2, b"refused words\n"),
        (none, IMAGE, TRACE, 2, b"refused words\n"),
    ];
    for (words, image, trace, status, text) in cases {
        let (found, sink) = output_of(&rt, rt.alloc(), words, image, trace)?;
        assert_eq!(rt; found, status);
        assert_eq!(rt; sink.held.as_slice(), text);
    }
    Ok(())
}

/// An ELF file is told by its first four bytes, and the run begins at its entry point unless the
/// words say where.
#[test]
fn judges_elf_files(rt: HostRuntime) -> Result<(), Fail> {
    let row: &[&str] = &["rvjudge", "judge", "i", "t"];
    let there: &[&str] = &["rvjudge", "judge", "i", "t", "--pc", "0x80000000"];
    let small: &[&str] = &["rvjudge", "judge", "i", "t", "--max-image", "123"];
    let mut later = Vec::from_slice(rt.alloc(), &ELF)?;
    if let Some(entry) = later.get_mut(24) {
        *entry = 4;
    }
    let mut odd = Vec::from_slice(rt.alloc(), &ELF)?;
    if let Some(entry) = odd.get_mut(24) {
        *entry = 1;
    }
    let mut text = Vec::from_slice(rt.alloc(), &ELF)?;
    if let Some(byte) = text.get_mut(3) {
        *byte = 0x47;
    }
    let cases = [
        (row, ELF.as_slice(), 0, b"agrees 1\n".as_slice()),
        (
            row,
            later.as_slice(),
            1,
            b"differs row 1: pc_rdata expected 0x0000000080000004 found 0x0000000080000000\n",
        ),
        (there, later.as_slice(), 0, b"agrees 1\n"),
        (there, odd.as_slice(), 3, b"refused image: elf entry odd\n"),
        (row, &ELF[..63], 3, b"refused image: elf cut short\n"),
        (row, &ELF[..4], 3, b"refused image: elf cut short\n"),
        (row, &ELF[..3], 3, b"refused image: line 1: bad byte\n"),
        (
            row,
            text.as_slice(),
            3,
            b"refused image: line 1: bad byte\n",
        ),
        (
            row,
            &ELF[..123],
            3,
            b"refused image: elf segment 0: bad size\n",
        ),
        (
            small,
            odd.as_slice(),
            3,
            b"refused image: more than 123 bytes\n",
        ),
    ];
    for (words, image, status, line) in cases {
        let (found, sink) = output_of(&rt, rt.alloc(), words, image, TRACE)?;
        assert_eq!(rt; found, status);
        assert_eq!(rt; sink.held.as_slice(), line);
    }
    Ok(())
}

/// What comes first decides: a difference before a bad row, a bad row before what follows it, and a
/// limit before all that a file holds.
#[test]
fn judges_by_what_comes_first(rt: HostRuntime) -> Result<(), Fail> {
    let plain: &[&str] = &["rvjudge", "judge", "i", "t"];
    let low: &[&str] = &[
        "rvjudge", "judge", "i", "t", "--ram", "0:0x1000", "--pc", "0x100",
    ];
    let image_limit: &[&str] = &["rvjudge", "judge", "i", "t", "--max-image", "5"];
    let trace_limit: &[&str] = &["rvjudge", "judge", "i", "t", "--max-trace", "10"];
    // ADDI x1, x0, 5; ADDI x1, x1, 1. And an image whose first instruction is illegal.
    let two = b"@80000000 93 00 50 00 93 80 10 00".as_slice();
    let illegal = b"@0 93 00 50 00 @100 00 00".as_slice();
    let cases = [
        (
            plain,
            two,
            b"order,insn,pc_rdata,rd_addr,rd_wdata,pc_wdata
0,0x00500093,0x80000000,1,5,0x80000004
1,0x00108093,0x80000004,1,7,0x80000008
zz
"
                .as_slice(),
            1,
            b"differs row 2: rd_wdata expected 0x0000000000000006 found 0x0000000000000007\n".as_slice(),
        ),
        (
            plain,
            two,
            b"order,insn,pc_rdata,rd_addr,rd_wdata,pc_wdata
0,0x00500093,0x80000000,1,5,0x80000004
zz
",
            4,
            b"refused trace: row 2: wrong number of fields\n",
        ),
        (
            plain,
            two,
            b"order,insn,pc_rdata,rd_addr,rd_wdata,pc_wdata
0,0x00500093,0x80000000,1,5,0x80000004
1,0x00108093,0x10000000000000000,1,6,0x80000008
",
            4,
            b"refused trace: row 2: pc_rdata too wide\n",
        ),
        (
            low,
            illegal,
            b"insn,pc_rdata,trap,intr\n0,0x100,1,0\n0x00500093,0,0,0\n",
            0,
            b"agrees 2\n",
        ),
        (
            low,
            illegal,
            b"insn,pc_rdata,trap,intr\n0,0x100,1,0\n0x00500093,0,0,1\n",
            0,
            b"agrees 2\n",
        ),
        // An order that wraps, an invalid row and a blank line, after a mark and with returns.
        (
            plain,
            two,
            b"\xef\xbb\xbfvalid,order,insn,pc_rdata\r
1,0xffffffffffffffff,0x00500093,0x80000000\r
0,zz,,q\r
\r
1,0,0x00108093,0x80000004\r
",
            0,
            b"agrees 2\n",
        ),
        (
            image_limit,
            IMAGE,
            TRACE,
            3,
            b"refused image: more than 5 bytes\n",
        ),
        (
            trace_limit,
            IMAGE,
            TRACE,
            4,
            b"refused trace: more than 10 bytes\n",
        ),
    ];
    for (words, image, trace, status, text) in cases {
        let (found, sink) = output_of(&rt, rt.alloc(), words, image, trace)?;
        assert_eq!(rt; sink.held.as_slice(), text);
        assert_eq!(rt; found, status);
    }
    Ok(())
}

/// The example with each front of its trace alone: the text for the lengths from one to another.
#[test]
fn judges_each_front_of_a_trace(rt: HostRuntime) -> Result<(), Fail> {
    let texts = [
        (0, 0, b"refused trace: no header\n".as_slice()),
        (1, 9, b"refused trace: no column insn\n"),
        (10, 18, b"refused trace: no column pc_rdata\n"),
        (19, 46, b"agrees 0\n"),
        (47, 73, b"refused trace: row 1: wrong number of fields\n"),
        (74, 74, b"agrees 1\n"),
        (
            75,
            75,
            b"differs row 1: pc_wdata expected 0x0000000080000004 found 0x0000000000000000\n",
        ),
        (76, 76, b"refused trace: row 1: pc_wdata not a number\n"),
        (
            77,
            77,
            b"differs row 1: pc_wdata expected 0x0000000080000004 found 0x0000000000000008\n",
        ),
        (
            78,
            78,
            b"differs row 1: pc_wdata expected 0x0000000080000004 found 0x0000000000000080\n",
        ),
        (
            79,
            79,
            b"differs row 1: pc_wdata expected 0x0000000080000004 found 0x0000000000000800\n",
        ),
        (
            80,
            80,
            b"differs row 1: pc_wdata expected 0x0000000080000004 found 0x0000000000008000\n",
        ),
        (
            81,
            81,
            b"differs row 1: pc_wdata expected 0x0000000080000004 found 0x0000000000080000\n",
        ),
        (
            82,
            82,
            b"differs row 1: pc_wdata expected 0x0000000080000004 found 0x0000000000800000\n",
        ),
        (
            83,
            83,
            b"differs row 1: pc_wdata expected 0x0000000080000004 found 0x0000000008000000\n",
        ),
        (84, 85, b"agrees 1\n"),
    ];
    for (from, to, text) in texts {
        for length in from..to + 1 {
            let front = TRACE.get(..length).unwrap_or(TRACE);
            let (_, sink) = output_of(
                &rt,
                rt.alloc(),
                &["rvjudge", "judge", "i", "t"],
                IMAGE,
                front,
            )?;
            assert_eq!(rt; sink.held.as_slice(), text);
        }
    }
    Ok(())
}

/// The same with each front of its image.
#[test]
fn judges_each_front_of_an_image(rt: HostRuntime) -> Result<(), Fail> {
    let zero =
        b"differs row 1: insn expected 0x0000000000000000 found 0x0000000000500093\n".as_slice();
    let one =
        b"differs row 1: insn expected 0x0000000000000093 found 0x0000000000500093\n".as_slice();
    let byte = b"refused image: line 1: bad byte\n".as_slice();
    let texts = [
        (0, 0, zero),
        (1, 1, b"refused image: line 1: bad address\n".as_slice()),
        (2, 10, zero),
        (11, 11, byte),
        (12, 13, one),
        (14, 14, byte),
        (15, 16, one),
        (17, 17, byte),
        (18, 19, b"agrees 1\n"),
        (20, 20, byte),
        (21, 21, b"agrees 1\n"),
    ];
    for (from, to, text) in texts {
        for length in from..to + 1 {
            let front = IMAGE.get(..length).unwrap_or(IMAGE);
            let (_, sink) = output_of(
                &rt,
                rt.alloc(),
                &["rvjudge", "judge", "i", "t"],
                front,
                TRACE,
            )?;
            assert_eq!(rt; sink.held.as_slice(), text);
        }
    }
    Ok(())
}

/// Lines that csv and the numbers read in their own ways.
#[test]
fn judges_odd_lines(rt: HostRuntime) -> Result<(), Fail> {
    let cases = [
        (
            b"\"insn\",pc_rdata\n\" 0X500093\",0x80000000\n".as_slice(),
            b"agrees 1\n".as_slice(),
        ),
        (b"insn,pc_rdata\n5243027,\"002147483648\n", b"agrees 1\n"),
        (
            b"insn,pc_rdata\n  \n",
            b"refused trace: row 1: wrong number of fields\n",
        ),
        (
            b"insn,pc_rdata\n\xef\xbb\xbf0x00500093,0x80000000\n",
            b"agrees 1\n",
        ),
        (
            b"insn,pc_rdata\n0x100000000,0x80000000\n",
            b"refused trace: row 1: insn too wide\n",
        ),
        (
            b"insn,rvfi_insn,pc_rdata\n",
            b"refused trace: column insn twice\n",
        ),
        (
            b"insn,pc_rdata\n0x00500093,0x80000000\n\n0x0050\r,0\n",
            b"refused trace: row 2: stray return\n",
        ),
    ];
    for (trace, text) in cases {
        let (_, sink) = output_of(
            &rt,
            rt.alloc(),
            &["rvjudge", "judge", "i", "t"],
            IMAGE,
            trace,
        )?;
        assert_eq!(rt; sink.held.as_slice(), text);
    }
    Ok(())
}

/// A line has a row for each port, of its own columns; rows are counted, and not lines. The second
/// instruction adds 1 to 5.
#[test]
fn judges_ports(rt: HostRuntime) -> Result<(), Fail> {
    let image = b"@80000000 93 00 50 00 93 80 10 00";
    let two = b"insn,pc_rdata,insn_1,pc_rdata_1,valid_1\n".as_slice();
    let none: &[u8] = b"";
    let cases = [
        (
            two,
            b"0x00500093,0x80000000,0x00108093,0x80000004,1\n".as_slice(),
            b"agrees 2\n".as_slice(),
        ),
        (
            two,
            b"0x00500093,0x80000000,0x00108093,0x80000004,0\n",
            b"agrees 1\n",
        ),
        (
            two,
            b"0x00500093,0x80000000,0x00108093,0x80000008,1\n",
            b"differs row 2: pc_rdata expected 0x0000000080000004 found 0x0000000080000008\n",
        ),
        (
            two,
            b"0x00500093,0x80000000,0x00108093,0x10000000000000000,1\n",
            b"refused trace: row 2: pc_rdata_1 too wide\n",
        ),
        (
            two,
            b"0x00500093,0x80000002,0x00108093,0x10000000000000000,1\n",
            b"differs row 1: pc_rdata expected 0x0000000080000000 found 0x0000000080000002\n",
        ),
        (
            two,
            b"0x00500093,0x80000000,,,0\n0x00108093,0x80000004,,,0\nzz\n",
            b"refused trace: row 5: wrong number of fields\n",
        ),
        (
            b"valid_2,insn_2,pc_rdata_2,insn_1,pc_rdata_1,valid_0,rvfi_insn_0,pc_rdata\n",
            b",0x00108093,0x80000004,0x00500093,0x80000000,0,,\n",
            b"agrees 2\n",
        ),
        (
            b"insn,pc_rdata,insn_1\n",
            none,
            b"refused trace: no column pc_rdata_1\n",
        ),
        (
            b"insn,insn_0,pc_rdata\n",
            none,
            b"refused trace: column insn twice\n",
        ),
    ];
    for (header, line, text) in cases {
        let mut trace = Vec::from_slice(rt.alloc(), header)?;
        trace.extend_from_slice(line)?;
        let words = ["rvjudge", "judge", "i", "t"];
        let (_, sink) = output_of(&rt, rt.alloc(), &words, image, &trace)?;
        assert_eq!(rt; sink.held.as_slice(), text);
    }
    Ok(())
}

/// Two workers judge six segments side by side: the one that claims segment 1 is held until segment
/// 2 was found, by the other. Each segment passes the gate once.
#[test]
fn judges_side_by_side(rt: HostRuntime) -> Result<(), Fail> {
    let alloc = rt.alloc();
    let words = [
        "rvjudge",
        "judge",
        "i",
        "t",
        "--segment",
        "1",
        "--workers",
        "2",
    ];
    let words = list(alloc, &words)?;
    let mut shelf = files(alloc, SIX_IMAGE, SIX_TRACE)?;
    let mut sink = MemSink::new(alloc);
    let gate = HoldGate::new();
    assert_eq!(rt; judge(&rt, alloc, &words, &mut shelf, &mut sink, &gate), 0);
    assert_eq!(rt; sink.held.as_slice(), b"agrees 6\n".as_slice());
    assert_eq!(rt; (gate.befores(), gate.afters()), (6, 6));
    assert!(rt; !gate.gave_up());
    Ok(())
}

/// Most lines of a segment, most segments of a window, and workers, by which a part of 400 rows or
/// more has more than 64 segments.
const MANY: [[&str; 3]; 4] = [
    ["1", "1024", "2"],
    ["1", "1024", "3"],
    ["1", "600", "2"],
    ["2", "1024", "2"],
];

/// A part may have more than 64 segments, whoever reads them.
#[test]
fn judges_parts_of_many_segments(rt: HostRuntime) -> Result<(), Fail> {
    let alloc = rt.alloc();
    let cases: [(u32, &str, &[u8], &[u8]); 3] = [
        (400, "400", b"agrees 400\n", b"made 5 400: agrees 400\n"),
        (700, "700", b"agrees 700\n", b"made 5 700: agrees 700\n"),
        (
            1000,
            "1000",
            b"agrees 1000\n",
            b"made 5 1000: agrees 1000\n",
        ),
    ];
    for (rows, count, text, made) in cases {
        let (image, trace) = make(alloc, 5, rows)?;
        for share in MANY {
            let words = words_with_share(alloc, &["rvjudge", "judge", "i", "t"], share)?;
            let mut shelf = files(alloc, &image, &trace)?;
            let mut sink = MemSink::new(alloc);
            let status = judge(&rt, alloc, &words, &mut shelf, &mut sink, &OpenGate);
            assert_eq!(rt; (status, sink.held.as_slice()), (0, text));
            let words = words_with_share(alloc, &["rvjudge", "make", "5", count], share)?;
            let mut shelf = MemShelf::new(Vec::new(alloc));
            let mut sink = MemSink::new(alloc);
            let status = judge(&rt, alloc, &words, &mut shelf, &mut sink, &OpenGate);
            assert_eq!(rt; (status, sink.held.as_slice()), (0, made));
        }
    }
    Ok(())
}

/// What is made is judged without the shelf, of which each read here would fail.
#[test]
fn judges_what_is_made(rt: HostRuntime) -> Result<(), Fail> {
    let alloc = rt.alloc();
    let cases: [(&[&str], u8, &[u8]); 9] = [
        (&["rvjudge", "make", "7", "0"], 0, b"made 7 0: agrees 0\n"),
        (
            &["rvjudge", "make", "2048", "5"],
            0,
            b"made 2048 5: agrees 5\n",
        ),
        (
            &["rvjudge", "make", "7", "1000"],
            0,
            b"made 7 1000: agrees 1000\n",
        ),
        (
            &[
                "rvjudge",
                "make",
                "7",
                "1000",
                "--segment",
                "1",
                "--workers",
                "3",
            ],
            0,
            b"made 7 1000: agrees 1000\n",
        ),
        (
            &["rvjudge", "make", "7", "1000", "--segment=3", "--window=5"],
            0,
            b"made 7 1000: agrees 1000\n",
        ),
        (
            &["rvjudge", "make", "0x7", "010"],
            0,
            b"made 7 10: agrees 10\n",
        ),
        (
            &["rvjudge", "make", "4294967295", "262144"],
            0,
            b"made 4294967295 262144: agrees 262144\n",
        ),
        (&["rvjudge", "make", "1", "262145"], 2, b"refused words\n"),
        (
            &["rvjudge", "make", "4294967296", "1"],
            2,
            b"refused words\n",
        ),
    ];
    for (words, status, text) in cases {
        let failing = Vec::from_slice(alloc, &[1, 2, 3, 4, 5, 6])?;
        let mut shelf = FailShelf::new(MemShelf::new(Vec::new(alloc)), failing);
        let mut sink = MemSink::new(alloc);
        let words = list(alloc, words)?;
        let found = judge(&rt, alloc, &words, &mut shelf, &mut sink, &OpenGate);
        assert_eq!(rt; found, status);
        assert_eq!(rt; sink.held.as_slice(), text);
        assert_eq!(rt; (shelf.calls, shelf.faults), (0, 0));
    }
    let words = list(alloc, &["rvjudge", "make", "7", "10"])?;
    let mut shelf = MemShelf::new(Vec::new(alloc));
    let mut sink = FailSink::new(alloc, 5)?;
    assert_eq!(rt;
        judge(&rt, alloc, &words, &mut shelf, &mut sink, &OpenGate),
        5
    );
    assert_eq!(rt;
        (sink.held.as_slice(), shelf.misses),
        (b"made ".as_slice(), 0)
    );
    Ok(())
}
