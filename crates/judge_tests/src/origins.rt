//! Who wrote what a differing row read. How the work is shared out changes none of these texts:
//! `output_of` tries segments and windows of one row too.

use super::runs::output_of;
use std::test::Fail;

const PLAIN: &[&str] = &["rvjudge", "judge", "i", "t"];

const TOLD: &[&str] = &["rvjudge", "judge", "i", "t", "--origin"];

const PAIR: &[&str] = &["rvjudge", "judge", "i", "t", "--harts", "2", "--origin"];

const DONE: &[&str] = &[
    "rvjudge",
    "judge",
    "i",
    "t",
    "--misaligned",
    "done",
    "--origin",
];

const SETS: &[&str] = &["rvjudge", "judge", "i", "t", "--ad", "set", "--origin"];

const SAVES: &[&str] = &["rvjudge", "state", "i", "t"];

/// ADDI x1, x0, 5; ADDI x1, x1, 1.
const TWO: &[u8] = b"@80000000 93 00 50 00 93 80 10 00";

const SEVEN: &[u8] = b"order,insn,pc_rdata,rd_addr,rd_wdata,pc_wdata
0,0x00500093,0x80000000,1,5,0x80000004
1,0x00108093,0x80000004,1,7,0x80000008
";

const SIX: &[u8] = b"order,insn,pc_rdata,rd_addr,rd_wdata,pc_wdata
0,0x00500093,0x80000000,1,5,0x80000004
1,0x00108093,0x80000004,1,6,0x80000008
";

const SEVEN_LINE: &[u8] =
    b"differs row 2: rd_wdata expected 0x0000000000000006 found 0x0000000000000007\n";

const SEVEN_TOLD: &[u8] =
    b"differs row 2: rd_wdata expected 0x0000000000000006 found 0x0000000000000007
origin x1 row 1
";

/// Only `judge` tells origins, and only of a row that differs.
#[test]
fn tells_origins_where_they_are_asked_for(rt: HostRuntime) -> Result<(), Fail> {
    let state: &[&str] = &["rvjudge", "state", "i", "t", "--origin"];
    let cases: [(&[&str], &[u8], u8, &[u8]); 5] = [
        (TOLD, SEVEN, 1, SEVEN_TOLD),
        (PLAIN, SEVEN, 1, SEVEN_LINE),
        (TOLD, SIX, 0, b"agrees 2\n"),
        (
            TOLD,
            b"insn,pc_rdata\n0x00500093,0x80000000\n0x00108093,\n",
            4,
            b"refused trace: row 2: pc_rdata empty\n",
        ),
        (state, SEVEN, 2, b"refused words\n"),
    ];
    for (words, trace, status, text) in cases {
        let (found, sink) = output_of(&rt, rt.alloc(), words, TWO, trace)?;
        assert_eq!(rt; sink.held.as_slice(), text);
        assert_eq!(rt; found, status);
    }
    Ok(())
}

/// ADDI x1, x0, 5; SUB x3, x0, x1.
const NEGATED: &[u8] = b"@80000000 93 00 50 00 b3 01 10 40";

/// ADDI x1, x0, 5; ADD x3, x1, x1.
const DOUBLED: &[u8] = b"@80000000 93 00 50 00 b3 81 10 00";

/// ADDI x5, x0, 1; ADDI x7, x5, 0.
const COPIED: &[u8] = b"@80000000 93 02 10 00 93 83 02 00";

/// A row that is not valid is counted, and its fields say nothing.
const PASSED_OVER: &[u8] = b"valid,insn,pc_rdata,rd_wdata
0,,,
1,0x00500093,0x80000000,5
0,0x00500093,0x80000000,5
1,0x00108093,0x80000004,7
";

/// x0 is no source, and a register that is both sources is told once. The trace may show other
/// values, another instruction or a trap: what the reference hart carried out counts.
#[test]
fn tells_registers(rt: HostRuntime) -> Result<(), Fail> {
    let cases: [(&[u8], &[u8], &[u8]); 6] = [
        (
            TWO,
            b"insn,pc_rdata,rd_wdata\n0x00500093,0x80000000,6\n",
            b"differs row 1: rd_wdata expected 0x0000000000000005 found 0x0000000000000006\n",
        ),
        (
            NEGATED,
            b"insn,pc_rdata,rd_wdata\n0x00500093,0x80000000,5\n0x401001b3,0x80000004,5\n",
            b"differs row 2: rd_wdata expected 0xfffffffffffffffb found 0x0000000000000005
origin x1 row 1
",
        ),
        (
            DOUBLED,
            b"insn,pc_rdata,rd_wdata\n0x00500093,0x80000000,5\n0x001081b3,0x80000004,5\n",
            b"differs row 2: rd_wdata expected 0x000000000000000a found 0x0000000000000005
origin x1 row 1
",
        ),
        (
            DOUBLED,
            b"insn,pc_rdata\n0x00500093,0x80000000\n0x00208233,0x80000004\n",
            b"differs row 2: insn expected 0x00000000001081b3 found 0x0000000000208233
origin x1 row 1
",
        ),
        (
            COPIED,
            b"insn,pc_rdata,trap\n0x00100293,0x80000000,0\n0x00028393,0x80000004,1\n",
            b"differs row 2: trap expected 0x0000000000000000 found 0x0000000000000001
origin x5 row 1
",
        ),
        (
            TWO,
            PASSED_OVER,
            b"differs row 4: rd_wdata expected 0x0000000000000006 found 0x0000000000000007
origin x1 row 2
",
        ),
    ];
    for (image, trace, text) in cases {
        let (status, sink) = output_of(&rt, rt.alloc(), TOLD, image, trace)?;
        assert_eq!(rt; sink.held.as_slice(), text);
        assert_eq!(rt; status, 1);
    }
    Ok(())
}

/// ADDI x5, x0, 1; LW x6, 0(x5), which traps.
const TRAPS: &[u8] = b"@80000000 93 02 10 00 03 a3 02 00";

/// The reference hart reads nothing in a row in which it traps, whatever the row shows, nor where it
/// had halted before.
#[test]
fn tells_nothing_of_traps_and_halted_harts(rt: HostRuntime) -> Result<(), Fail> {
    let cases: [(&[u8], &[u8], &[u8]); 3] = [
        (
            TRAPS,
            b"insn,pc_rdata,trap\n0x00100293,0x80000000,0\n0x0002a303,0x80000004,0\n",
            b"differs row 2: trap expected 0x0000000000000001 found 0x0000000000000000\n",
        ),
        (
            TRAPS,
            b"insn,pc_rdata,csr_mcause_wdata\n0x00100293,0x80000000,0\n0x0002a303,0x80000004,5\n",
            b"differs row 2: csr_mcause_wdata expected 0x0000000000000004 found 0x0000000000000005\n",
        ),
        (
            COPIED,
            b"insn,pc_rdata,halt\n0x00100293,0x80000000,1\n0x00028393,0x80000004,0\n",
            b"differs row 2: valid expected 0x0000000000000000 found 0x0000000000000001\n",
        ),
    ];
    for (image, trace, text) in cases {
        let (status, sink) = output_of(&rt, rt.alloc(), TOLD, image, trace)?;
        assert_eq!(rt; sink.held.as_slice(), text);
        assert_eq!(rt; status, 1);
    }
    Ok(())
}

/// AUIPC x2, 0; LB x3, 0x103(x2).
const LOADED: &[u8] = b"@80000000 17 01 00 00 83 01 31 10 @80000103 80";

/// AUIPC x5, 1; ADDI x6, x0, -2; SB x6, 3(x5); ADDI x7, x0, 1; ADDI x8, x0, 2; LW x9, 0(x5).
const LANES: &[u8] =
    b"@80000000 97 12 00 00 13 03 e0 ff a3 81 62 00 93 03 10 00 13 04 20 00 83 a4 02 00";

/// The same, but for AMOADD.W x10, x8, (x5) at the end.
const ADDED: &[u8] =
    b"@80000000 97 12 00 00 13 03 e0 ff a3 81 62 00 93 03 10 00 13 04 20 00 2f a5 82 00";

/// The store went into the wrong lane, which the load three rows later finds.
const LANES_LOADED: &[u8] = b"insn,pc_rdata,rd_wdata
0x00001297,0x80000000,0x80001000
0xffe00313,0x80000004,0xfffffffffffffffe
0x006281a3,0x80000008,0
0x00100393,0x8000000c,1
0x00200413,0x80000010,2
0x0002a483,0x80000014,0xfe0000
";

const LANES_ADDED: &[u8] = b"insn,pc_rdata,rd_wdata
0x00001297,0x80000000,0x80001000
0xffe00313,0x80000004,0xfffffffffffffffe
0x006281a3,0x80000008,0
0x00100393,0x8000000c,1
0x00200413,0x80000010,2
0x0082a52f,0x80000014,0xfe0000
";

/// The same up to the store, which shows its access.
const LANES_STORED: &[u8] = b"insn,pc_rdata,mem_addr,mem_wmask,mem_wdata
0x00001297,0x80000000,0,0,0
0xffe00313,0x80000004,0,0,0
0x006281a3,0x80000008,0x80001000,4,0xfe0000
";

/// AUIPC x5, 2; ADDI x6, x0, -1; SW x6, 0(x5); LD x7, -4(x5), whose bytes lie in two pages.
const ODD: &[u8] = b"@80000000 97 22 00 00 13 03 f0 ff 23 a0 62 00 83 b3 c2 ff";

const ODD_LOADED: &[u8] = b"insn,pc_rdata,rd_wdata
0x00002297,0x80000000,0x80002000
0xfff00313,0x80000004,0xffffffffffffffff
0x0062a023,0x80000008,0
0xffc2b383,0x8000000c,0
";

/// A load and an AMO read bytes, a store reads none.
#[test]
fn tells_bytes(rt: HostRuntime) -> Result<(), Fail> {
    let cases: [(&[&str], &[u8], &[u8], &[u8]); 5] = [
        (
            TOLD,
            LOADED,
            b"insn,pc_rdata,rd_wdata\n0x00000117,0x80000000,0x80000000\n0x10310183,0x80000004,0\n",
            b"differs row 2: rd_wdata expected 0xffffffffffffff80 found 0x0000000000000000
origin x2 row 1
origin byte 0x0000000080000103 image
",
        ),
        (
            TOLD,
            LANES,
            LANES_LOADED,
            b"differs row 6: rd_wdata expected 0xfffffffffe000000 found 0x0000000000fe0000
origin x5 row 1
origin byte 0x0000000080001000 image
origin byte 0x0000000080001001 image
origin byte 0x0000000080001002 image
origin byte 0x0000000080001003 row 3
",
        ),
        (
            TOLD,
            ADDED,
            LANES_ADDED,
            b"differs row 6: rd_wdata expected 0xfffffffffe000000 found 0x0000000000fe0000
origin x5 row 1
origin x8 row 5
origin byte 0x0000000080001000 image
origin byte 0x0000000080001001 image
origin byte 0x0000000080001002 image
origin byte 0x0000000080001003 row 3
",
        ),
        (
            TOLD,
            LANES,
            LANES_STORED,
            b"differs row 3: mem_wmask expected 0x0000000000000008 found 0x0000000000000004
origin x5 row 1
origin x6 row 2
",
        ),
        (
            DONE,
            ODD,
            ODD_LOADED,
            b"differs row 4: rd_wdata expected 0xffffffff00000000 found 0x0000000000000000
origin x5 row 1
origin byte 0x0000000080001ffc image
origin byte 0x0000000080001ffd image
origin byte 0x0000000080001ffe image
origin byte 0x0000000080001fff image
origin byte 0x0000000080002000 row 3
origin byte 0x0000000080002001 row 3
origin byte 0x0000000080002002 row 3
origin byte 0x0000000080002003 row 3
",
        ),
    ];
    for (words, image, trace, text) in cases {
        let (status, sink) = output_of(&rt, rt.alloc(), words, image, trace)?;
        assert_eq!(rt; sink.held.as_slice(), text);
        assert_eq!(rt; status, 1);
    }
    Ok(())
}

/// Protection, translation under MPRV and a handler are set up; then LD x5, 0(x8) sets A of its page
/// and traps, as that page has no RAM there, and the handler loads the entry: LD x6, 0(x7).
const MARKED: &[u8] = b"@80000000 97 13 00 00 93 00 f0 ff 73 90 00 3b 13 91 f0 03 93 00 f0 01
    73 90 00 3a b7 01 08 00 93 81 11 00 33 61 31 00 73 10 01 18 37 12 02 00 13 02 02 80
    73 10 02 30 97 04 00 00 93 84 44 01 73 90 54 30 37 04 00 10 83 32 04 00 03 b3 03 00
    @80001000 07 00 00 20";

const MARKED_LOADED: &[u8] = b"insn,pc_rdata,trap,rd_wdata
0x00001397,0x80000000,0,
0xfff00093,0x80000004,0,
0x3b009073,0x80000008,0,
0x03f09113,0x8000000c,0,
0x01f00093,0x80000010,0,
0x3a009073,0x80000014,0,
0x000801b7,0x80000018,0,
0x00118193,0x8000001c,0,
0x00316133,0x80000020,0,
0x18011073,0x80000024,0,
0x00021237,0x80000028,0,
0x80020213,0x8000002c,0,
0x30021073,0x80000030,0,
0x00000497,0x80000034,0,
0x01448493,0x80000038,0,
0x30549073,0x8000003c,0,
0x10000437,0x80000040,0,
0x00043283,0x80000044,1,
0x0003b303,0x80000048,0,0x20000007
";

/// A row that trapped wrote the 8 bytes of the entry that it set.
#[test]
fn tells_of_entries_that_were_set(rt: HostRuntime) -> Result<(), Fail> {
    let text = b"differs row 19: rd_wdata expected 0x0000000020000047 found 0x0000000020000007
origin x7 row 1
origin byte 0x0000000080001000 row 18
origin byte 0x0000000080001001 row 18
origin byte 0x0000000080001002 row 18
origin byte 0x0000000080001003 row 18
origin byte 0x0000000080001004 row 18
origin byte 0x0000000080001005 row 18
origin byte 0x0000000080001006 row 18
origin byte 0x0000000080001007 row 18
"
        .as_slice();
    let (status, sink) = output_of(&rt, rt.alloc(), SETS, MARKED, MARKED_LOADED)?;
    assert_eq!(rt; sink.held.as_slice(), text);
    assert_eq!(rt; status, 1);
    Ok(())
}

/// AUIPC x5, 1; LBU x7, 0(x5); ADDI x6, x0, 7; SB x6, 0(x5).
const SHARED: &[u8] = b"@80000000 97 12 00 00 83 c3 02 00 13 03 70 00 23 80 62 00";

const SHARED_LOADED: &[u8] = b"hart,insn,pc_rdata,rd_wdata
0,0x00001297,0x80000000,0x80001000
1,0x00001297,0x80000000,0x80001000
1,0x0002c383,0x80000004,0
1,0x00700313,0x80000008,7
1,0x00628023,0x8000000c,0
0,0x0002c383,0x80000004,0
";

/// ADDI x1, x1, 1.
const ONE_MORE: &[u8] = b"@80000000 93 80 10 00";

/// Registers are each hart's own, memory is that of all.
#[test]
fn tells_origins_of_several_harts(rt: HostRuntime) -> Result<(), Fail> {
    let cases: [(&[u8], &[u8], &[u8]); 2] = [
        (
            SHARED,
            SHARED_LOADED,
            b"differs row 6: rd_wdata expected 0x0000000000000007 found 0x0000000000000000
origin x5 row 1
origin byte 0x0000000080001000 row 5
",
        ),
        (
            ONE_MORE,
            b"hart,insn,pc_rdata,rd_wdata\n1,0x00108093,0x80000000,1\n0,0x00108093,0x80000000,2\n",
            b"differs row 2: rd_wdata expected 0x0000000000000001 found 0x0000000000000002
origin x1 reset
",
        ),
    ];
    for (image, trace, text) in cases {
        let (status, sink) = output_of(&rt, rt.alloc(), PAIR, image, trace)?;
        assert_eq!(rt; sink.held.as_slice(), text);
        assert_eq!(rt; status, 1);
    }
    Ok(())
}

const LANES_BEGUN: &[u8] = b"insn,pc_rdata,rd_wdata
0x00001297,0x80000000,0x80001000
0xffe00313,0x80000004,0xfffffffffffffffe
0x006281a3,0x80000008,0
";

const LANES_ENDED: &[u8] = b"insn,pc_rdata,rd_wdata
0x00100393,0x8000000c,1
0x00200413,0x80000010,2
0x0002a483,0x80000014,0xfe0000
";

/// Of a run that begins from a saved state, what earlier runs wrote is of the start.
#[test]
fn tells_origins_from_states(rt: HostRuntime) -> Result<(), Fail> {
    let (status, saved) = output_of(&rt, rt.alloc(), SAVES, LANES, LANES_BEGUN)?;
    assert_eq!(rt; status, 0);
    let text = b"differs row 3: rd_wdata expected 0xfffffffffe000000 found 0x0000000000fe0000
origin x5 reset
origin byte 0x0000000080001000 image
origin byte 0x0000000080001001 image
origin byte 0x0000000080001002 image
origin byte 0x0000000080001003 image
"
        .as_slice();
    let (status, sink) = output_of(&rt, rt.alloc(), TOLD, saved.held.as_slice(), LANES_ENDED)?;
    assert_eq!(rt; sink.held.as_slice(), text);
    assert_eq!(rt; status, 1);
    Ok(())
}
