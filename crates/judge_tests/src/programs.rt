//! Programs with their traces, by what the manual says of each instruction.

use super::runs::output_of;
use std::alloc::Global;
use std::process::Abort;
use std::test::Fail;
use std::thread::Threads;

/// What a run is given, and the text that it writes.
struct Case {
    options: &'static [&'static str],
    image: &'static [u8],
    trace: &'static [u8],
    text: &'static [u8],
}

/// Code of 16 bits nearly throughout, as the GNU assembler makes it: loads, stores, shifts,
/// branches taken and not taken, calls, and one instruction of 4 bytes between them.
const SHORT_IMAGE: &[u8] = b"@80000000
    15 45 17 11 00 00 79 11 06 15 7D 15 2A 84 2A E4
    A2 45 0D 8C 19 C0 A2 95 89 8D 91 C1 00 00 11 A0
    00 00 02 67 02 97 48 C3 82 80
    @80001000
    28 00 00 80 00 00 00 00
";

const SHORT_TRACE: &[u8] = b"insn,pc_rdata,rd_addr,rd_wdata,pc_wdata,mem_addr,mem_wmask,mem_wdata
0x4515,0x80000000,10,5,0x80000002,,0,
0x00001117,0x80000002,2,0x80001002,0x80000006,,0,
0x1179,0x80000006,2,0x80001000,0x80000008,,0,
0x1506,0x80000008,10,0xa00000000,0x8000000a,,0,
0x157d,0x8000000a,10,0x9ffffffff,0x8000000c,,0,
0x842a,0x8000000c,8,0x9ffffffff,0x8000000e,,0,
0xe42a,0x8000000e,0,0,0x80000010,0x80001008,0xff,0x9ffffffff
0x45a2,0x80000010,11,0xffffffffffffffff,0x80000012,0x80001008,0,
0x8c0d,0x80000012,8,0xa00000000,0x80000014,,0,
0xc019,0x80000014,0,0,0x80000016,,0,
0x95a2,0x80000016,11,0x9ffffffff,0x80000018,,0,
0x8d89,0x80000018,11,0,0x8000001a,,0,
0xc191,0x8000001a,0,0,0x8000001e,,0,
0xa011,0x8000001e,0,0,0x80000022,,0,
0x6702,0x80000022,14,0x80000028,0x80000024,0x80001000,0,
0x9702,0x80000024,1,0x80000026,0x80000028,,0,
0x8082,0x80000028,0,0,0x80000026,,0,
0xc348,0x80000026,0,0,0x80000028,0x8000002c,0x0f,0xffffffff
";

/// A call to a handler that returns after the call, as the manual has each instruction: ECALL in
/// M stacks MIE and the mode, and MRET takes them off.
pub const CALL_IMAGE: &[u8] = b"@80000000
    97 02 00 00 93 82 82 01 73 90 52 30 73 00 00 00 13 03 10 00 13 00 00 00
    f3 23 10 34 93 83 43 00 73 90 13 34 73 00 20 30
";

pub const CALL_TRACE: &[u8] =
    b"insn,pc_rdata,mode,trap,rd_wdata,pc_wdata,csr_mcause_wdata,csr_mepc_wdata,csr_mstatus_wdata
0x00000297,0x80000000,3,0,0x80000000,0x80000004,0,0,0xa00000000
0x01828293,0x80000004,3,0,0x80000018,0x80000008,0,0,0xa00000000
0x30529073,0x80000008,3,0,0,0x8000000c,0,0,0xa00000000
0x00000073,0x8000000c,3,1,,,11,0x8000000c,0xa00001800
0x341023f3,0x80000018,3,0,0x8000000c,0x8000001c,11,0x8000000c,0xa00001800
0x00438393,0x8000001c,3,0,0x80000010,0x80000020,11,0x8000000c,0xa00001800
0x34139073,0x80000020,3,0,0,0x80000024,11,0x80000010,0xa00001800
0x30200073,0x80000024,3,0,0,0x80000010,11,0x80000010,0xa00000080
0x00100313,0x80000010,3,0,1,0x80000014,11,0x80000010,0xa00000080
";

/// The same, but that MRET leaves MPP.
const UNSTACKED_TRACE: &[u8] =
    b"insn,pc_rdata,mode,trap,rd_wdata,pc_wdata,csr_mcause_wdata,csr_mepc_wdata,csr_mstatus_wdata
0x00000297,0x80000000,3,0,0x80000000,0x80000004,0,0,0xa00000000
0x01828293,0x80000004,3,0,0x80000018,0x80000008,0,0,0xa00000000
0x30529073,0x80000008,3,0,0,0x8000000c,0,0,0xa00000000
0x00000073,0x8000000c,3,1,,,11,0x8000000c,0xa00001800
0x341023f3,0x80000018,3,0,0x8000000c,0x8000001c,11,0x8000000c,0xa00001800
0x00438393,0x8000001c,3,0,0x80000010,0x80000020,11,0x8000000c,0xa00001800
0x34139073,0x80000020,3,0,0,0x80000024,11,0x80000010,0xa00001800
0x30200073,0x80000024,3,0,0,0x80000010,11,0x80000010,0xa00001880
0x00100313,0x80000010,3,0,1,0x80000014,11,0x80000010,0xa00000080
";

/// Entry 0 of protection is given the four bytes at 0x80000100 without rights, and eight bytes
/// there are loaded: part of the access is covered, so that it is refused in M too.
const ENTRY_IMAGE: &[u8] = b"@80000000
    17 01 00 00 93 51 21 00 93 81 01 04 73 90 01 3b
    13 02 00 01 73 10 02 3a 83 32 01 10
";

/// The trace of it, the load trapping.
const ENTRY_TRACE: &[u8] = b"insn,pc_rdata,trap,csr_mcause_wdata,csr_mtval_wdata
0x00000117,0x80000000,0,,
0x00215193,0x80000004,0,,
0x04018193,0x80000008,0,,
0x3b019073,0x8000000c,0,,
0x01000213,0x80000010,0,,
0x3a021073,0x80000014,0,,
0x10013283,0x80000018,1,5,0x80000100
";

/// The word 0x12345678 is loaded from 0x80000101.
const ODD_IMAGE: &[u8] = b"@80000000 17 01 00 00 83 21 11 10 @80000101 78 56 34 12";

const ODD_TRACE: &[u8] = b"insn,pc_rdata,trap,rd_wdata
0x00000117,0x80000000,0,0x80000000
0x10112183,0x80000004,0,0x12345678
";

/// Entry 0 of protection is given all addresses, and satp Sv39 with its root at 0x80001000. There
/// the program stores a leaf of 1 GiB with V, R and W alone. With MPRV, and MPP as S, the load at 0
/// reads the first two instructions, and the one at 0x1000 the leaf.
const MARK_IMAGE: &[u8] = b"@80000000
    93 00 f0 ff 73 90 00 3b 93 00 f0 01 73 90 00 3a 93 01 10 00 93 91 f1 03
    37 02 08 00 13 02 12 00 b3 e1 41 00 73 90 01 18 b7 12 02 00 93 82 02 80
    93 13 c2 00 37 04 00 20 13 04 74 00 23 b0 83 00 13 04 00 00 73 90 02 30
    03 33 00 00 b7 14 00 00 03 b5 04 00
";

/// A was set by the first load, and D was not.
const MARK_TRACE: &[u8] = b"insn,pc_rdata,trap,rd_addr,rd_wdata
0xfff00093,0x80000000,0,1,0xffffffffffffffff
0x3b009073,0x80000004,0,0,0
0x01f00093,0x80000008,0,1,0x1f
0x3a009073,0x8000000c,0,0,0
0x00100193,0x80000010,0,3,1
0x03f19193,0x80000014,0,3,0x8000000000000000
0x00080237,0x80000018,0,4,0x80000
0x00120213,0x8000001c,0,4,0x80001
0x0041e1b3,0x80000020,0,3,0x8000000000080001
0x18019073,0x80000024,0,0,0
0x000212b7,0x80000028,0,5,0x21000
0x80028293,0x8000002c,0,5,0x20800
0x00c21393,0x80000030,0,7,0x80001000
0x20000437,0x80000034,0,8,0x20000000
0x00740413,0x80000038,0,8,0x20000007
0x0083b023,0x8000003c,0,0,0
0x00000413,0x80000040,0,8,0
0x30029073,0x80000044,0,0,0
0x00003303,0x80000048,0,6,0x3b009073fff00093
0x000014b7,0x8000004c,0,9,0x1000
0x0004b503,0x80000050,0,10,0x20000047
";

/// LR at 0x80001000, and then SC, which stores, at 0x80001008.
const FAR_IMAGE: &[u8] = b"@80000000 17 11 00 00 af 31 01 10 13 01 81 00 2f 32 11 18";

const FAR_TRACE: &[u8] = b"insn,pc_rdata,rd_wdata,mem_addr,mem_wmask
0x00001117,0x80000000,0x80001000,,0
0x100131af,0x80000004,0,0x80001000,0
0x00810113,0x80000008,0x80001008,,0
0x1811322f,0x8000000c,0,0x80001008,0xff
";

const COMPUTES: [Case; 3] = [
    Case {
        options: &[],
        image: b"@80000000 93 00 f0 ff 93 90 f0 03 13 01 f0 ff b3 c1 20 02 33 e2 00 02 b3 d2 00 02",
        trace: b"insn,pc_rdata,rd_addr,rd_wdata\n0xfff00093,0x80000000,1,0xffffffffffffffff\n0x03f09093,0x80000004,1,0x8000000000000000\n0xfff00113,0x80000008,2,0xffffffffffffffff\n0x0220c1b3,0x8000000c,3,0x8000000000000000\n0x0200e233,0x80000010,4,0x8000000000000000\n0x0200d2b3,0x80000014,5,0xffffffffffffffff\n",
        text: b"agrees 6\n",
    },
    Case {
        options: &[],
        image: b"@80000000 93 00 f0 ff 93 90 f0 03 13 01 f0 ff b3 c1 20 02 33 e2 00 02 b3 d2 00 02",
        trace: b"insn,pc_rdata,rd_addr,rd_wdata\n0xfff00093,0x80000000,1,0xffffffffffffffff\n0x03f09093,0x80000004,1,0x8000000000000000\n0xfff00113,0x80000008,2,0xffffffffffffffff\n0x0220c1b3,0x8000000c,3,0\n0x0200e233,0x80000010,4,0x8000000000000000\n0x0200d2b3,0x80000014,5,0xffffffffffffffff\n",
        text: b"differs row 4: rd_wdata expected 0x8000000000000000 found 0x0000000000000000\n",
    },
    Case {
        options: &[],
        image: b"@80000000 93 00 50 00 13 81 10 00",
        trace: b"insn,pc_rdata,rs1_rdata\n0x00500093,0x80000000,\n0x00108113,0x80000004,5\n",
        text: b"agrees 2\n",
    },
];

const LOADS_AND_STORES: [Case; 5] = [
    Case {
        options: &[],
        image: b"@80000000 17 11 00 00 23 30 11 00",
        trace: b"insn,pc_rdata,mem_addr,mem_wmask,mem_wdata\n0x00001117,0x80000000,0,0,0\n0x00113023,0x80000004,0x80001000,0x7f,0\n",
        text: b"differs row 2: mem_wmask expected 0x00000000000000ff found 0x000000000000007f\n",
    },
    Case {
        options: &[],
        image: b"@80000000 17 11 00 00 23 30 11 00",
        trace: b"insn,pc_rdata,mem_addr,mem_wmask,mem_wdata\n0x00001117,0x80000000,0,0,0\n0x00113023,0x80000004,0x80001000,0xff,0\n",
        text: b"agrees 2\n",
    },
    Case {
        options: &[],
        image: b"@80000000 17 01 00 00 83 01 31 10 @80000103 80",
        trace: b"insn,pc_rdata,rd_wdata,mem_addr,mem_rmask,mem_rdata\n0x00000117,0x80000000,0x80000000,0,0,0\n0x10310183,0x80000004,0xffffffffffffff80,0x80000103,0x01,0x80\n",
        text: b"agrees 2\n",
    },
    Case {
        options: &[],
        image: b"@80000000 17 01 00 00 83 01 31 10 @80000103 80",
        trace: b"insn,pc_rdata,rd_wdata,mem_addr,mem_rmask,mem_rdata\n0x00000117,0x80000000,0x80000000,0,0,0\n0x10310183,0x80000004,0xffffffffffffff80,0x80000100,0x08,0x80000000\n",
        text: b"agrees 2\n",
    },
    Case {
        options: &[],
        image: b"@80000000 17 01 00 00 83 01 31 10 @80000103 80",
        trace: b"insn,pc_rdata,rd_wdata,mem_addr,mem_rmask,mem_rdata\n0x00000117,0x80000000,0x80000000,0,0,0\n0x10310183,0x80000004,0xffffffffffffff80,0x80000104,0x01,0x80\n",
        text: b"differs row 2: mem_addr expected 0x0000000080000103 found 0x0000000080000104\n",
    },
];

const ASKS_DEVICES: [Case; 2] = [
    Case {
        options: &["--io", "0x10000000:0x1000"],
        image: b"@80000000 37 01 00 10 83 41 51 00",
        trace: b"insn,pc_rdata,rd_wdata,mem_addr,mem_rmask,mem_rdata\n0x10000137,0x80000000,0x10000000,0,0,0\n0x00514183,0x80000004,0x60,0x10000005,1,0x60\n",
        text: b"agrees 2\n",
    },
    Case {
        options: &["--io", "0x10000000:0x1000"],
        image: b"@80000000 37 01 00 10 83 41 51 00",
        trace: b"insn,pc_rdata,rd_wdata,mem_addr,mem_rmask,mem_rdata\n0x10000137,0x80000000,0x10000000,0,0,0\n0x00514183,0x80000004,0x61,0x10000005,1,0x60\n",
        text: b"differs row 2: rd_wdata expected 0x0000000000000060 found 0x0000000000000061\n",
    },
];

const EXPANDS_AND_EXCHANGES: [Case; 5] = [
    Case {
        options: &[],
        image: b"@80000000 95 40 fd 10",
        trace: b"insn,pc_rdata,rd_addr,rd_wdata,pc_wdata\n0x4095,0x80000000,1,5,0x80000002\n0x10fd,0x80000002,1,4,0x80000004\n",
        text: b"agrees 2\n",
    },
    Case {
        options: &[],
        image: b"@80000000 17 11 00 00 93 00 50 00 af 31 11 00",
        trace: b"insn,pc_rdata,rd_wdata,mem_addr,mem_rmask,mem_wmask,mem_wdata\n0x00001117,0x80000000,0x80001000,,0,0,\n0x00500093,0x80000004,5,,0,0,\n0x001131af,0x80000008,0,0x80001000,0xff,0xff,4\n",
        text: b"differs row 3: mem_wdata expected 0x0000000000000005 found 0x0000000000000004\n",
    },
    Case {
        options: &[],
        image: b"@80000000 17 11 00 00 93 00 50 00 af 31 11 00",
        trace: b"insn,pc_rdata,rd_wdata,mem_addr,mem_rmask,mem_wmask,mem_wdata\n0x00001117,0x80000000,0x80001000,,0,0,\n0x00500093,0x80000004,5,,0,0,\n0x001131af,0x80000008,0,0x80001000,0xff,0xff,5\n",
        text: b"agrees 3\n",
    },
    Case {
        options: &[],
        image: b"@80000000 17 11 00 00 af 31 01 10 2f 32 11 18 af 32 11 18",
        trace: b"insn,pc_rdata,rd_wdata,mem_addr,mem_wmask\n0x00001117,0x80000000,0x80001000,,0\n0x100131af,0x80000004,0,0x80001000,0\n0x1811322f,0x80000008,0,0x80001000,0xff\n0x181132af,0x8000000c,0,0x80001000,0xff\n",
        text: b"differs row 4: rd_wdata expected 0x0000000000000001 found 0x0000000000000000\n",
    },
    Case {
        options: &[],
        image: b"@80000000 17 11 00 00 af 31 01 10 2f 32 11 18 af 32 11 18",
        trace: b"insn,pc_rdata,mem_addr,mem_wmask\n0x00001117,0x80000000,,0\n0x100131af,0x80000004,0x80001000,0\n0x1811322f,0x80000008,0x80001000,0xff\n0x181132af,0x8000000c,0x80001000,0xff\n",
        text: b"differs row 4: mem_wmask expected 0x0000000000000000 found 0x00000000000000ff\n",
    },
];

const CONTROLS: [Case; 7] = [
    Case {
        options: &[],
        image: b"@80000000 93 00 50 00 73 91 00 34",
        trace: b"insn,pc_rdata,rd_wdata,csr_mscratch_rdata,csr_mscratch_wdata\n0x00500093,0x80000000,5,,\n0x34009173,0x80000004,0,0,6\n",
        text: b"differs row 2: csr_mscratch_wdata expected 0x0000000000000005 found 0x0000000000000006\n",
    },
    Case {
        options: &[],
        image: b"@80000000 93 00 50 00 73 91 00 34",
        trace: b"insn,pc_rdata,rd_wdata,csr_mscratch_rdata,csr_mscratch_wdata\n0x00500093,0x80000000,5,,\n0x34009173,0x80000004,0,0,5\n",
        text: b"agrees 2\n",
    },
    Case {
        options: &[],
        image: b"@80000000 73 00 00 00",
        trace: b"insn,pc_rdata,csr_mcause_wdata,csr_mepc_wdata\n0x73,0x80000000,11,0x80000000\n",
        text: b"agrees 1\n",
    },
    Case {
        options: &["--ram", "0:0x1000", "--pc", "0x100"],
        image: b"@0 93 00 50 00 @100 93 00 00 08 73 90 40 30 73 60 04 30",
        trace: b"insn,pc_rdata,intr,csr_mip_rdata,csr_mcause_rdata,csr_mepc_rdata\n0x08000093,0x100,0,0,,\n0x30409073,0x104,0,0,,\n0x30046073,0x108,0,0x80,,\n0x00500093,0,1,0x80,0x8000000000000007,0x10c\n",
        text: b"agrees 4\n",
    },
    Case {
        options: &["--ram", "0:0x1000", "--pc", "0x100"],
        image: b"@0 93 00 50 00 @100 93 00 00 08 73 90 40 30 73 60 04 30",
        trace: b"insn,pc_rdata,intr,csr_mip_rdata,csr_mcause_rdata,csr_mepc_rdata\n0x08000093,0x100,0,0,,\n0x30409073,0x104,0,0,,\n0x30046073,0x108,0,0x80,,\n0x00500093,0,1,0,0x8000000000000007,0x10c\n",
        text: b"differs row 4: intr expected 0x0000000000000000 found 0x0000000000000001\n",
    },
    Case {
        options: &[],
        image: CALL_IMAGE,
        trace: CALL_TRACE,
        text: b"agrees 9\n",
    },
    Case {
        options: &[],
        image: CALL_IMAGE,
        trace: UNSTACKED_TRACE,
        text: b"differs row 8: csr_mstatus_wdata expected 0x0000000a00000080 found 0x0000000a00001880\n",
    },
];

const PROTECTS: [Case; 3] = [
    Case {
        options: &[],
        image: ENTRY_IMAGE,
        trace: ENTRY_TRACE,
        text: b"agrees 7\n",
    },
    Case {
        options: &[],
        image: ENTRY_IMAGE,
        trace: b"insn,pc_rdata,trap,csr_mcause_wdata,csr_mtval_wdata\n0x00000117,0x80000000,0,,\n0x00215193,0x80000004,0,,\n0x04018193,0x80000008,0,,\n0x3b019073,0x8000000c,0,,\n0x01000213,0x80000010,0,,\n0x3a021073,0x80000014,0,,\n0x10013283,0x80000018,0,5,0x80000100\n",
        text: b"differs row 7: trap expected 0x0000000000000001 found 0x0000000000000000\n",
    },
    Case {
        options: &[],
        image: ENTRY_IMAGE,
        trace: b"insn,pc_rdata,csr_pmpcfg0_wdata\n0x00000117,0x80000000,0\n0x00215193,0x80000004,0\n0x04018193,0x80000008,0\n0x3b019073,0x8000000c,0\n0x01000213,0x80000010,0\n0x3a021073,0x80000014,0x90\n",
        text: b"differs row 6: csr_pmpcfg0_wdata expected 0x0000000000000010 found 0x0000000000000090\n",
    },
];

/// What the words say of the implementation.
const CHOOSES: [Case; 8] = [
    Case {
        options: &["--misaligned", "done"],
        image: ODD_IMAGE,
        trace: ODD_TRACE,
        text: b"agrees 2\n",
    },
    Case {
        options: &["--mtval=zero", "--ad=set", "--reserve=8"],
        image: ODD_IMAGE,
        trace: ODD_TRACE,
        text: b"differs row 2: trap expected 0x0000000000000001 found 0x0000000000000000\n",
    },
    Case {
        options: &["--mtval", "zero"],
        image: ENTRY_IMAGE,
        trace: ENTRY_TRACE,
        text: b"differs row 7: csr_mtval_wdata expected 0x0000000000000000 found 0x0000000080000100\n",
    },
    Case {
        options: &["--misaligned=done", "--ad=set", "--reserve=8"],
        image: ENTRY_IMAGE,
        trace: ENTRY_TRACE,
        text: b"agrees 7\n",
    },
    Case {
        options: &["--ad", "set"],
        image: MARK_IMAGE,
        trace: MARK_TRACE,
        text: b"agrees 21\n",
    },
    Case {
        options: &["--misaligned=done", "--mtval=zero", "--reserve=8"],
        image: MARK_IMAGE,
        trace: MARK_TRACE,
        text: b"differs row 19: trap expected 0x0000000000000001 found 0x0000000000000000\n",
    },
    Case {
        options: &["--reserve", "8"],
        image: FAR_IMAGE,
        trace: FAR_TRACE,
        text: b"differs row 4: rd_wdata expected 0x0000000000000001 found 0x0000000000000000\n",
    },
    Case {
        options: &[
            "--reserve=16",
            "--misaligned=done",
            "--mtval=zero",
            "--ad=set",
        ],
        image: FAR_IMAGE,
        trace: FAR_TRACE,
        text: b"agrees 4\n",
    },
];

fn says<R: Threads + Sync + Abort>(rt: &R, alloc: Global, case: &Case) -> Result<(), Fail> {
    let mut words = Vec::from_slice(alloc, &["rvjudge", "judge", "i", "t"])?;
    for option in case.options {
        words.push(*option)?;
    }
    let (_, sink) = output_of(rt, alloc, words.as_slice(), case.image, case.trace)?;
    assert_eq!(rt; sink.held.as_slice(), case.text);
    Ok(())
}

#[test]
fn computes(rt: HostRuntime) -> Result<(), Fail> {
    for case in &COMPUTES {
        says(&rt, rt.alloc(), case)?;
    }
    Ok(())
}

#[test]
fn loads_and_stores(rt: HostRuntime) -> Result<(), Fail> {
    for case in &LOADS_AND_STORES {
        says(&rt, rt.alloc(), case)?;
    }
    Ok(())
}

#[test]
fn asks_devices(rt: HostRuntime) -> Result<(), Fail> {
    for case in &ASKS_DEVICES {
        says(&rt, rt.alloc(), case)?;
    }
    Ok(())
}

#[test]
fn expands_and_exchanges(rt: HostRuntime) -> Result<(), Fail> {
    for case in &EXPANDS_AND_EXCHANGES {
        says(&rt, rt.alloc(), case)?;
    }
    Ok(())
}

#[test]
fn controls(rt: HostRuntime) -> Result<(), Fail> {
    for case in &CONTROLS {
        says(&rt, rt.alloc(), case)?;
    }
    Ok(())
}

#[test]
fn protects(rt: HostRuntime) -> Result<(), Fail> {
    for case in &PROTECTS {
        says(&rt, rt.alloc(), case)?;
    }
    Ok(())
}

#[test]
fn chooses(rt: HostRuntime) -> Result<(), Fail> {
    for case in &CHOOSES {
        says(&rt, rt.alloc(), case)?;
    }
    Ok(())
}

/// The same rows with the link of a jump as if the jump had 4 bytes: the front before it, and it.
#[test]
fn runs_short_code(rt: HostRuntime) -> Result<(), Fail> {
    let link = b"insn,pc_rdata,rd_wdata\n0x9702,0x80000024,0x80000028\n";
    let cases = [
        (0x8000_0000_u64, SHORT_TRACE, b"agrees 18\n".as_slice()),
        (
            0x8000_0024,
            link,
            b"differs row 1: rd_wdata expected 0x0000000080000026 found 0x0000000080000028\n",
        ),
    ];
    for (pc, trace, text) in cases {
        let start = format!(in rt.alloc(); "{pc}")?;
        let words = ["rvjudge", "judge", "i", "t", "--pc", start.as_str()];
        let (_, sink) = output_of(&rt, rt.alloc(), &words, SHORT_IMAGE, trace)?;
        assert_eq!(rt; sink.held.as_slice(), text);
    }
    Ok(())
}
