//! Runs that write the state after them, and runs that begin from one.

use super::runs::{TRACE, output_of};
use std::test::Fail;

/// ADDI x1, x0, 5; ADDI x1, x1, 1.
pub const STATE_IMAGE: &[u8] = b"@80000000 93 00 50 00 93 80 10 00";

/// The state after the first of them, as the definition of a saved state's text has it.
pub const STATE: &[u8] = b"rvstate 1
pc 0000000080000004
mode 3
order 0000000000000001
flags 00
reserved none
x1 0000000000000005
x2 0000000000000000
x3 0000000000000000
x4 0000000000000000
x5 0000000000000000
x6 0000000000000000
x7 0000000000000000
x8 0000000000000000
x9 0000000000000000
x10 0000000000000000
x11 0000000000000000
x12 0000000000000000
x13 0000000000000000
x14 0000000000000000
x15 0000000000000000
x16 0000000000000000
x17 0000000000000000
x18 0000000000000000
x19 0000000000000000
x20 0000000000000000
x21 0000000000000000
x22 0000000000000000
x23 0000000000000000
x24 0000000000000000
x25 0000000000000000
x26 0000000000000000
x27 0000000000000000
x28 0000000000000000
x29 0000000000000000
x30 0000000000000000
x31 0000000000000000
csr_mstatus 0000000a00000000
csr_medeleg 0000000000000000
csr_mideleg 0000000000000000
csr_mie 0000000000000000
csr_mtvec 0000000000000000
csr_stvec 0000000000000000
csr_mcounteren 0000000000000000
csr_scounteren 0000000000000000
csr_menvcfg 0000000000000000
csr_senvcfg 0000000000000000
csr_mcountinhibit 0000000000000000
csr_mscratch 0000000000000000
csr_sscratch 0000000000000000
csr_mepc 0000000000000000
csr_sepc 0000000000000000
csr_mcause 0000000000000000
csr_scause 0000000000000000
csr_mtval 0000000000000000
csr_stval 0000000000000000
csr_mip 0000000000000000
csr_satp 0000000000000000
csr_pmpcfg0 0000000000000000
csr_pmpcfg2 0000000000000000
csr_pmpaddr0 0000000000000000
csr_pmpaddr1 0000000000000000
csr_pmpaddr2 0000000000000000
csr_pmpaddr3 0000000000000000
csr_pmpaddr4 0000000000000000
csr_pmpaddr5 0000000000000000
csr_pmpaddr6 0000000000000000
csr_pmpaddr7 0000000000000000
csr_pmpaddr8 0000000000000000
csr_pmpaddr9 0000000000000000
csr_pmpaddr10 0000000000000000
csr_pmpaddr11 0000000000000000
csr_pmpaddr12 0000000000000000
csr_pmpaddr13 0000000000000000
csr_pmpaddr14 0000000000000000
csr_pmpaddr15 0000000000000000
@0000000080000000 93005000938010000000000000000000
end
";

pub const STATE_WORDS: &[&str] = &["rvjudge", "state", "i", "t"];

pub const STATE_FILES: &[&[u8]] = &[STATE_IMAGE, TRACE];

/// The second row, and the same with another order index.
const SECOND: &[u8] = b"order,insn,pc_rdata,rd_addr,rd_wdata,pc_wdata
1,0x00108093,0x80000004,1,6,0x80000008
";

const LATER: &[u8] = b"order,insn,pc_rdata,rd_addr,rd_wdata,pc_wdata
2,0x00108093,0x80000004,1,6,0x80000008
";

/// The first row again, from a pc that is given.
const AGAIN: &[u8] = b"order,insn,pc_rdata,rd_addr,rd_wdata,pc_wdata
1,0x00500093,0x80000000,1,5,0x80000004
";

const WRONG: &[u8] = b"insn,pc_rdata,rd_addr,rd_wdata\n0x00500093,0x80000000,1,6\n";

#[test]
fn writes_states(rt: HostRuntime) -> Result<(), Fail> {
    let small: &[&str] = &["rvjudge", "state", "i", "t", "--max-trace", "80"];
    let few: &[&str] = &["rvjudge", "state", "i"];
    let differs = b"differs row 1: rd_wdata expected 0x0000000000000005 found 0x0000000000000006\n";
    let cases: [(&[&str], &[u8], u8, &[u8]); 4] = [
        (STATE_WORDS, TRACE, 0, STATE),
        (STATE_WORDS, WRONG, 1, differs),
        (small, TRACE, 4, b"refused trace: more than 80 bytes\n"),
        (few, TRACE, 2, b"refused words\n"),
    ];
    for (words, trace, status, text) in cases {
        let (found, sink) = output_of(&rt, rt.alloc(), words, STATE_IMAGE, trace)?;
        assert_eq!(rt; found, status);
        assert_eq!(rt; sink.held.as_slice(), text);
    }
    Ok(())
}

#[test]
fn begins_from_states(rt: HostRuntime) -> Result<(), Fail> {
    let plain: &[&str] = &["rvjudge", "judge", "i", "t"];
    let there: &[&str] = &["rvjudge", "judge", "i", "t", "--pc", "0x80000000"];
    let low: &[&str] = &["rvjudge", "judge", "i", "t", "--ram", "0:0x1000"];
    let small: &[&str] = &["rvjudge", "state", "i", "t", "--max-image", "9"];
    let differs = b"differs row 1: order expected 0x0000000000000001 found 0x0000000000000002\n";
    let cases: [(&[&str], &[u8], u8, &[u8]); 5] = [
        (plain, SECOND, 0, b"agrees 1\n"),
        (plain, LATER, 1, differs),
        (there, AGAIN, 0, b"agrees 1\n"),
        (low, SECOND, 3, b"refused image: line 77: outside RAM\n"),
        (small, SECOND, 3, b"refused image: more than 9 bytes\n"),
    ];
    for (words, trace, status, text) in cases {
        let (found, sink) = output_of(&rt, rt.alloc(), words, STATE, trace)?;
        assert_eq!(rt; found, status);
        assert_eq!(rt; sink.held.as_slice(), text);
    }
    Ok(())
}

/// Without its last line, with another mode, and where the state after no row is written again.
#[test]
fn refuses_texts_that_are_no_states(rt: HostRuntime) -> Result<(), Fail> {
    let none = b"insn,pc_rdata\n";
    let cut = &STATE[..STATE.len() - 4];
    let mut other = Vec::from_slice(rt.alloc(), STATE)?;
    if let Some(mode) = other.get_mut(35) {
        *mode = b'2';
    }
    let cases: [(&[u8], u8, &[u8]); 3] = [
        (STATE, 0, STATE),
        (cut, 3, b"refused image: line 78: bad line\n"),
        (other.as_slice(), 3, b"refused image: line 3: bad line\n"),
    ];
    for (image, status, text) in cases {
        let (found, sink) = output_of(&rt, rt.alloc(), STATE_WORDS, image, none)?;
        assert_eq!(rt; found, status);
        assert_eq!(rt; sink.held.as_slice(), text);
    }
    Ok(())
}
