//! Runs of several harts.

use super::runs::output_of;
use std::test::Fail;

/// ADDI x1, x0, 5; ADDI x1, x1, 1.
const TWO: &[u8] = b"@80000000 93 00 50 00 93 80 10 00";

/// AUIPC x2, 1; LR.D x3, (x2); SC.D x4, x1, (x2).
const RESERVES: &[u8] = b"@80000000 17 11 00 00 af 31 01 10 2f 32 11 18";

/// Each hart reserves the same bytes, and the second stores to them first.
const RESERVED: &[u8] = b"hart,insn,pc_rdata,rd_wdata
0,0x00001117,0x80000000,0x80001000
0,0x100131af,0x80000004,0
1,0x00001117,0x80000000,0x80001000
1,0x100131af,0x80000004,0
1,0x1811322f,0x80000008,0
0,0x1811322f,0x80000008,0
";

const BOTH: &[u8] = b"hart,order,insn,pc_rdata,rd_addr,rd_wdata
0,0,0x00500093,0x80000000,1,5
1,0,0x00500093,0x80000000,1,5
0,1,0x00108093,0x80000004,1,6
";

const PAIR: &[&str] = &["rvjudge", "judge", "i", "t", "--harts", "2"];

/// Each hart has registers, a pc and an order index of its own, and a hart that is not there is
/// refused with its row.
#[test]
fn judges_several_harts(rt: HostRuntime) -> Result<(), Fail> {
    let alone: &[&str] = &["rvjudge", "judge", "i", "t"];
    let third = b"hart,order,insn,pc_rdata,rd_addr,rd_wdata
0,0,0x00500093,0x80000000,1,5
2,0,0x00500093,0x80000000,1,5
"
        .as_slice();
    let cases: [(&[&str], &[u8], &[u8], u8, &[u8]); 6] = [
        (PAIR, TWO, BOTH, 0, b"agrees 3\n"),
        (
            alone,
            TWO,
            BOTH,
            4,
            b"refused trace: row 2: hart not there\n",
        ),
        (
            PAIR,
            TWO,
            third,
            4,
            b"refused trace: row 2: hart not there\n",
        ),
        (
            PAIR,
            TWO,
            b"hart,insn,pc_rdata\n0,0x00500093,0x80000000\n18446744073709551616,0x00500093,0x80000000\n",
            4,
            b"refused trace: row 2: hart too wide\n",
        ),
        // Without the column each row is of hart 0.
        (
            PAIR,
            TWO,
            b"insn,pc_rdata\n0x00500093,0x80000000\n0x00108093,0x80000004\n",
            0,
            b"agrees 2\n",
        ),
        (
            PAIR,
            RESERVES,
            RESERVED,
            1,
            b"differs row 6: rd_wdata expected 0x0000000000000001 found 0x0000000000000000\n",
        ),
    ];
    for (words, image, trace, status, text) in cases {
        let (found, sink) = output_of(&rt, rt.alloc(), words, image, trace)?;
        assert_eq!(rt; sink.held.as_slice(), text);
        assert_eq!(rt; found, status);
    }
    Ok(())
}

/// The state of two harts, and a run of as many that goes on from it.
#[test]
fn goes_on_from_states_of_several_harts(rt: HostRuntime) -> Result<(), Fail> {
    let saves: &[&str] = &["rvjudge", "state", "i", "t", "--harts", "2"];
    let alone: &[&str] = &["rvjudge", "judge", "i", "t"];
    let (status, saved) = output_of(&rt, rt.alloc(), saves, TWO, BOTH)?;
    assert_eq!(rt; status, 0);
    let fronts = b"rvstate 1\nharts 2\npc 0000000080000008\nmode 3\norder 0000000000000002\n";
    assert!(rt; saved.held.as_slice().starts_with(fronts));
    let more = b"hart,order,insn,pc_rdata,rd_addr,rd_wdata\n1,1,0x00108093,0x80000004,1,6\n";
    let (status, sink) = output_of(&rt, rt.alloc(), PAIR, saved.held.as_slice(), more)?;
    assert_eq!(rt; sink.held.as_slice(), b"agrees 1\n".as_slice());
    assert_eq!(rt; status, 0);
    let (status, sink) = output_of(&rt, rt.alloc(), alone, saved.held.as_slice(), more)?;
    assert_eq!(rt;
        sink.held.as_slice(),
        b"refused image: wrong number of harts\n".as_slice()
    );
    assert_eq!(rt; status, 3);
    Ok(())
}
