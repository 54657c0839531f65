use super::*;
use crate::expansion::expansion;
use rv_decode::decode;
use std::test::Fail;

/// Parcels with the 32-bit words of their expansions, from the listing of a disassembler (GNU
/// binutils for riscv64).
#[test]
fn expands_parcels(rt: HostRuntime) -> Result<(), Fail> {
    let rows = [
        // c.addi4spn x11,x2,544
        (0x140c, 0x2201_0593),
        // c.addi4spn x11,x2,20
        (0x084c, 0x0141_0593),
        // c.lw x12,108(x13)
        (0x56f0, 0x06c6_a603),
        // c.ld x14,128(x11)
        (0x61d8, 0x0805_b703),
        // c.sw x11,60(x11)
        (0xddcc, 0x02b5_ae23),
        // c.sd x12,216(x15)
        (0xeff0, 0x0cc7_bc23),
        // c.addi x11,-15
        (0x15c5, 0xff15_8593),
        // c.addi x4,10
        (0x0229, 0x00a2_0213),
        // c.addiw x27,-11
        (0x3dd5, 0xff5d_8d9b),
        // c.addiw x11,1
        (0x2585, 0x0015_859b),
        // c.li x31,0
        (0x4f81, 0x0000_0f93),
        // c.li x25,-14
        (0x5cc9, 0xff20_0c93),
        // c.addi16sp x2,-352
        (0x710d, 0xea01_0113),
        // c.addi16sp x2,416
        (0x611d, 0x1a01_0113),
        // c.lui x9,0xffff5
        (0x74d5, 0xffff_54b7),
        // c.lui x18,0xf
        (0x693d, 0x0000_f937),
        // c.srli x8,0x7
        (0x801d, 0x0074_5413),
        // c.srai x11,0x3e
        (0x95f9, 0x43e5_d593),
        // c.andi x14,29
        (0x8b75, 0x01d7_7713),
        // c.andi x13,-31
        (0x9a85, 0xfe16_f693),
        // c.sub x12,x11
        (0x8e0d, 0x40b6_0633),
        // c.xor x10,x15
        (0x8d3d, 0x00f5_4533),
        // c.or x14,x9
        (0x8f45, 0x0097_6733),
        // c.and x10,x12
        (0x8d71, 0x00c5_7533),
        // c.subw x9,x9
        (0x9c85, 0x4094_84bb),
        // c.addw x10,x9
        (0x9d25, 0x0095_053b),
        // c.j .-1378
        (0xbc79, 0xa9ff_f06f),
        // c.j .+22
        (0xa819, 0x0160_006f),
        // c.beqz x13,.+112
        (0xcaa5, 0x0606_8863),
        // c.beqz x13,.-256
        (0xd281, 0xf006_80e3),
        // c.bnez x8,.-244
        (0xf411, 0xf004_16e3),
        // c.bnez x9,.+94
        (0xecb9, 0x0404_9f63),
        // c.slli x5,0x2f
        (0x12be, 0x02f2_9293),
        // c.lwsp x26,160(x2)
        (0x5d0a, 0x0a01_2d03),
        // c.ldsp x13,296(x2)
        (0x76b2, 0x1281_3683),
        // c.jr x21
        (0x8a82, 0x000a_8067),
        // c.mv x7,x24
        (0x83e2, 0x0180_03b3),
        // c.ebreak
        (0x9002, 0x0010_0073),
        // c.jalr x31
        (0x9f82, 0x000f_80e7),
        // c.add x23,x26
        (0x9bea, 0x01ab_8bb3),
        // c.swsp x6,88(x2)
        (0xcc9a, 0x0461_2c23),
        // c.sdsp x1,112(x2)
        (0xf886, 0x0611_3823),
    ];
    for (parcel, word) in rows {
        assert_eq!(rt; expansion(parcel), Some(word), "at {parcel}");
        assert_eq!(rt; expand(parcel), decode(word), "at {parcel}");
    }
    Ok(())
}

/// Hints mean what they expand to: a destination of x0, or nothing added or shifted.
#[test]
fn expands_hints(rt: HostRuntime) -> Result<(), Fail> {
    let rows = [
        // c.addi x0,1
        (0x0005, 0x0010_0013),
        // c.addi x0,-1
        (0x107d, 0xfff0_0013),
        // c.addi x1,0
        (0x0081, 0x0000_8093),
        // c.li x0,5
        (0x4015, 0x0050_0013),
        // c.lui x0,0x1
        (0x6005, 0x0000_1037),
        // c.slli x0,0x1
        (0x0006, 0x0010_1013),
        // c.slli64 x1
        (0x0082, 0x0000_9093),
        // c.srli64 x8
        (0x8001, 0x0004_5413),
        // c.srai64 x8
        (0x8401, 0x4004_5413),
        // c.mv x0,x1
        (0x8006, 0x0010_0033),
        // c.add x0,x1
        (0x9006, 0x0010_0033),
    ];
    for (parcel, word) in rows {
        assert_eq!(rt; expansion(parcel), Some(word), "at {parcel}");
        assert_eq!(rt; expand(parcel), decode(word), "at {parcel}");
    }
    Ok(())
}

/// Reserved parcels, those of floating point, and the low parcels of longer instructions.
#[test]
fn refuses_parcels(rt: HostRuntime) -> Result<(), Fail> {
    let parcels = [
        // the word that is always illegal
        0x0000,
        // c.addi4spn of 0
        0x0004,
        // c.addi4spn of 0
        0x001c,
        // bits 15:13 of 100 in quadrant 0
        0x8000,
        // c.addiw x0
        0x2001,
        // c.addiw x0
        0x3005,
        // c.addi16sp of 0
        0x6101,
        // c.lui of 0
        0x6081,
        // c.lui x0 of 0
        0x6001,
        // bits 12, 6 and 5 of 110 among the register forms
        0x9c41,
        // bits 12, 6 and 5 of 111 among the register forms
        0x9c61,
        // c.lwsp x0
        0x4002,
        // c.ldsp x0
        0x6002,
        // c.jr x0
        0x8002,
        // c.fld
        0x2000,
        // c.fsd
        0xa000,
        // c.fldsp
        0x2002,
        // c.fsdsp
        0xa002,
        // the low parcel of addi
        0x0093,
        // the low parcel of ecall
        0x0073,
        // all ones
        0xffff,
    ];
    for parcel in parcels {
        assert_eq!(rt; expand(parcel), None, "at {parcel}");
    }
    Ok(())
}

/// The checksum of the words that 2,048 parcels expand to, every fourth from `first` on: 0 stands
/// for a parcel that is refused. This is FNV-1a of 64 bits, a word at a time.
fn checksum(first: u16) -> u64 {
    let mut sum: u64 = 0xcbf2_9ce4_8422_2325;
    for place in 0..2048u16 {
        let word = expansion(first.wrapping_add(place * 4)).unwrap_or(0);
        sum = (sum ^ u64::from(word)).wrapping_mul(0x0000_0100_0000_01b3);
    }
    sum
}

/// All 49,152 parcels whose low bits are not 11, against a disassembler's list of them.
///
/// The list was made so: an assembler (GNU binutils 2.40 for riscv64, as Debian has it) was given
/// each parcel by `.insn` for rv64imac; `objdump -d -M numeric,no-aliases` printed its compressed
/// instruction, or a plain number where it has none; each was written as the 32-bit instruction
/// that the standard says it expands to, at its own place, and the assembler, with compressed
/// instructions off, gave that word. One parcel differs, and is put as the standard has it: 0x6101,
/// C.ADDI16SP of 0, is reserved, where the disassembler prints an addition of 0. For each pair of
/// low bits and bits 15:13 here is the checksum of the list.
#[test]
fn expands_as_listed(rt: HostRuntime) -> Result<(), Fail> {
    let listed = [
        (0x0000, 0x29fa_d87a_cc6c_92fd),
        (0x2000, 0x28c3_1cf8_df2e_c325),
        (0x4000, 0x0f06_1ef0_808e_cb25),
        (0x6000, 0x7c0b_1441_5be0_6b25),
        (0x8000, 0x28c3_1cf8_df2e_c325),
        (0xa000, 0x28c3_1cf8_df2e_c325),
        (0xc000, 0x2497_c51b_e573_1b25),
        (0xe000, 0x9cdf_19e3_bf1e_cb25),
        (0x0001, 0xdcf0_3ab3_8ea3_bb25),
        (0x2001, 0xb61c_95a6_858a_2ce5),
        (0x4001, 0xa1f0_db15_f42d_bb25),
        (0x6001, 0x208c_6a5a_2979_ea41),
        (0x8001, 0xdd59_2a46_6da7_f6a5),
        (0xa001, 0xc835_e281_f220_eb25),
        (0xc001, 0xb842_5be1_be56_3b25),
        (0xe001, 0xb932_56d2_1aaf_db25),
        (0x0002, 0xf38d_5de5_5622_5b25),
        (0x2002, 0x28c3_1cf8_df2e_c325),
        (0x4002, 0xc0da_0bb5_7f52_dce5),
        (0x6002, 0xde3b_962c_2e4a_9ce5),
        (0x8002, 0x4013_c157_30db_43d6),
        (0xa002, 0x28c3_1cf8_df2e_c325),
        (0xc002, 0x3e95_d941_7b29_7b25),
        (0xe002, 0x9cd8_936f_8230_cb25),
    ];
    for (first, sum) in listed {
        assert_eq!(rt; checksum(first), sum, "from {first}");
    }
    Ok(())
}

/// Each parcel that expands means an instruction.
#[test]
fn expansions_decode(rt: HostRuntime) -> Result<(), Fail> {
    for parcel in 0..=u16::MAX {
        assert_eq!(rt;
            expand(parcel).is_some(),
            expansion(parcel).is_some(),
            "at {parcel}"
        );
    }
    Ok(())
}
