//! Words of bit manipulation, from the listing of an assembler (GNU binutils for riscv64).

use super::decode::place;
use rv_decode::{BitsOp, Op, decode_with, opcodes};
use std::test::Fail;

fn register(op: BitsOp, rd: u8, rs1: u8, rs2: u8) -> Op {
    Op::BitsRegister { op, rd, rs1, rs2 }
}

fn immediate(op: BitsOp, rd: u8, rs1: u8, imm: u64) -> Op {
    Op::BitsImmediate { op, rd, rs1, imm }
}

fn unary(op: BitsOp, rd: u8, rs1: u8) -> Op {
    Op::BitsUnary { op, rd, rs1 }
}

/// Each instruction, which is illegal where bit manipulation is not there.
#[test]
fn decodes_bit_manipulation(rt: HostRuntime) -> Result<(), Fail> {
    let rows = [
        // sh1add x7, x14, x30
        (0x21e7_23b3, register(BitsOp::Sh1add, 7, 14, 30)),
        // sh2add x14, x25, x11
        (0x20bc_c733, register(BitsOp::Sh2add, 14, 25, 11)),
        // sh3add x21, x4, x24
        (0x2182_6ab3, register(BitsOp::Sh3add, 21, 4, 24)),
        // andn x28, x15, x5
        (0x4057_fe33, register(BitsOp::Andn, 28, 15, 5)),
        // orn x3, x26, x18
        (0x412d_61b3, register(BitsOp::Orn, 3, 26, 18)),
        // xnor x10, x5, x31
        (0x41f2_c533, register(BitsOp::Xnor, 10, 5, 31)),
        // min x17, x16, x12
        (0x0ac8_48b3, register(BitsOp::Min, 17, 16, 12)),
        // minu x24, x27, x25
        (0x0b9d_dc33, register(BitsOp::Minu, 24, 27, 25)),
        // max x31, x6, x6
        (0x0a63_6fb3, register(BitsOp::Max, 31, 6, 6)),
        // maxu x6, x17, x19
        (0x0b38_f333, register(BitsOp::Maxu, 6, 17, 19)),
        // rol x13, x28, x0
        (0x600e_16b3, register(BitsOp::Rol, 13, 28, 0)),
        // ror x20, x7, x13
        (0x60d3_da33, register(BitsOp::Ror, 20, 7, 13)),
        // bclr x27, x18, x26
        (0x49a9_1db3, register(BitsOp::Bclr, 27, 18, 26)),
        // bext x2, x29, x7
        (0x487e_d133, register(BitsOp::Bext, 2, 29, 7)),
        // binv x9, x8, x20
        (0x6944_14b3, register(BitsOp::Binv, 9, 8, 20)),
        // bset x16, x19, x1
        (0x2819_9833, register(BitsOp::Bset, 16, 19, 1)),
        // add.uw x23, x30, x14
        (0x08ef_0bbb, register(BitsOp::AddUw, 23, 30, 14)),
        // sh1add.uw x30, x9, x27
        (0x21b4_af3b, register(BitsOp::Sh1addUw, 30, 9, 27)),
        // sh2add.uw x5, x20, x8
        (0x208a_42bb, register(BitsOp::Sh2addUw, 5, 20, 8)),
        // sh3add.uw x12, x31, x21
        (0x215f_e63b, register(BitsOp::Sh3addUw, 12, 31, 21)),
        // rolw x19, x10, x2
        (0x6025_19bb, register(BitsOp::Rolw, 19, 10, 2)),
        // rorw x26, x21, x15
        (0x60fa_dd3b, register(BitsOp::Rorw, 26, 21, 15)),
        // slli.uw x1, x0, 63
        (0x0bf0_109b, immediate(BitsOp::SlliUw, 1, 0, 63)),
        // rori x8, x11, 42
        (0x62a5_d413, immediate(BitsOp::Ror, 8, 11, 42)),
        // roriw x15, x22, 21
        (0x615b_579b, immediate(BitsOp::Rorw, 15, 22, 21)),
        // bclri x22, x1, 63
        (0x4bf0_9b13, immediate(BitsOp::Bclr, 22, 1, 63)),
        // bexti x29, x12, 32
        (0x4a06_5e93, immediate(BitsOp::Bext, 29, 12, 32)),
        // binvi x4, x23, 21
        (0x695b_9213, immediate(BitsOp::Binv, 4, 23, 21)),
        // bseti x11, x2, 42
        (0x2aa1_1593, immediate(BitsOp::Bset, 11, 2, 42)),
        // clz x18, x13
        (0x6006_9913, unary(BitsOp::Clz, 18, 13)),
        // ctz x25, x24
        (0x601c_1c93, unary(BitsOp::Ctz, 25, 24)),
        // cpop x0, x3
        (0x6021_9013, unary(BitsOp::Cpop, 0, 3)),
        // clzw x7, x14
        (0x6007_139b, unary(BitsOp::Clzw, 7, 14)),
        // ctzw x14, x25
        (0x601c_971b, unary(BitsOp::Ctzw, 14, 25)),
        // cpopw x21, x4
        (0x6022_1a9b, unary(BitsOp::Cpopw, 21, 4)),
        // sext.b x28, x15
        (0x6047_9e13, unary(BitsOp::SextB, 28, 15)),
        // sext.h x3, x26
        (0x605d_1193, unary(BitsOp::SextH, 3, 26)),
        // zext.h x10, x5
        (0x0802_c53b, unary(BitsOp::ZextH, 10, 5)),
        // orc.b x17, x16
        (0x2878_5893, unary(BitsOp::OrcB, 17, 16)),
        // rev8 x24, x27
        (0x6b8d_dc13, unary(BitsOp::Rev8, 24, 27)),
    ];
    for (word, op) in rows {
        assert_eq!(rt; decode_with(word, true), Some(op), "at {word}");
        assert_eq!(rt; decode_with(word, false), None, "at {word}");
    }
    Ok(())
}

/// Words beside the rows of bit manipulation, with it.
#[test]
fn refuses_words_beside_bits(rt: HostRuntime) -> Result<(), Fail> {
    let words = [
        // zext.h with rs2 1, which is pack of Zbkb
        0x0812_c2bb,
        // clz's place with 0x603
        0x6033_1293,
        // orc.b's place with 0x286
        0x2863_5293,
        // rev8's place with 0x698, where it stands on RV32
        0x6983_5293,
        // roriw by 32
        0x6203_529b,
        // clmul of Zbc
        0x0a73_12b3,
        // bext on 32 bits
        0x4873_52bb,
        // sh1add with funct3 0
        0x2073_02b3,
    ];
    for word in words {
        assert_eq!(rt; decode_with(word, true), None, "at {word}");
    }
    Ok(())
}

/// The registers of each form.
#[test]
fn names_registers_of_bits(rt: HostRuntime) -> Result<(), Fail> {
    let rows = [
        (register(BitsOp::Andn, 1, 2, 3), (1, 2, 3)),
        (immediate(BitsOp::Ror, 4, 5, 6), (4, 5, 0)),
        (unary(BitsOp::Clz, 7, 8), (7, 8, 0)),
    ];
    for (op, registers) in rows {
        let operands = op.operands();
        assert_eq!(rt; (operands.rd, operands.rs1, operands.rs2), registers);
    }
    Ok(())
}

/// The checksum of the instructions that an opcode has with each funct3 and each value of bits
/// 31:20, in this order, first with x5 as rd and x6 as rs1, then with x0 and x31: 0 stands for a
/// word that is refused. This is FNV-1a of 64 bits, on numbers of 16 bits.
fn checksum(opcode: u32) -> u64 {
    let mut sum: u64 = 0xcbf2_9ce4_8422_2325;
    for registers in [6 << 15 | 5 << 7, 31 << 15] {
        for place_of_word in 0..0x8000u32 {
            let funct3 = place_of_word / 0x1000;
            let upper = place_of_word % 0x1000;
            let word = upper << 20 | funct3 << 12 | registers | opcode;
            let number = decode_with(word, true).map_or(0, place);
            sum = (sum ^ u64::from(number)).wrapping_mul(0x0000_0100_0000_01b3);
        }
    }
    sum
}

/// Words of the four opcodes to which bit manipulation adds rows, legal or not, against a
/// disassembler's list of them.
///
/// The list was made so: an assembler (GNU binutils 2.40 for riscv64, as Debian has it) was given
/// each word by `.insn` with `-march=rv64imac_zba_zbb_zbs`; `objdump -d -M numeric,no-aliases`
/// printed its instruction, or a plain number where it has none; each instruction's name was
/// numbered as `place` does. The assembler makes of each instruction that was printed its word
/// again. For each opcode here is the checksum of the list.
#[test]
fn decodes_bits_as_listed(rt: HostRuntime) -> Result<(), Fail> {
    let listed = [
        (0x13, 0xf40b_84c7_468b_48e5),
        (0x1b, 0x2313_3d11_ba13_d115),
        (0x33, 0x6c2d_12d8_4896_2965),
        (0x3b, 0x1075_3979_9cd4_f625),
    ];
    for (opcode, sum) in listed {
        assert_eq!(rt; checksum(opcode), sum, "opcode {opcode}");
    }
    Ok(())
}
