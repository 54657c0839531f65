//! What a parcel expands to.

ghost use Rattle.std.specs.Prelude.{◌≡◌, IfSome};
ghost use Rattle.rv_decode.specs.Operands.{HasEvenOffset, HasRegisters};
ghost use Rattle.rv_compressed.specs.Table.{expansion_of, expanded_op_of, expansion_by, encoding_of};

use crate::compressed_op::CompressedOp;
use crate::fields::{
    addi4spn_immediate, addi16sp_immediate, branch_offset, compressed_register, doubleword_offset,
    field_of, jump_offset, ldsp_offset, lwsp_offset, sdsp_offset, shift_amount, small_immediate,
    swsp_offset, upper_immediate, word_offset,
};
use crate::formats::{b_format, i_format, j_format, r_format, s_format, u_format};
use crate::patterns::{Pattern, rows_from};
use rv_decode::opcodes::{BRANCH, JAL, JALR, LOAD, LUI, OP, OP_32, OP_IMM, OP_IMM_32, STORE};
use rv_decode::{Op, decode};

/// The instruction that a parcel means, or `None` where it is reserved, uses floating-point
/// registers, or has low bits 11 and so begins a longer instruction. Hints mean what they expand
/// to.
#[tactic(auto, unfolding(crate::specs::Table::expanded_op_of))]
pub fn expand(parcel: u16) -> Option<Op>
    ensures meaning { result ≡ expanded_op_of parcel }
    ensures registers { IfSome result HasRegisters }
    ensures even { IfSome result HasEvenOffset }
{
    match expansion(parcel) {
        None => None,
        Some(word) => decode(word),
    }
}

/// The 32-bit word that a parcel expands to.
#[tactic(auto, unfolding(crate::specs::Table::expansion_of, crate::specs::Table::table))]
pub fn expansion(parcel: u16) -> Option<u32>
    ensures { result ≡ expansion_of parcel }
{
    expansion_by(rows_from(parcel), parcel)
}

/// The word of the row that the parcel meets.
#[tactic(auto, unfolding(crate::specs::Table::expansion_by))]
fn expansion_by(rows: &[Pattern], parcel: u16) -> Option<u32>
    ensures { result ≡ expansion_by rows.now parcel }
{
    match rows.iter().find(|row| row.meets(parcel)) {
        None => None,
        Some(row) => Some(word(row.op, parcel)),
    }
}

/// The 32-bit word that an instruction expands to, with the operands that stand in the parcel.
#[tactic(auto, unfolding(crate::specs::Table::encoding_of))]
fn word(op: CompressedOp, parcel: u16) -> u32
    ensures { result ≡ encoding_of op parcel }
{
    let rd = field_of(parcel, 7, 5);
    let rs2 = field_of(parcel, 2, 5);
    let first = compressed_register(parcel, 7);
    let second = compressed_register(parcel, 2);
    match op {
        CompressedOp::Addi4spn => i_format(OP_IMM, 0, second, 2, addi4spn_immediate(parcel)),
        CompressedOp::Lw => i_format(LOAD, 2, second, first, word_offset(parcel)),
        CompressedOp::Ld => i_format(LOAD, 3, second, first, doubleword_offset(parcel)),
        CompressedOp::Sw => s_format(STORE, 2, second, first, word_offset(parcel)),
        CompressedOp::Sd => s_format(STORE, 3, second, first, doubleword_offset(parcel)),
        CompressedOp::Addi => i_format(OP_IMM, 0, rd, rd, small_immediate(parcel)),
        CompressedOp::Addiw => i_format(OP_IMM_32, 0, rd, rd, small_immediate(parcel)),
        CompressedOp::Li => i_format(OP_IMM, 0, rd, 0, small_immediate(parcel)),
        CompressedOp::Addi16sp => i_format(OP_IMM, 0, 2, 2, addi16sp_immediate(parcel)),
        CompressedOp::Lui => u_format(LUI, rd, upper_immediate(parcel)),
        CompressedOp::Srli => i_format(OP_IMM, 5, first, first, shift_amount(parcel)),
        CompressedOp::Srai => i_format(OP_IMM, 5, first, first, 0x400 + shift_amount(parcel)),
        CompressedOp::Andi => i_format(OP_IMM, 7, first, first, small_immediate(parcel)),
        CompressedOp::Sub => r_format(OP, 0, 0x20, (first, first, second)),
        CompressedOp::Xor => r_format(OP, 4, 0, (first, first, second)),
        CompressedOp::Or => r_format(OP, 6, 0, (first, first, second)),
        CompressedOp::And => r_format(OP, 7, 0, (first, first, second)),
        CompressedOp::Subw => r_format(OP_32, 0, 0x20, (first, first, second)),
        CompressedOp::Addw => r_format(OP_32, 0, 0, (first, first, second)),
        CompressedOp::J => j_format(JAL, 0, jump_offset(parcel)),
        CompressedOp::Beqz => b_format(BRANCH, 0, first, 0, branch_offset(parcel)),
        CompressedOp::Bnez => b_format(BRANCH, 1, first, 0, branch_offset(parcel)),
        CompressedOp::Slli => i_format(OP_IMM, 1, rd, rd, shift_amount(parcel)),
        CompressedOp::Lwsp => i_format(LOAD, 2, rd, 2, lwsp_offset(parcel)),
        CompressedOp::Ldsp => i_format(LOAD, 3, rd, 2, ldsp_offset(parcel)),
        CompressedOp::Jr => i_format(JALR, 0, 0, rd, 0),
        CompressedOp::Mv => r_format(OP, 0, 0, (rd, 0, rs2)),
        CompressedOp::Ebreak => 0x0010_0073,
        CompressedOp::Jalr => i_format(JALR, 0, 1, rd, 0),
        CompressedOp::Add => r_format(OP, 0, 0, (rd, rd, rs2)),
        CompressedOp::Swsp => s_format(STORE, 2, rs2, 2, swsp_offset(parcel)),
        CompressedOp::Sdsp => s_format(STORE, 3, rs2, 2, sdsp_offset(parcel)),
    }
}
