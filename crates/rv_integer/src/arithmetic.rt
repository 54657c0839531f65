//! Operations on 64 bits.

ghost use Rattle.std.specs.Prelude.{◌≡◌};
ghost use Rattle.rv_integer.specs.Results.{immediate_result, register_result, left_shift, right_shift, signed_right_shift};

use hart_words::{div, divu, mulh, mulhsu, mulhu, rem, remu};
use rv_decode::{ImmediateOp, RegisterOp};

/// A register's value combined with an immediate, or shifted by its low 6 bits.
#[tactic(auto, unfolding(crate::specs::Results::immediate_result))]
pub fn compute_immediate(op: ImmediateOp, a: u64, imm: u64) -> u64
    ensures { result ≡ immediate_result op a imm }
{
    match op {
        ImmediateOp::Addi => a.wrapping_add(imm),
        ImmediateOp::Slti => u64::from(a.cast_signed() < imm.cast_signed()),
        ImmediateOp::Sltiu => u64::from(a < imm),
        ImmediateOp::Xori => a ^ imm,
        ImmediateOp::Ori => a | imm,
        ImmediateOp::Andi => a & imm,
        ImmediateOp::Slli => shifted_left(a, imm),
        ImmediateOp::Srli => shifted_right(a, imm),
        ImmediateOp::Srai => shifted_right_signed(a, imm),
    }
}

/// Two registers' values combined, or the first shifted by the low 6 bits of the second.
#[tactic(auto, unfolding(crate::specs::Results::register_result))]
pub fn compute_register(op: RegisterOp, a: u64, b: u64) -> u64
    ensures { result ≡ register_result op a b }
{
    match op {
        RegisterOp::Add => a.wrapping_add(b),
        RegisterOp::Sub => a.wrapping_sub(b),
        RegisterOp::Sll => shifted_left(a, b),
        RegisterOp::Slt => u64::from(a.cast_signed() < b.cast_signed()),
        RegisterOp::Sltu => u64::from(a < b),
        RegisterOp::Xor => a ^ b,
        RegisterOp::Srl => shifted_right(a, b),
        RegisterOp::Sra => shifted_right_signed(a, b),
        RegisterOp::Or => a | b,
        RegisterOp::And => a & b,
        RegisterOp::Mul => a.wrapping_mul(b),
        RegisterOp::Mulh => mulh(a, b),
        RegisterOp::Mulhsu => mulhsu(a, b),
        RegisterOp::Mulhu => mulhu(a, b),
        RegisterOp::Div => div(a, b),
        RegisterOp::Divu => divu(a, b),
        RegisterOp::Rem => rem(a, b),
        RegisterOp::Remu => remu(a, b),
    }
}

fn shifted_left(a: u64, b: u64) -> u64
    ensures { result ≡ left_shift a b }
{
    a << (b % 64)
}

fn shifted_right(a: u64, b: u64) -> u64
    ensures { result ≡ right_shift a b }
{
    a >> (b % 64)
}

fn shifted_right_signed(a: u64, b: u64) -> u64
    ensures { result ≡ signed_right_shift a b }
{
    (a.cast_signed() >> (b % 64)).cast_unsigned()
}
