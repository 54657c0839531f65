//! What an instruction computes.

ghost use Rattle.std.specs.Prelude.{◌≡◌, ◌<◌};
ghost use Rattle.rv_bits.specs.Results.{selected_bit, bits_result, greater_signed, lesser_signed, low, shifted_sum};

use crate::bytes::{filled_bytes, reversed_bytes};
use crate::counts::{
    population, population_of_word, zeros_above, zeros_above_in_word, zeros_below,
    zeros_below_in_word,
};
use crate::rotations::{rotated_left, rotated_right, rotated_word_left, rotated_word_right};
use hart_words::sext;
use rv_decode::BitsOp;

/// What `op` computes, where rs1 has the value `a`, and rs2 the value `b` or the shift amount is
/// `b`. From the Bit-Manipulation ISA-extensions, "Zba: Address generation", "Zbb: Basic
/// bit-manipulation" and "Zbs: Single-bit instructions".
#[tactic(auto, unfolding(crate::specs::Results::bits_result))]
pub fn compute_bits(op: BitsOp, a: u64, b: u64) -> u64
    ensures { result ≡ bits_result op a b }
{
    match op {
        BitsOp::Sh1add => shifted_sum(a, 1, b),
        BitsOp::Sh2add => shifted_sum(a, 2, b),
        BitsOp::Sh3add => shifted_sum(a, 3, b),
        BitsOp::AddUw => shifted_sum(low_word(a), 0, b),
        BitsOp::Sh1addUw => shifted_sum(low_word(a), 1, b),
        BitsOp::Sh2addUw => shifted_sum(low_word(a), 2, b),
        BitsOp::Sh3addUw => shifted_sum(low_word(a), 3, b),
        BitsOp::SlliUw => low_word(a) << (b % 64),
        BitsOp::Andn => a & !b,
        BitsOp::Orn => a | !b,
        BitsOp::Xnor => !(a ^ b),
        BitsOp::Clz => zeros_above(a),
        BitsOp::Clzw => zeros_above_in_word(low_word(a) as u32),
        BitsOp::Ctz => zeros_below(a),
        BitsOp::Ctzw => zeros_below_in_word(low_word(a) as u32),
        BitsOp::Cpop => population(a),
        BitsOp::Cpopw => population_of_word(low_word(a) as u32),
        BitsOp::Max => greater_signed(a, b),
        BitsOp::Maxu => if a < b { b } else { a },
        BitsOp::Min => lesser_signed(a, b),
        BitsOp::Minu => if a < b { a } else { b },
        BitsOp::SextB => sext(a, 8),
        BitsOp::SextH => sext(a, 16),
        BitsOp::ZextH => a % (1 << 16),
        BitsOp::Rol => rotated_left(a, b),
        BitsOp::Rolw => rotated_word_left(low_word(a) as u32, b),
        BitsOp::Ror => rotated_right(a, b),
        BitsOp::Rorw => rotated_word_right(low_word(a) as u32, b),
        BitsOp::OrcB => filled_bytes(a),
        BitsOp::Rev8 => reversed_bytes(a),
        BitsOp::Bclr => a & !selected_bit(b),
        BitsOp::Bext => a >> (b % 64) & 1,
        BitsOp::Binv => a ^ selected_bit(b),
        BitsOp::Bset => a | selected_bit(b),
    }
}

/// The low 32 bits.
fn low_word(x: u64) -> u64
    ensures { result ≡ low x }
{
    x % (1 << 32)
}

/// `x` shifted left by so many bits, and `addend` added.
fn shifted_sum(x: u64, amount: u32, addend: u64) -> u64
    requires { amount < 64 }
    ensures { result ≡ shifted_sum x amount addend }
{
    (x << amount).wrapping_add(addend)
}

/// The greater of two signed numbers.
fn greater_signed(a: u64, b: u64) -> u64
    ensures { result ≡ greater_signed a b }
{
    if a.cast_signed() < b.cast_signed() {
        b
    } else {
        a
    }
}

/// The lesser of two signed numbers.
fn lesser_signed(a: u64, b: u64) -> u64
    ensures { result ≡ lesser_signed a b }
{
    if a.cast_signed() < b.cast_signed() {
        a
    } else {
        b
    }
}

/// The bit that the low 6 bits of `b` name, alone.
fn selected_bit(b: u64) -> u64
    ensures { result ≡ selected_bit b }
{
    1 << (b % 64)
}
