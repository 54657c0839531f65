//! Operations on 32 bits, whose results are sign-extended.

ghost use Rattle.std.specs.Prelude.{◌≡◌, ◌+◌, ◌-◌, ◌*◌, ◌/◌, ◌%◌, ◌^◌, pos};
ghost use Rattle.std.specs.Int.{w32, cast_signed, int_div_euclid};
ghost use Rattle.hart_words.specs.Words.{sign_extended, residue, quotient_signed, quotient_unsigned, remainder_signed, remainder_unsigned};
ghost use Rattle.rv_integer.specs.Results.{immediate_word_result, register_word_result};
ghost use Rattle.rv_bits.specs.Results.{low};

use hart_words::sext;
use rv_decode::{ImmediateWordOp, RegisterWordOp};

/// The low 32 bits of a register's value combined with an immediate, or shifted by its low 5 bits.
#[tactic(auto, using(crate::proofs::Narrow::narrowed_word), unfolding(crate::specs::Results::immediate_word_result))]
pub fn compute_immediate_word(op: ImmediateWordOp, a: u64, imm: u64) -> u64
    ensures { result ≡ immediate_word_result op a imm }
{
    match op {
        ImmediateWordOp::Addiw => sum(a, imm),
        ImmediateWordOp::Slliw => extended_word(shifted_left(low_word(a), imm)),
        ImmediateWordOp::Srliw => extended_word(shifted_right(low_word(a), imm)),
        ImmediateWordOp::Sraiw => extended_word(shifted_right_signed(low_word(a), imm)),
    }
}

/// The low 32 bits of two registers' values combined, or the first shifted by the low 5 bits of the
/// second.
#[tactic(auto, using(crate::proofs::Narrow::narrowed_word), unfolding(crate::specs::Results::register_word_result))]
pub fn compute_register_word(op: RegisterWordOp, a: u64, b: u64) -> u64
    ensures { result ≡ register_word_result op a b }
{
    match op {
        RegisterWordOp::Addw => sum(a, b),
        RegisterWordOp::Subw => difference(a, b),
        RegisterWordOp::Sllw => extended_word(shifted_left(low_word(a), b)),
        RegisterWordOp::Srlw => extended_word(shifted_right(low_word(a), b)),
        RegisterWordOp::Sraw => extended_word(shifted_right_signed(low_word(a), b)),
        RegisterWordOp::Mulw => product(a, b),
        RegisterWordOp::Divw => extended_word(quotient(low_word(a), low_word(b))),
        RegisterWordOp::Divuw => extended_word(unsigned_quotient(low_word(a), low_word(b))),
        RegisterWordOp::Remw => extended_word(remainder(low_word(a), low_word(b))),
        RegisterWordOp::Remuw => extended_word(unsigned_remainder(low_word(a), low_word(b))),
    }
}

/// The low 32 bits.
fn low_word(x: u64) -> u32
    ensures { result ≡ low x }
{
    (x % (1 << 32)) as u32
}

/// A word, sign-extended.
fn extended_word(word: u32) -> u64
    ensures { result ≡ sign_extended 32 word }
{
    sext(u64::from(word), 32)
}

#[tactic(auto, using(crate::proofs::Narrow::narrowed))]
fn sum(a: u64, b: u64) -> u64
    ensures { result ≡ sign_extended 32 (a + b) }
{
    sext(a.wrapping_add(b), 32)
}

#[tactic(auto, using(crate::proofs::Narrow::narrowed))]
fn difference(a: u64, b: u64) -> u64
    ensures { result ≡ sign_extended 32 (a + (2 ^ 64 - b)) }
{
    sext(a.wrapping_sub(b), 32)
}

#[tactic(auto, using(crate::proofs::Narrow::narrowed))]
fn product(a: u64, b: u64) -> u64
    ensures { result ≡ sign_extended 32 (a * b) }
{
    sext(a.wrapping_mul(b), 32)
}

fn shifted_left(a: u32, b: u64) -> u32
    ensures { result ≡ a * 2 ^ (b % 32) % 2 ^ 32 }
{
    a << (b % 32)
}

fn shifted_right(a: u32, b: u64) -> u32
    ensures { result ≡ a / 2 ^ (b % 32) }
{
    a >> (b % 32)
}

fn shifted_right_signed(a: u32, b: u64) -> u32
    ensures { result ≡ residue w32 (int_div_euclid (cast_signed w32 a) (pos (2 ^ (b % 32)))) }
{
    (a.cast_signed() >> (b % 32)).cast_unsigned()
}

/// The quotient of two signed words, rounded towards zero; all ones where `b` is 0.
#[tactic(auto, unfolding(hart_words::specs::Words::quotient_signed))]
fn quotient(a: u32, b: u32) -> u32
    ensures { result ≡ quotient_signed w32 a b }
{
    if b == 0 {
        u32::MAX
    } else {
        a.cast_signed()
            .wrapping_div(b.cast_signed())
            .cast_unsigned()
    }
}

#[tactic(auto, unfolding(hart_words::specs::Words::quotient_unsigned))]
fn unsigned_quotient(a: u32, b: u32) -> u32
    ensures { result ≡ quotient_unsigned w32 a b }
{
    if b == 0 { u32::MAX } else { a / b }
}

/// The remainder of two signed words, with the sign of `a`; `a` where `b` is 0.
#[tactic(auto, unfolding(hart_words::specs::Words::remainder_signed))]
fn remainder(a: u32, b: u32) -> u32
    ensures { result ≡ remainder_signed w32 a b }
{
    if b == 0 {
        a
    } else {
        a.cast_signed()
            .wrapping_rem(b.cast_signed())
            .cast_unsigned()
    }
}

#[tactic(auto, unfolding(hart_words::specs::Words::remainder_unsigned))]
fn unsigned_remainder(a: u32, b: u32) -> u32
    ensures { result ≡ remainder_unsigned a b }
{
    if b == 0 { a } else { a % b }
}
