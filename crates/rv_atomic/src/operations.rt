//! The atomic memory operations.

ghost use Rattle.std.specs.Prelude.{◌≡◌, ◌<◌, ◌%◌, ◌^◌};
ghost use Rattle.rv_decode.specs.declared.operation.Width.TheVariants.{Word, Doubleword};
ghost use Rattle.rv_atomic.specs.Operations.{amo_of, combination_of, width_bits};

use rv_decode::{AmoOp, Width};

/// What memory gets from an atomic memory operation, where it held `old` and rs2 has the value `b`:
/// on 32 bits the low halves of both are combined, and the result is below 2^32. From the
/// Unprivileged ISA's chapter "A Extension for Atomic Instructions".
#[tactic(auto, unfolding(crate::specs::Operations::amo_of))]
pub fn amo(op: AmoOp, width: Width, old: u64, b: u64) -> u64
    ensures value { result ≡ amo_of op width old b }
    ensures fits { result < 2 ^ width_bits width }
{
    match width {
        Width::Word => u64::from(combine_words(op, low_word(old), low_word(b))),
        Width::Doubleword => combine_doublewords(op, old, b),
    }
}

/// The low 32 bits.
fn low_word(x: u64) -> u32
    ensures { result ≡ x % 2 ^ 32 }
{
    (x % (1 << 32)) as u32
}

#[tactic(auto, unfolding(crate::specs::Operations::combination_of))]
fn combine_words(op: AmoOp, low_old: u32, low_b: u32) -> u32
    ensures { result ≡ combination_of op Word low_old low_b }
{
    match op {
        AmoOp::Amoswap => low_b,
        AmoOp::Amoadd => low_old.wrapping_add(low_b),
        AmoOp::Amoxor => low_old ^ low_b,
        AmoOp::Amoand => low_old & low_b,
        AmoOp::Amoor => low_old | low_b,
        AmoOp::Amomin if low_b.cast_signed() < low_old.cast_signed() => low_b,
        AmoOp::Amomax if low_old.cast_signed() < low_b.cast_signed() => low_b,
        AmoOp::Amomin | AmoOp::Amomax => low_old,
        AmoOp::Amominu => low_old.min(low_b),
        AmoOp::Amomaxu => low_old.max(low_b),
    }
}

#[tactic(auto, unfolding(crate::specs::Operations::combination_of))]
fn combine_doublewords(op: AmoOp, old: u64, b: u64) -> u64
    ensures { result ≡ combination_of op Doubleword old b }
{
    match op {
        AmoOp::Amoswap => b,
        AmoOp::Amoadd => old.wrapping_add(b),
        AmoOp::Amoxor => old ^ b,
        AmoOp::Amoand => old & b,
        AmoOp::Amoor => old | b,
        AmoOp::Amomin if b.cast_signed() < old.cast_signed() => b,
        AmoOp::Amomax if old.cast_signed() < b.cast_signed() => b,
        AmoOp::Amomin | AmoOp::Amomax => old,
        AmoOp::Amominu => old.min(b),
        AmoOp::Amomaxu => old.max(b),
    }
}
