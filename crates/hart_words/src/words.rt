//! Arithmetic on words, as the instructions have it. From the Unprivileged ISA's chapters "RV64I
//! Base Integer Instruction Set" and "M Extension for Integer Multiplication and Division".

ghost use Rattle.std.specs.Prelude.{◌≡◌, ◌≤◌, ◌*ℤ◌, ◌^◌, pos};
ghost use Rattle.std.specs.Int.{w64, cast_signed, int_div_euclid};
ghost use Rattle.hart_words.specs.Words.{sign_extended, residue, high_signed, high_mixed, high_unsigned, quotient_signed, quotient_unsigned, remainder_signed, remainder_unsigned};

/// The low `bits` bits of `x`, from 1 to 64 of them, as a signed number, extended to 64 bits.
#[tactic(auto, using(crate::proofs::Extended::shifted_back))]
pub fn sext(x: u64, bits: u32) -> u64
    requires at_least_1 { 1 ≤ bits }
    requires at_most_64 { bits ≤ 64 }
    ensures { result ≡ sign_extended bits x }
{
    let unused = 64 - bits;
    ((x << unused).cast_signed() >> unused).cast_unsigned()
}

/// The upper 64 bits of the product of two signed numbers.
#[tactic(auto, unfolding(crate::specs::Words::high_signed))]
pub fn mulh(a: u64, b: u64) -> u64
    ensures { result ≡ high_signed a b }
{
    high_half(i128::from(a.cast_signed()) * i128::from(b.cast_signed()))
}

/// The upper 64 bits of the product of a signed and an unsigned number.
#[tactic(auto, unfolding(crate::specs::Words::high_mixed))]
pub fn mulhsu(a: u64, b: u64) -> u64
    ensures { result ≡ high_mixed a b }
{
    high_half(i128::from(a.cast_signed()) * i128::from(b))
}

/// The upper 64 bits of the product of two unsigned numbers.
#[tactic(auto, unfolding(crate::specs::Words::high_unsigned))]
pub fn mulhu(a: u64, b: u64) -> u64
    ensures { result ≡ high_unsigned a b }
{
    ((u128::from(a) * u128::from(b)) >> 64) as u64
}

/// The upper 64 bits of a number of 128.
fn high_half(product: i128) -> u64
    ensures { result ≡ residue w64 (int_div_euclid product (pos (2 ^ 64))) }
{
    ((product >> 64) as i64).cast_unsigned()
}

/// The quotient of two signed numbers, rounded towards zero; all ones where `b` is 0. The least
/// number divided by -1 gives the least number.
#[tactic(auto, unfolding(crate::specs::Words::quotient_signed))]
pub fn div(a: u64, b: u64) -> u64
    ensures { result ≡ quotient_signed w64 a b }
{
    if b == 0 {
        u64::MAX
    } else {
        a.cast_signed()
            .wrapping_div(b.cast_signed())
            .cast_unsigned()
    }
}

/// The quotient of two unsigned numbers; all ones where `b` is 0.
#[tactic(auto, unfolding(crate::specs::Words::quotient_unsigned))]
pub fn divu(a: u64, b: u64) -> u64
    ensures { result ≡ quotient_unsigned w64 a b }
{
    if b == 0 { u64::MAX } else { a / b }
}

/// The remainder of two signed numbers, with the sign of `a`; `a` where `b` is 0. The least number
/// divided by -1 leaves 0.
#[tactic(auto, unfolding(crate::specs::Words::remainder_signed))]
pub fn rem(a: u64, b: u64) -> u64
    ensures { result ≡ remainder_signed w64 a b }
{
    if b == 0 {
        a
    } else {
        a.cast_signed()
            .wrapping_rem(b.cast_signed())
            .cast_unsigned()
    }
}

/// The remainder of two unsigned numbers; `a` where `b` is 0.
#[tactic(auto, unfolding(crate::specs::Words::remainder_unsigned))]
pub fn remu(a: u64, b: u64) -> u64
    ensures { result ≡ remainder_unsigned a b }
{
    if b == 0 { a } else { a % b }
}
