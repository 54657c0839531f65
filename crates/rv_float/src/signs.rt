//! Sign moves, and single numbers in registers of 64 bits.

ghost use Rattle.std.specs.Prelude.{◌≡◌, ◌*◌, ◌+◌, ◌/◌, ◌%◌, ◌==◌, ◌^◌, ◌<◌};
ghost use Rattle.float_rounding.specs.Formats.{sign_bit};
ghost use Rattle.rv_float.specs.Signs.{is_negative_bits, with_sign, sign_copied, opposite_copied, signs_multiplied, boxed, unboxed};

use crate::nans::{canonical_nan, unlike};
use float_rounding::Format;

/// The sign of an operand, by its bits.
fn is_negative(format: Format, bits: u64) -> bool
    ensures { result ≡ is_negative_bits format bits }
{
    bits / format.sign_bit() % 2 == 1
}

/// An operand's bits with another sign.
fn with_sign(format: Format, negative: bool, bits: u64) -> u64
    ensures { result ≡ with_sign format negative bits }
{
    let sign = format.sign_bit();
    let size = bits % sign;
    if negative { sign + size } else { size }
}

/// FSGNJ: `a` with the sign of `b`.
pub fn copy_sign(format: Format, a: u64, b: u64) -> u64
    ensures { result ≡ sign_copied format a b }
{
    with_sign(format, is_negative(format, b), a)
}

/// FSGNJN: `a` with the opposite of the sign of `b`.
pub fn copy_opposite_sign(format: Format, a: u64, b: u64) -> u64
    ensures { result ≡ opposite_copied format a b }
{
    with_sign(format, !is_negative(format, b), a)
}

/// FSGNJX: `a` with the sign that a product of `a` and `b` has.
pub fn multiply_signs(format: Format, a: u64, b: u64) -> u64
    ensures { result ≡ signs_multiplied format a b }
{
    with_sign(
        format,
        unlike(is_negative(format, a), is_negative(format, b)),
        a,
    )
}

/// A single number as a register of 64 bits holds it: the upper half is all ones.
pub fn boxed(bits: u64) -> u64
    ensures { result ≡ boxed bits }
{
    0xffff_ffff_0000_0000 + bits % (1 << 32)
}

/// The single number in a register of 64 bits: the canonical NaN where the upper half is not all
/// ones.
pub fn unboxed(register: u64) -> u64
    ensures { result ≡ unboxed register }
{
    if register >> 32 == 0xffff_ffff {
        register % (1 << 32)
    } else {
        canonical_nan(Format::Single)
    }
}
