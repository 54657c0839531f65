//! The class of an operand.

ghost use Rattle.std.specs.Prelude.{◌≡◌, if◌then◌else◌};
ghost use Rattle.float_rounding.specs.Formats.{magnitude_value, value_of};
ghost use Rattle.rv_float.specs.Classes.{class_of, mask_of};

use crate::operands::{Parts, is_nan, parts_of, signals};
use float_rounding::Format;

/// What FCLASS tells apart.
#[derive(Clone, Copy, Debug, PartialEq, Eq)]
pub enum Class {
    NegativeInfinity,
    NegativeNormal,
    NegativeSubnormal,
    NegativeZero,
    PositiveZero,
    PositiveSubnormal,
    PositiveNormal,
    PositiveInfinity,
    SignalingNan,
    QuietNan,
}

impl Class {
    /// The mask that FCLASS writes: one bit for each class.
    pub fn mask(self) -> u64
        ensures { result ≡ mask_of self }
    {
        match self {
            Class::NegativeInfinity => 1,
            Class::NegativeNormal => 1 << 1,
            Class::NegativeSubnormal => 1 << 2,
            Class::NegativeZero => 1 << 3,
            Class::PositiveZero => 1 << 4,
            Class::PositiveSubnormal => 1 << 5,
            Class::PositiveNormal => 1 << 6,
            Class::PositiveInfinity => 1 << 7,
            Class::SignalingNan => 1 << 8,
            Class::QuietNan => 1 << 9,
        }
    }
}

/// One of two classes, by the sign.
fn by_sign(negative: bool, minus: Class, plus: Class) -> Class
    ensures { result ≡ (if negative then minus else plus) }
{
    if negative { minus } else { plus }
}

/// The class of an operand by its parts.
fn class_of(format: Format, x: Parts) -> Class
    ensures { result ≡ class_of format (magnitude_value format x.negative x.size) }
{
    let normal = 1 << format.fraction_bits();
    if is_nan(format, x) {
        if signals(format, x) {
            Class::SignalingNan
        } else {
            Class::QuietNan
        }
    } else if x.size == format.infinity() {
        by_sign(x.negative, Class::NegativeInfinity, Class::PositiveInfinity)
    } else if x.size == 0 {
        by_sign(x.negative, Class::NegativeZero, Class::PositiveZero)
    } else if x.size < normal {
        by_sign(
            x.negative,
            Class::NegativeSubnormal,
            Class::PositiveSubnormal,
        )
    } else {
        by_sign(x.negative, Class::NegativeNormal, Class::PositiveNormal)
    }
}

/// FCLASS: the class of an operand, by its bits.
pub fn classify(format: Format, a: u64) -> Class
    ensures { result ≡ class_of format (value_of format a) }
{
    class_of(format, parts_of(format, a))
}
