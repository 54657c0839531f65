//! Conversions between formats, and from and to integers.

ghost use Rattle.std.specs.Prelude.{◌≡◌, ◌+◌, ◌-◌, ◌*◌, ◌^◌, ◌<◌, ◌≤◌};
ghost use Rattle.rv_float.specs.Conversions.{converted_value, converted, from_integer, saturated, integer_of, to_integer, IsWholeOf};
ghost use Rattle.float_rounding.specs.Formats.{finite, unit_exponent};
ghost use Rattle.float_rounding.specs.Rounding.{rounded};
ghost use Rattle.rv_float.specs.Unpacked.{units_of, value_shown};

use crate::integers::IntegerKind;
use crate::nans::{infinite_result, nan_result};
use crate::unpacked::{Number, Unpacked};
use float_rounding::{
    Dyadic, Flags, Format, Outcome, RoundingMode, cut, goes_up, is_at_lower, round,
};

/// A number of one format in another.
#[tactic(auto, using(crate::proofs::Products::raised))]
fn convert_number(from: Format, to: Format, mode: RoundingMode, x: Number) -> Outcome
    ensures { result ≡ rounded to mode x.negative (units_of x * 2 ^ unit_exponent to)
        (2 ^ unit_exponent from) }
{
    round(
        to,
        mode,
        x.negative,
        Dyadic {
            significand: u128::from(x.m),
            raised: x.k + to.unit_exponent(),
            lowered: from.unit_exponent(),
        },
    )
}

/// A value of one format in another.
fn convert_value(from: Format, to: Format, mode: RoundingMode, x: Unpacked) -> Outcome
    ensures { result ≡ converted_value from to mode (value_shown x) }
{
    match x {
        Unpacked::Finite(a) => convert_number(from, to, mode, a),
        Unpacked::Infinite { negative } => infinite_result(to, negative),
        Unpacked::Quiet => nan_result(to, false),
        Unpacked::Signaling => nan_result(to, true),
    }
}

/// FCVT.S.D and FCVT.D.S: a value of one format in another, by its bits.
#[tactic(auto, unfolding(crate::specs::Conversions::converted))]
pub fn convert(from: Format, to: Format, mode: RoundingMode, a: u64) -> Outcome
    ensures { result ≡ converted from to mode a }
{
    convert_value(from, to, mode, Unpacked::new(from, a))
}

/// FCVT from an integer in the low bits of a register.
#[tactic(auto, unfolding(crate::specs::Conversions::from_integer))]
pub fn from_integer(format: Format, mode: RoundingMode, kind: IntegerKind, register: u64) -> Outcome
    ensures { result ≡ from_integer format mode kind register }
{
    round(
        format,
        mode,
        kind.is_negative(register),
        Dyadic {
            significand: kind.size(register),
            raised: format.unit_exponent(),
            lowered: 0,
        },
    )
}

/// A whole number, and whether rounding to it changed nothing.
#[derive(Clone, Copy)]
struct Whole {
    size: u128,
    exact: bool,
}

/// The whole number that `m * 2^k / 2^unit` is rounded to; where that is beyond 64 bits, another
/// one that is.
fn round_to_whole(mode: RoundingMode, negative: bool, m: u128, k: u32, unit: u32) -> Whole
    requires { m < 2 ^ 53 }
    ensures { IsWholeOf mode negative (m * 2 ^ k) (2 ^ unit) result.size result.exact }
{
    if k < unit {
        let (lower, place) = cut(m, unit - k);
        let up = goes_up(mode, negative, lower % 2 == 1, place);
        return Whole {
            size: lower + u128::from(up),
            exact: is_at_lower(place),
        };
    }
    if m == 0 {
        return Whole {
            size: 0,
            exact: true,
        };
    }
    if k - unit < 64 {
        return Whole {
            size: m << (k - unit),
            exact: true,
        };
    }
    Whole {
        size: 1 << 64,
        exact: true,
    }
}

/// What is out of range, as the limit of its sign.
fn saturated(kind: IntegerKind, negative: bool) -> Outcome
    ensures { result ≡ saturated kind negative }
{
    Outcome {
        bits: kind.bits(negative, kind.limit(negative)),
        flags: Flags::invalid_operation(),
    }
}

/// A number as an integer.
fn number_to_integer(format: Format, mode: RoundingMode, kind: IntegerKind, x: Number) -> Outcome
    ensures { result ≡ integer_of format mode kind (finite x.negative (units_of x)) }
{
    let unit = format.unit_exponent();
    let whole = round_to_whole(mode, x.negative, u128::from(x.m), x.k, unit);
    if whole.size <= kind.limit(x.negative) {
        Outcome {
            bits: kind.bits(x.negative, whole.size),
            flags: Flags::imprecision(!whole.exact, false),
        }
    } else {
        saturated(kind, x.negative)
    }
}

/// FCVT to an integer, by a number's bits. The result has 64 bits, with the sign extended.
#[tactic(auto, unfolding(crate::specs::Conversions::to_integer))]
pub fn to_integer(format: Format, mode: RoundingMode, kind: IntegerKind, a: u64) -> Outcome
    ensures { result ≡ to_integer format mode kind a }
{
    match Unpacked::new(format, a) {
        Unpacked::Finite(x) => number_to_integer(format, mode, kind, x),
        Unpacked::Infinite { negative } => saturated(kind, negative),
        Unpacked::Quiet | Unpacked::Signaling => saturated(kind, false),
    }
}
