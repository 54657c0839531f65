//! Quotients and square roots.

ghost use Rattle.std.specs.Prelude.{◌≡◌, false, ℕ, ◌+◌, ◌*◌, ◌^◌, ◌<◌};
ghost use Rattle.std.specs.Float.Ieee.{root_twice};
ghost use Rattle.rv_float.specs.Arithmetic.{unlike};
ghost use Rattle.float_rounding.specs.Formats.{finite, unit_exponent};
ghost use Rattle.rv_float.specs.Quotients.{zero_result, over_zero, quotient_of, divided, root_of, rooted};
ghost use Rattle.float_rounding.specs.Rounding.{rounded};
ghost use Rattle.rv_float.specs.Significands.{IsWordOf};
ghost use Rattle.rv_float.specs.Unpacked.{units_of, value_shown};

use crate::nans::{infinite_result, invalid, nan_result, signals, unlike};
use crate::sums::with_sticky;
use crate::unpacked::{Number, Unpacked};
use float_rounding::{Dyadic, Flags, Format, Outcome, RoundingMode, round, signed};

/// A number, with its highest digit in the 64th place: the power is 64 more.
fn word(m: u64, k: u32) -> (u64, u32)
    requires some { 0 < m }
    requires bound { k < 2 ^ 12 }
    ensures { IsWordOf m k result.0 result.1 }
{
    let shift = m.leading_zeros();
    (m << shift, k + 64 - shift)
}

/// The quotient of two finite numbers that are not zero.
fn nonzero_quotient(
    format: Format,
    mode: RoundingMode,
    negative: bool,
    x: Number,
    y: Number,
) -> Outcome
    requires x_some { 0 < x.m }
    requires y_some { 0 < y.m }
    ensures { result ≡ rounded format mode negative (units_of x * 2 ^ unit_exponent format)
        (units_of y) }
{
    let (a, i) = word(x.m, x.k);
    let (b, j) = word(y.m, y.k);
    let n = u128::from(a) << 64;
    let d = u128::from(b);
    let q = with_sticky(n / d, n % d != 0);
    round(
        format,
        mode,
        negative,
        Dyadic {
            significand: q,
            raised: i + format.unit_exponent(),
            lowered: j + 64,
        },
    )
}

/// The quotient of two finite numbers.
fn finite_quotient(
    format: Format,
    mode: RoundingMode,
    negative: bool,
    x: Number,
    y: Number,
) -> Outcome
    requires { 0 < y.m }
    ensures { result ≡ rounded format mode negative (units_of x * 2 ^ unit_exponent format)
        (units_of y) }
{
    if x.m == 0 {
        round(
            format,
            mode,
            negative,
            Dyadic {
                significand: 0,
                raised: 0,
                lowered: 0,
            },
        )
    } else {
        nonzero_quotient(format, mode, negative, x, y)
    }
}

/// Zero.
fn zero_result(format: Format, negative: bool) -> Outcome
    ensures { result ≡ zero_result format negative }
{
    Outcome {
        bits: signed(format, negative, 0),
        flags: Flags::nothing(),
    }
}

/// A finite number over zero.
fn over_zero(format: Format, negative: bool) -> Outcome
    ensures { result ≡ over_zero format negative }
{
    Outcome {
        bits: signed(format, negative, format.infinity()),
        flags: Flags::division_by_zero(),
    }
}

/// The quotient of two values.
fn quotient(format: Format, mode: RoundingMode, x: Unpacked, y: Unpacked) -> Outcome
    ensures { result ≡ quotient_of format mode (value_shown x) (value_shown y) }
{
    match x {
        Unpacked::Finite(a) => match y {
            Unpacked::Finite(b) => {
                let negative = unlike(a.negative, b.negative);
                if b.m != 0 {
                    finite_quotient(format, mode, negative, a, b)
                } else if a.m == 0 {
                    invalid(format)
                } else {
                    over_zero(format, negative)
                }
            }
            Unpacked::Infinite { negative } => zero_result(format, unlike(a.negative, negative)),
            Unpacked::Quiet | Unpacked::Signaling => nan_result(format, signals(y)),
        },
        Unpacked::Infinite { negative } => match y {
            Unpacked::Finite(b) => infinite_result(format, unlike(negative, b.negative)),
            Unpacked::Infinite { .. } => invalid(format),
            Unpacked::Quiet | Unpacked::Signaling => nan_result(format, signals(y)),
        },
        Unpacked::Quiet | Unpacked::Signaling => nan_result(format, signals(x) || signals(y)),
    }
}

/// FDIV: the quotient of two numbers, by their bits.
#[tactic(auto, unfolding(crate::specs::Quotients::divided))]
pub fn divide(format: Format, mode: RoundingMode, a: u64, b: u64) -> Outcome
    ensures { result ≡ divided format mode a b }
{
    quotient(
        format,
        mode,
        Unpacked::new(format, a),
        Unpacked::new(format, b),
    )
}

/// The root of a finite number that is not zero.
fn finite_root(format: Format, mode: RoundingMode, x: Number) -> Outcome
    requires { 0 < x.m }
    ensures { result ≡ rounded format mode false
        (root_twice (units_of x * 2 ^ unit_exponent format)) 2 }
{
    let e = x.k + format.unit_exponent();
    let m = u128::from(x.m);
    let room = m.leading_zeros();
    let shift = room - (room + e) % 2;
    let n = m << shift;
    let r = n.isqrt();
    let q = 2 * r + u128::from(r * r != n);
    round(
        format,
        mode,
        false,
        Dyadic {
            significand: q,
            raised: (e - shift) / 2,
            lowered: 1,
        },
    )
}

/// The root of a number.
fn number_root(format: Format, mode: RoundingMode, x: Number) -> Outcome
    ensures { result ≡ root_of format mode (finite x.negative (units_of x)) }
{
    if x.m == 0 {
        zero_result(format, x.negative)
    } else if x.negative {
        invalid(format)
    } else {
        finite_root(format, mode, x)
    }
}

/// The root of a value.
fn root(format: Format, mode: RoundingMode, x: Unpacked) -> Outcome
    ensures { result ≡ root_of format mode (value_shown x) }
{
    match x {
        Unpacked::Finite(a) => number_root(format, mode, a),
        Unpacked::Infinite { negative } => {
            if negative {
                invalid(format)
            } else {
                infinite_result(format, false)
            }
        }
        Unpacked::Quiet => nan_result(format, false),
        Unpacked::Signaling => nan_result(format, true),
    }
}

/// FSQRT: the square root of a number, by its bits.
#[tactic(auto, unfolding(crate::specs::Quotients::rooted))]
pub fn square_root(format: Format, mode: RoundingMode, a: u64) -> Outcome
    ensures { result ≡ rooted format mode a }
{
    root(format, mode, Unpacked::new(format, a))
}
