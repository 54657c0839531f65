//! The operations.

ghost use Rattle.std.specs.Prelude.{◌≡◌, ◌*◌, ◌^◌};
ghost use Rattle.rv_float.specs.Arithmetic.{unlike, product_of, multiplied};
ghost use Rattle.float_rounding.specs.Formats.{unit_exponent};
ghost use Rattle.float_rounding.specs.Rounding.{rounded};
ghost use Rattle.rv_float.specs.Sums.{sum_of, total_of, added, subtracted};
ghost use Rattle.rv_float.specs.Unpacked.{units_of, value_shown};

use crate::nans::{infinite_result, invalid, nan_result, signals, unlike};
use crate::sums::sum;
use crate::unpacked::{Number, Unpacked};
use float_rounding::{Dyadic, Format, Outcome, RoundingMode, round};

/// The product of two finite numbers.
#[tactic(auto, using(crate::proofs::Products::product_is))]
fn finite_product(format: Format, mode: RoundingMode, x: Number, y: Number) -> Outcome
    ensures { result ≡ rounded format mode (unlike x.negative y.negative)
        (units_of x * units_of y) (2 ^ unit_exponent format) }
{
    round(
        format,
        mode,
        unlike(x.negative, y.negative),
        Dyadic {
            significand: u128::from(x.m) * u128::from(y.m),
            raised: x.k + y.k,
            lowered: format.unit_exponent(),
        },
    )
}

/// The product of two values.
fn product(format: Format, mode: RoundingMode, x: Unpacked, y: Unpacked) -> Outcome
    ensures { result ≡ product_of format mode (value_shown x) (value_shown y) }
{
    match x {
        Unpacked::Finite(a) => match y {
            Unpacked::Finite(b) => finite_product(format, mode, a, b),
            Unpacked::Infinite { negative } => {
                if a.m == 0 {
                    invalid(format)
                } else {
                    infinite_result(format, unlike(a.negative, negative))
                }
            }
            Unpacked::Quiet | Unpacked::Signaling => nan_result(format, signals(y)),
        },
        Unpacked::Infinite { negative } => match y {
            Unpacked::Finite(b) => {
                if b.m == 0 {
                    invalid(format)
                } else {
                    infinite_result(format, unlike(negative, b.negative))
                }
            }
            Unpacked::Infinite { negative: other } => {
                infinite_result(format, unlike(negative, other))
            }
            Unpacked::Quiet | Unpacked::Signaling => nan_result(format, signals(y)),
        },
        Unpacked::Quiet | Unpacked::Signaling => nan_result(format, signals(x) || signals(y)),
    }
}

/// FMUL: the product of two numbers, by their bits.
#[tactic(auto, unfolding(crate::specs::Arithmetic::multiplied))]
pub fn multiply(format: Format, mode: RoundingMode, a: u64, b: u64) -> Outcome
    ensures { result ≡ multiplied format mode a b }
{
    product(
        format,
        mode,
        Unpacked::new(format, a),
        Unpacked::new(format, b),
    )
}

/// The sum of two finite numbers.
fn finite_sum(format: Format, mode: RoundingMode, x: Number, y: Number) -> Outcome
    ensures { result ≡ sum_of format mode x.negative (units_of x) y.negative (units_of y) 1 }
{
    sum(format, mode, x.term(0), y.term(0), 0)
}

/// The sum of two values.
fn total(format: Format, mode: RoundingMode, x: Unpacked, y: Unpacked) -> Outcome
    ensures { result ≡ total_of format mode (value_shown x) (value_shown y) }
{
    match x {
        Unpacked::Finite(a) => match y {
            Unpacked::Finite(b) => finite_sum(format, mode, a, b),
            Unpacked::Infinite { negative } => infinite_result(format, negative),
            Unpacked::Quiet | Unpacked::Signaling => nan_result(format, signals(y)),
        },
        Unpacked::Infinite { negative } => match y {
            Unpacked::Finite(_) => infinite_result(format, negative),
            Unpacked::Infinite { negative: other } => {
                if unlike(negative, other) {
                    invalid(format)
                } else {
                    infinite_result(format, negative)
                }
            }
            Unpacked::Quiet | Unpacked::Signaling => nan_result(format, signals(y)),
        },
        Unpacked::Quiet | Unpacked::Signaling => nan_result(format, signals(x) || signals(y)),
    }
}

/// FADD: the sum of two numbers, by their bits.
#[tactic(auto, unfolding(crate::specs::Sums::added))]
pub fn add(format: Format, mode: RoundingMode, a: u64, b: u64) -> Outcome
    ensures { result ≡ added format mode a b }
{
    total(
        format,
        mode,
        Unpacked::new(format, a),
        Unpacked::new(format, b),
    )
}

/// FSUB: the difference of two numbers, by their bits.
#[tactic(auto, unfolding(crate::specs::Sums::subtracted))]
pub fn subtract(format: Format, mode: RoundingMode, a: u64, b: u64) -> Outcome
    ensures { result ≡ subtracted format mode a b }
{
    total(
        format,
        mode,
        Unpacked::new(format, a),
        Unpacked::new(format, b).negated(),
    )
}
