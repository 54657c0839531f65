//! The fused multiply-adds: a product and an addend, rounded once.

ghost use Rattle.std.specs.Prelude.{◌≡◌, ◌+◌, ◌*◌, ◌^◌};
ghost use Rattle.rv_float.specs.Arithmetic.{unlike};
ghost use Rattle.float_rounding.specs.Formats.{unit_exponent, value_of};
ghost use Rattle.rv_float.specs.Multiples.{product_shown};
ghost use Rattle.rv_float.specs.Sums.{sum_of, exactly, exact_product, fused_of, fused, negated};
ghost use Rattle.rv_float.specs.Unpacked.{units_of, value_shown};

use crate::nans::{infinite_result, invalid, nan_result, signals, unlike};
use crate::sums::{Term, sum};
use crate::unpacked::{Number, Unpacked};
use float_rounding::{Format, Outcome, RoundingMode};

/// An exact product.
#[derive(Clone, Copy)]
enum Multiple {
    Exactly(Term),
    Endless { negative: bool },
    Undefined,
    Unordered,
}

/// The exact product of two finite numbers.
#[tactic(auto, using(crate::proofs::Products::product_is))]
fn finite_multiple(x: Number, y: Number) -> Term
    ensures { (result.negative ≡ unlike x.negative y.negative)
        × (result.m * 2 ^ result.e ≡ units_of x * units_of y) }
{
    Term {
        negative: unlike(x.negative, y.negative),
        m: u128::from(x.m) * u128::from(y.m),
        e: x.k + y.k,
    }
}

/// The exact product of two values.
fn exact_product(x: Unpacked, y: Unpacked) -> Multiple
    ensures { product_shown result ≡ exact_product (value_shown x) (value_shown y) }
{
    match x {
        Unpacked::Finite(a) => match y {
            Unpacked::Finite(b) => Multiple::Exactly(finite_multiple(a, b)),
            Unpacked::Infinite { negative } => {
                if a.m == 0 {
                    Multiple::Undefined
                } else {
                    Multiple::Endless {
                        negative: unlike(a.negative, negative),
                    }
                }
            }
            Unpacked::Quiet | Unpacked::Signaling => Multiple::Unordered,
        },
        Unpacked::Infinite { negative } => match y {
            Unpacked::Finite(b) => {
                if b.m == 0 {
                    Multiple::Undefined
                } else {
                    Multiple::Endless {
                        negative: unlike(negative, b.negative),
                    }
                }
            }
            Unpacked::Infinite { negative: other } => Multiple::Endless {
                negative: unlike(negative, other),
            },
            Unpacked::Quiet | Unpacked::Signaling => Multiple::Unordered,
        },
        Unpacked::Quiet | Unpacked::Signaling => Multiple::Unordered,
    }
}

/// An exact product and a finite addend.
#[tactic(auto, using(crate::proofs::Products::raised))]
fn finite_fused(format: Format, mode: RoundingMode, x: Term, y: Number) -> Outcome
    ensures { result ≡ sum_of format mode x.negative (x.m * 2 ^ x.e) y.negative
        (units_of y * 2 ^ unit_exponent format) (2 ^ unit_exponent format) }
{
    let unit = format.unit_exponent();
    sum(format, mode, x, y.term(unit), unit)
}

/// A product and an addend, rounded once.
fn multiple_and(
    format: Format,
    mode: RoundingMode,
    signal: bool,
    x: Multiple,
    y: Unpacked,
) -> Outcome
    ensures { result ≡ fused_of format mode signal (product_shown x) (value_shown y) }
{
    match x {
        Multiple::Exactly(a) => match y {
            Unpacked::Finite(b) => finite_fused(format, mode, a, b),
            Unpacked::Infinite { negative } => infinite_result(format, negative),
            Unpacked::Quiet | Unpacked::Signaling => nan_result(format, signal),
        },
        Multiple::Endless { negative } => match y {
            Unpacked::Finite(_) => infinite_result(format, negative),
            Unpacked::Infinite { negative: other } => {
                if unlike(negative, other) {
                    invalid(format)
                } else {
                    infinite_result(format, negative)
                }
            }
            Unpacked::Quiet | Unpacked::Signaling => nan_result(format, signal),
        },
        Multiple::Undefined => invalid(format),
        Multiple::Unordered => nan_result(format, signal),
    }
}

/// `x * y + z`, rounded once.
#[tactic(auto, unfolding(crate::specs::Sums::fused))]
fn multiplied_and(
    format: Format,
    mode: RoundingMode,
    x: Unpacked,
    y: Unpacked,
    z: Unpacked,
) -> Outcome
    ensures { result ≡ fused format mode (value_shown x) (value_shown y) (value_shown z) }
{
    let signal = signals(x) || signals(y) || signals(z);
    multiple_and(format, mode, signal, exact_product(x, y), z)
}

/// FMADD: `a * b + c`, by their bits, rounded once.
pub fn multiply_add(format: Format, mode: RoundingMode, a: u64, b: u64, c: u64) -> Outcome
    ensures { result ≡ fused format mode (value_of format a) (value_of format b)
        (value_of format c) }
{
    let x = Unpacked::new(format, a);
    let y = Unpacked::new(format, b);
    let z = Unpacked::new(format, c);
    multiplied_and(format, mode, x, y, z)
}

/// FMSUB: `a * b - c`, by their bits, rounded once.
pub fn multiply_subtract(format: Format, mode: RoundingMode, a: u64, b: u64, c: u64) -> Outcome
    ensures { result ≡ fused format mode (value_of format a) (value_of format b)
        (negated (value_of format c)) }
{
    let x = Unpacked::new(format, a);
    let y = Unpacked::new(format, b);
    let z = Unpacked::new(format, c).negated();
    multiplied_and(format, mode, x, y, z)
}

/// FNMSUB: `-(a * b) + c`, by their bits, rounded once.
pub fn negate_multiply_subtract(
    format: Format,
    mode: RoundingMode,
    a: u64,
    b: u64,
    c: u64,
) -> Outcome
    ensures { result ≡ fused format mode (negated (value_of format a)) (value_of format b)
        (value_of format c) }
{
    let x = Unpacked::new(format, a).negated();
    let y = Unpacked::new(format, b);
    let z = Unpacked::new(format, c);
    multiplied_and(format, mode, x, y, z)
}

/// FNMADD: `-(a * b) - c`, by their bits, rounded once.
pub fn negate_multiply_add(format: Format, mode: RoundingMode, a: u64, b: u64, c: u64) -> Outcome
    ensures { result ≡ fused format mode (negated (value_of format a)) (value_of format b)
        (negated (value_of format c)) }
{
    let x = Unpacked::new(format, a).negated();
    let y = Unpacked::new(format, b);
    let z = Unpacked::new(format, c).negated();
    multiplied_and(format, mode, x, y, z)
}
