//! Comparisons: the answer is 1 or 0.

ghost use Rattle.std.specs.Prelude.{◌≡◌};
ghost use Rattle.float_rounding.specs.Formats.{magnitude_value, value_of};
ghost use Rattle.rv_float.specs.Comparisons.{answer, unordered_answer, less_of, at_most_of, equal_of, less, at_most, equal};

use crate::operands::{Parts, is_below, is_nan, parts_of, signals};
use float_rounding::{Flags, Format, Outcome};

/// An answer, as a number.
fn answer(holds: bool) -> Outcome
    ensures { result ≡ answer holds }
{
    Outcome {
        bits: u64::from(holds),
        flags: Flags::nothing(),
    }
}

/// The answer where an operand is a NaN.
fn unordered_answer(signal: bool) -> Outcome
    ensures { result ≡ unordered_answer signal }
{
    Outcome {
        bits: 0,
        flags: if signal {
            Flags::invalid_operation()
        } else {
            Flags::nothing()
        },
    }
}

/// FLT of two operands by their parts.
fn less_parts(format: Format, x: Parts, y: Parts) -> Outcome
    ensures { result ≡ less_of (magnitude_value format x.negative x.size)
        (magnitude_value format y.negative y.size) }
{
    if is_nan(format, x) || is_nan(format, y) {
        unordered_answer(true)
    } else {
        answer(is_below(format, x, y))
    }
}

/// FLT: whether a number is below another, by their bits.
#[tactic(auto, unfolding(crate::specs::Comparisons::less))]
pub fn less(format: Format, a: u64, b: u64) -> Outcome
    ensures { result ≡ less format a b }
{
    less_parts(format, parts_of(format, a), parts_of(format, b))
}

/// FLE of two operands by their parts.
fn at_most_parts(format: Format, x: Parts, y: Parts) -> Outcome
    ensures { result ≡ at_most_of (magnitude_value format x.negative x.size)
        (magnitude_value format y.negative y.size) }
{
    if is_nan(format, x) || is_nan(format, y) {
        unordered_answer(true)
    } else {
        answer(!is_below(format, y, x))
    }
}

/// FLE: whether a number is at most another, by their bits.
#[tactic(auto, unfolding(crate::specs::Comparisons::at_most))]
pub fn at_most(format: Format, a: u64, b: u64) -> Outcome
    ensures { result ≡ at_most format a b }
{
    at_most_parts(format, parts_of(format, a), parts_of(format, b))
}

/// FEQ of two operands by their parts.
fn equal_parts(format: Format, x: Parts, y: Parts) -> Outcome
    ensures { result ≡ equal_of (magnitude_value format x.negative x.size)
        (magnitude_value format y.negative y.size) }
{
    if is_nan(format, x) || is_nan(format, y) {
        unordered_answer(signals(format, x) || signals(format, y))
    } else {
        answer(!is_below(format, x, y) && !is_below(format, y, x))
    }
}

/// FEQ: whether two numbers are equal, by their bits.
#[tactic(auto, unfolding(crate::specs::Comparisons::equal))]
pub fn equal(format: Format, a: u64, b: u64) -> Outcome
    ensures { result ≡ equal format a b }
{
    equal_parts(format, parts_of(format, a), parts_of(format, b))
}
