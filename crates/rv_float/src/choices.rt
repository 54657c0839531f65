//! The lesser and the greater of two operands.

ghost use Rattle.std.specs.Prelude.{◌≡◌, ◌≤◌};
ghost use Rattle.float_rounding.specs.Formats.{infinity, magnitude_value, value_of};
ghost use Rattle.rv_float.specs.Choices.{comes_first, takes_first, choice_flags, chosen_of, minimum, maximum};

use crate::nans::canonical_nan;
use crate::operands::{Parts, is_below, is_nan, parts_of, signals};
use float_rounding::{Flags, Format, Outcome};

/// Which of two operands is wanted.
#[derive(Clone, Copy)]
pub(crate) enum Extreme {
    Least,
    Greatest,
}

/// An operand: its bits, and its parts.
#[derive(Clone, Copy)]
struct Operand {
    bits: u64,
    parts: Parts,
}

/// Whether a number comes before another, minus zero before plus zero.
#[tactic(auto, using(crate::proofs::Ordered::negative_is))]
fn comes_first(format: Format, x: Parts, y: Parts) -> bool
    requires x_number { x.size ≤ infinity format }
    requires y_number { y.size ≤ infinity format }
    ensures { result ≡ comes_first (magnitude_value format x.negative x.size)
        (magnitude_value format y.negative y.size) }
{
    is_below(format, x, y) || (!is_below(format, y, x) && x.negative)
}

/// Whether the first of two numbers is the one that is wanted.
fn takes_first(format: Format, extreme: Extreme, x: Parts, y: Parts) -> bool
    requires x_number { x.size ≤ infinity format }
    requires y_number { y.size ≤ infinity format }
    ensures { result ≡ takes_first extreme (magnitude_value format x.negative x.size)
        (magnitude_value format y.negative y.size) }
{
    match extreme {
        Extreme::Least => comes_first(format, x, y),
        Extreme::Greatest => !comes_first(format, x, y),
    }
}

/// The flags of a choice between two operands.
fn choice_flags(format: Format, x: Parts, y: Parts) -> Flags
    ensures { result ≡ choice_flags (magnitude_value format x.negative x.size)
        (magnitude_value format y.negative y.size) }
{
    if signals(format, x) || signals(format, y) {
        Flags::invalid_operation()
    } else {
        Flags::nothing()
    }
}

/// The operand that is wanted.
fn chosen(format: Format, extreme: Extreme, x: Operand, y: Operand) -> Outcome
    ensures { result ≡ chosen_of format extreme
        (magnitude_value format x.parts.negative x.parts.size)
        (magnitude_value format y.parts.negative y.parts.size) x.bits y.bits }
{
    let flags = choice_flags(format, x.parts, y.parts);
    if is_nan(format, x.parts) {
        let bits = if is_nan(format, y.parts) {
            canonical_nan(format)
        } else {
            y.bits
        };
        return Outcome { bits, flags };
    }
    if is_nan(format, y.parts) {
        return Outcome {
            bits: x.bits,
            flags,
        };
    }
    let bits = if takes_first(format, extreme, x.parts, y.parts) {
        x.bits
    } else {
        y.bits
    };
    Outcome { bits, flags }
}

/// An operand by its bits.
fn operand_of(format: Format, bits: u64) -> Operand
    ensures { (result.bits ≡ bits) × (magnitude_value format result.parts.negative
        result.parts.size ≡ value_of format bits) }
{
    Operand {
        bits,
        parts: parts_of(format, bits),
    }
}

/// FMIN: the lesser of two numbers, by their bits.
#[tactic(auto, unfolding(crate::specs::Choices::minimum))]
pub fn minimum(format: Format, a: u64, b: u64) -> Outcome
    ensures { result ≡ minimum format a b }
{
    chosen(
        format,
        Extreme::Least,
        operand_of(format, a),
        operand_of(format, b),
    )
}

/// FMAX: the greater of two numbers, by their bits.
#[tactic(auto, unfolding(crate::specs::Choices::maximum))]
pub fn maximum(format: Format, a: u64, b: u64) -> Outcome
    ensures { result ≡ maximum format a b }
{
    chosen(
        format,
        Extreme::Greatest,
        operand_of(format, a),
        operand_of(format, b),
    )
}
