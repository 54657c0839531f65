//! An operand by its bits: its sign, and its magnitude's bits, which order numbers as their values
//! do.

ghost use Rattle.std.specs.Prelude.{◌≡◌, nat_lt, ◌/◌, ◌%◌, ◌==◌, ◌≤◌, ◌<◌, ◌^◌};
ghost use Rattle.float_rounding.specs.Formats.{infinity, magnitude_value, value_of};
ghost use Rattle.rv_float.specs.Arithmetic.{signals};
ghost use Rattle.rv_float.specs.Comparisons.{bits_below, is_below, is_nan};

use float_rounding::Format;

/// The sign, and the other bits.
#[derive(Clone, Copy)]
pub(crate) struct Parts {
    pub negative: bool,
    pub size: u64,
}

/// The parts of an operand's bits.
#[tactic(auto, unfolding(float_rounding::specs::Formats::value_of))]
pub(crate) fn parts_of(format: Format, bits: u64) -> Parts
    ensures { magnitude_value format result.negative result.size ≡ value_of format bits }
{
    let sign = format.sign_bit();
    Parts {
        negative: bits / sign % 2 == 1,
        size: bits % sign,
    }
}

/// Whether a number is below another, by their signs and the other bits.
fn bits_below(s: bool, x: u64, t: bool, y: u64) -> bool
    ensures { result ≡ bits_below s x t y }
{
    if s {
        if t { y < x } else { 0 < x || 0 < y }
    } else if t {
        false
    } else {
        x < y
    }
}

/// Whether a number is below another.
#[tactic(auto, using(crate::proofs::Ordered::ordered))]
pub(crate) fn is_below(format: Format, x: Parts, y: Parts) -> bool
    requires x_number { x.size ≤ infinity format }
    requires y_number { y.size ≤ infinity format }
    ensures { result ≡ is_below (magnitude_value format x.negative x.size)
        (magnitude_value format y.negative y.size) }
{
    bits_below(x.negative, x.size, y.negative, y.size)
}

/// Whether an operand is a NaN.
#[tactic(auto, using(crate::proofs::Ordered::nan_is))]
pub(crate) fn is_nan(format: Format, x: Parts) -> bool
    ensures value { result ≡ is_nan (magnitude_value format x.negative x.size) }
    ensures bits { result ≡ nat_lt (infinity format) x.size }
{
    format.infinity() < x.size
}

/// Whether an operand is a signaling NaN.
#[tactic(auto, using(crate::proofs::Ordered::signals_is))]
pub(crate) fn signals(format: Format, x: Parts) -> bool
    ensures { result ≡ signals (magnitude_value format x.negative x.size) }
{
    let quiet = match format {
        Format::Single => 1 << 22,
        Format::Double => 1 << 51,
    };
    format.infinity() < x.size && x.size / quiet % 2 != 1
}
