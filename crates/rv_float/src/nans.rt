//! Results that are not rounded.

ghost use Rattle.std.specs.Prelude.{◌≡◌};
ghost use Rattle.rv_float.specs.Arithmetic.{canonical_nan, invalid, infinite_result, nan_result, signals, unlike};
ghost use Rattle.float_rounding.specs.Flags.{nothing, invalid_operation};
ghost use Rattle.rv_float.specs.Unpacked.{value_shown};

use crate::unpacked::Unpacked;
use float_rounding::{Flags, Format, Outcome, signed};

/// The canonical NaN.
pub(crate) fn canonical_nan(format: Format) -> u64
    ensures { result ≡ canonical_nan format }
{
    match format {
        Format::Single => 0x7fc0_0000,
        Format::Double => 0x7ff8_0000_0000_0000,
    }
}

/// An operation that has no result.
pub(crate) fn invalid(format: Format) -> Outcome
    ensures { result ≡ invalid format }
{
    Outcome {
        bits: canonical_nan(format),
        flags: Flags::invalid_operation(),
    }
}

/// An infinity.
pub(crate) fn infinite_result(format: Format, negative: bool) -> Outcome
    ensures { result ≡ infinite_result format negative }
{
    Outcome {
        bits: signed(format, negative, format.infinity()),
        flags: Flags::nothing(),
    }
}

/// What an operation on a NaN gives.
pub(crate) fn nan_result(format: Format, signals: bool) -> Outcome
    ensures { result ≡ nan_result format signals }
{
    if signals {
        invalid(format)
    } else {
        Outcome {
            bits: canonical_nan(format),
            flags: Flags::nothing(),
        }
    }
}

/// Whether it is a signaling NaN.
pub(crate) fn signals(x: Unpacked) -> bool
    ensures { result ≡ signals (value_shown x) }
{
    matches!(x, Unpacked::Signaling)
}

/// The sign of a product.
pub(crate) fn unlike(s: bool, t: bool) -> bool
    ensures { result ≡ unlike s t }
{
    if s { !t } else { t }
}
