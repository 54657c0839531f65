//! The names of formats, modes and kinds of integers.

use float_rounding::{Format, RoundingMode};
use rv_float::IntegerKind;

/// A format by its suffix.
pub fn format_named(name: &str) -> Option<Format> {
    match name {
        "s" => Some(Format::Single),
        "d" => Some(Format::Double),
        _ => None,
    }
}

/// A kind of integers by its suffix.
pub fn integer_named(name: &str) -> Option<IntegerKind> {
    match name {
        "w" => Some(IntegerKind::Word),
        "wu" => Some(IntegerKind::UnsignedWord),
        "l" => Some(IntegerKind::Long),
        "lu" => Some(IntegerKind::UnsignedLong),
        _ => None,
    }
}

/// A rounding mode by its name. An operation that does not round has any.
pub fn mode_named(name: &str) -> Option<RoundingMode> {
    match name {
        "RNE" | "-" => Some(RoundingMode::NearestEven),
        "RTZ" => Some(RoundingMode::TowardZero),
        "RDN" => Some(RoundingMode::Down),
        "RUP" => Some(RoundingMode::Up),
        "RMM" => Some(RoundingMode::NearestMaxMagnitude),
        _ => None,
    }
}
