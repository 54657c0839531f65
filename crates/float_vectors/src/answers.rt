//! What a line asks for.

use crate::names::{format_named, integer_named, mode_named};
use float_rounding::{Flags, Format, Outcome, RoundingMode};

/// Operands, and how they are taken.
#[derive(Clone, Copy)]
struct Question {
    format: Format,
    mode: RoundingMode,
    a: u64,
    b: u64,
    c: u64,
}

/// The flags as the register fflags has them.
pub fn flag_bits(flags: Flags) -> u8 {
    let mut bits = 0;
    if flags.invalid {
        bits |= 16;
    }
    if flags.divides_by_zero {
        bits |= 8;
    }
    if flags.overflows {
        bits |= 4;
    }
    if flags.underflows {
        bits |= 2;
    }
    if flags.inexact {
        bits |= 1;
    }
    bits
}

/// Bits that raise nothing.
fn bits(bits: u64) -> Outcome {
    Outcome {
        bits,
        flags: Flags::nothing(),
    }
}

/// The operations that round.
fn rounded(name: &str, q: Question) -> Option<Outcome> {
    Some(match name {
        "fadd" => rv_float::add(q.format, q.mode, q.a, q.b),
        "fsub" => rv_float::subtract(q.format, q.mode, q.a, q.b),
        "fmul" => rv_float::multiply(q.format, q.mode, q.a, q.b),
        "fdiv" => rv_float::divide(q.format, q.mode, q.a, q.b),
        "fsqrt" => rv_float::square_root(q.format, q.mode, q.a),
        "fmadd" => rv_float::multiply_add(q.format, q.mode, q.a, q.b, q.c),
        "fmsub" => rv_float::multiply_subtract(q.format, q.mode, q.a, q.b, q.c),
        "fnmsub" => rv_float::negate_multiply_subtract(q.format, q.mode, q.a, q.b, q.c),
        "fnmadd" => rv_float::negate_multiply_add(q.format, q.mode, q.a, q.b, q.c),
        _ => return None,
    })
}

/// The operations that do not.
fn compared(name: &str, q: Question) -> Option<Outcome> {
    Some(match name {
        "fmin" => rv_float::minimum(q.format, q.a, q.b),
        "fmax" => rv_float::maximum(q.format, q.a, q.b),
        "feq" => rv_float::equal(q.format, q.a, q.b),
        "flt" => rv_float::less(q.format, q.a, q.b),
        "fle" => rv_float::at_most(q.format, q.a, q.b),
        "fclass" => bits(rv_float::classify(q.format, q.a).mask()),
        "fsgnj" => bits(rv_float::copy_sign(q.format, q.a, q.b)),
        "fsgnjn" => bits(rv_float::copy_opposite_sign(q.format, q.a, q.b)),
        "fsgnjx" => bits(rv_float::multiply_signs(q.format, q.a, q.b)),
        _ => return None,
    })
}

/// A conversion, by the suffixes of what it gives and of what it takes.
fn converted(to: &str, from: &str, mode: RoundingMode, a: u64) -> Option<Outcome> {
    match (format_named(to), format_named(from)) {
        (Some(to), Some(from)) => Some(rv_float::convert(from, to, mode, a)),
        (Some(to), None) => Some(rv_float::from_integer(to, mode, integer_named(from)?, a)),
        (None, Some(from)) => Some(rv_float::to_integer(from, mode, integer_named(to)?, a)),
        (None, None) => None,
    }
}

/// An operand: 0 where it is left out.
fn operand(text: Option<&str>) -> Option<u64> {
    match text {
        None | Some("") => Some(0),
        Some(digits) => u64::from_str_radix(digits, 16).ok(),
    }
}

/// What a line's operation gives.
pub fn answer(line: &str) -> Option<Outcome> {
    let mut fields = line.split(',');
    let operation = fields.next()?;
    let mode = mode_named(fields.next()?)?;
    let a = operand(fields.next())?;
    let b = operand(fields.next())?;
    let c = operand(fields.next())?;
    let mut words = operation.split('.');
    let name = words.next()?;
    let suffix = words.next()?;
    if name == "fcvt" {
        return converted(suffix, words.next()?, mode, a);
    }
    let question = Question {
        format: format_named(suffix)?,
        mode,
        a,
        b,
        c,
    };
    if let Some(outcome) = rounded(name, question) {
        return Some(outcome);
    }
    compared(name, question)
}
