//! Rounding of an exact number.

ghost use Rattle.std.specs.Prelude.{◌≡◌, ◌≢◌, ℕ, suc, ◌+◌, ◌*◌, ◌/◌, ◌%◌, ◌^◌, ◌<◌, ◌≤◌, not};
ghost use Rattle.float_rounding.specs.Formats.{fraction_bits, infinity};
ghost use Rattle.float_rounding.specs.Flags.{imprecision};
ghost use Rattle.float_rounding.specs.Cuts.{IsCut};
ghost use Rattle.float_rounding.specs.Rounding.{goes_up, is_at_lower, place_of, chosen_bits, magnitude, is_exact, is_tiny, beyond, signed, packed, rounded};

use crate::format::{Flags, Format, Outcome, Place, RoundingMode};

/// An exact magnitude: `significand * 2^raised / 2^lowered` units.
#[derive(Clone, Copy, Debug, PartialEq, Eq)]
pub struct Dyadic {
    pub significand: u128,
    pub raised: u32,
    pub lowered: u32,
    ghost raised_fits: { raised < 2 ^ 15 },
    ghost lowered_fits: { lowered < 2 ^ 15 },
}

/// Whether a magnitude is rounded to its upper neighbour.
pub fn goes_up(mode: RoundingMode, negative: bool, odd: bool, place: Place) -> bool
    ensures { result ≡ goes_up mode negative odd place }
{
    match place {
        Place::Exact => false,
        Place::BelowHalf => match mode {
            RoundingMode::Down => negative,
            RoundingMode::Up => !negative,
            _ => false,
        },
        Place::Half => match mode {
            RoundingMode::NearestEven => odd,
            RoundingMode::TowardZero => false,
            RoundingMode::Down => negative,
            RoundingMode::Up => !negative,
            RoundingMode::NearestMaxMagnitude => true,
        },
        Place::AboveHalf => match mode {
            RoundingMode::TowardZero => false,
            RoundingMode::Down => negative,
            RoundingMode::Up => !negative,
            _ => true,
        },
    }
}

/// Whether rounding changes nothing.
pub fn is_at_lower(place: Place) -> bool
    ensures { result ≡ is_at_lower place }
{
    match place {
        Place::Exact => true,
        Place::BelowHalf | Place::Half | Place::AboveHalf => false,
    }
}

/// Where `rest` stands in a gap, by half the gap.
fn place_in(rest: u128, half: u128) -> Place
    requires { half < 2 ^ 127 + 1 }
    ensures { result ≡ place_of rest (2 * half) }
{
    if rest == 0 {
        Place::Exact
    } else if rest < half {
        Place::BelowHalf
    } else if rest == half {
        Place::Half
    } else {
        Place::AboveHalf
    }
}

/// `m` without its low digits, and where these stand between 0 and the least digit that is kept.
pub fn cut(m: u128, digits: u32) -> (u128, Place)
    requires { 0 < digits }
    ensures { (result.0 ≡ m / 2 ^ digits) × (result.1 ≡ place_of (m % 2 ^ digits) (2 ^ digits)) }
{
    if digits < 128 {
        let rest = m % (1 << digits);
        (m >> digits, place_in(rest, 1 << (digits - 1)))
    } else if digits == 128 {
        (0, place_in(m, 1 << 127))
    } else if m == 0 {
        (0, Place::Exact)
    } else {
        (0, Place::BelowHalf)
    }
}

/// What rounding takes of a number: the digits that it keeps, how many binades these are up, and
/// where the digits that it drops stand.
#[derive(Clone, Copy)]
struct Portion {
    k: u32,
    lower: u128,
    place: Place,
}

/// What rounding to `p + 1` digits takes of `m * 2^e / 2^c` units.
fn take(p: u32, m: u128, e: u32, c: u32) -> Portion
    requires some { 0 < m }
    requires few { p ≤ 60 }
    requires e_bound { e < 2 ^ 16 }
    requires c_bound { c < 2 ^ 16 }
    ensures cut { IsCut p (m * 2 ^ e) (2 ^ c) result.k result.lower result.place }
    ensures small { result.lower < 2 ^ suc p }
    ensures scale { result.k < 2 ^ 20 }
{
    let length = 128 - m.leading_zeros();
    let k = (length + e).saturating_sub(c + p + 1);
    let dropped = c + k;
    if dropped <= e {
        return Portion {
            k,
            lower: m << (e - dropped),
            place: Place::Exact,
        };
    }
    let (lower, place) = cut(m, dropped - e);
    Portion { k, lower, place }
}

/// A rounded magnitude: its bits, with an exponent field as large as it has to be, and whether
/// rounding changed nothing.
#[derive(Clone, Copy)]
struct RoundedBits {
    bits: u128,
    exact: bool,
}

/// A magnitude, doubled so many times, rounded to `p + 1` digits.
fn magnitude(p: u32, mode: RoundingMode, negative: bool, x: Dyadic, doublings: u32) -> RoundedBits
    requires some { 0 < x.significand }
    requires few { p ≤ 60 }
    requires once { doublings ≤ 1 }
    ensures bits { result.bits ≡ magnitude p mode negative
        (x.significand * 2 ^ (x.raised + doublings)) (2 ^ x.lowered) }
    ensures exact { result.exact ≡ is_exact p (x.significand * 2 ^ (x.raised + doublings))
        (2 ^ x.lowered) }
{
    let taken = take(p, x.significand, x.raised + doublings, x.lowered);
    let up = goes_up(mode, negative, taken.lower % 2 == 1, taken.place);
    RoundedBits {
        bits: u128::from(taken.k) * (1 << p) + taken.lower + u128::from(up),
        exact: is_at_lower(taken.place),
    }
}

/// The bits for a magnitude beyond the greatest finite one.
fn beyond(format: Format, mode: RoundingMode, negative: bool) -> u64
    ensures { result ≡ beyond format mode negative }
{
    let to_infinity = match mode {
        RoundingMode::NearestEven | RoundingMode::NearestMaxMagnitude => true,
        RoundingMode::TowardZero => false,
        RoundingMode::Down => negative,
        RoundingMode::Up => !negative,
    };
    format.infinity() - u64::from(!to_infinity)
}

/// A magnitude's bits with a sign.
pub fn signed(format: Format, negative: bool, bits: u64) -> u64
    requires { bits ≤ infinity format }
    ensures { result ≡ signed format negative bits }
{
    if negative {
        format.sign_bit() + bits
    } else {
        bits
    }
}

/// A rounded magnitude as a result. A tiny one is below the normal numbers.
fn packed(format: Format, mode: RoundingMode, negative: bool, x: RoundedBits, tiny: bool) -> Outcome
    ensures { result ≡ packed format mode negative x.bits x.exact tiny }
{
    if x.bits >= u128::from(format.infinity()) {
        Outcome {
            bits: signed(format, negative, beyond(format, mode, negative)),
            flags: Flags::overflow(),
        }
    } else {
        Outcome {
            bits: signed(format, negative, x.bits as u64),
            flags: Flags::imprecision(!x.exact, tiny),
        }
    }
}

/// An exact magnitude with a sign, rounded.
pub fn round(format: Format, mode: RoundingMode, negative: bool, x: Dyadic) -> Outcome
    ensures { result ≡ rounded format mode negative (x.significand * 2 ^ x.raised) (2 ^ x.lowered) }
{
    if x.significand == 0 {
        let zero = RoundedBits {
            bits: 0,
            exact: true,
        };
        return packed(format, mode, negative, zero, true);
    }
    let p = format.fraction_bits();
    let here = magnitude(p, mode, negative, x, 0);
    let twice = magnitude(p, mode, negative, x, 1);
    packed(format, mode, negative, here, twice.bits < 2 << p)
}
