//! Sums, and the fused multiply-add.

ghost use Rattle.std.specs.Prelude.{◌≡◌, ℕ, ◌+◌, ◌*◌, ◌/◌, ◌%◌, ◌^◌, ◌<◌, ◌≤◌};
ghost use Rattle.float_rounding.specs.Formats.{unit_exponent};
ghost use Rattle.float_rounding.specs.Rounding.{rounded};
ghost use Rattle.float_rounding.specs.Sticky.{StandsFor};
ghost use Rattle.rv_float.specs.Significands.{with_sticky, IsHigh, IsNormalOf};
ghost use Rattle.rv_float.specs.Sums.{is_down, sum_of};

use crate::nans::unlike;
use float_rounding::{Dyadic, Format, Outcome, RoundingMode, round};

/// `kept`, odd where something was lost.
pub(crate) fn with_sticky(kept: u128, lost: bool) -> u128
    ensures { result ≡ with_sticky kept lost }
{
    if lost { kept / 2 * 2 + 1 } else { kept }
}

/// `m / 2^digits`, odd where digits were lost.
pub(crate) fn jam(m: u128, digits: u32) -> u128
    ensures { StandsFor result (2 ^ digits) m }
{
    if digits < 128 {
        with_sticky(m >> digits, m % (1 << digits) != 0)
    } else {
        with_sticky(0, m != 0)
    }
}

/// A number, with its highest digit in the 126th place: the power is 128 more.
pub(crate) fn normal(m: u128, e: u32) -> (u128, u32)
    requires some { 0 < m }
    requires few { m < 2 ^ 106 }
    requires e_bound { e < 2 ^ 14 }
    ensures { IsNormalOf m e result.0 result.1 }
{
    let shift = m.leading_zeros() - 2;
    (m << shift, e + 128 - shift)
}

/// Whether rounding is down.
fn is_down(mode: RoundingMode) -> bool
    ensures { result ≡ is_down mode }
{
    matches!(mode, RoundingMode::Down)
}

/// A number `m * 2^e`, negative or not.
#[derive(Clone, Copy)]
pub(crate) struct Term {
    pub negative: bool,
    pub m: u128,
    pub e: u32,
    ghost m_fits: { m < 2 ^ 106 },
    ghost e_fits: { e < 2 ^ 14 },
}

/// The same, with the highest digit in the 126th place.
#[derive(Clone, Copy)]
struct High {
    negative: bool,
    m: u128,
    e: u32,
    ghost high: { IsHigh m },
    ghost e_fits: { e < 2 ^ 15 },
}

/// The sum of two terms over `2^c` units, of which the first has the greater power.
fn aligned_sum(format: Format, mode: RoundingMode, x: High, y: High, c: u32) -> Outcome
    requires order { y.e ≤ x.e }
    requires c_bound { c < 2 ^ 15 }
    ensures { result ≡ sum_of format mode x.negative (x.m * 2 ^ x.e) y.negative (y.m * 2 ^ y.e)
        (2 ^ c) }
{
    let small = jam(y.m, x.e - y.e);
    if unlike(x.negative, y.negative) {
        if x.m < small {
            round(
                format,
                mode,
                y.negative,
                Dyadic {
                    significand: small - x.m,
                    raised: x.e,
                    lowered: c,
                },
            )
        } else if small < x.m {
            round(
                format,
                mode,
                x.negative,
                Dyadic {
                    significand: x.m - small,
                    raised: x.e,
                    lowered: c,
                },
            )
        } else {
            round(
                format,
                mode,
                is_down(mode),
                Dyadic {
                    significand: 0,
                    raised: x.e,
                    lowered: c,
                },
            )
        }
    } else {
        round(
            format,
            mode,
            x.negative,
            Dyadic {
                significand: x.m + small,
                raised: x.e,
                lowered: c,
            },
        )
    }
}

/// The sum of two terms that are not zero.
fn nonzero_sum(format: Format, mode: RoundingMode, x: Term, y: Term, c: u32) -> Outcome
    requires x_some { 0 < x.m }
    requires y_some { 0 < y.m }
    requires c_bound { c < 2 ^ 14 }
    ensures { result ≡ sum_of format mode x.negative (x.m * 2 ^ x.e) y.negative (y.m * 2 ^ y.e)
        (2 ^ c) }
{
    let (a, i) = normal(x.m, x.e);
    let (b, j) = normal(y.m, y.e);
    let first = High {
        negative: x.negative,
        m: a,
        e: i,
    };
    let second = High {
        negative: y.negative,
        m: b,
        e: j,
    };
    if i < j {
        aligned_sum(format, mode, second, first, c + 128)
    } else {
        aligned_sum(format, mode, first, second, c + 128)
    }
}

/// The sum of two terms over `2^c` units.
pub(crate) fn sum(format: Format, mode: RoundingMode, x: Term, y: Term, c: u32) -> Outcome
    requires { c < 2 ^ 14 }
    ensures { result ≡ sum_of format mode x.negative (x.m * 2 ^ x.e) y.negative (y.m * 2 ^ y.e)
        (2 ^ c) }
{
    if x.m == 0 {
        if y.m != 0 {
            round(
                format,
                mode,
                y.negative,
                Dyadic {
                    significand: y.m,
                    raised: y.e,
                    lowered: c,
                },
            )
        } else if unlike(x.negative, y.negative) {
            round(
                format,
                mode,
                is_down(mode),
                Dyadic {
                    significand: 0,
                    raised: 0,
                    lowered: c,
                },
            )
        } else {
            round(
                format,
                mode,
                y.negative,
                Dyadic {
                    significand: 0,
                    raised: 0,
                    lowered: c,
                },
            )
        }
    } else if y.m == 0 {
        round(
            format,
            mode,
            x.negative,
            Dyadic {
                significand: x.m,
                raised: x.e,
                lowered: c,
            },
        )
    } else {
        nonzero_sum(format, mode, x, y, c)
    }
}
