//! What a value is, by its bits.

ghost use Rattle.std.specs.Prelude.{◌≡◌, ◌^◌, ◌*◌, ◌<◌};

use crate::sums::Term;
use float_rounding::Format;

/// A finite number: `m * 2^k` units.
#[derive(Clone, Copy, Debug, PartialEq, Eq)]
pub struct Number {
    pub negative: bool,
    pub m: u64,
    pub k: u32,
    ghost m_fits: { m < 2 ^ 53 },
    ghost k_fits: { k < 2 ^ 11 },
}

/// What a value is.
#[derive(Clone, Copy, Debug, PartialEq, Eq)]
pub enum Unpacked {
    Finite(Number),
    Infinite { negative: bool },
    Quiet,
    Signaling,
}

impl Number {
    ghost use Rattle.std.specs.Prelude.{◌+◌};

    /// As a term of a sum, over so many more powers of two.
    pub(crate) fn term(self, more: u32) -> Term
        requires { more < 2 ^ 13 }
        ensures { (result.negative ≡ self.negative) × (result.m ≡ self.m)
            × (result.e ≡ self.k + more) }
    {
        Term {
            negative: self.negative,
            m: u128::from(self.m),
            e: self.k + more,
        }
    }
}

impl Unpacked {
    ghost use Rattle.float_rounding.specs.Formats.{magnitude_value, value_of};
    ghost use Rattle.rv_float.specs.Sums.{negated};
    ghost use Rattle.rv_float.specs.Unpacked.{value_shown};

    /// The same with the other sign.
    pub fn negated(self) -> Unpacked
        ensures { value_shown result ≡ negated (value_shown self) }
    {
        match self {
            Unpacked::Finite(number) => Unpacked::Finite(Number {
                negative: !number.negative,
                m: number.m,
                k: number.k,
            }),
            Unpacked::Infinite { negative } => Unpacked::Infinite {
                negative: !negative,
            },
            Unpacked::Quiet => Unpacked::Quiet,
            Unpacked::Signaling => Unpacked::Signaling,
        }
    }

    /// What a magnitude's bits are.
    fn of_magnitude(format: Format, negative: bool, bits: u64) -> Unpacked
        requires { bits < 2 ^ 63 }
        ensures { value_shown result ≡ magnitude_value format negative bits }
    {
        let hidden = 1 << format.fraction_bits();
        let infinity = format.infinity();
        if bits < infinity {
            if bits < hidden {
                Unpacked::Finite(Number {
                    negative,
                    m: bits,
                    k: 0,
                })
            } else {
                Unpacked::Finite(Number {
                    negative,
                    m: hidden + bits % hidden,
                    k: (bits / hidden - 1) as u32,
                })
            }
        } else if bits == infinity {
            Unpacked::Infinite { negative }
        } else if bits / (hidden / 2) % 2 == 1 {
            Unpacked::Quiet
        } else {
            Unpacked::Signaling
        }
    }

    /// What a value is, by its bits.
    pub fn new(format: Format, bits: u64) -> Unpacked
        ensures { value_shown result ≡ value_of format bits }
    {
        let sign = format.sign_bit();
        Self::of_magnitude(format, bits / sign % 2 == 1, bits % sign)
    }
}
