//! Formats, rounding modes, flags and results.

ghost use Rattle.std.specs.Prelude.{◌≡◌, ◌^◌, ◌*◌};
ghost use Rattle.float_rounding.specs.Flags.{nothing, invalid_operation, division_by_zero, overflow, imprecision};
ghost use Rattle.float_rounding.specs.Formats.{fraction_bits, infinity_field, unit_exponent, infinity, sign_bit};

/// A binary interchange format.
#[derive(Clone, Copy, Debug, PartialEq, Eq)]
pub enum Format {
    Single,
    Double,
}

/// A rounding mode.
#[derive(Clone, Copy, Debug, PartialEq, Eq)]
pub enum RoundingMode {
    /// RNE: to the nearest, ties to even.
    NearestEven,
    /// RTZ: towards zero.
    TowardZero,
    /// RDN: down, towards negative infinity.
    Down,
    /// RUP: up, towards positive infinity.
    Up,
    /// RMM: to the nearest, ties to the greater magnitude.
    NearestMaxMagnitude,
}

/// The accrued exceptions.
#[derive(Clone, Copy, Debug, PartialEq, Eq)]
pub struct Flags {
    /// NV
    pub invalid: bool,
    /// DZ
    pub divides_by_zero: bool,
    /// OF
    pub overflows: bool,
    /// UF
    pub underflows: bool,
    /// NX
    pub inexact: bool,
}

/// A result: its bits, and the exceptions that it raises.
#[derive(Clone, Copy, Debug, PartialEq, Eq)]
pub struct Outcome {
    pub bits: u64,
    pub flags: Flags,
}

/// Where a number stands between two neighbours.
#[derive(Clone, Copy, Debug, PartialEq, Eq)]
pub enum Place {
    /// At the lower one.
    Exact,
    BelowHalf,
    Half,
    AboveHalf,
}

impl Flags {
    /// None.
    pub const fn nothing() -> Flags
        ensures { result ≡ nothing }
    {
        Flags {
            invalid: false,
            divides_by_zero: false,
            overflows: false,
            underflows: false,
            inexact: false,
        }
    }

    /// An operation that has no result.
    pub const fn invalid_operation() -> Flags
        ensures { result ≡ invalid_operation }
    {
        Flags {
            invalid: true,
            divides_by_zero: false,
            overflows: false,
            underflows: false,
            inexact: false,
        }
    }

    /// An infinity as an exact result of finite operands.
    pub const fn division_by_zero() -> Flags
        ensures { result ≡ division_by_zero }
    {
        Flags {
            invalid: false,
            divides_by_zero: true,
            overflows: false,
            underflows: false,
            inexact: false,
        }
    }

    /// A number beyond the greatest finite one.
    pub const fn overflow() -> Flags
        ensures { result ≡ overflow }
    {
        Flags {
            invalid: false,
            divides_by_zero: false,
            overflows: true,
            underflows: false,
            inexact: true,
        }
    }

    /// An underflow is a tiny result that is inexact.
    pub const fn imprecision(inexact: bool, tiny: bool) -> Flags
        ensures { result ≡ imprecision inexact tiny }
    {
        Flags {
            invalid: false,
            divides_by_zero: false,
            overflows: false,
            underflows: inexact && tiny,
            inexact,
        }
    }
}

impl Format {
    /// How many bits the fraction has.
    pub const fn fraction_bits(self) -> u32
        ensures { result ≡ fraction_bits self }
    {
        match self {
            Format::Single => 23,
            Format::Double => 52,
        }
    }

    /// The exponent field of infinities and NaNs.
    pub const fn infinity_field(self) -> u64
        ensures { result ≡ infinity_field self }
    {
        match self {
            Format::Single => 255,
            Format::Double => 2047,
        }
    }

    /// The least positive number is 2 to the power of minus this.
    pub const fn unit_exponent(self) -> u32
        ensures { result ≡ unit_exponent self }
    {
        match self {
            Format::Single => 149,
            Format::Double => 1074,
        }
    }

    /// What the sign bit is worth.
    pub const fn sign_bit(self) -> u64
        ensures { result ≡ sign_bit self }
    {
        match self {
            Format::Single => 1 << 31,
            Format::Double => 1 << 63,
        }
    }

    /// The bits of positive infinity.
    pub const fn infinity(self) -> u64
        ensures { result ≡ infinity self }
    {
        match self {
            Format::Single => 255 << 23,
            Format::Double => 2047 << 52,
        }
    }
}
