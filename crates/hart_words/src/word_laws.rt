//! What holds of sign extensions, products and quotients of words.

ghost use Rattle.std.specs.Prelude.{◌<◌, ◌^◌, ℕ};
ghost use Rattle.hart_words.specs.WordLaws.{DividesSigned, DividesUnsigned, DividesByZero, Overflows, HasHalves, ExtendsSigns};

/// Quotient times divisor plus remainder is the dividend, on signed numbers.
pub fn signed_division()
    ensures { DividesSigned }
{}

/// Quotient times divisor plus remainder is the dividend, on unsigned numbers.
pub fn unsigned_division()
    ensures { DividesUnsigned }
{}

/// What a divisor of 0 gives.
pub fn division_by_zero()
    ensures { (a : ℕ) → DividesByZero a }
{}

/// What the one quotient that does not fit gives.
pub fn division_overflow()
    ensures { Overflows }
{}

/// The two halves of a product.
pub fn product_halves()
    ensures { (a b : ℕ) → a < 2 ^ 64 → b < 2 ^ 64 → HasHalves a b }
{}

/// What the extension of a sign keeps, and what it repeats.
pub fn sign_extension()
    ensures { ExtendsSigns }
{}
