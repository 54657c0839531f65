//! Numbers as command lines and traces write them.

ghost use Rattle.std.specs.Prelude.{IfSome, length, ◌≡◌, ◌^◌, ◌≤◌, min, option_map, ℕ, ◌+◌, ◌*◌, ◌<◌, ◌∷◌, [], nat_lt, Some, None, if◌then◌else◌};
ghost use Rattle.std.specs.Char.{digit_value, is_digit};
ghost use Rattle.hart_words.specs.declared.numbers.TheConstants.{NO_NIBBLE};
ghost use Rattle.hart_words.specs.Numbers.{number_of, number_within, digits_number, nibble, result_within};

/// The value of each byte as a digit of base 36, and 36 where it is none.
const DIGITS: [u8; 256] = [
    36, 36, 36, 36, 36, 36, 36, 36, 36, 36, 36, 36, 36, 36, 36, 36, // 0x00
    36, 36, 36, 36, 36, 36, 36, 36, 36, 36, 36, 36, 36, 36, 36, 36, // 0x10
    36, 36, 36, 36, 36, 36, 36, 36, 36, 36, 36, 36, 36, 36, 36, 36, // 0x20
    0, 1, 2, 3, 4, 5, 6, 7, 8, 9, 36, 36, 36, 36, 36, 36, // 0x30
    36, 10, 11, 12, 13, 14, 15, 16, 17, 18, 19, 20, 21, 22, 23, 24, // 0x40
    25, 26, 27, 28, 29, 30, 31, 32, 33, 34, 35, 36, 36, 36, 36, 36, // 0x50
    36, 10, 11, 12, 13, 14, 15, 16, 17, 18, 19, 20, 21, 22, 23, 24, // 0x60
    25, 26, 27, 28, 29, 30, 31, 32, 33, 34, 35, 36, 36, 36, 36, 36, // 0x70
    36, 36, 36, 36, 36, 36, 36, 36, 36, 36, 36, 36, 36, 36, 36, 36, // 0x80
    36, 36, 36, 36, 36, 36, 36, 36, 36, 36, 36, 36, 36, 36, 36, 36, // 0x90
    36, 36, 36, 36, 36, 36, 36, 36, 36, 36, 36, 36, 36, 36, 36, 36, // 0xa0
    36, 36, 36, 36, 36, 36, 36, 36, 36, 36, 36, 36, 36, 36, 36, 36, // 0xb0
    36, 36, 36, 36, 36, 36, 36, 36, 36, 36, 36, 36, 36, 36, 36, 36, // 0xc0
    36, 36, 36, 36, 36, 36, 36, 36, 36, 36, 36, 36, 36, 36, 36, 36, // 0xd0
    36, 36, 36, 36, 36, 36, 36, 36, 36, 36, 36, 36, 36, 36, 36, 36, // 0xe0
    36, 36, 36, 36, 36, 36, 36, 36, 36, 36, 36, 36, 36, 36, 36, 36, // 0xf0
];

/// More than four hexadecimal digits can have as their value.
const NO_NIBBLE: u32 = 0x1_0000;

/// The value of each byte as a hexadecimal digit, and `NO_NIBBLE` where it is none.
const NIBBLES: [u32; 256] = [
    65536, 65536, 65536, 65536, 65536, 65536, 65536, 65536, 65536, 65536, 65536, 65536, 65536,
    65536, 65536, 65536, // 0x00
    65536, 65536, 65536, 65536, 65536, 65536, 65536, 65536, 65536, 65536, 65536, 65536, 65536,
    65536, 65536, 65536, // 0x10
    65536, 65536, 65536, 65536, 65536, 65536, 65536, 65536, 65536, 65536, 65536, 65536, 65536,
    65536, 65536, 65536, // 0x20
    0, 1, 2, 3, 4, 5, 6, 7, 8, 9, 65536, 65536, 65536, 65536, 65536, 65536, // 0x30
    65536, 10, 11, 12, 13, 14, 15, 65536, 65536, 65536, 65536, 65536, 65536, 65536, 65536, 65536, // 0x40
    65536, 65536, 65536, 65536, 65536, 65536, 65536, 65536, 65536, 65536, 65536, 65536, 65536,
    65536, 65536, 65536, // 0x50
    65536, 10, 11, 12, 13, 14, 15, 65536, 65536, 65536, 65536, 65536, 65536, 65536, 65536, 65536, // 0x60
    65536, 65536, 65536, 65536, 65536, 65536, 65536, 65536, 65536, 65536, 65536, 65536, 65536,
    65536, 65536, 65536, // 0x70
    65536, 65536, 65536, 65536, 65536, 65536, 65536, 65536, 65536, 65536, 65536, 65536, 65536,
    65536, 65536, 65536, // 0x80
    65536, 65536, 65536, 65536, 65536, 65536, 65536, 65536, 65536, 65536, 65536, 65536, 65536,
    65536, 65536, 65536, // 0x90
    65536, 65536, 65536, 65536, 65536, 65536, 65536, 65536, 65536, 65536, 65536, 65536, 65536,
    65536, 65536, 65536, // 0xa0
    65536, 65536, 65536, 65536, 65536, 65536, 65536, 65536, 65536, 65536, 65536, 65536, 65536,
    65536, 65536, 65536, // 0xb0
    65536, 65536, 65536, 65536, 65536, 65536, 65536, 65536, 65536, 65536, 65536, 65536, 65536,
    65536, 65536, 65536, // 0xc0
    65536, 65536, 65536, 65536, 65536, 65536, 65536, 65536, 65536, 65536, 65536, 65536, 65536,
    65536, 65536, 65536, // 0xd0
    65536, 65536, 65536, 65536, 65536, 65536, 65536, 65536, 65536, 65536, 65536, 65536, 65536,
    65536, 65536, 65536, // 0xe0
    65536, 65536, 65536, 65536, 65536, 65536, 65536, 65536, 65536, 65536, 65536, 65536, 65536,
    65536, 65536, 65536, // 0xf0
];

/// Why a text is no number of a given width.
#[derive(Clone, Copy, Debug, PartialEq, Eq)]
pub enum NumberFault {
    /// The text is neither decimal digits, nor `0x` or `0X` and hexadecimal digits.
    NotNumber,
    /// The value needs more bits than there are.
    TooWide,
}

/// The number that `text` writes: decimal digits, or `0x` or `0X` and hexadecimal digits, at least
/// one digit in either form, leading zeros allowed; its value is below 2^`width`.
#[tactic(auto, unfolding(crate::specs::Numbers::number_within))]
pub fn read_number(text: &[u8], width: u32) -> Result<u64, NumberFault>
    requires { width ≤ 64 }
    ensures { result ≡ number_within width text.now }
{
    match quick_number(text) {
        Some(value) => word_fitted_to(value, width),
        None => read_any_number(text, width),
    }
}

/// The number that a text of up to 18 bytes writes, as most traces write them; `None` says nothing
/// of a longer text.
#[inline(always)]
pub fn quick_number(text: &[u8]) -> Option<u64>
    ensures written { IfSome result (λ value. number_of text.now ≡ Some value) }
    ensures short { length text.now ≤ 18 → result ≡ number_of text.now }
{
    match text {
        [digit] => one_digit_number(*digit),
        _ => {
            if text.len() > 18 {
                None
            } else {
                short_number(text)
            }
        }
    }
}

/// The number that a text of one byte writes.
#[inline(always)]
#[tactic(auto, unfolding(crate::specs::Numbers::digits_number, crate::specs::Numbers::number_of))]
fn one_digit_number(byte: u8) -> Option<u64>
    ensures { result ≡ number_of (byte ∷ []) }
{
    let value = value_of_byte(byte);
    if value < 10 {
        Some(u64::from(value))
    } else {
        None
    }
}

/// The number that a text of up to 18 bytes writes.
#[inline(always)]
#[tactic(auto, unfolding(crate::specs::Numbers::number_of))]
fn short_number(text: &[u8]) -> Option<u64>
    requires { length text.now ≤ 18 }
    ensures { result ≡ number_of text.now }
{
    match text {
        [b'0', b'x' | b'X', digits @ ..] => short_hexadecimal(digits),
        _ => short_value_of(text, 10),
    }
}

/// The value of up to 16 hexadecimal digits, which are taken by fours, and the last of them by twos.
#[inline(always)]
fn short_hexadecimal(digits: &[u8]) -> Option<u64>
    requires { length digits.now ≤ 16 }
    ensures { result ≡ digits_number 16 digits.now }
{
    if digits.is_empty() {
        return None;
    }
    let mut value: u64 = 0;
    let mut fours = digits;
    while let [first, second, third, fourth, more @ ..] = fours {
        let four = four_digits(*first, *second, *third, *fourth);
        if four >= NO_NIBBLE {
            return None;
        }
        value = value * 65536 + u64::from(four);
        fours = more;
    }
    let mut rest = fours;
    while let [high, low, more @ ..] = rest {
        let (high, low) = (value_of_byte(*high), value_of_byte(*low));
        if high >= 16 || low >= 16 {
            return None;
        }
        value = value * 256 + u64::from(high * 16 + low);
        rest = more;
    }
    match rest {
        [last] => with_digit(value, value_of_byte(*last)),
        _ => Some(value),
    }
}

/// The value of four hexadecimal digits; where one of them is none, it is too large for that.
#[inline(always)]
fn four_digits(first: u8, second: u8, third: u8, fourth: u8) -> u32
    ensures { result ≡ ((nibble first * 16 + nibble second) * 16 + nibble third) * 16
        + nibble fourth }
{
    ((nibble_of(first) * 16 + nibble_of(second)) * 16 + nibble_of(third)) * 16 + nibble_of(fourth)
}

/// The value of a byte as a hexadecimal digit, and `NO_NIBBLE` where it is none.
#[inline(always)]
fn nibble_of(byte: u8) -> u32
    ensures value { result ≡ nibble byte }
    ensures small { result ≤ NO_NIBBLE }
{
    NIBBLES[usize::from(byte)]
}

/// A value with one more hexadecimal digit after it.
#[inline(always)]
fn with_digit(value: u64, digit: u8) -> Option<u64>
    requires { value < 2 ^ 60 }
    ensures { result ≡ if nat_lt digit 16 then Some (value * 16 + digit) else None }
{
    if digit < 16 {
        Some(value * 16 + u64::from(digit))
    } else {
        None
    }
}

/// The number that any text writes, in a width.
#[tactic(auto, unfolding(crate::specs::Numbers::number_of, crate::specs::Numbers::number_within))]
fn read_any_number(text: &[u8], width: u32) -> Result<u64, NumberFault>
    requires { width ≤ 64 }
    ensures { result ≡ number_within width text.now }
{
    match text {
        [b'0', b'x' | b'X', digits @ ..] => read_digits(digits, 16, 16, width),
        _ => read_digits(text, 10, 19, width),
    }
}

/// The number of digits in a radix, where it fits in `width` bits; `most` digits always fit in 64.
fn read_digits(digits: &[u8], radix: u32, most: usize, width: u32) -> Result<u64, NumberFault>
    requires at_least_2 { 2 ≤ radix }
    requires at_most_16 { radix ≤ 16 }
    requires short { radix ^ most ≤ 2 ^ 64 }
    requires within { width ≤ 64 }
    ensures { result ≡ result_within width (digits_number radix digits.now) }
{
    if digits.len() <= most {
        match short_value_of(digits, radix) {
            None => Err(NumberFault::NotNumber),
            Some(value) => word_fitted_to(value, width),
        }
    } else {
        match value_of(digits, radix) {
            None => Err(NumberFault::NotNumber),
            Some(value) => fitted_to(value, width),
        }
    }
}

/// A word in a width, where it fits.
#[tactic(auto, using(crate::proofs::Powers::none_left))]
fn word_fitted_to(value: u64, width: u32) -> Result<u64, NumberFault>
    requires { width ≤ 64 }
    ensures { result ≡ result_within width (Some value) }
{
    if width == 64 || value >> width == 0 {
        Ok(value)
    } else {
        Err(NumberFault::TooWide)
    }
}

/// A value in a width, where it fits.
fn fitted_to(value: u128, width: u32) -> Result<u64, NumberFault>
    requires { width ≤ 64 }
    ensures { (v : ℕ) → value ≡ min v (2 ^ 64) → result ≡ result_within width (Some v) }
{
    if value < 1u128 << width {
        Ok(value as u64)
    } else {
        Err(NumberFault::TooWide)
    }
}

/// The value of digits that are so few that it fits in 64 bits.
#[inline(always)]
#[tactic(auto, unfolding(crate::specs::Numbers::digits_number))]
fn short_value_of(digits: &[u8], radix: u32) -> Option<u64>
    requires at_least_1 { 1 ≤ radix }
    requires short { radix ^ length digits.now ≤ 2 ^ 64 }
    ensures { result ≡ digits_number radix digits.now }
{
    if digits.is_empty() {
        return None;
    }
    let mut value: u64 = 0;
    for digit in digits {
        match digit_of(*digit, radix) {
            None => return None,
            Some(digit) => value = value * u64::from(radix) + u64::from(digit),
        }
    }
    Some(value)
}

/// The value of digits in a radix, or 2^64 where it is larger.
#[tactic(auto, unfolding(crate::specs::Numbers::digits_number))]
fn value_of(digits: &[u8], radix: u32) -> Option<u128>
    requires at_least_2 { 2 ≤ radix }
    requires at_most_16 { radix ≤ 16 }
    ensures { result ≡ option_map (λ v. min v (2 ^ 64)) (digits_number radix digits.now) }
{
    if digits.is_empty() {
        return None;
    }
    let mut value: u128 = 0;
    for digit in digits {
        match digit_of(*digit, radix) {
            None => return None,
            Some(digit) => value = more(value, radix, digit),
        }
    }
    Some(value)
}

/// The value of one digit in a radix.
fn digit_of(byte: u8, radix: u32) -> Option<u32>
    ensures { result ≡ if is_digit byte radix then Some (digit_value byte) else None }
{
    let value = u32::from(value_of_byte(byte));
    if value < radix { Some(value) } else { None }
}

/// The value of a byte as a digit of base 36, and 36 where it is none.
fn value_of_byte(byte: u8) -> u8
    ensures { result ≡ digit_value byte }
{
    DIGITS[usize::from(byte)]
}

/// A value, kept up to 2^64, with one more digit after it.
fn more(value: u128, radix: u32, digit: u32) -> u128
    requires kept { value ≤ 2 ^ 64 }
    requires at_most_16 { radix ≤ 16 }
    requires small { digit < radix }
    ensures { result ≡ min (value * radix + digit) (2 ^ 64) }
{
    (value * u128::from(radix) + u128::from(digit)).min(1 << 64)
}
