//! What one token says.

ghost use Rattle.std.specs.Prelude.{◌≡◌, ◌≤◌, ◌<◌, ◌^◌, length, IfSome, Some, None, if◌then◌else◌};
ghost use Rattle.std.specs.Str.Parse.{digits_value};
ghost use Rattle.image_text.specs.Image.{are_digits, word_of_token};

use crate::fault::FaultKind;

/// A token's meaning.
#[derive(Clone, Copy, Debug, PartialEq, Eq)]
pub enum Word {
    Byte(u8),
    Address(u64),
}

/// The value of hexadecimal digits, of either case.
fn digits_of(digits: &[u8]) -> Option<u64>
    requires { length digits.now ≤ 16 }
    ensures small { IfSome result (λ value. value < 16 ^ length digits.now) }
    ensures value { result ≡
        (if are_digits digits.now then Some (digits_value 16 digits.now) else None) }
{
    let mut value = 0u64;
    for digit in digits {
        let place = char::from(*digit).to_digit(16)?;
        value = value * 16 + u64::from(place);
    }
    Some(value)
}

#[tactic(auto, unfolding(crate::specs::Image::word_of_token))]
pub fn read_word(token: &[u8]) -> Result<Word, FaultKind>
    ensures { result ≡ word_of_token token.now }
{
    match token {
        [] => Err(FaultKind::BadByte),
        [b'@', digits @ ..] => {
            if digits.is_empty() || digits.len() > 16 {
                return Err(FaultKind::BadAddress);
            }
            match digits_of(digits) {
                Some(address) => Ok(Word::Address(address)),
                None => Err(FaultKind::BadAddress),
            }
        }
        [b'/', b'*'] => Err(FaultKind::OpenComment),
        [_, _] => match digits_of(token) {
            Some(value) => Ok(Word::Byte(value as u8)),
            None => Err(FaultKind::BadByte),
        },
        [_, ..] => Err(FaultKind::BadByte),
    }
}
