//! Values that are guessed from the digits of a text; whoever guesses compares lines.

ghost use Rattle.std.specs.Prelude.{◌≡◌, take, drop};
ghost use Rattle.state_text.specs.Reading.{guess_of_bytes, guess_of_number};

/// The number of 16 hexadecimal digits from a place of the text on, or 0.
#[tactic(auto, unfolding(crate::specs::Reading::guess_of_number))]
pub fn guess_of_number(place: usize, text: &[u8]) -> u64
    ensures { result ≡ guess_of_number place text.now }
{
    u64::from_be_bytes(guess_of_eight_bytes(place, text))
}

/// The bytes of 16 hexadecimal digits from a place of the text on, or zeros.
#[tactic(auto, unfolding(crate::specs::Reading::guess_of_bytes))]
fn guess_of_eight_bytes(place: usize, text: &[u8]) -> [u8; 8]
    ensures { result ≡ guess_of_bytes place 8 text.now }
{
    let mut bytes = [0; 8];
    match hex::decode_to_slice(digits_at(place, 16, text), &mut bytes) {
        Ok(()) => bytes,
        Err(_) => [0; 8],
    }
}

/// The bytes of 32 hexadecimal digits from a place of the text on, or zeros.
#[tactic(auto, unfolding(crate::specs::Reading::guess_of_bytes))]
pub fn guess_of_sixteen_bytes(place: usize, text: &[u8]) -> [u8; 16]
    ensures { result ≡ guess_of_bytes place 16 text.now }
{
    let mut bytes = [0; 16];
    match hex::decode_to_slice(digits_at(place, 32, text), &mut bytes) {
        Ok(()) => bytes,
        Err(_) => [0; 16],
    }
}

/// So many bytes from a place of the text on, or as many as there are.
fn digits_at(place: usize, count: usize, text: &[u8]) -> &[u8]
    ensures { result.now ≡ take count (drop place text.now) }
{
    let (_, after) = text.split_at(place.min(text.len()));
    let (digits, _) = after.split_at(count.min(after.len()));
    digits
}
