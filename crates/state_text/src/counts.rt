//! How many harts a text says.

ghost use Rattle.std.specs.Prelude.{◌≡◌, ◌≤◌, ◌==◌, option_map, position};
ghost use Rattle.std.specs.Char.{is_ascii_digit};
ghost use Rattle.std.specs.List.{after_first, before_first, list_all};
ghost use Rattle.state_text.specs.Counts.{second_line, is_numeral, numeral_in, says_harts};

use crate::line::numeral_of;

/// Whether a text says this number of harts: by its second line, or else it says 1.
pub fn says_harts(text: &[u8], harts: u32) -> bool
    requires { harts ≤ 8 }
    ensures { result ≡ says_harts harts text.now }
{
    match numeral_in(second_line(text)) {
        Some(numeral) => numeral == numeral_of(harts).as_slice(),
        None => harts == 1,
    }
}

/// The second line of a text, without the line feed that may end it.
#[tactic(auto, unfolding(crate::specs::Counts::second_line))]
fn second_line(text: &[u8]) -> &[u8]
    ensures { result.now ≡ second_line text.now }
{
    before_feed(after_feed(text))
}

/// What stands before the first line feed, or all.
fn before_feed(text: &[u8]) -> &[u8]
    ensures { result.now ≡ before_first (λ byte. byte == 10) text.now }
{
    match feed_in(text) {
        Some(place) => {
            let (line, _) = text.split_at(place);
            line
        }
        None => text,
    }
}

/// What stands after the first line feed, or nothing.
fn after_feed(text: &[u8]) -> &[u8]
    ensures { result.now ≡ after_first (λ byte. byte == 10) text.now }
{
    match feed_in(text) {
        Some(place) => {
            let (_, after) = text.split_at(place + 1);
            after
        }
        None => &[],
    }
}

/// Where the first line feed is.
fn feed_in(text: &[u8]) -> Option<usize>
    ensures { result ≡ position (λ byte. byte == 10) text.now }
{
    text.iter().position(|byte| *byte == b'\n')
}

/// The numeral of a line that says a number of harts.
#[tactic(auto, unfolding(crate::specs::Counts::numeral_in))]
fn numeral_in(line: &[u8]) -> Option<&[u8]>
    ensures { option_map (λ numeral. numeral.now) result ≡ numeral_in line.now }
{
    if line.starts_with(b"harts ") {
        let (_, numeral) = line.split_at(6);
        if is_numeral(numeral) {
            return Some(numeral);
        }
    }
    None
}

/// Whether bytes are decimal digits without a leading zero.
fn is_numeral(digits: &[u8]) -> bool
    ensures { result ≡ is_numeral digits.now }
{
    match digits.split_first() {
        None => false,
        Some((first, others)) => are_digits(digits) && (*first != b'0' || others.is_empty()),
    }
}

/// Whether all bytes are decimal digits.
fn are_digits(bytes: &[u8]) -> bool
    ensures { result ≡ list_all is_ascii_digit bytes.now }
{
    bytes.iter().all(|byte| byte.is_ascii_digit())
}
