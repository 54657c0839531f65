//! A text in a fixed buffer.

ghost use Rattle.std.specs.Prelude.{◌≡◌, ◌≤◌, ◌+◌, ◌++◌, [], List, ℕ, length, decimal};
ghost use Rattle.arrayvec.specs.ArrayVec.{array_vec_len};
ghost use Rattle.hex.specs.Hex.{encode_lower};
ghost use Rattle.std.specs.Int.{w64, to_be_bytes};
ghost use Rattle.trace_report.specs.Numerals.{hexadecimal};
ghost use Rattle.trace_report.specs.declared.text.TheConstants.{MOST_BYTES};

use arrayvec::ArrayVec;
use itoa::Buffer;
use std::marker::Model;

/// The most bytes of a text.
pub const MOST_BYTES: usize = 1024;

/// A text of at most 1,024 bytes, which takes no memory beyond itself.
#[derive(Drop)]
pub struct Text {
    bytes: ArrayVec<u8, MOST_BYTES>,
}

impl Model for Text {
    ghost Value = { List ℕ };

    ghost view = { λ text. text.bytes.items };

    ghost invariant = { λ text. length text.bytes.items ≤ MOST_BYTES };
}

impl Text {
    /// A text with no bytes.
    pub fn new() -> Self
        ensures { result ≡ [] }
    {
        Text {
            bytes: ArrayVec::new(),
        }
    }

    /// The bytes of the text, in order.
    pub fn as_slice(&self) -> &[u8]
        ensures bytes { result.now ≡ self.now }
        ensures short { length result.now ≤ MOST_BYTES }
    {
        self.bytes.as_slice()
    }

    /// Appends bytes.
    pub fn put(&mut self, piece: &[u8])
        requires { length self.old + length piece.now ≤ MOST_BYTES }
        ensures bytes { self.new ≡ self.old ++ piece.now }
        ensures len { length self.new ≡ length self.old + length piece.now }
    {
        let _ = self.bytes.try_extend_from_slice(piece);
    }

    /// Appends a number in decimal.
    pub fn put_decimal(&mut self, number: u64)
        requires { length self.old + 20 ≤ MOST_BYTES }
        ensures bytes { self.new ≡ self.old ++ decimal number }
        ensures len { length self.new ≤ length self.old + 20 }
    {
        let mut buffer = Buffer::new();
        self.put(buffer.format(number).as_bytes());
    }

    #[tactic(auto, unfolding(crate::specs::Numerals::hexadecimal))]
    /// Appends `0x` and the 16 hexadecimal digits of a number, in lower case.
    pub fn put_hexadecimal(&mut self, number: u64)
        requires { length self.old + 18 ≤ MOST_BYTES }
        ensures bytes { self.new ≡ self.old ++ hexadecimal number }
        ensures len { length self.new ≡ length self.old + 18 }
    {
        let digits = digits_of(number);
        self.put(b"0x");
        self.put(&digits);
    }
}

/// The 16 hexadecimal digits of a number.
fn digits_of(number: u64) -> [u8; 16]
    ensures { result ≡ encode_lower (to_be_bytes w64 number) }
{
    let mut digits = [0u8; 16];
    let _ = hex::encode_to_slice(number.to_be_bytes().as_slice(), &mut digits);
    digits
}
