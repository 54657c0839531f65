//! A text that grows.

ghost use Rattle.std.specs.Prelude.{◌≡◌, ◌≤◌, ◌*◌, ◌++◌, [], List, ℕ, OnOk, IfOk, length, decimal, codes, vec_len};
ghost use Rattle.hex.specs.Hex.{encode_lower};

use hart_words::NoMemory;
use itoa::Buffer;
use std::alloc::Global;
use std::marker::Model;

/// The bytes of a text so far.
#[derive(Drop)]
pub struct Text {
    bytes: Vec<u8>,
}

impl Model for Text {
    ghost Value = { List ℕ };

    ghost view = { λ text. text.bytes.items };
}

impl Text {
    /// A text with no bytes, and with room for so many.
    pub fn with_room(alloc: Global, room: usize) -> Result<Self, NoMemory>
        ensures { IfOk result (λ text. text ≡ []) }
    {
        let bytes = Vec::with_capacity(alloc, room)?;
        Ok(Text { bytes })
    }

    /// The bytes of the text, in order.
    pub fn into_bytes(self) -> Vec<u8>
        ensures { result.items ≡ self }
    {
        self.bytes
    }

    /// Appends bytes.
    pub fn put(&mut self, piece: &[u8]) -> Result<(), NoMemory>
        ensures { OnOk result (self.new ≡ self.old ++ piece.now) }
    {
        self.bytes.extend_from_slice(piece)?;
        Ok(())
    }

    /// Appends a number in decimal.
    pub fn put_decimal(&mut self, number: u64) -> Result<(), NoMemory>
        ensures { OnOk result (self.new ≡ self.old ++ decimal number) }
    {
        let mut buffer = Buffer::new();
        self.put(buffer.format(number).as_bytes())
    }

    /// Appends two hexadecimal digits, in lower case, of each of at most 8 bytes.
    pub fn put_digits(&mut self, bytes: &[u8]) -> Result<(), NoMemory>
        requires { length bytes.now ≤ 8 }
        ensures { OnOk result (self.new ≡ self.old ++ encode_lower bytes.now) }
    {
        let mut digits = [0u8; 16];
        let count = 2 * bytes.len();
        let _ = hex::encode_to_slice(bytes, &mut digits[..count]);
        self.put(&digits[..count])
    }
}
