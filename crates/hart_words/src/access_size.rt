//! How many bytes a data access has.

ghost use Rattle.std.specs.Prelude.{◌≡◌, ◌*◌};
ghost use Rattle.hart_words.specs.AccessSizes.{IsLength, bytes_of, bits_of};

/// The size of a data access, by the Unprivileged ISA's names: a byte, a halfword of 2 bytes, a
/// word of 4, a doubleword of 8.
#[derive(Clone, Copy, Debug, PartialEq, Eq)]
pub enum AccessSize {
    Byte,
    Halfword,
    Word,
    Doubleword,
}

impl AccessSize {
    /// How many bytes: 1, 2, 4 or 8.
    pub fn bytes(self) -> u8
        ensures value { result ≡ bytes_of self }
        ensures length { IsLength result }
    {
        match self {
            AccessSize::Byte => 1,
            AccessSize::Halfword => 2,
            AccessSize::Word => 4,
            AccessSize::Doubleword => 8,
        }
    }

    /// How many bits: 8, 16, 32 or 64.
    pub fn bits(self) -> u32
        ensures { result ≡ bits_of self }
    {
        8 * u32::from(self.bytes())
    }
}
