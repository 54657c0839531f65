//! Noted bytes of one block: those of which a read changes nothing.

ghost use Rattle.std.specs.Prelude.{◌≡◌, ◌/◌, ◌%◌, ℕ, true};
ghost use Rattle.hart_words.specs.Memory.{is_within};
ghost use Rattle.read_footprint.specs.Bits.{has_bit};

use crate::block::BLOCK_SIZE;

/// Bytes of a block that were read or written before, with a bit for each. To read one of them
/// again changes no set.
#[derive(Clone, Copy, Debug)]
pub struct NotedBytes {
    /// The number of the block.
    pub number: u64,
    pub bytes: u64,
}

impl NotedBytes {
    /// No byte.
    pub fn empty() -> NotedBytes
        ensures { result ≡ record { number = 0; bytes = 0 } }
    {
        NotedBytes {
            number: 0,
            bytes: 0,
        }
    }

    /// Whether so many bytes from an address on are all among them.
    pub fn has_all(self, pa: u64, len: u8) -> bool
        ensures { result ≡ true → (address : ℕ) → is_within pa len address ≡ true
            → (address / BLOCK_SIZE ≡ self.number)
            × (has_bit self.bytes (address % BLOCK_SIZE) ≡ true) }
    {
        let from_here_on = self.bytes >> (pa % BLOCK_SIZE);
        pa / BLOCK_SIZE == self.number && u32::from(len) <= from_here_on.trailing_ones()
    }
}
