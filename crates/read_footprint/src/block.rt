//! What is noted of the bytes of a block.

ghost use Rattle.std.specs.Prelude.{◌≡◌, ◌≤◌, ◌<◌, ◌+◌, ◌-◌, ◌*◌, ◌/◌, ◌%◌, ◌^◌, ℕ, ◌&&◌, ◌||◌, not, nat_le, nat_lt};
ghost use Rattle.read_footprint.specs.Bits.{has_bit};

/// The bytes of a block: those whose address divided by 64 is its number.
pub const BLOCK_SIZE: u64 = 64;

/// A bit for each byte of a block: whether it was read before it was written, and whether it was
/// written.
#[derive(Clone, Copy, Debug, PartialEq, Eq)]
pub struct Block {
    pub read: u64,
    pub wrote: u64,
}

impl Block {
    /// Nothing read or written.
    pub fn empty() -> Block
        ensures { result ≡ record { read = 0; wrote = 0 } }
    {
        Block { read: 0, wrote: 0 }
    }

    /// Notes what came later.
    pub fn then(self, later: Block) -> Block
        ensures read { (place : ℕ) → place < BLOCK_SIZE → has_bit result.read place
            ≡ (has_bit self.read place
            || (has_bit later.read place && not (has_bit self.wrote place))) }
        ensures wrote { (place : ℕ) → has_bit result.wrote place
            ≡ (has_bit self.wrote place || has_bit later.wrote place) }
    {
        Block {
            read: self.read | (later.read & !self.wrote),
            wrote: self.wrote | later.wrote,
        }
    }

    /// The bytes that were read or written.
    pub fn noted(self) -> u64
        ensures { (place : ℕ) → has_bit result place
            ≡ (has_bit self.read place || has_bit self.wrote place) }
    {
        self.read | self.wrote
    }
}

/// The bits from one place up to another.
fn bits_between(from: u64, to: u64) -> u64
    requires ordered { from ≤ to }
    requires within { to ≤ 64 }
    ensures { result ≡ 2 ^ to - 2 ^ from }
{
    ((1u128 << to) - (1u128 << from)) as u64
}

/// The bits of a block for the addresses from one up to another.
pub fn bits_of(number: u64, pa: u64, end: u64) -> u64
    requires narrow { end ≤ 2 ^ 56 }
    requires ordered { pa ≤ end }
    requires from_here { number * BLOCK_SIZE ≤ end }
    requires to_here { pa ≤ number * BLOCK_SIZE + BLOCK_SIZE }
    ensures { (address : ℕ) → address / BLOCK_SIZE ≡ number
        → has_bit result (address % BLOCK_SIZE) ≡ (nat_le pa address && nat_lt address end) }
{
    let start = number * BLOCK_SIZE;
    bits_between(pa.max(start) - start, end.min(start + BLOCK_SIZE) - start)
}
