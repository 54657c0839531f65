//! What a hart has reserved.

ghost use Rattle.std.specs.Prelude.{◌≡◌, ◌≤◌, ◌+◌, ◌↔◌, Some, None, IsTrue};

/// An aligned block of physical memory.
#[derive(Clone, Copy, Debug, PartialEq, Eq)]
pub struct Block {
    /// The address of its first byte, a multiple of the size.
    pub address: u64,
    /// Its bytes: a power of two from 8 to 4,096.
    pub size: u16,
}

/// What a hart has reserved: an aligned block of physical memory, or nothing.
#[derive(Clone, Copy, Debug, PartialEq, Eq)]
pub struct Reservation {
    pub block: Option<Block>,
}

impl Reservation {
    ghost use Rattle.hart_words.specs.BlockSizes.{is_block_size};
    ghost use Rattle.rv_atomic.specs.Blocks.{block_left, block_of, is_covered, is_touched, HasReserved, IsAllReserved};

    /// Nothing is reserved.
    pub const NONE: Reservation = Reservation { block: None };

    /// Reserves the block of `size` bytes in which the byte at `pa` lies, in place of what was
    /// reserved.
    pub fn set(&mut self, pa: u64, size: u16)
        requires { IsTrue (is_block_size size) }
        ensures { self.new.block ≡ Some (block_of size pa) }
    {
        let bytes = u64::from(size);
        self.block = Some(Block {
            address: pa / bytes * bytes,
            size,
        });
    }

    /// Whether all of the `len` bytes from `pa` on, at least one, lie in the reserved block.
    pub fn covers(&self, pa: u64, len: u8) -> bool
        requires { 1 ≤ len }
        ensures value { result ≡ is_covered self.now.block pa len }
        ensures bytes { IsTrue result ↔ IsAllReserved self.now.block pa len }
    {
        match self.block {
            None => false,
            Some(block) => block.address <= pa
                && u128::from(pa) + u128::from(len)
                    <= u128::from(block.address) + u128::from(block.size),
        }
    }

    /// Whether some of the `len` bytes from `pa` on lies in the reserved block: some address is in
    /// both.
    pub fn touches(&self, pa: u64, len: u8) -> bool
        ensures value { result ≡ is_touched self.now.block pa len }
        ensures bytes { IsTrue result ↔ HasReserved self.now.block pa len }
    {
        match self.block {
            None => false,
            Some(block) => {
                let end = end_of(pa, u16::from(len)).min(end_of(block.address, block.size));
                u128::from(pa.max(block.address)) < end
            }
        }
    }

    /// Loses the reservation where another hart wrote one of the `len` bytes from `pa` on, and it
    /// lies in the block: that hart's SC is to fail then.
    pub fn lose(&mut self, pa: u64, len: u8)
        ensures { self.new.block ≡ block_left self.old.block pa len }
    {
        if self.touches(pa, len) {
            self.clear();
        }
    }

    /// Reserves nothing any more.
    pub fn clear(&mut self)
        ensures { self.new.block ≡ None }
    {
        self.block = None;
    }
}

/// The address after so many bytes; it may be 2^64, and more.
fn end_of(first: u64, len: u16) -> u128
    ensures { result ≡ first + len }
{
    u128::from(first) + u128::from(len)
}
