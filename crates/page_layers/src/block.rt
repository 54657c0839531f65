//! A block: 64 addresses and their bytes.

ghost use Rattle.std.specs.Prelude.{◌≡◌, ◌<◌, ℕ, length, slice_index};
ghost use Rattle.page_layers.specs.declared.block.TheConstants.{BLOCK_SIZE};

use crate::numbers::ByteAt;
use page_image::Page;
use std::alloc::AllocError;

/// How many addresses a block has.
pub const BLOCK_SIZE: u64 = 64;
/// The same as a length of arrays.
const BLOCK_BYTES: usize = 64;
/// How many blocks a page has.
pub const PAGE_BLOCKS: u64 = 64;

/// The bytes of the addresses that have the same number when they are divided by 64. A block does
/// not know this number.
pub struct Block {
    bytes: [u8; BLOCK_BYTES],
    ghost full: { length bytes ≡ BLOCK_SIZE },
    ghost small: { (at : ℕ) → slice_index bytes at < 256 },
}

impl Copy for Block {}

impl Clone for Block {
    ghost use Rattle.std.specs.Prelude.{◌≡◌};

    ghost is_clone = { λ block other. other ≡ block };

    fn clone(&self) -> Result<Block, AllocError> {
        Ok(*self)
    }
}

impl Block {
    ghost use Rattle.std.specs.Prelude.{◌≡◌, ◌<◌, ◌≤◌, ◌+◌, ◌/◌, ◌%◌, ◌^◌, ℕ, if◌then◌else◌, ◌==◌};
    ghost use Rattle.std.specs.Bool.{Decides};
    ghost use Rattle.hart_words.specs.Memory.{bytes_after_store};
    ghost use Rattle.page_image.specs.Pages.{page_byte};
    ghost use Rattle.page_layers.specs.declared.block.TheConstants.{BLOCK_SIZE};
    ghost use Rattle.page_layers.specs.Blocks.{block_byte};

    /// A block of zeros.
    pub fn zeros() -> Block
        ensures { (pa : ℕ) → block_byte result pa ≡ 0 }
    {
        Block {
            bytes: [0; BLOCK_BYTES],
        }
    }

    /// The block of a number, as its page has it.
    pub fn of_page(page: &Page, number: u64) -> Block
        ensures { (pa : ℕ) → pa / BLOCK_SIZE ≡ number
            → block_byte result pa ≡ page_byte page.now pa }
    {
        let first = number % PAGE_BLOCKS * BLOCK_SIZE;
        let mut block = Block::zeros();
        for k in 0..BLOCK_SIZE {
            block.set(k, page.byte(first + k));
        }
        block
    }

    /// Sets the byte at an address in the block.
    fn set(&mut self, pa: u64, value: u8)
        ensures { (at : ℕ) → at / BLOCK_SIZE ≡ pa / BLOCK_SIZE
            → block_byte self.new at ≡ (if at == pa then value else block_byte self.old at) }
    {
        self.bytes[(pa % BLOCK_SIZE) as usize] = value;
    }

    /// Puts the low `len` bytes of a number at an address, within the block.
    pub fn put(&mut self, pa: u64, len: u8, value: u64)
        requires at_most_8 { len ≤ 8 }
        requires inside { pa + len ≤ 2 ^ 64 }
        requires block { pa % BLOCK_SIZE + len ≤ BLOCK_SIZE }
        ensures { (at : ℕ) → at / BLOCK_SIZE ≡ pa / BLOCK_SIZE
            → block_byte self.new at ≡ bytes_after_store pa len value (block_byte self.old) at }
    {
        let mut rest = value;
        for k in 0..u64::from(len) {
            self.set(pa + k, (rest % 256) as u8);
            rest /= 256;
        }
    }

    /// Whether the blocks have the same bytes.
    pub fn same_as(&self, other: &Block) -> bool
        ensures { Decides result ((pa : ℕ) → block_byte self.now pa ≡ block_byte other.now pa) }
    {
        self.bytes == other.bytes
    }

    /// Whether each byte is 0.
    pub fn is_zero(&self) -> bool
        ensures { Decides result ((pa : ℕ) → block_byte self.now pa ≡ 0) }
    {
        self.same_as(&Block::zeros())
    }
}

impl ByteAt for Block {
    ghost use Rattle.page_layers.specs.Blocks.{block_byte};

    ghost bytes = { block_byte };

    #[tactic(auto, unfolding(crate::specs::Blocks::block_byte))]
    fn byte(&self, pa: u64) -> u8 {
        self.bytes[(pa % BLOCK_SIZE) as usize]
    }
}
