//! The memory of a hart over an image.

ghost use Rattle.std.specs.Prelude.{◌≡◌, ◌≤◌, ◌<◌, ◌+◌, ◌*◌, ◌/◌, ◌%◌, ◌^◌, ℕ, IsTrue};
ghost use Rattle.hart_words.specs.declared.span.TheConstants.{PAGE_SIZE};
ghost use Rattle.hart_words.specs.Memory.{number_at};
ghost use Rattle.page_image.specs.Bytes.{byte_of};
ghost use Rattle.page_layers.specs.declared.block.TheConstants.{BLOCK_SIZE};
ghost use Rattle.page_layers.specs.Blocks.{block_byte};

use crate::block::{BLOCK_SIZE, Block, PAGE_BLOCKS};
use crate::blocks::Blocks;
use crate::layers::{Layer, block_among, layers_under};
use crate::numbers::{ByteAt, ByteMem, number_of, put_number};
use crate::paged_blocks::PagedBlocks;
use hart_words::{NoMemory, PAGE_SIZE, PhysMem};
use page_image::PageImage;
use std::alloc::Global;

/// How many blocks a memory has for itself before its copy shares them.
const MOST_WRITTEN: usize = 1024;

/// The bytes of an image, under the blocks that were written since. A block is copied as a whole
/// when a byte of it is first written. Few stand by themselves and are copied with the memory; the
/// others stand in layers that its copies share, so that a copy costs little, whatever was written.
#[derive(Drop)]
pub struct Layered<'a> {
    alloc: Global,
    pub(crate) image: &'a PageImage,
    pub(crate) layers: Vec<Layer>,
    pub(crate) written: Blocks,
}

impl<'a> Layered<'a> {
    ghost use Rattle.std.specs.Prelude.{◌≡◌, ◌⊎◌, IsOk, OnErr, OnOk, false, if◌then◌else◌, option_copied};
    ghost use Rattle.std.specs.Bool.{Decides};
    ghost use Rattle.hart_words.specs.Memory.{bytes_after_store};
    ghost use Rattle.page_layers.specs.declared.block.TheConstants.{BLOCK_SIZE};
    ghost use Rattle.page_layers.specs.Blocks.{block_byte};
    ghost use Rattle.page_layers.specs.Memories.{written_block_of, layered_bytes, layered_ram, owns};

    /// The memory of an image, before any write.
    pub fn over(alloc: Global, image: &'a PageImage) -> Layered<'a>
        ensures bytes { layered_bytes result ≡ byte_of image.now }
        ensures ram { layered_ram result ≡ image.now.ram }
    {
        Layered {
            alloc,
            image,
            layers: Vec::new(alloc),
            written: Blocks::none(alloc),
        }
    }

    /// The block of a number, if it was written.
    fn block(&self, number: u64) -> Option<&Block>
        ensures { option_copied result ≡ written_block_of self.now number }
    {
        match self.written.block(number) {
            Some(block) => Some(block),
            None => block_among(&self.layers, number),
        }
    }

    /// The bytes of a block.
    pub(crate) fn value(&self, number: u64) -> Block
        ensures { (pa : ℕ) → pa / BLOCK_SIZE ≡ number
            → block_byte result pa ≡ layered_bytes self.now pa }
    {
        match self.written.block(number) {
            Some(block) => *block,
            None => self.value_beneath(number),
        }
    }

    /// The bytes of a block that it has not for its own.
    fn value_beneath(&self, number: u64) -> Block
        requires beneath { owns self.now number ≡ false }
        ensures { (pa : ℕ) → pa / BLOCK_SIZE ≡ number
            → block_byte result pa ≡ layered_bytes self.now pa }
    {
        match block_among(&self.layers, number) {
            Some(block) => *block,
            None => image_block(self.image, number),
        }
    }

    /// The number of `len` bytes at an address, within a block.
    fn number(&self, pa: u64, len: u8) -> u64
        requires at_most_8 { len ≤ 8 }
        requires inside { pa + len < 2 ^ 64 }
        requires block { pa % BLOCK_SIZE + len ≤ BLOCK_SIZE }
        ensures value { result ≡ number_at (layered_bytes self.now) pa len }
        ensures fits { result < 2 ^ (8 * len) }
        ensures small { (at : ℕ) → pa ≤ at → at < pa + len → layered_bytes self.now at < 256 }
    {
        match self.block(pa / BLOCK_SIZE) {
            Some(block) => number_of(block, pa, len),
            None => image_number(self.image, pa, len),
        }
    }

    /// Makes a block its own, with the bytes that it has.
    fn own(&mut self, number: u64) -> Result<(), NoMemory>
        ensures bytes { layered_bytes self.new ≡ layered_bytes self.old }
        ensures ok { OnOk result (IsTrue (owns self.new number)) }
        ensures owned { IsTrue (owns self.old number) → IsOk result }
        ensures keeps { (block : ℕ) → IsTrue (owns self.old block) → IsTrue (owns self.new block) }
        ensures ram { layered_ram self.new ≡ layered_ram self.old }
    {
        if self.written.block(number).is_some() {
            return Ok(());
        }
        let block = self.value_beneath(number);
        self.written.set(number, block)
    }

    /// Makes a block its own, with the low `len` bytes of a number at an address within it.
    fn own_with(&mut self, pa: u64, len: u8, value: u64) -> Result<(), NoMemory>
        requires at_most_8 { len ≤ 8 }
        requires inside { pa + len ≤ 2 ^ 64 }
        requires block { pa % BLOCK_SIZE + len ≤ BLOCK_SIZE }
        requires beneath { owns self.old (pa / BLOCK_SIZE) ≡ false }
        ensures ok { OnOk result (layered_bytes self.new
            ≡ bytes_after_store pa len value (layered_bytes self.old)) }
        ensures err { OnErr result (layered_bytes self.new ≡ layered_bytes self.old) }
        ensures keeps { (block : ℕ) → IsTrue (owns self.old block) → IsTrue (owns self.new block) }
        ensures ram { layered_ram self.new ≡ layered_ram self.old }
    {
        let number = pa / BLOCK_SIZE;
        let mut block = self.value_beneath(number);
        block.put(pa, len, value);
        self.written.set(number, block)
    }

    /// Puts the low `len` bytes of a number at an address, within a block of its own. Where it has
    /// no such block nothing changes.
    fn put(&mut self, pa: u64, len: u8, value: u64) -> bool
        requires at_most_8 { len ≤ 8 }
        requires inside { pa + len ≤ 2 ^ 64 }
        requires block { pa % BLOCK_SIZE + len ≤ BLOCK_SIZE }
        ensures owned { result ≡ owns self.old (pa / BLOCK_SIZE) }
        ensures bytes { layered_bytes self.new ≡ (if result
            then bytes_after_store pa len value (layered_bytes self.old)
            else layered_bytes self.old) }
        ensures keeps { (block : ℕ) → owns self.new block ≡ owns self.old block }
        ensures ram { layered_ram self.new ≡ layered_ram self.old }
    {
        self.written.put(pa, len, value)
    }
}

/// The block of a number, as an image has it.
fn image_block(image: &PageImage, number: u64) -> Block
    ensures { (pa : ℕ) → pa / BLOCK_SIZE ≡ number → block_byte result pa ≡ byte_of image.now pa }
{
    match image.page(number / PAGE_BLOCKS) {
        Some(page) => Block::of_page(page, number),
        None => Block::zeros(),
    }
}

/// The number of `len` bytes at an address, within a page, as an image has it.
fn image_number(image: &PageImage, pa: u64, len: u8) -> u64
    requires at_most_8 { len ≤ 8 }
    requires inside { pa + len < 2 ^ 64 }
    requires page { pa % PAGE_SIZE + len ≤ PAGE_SIZE }
    ensures value { result ≡ number_at (byte_of image.now) pa len }
    ensures fits { result < 2 ^ (8 * len) }
    ensures small { (at : ℕ) → pa ≤ at → at < pa + len → byte_of image.now at < 256 }
{
    match image.page(pa / PAGE_SIZE) {
        Some(page) => page.number(pa, len),
        None => 0,
    }
}

/// Whether so many bytes at an address lie in one block.
fn is_within_block(pa: u64, len: u8) -> bool
    ensures { IsTrue result → pa % BLOCK_SIZE + len ≤ BLOCK_SIZE }
{
    pa % BLOCK_SIZE + u64::from(len) <= BLOCK_SIZE
}

impl<'a> ByteAt for Layered<'a> {
    ghost use Rattle.page_layers.specs.Memories.{layered_bytes};

    ghost bytes = { layered_bytes };

    fn byte(&self, pa: u64) -> u8 {
        match self.block(pa / BLOCK_SIZE) {
            Some(block) => block.byte(pa),
            None => self.image.byte(pa),
        }
    }
}

impl<'a> ByteMem for Layered<'a> {
    ghost use Rattle.page_layers.specs.Memories.{OwnsPage, layered_bytes, layered_ram};

    ghost bytes = { layered_bytes };

    ghost ram = { layered_ram };

    ghost admits = { OwnsPage };

    fn admit(&mut self, pa: u64) -> Result<(), NoMemory> {
        let first = pa / PAGE_SIZE * PAGE_BLOCKS;
        for k in 0..PAGE_BLOCKS {
            self.own(first + k)?;
        }
        Ok(())
    }

    fn set(&mut self, pa: u64, value: u8) {
        self.put(pa, 1, u64::from(value));
    }
}

impl<'a> PhysMem for Layered<'a> {
    ghost use Rattle.page_layers.specs.Memories.{OwnsPage, layered_bytes, layered_bytes-fits, layered_ram};

    ghost bytes = { layered_bytes };

    ghost ram = { layered_ram };

    ghost is_ready = { OwnsPage };

    ghost bytes_are_bytes = { layered_bytes-fits };

    fn read(&self, pa: u64, len: u8) -> u64 {
        if is_within_block(pa, len) {
            self.number(pa, len)
        } else {
            number_of(self, pa, len)
        }
    }

    fn write(&mut self, pa: u64, len: u8, value: u64) -> Result<(), NoMemory> {
        if is_within_block(pa, len) {
            // Most stores find a block that is owned, and look it up once.
            if !self.put(pa, len, value) {
                self.own_with(pa, len, value)?;
            }
        } else {
            self.admit(pa)?;
            put_number(self, pa, len, value);
        }
        Ok(())
    }

    fn ready(&mut self, pa: u64) -> Result<(), NoMemory> {
        self.admit(pa)
    }

    fn copy(&self) -> Result<Layered<'a>, NoMemory> {
        let written = self.written.clone()?;
        if written.len() <= MOST_WRITTEN {
            return Ok(Layered {
                alloc: self.alloc,
                image: self.image,
                layers: self.layers.clone()?,
                written,
            });
        }
        let newest = PagedBlocks::of(self.alloc, written)?;
        Ok(Layered {
            alloc: self.alloc,
            image: self.image,
            layers: layers_under(self.alloc, newest, &self.layers)?,
            written: Blocks::none(self.alloc),
        })
    }
}
