//! Whether two memories have the same bytes.

use crate::block::PAGE_BLOCKS;
use crate::blocks::Blocks;
use crate::layered::Layered;
use crate::layers::Layer;
use page_image::{Page, PageImage};

impl<'a> Layered<'a> {
    ghost use Rattle.std.specs.Prelude.{◌≡◌, ◌⊎◌, ◌<◌, ◌≤◌, ◌+◌, ◌-◌, ◌/◌, ◌^◌, ℕ, nat_eq, IsTrue, is_some};
    ghost use Rattle.std.specs.Bool.{Decides};
    ghost use Rattle.std.specs.HashMap.{get};
    ghost use Rattle.page_layers.specs.declared.block.TheConstants.{PAGE_BLOCKS};
    ghost use Rattle.page_layers.specs.Blocks.{block_at};
    ghost use Rattle.page_layers.specs.Layers.{block_among, newest_block};
    ghost use Rattle.page_layers.specs.Memories.{IsSameBlock, IsZeroBlock, bytes_under, layered_bytes};

    /// Whether this memory has the bytes of another at each address.
    pub fn same_as(&self, other: &Layered) -> bool
        ensures { Decides result (layered_bytes self.now ≡ layered_bytes other.now) }
    {
        self.same_under(other, &self.written, &self.layers, self.image)
            && self.same_under(other, &other.written, &other.layers, other.image)
    }

    /// Whether it has the bytes of another in each block in which an image under blocks has more
    /// than zeros, and maybe in others.
    fn same_under(
        &self,
        other: &Layered,
        written: &Blocks,
        layers: &[Layer],
        image: &PageImage,
    ) -> bool
        ensures known_files { IsTrue result → (number : ℕ)
            → IsZeroBlock (bytes_under written.now layers.now image.now) number
            ⊎ IsSameBlock self.now other.now number }
        ensures same { layered_bytes self.now ≡ layered_bytes other.now → IsTrue result }
    {
        self.same_in_newest(other, written, layers) && self.same_in_image(other, image)
    }

    /// Whether it has the bytes of another in each of these blocks and those of layers.
    fn same_in_newest(&self, other: &Layered, written: &Blocks, layers: &[Layer]) -> bool
        ensures known_files { IsTrue result → (number : ℕ)
            → IsTrue (is_some (newest_block written.now layers.now number))
            → IsSameBlock self.now other.now number }
        ensures same { layered_bytes self.now ≡ layered_bytes other.now → IsTrue result }
    {
        self.same_in_blocks(other, written) && self.same_in_layers(other, layers)
    }

    /// Whether it has the bytes of another in each of these blocks.
    fn same_in_blocks(&self, other: &Layered, blocks: &Blocks) -> bool
        ensures known_files { IsTrue result → (number : ℕ)
            → IsTrue (is_some (block_at blocks.now number))
            → IsSameBlock self.now other.now number }
        ensures same { layered_bytes self.now ≡ layered_bytes other.now → IsTrue result }
    {
        for number in blocks.map().keys() {
            if !self.same_block(other, *number) {
                return false;
            }
        }
        true
    }

    /// Whether it has the bytes of another in each block of layers.
    fn same_in_layers(&self, other: &Layered, layers: &[Layer]) -> bool
        ensures known_files { IsTrue result → (number : ℕ)
            → IsTrue (is_some (block_among layers.now number))
            → IsSameBlock self.now other.now number }
        ensures same { layered_bytes self.now ≡ layered_bytes other.now → IsTrue result }
    {
        match layers.split_first() {
            None => true,
            Some((layer, older)) => {
                self.same_in_blocks(other, layer.blocks()) && self.same_in_layers(other, older)
            }
        }
    }

    /// Whether it has the bytes of another in each page that an image has.
    fn same_in_image(&self, other: &Layered, image: &PageImage) -> bool
        ensures known_files { IsTrue result → (number : ℕ)
            → IsTrue (is_some (get nat_eq image.now.pages (number / PAGE_BLOCKS)))
            → IsSameBlock self.now other.now number }
        ensures same { layered_bytes self.now ≡ layered_bytes other.now → IsTrue result }
    {
        for page in image.pages().keys() {
            if !self.same_page(other, *page) {
                return false;
            }
        }
        true
    }

    /// Whether it has the bytes of another in a page. No block was written in one so far up that a
    /// block's number does not fit.
    fn same_page(&self, other: &Layered, page: u64) -> bool
        ensures known_files { IsTrue result → (number : ℕ) → number / PAGE_BLOCKS ≡ page
            → IsSameBlock self.now other.now number }
        ensures same { layered_bytes self.now ≡ layered_bytes other.now → IsTrue result }
    {
        match page.checked_mul(PAGE_BLOCKS) {
            Some(first) => self.same_blocks(other, first),
            None => Page::same_bytes(self.image.page(page), other.image.page(page)),
        }
    }

    /// Whether it has the bytes of another in the blocks of a page, by the first.
    fn same_blocks(&self, other: &Layered, first: u64) -> bool
        requires { first ≤ 2 ^ 64 - PAGE_BLOCKS }
        ensures known_files { IsTrue result → (number : ℕ) → first ≤ number
            → number < first + PAGE_BLOCKS → IsSameBlock self.now other.now number }
        ensures same { layered_bytes self.now ≡ layered_bytes other.now → IsTrue result }
    {
        for k in 0..PAGE_BLOCKS {
            if !self.same_block(other, first + k) {
                return false;
            }
        }
        true
    }

    /// Whether it has the bytes of another in a block.
    fn same_block(&self, other: &Layered, number: u64) -> bool
        ensures { Decides result (IsSameBlock self.now other.now number) }
    {
        self.value(number).same_as(&other.value(number))
    }
}
