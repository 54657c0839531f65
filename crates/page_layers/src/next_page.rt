//! The next page of a memory that holds a byte other than 0.

ghost use Rattle.std.specs.Prelude.{◌≡◌, ◌≤◌};
ghost use Rattle.page_image.specs.declared.page_numbers.TheConstants.{PAGES};
ghost use Rattle.page_image.specs.PageNumbers.{Skips};
ghost use Rattle.page_image.specs.NextPages.{IsZeroPage};
ghost use Rattle.page_image.specs.Bytes.{byte_of};
ghost use Rattle.page_layers.specs.Blocks.{HasNoBlock, block_at};
ghost use Rattle.page_layers.specs.Layers.{block_among};
ghost use Rattle.page_layers.specs.NextPages.{earlier};

use crate::block::PAGE_BLOCKS;
use crate::blocks::Blocks;
use crate::layered::Layered;
use crate::layers::Layer;
use hart_words::PAGE_SIZE;
use page_image::{PAGES, PageImage};

impl<'a> Layered<'a> {
    ghost use Rattle.std.specs.Prelude.{◌≡◌, ◌≤◌, ◌<◌, ◌%◌};
    ghost use Rattle.std.specs.Bool.{Decides};
    ghost use Rattle.hart_words.specs.declared.span.TheConstants.{PAGE_SIZE};
    ghost use Rattle.page_image.specs.declared.page_numbers.TheConstants.{PAGES};
    ghost use Rattle.page_image.specs.PageNumbers.{Skips};
    ghost use Rattle.page_image.specs.NextPages.{FindsNextPage, IsZeroPage};
    ghost use Rattle.page_layers.specs.Memories.{IsZeroBlock, layered_bytes};

    /// The address of the first page at or after `from` that holds a byte other than 0.
    pub fn next_page(&self, from: u64) -> Option<u64>
        requires { from % PAGE_SIZE ≡ 0 }
        ensures { FindsNextPage (layered_bytes self.now) from result }
    {
        let mut least = from / PAGE_SIZE;
        'pages: loop {
            match self.next_number(least) {
                None => return None,
                Some(number) => {
                    if !self.is_zero_page(number) {
                        return Some(number * PAGE_SIZE);
                    }
                    least = number + 1;
                }
            }
        }
    }

    /// The number of the first page from one on that may hold a byte other than 0.
    fn next_number(&self, least: u64) -> Option<u64>
        requires { least ≤ PAGES }
        ensures { Skips (IsZeroPage (layered_bytes self.now)) least result }
    {
        let written = earlier(
            next_in_blocks(&self.written, least),
            next_in_layers(&self.layers, least),
        );
        earlier(next_in_image(self.image, least), written)
    }

    /// Whether each byte of a page is 0.
    fn is_zero_page(&self, number: u64) -> bool
        requires { number < PAGES }
        ensures { Decides result (IsZeroPage (layered_bytes self.now) number) }
    {
        let first = number * PAGE_BLOCKS;
        for k in 0..PAGE_BLOCKS {
            if !self.is_zero_block(first + k) {
                return false;
            }
        }
        true
    }

    /// Whether each byte of a block is 0.
    fn is_zero_block(&self, number: u64) -> bool
        ensures { Decides result (IsZeroBlock (layered_bytes self.now) number) }
    {
        self.value(number).is_zero()
    }
}

/// The first of two numbers, where they are there.
fn earlier(one: Option<u64>, other: Option<u64>) -> Option<u64>
    ensures { result ≡ earlier one other }
{
    match (one, other) {
        (Some(first), Some(second)) => {
            if second < first {
                Some(second)
            } else {
                Some(first)
            }
        }
        (Some(first), None) => Some(first),
        (None, second) => second,
    }
}

/// The number of the first page of an image from one on that holds a byte other than 0.
fn next_in_image(image: &PageImage, least: u64) -> Option<u64>
    requires { least ≤ PAGES }
    ensures { Skips (IsZeroPage (byte_of image.now)) least result }
{
    if least == PAGES {
        return None;
    }
    match image.next_page(least * PAGE_SIZE) {
        Some(page) => Some(page / PAGE_SIZE),
        None => None,
    }
}

/// The number of the first page from one on in which one of these blocks lies.
fn next_in_blocks(blocks: &Blocks, least: u64) -> Option<u64>
    requires { least ≤ PAGES }
    ensures { Skips (HasNoBlock (block_at blocks.now)) least result }
{
    let mut found = None;
    for number in blocks.map().keys() {
        let page = *number / PAGE_BLOCKS;
        if least <= page && page < PAGES {
            found = earlier(found, Some(page));
        }
    }
    found
}

/// The number of the first page from one on in which a block of layers may lie.
fn next_in_layers(layers: &[Layer], least: u64) -> Option<u64>
    requires { least ≤ PAGES }
    ensures { Skips (HasNoBlock (block_among layers.now)) least result }
{
    match layers.split_first() {
        None => None,
        Some((layer, older)) => {
            earlier(layer.paged().next_page(least), next_in_layers(older, least))
        }
    }
}
