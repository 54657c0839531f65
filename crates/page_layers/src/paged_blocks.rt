//! Blocks with the numbers of their pages in order.

ghost use Rattle.std.specs.Prelude.{◌≡◌, ◌/◌, ℕ, IfOk, IsTrue, is_some};
ghost use Rattle.page_image.specs.PageNumbers.{has_number};
ghost use Rattle.page_layers.specs.declared.block.TheConstants.{PAGE_BLOCKS};
ghost use Rattle.page_layers.specs.Blocks.{block_at};

use crate::block::PAGE_BLOCKS;
use crate::blocks::Blocks;
use hart_words::NoMemory;
use page_image::{PAGES, PageNumbers};
use std::alloc::Global;

/// Blocks, and the numbers of the pages in which they lie.
#[derive(Drop)]
pub struct PagedBlocks {
    blocks: Blocks,
    pages: PageNumbers,
    ghost listed: { (number : ℕ) → IsTrue (is_some (block_at blocks number))
        → IsTrue (has_number pages (number / PAGE_BLOCKS)) },
}

impl PagedBlocks {
    ghost use Rattle.std.specs.Prelude.{◌≤◌};
    ghost use Rattle.std.specs.Option.{option_or};
    ghost use Rattle.page_image.specs.declared.page_numbers.TheConstants.{PAGES};
    ghost use Rattle.page_image.specs.PageNumbers.{Skips};
    ghost use Rattle.page_layers.specs.Blocks.{HasNoBlock};

    /// Blocks with the numbers of their pages.
    pub fn of(alloc: Global, blocks: Blocks) -> Result<PagedBlocks, NoMemory>
        ensures { IfOk result (λ paged. paged.blocks ≡ blocks) }
    {
        let pages = page_numbers(alloc, &blocks)?;
        Ok(PagedBlocks { blocks, pages })
    }

    /// The blocks.
    pub fn blocks(&self) -> &Blocks
        ensures { result.now ≡ self.now.blocks }
    {
        &self.blocks
    }

    /// These blocks, and those of others whose numbers are not among them.
    pub fn union(&self, others: &PagedBlocks) -> Result<PagedBlocks, NoMemory>
        ensures { IfOk result (λ all. (number : ℕ) → block_at all.blocks number
            ≡ option_or (block_at self.now.blocks number) (block_at others.now.blocks number)) }
    {
        let blocks = self.blocks.union(&others.blocks)?;
        let pages = self.pages.union(&others.pages)?;
        Ok(PagedBlocks { blocks, pages })
    }

    /// The number of the first page from one on in which a block may lie.
    pub fn next_page(&self, least: u64) -> Option<u64>
        requires { least ≤ PAGES }
        ensures { Skips (HasNoBlock (block_at self.now.blocks)) least result }
    {
        self.pages.next(least)
    }
}

/// The numbers of the pages in which blocks lie.
fn page_numbers(alloc: Global, blocks: &Blocks) -> Result<PageNumbers, NoMemory>
    ensures { IfOk result (λ pages. (number : ℕ) → IsTrue (is_some (block_at blocks.now number))
        → IsTrue (has_number pages (number / PAGE_BLOCKS))) }
{
    let mut pages = PageNumbers::none(alloc);
    for number in blocks.map().keys() {
        pages.add(*number / PAGE_BLOCKS)?;
    }
    Ok(pages)
}
