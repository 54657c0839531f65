//! Layers of blocks, which the copies of a memory share, the newest first.

ghost use Rattle.std.specs.Prelude.{◌≡◌, ℕ, IfOk, option_copied};
ghost use Rattle.page_layers.specs.Layers.{block_among, newest_block};

use crate::block::Block;
use crate::blocks::Blocks;
use crate::paged_blocks::PagedBlocks;
use hart_words::NoMemory;
use std::alloc::{AllocError, Global};
use std::sync::Arc;

/// How many times as many blocks as the layer above it a layer has at least. So there are few of
/// them, and each block is copied few times.
const GROWTH: usize = 8;

/// Blocks that nobody changes any more, and copies share.
#[derive(Drop)]
pub struct Layer {
    blocks: Arc<PagedBlocks>,
}

impl Clone for Layer {
    ghost use Rattle.std.specs.Prelude.{◌≡◌};

    ghost is_clone = { λ layer other. other.blocks.value.blocks ≡ layer.blocks.value.blocks };

    fn clone(&self) -> Result<Layer, AllocError> {
        Ok(Layer {
            blocks: self.blocks.clone()?,
        })
    }
}

impl Layer {
    ghost use Rattle.std.specs.Prelude.{◌≡◌, IfOk};

    /// A layer of these blocks.
    fn of(alloc: Global, blocks: PagedBlocks) -> Result<Layer, AllocError>
        ensures { IfOk result (λ layer. layer.blocks.value ≡ blocks) }
    {
        Ok(Layer {
            blocks: Arc::new(alloc, blocks)?,
        })
    }

    /// Its blocks.
    pub fn blocks(&self) -> &Blocks
        ensures { result.now ≡ self.now.blocks.value.blocks }
    {
        self.blocks.blocks()
    }

    /// The same with the numbers of their pages.
    pub fn paged(&self) -> &PagedBlocks
        ensures { result.now ≡ self.now.blocks.value }
    {
        &self.blocks
    }
}

/// The block of a number in the newest layer that has it.
pub fn block_among(layers: &[Layer], number: u64) -> Option<&Block>
    ensures { option_copied result ≡ block_among layers.now number }
{
    for layer in layers {
        if let Some(block) = layer.blocks().block(number) {
            return Some(block);
        }
    }
    None
}

/// Layers with a new one above them. It takes those in that are not much larger.
pub fn layers_under(
    alloc: Global,
    newest: PagedBlocks,
    older: &[Layer],
) -> Result<Vec<Layer>, NoMemory>
    ensures { IfOk result (λ layers. (number : ℕ)
        → block_among layers.items number ≡ newest_block newest.blocks older.now number) }
{
    match older.split_first() {
        Some((next, rest)) if next.blocks().len() / GROWTH < newest.blocks().len() => {
            layers_under(alloc, newest.union(next.paged())?, rest)
        }
        _ => layers_on(alloc, newest, older),
    }
}

/// Layers with a new one above them.
fn layers_on(alloc: Global, newest: PagedBlocks, older: &[Layer]) -> Result<Vec<Layer>, NoMemory>
    ensures { IfOk result (λ layers. (number : ℕ)
        → block_among layers.items number ≡ newest_block newest.blocks older.now number) }
{
    let mut layers = Vec::new(alloc);
    layers.push(Layer::of(alloc, newest)?)?;
    for layer in older {
        layers.push(layer.clone()?)?;
    }
    Ok(layers)
}
