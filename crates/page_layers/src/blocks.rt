//! Blocks by their number.

ghost use Rattle.std.specs.Prelude.{◌≡◌, ◌<◌, ℕ, false, is_some, nat_eq};
ghost use Rattle.std.specs.HashMap.{get};

use crate::block::{BLOCK_SIZE, Block};
use hart_words::NoMemory;
use std::alloc::{AllocError, Global};
use std::collections::HashMap;

/// Blocks by their number: an address divided by 64.
#[derive(Drop)]
pub struct Blocks {
    blocks: HashMap<u64, Block>,
    /// The lowest and the highest number that a block was set at: most numbers that are looked up
    /// lie outside of these, and need no search.
    lowest: u64,
    highest: u64,
    ghost low: { (number : ℕ) → number < lowest → is_some (get nat_eq blocks number) ≡ false },
    ghost high: { (number : ℕ) → highest < number → is_some (get nat_eq blocks number) ≡ false },
}

impl Clone for Blocks {
    ghost use Rattle.std.specs.Prelude.{◌≡◌};
    ghost use Rattle.page_layers.specs.Blocks.{block_at};

    ghost is_clone = { λ blocks other. block_at other ≡ block_at blocks };

    fn clone(&self) -> Result<Blocks, AllocError> {
        Ok(Blocks {
            blocks: self.blocks.clone()?,
            lowest: self.lowest,
            highest: self.highest,
        })
    }
}

impl Blocks {
    ghost use Rattle.std.specs.Prelude.{◌≡◌, ◌≤◌, ◌+◌, ◌/◌, ◌%◌, ◌^◌, ◌==◌, ℕ, None, Some, OnOk, OnErr, IfOk, false, is_some, option_copied, if◌then◌else◌};
    ghost use Rattle.std.specs.HashMap.{hash_map_len};
    ghost use Rattle.std.specs.Option.{option_or};
    ghost use Rattle.hart_words.specs.Memory.{bytes_after_store};
    ghost use Rattle.page_layers.specs.declared.block.TheConstants.{BLOCK_SIZE};
    ghost use Rattle.page_layers.specs.Blocks.{block_at, bytes_in, over};

    /// No block.
    #[tactic(auto, unfolding(crate::specs::Blocks::block_at))]
    pub fn none(alloc: Global) -> Blocks
        ensures { (number : ℕ) → block_at result number ≡ None }
    {
        Blocks {
            blocks: HashMap::new(alloc),
            lowest: u64::MAX,
            highest: 0,
        }
    }

    /// The blocks by their number.
    pub fn map(&self) -> &HashMap<u64, Block>
        ensures { result.now ≡ self.now.blocks }
    {
        &self.blocks
    }

    /// How many there are.
    pub fn len(&self) -> usize
        ensures { result ≡ hash_map_len self.now.blocks }
    {
        self.blocks.len()
    }

    /// Whether a number lies within those that blocks were set at.
    fn is_within(&self, number: u64) -> bool
        ensures { result ≡ false → block_at self.now number ≡ None }
    {
        self.lowest <= number && number <= self.highest
    }

    /// The block of a number, if it is there.
    pub fn block(&self, number: u64) -> Option<&Block>
        ensures { option_copied result ≡ block_at self.now number }
    {
        if !self.is_within(number) {
            return None;
        }
        self.blocks.get(&number)
    }

    /// Makes room for so many more.
    fn reserve(&mut self, more: usize) -> Result<(), NoMemory>
        ensures { block_at self.new ≡ block_at self.old }
    {
        self.blocks.reserve(more)?;
        Ok(())
    }

    /// Sets the block of a number. A refused one changes nothing.
    pub fn set(&mut self, number: u64, block: Block) -> Result<(), NoMemory>
        ensures ok { OnOk result ((q : ℕ) → block_at self.new q
            ≡ (if q == number then Some block else block_at self.old q)) }
        ensures err { OnErr result (block_at self.new ≡ block_at self.old) }
    {
        self.blocks.insert(number, block)?;
        self.lowest = self.lowest.min(number);
        self.highest = self.highest.max(number);
        Ok(())
    }

    /// Puts the low `len` bytes of a number at an address, within a block that is there. Where it
    /// is not there nothing changes.
    pub fn put(&mut self, pa: u64, len: u8, value: u64) -> bool
        requires at_most_8 { len ≤ 8 }
        requires inside { pa + len ≤ 2 ^ 64 }
        requires block { pa % BLOCK_SIZE + len ≤ BLOCK_SIZE }
        ensures was_there { result ≡ is_some (block_at self.old (pa / BLOCK_SIZE)) }
        ensures stays { (q : ℕ) → is_some (block_at self.new q) ≡ is_some (block_at self.old q) }
        ensures bytes { (base : ℕ → ℕ) → over (bytes_in (block_at self.new)) base ≡ (if result
            then bytes_after_store pa len value (over (bytes_in (block_at self.old)) base)
            else over (bytes_in (block_at self.old)) base) }
    {
        let number = pa / BLOCK_SIZE;
        if !self.is_within(number) {
            return false;
        }
        match self.blocks.get_mut(&number) {
            Some(block) => {
                block.put(pa, len, value);
                true
            }
            None => false,
        }
    }

    /// These blocks, and those of others whose numbers are not among them.
    pub fn union(&self, others: &Blocks) -> Result<Blocks, NoMemory>
        ensures { IfOk result (λ all. (number : ℕ) → block_at all number
            ≡ option_or (block_at self.now number) (block_at others.now number)) }
    {
        let mut all = others.clone()?;
        all.reserve(self.len())?;
        for (number, block) in self.blocks.iter() {
            all.set(*number, *block)?;
        }
        Ok(all)
    }
}
