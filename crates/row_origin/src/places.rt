//! The last row at each of many places.

use crate::block::{BLOCK_SIZE, Block};
use hart_words::NoMemory;
use std::alloc::Global;
use std::collections::HashMap;

/// The last row at each place. Places lie in blocks of 32; a block has a number.
#[derive(Drop)]
pub struct Places {
    blocks: HashMap<u64, Block>,
}

impl Places {
    ghost use Rattle.std.specs.Prelude.{◌≡◌, ◌≤◌, ◌<◌, ◌+◌, ◌==◌, ◌&&◌, ℕ, None, true, false, nat_eq, nat_le, nat_lt, is_some, OnOk, OnErr, if◌then◌else◌};
    ghost use Rattle.std.specs.HashMap.{get, hash_map_len, spare};
    ghost use Rattle.row_origin.specs.Places.{AreSame, PlacesFit, as_row, laid_over, row_at, row_in};

    /// No row at any place. It takes no memory.
    pub fn empty(alloc: Global) -> Places
        ensures { (number place : ℕ) → row_at result number place ≡ None }
    {
        Places {
            blocks: HashMap::new(alloc),
        }
    }

    /// How many blocks there are.
    pub fn len(&self) -> usize
        ensures { result ≡ hash_map_len self.now.blocks }
    {
        self.blocks.len()
    }

    /// The row at a place of the block of a number.
    pub fn row(&self, number: u64, place: u64) -> Option<u64>
        requires { place < BLOCK_SIZE }
        ensures { result ≡ row_at self.now number place }
    {
        match self.blocks.get(&number) {
            Some(block) => block.row(place),
            None => None,
        }
    }

    /// Makes room for so many more blocks.
    pub fn reserve(&mut self, more: usize) -> Result<(), NoMemory>
        ensures same { AreSame self.old self.new }
        ensures room { OnOk result (more ≤ spare self.new.blocks) }
    {
        self.blocks.reserve(more)?;
        Ok(())
    }

    /// Puts a row at the places of a block from one up to another, where there is room for a block.
    pub fn fill(&mut self, number: u64, from: u64, to: u64, row: u64)
        requires ordered { from ≤ to }
        requires within { to ≤ BLOCK_SIZE }
        requires room { 1 ≤ spare self.old.blocks }
        ensures rows { (q place : ℕ) → row_at self.new q place
            ≡ (if (number == q) && (nat_le from place && nat_lt place to) then as_row row
            else row_at self.old q place) }
        ensures room { spare self.old.blocks ≤ spare self.new.blocks + 1 }
    {
        if self.fill_known(number, from, to, row) {
            return;
        }
        let mut block = Block::empty();
        block.fill(from, to, row);
        self.put(number, block);
    }

    /// Puts a row at the places of a block from one up to another, if the block is there.
    fn fill_known(&mut self, number: u64, from: u64, to: u64, row: u64) -> bool
        requires ordered { from ≤ to }
        requires within { to ≤ BLOCK_SIZE }
        ensures filled { result ≡ true → (q place : ℕ) → row_at self.new q place
            ≡ (if (number == q) && (nat_le from place && nat_lt place to) then as_row row
            else row_at self.old q place) }
        ensures same { result ≡ false → AreSame self.old self.new }
        ensures absent { result ≡ false → (place : ℕ) → row_at self.old number place ≡ None }
        ensures room { spare self.new.blocks ≡ spare self.old.blocks }
    {
        match self.blocks.get_mut(&number) {
            Some(block) => {
                block.fill(from, to, row);
                true
            }
            None => false,
        }
    }

    /// Puts a block in the place of the one of its number, where there is room for a block.
    fn put(&mut self, number: u64, block: Block)
        requires { 1 ≤ spare self.old.blocks }
        ensures rows { (q place : ℕ) → row_at self.new q place
            ≡ (if number == q then row_in block place else row_at self.old q place) }
        ensures room { spare self.old.blocks ≤ spare self.new.blocks + 1 }
    {
        match self.blocks.insert(number, block) {
            Ok(_) => (),
            Err(_) => unreachable!(),
        }
    }

    /// The block of a number, an empty one where it is not there.
    fn block(&self, number: u64) -> Block
        ensures { (place : ℕ) → row_in result place ≡ row_at self.now number place }
    {
        match self.blocks.get(&number) {
            Some(block) => *block,
            None => Block::empty(),
        }
    }

    /// Puts the rows of later places over these, counted on from a base, where there is room for
    /// their blocks.
    pub fn lay_over(&mut self, later: &Places, base: u64)
        requires fits { PlacesFit base later.now }
        requires room { hash_map_len later.now.blocks ≤ spare self.old.blocks }
        ensures { (number place : ℕ) → row_at self.new number place
            ≡ laid_over base (row_at later.now number place) (row_at self.old number place) }
    {
        for (number, rows) in later.blocks.iter() {
            let mut block = self.block(*number);
            block.lay_over(rows, base);
            self.put(*number, block);
        }
    }
}
