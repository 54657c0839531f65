//! The last row at each place of a block.

ghost use Rattle.std.specs.Prelude.{◌≡◌, length};
ghost use Rattle.row_origin.specs.declared.block.TheConstants.{BLOCK_PLACES};

/// How many places a block has.
pub const BLOCK_SIZE: u64 = 32;
/// The same as a length of arrays.
const BLOCK_PLACES: usize = 32;

/// The last row at each place, 0 where there is none: rows are numbered from 1.
#[derive(Clone, Copy)]
pub struct Block {
    rows: [u64; BLOCK_PLACES],
    ghost full: { length rows ≡ BLOCK_PLACES },
}

impl Block {
    ghost use Rattle.std.specs.Prelude.{◌≤◌, ◌<◌, ◌+◌, ◌^◌, ℕ, None, IfSome, ◌==◌, ◌&&◌, nat_le, nat_lt, if◌then◌else◌};
    ghost use Rattle.row_origin.specs.Places.{BlockFits, as_row, laid_over, row_in};

    /// A block with no row.
    pub fn empty() -> Block
        ensures { (place : ℕ) → row_in result place ≡ None }
    {
        Block {
            rows: [0; BLOCK_PLACES],
        }
    }

    /// The row at a place.
    pub fn row(&self, place: u64) -> Option<u64>
        requires { place < BLOCK_SIZE }
        ensures { result ≡ row_in self.now place }
    {
        match self.rows[place as usize] {
            0 => None,
            row => Some(row),
        }
    }

    /// Puts a row at a place.
    fn set(&mut self, place: u64, row: u64)
        requires { place < BLOCK_SIZE }
        ensures { (q : ℕ) → row_in self.new q
            ≡ (if place == q then as_row row else row_in self.old q) }
    {
        self.rows[place as usize] = row;
    }

    /// Puts a row at the places from one up to another.
    pub fn fill(&mut self, from: u64, to: u64, row: u64)
        requires ordered { from ≤ to }
        requires within { to ≤ BLOCK_SIZE }
        ensures { (place : ℕ) → row_in self.new place
            ≡ (if nat_le from place && nat_lt place to then as_row row
            else row_in self.old place) }
    {
        for place in from..to {
            self.set(place, row);
        }
    }

    /// Puts the rows of a later block over these, counted on from a base.
    pub fn lay_over(&mut self, later: &Block, base: u64)
        requires { BlockFits base later.now }
        ensures { (place : ℕ) → row_in self.new place
            ≡ laid_over base (row_in later.now place) (row_in self.old place) }
    {
        for place in 0..BLOCK_SIZE {
            self.lay_row(place, later.row(place), base);
        }
    }

    /// Puts a later row over that of a place, counted on from a base.
    fn lay_row(&mut self, place: u64, later: Option<u64>, base: u64)
        requires within { place < BLOCK_SIZE }
        requires fits { IfSome later (λ row. (0 < row) × (base + row < 2 ^ 64)) }
        ensures { (q : ℕ) → row_in self.new q
            ≡ (if place == q then laid_over base later (row_in self.old place)
            else row_in self.old q) }
    {
        if let Some(row) = later {
            self.set(place, base + row);
        }
    }
}
