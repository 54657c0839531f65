//! Numbers of pages, in order.

ghost use Rattle.std.specs.Prelude.{◌≡◌};

use hart_words::NoMemory;
use std::alloc::{AllocError, Global};
use std::collections::BTreeSet;

/// How many pages the addresses of 64 bits have.
pub const PAGES: u64 = 1 << 52;

/// Some numbers of pages, in order. The number of a page is an address in it, divided by 4,096.
#[derive(Drop)]
pub struct PageNumbers {
    numbers: BTreeSet<u64>,
}

impl PageNumbers {
    ghost use Rattle.std.specs.Prelude.{◌≡◌, ◌≤◌, ◌||◌, ◌==◌, ℕ, true, false, IfOk, IfSome, OnOk, OnErr, if◌then◌else◌};
    ghost use Rattle.page_image.specs.declared.page_numbers.TheConstants.{PAGES};
    ghost use Rattle.page_image.specs.PageNumbers.{Skips, has_number};

    /// No number.
    #[tactic(auto, unfolding(crate::specs::PageNumbers::has_number))]
    pub fn none(alloc: Global) -> PageNumbers
        ensures { (number : ℕ) → has_number result number ≡ false }
    {
        PageNumbers {
            numbers: BTreeSet::new(alloc),
        }
    }

    /// Adds a number. A refused one changes nothing.
    pub fn add(&mut self, number: u64) -> Result<(), NoMemory>
        ensures ok { OnOk result ((q : ℕ) → has_number self.new q
            ≡ (if q == number then true else has_number self.old q)) }
        ensures err { OnErr result ((q : ℕ) → has_number self.new q ≡ has_number self.old q) }
    {
        self.numbers.insert(number)?;
        Ok(())
    }

    /// These numbers and others.
    pub fn union(&self, others: &PageNumbers) -> Result<PageNumbers, NoMemory>
        ensures { IfOk result (λ all. (number : ℕ) → has_number all number
            ≡ (has_number self.now number || has_number others.now number)) }
    {
        let mut all = others.copy()?;
        for number in self.numbers.iter() {
            all.add(*number)?;
        }
        Ok(all)
    }

    fn copy(&self) -> Result<PageNumbers, NoMemory>
        ensures { IfOk result (λ other. (number : ℕ)
            → has_number other number ≡ has_number self.now number) }
    {
        Ok(PageNumbers {
            numbers: self.numbers.clone()?,
        })
    }

    /// The first of them from one on, of those below 2^52.
    pub fn next(&self, least: u64) -> Option<u64>
        requires { least ≤ PAGES }
        ensures skips { Skips (λ number. has_number self.now number ≡ false) least result }
        ensures has { IfSome result (λ number. has_number self.now number ≡ true) }
    {
        let mut range = self.numbers.range(least..PAGES);
        range.next().copied()
    }
}
