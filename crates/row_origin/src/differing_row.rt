//! A row that differs.

ghost use Rattle.std.specs.Prelude.{◌≡◌};
ghost use Rattle.std.specs.List.{All};
ghost use Rattle.hart_words.specs.declared.accesses.Read.{Read};
ghost use Rattle.row_origin.specs.Last.{IsNarrow};

use crate::last::Last;
use crate::origins::Origins;
use hart_words::{NoMemory, Read, Write};
use rvfi_rows::{Expected, Stepped};
use std::alloc::Global;

/// What the step of a row that differs did, and the number of its hart.
#[derive(Drop)]
pub struct DifferingRow {
    pub(crate) hart: u64,
    pub(crate) expected: Expected,
    pub(crate) reads: Vec<Read>,
    pub(crate) wrote: Vec<Write>,
    ghost narrow: { All (λ (read : Read). IsNarrow read.pa read.len) reads.items },
}

impl DifferingRow {
    ghost use Rattle.std.specs.Prelude.{IfOk};
    ghost use Rattle.row_origin.specs.DifferingRows.{facts_in};
    ghost use Rattle.row_origin.specs.Last.{IsLastOf};
    ghost use Rattle.row_origin.specs.Origins.{origins_in, origins_of};
    ghost use Rattle.row_origin.specs.Trails.{Trail, facts_of};

    /// The row of a hart that did this.
    pub(crate) fn of(
        alloc: Global,
        stepped: &Stepped,
        hart: u64,
    ) -> Result<Box<DifferingRow>, NoMemory>
        requires { All (λ (read : Read). IsNarrow read.pa read.len) stepped.now.seen }
        ensures { IfOk result (λ row. facts_in row.value ≡ facts_of stepped.now hart) }
    {
        let row = DifferingRow {
            hart,
            expected: stepped.expected,
            reads: Vec::from_slice(alloc, stepped.seen.as_slice())?,
            wrote: Vec::from_slice(alloc, stepped.wrote.as_slice())?,
        };
        Ok(Box::new(alloc, row)?)
    }

    /// The same row.
    pub(crate) fn copy(&self, alloc: Global) -> Result<Box<DifferingRow>, NoMemory>
        ensures { IfOk result (λ row. facts_in row.value ≡ facts_in self.now) }
    {
        let row = DifferingRow {
            hart: self.hart,
            expected: self.expected,
            reads: Vec::from_slice(alloc, self.reads.as_slice())?,
            wrote: Vec::from_slice(alloc, self.wrote.as_slice())?,
        };
        Ok(Box::new(alloc, row)?)
    }

    /// Who wrote what it read, given the last writers before it.
    pub(crate) fn origins(&self, last: &Last) -> Origins
        ensures { (trail : Trail) → IsLastOf last.now trail
            → origins_in result ≡ origins_of trail (facts_in self.now) }
    {
        last.origins_of(&self.expected, self.reads.as_slice(), self.hart)
    }
}
