//! What rows did, up to one that differs.

ghost use Rattle.std.specs.Prelude.{◌≡◌, ◌+◌, ◌++◌, [], ◌∷◌, length};
ghost use Rattle.std.specs.List.{All};
ghost use Rattle.hart_words.specs.declared.accesses.Read.{Read};
ghost use Rattle.hart_words.specs.declared.accesses.Write.{Write};
ghost use Rattle.row_origin.specs.Histories.{history_after, history_of};
ghost use Rattle.row_origin.specs.Last.{IsNarrow};
ghost use Rattle.row_origin.specs.Trails.{Trail, facts_of};

use crate::differing_row::DifferingRow;
use crate::last::Last;
use crate::origins::Origins;
use hart_words::{NoMemory, Read, Write};
use rvfi_rows::Stepped;
use std::alloc::Global;

/// What rows did, as far as it tells who wrote what: the last writers of the rows that were added,
/// and what the row after them did, where it differs.
#[derive(Drop)]
pub struct History {
    alloc: Global,
    last: Last,
    differing: Option<Box<DifferingRow>>,
}

impl History {
    ghost use Rattle.std.specs.Prelude.{Some, OnOk, OnErr, option_map};
    ghost use Rattle.row_origin.specs.Histories.{HistoryView, IsHistoryOf, IsSameHistory, origins_in_history};
    ghost use Rattle.row_origin.specs.Last.{CountsFrom};
    ghost use Rattle.row_origin.specs.Origins.{origins_in};

    /// That of no row. It takes no memory.
    pub fn empty(alloc: Global) -> History
        ensures { IsHistoryOf result (history_of []) }
    {
        History {
            alloc,
            last: Last::empty(alloc),
            differing: None,
        }
    }

    /// Adds what the step of one row more did. A refused one changes nothing.
    pub fn add(&mut self, stepped: &Stepped, hart: u64, row: u64) -> Result<(), NoMemory>
        requires { All (λ (write : Write). IsNarrow write.pa write.len) stepped.now.wrote }
        ensures ok { OnOk result ((trail : Trail) → IsHistoryOf self.old (history_of trail)
            → length trail + 1 ≡ row
            → IsHistoryOf self.new
            (history_of (trail ++ Some (facts_of stepped.now hart) ∷ []))) }
        ensures err { OnErr result (IsSameHistory self.old self.new) }
    {
        self.last.add(stepped, hart, row)
    }

    /// Ends it with what the step of a row that differs did. A refused one changes nothing.
    pub fn end(&mut self, stepped: &Stepped, hart: u64) -> Result<(), NoMemory>
        requires { All (λ (read : Read). IsNarrow read.pa read.len) stepped.now.seen }
        ensures ok { OnOk result ((trail : Trail) → IsHistoryOf self.old (history_of trail)
            → IsHistoryOf self.new (record {
              before = trail;
              differing = Some (facts_of stepped.now hart);
            })) }
        ensures err { OnErr result (IsSameHistory self.old self.new) }
    {
        self.differing = Some(DifferingRow::of(self.alloc, stepped, hart)?);
        Ok(())
    }

    /// Adds what later rows did, and the differing one among them. The numbers of the later rows
    /// count from a base. A refused one changes nothing.
    pub fn follow(&mut self, later: &History, base: u64) -> Result<(), NoMemory>
        requires { CountsFrom base later.now.last }
        ensures ok { OnOk result ((trail : Trail) (view : HistoryView)
            → IsHistoryOf self.old (history_of trail) → IsHistoryOf later.now view
            → base ≡ length trail → IsHistoryOf self.new (history_after trail view)) }
        ensures err { OnErr result (IsSameHistory self.old self.new) }
    {
        let differing = match &later.differing {
            None => None,
            Some(row) => Some(row.copy(self.alloc)?),
        };
        self.last.lay_over(&later.last, base)?;
        self.differing = differing;
        Ok(())
    }

    /// Who wrote what the differing row read.
    pub fn origins(&self) -> Option<Origins>
        ensures { (view : HistoryView) → IsHistoryOf self.now view
            → option_map origins_in result ≡ origins_in_history view }
    {
        match &self.differing {
            None => None,
            Some(row) => Some(row.origins(&self.last)),
        }
    }
}
