//! Histories that are kept only where they are asked for.

ghost use Rattle.std.specs.Prelude.{◌≡◌, ◌+◌, ◌++◌, Bool, [], ◌∷◌, Some, OnOk, length};
ghost use Rattle.std.specs.List.{All};
ghost use Rattle.hart_words.specs.declared.accesses.Read.{Read};
ghost use Rattle.hart_words.specs.declared.accesses.Write.{Write};
ghost use Rattle.row_origin.specs.Histories.{Follows, IsKept, KeptCountsFrom, history_of};
ghost use Rattle.row_origin.specs.Last.{IsNarrow};
ghost use Rattle.row_origin.specs.Trails.{Trail, facts_of};

use crate::history::History;
use hart_words::NoMemory;
use rvfi_rows::Stepped;
use std::alloc::Global;

/// A history of no row, where one is asked for.
pub fn history_if(alloc: Global, origin: bool) -> Option<History>
    ensures { IsKept origin (history_of []) result }
{
    if origin {
        Some(History::empty(alloc))
    } else {
        None
    }
}

/// Adds what the step of one row more did to a history that is kept.
pub fn note_row(
    history: &mut Option<History>,
    stepped: &Stepped,
    hart: u64,
    row: u64,
) -> Result<(), NoMemory>
    requires { All (λ (write : Write). IsNarrow write.pa write.len) stepped.now.wrote }
    ensures { OnOk result ((origin : Bool) (trail : Trail)
        → IsKept origin (history_of trail) history.old → length trail + 1 ≡ row
        → IsKept origin (history_of (trail ++ Some (facts_of stepped.now hart) ∷ []))
        history.new) }
{
    match history {
        None => Ok(()),
        Some(history) => history.add(stepped, hart, row),
    }
}

/// Ends a history that is kept with what the step of a row that differs did.
pub fn note_difference(
    history: &mut Option<History>,
    stepped: &Stepped,
    hart: u64,
) -> Result<(), NoMemory>
    requires { All (λ (read : Read). IsNarrow read.pa read.len) stepped.now.seen }
    ensures { OnOk result ((origin : Bool) (trail : Trail)
        → IsKept origin (history_of trail) history.old
        → IsKept origin (record { before = trail; differing = Some (facts_of stepped.now hart) })
        history.new) }
{
    match history {
        None => Ok(()),
        Some(history) => history.end(stepped, hart),
    }
}

/// Adds what later rows did to a history, where both are kept.
pub fn follow(
    history: &mut Option<History>,
    later: &Option<History>,
    base: u64,
) -> Result<(), NoMemory>
    requires { KeptCountsFrom base later.now }
    ensures { OnOk result (Follows history.old later.now base history.new) }
{
    match history {
        None => Ok(()),
        Some(history) => match later {
            None => Ok(()),
            Some(later) => history.follow(later, base),
        },
    }
}
