//! What the definitions are for. Nothing here computes: each law is proved, and holds of every
//! trail.

ghost use Rattle.std.specs.Prelude.{◌≡◌, ◌<◌, ◌+◌, ◌^◌, ◌++◌, ℕ, Bool, None, [], ◌∷◌, length};
ghost use Rattle.row_origin.specs.declared.last.Last.{Last};
ghost use Rattle.row_origin.specs.Last.{CountsFrom, IsLastOf};
ghost use Rattle.row_origin.specs.Trails.{IsLastRow, RowFacts, Trail, last_row};

/// The last row that passes a test passes it, and no later one does; where there is none, no row
/// passes.
pub fn the_last_row_is_found()
    ensures { (test : RowFacts → Bool) (trail : Trail)
        → IsLastRow test trail (last_row test trail) }
{}

/// A row that is not valid writes nothing, and is counted.
pub fn rows_that_are_not_valid_write_nothing()
    ensures { (last : Last) (trail : Trail) → IsLastOf last trail
        → IsLastOf last (trail ++ None ∷ []) }
{}

/// The last writers of a trail can be counted on from a base, where its length can.
pub fn rows_count_on()
    ensures { (last : Last) (trail : Trail) (base : ℕ) → IsLastOf last trail
        → base + length trail < 2 ^ 64 → CountsFrom base last }
{}
