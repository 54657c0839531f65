//! What the footprint of rows is good for: memories that agree on it are read alike, row by row,
//! and what rows write goes over from one such memory to the other.

ghost use Rattle.std.specs.Prelude.{◌≡◌, ℕ, Bool, true, not, ◌&&◌, ◌||◌, List, ◌∷◌, ◌++◌};
ghost use Rattle.hart_words.specs.Memory.{AgreeOn, Bytes, after_writes};
ghost use Rattle.read_footprint.specs.Footprints.{Accesses, agree, footprint_of, is_written, moved, writes_of};
ghost use Rattle.read_footprint.specs.Sets.{has_address};

/// Memories that agree on the footprint of rows agree on what the first of them reads.
pub fn the_first_row_reads_alike()
    ensures { (one other : Bytes) (row : Accesses) (rows : List Accesses)
        → agree one other (footprint_of (row ∷ rows)) ≡ true → AgreeOn row.reads one other }
{}

/// After the writes of the first row they agree on the footprint of the other rows.
pub fn agreement_goes_on()
    ensures { (one other : Bytes) (row : Accesses) (rows : List Accesses)
        → agree one other (footprint_of (row ∷ rows)) ≡ true
        → agree (after_writes row.wrote one) (after_writes row.wrote other) (footprint_of rows)
        ≡ true }
{}

/// What rows wrote to a memory is what is moved from any other memory to which they wrote it.
pub fn what_was_written_is_moved()
    ensures { (one other : Bytes) (rows : List Accesses) → after_writes (writes_of rows) other
        ≡ moved (writes_of rows) (after_writes (writes_of rows) one) other }
{}

/// The writes of rows are written row by row.
pub fn writes_go_row_by_row()
    ensures { (bytes : Bytes) (row : Accesses) (rows : List Accesses)
        → after_writes (writes_of (row ∷ rows)) bytes
        ≡ after_writes (writes_of rows) (after_writes row.wrote bytes) }
{}

/// The footprint of rows and more rows has that of the first, and what of the others' the first did
/// not write.
pub fn footprints_join()
    ensures { (rows more : List Accesses) (address : ℕ)
        → has_address (footprint_of (rows ++ more)) address
        ≡ (has_address (footprint_of rows) address || (has_address (footprint_of more) address
        && not (is_written (writes_of rows) address))) }
{}
