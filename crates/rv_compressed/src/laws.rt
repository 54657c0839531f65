//! What holds of the table as a whole.

ghost use Rattle.hart_words.specs.Tables.{MeetsOneAtMost};
ghost use Rattle.rv_compressed.specs.Patterns.{meets};
ghost use Rattle.rv_compressed.specs.Table.{table};

/// No parcel meets two rows of the table.
pub fn rows_are_apart()
    ensures { MeetsOneAtMost meets table }
{}
