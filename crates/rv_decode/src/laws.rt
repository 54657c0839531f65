//! What holds of the table as a whole.

ghost use Rattle.std.specs.Prelude.{◌≡◌, ℕ, true, false};
ghost use Rattle.hart_words.specs.Tables.{MeetsOneAtMost};
ghost use Rattle.rv_decode.specs.Table.{meets, all_rows, opcodes, opcodes_with, decoded_op_of, decoded_op_with};

/// No word meets two rows of the table, with bit manipulation or without it.
pub fn rows_are_apart()
    ensures table { MeetsOneAtMost meets (all_rows opcodes) }
    ensures with_bits { MeetsOneAtMost meets (all_rows (opcodes_with true)) }
{}

/// Without bit manipulation a word means what it means in the table that is always there.
pub fn table_without_bits()
    ensures { (word : ℕ) → decoded_op_with word false ≡ decoded_op_of word }
{}
