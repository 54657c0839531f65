//! What holds of the table as a whole.

ghost use Rattle.hart_words.specs.Tables.{MeetsOneAtMost};
ghost use Rattle.csr_table.specs.Addresses.{csr_ranges, lists};

/// No address is in two ranges of the table.
#[tactic(auto, using(crate::proofs::Apart::ranges_apart))]
pub fn no_address_is_listed_twice()
    ensures { MeetsOneAtMost lists csr_ranges }
{}
