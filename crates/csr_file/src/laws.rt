//! What holds of every write.

ghost use Rattle.std.specs.Prelude.{ℕ, ◌<◌, ◌^◌};
ghost use Rattle.csr_table.specs.declared.registers.Csr.{Csr};
ghost use Rattle.csr_file.specs.declared.csrs.Csrs.{Csrs};
ghost use Rattle.csr_file.specs.declared.profile.CsrProfile.{CsrProfile};
ghost use Rattle.csr_file.specs.declared.stored_csr.StoredCsr.{StoredCsr};
ghost use Rattle.csr_file.specs.Legal.{IsLegalValue};
ghost use Rattle.csr_file.specs.Laws.{DropsWrites, HoldsInWords, IsAsTheTable, LeavesLocked, LeavesOtherRegisters, LeavesProfile, LeavesProtection, MergesByBits};

/// A write of a register leaves every stored register but the one that it writes as it was, and
/// physical memory protection unless the register is of it.
#[tactic(auto, using(crate::proofs::Writes::leaves_registers, crate::proofs::Writes::leaves_protection))]
pub fn writes_leave_the_rest()
    ensures rest { (csrs : Csrs) (csr : Csr) (value : ℕ) → LeavesOtherRegisters csrs csr value }
    ensures protection { (csrs : Csrs) (csr : Csr) (value : ℕ) → LeavesProtection csrs csr value }
{}

/// No write changes what the core makes of its registers, and none a register that the core decides.
#[tactic(auto, using(crate::proofs::Writes::leaves_profile, crate::proofs::Writes::drops_writes))]
pub fn writes_leave_the_profile()
    ensures profile { (csrs : Csrs) (csr : Csr) (value : ℕ) → LeavesProfile csrs csr value }
    ensures drops { (csrs : Csrs) (csr : Csr) (value : ℕ) → DropsWrites csrs csr value }
{}

/// Where nothing is said, the bits that a write changes are those of the table, and so are those
/// that are always 1.
pub fn nothing_said_is_the_table()
    ensures { (stored : StoredCsr) → IsAsTheTable stored }
{}

/// A value that a register can have: an address of an instruction is even, MPP of mstatus is a
/// mode, and MODE of satp is Bare or Sv39.
#[tactic(auto, using(crate::proofs::LegalTests::in_words))]
pub fn legal_values_in_words()
    ensures { (profile : CsrProfile) (stored : StoredCsr) (value : ℕ)
        → IsLegalValue profile stored value → HoldsInWords profile stored value }
{}

/// No write changes the configuration or the address of a locked entry, nor, where it begins there,
/// the address of the entry before it.
pub fn locked_entries_stay()
    ensures { (csrs : Csrs) (csr : Csr) (value : ℕ) → LeavesLocked csrs csr value }
{}

/// What is written under a mask has its bits of the new value, and all others of the old one.
#[tactic(auto, using(crate::proofs::Bits::merges))]
pub fn merges_by_bits()
    ensures { (mask old value : ℕ) → mask < 2 ^ 64 → MergesByBits mask old value }
{}
