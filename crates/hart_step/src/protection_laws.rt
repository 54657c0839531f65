//! What physical memory protection comes to over steps.

ghost use Rattle.std.specs.Prelude.{◌≡◌, ◌<◌, ℕ, List, length};
ghost use Rattle.hart_words.specs.Memory.{Bytes};
ghost use Rattle.hart_words.specs.Signals.{Shown};
ghost use Rattle.pmp_check.specs.Covering.{NoneCovers};
ghost use Rattle.csr_file.specs.Registers.{pmp_entries_of};
ghost use Rattle.hart_step.specs.declared.state.Core.{Core};
ghost use Rattle.hart_step.specs.Cores.{IsSound};
ghost use Rattle.hart_step.specs.Laws.{next_of};
ghost use Rattle.hart_step.specs.Rows.{HartState, RunBelowMachine, after_rows};
ghost use Rattle.hart_step.specs.ProtectionLaws.{ForbidsStores, IsLockedByte, IsRefused, LocksArePreserved, LowerModesLeaveProtection, IsPreserved, RowsGoAlike, StepIsPermitted, StepsAlike};

/// No step, and so no rows, change the configuration or the address of a locked entry, nor the
/// bytes that it covers: where it begins at the address of the entry before it, that stays too.
pub fn locked_entries_are_preserved()
    ensures step { (core : Core) (shown : Shown) (bytes : Bytes)
        → LocksArePreserved core.csrs (next_of core shown bytes).csrs }
    ensures rows { (state : HartState) (rows : List Shown)
        → LocksArePreserved state.core.csrs (after_rows state rows).core.csrs }
{}

/// A step whose instruction runs in S or U leaves every entry; so do rows of which each is such.
pub fn lower_modes_leave_protection()
    ensures step { (core : Core) (shown : Shown) (bytes : Bytes)
        → LowerModesLeaveProtection core shown bytes }
    ensures rows { (state : HartState) (rows : List Shown) → RunBelowMachine state rows
        → pmp_entries_of (after_rows state rows).core.csrs ≡ pmp_entries_of state.core.csrs }
{}

/// What a step reads is, in order, what its fetch at pc reads, and then, where memory is as the
/// fetch leaves it, what its instruction asks for: the entries of page tables on the way of each
/// parcel and of each part of the access, read as by loads of S, and the own bytes of each at the
/// place that is found, in the mode that makes the access. Each read is of RAM and granted to that
/// mode. What a step writes is first entries of page tables, each 8 bytes of RAM that S may load
/// and store, which gain A, or A and D, and no more. Then it is what its instruction stores,
/// nothing or one store to each part of the access, at the places that are found, of RAM, which the
/// mode of loads and stores may store. The access that is expected of the row is the one that the
/// instruction asks for, at its address and from the place of its first part on, and this mode may
/// make it at each part.
pub fn steps_access_what_is_permitted()
    ensures { (core : Core) (shown : Shown) (bytes : Bytes) → StepIsPermitted core shown bytes }
{}

/// Rows leave each byte whose lowest-numbered covering entry is locked with W clear, where all
/// lower-numbered entries are locked too, in every mode, M among them.
pub fn locked_bytes_are_preserved()
    ensures { (state : HartState) (rows : List Shown) (byte : ℕ)
        → IsSound state.core → IsLockedByte state.core.csrs byte
        → (after_rows state rows).bytes byte ≡ state.bytes byte }
{}

/// Rows that run their instructions in S and U leave each byte that protection refuses them to
/// write: each that the lowest-numbered entry which covers it forbids to store, and each that none
/// covers.
pub fn refused_bytes_are_preserved()
    ensures refused { (state : HartState) (rows : List Shown) (byte : ℕ)
        → IsRefused state.core byte → IsPreserved state rows byte }
    ensures forbidden { (state : HartState) (rows : List Shown) (byte : ℕ)
        → IsSound state.core → ForbidsStores (pmp_entries_of state.core.csrs) byte
        → IsPreserved state rows byte }
    ensures uncovered { (state : HartState) (rows : List Shown) (byte : ℕ)
        → IsSound state.core → 0 < length (pmp_entries_of state.core.csrs)
        → NoneCovers (pmp_entries_of state.core.csrs) byte 1
        → IsPreserved state rows byte }
{}

/// In S and U nothing depends on a byte that protection refuses them: memories that agree on all
/// others give the same steps, and so do rows, one after another.
pub fn refused_bytes_decide_nothing()
    ensures step { (core : Core) (shown : Shown) (one other : Bytes)
        → StepsAlike core shown one other }
    ensures rows { (core : Core) (rows : List Shown) (one other : Bytes)
        → RowsGoAlike core rows one other }
{}
