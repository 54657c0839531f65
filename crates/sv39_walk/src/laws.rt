//! What a translation amounts to, by the entries that it comes to.

ghost use Rattle.std.specs.Prelude.{ℕ, Bool, List};
ghost use Rattle.hart_words.specs.declared.privilege.Access.{Access};
ghost use Rattle.hart_words.specs.declared.privilege.WalkFlags.{WalkFlags};
ghost use Rattle.hart_words.specs.Memory.{Bytes};
ghost use Rattle.sv39_walk.specs.Entries.{Tables};
ghost use Rattle.sv39_walk.specs.Walk.{Visit};
ghost use Rattle.sv39_walk.specs.Laws.{ChainIsEmpty, ChainIsWalk, GainsItsMarks, HasPageNumber, IsByChain, KeepsOffset, RefusesWritableAlone, SetsItsLast, WalkIsChain, WritesAtMostOne, WritesNoneUnderFault};

/// A translation gives what the last entry of its chain decides, reads the entries of the chain
/// that can be read, each once and in their order, and writes none but the last.
pub fn translation_is_by_its_chain()
    ensures { (tables : Tables) (bytes : Bytes) (satp : ℕ) (flags : WalkFlags) (va : ℕ)
        (access : Access) → IsByChain tables bytes satp flags va access }
{}

/// An entry that is set gains A, and for a store D, and no other bit.
pub fn entry_gains_its_marks()
    ensures { (access : Access) (entry : ℕ) → GainsItsMarks access entry }
{}

/// A translation writes at most one entry: the last of its chain, where that may be set, is a page
/// that allows the access and lacks A, or for a store D, and the hart sets them. Where it does not
/// set them nothing is written.
pub fn translation_sets_its_last_entry()
    ensures one { (tables : Tables) (bytes : Bytes) (satp : ℕ) (flags : WalkFlags) (va : ℕ)
        (access : Access) → WritesAtMostOne tables bytes satp flags va access }
    ensures last { (tables : Tables) (bytes : Bytes) (satp : ℕ) (flags : WalkFlags) (va : ℕ)
        (access : Access) → SetsItsLast tables bytes satp flags va access }
    ensures none { (tables : Tables) (bytes : Bytes) (satp : ℕ) (flags : WalkFlags) (va : ℕ)
        (access : Access) → WritesNoneUnderFault tables bytes satp flags va access }
{}

/// An entry that is writable and not readable is a page fault of every access that comes to it, at
/// every level, whatever its other bits are: it is reserved, and neither a page nor a pointer.
pub fn writable_alone_is_refused()
    ensures { (tables : Tables) (bytes : Bytes) (satp : ℕ) (flags : WalkFlags) (va : ℕ)
        (access : Access) → RefusesWritableAlone tables bytes satp flags va access }
{}

/// The chain of an address that extends its low 39 bits is the walk from level 2 on, in the table
/// that satp names: at most three entries, each but the last one that can be read and that names
/// the table of the next. Every such walk is the chain.
pub fn chain_is_the_walk()
    ensures walk { (readable : ℕ → Bool) (bytes : Bytes) (satp va : ℕ)
        → ChainIsWalk readable bytes satp va }
    ensures unique { (readable : ℕ → Bool) (bytes : Bytes) (satp va : ℕ) (visits : List Visit)
        → WalkIsChain readable bytes satp va visits }
    ensures none { (readable : ℕ → Bool) (bytes : Bytes) (satp va : ℕ)
        → ChainIsEmpty readable bytes satp va }
{}

/// The address in a page has the low bits of the virtual address, 12 and 9 for each level, and
/// above them those of the page number.
pub fn address_has_both_parts()
    ensures low { (level entry va : ℕ) → KeepsOffset level entry va }
    ensures high { (level entry va : ℕ) → HasPageNumber level entry va }
{}
