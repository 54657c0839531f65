//! What the check amounts to, byte by byte.

ghost use Rattle.std.specs.Prelude.{ℕ, List};
ghost use Rattle.hart_words.specs.declared.privilege.Mode.{Mode};
ghost use Rattle.hart_words.specs.declared.privilege.Access.{Access};
ghost use Rattle.hart_words.specs.declared.privilege.PmpEntry.{PmpEntry};
ghost use Rattle.pmp_check.specs.declared.region.Region.{Region};
ghost use Rattle.pmp_check.specs.Laws.{AllowsBothAlike, AllowsJustPermitted, AllowsParts, ComparesEach, ComparesSome, HasJustCovered, LeastDecides, LeastRefusesPart, NoEntryAllowsAll, NoneLeavesMachine};

/// The region of an entry has just the bytes that the entry covers.
pub fn regions_are_what_entries_cover()
    ensures { (before : ℕ) (entry : PmpEntry) (a : ℕ) → HasJustCovered before entry a }
{}

/// The two comparisons with a region are of some and of every byte of an access.
pub fn comparisons_are_of_bytes()
    ensures some_byte { (region : Region) (pa len : ℕ) → ComparesSome region pa len }
    ensures each { (region : Region) (pa len : ℕ) → ComparesEach region pa len }
{}

/// The lowest-numbered entry that covers any byte of an access decides: it refuses where it does
/// not cover every byte, and else says what its rights and its lock say. Where none of the entries
/// does, M alone has access; without any entries every access is allowed.
pub fn least_entry_decides()
    ensures whole { (entries : List PmpEntry) (i : ℕ) (mode : Mode) (pa len : ℕ) (access : Access)
        → LeastDecides entries i mode pa len access }
    ensures part { (entries : List PmpEntry) (i : ℕ) (mode : Mode) (pa len : ℕ) (access : Access)
        → LeastRefusesPart entries i mode pa len access }
    ensures none { (entries : List PmpEntry) (mode : Mode) (pa len : ℕ) (access : Access)
        → NoneLeavesMachine entries mode pa len access }
    ensures no_entry { (mode : Mode) (pa len : ℕ) (access : Access)
        → NoEntryAllowsAll mode pa len access }
{}

/// An access is allowed exactly where it is granted: the lowest-numbered entry that covers any byte
/// of it covers every byte and permits it, or M makes it and no entry covers a byte of it, or there
/// are no entries.
pub fn just_what_is_permitted_is_allowed()
    ensures { (entries : List PmpEntry) (mode : Mode) (pa len : ℕ) (access : Access)
        → AllowsJustPermitted entries mode pa len access }
{}

/// Each part of an allowed access, each byte of it among them, is allowed by itself.
pub fn parts_are_allowed_with_the_whole()
    ensures { (entries : List PmpEntry) (mode : Mode) (pa len : ℕ) (access : Access)
        → AllowsParts entries mode pa len access }
{}

/// Protection does not tell S from U.
pub fn supervisor_and_user_are_allowed_alike()
    ensures { (entries : List PmpEntry) (pa len : ℕ) (access : Access)
        → AllowsBothAlike entries pa len access }
{}
