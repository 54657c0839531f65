//! What steps by rows: a hart without its memory.

ghost use Rattle.std.specs.Prelude.{◌≡◌, ℕ, [], Decides, IfOk, OnErr, OnOk, true, false};
ghost use Rattle.hart_words.specs.Actions.{Performs};
ghost use Rattle.rvfi_rows.specs.Cells.{shown_in};
ghost use Rattle.rvfi_rows.specs.Meanings.{Meaning, TakesQuiet};
ghost use Rattle.rvfi_rows.specs.Readings.{kept_shown};

use crate::expected::Stepped;
use crate::kept_row::KeptRow;
use crate::row::Row;
use hart_words::{NoMemory, PhysMem, Wrote};

/// All of a hart but its memory, which may be shared with other harts. Every call keeps the map,
/// the choices and the range of RAM; one that memory is refused to changes nothing.
pub trait CoreStep<M: PhysMem>: Sized {
    /// What the calls mean.
    ghost meaning: { Meaning Self };

    /// What holds of every state that a step may begin from.
    ghost is_sound: { Self → Type 0 };

    /// Steps the hart by a valid row over a memory. What it did, and what it read and wrote, is put
    /// in place of what an earlier step gave: it is large, and who steps by many rows keeps one.
    /// Without memory it stays.
    fn step_into(&mut self, mem: &mut M, row: &Row, stepped: &mut Stepped) -> Result<(), NoMemory>
        requires sound { is_sound self.old }
        requires ram { M.ram mem.old ≡ (meaning.map_of self.old).ram }
        ensures stepped { OnOk result (Performs (meaning.stepped self.old (shown_in row.now))
            (record { next = self.new; expected = stepped.new.expected }) [] stepped.new.seen []
            stepped.new.wrote (M.bytes mem.old) (M.bytes mem.new)) }
        ensures err { OnErr result ((self.new ≡ self.old) × (M.bytes mem.new ≡ M.bytes mem.old)) }
        ensures kept { OnErr result (stepped.new ≡ stepped.old) }
        ensures sound { is_sound self.new }
        ensures map { meaning.map_of self.new ≡ meaning.map_of self.old }
        ensures choices { meaning.choices_of self.new ≡ meaning.choices_of self.old }
        ensures ram { M.ram mem.new ≡ M.ram mem.old };

    /// Loses the reservation where another hart wrote one of the `len` bytes from `pa` on, and it
    /// lies in the reserved block.
    fn lose(&mut self, pa: u64, len: u8)
        ensures { self.new ≡ meaning.lost self.old pa len };

    /// Whether a valid row is plain for this hart: it shows all that its instruction changes.
    fn is_plain(&self, row: &Row) -> bool
        ensures { result ≡ meaning.is_plain self.now (shown_in row.now) };

    /// Takes the state after a row from what the row shows, as it is after a plain row: the bytes
    /// of RAM that it wrote.
    fn take_shown(&mut self, mem: &mut M, row: &Row) -> Result<Wrote, NoMemory>
        requires sound { is_sound self.old }
        requires ram { M.ram mem.old ≡ (meaning.map_of self.old).ram }
        ensures taken { IfOk result (λ wrote. Performs (meaning.taken self.old (shown_in row.now))
            self.new [] [] [] wrote (M.bytes mem.old) (M.bytes mem.new)) }
        ensures err { OnErr result ((self.new ≡ self.old) × (M.bytes mem.new ≡ M.bytes mem.old)) }
        ensures sound { is_sound self.new }
        ensures map { meaning.map_of self.new ≡ meaning.map_of self.old }
        ensures choices { meaning.choices_of self.new ≡ meaning.choices_of self.old }
        ensures ram { M.ram mem.new ≡ M.ram mem.old };

    /// Where a row is plain and writes nothing, takes the state after it from what it shows; else
    /// nothing changes. Says whether it is so. It may say no of any row: those that it says yes of
    /// are passed with few looks.
    fn take_quiet(&mut self, row: &KeptRow<'_>) -> bool
        ensures taken { result ≡ true
            → TakesQuiet meaning self.old (kept_shown row.now) self.new }
        ensures kept { result ≡ false → self.new ≡ self.old }
        ensures sound { is_sound self.old → is_sound self.new }
        ensures map { meaning.map_of self.new ≡ meaning.map_of self.old }
        ensures choices { meaning.choices_of self.new ≡ meaning.choices_of self.old };

    /// Whether the other hart is the same.
    fn same(&self, other: &Self) -> bool
        ensures { Decides result (self.now ≡ other.now) };

    /// The same hart again.
    fn copy(&self) -> Result<Self, NoMemory>
        ensures { IfOk result (λ other. other ≡ self.now) };

    /// What a hart loses leaves it sound.
    ghost stays_sound: { (core : Self) (pa len : ℕ) → is_sound core
        → is_sound (meaning.lost core pa len) };

    /// What a hart loses leaves its map.
    ghost keeps_map: { (core : Self) (pa len : ℕ)
        → meaning.map_of (meaning.lost core pa len) ≡ meaning.map_of core };

    /// What a hart loses leaves its choices.
    ghost keeps_choices: { (core : Self) (pa len : ℕ)
        → meaning.choices_of (meaning.lost core pa len) ≡ meaning.choices_of core };
}
