//! The entries of page tables that a step sets.

ghost use Rattle.std.specs.Prelude.{◌≡◌, ◌<◌, ◌/◌, ◌%◌, ◌^◌, ◌++◌, [], ◌∷◌, All, Decides, length, unwrap_or};
ghost use Rattle.hart_words.specs.EntryWrites.{IsEntryWrite};
ghost use Rattle.hart_words.specs.Memory.{Bytes, number_at, is_within, after_writes};

use crate::accesses::Write;
use arrayvec::ArrayVec;
use std::marker::Model;

/// The most entries that a step sets: of a fetch two, and of a data access two.
pub const MOST_SETS: usize = 4;

/// The bytes of an entry of a page table.
const ENTRY_BYTES: u8 = 8;

/// The entries of page tables that a step sets, in their order: for each its address, a multiple of
/// 8, and its new 8 bytes. They are not in memory before the step ends; who reads memory within the
/// step asks here first.
#[derive(Debug, Drop)]
pub struct Sets {
    entries: ArrayVec<Write, MOST_SETS>,
}

impl Model for Sets {
    ghost use Rattle.std.specs.Prelude.{List, All, ◌≤◌, length};
    ghost use Rattle.hart_words.specs.declared.accesses.Write.{Write};
    ghost use Rattle.hart_words.specs.declared.sets.TheConstants.{MOST_SETS};
    ghost use Rattle.hart_words.specs.EntryWrites.{IsEntryWrite};

    ghost Value = { List Write };

    ghost view = { λ sets. sets.entries.items };

    ghost invariant = { λ sets.
        (length sets.entries.items ≤ MOST_SETS) × All IsEntryWrite sets.entries.items };
}

impl Sets {
    ghost use Rattle.hart_words.specs.EntryWrites.{entry_write};

    /// No entry yet.
    pub fn empty() -> Sets
        ensures { result ≡ [] }
    {
        Sets {
            entries: ArrayVec::new(),
        }
    }

    /// Whether no entry is set.
    pub fn is_empty(&self) -> bool
        ensures { Decides result (self.now ≡ []) }
    {
        self.entries.is_empty()
    }

    /// Notes that the entry at `pa` becomes this one, where there is room for it.
    pub fn put(&mut self, pa: u64, entry: u64)
        requires room { length self.old < MOST_SETS }
        requires aligned { pa % 8 ≡ 0 }
        ensures { self.new ≡ self.old ++ entry_write pa entry ∷ [] }
    {
        self.entries.push(Write {
            pa,
            len: ENTRY_BYTES,
            value: entry,
        });
    }

    /// The entries in their order, as writes.
    pub fn as_slice(&self) -> &[Write]
        ensures { result.now ≡ self.now }
    {
        self.entries.as_slice()
    }

    /// The entry at `pa` where it was set, the last time that it was.
    pub fn entry(&self, pa: u64) -> Option<u64>
        requires { pa % 8 ≡ 0 }
        ensures { (bytes : Bytes) → number_at (after_writes self.now bytes) pa 8
            ≡ unwrap_or result (number_at bytes pa 8) }
    {
        last_entry(self.entries.as_slice(), pa)
    }

    /// The byte at `pa` where it is one of an entry that was set, the last time that it was.
    pub fn byte(&self, pa: u64) -> Option<u8>
        ensures { (bytes : Bytes) → after_writes self.now bytes pa ≡ unwrap_or result (bytes pa) }
    {
        last_byte(self.entries.as_slice(), pa)
    }
}

/// The number that the last write at `pa` puts there.
fn last_entry(writes: &[Write], pa: u64) -> Option<u64>
    requires aligned { pa % 8 ≡ 0 }
    requires entries { All IsEntryWrite writes.now }
    ensures { (bytes : Bytes) → number_at (after_writes writes.now bytes) pa 8
        ≡ unwrap_or result (number_at bytes pa 8) }
{
    let mut found = None;
    for write in writes {
        if write.pa == pa {
            found = Some(write.value);
        }
    }
    found
}

/// The byte that the last write over `pa` puts there.
fn last_byte(writes: &[Write], pa: u64) -> Option<u8>
    requires { All IsEntryWrite writes.now }
    ensures { (bytes : Bytes) → after_writes writes.now bytes pa ≡ unwrap_or result (bytes pa) }
{
    let mut found = None;
    for write in writes {
        if is_over(write, pa) {
            found = Some(byte_of(write.value, pa - write.pa));
        }
    }
    found
}

/// Whether the byte at `pa` is one of the entry's.
fn is_over(write: &Write, pa: u64) -> bool
    ensures { result ≡ is_within write.now.pa 8 pa }
{
    write.pa <= pa && pa - write.pa < u64::from(ENTRY_BYTES)
}

/// A byte of a number, by its place from the lowest on, below 8.
#[tactic(auto, using(crate::proofs::Powers::bits_of_bytes))]
fn byte_of(value: u64, place: u64) -> u8
    requires { place < 8 }
    ensures { result ≡ value / 256 ^ place % 256 }
{
    ((value >> (8 * place)) % 256) as u8
}
