//! What a step reads from memory and writes to it.

ghost use Rattle.std.specs.Prelude.{◌≡◌, ◌<◌, ◌≤◌, ◌+◌, ◌++◌, [], ◌∷◌, List, length};
ghost use Rattle.hart_words.specs.declared.accesses.Read.{Read};
ghost use Rattle.hart_words.specs.declared.accesses.Write.{Write};

use arrayvec::ArrayVec;
use std::marker::Model;

/// The most reads of one step: those of a fetch, of a data access, and room for what comes.
pub const MOST_READS: usize = 24;

/// The most writes of one step.
pub const MOST_WRITES: usize = 8;

/// So many bytes of physical memory that were read, from an address on.
#[derive(Clone, Copy, Debug, Default, PartialEq, Eq)]
pub struct Read {
    pub pa: u64,
    pub len: u8,
}

/// So many bytes of physical memory that were written from an address on: those of a number,
/// little-endian.
#[derive(Clone, Copy, Debug, Default, PartialEq, Eq)]
pub struct Write {
    pub pa: u64,
    pub len: u8,
    pub value: u64,
}

/// The physical reads of one step, in their order.
#[derive(Debug, Drop)]
pub struct Seen {
    reads: ArrayVec<Read, MOST_READS>,
}

impl Model for Seen {
    ghost use Rattle.std.specs.Prelude.{List, ◌≤◌, length};
    ghost use Rattle.hart_words.specs.declared.accesses.Read.{Read};
    ghost use Rattle.hart_words.specs.declared.accesses.TheConstants.{MOST_READS};

    ghost Value = { List Read };

    ghost view = { λ seen. seen.reads.items };

    ghost invariant = { λ seen. length seen.reads.items ≤ MOST_READS };
}

impl Seen {
    /// No read yet.
    pub fn empty() -> Seen
        ensures { result ≡ [] }
    {
        Seen {
            reads: ArrayVec::new(),
        }
    }

    /// Notes a read, where there is room for it.
    pub fn put(&mut self, pa: u64, len: u8)
        requires { length self.old < MOST_READS }
        ensures { self.new ≡ self.old ++ record { pa = pa; len = len } ∷ [] }
    {
        self.reads.push(Read { pa, len });
    }

    /// Becomes the same as another.
    pub fn copy_from(&mut self, other: &Seen)
        ensures { self.new ≡ other.now }
    {
        self.clear();
        self.put_all(other.reads.as_slice());
    }

    /// Notes reads after those that are noted, where there is room for them.
    pub fn put_all(&mut self, reads: &[Read])
        requires { length self.old + length reads.now ≤ MOST_READS }
        ensures { self.new ≡ self.old ++ reads.now }
    {
        for read in reads {
            self.put(read.pa, read.len);
        }
    }

    /// Has no read any more.
    pub fn clear(&mut self)
        ensures { self.new ≡ [] }
    {
        self.reads.clear();
    }

    /// The reads in their order.
    pub fn as_slice(&self) -> &[Read]
        ensures { result.now ≡ self.now }
    {
        self.reads.as_slice()
    }
}

/// The writes of one step, in their order.
#[derive(Debug, Drop)]
pub struct Wrote {
    writes: ArrayVec<Write, MOST_WRITES>,
}

impl Model for Wrote {
    ghost use Rattle.std.specs.Prelude.{List, ◌≤◌, length};
    ghost use Rattle.hart_words.specs.declared.accesses.Write.{Write};
    ghost use Rattle.hart_words.specs.declared.accesses.TheConstants.{MOST_WRITES};

    ghost Value = { List Write };

    ghost view = { λ wrote. wrote.writes.items };

    ghost invariant = { λ wrote. length wrote.writes.items ≤ MOST_WRITES };
}

impl Wrote {
    /// No write yet.
    pub fn empty() -> Wrote
        ensures { result ≡ [] }
    {
        Wrote {
            writes: ArrayVec::new(),
        }
    }

    /// Notes a write, where there is room for it.
    pub fn put(&mut self, pa: u64, len: u8, value: u64)
        requires { length self.old < MOST_WRITES }
        ensures { self.new ≡ self.old ++ record { pa = pa; len = len; value = value } ∷ [] }
    {
        self.writes.push(Write { pa, len, value });
    }

    /// Becomes the same as another.
    pub fn copy_from(&mut self, other: &Wrote)
        ensures { self.new ≡ other.now }
    {
        self.clear();
        self.put_all(other.writes.as_slice());
    }

    /// Notes writes after those that are noted, where there is room for them.
    pub fn put_all(&mut self, writes: &[Write])
        requires { length self.old + length writes.now ≤ MOST_WRITES }
        ensures { self.new ≡ self.old ++ writes.now }
    {
        for write in writes {
            self.put(write.pa, write.len, write.value);
        }
    }

    /// Has no write any more.
    pub fn clear(&mut self)
        ensures { self.new ≡ [] }
    {
        self.writes.clear();
    }

    /// The writes in their order.
    pub fn as_slice(&self) -> &[Write]
        ensures { result.now ≡ self.now }
    {
        self.writes.as_slice()
    }
}
