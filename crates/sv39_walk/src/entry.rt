//! What one entry of a page table says. From the Privileged Architecture's chapter
//! "Supervisor-Level ISA".

ghost use Rattle.std.specs.Prelude.{◌≡◌, ◌+◌, ◌%◌, ◌<◌, ◌≤◌, ◌^◌, ◌&&◌};
ghost use Rattle.hart_words.specs.declared.span.TheConstants.{PAGE_SIZE};
ghost use Rattle.sv39_walk.specs.Entries.{address_in, bit_of, entry_address, is_canonical, is_leaf, is_link, is_marked, is_meaningless, is_open_to, is_pointer, is_set, leads_on, leaf_allows, leaf_permits, with_marks, marks_of, page_number, page_size};

use hart_words::{Access, Cause, Mode, PAGE_SIZE, WalkFlags};

/// The bits of an offset in a page of the lowest level.
pub const OFFSET_BITS: u32 = 12;

/// The bits of a virtual address for each level.
pub const INDEX_BITS: u32 = 9;

/// The entries of a table, and the bytes of one.
pub const ENTRIES: u64 = 512;

pub const ENTRY_SIZE: u8 = 8;

/// The level of the table that satp names.
pub const TOP_LEVEL: u32 = 2;

/// The lowest bit of an entry's page number, and how many bits it has.
pub const NUMBER_BIT: u32 = 10;

pub const NUMBER_BITS: u32 = 44;

/// The lowest of the reserved bits at the top of an entry.
pub const RESERVED_BIT: u32 = 54;

/// The bits of a virtual address that are translated; those above equal the last of them.
pub const ADDRESS_BITS: u32 = 39;

const SIGN_BIT: u32 = ADDRESS_BITS - 1;

const SIGN: u64 = (1 << (64 - ADDRESS_BITS)) - 1;

/// The bits V, R, W, X, U, A and D of an entry.
#[derive(Clone, Copy, Debug)]
pub enum Flag {
    Valid = 0,
    Readable = 1,
    Writable = 2,
    Executable = 3,
    ForUser = 4,
    Accessed = 6,
    Dirty = 7,
}

/// The place of a bit.
fn bit_of(flag: Flag) -> u32
    ensures value { result ≡ bit_of flag }
    ensures bound { result < 8 }
{
    flag as u32
}

/// The bits that an access needs to be set: A, and D for a store.
fn marks_of(access: Access) -> u64
    ensures { result ≡ marks_of access }
{
    let accessed = 1 << bit_of(Flag::Accessed);
    match access {
        Access::Fetch | Access::Load => accessed,
        Access::Store => accessed + (1 << bit_of(Flag::Dirty)),
    }
}

/// An entry of a page table.
#[derive(Clone, Copy, Debug)]
pub struct Entry {
    bits: u64,
}

impl Entry {
    /// The entry of 8 bytes that this number is.
    pub fn new(bits: u64) -> Entry
        ensures { result.bits ≡ bits }
    {
        Entry { bits }
    }

    /// Whether a bit is 1.
    #[tactic(auto, unfolding(crate::specs::Entries::is_set))]
    fn is_set(self, flag: Flag) -> bool
        ensures { result ≡ is_set self.bits flag }
    {
        (self.bits >> bit_of(flag)) % 2 == 1
    }

    /// The physical page number.
    pub fn page_number(self) -> u64
        ensures value { result ≡ page_number self.bits }
        ensures bound { result < 2 ^ NUMBER_BITS }
    {
        (self.bits >> NUMBER_BIT) % (1 << NUMBER_BITS)
    }

    /// Whether the entry means nothing: a page fault at every level.
    #[tactic(auto, unfolding(crate::specs::Entries::is_meaningless))]
    fn is_meaningless(self) -> bool
        ensures { result ≡ is_meaningless self.bits }
    {
        !self.is_set(Flag::Valid)
            || (self.is_set(Flag::Writable) && !self.is_set(Flag::Readable))
            || self.bits >> RESERVED_BIT != 0
    }

    /// Whether the entry names a table and not a page.
    #[tactic(auto, unfolding(crate::specs::Entries::is_pointer))]
    fn is_pointer(self) -> bool
        ensures { result ≡ is_pointer self.bits }
    {
        !self.is_set(Flag::Readable) && !self.is_set(Flag::Executable)
    }

    /// Whether the entry leads to the table of the next level.
    #[tactic(auto, unfolding(crate::specs::Entries::is_link))]
    fn is_link(self) -> bool
        ensures { result ≡ is_link self.bits }
    {
        !self.is_meaningless()
            && self.is_pointer()
            && !self.is_set(Flag::Accessed)
            && !self.is_set(Flag::Dirty)
            && !self.is_set(Flag::ForUser)
    }

    /// Whether a walk that reads the entry at a level goes on to the table that it names.
    pub fn leads_on(self, level: u32) -> bool
        ensures { result ≡ leads_on level self.bits }
    {
        level > 0 && self.is_link()
    }

    /// Whether the page has the right that the access needs.
    fn leaf_permits(self, mxr: bool, access: Access) -> bool
        ensures { result ≡ leaf_permits mxr access self.bits }
    {
        match access {
            Access::Fetch => self.is_set(Flag::Executable),
            Access::Load => self.is_set(Flag::Readable) || (mxr && self.is_set(Flag::Executable)),
            Access::Store => self.is_set(Flag::Writable),
        }
    }

    /// Whether the page is open to the mode.
    fn is_open_to(self, mode: Mode, sum: bool, access: Access) -> bool
        ensures { result ≡ is_open_to mode sum access self.bits }
    {
        match (mode, access) {
            (Mode::User, _) => self.is_set(Flag::ForUser),
            (_, Access::Fetch) => !self.is_set(Flag::ForUser),
            (_, Access::Load | Access::Store) => !self.is_set(Flag::ForUser) || sum,
        }
    }

    /// Whether A is set, and D for a store.
    pub fn is_marked(self, access: Access) -> bool
        ensures { result ≡ is_marked access self.bits }
    {
        match access {
            Access::Fetch | Access::Load => self.is_set(Flag::Accessed),
            Access::Store => self.is_set(Flag::Accessed) && self.is_set(Flag::Dirty),
        }
    }

    /// The entry with A set, and for a store D.
    #[tactic(auto, unfolding(crate::specs::Entries::with_marks))]
    pub fn with_marks(self, access: Access) -> u64
        ensures { result ≡ with_marks access self.bits }
    {
        self.bits | marks_of(access)
    }

    /// Whether the entry is a page of this level that allows the access, whatever A and D are.
    #[tactic(auto, unfolding(crate::specs::Entries::leaf_allows, crate::specs::Entries::is_leaf))]
    pub fn leaf_allows(self, level: u32, flags: WalkFlags, access: Access) -> bool
        requires { level ≤ TOP_LEVEL }
        ensures { result ≡ (is_leaf self.bits && leaf_allows level flags access self.bits) }
    {
        !self.is_meaningless()
            && !self.is_pointer()
            && self.leaf_permits(flags.mxr, access)
            && self.is_open_to(flags.mode, flags.sum, access)
            && PAGE_SIZE * self.page_number() % page_size(level) == 0
    }

    /// The physical address of `va` in the page.
    pub fn address_in(self, level: u32, va: u64) -> u64
        requires { level ≤ TOP_LEVEL }
        ensures { result ≡ address_in level self.bits va }
    {
        PAGE_SIZE * self.page_number() + va % page_size(level)
    }
}

/// The bytes of a page at a level.
#[tactic(auto, using(std::proofs::lemmas::Nat::one_shl, std::proofs::lemmas::Nat::pow_pos, crate::proofs::Sizes::at_most_giga), unfolding(crate::specs::Entries::page_size))]
fn page_size(level: u32) -> u64
    requires { level ≤ TOP_LEVEL }
    ensures value { result ≡ page_size level }
    ensures positive { 0 < result }
    ensures bound { result ≤ 2 ^ 30 }
{
    1 << (OFFSET_BITS + INDEX_BITS * level)
}

/// Where the entry for `va` stands in the table of a level, by the table's page number.
#[tactic(auto, unfolding(crate::specs::Entries::entry_address))]
pub fn entry_address(level: u32, table: u64, va: u64) -> u64
    requires levels { level ≤ TOP_LEVEL }
    requires bound { table < 2 ^ NUMBER_BITS }
    ensures value { result ≡ entry_address level table va }
    ensures aligned { result % ENTRY_SIZE ≡ 0 }
{
    let index = (va >> (OFFSET_BITS + INDEX_BITS * level)) % ENTRIES;
    PAGE_SIZE * table + u64::from(ENTRY_SIZE) * index
}

/// Whether the bits above those that are translated equal the last of them.
#[tactic(auto, unfolding(crate::specs::Entries::is_canonical))]
pub fn is_canonical(va: u64) -> bool
    ensures { result ≡ is_canonical va }
{
    va >> ADDRESS_BITS == SIGN * ((va >> SIGN_BIT) % 2)
}
