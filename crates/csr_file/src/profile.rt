//! What a core makes of its control and status registers, where the standard leaves it a choice.
//! From the Privileged Architecture's chapters "Machine-Level ISA" and "Supervisor-Level ISA".

ghost use Rattle.std.specs.Prelude.{◌≡◌, ◌≤◌, map};
ghost use Rattle.csr_file.specs.Table.{stored_csrs};
ghost use Rattle.csr_file.specs.Profiles.{added_lines_of, entry_bits_of, entry_count_of, fixed_bits, held_by, line_bits_of, plain_mask, plain_profile, presence_of, with_bits, with_presence, writable_bits};

use crate::fields::{ADDABLE_LINES, LINE_BITS};
use crate::register_row::RegisterRow;
use crate::stored_csr::{ALL_STORED, STORED_CSRS, StoredCsr};
use csr_table::Csr;

/// A register, or a range of them, that a core may have in one of several ways.
#[derive(Clone, Copy, Debug, PartialEq, Eq)]
pub enum OptionalCsr {
    Misa,
    Mcounteren,
    Menvcfg,
    Mcountinhibit,
    Mhpmevent,
    Mhpmcounter,
    Cycle,
    Time,
    Instret,
    Hpmcounter,
    Senvcfg,
    Mconfigptr,
}

/// How many of them there are.
pub const OPTIONAL_CSRS: usize = 12;

/// How a core has a register.
#[derive(Clone, Copy, Debug, PartialEq, Eq)]
pub enum Presence {
    /// As the table says.
    Kept,
    /// The core decides what a read gives, and drops writes.
    FromRow,
    /// It has none: an access is illegal.
    Absent,
    /// As the table says, where the row does not show that the access trapped.
    MayTrap,
}

/// How many entries of physical memory protection there are.
#[derive(Clone, Copy, Debug, PartialEq, Eq)]
pub enum EntryCount {
    Zero,
    Eight,
    Sixteen,
}

impl EntryCount {
    /// The number.
    pub fn number(self) -> usize
        ensures value { result ≡ entry_count_of self }
        ensures most { result ≤ 16 }
    {
        match self {
            EntryCount::Zero => 0,
            EntryCount::Eight => 8,
            EntryCount::Sixteen => 16,
        }
    }
}

/// The choices of a core for its control and status registers. A bit that a register cannot have,
/// or must have, is not for the core to choose: what is said of it counts for nothing.
#[derive(Clone, Copy, Debug, PartialEq, Eq)]
pub struct CsrProfile {
    /// By the number of a `StoredCsr`: the bits that a write changes.
    pub masks: [u64; STORED_CSRS],
    /// By the number of a `StoredCsr`: the bits that are always 1.
    pub fixed: [u64; STORED_CSRS],
    /// By the number of an `OptionalCsr`.
    pub presences: [Presence; OPTIONAL_CSRS],
    pub entry_count: EntryCount,
    /// How many low bits an address register of physical memory protection has: 54 at most.
    pub entry_bits: u8,
    /// The bits of mip that are lines and no more, beside those that always may be lines: SSIP,
    /// STIP or both.
    pub lines: u64,
}

impl CsrProfile {
    /// What stands where nothing is said.
    #[tactic(auto, unfolding(crate::specs::Profiles::plain_profile))]
    pub fn plain() -> CsrProfile
        ensures { result ≡ plain_profile }
    {
        CsrProfile {
            masks: plain_masks(&ALL_STORED),
            fixed: [0; STORED_CSRS],
            presences: [
                Presence::Kept,
                Presence::Kept,
                Presence::Kept,
                Presence::Kept,
                Presence::Kept,
                Presence::Kept,
                Presence::Kept,
                Presence::MayTrap,
                Presence::Kept,
                Presence::Kept,
                Presence::Kept,
                Presence::Kept,
            ],
            entry_count: EntryCount::Sixteen,
            entry_bits: 54,
            lines: 0,
        }
    }

    /// The same with other bits of a register: those that a write changes, and those that are
    /// always 1.
    #[tactic(auto, unfolding(crate::specs::Profiles::with_bits))]
    pub fn with_bits(mut self, stored: StoredCsr, mask: u64, fixed: u64) -> CsrProfile
        ensures { result ≡ with_bits self stored mask fixed }
    {
        self.masks[stored as usize] = mask;
        self.fixed[stored as usize] = fixed;
        self
    }

    /// The same with a register that the core has in another way. One that the core does not hold
    /// has no bit that a write changes, and none that is always 1.
    #[tactic(auto, unfolding(crate::specs::Profiles::with_presence))]
    pub fn with_presence(mut self, csr: OptionalCsr, presence: Presence) -> CsrProfile
        ensures { result ≡ with_presence self csr presence }
    {
        self.presences[csr as usize] = presence;
        match (presence, held_by(csr)) {
            (Presence::FromRow | Presence::Absent, Some(stored)) => self.with_bits(stored, 0, 0),
            _ => self,
        }
    }

    /// The bits of a stored register that a write changes.
    #[tactic(auto, unfolding(crate::specs::Profiles::writable_bits))]
    pub fn writable(&self, stored: StoredCsr) -> u64
        ensures { result ≡ writable_bits self.now stored }
    {
        let row = stored.row();
        (row.least | self.masks[stored as usize] & row.most) & !(self.lines & row.lines)
    }

    /// The bits of a stored register that are always 1.
    #[tactic(auto, unfolding(crate::specs::Profiles::fixed_bits))]
    pub fn fixed(&self, stored: StoredCsr) -> u64
        ensures { result ≡ fixed_bits self.now stored }
    {
        let row = stored.row();
        row.constant | self.fixed[stored as usize] & row.fixable & !self.writable(stored)
    }

    /// The bits of mip that may be lines from outside.
    pub fn line_bits(&self) -> u64
        ensures { result ≡ line_bits_of self.now }
    {
        LINE_BITS | self.added_lines()
    }

    /// How the core has a register.
    #[tactic(auto, unfolding(crate::specs::Profiles::presence_of))]
    pub fn presence(&self, csr: Csr) -> Presence
        ensures { result ≡ presence_of self.now csr }
    {
        match RegisterRow::of(csr).optional {
            None => Presence::Kept,
            Some(optional) => self.presences[optional as usize],
        }
    }

    /// How many low bits an address register of physical memory protection has.
    pub fn entry_bits(&self) -> u8
        ensures value { result ≡ entry_bits_of self.now }
        ensures most { result ≤ 54 }
    {
        self.entry_bits.min(54)
    }

    /// The bits of mip that are lines and no more.
    fn added_lines(&self) -> u64
        ensures { result ≡ added_lines_of self.now }
    {
        self.lines & ADDABLE_LINES
    }
}

/// The bits that a write of each register changes where nothing is said.
fn plain_masks(all: &[StoredCsr; STORED_CSRS]) -> [u64; STORED_CSRS]
    requires { all.now ≡ stored_csrs }
    ensures { result ≡ map plain_mask stored_csrs }
{
    let mut masks = [0; STORED_CSRS];
    for i in 0..STORED_CSRS {
        masks[i] = all[i].row().plain;
    }
    masks
}

/// Which of the stored registers a register is.
fn held_by(csr: OptionalCsr) -> Option<StoredCsr>
    ensures { result ≡ held_by csr }
{
    match csr {
        OptionalCsr::Mcounteren => Some(StoredCsr::Mcounteren),
        OptionalCsr::Menvcfg => Some(StoredCsr::Menvcfg),
        OptionalCsr::Mcountinhibit => Some(StoredCsr::Mcountinhibit),
        OptionalCsr::Senvcfg => Some(StoredCsr::Senvcfg),
        _ => None,
    }
}
