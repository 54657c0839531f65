//! The table of the stored registers. From the Privileged Architecture's chapters "Machine-Level
//! ISA" and "Supervisor-Level ISA".

ghost use Rattle.std.specs.Prelude.{◌≡◌, ◌==◌, not};
ghost use Rattle.csr_file.specs.Table.{chosen, held, stored_row_of};

use crate::fields::STATUS_CONSTANT;
use crate::stored_csr::StoredCsr;

/// What holds of a field of a register's values, beside the bits that no write changes.
#[derive(Clone, Copy, Debug, PartialEq, Eq)]
pub enum FieldRule {
    Free,
    /// MPP of mstatus is a mode.
    PreviousMode,
    /// MODE of satp is one that the hart has.
    TranslationMode,
}

/// A row of the table: what a core may make of a register's bits, and which values it can have.
#[derive(Clone, Copy, Debug, PartialEq, Eq)]
pub struct StoredRow {
    /// The bits that a write changes where nothing is said.
    pub plain: u64,
    /// The bits that a core may let writes change.
    pub most: u64,
    /// The bits that it must let them change.
    pub least: u64,
    /// The bits that it may have as 1 always.
    pub fixable: u64,
    /// The bits that are always 1 on every core.
    pub constant: u64,
    /// The bits that a core may have as lines from outside, which are not stored then.
    pub lines: u64,
    pub rule: FieldRule,
}

impl StoredCsr {
    /// The register's row.
    pub fn row(self) -> StoredRow
        ensures { result ≡ stored_row_of self }
    {
        match self {
            StoredCsr::Mstatus => StoredRow {
                constant: STATUS_CONSTANT,
                rule: FieldRule::PreviousMode,
                ..chosen(0x7E_19AA, 0x7E_7FAA, 0x19AA, 0x6600)
            },
            StoredCsr::Medeleg => chosen(0xB3FF, u64::MAX, 0, u64::MAX),
            StoredCsr::Mideleg => chosen(0x222, !0xDDD, 0, !0xDDD),
            StoredCsr::Mie => chosen(0xAAA, !0x555, 0, 0),
            StoredCsr::Mtvec | StoredCsr::Stvec => chosen(!2, !2, !0xFFF, 0),
            StoredCsr::Mcounteren => chosen(7, 0xFFFF_FFFF, 0, 0xFFFF_FFFF),
            StoredCsr::Scounteren => chosen(7, 0xFFFF_FFFF, 0, 0xFFFF_FFFF),
            StoredCsr::Mcountinhibit => chosen(5, 0xFFFF_FFFD, 0, 0xFFFF_FFFD),
            StoredCsr::Menvcfg | StoredCsr::Senvcfg => chosen(1, u64::MAX, 0, u64::MAX),
            StoredCsr::Mepc | StoredCsr::Sepc => held(!1),
            StoredCsr::Mscratch | StoredCsr::Mcause | StoredCsr::Mtval => held(u64::MAX),
            StoredCsr::Sscratch | StoredCsr::Scause | StoredCsr::Stval => held(u64::MAX),
            StoredCsr::Mip => StoredRow {
                lines: 0x22,
                ..held(0x222)
            },
            StoredCsr::Satp => StoredRow {
                rule: FieldRule::TranslationMode,
                ..chosen(u64::MAX, u64::MAX, 0xF000_0000_0000_0000, 0)
            },
        }
    }
}

impl StoredRow {
    /// Whether a core chooses the register's bits.
    pub fn is_chosen(&self) -> bool
        ensures { result ≡ not (self.now.most == self.now.least) }
    {
        self.most != self.least
    }
}

/// The row of a register whose bits no core chooses: a write changes those of the mask.
fn held(mask: u64) -> StoredRow
    ensures { result ≡ held mask }
{
    StoredRow {
        plain: mask,
        most: mask,
        least: mask,
        fixable: 0,
        constant: 0,
        lines: 0,
        rule: FieldRule::Free,
    }
}

/// The row of one whose bits a core chooses.
fn chosen(plain: u64, most: u64, least: u64, fixable: u64) -> StoredRow
    ensures { result ≡ chosen plain most least fixable }
{
    StoredRow {
        plain,
        most,
        least,
        fixable,
        constant: 0,
        lines: 0,
        rule: FieldRule::Free,
    }
}
