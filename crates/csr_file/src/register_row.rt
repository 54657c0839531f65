//! The table of the registers that have an address. From the Privileged Architecture's chapters
//! "Machine-Level ISA" and "Supervisor-Level ISA".

ghost use Rattle.std.specs.Prelude.{◌≡◌};
ghost use Rattle.csr_file.specs.declared.csr_kind.CsrKind.TheVariants.{Stored};
ghost use Rattle.csr_file.specs.Table.{optional_row, plain_row, register_row_of};

use crate::csr_kind::CsrKind;
use crate::fields::{CY, IR, TM};
use crate::profile::OptionalCsr;
use crate::stored_csr::StoredCsr;
use csr_table::Csr;

/// misa: 64 bits, and the extensions A, C, I, M, S and U.
const MISA: u64 = 0x8000_0000_0014_1105;

/// A row of the table.
#[derive(Clone, Copy, Debug)]
pub struct RegisterRow {
    /// What the register is, where the core has it as the standard says.
    pub kind: CsrKind,
    /// Which it is of those that a core may have in several ways.
    pub optional: Option<OptionalCsr>,
}

impl RegisterRow {
    /// The row of a register.
    pub fn of(csr: Csr) -> RegisterRow
        ensures { result ≡ register_row_of csr }
    {
        match csr {
            Csr::Mstatus => plain(CsrKind::Status),
            Csr::Misa => optional(CsrKind::Constant(MISA), OptionalCsr::Misa),
            Csr::Medeleg => stored(StoredCsr::Medeleg),
            Csr::Mideleg => stored(StoredCsr::Mideleg),
            Csr::Mie => stored(StoredCsr::Mie),
            Csr::Mtvec => stored(StoredCsr::Mtvec),
            Csr::Mcounteren => optional_stored(StoredCsr::Mcounteren, OptionalCsr::Mcounteren),
            Csr::Menvcfg => optional_stored(StoredCsr::Menvcfg, OptionalCsr::Menvcfg),
            Csr::Mcountinhibit => {
                optional_stored(StoredCsr::Mcountinhibit, OptionalCsr::Mcountinhibit)
            }
            Csr::Mhpmevent(_) => optional(CsrKind::Constant(0), OptionalCsr::Mhpmevent),
            Csr::Mscratch => stored(StoredCsr::Mscratch),
            Csr::Mepc => stored(StoredCsr::Mepc),
            Csr::Mcause => stored(StoredCsr::Mcause),
            Csr::Mtval => stored(StoredCsr::Mtval),
            Csr::Mip => plain(CsrKind::Pending),
            Csr::Pmpcfg0 => plain(CsrKind::LowConfigurations),
            Csr::Pmpcfg2 => plain(CsrKind::HighConfigurations),
            Csr::Pmpaddr(number) => plain(CsrKind::EntryAddress(number)),
            Csr::Sstatus => plain(CsrKind::SupervisorStatus),
            Csr::Sie => plain(CsrKind::SupervisorEnables),
            Csr::Stvec => stored(StoredCsr::Stvec),
            Csr::Scounteren => stored(StoredCsr::Scounteren),
            Csr::Senvcfg => optional_stored(StoredCsr::Senvcfg, OptionalCsr::Senvcfg),
            Csr::Sscratch => stored(StoredCsr::Sscratch),
            Csr::Sepc => stored(StoredCsr::Sepc),
            Csr::Scause => stored(StoredCsr::Scause),
            Csr::Stval => stored(StoredCsr::Stval),
            Csr::Sip => plain(CsrKind::SupervisorPending),
            Csr::Satp => plain(CsrKind::Translation),
            Csr::Mcycle | Csr::Minstret => plain(CsrKind::ImplementationDefined),
            Csr::Mhpmcounter(_) => {
                optional(CsrKind::ImplementationDefined, OptionalCsr::Mhpmcounter)
            }
            Csr::Cycle => optional(CsrKind::Counter(CY), OptionalCsr::Cycle),
            Csr::Time => optional(CsrKind::Counter(TM), OptionalCsr::Time),
            Csr::Instret => optional(CsrKind::Counter(IR), OptionalCsr::Instret),
            Csr::Hpmcounter(number) => optional(CsrKind::Counter(number), OptionalCsr::Hpmcounter),
            Csr::Mvendorid | Csr::Marchid => plain(CsrKind::ImplementationDefined),
            Csr::Mimpid | Csr::Mhartid => plain(CsrKind::ImplementationDefined),
            Csr::Mconfigptr => optional(CsrKind::ImplementationDefined, OptionalCsr::Mconfigptr),
        }
    }
}

/// The row of a register that every core has alike.
fn plain(kind: CsrKind) -> RegisterRow
    ensures { result ≡ plain_row kind }
{
    RegisterRow {
        kind,
        optional: None,
    }
}

/// The row of one that a core may have in several ways.
fn optional(kind: CsrKind, csr: OptionalCsr) -> RegisterRow
    ensures { result ≡ optional_row kind csr }
{
    RegisterRow {
        kind,
        optional: Some(csr),
    }
}

/// The same of a register that reads as what is stored.
fn stored(stored: StoredCsr) -> RegisterRow
    ensures { result ≡ plain_row (Stored stored) }
{
    plain(CsrKind::Stored(stored))
}

fn optional_stored(stored: StoredCsr, csr: OptionalCsr) -> RegisterRow
    ensures { result ≡ optional_row (Stored stored) csr }
{
    optional(CsrKind::Stored(stored), csr)
}
