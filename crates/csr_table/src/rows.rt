//! The rows of the table, by address.

ghost use Rattle.std.specs.Prelude.{◌≡◌};
ghost use Rattle.csr_table.specs.Addresses.{csr_row_of, csr_in, csr_ranges, machine_ranges, supervisor_ranges, protection_ranges, counter_ranges};

use crate::registers::{Csr, CsrRow};

/// The row of a register's address, or `None` where no register has it. From the Privileged
/// Architecture's chapter "Control and Status Registers (CSRs)".
#[tactic(auto, unfolding(crate::specs::Addresses::csr_row_of, crate::specs::Addresses::csr_in))]
pub fn row(address: u16) -> Option<CsrRow>
    ensures { result ≡ csr_row_of address }
{
    match csr_at(address) {
        None => None,
        Some(csr) => {
            Some(CsrRow {
                least_mode: ((address >> 8) % 4) as u8,
                read_only: (address >> 10) % 4 == 3,
                csr,
            })
        }
    }
}

/// What an address names.
#[tactic(auto, using(crate::proofs::Parts::in_four))]
fn csr_at(address: u16) -> Option<Csr>
    ensures { result ≡ csr_in csr_ranges address }
{
    machine_csr_at(address)
        .or(supervisor_csr_at(address))
        .or(protection_csr_at(address))
        .or(counter_csr_at(address))
}

/// What an address names among the machine's registers.
#[tactic(auto, unfolding(crate::specs::Addresses::csr_in))]
fn machine_csr_at(address: u16) -> Option<Csr>
    ensures { result ≡ csr_in machine_ranges address }
{
    match address {
        0x300 => Some(Csr::Mstatus),
        0x301 => Some(Csr::Misa),
        0x302 => Some(Csr::Medeleg),
        0x303 => Some(Csr::Mideleg),
        0x304 => Some(Csr::Mie),
        0x305 => Some(Csr::Mtvec),
        0x306 => Some(Csr::Mcounteren),
        0x30A => Some(Csr::Menvcfg),
        0x320 => Some(Csr::Mcountinhibit),
        0x323..=0x33F => Some(Csr::Mhpmevent((address % 32) as u8)),
        0x340 => Some(Csr::Mscratch),
        0x341 => Some(Csr::Mepc),
        0x342 => Some(Csr::Mcause),
        0x343 => Some(Csr::Mtval),
        0x344 => Some(Csr::Mip),
        _ => None,
    }
}

/// What an address names among the supervisor's registers.
#[tactic(auto, unfolding(crate::specs::Addresses::csr_in))]
fn supervisor_csr_at(address: u16) -> Option<Csr>
    ensures { result ≡ csr_in supervisor_ranges address }
{
    match address {
        0x100 => Some(Csr::Sstatus),
        0x104 => Some(Csr::Sie),
        0x105 => Some(Csr::Stvec),
        0x106 => Some(Csr::Scounteren),
        0x10A => Some(Csr::Senvcfg),
        0x140 => Some(Csr::Sscratch),
        0x141 => Some(Csr::Sepc),
        0x142 => Some(Csr::Scause),
        0x143 => Some(Csr::Stval),
        0x144 => Some(Csr::Sip),
        0x180 => Some(Csr::Satp),
        _ => None,
    }
}

/// What an address names in physical memory protection.
#[tactic(auto, unfolding(crate::specs::Addresses::csr_in))]
fn protection_csr_at(address: u16) -> Option<Csr>
    ensures { result ≡ csr_in protection_ranges address }
{
    match address {
        0x3A0 => Some(Csr::Pmpcfg0),
        0x3A2 => Some(Csr::Pmpcfg2),
        0x3B0..=0x3BF => Some(Csr::Pmpaddr((address % 16) as u8)),
        _ => None,
    }
}

/// What an address names among the counters and the registers that tell which core this is.
#[tactic(auto, unfolding(crate::specs::Addresses::csr_in))]
fn counter_csr_at(address: u16) -> Option<Csr>
    ensures { result ≡ csr_in counter_ranges address }
{
    match address {
        0xB00 => Some(Csr::Mcycle),
        0xB02 => Some(Csr::Minstret),
        0xB03..=0xB1F => Some(Csr::Mhpmcounter((address % 32) as u8)),
        0xC00 => Some(Csr::Cycle),
        0xC01 => Some(Csr::Time),
        0xC02 => Some(Csr::Instret),
        0xC03..=0xC1F => Some(Csr::Hpmcounter((address % 32) as u8)),
        0xF11 => Some(Csr::Mvendorid),
        0xF12 => Some(Csr::Marchid),
        0xF13 => Some(Csr::Mimpid),
        0xF14 => Some(Csr::Mhartid),
        0xF15 => Some(Csr::Mconfigptr),
        _ => None,
    }
}
