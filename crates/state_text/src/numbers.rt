//! The numbered lines: the integer registers and the control and status registers, in the order of
//! the text.

ghost use Rattle.std.specs.Prelude.{◌≡◌, ◌<◌, [], map, slice_index};
ghost use Rattle.std.specs.List.{range_with_len};
ghost use Rattle.hart_words.specs.Results.{result_view};
ghost use Rattle.state_text.specs.declared.numbers.TheConstants.{KINDS, NUMBERS};
ghost use Rattle.state_text.specs.Numbers.{number_names, numbers_of, protection_numbers_of, saved_csrs, stored_places, pmp_entry_in, registers_with, csrs_with};
ghost use Rattle.state_text.specs.Reading.{numbers_in};
ghost use Rattle.state_text.specs.Views.{remaining_of, value_and_remaining};

use crate::fault::{FaultKind, StateFault};
use crate::head::read_number;
use crate::remaining::Remaining;
use crate::values::is_legal;
use csr_file::{CsrProfile, Csrs, STORED_CSRS, StoredCsr};
use hart_words::{CsrName, PmpEntry, Registers};

/// How many there are.
pub const NUMBERS: usize = 70;

/// Their names, each with the blank that ends it.
pub const NAMES: [&[u8]; NUMBERS] = [
    b"x1 ",
    b"x2 ",
    b"x3 ",
    b"x4 ",
    b"x5 ",
    b"x6 ",
    b"x7 ",
    b"x8 ",
    b"x9 ",
    b"x10 ",
    b"x11 ",
    b"x12 ",
    b"x13 ",
    b"x14 ",
    b"x15 ",
    b"x16 ",
    b"x17 ",
    b"x18 ",
    b"x19 ",
    b"x20 ",
    b"x21 ",
    b"x22 ",
    b"x23 ",
    b"x24 ",
    b"x25 ",
    b"x26 ",
    b"x27 ",
    b"x28 ",
    b"x29 ",
    b"x30 ",
    b"x31 ",
    b"csr_mstatus ",
    b"csr_medeleg ",
    b"csr_mideleg ",
    b"csr_mie ",
    b"csr_mtvec ",
    b"csr_stvec ",
    b"csr_mcounteren ",
    b"csr_scounteren ",
    b"csr_menvcfg ",
    b"csr_senvcfg ",
    b"csr_mcountinhibit ",
    b"csr_mscratch ",
    b"csr_sscratch ",
    b"csr_mepc ",
    b"csr_sepc ",
    b"csr_mcause ",
    b"csr_scause ",
    b"csr_mtval ",
    b"csr_stval ",
    b"csr_mip ",
    b"csr_satp ",
    b"csr_pmpcfg0 ",
    b"csr_pmpcfg2 ",
    b"csr_pmpaddr0 ",
    b"csr_pmpaddr1 ",
    b"csr_pmpaddr2 ",
    b"csr_pmpaddr3 ",
    b"csr_pmpaddr4 ",
    b"csr_pmpaddr5 ",
    b"csr_pmpaddr6 ",
    b"csr_pmpaddr7 ",
    b"csr_pmpaddr8 ",
    b"csr_pmpaddr9 ",
    b"csr_pmpaddr10 ",
    b"csr_pmpaddr11 ",
    b"csr_pmpaddr12 ",
    b"csr_pmpaddr13 ",
    b"csr_pmpaddr14 ",
    b"csr_pmpaddr15 ",
];

/// What of a hart a number is, for the values that it can have.
#[derive(Clone, Copy, Debug, PartialEq, Eq)]
pub enum NumberKind {
    /// An integer register.
    Register,
    /// A control and status register that is stored.
    Stored(StoredCsr),
    /// The configurations of eight entries of physical memory protection, from one on.
    Configurations(u8),
    /// The address of an entry of it.
    EntryAddress(u8),
}

/// What each number is, in the same order.
pub const KINDS: [NumberKind; NUMBERS] = [
    NumberKind::Register,
    NumberKind::Register,
    NumberKind::Register,
    NumberKind::Register,
    NumberKind::Register,
    NumberKind::Register,
    NumberKind::Register,
    NumberKind::Register,
    NumberKind::Register,
    NumberKind::Register,
    NumberKind::Register,
    NumberKind::Register,
    NumberKind::Register,
    NumberKind::Register,
    NumberKind::Register,
    NumberKind::Register,
    NumberKind::Register,
    NumberKind::Register,
    NumberKind::Register,
    NumberKind::Register,
    NumberKind::Register,
    NumberKind::Register,
    NumberKind::Register,
    NumberKind::Register,
    NumberKind::Register,
    NumberKind::Register,
    NumberKind::Register,
    NumberKind::Register,
    NumberKind::Register,
    NumberKind::Register,
    NumberKind::Register,
    NumberKind::Stored(StoredCsr::Mstatus),
    NumberKind::Stored(StoredCsr::Medeleg),
    NumberKind::Stored(StoredCsr::Mideleg),
    NumberKind::Stored(StoredCsr::Mie),
    NumberKind::Stored(StoredCsr::Mtvec),
    NumberKind::Stored(StoredCsr::Stvec),
    NumberKind::Stored(StoredCsr::Mcounteren),
    NumberKind::Stored(StoredCsr::Scounteren),
    NumberKind::Stored(StoredCsr::Menvcfg),
    NumberKind::Stored(StoredCsr::Senvcfg),
    NumberKind::Stored(StoredCsr::Mcountinhibit),
    NumberKind::Stored(StoredCsr::Mscratch),
    NumberKind::Stored(StoredCsr::Sscratch),
    NumberKind::Stored(StoredCsr::Mepc),
    NumberKind::Stored(StoredCsr::Sepc),
    NumberKind::Stored(StoredCsr::Mcause),
    NumberKind::Stored(StoredCsr::Scause),
    NumberKind::Stored(StoredCsr::Mtval),
    NumberKind::Stored(StoredCsr::Stval),
    NumberKind::Stored(StoredCsr::Mip),
    NumberKind::Stored(StoredCsr::Satp),
    NumberKind::Configurations(0),
    NumberKind::Configurations(8),
    NumberKind::EntryAddress(0),
    NumberKind::EntryAddress(1),
    NumberKind::EntryAddress(2),
    NumberKind::EntryAddress(3),
    NumberKind::EntryAddress(4),
    NumberKind::EntryAddress(5),
    NumberKind::EntryAddress(6),
    NumberKind::EntryAddress(7),
    NumberKind::EntryAddress(8),
    NumberKind::EntryAddress(9),
    NumberKind::EntryAddress(10),
    NumberKind::EntryAddress(11),
    NumberKind::EntryAddress(12),
    NumberKind::EntryAddress(13),
    NumberKind::EntryAddress(14),
    NumberKind::EntryAddress(15),
];

/// The numbers of the lines with these names, or the first fault. Each is one that the hart can
/// have there.
pub fn read_numbers<'a>(
    remaining: Remaining<'a>,
    profile: &CsrProfile,
    names: &[&[u8]; NUMBERS],
    kinds: &[NumberKind; NUMBERS],
) -> Result<([u64; NUMBERS], Remaining<'a>), StateFault>
    requires { map (λ name. name.now) names.now ≡ number_names }
    ensures { result_view value_and_remaining result
        ≡ numbers_in profile.now number_names kinds.now [] (remaining_of remaining.entry) }
{
    let mut numbers = [0; NUMBERS];
    let mut remaining = remaining;
    for place in 0..NUMBERS {
        let (number, after) = read_number(remaining, names[place])?;
        if !is_legal(profile, kinds[place], number) {
            return Err(remaining.fault(FaultKind::BadValue));
        }
        numbers[place] = number;
        remaining = after;
    }
    Ok((numbers, remaining))
}

/// The integer registers that have the numbers.
pub fn registers_with(numbers: &[u64; NUMBERS]) -> Registers
    ensures { result ≡ registers_with numbers.now }
{
    let mut values = [0; 31];
    values.copy_from_slice(&numbers[..31]);
    Registers { values }
}

/// The control and status registers of a core that have the numbers.
#[tactic(auto, unfolding(crate::specs::Numbers::csrs_with))]
pub fn csrs_with(profile: &CsrProfile, numbers: &[u64; NUMBERS]) -> Csrs
    ensures { result ≡ csrs_with profile.now numbers.now }
{
    Csrs {
        values: stored_values(numbers),
        entries: entries_with(numbers),
        profile: *profile,
    }
}

/// The values of the stored registers, in the order in which they are stored.
fn stored_values(numbers: &[u64; NUMBERS]) -> [u64; STORED_CSRS]
    ensures { result ≡ map (slice_index numbers.now) stored_places }
{
    [
        numbers[31],
        numbers[32],
        numbers[33],
        numbers[34],
        numbers[35],
        numbers[37],
        numbers[39],
        numbers[41],
        numbers[42],
        numbers[44],
        numbers[46],
        numbers[48],
        numbers[50],
        numbers[36],
        numbers[38],
        numbers[40],
        numbers[43],
        numbers[45],
        numbers[47],
        numbers[49],
        numbers[51],
    ]
}

/// The entries of physical memory protection.
fn entries_with(numbers: &[u64; NUMBERS]) -> [PmpEntry; 16]
    ensures { result ≡ map (pmp_entry_in numbers.now) (range_with_len 0 16) }
{
    let low = numbers[52].to_le_bytes();
    let high = numbers[53].to_le_bytes();
    [
        entry(low[0], numbers[54]),
        entry(low[1], numbers[55]),
        entry(low[2], numbers[56]),
        entry(low[3], numbers[57]),
        entry(low[4], numbers[58]),
        entry(low[5], numbers[59]),
        entry(low[6], numbers[60]),
        entry(low[7], numbers[61]),
        entry(high[0], numbers[62]),
        entry(high[1], numbers[63]),
        entry(high[2], numbers[64]),
        entry(high[3], numbers[65]),
        entry(high[4], numbers[66]),
        entry(high[5], numbers[67]),
        entry(high[6], numbers[68]),
        entry(high[7], numbers[69]),
    ]
}

fn entry(cfg: u8, addr: u64) -> PmpEntry
    ensures { result ≡ record { cfg = cfg; addr = addr } }
{
    PmpEntry { cfg, addr }
}

/// The stored control and status registers in the order of the text.
pub const SAVED_CSRS: [StoredCsr; STORED_CSRS] = [
    StoredCsr::Mstatus,
    StoredCsr::Medeleg,
    StoredCsr::Mideleg,
    StoredCsr::Mie,
    StoredCsr::Mtvec,
    StoredCsr::Stvec,
    StoredCsr::Mcounteren,
    StoredCsr::Scounteren,
    StoredCsr::Menvcfg,
    StoredCsr::Senvcfg,
    StoredCsr::Mcountinhibit,
    StoredCsr::Mscratch,
    StoredCsr::Sscratch,
    StoredCsr::Mepc,
    StoredCsr::Sepc,
    StoredCsr::Mcause,
    StoredCsr::Scause,
    StoredCsr::Mtval,
    StoredCsr::Stval,
    StoredCsr::Mip,
    StoredCsr::Satp,
];

/// The number of a hart at a place of the text.
#[tactic(auto, unfolding(crate::specs::Numbers::numbers_of))]
pub fn number_of(
    integers: &[u64; 31],
    csrs: &Csrs,
    stored: &[StoredCsr; STORED_CSRS],
    place: usize,
) -> u64
    requires stored { stored.now ≡ saved_csrs }
    requires place { place < NUMBERS }
    ensures { result ≡ slice_index (numbers_of (record { values = integers.now }) csrs.now) place }
{
    if place < 31 {
        integers[place]
    } else if place < 52 {
        csrs.get(stored[place - 31])
    } else {
        number_of_protection(csrs, place - 52)
    }
}

/// The configurations and the addresses of the entries of physical memory protection.
fn number_of_protection(csrs: &Csrs, place: usize) -> u64
    requires { place < 18 }
    ensures { result ≡ slice_index (protection_numbers_of csrs.now) place }
{
    match place {
        0 => csrs.shown(CsrName::Pmpcfg0, 0),
        1 => csrs.shown(CsrName::Pmpcfg2, 0),
        _ => address_of(&csrs.entries, place - 2),
    }
}

/// The address of an entry.
fn address_of(entries: &[PmpEntry; 16], number: usize) -> u64
    requires { number < 16 }
    ensures { result ≡ slice_index (map (λ entry. entry.addr) entries.now) number }
{
    entries[number].addr
}
