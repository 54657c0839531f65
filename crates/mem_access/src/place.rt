//! Where an access to a physical address goes.

ghost use Rattle.std.specs.Prelude.{◌≡◌, ◌==◌, ◌≤◌, ◌+◌, ◌%◌, ◌&&◌, ◌||◌, IfOk, length, false};
ghost use Rattle.std.specs.List.{list_all};
ghost use Rattle.hart_words.specs.declared.span.TheConstants.{PAGE_SIZE};
ghost use Rattle.hart_words.specs.Spans.{IsPlace};
ghost use Rattle.csr_file.specs.Registers.{pmp_entries_of};
ghost use Rattle.pmp_check.specs.Protection.{is_allowed, is_machine};
ghost use Rattle.mem_access.specs.Accesses.{devices_answer, is_atomic};
ghost use Rattle.mem_access.specs.Places.{data_mode_of, place_of};

use csr_file::fields::{MPP, MPRV};
use csr_file::{Csrs, StoredCsr, has_bit, mode_of_encoding};
use hart_words::{Access, Cause, Choices, Map, Mode, PmpEntry};
use pmp_check::allows;

/// The physical address of an access, and whether it is one of a device.
#[derive(Clone, Copy, Debug, PartialEq, Eq)]
pub struct Place {
    pub pa: u64,
    pub is_device: bool,
}

/// An access as it is asked for, but for its address.
#[derive(Clone, Copy, Debug)]
pub struct AccessRequest {
    /// The mode that it is made in: for data under MPRV not that of the instruction.
    pub mode: Mode,
    pub access: Access,
    /// Its bytes.
    pub len: u8,
    /// Whether devices answer it.
    pub devices: bool,
}

/// What a data access is, as far as its address and its place go.
#[derive(Clone, Copy, Debug, PartialEq, Eq)]
pub enum Atomicity {
    /// A load or a store: it may be misaligned.
    Plain,
    /// An atomic memory operation: it is never misaligned, and devices answer it only where the row
    /// says whether they refuse it.
    Amo,
    /// LR or SC: it is never misaligned, and no device answers it.
    Reserved,
}

impl Atomicity {
    /// Whether the access is atomic.
    pub fn is_atomic(self) -> bool
        ensures { result ≡ is_atomic self }
    {
        match self {
            Atomicity::Plain => false,
            Atomicity::Amo | Atomicity::Reserved => true,
        }
    }

    /// Whether devices answer the access.
    pub fn devices_answer(self, choices: &Choices) -> bool
        ensures { result ≡ devices_answer choices.now self }
    {
        match self {
            Atomicity::Plain => true,
            Atomicity::Amo => choices.device_faults.are_by_row(),
            Atomicity::Reserved => false,
        }
    }
}

/// The mode of a load or a store: MPP in M where MPRV is set, else the mode of the instruction.
#[tactic(auto, unfolding(crate::specs::Places::data_mode_of))]
pub fn data_mode(csrs: &Csrs, mode: Mode) -> Mode
    ensures { result ≡ data_mode_of csrs.now mode }
{
    let status = csrs.get(StoredCsr::Mstatus);
    match mode {
        Mode::Machine => {
            if has_bit(status, MPRV) {
                mode_of_encoding((status >> MPP) % 4)
            } else {
                Mode::Machine
            }
        }
        Mode::Supervisor | Mode::User => mode,
    }
}

/// The place of an access, unless protection refuses it or nothing is there.
#[tactic(auto, unfolding(crate::specs::Places::place_of))]
pub fn place_of(csrs: &Csrs, map: &Map, request: AccessRequest, pa: u64) -> Result<Place, Cause>
    requires nonempty { 1 ≤ request.len }
    requires at_most_8 { request.len ≤ 8 }
    requires page { pa % PAGE_SIZE + request.len ≤ PAGE_SIZE }
    ensures meant { result ≡ place_of csrs.now map.now request pa }
    ensures memory { request.devices ≡ false → IfOk result (λ place. place.is_device ≡ false) }
    ensures placed { IfOk result (λ place. place.is_device ≡ false
        → IsPlace map.now.ram place.pa request.len) }
{
    if !is_allowed(csrs, request.mode, pa, request.len, request.access) {
        return Err(request.access.access_fault());
    }
    if map.ram.holds(pa, request.len) {
        return Ok(Place {
            pa,
            is_device: false,
        });
    }
    if request.devices && map.is_device(pa, request.len) {
        return Ok(Place {
            pa,
            is_device: true,
        });
    }
    Err(request.access.access_fault())
}

/// Whether protection allows an access. Where no entry is configured M alone has access, or
/// everyone where the core has none, so that none is looked at.
pub fn is_allowed(csrs: &Csrs, mode: Mode, pa: u64, len: u8, access: Access) -> bool
    ensures { result ≡ is_allowed (pmp_entries_of csrs.now) mode pa len access }
{
    if is_unset(&csrs.entries) {
        return is_machine(mode) || csrs.pmp_entries().is_empty();
    }
    allows(csrs.pmp_entries(), mode, pa, len, access)
}

/// Whether protection allows a mode every access, since no entry is configured: to M alone, or to
/// everyone where the core has none.
pub fn is_open(csrs: &Csrs, mode: Mode) -> bool
    ensures { result ≡ (list_all (λ entry. entry.cfg == 0) csrs.now.entries
        && (is_machine mode || (length (pmp_entries_of csrs.now) == 0))) }
{
    is_unset(&csrs.entries) && (is_machine(mode) || csrs.pmp_entries().is_empty())
}

/// Whether no entry is configured. All are looked at, with one question at the end: as a rule none
/// is configured, and a question at each would cost more.
fn is_unset(entries: &[PmpEntry]) -> bool
    ensures { result ≡ list_all (λ entry. entry.cfg == 0) entries.now }
{
    let mut configured = 0;
    for entry in entries {
        configured |= entry.cfg;
    }
    configured == 0
}

/// Whether a mode is M.
pub fn is_machine(mode: Mode) -> bool
    ensures { result ≡ is_machine mode }
{
    matches!(mode, Mode::Machine)
}
