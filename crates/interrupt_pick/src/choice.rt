//! The interrupt that is taken. From the Privileged Architecture's chapters "Machine-Level ISA" and
//! "Supervisor-Level ISA".

ghost use Rattle.std.specs.Prelude.{◌≡◌, ◌<◌, ℕ, bit_and, find};
ghost use Rattle.csr_file.specs.Registers.{at};
ghost use Rattle.csr_file.specs.Values.{pending_interrupts_of};
ghost use Rattle.csr_file.specs.Fields.{bit_is_set};
ghost use Rattle.interrupt_pick.specs.Interrupts.{order, is_for_machine, is_for_supervisor, pick_of};

use csr_file::fields::{MEIP, MIE, MSIP, MTIP, SEIP, SIE, SSIP, STIP};
use csr_file::{Csrs, StoredCsr, has_bit};
use hart_words::Mode;

/// The order in which interrupts are taken.
const ORDER: [u8; 6] = [MEIP, MSIP, MTIP, SEIP, SSIP, STIP];

/// The interrupt that is taken in a mode with these lines from outside, of which the bits count that
/// the core has as lines: its code, and the mode that it is taken in. `None` where none is.
#[tactic(auto, unfolding(crate::specs::Interrupts::pick_of))]
pub fn pick(csrs: &Csrs, mode: Mode, lines: u64) -> Option<(u8, Mode)>
    ensures { result ≡ pick_of csrs.now mode lines }
{
    match first_of(for_machine(csrs, mode, lines)) {
        Some(code) => Some((code, Mode::Machine)),
        None => {
            match first_of(for_supervisor(csrs, mode, lines)) {
                Some(code) => Some((code, Mode::Supervisor)),
                None => None,
            }
        }
    }
}

/// The first of the order among bits of mip.
fn first_of(bits: u64) -> Option<u8>
    ensures { result ≡ find (bit_is_set bits) order }
{
    ORDER.iter().copied().find(|code| has_bit(bits, *code))
}

/// The interrupts that are pending and enabled, as bits of mip.
fn pending_and_enabled(csrs: &Csrs, lines: u64) -> u64
    ensures { result ≡ bit_and (pending_interrupts_of csrs.now lines) (at csrs.now StoredCsr.Mie) }
{
    csrs.pending_interrupts(lines) & csrs.get(StoredCsr::Mie)
}

/// The interrupts that M takes in a mode, as bits of mip.
#[tactic(auto, using(crate::proofs::Bits::not_delegated), unfolding(crate::specs::Interrupts::is_for_machine))]
fn for_machine(csrs: &Csrs, mode: Mode, lines: u64) -> u64
    ensures { (code : ℕ) → code < 64
        → bit_is_set result code ≡ is_for_machine csrs.now mode lines code }
{
    let takes = match mode {
        Mode::Machine => has_bit(csrs.get(StoredCsr::Mstatus), MIE),
        Mode::Supervisor | Mode::User => true,
    };
    if takes {
        pending_and_enabled(csrs, lines) & !csrs.get(StoredCsr::Mideleg)
    } else {
        0
    }
}

/// The interrupts that S takes in a mode, as bits of mip.
#[tactic(auto, using(crate::proofs::Bits::delegated), unfolding(crate::specs::Interrupts::is_for_supervisor))]
fn for_supervisor(csrs: &Csrs, mode: Mode, lines: u64) -> u64
    ensures { (code : ℕ) → code < 64
        → bit_is_set result code ≡ is_for_supervisor csrs.now mode lines code }
{
    let takes = match mode {
        Mode::Machine => false,
        Mode::Supervisor => has_bit(csrs.get(StoredCsr::Mstatus), SIE),
        Mode::User => true,
    };
    if takes {
        pending_and_enabled(csrs, lines) & csrs.get(StoredCsr::Mideleg)
    } else {
        0
    }
}
