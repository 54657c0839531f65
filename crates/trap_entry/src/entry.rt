//! Entry of a trap. From the Privileged Architecture's chapters "Machine-Level ISA" and
//! "Supervisor-Level ISA".

ghost use Rattle.std.specs.Prelude.{◌≡◌, ◌%◌};
ghost use Rattle.csr_file.specs.Legal.{IsLegal};
ghost use Rattle.trap_entry.specs.Entries.{is_delegated, cause_value, handler_address, status_into_machine, status_into_supervisor, enter_of, enter_machine_of, enter_supervisor_of, mode_by_enter, pc_by_enter, trap_value_of};

use csr_file::fields::{MIE, MPIE, MPP, SIE, SPIE, SPP};
use csr_file::{Csrs, StoredCsr, has_bit, merge};
use hart_words::Mode;

/// The fields of mstatus that entries to M write: MIE, MPIE, MPP.
const MACHINE_STACK: u64 = 0x1888;

/// The fields of mstatus that entries to S write: SIE, SPIE, SPP.
const SUPERVISOR_STACK: u64 = 0x122;

/// What the fields of mstatus count as that get a value.
const MPIE_SET: u64 = 1 << MPIE;

const MPP_ONE: u64 = 1 << MPP;

const SPIE_SET: u64 = 1 << SPIE;

const SPP_SET: u64 = 1 << SPP;

/// Enters a trap that is taken in `mode` at the instruction at `pc`: an interrupt or an exception
/// with its code and its trap value, which is 0 where every trap value is. Gives the new mode and
/// the address of the handler.
#[tactic(auto, unfolding(crate::specs::Entries::enter_of, crate::specs::Entries::mode_by_enter, crate::specs::Entries::pc_by_enter))]
pub fn enter(
    csrs: &mut Csrs,
    mode: Mode,
    interrupt: bool,
    cause: u8,
    tval: u64,
    pc: u64,
    zero_tval: bool,
) -> (Mode, u64)
    ensures registers { csrs.new
        ≡ enter_of csrs.old mode interrupt cause (trap_value_of zero_tval tval) pc }
    ensures new_mode { result.0 ≡ mode_by_enter csrs.old mode interrupt cause }
    ensures new_pc { result.1 ≡ pc_by_enter csrs.old mode interrupt cause }
    ensures even { result.1 % 2 ≡ 0 }
    ensures legal { IsLegal csrs.old → pc % 2 ≡ 0 → IsLegal csrs.new }
{
    let value = cause_value(interrupt, cause);
    let tval = if zero_tval { 0 } else { tval };
    if is_delegated(csrs, mode, interrupt, cause) {
        let handler = handler_address(csrs.get(StoredCsr::Stvec), interrupt, cause);
        enter_supervisor(csrs, mode, value, tval, pc);
        (Mode::Supervisor, handler)
    } else {
        let handler = handler_address(csrs.get(StoredCsr::Mtvec), interrupt, cause);
        enter_machine(csrs, mode, value, tval, pc);
        (Mode::Machine, handler)
    }
}

/// Whether a trap is delegated to S.
#[tactic(auto, unfolding(crate::specs::Entries::is_delegated))]
fn is_delegated(csrs: &Csrs, mode: Mode, interrupt: bool, cause: u8) -> bool
    ensures { result ≡ is_delegated csrs.now mode interrupt cause }
{
    let delegation = if interrupt {
        csrs.get(StoredCsr::Mideleg)
    } else {
        csrs.get(StoredCsr::Medeleg)
    };
    match mode {
        Mode::Machine => false,
        Mode::Supervisor | Mode::User => has_bit(delegation, cause),
    }
}

/// The address of the handler, from mtvec or stvec.
#[tactic(auto, unfolding(crate::specs::Entries::handler_address))]
fn handler_address(tvec: u64, interrupt: bool, cause: u8) -> u64
    ensures value { result ≡ handler_address tvec interrupt cause }
    ensures even { result % 2 ≡ 0 }
{
    let base = tvec / 4 * 4;
    if interrupt && tvec % 4 == 1 {
        base.wrapping_add(4 * u64::from(cause))
    } else {
        base
    }
}

/// The value of mcause or scause.
fn cause_value(interrupt: bool, cause: u8) -> u64
    ensures { result ≡ cause_value interrupt cause }
{
    if interrupt {
        (1 << 63) + u64::from(cause)
    } else {
        u64::from(cause)
    }
}

#[tactic(auto, unfolding(crate::specs::Entries::enter_machine_of))]
fn enter_machine(csrs: &mut Csrs, mode: Mode, value: u64, tval: u64, pc: u64)
    ensures { csrs.new ≡ enter_machine_of csrs.old mode value tval pc }
{
    let status = status_into_machine(csrs.get(StoredCsr::Mstatus), mode);
    csrs.set(StoredCsr::Mepc, pc);
    csrs.set(StoredCsr::Mcause, value);
    csrs.set(StoredCsr::Mtval, tval);
    csrs.set(StoredCsr::Mstatus, status);
}

#[tactic(auto, unfolding(crate::specs::Entries::enter_supervisor_of))]
fn enter_supervisor(csrs: &mut Csrs, mode: Mode, value: u64, tval: u64, pc: u64)
    ensures { csrs.new ≡ enter_supervisor_of csrs.old mode value tval pc }
{
    let status = status_into_supervisor(csrs.get(StoredCsr::Mstatus), mode);
    csrs.set(StoredCsr::Sepc, pc);
    csrs.set(StoredCsr::Scause, value);
    csrs.set(StoredCsr::Stval, tval);
    csrs.set(StoredCsr::Mstatus, status);
}

/// mstatus in M: MPIE is MIE, MIE is 0, MPP is the old mode.
#[tactic(auto, unfolding(crate::specs::Entries::status_into_machine))]
fn status_into_machine(status: u64, mode: Mode) -> u64
    ensures { result ≡ status_into_machine status mode }
{
    let enable = (status >> MIE) % 2;
    let fields = MPIE_SET * enable + MPP_ONE * u64::from(mode.number());
    merge(MACHINE_STACK, status, fields)
}

/// mstatus in S: SPIE is SIE, SIE is 0, SPP is the old mode.
#[tactic(auto, unfolding(crate::specs::Entries::status_into_supervisor))]
fn status_into_supervisor(status: u64, mode: Mode) -> u64
    ensures { result ≡ status_into_supervisor status mode }
{
    let enable = (status >> SIE) % 2;
    let fields = SPIE_SET * enable + SPP_SET * u64::from(mode.number());
    merge(SUPERVISOR_STACK, status, fields)
}
