//! Return from a trap. From the Privileged Architecture's chapters "Machine-Level ISA" and
//! "Supervisor-Level ISA".

ghost use Rattle.std.specs.Prelude.{◌≡◌, ◌%◌};
ghost use Rattle.csr_file.specs.Legal.{IsLegal};
ghost use Rattle.csr_file.specs.Registers.{at};
ghost use Rattle.trap_entry.specs.Returns.{mode_by_mret, mode_by_sret, status_by_mret, status_by_sret, mret_of, sret_of};

use csr_file::fields::{MIE, MPIE, MPP, SIE, SPIE, SPP};
use csr_file::{Csrs, StoredCsr, merge, mode_of_encoding};
use hart_words::Mode;

/// The fields of mstatus that MRET writes: MIE, MPIE, MPP, and MPRV on a return to S or U.
const MACHINE_STACK: u64 = 0x1888;

const MACHINE_STACK_AND_MPRV: u64 = 0x2_1888;

/// The fields of mstatus that SRET writes: SIE, SPIE, SPP, MPRV.
const SUPERVISOR_STACK_AND_MPRV: u64 = 0x2_0122;

/// The enables of interrupts, and what they were before a trap.
const MIE_SET: u64 = 1 << MIE;

const MPIE_SET: u64 = 1 << MPIE;

const SIE_SET: u64 = 1 << SIE;

const SPIE_SET: u64 = 1 << SPIE;

/// Returns from a trap in M, as MRET does: gives the new mode and pc.
#[tactic(auto, unfolding(crate::specs::Returns::mode_by_mret, crate::specs::Returns::mret_of))]
pub fn mret(csrs: &mut Csrs) -> (Mode, u64)
    ensures registers { csrs.new ≡ mret_of csrs.old }
    ensures new_mode { result.0 ≡ mode_by_mret csrs.old }
    ensures new_pc { result.1 ≡ at csrs.old StoredCsr.Mepc }
    ensures even { IsLegal csrs.old → result.1 % 2 ≡ 0 }
    ensures legal { IsLegal csrs.old → IsLegal csrs.new }
{
    let status = csrs.get(StoredCsr::Mstatus);
    let pc = csrs.get(StoredCsr::Mepc);
    csrs.set(StoredCsr::Mstatus, status_by_mret(status));
    (mode_of_encoding((status >> MPP) % 4), pc)
}

/// Returns from a trap in S, as SRET does: gives the new mode and pc.
#[tactic(auto, unfolding(crate::specs::Returns::mode_by_sret, crate::specs::Returns::sret_of))]
pub fn sret(csrs: &mut Csrs) -> (Mode, u64)
    ensures registers { csrs.new ≡ sret_of csrs.old }
    ensures new_mode { result.0 ≡ mode_by_sret csrs.old }
    ensures new_pc { result.1 ≡ at csrs.old StoredCsr.Sepc }
    ensures even { IsLegal csrs.old → result.1 % 2 ≡ 0 }
    ensures legal { IsLegal csrs.old → IsLegal csrs.new }
{
    let status = csrs.get(StoredCsr::Mstatus);
    let pc = csrs.get(StoredCsr::Sepc);
    csrs.set(StoredCsr::Mstatus, status_by_sret(status));
    (mode_of_encoding((status >> SPP) % 2), pc)
}

/// mstatus after MRET: MIE is MPIE, MPIE is 1, MPP is U, and MPRV is cleared where the new mode is
/// not M.
#[tactic(auto, unfolding(crate::specs::Returns::status_by_mret))]
fn status_by_mret(status: u64) -> u64
    ensures { result ≡ status_by_mret status }
{
    let enable = (status >> MPIE) % 2;
    let mask = if (status >> MPP) % 4 == 3 {
        MACHINE_STACK
    } else {
        MACHINE_STACK_AND_MPRV
    };
    merge(mask, status, MIE_SET * enable + MPIE_SET)
}

/// mstatus after SRET: SIE is SPIE, SPIE is 1, SPP is U, and MPRV is cleared.
#[tactic(auto, unfolding(crate::specs::Returns::status_by_sret))]
fn status_by_sret(status: u64) -> u64
    ensures { result ≡ status_by_sret status }
{
    let enable = (status >> SPIE) % 2;
    let fields = SIE_SET * enable + SPIE_SET;
    merge(SUPERVISOR_STACK_AND_MPRV, status, fields)
}
