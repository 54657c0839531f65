//! The bits in which the columns of control and status registers are compared.

ghost use Rattle.std.specs.Prelude.{◌≡◌};
ghost use Rattle.rvfi_rows.specs.Cells.{shown_in};
ghost use Rattle.row_compare.specs.Csrs.{bits_after, bits_before, decided_misa, left_out_after, left_out_before, mask_shown, pending_shown, supervisor_lines};

use csr_file::fields::{SEIP, SSIP, STIP};
use csr_file::{CsrProfile, Presence};
use csr_table::Csr;
use hart_words::{CsrName, CsrSide, Signal};
use rvfi_rows::Row;

/// The interrupts of S, by their bits in mip.
const SUPERVISOR_INTERRUPTS: u64 = 1 << SSIP | 1 << STIP | 1 << SEIP;

/// The bits of the register before the instruction that are compared.
pub fn bits_before(profile: &CsrProfile, name: CsrName, row: &Row) -> u64
    ensures { result ≡ bits_before profile.now name (shown_in row.now) }
{
    let mask = row.shown(Signal::Csr(name, CsrSide::Rmask));
    mask_shown(mask) & !left_out_before(profile, name, row)
}

/// The bits of the register after the row that are compared.
pub fn bits_after(profile: &CsrProfile, name: CsrName, row: &Row) -> u64
    ensures { result ≡ bits_after profile.now name (shown_in row.now) }
{
    let mask = row.shown(Signal::Csr(name, CsrSide::Wmask));
    mask_shown(mask) & !left_out_after(profile, name)
}

/// A mask that is not shown is all ones.
fn mask_shown(mask: Option<u64>) -> u64
    ensures { result ≡ mask_shown mask }
{
    mask.unwrap_or(u64::MAX)
}

/// The lines in sip are left out where the row does not show them in mip.
fn left_out_before(profile: &CsrProfile, name: CsrName, row: &Row) -> u64
    ensures { result ≡ left_out_before profile.now name (shown_in row.now) }
{
    match name {
        CsrName::Misa => decided_misa(profile),
        CsrName::Sip => supervisor_lines(profile) & !pending_shown(row),
        _ => 0,
    }
}

/// No row tells of the lines after the instruction.
fn left_out_after(profile: &CsrProfile, name: CsrName) -> u64
    ensures { result ≡ left_out_after profile.now name }
{
    match name {
        CsrName::Misa => decided_misa(profile),
        CsrName::Mip => profile.line_bits(),
        CsrName::Sip => supervisor_lines(profile),
        _ => 0,
    }
}

/// All bits of misa, where the core decides it.
fn decided_misa(profile: &CsrProfile) -> u64
    ensures { result ≡ decided_misa profile.now }
{
    match profile.presence(Csr::Misa) {
        Presence::FromRow => u64::MAX,
        Presence::Kept | Presence::Absent | Presence::MayTrap => 0,
    }
}

/// The interrupts of S that may be lines from outside.
fn supervisor_lines(profile: &CsrProfile) -> u64
    ensures { result ≡ supervisor_lines profile.now }
{
    SUPERVISOR_INTERRUPTS & profile.line_bits()
}

/// The bits of mip that the row shows before the instruction.
fn pending_shown(row: &Row) -> u64
    ensures { result ≡ pending_shown (shown_in row.now) }
{
    let mask = row.shown(Signal::Csr(CsrName::Mip, CsrSide::Rmask));
    let mip = row.shown(Signal::Csr(CsrName::Mip, CsrSide::Rdata));
    if mip.is_some() { mask_shown(mask) } else { 0 }
}
