//! The check of one access against all entries. From the Privileged Architecture's chapter
//! "Machine-Level ISA".

ghost use Rattle.std.specs.Prelude.{◌≡◌};
ghost use Rattle.pmp_check.specs.Protection.{is_allowed, is_allowed_after, entry_permits, permits};

use crate::region::Region;
use hart_words::{Access, Mode, PmpEntry};

// The bits of a configuration byte.
pub const R: u8 = 0;

pub const W: u8 = 1;

pub const X: u8 = 2;

pub const L: u8 = 7;

/// Whether the entries allow an access of `len` bytes from the physical address `pa` on, made in
/// `mode`. The lowest-numbered entry that covers any byte of it decides, and has to cover all of
/// them; where there is none, M alone has access. Without any entries every access is allowed.
#[tactic(auto, unfolding(crate::specs::Protection::is_allowed))]
pub fn allows(entries: &[PmpEntry], mode: Mode, pa: u64, len: u8, access: Access) -> bool
    ensures { result ≡ is_allowed entries.now mode pa len access }
{
    entries.is_empty() || first_allows(entries, mode, pa, len, access)
}

/// The same where M alone has access without any entries.
#[tactic(auto, unfolding(crate::specs::Protection::is_allowed_after))]
fn first_allows(entries: &[PmpEntry], mode: Mode, pa: u64, len: u8, access: Access) -> bool
    ensures { result ≡ is_allowed_after 0 entries.now mode pa len access }
{
    let mut before = 0;
    for entry in entries {
        let region = Region::of(*entry, before);
        if region.covers_some(pa, len) {
            return region.covers_all(pa, len) && entry_permits(entry.cfg, mode, access);
        }
        before = entry.addr;
    }
    matches!(mode, Mode::Machine)
}

/// Whether the entry that decides, by its configuration byte, lets the access pass.
#[tactic(auto, unfolding(crate::specs::Protection::entry_permits))]
fn entry_permits(cfg: u8, mode: Mode, access: Access) -> bool
    ensures { result ≡ entry_permits cfg mode access }
{
    let is_locked = (cfg >> L) % 2 != 0;
    match mode {
        Mode::Machine if !is_locked => true,
        Mode::Machine | Mode::Supervisor | Mode::User => permits(cfg, access),
    }
}

/// Whether the configuration byte has the bit R, W or X that the access needs.
fn permits(cfg: u8, access: Access) -> bool
    ensures { result ≡ permits cfg access }
{
    match access {
        Access::Load => (cfg >> R) % 2 == 1,
        Access::Store => (cfg >> W) % 2 == 1,
        Access::Fetch => (cfg >> X) % 2 == 1,
    }
}
