//! Which values a hart can have, by the lines of a text.

ghost use Rattle.std.specs.Prelude.{◌≡◌};
ghost use Rattle.std.specs.List.{list_all};
ghost use Rattle.csr_file.specs.Legal.{is_legal_configuration};
ghost use Rattle.state_text.specs.Values.{is_entry, is_legal};

use crate::numbers::NumberKind;
use csr_file::{CsrProfile, is_legal_configuration};

/// Whether a number of a hart can have a value.
#[tactic(auto, unfolding(crate::specs::Values::is_legal))]
pub fn is_legal(profile: &CsrProfile, kind: NumberKind, value: u64) -> bool
    ensures { result ≡ is_legal profile.now kind value }
{
    match kind {
        NumberKind::Register => true,
        NumberKind::Stored(stored) => profile.is_legal_value(stored, value),
        NumberKind::Configurations(first) => {
            if is_entry(profile, first) {
                are_legal_configurations(&value.to_le_bytes())
            } else {
                value == 0
            }
        }
        NumberKind::EntryAddress(number) => {
            if is_entry(profile, number) {
                profile.is_legal_address(value)
            } else {
                value == 0
            }
        }
    }
}

/// Whether the core has the entry of physical memory protection with this number.
fn is_entry(profile: &CsrProfile, number: u8) -> bool
    ensures { result ≡ is_entry profile.now number }
{
    usize::from(number) < profile.entry_count.number()
}

/// Whether entries of physical memory protection can have these configurations.
fn are_legal_configurations(bytes: &[u8]) -> bool
    ensures { result ≡ list_all is_legal_configuration bytes.now }
{
    bytes.iter().all(|byte| is_legal_configuration(*byte))
}
