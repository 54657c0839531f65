//! Which values the registers can have. From the Privileged Architecture's chapters "Machine-Level
//! ISA" and "Supervisor-Level ISA".

ghost use Rattle.std.specs.Prelude.{◌≡◌, ◌<◌, ◌^◌, Decides};
ghost use Rattle.csr_file.specs.Legal.{IsLegalConfiguration, IsLegalValue, follows_rule, is_legal_address, is_legal_configuration, is_legal_value, keeps_fixed};
ghost use Rattle.csr_file.specs.Profiles.{entry_bits_of};

use crate::csrs::is_supported_mode;
use crate::fields::{MPP, SATP_MODE};
use crate::profile::CsrProfile;
use crate::stored_csr::StoredCsr;
use crate::stored_row::FieldRule;

impl CsrProfile {
    /// Whether a register can have a value.
    #[tactic(auto, using(crate::proofs::LegalTests::value_decided), unfolding(crate::specs::Legal::is_legal_value))]
    pub fn is_legal_value(&self, stored: StoredCsr, value: u64) -> bool
        ensures value { result ≡ is_legal_value self.now stored value }
        ensures legal { Decides result (IsLegalValue self.now stored value) }
    {
        self.keeps_fixed(stored, value) && follows_rule(stored.row().rule, value)
    }

    /// Whether the bits that no write changes are as they always are.
    fn keeps_fixed(&self, stored: StoredCsr, value: u64) -> bool
        ensures { result ≡ keeps_fixed self.now stored value }
    {
        value & !self.writable(stored) == self.fixed(stored)
    }

    /// Whether an entry of physical memory protection can have this address: one of the bits that
    /// the core has.
    pub fn is_legal_address(&self, address: u64) -> bool
        ensures value { result ≡ is_legal_address self.now address }
        ensures legal { Decides result (address < 2 ^ entry_bits_of self.now) }
    {
        address < 1 << self.entry_bits()
    }
}

/// Whether the field of which a rule speaks is as it says.
fn follows_rule(rule: FieldRule, value: u64) -> bool
    ensures { result ≡ follows_rule rule value }
{
    match rule {
        FieldRule::Free => true,
        FieldRule::PreviousMode => (value >> MPP) % 4 != 2,
        FieldRule::TranslationMode => is_supported_mode(value >> SATP_MODE),
    }
}

/// Whether an entry of physical memory protection can have this configuration: bits 6:5 are 0, and
/// W is not set without R.
pub fn is_legal_configuration(byte: u8) -> bool
    ensures value { result ≡ is_legal_configuration byte }
    ensures legal { Decides result (IsLegalConfiguration byte) }
{
    byte / 32 % 4 == 0 && byte % 4 != 2
}
