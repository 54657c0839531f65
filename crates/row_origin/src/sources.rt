//! What an instruction did, as a reader of a trace asks for it.

ghost use Rattle.std.specs.Prelude.{◌≡◌, min, option_copied};
ghost use Rattle.row_origin.specs.Sources.{effects_of, first_len, is_kept};

use hart_words::PAGE_SIZE;
use rvfi_rows::{Effects, Expected};

/// How many integer registers there are, x0 among them.
pub const REGISTERS: u8 = 32;

/// What the row's instruction did, where it was retired.
pub fn effects(expected: &Expected) -> Option<&Effects>
    ensures { option_copied result ≡ effects_of expected.now }
{
    match expected {
        Expected::Halted => None,
        Expected::Retired(retired) => match &retired.effects {
            Ok(effects) => Some(effects),
            Err(_) => None,
        },
    }
}

/// Whether a register keeps what is written to it: x1 to x31.
pub fn is_kept(number: u8) -> bool
    ensures { result ≡ is_kept number }
{
    1 <= number && number < REGISTERS
}

/// How many bytes of an access lie in the page of its first.
pub fn first_len(va: u64, len: u8) -> u8
    ensures { result ≡ first_len va len }
{
    let left = PAGE_SIZE - va % PAGE_SIZE;
    if u64::from(len) <= left {
        len
    } else {
        left as u8
    }
}
