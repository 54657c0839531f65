//! The memory access of an instruction. The row's address may lie below the access, as far as the
//! access still lies in the eight bytes from there on; masks, data and the physical address are
//! moved with it. `named` is the row's address.

ghost use Rattle.std.specs.Prelude.{◌≡◌, ◌≤◌, ◌+◌, IfSome};
ghost use Rattle.row_compare.specs.Memory.{distance_shown, moved_back, address_at, expected_address, expected_physical, read_mask_at, expected_read_mask, data_at, expected_read, expected_write, write_mask_at, expected_write_mask};

use crate::expected_signal::{ExpectedSignal, whole};
use crate::masks::{byte_ones, ones};
use rvfi_rows::{Accessed, distance_in_window, moved_up};

/// The access's own address, unless the row's is right too.
pub fn expected_address(access: &Accessed, named: Option<u64>) -> Option<ExpectedSignal>
    ensures { result ≡ expected_address access.now named }
{
    match distance_shown(access, named) {
        None => whole(access.va),
        Some(_) => None,
    }
}

/// The physical address, as far before the access as the row's address is.
pub fn expected_physical(access: &Accessed, named: Option<u64>) -> Option<ExpectedSignal>
    ensures { result ≡ expected_physical access.now named }
{
    match named {
        None => whole(access.pa),
        Some(named) => match distance_in_window(access.va, access.len, named) {
            None => None,
            Some(away) => whole(access.pa.wrapping_sub(away)),
        },
    }
}

/// The bytes that are read, in their own bits: the mask may have further ones.
pub fn expected_read_mask(access: &Accessed, named: Option<u64>) -> Option<ExpectedSignal>
    ensures { result ≡ expected_read_mask access.now named }
{
    match (distance_shown(access, named), access.read) {
        (Some(away), Some(_)) => {
            let mask = ones(away, access.len);
            Some(ExpectedSignal { value: mask, mask })
        }
        _ => None,
    }
}

/// What was read, in the bits of its bytes.
pub fn expected_read(access: &Accessed, named: Option<u64>) -> Option<ExpectedSignal>
    ensures { result ≡ expected_read access.now named }
{
    data_at(access.len, distance_shown(access, named), access.read)
}

/// What was written, in the bits of its bytes.
pub fn expected_write(access: &Accessed, named: Option<u64>) -> Option<ExpectedSignal>
    ensures { result ≡ expected_write access.now named }
{
    data_at(access.len, distance_shown(access, named), access.written)
}

/// Just the bytes that are written. Nothing is known of them where the row shows no address.
pub fn expected_write_mask(access: &Option<Accessed>, named: Option<u64>) -> Option<ExpectedSignal>
    ensures { result ≡ expected_write_mask access.now named }
{
    match access {
        None => whole(0),
        Some(access) => match access.written {
            None => whole(0),
            Some(_) => match distance_shown(access, named) {
                None => None,
                Some(away) => whole(ones(away, access.len)),
            },
        },
    }
}

/// How far the access begins above the row's address, where it lies in the eight bytes from there.
fn distance_shown(access: &Accessed, named: Option<u64>) -> Option<u64>
    ensures value { result ≡ distance_shown access.now named }
    ensures near { IfSome result (λ away. away + access.now.len ≤ 8) }
{
    match named {
        None => None,
        Some(named) => distance_in_window(access.va, access.len, named),
    }
}

/// A number in the bits of its bytes, which begin at byte `away`.
fn data_at(len: u8, away: Option<u64>, number: Option<u64>) -> Option<ExpectedSignal>
    requires { IfSome away (λ away. away + len ≤ 8) }
    ensures { result ≡ data_at len away number }
{
    match (away, number) {
        (Some(away), Some(value)) => Some(ExpectedSignal {
            value: moved_up(value, away),
            mask: byte_ones(away, len),
        }),
        _ => None,
    }
}
