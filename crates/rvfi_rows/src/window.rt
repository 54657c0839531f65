//! The eight bytes that a row shows of memory, after riscv-formal's description of RVFI.

ghost use Rattle.std.specs.Prelude.{◌≡◌, ◌≤◌, ◌+◌, IfSome};
ghost use Rattle.rvfi_rows.specs.Window.{distance_in_window, moved_down, moved_up};

/// How far an access of `len` bytes from `va` on begins above the address that a row shows, where
/// all its bytes are among the eight from there on; sums of addresses are modulo 2^64.
pub fn distance_in_window(va: u64, len: u8, mem_addr: u64) -> Option<u64>
    ensures value { result ≡ distance_in_window va len mem_addr }
    ensures near { IfSome result (λ distance. distance + len ≤ 8) }
{
    let above = va.wrapping_sub(mem_addr);
    if above <= 8 && above + u64::from(len) <= 8 {
        Some(above)
    } else {
        None
    }
}

/// A number of eight bytes whose lowest byte is moved up to byte `away`; what is above the eight is
/// lost.
pub fn moved_up(value: u64, away: u64) -> u64
    requires { away ≤ 8 }
    ensures { result ≡ moved_up value away }
{
    if away == 8 {
        return 0;
    }
    value.wrapping_mul(256u64.pow(away as u32))
}

/// A number of eight bytes of which byte `away` is moved down to the lowest.
pub fn moved_down(value: u64, away: u64) -> u64
    requires { away ≤ 8 }
    ensures { result ≡ moved_down value away }
{
    (u128::from(value) / 256u128.pow(away as u32)) as u64
}
