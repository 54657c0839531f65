//! Masks of bits and bytes.

ghost use Rattle.std.specs.Prelude.{◌≡◌, ◌≤◌, ◌+◌};
ghost use Rattle.row_compare.specs.Memory.{ones, byte_ones};

/// `count` ones from bit `from` on.
pub fn ones(from: u64, count: u8) -> u64
    requires { from + count ≤ 8 }
    ensures { result ≡ ones from count }
{
    let past = from as u32 + u32::from(count);
    (1 << past) - (1 << from as u32)
}

/// The bits of `count` bytes from byte `from` on.
pub fn byte_ones(from: u64, count: u8) -> u64
    requires { from + count ≤ 8 }
    ensures { result ≡ byte_ones from count }
{
    let past = from as u32 + u32::from(count);
    ((1u128 << (8 * past)) - (1u128 << (8 * from as u32))) as u64
}
