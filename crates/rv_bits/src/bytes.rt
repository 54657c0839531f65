//! Operations on the bytes of a value.

ghost use Rattle.std.specs.Prelude.{◌≡◌, map, reverse};
ghost use Rattle.std.specs.Int.{w64, from_le_bytes, to_le_bytes};
ghost use Rattle.rv_bits.specs.Results.{filled_byte};

/// Each byte with every bit set where any is.
pub fn filled_bytes(a: u64) -> u64
    ensures { result ≡ from_le_bytes w64 (map filled_byte (to_le_bytes w64 a)) }
{
    u64::from_le_bytes(a.to_le_bytes().map(filled_byte))
}

/// A byte with every bit set where any is.
fn filled_byte(byte: u8) -> u8
    ensures { result ≡ filled_byte byte }
{
    if byte == 0 { 0 } else { 0xff }
}

/// The bytes in the opposite order.
#[tactic(auto, using(crate::proofs::Reversed::swapped))]
pub fn reversed_bytes(a: u64) -> u64
    ensures { result ≡ from_le_bytes w64 (reverse (to_le_bytes w64 a)) }
{
    a.swap_bytes()
}
