//! The bytes of a block in two memories.

ghost use Rattle.std.specs.Prelude.{◌≡◌, ◌≤◌, ◌<◌, ◌^◌, ℕ, None, true, IfSome, OnOk};
ghost use Rattle.std.specs.Bool.{Decides};
ghost use Rattle.read_footprint.specs.Bits.{has_bit};
ghost use Rattle.read_footprint.specs.Ranges.{AreCounted, counts};
ghost use Rattle.read_footprint.specs.Sets.{AreIn, ArePartlyMoved, block_has_byte};

use crate::aligned_range::AlignedRange;
use crate::block::BLOCK_SIZE;
use hart_words::{NoMemory, PhysMem};

/// Whether two memories have the same bytes in a block, where its bits are set.
pub fn same_bytes<M: PhysMem, N: PhysMem>(one: &M, other: &N, number: u64, bits: u64) -> bool
    requires one { AreIn (M.ram one.now) number bits }
    requires other { AreIn (N.ram other.now) number bits }
    ensures { Decides result ((address : ℕ) → block_has_byte number bits address ≡ true
        → N.bytes other.now address ≡ M.bytes one.now address) }
{
    match block_range(number, bits) {
        None => true,
        Some(range) => same_range(one, other, range),
    }
}

/// Makes each byte of a block whose bit is set what it is in another memory.
pub fn move_bytes<M: PhysMem, N: PhysMem>(
    memory: &mut M,
    judged: &N,
    number: u64,
    bits: u64,
) -> Result<(), NoMemory>
    requires memory { AreIn (M.ram memory.old) number bits }
    requires judged { AreIn (N.ram judged.now) number bits }
    ensures ok { OnOk result ((address : ℕ) → block_has_byte number bits address ≡ true
        → M.bytes memory.new address ≡ N.bytes judged.now address) }
    ensures either { ArePartlyMoved (block_has_byte number bits) (N.bytes judged.now)
        (M.bytes memory.old) (M.bytes memory.new) }
    ensures ram { M.ram memory.new ≡ M.ram memory.old }
{
    match block_range(number, bits) {
        None => Ok(()),
        Some(range) => move_range(memory, judged, range),
    }
}

/// The bytes of a block, or none where they have no addresses of 64 bits.
fn block_range(number: u64, bits: u64) -> Option<AlignedRange>
    ensures inside { IfSome result (λ range. (address : ℕ)
        → counts range address ≡ block_has_byte number bits address) }
    ensures none { result ≡ None → 2 ^ 58 ≤ number }
{
    let pa = number.checked_mul(BLOCK_SIZE)?;
    Some(AlignedRange { pa, power: 6, bits })
}

/// Whether two memories have the same bytes in a range, where they count: number by number, so that
/// a page is found once for each.
fn same_range<M: PhysMem, N: PhysMem>(one: &M, other: &N, range: AlignedRange) -> bool
    requires one { AreCounted (M.ram one.now) range }
    requires other { AreCounted (N.ram other.now) range }
    ensures { Decides result ((address : ℕ) → counts range address ≡ true
        → N.bytes other.now address ≡ M.bytes one.now address) }
{
    if range.is_empty() {
        return true;
    }
    if range.is_number() {
        return same_number(one, other, range);
    }
    let (front, back) = range.halves();
    same_range(one, other, front) && same_range(one, other, back)
}

/// Makes each byte of a range that counts what it is in another memory.
fn move_range<M: PhysMem, N: PhysMem>(
    memory: &mut M,
    judged: &N,
    range: AlignedRange,
) -> Result<(), NoMemory>
    requires memory { AreCounted (M.ram memory.old) range }
    requires judged { AreCounted (N.ram judged.now) range }
    ensures ok { OnOk result ((address : ℕ) → counts range address ≡ true
        → M.bytes memory.new address ≡ N.bytes judged.now address) }
    ensures either { ArePartlyMoved (counts range) (N.bytes judged.now)
        (M.bytes memory.old) (M.bytes memory.new) }
    ensures ram { M.ram memory.new ≡ M.ram memory.old }
{
    if range.is_empty() {
        return Ok(());
    }
    if range.is_number() {
        return move_number(memory, judged, range);
    }
    let (front, back) = range.halves();
    move_range(memory, judged, front)?;
    move_range(memory, judged, back)
}

/// Whether two memories have the same number in a range all of whose bytes count.
fn same_number<M: PhysMem, N: PhysMem>(one: &M, other: &N, range: AlignedRange) -> bool
    requires at_most_3 { range.power ≤ 3 }
    requires all { (k : ℕ) → k < 2 ^ range.power → has_bit range.bits k ≡ true }
    requires one { AreCounted (M.ram one.now) range }
    requires other { AreCounted (N.ram other.now) range }
    ensures { Decides result ((address : ℕ) → counts range address ≡ true
        → N.bytes other.now address ≡ M.bytes one.now address) }
{
    let len = range.len() as u8;
    other.read(range.pa, len) == one.read(range.pa, len)
}

/// Makes the number in a range all of whose bytes count what it is in another memory.
fn move_number<M: PhysMem, N: PhysMem>(
    memory: &mut M,
    judged: &N,
    range: AlignedRange,
) -> Result<(), NoMemory>
    requires at_most_3 { range.power ≤ 3 }
    requires all { (k : ℕ) → k < 2 ^ range.power → has_bit range.bits k ≡ true }
    requires memory { AreCounted (M.ram memory.old) range }
    requires judged { AreCounted (N.ram judged.now) range }
    ensures ok { OnOk result ((address : ℕ) → counts range address ≡ true
        → M.bytes memory.new address ≡ N.bytes judged.now address) }
    ensures either { ArePartlyMoved (counts range) (N.bytes judged.now)
        (M.bytes memory.old) (M.bytes memory.new) }
    ensures ram { M.ram memory.new ≡ M.ram memory.old }
{
    let len = range.len() as u8;
    memory.write(range.pa, len, judged.read(range.pa, len))
}
