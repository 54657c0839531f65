//! The lines of memory.

ghost use Rattle.std.specs.Prelude.{◌≡◌, ◌<◌, ◌≤◌, ◌%◌, ◌+◌, ◌^◌, ℕ, length, IfOk, IsTrue, is_some};
ghost use Rattle.hart_words.specs.Results.{Gives, result_view};
ghost use Rattle.hart_words.specs.Spans.{LiesIn};
ghost use Rattle.image_text.specs.Bytes.{byte_at};
ghost use Rattle.state_text.specs.Reading.{is_zero, is_no_block, block_in};
ghost use Rattle.state_text.specs.Memory.{memory_in, memory_of};
ghost use Rattle.state_text.specs.Texts.{state_fault};
ghost use Rattle.state_text.specs.Views.{remaining_of, value_and_remaining};

use crate::fault::{FaultKind, StateError, StateFault};
use crate::guess::{guess_of_number, guess_of_sixteen_bytes};
use crate::line::block_line;
use crate::remaining::Remaining;
use hart_words::Span;
use image_text::Pieces;
use std::alloc::Global;

/// 16 bytes at an address.
#[derive(Clone, Copy)]
pub struct MemoryBlock {
    pub address: u64,
    pub bytes: [u8; 16],
}

impl MemoryBlock {
    ghost use Rattle.std.specs.Prelude.{◌≡◌};
    ghost use Rattle.state_text.specs.Reading.{is_no_block};

    /// Whether no block is saved that is like this: one of zeros, at no multiple of 16, or below
    /// the least address that it may have.
    fn is_no_block(&self, least: u64) -> bool
        ensures { result ≡ is_no_block least self.now }
    {
        is_zero(&self.bytes) || self.address % 16 != 0 || self.address < least
    }
}

/// Whether all bytes are 0.
pub(crate) fn is_zero(bytes: &[u8]) -> bool
    ensures { result ≡ is_zero bytes.now }
{
    bytes.iter().all(|byte| *byte == 0)
}

/// Memory after the blocks of a text and its end, or the first fault. What is left of the text is
/// read to its end.
pub fn read_memory(alloc: Global, remaining: Remaining<'_>, ram: Span) -> Result<Pieces, StateError>
    ensures exact { Gives state_fault memory_of result
        (memory_in ram (length remaining.entry.text.now + 1) 0 (λ _. 0) (remaining_of remaining.entry)) }
    ensures inside { IfOk result (λ pieces. (a : ℕ) → IsTrue (is_some (byte_at pieces a))
        → LiesIn a ram) }
{
    let mut pieces = Pieces::empty(alloc);
    let mut least = 0;
    let mut remaining = remaining;
    'blocks: loop {
        if let Some(after) = remaining.after(b"end\n") {
            if after.text.is_empty() {
                return Ok(pieces);
            }
            return Err(StateError::Fault(after.fault(FaultKind::BadLine)));
        }
        let (block, after) = read_block(remaining, ram, least)?;
        pieces.put_bytes(alloc, block.address, &block.bytes)?;
        least = block.address + 16;
        remaining = after;
    }
}

/// The block of the next line, at or above the least address that it may have.
#[tactic(auto, unfolding(crate::specs::Reading::block_in, crate::specs::Reading::choice_in))]
fn read_block(
    remaining: Remaining<'_>,
    ram: Span,
    least: u64,
) -> Result<(MemoryBlock, Remaining<'_>), StateFault>
    ensures block { result_view value_and_remaining result ≡ block_in ram least (remaining_of remaining.entry) }
    ensures less { IfOk result (λ read. length read.1.text.now < length remaining.entry.text.now) }
    ensures place { IfOk result (λ read. read.0.address % 16 ≡ 0) }
    ensures low { IfOk result (λ read. ram.base ≤ read.0.address) }
    ensures high { IfOk result (λ read. read.0.address + 16 ≤ ram.base + ram.size) }
{
    let block = MemoryBlock {
        address: guess_of_number(1, remaining.text),
        bytes: guess_of_sixteen_bytes(18, remaining.text),
    };
    let Some(after) = remaining.after(block_line(block.address, &block.bytes).as_slice()) else {
        return Err(remaining.fault(FaultKind::BadLine));
    };
    if block.is_no_block(least) {
        return Err(remaining.fault(FaultKind::BadLine));
    }
    if !ram.holds(block.address, 16) {
        return Err(remaining.fault(FaultKind::OutsideRam));
    }
    Ok((block, after))
}
