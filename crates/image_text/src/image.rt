//! A text read whole.

ghost use Rattle.std.specs.Prelude.{◌≡◌, ℕ, IfOk, IsTrue, is_some};
ghost use Rattle.hart_words.specs.Spans.{LiesIn};
ghost use Rattle.image_text.specs.Bytes.{byte_at};
ghost use Rattle.hart_words.specs.Results.{Gives};
ghost use Rattle.image_text.specs.Image.{image_fault, image_of};

use crate::fault::{FaultKind, ImageError, ImageFault};
use crate::pieces::Pieces;
use crate::tokens::{Rest, Step, Token, next_step};
use crate::word::{Word, read_word};
use hart_words::Span;
use std::alloc::Global;

/// The image that a Verilog memory text of bytes describes, as `$readmemh` reads it: `@` and 1 to
/// 16 hexadecimal digits set the address, two digits put a byte there, and blanks and comments
/// separate. The error is the first fault in text order.
pub fn read_image(alloc: Global, text: &[u8], ram: Span) -> Result<Pieces, ImageError>
    ensures exact { Gives image_fault byte_at result (image_of ram text.now) }
    ensures inside { IfOk result (λ pieces. (a : ℕ) → IsTrue (is_some (byte_at pieces a))
        → LiesIn a ram) }
{
    let mut image = PartialImage {
        pieces: Pieces::empty(alloc),
        address: 0,
    };
    let mut rest = Rest { line: 1, text };
    loop {
        match next_step(rest) {
            Step::Skipped(after) => rest = after,
            Step::Found(token, after) => {
                image.take(alloc, token, ram)?;
                rest = after;
            }
            Step::End => return Ok(image.pieces),
        }
    }
}

/// An image read so far, and the address of the next byte.
#[derive(Drop)]
struct PartialImage {
    pieces: Pieces,
    address: u64,
}

impl PartialImage {
    ghost use Rattle.image_text.specs.Taking.{TakeGives};

    /// Does what a token says.
    fn take(&mut self, alloc: Global, token: Token<'_>, ram: Span) -> Result<(), ImageError>
        ensures { TakeGives ram self.old token.entry self.new result }
    {
        match read_word(token.bytes) {
            Err(kind) => Err(fault_in(token.line, kind)),
            Ok(Word::Address(address)) => {
                self.address = address;
                Ok(())
            }
            Ok(Word::Byte(value)) => {
                if !ram.contains(self.address) {
                    return Err(fault_in(token.line, FaultKind::OutsideRam));
                }
                if self.pieces.byte(self.address).is_some() {
                    return Err(fault_in(token.line, FaultKind::Overlap));
                }
                self.pieces.put(alloc, self.address, value)?;
                self.address = self.address.wrapping_add(1);
                Ok(())
            }
        }
    }
}

fn fault_in(line: u64, kind: FaultKind) -> ImageError
    ensures { result ≡ ImageError.Fault (record { kind = kind; line = line }) }
{
    ImageError::Fault(ImageFault { kind, line })
}
