//! A file read whole.

ghost use Rattle.std.specs.Prelude.{◌≡◌, ℕ, ◌%◌, IfOk, IsTrue, is_some};
ghost use Rattle.hart_words.specs.Spans.{LiesIn};
ghost use Rattle.hart_words.specs.Results.{Gives};
ghost use Rattle.image_text.specs.Bytes.{byte_at};
ghost use Rattle.elf_image.specs.Image.{elf_fault, elf_of};

use crate::fault::ElfError;
use crate::header::read_header;
use crate::program_header::{ENTRY_BYTES, program_header_at};
use crate::segments::{LoadedSegments, Segment};
use hart_words::Span;
use image_text::Pieces;
use std::alloc::Global;

/// The image that an ELF64 executable for RISC-V describes, and its entry point: each segment's
/// bytes at its physical addresses. Of the addresses past the bytes that a segment has in the file,
/// the pieces have none, so they stand for 0. The error is the first fault: of the ELF header and
/// the size of the program header table, then of each segment in turn.
pub fn read_elf(alloc: Global, file: &[u8], ram: Span) -> Result<(Pieces, u64), ElfError>
    ensures exact { Gives elf_fault (λ image. (byte_at image.0, image.1)) result
        (elf_of ram file.now) }
    ensures inside { IfOk result (λ image. (a : ℕ) → IsTrue (is_some (byte_at image.0 a))
        → LiesIn a ram) }
    ensures even { IfOk result (λ image. image.1 % 2 ≡ 0) }
{
    let header = read_header(file)?;
    let mut loaded = LoadedSegments::empty(alloc);
    for index in 0..header.phnum {
        let at = header.phoff + ENTRY_BYTES * u64::from(index);
        let segment = Segment {
            file,
            index,
            header: program_header_at(file, at as usize),
        };
        if segment.header.is_loading() {
            loaded.load(alloc, segment, ram)?;
        }
    }
    Ok((loaded.pieces, header.entry))
}
