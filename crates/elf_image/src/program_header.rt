//! The program headers.

ghost use Rattle.std.specs.Prelude.{◌≡◌, ◌+◌, ◌≤◌, length};
ghost use Rattle.elf_image.specs.Headers.{program_header_at};

use crate::header::number_at_offset;
use hart_words::Span;

/// The bytes of a program header.
pub const ENTRY_BYTES: u64 = 56;

/// What `kind` has for a segment that is loaded.
const LOADABLE: u32 = 1;

/// The fields of a program header that count.
#[derive(Clone, Copy)]
pub struct ProgramHeader {
    pub kind: u32,
    pub offset: u64,
    pub paddr: u64,
    pub filesz: u64,
    pub memsz: u64,
}

impl ProgramHeader {
    ghost use Rattle.std.specs.Prelude.{◌≡◌, ◌+◌, ◌≤◌, ◌^◌, IsTrue};
    ghost use Rattle.hart_words.specs.Spans.{holds_all};
    ghost use Rattle.elf_image.specs.Segments.{is_loading, has_bad_size};

    /// Whether the segment is loaded and has a byte in memory.
    pub fn is_loading(&self) -> bool
        ensures { result ≡ is_loading self.now }
    {
        self.kind == LOADABLE && self.memsz != 0
    }

    /// Whether the segment has more bytes in the file than in memory, or bytes past the end of a
    /// file of `len` bytes.
    pub fn has_bad_size(&self, len: u64) -> bool
        ensures { result ≡ has_bad_size len self.now }
    {
        self.memsz < self.filesz
            || self.filesz != 0 && (len < self.filesz || len - self.filesz < self.offset)
    }

    /// Whether the segment lies wholly in RAM.
    pub fn lies_in(&self, ram: &Span) -> bool
        ensures value { result ≡ holds_all ram.now self.now.paddr self.now.memsz }
        ensures narrow { IsTrue result → self.now.paddr + self.now.memsz ≤ 2 ^ 56 }
    {
        ram.base <= self.paddr
            && self.memsz <= ram.size
            && self.paddr - ram.base <= ram.size - self.memsz
    }
}

/// The program header at an offset.
pub fn program_header_at(file: &[u8], at: usize) -> ProgramHeader
    requires { at + 56 ≤ length file.now }
    ensures { result ≡ program_header_at file.now at }
{
    ProgramHeader {
        kind: number_at_offset(file, at, 4) as u32,
        offset: number_at_offset(file, at + 8, 8),
        paddr: number_at_offset(file, at + 24, 8),
        filesz: number_at_offset(file, at + 32, 8),
        memsz: number_at_offset(file, at + 40, 8),
    }
}
