//! Segments, loaded one after another.

ghost use Rattle.std.specs.Prelude.{◌≡◌, ◌+◌, ◌%◌, ◌<◌, ◌^◌, length, OnOk};
ghost use Rattle.image_text.specs.Bytes.{byte_at};
ghost use Rattle.image_text.specs.Runs.{with_bytes};
ghost use Rattle.hart_words.specs.declared.span.TheConstants.{PAGE_SIZE};

use crate::fault::{ElfError, ElfFault};
use crate::program_header::ProgramHeader;
use hart_words::{PAGE_SIZE, Span};
use image_text::Pieces;
use std::alloc::{AllocError, Global};
use std::collections::BTreeMap;

/// A segment of a file, with its place in the program header table.
#[derive(Clone, Copy)]
pub struct Segment<'a> {
    pub file: &'a [u8],
    pub index: u16,
    pub header: ProgramHeader,
}

impl Segment<'_> {
    ghost use Rattle.std.specs.Prelude.{◌≡◌, length, false};
    ghost use Rattle.elf_image.specs.Segments.{has_bad_size};
    ghost use Rattle.elf_image.specs.Loading.{IsFilePart};

    /// The bytes that the segment has in the file.
    fn file_bytes(&self) -> &[u8]
        requires { has_bad_size (length self.now.file.now) self.now.header ≡ false }
        ensures { IsFilePart self.now.file.now self.now.header result.now }
    {
        if self.header.filesz == 0 {
            return &[];
        }
        let start = self.header.offset as usize;
        &self.file[start..start + self.header.filesz as usize]
    }
}

/// What the segments so far have: their bytes, and the end of each by its first address.
#[derive(Drop)]
pub struct LoadedSegments {
    pub pieces: Pieces,
    ends: BTreeMap<u64, u64>,
}

impl LoadedSegments {
    ghost use Rattle.std.specs.Prelude.{◌≡◌, ◌+◌, ◌<◌, ◌^◌, ℕ, List, [], true, false, length, OnOk};
    ghost use Rattle.std.specs.List.{list_any};
    ghost use Rattle.elf_image.specs.declared.program_header.ProgramHeader.{ProgramHeader};
    ghost use Rattle.elf_image.specs.Segments.{is_loading, has_bad_size, overlaps};
    ghost use Rattle.elf_image.specs.Loading.{HoldsSegments, LoadGives, KeepsSegment, checked_after};

    /// No segment.
    pub fn empty(alloc: Global) -> LoadedSegments
        ensures { (file : List ℕ) → HoldsSegments file [] result }
    {
        LoadedSegments {
            pieces: Pieces::empty(alloc),
            ends: BTreeMap::new(alloc),
        }
    }

    /// Loads a segment, unless it has a fault.
    pub fn load(&mut self, alloc: Global, segment: Segment<'_>, ram: Span) -> Result<(), ElfError>
        requires { is_loading segment.header ≡ true }
        ensures { LoadGives ram segment.entry self.old self.new result }
    {
        self.check(segment, ram)?;
        self.keep(alloc, segment)?;
        Ok(())
    }

    /// The first fault of a segment after those so far.
    fn check(&self, segment: Segment<'_>, ram: Span) -> Result<(), ElfFault>
        ensures size { OnOk result
            (has_bad_size (length segment.entry.file.now) segment.entry.header ≡ false) }
        ensures room { OnOk result
            (segment.entry.header.paddr + segment.entry.header.memsz < 2 ^ 64) }
        ensures exact { (earlier : List ProgramHeader)
            → HoldsSegments segment.entry.file.now earlier self.now
            → result ≡ checked_after ram segment.entry earlier }
    {
        let index = segment.index;
        if segment.header.has_bad_size(segment.file.len() as u64) {
            return Err(ElfFault::BadSegment { index });
        }
        if !segment.header.lies_in(&ram) {
            return Err(ElfFault::OutsideRam { index });
        }
        if self.overlaps(&segment.header) {
            return Err(ElfFault::Overlap { index });
        }
        Ok(())
    }

    /// Whether a segment has an address that one of those so far has. They have none in common, so
    /// that the last of those that begin before the segment's end is also the last to end.
    fn overlaps(&self, header: &ProgramHeader) -> bool
        requires { header.now.paddr + header.now.memsz < 2 ^ 64 }
        ensures { (file : List ℕ) (earlier : List ProgramHeader)
            → HoldsSegments file earlier self.now
            → result ≡ list_any (overlaps header.now) earlier }
    {
        match self.ends.range(..header.paddr + header.memsz).next_back() {
            Some((_, end)) => header.paddr < *end,
            None => false,
        }
    }

    /// Keeps a segment that has no fault.
    fn keep(&mut self, alloc: Global, segment: Segment<'_>) -> Result<(), AllocError>
        requires loading { is_loading segment.header ≡ true }
        requires size { has_bad_size (length segment.file.now) segment.header ≡ false }
        requires room { segment.header.paddr + segment.header.memsz < 2 ^ 64 }
        ensures { OnOk result (KeepsSegment segment.entry self.old self.new) }
    {
        put_bytes(
            &mut self.pieces,
            alloc,
            segment.header.paddr,
            segment.file_bytes(),
        )?;
        let end = segment.header.paddr + segment.header.memsz;
        self.ends.insert(segment.header.paddr, end)?;
        Ok(())
    }
}

/// Puts bytes from an address on, page by page.
fn put_bytes(
    pieces: &mut Pieces,
    alloc: Global,
    address: u64,
    bytes: &[u8],
) -> Result<(), AllocError>
    requires { address + length bytes.now < 2 ^ 64 }
    ensures { OnOk result (byte_at pieces.new
        ≡ with_bytes (byte_at pieces.old) address bytes.now) }
{
    let mut at = address;
    let mut rest = bytes;
    while !rest.is_empty() {
        let (part, after) = rest.split_at(rest.len().min(room_after(at)));
        pieces.put_bytes(alloc, at, part)?;
        at += part.len() as u64;
        rest = after;
    }
    Ok(())
}

/// How many bytes an address's page has from it on.
fn room_after(address: u64) -> usize
    ensures { address % PAGE_SIZE + result ≡ PAGE_SIZE }
{
    (PAGE_SIZE - address % PAGE_SIZE) as usize
}
