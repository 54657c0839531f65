//! What holds of every file that is an image.

ghost use Rattle.std.specs.Prelude.{◌≡◌, ◌<◌, ◌↔◌, ℕ, List, Option, Ok, true};
ghost use Rattle.hart_words.specs.declared.span.Span.{Span};
ghost use Rattle.elf_image.specs.declared.program_header.ProgramHeader.{ProgramHeader};
ghost use Rattle.elf_image.specs.Segments.{overlaps};
ghost use Rattle.elf_image.specs.Image.{elf_of};
ghost use Rattle.elf_image.specs.Laws.{HasSegments, HaveInCommon};

/// Each byte of a segment that is loaded is its byte in the file, or 0 past those; every other byte
/// of memory is 0.
#[tactic(auto, using(crate::proofs::Loadings::has_segments))]
pub fn images_have_their_segments()
    ensures { (ram : Span) (file : List ℕ) (image : (ℕ → Option ℕ) × ℕ) → elf_of ram file ≡ Ok image
        → HasSegments ram file image }
{}

/// Two segments overlap where an address is one of both.
pub fn overlaps_are_addresses_in_common()
    ensures { (one other : ProgramHeader) → 0 < one.memsz → 0 < other.memsz
        → (overlaps one other ≡ true) ↔ ((address : ℕ) × HaveInCommon one other address) }
{}
