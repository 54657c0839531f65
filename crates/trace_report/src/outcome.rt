//! What a run of the judge comes to, and its status.

ghost use Rattle.std.specs.Prelude.{◌≡◌};
ghost use Rattle.trace_report.specs.Report.{ruling_status, status_of};

use elf_image::ElfFault;
use image_text::ImageFault;
use rvfi_rows::{HeaderFault, Verdict};
use state_text::StateFault;

/// What is ruled of words, an image and a trace.
#[derive(Clone, Copy, Debug, PartialEq, Eq)]
pub enum Ruling {
    /// The words are no command.
    NoJob,
    /// The image has more bytes than `most`.
    ImageTooLarge { most: u64 },
    /// The text of the image is none.
    ImageFault(ImageFault),
    /// The ELF file is no image.
    ElfFault(ElfFault),
    /// The text is no saved state.
    StateFault(StateFault),
    /// The trace has no line, and so no header.
    NoHeader,
    /// The first line of the trace is no header.
    HeaderFault(HeaderFault),
    /// The line of this number, from 1, has more than 65,536 bytes before its line feed.
    TooLong { line: u64 },
    /// The trace has more bytes than `most`, and what stands before the last of them was judged.
    TraceTooLarge { most: u64 },
    /// What the rows of the trace come to.
    Verdict(Verdict),
}

/// The two numbers of an image and a trace that were made.
#[derive(Clone, Copy, Debug, PartialEq, Eq)]
pub struct Made {
    pub number: u32,
    pub rows: u32,
}

/// What a run of the judge comes to: the ruling, and of what was made, where it was.
#[derive(Clone, Copy, Debug, PartialEq, Eq)]
pub struct Outcome {
    pub made: Option<Made>,
    pub ruling: Ruling,
}

/// The status of an outcome: 0 where the trace agrees, 1 where it differs, 2 for refused words, 3
/// for a refused image, 4 for a refused trace.
pub fn status(outcome: &Outcome) -> u8
    ensures { result ≡ status_of outcome.now }
{
    ruling_status(&outcome.ruling)
}

/// The status of a ruling.
fn ruling_status(ruling: &Ruling) -> u8
    ensures { result ≡ ruling_status ruling.now }
{
    match ruling {
        Ruling::NoJob => 2,
        Ruling::ImageTooLarge { .. }
        | Ruling::ImageFault(_)
        | Ruling::ElfFault(_)
        | Ruling::StateFault(_) => 3,
        Ruling::NoHeader
        | Ruling::HeaderFault(_)
        | Ruling::TooLong { .. }
        | Ruling::TraceTooLarge { .. }
        | Ruling::Verdict(Verdict::Refused { .. }) => 4,
        Ruling::Verdict(Verdict::Agrees { .. }) => 0,
        Ruling::Verdict(Verdict::Differs { .. }) => 1,
    }
}
