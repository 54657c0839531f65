//! The fields of lines of comma-separated values. The bytes of a line go in; its fields come out in
//! order, less the spaces and tabs at their ends, by specs/Fields.antt, which stands on what the
//! crate `csv` defines of its default dialect. `line_fields` takes one line, `LineReader` a text of
//! many (specs/Next.antt), with the same fields. No other standard is followed: RFC 4180 allows
//! line feeds inside quotes, and a line has none.
#![tactic(auto)]

ghost use Rattle.std.specs.Prelude.{◌≡◌, ◌↔◌, List, ℕ, [], length, slice_get, option_map, IfOk, IsTrue};
ghost use Rattle.csv_line.specs.Fields.{fields_of_line, trimmed_start_of, trimmed_end_of, trimmed_of};

mod first_line;
mod line_reader;

use csv::{ByteRecord, ReaderBuilder};
pub use line_reader::{LineRead, LineReader};
use std::alloc::{AllocError, Global};
use std::marker::Model;

/// The fields of a line, in order, less the spaces and tabs at their ends.
#[derive(Debug, Drop)]
pub struct Fields {
    record: ByteRecord,
}

impl Model for Fields {
    ghost use Rattle.std.specs.Prelude.{List, ℕ};
    ghost use Rattle.csv_line.specs.Fields.{trimmed_fields};

    ghost Value = { List (List ℕ) };

    ghost view = { trimmed_fields };
}

/// The fields that `csv` reads from `line` alone, by its defaults and with no header row: those of
/// the first record. A line with no record has no fields. Spaces and tabs at both ends of a field
/// are dropped, also where they stood inside quotes. Fails only where memory is refused.
#[tactic(auto, unfolding(crate::specs::Fields::fields_of_line))]
pub fn line_fields(alloc: Global, line: &[u8]) -> Result<Fields, AllocError>
    ensures { IfOk result (λ fields. fields ≡ fields_of_line line.now) }
{
    let mut reader = ReaderBuilder::new()
        .has_headers(false)
        .from_reader(alloc, line);
    let mut record = ByteRecord::new(alloc);
    match reader.read_byte_record(&mut record) {
        // Nothing else can fail over a slice.
        Err(_) => Err(AllocError),
        Ok(true) => Ok(Fields { record }),
        Ok(false) => Ok(Fields {
            record: ByteRecord::new(alloc),
        }),
    }
}

impl Fields {
    /// No fields: a place for those of a line.
    pub fn new(alloc: Global) -> Fields
        ensures { result ≡ [] }
    {
        Fields {
            record: ByteRecord::new(alloc),
        }
    }

    /// How many fields there are.
    pub fn len(&self) -> usize
        ensures { result ≡ length self.now }
    {
        self.record.len()
    }

    /// Whether there are none, as of a line with no record.
    pub fn is_empty(&self) -> bool
        ensures { IsTrue result ↔ (self.now ≡ []) }
    {
        self.len() == 0
    }

    /// The field at `index`, from 0; none from the number of fields on.
    pub fn get(&self, index: usize) -> Option<&[u8]>
        ensures { option_map (λ field. field.now) result ≡ slice_get self.now index }
    {
        match self.record.get(index) {
            None => None,
            Some(field) => Some(trim(field)),
        }
    }

    /// The same with the spaces and tabs at its ends, for who can tell most fields without a look
    /// for them: `trim` takes them off.
    #[inline(always)]
    pub fn untrimmed(&self, index: usize) -> Option<&[u8]>
        ensures { option_map (λ field. trimmed_of field.now) result ≡ slice_get self.now index }
    {
        self.record.get(index)
    }
}

/// A text less the spaces and tabs at both ends.
#[tactic(auto, unfolding(crate::specs::Fields::trimmed_of))]
pub fn trim(text: &[u8]) -> &[u8]
    ensures { result.now ≡ trimmed_of text.now }
{
    trim_end(trim_start(text))
}

/// A text less the spaces and tabs at its front.
fn trim_start(text: &[u8]) -> &[u8]
    ensures { result.now ≡ trimmed_start_of text.now }
{
    let mut rest = text;
    while let [b' ' | b'\t', more @ ..] = rest {
        rest = more;
    }
    rest
}

/// A text less the spaces and tabs at its end.
fn trim_end(text: &[u8]) -> &[u8]
    ensures { result.now ≡ trimmed_end_of text.now }
{
    let mut end = text.len();
    while end > 0 && (text[end - 1] == b' ' || text[end - 1] == b'\t') {
        end -= 1;
    }
    &text[..end]
}
