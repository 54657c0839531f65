//! The fields of lines, one after the other.

ghost use Rattle.std.specs.Prelude.{◌≡◌, List, ℕ, true, IfOk, IfSome, OnOk, OnErr, map};
ghost use Rattle.line_text.specs.Lines.{text_lines};
ghost use Rattle.csv.specs.Records.{fields_of};
ghost use Rattle.csv.specs.Reading.{strip_bom};
ghost use Rattle.csv_line.specs.Fields.{fields_of_line, trimmed_of};
ghost use Rattle.csv_line.specs.Readers.{StandsAt, StandsIfSome, ReadsLineFields};
ghost use Rattle.csv_line.specs.SharedLines.{IsShared};
ghost use Rattle.csv_line.specs.Next.{ReadsNext};

use crate::first_line::{is_simple, next_line};
use crate::{Fields, line_fields};
use csv::{ByteRecord, Error, Reader, ReaderBuilder};
use std::alloc::{AllocError, Global};
use std::marker::Model;

/// A line whose fields were read.
#[derive(Clone, Copy, Debug, PartialEq, Eq)]
pub struct LineRead {
    /// Whether a carriage return stands in it.
    pub has_return: bool,
}

/// Reads the fields of the lines of a text, one line after the other. One reader of `csv` serves
/// the lines for which it reads what it would read from each alone; any other line is read alone.
#[derive(Drop)]
pub struct LineReader<'t> {
    alloc: Global,
    /// The lines that are left.
    rest: &'t [u8],
    /// No quote and no carriage return stands in them.
    is_simple: bool,
    /// Stands at them, where it is there.
    reader: Option<Box<Reader<&'t [u8]>>>,
}

impl<'t> Model for LineReader<'t> {
    ghost use Rattle.std.specs.Prelude.{List, ℕ, IsTrue};
    ghost use Rattle.std.specs.List.{All};
    ghost use Rattle.line_text.specs.Lines.{text_lines};
    ghost use Rattle.csv_line.specs.Readers.{StandsIfSome};
    ghost use Rattle.csv_line.specs.SharedLines.{IsSimple};

    ghost Value = { List (List ℕ) };

    ghost view = { λ lines. text_lines lines.rest.now };

    ghost invariant = { λ lines. StandsIfSome lines.rest.now lines.reader
        × (IsTrue lines.is_simple → All IsSimple lines.rest.now) };
}

impl<'t> LineReader<'t> {
    /// A reader of the lines of `text`, each of which is followed by a line feed; it may be missing
    /// after the last.
    pub fn new(alloc: Global, text: &'t [u8]) -> LineReader<'t>
        ensures { result ≡ text_lines text.now }
    {
        LineReader {
            alloc,
            rest: text,
            is_simple: is_simple(text),
            reader: None,
        }
    }

    /// Reads the fields of the next line: those that `csv` reads from the line alone, as
    /// `line_fields` gives them. `None` where no line is left. Fails only where memory is refused;
    /// the line is then still to be read.
    pub fn next(&mut self, fields: &mut Fields) -> Result<Option<LineRead>, AllocError>
        ensures read { IfOk result
            (λ read. ReadsNext self.old fields.old read self.new fields.new) }
        ensures kept { OnErr result (self.new ≡ self.old) }
    {
        if self.rest.is_empty() {
            return Ok(None);
        }
        let first = next_line(self.rest, self.is_simple);
        let read = LineRead {
            has_return: first.has_return,
        };
        let reader = self.reader.take();
        if first.is_shared {
            if let Some(reader) = read_among(self.alloc, reader, self.rest, fields)? {
                self.reader = Some(reader);
                self.rest = first.rest;
                return Ok(Some(read));
            }
        }
        read_alone(self.alloc, first.line, fields)?;
        self.rest = first.rest;
        Ok(Some(read))
    }
}

/// Reads a line alone, as few want it. It stands apart since its large results would else be
/// zeroed for every line.
#[cold]
#[inline(never)]
fn read_alone(alloc: Global, line: &[u8], fields: &mut Fields) -> Result<(), AllocError>
    ensures { OnOk result (fields.new ≡ fields_of_line line.now) }
{
    *fields = line_fields(alloc, line)?;
    Ok(())
}

/// Reads the line at the front of `text` by a reader that stands there, or by a new one, and gives
/// the reader where it found a record.
fn read_among<'t>(
    alloc: Global,
    reader: Option<Box<Reader<&'t [u8]>>>,
    text: &'t [u8],
    fields: &mut Fields,
) -> Result<Option<Box<Reader<&'t [u8]>>>, AllocError>
    requires { StandsIfSome text.now reader }
    ensures { IfOk result (λ found. IfSome found (λ reader. (line rest : List ℕ)
        → IsShared text.now line rest → ReadsLineFields line rest fields.new reader.value)) }
{
    let mut reader = standing(alloc, reader, text)?;
    if read_on(&mut reader, &mut fields.record)? {
        Ok(Some(reader))
    } else {
        Ok(None)
    }
}

/// The reader, or a new one where there is none.
fn standing<'t>(
    alloc: Global,
    reader: Option<Box<Reader<&'t [u8]>>>,
    text: &'t [u8],
) -> Result<Box<Reader<&'t [u8]>>, AllocError>
    requires { StandsIfSome text.now reader }
    ensures { IfOk result (λ reader. strip_bom text.now ≡ text.now
        → StandsAt text.now reader.value) }
{
    match reader {
        Some(reader) => Ok(reader),
        None => new_reader(alloc, text),
    }
}

/// A new reader at the front of a text: one for many lines.
#[cold]
#[inline(never)]
fn new_reader<'t>(alloc: Global, text: &'t [u8]) -> Result<Box<Reader<&'t [u8]>>, AllocError>
    ensures { IfOk result (λ reader. strip_bom text.now ≡ text.now
        → StandsAt text.now reader.value) }
{
    Ok(Box::new(alloc, reader_at(alloc, text))?)
}

/// A reader that stands at the front of a text.
fn reader_at<'t>(alloc: Global, text: &'t [u8]) -> Reader<&'t [u8]>
    ensures { strip_bom text.now ≡ text.now → StandsAt text.now result }
{
    ReaderBuilder::new()
        .has_headers(false)
        .flexible(true)
        .from_reader(alloc, text)
}

/// Reads one record, and says whether there was one.
fn read_on(reader: &mut Reader<&[u8]>, row: &mut ByteRecord) -> Result<bool, AllocError>
    ensures { IfOk result (λ found. found ≡ true → (text line rest : List ℕ)
        → StandsAt text reader.old → IsShared text line rest
        → ReadsLineFields line rest (map trimmed_of (fields_of row.new)) reader.new) }
{
    found_of(reader.read_byte_record(row))
}

/// Whether there was a record. Over a slice a read fails only where memory is refused.
fn found_of(read: Result<bool, Error>) -> Result<bool, AllocError>
    ensures { IfOk result (λ found. read ≡ Ok found) }
{
    match read {
        Ok(found) => Ok(found),
        Err(_) => Err(AllocError),
    }
}
