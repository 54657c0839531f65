//! The first line of a text, and whether one reader of `csv` can serve it among others.

ghost use Rattle.std.specs.Prelude.{◌≡◌, ◌≢◌, ◌<◌, ◌≤◌, ◌∷◌, ℕ, length, IsTrue, take, slice_index, false};
ghost use Rattle.std.specs.List.{All};
ghost use Rattle.memchr.specs.Find.{IsFirstByte, is_byte3};
ghost use Rattle.line_text.specs.Lines.{text_lines, IsLine, line_feed};
ghost use Rattle.csv.specs.Machine.{step};
ghost use Rattle.csv.specs.Reading.{default_config};
ghost use Rattle.csv.specs.declared.parser.State.TheVariants.{StartField, InQuoted};
ghost use Rattle.csv_line.specs.Fields.{has_return_in};
ghost use Rattle.csv_line.specs.SharedLines.{EndsAt, IsPlain, IsSimple, IsUnmarked, IsShareable, IsShared, machine_state_after, machine_state_of, EndsNoRecord};

use memchr::{memchr, memchr3};

/// The first line of a text.
#[derive(Clone, Copy)]
pub struct FirstLine<'t> {
    /// Its bytes, less the line feed.
    pub line: &'t [u8],
    /// What follows the line feed.
    pub rest: &'t [u8],
    /// Whether a carriage return stands in it.
    pub has_return: bool,
    /// Whether a reader that stands at the text reads from it what it would read from the line
    /// alone, and stands at the rest then.
    pub is_shared: bool,
}

/// Whether neither a quote nor a carriage return stands in a text, as in most.
pub fn is_simple(text: &[u8]) -> bool
    ensures { IsTrue result → All IsSimple text.now }
{
    memchr(b'"', text).is_none() && memchr(b'\r', text).is_none()
}

/// The first line of a text. In a simple text a search for one byte finds its end, which is much
/// quicker than a search for three.
pub fn next_line(text: &[u8], is_simple: bool) -> FirstLine<'_>
    requires nonempty { 0 < length text.now }
    requires simple { IsTrue is_simple → All IsSimple text.now }
    ensures lines { text_lines text.now ≡ result.line.now ∷ text_lines result.rest.now }
    ensures returns { result.has_return ≡ has_return_in result.line.now }
    ensures shared { IsTrue result.is_shared
        → IsShared text.now result.line.now result.rest.now }
    ensures simple { All IsSimple text.now → All IsSimple result.rest.now }
{
    if !is_simple {
        return first_line(text);
    }
    match memchr(b'\n', text) {
        None => last_line(text),
        Some(end) => plain_line(text, end),
    }
}

/// The first line of a text that has one.
fn first_line(text: &[u8]) -> FirstLine<'_>
    requires { 0 < length text.now }
    ensures lines { text_lines text.now ≡ result.line.now ∷ text_lines result.rest.now }
    ensures returns { result.has_return ≡ has_return_in result.line.now }
    ensures shared { IsTrue result.is_shared
        → IsShared text.now result.line.now result.rest.now }
    ensures simple { All IsSimple text.now → All IsSimple result.rest.now }
{
    match first_mark(text) {
        None => last_line(text),
        Some(place) => {
            if text[place] == b'\n' {
                plain_line(text, place)
            } else {
                other_line(text)
            }
        }
    }
}

/// How many bytes are searched for marks first. Most lines end in fewer, and a search of so few is
/// quicker than one of a long text.
const SHORT: usize = 128;

/// The place of the first quote, carriage return or line feed.
fn first_mark(text: &[u8]) -> Option<usize>
    ensures { IsFirstByte (is_byte3 34 13 10) text.now result }
{
    let found = memchr3(b'"', b'\r', b'\n', &text[..SHORT.min(text.len())]);
    if found.is_some() {
        return found;
    }
    memchr3(b'"', b'\r', b'\n', text)
}

/// The line that ends at a line feed, with no quote and no carriage return in it.
fn plain_line(text: &[u8], end: usize) -> FirstLine<'_>
    requires within { end < length text.now }
    requires feed { slice_index text.now end ≡ line_feed }
    requires plain { All IsPlain (take end text.now) }
    ensures lines { text_lines text.now ≡ result.line.now ∷ text_lines result.rest.now }
    ensures returns { result.has_return ≡ has_return_in result.line.now }
    ensures shared { IsTrue result.is_shared
        → IsShared text.now result.line.now result.rest.now }
    ensures simple { All IsSimple text.now → All IsSimple result.rest.now }
{
    let is_shared = is_unmarked(&text[..end]);
    ended_line(text, end, false, is_shared)
}

/// The first line of a text in which a quote or a carriage return stands.
fn other_line(text: &[u8]) -> FirstLine<'_>
    requires { 0 < length text.now }
    ensures lines { text_lines text.now ≡ result.line.now ∷ text_lines result.rest.now }
    ensures returns { result.has_return ≡ has_return_in result.line.now }
    ensures shared { IsTrue result.is_shared
        → IsShared text.now result.line.now result.rest.now }
    ensures simple { All IsSimple text.now → All IsSimple result.rest.now }
{
    match memchr(b'\n', text) {
        None => last_line(text),
        Some(end) => {
            let line = &text[..end];
            let has_return = returns_in(line);
            let is_shared = is_shareable(line, has_return);
            ended_line(text, end, has_return, is_shared)
        }
    }
}

/// A text that is one line without a line feed.
fn last_line(text: &[u8]) -> FirstLine<'_>
    requires nonempty { 0 < length text.now }
    requires line { IsLine text.now }
    ensures lines { text_lines text.now ≡ result.line.now ∷ text_lines result.rest.now }
    ensures returns { result.has_return ≡ has_return_in result.line.now }
    ensures shared { result.is_shared ≡ false }
    ensures simple { All IsSimple text.now → All IsSimple result.rest.now }
{
    FirstLine {
        line: text,
        rest: &text[text.len()..],
        has_return: returns_in(text),
        is_shared: false,
    }
}

/// The line that ends at a line feed.
fn ended_line(text: &[u8], end: usize, has_return: bool, is_shared: bool) -> FirstLine<'_>
    requires ended { EndsAt text.now end }
    requires returns { has_return ≡ has_return_in (take end text.now) }
    requires shareable { IsTrue is_shared → IsShareable (take end text.now) }
    ensures lines { text_lines text.now ≡ result.line.now ∷ text_lines result.rest.now }
    ensures returns { result.has_return ≡ has_return_in result.line.now }
    ensures shared { IsTrue result.is_shared
        → IsShared text.now result.line.now result.rest.now }
    ensures simple { All IsSimple text.now → All IsSimple result.rest.now }
{
    FirstLine {
        line: &text[..end],
        rest: &text[end + 1..],
        has_return,
        is_shared,
    }
}

/// Whether a carriage return stands in the line.
fn returns_in(line: &[u8]) -> bool
    ensures { result ≡ has_return_in line.now }
{
    memchr(b'\r', line).is_some()
}

/// Whether one reader can serve the line among others.
fn is_shareable(line: &[u8], has_return: bool) -> bool
    requires line { IsLine line.now }
    requires returns { has_return ≡ has_return_in line.now }
    ensures { IsTrue result → IsShareable line.now }
{
    if has_return || !is_unmarked(line) {
        return false;
    }
    closes_quotes(line)
}

/// Whether the line has a first byte, and no byte order mark begins with it.
fn is_unmarked(line: &[u8]) -> bool
    ensures { IsTrue result → IsUnmarked line.now }
{
    match line {
        [] => false,
        [first, ..] => *first != 0xef,
    }
}

/// Where a field of a record stands.
#[derive(Clone, Copy)]
enum Place {
    /// At its start.
    Start,
    /// Outside quotes, where a quote is a byte.
    Plain,
    /// Inside quotes.
    Quoted,
    /// After a quote that closes the field, or is the first of two that stand for one.
    Closed,
}

/// Whether all quotes that open a field are closed.
fn closes_quotes(line: &[u8]) -> bool
    requires { All EndsNoRecord line.now }
    ensures { IsTrue result → machine_state_after StartField line.now ≢ InQuoted }
{
    let mut place = Place::Start;
    'bytes: for byte in line {
        place = next_place(place, *byte);
    }
    is_outside(place)
}

/// Whether it is outside quotes.
fn is_outside(place: Place) -> bool
    ensures { IsTrue result → machine_state_of place ≢ InQuoted }
{
    match place {
        Place::Quoted => false,
        Place::Start | Place::Plain | Place::Closed => true,
    }
}

/// Where a field stands after one more byte.
fn next_place(place: Place, byte: u8) -> Place
    ensures { EndsNoRecord byte
        → machine_state_of result ≡ (step default_config (machine_state_of place) byte).0 }
{
    match (place, byte) {
        (Place::Quoted, b'"') => Place::Closed,
        (Place::Quoted, _) => Place::Quoted,
        (Place::Start | Place::Closed, b'"') => Place::Quoted,
        (_, b',') => Place::Start,
        _ => Place::Plain,
    }
}
