//! Lines kept as one text.

ghost use Rattle.std.specs.Prelude.{◌≡◌, ◌≤◌, ◌<◌, ◌+◌, ◌-◌, ◌^◌, ◌++◌, ◌∷◌, ◌==◌, [], ℕ, List, length, take, drop, slice_get, option_copied, IfOk, OnOk, OnErr};
ghost use Rattle.line_text.specs.Lines.{IsLine, text_lines, line_start};

use std::alloc::{AllocError, Global};
use std::marker::Model;

/// Lines in order, each without its line feed.
#[derive(Drop)]
pub struct Lines {
    /// Each line, followed by a line feed.
    text: Vec<u8>,
    /// The place of each line feed.
    ends: Vec<usize>,
}

impl Model for Lines {
    ghost use Rattle.std.specs.Prelude.{List, ℕ};
    ghost use Rattle.line_text.specs.Lines.{IsLaidOut, text_lines};

    ghost Value = { List (List ℕ) };

    ghost view = { λ lines. text_lines lines.text.items };

    ghost invariant = { λ lines. IsLaidOut lines.text.items lines.ends.items };
}

impl Lines {
    /// No lines.
    pub fn new(alloc: Global) -> Lines
        ensures { result ≡ [] }
    {
        Lines {
            text: Vec::new(alloc),
            ends: Vec::new(alloc),
        }
    }

    /// No lines; so many of them, of so many bytes with their line feeds, take no further memory.
    pub fn with_capacity(alloc: Global, lines: usize, bytes: usize) -> Result<Lines, AllocError>
        ensures { IfOk result (λ lines. lines ≡ []) }
    {
        Ok(Lines {
            text: Vec::with_capacity(alloc, bytes)?,
            ends: Vec::with_capacity(alloc, lines)?,
        })
    }

    /// How many lines there are; memory bounds their number.
    pub fn len(&self) -> usize
        ensures count { result ≡ length self.now }
        ensures below_2_to_63 { result < 2 ^ 63 }
    {
        self.ends.len()
    }

    /// Whether there are none.
    pub fn is_empty(&self) -> bool
        ensures { result ≡ (length self.now == 0) }
    {
        self.ends.is_empty()
    }

    /// The line of a number from 0.
    pub fn get(&self, number: usize) -> Option<&[u8]>
        ensures { option_copied result ≡ slice_get self.now number }
    {
        if number >= self.ends.len() {
            return None;
        }
        let end = self.ends[number];
        let start = start_of(&self.ends, number);
        Some(cut(&self.text, start, end))
    }

    /// The lines as one text, in which each is followed by a line feed.
    pub fn text(&self) -> &[u8]
        ensures { text_lines result.now ≡ self.now }
    {
        self.text.as_slice()
    }

    /// Adds a line at the end. Where memory is refused nothing changes.
    pub fn push(&mut self, line: &[u8]) -> Result<(), AllocError>
        requires { IsLine line.now }
        ensures pushed { OnOk result (self.new ≡ self.old ++ line.now ∷ []) }
        ensures kept { OnErr result (self.new ≡ self.old) }
    {
        self.text.reserve(line.len() + 1)?;
        self.ends.reserve(1)?;
        self.text.extend_from_slice(line)?;
        let end = self.text.len();
        self.text.push_reserved(b'\n');
        self.ends.push_reserved(end);
        Ok(())
    }
}

/// Where the line of this number begins: after the line feed of the one before it.
fn start_of(ends: &[usize], number: usize) -> usize
    requires within { number ≤ length ends.now }
    requires fits { line_start ends.now number < 2 ^ 64 }
    ensures { result ≡ line_start ends.now number }
{
    match number {
        0 => 0,
        _ => ends[number - 1] + 1,
    }
}

/// The bytes from one place to another.
fn cut(text: &[u8], start: usize, end: usize) -> &[u8]
    requires ordered { start ≤ end }
    requires within { end ≤ length text.now }
    ensures { result.now ≡ take (end - start) (drop start text.now) }
{
    &text[start..end]
}
