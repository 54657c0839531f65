//! What stands next in a file: a line or the ending.

ghost use Rattle.std.specs.Prelude.{◌≡◌, ◌++◌, ◌∷◌, ◌≤◌, ◌+◌, [], length, OnOk};
ghost use Rattle.line_text.specs.Lines.{IsLine};
ghost use Rattle.trace_lines.specs.Lines.{RemainingLines, line_in, with_line};
ghost use Rattle.trace_lines.specs.Pieces.{with_lines};

use crate::piece::Ending;
use line_text::Lines;
use std::alloc::AllocError;

/// The most bytes that a line may have before its line feed.
pub const LONGEST: usize = 65536;

/// What stands next.
#[derive(Clone, Copy)]
pub enum Next {
    /// A line of so many bytes, which may be blank. With its line feed, which the last line may
    /// lack, it takes `used` bytes.
    Line { length: usize, used: usize },
    Ending(Ending),
}

/// Adds a line at the end, unless it is blank; a carriage return at its end is dropped.
pub fn push_line(lines: &mut Lines, bytes: &[u8]) -> Result<(), AllocError>
    requires { IsLine bytes.now }
    ensures line { OnOk result ((rest : RemainingLines) → with_lines lines.new rest
        ≡ with_lines lines.old (with_line (line_in bytes.now) rest)) }
    ensures count { OnOk result (length lines.new ≤ length lines.old + 1) }
{
    let line = without_return(bytes);
    if line.is_empty() {
        return Ok(());
    }
    lines.push(line)
}

/// A line without a carriage return at its end.
fn without_return(bytes: &[u8]) -> &[u8]
    requires { IsLine bytes.now }
    ensures value { result.now ≡ line_in bytes.now }
    ensures line { IsLine result.now }
{
    match bytes {
        [front @ .., b'\r'] => front,
        _ => bytes,
    }
}
