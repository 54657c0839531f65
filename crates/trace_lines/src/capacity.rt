//! How much memory a piece is given at once.

ghost use Rattle.std.specs.Prelude.{◌≡◌, [], IfOk, length};

use line_text::Lines;
use std::alloc::{AllocError, Global};

/// The lines and the bytes that a piece is likely to have. Their memory is taken at once: a text
/// that grows by doubling takes up to twice what it needs, and leaves holes that fit nothing else.
#[derive(Clone, Copy)]
pub struct Capacity {
    pub lines: usize,
    /// The bytes of the lines and of their line feeds.
    pub bytes: usize,
}

impl Capacity {
    /// What lines after these are likely to take: as much, and a sixteenth more of bytes.
    pub fn after(lines: &Lines) -> Capacity
        ensures { result.lines ≡ length lines.now }
    {
        let bytes = lines.text().len();
        Capacity {
            lines: lines.len(),
            bytes: bytes + bytes / 16,
        }
    }

    /// No lines, with so much memory, or with none where fewer lines are asked for.
    pub fn new_lines(&self, alloc: Global, asked: usize) -> Result<Lines, AllocError>
        ensures { IfOk result (λ lines. lines ≡ []) }
    {
        if asked < self.lines {
            return Ok(Lines::new(alloc));
        }
        Lines::with_capacity(alloc, self.lines, self.bytes)
    }
}
