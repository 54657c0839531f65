//! What is left of a text.

ghost use Rattle.std.specs.Prelude.{◌≡◌, ◌+◌, ◌<◌, ◌^◌, length};

use crate::fault::{FaultKind, StateFault};

/// What is left of a text, and the number of the line in which that begins.
#[derive(Clone, Copy)]
pub struct Remaining<'a> {
    pub line: u64,
    pub text: &'a [u8],
    ghost room: { line + length text.now < 2 ^ 64 },
}

impl<'a> Remaining<'a> {
    ghost use Rattle.std.specs.Prelude.{◌≡◌, ◌+◌, ◌<◌, ◌^◌, length, IfSome, Some, None, if◌then◌else◌, option_map};
    ghost use Rattle.state_text.specs.Reading.{after, fault_at, is_next};
    ghost use Rattle.state_text.specs.Views.{remaining_of};

    /// What is left after a line, where that is the next one.
    pub fn after(self, line: &[u8]) -> Option<Remaining<'a>>
        requires { 0 < length line.now }
        ensures remaining { option_map remaining_of result ≡ (if is_next line.now (remaining_of self.entry)
            then Some (after line.now (remaining_of self.entry)) else None) }
        ensures less { IfSome result (λ after. length after.text.now < length self.entry.text.now) }
    {
        if self.text.starts_with(line) {
            let (_, text) = self.text.split_at(line.len());
            Some(Remaining {
                line: self.line + 1,
                text,
            })
        } else {
            None
        }
    }

    /// A fault of the line at hand.
    pub fn fault(self, kind: FaultKind) -> StateFault
        ensures { result ≡ fault_at (remaining_of self.entry) kind }
    {
        StateFault::InLine {
            kind,
            line: self.line,
        }
    }
}
