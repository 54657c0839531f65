//! Standard output.

ghost use Rattle.std.specs.Prelude.{◌≡◌, ◌≤◌, ◌<◌, None, IfOk, OnOk, OnErr, length, take};
ghost use Rattle.std.specs.Io.KnownBytes.{Appends};
ghost use Rattle.outside_ports.specs.Counts.{Rose, count_after_one};

use outside_ports::{Failed, Sink};
use std::io;
use std::io::Write;

/// Standard output, flushed after each piece. It tells no content. Its faults count each write
/// that fails or takes nothing of a nonempty piece, and each flush that fails.
#[derive(Drop)]
pub struct OutSink<'a, R: Print> {
    rt: &'a R,
    pub faults: u64,
}

impl<'a, R: Print> OutSink<'a, R> {
    /// Standard output, with no fault yet.
    pub fn new(rt: &'a R) -> Self
        ensures faults { result.faults ≡ 0 }
    {
        OutSink { rt, faults: 0 }
    }
}

/// Writes and flushes, again where a signal broke in before a byte was taken. It says how many
/// bytes were taken: where the writer tells what it holds, just the first so many of the piece.
fn write_some<W: Write>(to: &mut W, piece: &[u8]) -> io::Result<usize>
    ensures within { IfOk result (λ count. count ≤ length piece.now) }
    ensures taken { let before = W.contents to.old in let now = W.contents to.new in
        IfOk result (λ count. Appends before now (take count piece.now)) }
{
    for _ in 0..u64::MAX {
        match to.write(piece) {
            Ok(count) => {
                to.flush()?;
                return Ok(count);
            }
            Err(error) if error.kind() == io::ErrorKind::Interrupted => {}
            Err(error) => return Err(error),
        }
    }
    Err(io::Error::from(io::ErrorKind::Interrupted))
}

/// Writes bytes from the front of a piece, at least one of a nonempty piece, and counts a failure.
pub fn write_counted<W: Write>(to: &mut W, piece: &[u8], faults: &mut u64) -> Result<usize, Failed>
    ensures within { IfOk result (λ count. count ≤ length piece.now) }
    ensures takes_one { IfOk result (λ count. 0 < length piece.now → 0 < count) }
    ensures taken { let before = W.contents to.old in let now = W.contents to.new in
        IfOk result (λ count. Appends before now (take count piece.now)) }
    ensures no_fault { OnOk result (faults.new ≡ faults.old) }
    ensures fault { OnErr result (faults.new ≡ count_after_one faults.old) }
    ensures kept { faults.old ≤ faults.new }
{
    match write_some(to, piece) {
        Ok(count) if count > 0 || piece.is_empty() => Ok(count),
        _ => {
            *faults = faults.saturating_add(1);
            Err(Failed)
        }
    }
}

impl<R: Print> Sink for OutSink<'_, R> {
    ghost held = { λ _. None };

    ghost faults = { λ sink. sink.faults };

    fn write(&mut self, piece: &[u8]) -> Result<usize, Failed>
        ensures within { IfOk result (λ count. count ≤ length piece.now) }
        ensures takes_one { IfOk result (λ count. 0 < length piece.now → 0 < count) }
        ensures no_fault { OnOk result (self.new.faults ≡ self.old.faults) }
        ensures fault { OnErr result (self.new.faults ≡ count_after_one self.old.faults) }
        ensures rose { OnErr result (Rose self.old.faults self.new.faults) }
        ensures kept { self.old.faults ≤ self.new.faults }
    {
        write_counted(&mut io::writer(self.rt), piece, &mut self.faults)
    }
}
