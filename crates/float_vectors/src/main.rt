//! Answers lines of standard input, `operation,mode,a,b,c`, each by a line `result,flags`: what the
//! operation gives for these bits, for tests that hold it against other machines.
//!
//! An operation is named as in assembly, as `fadd.s` or `fcvt.w.d`, and a mode as `RNE`; bits and
//! flags are hexadecimal. An operand that the operation has not may be left out. A line that is
//! none of these is answered by `?`.
#![tactic(auto)]

mod answers;
mod names;

use std::io::{self, BufWriter, Write};

fn main(rt: HostRuntime) -> io::Result<()> {
    let mut out = BufWriter::new(rt.alloc(), rt.stdout())?;
    for line in rt.lines(rt.alloc()) {
        match answers::answer(line?.as_str()) {
            Some(outcome) => writeln!(
                out,
                "{:016x},{:02x}",
                outcome.bits,
                answers::flag_bits(outcome.flags)
            )?,
            None => writeln!(out, "?")?,
        }
    }
    out.flush()
}
