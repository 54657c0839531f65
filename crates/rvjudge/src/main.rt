//! The program. The words of the command line go in; one line on standard output and the status
//! come out. It gives the judge real files and standard output, and ends with the judge's status,
//! which `exit_code` is held to by judge_run's specs/Ends.antt. The ports are outside_ports' own.
#![tactic(auto)]

ghost use Rattle.std.specs.Prelude.{map, string_bytes};
ghost use Rattle.std.specs.Process.{exit_status};
ghost use Rattle.judge_run.specs.Ends.{Ends, moment_of};

mod shelf;
mod sink;

use judge_run::judge;
use outside_ports::{OpenGate, Shelf, Sink};
use shelf::FileShelf;
use sink::OutSink;
use std::alloc::{AllocError, Global};
use std::process::ExitCode;
use std::rt::Env;
use std::thread::Threads;
use std::{env, io};

/// The status where memory is refused.
const NO_MEMORY: u8 = 6;

/// The words of the command line, the program's name first; none where they cannot be read, as
/// where one is not UTF-8.
fn command_words<R: Env + AllocGlobal>(rt: &R) -> Result<Vec<String>, AllocError> {
    let mut words = Vec::new(rt.alloc());
    match env::args(rt) {
        Ok(args) => {
            for word in args {
                words.push(word)?;
            }
        }
        Err(error) if error.kind() == io::ErrorKind::OutOfMemory => return Err(AllocError),
        Err(_) => {}
    }
    Ok(words)
}

/// Judges what the words name over these files, writes to this sink, and gives the judge's status
/// to end with.
fn exit_code<R, H: Shelf, O: Sink>(
    rt: &R,
    alloc: Global,
    words: &Vec<String>,
    shelf: &mut H,
    out: &mut O,
) -> ExitCode
where
    R: Threads + Sync,
    ensures { Ends (H.known_files shelf.old) (map string_bytes words.now.items)
        (moment_of H.faults H.misses O.held O.faults shelf.old out.old)
        (moment_of H.faults H.misses O.held O.faults shelf.new out.new)
        (exit_status result) }
{
    ExitCode::from(judge(rt, alloc, words, shelf, out, &OpenGate))
}

fn main(rt: HostRuntime) -> ExitCode {
    let alloc = rt.alloc();
    let Ok(words) = command_words(&rt) else {
        return ExitCode::from(NO_MEMORY);
    };
    let mut shelf = FileShelf::new(alloc, &rt);
    let mut sink = OutSink::new(&rt);
    exit_code(&rt, alloc, &words, &mut shelf, &mut sink)
}

#[cfg(test)]
mod tests;
