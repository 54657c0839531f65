//! From the words to what is written.

ghost use Rattle.std.specs.Prelude.{◌≡◌, Some, IfOk, codes, map, string_bytes};
ghost use Rattle.judge_words.specs.Job.{IsLawful, job_view};
ghost use Rattle.outside_ports.specs.Memory.{files_of};
ghost use Rattle.trace_maker.specs.Texts.{made_image, made_trace};
ghost use Rattle.judge_run.specs.Answer.{asks_origins, job_answer};
ghost use Rattle.judge_run.specs.Ends.{Ends, EndsOverFiles, EndsOverMade, moment_of, sink_moment};

use crate::answers::{write_found, write_outcome};
use crate::images::read_start;
use crate::outcomes::{asks_origins, no_job};
use crate::traces::judge_trace;
use crate::workers::Workers;
use hart_words::NoMemory;
use judge_words::{Command, Job, WordError, read_words};
use outside_ports::{Gate, MemShelf, NamedFile, Shelf, Sink};
use std::alloc::Global;
use std::thread::Threads;
use trace_maker::make;

/// The names of an image and a trace.
#[derive(Clone, Copy)]
struct Names<'n> {
    image: &'n str,
    trace: &'n str,
}

/// Reads the words, judges what they name over the files of the shelf, and writes what that comes
/// to: of the words first, then of the image, then of the trace. A trace that is made takes no
/// file.
pub fn run<R, H: Shelf, O: Sink, G: Gate>(
    rt: &R,
    alloc: Global,
    words: &Vec<String>,
    shelf: &mut H,
    out: &mut O,
    gate: &G,
) -> u8
where
    R: Threads + Sync,
    ensures known_files { H.known_files shelf.new ≡ H.known_files shelf.old }
    ensures ends { Ends (H.known_files shelf.old) (map string_bytes words.now.items)
        (moment_of H.faults H.misses O.held O.faults shelf.old out.old)
        (moment_of H.faults H.misses O.held O.faults shelf.new out.new)
        result }
{
    let job = match read_words(alloc, words) {
        Ok(job) => job,
        Err(WordError::NotAJob) => return write_outcome(&no_job(), None, out),
        Err(WordError::NoMemory) => return 6,
    };
    let workers = Workers {
        rt,
        alloc,
        gate,
        count: job.sharing.workers,
        origin: asks_origins(&job),
    };
    match &job.command {
        Command::Judge { image, trace, .. } => {
            let names = Names {
                image: image.as_str(),
                trace: trace.as_str(),
            };
            run_files(&workers, &job, names, shelf, out)
        }
        Command::Make { number, rows } => run_made(&workers, &job, *number, *rows, out),
    }
}

/// Judges the files of these names, and writes what they come to while the image is there.
fn run_files<R, H: Shelf, O: Sink, G: Gate>(
    workers: &Workers<R, G>,
    job: &Job,
    names: Names<'_>,
    shelf: &mut H,
    out: &mut O,
) -> u8
where
    R: Threads + Sync,
    requires lawful { IsLawful (job_view job.now) }
    requires asked { workers.now.origin ≡ asks_origins (job_view job.now).command }
    ensures known_files { H.known_files shelf.new ≡ H.known_files shelf.old }
    ensures ends { EndsOverFiles (H.known_files shelf.old)
        (λ files. job_answer (job_view job.now) (files names.entry.image.now)
        (files names.entry.trace.now))
        (moment_of H.faults H.misses O.held O.faults shelf.old out.old)
        (moment_of H.faults H.misses O.held O.faults shelf.new out.new)
        result }
{
    let start = match read_start(workers.alloc, job, names.image, shelf) {
        Ok(start) => start,
        Err(stop) => return write_found(&Err(stop), out),
    };
    let found = judge_trace(workers, job, names.trace, &start, shelf);
    write_found(&found, out)
}

/// Judges what is made, by the path of files, from a shelf in memory.
fn run_made<R, O: Sink, G: Gate>(
    workers: &Workers<R, G>,
    job: &Job,
    number: u32,
    rows: u32,
    out: &mut O,
) -> u8
where
    R: Threads + Sync,
    requires lawful { IsLawful (job_view job.now) }
    requires asked { workers.now.origin ≡ asks_origins (job_view job.now).command }
    ensures { EndsOverMade (job_view job.now) number rows (sink_moment O.held O.faults out.old)
        (sink_moment O.held O.faults out.new) result }
{
    match shelf_made(workers.alloc, number, rows) {
        Err(_) => 6,
        Ok(shelf) => {
            let mut shelf = shelf;
            let names = Names {
                image: "image",
                trace: "trace",
            };
            run_files(workers, job, names, &mut shelf, out)
        }
    }
}

/// A shelf of two files, `image` and `trace`, with the texts that are made of this number.
fn shelf_made(alloc: Global, number: u32, rows: u32) -> Result<MemShelf, NoMemory>
    ensures image { IfOk result (λ shelf.
        files_of shelf.files.items (codes "image") ≡ Some (made_image number)) }
    ensures trace { IfOk result (λ shelf.
        files_of shelf.files.items (codes "trace") ≡ Some (made_trace number rows)) }
    ensures misses { IfOk result (λ shelf. shelf.misses ≡ 0) }
{
    let (image, trace) = make(alloc, number, rows)?;
    let mut files = Vec::new(alloc);
    files.push(NamedFile {
        name: String::from_str(alloc, "image")?,
        bytes: image,
    })?;
    files.push(NamedFile {
        name: String::from_str(alloc, "trace")?,
        bytes: trace,
    })?;
    Ok(MemShelf::new(files))
}
