//! Tells what the stages take through which the rows of a trace go, with one worker and with
//! several.
//!
//!     stage_times IMAGE TRACE WORKERS PASSES
//!
//! The trace is gone through so often with one worker and as often with so many, by turns: window
//! by window, as the judge's defaults cut it, in each stage after stage. For each window and stage
//! the least time counts, so that what else the machine does tells little. What is printed are the
//! microseconds of all windows by stage, and how many times as fast the two stages are that all
//! workers share, reading and judging. The judge itself does stages of several parts at once.
#![tactic(auto)]

ghost use Rattle.std.specs.Prelude.{◌≤◌};

mod failure;
mod passes;
mod stages;
mod windows;

use failure::Failure;
use passes::Course;
use stages::Stages;
use std::alloc::Global;
use std::process::ExitCode;
use std::rt::Runtime;
use std::thread::Threads;
use std::{env, fs};
use windows::Workers;

/// The statuses where the words are wrong, and where anything else is.
const WRONG_WORDS: u8 = 2;

const FAILED: u8 = 1;

/// What the words ask for.
#[derive(Drop)]
struct Words {
    image: String,
    trace: String,
    workers: u32,
    passes: u32,
    ghost at_least_1: { 1 ≤ workers },
    ghost at_most_64: { workers ≤ 64 },
}

/// The words of the command line after the program's name.
fn read_words<R: Runtime + AllocGlobal>(rt: &R, alloc: Global) -> Result<Words, Failure> {
    let mut args = env::args(rt)?;
    let _program = args.next();
    let (Some(image), Some(trace), Some(workers), Some(passes), None) = (
        args.next(),
        args.next(),
        args.next(),
        args.next(),
        args.next(),
    ) else {
        return Err(Failure::Words);
    };
    let (Ok(workers), Ok(passes)) = (workers.parse::<u32>(), passes.parse::<u32>()) else {
        return Err(Failure::Words);
    };
    if workers < 1 {
        return Err(Failure::Words);
    }
    if 64 < workers || passes < 1 {
        return Err(Failure::Words);
    }
    Ok(Words {
        image,
        trace,
        workers,
        passes,
    })
}

/// The sums over all windows.
fn sum_of(least: &[Stages]) -> Stages {
    least
        .iter()
        .fold(Stages::NONE, |sum, stages| sum.plus(*stages))
}

/// Goes through the trace, by one worker and by several in turn: what the stages take with each.
fn time_all<R: Runtime + AllocGlobal + Threads + Sync>(
    rt: &R,
    alloc: Global,
    words: &Words,
) -> Result<(Stages, Stages), Failure> {
    let image = fs::read(rt, words.image.as_str())?;
    let trace = fs::read(rt, words.trace.as_str())?;
    let mut course = Course::new(alloc, &image, trace)?;
    let alone = Workers {
        rt,
        alloc,
        count: 1,
    };
    let together = Workers {
        rt,
        alloc,
        count: words.workers,
    };
    let mut one = Vec::new(alloc);
    let mut many = Vec::new(alloc);
    for _ in 0..words.passes {
        course.pass(&alone, &mut one)?;
        course.pass(&together, &mut many)?;
    }
    Ok((sum_of(&one), sum_of(&many)))
}

/// Prints what the stages take.
fn print<R: Runtime + AllocGlobal>(rt: &R, one: Stages, many: Stages) -> Result<(), Failure> {
    println!(rt; "lines {} {}", one.lines, many.lines)?;
    println!(rt; "reading {} {}", one.reading, many.reading)?;
    println!(rt; "guessing {} {}", one.guessing, many.guessing)?;
    println!(rt; "judging {} {}", one.judging, many.judging)?;
    println!(rt; "joining {} {}", one.joining, many.joining)?;
    let hundredths = one.sharing_time().saturating_mul(100) / many.sharing_time().max(1);
    println!(rt;
        "reading and judging {}.{:02}",
        hundredths / 100,
        hundredths % 100
    )?;
    Ok(())
}

/// Does what the words ask for.
fn run<R: Runtime + AllocGlobal + Threads + Sync>(rt: &R, alloc: Global) -> Result<(), Failure> {
    let words = read_words(rt, alloc)?;
    let (one, many) = time_all(rt, alloc, &words)?;
    print(rt, one, many)
}

fn main(rt: HostRuntime) -> ExitCode {
    match run(&rt, rt.alloc()) {
        Ok(()) => ExitCode::SUCCESS,
        Err(failure) => {
            let _told = println!(rt; "{failure}");
            match failure {
                Failure::Words => ExitCode::from(WRONG_WORDS),
                _ => ExitCode::from(FAILED),
            }
        }
    }
}
