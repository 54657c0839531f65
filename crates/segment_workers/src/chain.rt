//! Jobs that are done side by side.

ghost use Rattle.std.specs.Prelude.{◌<◌, IfOk, vec_len};
ghost use Rattle.std.specs.Fork.{AcceptsJobs};
ghost use Rattle.std.specs.Fork.Halves.{GivesFor};

use std::alloc::AllocError;
use std::thread::{Threads, join};

/// Calls `work` with each job, the first in this thread and each other in one of its own, and gives
/// the results in the order of the jobs. This thread alone makes the others: equal tasks ended
/// sooner so than where new threads make further ones (docs/DECISIONS.md).
#[cycle(chain)]
pub(crate) fn call_each<R: Threads + Sync, J: Send + Drop, X: Send + Drop, F: Fn(J) -> X + Sync>(
    rt: &R,
    work: &F,
    mut jobs: Vec<J>,
) -> Result<Vec<X>, AllocError>
    requires { AcceptsJobs F.Fn work.now jobs.items }
    ensures { IfOk result (λ results. GivesFor F.Fn work.now jobs.items results.items) }
{
    if jobs.len() < 2 {
        return call_at_most_once(work, jobs);
    }
    let last = jobs.split_off(jobs.len() - 1)?;
    let there = move || -> Result<Vec<X>, AllocError>
        requires { AcceptsJobs F.Fn work.now last.items }
        ensures { IfOk result (λ results. GivesFor F.Fn work.entry.now last.items results.items) }
    { call_each(rt, work, last) };
    let here = move || -> Result<Vec<X>, AllocError>
        requires { AcceptsJobs F.Fn work.now jobs.items }
        ensures { IfOk result (λ results. GivesFor F.Fn work.entry.now jobs.items results.items) }
    { call_each(rt, work, jobs) };
    let (following, done) = join(rt, there, here);
    let mut results = done?;
    results.append(&mut following?)?;
    Ok(results)
}

/// The same of at most one job, in this thread.
fn call_at_most_once<J: Drop, X: Drop, F: Fn(J) -> X>(
    work: &F,
    mut jobs: Vec<J>,
) -> Result<Vec<X>, AllocError>
    requires short { vec_len jobs < 2 }
    requires accepts { AcceptsJobs F.Fn work.now jobs.items }
    ensures { IfOk result (λ results. GivesFor F.Fn work.now jobs.items results.items) }
{
    let mut results = Vec::new(*jobs.allocator());
    if let Some(job) = jobs.pop() {
        results.push(work(job))?;
    }
    Ok(results)
}
