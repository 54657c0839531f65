//! Outcomes of a run.

ghost use Rattle.std.specs.Prelude.{◌≡◌, None, false};
ghost use Rattle.judge_words.specs.Job.{job_view};
ghost use Rattle.trace_report.specs.declared.outcome.Ruling.TheVariants.{NoJob};
ghost use Rattle.judge_run.specs.Answer.{asks_origins, outcome_of, ruling_at_end, without_header};
ghost use Rattle.judge_run.specs.Stops.{is_no_job, is_no_job_ruling};

use judge_words::{Command, Job, Product};
use rvfi_rows::Verdict;
use trace_lines::Ending;
use trace_report::{Made, Outcome, Ruling};

/// What a run of a job comes to by this ruling.
pub fn outcome_of(job: &Job, ruling: Ruling) -> Outcome
    ensures outcome { result ≡ outcome_of (job_view job.now) ruling }
    ensures job { is_no_job result ≡ is_no_job_ruling ruling }
{
    let made = match &job.command {
        Command::Judge { .. } => None,
        Command::Make { number, rows } => Some(Made {
            number: *number,
            rows: *rows,
        }),
    };
    Outcome { made, ruling }
}

/// Whether a job asks who wrote what a row that differs read.
pub fn asks_origins(job: &Job) -> bool
    ensures { result ≡ asks_origins (job_view job.now).command }
{
    match &job.command {
        Command::Judge { product, .. } => matches!(product, Product::Origins),
        Command::Make { .. } => false,
    }
}

/// What words come to that ask for no job.
pub fn no_job() -> Outcome
    ensures { result ≡ record { made = None; ruling = NoJob } }
{
    Outcome {
        made: None,
        ruling: Ruling::NoJob,
    }
}

/// The ruling on a trace without a line.
pub fn without_header(job: &Job, ending: Ending) -> Ruling
    ensures ruling { result ≡ without_header (job_view job.now) ending }
    ensures jobs { is_no_job_ruling result ≡ false }
{
    match ending {
        Ending::TooLong(line) => Ruling::TooLong { line },
        Ending::TooLarge => Ruling::TraceTooLarge {
            most: job.max_trace,
        },
        Ending::End | Ending::More => Ruling::NoHeader,
    }
}

/// The ruling on rows with this verdict, where the trace ends so.
pub fn ruling_at_end(job: &Job, ending: Ending, verdict: Verdict) -> Ruling
    ensures ruling { result ≡ ruling_at_end (job_view job.now) ending verdict }
    ensures jobs { is_no_job_ruling result ≡ false }
{
    match verdict {
        Verdict::Agrees { .. } => match ending {
            Ending::TooLong(line) => Ruling::TooLong { line },
            Ending::TooLarge => Ruling::TraceTooLarge {
                most: job.max_trace,
            },
            Ending::End | Ending::More => Ruling::Verdict(verdict),
        },
        Verdict::Differs { .. } | Verdict::Refused { .. } => Ruling::Verdict(verdict),
    }
}
