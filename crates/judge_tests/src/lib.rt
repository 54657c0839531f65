//! Examples of whole runs of the judge, and of the words that it takes.
//!
//! The crate has tests alone, and stands above `judge_run` and `judge_words`. In come words and
//! files; out comes what is written and the status, or the job that the words are. The expected
//! values are from the standards, from riscv-formal's description of RVFI, and from
//! docs/REFERENCE.md.
#![tactic(auto)]

#[cfg(test)]
mod failures;
#[cfg(test)]
mod harts;
#[cfg(test)]
mod limits;
#[cfg(test)]
mod origins;
#[cfg(test)]
mod profiles;
#[cfg(test)]
mod programs;
#[cfg(test)]
mod runs;
#[cfg(test)]
mod segments;
#[cfg(test)]
mod states;
#[cfg(test)]
mod words;
