//! The words of the judge's command line, and the job that they ask for. The words go in, the
//! program's name first; the job comes out, or that they are none, by specs/Job.antt, which stands
//! on what the crate `clap` defines of a simple command. Numbers are decimal, or hexadecimal after
//! `0x`. The command is this project's own: no standard is followed here.
#![tactic(auto)]

mod command_line;
mod cores;
mod job;
pub mod laws;
mod lists;
mod profiles;
mod values;

pub use job::{Command, Job, Product, Sharing, WordError, read_words};
pub use values::FIRST_PC;
