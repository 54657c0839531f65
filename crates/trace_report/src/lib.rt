//! The text that a run of the judge ends with, and its status. An outcome goes in: a ruling, and the
//! two numbers of what was made, where it was; and, where they are asked for, the origins of what a
//! row read. The text comes out in a fixed buffer, one line and one more for each origin, or the
//! status from 0 to 4. specs/Report.antt defines both. The names of the signals are those of
//! riscv-formal's description of RVFI.
#![tactic(auto)]

mod origin_lines;
mod outcome;
mod text;
mod wording;

pub use outcome::{Made, Outcome, Ruling, status};
pub use text::Text;
pub use wording::report;
