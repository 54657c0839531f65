//! Examples of texts and their lines, of the rows of traces, of saved states and of reports.
//!
//! The crate has tests alone, and stands above the crates that read and write texts. In come files,
//! lines, or states; out come what the lines show, what a text says, the first fault of either, or
//! the text of a state or of an outcome. The expected values are from RFC 4180, from riscv-formal's
//! description of RVFI, from the Privileged Architecture, and from docs/REFERENCE.md.
#![tactic(auto)]

#[cfg(test)]
mod fields;
#[cfg(test)]
mod lines;
#[cfg(test)]
mod made_texts;
#[cfg(test)]
mod ports;
#[cfg(test)]
mod reports;
#[cfg(test)]
mod rows;
#[cfg(test)]
mod state_writing;
#[cfg(test)]
mod states;
#[cfg(test)]
mod trace;
