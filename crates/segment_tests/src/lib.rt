//! Examples of how segments are guessed, judged, joined and shared out.
//!
//! The crate has tests alone, and stands above the crates that judge segments. In come segments of a
//! few lines and guesses, right and damaged ones; out come what is found in each, what rows read and
//! wrote, what a row differs in, the verdict on all, and how often a segment was judged. The
//! expected values are from the standards and from riscv-formal's description of RVFI.
#![tactic(auto)]

#[cfg(test)]
mod board_states;
#[cfg(test)]
mod boards;
#[cfg(test)]
mod comparisons;
#[cfg(test)]
mod compiled;
#[cfg(test)]
mod compiled_guesses;
#[cfg(test)]
mod footprints;
#[cfg(test)]
mod guesses;
#[cfg(test)]
mod joining;
#[cfg(test)]
mod judging;
#[cfg(test)]
mod origins;
#[cfg(test)]
mod page_tables;
#[cfg(test)]
mod working;
