//! Several harts over one memory.
//!
//! In come harts, each without its memory, the memory that they share, and a valid row. Out come
//! the harts after it: the row's hart stepped over the memory, and each other one lost its
//! reservation where a byte of RAM that was written lies in its block (`specs/Sets.antt`, after the
//! Unprivileged ISA's chapter "A Extension for Atomic Instructions"). What a hart is, the type of
//! the harts says (`CoreStep`).
#![tactic(auto)]

pub mod laws;
mod set;

pub use set::HartSet;
