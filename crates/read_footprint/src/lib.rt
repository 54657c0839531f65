//! Which bytes of memory rows read and write: what a segment of a trace read that it had not
//! written itself is all of memory that its verdict depends on.
//!
//! In comes what each row read and wrote, one after another. Out comes a `Footprint`, two sets of
//! addresses (`IsFootprintOf` in `specs/Sets.antt`): it tells whether two memories agree on what
//! was read, and moves what was written from one memory to another. It follows `footprint_of`,
//! `agree` and `moved` of `specs/Footprints.antt`; `laws` says what these are for.
#![tactic(auto)]

mod aligned_range;
mod block;
mod bytes;
mod footprint;
pub mod laws;
mod noted_bytes;

pub use footprint::Footprint;
