//! Memories that a hart runs over: one that keeps what it wrote apart from an image, and a
//! plain one over a map of bytes, for tests.
//!
//! In come an image, or a range of RAM. Out come memories that meet `PhysMem` of `hart_words`; what
//! bytes they have stands in `specs/Memories.antt`.
#![tactic(auto)]

mod block;
mod blocks;
mod layered;
mod layers;
mod map_mem;
mod next_page;
mod numbers;
mod paged_blocks;
mod sameness;

pub use layered::Layered;
pub use map_mem::MapMem;
