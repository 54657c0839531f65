//! The workers that judge segments.

ghost use Rattle.std.specs.Prelude.{◌≤◌};

use std::alloc::Global;

/// So many workers, the threads and the memory that they run in, and the gate that each passes at a
/// segment, and whether what rows did is kept.
#[derive(Drop)]
pub(crate) struct Workers<'a, R, G> {
    pub rt: &'a R,
    pub alloc: Global,
    pub gate: &'a G,
    pub count: u32,
    pub origin: bool,
    ghost at_least_1: { 1 ≤ count },
    ghost at_most_64: { count ≤ 64 },
}
