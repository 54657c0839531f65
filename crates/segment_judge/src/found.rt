//! What was found of a segment.

/// What was found of a segment, by its number from 0.
#[derive(Drop)]
pub struct Found<V> {
    pub seg: u32,
    pub what: What<V>,
}

/// What was found of a segment.
#[derive(Drop)]
pub enum What<V> {
    /// It was judged, from the guess before it.
    Judged(V),
    /// It was not, since the segment of this lower number has a verdict that ends the trace.
    Skipped(u32),
}
