//! What workers do with the two words, and what they are answered.

/// What a worker does.
#[derive(Clone, Copy, Debug, PartialEq, Eq)]
pub enum Event {
    /// It claims the next number.
    Claim { worker: u32 },
    /// It looks at the least post.
    Look { worker: u32 },
    /// It posts a segment that it drew.
    Post { worker: u32, segment: u32 },
}

/// What it is answered.
#[derive(Clone, Copy, Debug, PartialEq, Eq)]
pub enum Answer {
    /// The number that it drew: its segment's, or one that says that no segment is left.
    Drew(u64),
    /// The least segment posted, or the number of segments where none was.
    Least(u32),
    Nothing,
}
