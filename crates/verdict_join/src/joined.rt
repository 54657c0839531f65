//! What segments come to together.

use hart_step::Harts;
use row_origin::History;
use rvfi_rows::Verdict;

/// What all segments come to together.
#[derive(Drop)]
pub struct Joined<M> {
    /// The verdict on their rows, which are numbered from 1 through all segments.
    pub verdict: Verdict,
    /// The harts after them, where they agree.
    pub end: Option<Harts<M>>,
    /// How many of them were judged again, from the true state.
    pub rejudged: u32,
    /// What their rows did, as far as it tells who wrote what a row that differs read, where it is
    /// asked for.
    pub history: Option<History>,
}

/// What the first segments come to together, up to one that had to be judged again.
#[derive(Drop)]
pub struct Round<M> {
    /// The verdict on their rows, which are numbered from 1 through these segments.
    pub verdict: Verdict,
    /// The harts after them, where they agree.
    pub end: Option<Harts<M>>,
    /// How many segments they are.
    pub settled: usize,
    /// How many of them were judged again, from the true state: 0 or 1.
    pub rejudged: u32,
    /// What their rows did, as far as it tells who wrote what a row that differs read, where it is
    /// asked for.
    pub history: Option<History>,
}
