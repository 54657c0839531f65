//! What the judging of a segment gives.

use hart_step::Harts;
use read_footprint::Footprint;
use row_origin::History;
use rvfi_rows::Verdict;

/// What the judging of a segment gave.
#[derive(Drop)]
pub struct Judged<M> {
    /// The verdict on its rows, which are numbered from 1.
    pub verdict: Verdict,
    /// The harts after them, where they agree.
    pub end: Option<Harts<M>>,
    /// What they read and wrote, a row that differs too.
    pub footprint: Footprint,
    /// What they did, as far as it tells who wrote what a row that differs read, where it is asked
    /// for.
    pub history: Option<History>,
}
