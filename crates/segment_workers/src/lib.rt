//! The segments of a trace, judged side by side.
//!
//! In come a board with all of its seats, the segments, and a guess of the harts' state before
//! each. One worker for each seat draws segments from the board, looks at the least segment that
//! was posted, and judges what it drew from its guess, or skips it where a segment before it was
//! posted. A segment that differs or is refused is posted. Out come what was found of each segment,
//! and the seat of all workers (`specs/Runs.antt`). `laws` says that the board's own events, those
//! of `board_core`'s machine, leave just that, as `verdict_join` takes it. Each call counts one on
//! the `Steps` that it is given, so that callers can say how often workers are sent out. Nothing is
//! said of progress. The form is this project's own: no standard is followed here.
#![tactic(auto)]

mod chain;
pub mod laws;
mod running;
mod steps;
mod task;
mod work;

pub use running::run;
pub use steps::Steps;
