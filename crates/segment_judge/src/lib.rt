//! The judging of a segment of a trace, from a state of the harts before it.
//!
//! In come the harts before the segment, and the rows of its lines. Out come the verdict on them,
//! the harts after them where they agree, and what they read and wrote in memory: the judgement
//! that `specs/Judgements.antt` gives. `laws` says that a judgement stands for every state that is
//! the same but for bytes that were not read, that rows may be judged in parts, and that with one
//! hart the set is that hart. The form is this project's own: the steps of the harts follow the
//! standards, and the cutting follows none.
#![tactic(auto)]

mod found;
mod judged;
mod judging;
pub mod laws;
mod progress;

pub use found::{Found, What};
pub use judged::Judged;
pub use judging::{judge, judge_from};
