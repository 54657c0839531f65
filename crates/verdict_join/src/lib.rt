//! The verdicts of segments, joined to the verdict of all their rows.
//!
//! In come the true state of the harts before the first segment, the segments, a guess of the state
//! before each, and what was found of them by those who judged them from the guesses, in any order.
//! Out come the verdict on all rows, the harts after them where they agree, and how many segments
//! had to be judged again (`specs/Joins.antt`, `specs/Founds.antt`). A round ends after the first
//! of these, so that the guesses after it can be made anew (`specs/Rounds.antt`). `laws` says that
//! the verdict is that of harts stepped by all rows, whatever was guessed and found, and what
//! rounds come to. The form is this project's own: no standard is followed here.
#![tactic(auto)]

mod adoption;
mod guessed_segments;
mod join;
mod joined;
pub mod laws;
mod walk;

pub use join::join_round;
pub use joined::{Joined, Round};
