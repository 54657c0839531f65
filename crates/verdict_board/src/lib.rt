//! The board that the workers of a judging share: two words in memory, which change in single
//! steps. A single worker, who shares nothing, needs none.
//!
//! Each worker has a seat of its own. By it the worker draws the number of the next segment, looks
//! at the least segment that was posted, and posts a segment that it drew. What a seat has done is
//! its view (`specs/Views.antt`), which exists in proofs alone. Between any two steps words and
//! views are those of a run of `board_core`'s machine (`specs/Rule.antt`). Seats are joined, and
//! who has all of them knows that all numbers were drawn once, and closes the board. `laws` says
//! what the rule comes to, and that each step is an event of that machine. No call waits, and only
//! `open` takes memory. Nothing is said of progress. The form is this project's own: no standard is
//! followed here.
#![tactic(auto)]

mod board;
pub mod laws;
mod rule;
mod seat;
mod view;

pub use board::Board;
pub use seat::Seat;
pub use view::View;
