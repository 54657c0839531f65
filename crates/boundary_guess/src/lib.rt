//! Guesses of the harts' state between segments of a trace.
//!
//! In come segments of lines, and the harts before the first. Out come for each segment the harts
//! before it (`specs/Guesses.antt`): the first as they came, each other guessed from what the rows
//! before it show. A row that does not show all that it changes is stepped, and nothing is
//! compared. `laws` says where the guesses are the harts' true states (`specs/Truth.antt`). The
//! form is this project's own: no standard is followed here.
#![tactic(auto)]

mod guessing;
pub mod laws;

pub use guessing::guesses;
