//! The text of a saved state: harts without their platform, and the memory that they share.
//!
//! In come a text, a platform, and how many harts there are to be. Out comes the state, or
//! the first rule that the text breaks and the line that does: what `state_in` (`specs/Texts.antt`)
//! gives. Or in come harts over a memory, and their text goes out to a sink. The lines are
//! `saved_lines` there, each of them in `specs/Lines.antt`. The reader guesses each value from the
//! digits of the text, writes that value's line and compares, so what can be read is just what can
//! be written. Which values a control and status register can have is from the Privileged
//! Architecture's chapters "Machine-Level ISA" and "Supervisor-Level ISA".
#![tactic(auto)]

mod counts;
mod fault;
mod guess;
mod head;
pub mod laws;
mod line;
mod memory;
mod numbers;
mod piece;
mod remaining;
mod state;
mod values;
mod writing;

pub use fault::{FaultKind, StateError, StateFault};
pub use state::{MOST_HARTS, Platform, State, read_state};
pub use writing::write_state;
