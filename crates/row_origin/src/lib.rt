//! Who wrote what a row of a trace read: for each register, the last earlier row of its hart whose
//! step wrote it, and for each byte of RAM, the last earlier row of any hart.
//!
//! In comes what the step of each row did. `Last` keeps the last writers, of registers by hart and
//! of bytes in blocks, so that it costs what was written. Out come the `Origins` of a row. They are
//! `origins_of` of `specs/Origins.antt`, and `laws` says that its rows are the last ones.
#![tactic(auto)]

mod block;
mod differing_row;
mod history;
mod kept;
mod last;
pub mod laws;
mod origins;
mod places;
mod sources;

pub use differing_row::DifferingRow;
pub use history::History;
pub use kept::{follow, history_if, note_difference, note_row};
pub use last::Last;
pub use origins::{ByteOrigin, MOST_BYTES, MOST_REGISTERS, Origins, RegisterOrigin};
