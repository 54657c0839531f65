//! The lines of a trace file. The name of a file and the most bytes that are read of it go in;
//! pieces come out: lines that are not blank, in order, and what follows them. The file is read as
//! lines are asked for, so that memory is bounded by a piece, a chunk and the longest line.
//! specs/Lines.antt defines the lines of a file, specs/Pieces.antt a piece of them, and `laws` says
//! that all pieces in order are the file. The form of a line is this project's own: no standard is
//! followed here.
#![tactic(auto)]

mod capacity;
mod finding;
pub mod laws;
mod line_cursor;
mod line_taker;
mod next;
mod piece;
mod reading;

pub use line_taker::LineTaker;
pub use piece::{Ending, LineError, Piece};
