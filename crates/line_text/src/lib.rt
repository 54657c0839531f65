//! Lines kept as one text, in which each is followed by a line feed. Lines go in one by one; they
//! come out by number, or as the whole text, whose lines specs/Lines.antt defines. What a line of a
//! file is, is not said here: a line is any bytes with no line feed in them.
#![tactic(auto)]

mod lines;

pub use lines::Lines;
