//! The judge: words, an image and a trace in, one line of text and a status out.
//!
//! In come words, and files on a shelf. Out come one line of text into a sink, and a status:
//! those of the outcome that `answer` (`specs/Answer.antt`) gives for the words and the files. It
//! joins the parts that follow the standards; none of its own does.
#![tactic(auto)]

mod answer;
mod answers;
mod images;
mod jobs;
mod judgement;
pub mod laws;
mod outcomes;
mod parts;
mod progress;
mod remaining;
mod rounds;
mod segments;
mod start;
mod stop;
mod taken;
mod tally;
mod traces;
mod workers;

pub use judgement::judge;
pub use rounds::settle;
