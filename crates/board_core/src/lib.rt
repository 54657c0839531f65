//! The machine of the two words by which workers share the segments of a trace: the next segment to
//! claim, and the least segment posted.
//!
//! In come events one after another: a worker claims the next number, looks at the least post, or
//! posts a segment that it drew. Out comes what each event answers, by the definitions of
//! `specs/Machine.antt`. `laws` says what holds of the machine after every list of events, and
//! `specs/Bags.antt` has lists of pairs without their order, for the crates above. The form is this
//! project's own: no standard is followed here.
#![tactic(auto)]

mod core_state;
mod event;
pub mod laws;

pub use core_state::CoreState;
pub use event::{Answer, Event};
