//! The binary32 and binary64 formats of floating point, and rounding to them, as the RISC-V
//! extensions F and D have it. `specs/Formats.antt` says what the bits of a format mean,
//! `specs/Rounding.antt` what an exact number is rounded to, and which flags that raises. `laws`
//! says in the words of numerical analysis what rounding is.
#![tactic(auto)]

mod format;
pub mod laws;
mod rounding;

pub use format::{Flags, Format, Outcome, Place, RoundingMode};
pub use rounding::{Dyadic, cut, goes_up, is_at_lower, round, signed};
