//! The comparison of a row with what the reference hart did.
//!
//! In come what the hart did (`Expected`) and the row. Out comes the first signal, in the order of
//! comparison, that is shown and not as it should be, with both values: what `difference_of`
//! (`specs/Difference.antt`) gives. What is wanted of each signal is one table, `expected_signal`
//! (`specs/Signals.antt`). After riscv-formal's description of RVFI.
#![tactic(auto)]

mod comparison;
mod csrs;
mod expected_signal;
pub mod laws;
mod masks;
mod memory;
mod signals;
mod sources;

pub use comparison::first_difference;
