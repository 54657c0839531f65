//! What the instructions of bit manipulation (Zba, Zbb, Zbs) compute: `compute_bits` takes an
//! instruction, the value of rs1, and that of rs2 or the shift amount. It meets `bits_result` in
//! `specs/Results.antt`, one equation an instruction on whole numbers, from the Bit-Manipulation
//! ISA-extensions; `laws` says in their words what counts, rotations, reversals, minima and maxima
//! are.
#![tactic(auto)]

mod bytes;
mod computation;
mod counts;
pub mod laws;
mod rotations;

pub use computation::compute_bits;
