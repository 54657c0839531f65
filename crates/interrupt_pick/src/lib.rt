//! The choice of the interrupt that is taken. The registers, the mode and the lines from outside
//! come in; out go the code of the interrupt and the mode that takes it, or nothing. The choice is
//! `pick_of` in `specs/Interrupts.antt`, from the Privileged Architecture's chapters "Machine-Level
//! ISA" and "Supervisor-Level ISA".
#![tactic(auto)]

mod choice;
pub mod laws;

pub use choice::pick;
