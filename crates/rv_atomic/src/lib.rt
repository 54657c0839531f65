//! Atomic memory operations and reservations: `amo` takes what memory holds and a register's value
//! and gives what memory gets; `Reservation` is what LR reserves, SC asks for, and the stores of
//! other harts take. They meet `amo_of` in `specs/Operations.antt` and the definitions of
//! `specs/Blocks.antt`, from the Unprivileged ISA's chapter "A Extension for Atomic Instructions";
//! `laws` says what minima and maxima are.
#![tactic(auto)]

pub mod laws;
mod operations;
mod reservation;

pub use operations::amo;
pub use reservation::{Block, Reservation};
