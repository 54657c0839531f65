//! The table of control and status registers. An address of 12 bits comes in; out goes its row:
//! what it names, from which mode on it may be accessed, and whether it is read-only; none where no
//! register has it. The table is `specs/Addresses.antt`, from the Privileged Architecture's chapter
//! "Control and Status Registers (CSRs)".
#![tactic(auto)]

pub mod laws;
mod registers;
mod rows;

pub use registers::{Csr, CsrRow};
pub use rows::row;
