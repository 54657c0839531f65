//! The accesses of a hart to memory: fetches, loads, and the places of stores.
//!
//! In come a memory, the registers and the mode that govern accesses, and an address. Out comes the
//! value or the places, or the exception, a cause and a trap value; what is read and what is set in
//! page tables is noted. Each call does what its action in `specs/Accesses.antt` does. From the
//! Privileged Architecture's chapter "Machine-Level ISA".
#![tactic(auto)]

mod accesses;
mod address_space;
mod data_access;
mod instruction_fetch;
pub mod laws;
mod place;

pub use accesses::Accesses;
pub use address_space::{AddressSpace, is_translated};
pub use data_access::{ACCESS_READS, ACCESS_SETS, first_len};
pub use instruction_fetch::{FETCH_READS, FETCH_SETS};
pub use place::{Atomicity, Place, data_mode};

#[cfg(test)]
mod tests;
