//! Compressed instructions: `expand` takes a parcel of 16 bits and gives the instruction that it
//! means, or `None` where it is illegal. It meets `expanded` in `specs/Table.antt`, where the
//! instructions of RV64C stand in the columns of the Unprivileged ISA's chapter on the C extension,
//! each with the 32-bit instruction that it expands to; `laws`: no parcel meets two rows.
#![tactic(auto)]

mod compressed_op;
mod expansion;
mod fields;
mod formats;
pub mod laws;
mod patterns;

pub use expansion::expand;

#[cfg(test)]
mod tests;
