//! Examples of words, instructions, control and status registers, and traps.
//!
//! The crate has tests alone, and stands above the crates of a hart's parts. In come words of
//! instructions, values of registers and causes; out come what they decode to, what they compute,
//! and the registers after them. The expected values are from the standards, from a disassembler
//! and from qemu, as each table says.
#![tactic(auto)]

#[cfg(test)]
mod atomics;
#[cfg(test)]
mod bits;
#[cfg(test)]
mod decode;
#[cfg(test)]
mod decode_bits;
#[cfg(test)]
mod integers;
#[cfg(test)]
mod interrupts;
#[cfg(test)]
mod numbers;
#[cfg(test)]
mod register_rows;
#[cfg(test)]
mod registers;
#[cfg(test)]
mod signals;
#[cfg(test)]
mod traps;
#[cfg(test)]
mod words;
