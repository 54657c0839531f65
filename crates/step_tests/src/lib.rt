//! Examples of single steps of the hart, over both memories.
//!
//! The crate has tests alone, and stands above `hart_step` and the memories, which do not stand on
//! each other. In come an instruction, registers, a mode and a row; out comes what `HartSet::step`
//! does. The expected values are from the Unprivileged ISA and the Privileged Architecture. Plain
//! rows, what is taken from them, and harts that share a memory have examples too.
#![tactic(auto)]

#[cfg(test)]
mod choices;
#[cfg(test)]
mod harts;
#[cfg(test)]
mod modes;
#[cfg(test)]
mod plain_rows;
#[cfg(test)]
mod tests;
