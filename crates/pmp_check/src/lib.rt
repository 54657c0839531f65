//! Physical memory protection. The entries of the core, the mode, and an access by its physical
//! address, length and kind come in; out goes whether it is allowed. The check is `is_allowed` in
//! `specs/Protection.antt`, with what it amounts to byte by byte in `specs/Laws.antt`, from the
//! Privileged Architecture's chapter "Machine-Level ISA".
#![tactic(auto)]

mod check;
pub mod laws;
mod region;

pub use check::allows;
