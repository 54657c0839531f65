//! Entry of traps and return from them. The registers, the mode and what the trap is come in; out
//! go the registers after the entry or the return, the new mode and the next pc. Entry is
//! `enter_of`, `mode_by_enter` and `pc_by_enter` in `specs/Entries.antt`, return the like in
//! `specs/Returns.antt`, from the Privileged Architecture's chapters "Machine-Level ISA" and
//! "Supervisor-Level ISA".
#![tactic(auto)]

mod entry;
pub mod laws;
mod returns;

pub use entry::enter;
pub use returns::{mret, sret};
