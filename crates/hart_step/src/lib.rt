//! The reference hart: what one row of a trace does to it.
//!
//! In come a hart over a memory, and a valid row. Out come the hart after it, what the reference
//! hart did, and what was read and written: what `stepped` (`specs/Steps.antt`) gives. A step goes
//! by phases: the order index, the interrupt lines, an interrupt's entry, fetch, decode,
//! execution, a trap's entry. From the Unprivileged ISA and the Privileged Architecture's chapters
//! "Machine-Level ISA" and "Supervisor-Level ISA"; what both leave open is taken from the row,
//! after riscv-formal's description of RVFI.
//!
//! A guess of a later state takes it from the rows themselves, where these are plain: they show all
//! that their instructions change (`specs/PlainRows.antt`).
#![tactic(auto)]

mod changes;
mod choices;
mod core_step;
mod csr_access;
mod execution;
mod harts;
mod instruction;
pub mod laws;
mod memory;
mod parts;
pub mod plain_laws;
mod plain_rows;
pub mod protection_laws;
mod quiet_rows;
mod returns;
mod same_cores;
mod shown_store;
mod state;
mod step;
mod taken_rows;
pub mod translation_laws;
mod words;

pub use harts::Harts;
pub use parts::CoreParts;
pub use state::Core;
pub use words::set_holds_words;
