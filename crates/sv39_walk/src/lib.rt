//! Translation of virtual addresses by the page tables of Sv39. A memory of entries, satp, the mode
//! with SUM and MXR, the address, the kind of access and the choices of the implementation come
//! in; out go the physical address or an exception, the entries that were read, and the one whose A
//! or D was set. The translation is `translation_of` in `specs/Walk.antt`, with what it amounts to
//! in `specs/Laws.antt`, from the Privileged Architecture's chapter "Supervisor-Level ISA".
#![tactic(auto)]

mod entry;
pub mod laws;
mod walk;

pub use entry::ENTRY_SIZE;
pub use walk::translate;
