//! The control and status registers of the reference hart. An address, a mode, a value and the
//! interrupt lines come in; out go what a read gives, the registers after a write, what a trace
//! shows of a register, and the entries of physical memory protection. What each register is and
//! which of its bits can be written is `specs/Table.antt`, what reads and writes do
//! `specs/Access.antt`, from the Privileged Architecture's chapters "Machine-Level ISA" and
//! "Supervisor-Level ISA".
#![tactic(auto)]

mod access;
mod csr_kind;
mod csrs;
pub mod fields;
pub mod laws;
mod legal_values;
pub mod profile;
mod register_row;
mod stored_csr;
mod stored_row;

pub use access::{CsrRead, Illegal};
pub use csrs::Csrs;
pub use fields::{has_bit, merge, mode_of_encoding};
pub use legal_values::is_legal_configuration;
pub use profile::{CsrProfile, EntryCount, Presence};
pub use stored_csr::{ALL_STORED, STORED_CSRS, StoredCsr};
pub use stored_row::{FieldRule, StoredRow};
