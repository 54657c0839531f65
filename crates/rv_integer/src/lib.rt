//! What an instruction computes: `compute` takes an instruction, its sources' values, its address
//! and its length, and gives the value, the jump, the access or the change of privilege that it
//! asks for. It meets `computed` in `specs/Results.antt`, one equation an instruction on whole
//! numbers, from the Unprivileged ISA's chapters on RV32I, RV64I, the M and A extensions and
//! control and status register instructions (Zicsr), and the Privileged Architecture's chapters
//! "Machine-Level ISA" and "Supervisor-Level ISA" for MRET, SRET, WFI and SFENCE.VMA; those of bit
//! manipulation are in rv_bits. `laws` is of the W forms.
#![tactic(auto)]

mod arithmetic;
mod computation;
mod int_result;
pub mod laws;
mod word_forms;

pub use computation::compute;
pub use int_result::{CsrRequest, IntResult, MemoryOp, MemoryRequest, SystemRequest};
