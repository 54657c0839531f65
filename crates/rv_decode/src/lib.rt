//! What a 32-bit word means: `decode` takes the word and gives its instruction with its operands,
//! or `None` where it is illegal. It meets `decoded_op_of` in `specs/Table.antt`, where the
//! instructions of RV64IMA, Zicsr and Zifencei, and those that the Privileged Architecture adds,
//! stand in the columns of the manuals' listings. `decode_with` takes the further rows of bit
//! manipulation (Zba, Zbb and Zbs) too where it is told so. `laws` says that no word meets two
//! rows.
#![tactic(auto)]

mod decoder;
pub mod laws;
pub mod opcodes;
mod operands;
mod operation;
mod patterns;

pub use decoder::{decode, decode_with};
pub use operation::{
    AmoOp, BitsOp, BranchOp, CsrOp, ImmediateOp, ImmediateWordOp, LoadOp, Op, Operands, RegisterOp,
    RegisterWordOp, StoreOp, Width,
};
