//! ELF64 executables for RISC-V, little-endian (System V ABI, "Object Files"; RISC-V ELF psABI,
//! "ELF Object Files").
//!
//! In come a file and the range of RAM. Out come the bytes of its loadable segments at their
//! physical addresses and the entry point, or the first fault: what `elf_of` (`specs/Image.antt`)
//! gives over the file's headers (`specs/Headers.antt`).
#![tactic(auto)]

mod fault;
mod header;
mod image;
pub mod laws;
mod program_header;
mod segments;

pub use fault::{ElfError, ElfFault};
pub use image::read_elf;
