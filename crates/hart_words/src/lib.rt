//! Words that every other crate of the judge speaks: ranges of addresses, numbers as they are
//! written, the signals of a trace, integer registers, modes, causes and access sizes, arithmetic
//! on words, and memory as a trait. Values go in and out; each call meets the definition of its
//! stem in `specs/`, which also has what several crates share. From the Unprivileged ISA, the
//! Privileged Architecture's chapter "Machine-Level ISA", and riscv-formal's description of RVFI.
#![tactic(auto)]

mod access_size;
mod accesses;
mod choices;
mod fault;
pub mod laws;
mod map;
mod memory;
mod numbers;
mod options;
mod privilege;
mod registers;
mod sets;
mod signal;
mod span;
pub mod word_laws;
mod words;

pub use access_size::AccessSize;
pub use accesses::{MOST_READS, MOST_WRITES, Read, Seen, Write, Wrote};
pub use choices::Choices;
pub use fault::NoMemory;
pub use map::{MOST_DEVICES, Map};
pub use memory::{PhysMem, WalkMem};
pub use numbers::{NumberFault, quick_number, read_number};
pub use options::{CauseSet, DeviceFaults, InsnBits, Marks, Misaligned, TrapValues};
pub use privilege::{Access, Cause, Mode, PmpEntry, WalkFlags};
pub use registers::Registers;
pub use sets::{MOST_SETS, Sets};
pub use signal::{CsrName, CsrSide, Difference, SIGNALS, Signal, SignalEntry};
pub use span::{PAGE_BYTES, PAGE_SIZE, Span};
pub use words::{div, divu, mulh, mulhsu, mulhu, rem, remu, sext};
