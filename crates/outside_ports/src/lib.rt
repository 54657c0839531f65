//! What the judge asks of the outside: a `Shelf` of files that are read by place, a `Sink` that
//! takes bytes, and a `Gate` that tests can close. Reads and writes go in, bytes and counts of
//! faults come out, as specs/Ports.antt and specs/Counts.antt define. `read_front` gives the front
//! of a file, and `read_chunk` bytes from a place on, by specs/Front.antt. `write_all` writes bytes
//! whole. The ports in memory are for tests. No standard is followed here.
#![tactic(auto)]

mod drip_shelf;
mod fail_shelf;
mod fail_sink;
mod failure;
mod files;
mod front;
mod gate;
mod hold_gate;
mod mem_shelf;
mod mem_sink;
mod output;
mod shelf;
mod sink;

pub use drip_shelf::DripShelf;
pub use fail_shelf::FailShelf;
pub use fail_sink::FailSink;
pub use failure::Failed;
pub use files::NamedFile;
pub use front::{Front, ReadError, new_chunk, read_chunk, read_front};
pub use gate::{Gate, OpenGate};
pub use hold_gate::HoldGate;
pub use mem_shelf::MemShelf;
pub use mem_sink::MemSink;
pub use output::write_all;
pub use shelf::Shelf;
pub use sink::Sink;
