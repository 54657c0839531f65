ghost use Rattle.std.specs.Prelude.{◌≡◌, ◌≤◌, ◌<◌, [], Some, IfOk, OnOk, OnErr, length, option_map, vec_len};
ghost use Rattle.outside_ports.specs.Counts.{Rose};
ghost use Rattle.outside_ports.specs.Ports.{held_after};

use crate::failure::Failed;
use crate::sink::Sink;
use std::alloc::Global;

/// A sink in memory. It takes each piece whole; only where memory is refused does a write fail, and
/// that is counted.
#[derive(Drop)]
pub struct MemSink {
    /// The bytes that were taken, in order.
    pub held: Vec<u8>,
    /// How many writes failed.
    pub faults: u64,
}

impl MemSink {
    /// A sink that holds nothing.
    pub fn new(alloc: Global) -> Self
        ensures held { result.held.items ≡ [] }
        ensures faults { result.faults ≡ 0 }
    {
        MemSink {
            held: Vec::new(alloc),
            faults: 0,
        }
    }
}

impl Sink for MemSink {
    ghost held = { λ sink. Some sink.held.items };

    ghost faults = { λ sink. sink.faults };

    fn write(&mut self, piece: &[u8]) -> Result<usize, Failed>
        ensures within { IfOk result (λ count. count ≤ length piece.now) }
        ensures takes_one { IfOk result (λ count. 0 < length piece.now → 0 < count) }
        ensures held { Some self.new.held.items
            ≡ option_map (held_after result piece.now) (Some self.old.held.items) }
        ensures no_fault { OnOk result (self.new.faults ≡ self.old.faults) }
        ensures fault { OnErr result (Rose self.old.faults self.new.faults) }
        ensures kept { self.old.faults ≤ self.new.faults }
        ensures whole { IfOk result (λ count. count ≡ length piece.now) }
    {
        match self.held.extend_from_slice(piece) {
            Ok(()) => Ok(piece.len()),
            Err(_) => {
                self.faults = self.faults.saturating_add(1);
                Err(Failed)
            }
        }
    }
}
