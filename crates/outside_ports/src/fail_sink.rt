ghost use Rattle.std.specs.Prelude.{◌≡◌, ◌≤◌, ◌<◌, ◌+◌, ◌↔◌, [], min, Some, IsErr, IfOk, OnOk, OnErr, length, option_map, vec_len, vec_capacity};
ghost use Rattle.outside_ports.specs.Counts.{Rose};
ghost use Rattle.outside_ports.specs.Ports.{held_after};

use crate::failure::Failed;
use crate::sink::Sink;
use std::alloc::{AllocError, Global};

/// A sink in memory that takes a stated number of bytes in all and then fails each call. It takes
/// its memory when it is made.
#[derive(Drop)]
pub struct FailSink {
    /// The bytes that were taken, in order.
    pub held: Vec<u8>,
    /// How many bytes are still taken.
    pub room: usize,
    /// How many writes failed.
    pub faults: u64,
    ghost within: { vec_len held + room ≤ vec_capacity held },
}

impl FailSink {
    /// A sink that takes `room` bytes in all.
    pub fn new(alloc: Global, room: usize) -> Result<Self, AllocError>
        ensures held { IfOk result (λ sink. sink.held.items ≡ []) }
        ensures room { IfOk result (λ sink. sink.room ≡ room) }
        ensures faults { IfOk result (λ sink. sink.faults ≡ 0) }
    {
        let held = Vec::with_capacity(alloc, room)?;
        Ok(FailSink {
            held,
            room,
            faults: 0,
        })
    }
}

impl Sink for FailSink {
    ghost held = { λ sink. Some sink.held.items };

    ghost faults = { λ sink. sink.faults };

    fn write(&mut self, piece: &[u8]) -> Result<usize, Failed>
        ensures within { IfOk result (λ count. count ≤ length piece.now) }
        ensures takes_one { IfOk result (λ count. 0 < length piece.now → 0 < count) }
        ensures held { Some self.new.held.items
            ≡ option_map (held_after result piece.now) (Some self.old.held.items) }
        ensures no_fault { OnOk result (self.new.faults ≡ self.old.faults) }
        ensures fault { OnErr result (Rose self.old.faults self.new.faults) }
        ensures kept { self.old.faults ≤ self.new.faults }
        ensures taken { IfOk result (λ count. count ≡ min (length piece.now) self.old.room) }
        ensures room { IfOk result (λ count. self.new.room + count ≡ self.old.room) }
        ensures used_up { IsErr result ↔ ((0 < length piece.now) × (self.old.room ≡ 0)) }
        ensures still_used_up { OnErr result (self.new.room ≡ 0) }
    {
        let count = piece.len().min(self.room);
        if count == 0 && !piece.is_empty() {
            self.faults = self.faults.saturating_add(1);
            return Err(Failed);
        }
        match self.held.extend_from_slice(&piece[..count]) {
            Ok(()) => {
                self.room -= count;
                Ok(count)
            }
            Err(_) => unreachable!(),
        }
    }
}
