ghost use Rattle.std.specs.Prelude.{◌≡◌, ◌≤◌, ◌<◌, ℕ, List, Option, option_map, length, IfOk, OnOk, OnErr};
ghost use Rattle.outside_ports.specs.Counts.{Rose};
ghost use Rattle.outside_ports.specs.Ports.{held_after};

use crate::failure::Failed;

/// A place to write. A sink may tell the bytes that it holds. It counts its faults, which never
/// fall.
pub trait Sink {
    /// The bytes, where the sink tells them.
    ghost held: { Self → Option (List ℕ) };
    /// How many faults there were, in 64 bits.
    ghost faults: { Self → ℕ };

    /// Takes bytes from the front of `piece`, and says how many: at least one of a nonempty piece.
    /// After a failure the bytes held are what they were.
    fn write(&mut self, piece: &[u8]) -> Result<usize, Failed>
        ensures within { IfOk result (λ count. count ≤ length piece.now) }
        ensures takes_one { IfOk result (λ count. 0 < length piece.now → 0 < count) }
        ensures held { held self.new ≡ option_map (held_after result piece.now) (held self.old) }
        ensures no_fault { OnOk result (faults self.new ≡ faults self.old) }
        ensures fault { OnErr result (Rose (faults self.old) (faults self.new)) }
        ensures kept { faults self.old ≤ faults self.new };
}
