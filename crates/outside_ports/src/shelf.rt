ghost use Rattle.std.specs.Prelude.{◌≡◌, ◌≤◌, ℕ, Option, length, IfOk, OnOk, OnErr};
ghost use Rattle.outside_ports.specs.Counts.{Rose};
ghost use Rattle.outside_ports.specs.Ports.{Files, ReadsWhereKnown, misses_after};

use crate::failure::Failed;

/// Files that are read by place. A shelf may tell which files it has; no call changes that. It
/// counts its faults, and beside them the reads of names that its told files lack; neither count
/// falls.
pub trait Shelf {
    /// The files, where the shelf tells them.
    ghost known_files: { Self → Option Files };
    /// How many faults there were, in 64 bits.
    ghost faults: { Self → ℕ };
    /// How many reads there were of names that the told files lack, in 64 bits.
    ghost misses: { Self → ℕ };

    /// Reads bytes of the file of this name into `buf`, from the place `at` on, and says how many.
    /// With a nonempty buffer it gives 0 exactly where `at` is at or past the end.
    fn read(&mut self, name: &str, at: u64, buf: &mut [u8]) -> Result<usize, Failed>
        ensures within { IfOk result (λ count. count ≤ length buf.new) }
        ensures known_files { known_files self.new ≡ known_files self.old }
        ensures bytes { ReadsWhereKnown (known_files self.old) name.now at buf.new result }
        ensures no_fault { OnOk result (faults self.new ≡ faults self.old) }
        ensures fault { OnErr result (Rose (faults self.old) (faults self.new)) }
        ensures kept { faults self.old ≤ faults self.new }
        ensures misses { misses self.new
            ≡ misses_after (known_files self.old) name.now (misses self.old) };
}
