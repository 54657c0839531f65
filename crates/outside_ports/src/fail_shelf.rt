ghost use Rattle.std.specs.Prelude.{◌≡◌, ◌≤◌, ◌⊎◌, ◌↔◌, IsErr, IfOk, OnOk, OnErr, IsNone, Contains, length};
ghost use Rattle.outside_ports.specs.Counts.{Rose, count_after_one};
ghost use Rattle.outside_ports.specs.Ports.{ReadsWhereKnown, misses_after};
ghost use Rattle.outside_ports.specs.Memory.{files_of, known_files_of, count_from};

use crate::failure::Failed;
use crate::files::bytes_of;
use crate::mem_shelf::MemShelf;
use crate::shelf::Shelf;

/// A `MemShelf` whose listed calls fail besides. Calls of `read` count from 1; a listed call on a
/// name that is not there is a miss too.
#[derive(Drop)]
pub struct FailShelf {
    /// The files, and the count of misses.
    pub shelf: MemShelf,
    /// The numbers of the calls that fail, from 1.
    pub failing: Vec<u64>,
    /// How many calls there were.
    pub calls: u64,
    /// How many calls failed.
    pub faults: u64,
}

impl FailShelf {
    /// A shelf over this one, of which the calls of these numbers fail.
    pub fn new(shelf: MemShelf, failing: Vec<u64>) -> Self
        ensures shelf { result.shelf ≡ shelf }
        ensures failing { result.failing ≡ failing }
        ensures calls { result.calls ≡ 0 }
        ensures faults { result.faults ≡ 0 }
    {
        FailShelf {
            shelf,
            failing,
            calls: 0,
            faults: 0,
        }
    }
}

impl Shelf for FailShelf {
    ghost known_files = { λ shelf. known_files_of shelf.shelf.files.items };

    ghost faults = { λ shelf. shelf.faults };

    ghost misses = { λ shelf. shelf.shelf.misses };

    fn read(&mut self, name: &str, at: u64, buf: &mut [u8]) -> Result<usize, Failed>
        ensures within { IfOk result (λ count. count ≤ length buf.new) }
        ensures known_files { files_of self.new.shelf.files.items
            ≡ files_of self.old.shelf.files.items }
        ensures bytes { let known_files = known_files_of self.old.shelf.files.items in
            ReadsWhereKnown known_files name.now at buf.new result }
        ensures full { let file = files_of self.old.shelf.files.items name.now in
            IfOk result (λ count. count ≡ count_from file at (length buf.new)) }
        ensures no_fault { OnOk result (self.new.faults ≡ self.old.faults) }
        ensures fault { OnErr result (Rose self.old.faults self.new.faults) }
        ensures kept { self.old.faults ≤ self.new.faults }
        ensures misses { let known_files = known_files_of self.old.shelf.files.items in
            self.new.shelf.misses ≡ misses_after known_files name.now self.old.shelf.misses }
        ensures calls { self.new.calls ≡ count_after_one self.old.calls }
        ensures failing { self.new.failing ≡ self.old.failing }
        ensures listed { IsErr result
            ↔ (Contains self.old.failing.items (count_after_one self.old.calls)
            ⊎ IsNone (files_of self.old.shelf.files.items name.now)) }
    {
        self.calls = self.calls.saturating_add(1);
        if self.failing.contains(&self.calls) {
            self.faults = self.faults.saturating_add(1);
            if bytes_of(&self.shelf.files, name).is_none() {
                self.shelf.misses = self.shelf.misses.saturating_add(1);
            }
            return Err(Failed);
        }
        match self.shelf.read(name, at, buf) {
            Ok(count) => Ok(count),
            Err(Failed) => {
                self.faults = self.faults.saturating_add(1);
                Err(Failed)
            }
        }
    }
}
