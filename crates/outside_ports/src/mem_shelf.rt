ghost use Rattle.std.specs.Prelude.{◌≡◌, ◌≤◌, IsErr, IfOk, OnOk, OnErr, IsNone, ◌↔◌, length};
ghost use Rattle.outside_ports.specs.Counts.{Rose};
ghost use Rattle.outside_ports.specs.Ports.{ReadsWhereKnown, misses_after};
ghost use Rattle.outside_ports.specs.Memory.{files_of, known_files_of, count_from};

use crate::failure::Failed;
use crate::files::{NamedFile, bytes_of, copy_from};
use crate::shelf::Shelf;

/// Files in memory. A read gives as much as is there and fits the buffer, and fails exactly where
/// the name is not there; that is a miss, and its faults are its misses.
#[derive(Drop)]
pub struct MemShelf {
    pub files: Vec<NamedFile>,
    /// How many reads were of a name that is not there.
    pub misses: u64,
}

impl MemShelf {
    /// A shelf of these files; of two of one name the first counts.
    pub fn new(files: Vec<NamedFile>) -> Self
        ensures files { result.files ≡ files }
        ensures misses { result.misses ≡ 0 }
    {
        MemShelf { files, misses: 0 }
    }
}

impl Shelf for MemShelf {
    ghost known_files = { λ shelf. known_files_of shelf.files.items };

    ghost faults = { λ shelf. shelf.misses };

    ghost misses = { λ shelf. shelf.misses };

    fn read(&mut self, name: &str, at: u64, buf: &mut [u8]) -> Result<usize, Failed>
        ensures within { IfOk result (λ count. count ≤ length buf.new) }
        ensures known_files { files_of self.new.files.items ≡ files_of self.old.files.items }
        ensures bytes { let known_files = known_files_of self.old.files.items in
            ReadsWhereKnown known_files name.now at buf.new result }
        ensures full { let file = files_of self.old.files.items name.now in
            IfOk result (λ count. count ≡ count_from file at (length buf.new)) }
        ensures no_fault { OnOk result (self.new.misses ≡ self.old.misses) }
        ensures fault { OnErr result (Rose self.old.misses self.new.misses) }
        ensures kept { self.old.misses ≤ self.new.misses }
        ensures misses { let known_files = known_files_of self.old.files.items in
            self.new.misses ≡ misses_after known_files name.now self.old.misses }
        ensures missing { IsErr result ↔ IsNone (files_of self.old.files.items name.now) }
    {
        match bytes_of(&self.files, name) {
            Some(file) => Ok(copy_from(file, at, buf)),
            None => {
                self.misses = self.misses.saturating_add(1);
                Err(Failed)
            }
        }
    }
}
