ghost use Rattle.std.specs.Prelude.{◌≡◌, ◌≤◌, ◌<◌, min, IsErr, IfOk, OnOk, OnErr, IsNone, ◌↔◌, length};
ghost use Rattle.outside_ports.specs.Counts.{Rose};
ghost use Rattle.outside_ports.specs.Ports.{ReadsWhereKnown, misses_after};
ghost use Rattle.outside_ports.specs.Memory.{files_of, known_files_of, count_from};

use crate::failure::Failed;
use crate::files::NamedFile;
use crate::mem_shelf::MemShelf;
use crate::shelf::Shelf;

/// A `MemShelf` that gives at most so many bytes a call.
#[derive(Drop)]
pub struct DripShelf {
    /// The files, and the count of misses, which are the faults.
    pub shelf: MemShelf,
    /// The most bytes that a call gives.
    pub most: usize,
    ghost positive: { 0 < most },
}

impl DripShelf {
    /// A shelf of these files; of two of one name the first counts.
    pub fn new(files: Vec<NamedFile>, most: usize) -> Self
        requires { 0 < most }
        ensures files { result.shelf.files ≡ files }
        ensures misses { result.shelf.misses ≡ 0 }
        ensures most { result.most ≡ most }
    {
        DripShelf {
            shelf: MemShelf::new(files),
            most,
        }
    }
}

impl Shelf for DripShelf {
    ghost known_files = { λ shelf. known_files_of shelf.shelf.files.items };

    ghost faults = { λ shelf. shelf.shelf.misses };

    ghost misses = { λ shelf. shelf.shelf.misses };

    fn read(&mut self, name: &str, at: u64, buf: &mut [u8]) -> Result<usize, Failed>
        ensures within { IfOk result (λ count. count ≤ length buf.new) }
        ensures known_files { files_of self.new.shelf.files.items
            ≡ files_of self.old.shelf.files.items }
        ensures bytes { let known_files = known_files_of self.old.shelf.files.items in
            ReadsWhereKnown known_files name.now at buf.new result }
        ensures full { let file = files_of self.old.shelf.files.items name.now in
            IfOk result (λ count. count
            ≡ count_from file at (min (length buf.new) self.old.most)) }
        ensures no_fault { OnOk result (self.new.shelf.misses ≡ self.old.shelf.misses) }
        ensures fault { OnErr result (Rose self.old.shelf.misses self.new.shelf.misses) }
        ensures kept { self.old.shelf.misses ≤ self.new.shelf.misses }
        ensures misses { let known_files = known_files_of self.old.shelf.files.items in
            self.new.shelf.misses ≡ misses_after known_files name.now self.old.shelf.misses }
        ensures missing { IsErr result
            ↔ IsNone (files_of self.old.shelf.files.items name.now) }
        ensures most { self.new.most ≡ self.old.most }
    {
        let room = buf.len().min(self.most);
        self.shelf.read(name, at, &mut buf[..room])
    }
}
