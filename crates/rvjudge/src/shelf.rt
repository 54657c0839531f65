//! Real files, read by place.

ghost use Rattle.std.specs.Prelude.{◌≡◌, ◌≤◌, None, IfOk, OnOk, OnErr, length};
ghost use Rattle.outside_ports.specs.Counts.{Rose, count_after_one};

use outside_ports::{Failed, Shelf};
use std::alloc::Global;
use std::io::{Read, Seek, SeekFrom};
use std::rt::Files;
use std::{fs, io};

/// A file that was opened, and the place where its last read ended.
#[derive(Drop)]
struct OpenedFile<F: Drop> {
    name: String,
    file: F,
    place: u64,
}

/// The files of the system. The file of the last name stays open, so a file that is read in chunks
/// is opened once, and a pipe is read from its front without a seek. It tells no content. Its
/// faults count each failure to open, seek or read, and each name that memory could not keep.
#[derive(Drop)]
pub struct FileShelf<'a, R: Files> {
    alloc: Global,
    rt: &'a R,
    opened: Option<OpenedFile<R::File>>,
    pub faults: u64,
}

impl<'a, R: Files> FileShelf<'a, R> {
    /// A shelf with no file open.
    pub fn new(alloc: Global, rt: &'a R) -> Self
        ensures faults { result.faults ≡ 0 }
    {
        FileShelf {
            alloc,
            rt,
            opened: None,
            faults: 0,
        }
    }

    /// The file that is open, where it has this name.
    fn take_kept(&mut self, name: &str) -> Option<OpenedFile<R::File>>
        ensures faults { self.new.faults ≡ self.old.faults }
    {
        let opened = self.opened.take()?;
        if opened.name.as_str() == name {
            Some(opened)
        } else {
            None
        }
    }

    fn open(&self, name: &str) -> io::Result<OpenedFile<R::File>> {
        let name_kept = String::from_str(self.alloc, name)?;
        let file = fs::open(self.rt, name)?;
        Ok(OpenedFile {
            name: name_kept,
            file,
            place: 0,
        })
    }

    /// The file of this name at this place: the one that is open, or a new one.
    fn file_at(&mut self, name: &str, at: u64) -> io::Result<OpenedFile<R::File>>
        ensures faults { self.new.faults ≡ self.old.faults }
    {
        let mut opened = match self.take_kept(name) {
            Some(opened) => opened,
            None => self.open(name)?,
        };
        if opened.place != at {
            opened.file.seek(SeekFrom::Start(at))?;
            opened.place = at;
        }
        Ok(opened)
    }

    /// Reads once, and keeps the file open where that did not fail.
    fn read_file(&mut self, name: &str, at: u64, buf: &mut [u8]) -> io::Result<usize>
        ensures within { IfOk result (λ count. count ≤ length buf.new) }
        ensures faults { self.new.faults ≡ self.old.faults }
    {
        let mut opened = self.file_at(name, at)?;
        let count = read_some(&mut opened.file, buf)?;
        opened.place = at.saturating_add(count as u64);
        self.opened = Some(opened);
        Ok(count)
    }
}

/// Reads, again where a signal broke in.
fn read_some<F: Read>(file: &mut F, buf: &mut [u8]) -> io::Result<usize>
    ensures within { IfOk result (λ count. count ≤ length buf.new) }
{
    for _ in 0..u64::MAX {
        match file.read(buf) {
            Err(error) if error.kind() == io::ErrorKind::Interrupted => {}
            other => return other,
        }
    }
    Err(io::Error::from(io::ErrorKind::Interrupted))
}

impl<R: Files> Shelf for FileShelf<'_, R> {
    ghost known_files = { λ _. None };

    ghost faults = { λ shelf. shelf.faults };

    ghost misses = { λ _. 0 };

    fn read(&mut self, name: &str, at: u64, buf: &mut [u8]) -> Result<usize, Failed>
        ensures within { IfOk result (λ count. count ≤ length buf.new) }
        ensures no_fault { OnOk result (self.new.faults ≡ self.old.faults) }
        ensures fault { OnErr result (self.new.faults ≡ count_after_one self.old.faults) }
        ensures rose { OnErr result (Rose self.old.faults self.new.faults) }
        ensures kept { self.old.faults ≤ self.new.faults }
    {
        match self.read_file(name, at, buf) {
            Ok(count) => Ok(count),
            Err(_) => {
                self.faults = self.faults.saturating_add(1);
                Err(Failed)
            }
        }
    }
}
