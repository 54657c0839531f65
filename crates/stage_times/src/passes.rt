//! Going through a trace.

ghost use Rattle.std.specs.Prelude.{◌≡◌};

use crate::failure::Failure;
use crate::stages::Stages;
use crate::windows::{Walk, Workers, pass_window};
use hart_set::HartSet;
use hart_step::Core;
use hart_words::{Choices, Map, NoMemory, Span};
use image_text::read_image;
use outside_ports::{MemShelf, NamedFile};
use page_image::PageImage;
use page_layers::Layered;
use rvfi_rows::{Columns, read_header};
use std::alloc::Global;
use std::rt::Clock;
use std::thread::Threads;
use trace_lines::LineTaker;

/// The address of the first instruction and the range of RAM: the judge's defaults.
const FIRST_PC: u64 = 0x8000_0000;

const RAM_BASE: u64 = 0x8000_0000;

const RAM_SIZE: u64 = 0x800_0000;

/// The most bytes of a trace.
const MOST_BYTES: u64 = 1 << 40;

/// The name of the trace in memory.
const TRACE: &str = "trace";

/// An image, and a trace whose rows are judged over it.
#[derive(Drop)]
pub(crate) struct Course {
    image: PageImage,
    map: Map,
    shelf: MemShelf,
    ghost ram: { image.ram ≡ map.ram },
}

impl Course {
    /// The course of these texts.
    pub fn new(alloc: Global, image: &[u8], trace: Vec<u8>) -> Result<Course, Failure> {
        let ram = match Span::new(RAM_BASE, RAM_SIZE) {
            None => return Err(Failure::Image),
            Some(ram) => ram,
        };
        let map = match Map::new(ram, None) {
            None => return Err(Failure::Image),
            Some(map) => map,
        };
        let pieces = match read_image(alloc, image, map.ram) {
            Err(_) => return Err(Failure::Image),
            Ok(pieces) => pieces,
        };
        let image = match PageImage::build(alloc, &pieces, map.ram) {
            Err(_) => return Err(Failure::Image),
            Ok(image) => image,
        };
        let shelf = shelf_of(alloc, trace)?;
        Ok(Course { image, map, shelf })
    }

    /// Goes through the trace once, and notes what each window took, where that is less than was
    /// noted of it.
    pub fn pass<R: Threads + Sync + Clock>(
        &mut self,
        workers: &Workers<R>,
        least: &mut Vec<Stages>,
    ) -> Result<(), Failure> {
        let alloc = workers.alloc;
        let taker = LineTaker::open(alloc, TRACE, MOST_BYTES)?;
        let (first, taker) = taker.next_lines(&mut self.shelf, 1)?;
        let columns = match first.lines.get(0) {
            None => return Err(Failure::Header),
            Some(header) => header_of(alloc, header)?,
        };
        let memory = Layered::over(alloc, &self.image);
        let core = Core::reset(FIRST_PC, self.map, Choices::plain());
        let harts = HartSet::reset(alloc, core, 1, memory)?;
        let judged = Vec::new(alloc);
        let mut walk = Walk {
            harts,
            taker,
            judged,
        };
        'windows: for number in 0..usize::MAX {
            let (stages, next) = pass_window(workers, &columns, walk, &mut self.shelf)?;
            note(least, number, stages)?;
            match next {
                None => return Ok(()),
                Some(next) => walk = next,
            }
        }
        Ok(())
    }
}

/// A shelf with a trace.
fn shelf_of(alloc: Global, bytes: Vec<u8>) -> Result<MemShelf, NoMemory> {
    let name = String::from_str(alloc, TRACE)?;
    let mut files = Vec::new(alloc);
    files.push(NamedFile { name, bytes })?;
    Ok(MemShelf::new(files))
}

/// The columns that a header names.
fn header_of(alloc: Global, header: &[u8]) -> Result<Columns, Failure> {
    match read_header(alloc, header) {
        Ok(columns) => Ok(columns),
        Err(_) => Err(Failure::Header),
    }
}

/// Notes what a window took.
fn note(least: &mut Vec<Stages>, number: usize, stages: Stages) -> Result<(), NoMemory> {
    if number < least.len() {
        least[number] = least[number].least(stages);
    } else {
        least.push(stages)?;
    }
    Ok(())
}
