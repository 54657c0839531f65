//! Lines of a trace that are judged together.

ghost use Rattle.std.specs.Prelude.{◌≡◌, Decides, IfOk, OnOk, OnErr, Some};
ghost use Rattle.std.specs.Option.{ForSome};
ghost use Rattle.rvfi_rows.specs.Readings.{readings_in};
ghost use Rattle.rvfi_rows.specs.Rows.{rows_of};

use crate::columns::Columns;
use crate::rows::Rows;
use crate::rows_read::RowsRead;
use hart_words::NoMemory;
use line_text::Lines;
use std::alloc::Global;
use std::sync::Mutex;

/// Lines of a trace that stand one after another and are judged together. What they read as is kept
/// beside them once they were read, so that each line is read once.
#[derive(Drop)]
pub struct Segment {
    pub lines: Lines,
    read: Option<RowsRead>,
    /// Rows that are wanted no more, in whose memory the lines are read. A thread that reads them
    /// takes it through a `&`.
    spare: Mutex<Option<Rows>>,
    ghost theirs: { ForSome read (λ read. readings_in read.rows ≡ rows_of read.columns lines) },
}

impl Segment {
    ghost use Rattle.rvfi_rows.specs.Segments.{FindsRows, IsRead};

    /// Lines that were not read.
    pub fn new(lines: Lines) -> Segment
        ensures lines { result.lines ≡ lines }
    {
        Segment {
            lines,
            read: None,
            spare: Mutex::new(None),
        }
    }

    /// Has these lines read in the memory that the rows of another segment have.
    pub(crate) fn reuse(&mut self, other: Segment)
        ensures { self.new ≡ self.old }
    {
        let Segment { read, .. } = other;
        if let Some(read) = read {
            *self.spare.get_mut() = Some(read.rows);
        }
    }

    /// What the lines read as under these columns, where they were read so.
    pub fn rows(&self, columns: &Columns) -> Option<&Rows>
        ensures { FindsRows columns.now self.now result }
    {
        match &self.read {
            None => None,
            Some(read) => {
                if read.columns.is_same(columns) {
                    Some(&read.rows)
                } else {
                    None
                }
            }
        }
    }

    /// Reads the lines under these columns, unless they were read so. Where memory is refused
    /// nothing changes.
    pub fn read(&mut self, alloc: Global, columns: &Columns) -> Result<(), NoMemory>
        ensures lines { self.new.lines ≡ self.old.lines }
        ensures read { OnOk result (IsRead columns.now self.new) }
        ensures kept { OnErr result (self.new ≡ self.old) }
    {
        if self.is_read(columns) {
            return Ok(());
        }
        self.read = Some(self.read_lines(alloc, columns)?);
        Ok(())
    }

    /// What the lines read as under these columns.
    pub(crate) fn read_lines(&self, alloc: Global, columns: &Columns) -> Result<RowsRead, NoMemory>
        ensures columns { IfOk result (λ read. read.columns ≡ columns.now) }
        ensures rows { IfOk result
            (λ read. readings_in read.rows ≡ rows_of columns.now self.now.lines) }
    {
        let spare = self.spare_rows(alloc);
        RowsRead::of_lines(alloc, columns, &self.lines, spare)
    }

    /// The rows in whose memory the lines are read; they are there once.
    fn spare_rows(&self, alloc: Global) -> Rows {
        let spare = match self.spare.try_lock() {
            None => None,
            Some(mut spare) => spare.take(),
        };
        match spare {
            None => Rows::none(alloc),
            Some(rows) => rows,
        }
    }

    /// Keeps what the lines read as.
    pub(crate) fn keep(&mut self, read: RowsRead)
        requires { readings_in read.rows ≡ rows_of read.columns self.old.lines }
        ensures lines { self.new.lines ≡ self.old.lines }
        ensures read { self.new.read ≡ Some read }
    {
        self.read = Some(read);
    }

    /// Whether the lines were read under these columns.
    pub fn is_read(&self, columns: &Columns) -> bool
        ensures { Decides result (IsRead columns.now self.now) }
    {
        match &self.read {
            None => false,
            Some(read) => read.columns.is_same(columns),
        }
    }
}
