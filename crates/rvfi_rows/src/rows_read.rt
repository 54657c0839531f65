//! What lines read as, and under which columns.

ghost use Rattle.std.specs.Prelude.{◌≡◌, IfOk};
ghost use Rattle.rvfi_rows.specs.Readings.{readings_in};
ghost use Rattle.rvfi_rows.specs.Rows.{rows_of};

use crate::columns::Columns;
use crate::lines::read_rows_in;
use crate::rows::Rows;
use hart_words::NoMemory;
use line_text::Lines;
use std::alloc::Global;

/// What lines read as under these columns.
#[derive(Drop)]
pub(crate) struct RowsRead {
    pub columns: Columns,
    pub rows: Rows,
}

impl RowsRead {
    /// What these lines read as, in the memory of rows that are wanted no more.
    pub fn of_lines(
        alloc: Global,
        columns: &Columns,
        lines: &Lines,
        spare: Rows,
    ) -> Result<RowsRead, NoMemory>
        ensures columns { IfOk result (λ read. read.columns ≡ columns.now) }
        ensures rows { IfOk result (λ read. readings_in read.rows ≡ rows_of columns.now lines.now) }
    {
        let rows = read_rows_in(alloc, columns, lines, spare)?;
        let columns = columns.copy(alloc)?;
        Ok(RowsRead { columns, rows })
    }
}
