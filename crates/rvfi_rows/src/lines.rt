//! The rows of many lines.

ghost use Rattle.std.specs.Prelude.{◌≡◌, IfOk};
ghost use Rattle.rvfi_rows.specs.Rows.{rows_of};
ghost use Rattle.rvfi_rows.specs.Readings.{readings_in};

use crate::columns::Columns;
use crate::row::Row;
use crate::rows::Rows;
use csv_line::{Fields, LineReader};
use hart_words::NoMemory;
use line_text::Lines;
use std::alloc::Global;

/// What lines read as under these columns: the row of each port as `read_row` reads it, after one
/// that is refused too. Each line is split into fields once.
pub fn read_rows(alloc: Global, columns: &Columns, lines: &Lines) -> Result<Rows, NoMemory>
    ensures { IfOk result (λ rows. readings_in rows ≡ rows_of columns.now lines.now) }
{
    read_rows_in(alloc, columns, lines, Rows::none(alloc))
}

/// The same in the memory of rows that are wanted no more.
#[tactic(auto, unfolding(crate::specs::Rows::rows_of))]
pub(crate) fn read_rows_in(
    alloc: Global,
    columns: &Columns,
    lines: &Lines,
    spare: Rows,
) -> Result<Rows, NoMemory>
    ensures { IfOk result (λ rows. readings_in rows ≡ rows_of columns.now lines.now) }
{
    let mut rows = spare.with_columns(alloc, columns, lines.len())?;
    let mut reader = LineReader::new(alloc, lines.text());
    let mut fields = Fields::new(alloc);
    let mut row = Row::empty();
    'lines: while let Some(read) = reader.next(&mut fields)? {
        rows.push_line(columns, read.has_return, &fields, &mut row)?;
    }
    Ok(rows)
}
