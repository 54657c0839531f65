//! The rows of a trace, from its lines.

ghost use Rattle.std.specs.Prelude.{◌≡◌, ◌<◌, ℕ, List, option_map};
ghost use Rattle.hart_words.specs.Results.{Gives, result_view};
ghost use Rattle.rvfi_rows.specs.Cells.{shown_in};
ghost use Rattle.rvfi_rows.specs.Columns.{ports_of};
ghost use Rattle.rvfi_rows.specs.Placed.{cells_at, row_at, valid_among, valid_at};
ghost use Rattle.rvfi_rows.specs.Rows.{cell_of, is_needed, row_at_port, row_fault, row_of_fields, row_of_line, row_of_present, shown_if, value_or_fault};

use crate::column::{Column, PlacedColumn};
use crate::columns::Columns;
use crate::fault::{RowError, RowFault};
use crate::header::has_carriage_return;
use crate::port_columns::PortColumns;
use crate::row::Row;
use csv_line::{Fields, line_fields};
use hart_words::{NumberFault, Signal, read_number};
use std::alloc::Global;

/// The row of a port on `line` under these columns. It is `None` where the port's column `valid`
/// shows 0, and then no other field is looked at. A field is a number below 2 to the power of its
/// column's width, in decimal or after `0x`; an empty one shows nothing.
///
/// The faults, the first that holds: a carriage return stands in the line; the fields are not as
/// many as the columns; the port's `valid` is no number or too wide; and for the port's known
/// columns from the left, `insn` or `pc_rdata` is empty, or the field is no number or too wide; and
/// the row is of a hart that is not there, whose number is not below `harts`. A row that names no
/// hart is that of hart 0.
pub fn read_row(
    alloc: Global,
    columns: &Columns,
    line: &[u8],
    port: u32,
    harts: u32,
) -> Result<Option<Row>, RowError>
    requires { port < ports_of columns.now.named }
    ensures { Gives row_fault (option_map shown_in) result
        (row_of_line (record { named = columns.now.named; harts = harts }) line.now port) }
{
    let fields = line_fields(alloc, line)?;
    let has_return = has_carriage_return(line);
    Ok(row_of_fields(columns, has_return, &fields, port, harts)?)
}

/// The row of a port from a line's fields, of a trace of so many harts.
#[tactic(auto, unfolding(crate::specs::Rows::row_of_fields))]
fn row_of_fields(
    columns: &Columns,
    has_return: bool,
    fields: &Fields,
    port: u32,
    harts: u32,
) -> Result<Option<Row>, RowFault>
    requires { port < ports_of columns.now.named }
    ensures { result_view (option_map shown_in) result ≡ row_of_fields
        (record { named = columns.now.named; harts = harts }) has_return fields.now port }
{
    match row_at_port(columns, has_return, fields, port)? {
        None => Ok(None),
        Some(row) => present(row, harts),
    }
}

/// The row, where its hart is one of so many.
fn present(row: Row, harts: u32) -> Result<Option<Row>, RowFault>
    ensures { result_view (option_map shown_in) result
        ≡ row_of_present harts (Some (shown_in row)) }
{
    if row.is_of(harts) {
        Ok(Some(row))
    } else {
        Err(RowFault::NoHart)
    }
}

/// What a line's fields show of the row of a port.
fn row_at_port(
    columns: &Columns,
    has_return: bool,
    fields: &Fields,
    port: u32,
) -> Result<Option<Row>, RowFault>
    requires { port < ports_of columns.now.named }
    ensures { result_view (option_map shown_in) result
        ≡ row_at_port columns.now.named has_return fields.now port }
{
    let mut row = Row::empty();
    if fill_row(columns, has_return, fields, port, &mut row)? {
        Ok(Some(row))
    } else {
        Ok(None)
    }
}

/// Has `row` show what the fields of a line show of a port's row, and says whether that is valid;
/// its hart is not looked at.
#[tactic(auto, using(crate::proofs::Steps::row_placed), unfolding(crate::specs::Rows::row_at_port))]
pub(crate) fn fill_row(
    columns: &Columns,
    has_return: bool,
    fields: &Fields,
    port: u32,
    row: &mut Row,
) -> Result<bool, RowFault>
    requires { port < ports_of columns.now.named }
    ensures { result_view (shown_if (shown_in row.new)) result
        ≡ row_at_port columns.now.named has_return fields.now port }
{
    if has_return {
        return Err(RowFault::StrayReturn);
    }
    if fields.len() != columns.as_slice().len() {
        return Err(RowFault::FieldCount);
    }
    fill_valid(columns.port(port), fields, row)
}

/// The same of fields that are as many as the columns, in a line with no carriage return.
#[tactic(auto, unfolding(crate::specs::Placed::row_at))]
fn fill_valid(known: &PortColumns, fields: &Fields, row: &mut Row) -> Result<bool, RowFault>
    ensures { result_view (shown_if (shown_in row.new)) result
        ≡ row_at known.now.placed.items fields.now }
{
    if valid_shown(known, fields)? == Some(0) {
        return Ok(false);
    }
    fill_cells(known, fields, row)?;
    Ok(true)
}

/// What the column `valid` shows, where there is one.
fn valid_shown(known: &PortColumns, fields: &Fields) -> Result<Option<u64>, RowFault>
    ensures { result ≡ valid_at (valid_among known.now.placed.items) fields.now }
{
    match &known.valid {
        None => Ok(None),
        Some(one) => match fields.untrimmed(one.placed.place) {
            None => Ok(None),
            Some(field) => one.shown(field),
        },
    }
}

/// Has `row` show the cells of all these columns.
fn fill_cells(known: &PortColumns, fields: &Fields, row: &mut Row) -> Result<(), RowFault>
    ensures { result_view (λ done. shown_in row.new) result
        ≡ cells_at known.now.placed.items fields.now }
{
    let mut shown = 0;
    for index in 0..known.cells.len() {
        let one = &known.cells[index];
        if let Some(field) = fields.untrimmed(one.placed.place) {
            shown = row.add(shown, one, field)?;
        }
    }
    row.show(shown);
    Ok(())
}

/// What a field shows of its column's signal.
#[tactic(auto, unfolding(crate::specs::Rows::cell_of))]
pub(crate) fn cell(column: Column, field: &[u8]) -> Result<Option<u64>, RowFault>
    ensures { result ≡ cell_of column field.now }
{
    if field.is_empty() {
        return match column.signal {
            Signal::Insn | Signal::PcRdata => Err(RowFault::Empty(column)),
            _ => Ok(None),
        };
    }
    match read_number(field, column.signal.width()) {
        Ok(value) => Ok(Some(value)),
        Err(NumberFault::NotNumber) => Err(RowFault::NotNumber(column)),
        Err(NumberFault::TooWide) => Err(RowFault::TooWide(column)),
    }
}
