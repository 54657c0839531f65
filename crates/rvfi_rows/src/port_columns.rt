//! The known columns of a port.

ghost use Rattle.std.specs.Prelude.{◌≡◌, IfOk, map, option_map};
ghost use Rattle.rvfi_rows.specs.Columns.{column_if_of, port_columns};
ghost use Rattle.rvfi_rows.specs.Placed.{placed_from, valid_among};
ghost use Rattle.rvfi_rows.specs.Rows.{is_valid_column};

use crate::cell::Cell;
use crate::column::{Column, PlacedColumn};
use hart_words::Signal;
use std::alloc::{AllocError, Global};

/// The known columns of a port, so that its row is read from its own fields alone.
#[derive(Debug, Drop)]
pub(crate) struct PortColumns {
    /// All of them, from the left.
    pub placed: Vec<PlacedColumn>,
    /// The same as their cells are read.
    pub cells: Vec<Cell>,
    /// The first of `valid`, as its cells are read.
    pub valid: Option<Cell>,
    ghost first: { option_map (λ cell. cell.placed) valid ≡ valid_among placed.items },
    ghost same: { map (λ cell. cell.placed) cells.items ≡ placed.items },
}

impl PortColumns {
    /// Those of a port among all columns.
    pub fn of_port(
        alloc: Global,
        columns: &[Option<Column>],
        port: u32,
    ) -> Result<PortColumns, AllocError>
        ensures { IfOk result
            (λ known. known.placed.items ≡ placed_from 0 (port_columns port columns.now)) }
    {
        let mut placed = Vec::new(alloc);
        for place in 0..columns.len() {
            if let Some(column) = column_if_of(port, columns[place]) {
                placed.push(PlacedColumn { place, column })?;
            }
        }
        let cells = cells_of(alloc, &placed)?;
        let valid = cell_if_of(valid_among(&placed));
        Ok(PortColumns {
            placed,
            cells,
            valid,
        })
    }
}

/// The columns as their cells are read.
fn cells_of(alloc: Global, placed: &[PlacedColumn]) -> Result<Vec<Cell>, AllocError>
    ensures { IfOk result (λ cells. map (λ cell. cell.placed) cells.items ≡ placed.now) }
{
    let mut cells = Vec::new(alloc);
    for index in 0..placed.len() {
        cells.push(Cell::of(placed[index]))?;
    }
    Ok(cells)
}

/// A column as its cells are read, where there is one.
fn cell_if_of(placed: Option<PlacedColumn>) -> Option<Cell>
    ensures { option_map (λ cell. cell.placed) result ≡ placed }
{
    match placed {
        None => None,
        Some(placed) => Some(Cell::of(placed)),
    }
}

/// The column, where it is the port's.
fn column_if_of(port: u32, column: Option<Column>) -> Option<Column>
    ensures { result ≡ column_if_of port column }
{
    match column {
        None => None,
        Some(column) => {
            if column.port.number() == port {
                Some(column)
            } else {
                None
            }
        }
    }
}

/// The first column of `valid`.
fn valid_among(placed: &[PlacedColumn]) -> Option<PlacedColumn>
    ensures { result ≡ valid_among placed.now }
{
    placed.iter().copied().find(|one| is_valid(one.column))
}

/// Whether it is a column of `valid`.
fn is_valid(column: Column) -> bool
    ensures { result ≡ is_valid_column column }
{
    column.signal.index() == Signal::Valid.index()
}
