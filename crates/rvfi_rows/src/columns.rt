//! The columns of a trace.

ghost use Rattle.std.specs.Prelude.{◌≡◌, ◌≤◌, ◌<◌, ◌+◌, ℕ, Decides, IfOk, length, max};
ghost use Rattle.rvfi_rows.specs.Columns.{port_columns, port_or_zero, ports_of};
ghost use Rattle.rvfi_rows.specs.Placed.{placed_from};

use crate::column::Column;
use crate::port_columns::PortColumns;
use std::alloc::{AllocError, Global};
use std::marker::Model;

/// For each field of a header the column that it names, or none for an unknown name; and of how
/// many harts the trace is.
#[derive(Debug, Drop)]
pub struct Columns {
    columns: Vec<Option<Column>>,
    /// The known ones of each port.
    ports: Vec<PortColumns>,
    harts: u32,
}

impl Model for Columns {
    ghost use Rattle.std.specs.Prelude.{◌≡◌, map};
    ghost use Rattle.rvfi_rows.specs.Columns.{TraceColumns, port_columns, port_numbers};
    ghost use Rattle.rvfi_rows.specs.Placed.{placed_from};

    ghost Value = { TraceColumns };

    ghost view = { λ columns. record { named = columns.columns.items; harts = columns.harts } };

    ghost invariant = { λ columns. map (λ known. known.placed.items) columns.ports.items
        ≡ map (λ port. placed_from 0 (port_columns port columns.columns.items))
        (port_numbers columns.columns.items) };
}

impl Columns {
    /// Columns, each at its place, of a trace of so many harts.
    pub(crate) fn of(
        alloc: Global,
        columns: Vec<Option<Column>>,
        harts: u32,
    ) -> Result<Columns, AllocError>
        ensures { IfOk result (λ made. made ≡ record { named = columns.items; harts = harts }) }
    {
        let mut ports = Vec::new(alloc);
        for port in 0..port_count(&columns) {
            ports.push(PortColumns::of_port(alloc, &columns, port)?)?;
        }
        Ok(Columns {
            columns,
            ports,
            harts,
        })
    }

    /// The same columns, of a trace of so many harts.
    pub fn with_harts(self, harts: u32) -> Columns
        ensures { result ≡ record { named = self.named; harts = harts } }
    {
        let Columns { columns, ports, .. } = self;
        Columns {
            columns,
            ports,
            harts,
        }
    }

    /// Of how many harts the trace is: a row is of one whose number is less.
    pub fn harts(&self) -> u32
        ensures { result ≡ self.now.harts }
    {
        self.harts
    }

    /// How many ports there are: one more than the highest of a known column, from 1 to 4. Each line
    /// after the header has a row for each.
    pub fn ports(&self) -> u32
        ensures number { result ≡ ports_of self.now.named }
        ensures at_least_1 { 1 ≤ result }
        ensures at_most_4 { result ≤ 4 }
    {
        self.ports.len() as u32
    }

    /// The known columns of a port.
    pub(crate) fn port(&self, port: u32) -> &PortColumns
        requires { port < ports_of self.now.named }
        ensures { result.now.placed.items ≡ placed_from 0 (port_columns port self.now.named) }
    {
        &self.ports[port as usize]
    }

    pub(crate) fn as_slice(&self) -> &[Option<Column>]
        ensures { result.now ≡ self.now.named }
    {
        self.columns.as_slice()
    }

    /// The same columns again.
    pub(crate) fn copy(&self, alloc: Global) -> Result<Columns, AllocError>
        ensures { IfOk result (λ columns. columns ≡ self.now) }
    {
        Columns::of(alloc, self.columns.clone()?, self.harts)
    }

    /// Whether the other columns are the same.
    pub(crate) fn is_same(&self, other: &Columns) -> bool
        ensures { Decides result (self.now ≡ other.now) }
    {
        let (names, others) = (self.as_slice(), other.as_slice());
        self.harts == other.harts && names.len() == others.len() && are_same(names, others)
    }
}

/// How many ports columns have.
pub(crate) fn port_count(columns: &[Option<Column>]) -> u32
    ensures number { result ≡ ports_of columns.now }
    ensures at_most_4 { result ≤ 4 }
{
    let mut highest = 0;
    for index in 0..columns.len() {
        highest = greater(highest, port_or_zero(columns[index]));
    }
    highest + 1
}

/// The greater of two numbers.
fn greater(one: u32, other: u32) -> u32
    ensures { result ≡ max one other }
{
    if one < other { other } else { one }
}

/// The port of a known column, 0 of another.
fn port_or_zero(column: Option<Column>) -> u32
    ensures number { result ≡ port_or_zero column }
    ensures below_4 { result < 4 }
{
    match column {
        None => 0,
        Some(column) => column.port.number(),
    }
}

/// Whether two columns are the same, or both none.
#[tactic(auto, using(crate::proofs::SameColumns::is_column_decides))]
fn is_same_column(one: Option<Column>, other: Option<Column>) -> bool
    ensures { Decides result (one ≡ other) }
{
    match one {
        None => other.is_none(),
        Some(column) => column.is(other),
    }
}

/// Whether as many columns are the same.
fn are_same(one: &[Option<Column>], other: &[Option<Column>]) -> bool
    requires { length one.now ≡ length other.now }
    ensures { Decides result (one.now ≡ other.now) }
{
    for index in 0..one.len() {
        if !is_same_column(one[index], other[index]) {
            return false;
        }
    }
    true
}
