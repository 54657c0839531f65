//! The columns that a header names.

ghost use Rattle.std.specs.Prelude.{◌≡◌, ◌≤◌, ◌*◌, ◌-◌, ℕ, List, [], IfOk, find, length, map, not, option_map, take};
ghost use Rattle.std.specs.Str.{bytes_eq};
ghost use Rattle.hart_words.specs.SignalNames.{name_of};
ghost use Rattle.hart_words.specs.Results.{Gives};
ghost use Rattle.csv_line.specs.Fields.{has_return_in};
ghost use Rattle.rvfi_rows.specs.Ports.{has_suffix};
ghost use Rattle.rvfi_rows.specs.Columns.{header_columns, header_fault, column_at, column_of, column_of_name, signal_of_name, suffix_port, less_prefix, has_column, stands_in, first_repeated, missing_column};

use crate::column::{Column, NEEDED, PORTS, Port};
use crate::columns::Columns;
use crate::fault::{HeaderError, HeaderFault};
use csv_line::{Fields, line_fields};
use hart_words::{SIGNALS, Signal, SignalEntry};
use std::alloc::Global;

/// The columns that the fields of `line` name, as RVFI's description names its signals. A name may
/// begin with `rvfi_`, which is dropped once, and end in `_0` to `_3`, which is its port; it is of
/// port 0 where it does not. A name that is not known is passed over. The trace is of one hart,
/// until `Columns::with_harts` says another number.
///
/// The faults, the first that holds: a carriage return stands in the line; a column stands twice;
/// and for each port in order, `insn` is missing, `pc_rdata` is missing.
#[tactic(auto, unfolding(crate::specs::Columns::header_columns))]
pub fn read_header(alloc: Global, line: &[u8]) -> Result<Columns, HeaderError>
    ensures named { Gives header_fault (λ columns. columns.named) result (header_columns line.now) }
    ensures one_hart { IfOk result (λ columns. columns.harts ≡ 1) }
{
    if has_carriage_return(line) {
        return Err(HeaderError::Fault(HeaderFault::StrayReturn));
    }
    let fields = line_fields(alloc, line)?;
    let columns = columns_named(alloc, &fields)?;
    if let Some(column) = repeated_column(columns.as_slice()) {
        return Err(HeaderError::Fault(HeaderFault::Twice(column)));
    }
    if let Some(column) = missing_column(&columns) {
        return Err(HeaderError::Fault(HeaderFault::NoColumn(column)));
    }
    Ok(columns)
}

/// Whether a carriage return stands in the line.
pub(crate) fn has_carriage_return(line: &[u8]) -> bool
    ensures { result ≡ has_return_in line.now }
{
    line.iter().any(|byte| *byte == b'\r')
}

/// Whether the column stands among these.
fn has_column(columns: &[Option<Column>], column: Column) -> bool
    ensures { result ≡ has_column column columns.now }
{
    columns.iter().any(|other| column.is(*other))
}

/// Whether a known column stands among these too.
fn stands(columns: &[Option<Column>], column: Option<Column>) -> bool
    ensures { result ≡ stands_in columns.now column }
{
    match column {
        None => false,
        Some(column) => has_column(columns, column),
    }
}

/// The first column from the left that stood before.
fn repeated_column(columns: &[Option<Column>]) -> Option<Column>
    ensures { result ≡ first_repeated [] columns.now }
{
    for index in 0..columns.len() {
        let column = columns[index];
        if stands(&columns[..index], column) {
            return column;
        }
    }
    None
}

/// The first column that a port needs, and that is missing.
fn missing_column(columns: &Columns) -> Option<Column>
    ensures { result ≡ missing_column columns.now.named }
{
    let needed = first_of(&NEEDED, 2 * columns.ports() as usize);
    missing_among(columns.as_slice(), needed)
}

/// So many columns at the front.
fn first_of(columns: &[Column], count: usize) -> &[Column]
    requires { count ≤ length columns.now }
    ensures { result.now ≡ take count columns.now }
{
    &columns[..count]
}

/// The first of needed columns that is missing.
fn missing_among(columns: &[Option<Column>], needed: &[Column]) -> Option<Column>
    ensures { result ≡ find (λ column. not (has_column column columns.now)) needed.now }
{
    needed
        .iter()
        .copied()
        .find(|column| !has_column(columns, *column))
}

/// What each field names.
fn columns_named(alloc: Global, fields: &Fields) -> Result<Columns, HeaderError>
    ensures named { Gives header_fault (λ columns. columns.named) result
        (Ok (map column_of fields.now)) }
    ensures one_hart { IfOk result (λ columns. columns.harts ≡ 1) }
{
    let mut columns = Vec::new(alloc);
    for index in 0..fields.len() {
        if let Some(field) = fields.get(index) {
            columns.push(column_named(field))?;
        }
    }
    Ok(Columns::of(alloc, columns, 1)?)
}

/// The column that a header's field names.
fn column_named(field: &[u8]) -> Option<Column>
    ensures { result ≡ column_of field.now }
{
    column_of_name(without_prefix(field))
}

#[tactic(auto, unfolding(crate::specs::Columns::less_prefix))]
fn without_prefix(name: &[u8]) -> &[u8]
    ensures { result.now ≡ less_prefix name.now }
{
    if name.starts_with(b"rvfi_") {
        &name[5..]
    } else {
        name
    }
}

/// The column of a name.
#[tactic(auto, unfolding(crate::specs::Columns::column_of_name))]
fn column_of_name(name: &[u8]) -> Option<Column>
    ensures { result ≡ column_of_name name.now }
{
    match suffix_port(name) {
        None => column_at(Port::Zero, name),
        Some(port) => column_at(port, without_suffix(name)),
    }
}

/// A name less the two bytes at its end.
fn without_suffix(name: &[u8]) -> &[u8]
    ensures { result.now ≡ take (length name.now - 2) name.now }
{
    &name[..name.len().saturating_sub(2)]
}

/// The port that the end of a name says.
#[tactic(auto, unfolding(crate::specs::Columns::suffix_port))]
fn suffix_port(name: &[u8]) -> Option<Port>
    ensures { result ≡ suffix_port name.now }
{
    port_among(&PORTS, name)
}

/// The same among these ports.
fn port_among(ports: &[Port], name: &[u8]) -> Option<Port>
    ensures { result ≡ find (has_suffix name.now) ports.now }
{
    ports.iter().copied().find(|port| port.is_said_by(name))
}

/// The column of a signal's name, at a port.
fn column_at(port: Port, name: &[u8]) -> Option<Column>
    ensures { result ≡ column_at port name.now }
{
    match signal_of_name(name) {
        None => None,
        Some(signal) => Some(Column { signal, port }),
    }
}

/// The signal of a name.
#[tactic(auto, unfolding(crate::specs::Columns::signal_of_name))]
fn signal_of_name(name: &[u8]) -> Option<Signal>
    ensures { result ≡ signal_of_name name.now }
{
    signal_among(&SIGNALS, name)
}

/// The signal of a name among those of entries.
fn signal_among(entries: &[SignalEntry], name: &[u8]) -> Option<Signal>
    ensures { result ≡ option_map (λ entry. entry.signal)
        (find (λ entry. bytes_eq name.now (name_of entry.signal))
        entries.now) }
{
    entries
        .iter()
        .find(|entry| entry.signal.is_named(name))
        .map(|entry| entry.signal)
}
