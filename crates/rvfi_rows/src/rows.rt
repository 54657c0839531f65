//! Rows that were read once, to be looked at many times.

ghost use Rattle.std.specs.Prelude.{◌≡◌, ◌≤◌, ◌<◌, ◌+◌, ◌*◌, ◌^◌, ◌++◌, ◌∷◌, [], List, IfOk, OnOk, OnErr, drop, length, map, option_map, slice_get, take, true};
ghost use Rattle.std.specs.List.{All};
ghost use Rattle.hart_words.specs.declared.signal.Signal.{Signal};
ghost use Rattle.hart_words.specs.Signals.{index_of};
ghost use Rattle.rvfi_rows.specs.Cells.{is_among, shown_in, values_at};
ghost use Rattle.rvfi_rows.specs.Columns.{ports_of};
ghost use Rattle.rvfi_rows.specs.Rows.{row_of_fields, rows_of_fields};
ghost use Rattle.rvfi_rows.specs.Kept.{AreFoundAt, HasSignalsOf, ShowsOnly, kept_reading};

use crate::cells::fill_row;
use crate::column::Column;
use crate::columns::Columns;
use crate::fault::RowFault;
use crate::kept_row::KeptRow;
use crate::positions::positions_of;
use crate::reading::{Kept, Reading};
use crate::row::Row;
use csv_line::Fields;
use hart_words::{NoMemory, Signal};
use std::alloc::Global;

/// What lines read as under the columns of a trace: the rows of each line, one for each port.
#[derive(Drop)]
pub struct Rows {
    /// The signals of the known columns, each once: a row of any port has its values under them.
    signals: Vec<Signal>,
    /// The index of each of them.
    places: Vec<u8>,
    /// For each of them, at its index, where its value stands among those of a row.
    positions: [usize; 111],
    rows: Vec<Kept>,
    /// For each row as many values as there are signals; those that are not shown mean nothing.
    values: Vec<u64>,
    ghost full: { length values.items ≡ length rows.items * length signals.items },
    ghost theirs: { All (ShowsOnly signals.items) rows.items },
    ghost placed: { places.items ≡ map index_of signals.items },
    ghost found: { AreFoundAt signals.items positions },
}

impl Rows {
    ghost use Rattle.rvfi_rows.specs.Readings.{kept_shown, reading_of, readings_in, valid_shown};

    /// No rows, under no columns.
    pub(crate) fn none(alloc: Global) -> Rows {
        Rows {
            signals: Vec::new(alloc),
            places: Vec::new(alloc),
            positions: [0; 111],
            rows: Vec::new(alloc),
            values: Vec::new(alloc),
        }
    }

    /// No rows, under these columns, with room for those of so many lines, in the memory of those
    /// that were.
    pub(crate) fn with_columns(
        self,
        alloc: Global,
        columns: &Columns,
        lines: usize,
    ) -> Result<Rows, NoMemory>
        ensures none { IfOk result (λ rows. readings_in rows ≡ []) }
        ensures signals { IfOk result (λ rows. HasSignalsOf columns.now.named rows.signals.items) }
    {
        let Rows { rows, values, .. } = self;
        let mut rows = rows;
        let mut values = values;
        let signals = known_signals(alloc, columns.as_slice())?;
        let places = places_of(alloc, &signals)?;
        let positions = positions_of(&signals);
        // A product past 64 bits is more than the allocator gives.
        let count = lines.saturating_mul(columns.ports() as usize);
        rows.clear();
        rows.reserve(count)?;
        values.clear();
        values.reserve(count.saturating_mul(signals.len()))?;
        Ok(Rows {
            signals,
            places,
            positions,
            rows,
            values,
        })
    }

    /// Puts the rows of a line's fields after the others, one for each port in order; `row` is used
    /// for that.
    pub(crate) fn push_line(
        &mut self,
        columns: &Columns,
        has_return: bool,
        fields: &Fields,
        row: &mut Row,
    ) -> Result<(), NoMemory>
        requires { HasSignalsOf columns.now.named self.old.signals.items }
        ensures pushed { OnOk result (readings_in self.new
            ≡ readings_in self.old ++ rows_of_fields columns.now has_return fields.now) }
        ensures signals { self.new.signals.items ≡ self.old.signals.items }
    {
        for port in 0..columns.ports() {
            let kept = kept_of(columns, has_return, fields, port, row);
            self.push(kept, row)?;
        }
        Ok(())
    }

    /// Puts a row after the others, of which this is kept and whose values stand in `row`.
    fn push(&mut self, kept: Kept, row: &Row) -> Result<(), NoMemory>
        requires { ShowsOnly self.old.signals.items kept }
        ensures pushed { OnOk result (readings_in self.new ≡ readings_in self.old
            ++ kept_reading self.old.signals.items kept
            (values_at row.now.values self.old.signals.items) ∷ []) }
        ensures signals { self.new.signals.items ≡ self.old.signals.items }
    {
        self.values.reserve(self.places.len())?;
        self.rows.reserve(1)?;
        row.put_values(&self.places, &mut self.values);
        self.rows.push_reserved(kept);
        Ok(())
    }

    /// How many rows there are; memory bounds their number.
    pub fn len(&self) -> usize
        ensures count { result ≡ length (readings_in self.now) }
        ensures below_2_to_63 { result < 2 ^ 63 }
    {
        self.rows.len()
    }

    /// How the row at a place reads, where there is one. `row` shows what it shows then, where it
    /// is valid.
    pub fn get(&self, place: usize, row: &mut Row) -> Option<Reading>
        ensures { option_map (λ reading. reading_of reading (shown_in row.new)) result
            ≡ slice_get (readings_in self.now) place }
    {
        match kept_at(&self.rows, place) {
            None => None,
            Some(Kept::Invalid) => Some(Reading::Invalid),
            Some(Kept::Refused(fault)) => Some(Reading::Refused(fault)),
            Some(Kept::Shown(bits)) => {
                row.take_values(bits, &self.places, self.values_at(place));
                Some(Reading::Valid)
            }
        }
    }

    /// The row at a place as it is kept, where it is valid.
    #[inline]
    pub fn kept_row(&self, place: usize) -> Option<KeptRow<'_>>
        ensures { option_map kept_shown result
            ≡ valid_shown (slice_get (readings_in self.now) place) }
    {
        match kept_at(&self.rows, place) {
            None => None,
            Some(Kept::Invalid) => None,
            Some(Kept::Refused(_fault)) => None,
            Some(Kept::Shown(bits)) => Some(KeptRow {
                signals: &self.signals,
                positions: &self.positions,
                bits,
                values: self.values_at(place),
            }),
        }
    }

    /// The values of the row at a place.
    fn values_at(&self, place: usize) -> &[u64]
        requires { place < length self.now.rows.items }
        ensures value { result.now ≡ take (length self.now.signals.items)
            (drop (place * length self.now.signals.items) self.now.values.items) }
        ensures as_many { length result.now ≡ length self.now.signals.items }
    {
        let count = self.signals.len();
        part(&self.values, place * count, count)
    }
}

/// What is kept of the row at a place.
fn kept_at(rows: &[Kept], place: usize) -> Option<Kept>
    ensures { result ≡ slice_get rows.now place }
{
    rows.get(place).copied()
}

/// So many values from a place on.
fn part(values: &[u64], start: usize, count: usize) -> &[u64]
    requires { start + count ≤ length values.now }
    ensures { result.now ≡ take count (drop start values.now) }
{
    &values[start..start + count]
}

/// What is kept of the row of a port from a line's fields; its values stand in `row`.
fn kept_of(columns: &Columns, has_return: bool, fields: &Fields, port: u32, row: &mut Row) -> Kept
    requires { port < ports_of columns.now.named }
    ensures reading { (signals : List Signal) → HasSignalsOf columns.now.named signals
        → kept_reading signals result (values_at row.new.values signals)
        ≡ row_of_fields columns.now has_return fields.now port }
    ensures theirs { (signals : List Signal) → HasSignalsOf columns.now.named signals
        → ShowsOnly signals result }
{
    match fill_row(columns, has_return, fields, port, row) {
        Ok(true) => {
            if row.is_of(columns.harts()) {
                Kept::Shown(row.bits())
            } else {
                Kept::Refused(RowFault::NoHart)
            }
        }
        Ok(false) => Kept::Invalid,
        Err(fault) => Kept::Refused(fault),
    }
}

/// The index of each of these signals.
fn places_of(alloc: Global, signals: &[Signal]) -> Result<Vec<u8>, NoMemory>
    ensures { IfOk result (λ places. places.items ≡ map index_of signals.now) }
{
    let mut places = Vec::with_capacity(alloc, signals.len())?;
    for index in 0..signals.len() {
        places.push(signals[index].index())?;
    }
    Ok(places)
}

/// The signals of the known columns, each once.
fn known_signals(alloc: Global, columns: &[Option<Column>]) -> Result<Vec<Signal>, NoMemory>
    ensures { IfOk result (λ signals. HasSignalsOf columns.now signals.items) }
{
    let mut signals = Vec::new(alloc);
    for index in 0..columns.len() {
        put_signal(columns[index], &mut signals)?;
    }
    Ok(signals)
}

/// Puts the signal of a known column after the others, unless it is one of them.
fn put_signal(column: Option<Column>, signals: &mut Vec<Signal>) -> Result<(), NoMemory>
    ensures kept { OnOk result ((signal : Signal) → is_among signals.old.items signal ≡ true
        → is_among signals.new.items signal ≡ true) }
    ensures has { OnOk result (HasSignalsOf (column ∷ []) signals.new.items) }
{
    match column {
        None => Ok(()),
        Some(column) => {
            if is_among(signals, column.signal) {
                return Ok(());
            }
            signals.push(column.signal)?;
            Ok(())
        }
    }
}

/// Whether the signal is one of these.
fn is_among(signals: &[Signal], signal: Signal) -> bool
    ensures { result ≡ is_among signals.now signal }
{
    signals.iter().any(|other| signal.index() == other.index())
}
