//! A known column, as its cells are read.

ghost use Rattle.std.specs.Prelude.{◌≡◌, ◌≤◌, ◌<◌, ◌+◌, ◌*◌, ◌^◌, ◌%◌};
ghost use Rattle.csv_line.specs.Fields.{trimmed_of};
ghost use Rattle.hart_words.specs.Signals.{index_of, width_of};
ghost use Rattle.rvfi_rows.specs.Rows.{cell_of, is_needed};

use crate::cells::cell;
use crate::column::PlacedColumn;
use crate::fault::RowFault;
use csv_line::trim;
use hart_words::{Signal, quick_number};

/// A known column, with what would have to be worked out of it for each row.
#[derive(Clone, Copy, Debug)]
pub(crate) struct Cell {
    pub placed: PlacedColumn,
    /// The bit of its signal among those that a row shows.
    pub bit: u128,
    /// The greatest value that it can have.
    pub most: u64,
    /// The index of its signal.
    pub index: u8,
    /// Whether a row has to show it.
    pub needed: bool,
    ghost bit_is: { bit ≡ 1 * 2 ^ index % 2 ^ 128 },
    ghost most_is: { most + 1 ≡ 2 ^ width_of placed.column.signal },
    ghost index_is: { index ≡ index_of placed.column.signal },
    ghost below: { index < 111 },
    ghost needed_is: { needed ≡ is_needed placed.column.signal },
}

impl Cell {
    /// That of a column at its place.
    pub fn of(placed: PlacedColumn) -> Cell
        ensures { result.placed ≡ placed }
    {
        let signal = placed.column.signal;
        let index = signal.index();
        Cell {
            placed,
            bit: 1 << index,
            most: most_of(signal.width()),
            index,
            needed: is_needed(signal),
        }
    }

    /// What a field shows of its signal, the blanks at its ends apart. This is soon told of most
    /// fields: a number has no blanks.
    #[inline(always)]
    pub fn shown(&self, field: &[u8]) -> Result<Option<u64>, RowFault>
        ensures { result ≡ cell_of self.now.placed.column (trimmed_of field.now) }
    {
        if field.is_empty() && !self.needed {
            return Ok(None);
        }
        match quick_number(field) {
            Some(value) if value <= self.most => Ok(Some(value)),
            _ => cell(self.placed.column, trim(field)),
        }
    }
}

/// The greatest number of so many bits.
fn most_of(width: u32) -> u64
    requires { width ≤ 64 }
    ensures { result + 1 ≡ 2 ^ width }
{
    ((1u128 << width) - 1) as u64
}

/// Whether a row has to show the signal.
fn is_needed(signal: Signal) -> bool
    ensures { result ≡ is_needed signal }
{
    matches!(signal, Signal::Insn | Signal::PcRdata)
}
