//! What a row of a trace shows.

ghost use Rattle.std.specs.Prelude.{◌≡◌, ◌≤◌, ◌<◌, ◌+◌, ◌++◌, ◌^◌, IfOk, List, Some, length, map, nat_lt, slice_index, vec_capacity, vec_len, ℕ};
ghost use Rattle.hart_words.specs.declared.signal.Signal.{Signal};
ghost use Rattle.hart_words.specs.Signals.{index_of};

use crate::cell::Cell;
use crate::fault::RowFault;
use hart_words::Signal;

/// The index of the first signal that is a column of a control and status register.
pub const FIRST_CSR: usize = 23;

/// What a valid row shows: a value for each signal that it shows. It takes no memory beyond itself.
#[derive(Debug, Drop)]
pub struct Row {
    /// A bit for each signal, at its index: whether the row shows it.
    shown: u128,
    /// The values of the signals that are shown, each at its index. There is a place for each
    /// index of 8 bits, so that none has to be tested.
    values: [u64; 256],
    ghost full: { length values ≡ 256 },
    ghost within: { shown < 2 ^ 111 },
}

impl Row {
    ghost use Rattle.rvfi_rows.specs.Cells.{Adds, AreOf, shown_by, shown_in, values_of, with_bits};
    ghost use Rattle.csv_line.specs.Fields.{trimmed_of};
    ghost use Rattle.rvfi_rows.specs.Rows.{HasCsrBits, field_shown, hart_of, nothing, shows_csr, with_shown};

    /// A row that shows nothing.
    pub fn empty() -> Row
        ensures { shown_in result ≡ nothing }
    {
        Row {
            shown: 0,
            values: [0; 256],
        }
    }

    /// The value that the row shows of the signal, if it shows one.
    pub fn shown(&self, signal: Signal) -> Option<u64>
        ensures { result ≡ shown_in self.now signal }
    {
        let index = signal.index();
        if (self.shown >> index) % 2 == 1 {
            Some(self.values[usize::from(index)])
        } else {
            None
        }
    }

    /// The number of the hart whose row it is: 0 where the row names none.
    pub fn hart(&self) -> u64
        ensures { result ≡ hart_of (shown_in self.now) }
    {
        self.shown(Signal::Hart).unwrap_or(0)
    }

    /// Whether its hart is one of so many.
    pub(crate) fn is_of(&self, harts: u32) -> bool
        ensures { result ≡ nat_lt (hart_of (shown_in self.now)) harts }
    {
        self.hart() < u64::from(harts)
    }

    /// Whether the row shows any column of a control and status register.
    #[tactic(auto, using(crate::proofs::CsrBits::shows_some), unfolding(crate::specs::Rows::shows_csr))]
    pub fn shows_csr(&self) -> bool
        ensures { result ≡ shows_csr (shown_in self.now) }
    {
        self.shown >> FIRST_CSR != 0
    }

    /// A bit for each column of a control and status register, in the order of the signals, from
    /// bit 0 on: whether the row shows it.
    pub fn csr_bits(&self) -> u128
        ensures bits { HasCsrBits (shown_in self.now) result }
        ensures no_others { result < 2 ^ 88 }
    {
        self.shown >> FIRST_CSR
    }

    /// Puts what a field shows under its column, the blanks at its ends apart, among the values.
    /// Gives the bits of what was shown and is shown now.
    #[inline(always)]
    #[tactic(auto, unfolding(crate::specs::Rows::field_shown))]
    pub(crate) fn add(&mut self, shown: u128, cell: &Cell, field: &[u8]) -> Result<u128, RowFault>
        ensures adds { Adds (shown_by shown self.old.values) self.new.values result
            (field_shown (Some cell.now.placed.column) (trimmed_of field.now)) }
        ensures within { IfOk result (λ now. shown < 2 ^ 111 → now < 2 ^ 111) }
    {
        match cell.shown(field)? {
            None => Ok(shown),
            Some(value) => Ok(self.put(shown, cell, value)),
        }
    }

    /// Puts a value of a column's signal in place of the one before. Gives the bits of what was
    /// shown and is shown now.
    #[inline(always)]
    fn put(&mut self, shown: u128, cell: &Cell, value: u64) -> u128
        ensures shown { shown_by result self.new.values
            ≡ with_shown (shown_by shown self.old.values) cell.now.placed.column.signal value }
        ensures within { shown < 2 ^ 111 → result < 2 ^ 111 }
    {
        self.values[usize::from(cell.index)] = value;
        shown | cell.bit
    }

    /// Shows the signals of these bits, with the values that are there.
    pub(crate) fn show(&mut self, shown: u128)
        requires { shown < 2 ^ 111 }
        ensures { shown_in self.new ≡ shown_by shown self.old.values }
    {
        self.shown = shown;
    }

    /// The bits of the signals that are shown.
    pub(crate) fn bits(&self) -> u128
        ensures { result ≡ self.now.shown }
    {
        self.shown
    }

    /// Puts the values at these indices after others; they mean nothing where no value is shown.
    pub(crate) fn put_values(&self, places: &[u8], values: &mut Vec<u64>)
        requires room { vec_len values.old + length places.now ≤ vec_capacity values.old }
        requires below { (i : ℕ) → slice_index places.now i < 111 }
        ensures { values.new.items
            ≡ values.old.items ++ map (λ place. slice_index self.now.values place) places.now }
    {
        for place in places {
            values.push_reserved(self.values[usize::from(*place)]);
        }
    }

    /// Shows these values at the indices of signals, where their bits are set, and nothing else.
    pub(crate) fn take_values(&mut self, bits: u128, places: &[u8], values: &[u64])
        requires as_many { length values.now ≡ length places.now }
        requires below { (i : ℕ) → slice_index places.now i < 111 }
        requires few { bits < 2 ^ 111 }
        ensures { (signals : List Signal) → places.now ≡ map index_of signals → AreOf signals bits
            → shown_in self.new ≡ with_bits bits (values_of signals values.now) }
    {
        self.shown = bits;
        // The compiler sees that they are as many, and tests it once.
        let values = &values[..places.len()];
        for index in 0..places.len() {
            self.values[usize::from(places[index])] = values[index];
        }
    }
}
