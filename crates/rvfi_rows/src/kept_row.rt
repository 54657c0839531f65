//! A valid row as it is kept.

ghost use Rattle.std.specs.Prelude.{◌≡◌, length};
ghost use Rattle.rvfi_rows.specs.Cells.{AreOf};
ghost use Rattle.rvfi_rows.specs.Kept.{AreFoundAt};

use hart_words::Signal;

/// A valid row as it is kept: who looks at few of its values does not wait for all.
#[derive(Clone, Copy)]
pub struct KeptRow<'a> {
    /// The signals that have values; those of `bits` are shown.
    pub(crate) signals: &'a [Signal],
    /// For each of them, at its index, where its value stands.
    pub(crate) positions: &'a [usize; 111],
    pub(crate) bits: u128,
    pub(crate) values: &'a [u64],
    ghost theirs: { AreOf signals.now bits },
    ghost as_many: { length values.now ≡ length signals.now },
    ghost found: { AreFoundAt signals.now positions.now },
}

impl<'a> KeptRow<'a> {
    ghost use Rattle.rvfi_rows.specs.Readings.{kept_shown};

    /// The value that the row shows of a signal. Of a signal that is known when it is compiled the
    /// index is a number then, and little is left.
    #[inline(always)]
    pub fn shown(&self, signal: Signal) -> Option<u64>
        ensures { result ≡ kept_shown self.now signal }
    {
        let index = signal.index();
        if (self.bits >> index) % 2 == 1 {
            let position = self.positions[usize::from(index)];
            Some(self.values[position])
        } else {
            None
        }
    }
}
