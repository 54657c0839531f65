//! Where the values of signals stand.

ghost use Rattle.rvfi_rows.specs.Kept.{AreFoundAt};

use hart_words::Signal;

/// For each of these signals, at its index, where it stands among them.
pub(crate) fn positions_of(signals: &[Signal]) -> [usize; 111]
    ensures { AreFoundAt signals.now result }
{
    let mut positions = [0; 111];
    for place in 0..signals.len() {
        positions[usize::from(signals[place].index())] = place;
    }
    positions
}
