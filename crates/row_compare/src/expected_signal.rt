//! What is wanted of a signal.

ghost use Rattle.std.specs.Prelude.{◌≡◌};
ghost use Rattle.row_compare.specs.Wanted.{whole, where_known};

/// A value, in the bits of a mask.
#[derive(Clone, Copy, Debug, PartialEq, Eq)]
pub struct ExpectedSignal {
    pub value: u64,
    pub mask: u64,
}

/// A value in all its bits.
pub fn whole(value: u64) -> Option<ExpectedSignal>
    ensures { result ≡ whole value }
{
    Some(ExpectedSignal {
        value,
        mask: u64::MAX,
    })
}

/// The same where the value is known.
pub fn where_known(value: Option<u64>) -> Option<ExpectedSignal>
    ensures { result ≡ where_known value }
{
    match value {
        None => None,
        Some(value) => whole(value),
    }
}
