//! How rows read.

use crate::fault::RowFault;

/// How a row reads, beside what it shows.
#[derive(Clone, Copy, Debug, PartialEq, Eq)]
pub enum Reading {
    /// It is not valid.
    Invalid,
    /// It is valid.
    Valid,
    Refused(RowFault),
}

/// How a row reads, beside its values.
#[derive(Clone, Copy)]
pub(crate) enum Kept {
    Invalid,
    /// It shows the signals of these bits.
    Shown(u128),
    Refused(RowFault),
}
