//! What is found out about the rows of a trace.

use crate::fault::RowFault;
use hart_words::Difference;

/// What is found out about the rows of a trace. Rows are numbered from 1, those that are not valid
/// included.
#[derive(Clone, Copy, Debug, PartialEq, Eq)]
pub enum Verdict {
    /// All rows are as they should be; `valid` counts those that were judged.
    Agrees { rows: u64, valid: u64 },
    /// The first row that differs.
    Differs { row: u64, difference: Difference },
    /// The first row that cannot be read.
    Refused { row: u64, fault: RowFault },
}
