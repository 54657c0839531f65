//! The header and the rows of a trace, after riscv-formal's description of RVFI.
//!
//! In comes a line of bytes. Out goes what the header names (`specs/Columns.antt`) or what the rows
//! of the line show, one for each port (`specs/Rows.antt`), or the first fault; and for the crates
//! above what the reference hart did at a row (`Expected`, `Stepped`), what a hart without its
//! memory is to those who step it (`CoreStep`), how many rows there are (`RowCounts`), and the
//! verdict on them (`Verdict`).
#![tactic(auto)]

mod cell;
mod cells;
mod column;
mod columns;
mod core_step;
mod expected;
mod fault;
mod header;
mod kept_row;
mod lines;
mod port_columns;
mod positions;
mod reading;
mod row;
mod row_counts;
mod rows;
mod rows_read;
mod segment;
mod segments;
mod unread;
mod verdict;
mod window;

pub use cells::read_row;
pub use column::{Column, Port};
pub use columns::Columns;
pub use core_step::CoreStep;
pub use expected::{Accessed, CsrsAround, Effects, Expected, Retired, Stepped};
pub use fault::{HeaderError, HeaderFault, RowError, RowFault};
pub use header::read_header;
pub use kept_row::KeptRow;
pub use lines::read_rows;
pub use reading::Reading;
pub use row::{FIRST_CSR, Row};
pub use row_counts::RowCounts;
pub use rows::Rows;
pub use segment::Segment;
pub use segments::{read_segments, reuse_rows};
pub use verdict::Verdict;
pub use window::{distance_in_window, moved_down, moved_up};
