//! What accesses give.

use thiserror::Error;

/// The access is illegal: no register has the address, the mode may not access it, or it is
/// read-only and was to be written.
#[derive(Clone, Copy, Debug, PartialEq, Eq, Error)]
#[error("illegal access to a control and status register")]
pub struct Illegal;

/// What a legal read gives.
#[derive(Clone, Copy, Debug, PartialEq, Eq)]
pub struct CsrRead {
    /// The value as far as the reference hart knows it.
    pub value: u64,
    /// The bits that the core decides, or that may be interrupt lines: those of `value` are 0
    /// there, or lines.
    pub free: u64,
    /// What the set and clear forms start from.
    pub base: u64,
}
