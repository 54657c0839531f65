//! How many rows there are, and how many of them are valid.

ghost use Rattle.std.specs.Prelude.{◌≡◌, ◌≤◌, ◌<◌, ◌+◌, ◌^◌, if◌then◌else◌};

/// How many rows there are, and how many of them are valid.
#[derive(Clone, Copy, Debug)]
pub struct RowCounts {
    pub rows: u64,
    pub valid: u64,
    ghost at_most_rows: { valid ≤ rows },
}

impl RowCounts {
    /// No row.
    pub fn zero() -> RowCounts
        ensures rows { result.rows ≡ 0 }
        ensures valid { result.valid ≡ 0 }
    {
        RowCounts { rows: 0, valid: 0 }
    }

    /// One row more.
    pub fn with_row(self, is_valid: bool) -> RowCounts
        requires { self.rows + 1 < 2 ^ 64 }
        ensures rows { result.rows ≡ self.rows + 1 }
        ensures valid { result.valid ≡ self.valid + (if is_valid then 1 else 0) }
    {
        RowCounts {
            rows: self.rows + 1,
            valid: self.valid + u64::from(is_valid),
        }
    }

    /// The rows of both.
    pub fn plus(self, more: RowCounts) -> RowCounts
        requires { self.rows + more.rows < 2 ^ 64 }
        ensures rows { result.rows ≡ self.rows + more.rows }
        ensures valid { result.valid ≡ self.valid + more.valid }
    {
        RowCounts {
            rows: self.rows + more.rows,
            valid: self.valid + more.valid,
        }
    }
}
