//! What the standard leaves to a core, and a step takes from the row that it is stepped by.

ghost use Rattle.std.specs.Prelude.{◌≡◌, ◌≤◌, ◌<◌, ◌+◌, ◌*◌, ◌%◌, ◌^◌, IfSome};
ghost use Rattle.rvfi_rows.specs.Cells.{shown_in};
ghost use Rattle.hart_step.specs.Choices.{shows, order_after, pending_lines_under, pending_lines_of, row_choices_of, bytes_at, load_bytes_shown, device_value, mask_says_stored, register_says_stored, says_stored};

use hart_words::{CsrName, CsrSide, Signal};
use rvfi_rows::{Row, distance_in_window, moved_down};

/// The interrupt lines that a row shows, by their bits in mip.
#[derive(Clone, Copy, Debug)]
pub struct InterruptLines {
    /// Those that are up.
    pub up: u64,
    /// Those that are shown, up or not.
    pub shown: u64,
}

/// What an instruction takes from its row, where it reads what the core decides: a counter, an
/// interrupt line that is not shown, a device, or whether an SC stored.
#[derive(Clone, Copy, Debug)]
pub struct RowChoices {
    /// The destination's value; none where it is x0.
    pub rd_wdata: Option<u64>,
    pub mem_addr: Option<u64>,
    pub mem_rdata: Option<u64>,
    pub mem_wmask: Option<u64>,
    /// Whether `trap` is shown as 1.
    pub traps: bool,
    pub lines: InterruptLines,
}

/// Whether the row shows this value of the signal.
pub fn row_shows(row: &Row, signal: Signal, value: u64) -> bool
    ensures { result ≡ shows (shown_in row.now signal) value }
{
    match row.shown(signal) {
        None => false,
        Some(shown) => shown == value,
    }
}

/// The order index of the next row.
pub fn order_after(known: Option<u64>, shown: Option<u64>) -> Option<u64>
    ensures { result ≡ order_after known shown }
{
    match known {
        Some(order) => Some(order.wrapping_add(1)),
        None => match shown {
            Some(order) => Some(order.wrapping_add(1)),
            None => None,
        },
    }
}

/// The interrupt lines at a row.
#[tactic(auto, unfolding(crate::specs::Choices::pending_lines_of))]
pub fn lines_of(row: &Row) -> InterruptLines
    ensures { result ≡ pending_lines_of (shown_in row.now) }
{
    lines_under(
        row.shown(Signal::Csr(CsrName::Mip, CsrSide::Rdata)),
        row.shown(Signal::Csr(CsrName::Mip, CsrSide::Rmask)),
    )
}

fn lines_under(mip: Option<u64>, mask: Option<u64>) -> InterruptLines
    ensures { result ≡ pending_lines_under mip mask }
{
    match mip {
        None => InterruptLines { up: 0, shown: 0 },
        Some(mip) => {
            let shown = mask.unwrap_or(u64::MAX);
            InterruptLines {
                up: mip & shown,
                shown,
            }
        }
    }
}

/// What an instruction with the destination `rd` takes from its row.
#[tactic(auto, unfolding(crate::specs::Choices::row_choices_of))]
pub fn row_choices_of(row: &Row, rd: u8) -> RowChoices
    ensures { result ≡ row_choices_of (shown_in row.now) rd }
{
    RowChoices {
        rd_wdata: if rd == 0 {
            None
        } else {
            row.shown(Signal::RdWdata)
        },
        mem_addr: row.shown(Signal::MemAddr),
        mem_rdata: row.shown(Signal::MemRdata),
        mem_wmask: row.shown(Signal::MemWmask),
        traps: row_shows(row, Signal::Trap, 1),
        lines: lines_of(row),
    }
}

impl RowChoices {
    /// The `len` bytes that a device gave at `va`, as far as the row shows them, else 0.
    #[tactic(auto, unfolding(crate::specs::Choices::device_value))]
    pub fn device_value(&self, va: u64, len: u8) -> u64
        requires { len ≤ 8 }
        ensures { result ≡ device_value self.now va len }
    {
        match bytes_shown(va, len, self.mem_addr, self.mem_rdata) {
            Some(value) => value,
            None => low_bytes(self.rd_wdata.unwrap_or(0), len),
        }
    }

    /// Whether the row says that an SC stored.
    #[tactic(auto, unfolding(crate::specs::Choices::says_stored))]
    pub fn says_stored(&self) -> bool
        ensures { result ≡ says_stored self.now }
    {
        match self.rd_wdata {
            None => mask_says_stored(self.mem_wmask),
            Some(value) => value == 0,
        }
    }
}

fn bytes_shown(va: u64, len: u8, address: Option<u64>, read: Option<u64>) -> Option<u64>
    requires { len ≤ 8 }
    ensures { result ≡ load_bytes_shown va len address read }
{
    match address {
        None => None,
        Some(address) => match read {
            None => None,
            Some(read) => bytes_at(len, read, distance_in_window(va, len, address)),
        },
    }
}

/// The bytes of an access that begins so far above the eight that are shown.
fn bytes_at(len: u8, read: u64, distance: Option<u64>) -> Option<u64>
    requires at_most_8 { len ≤ 8 }
    requires near { IfSome distance (λ away. away ≤ 8) }
    ensures { result ≡ bytes_at len read distance }
{
    match distance {
        None => None,
        Some(away) => Some(low_bytes(moved_down(read, away), len)),
    }
}

/// The low bytes of a number.
fn low_bytes(value: u64, len: u8) -> u64
    requires { len ≤ 8 }
    ensures value { result ≡ value % 256 ^ len }
    ensures fits { result < 2 ^ (8 * len) }
{
    (u128::from(value) % 256u128.pow(u32::from(len))) as u64
}

fn mask_says_stored(mask: Option<u64>) -> bool
    ensures { result ≡ mask_says_stored mask }
{
    match mask {
        None => true,
        Some(mask) => mask != 0,
    }
}
