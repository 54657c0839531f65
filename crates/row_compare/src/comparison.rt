//! The first signal in which a row differs from what the hart did.

ghost use Rattle.std.specs.Prelude.{◌≡◌, ◌&&◌, Some, drop, take};
ghost use Rattle.std.specs.Option.{is_none};
ghost use Rattle.hart_words.specs.declared.signal.CsrSide.TheVariants.{Rdata, Wdata};
ghost use Rattle.hart_words.specs.declared.signal.Signal.TheVariants.{Csr};
ghost use Rattle.rvfi_rows.specs.Cells.{shown_in};
ghost use Rattle.hart_words.specs.declared.signal.TheConstants.{SIGNALS};
ghost use Rattle.rvfi_rows.specs.declared.row.TheConstants.{FIRST_CSR};
ghost use Rattle.row_compare.specs.Difference.{difference_between, difference_of, first_among, signal_difference};

use crate::expected_signal::ExpectedSignal;
use crate::signals::expected_signal;
use hart_words::{CsrName, CsrSide, Difference, SIGNALS, Signal, SignalEntry};
use rvfi_rows::{Expected, Retired, Row};

/// The registers that a trace may show, in the order of the signals.
const REGISTERS: [CsrName; 22] = [
    CsrName::Mstatus,
    CsrName::Misa,
    CsrName::Medeleg,
    CsrName::Mideleg,
    CsrName::Mie,
    CsrName::Mtvec,
    CsrName::Mscratch,
    CsrName::Mepc,
    CsrName::Mcause,
    CsrName::Mtval,
    CsrName::Mip,
    CsrName::Satp,
    CsrName::Sstatus,
    CsrName::Sie,
    CsrName::Sip,
    CsrName::Stvec,
    CsrName::Sscratch,
    CsrName::Sepc,
    CsrName::Scause,
    CsrName::Stval,
    CsrName::Pmpcfg0,
    CsrName::Pmpcfg2,
];

/// The first difference, in the order of the table of signals, if there is one. Only signals that
/// the row shows are compared, and only those that are not free, under their masks. Of a row that
/// comes after the hart halted `valid` alone differs.
#[tactic(auto, unfolding(crate::specs::Difference::difference_of))]
pub fn first_difference(expected: &Expected, row: &Row) -> Option<Difference>
    ensures { result ≡ difference_of expected.now (shown_in row.now) }
{
    match expected {
        Expected::Halted => Some(Difference {
            signal: Signal::Valid,
            expected: 0,
            found: 1,
        }),
        Expected::Retired(retired) => retired_difference(retired, row),
    }
}

/// Most rows agree, so whether they do is asked at once, before it is told in which signal one does
/// not; and most show no control and status register.
fn retired_difference(retired: &Retired, row: &Row) -> Option<Difference>
    ensures { result ≡ first_among retired.now (shown_in row.now) SIGNALS }
{
    if plain_agree(retired, row) && (!row.shows_csr() || csrs_agree(retired, row)) {
        None
    } else {
        first_among(retired, row, &SIGNALS)
    }
}

/// Whether no signal of a register differs. Few rows show many of them, so that one of which
/// nothing is shown is passed over at once.
fn csrs_agree(retired: &Retired, row: &Row) -> bool
    ensures { result
        ≡ is_none (first_among retired.now (shown_in row.now) (drop FIRST_CSR SIGNALS)) }
{
    let mut bits = row.csr_bits();
    for index in 0..REGISTERS.len() {
        if bits == 0 {
            return true;
        }
        if bits % 16 != 0 && !register_agrees(retired, row, REGISTERS[index]) {
            return false;
        }
        bits >>= 4;
    }
    true
}

/// Whether no signal of this register differs. Of its masks nothing is ever wanted.
fn register_agrees(retired: &Retired, row: &Row, name: CsrName) -> bool
    ensures { let shown = shown_in row.now in
        result ≡ (is_none (signal_difference retired.now shown (Csr name Rdata))
        && is_none (signal_difference retired.now shown (Csr name Wdata))) }
{
    agrees(retired, row, Signal::Csr(name, CsrSide::Rdata))
        && agrees(retired, row, Signal::Csr(name, CsrSide::Wdata))
}

/// Whether no signal before those of registers differs. Of `valid`, `halt` and `hart` nothing is
/// ever wanted. Each other is written out, so that the compiler sees which one it is.
fn plain_agree(retired: &Retired, row: &Row) -> bool
    ensures { result
        ≡ is_none (first_among retired.now (shown_in row.now) (take FIRST_CSR SIGNALS)) }
{
    agrees(retired, row, Signal::Order)
        & agrees(retired, row, Signal::Intr)
        & agrees(retired, row, Signal::PcRdata)
        & agrees(retired, row, Signal::Mode)
        & agrees(retired, row, Signal::Ixl)
        & agrees(retired, row, Signal::Trap)
        & agrees(retired, row, Signal::Insn)
        & agrees(retired, row, Signal::Rs1Addr)
        & agrees(retired, row, Signal::Rs1Rdata)
        & agrees(retired, row, Signal::Rs2Addr)
        & agrees(retired, row, Signal::Rs2Rdata)
        & agrees(retired, row, Signal::RdAddr)
        & agrees(retired, row, Signal::RdWdata)
        & agrees(retired, row, Signal::PcWdata)
        & agrees(retired, row, Signal::MemAddr)
        & agrees(retired, row, Signal::MemRmask)
        & agrees(retired, row, Signal::MemRdata)
        & agrees(retired, row, Signal::MemWmask)
        & agrees(retired, row, Signal::MemWdata)
        & agrees(retired, row, Signal::MemPaddr)
}

/// Whether a signal does not differ.
#[inline(always)]
fn agrees(retired: &Retired, row: &Row, signal: Signal) -> bool
    ensures { result ≡ is_none (signal_difference retired.now (shown_in row.now) signal) }
{
    signal_difference(retired, row, signal).is_none()
}

/// The first of the entries whose signal differs.
fn first_among(retired: &Retired, row: &Row, entries: &[SignalEntry]) -> Option<Difference>
    ensures { result ≡ first_among retired.now (shown_in row.now) entries.now }
{
    for index in 0..entries.len() {
        if let Some(difference) = signal_difference(retired, row, entries[index].signal) {
            return Some(difference);
        }
    }
    None
}

/// The difference of a signal that is shown, where something is wanted of it.
#[inline(always)]
#[tactic(auto, unfolding(crate::specs::Difference::signal_difference))]
fn signal_difference(retired: &Retired, row: &Row, signal: Signal) -> Option<Difference>
    ensures { result ≡ signal_difference retired.now (shown_in row.now) signal }
{
    match row.shown(signal) {
        None => None,
        Some(found) => match expected_signal(retired, row, signal) {
            None => None,
            Some(want) => difference_between(signal, found, want),
        },
    }
}

/// The difference in the bits of the mask.
fn difference_between(signal: Signal, found: u64, want: ExpectedSignal) -> Option<Difference>
    ensures { result ≡ difference_between signal (Some found) (Some want) }
{
    let expected = want.value & want.mask;
    let found = found & want.mask;
    if expected == found {
        None
    } else {
        Some(Difference {
            signal,
            expected,
            found,
        })
    }
}
