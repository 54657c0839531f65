//! What is wanted of each signal.

ghost use Rattle.std.specs.Prelude.{◌≡◌, option_copied};
ghost use Rattle.hart_words.specs.declared.signal.Signal.TheVariants.{Csr};
ghost use Rattle.rvfi_rows.specs.Cells.{shown_in};
ghost use Rattle.row_compare.specs.Signals.{access_in, effects_in, expected_insn, is_call_or_breakpoint, insn_mask, expected_signal, expected_trap};

use crate::csrs::{bits_after, bits_before};
use crate::expected_signal::{ExpectedSignal, where_known, whole};
use crate::memory::{
    expected_address, expected_physical, expected_read, expected_read_mask, expected_write,
    expected_write_mask,
};
use crate::sources::{source_read, source_value};
use hart_words::{Cause, CsrName, CsrSide, InsnBits, Signal};
use rvfi_rows::{Accessed, Effects, Retired, Row};

/// What is wanted of a signal of the row; it is `None` where the signal is free. Of an instruction
/// that traps all that it would have done is free.
#[inline(always)]
#[tactic(auto, unfolding(crate::specs::Signals::expected_signal))]
pub fn expected_signal(retired: &Retired, row: &Row, signal: Signal) -> Option<ExpectedSignal>
    ensures { result ≡ expected_signal retired.now (shown_in row.now) signal }
{
    let effects = effects_in(&retired.effects);
    let access = access_in(&retired.effects);
    let address = row.shown(Signal::MemAddr);
    match signal {
        Signal::Valid | Signal::Halt | Signal::Hart => None,
        Signal::Order => where_known(retired.order),
        Signal::Intr if retired.lacks_interrupt => whole(0),
        Signal::Intr => None,
        Signal::PcRdata => whole(retired.pc),
        Signal::Mode => whole(u64::from(retired.mode.number())),
        Signal::Ixl => whole(2),
        Signal::Trap => expected_trap(&retired.effects),
        Signal::Insn => expected_insn(retired.insn_bits, retired.insn),
        Signal::Rs1Addr => where_known(source_read(effects?.rs1)),
        Signal::Rs1Rdata => {
            let effects = effects?;
            where_known(source_value(&effects.registers, effects.rs1, row.shown(Signal::Rs1Addr)))
        }
        Signal::Rs2Addr => where_known(source_read(effects?.rs2)),
        Signal::Rs2Rdata => {
            let effects = effects?;
            where_known(source_value(&effects.registers, effects.rs2, row.shown(Signal::Rs2Addr)))
        }
        Signal::RdAddr => whole(u64::from(effects?.rd)),
        Signal::RdWdata => whole(effects?.rd_value),
        Signal::PcWdata => whole(effects?.next_pc),
        Signal::MemAddr => expected_address(access?, address),
        Signal::MemRmask => expected_read_mask(access?, address),
        Signal::MemRdata => expected_read(access?, address),
        Signal::MemWmask => expected_write_mask(&effects?.access, address),
        Signal::MemWdata => expected_write(access?, address),
        Signal::MemPaddr => expected_physical(access?, address),
        Signal::Csr(name, side) => expected_csr(retired, row, name, side),
    }
}

/// Of a register the value before the instruction and the one after the row, as traces show it;
/// nothing where the registers are not carried.
#[tactic(auto, unfolding(crate::specs::Signals::expected_signal))]
fn expected_csr(
    retired: &Retired,
    row: &Row,
    name: CsrName,
    side: CsrSide,
) -> Option<ExpectedSignal>
    ensures { result ≡ expected_signal retired.now (shown_in row.now) (Csr name side) }
{
    match side {
        CsrSide::Rmask | CsrSide::Wmask => None,
        CsrSide::Rdata => {
            let csrs = &retired.csrs.as_ref()?.before;
            Some(ExpectedSignal {
                value: csrs.shown(name, retired.lines),
                mask: bits_before(&csrs.profile, name, row),
            })
        }
        CsrSide::Wdata => {
            let csrs = &retired.csrs.as_ref()?.after;
            Some(ExpectedSignal {
                value: csrs.shown(name, retired.lines),
                mask: bits_after(&csrs.profile, name, row),
            })
        }
    }
}

/// A trap shows 1, unless cores differ in whether it is one.
fn expected_trap(effects: &Result<Effects, Cause>) -> Option<ExpectedSignal>
    ensures { result ≡ expected_trap effects.now }
{
    match effects {
        Ok(_) => whole(0),
        Err(cause) => {
            if is_call_or_breakpoint(*cause) {
                None
            } else {
                whole(1)
            }
        }
    }
}

/// The instruction that was fetched, in the bits that are compared.
fn expected_insn(bits: InsnBits, insn: Option<u64>) -> Option<ExpectedSignal>
    ensures { result ≡ expected_insn bits insn }
{
    match insn {
        None => None,
        Some(value) => Some(ExpectedSignal {
            value,
            mask: insn_mask(bits, value),
        }),
    }
}

/// Of an instruction of 16 bits these alone, where those above them say nothing.
fn insn_mask(bits: InsnBits, insn: u64) -> u64
    ensures { result ≡ insn_mask bits insn }
{
    if bits.are_cut() && insn % 4 != 3 {
        0xFFFF
    } else {
        u64::MAX
    }
}

fn is_call_or_breakpoint(cause: Cause) -> bool
    ensures { result ≡ is_call_or_breakpoint cause }
{
    matches!(
        cause,
        Cause::Breakpoint
            | Cause::EnvironmentCallFromUser
            | Cause::EnvironmentCallFromSupervisor
            | Cause::EnvironmentCallFromMachine
    )
}

fn effects_in(effects: &Result<Effects, Cause>) -> Option<&Effects>
    ensures { option_copied result ≡ effects_in effects.now }
{
    match effects {
        Ok(effects) => Some(effects),
        Err(_) => None,
    }
}

fn access_in(effects: &Result<Effects, Cause>) -> Option<&Accessed>
    ensures { option_copied result ≡ access_in effects.now }
{
    effects_in(effects)?.access.as_ref()
}
