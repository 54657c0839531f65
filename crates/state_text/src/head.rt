//! The lines before the harts, and those of a hart before its numbers.

ghost use Rattle.std.specs.Prelude.{◌≡◌, ◌≤◌, ℕ, length};
ghost use Rattle.hart_words.specs.Results.{result_view};
ghost use Rattle.state_text.specs.declared.line.TheConstants.{LONGEST_NAME};
ghost use Rattle.state_text.specs.Reading.{number_in, option_in, version_in, count_in, front_in, pc_in, mode_in, flags_in, reserved_in, head_in, is_misplaced, is_outside};
ghost use Rattle.state_text.specs.Views.{remaining_of, value_and_remaining};

use crate::fault::{FaultKind, StateFault};
use crate::guess::guess_of_number;
use crate::line::{flags_line, harts_line, mode_line, number_line, option_line};
use crate::remaining::Remaining;
use hart_words::{Mode, Span};

/// What the lines of a hart before its numbers say.
#[derive(Clone, Copy)]
pub struct Head {
    pub pc: u64,
    pub mode: Mode,
    pub next_order: Option<u64>,
    pub trapped_last: bool,
    pub halted: bool,
    /// The address of the block that is reserved.
    pub reserved: Option<u64>,
}

/// What is left after the lines before those of so many harts, or their first fault.
#[tactic(auto, unfolding(crate::specs::Reading::front_in))]
pub fn read_front(remaining: Remaining<'_>, harts: u32) -> Result<((), Remaining<'_>), StateFault>
    requires { harts ≤ 8 }
    ensures { result_view value_and_remaining result ≡ front_in harts (remaining_of remaining.entry) }
{
    let (_, remaining) = read_version(remaining)?;
    read_count(remaining, harts)
}

/// The line that counts the harts, where they are counted.
#[tactic(auto, unfolding(crate::specs::Reading::count_in, crate::specs::Reading::choice_in))]
fn read_count(remaining: Remaining<'_>, harts: u32) -> Result<((), Remaining<'_>), StateFault>
    requires { harts ≤ 8 }
    ensures { result_view value_and_remaining result ≡ count_in harts (remaining_of remaining.entry) }
{
    if harts == 1 {
        return Ok(((), remaining));
    }
    match remaining.after(harts_line(harts).as_slice()) {
        Some(after) => Ok(((), after)),
        None => Err(remaining.fault(FaultKind::BadLine)),
    }
}

/// What the lines of a hart before its numbers say, with what is left after them, or their first
/// fault. A reserved block has `size` bytes.
#[tactic(auto, unfolding(crate::specs::Reading::head_in))]
pub fn read_head(
    remaining: Remaining<'_>,
    ram: Span,
    size: u16,
) -> Result<(Head, Remaining<'_>), StateFault>
    requires some { 1 ≤ size }
    requires size { size ≤ 4096 }
    ensures { result_view value_and_remaining result ≡ head_in ram size (remaining_of remaining.entry) }
{
    let (pc, remaining) = read_pc(remaining)?;
    let (mode, remaining) = read_mode(remaining)?;
    let (next_order, remaining) = read_option(remaining, b"order ")?;
    let ((trapped_last, halted), remaining) = read_flags(remaining)?;
    let (reserved, remaining) = read_reserved(remaining, ram, size)?;
    let head = Head {
        pc,
        mode,
        next_order,
        trapped_last,
        halted,
        reserved,
    };
    Ok((head, remaining))
}

/// The number of the next line, which has this name.
#[tactic(auto, unfolding(crate::specs::Reading::number_in, crate::specs::Reading::choice_in))]
pub fn read_number<'a>(
    remaining: Remaining<'a>,
    name: &[u8],
) -> Result<(u64, Remaining<'a>), StateFault>
    requires { length name.now ≤ LONGEST_NAME }
    ensures { result_view value_and_remaining result ≡ number_in name.now (remaining_of remaining.entry) }
{
    let number = guess_of_number(name.len(), remaining.text);
    match remaining.after(number_line(name, number).as_slice()) {
        Some(after) => Ok((number, after)),
        None => Err(remaining.fault(FaultKind::BadLine)),
    }
}

/// The same where there may be none.
#[tactic(auto, unfolding(crate::specs::Reading::option_in, crate::specs::Reading::choice_in))]
fn read_option<'a>(
    remaining: Remaining<'a>,
    name: &[u8],
) -> Result<(Option<u64>, Remaining<'a>), StateFault>
    requires { length name.now ≤ LONGEST_NAME }
    ensures { result_view value_and_remaining result ≡ option_in name.now (remaining_of remaining.entry) }
{
    let number = Some(guess_of_number(name.len(), remaining.text));
    if let Some(after) = remaining.after(option_line(name, number).as_slice()) {
        return Ok((number, after));
    }
    match remaining.after(option_line(name, None).as_slice()) {
        Some(after) => Ok((None, after)),
        None => Err(remaining.fault(FaultKind::BadLine)),
    }
}

#[tactic(auto, unfolding(crate::specs::Reading::version_in, crate::specs::Reading::choice_in))]
fn read_version(remaining: Remaining<'_>) -> Result<((), Remaining<'_>), StateFault>
    ensures { result_view value_and_remaining result ≡ version_in (remaining_of remaining.entry) }
{
    match remaining.after(b"rvstate 1\n") {
        Some(after) => Ok(((), after)),
        None => Err(remaining.fault(FaultKind::BadLine)),
    }
}

#[tactic(auto, unfolding(crate::specs::Reading::pc_in))]
fn read_pc(remaining: Remaining<'_>) -> Result<(u64, Remaining<'_>), StateFault>
    ensures { result_view value_and_remaining result ≡ pc_in (remaining_of remaining.entry) }
{
    let (pc, after) = read_number(remaining, b"pc ")?;
    if pc % 2 == 1 {
        return Err(remaining.fault(FaultKind::BadValue));
    }
    Ok((pc, after))
}

#[tactic(auto, unfolding(crate::specs::Reading::mode_in, crate::specs::Reading::choice_in))]
fn read_mode(remaining: Remaining<'_>) -> Result<(Mode, Remaining<'_>), StateFault>
    ensures { result_view value_and_remaining result ≡ mode_in (remaining_of remaining.entry) }
{
    if let Some(after) = remaining.after(mode_line(Mode::User)) {
        return Ok((Mode::User, after));
    }
    if let Some(after) = remaining.after(mode_line(Mode::Supervisor)) {
        return Ok((Mode::Supervisor, after));
    }
    match remaining.after(mode_line(Mode::Machine)) {
        Some(after) => Ok((Mode::Machine, after)),
        None => Err(remaining.fault(FaultKind::BadLine)),
    }
}

/// Whether the last row took a synchronous trap, and whether the hart halts.
#[tactic(auto, unfolding(crate::specs::Reading::flags_in, crate::specs::Reading::choice_in))]
fn read_flags(remaining: Remaining<'_>) -> Result<((bool, bool), Remaining<'_>), StateFault>
    ensures { result_view value_and_remaining result ≡ flags_in (remaining_of remaining.entry) }
{
    if let Some(after) = remaining.after(flags_line(false, false)) {
        return Ok(((false, false), after));
    }
    if let Some(after) = remaining.after(flags_line(false, true)) {
        return Ok(((false, true), after));
    }
    if let Some(after) = remaining.after(flags_line(true, false)) {
        return Ok(((true, false), after));
    }
    match remaining.after(flags_line(true, true)) {
        Some(after) => Ok(((true, true), after)),
        None => Err(remaining.fault(FaultKind::BadLine)),
    }
}

/// The address of the reserved block, if any: a multiple of its size, and all of it in RAM.
#[tactic(auto, unfolding(crate::specs::Reading::reserved_in))]
fn read_reserved(
    remaining: Remaining<'_>,
    ram: Span,
    size: u16,
) -> Result<(Option<u64>, Remaining<'_>), StateFault>
    requires some { 1 ≤ size }
    requires size { size ≤ 4096 }
    ensures { result_view value_and_remaining result ≡ reserved_in ram size (remaining_of remaining.entry) }
{
    let (reserved, after) = read_option(remaining, b"reserved ")?;
    if is_misplaced(size, reserved) {
        return Err(remaining.fault(FaultKind::BadValue));
    }
    if is_outside(ram, size, reserved) {
        return Err(remaining.fault(FaultKind::OutsideRam));
    }
    Ok((reserved, after))
}

/// Whether a reserved block begins at no multiple of its size.
fn is_misplaced(size: u16, reserved: Option<u64>) -> bool
    requires { 1 ≤ size }
    ensures { result ≡ is_misplaced size reserved }
{
    match reserved {
        None => false,
        Some(address) => address % u64::from(size) != 0,
    }
}

/// Whether a reserved block lies not wholly in RAM.
fn is_outside(ram: Span, size: u16, reserved: Option<u64>) -> bool
    requires { size ≤ 4096 }
    ensures { result ≡ is_outside ram size reserved }
{
    match reserved {
        None => false,
        Some(address) => address < ram.base || ram.size - u64::from(size) < address - ram.base,
    }
}
