//! A state read whole.

ghost use Rattle.std.specs.Prelude.{◌≡◌, ◌≤◌, [], ℕ, IfOk, IsTrue, is_some, length, option_map};
ghost use Rattle.std.specs.List.{All};
ghost use Rattle.hart_words.specs.Results.{Gives, result_view};
ghost use Rattle.hart_words.specs.Spans.{LiesIn};
ghost use Rattle.hart_step.specs.Cores.{IsSound};
ghost use Rattle.image_text.specs.Bytes.{byte_at};
ghost use Rattle.state_text.specs.Laws.{IsOver};
ghost use Rattle.state_text.specs.Memory.{memory_of};
ghost use Rattle.state_text.specs.Texts.{block_with, core_with, core_in, cores_in, state_fault, state_in};
ghost use Rattle.state_text.specs.Views.{remaining_of, value_and_remaining};

use crate::counts::says_harts;
use crate::fault::{StateError, StateFault};
use crate::head::{Head, read_front, read_head};
use crate::memory::read_memory;
use crate::numbers::{KINDS, NAMES, NUMBERS, csrs_with, read_numbers, registers_with};
use crate::remaining::Remaining;
use csr_file::CsrProfile;
use hart_step::{Core, CoreParts};
use hart_words::{Choices, Map};
use image_text::Pieces;
use rv_atomic::{Block, Reservation};
use std::alloc::Global;

/// The most harts of a state.
pub const MOST_HARTS: u32 = 8;

/// Harts by their numbers from 0 on, and the bytes of memory that are not in a block of zeros.
#[derive(Drop)]
pub struct State {
    pub cores: Vec<Core>,
    pub pieces: Pieces,
}

/// What a text does not say of its harts: what the core makes of its registers, what stands at
/// which address, and what else the standard leaves to the maker.
#[derive(Clone, Copy)]
pub struct Platform {
    pub profile: CsrProfile,
    pub map: Map,
    pub choices: Choices,
}

/// The state of so many harts that a text says, on a platform; the pieces stand for 0 where they
/// have no byte. The error is the first fault of the text.
pub fn read_state(
    alloc: Global,
    bytes: &[u8],
    platform: &Platform,
    harts: u32,
) -> Result<State, StateError>
    requires some { 1 ≤ harts }
    requires few { harts ≤ MOST_HARTS }
    ensures exact { Gives state_fault (λ state. (state.cores.items, memory_of state.pieces)) result
        (state_in platform.now.profile platform.now.map platform.now.choices harts bytes.now) }
    ensures count { IfOk result (λ state. length state.cores.items ≡ harts) }
    ensures sound { IfOk result (λ state. All IsSound state.cores.items) }
    ensures over { IfOk result (λ state. All (IsOver platform.now.profile platform.now.map
        platform.now.choices) state.cores.items) }
    ensures inside { IfOk result (λ state. (a : ℕ) → IsTrue (is_some (byte_at state.pieces a))
        → LiesIn a platform.now.map.ram) }
{
    if !says_harts(bytes, harts) {
        return Err(StateError::Fault(StateFault::WrongHarts));
    }
    let remaining = Remaining {
        line: 1,
        text: bytes,
    };
    let (_, remaining) = read_front(remaining, harts)?;
    let (cores, remaining) = read_cores(alloc, remaining, platform, harts)?;
    let pieces = read_memory(alloc, remaining, platform.map.ram)?;
    Ok(State { cores, pieces })
}

/// So many harts, with what is left after their lines, or the first fault of these.
fn read_cores<'a>(
    alloc: Global,
    remaining: Remaining<'a>,
    platform: &Platform,
    harts: u32,
) -> Result<(Vec<Core>, Remaining<'a>), StateError>
    ensures { Gives state_fault (λ read. (read.0.items, remaining_of read.1)) result
        (cores_in platform.now.profile platform.now.map platform.now.choices harts []
        (remaining_of remaining.entry)) }
{
    let mut cores = Vec::new(alloc);
    let mut remaining = remaining;
    for _ in 0..harts {
        let (core, after) = read_core(remaining, platform)?;
        cores.push(core)?;
        remaining = after;
    }
    Ok((cores, remaining))
}

/// The hart of the next lines, with what is left after them, or their first fault.
#[tactic(auto, unfolding(crate::specs::Texts::core_in))]
fn read_core<'a>(
    remaining: Remaining<'a>,
    platform: &Platform,
) -> Result<(Core, Remaining<'a>), StateFault>
    ensures { result_view value_and_remaining result
        ≡ core_in platform.now.profile platform.now.map platform.now.choices
        (remaining_of remaining.entry) }
{
    let (ram, block_size) = (platform.map.ram, platform.choices.block_size);
    let (head, remaining) = read_head(remaining, ram, block_size)?;
    let (numbers, remaining) = read_numbers(remaining, &platform.profile, &NAMES, &KINDS)?;
    Ok((core_with(platform, head, &numbers), remaining))
}

/// The hart that its lines say.
fn core_with(platform: &Platform, head: Head, numbers: &[u64; NUMBERS]) -> Core
    requires { IsSound (core_with platform.now.profile platform.now.map platform.now.choices head
        numbers.now) }
    ensures value { result
        ≡ core_with platform.now.profile platform.now.map platform.now.choices head numbers.now }
    ensures sound { IsSound result }
{
    let parts = CoreParts {
        registers: registers_with(numbers),
        pc: head.pc,
        mode: head.mode,
        csrs: csrs_with(&platform.profile, numbers),
        reservation: reservation_with(head.reserved, platform.choices.block_size),
        next_order: head.next_order,
        trapped_last: head.trapped_last,
        halted: head.halted,
    };
    Core::of(parts, platform.map, platform.choices)
}

/// A reserved block of `size` bytes at an address, or none.
fn reservation_with(reserved: Option<u64>, size: u16) -> Reservation
    ensures { result ≡ record { block = option_map (block_with size) reserved } }
{
    match reserved {
        None => Reservation::NONE,
        Some(address) => Reservation {
            block: Some(Block { address, size }),
        },
    }
}
