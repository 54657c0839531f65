//! Whether two harts are the same but for their memories.

ghost use Rattle.std.specs.Prelude.{◌≡◌, Decides};

use crate::state::Core;
use csr_file::{CsrProfile, Csrs, Presence};
use hart_words::{
    Choices, DeviceFaults, InsnBits, Map, Marks, Misaligned, Mode, PmpEntry, Registers, Span,
    TrapValues,
};
use rv_atomic::{Block, Reservation};

impl Core {
    /// Whether the other state is the same.
    pub(crate) fn is_same(&self, other: &Core) -> bool
        ensures { Decides result (self.now ≡ other.now) }
    {
        same_registers(&self.registers, &other.registers)
            && self.pc == other.pc
            && same_mode(self.mode, other.mode)
            && same_csrs(&self.csrs, &other.csrs)
            && same_reservation(self.reservation, other.reservation)
            && same_number(self.next_order, other.next_order)
            && self.trapped_last == other.trapped_last
            && self.halted == other.halted
            && same_map(&self.map, &other.map)
            && same_choices(&self.choices, &other.choices)
    }
}

fn same_registers(one: &Registers, other: &Registers) -> bool
    ensures { Decides result (one.now ≡ other.now) }
{
    one.values == other.values
}

fn same_mode(one: Mode, other: Mode) -> bool
    ensures { Decides result (one ≡ other) }
{
    one.number() == other.number()
}

fn same_csrs(one: &Csrs, other: &Csrs) -> bool
    ensures { Decides result (one.now ≡ other.now) }
{
    one.values == other.values
        && same_entries(&one.entries, &other.entries)
        && same_profile(&one.profile, &other.profile)
}

fn same_profile(one: &CsrProfile, other: &CsrProfile) -> bool
    ensures { Decides result (one.now ≡ other.now) }
{
    one.masks == other.masks
        && one.fixed == other.fixed
        && same_presences(&one.presences, &other.presences)
        && one.entry_count.number() == other.entry_count.number()
        && one.entry_bits == other.entry_bits
        && one.lines == other.lines
}

fn same_presences(one: &[Presence], other: &[Presence]) -> bool
    ensures { Decides result (one.now ≡ other.now) }
{
    match one.split_first() {
        None => other.is_empty(),
        Some((presence, presences)) => match other.split_first() {
            None => false,
            Some((second, seconds)) => {
                same_presence(*presence, *second) && same_presences(presences, seconds)
            }
        },
    }
}

fn same_presence(one: Presence, other: Presence) -> bool
    ensures { Decides result (one ≡ other) }
{
    match one {
        Presence::Kept => matches!(other, Presence::Kept),
        Presence::FromRow => matches!(other, Presence::FromRow),
        Presence::Absent => matches!(other, Presence::Absent),
        Presence::MayTrap => matches!(other, Presence::MayTrap),
    }
}

fn same_entries(one: &[PmpEntry; 16], other: &[PmpEntry; 16]) -> bool
    ensures { Decides result (one.now ≡ other.now) }
{
    one == other
}

fn same_reservation(one: Reservation, other: Reservation) -> bool
    ensures { Decides result (one ≡ other) }
{
    match one.block {
        None => other.block.is_none(),
        Some(block) => match other.block {
            None => false,
            Some(second) => same_block(block, second),
        },
    }
}

fn same_block(one: Block, other: Block) -> bool
    ensures { Decides result (one ≡ other) }
{
    one.address == other.address && one.size == other.size
}

fn same_number(one: Option<u64>, other: Option<u64>) -> bool
    ensures { Decides result (one ≡ other) }
{
    match one {
        None => other.is_none(),
        Some(number) => match other {
            None => false,
            Some(second) => number == second,
        },
    }
}

fn same_map(one: &Map, other: &Map) -> bool
    ensures { Decides result (one.now ≡ other.now) }
{
    same_span(&one.ram, &other.ram) && same_devices(&one.io, &other.io)
}

fn same_devices(one: &[Option<Span>], other: &[Option<Span>]) -> bool
    ensures { Decides result (one.now ≡ other.now) }
{
    match one.split_first() {
        None => other.is_empty(),
        Some((range, ranges)) => match other.split_first() {
            None => false,
            Some((second, seconds)) => {
                same_range(*range, *second) && same_devices(ranges, seconds)
            }
        },
    }
}

fn same_range(one: Option<Span>, other: Option<Span>) -> bool
    ensures { Decides result (one ≡ other) }
{
    match one {
        None => other.is_none(),
        Some(span) => match other {
            None => false,
            Some(second) => same_span(&span, &second),
        },
    }
}

fn same_span(one: &Span, other: &Span) -> bool
    ensures { Decides result (one.now ≡ other.now) }
{
    one.base == other.base && one.size == other.size
}

fn same_choices(one: &Choices, other: &Choices) -> bool
    ensures { Decides result (one.now ≡ other.now) }
{
    same_misaligned(one.misaligned, other.misaligned)
        && same_trap_values(one.trap_values, other.trap_values)
        && same_marks(one.marks, other.marks)
        && one.block_size == other.block_size
        && one.bits == other.bits
        && same_insn_bits(one.insn_bits, other.insn_bits)
        && same_device_faults(one.device_faults, other.device_faults)
}

fn same_insn_bits(one: InsnBits, other: InsnBits) -> bool
    ensures { Decides result (one ≡ other) }
{
    one.are_cut() == other.are_cut()
}

fn same_device_faults(one: DeviceFaults, other: DeviceFaults) -> bool
    ensures { Decides result (one ≡ other) }
{
    one.are_by_row() == other.are_by_row()
}

fn same_misaligned(one: Misaligned, other: Misaligned) -> bool
    ensures { Decides result (one ≡ other) }
{
    one.are_done() == other.are_done()
}

fn same_trap_values(one: TrapValues, other: TrapValues) -> bool
    ensures { Decides result (one ≡ other) }
{
    match one {
        TrapValues::Value => matches!(other, TrapValues::Value),
        TrapValues::Zero => matches!(other, TrapValues::Zero),
        TrapValues::ZeroFor(causes) => match other {
            TrapValues::ZeroFor(others) => causes.codes == others.codes,
            TrapValues::Value | TrapValues::Zero => false,
        },
    }
}

fn same_marks(one: Marks, other: Marks) -> bool
    ensures { Decides result (one ≡ other) }
{
    one.are_set() == other.are_set()
}
