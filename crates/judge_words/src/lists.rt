//! Values that are lists of items, parted by commas.

ghost use Rattle.std.specs.Prelude.{◌≡◌, ◌∷◌, ◌≤◌, length, option_map};
ghost use Rattle.judge_words.specs.Lists.{cause_bit, causes_in, io_in, items, items_of, list_size, ranges_from, trap_values_in, with_cause, zero_for_in};

use crate::values::{read_span, read_u64};
use hart_words::{CauseSet, MOST_DEVICES, Span, TrapValues};

/// The first item of a list, and the list of the others, where there are any.
#[tactic(auto, using(crate::proofs::Cuts::items_alone, crate::proofs::Cuts::items_first))]
pub fn first_item(text: &str) -> (&str, Option<&str>)
    ensures items { items text.now
        ≡ result.0.now ∷ items_of (option_map (λ others. others.now) result.1) }
    ensures shorter { list_size (option_map (λ others. others.now) result.1) ≤ length text.now }
{
    match text.split_once(',') {
        None => (text, None),
        Some((item, others)) => (item, Some(others)),
    }
}

/// What traps put into mtval and stval: `value`, `zero`, or `zero:` and a list of causes.
#[tactic(auto, unfolding(crate::specs::Lists::trap_values_in))]
pub fn read_trap_values(text: &str) -> Option<TrapValues>
    ensures { result ≡ trap_values_in text.now }
{
    match text {
        "value" => Some(TrapValues::Value),
        "zero" => Some(TrapValues::Zero),
        _ => read_zero_for(text),
    }
}

/// `zero:` and a list of causes.
#[tactic(auto, unfolding(crate::specs::Lists::zero_for_in))]
fn read_zero_for(text: &str) -> Option<TrapValues>
    ensures { result ≡ zero_for_in text.now }
{
    let (word, causes) = text.split_once(':')?;
    if word == "zero" {
        let codes = read_causes(Some(causes))?;
        Some(TrapValues::ZeroFor(CauseSet { codes }))
    } else {
        None
    }
}

/// The set of the causes in a list, each once.
fn read_causes(list: Option<&str>) -> Option<u16>
    ensures { result ≡ causes_in (items_of (option_map (λ text. text.now) list.entry)) }
{
    match list {
        None => Some(0),
        Some(text) => {
            let (item, others) = first_item(text);
            let bit = cause_bit(read_u64(item)?)?;
            with_cause(read_causes(others)?, bit)
        }
    }
}

/// The bit of a cause whose trap value a core may have as 0 on its own.
fn cause_bit(code: u64) -> Option<u16>
    ensures { result ≡ cause_bit code }
{
    match code {
        1 => Some(0x2),
        2 => Some(0x4),
        3 => Some(0x8),
        4 => Some(0x10),
        5 => Some(0x20),
        6 => Some(0x40),
        7 => Some(0x80),
        12 => Some(0x1000),
        13 => Some(0x2000),
        15 => Some(0x8000),
        _ => None,
    }
}

/// A set of causes with one more, where it is not in the set.
fn with_cause(causes: u16, bit: u16) -> Option<u16>
    ensures { result ≡ with_cause causes bit }
{
    if causes & bit == 0 {
        Some(causes | bit)
    } else {
        None
    }
}

/// The ranges of devices, which may be left out.
pub fn read_io(list: Option<&str>) -> Option<[Option<Span>; MOST_DEVICES]>
    ensures { result ≡ io_in (option_map (λ text. text.now) list.entry) }
{
    read_ranges(0, [None; MOST_DEVICES], list)
}

/// The ranges in a list, from the place `index` on, beside those that are there.
fn read_ranges(
    index: usize,
    mut ranges: [Option<Span>; MOST_DEVICES],
    list: Option<&str>,
) -> Option<[Option<Span>; MOST_DEVICES]>
    ensures { result
        ≡ ranges_from index ranges (items_of (option_map (λ text. text.now) list.entry)) }
{
    match list {
        None => Some(ranges),
        Some(text) => {
            let (item, others) = first_item(text);
            if index < MOST_DEVICES {
                ranges[index] = Some(read_span(item)?);
                read_ranges(index + 1, ranges, others)
            } else {
                None
            }
        }
    }
}
