//! What the words say of a core's control and status registers.

ghost use Rattle.std.specs.Prelude.{◌≡◌, ◌==◌, ◌&&◌, option_map};
ghost use Rattle.std.specs.List.{before_first, find};
ghost use Rattle.std.specs.Str.{bytes_eq};
ghost use Rattle.csr_file.specs.Table.{is_chosen, stored_name_of};
ghost use Rattle.judge_words.specs.Lists.{items_of, value_at};
ghost use Rattle.judge_words.specs.Values.{colon};
ghost use Rattle.judge_words.specs.Profiles.{after_colon, are_lawful_bits, chosen_named, csr_in, entry_bits_in, entry_count_in, fixed_in, is_named, lines_in, may_be, may_be_absent, may_be_from_row, name_of, optional_names, presence_names, with_item, with_mask, with_way};

use crate::lists::first_item;
use crate::values::read_u64;
use csr_file::fields::{ADDABLE_LINES, LINE_BITS};
use csr_file::profile::OptionalCsr;
use csr_file::{ALL_STORED, CsrProfile, EntryCount, Presence, StoredCsr};

/// The profile that a list of registers says, each at most once.
pub fn read_csrs(list: Option<&str>) -> Option<CsrProfile>
    ensures { result ≡ csr_in (option_map (λ text. text.now) list.entry) }
{
    match list {
        None => Some(CsrProfile::plain()),
        Some(text) => {
            let (item, others) = first_item(text);
            if is_named(name_of(item), others) {
                None
            } else {
                with_item(item, read_csrs(others)?)
            }
        }
    }
}

/// Whether one of the items has this name.
fn is_named(name: &str, list: Option<&str>) -> bool
    ensures { result ≡ is_named name.now (items_of (option_map (λ text. text.now) list.entry)) }
{
    match list {
        None => false,
        Some(text) => {
            let (item, others) = first_item(text);
            name_of(item) == name || is_named(name, others)
        }
    }
}

/// What stands before the first `=`.
#[tactic(auto, using(crate::proofs::Cuts::name_alone))]
fn name_of(item: &str) -> &str
    ensures { result.now ≡ name_of item.now }
{
    match item.split_once('=') {
        None => item,
        Some((name, _)) => name,
    }
}

/// The profile with what an item says of a register, as `NAME=VALUE`.
#[tactic(auto, unfolding(crate::specs::Profiles::with_item))]
fn with_item(item: &str, profile: CsrProfile) -> Option<CsrProfile>
    ensures { result ≡ with_item item.now profile }
{
    let (name, value) = item.split_once('=')?;
    match read_presence(value) {
        None => with_mask(name, value, profile),
        Some(presence) => with_way(name, presence, profile),
    }
}

/// How a core has a register: `row`, `none` or `maybe`.
#[tactic(auto, unfolding(crate::specs::Profiles::presence_names))]
fn read_presence(text: &str) -> Option<Presence>
    ensures { result ≡ value_at presence_names text.now }
{
    match text {
        "row" => Some(Presence::FromRow),
        "none" => Some(Presence::Absent),
        "maybe" => Some(Presence::MayTrap),
        _ => None,
    }
}

/// The profile with a register that the core has in another way.
#[tactic(auto, unfolding(crate::specs::Profiles::with_way))]
fn with_way(name: &str, presence: Presence, profile: CsrProfile) -> Option<CsrProfile>
    ensures { result ≡ with_way name.now presence profile }
{
    let csr = read_optional(name)?;
    if may_be(csr, presence) {
        Some(profile.with_presence(csr, presence))
    } else {
        None
    }
}

/// A register that a core may have in several ways.
#[tactic(auto, unfolding(crate::specs::Profiles::optional_names))]
fn read_optional(name: &str) -> Option<OptionalCsr>
    ensures { result ≡ value_at optional_names name.now }
{
    match name {
        "misa" => Some(OptionalCsr::Misa),
        "mcounteren" => Some(OptionalCsr::Mcounteren),
        "menvcfg" => Some(OptionalCsr::Menvcfg),
        "mcountinhibit" => Some(OptionalCsr::Mcountinhibit),
        "mhpmevent" => Some(OptionalCsr::Mhpmevent),
        "mhpmcounter" => Some(OptionalCsr::Mhpmcounter),
        "cycle" => Some(OptionalCsr::Cycle),
        "time" => Some(OptionalCsr::Time),
        "instret" => Some(OptionalCsr::Instret),
        "hpmcounter" => Some(OptionalCsr::Hpmcounter),
        "senvcfg" => Some(OptionalCsr::Senvcfg),
        "mconfigptr" => Some(OptionalCsr::Mconfigptr),
        _ => None,
    }
}

fn may_be(csr: OptionalCsr, presence: Presence) -> bool
    ensures { result ≡ may_be csr presence }
{
    match presence {
        Presence::Kept => false,
        Presence::FromRow => may_be_from_row(csr),
        Presence::Absent | Presence::MayTrap => may_be_absent(csr),
    }
}

/// Whether the core may decide what a read of it gives.
fn may_be_from_row(csr: OptionalCsr) -> bool
    ensures { result ≡ may_be_from_row csr }
{
    match csr {
        OptionalCsr::Misa | OptionalCsr::Mcountinhibit | OptionalCsr::Menvcfg => true,
        OptionalCsr::Senvcfg | OptionalCsr::Mhpmevent => true,
        _ => false,
    }
}

/// Whether the core may lack it.
fn may_be_absent(csr: OptionalCsr) -> bool
    ensures { result ≡ may_be_absent csr }
{
    match csr {
        OptionalCsr::Misa => false,
        _ => true,
    }
}

/// The profile with other bits of a register, as `MASK` or `MASK:FIXED`.
#[tactic(auto, unfolding(crate::specs::Profiles::with_mask))]
fn with_mask(name: &str, value: &str, profile: CsrProfile) -> Option<CsrProfile>
    ensures { result ≡ with_mask name.now value.now profile }
{
    let stored = read_chosen(name)?;
    let (mask, fixed) = mask_and_fixed(value);
    let mask = read_u64(mask)?;
    let fixed = read_fixed(fixed)?;
    if are_lawful_bits(stored, mask, fixed) {
        Some(profile.with_bits(stored, mask, fixed))
    } else {
        None
    }
}

/// The register of this name, of those whose bits a core chooses.
#[tactic(auto, unfolding(crate::specs::Profiles::chosen_named))]
fn read_chosen(name: &str) -> Option<StoredCsr>
    ensures { result ≡ chosen_named name.now }
{
    chosen_among(&ALL_STORED, name)
}

/// The same among these.
fn chosen_among(all: &[StoredCsr], name: &str) -> Option<StoredCsr>
    ensures { result ≡ find (λ stored. is_chosen stored && bytes_eq (stored_name_of stored) name.now)
        all.now }
{
    all.iter()
        .copied()
        .find(|stored| stored.row().is_chosen() && stored.name() == name)
}

/// What stands before the first colon, and after it where there is one.
#[tactic(auto, using(crate::proofs::Cuts::before_colon_alone, crate::proofs::Cuts::after_colon_none, crate::proofs::Cuts::after_colon_some))]
fn mask_and_fixed(value: &str) -> (&str, Option<&str>)
    ensures mask { result.0.now ≡ before_first (λ byte. byte == colon) value.now }
    ensures fixed { option_map (λ text. text.now) result.1 ≡ after_colon value.now }
{
    match value.split_once(':') {
        None => (value, None),
        Some((mask, fixed)) => (mask, Some(fixed)),
    }
}

/// The bits that are always 1, which may be left out.
fn read_fixed(text: Option<&str>) -> Option<u64>
    ensures { result ≡ fixed_in (option_map (λ text. text.now) text.entry) }
{
    match text {
        None => Some(0),
        Some(text) => read_u64(text),
    }
}

/// Whether a register may have these bits that a write changes, and these that are always 1.
#[tactic(auto, unfolding(crate::specs::Profiles::are_lawful_bits))]
fn are_lawful_bits(stored: StoredCsr, mask: u64, fixed: u64) -> bool
    ensures { result ≡ are_lawful_bits stored mask fixed }
{
    let row = stored.row();
    mask & row.most == mask
        && mask & row.least == row.least
        && fixed & row.fixable == fixed
        && fixed & mask == 0
}

/// How many entries of physical memory protection there are: 0, 8 or 16.
#[tactic(auto, unfolding(crate::specs::Profiles::entry_count_in))]
pub fn read_entry_count(text: &str) -> Option<EntryCount>
    ensures { result ≡ entry_count_in text.now }
{
    match read_u64(text)? {
        0 => Some(EntryCount::Zero),
        8 => Some(EntryCount::Eight),
        16 => Some(EntryCount::Sixteen),
        _ => None,
    }
}

/// How many low bits an address register of physical memory protection has: 10 to 54.
#[tactic(auto, unfolding(crate::specs::Profiles::entry_bits_in))]
pub fn read_entry_bits(text: &str) -> Option<u8>
    ensures { result ≡ entry_bits_in text.now }
{
    let bits = read_u64(text)?;
    if 10 <= bits && bits <= 54 {
        Some(bits as u8)
    } else {
        None
    }
}

/// The lines that are added, where a mask has all that always may be lines, and no others.
#[tactic(auto, unfolding(crate::specs::Profiles::lines_in))]
pub fn read_lines(text: &str) -> Option<u64>
    ensures { result ≡ lines_in text.now }
{
    let mask = read_u64(text)?;
    if mask & (LINE_BITS | ADDABLE_LINES) == mask && mask & LINE_BITS == LINE_BITS {
        Some(mask & ADDABLE_LINES)
    } else {
        None
    }
}
