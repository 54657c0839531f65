//! The map of RAM and devices.

ghost use Rattle.std.specs.Prelude.{◌≡◌, IsTrue};
ghost use Rattle.hart_words.specs.Devices.{apart_by, are_apart, are_apart_from, is_apart_from_all, is_device, range_holds};

use crate::span::Span;

/// The most ranges of devices that a map has.
pub const MOST_DEVICES: usize = 8;

/// What stands at which physical address: RAM, and up to eight ranges of devices. RAM has no byte
/// in common with a range of devices; elsewhere is nothing.
#[derive(Clone, Copy, Debug)]
pub struct Map {
    pub ram: Span,
    pub io: [Option<Span>; MOST_DEVICES],
    ghost apart: { IsTrue (are_apart_from ram io) },
}

impl Map {
    ghost use Rattle.hart_words.specs.Map.{map_beside, map_of, map_with};

    /// The map of RAM and one range of devices, or none, where they have no byte in common.
    #[tactic(auto, unfolding(crate::specs::Map::map_of))]
    pub fn new(ram: Span, io: Option<Span>) -> Option<Map>
        ensures { result ≡ map_of ram io }
    {
        Map::with_devices(ram, [io, None, None, None, None, None, None, None])
    }

    /// The map of these ranges, where no two have a byte in common.
    #[tactic(auto, unfolding(crate::specs::Map::map_with))]
    pub fn with_devices(ram: Span, io: [Option<Span>; MOST_DEVICES]) -> Option<Map>
        ensures { result ≡ map_with ram io }
    {
        if are_apart(&io) {
            Map::beside(ram, io)
        } else {
            None
        }
    }

    /// The map of these ranges, where none of the devices has a byte in common with RAM.
    fn beside(ram: Span, io: [Option<Span>; MOST_DEVICES]) -> Option<Map>
        ensures { result ≡ map_beside ram io }
    {
        if are_apart_from(&ram, &io) {
            Some(Map { ram, io })
        } else {
            None
        }
    }

    /// Whether all of `len` bytes from the address `pa` on are of one range of devices.
    pub fn is_device(&self, pa: u64, len: u8) -> bool
        ensures { result ≡ is_device self.now.io pa len }
    {
        is_device(&self.io, pa, len)
    }
}

/// Whether one of the ranges holds all of `len` bytes from the address `pa` on.
fn is_device(io: &[Option<Span>], pa: u64, len: u8) -> bool
    ensures { result ≡ is_device io.now pa len }
{
    match io.split_first() {
        None => false,
        Some((range, ranges)) => holds(*range, pa, len) || is_device(ranges, pa, len),
    }
}

fn holds(range: Option<Span>, pa: u64, len: u8) -> bool
    ensures { result ≡ range_holds range pa len }
{
    match range {
        None => false,
        Some(range) => range.holds(pa, len),
    }
}

/// Whether no two of the ranges have a byte in common.
fn are_apart(io: &[Option<Span>]) -> bool
    ensures { result ≡ are_apart io.now }
{
    match io.split_first() {
        None => true,
        Some((range, ranges)) => is_apart_from_all(*range, ranges) && are_apart(ranges),
    }
}

fn is_apart_from_all(range: Option<Span>, others: &[Option<Span>]) -> bool
    ensures { result ≡ is_apart_from_all range others.now }
{
    match range {
        None => true,
        Some(range) => are_apart_from(&range, others),
    }
}

/// Whether none of the ranges has a byte in common with a range.
fn are_apart_from(range: &Span, others: &[Option<Span>]) -> bool
    ensures { result ≡ are_apart_from range.now others.now }
{
    match others.split_first() {
        None => true,
        Some((other, others)) => apart_by(range, *other) && are_apart_from(range, others),
    }
}

fn apart_by(range: &Span, other: Option<Span>) -> bool
    ensures { result ≡ apart_by range.now other }
{
    match other {
        None => true,
        Some(other) => range.is_apart_from(&other),
    }
}
