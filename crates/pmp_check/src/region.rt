//! What an entry covers.

ghost use Rattle.std.specs.Prelude.{◌≡◌, ◌+◌, ◌<◌, ◌^◌};
ghost use Rattle.std.specs.Int.{w64, trailing_ones};
ghost use Rattle.pmp_check.specs.Protection.{covers_all, covers_some, matching_of, power_region, region_of};

use hart_words::PmpEntry;

/// The lower bit of the field A of a configuration byte, which has two.
pub const A: u8 = 3;

/// How an entry matches addresses, the field A of its configuration byte: OFF, TOR, NA4 and NAPOT.
#[derive(Clone, Copy, Debug)]
pub enum Matching {
    Off,
    TopOfRange,
    FourBytes,
    PowerOfTwo,
}

/// The bytes from `first` up to but not including `past`. Wider than an address, so that a region
/// may end past the last one.
#[derive(Clone, Copy, Debug)]
pub struct Region {
    pub first: u128,
    pub past: u128,
}

impl Region {
    /// What `entry` covers, where the entry before it has the address register `before`.
    #[tactic(auto, unfolding(crate::specs::Protection::region_of))]
    pub fn of(entry: PmpEntry, before: u64) -> Region
        ensures { result ≡ region_of before entry }
    {
        let addr = u128::from(entry.addr);
        match matching_of(entry.cfg) {
            Matching::Off => Region { first: 0, past: 0 },
            Matching::TopOfRange => {
                Region {
                    first: 4 * u128::from(before),
                    past: 4 * addr,
                }
            }
            Matching::FourBytes => {
                Region {
                    first: 4 * addr,
                    past: 4 * addr + 4,
                }
            }
            Matching::PowerOfTwo => power_region(entry.addr),
        }
    }

    /// Whether some byte of the access lies in the region.
    pub fn covers_some(&self, pa: u64, len: u8) -> bool
        ensures { result ≡ covers_some self.now pa len }
    {
        let pa = u128::from(pa);
        self.first.max(pa) < self.past.min(pa + u128::from(len))
    }

    /// Whether every byte of the access lies in the region.
    pub fn covers_all(&self, pa: u64, len: u8) -> bool
        ensures { result ≡ covers_all self.now pa len }
    {
        let pa = u128::from(pa);
        self.first <= pa && pa + u128::from(len) <= self.past
    }
}

/// How an entry with this configuration byte matches.
fn matching_of(cfg: u8) -> Matching
    ensures { result ≡ matching_of cfg }
{
    match (cfg >> A) % 4 {
        0 => Matching::Off,
        1 => Matching::TopOfRange,
        2 => Matching::FourBytes,
        _ => Matching::PowerOfTwo,
    }
}

/// The naturally aligned power of two that an address register gives by its trailing ones.
#[tactic(auto, using(crate::proofs::Ones::ones_fit, crate::proofs::Ones::ones_few))]
fn power_region(addr: u64) -> Region
    ensures { result ≡ power_region addr (trailing_ones w64 addr) }
{
    let ones = addr.trailing_ones();
    let first = 4 * (u128::from(addr) - ((1u128 << ones) - 1));
    Region {
        first,
        past: first + (8u128 << ones),
    }
}
