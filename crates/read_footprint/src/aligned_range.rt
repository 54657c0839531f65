//! Aligned ranges of bytes, of which some count.

ghost use Rattle.std.specs.Prelude.{◌≡◌, ◌≤◌, ◌<◌, ◌%◌, ◌^◌};

/// A naturally aligned power-of-two range: so many bytes, at most 64, from an address on that is a
/// multiple of their number, with a bit for each.
#[derive(Clone, Copy, Debug)]
pub struct AlignedRange {
    pub pa: u64,
    /// The power: it has 2 to the power of it bytes.
    pub power: u8,
    /// Which of its bytes count, the first one by the lowest bit.
    pub bits: u64,
    ghost at_most_6: { power ≤ 6 },
    ghost aligned: { pa % 2 ^ power ≡ 0 },
    ghost fits: { bits < 2 ^ 2 ^ power },
}

impl AlignedRange {
    ghost use Rattle.std.specs.Prelude.{◌==◌, ◌+◌, ◌-◌, ◌||◌, ℕ, true, false};
    ghost use Rattle.read_footprint.specs.Bits.{has_bit};
    ghost use Rattle.read_footprint.specs.Ranges.{counts};

    /// How many bytes it has.
    pub fn len(self) -> u64
        ensures { result ≡ 2 ^ self.power }
    {
        1 << self.power
    }

    /// Whether no byte counts.
    pub fn is_empty(self) -> bool
        ensures is { result ≡ (self.bits == 0) }
        ensures none { result ≡ true → (address : ℕ) → counts self address ≡ false }
    {
        self.bits == 0
    }

    /// Whether it is a number of 1, 2, 4 or 8 bytes that all count.
    pub fn is_number(self) -> bool
        ensures at_most_3 { result ≡ true → self.power ≤ 3 }
        ensures all { result ≡ true → (k : ℕ) → k < 2 ^ self.power → has_bit self.bits k ≡ true }
        ensures one { result ≡ false → self.power ≡ 0 → self.bits ≡ 0 }
    {
        self.power <= 3 && self.bits == (1 << self.len()) - 1
    }

    /// How many bytes a half of it has.
    fn half(self) -> u64
        requires { 1 ≤ self.power }
        ensures is { result ≡ 2 ^ (self.power - 1) }
        ensures at_most_32 { result ≤ 32 }
    {
        1 << (self.power - 1)
    }

    /// Its two halves.
    pub fn halves(self) -> (AlignedRange, AlignedRange)
        requires { 1 ≤ self.power }
        ensures powers { (result.0.power + 1 ≡ self.power) × (result.1.power + 1 ≡ self.power) }
        ensures counts { (address : ℕ) → counts self address
            ≡ (counts result.0 address || counts result.1 address) }
    {
        let half = self.half();
        let power = self.power - 1;
        let front = AlignedRange {
            pa: self.pa,
            power,
            bits: self.bits % (1 << half),
        };
        let back = AlignedRange {
            pa: self.pa + half,
            power,
            bits: self.bits >> half,
        };
        (front, back)
    }
}
