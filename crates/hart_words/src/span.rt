//! Ranges of physical addresses.

ghost use Rattle.std.specs.Prelude.{◌≡◌, ◌+◌, ◌%◌, ◌^◌, ◌≤◌};
ghost use Rattle.hart_words.specs.declared.span.TheConstants.{PAGE_SIZE};

/// The bytes of a page, as a distance of addresses and as a length of arrays.
pub const PAGE_SIZE: u64 = 4096;

pub const PAGE_BYTES: usize = 4096;

/// A range of physical addresses: whole pages, at least one. Base and size are in bytes, and the
/// range ends at 2^56 at the latest, which is as far as physical addresses go.
#[derive(Clone, Copy, Debug)]
pub struct Span {
    pub base: u64,
    pub size: u64,
    ghost whole_base: { base % PAGE_SIZE ≡ 0 },
    ghost whole_size: { size % PAGE_SIZE ≡ 0 },
    ghost at_least_a_page: { PAGE_SIZE ≤ size },
    ghost below: { base + size ≤ 2 ^ 56 },
}

impl Span {
    ghost use Rattle.std.specs.Prelude.{◌↔◌, Decides, IsTrue};
    ghost use Rattle.hart_words.specs.Spans.{IsPlace, LiesIn, is_apart_from, is_in, is_span, holds_all, span_of};

    /// The range of `size` bytes from `base` on, where these are whole pages, at least one, that
    /// end at 2^56 at the latest.
    pub fn new(base: u64, size: u64) -> Option<Span>
        ensures { result ≡ span_of base size }
    {
        if Self::is_whole(base, size) {
            Some(Span { base, size })
        } else {
            None
        }
    }

    /// Whether the byte at `address` lies in the range.
    pub fn contains(&self, address: u64) -> bool
        ensures value { result ≡ is_in self.now address }
        ensures lies { IsTrue result ↔ LiesIn address self.now }
    {
        self.base <= address && address - self.base < self.size
    }

    /// Whether all of `len` bytes from the address `pa` on lie in the range.
    pub fn holds(&self, pa: u64, len: u8) -> bool
        ensures value { result ≡ holds_all self.now pa len }
        ensures narrow { IsTrue result → pa + len ≤ 2 ^ 56 }
    {
        let len = u64::from(len);
        self.base <= pa && pa - self.base <= self.size - len
    }

    /// Whether `len` bytes from the address `pa` on, 1 to 8 of them, lie in the range and within
    /// one page.
    pub fn is_place(&self, pa: u64, len: u8) -> bool
        ensures { Decides result (IsPlace self.now pa len) }
    {
        1 <= len && len <= 8 && self.holds(pa, len) && pa % PAGE_SIZE + u64::from(len) <= PAGE_SIZE
    }

    /// Whether the two ranges have no byte in common.
    pub fn is_apart_from(&self, other: &Span) -> bool
        ensures { result ≡ is_apart_from self.now other.now }
    {
        self.base + self.size <= other.base || other.base + other.size <= self.base
    }

    /// Whether base and size are those of a range.
    fn is_whole(base: u64, size: u64) -> bool
        ensures { result ≡ is_span base size }
    {
        base % PAGE_SIZE == 0
            && size % PAGE_SIZE == 0
            && PAGE_SIZE <= size
            && u128::from(base) + u128::from(size) <= 1 << 56
    }
}
