//! A page: 4,096 addresses and their bytes.

ghost use Rattle.std.specs.Prelude.{◌≡◌, ◌<◌, ℕ, length, slice_index};
ghost use Rattle.hart_words.specs.declared.span.TheConstants.{PAGE_SIZE};

use hart_words::{PAGE_BYTES, PAGE_SIZE};

/// The bytes of the addresses that have the same number when they are divided by 4,096. A page does
/// not know this number.
#[derive(Drop)]
pub struct Page {
    bytes: [u8; PAGE_BYTES],
    ghost full: { length bytes ≡ PAGE_SIZE },
    ghost small: { (at : ℕ) → slice_index bytes at < 256 },
}

impl Page {
    ghost use Rattle.std.specs.Prelude.{◌≡◌, ◌<◌, ◌≤◌, ◌+◌, ◌*◌, ◌^◌, ℕ, option_copied};
    ghost use Rattle.std.specs.Bool.{Decides};
    ghost use Rattle.hart_words.specs.Memory.{number_at};
    ghost use Rattle.page_image.specs.Pages.{page_byte, byte_or_zero};

    /// The page of these bytes.
    pub(crate) fn of(bytes: [u8; PAGE_BYTES]) -> Page
        requires full { length bytes ≡ PAGE_SIZE }
        requires small { (at : ℕ) → slice_index bytes at < 256 }
        ensures { result.bytes ≡ bytes }
    {
        Page { bytes }
    }

    /// A page of zeros.
    fn zeros() -> Page
        ensures { (pa : ℕ) → page_byte result pa ≡ 0 }
    {
        Page {
            bytes: [0; PAGE_BYTES],
        }
    }

    /// The byte at an address in the page.
    #[tactic(auto, unfolding(crate::specs::Pages::page_byte))]
    pub fn byte(&self, pa: u64) -> u8
        ensures { result ≡ page_byte self.now pa }
    {
        self.bytes[(pa % PAGE_SIZE) as usize]
    }

    /// The number of `len` bytes at an address, within the page.
    pub fn number(&self, pa: u64, len: u8) -> u64
        requires at_most_8 { len ≤ 8 }
        requires inside { pa + len < 2 ^ 64 }
        ensures value { result ≡ number_at (page_byte self.now) pa len }
        ensures fits { result < 2 ^ (8 * len) }
        ensures small { (at : ℕ) → pa ≤ at → at < pa + len → page_byte self.now at < 256 }
    {
        let mut number = 0;
        let mut k = u64::from(len);
        while k > 0 {
            k -= 1;
            number = number * 256 + u64::from(self.byte(pa + k));
        }
        number
    }

    /// Whether the pages have the same bytes.
    fn same_as(&self, other: &Page) -> bool
        ensures { Decides result ((pa : ℕ) → page_byte self.now pa ≡ page_byte other.now pa) }
    {
        self.bytes == other.bytes
    }

    /// Whether each byte is 0.
    pub(crate) fn is_zero(&self) -> bool
        ensures { Decides result ((pa : ℕ) → page_byte self.now pa ≡ 0) }
    {
        self.same_as(&Page::zeros())
    }

    /// Whether it has the bytes of another page, or zeros where there is none.
    fn same_as_any(&self, other: Option<&Page>) -> bool
        ensures { Decides result ((pa : ℕ)
            → page_byte self.now pa ≡ byte_or_zero (option_copied other.entry) pa) }
    {
        match other {
            Some(other) => self.same_as(other),
            None => self.is_zero(),
        }
    }

    /// Whether two pages have the same bytes, where one that is not there has zeros.
    pub fn same_bytes(one: Option<&Page>, other: Option<&Page>) -> bool
        ensures { Decides result ((pa : ℕ)
            → byte_or_zero (option_copied one.entry) pa
            ≡ byte_or_zero (option_copied other.entry) pa) }
    {
        match one {
            Some(one) => one.same_as_any(other),
            None => match other {
                Some(other) => other.is_zero(),
                None => true,
            },
        }
    }
}
