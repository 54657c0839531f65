//! Physical memory, as the reference hart sees it.

ghost use Rattle.std.specs.Prelude.{◌≡◌, ◌≤◌, ◌<◌, ◌+◌, ◌*◌, ◌/◌, ◌%◌, ◌^◌, ℕ, Bool, IsOk, IfOk, OnOk, OnErr};
ghost use Rattle.hart_words.specs.declared.span.Span.{Span};
ghost use Rattle.hart_words.specs.declared.span.TheConstants.{PAGE_SIZE};
ghost use Rattle.hart_words.specs.Memory.{Bytes, entry_of, number_at, bytes_after_store};
ghost use Rattle.hart_words.specs.Spans.{IsPlace};

use crate::fault::NoMemory;

/// A memory of bytes at the physical addresses of a range, RAM. Numbers are little-endian, and lie
/// within one page of 4,096 bytes of RAM, as every aligned number of 1, 2, 4 or 8 bytes does.
pub trait PhysMem: Sized {
    /// The byte at each address.
    ghost bytes: { Self → Bytes };

    /// The addresses that are RAM. No call changes them.
    ghost ram: { Self → Span };

    /// The pages, by their number, in which no write is refused.
    ghost is_ready: { Self → ℕ → Type 0 };

    /// The number of `len` bytes at an address.
    fn read(&self, pa: u64, len: u8) -> u64
        requires { IsPlace (ram self.now) pa len }
        ensures value { result ≡ number_at (bytes self.now) pa len }
        ensures fits { result < 2 ^ (8 * len) }
        ensures small { (at : ℕ) → pa ≤ at → at < pa + len → bytes self.now at < 256 };

    /// Puts the low `len` bytes of a number at an address. A refused write changes nothing.
    fn write(&mut self, pa: u64, len: u8, value: u64) -> Result<(), NoMemory>
        requires { IsPlace (ram self.old) pa len }
        ensures ok { OnOk result (bytes self.new ≡ bytes_after_store pa len value (bytes self.old)) }
        ensures err { OnErr result (bytes self.new ≡ bytes self.old) }
        ensures admitted { is_ready self.old (pa / PAGE_SIZE) → IsOk result }
        ensures ready { (page : ℕ) → is_ready self.old page → is_ready self.new page }
        ensures ram { ram self.new ≡ ram self.old };

    /// Takes what memory the page of an address needs, so that no later write in it is refused.
    fn ready(&mut self, pa: u64) -> Result<(), NoMemory>
        requires { IsPlace (ram self.old) pa 1 }
        ensures bytes { bytes self.new ≡ bytes self.old }
        ensures ok { OnOk result (is_ready self.new (pa / PAGE_SIZE)) }
        ensures ready { (page : ℕ) → is_ready self.old page → is_ready self.new page }
        ensures ram { ram self.new ≡ ram self.old };

    /// A memory with the same bytes.
    fn copy(&self) -> Result<Self, NoMemory>
        ensures bytes { IfOk result (λ other. bytes other ≡ bytes self.now) }
        ensures ram { IfOk result (λ other. ram other ≡ ram self.now) };

    /// What stands at an address is a byte, in every memory.
    ghost bytes_are_bytes: { (mem : Self) (at : ℕ) → bytes mem at < 256 };
}

/// What a translation reads, and where it may set A and D: the entries of page tables.
pub trait WalkMem {
    /// The byte at each address.
    ghost bytes: { Self → Bytes };

    /// The addresses at which an entry of 8 bytes may be read.
    ghost is_readable: { Self → ℕ → Bool };

    /// The addresses at which an entry of 8 bytes may be set.
    ghost is_settable: { Self → ℕ → Bool };

    /// The entry at an address, which is a multiple of 8, or none where the read is refused.
    fn entry(&self, pa: u64) -> Option<u64>
        requires { pa % 8 ≡ 0 }
        ensures { result ≡ entry_of (is_readable self.now) (bytes self.now) pa };

    /// Whether the entry at an address, which is a multiple of 8, may be set.
    fn may_set(&self, pa: u64) -> bool
        requires { pa % 8 ≡ 0 }
        ensures { result ≡ is_settable self.now pa };
}
