//! Numbers of several bytes over a memory of single bytes.

ghost use Rattle.std.specs.Prelude.{◌≡◌, ◌≤◌, ◌<◌, ◌+◌, ◌*◌, ◌/◌, ◌%◌, ◌^◌, ℕ, IsOk, OnOk};
ghost use Rattle.hart_words.specs.declared.span.Span.{Span};
ghost use Rattle.hart_words.specs.Memory.{Bytes, number_at, bytes_after_store};

use hart_words::{NoMemory, PAGE_SIZE};

/// What has a byte at each address.
pub trait ByteAt {
    /// The byte at each address.
    ghost bytes: { Self → Bytes };

    /// The byte at an address.
    fn byte(&self, pa: u64) -> u8
        ensures { result ≡ bytes self.now pa };
}

/// A memory of single bytes that admits writes by pages of 4,096 bytes.
pub trait ByteMem {
    /// The byte at each address.
    ghost bytes: { Self → Bytes };

    /// The pages, by their number, in which bytes may be set.
    ghost admits: { Self → ℕ → Type 0 };

    /// The addresses that are RAM. No call changes them.
    ghost ram: { Self → Span };

    /// Takes what memory the page of an address needs.
    fn admit(&mut self, pa: u64) -> Result<(), NoMemory>
        ensures bytes { bytes self.new ≡ bytes self.old }
        ensures ok { OnOk result (admits self.new (pa / PAGE_SIZE)) }
        ensures admitted { admits self.old (pa / PAGE_SIZE) → IsOk result }
        ensures keeps { (page : ℕ) → admits self.old page → admits self.new page }
        ensures ram { ram self.new ≡ ram self.old };

    /// Sets the byte at an address whose page was admitted.
    fn set(&mut self, pa: u64, value: u8)
        requires { admits self.old (pa / PAGE_SIZE) }
        ensures bytes { bytes self.new ≡ bytes_after_store pa 1 value (bytes self.old) }
        ensures keeps { (page : ℕ) → admits self.old page → admits self.new page }
        ensures ram { ram self.new ≡ ram self.old };
}

/// The number of `len` bytes at an address.
pub fn number_of<B: ByteAt>(bytes: &B, pa: u64, len: u8) -> u64
    requires at_most_8 { len ≤ 8 }
    requires inside { pa + len < 2 ^ 64 }
    ensures value { result ≡ number_at (B.bytes bytes.now) pa len }
    ensures fits { result < 2 ^ (8 * len) }
    ensures small { (at : ℕ) → pa ≤ at → at < pa + len → B.bytes bytes.now at < 256 }
{
    let mut number = 0;
    let mut k = u64::from(len);
    while k > 0 {
        k -= 1;
        number = number * 256 + u64::from(bytes.byte(pa + k));
    }
    number
}

/// Puts the low `len` bytes of a number at an address, within one page that was admitted.
pub fn put_number<M: ByteMem>(mem: &mut M, pa: u64, len: u8, value: u64)
    requires at_most_8 { len ≤ 8 }
    requires inside { pa + len < 2 ^ 64 }
    requires page { pa % PAGE_SIZE + len ≤ PAGE_SIZE }
    requires admitted { M.admits mem.old (pa / PAGE_SIZE) }
    ensures bytes { M.bytes mem.new ≡ bytes_after_store pa len value (M.bytes mem.old) }
    ensures keeps { (page : ℕ) → M.admits mem.old page → M.admits mem.new page }
    ensures ram { M.ram mem.new ≡ M.ram mem.old }
{
    let mut rest = value;
    for k in 0..u64::from(len) {
        mem.set(pa + k, (rest % 256) as u8);
        rest /= 256;
    }
}
