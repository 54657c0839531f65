//! The bytes of an image and where they stand.

ghost use Rattle.std.specs.Prelude.{◌≡◌, length};
ghost use Rattle.hart_words.specs.declared.span.TheConstants.{PAGE_SIZE};

use hart_words::{PAGE_BYTES, PAGE_SIZE};
use std::alloc::{AllocError, Global};
use std::collections::BTreeMap;

/// 4,096 addresses, and the byte that each of them has.
#[derive(Drop)]
pub struct PiecePage {
    bytes: [Option<u8>; PAGE_BYTES],
    ghost full: { length bytes ≡ PAGE_SIZE },
}

impl PiecePage {
    ghost use Rattle.std.specs.Prelude.{◌≡◌, ℕ, ◌+◌, ◌<◌, ◌≤◌, None, unwrap_or, length, slice_index};
    ghost use Rattle.std.specs.List.{slice_index_or};
    ghost use Rattle.image_text.specs.Runs.{with_bytes};

    /// The bytes of the page, 0 where it has none.
    pub fn plain(&self) -> [u8; PAGE_BYTES]
        ensures len { length result ≡ PAGE_SIZE }
        ensures value { (k : ℕ) → k < PAGE_SIZE
            → slice_index result k ≡ unwrap_or (slice_index_or self.now.bytes k None) 0 }
        ensures small { (k : ℕ) → slice_index result k < 256 }
    {
        let mut plain = [0; PAGE_BYTES];
        for k in 0..PAGE_BYTES {
            plain[k] = self.bytes[k].unwrap_or(0);
        }
        plain
    }

    /// Puts bytes from an offset on.
    fn put_bytes(&mut self, offset: usize, bytes: &[u8])
        requires { offset + length bytes.now ≤ PAGE_SIZE }
        ensures { (k : ℕ) → slice_index_or self.new.bytes k None
            ≡ with_bytes (λ k. slice_index_or self.old.bytes k None) offset bytes.now k }
    {
        for (k, byte) in bytes.iter().enumerate() {
            self.bytes[offset + k] = Some(*byte);
        }
    }
}

/// The bytes of an image, in pages by their number.
#[derive(Drop)]
pub struct Pieces {
    pages: BTreeMap<u64, Box<PiecePage>>,
}

impl Pieces {
    ghost use Rattle.std.specs.Prelude.{◌≡◌, ◌+◌, ◌/◌, ◌%◌, ◌≤◌, None, OnOk, OnErr, IsTrue, length};
    ghost use Rattle.image_text.specs.Bytes.{byte_at, with_byte, has_page};
    ghost use Rattle.image_text.specs.Runs.{with_bytes};

    /// No bytes.
    #[tactic(auto, unfolding(crate::specs::Bytes::byte_at))]
    pub fn empty(alloc: Global) -> Pieces
        ensures { byte_at result ≡ (λ _. None) }
    {
        Pieces {
            pages: BTreeMap::new(alloc),
        }
    }

    /// The byte at an address, if it has one.
    #[tactic(auto, unfolding(crate::specs::Bytes::byte_at))]
    pub fn byte(&self, address: u64) -> Option<u8>
        ensures { result ≡ byte_at self.now address }
    {
        let page = self.pages.get(&(address / PAGE_SIZE))?;
        page.bytes[(address % PAGE_SIZE) as usize]
    }

    /// The pages by their number, which is an address divided by 4,096.
    pub fn pages(&self) -> &BTreeMap<u64, Box<PiecePage>>
        ensures { result.now ≡ self.now.pages }
    {
        &self.pages
    }

    /// Puts a byte at an address. Without memory no byte changes.
    pub fn put(&mut self, alloc: Global, address: u64, value: u8) -> Result<(), AllocError>
        ensures put { OnOk result (byte_at self.new ≡ with_byte (byte_at self.old) address value) }
        ensures err { OnErr result (byte_at self.new ≡ byte_at self.old) }
    {
        self.ready(alloc, address / PAGE_SIZE)?;
        self.set(address, value);
        Ok(())
    }

    /// Puts bytes from an address on, all of them in one page. Without memory no byte changes.
    pub fn put_bytes(&mut self, alloc: Global, address: u64, bytes: &[u8]) -> Result<(), AllocError>
        requires { address % PAGE_SIZE + length bytes.now ≤ PAGE_SIZE }
        ensures put { OnOk result
            (byte_at self.new ≡ with_bytes (byte_at self.old) address bytes.now) }
        ensures err { OnErr result (byte_at self.new ≡ byte_at self.old) }
    {
        self.ready(alloc, address / PAGE_SIZE)?;
        self.set_bytes(address, bytes);
        Ok(())
    }

    /// Adds a page with no byte, unless it is there.
    fn ready(&mut self, alloc: Global, number: u64) -> Result<(), AllocError>
        ensures ready { OnOk result (IsTrue (has_page self.new number)) }
        ensures same { byte_at self.new ≡ byte_at self.old }
    {
        if self.pages.contains_key(&number) {
            return Ok(());
        }
        let page = PiecePage {
            bytes: [None; PAGE_BYTES],
        };
        let page = Box::new(alloc, page)?;
        self.pages.insert(number, page)?;
        Ok(())
    }

    /// Puts a byte into a page that is there.
    fn set(&mut self, address: u64, value: u8)
        requires { IsTrue (has_page self.old (address / PAGE_SIZE)) }
        ensures { byte_at self.new ≡ with_byte (byte_at self.old) address value }
    {
        match self.pages.get_mut(&(address / PAGE_SIZE)) {
            Some(page) => page.bytes[(address % PAGE_SIZE) as usize] = Some(value),
            None => unreachable!(),
        }
    }
    /// Puts bytes into a page that is there.
    fn set_bytes(&mut self, address: u64, bytes: &[u8])
        requires page { IsTrue (has_page self.old (address / PAGE_SIZE)) }
        requires within { address % PAGE_SIZE + length bytes.now ≤ PAGE_SIZE }
        ensures { byte_at self.new ≡ with_bytes (byte_at self.old) address bytes.now }
    {
        match self.pages.get_mut(&(address / PAGE_SIZE)) {
            Some(page) => page.put_bytes((address % PAGE_SIZE) as usize, bytes),
            None => unreachable!(),
        }
    }
}
