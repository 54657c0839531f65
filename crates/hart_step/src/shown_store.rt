//! The bytes that a row shows a store to put into memory.

ghost use Rattle.std.specs.Prelude.{◌≡◌, ◌<◌, ◌≤◌, ◌-◌, ◌/◌, ◌^◌, ℕ, [], IfSome, IsOk, IsTrue, OnErr, OnOk, true, unwrap_or};
ghost use Rattle.hart_words.specs.Memory.{Bytes, after_writes, bytes_after_store};
ghost use Rattle.hart_words.specs.Spans.{IsPlace, is_in};
ghost use Rattle.rvfi_rows.specs.Cells.{shown_in};
ghost use Rattle.hart_step.specs.TakenRows.{is_in_page, len_of_mask};

use csr_file::has_bit;
use hart_words::{NoMemory, PAGE_SIZE, PhysMem, Signal, Span, Wrote};
use rvfi_rows::{Row, moved_down};

/// Where a store's bytes go, which of eight bytes do, and the eight, the lowest first.
#[derive(Clone, Copy, Debug)]
pub struct ShownStore {
    pub place: u64,
    /// Bit i says whether byte i is stored, at `place` + i modulo 2^64; it may have holes.
    pub mask: u64,
    pub value: u64,
}

impl ShownStore {
    ghost use Rattle.hart_step.specs.PlainRows.{byte_place, byte_put, bytes_put, stores_byte, store_shown, AreReady};
    ghost use Rattle.hart_step.specs.TakenRows.{byte_writes, len_at_once, writes_of};

    /// The store that the row shows: at `mem_paddr`, or at `mem_addr` where that is not shown.
    #[tactic(auto, unfolding(crate::specs::PlainRows::store_shown))]
    pub fn of(row: &Row) -> ShownStore
        ensures { result ≡ store_shown (shown_in row.now) }
    {
        ShownStore {
            place: place_shown(row.shown(Signal::MemPaddr), row.shown(Signal::MemAddr)),
            mask: row.shown(Signal::MemWmask).unwrap_or(0),
            value: row.shown(Signal::MemWdata).unwrap_or(0),
        }
    }

    /// Puts the bytes that lie in RAM at their places. Without memory no byte changes.
    pub fn put<M: PhysMem>(&self, mem: &mut M, ram: &Span) -> Result<(), NoMemory>
        requires ram { M.ram mem.old ≡ ram.now }
        ensures ok { OnOk result
            (M.bytes mem.new ≡ bytes_put ram.now self.now 8 (M.bytes mem.old)) }
        ensures err { OnErr result (M.bytes mem.new ≡ M.bytes mem.old) }
        ensures ram_stays { M.ram mem.new ≡ M.ram mem.old }
    {
        match self.len_at_once(ram) {
            Some(len) => mem.write(self.place, len, self.value),
            None => self.put_bytes(mem, ram),
        }
    }

    /// How many bytes one write puts, where it puts all that are stored: they are the low ones, and
    /// lie in one page of RAM. Most stores are such, and one write costs less than eight.
    #[tactic(auto, using(crate::proofs::WholeStores::put_at_once))]
    fn len_at_once(&self, ram: &Span) -> Option<u8>
        ensures value { result ≡ len_at_once ram.now self.now }
        ensures place { IfSome result (λ len. IsPlace ram.now self.now.place len) }
        ensures whole { IfSome result (λ len. (bytes : Bytes) → bytes_put ram.now self.now 8 bytes
            ≡ bytes_after_store self.now.place len self.now.value bytes) }
    {
        match len_of_mask(self.mask) {
            Some(len) if is_in_page(ram, self.place, len) => Some(len),
            _ => None,
        }
    }

    /// The writes that put the bytes that lie in RAM.
    #[tactic(auto, using(crate::proofs::TakenWrites::bytes_written), unfolding(crate::specs::TakenRows::writes_of, hart_words::specs::Memory::after_writes))]
    pub fn writes(&self, ram: &Span) -> Wrote
        ensures value { result ≡ writes_of ram.now self.now }
        ensures bytes { (bytes : Bytes) → after_writes result bytes
            ≡ bytes_put ram.now self.now 8 bytes }
    {
        let mut wrote = Wrote::empty();
        match self.len_at_once(ram) {
            Some(len) => wrote.put(self.place, len, self.value),
            None => self.note_bytes(ram, &mut wrote),
        }
        wrote
    }

    /// Notes a write for each byte that lies in RAM.
    #[tactic(auto, unfolding(crate::specs::TakenRows::byte_writes))]
    fn note_bytes(&self, ram: &Span, wrote: &mut Wrote)
        requires { wrote.old ≡ [] }
        ensures { wrote.new ≡ byte_writes ram.now self.now 8 }
    {
        for number in 0..8 {
            if self.has_byte(ram, number) {
                let value = moved_down(self.value, u64::from(number));
                wrote.put(self.byte_place(number), 1, value);
            }
        }
    }

    /// Puts the bytes one by one. Their pages are made ready first, so that none is put where a
    /// later one is refused.
    #[tactic(auto, unfolding(crate::specs::PlainRows::bytes_put))]
    fn put_bytes<M: PhysMem>(&self, mem: &mut M, ram: &Span) -> Result<(), NoMemory>
        requires ram { M.ram mem.old ≡ ram.now }
        ensures ok { OnOk result
            (M.bytes mem.new ≡ bytes_put ram.now self.now 8 (M.bytes mem.old)) }
        ensures err { OnErr result (M.bytes mem.new ≡ M.bytes mem.old) }
        ensures ram_stays { M.ram mem.new ≡ M.ram mem.old }
    {
        self.ready(mem, ram)?;
        for number in 0..8 {
            self.put_byte(mem, ram, number)?;
        }
        Ok(())
    }

    /// Takes what memory the pages need in which bytes are stored.
    fn ready<M: PhysMem>(&self, mem: &mut M, ram: &Span) -> Result<(), NoMemory>
        requires ram { M.ram mem.old ≡ ram.now }
        ensures ready { OnOk result (AreReady (M.is_ready mem.new) ram.now self.now 8) }
        ensures bytes { M.bytes mem.new ≡ M.bytes mem.old }
        ensures ram_stays { M.ram mem.new ≡ M.ram mem.old }
    {
        for number in 0..8 {
            self.ready_byte(mem, ram, number)?;
        }
        Ok(())
    }

    /// Takes what memory the page of a byte needs, where the byte is stored.
    fn ready_byte<M: PhysMem>(&self, mem: &mut M, ram: &Span, number: u8) -> Result<(), NoMemory>
        requires ram { M.ram mem.old ≡ ram.now }
        ensures ready { OnOk result (stores_byte ram.now self.now number ≡ true
            → M.is_ready mem.new (byte_place self.now number / PAGE_SIZE)) }
        ensures kept { (page : ℕ) → M.is_ready mem.old page → M.is_ready mem.new page }
        ensures bytes { M.bytes mem.new ≡ M.bytes mem.old }
        ensures ram_stays { M.ram mem.new ≡ M.ram mem.old }
    {
        if self.has_byte(ram, number) {
            mem.ready(self.byte_place(number))?;
        }
        Ok(())
    }

    /// Puts a byte at its place, where it is stored; this is not refused where its page is ready.
    fn put_byte<M: PhysMem>(&self, mem: &mut M, ram: &Span, number: u8) -> Result<(), NoMemory>
        requires ram { M.ram mem.old ≡ ram.now }
        requires below_8 { number < 8 }
        ensures ok { OnOk result
            (M.bytes mem.new ≡ byte_put ram.now self.now number (M.bytes mem.old)) }
        ensures admitted { (stores_byte ram.now self.now number ≡ true
            → M.is_ready mem.old (byte_place self.now number / PAGE_SIZE)) → IsOk result }
        ensures kept { (page : ℕ) → M.is_ready mem.old page → M.is_ready mem.new page }
        ensures ram_stays { M.ram mem.new ≡ M.ram mem.old }
    {
        if self.has_byte(ram, number) {
            let value = moved_down(self.value, u64::from(number));
            mem.write(self.byte_place(number), 1, value)?;
        }
        Ok(())
    }

    /// Whether a byte is stored: the mask has it, and its place is RAM.
    fn has_byte(&self, ram: &Span, number: u8) -> bool
        ensures value { result ≡ stores_byte ram.now self.now number }
        ensures place { IsTrue result → IsPlace ram.now (byte_place self.now number) 1 }
    {
        has_bit(self.mask, number) && is_byte_of(ram, self.byte_place(number))
    }

    fn byte_place(&self, number: u8) -> u64
        ensures { result ≡ byte_place self.now number }
    {
        self.place.wrapping_add(u64::from(number))
    }
}

/// The physical address, or else the virtual one.
fn place_shown(physical: Option<u64>, address: Option<u64>) -> u64
    ensures { result ≡ unwrap_or physical (unwrap_or address 0) }
{
    match physical {
        Some(place) => place,
        None => address.unwrap_or(0),
    }
}

/// How many bytes a mask has, where these are the low 1, 2, 4 or 8.
fn len_of_mask(mask: u64) -> Option<u8>
    ensures value { result ≡ len_of_mask mask }
    ensures len { IfSome result (λ len. (1 ≤ len) × (len ≤ 8)) }
    ensures mask { IfSome result (λ len. mask ≡ 2 ^ len - 1) }
{
    match mask {
        0x01 => Some(1),
        0x03 => Some(2),
        0x0f => Some(4),
        0xff => Some(8),
        _ => None,
    }
}

/// Whether so many bytes, 1 to 8, lie in RAM and in one page.
fn is_in_page(ram: &Span, pa: u64, len: u8) -> bool
    requires some { 1 ≤ len }
    requires few { len ≤ 8 }
    ensures value { result ≡ is_in_page ram.now pa len }
    ensures place { IsTrue result → IsPlace ram.now pa len }
{
    ram.holds(pa, len) && pa % PAGE_SIZE + u64::from(len) <= PAGE_SIZE
}

/// Whether the byte at an address is one of RAM.
fn is_byte_of(ram: &Span, pa: u64) -> bool
    ensures value { result ≡ is_in ram.now pa }
    ensures place { IsTrue result → IsPlace ram.now pa 1 }
{
    ram.contains(pa)
}
