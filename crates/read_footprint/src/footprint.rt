//! The two sets of addresses that rows leave.

ghost use Rattle.std.specs.Prelude.{◌≡◌, ◌≤◌, ◌<◌, ◌+◌, ◌%◌, ◌^◌, All, length, nat_eq};
ghost use Rattle.std.specs.Bool.{Decides};
ghost use Rattle.std.specs.HashMap.{get};
ghost use Rattle.read_footprint.specs.declared.footprint.TheConstants.{RECENT_BLOCKS};
ghost use Rattle.read_footprint.specs.NotedBytes.{AreNoted};

use crate::block::{BLOCK_SIZE, Block, bits_of};
use crate::bytes::{move_bytes, same_bytes};
use crate::noted_bytes::NotedBytes;
use hart_words::{NoMemory, PAGE_SIZE, PhysMem, Read, Seen, Write, Wrote};
use std::alloc::Global;
use std::collections::HashMap;

/// An access has at most 255 bytes, which lie in at most 5 blocks.
const MOST_BLOCKS: usize = 5;

/// Of how many blocks that were read last it is remembered what is noted.
const RECENT_BLOCKS: usize = 8;

/// How many blocks a page has.
const PAGE_BLOCKS: u64 = PAGE_SIZE / BLOCK_SIZE;

/// Whether a read goes on where another ends, and both are short.
fn goes_on(one: &Read, next: &Read) -> bool
    ensures { Decides result ((one.now.len ≤ 8) × (next.now.len ≤ 8)
        × (next.now.pa ≡ (one.now.pa + one.now.len) % 2 ^ 64)) }
{
    one.len <= 8 && next.len <= 8 && next.pa == one.pa.wrapping_add(u64::from(one.len))
}

/// The place at which a block is remembered. Its page counts too: the tables of an address often
/// are read at the same place of different pages.
fn place_of(number: u64) -> usize
    ensures { result < RECENT_BLOCKS }
{
    (number ^ (number / PAGE_BLOCKS)) as usize % RECENT_BLOCKS
}

/// Which bytes rows read that none of them had written before, and which they wrote.
#[derive(Drop)]
pub struct Footprint {
    blocks: HashMap<u64, Block>,
    /// What is noted of a few blocks that were read last, each at the place of its number: most
    /// reads are among them, and need no search.
    recent_blocks: [NotedBytes; RECENT_BLOCKS],
    ghost each: { length recent_blocks ≡ RECENT_BLOCKS },
    ghost noted: { All (AreNoted (get nat_eq blocks)) recent_blocks },
}

impl Footprint {
    ghost use Rattle.std.specs.Prelude.{◌≡◌, ◌≤◌, ◌<◌, ◌+◌, ◌*◌, ◌/◌, ◌%◌, ℕ, Bool, true, false, ◌==◌, ◌&&◌, ◌||◌, not, List, [], ◌∷◌, ◌++◌, All, length, nat_le, nat_lt, nat_eq, is_some, None, IfSome, OnOk, OnErr, ◌⊎◌, if◌then◌else◌};
    ghost use Rattle.std.specs.Bool.{Decides};
    ghost use Rattle.std.specs.HashMap.{get, spare};
    ghost use Rattle.hart_words.specs.Memory.{is_within};
    ghost use Rattle.hart_words.specs.declared.accesses.Read.{Read};
    ghost use Rattle.hart_words.specs.declared.accesses.Write.{Write};
    ghost use Rattle.read_footprint.specs.Bits.{has_bit};
    ghost use Rattle.read_footprint.specs.Footprints.{Accesses, agree, footprint_of, is_written, moved, writes_of};
    ghost use Rattle.read_footprint.specs.Sets.{ArePartlyMoved, IsAsBefore, IsNarrow, IsFootprintOf, LiesInRam, footprint_block_at, has_read, has_written, is_read, NotesBlock};

    /// Nothing read or written. It takes no memory.
    pub fn empty(alloc: Global) -> Footprint
        ensures none { IsFootprintOf result [] }
        ensures read { (address : ℕ) → has_read result address ≡ false }
        ensures wrote { (address : ℕ) → has_written result address ≡ false }
    {
        Footprint {
            blocks: HashMap::new(alloc),
            recent_blocks: [NotedBytes::empty(); RECENT_BLOCKS],
        }
    }

    /// Adds what one row more read, and then what it wrote. A refused one changes neither set.
    pub fn add(&mut self, seen: &Seen, wrote: &Wrote) -> Result<(), NoMemory>
        requires reads { All (λ (read : Read). IsNarrow read.pa read.len) seen.now }
        requires writes { All (λ (write : Write). IsNarrow write.pa write.len) wrote.now }
        ensures read { OnOk result ((address : ℕ) → has_read self.new address
            ≡ (has_read self.old address
            || (is_read seen.now address && not (has_written self.old address)))) }
        ensures wrote { OnOk result ((address : ℕ) → has_written self.new address
            ≡ (has_written self.old address || is_written wrote.now address)) }
        ensures rows { OnOk result ((rows : List Accesses) → IsFootprintOf self.old rows
            → IsFootprintOf self.new
            (rows ++ record { reads = seen.now; wrote = wrote.now } ∷ [])) }
        ensures err { OnErr result (IsAsBefore self.old self.new) }
    {
        let reads = seen.as_slice();
        let writes = wrote.as_slice();
        let accesses = reads.len() + writes.len();
        self.blocks.reserve(accesses * MOST_BLOCKS)?;
        self.note_reads(reads);
        self.note_writes(writes);
        Ok(())
    }

    /// Whether two memories agree on each byte that was read.
    pub fn agree<M: PhysMem, N: PhysMem>(&self, one: &M, other: &N) -> bool
        requires one { LiesInRam (M.ram one.now) self.now }
        requires other { LiesInRam (N.ram other.now) self.now }
        ensures same { Decides result ((address : ℕ) → has_read self.now address ≡ true
            → N.bytes other.now address ≡ M.bytes one.now address) }
        ensures rows { (rows : List Accesses) → IsFootprintOf self.now rows
            → result ≡ agree (M.bytes one.now) (N.bytes other.now) (footprint_of rows) }
    {
        for (number, block) in self.blocks.iter() {
            if !same_bytes(one, other, *number, block.read) {
                return false;
            }
        }
        true
    }

    /// Makes each byte that was written what it is in another memory. A refused call leaves each
    /// byte as it was or as it is there.
    pub fn moved<M: PhysMem, N: PhysMem>(&self, memory: &mut M, judged: &N) -> Result<(), NoMemory>
        requires memory { LiesInRam (M.ram memory.old) self.now }
        requires judged { LiesInRam (N.ram judged.now) self.now }
        ensures ok { OnOk result ((address : ℕ) → M.bytes memory.new address
            ≡ (if has_written self.now address then N.bytes judged.now address
            else M.bytes memory.old address)) }
        ensures rows { OnOk result ((rows : List Accesses) → IsFootprintOf self.now rows
            → M.bytes memory.new
            ≡ moved (writes_of rows) (N.bytes judged.now) (M.bytes memory.old)) }
        ensures either { ArePartlyMoved (has_written self.now) (N.bytes judged.now)
            (M.bytes memory.old) (M.bytes memory.new) }
        ensures ram { M.ram memory.new ≡ M.ram memory.old }
    {
        for (number, block) in self.blocks.iter() {
            move_bytes(memory, judged, *number, block.wrote)?;
        }
        Ok(())
    }

    /// Notes reads.
    fn note_reads(&mut self, reads: &[Read])
        requires narrow { All (λ (read : Read). IsNarrow read.pa read.len) reads.now }
        requires room { 5 * length reads.now ≤ spare self.old.blocks }
        ensures read { (address : ℕ) → has_read self.new address
            ≡ (has_read self.old address
            || (is_read reads.now address && not (has_written self.old address))) }
        ensures wrote { (address : ℕ) → has_written self.new address
            ≡ has_written self.old address }
        ensures room { spare self.old.blocks ≤ spare self.new.blocks + 5 * length reads.now }
    {
        match reads {
            [] => {}
            // The parcels of an instruction mostly follow one another.
            [one, next, rest @ ..] if goes_on(one, next) => {
                self.note_read(one.pa, one.len + next.len);
                self.note_reads(rest);
            }
            [read, rest @ ..] => {
                self.note_read(read.pa, read.len);
                self.note_reads(rest);
            }
        }
    }

    /// Notes writes.
    fn note_writes(&mut self, writes: &[Write])
        requires narrow { All (λ (write : Write). IsNarrow write.pa write.len) writes.now }
        requires room { 5 * length writes.now ≤ spare self.old.blocks }
        ensures read { (address : ℕ) → has_read self.new address ≡ has_read self.old address }
        ensures wrote { (address : ℕ) → has_written self.new address
            ≡ (has_written self.old address || is_written writes.now address) }
        ensures room { spare self.old.blocks ≤ spare self.new.blocks + 5 * length writes.now }
    {
        if let Some((write, rest)) = writes.split_first() {
            self.note_write(write.pa, write.len);
            self.note_writes(rest);
        }
    }

    /// Notes that so many bytes were read from an address on.
    fn note_read(&mut self, pa: u64, len: u8)
        requires narrow { IsNarrow pa len }
        requires room { 5 ≤ spare self.old.blocks }
        ensures read { (address : ℕ) → has_read self.new address
            ≡ (has_read self.old address
            || (is_within pa len address && not (has_written self.old address))) }
        ensures wrote { (address : ℕ) → has_written self.new address
            ≡ has_written self.old address }
        ensures room { spare self.old.blocks ≤ spare self.new.blocks + 5 }
    {
        if !self.recent_block(pa / BLOCK_SIZE).has_all(pa, len) {
            self.note_read_blocks(pa, len);
        }
    }

    /// What is remembered of a block, or of another one.
    fn recent_block(&self, number: u64) -> NotedBytes
        ensures { AreNoted (get nat_eq self.now.blocks) result }
    {
        self.recent_blocks[place_of(number)]
    }

    /// Remembers what is noted of a block.
    fn remember(&mut self, number: u64, block: Block)
        requires { footprint_block_at self.old number ≡ block }
        ensures same { IsAsBefore self.old self.new }
        ensures room { spare self.new.blocks ≡ spare self.old.blocks }
    {
        self.recent_blocks[place_of(number)] = NotedBytes {
            number,
            bytes: block.noted(),
        };
    }

    /// Notes that so many bytes were read from an address on, in their blocks.
    fn note_read_blocks(&mut self, pa: u64, len: u8)
        requires narrow { IsNarrow pa len }
        requires room { 5 ≤ spare self.old.blocks }
        ensures read { (address : ℕ) → has_read self.new address
            ≡ (has_read self.old address
            || (is_within pa len address && not (has_written self.old address))) }
        ensures wrote { (address : ℕ) → has_written self.new address
            ≡ has_written self.old address }
        ensures room { spare self.old.blocks ≤ spare self.new.blocks + 5 }
    {
        let end = pa + u64::from(len);
        for number in pa / BLOCK_SIZE..(end + (BLOCK_SIZE - 1)) / BLOCK_SIZE {
            let read = bits_of(number, pa, end);
            let block = self.note(number, Block { read, wrote: 0 });
            self.remember(number, block);
        }
    }

    /// Notes that so many bytes were written from an address on.
    fn note_write(&mut self, pa: u64, len: u8)
        requires narrow { IsNarrow pa len }
        requires room { 5 ≤ spare self.old.blocks }
        ensures read { (address : ℕ) → has_read self.new address ≡ has_read self.old address }
        ensures wrote { (address : ℕ) → has_written self.new address
            ≡ (has_written self.old address || is_within pa len address) }
        ensures room { spare self.old.blocks ≤ spare self.new.blocks + 5 }
    {
        let end = pa + u64::from(len);
        for number in pa / BLOCK_SIZE..(end + (BLOCK_SIZE - 1)) / BLOCK_SIZE {
            let wrote = bits_of(number, pa, end);
            self.note(number, Block { read: 0, wrote });
        }
    }

    /// Notes what came later of a block, and gives what is then noted of it.
    fn note(&mut self, number: u64, later: Block) -> Block
        requires room { 1 ≤ spare self.old.blocks }
        ensures noted { NotesBlock number later self.old self.new }
        ensures block { footprint_block_at self.new number ≡ result }
        ensures room { spare self.old.blocks ≤ spare self.new.blocks + 1 }
    {
        if let Some(block) = self.note_known(number, later) {
            return block;
        }
        match self.blocks.insert(number, later) {
            Ok(_) => later,
            Err(_) => unreachable!(),
        }
    }

    /// Notes what came later of a block, if the block is there.
    fn note_known(&mut self, number: u64, later: Block) -> Option<Block>
        ensures noted { IfSome result (λ _. NotesBlock number later self.old self.new) }
        ensures block { IfSome result (λ block. footprint_block_at self.new number ≡ block) }
        ensures same { result ≡ None → IsAsBefore self.old self.new }
        ensures absent { result ≡ None → is_some (get nat_eq self.new.blocks number) ≡ false }
        ensures room { spare self.new.blocks ≡ spare self.old.blocks }
    {
        let block = self.blocks.get_mut(&number)?;
        *block = block.then(later);
        Some(*block)
    }
}
