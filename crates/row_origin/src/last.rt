//! The last writers of registers and bytes.

ghost use Rattle.std.specs.Prelude.{◌≡◌, ◌≤◌, ◌<◌, ◌+◌, ◌*◌, ◌++◌, ◌==◌, ◌&&◌, ℕ, [], ◌∷◌, length, if◌then◌else◌};
ghost use Rattle.std.specs.HashMap.{spare};
ghost use Rattle.std.specs.List.{All};
ghost use Rattle.hart_words.specs.Memory.{is_within};
ghost use Rattle.hart_words.specs.declared.accesses.Read.{Read};
ghost use Rattle.hart_words.specs.declared.accesses.Write.{Write};
ghost use Rattle.row_origin.specs.Last.{IsNarrow, byte_at};
ghost use Rattle.row_origin.specs.Places.{as_row, row_at};
ghost use Rattle.row_origin.specs.Sources.{is_kept, is_written, register_written};

use crate::block::BLOCK_SIZE;
use crate::origins::{ByteOrigin, MOST_BYTES, MOST_REGISTERS, Origins, RegisterOrigin};
use crate::places::Places;
use crate::sources::{effects, first_len, is_kept};
use hart_words::{NoMemory, Read, Write};
use rvfi_rows::{Accessed, Effects, Expected, Stepped};
use std::alloc::Global;

/// A write has at most 255 bytes, which lie in at most 9 blocks.
const MOST_BLOCKS: usize = 9;

/// For each register of each hart, and for each byte, the row that wrote it last. Rows are numbered
/// from 1.
#[derive(Drop)]
pub struct Last {
    /// By the number of the hart, and that of the register.
    registers: Places,
    /// By the address divided by 32, and the rest.
    bytes: Places,
}

impl Last {
    ghost use Rattle.std.specs.Prelude.{Some, OnOk, OnErr};
    ghost use Rattle.std.specs.List.{filter};
    ghost use Rattle.row_origin.specs.Last.{CountsFrom, IsAsBefore, IsLastOf, byte_in, register_in};
    ghost use Rattle.row_origin.specs.Origins.{byte_origins, bytes_in, origins_in, origins_of, register_origins, registers_in};
    ghost use Rattle.row_origin.specs.Sources.{addresses_from, addresses_of, in_order, load_of, one_part, parts_in, parts_of, registers_read, two_parts};
    ghost use Rattle.row_origin.specs.Trails.{RowFacts, Trail, facts_of};

    /// Those of no row. It takes no memory.
    pub fn empty(alloc: Global) -> Last
        ensures { IsLastOf result [] }
    {
        Last {
            registers: Places::empty(alloc),
            bytes: Places::empty(alloc),
        }
    }

    /// Adds what the step of one row more did. A refused one changes nothing.
    pub fn add(&mut self, stepped: &Stepped, hart: u64, row: u64) -> Result<(), NoMemory>
        requires { All (λ (write : Write). IsNarrow write.pa write.len) stepped.now.wrote }
        ensures ok { OnOk result ((trail : Trail) → IsLastOf self.old trail
            → length trail + 1 ≡ row
            → IsLastOf self.new (trail ++ Some (facts_of stepped.now hart) ∷ [])) }
        ensures err { OnErr result (IsAsBefore self.old self.new) }
    {
        let writes = stepped.wrote.as_slice();
        self.registers.reserve(1)?;
        self.bytes.reserve(writes.len() * MOST_BLOCKS)?;
        note_register(&mut self.registers, &stepped.expected, hart, row);
        note_writes(&mut self.bytes, writes, row);
        Ok(())
    }

    /// Puts those of later rows over these. A base is added to the numbers of the later rows. A
    /// refused one changes nothing.
    pub fn lay_over(&mut self, later: &Last, base: u64) -> Result<(), NoMemory>
        requires { CountsFrom base later.now }
        ensures ok { OnOk result ((before after : Trail) → IsLastOf self.old before
            → IsLastOf later.now after → base ≡ length before
            → IsLastOf self.new (before ++ after)) }
        ensures err { OnErr result (IsAsBefore self.old self.new) }
    {
        self.registers.reserve(later.registers.len())?;
        self.bytes.reserve(later.bytes.len())?;
        self.registers.lay_over(&later.registers, base);
        self.bytes.lay_over(&later.bytes, base);
        Ok(())
    }

    /// Who wrote what a row read, given what its step did.
    pub fn of(&self, stepped: &Stepped, hart: u64) -> Origins
        requires { All (λ (read : Read). IsNarrow read.pa read.len) stepped.now.seen }
        ensures { (trail : Trail) → IsLastOf self.now trail
            → origins_in result ≡ origins_of trail (facts_of stepped.now hart) }
    {
        self.origins_of(&stepped.expected, stepped.seen.as_slice(), hart)
    }

    /// The same, given what the row's hart did and all that its step read.
    pub(crate) fn origins_of(&self, expected: &Expected, reads: &[Read], hart: u64) -> Origins
        requires { All (λ (read : Read). IsNarrow read.pa read.len) reads.now }
        ensures { (trail : Trail) (facts : RowFacts) → IsLastOf self.now trail
            → facts.hart ≡ hart → facts.expected ≡ expected.now → facts.reads ≡ reads.now
            → origins_in result ≡ origins_of trail facts }
    {
        let mut origins = Origins::none();
        if let Some(effects) = effects(expected) {
            self.put_sources(effects, hart, &mut origins);
            self.put_load(effects, reads, &mut origins);
        }
        origins
    }

    /// The row that wrote a register last.
    fn register(&self, hart: u64, number: u8) -> Option<u64>
        requires { number < BLOCK_SIZE }
        ensures { result ≡ register_in self.now hart number }
    {
        self.registers.row(hart, u64::from(number))
    }

    /// The row that wrote the byte at an address last.
    fn byte(&self, address: u64) -> Option<u64>
        ensures { result ≡ byte_in self.now address }
    {
        self.bytes.row(address / BLOCK_SIZE, address % BLOCK_SIZE)
    }

    /// Adds the registers that an instruction read, rs1 first, once where both are one.
    fn put_sources(&self, effects: &Effects, hart: u64, origins: &mut Origins)
        requires { registers_in origins.old ≡ [] }
        ensures registers { registers_in origins.new ≡ register_origins
            (λ number. register_in self.now hart number)
            (filter is_kept (registers_read (Some effects.now))) }
        ensures bytes { bytes_in origins.new ≡ bytes_in origins.old }
    {
        self.put_source(effects.rs1, hart, origins);
        if effects.rs2 != effects.rs1 {
            self.put_source(effects.rs2, hart, origins);
        }
    }

    /// Adds a register that an instruction read, unless it is x0.
    fn put_source(&self, number: u8, hart: u64, origins: &mut Origins)
        requires { length (registers_in origins.old) < MOST_REGISTERS }
        ensures registers { registers_in origins.new ≡ registers_in origins.old
            ++ register_origins (λ number. register_in self.now hart number)
            (filter is_kept (number ∷ [])) }
        ensures bytes { bytes_in origins.new ≡ bytes_in origins.old }
    {
        if is_kept(number) {
            let row = self.register(hart, number);
            origins.put_register(RegisterOrigin { number, row });
        }
    }

    /// Adds the bytes that an instruction's data access read from RAM.
    fn put_load(&self, effects: &Effects, reads: &[Read], origins: &mut Origins)
        requires narrow { All (λ (read : Read). IsNarrow read.pa read.len) reads.now }
        requires none { bytes_in origins.old ≡ [] }
        ensures bytes { bytes_in origins.new ≡ byte_origins (byte_in self.now)
            (addresses_of (parts_in (load_of (Some effects.now)) reads.now)) }
        ensures registers { registers_in origins.new ≡ registers_in origins.old }
    {
        if let Some(access) = &effects.access {
            if access.read.is_some() {
                self.put_parts(access, reads, origins);
            }
        }
    }

    /// Adds the bytes that an access read from RAM.
    fn put_parts(&self, access: &Accessed, reads: &[Read], origins: &mut Origins)
        requires narrow { All (λ (read : Read). IsNarrow read.pa read.len) reads.now }
        requires none { bytes_in origins.old ≡ [] }
        ensures bytes { bytes_in origins.new ≡ byte_origins (byte_in self.now)
            (addresses_of (parts_of access.now reads.now)) }
        ensures registers { registers_in origins.new ≡ registers_in origins.old }
    {
        if MOST_BYTES < usize::from(access.len) {
            return;
        }
        let len = first_len(access.va, access.len);
        if len == access.len {
            self.put_one_part(access, &reads[reads.len().saturating_sub(1)..], origins);
        } else {
            self.put_two_parts(
                access,
                len,
                &reads[reads.len().saturating_sub(2)..],
                origins,
            );
        }
    }

    /// Adds the bytes of an access in one part, if it was read last.
    fn put_one_part(&self, access: &Accessed, reads: &[Read], origins: &mut Origins)
        requires narrow { All (λ (read : Read). IsNarrow read.pa read.len) reads.now }
        requires none { bytes_in origins.old ≡ [] }
        requires few { access.now.len ≤ MOST_BYTES }
        ensures bytes { bytes_in origins.new ≡ byte_origins (byte_in self.now)
            (addresses_of (one_part access.now reads.now)) }
        ensures registers { registers_in origins.new ≡ registers_in origins.old }
    {
        if let [read] = reads {
            if read.pa == access.pa && read.len == access.len {
                self.put_read(*read, origins);
            }
        }
    }

    /// Adds the bytes of an access in two parts, if they were read last: so many in the first.
    fn put_two_parts(&self, access: &Accessed, len: u8, reads: &[Read], origins: &mut Origins)
        requires narrow { All (λ (read : Read). IsNarrow read.pa read.len) reads.now }
        requires none { bytes_in origins.old ≡ [] }
        requires few { access.now.len ≤ MOST_BYTES }
        requires first { len ≤ access.now.len }
        ensures bytes { bytes_in origins.new ≡ byte_origins (byte_in self.now)
            (addresses_of (two_parts access.now len reads.now)) }
        ensures registers { registers_in origins.new ≡ registers_in origins.old }
    {
        if let [first, second] = reads {
            if first.pa == access.pa && first.len == len && second.len == access.len - len {
                self.put_in_order(*first, *second, origins);
            }
        }
    }

    /// Adds the bytes of two reads, first those with the lower addresses.
    fn put_in_order(&self, first: Read, second: Read, origins: &mut Origins)
        requires first { IsNarrow first.pa first.len }
        requires second { IsNarrow second.pa second.len }
        requires none { bytes_in origins.old ≡ [] }
        requires few { first.len + second.len ≤ MOST_BYTES }
        ensures bytes { bytes_in origins.new ≡ byte_origins (byte_in self.now)
            (addresses_of (in_order first second)) }
        ensures registers { registers_in origins.new ≡ registers_in origins.old }
    {
        if first.pa <= second.pa {
            self.put_read(first, origins);
            self.put_read(second, origins);
        } else {
            self.put_read(second, origins);
            self.put_read(first, origins);
        }
    }

    /// Adds the bytes of a read.
    fn put_read(&self, read: Read, origins: &mut Origins)
        requires narrow { IsNarrow read.pa read.len }
        requires room { length (bytes_in origins.old) + read.len ≤ MOST_BYTES }
        ensures bytes { bytes_in origins.new ≡ bytes_in origins.old
            ++ byte_origins (byte_in self.now) (addresses_from read.pa read.len) }
        ensures registers { registers_in origins.new ≡ registers_in origins.old }
    {
        for k in 0..u64::from(read.len) {
            let address = read.pa + k;
            let row = self.byte(address);
            origins.put_byte(ByteOrigin { address, row });
        }
    }
}

/// Notes the register that a row's step wrote.
fn note_register(registers: &mut Places, expected: &Expected, hart: u64, row: u64)
    requires { 1 ≤ spare registers.old.blocks }
    ensures { (q number : ℕ) → row_at registers.new q number
        ≡ (if is_kept number && (hart == q) && (register_written expected.now == number)
        then as_row row else row_at registers.old q number) }
{
    if let Some(effects) = effects(expected) {
        if is_kept(effects.rd) {
            let number = u64::from(effects.rd);
            registers.fill(hart, number, number + 1, row);
        }
    }
}

/// Notes the bytes that a row's step wrote.
fn note_writes(bytes: &mut Places, writes: &[Write], row: u64)
    requires narrow { All (λ (write : Write). IsNarrow write.pa write.len) writes.now }
    requires room { 9 * length writes.now ≤ spare bytes.old.blocks }
    ensures rows { (address : ℕ) → byte_at bytes.new address
        ≡ (if is_written writes.now address then as_row row else byte_at bytes.old address) }
    ensures room { spare bytes.old.blocks ≤ spare bytes.new.blocks + 9 * length writes.now }
{
    if let Some((write, rest)) = writes.split_first() {
        note_write(bytes, write.pa, write.len, row);
        note_writes(bytes, rest, row);
    }
}

/// Notes that a row's step wrote so many bytes from an address on.
fn note_write(bytes: &mut Places, pa: u64, len: u8, row: u64)
    requires narrow { IsNarrow pa len }
    requires room { 9 ≤ spare bytes.old.blocks }
    ensures rows { (address : ℕ) → byte_at bytes.new address
        ≡ (if is_within pa len address then as_row row else byte_at bytes.old address) }
    ensures room { spare bytes.old.blocks ≤ spare bytes.new.blocks + 9 }
{
    let end = pa + u64::from(len);
    for number in pa / BLOCK_SIZE..(end + (BLOCK_SIZE - 1)) / BLOCK_SIZE {
        let start = number * BLOCK_SIZE;
        let from = pa.max(start) - start;
        let to = end.min(start + BLOCK_SIZE) - start;
        bytes.fill(number, from, to, row);
    }
}
