//! Memory by virtual addresses. From the Privileged Architecture's chapters "Supervisor-Level ISA"
//! and "Machine-Level ISA".

ghost use Rattle.std.specs.Prelude.{◌≡◌, ◌≤◌, ◌<◌, ◌+◌, ◌-◌, ◌*◌, ◌%◌, ◌^◌, ℕ, false, length, IfOk, [], ◌∷◌, ◌++◌};
ghost use Rattle.hart_words.specs.declared.span.TheConstants.{PAGE_SIZE};
ghost use Rattle.hart_words.specs.declared.options.Marks.TheVariants.{Fault};
ghost use Rattle.hart_words.specs.Spans.{IsPlace};
ghost use Rattle.hart_words.specs.Actions.{Notes};
ghost use Rattle.hart_words.specs.Memory.{after_writes, number_at};
ghost use Rattle.mem_access.specs.Accesses.{joined_value, part_place_of, value_at};
ghost use Rattle.mem_access.specs.Translation.{is_readable, is_settable, is_translated, virtual_place_of, physical_address_of, walk_flags_of};

use crate::place::{AccessRequest, Place, is_allowed, is_machine, place_of};
use csr_file::fields::{BARE, MXR, SATP_MODE, SUM};
use csr_file::{Csrs, StoredCsr, has_bit};
use hart_words::{
    Access, Cause, Choices, MOST_READS, MOST_SETS, Map, Mode, PhysMem, Read, Seen, Sets, WalkFlags,
    WalkMem,
};
use sv39_walk::{ENTRY_SIZE, translate};

/// The most entries of page tables that a translation reads.
pub const WALK_READS: usize = 3;

/// The most entries of page tables that a translation sets.
pub const WALK_SETS: usize = 1;

/// Memory with what governs the accesses of an instruction to it. The memory's RAM is the map's.
#[derive(Drop)]
pub struct AddressSpace<'a, M: PhysMem> {
    pub mem: &'a M,
    pub csrs: &'a Csrs,
    pub map: &'a Map,
    pub choices: &'a Choices,
    /// The mode of the instruction.
    pub mode: Mode,
    ghost ram: { M.ram mem.now ≡ map.now.ram },
}

impl<'a, M: PhysMem> WalkMem for AddressSpace<'a, M> {
    ghost bytes = { λ space. M.bytes space.mem.now };

    ghost is_readable = { λ space pa. is_readable space.csrs.now space.map.now pa };

    ghost is_settable = { λ space pa. is_settable space.csrs.now space.map.now pa };

    fn entry(&self, pa: u64) -> Option<u64> {
        if !self.map.ram.holds(pa, ENTRY_SIZE) {
            return None;
        }
        if !is_allowed(self.csrs, Mode::Supervisor, pa, ENTRY_SIZE, Access::Load) {
            return None;
        }
        Some(self.mem.read(pa, ENTRY_SIZE))
    }

    fn may_set(&self, pa: u64) -> bool {
        self.map.ram.holds(pa, ENTRY_SIZE)
            && is_allowed(self.csrs, Mode::Supervisor, pa, ENTRY_SIZE, Access::Store)
    }
}

impl<'a, M: PhysMem> AddressSpace<'a, M> {
    /// The place of an access to a virtual address, with its translation where it is translated.
    /// What is read of page tables is noted in `seen`, three reads at most, and what is set there
    /// in `sets`, one entry at most.
    #[tactic(auto, unfolding(crate::specs::Translation::virtual_place_of))]
    pub fn reach(
        &self,
        request: AccessRequest,
        va: u64,
        seen: &mut Seen,
        sets: &mut Sets,
    ) -> Result<Place, Cause>
        requires nonempty { 1 ≤ request.len }
        requires at_most_8 { request.len ≤ 8 }
        requires page { va % PAGE_SIZE + request.len ≤ PAGE_SIZE }
        requires room { length seen.old + WALK_READS ≤ MOST_READS }
        requires sets { length sets.old < MOST_SETS }
        ensures reached { let space = self.now in
            Notes (virtual_place_of space.csrs.now space.map.now space.choices.now request va)
            result seen.old seen.new sets.old sets.new (M.bytes space.mem.now) }
        ensures walk_reads { length seen.new ≤ length seen.old + WALK_READS }
        ensures walk_sets { length sets.new ≤ length sets.old + WALK_SETS }
        ensures walk_sets_none { self.now.choices.now.marks ≡ Fault → sets.new ≡ sets.old }
        ensures memory { request.devices ≡ false → IfOk result (λ place. place.is_device ≡ false) }
        ensures placed { IfOk result (λ place. place.is_device ≡ false
            → IsPlace self.now.map.now.ram place.pa request.len) }
    {
        match self.translate(request, va, seen, sets) {
            Err(cause) => Err(cause),
            Ok(pa) => place_of(self.csrs, self.map, request, pa),
        }
    }

    /// The place of a part of an access, or the exception, with the part's address as its value.
    #[tactic(auto, unfolding(crate::specs::Accesses::part_place_of))]
    pub fn part_place(
        &self,
        request: AccessRequest,
        va: u64,
        seen: &mut Seen,
        sets: &mut Sets,
    ) -> Result<Place, (Cause, u64)>
        requires nonempty { 1 ≤ request.len }
        requires at_most_8 { request.len ≤ 8 }
        requires page { va % PAGE_SIZE + request.len ≤ PAGE_SIZE }
        requires room { length seen.old + WALK_READS ≤ MOST_READS }
        requires sets { length sets.old < MOST_SETS }
        ensures found { let space = self.now in
            Notes (part_place_of space.csrs.now space.map.now space.choices.now request
            (record { va = va; len = request.len }))
            result seen.old seen.new sets.old sets.new (M.bytes space.mem.now) }
        ensures walk_reads { length seen.new ≤ length seen.old + WALK_READS }
        ensures walk_sets { length sets.new ≤ length sets.old + WALK_SETS }
        ensures walk_sets_none { self.now.choices.now.marks ≡ Fault → sets.new ≡ sets.old }
        ensures memory { request.devices ≡ false → IfOk result (λ place. place.is_device ≡ false) }
        ensures placed { IfOk result (λ place. place.is_device ≡ false
            → IsPlace self.now.map.now.ram place.pa request.len) }
    {
        match self.reach(request, va, seen, sets) {
            Err(cause) => Err((cause, va)),
            Ok(place) => Ok(place),
        }
    }

    /// The physical address of a virtual one; its place in a page of 4 KiB stays.
    #[tactic(auto, unfolding(crate::specs::Translation::physical_address_of))]
    fn translate(
        &self,
        request: AccessRequest,
        va: u64,
        seen: &mut Seen,
        sets: &mut Sets,
    ) -> Result<u64, Cause>
        requires room { length seen.old + WALK_READS ≤ MOST_READS }
        requires sets { length sets.old < MOST_SETS }
        ensures translated { let space = self.now in
            Notes (physical_address_of space.csrs.now space.map.now space.choices.now request va)
            result seen.old seen.new sets.old sets.new (M.bytes space.mem.now) }
        ensures walk_reads { length seen.new ≤ length seen.old + WALK_READS }
        ensures walk_sets { length sets.new ≤ length sets.old + WALK_SETS }
        ensures walk_sets_none { self.now.choices.now.marks ≡ Fault → sets.new ≡ sets.old }
        ensures offset { IfOk result (λ pa. pa % PAGE_SIZE ≡ va % PAGE_SIZE) }
    {
        if !is_translated(self.csrs, request.mode) {
            return Ok(va);
        }
        let satp = self.csrs.get(StoredCsr::Satp);
        let flags = walk_flags(self.csrs, request.mode);
        let access = request.access;
        translate(self, satp, flags, va, access, self.choices, seen, sets)
    }

    /// What stands at a place, 0 where a device answers. The read is noted where there is one.
    pub fn value_at(&self, place: Place, len: u8, seen: &mut Seen, sets: &Sets) -> u64
        requires placed { place.is_device ≡ false → IsPlace self.now.map.now.ram place.pa len }
        requires room { length seen.old < MOST_READS }
        ensures value { Notes (value_at place len place.is_device) (Ok (place, None, result))
            seen.old seen.new sets.now sets.now (M.bytes self.now.mem.now) }
        ensures noted { length seen.new ≤ length seen.old + 1 }
        ensures fits { result < 2 ^ (8 * len) }
    {
        if place.is_device {
            return 0;
        }
        seen.put(place.pa, len);
        self.number(place.pa, len, sets)
    }

    /// The number of two parts, of which the first has its low bytes. Both reads are noted.
    pub fn joined_value(&self, low: Read, high: Read, seen: &mut Seen, sets: &Sets) -> u64
        requires low { IsPlace self.now.map.now.ram low.pa low.len }
        requires high { IsPlace self.now.map.now.ram high.pa high.len }
        requires together { low.len + high.len ≤ 8 }
        requires room { length seen.old + 2 ≤ MOST_READS }
        ensures value { let bytes = after_writes sets.now (M.bytes self.now.mem.now) in
            result ≡ joined_value low.len (number_at bytes low.pa low.len)
            (number_at bytes high.pa high.len) }
        ensures noted { seen.new ≡ seen.old ++ low ∷ [] ++ high ∷ [] }
        ensures fits { result < 2 ^ (8 * (low.len + high.len)) }
    {
        seen.put(low.pa, low.len);
        seen.put(high.pa, high.len);
        let first = self.number(low.pa, low.len, sets);
        let second = self.number(high.pa, high.len, sets);
        join_numbers(low.len, first, second)
    }

    /// The number at a place in RAM, with the entries that the step has set.
    #[tactic(auto, unfolding(hart_words::specs::Memory::after_writes))]
    pub fn number(&self, pa: u64, len: u8, sets: &Sets) -> u64
        requires { IsPlace self.now.map.now.ram pa len }
        ensures value { let bytes = after_writes sets.now (M.bytes self.now.mem.now) in
            result ≡ number_at bytes pa len }
        ensures fits { result < 2 ^ (8 * len) }
    {
        if sets.is_empty() {
            return self.mem.read(pa, len);
        }
        self.number_after_sets(pa, len, sets)
    }

    /// The same where entries are set, byte by byte.
    fn number_after_sets(&self, pa: u64, len: u8, sets: &Sets) -> u64
        requires { IsPlace self.now.map.now.ram pa len }
        ensures value { let bytes = after_writes sets.now (M.bytes self.now.mem.now) in
            result ≡ number_at bytes pa len }
        ensures fits { result < 2 ^ (8 * len) }
    {
        let byte = u64::from(self.byte_after_sets(pa, sets));
        if len == 1 {
            return byte;
        }
        join_numbers(1, byte, self.number_after_sets(pa + 1, len - 1, sets))
    }

    /// A byte with the entries that the step has set.
    fn byte_after_sets(&self, pa: u64, sets: &Sets) -> u8
        requires { IsPlace self.now.map.now.ram pa 1 }
        ensures { result ≡ after_writes sets.now (M.bytes self.now.mem.now) pa }
    {
        match sets.byte(pa) {
            Some(byte) => byte,
            None => self.mem.read(pa, 1) as u8,
        }
    }
}

/// A number of bytes and the number of those that come after them, together.
pub fn join_numbers(len: u8, low: u64, high: u64) -> u64
    requires len { len < 8 }
    requires low { low < 2 ^ (8 * len) }
    requires high { high < 2 ^ (8 * (8 - len)) }
    ensures value { result ≡ joined_value len low high }
    ensures fits { (more : ℕ) → high < 2 ^ (8 * more) → result < 2 ^ (8 * (len + more)) }
{
    low + (high << (8 * len))
}

/// Whether the accesses of a mode are translated.
#[tactic(auto, unfolding(crate::specs::Translation::is_translated))]
pub fn is_translated(csrs: &Csrs, mode: Mode) -> bool
    ensures { result ≡ is_translated csrs.now mode }
{
    !is_machine(mode) && csrs.get(StoredCsr::Satp) >> SATP_MODE != BARE
}

/// A mode, with what mstatus says of the pages that it may use.
#[tactic(auto, unfolding(crate::specs::Translation::walk_flags_of))]
fn walk_flags(csrs: &Csrs, mode: Mode) -> WalkFlags
    ensures { result ≡ walk_flags_of csrs.now mode }
{
    let status = csrs.get(StoredCsr::Mstatus);
    WalkFlags {
        mode,
        sum: has_bit(status, SUM),
        mxr: has_bit(status, MXR),
    }
}
