//! Harts that share a memory.

ghost use Rattle.std.specs.Prelude.{◌≡◌, ◌≤◌, ◌<◌, ◌++◌, [], Decides, IfOk, OnErr, OnOk, Some, false, length, map, replicate, slice_get, true};
ghost use Rattle.hart_words.specs.Actions.{Performs};
ghost use Rattle.rvfi_rows.specs.Cells.{shown_in};
ghost use Rattle.rvfi_rows.specs.Meanings.{lost_by};
ghost use Rattle.rvfi_rows.specs.Readings.{kept_shown};
ghost use Rattle.rvfi_rows.specs.Rows.{hart_of};
ghost use Rattle.hart_set.specs.Sets.{gone_on, is_plain_for_set, step_of_hart, step_of_set, taken_of_hart, taken_of_set};
ghost use Rattle.hart_set.specs.Calls.{CanStep, IsDone, TakesQuietRow};

use hart_words::{NoMemory, PhysMem, Signal, Write, Wrote};
use rvfi_rows::{CoreStep, KeptRow, Row, Stepped};
use std::alloc::Global;

/// Harts by their numbers from 0 on, and the memory that they share: the RAM of each hart's map is
/// that of the memory.
#[derive(Drop)]
pub struct HartSet<C, M> {
    pub cores: Vec<C>,
    pub mem: M,
}

impl<C: CoreStep<M> + Drop, M: PhysMem + Drop> HartSet<C, M> {
    /// So many harts, at least one, each a copy of this one, over a memory.
    pub fn reset(alloc: Global, core: C, harts: u32, mem: M) -> Result<HartSet<C, M>, NoMemory>
        requires { 1 ≤ harts }
        ensures cores { IfOk result (λ set. set.cores.items ≡ replicate harts core) }
        ensures mem { IfOk result (λ set. set.mem ≡ mem) }
        ensures can { C.is_sound core → M.ram mem ≡ (C.meaning.map_of core).ram
            → IfOk result (λ set. CanStep C.meaning C.is_sound (M.ram set.mem) set.cores.items) }
    {
        let mut cores = Vec::new(alloc);
        for _ in 1..harts {
            cores.push(core.copy()?)?;
        }
        cores.push(core)?;
        Ok(HartSet { cores, mem })
    }

    /// Steps the row's hart by a valid row over the memory, and takes the reservations of the
    /// others in whose blocks it wrote: what the hart did, and what was read and written. Without
    /// memory no hart and no byte changes. A row whose hart is not there changes nothing, and shows
    /// a halted hart: who reads rows refuses it before.
    pub fn step(&mut self, row: &Row) -> Result<Stepped, NoMemory>
        requires can { CanStep C.meaning C.is_sound (M.ram self.old.mem) self.old.cores.items }
        ensures stepped { IfOk result (λ now. Performs
            (step_of_set C.meaning self.old.cores.items (shown_in row.now))
            (record { next = self.new.cores.items; expected = now.expected }) [] now.seen []
            now.wrote (M.bytes self.old.mem) (M.bytes self.new.mem)) }
        ensures err { OnErr result ((self.new.cores.items ≡ self.old.cores.items)
            × (M.bytes self.new.mem ≡ M.bytes self.old.mem)) }
        ensures can { CanStep C.meaning C.is_sound (M.ram self.new.mem) self.new.cores.items }
        ensures maps { map C.meaning.map_of self.new.cores.items
            ≡ map C.meaning.map_of self.old.cores.items }
        ensures choices { map C.meaning.choices_of self.new.cores.items
            ≡ map C.meaning.choices_of self.old.cores.items }
        ensures ram { M.ram self.new.mem ≡ M.ram self.old.mem }
    {
        let mut stepped = Stepped::halted();
        match self.step_into(row, &mut stepped) {
            Ok(()) => Ok(stepped),
            Err(NoMemory) => Err(NoMemory),
        }
    }

    /// The same, where what a step gives is put in place of what an earlier one gave. Without
    /// memory it stays.
    pub fn step_into(&mut self, row: &Row, stepped: &mut Stepped) -> Result<(), NoMemory>
        requires can { CanStep C.meaning C.is_sound (M.ram self.old.mem) self.old.cores.items }
        ensures stepped { OnOk result (Performs
            (step_of_set C.meaning self.old.cores.items (shown_in row.now))
            (record { next = self.new.cores.items; expected = stepped.new.expected }) []
            stepped.new.seen [] stepped.new.wrote (M.bytes self.old.mem) (M.bytes self.new.mem)) }
        ensures err { OnErr result ((self.new.cores.items ≡ self.old.cores.items)
            × (M.bytes self.new.mem ≡ M.bytes self.old.mem)) }
        ensures kept { OnErr result (stepped.new ≡ stepped.old) }
        ensures can { CanStep C.meaning C.is_sound (M.ram self.new.mem) self.new.cores.items }
        ensures maps { map C.meaning.map_of self.new.cores.items
            ≡ map C.meaning.map_of self.old.cores.items }
        ensures choices { map C.meaning.choices_of self.new.cores.items
            ≡ map C.meaning.choices_of self.old.cores.items }
        ensures ram { M.ram self.new.mem ≡ M.ram self.old.mem }
    {
        self.step_hart(row.hart() as usize, row, stepped)
    }

    /// The same of the hart of a number.
    fn step_hart(&mut self, number: usize, row: &Row, stepped: &mut Stepped) -> Result<(), NoMemory>
        requires can { CanStep C.meaning C.is_sound (M.ram self.old.mem) self.old.cores.items }
        ensures stepped { OnOk result (Performs
            (step_of_hart C.meaning self.old.cores.items (shown_in row.now) number)
            (record { next = self.new.cores.items; expected = stepped.new.expected }) []
            stepped.new.seen [] stepped.new.wrote (M.bytes self.old.mem) (M.bytes self.new.mem)) }
        ensures err { OnErr result ((self.new.cores.items ≡ self.old.cores.items)
            × (M.bytes self.new.mem ≡ M.bytes self.old.mem)) }
        ensures kept { OnErr result (stepped.new ≡ stepped.old) }
        ensures can { CanStep C.meaning C.is_sound (M.ram self.new.mem) self.new.cores.items }
        ensures maps { map C.meaning.map_of self.new.cores.items
            ≡ map C.meaning.map_of self.old.cores.items }
        ensures choices { map C.meaning.choices_of self.new.cores.items
            ≡ map C.meaning.choices_of self.old.cores.items }
        ensures ram { M.ram self.new.mem ≡ M.ram self.old.mem }
    {
        if self.is_absent(number) {
            *stepped = Stepped::halted();
            return Ok(());
        }
        self.cores[number].step_into(&mut self.mem, row, stepped)?;
        self.lose_beside(number, stepped.wrote.as_slice());
        Ok(())
    }

    /// Whether a valid row is plain for its hart: it shows all that its instruction changes. No row
    /// is plain for a hart that is not there.
    pub fn is_plain(&self, row: &Row) -> bool
        ensures { result ≡ is_plain_for_set C.meaning self.now.cores.items (shown_in row.now) }
    {
        match self.cores.get(row.hart() as usize) {
            None => false,
            Some(core) => core.is_plain(row),
        }
    }

    /// Takes the state after a row from what the row shows, as it is after a plain row: its hart's,
    /// a store's bytes, and the reservations that this takes from the others. Without memory no
    /// hart and no byte changes. A row whose hart is not there changes nothing.
    pub fn take_shown(&mut self, row: &Row) -> Result<(), NoMemory>
        requires can { CanStep C.meaning C.is_sound (M.ram self.old.mem) self.old.cores.items }
        ensures taken { OnOk result (IsDone
            (taken_of_set C.meaning self.old.cores.items (shown_in row.now)) self.new.cores.items
            (M.bytes self.old.mem) (M.bytes self.new.mem)) }
        ensures err { OnErr result ((self.new.cores.items ≡ self.old.cores.items)
            × (M.bytes self.new.mem ≡ M.bytes self.old.mem)) }
        ensures can { CanStep C.meaning C.is_sound (M.ram self.new.mem) self.new.cores.items }
        ensures maps { map C.meaning.map_of self.new.cores.items
            ≡ map C.meaning.map_of self.old.cores.items }
        ensures choices { map C.meaning.choices_of self.new.cores.items
            ≡ map C.meaning.choices_of self.old.cores.items }
        ensures ram { M.ram self.new.mem ≡ M.ram self.old.mem }
    {
        self.take_hart_shown(row.hart() as usize, row)
    }

    /// The same of the hart of a number.
    fn take_hart_shown(&mut self, number: usize, row: &Row) -> Result<(), NoMemory>
        requires can { CanStep C.meaning C.is_sound (M.ram self.old.mem) self.old.cores.items }
        ensures taken { OnOk result (IsDone
            (taken_of_hart C.meaning self.old.cores.items (shown_in row.now) number)
            self.new.cores.items (M.bytes self.old.mem) (M.bytes self.new.mem)) }
        ensures err { OnErr result ((self.new.cores.items ≡ self.old.cores.items)
            × (M.bytes self.new.mem ≡ M.bytes self.old.mem)) }
        ensures can { CanStep C.meaning C.is_sound (M.ram self.new.mem) self.new.cores.items }
        ensures maps { map C.meaning.map_of self.new.cores.items
            ≡ map C.meaning.map_of self.old.cores.items }
        ensures choices { map C.meaning.choices_of self.new.cores.items
            ≡ map C.meaning.choices_of self.old.cores.items }
        ensures ram { M.ram self.new.mem ≡ M.ram self.old.mem }
    {
        if self.is_absent(number) {
            return Ok(());
        }
        let wrote = self.cores[number].take_shown(&mut self.mem, row)?;
        self.lose_beside(number, wrote.as_slice());
        Ok(())
    }

    /// Where a row is plain for its hart and writes nothing, takes the state after it from what it
    /// shows; else nothing changes. Says whether it is so. It may say no of any row: those that it
    /// says yes of are passed with few looks.
    pub fn take_quiet(&mut self, row: &KeptRow<'_>) -> bool
        requires can { CanStep C.meaning C.is_sound (M.ram self.old.mem) self.old.cores.items }
        ensures taken { result ≡ true → TakesQuietRow C.meaning self.old.cores.items
            (kept_shown row.now) self.new.cores.items }
        ensures kept { result ≡ false → self.new.cores.items ≡ self.old.cores.items }
        ensures mem { self.new.mem ≡ self.old.mem }
        ensures can { CanStep C.meaning C.is_sound (M.ram self.new.mem) self.new.cores.items }
        ensures maps { map C.meaning.map_of self.new.cores.items
            ≡ map C.meaning.map_of self.old.cores.items }
        ensures choices { map C.meaning.choices_of self.new.cores.items
            ≡ map C.meaning.choices_of self.old.cores.items }
    {
        let number = row.shown(Signal::Hart).unwrap_or(0) as usize;
        self.take_hart_quiet(number, row)
    }

    /// The same of the hart of a number.
    fn take_hart_quiet(&mut self, number: usize, row: &KeptRow<'_>) -> bool
        requires can { CanStep C.meaning C.is_sound (M.ram self.old.mem) self.old.cores.items }
        requires number { number ≡ hart_of (kept_shown row.now) }
        ensures taken { result ≡ true → TakesQuietRow C.meaning self.old.cores.items
            (kept_shown row.now) self.new.cores.items }
        ensures kept { result ≡ false → self.new.cores.items ≡ self.old.cores.items }
        ensures mem { self.new.mem ≡ self.old.mem }
        ensures can { CanStep C.meaning C.is_sound (M.ram self.new.mem) self.new.cores.items }
        ensures maps { map C.meaning.map_of self.new.cores.items
            ≡ map C.meaning.map_of self.old.cores.items }
        ensures choices { map C.meaning.choices_of self.new.cores.items
            ≡ map C.meaning.choices_of self.old.cores.items }
    {
        if self.is_absent(number) {
            return false;
        }
        self.cores[number].take_quiet(row)
    }

    /// Whether all but the memories is the same: as many harts, and those of each number are equal.
    pub fn same_but_memory(&self, other: &Self) -> bool
        ensures { Decides result (self.now.cores.items ≡ other.now.cores.items) }
    {
        if self.cores.len() != other.cores.len() {
            return false;
        }
        for number in 0..self.cores.len() {
            if !self.cores[number].same(&other.cores[number]) {
                return false;
            }
        }
        true
    }

    /// The same harts again, over a memory with the same bytes.
    pub fn copy(&self) -> Result<HartSet<C, M>, NoMemory>
        ensures cores { IfOk result (λ other. other.cores.items ≡ self.now.cores.items) }
        ensures bytes { IfOk result (λ other. M.bytes other.mem ≡ M.bytes self.now.mem) }
        ensures ram { IfOk result (λ other. M.ram other.mem ≡ M.ram self.now.mem) }
    {
        Ok(HartSet {
            cores: self.copy_cores()?,
            mem: self.mem.copy()?,
        })
    }

    /// Takes the harts of another set, and keeps the memory. Without memory nothing changes.
    pub fn take_cores(&mut self, other: &Self) -> Result<(), NoMemory>
        ensures cores { OnOk result (self.new.cores.items ≡ other.now.cores.items) }
        ensures err { OnErr result (self.new ≡ self.old) }
        ensures mem { self.new.mem ≡ self.old.mem }
    {
        self.cores = other.copy_cores()?;
        Ok(())
    }

    /// The same harts again.
    fn copy_cores(&self) -> Result<Vec<C>, NoMemory>
        ensures { IfOk result (λ cores. cores.items ≡ self.now.cores.items) }
    {
        let mut cores = Vec::new(*self.cores.allocator());
        for core in &self.cores {
            cores.push(core.copy()?)?;
        }
        Ok(cores)
    }

    /// Whether no hart has a number.
    fn is_absent(&self, number: usize) -> bool
        ensures { Decides result (length self.now.cores.items ≤ number) }
    {
        number >= self.cores.len()
    }

    /// Takes from each hart, but for that of a number, the reservation in whose block a write lies.
    fn lose_beside(&mut self, number: usize, writes: &[Write])
        requires { number < length self.old.cores.items }
        ensures cores { (core : C) → slice_get self.old.cores.items number ≡ Some core
            → self.new.cores.items
            ≡ gone_on (lost_by C.meaning writes.now) number core self.old.cores.items }
        ensures mem { self.new.mem ≡ self.old.mem }
    {
        for other in 0..self.cores.len() {
            if other != number {
                Self::lose(&mut self.cores[other], writes);
            }
        }
    }

    /// Takes from a hart the reservation in whose block one of the writes lies.
    fn lose(core: &mut C, writes: &[Write])
        ensures { core.new ≡ lost_by C.meaning writes.now core.old }
    {
        for write in writes {
            core.lose(write.pa, write.len);
        }
    }
}
