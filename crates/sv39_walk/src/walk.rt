//! The walk through the tables. From the Privileged Architecture's chapter "Supervisor-Level ISA".

ghost use Rattle.std.specs.Prelude.{◌≡◌, ◌+◌, ◌++◌, ◌%◌, ◌<◌, ◌≤◌, ◌^◌, [], length, IfOk};
ghost use Rattle.hart_words.specs.Actions.{Notes};
ghost use Rattle.hart_words.specs.Memory.{after_writes, entry_of};
ghost use Rattle.hart_words.specs.declared.options.Marks.TheVariants.{Fault};
ghost use Rattle.hart_words.specs.declared.span.TheConstants.{PAGE_SIZE};
ghost use Rattle.sv39_walk.specs.Entries.{final_result, unmarked_result};
ghost use Rattle.sv39_walk.specs.Walk.{tables_for, translation_of, walk_for};

use crate::entry::{ENTRY_SIZE, Entry, NUMBER_BITS, TOP_LEVEL, entry_address, is_canonical};
use hart_words::{
    Access, Cause, Choices, MOST_READS, MOST_SETS, Marks, Seen, Sets, WalkFlags, WalkMem,
};

/// What is translated, what for, and what is done where A, or D, is clear.
#[derive(Clone, Copy, Debug)]
pub struct Request {
    pub flags: WalkFlags,
    pub va: u64,
    pub access: Access,
    pub marks: Marks,
}

/// A table of a level, by its page number.
#[derive(Clone, Copy, Debug)]
pub struct Table {
    pub level: u32,
    pub number: u64,
}

/// The physical address of the virtual address `va` by the page tables that `satp` names, for an
/// address that is translated: whether it is, by the mode and by satp's MODE, is the caller's to
/// say. Each entry is as `sets` has it, else as memory has it, and is put into `seen` as a read of
/// 8 bytes, at most three. A page fault where the address or an entry is not as it should be or the
/// page refuses the access, an access fault where an entry cannot be read; either is of the kind of
/// `access`. Where the page allows the access but A is clear, or D for a store, `choices` decide: a
/// page fault, or they are set, and the entry is put into `sets`; where it may not be set, that is
/// an access fault. The place in a page of 4 KiB stays.
pub fn translate<W: WalkMem>(
    w: &W,
    satp: u64,
    flags: WalkFlags,
    va: u64,
    access: Access,
    choices: &Choices,
    seen: &mut Seen,
    sets: &mut Sets,
) -> Result<u64, Cause>
    requires reads { length seen.old + 3 ≤ MOST_READS }
    requires sets { length sets.old < MOST_SETS }
    ensures translation { Notes
        (translation_of (record {
          readable = W.is_readable w.now;
          settable = W.is_settable w.now;
          marks = choices.now.marks;
        }) satp flags va access)
        result seen.old seen.new sets.old sets.new (W.bytes w.now) }
    ensures walk_reads { length seen.new ≤ length seen.old + 3 }
    ensures walk_sets { length sets.new ≤ length sets.old + 1 }
    ensures walk_sets_none { choices.now.marks ≡ Fault → sets.new ≡ sets.old }
    ensures bound { IfOk result (λ pa. pa < 2 ^ 56) }
    ensures offset { IfOk result (λ pa. pa % PAGE_SIZE ≡ va % PAGE_SIZE) }
{
    if !is_canonical(va) {
        return Err(access.page_fault());
    }
    let request = Request {
        flags,
        va,
        access,
        marks: choices.marks,
    };
    let root = Table {
        level: TOP_LEVEL,
        number: satp % (1 << NUMBER_BITS),
    };
    walk(w, request, root, seen, sets)
}

/// The walk from a table on: a step for each level.
fn walk<W: WalkMem>(
    w: &W,
    request: Request,
    first: Table,
    seen: &mut Seen,
    sets: &mut Sets,
) -> Result<u64, Cause>
    requires levels { first.level ≤ TOP_LEVEL }
    requires bound { first.number < 2 ^ NUMBER_BITS }
    requires reads { length seen.old + first.level < MOST_READS }
    requires sets { length sets.old < MOST_SETS }
    ensures walk { Notes (walk_for (W.is_readable w.now) (W.is_settable w.now) request first) result
        seen.old seen.new sets.old sets.new (W.bytes w.now) }
    ensures walk_reads { length seen.new ≤ length seen.old + first.level + 1 }
    ensures bound { IfOk result (λ pa. pa < 2 ^ 56) }
    ensures offset { IfOk result (λ pa. pa % PAGE_SIZE ≡ request.va % PAGE_SIZE) }
{
    let mut table = first;
    loop {
        let pa = entry_address(table.level, table.number, request.va);
        let Some(bits) = entry_after_sets(w, sets, pa) else {
            return Err(request.access.access_fault());
        };
        seen.put(pa, ENTRY_SIZE);
        let entry = Entry::new(bits);
        if !entry.leads_on(table.level) {
            return match final_result(w, request, table.level, pa, entry) {
                Ok((address, None)) => Ok(address),
                Ok((address, Some(set))) => {
                    sets.put(pa, set);
                    Ok(address)
                }
                Err(fault) => Err(fault),
            };
        }
        table = Table {
            level: table.level - 1,
            number: entry.page_number(),
        };
    }
}

/// The entry at an address after what the step has set, where it may be read.
#[tactic(auto, unfolding(hart_words::specs::Memory::after_writes))]
fn entry_after_sets<W: WalkMem>(w: &W, sets: &Sets, pa: u64) -> Option<u64>
    requires { pa % 8 ≡ 0 }
    ensures { result
        ≡ entry_of (W.is_readable w.now) (after_writes sets.now (W.bytes w.now)) pa }
{
    let bits = w.entry(pa)?;
    if sets.is_empty() {
        return Some(bits);
    }
    Some(sets.entry(pa).unwrap_or(bits))
}

/// What the last entry of a walk, read at a level, gives: the physical address, and what the entry
/// becomes where that changes.
#[tactic(auto, using(crate::proofs::Sizes::allowed_fits, crate::proofs::Sizes::allowed_offset), unfolding(crate::specs::Entries::final_result))]
fn final_result<W: WalkMem>(
    w: &W,
    request: Request,
    level: u32,
    pa: u64,
    entry: Entry,
) -> Result<(u64, Option<u64>), Cause>
    requires levels { level ≤ TOP_LEVEL }
    requires aligned { pa % 8 ≡ 0 }
    ensures value { result
        ≡ final_result (tables_for (W.is_readable w.now) (W.is_settable w.now) request) level
        request.flags request.va request.access pa entry.bits }
    ensures bound { IfOk result (λ given. given.0 < 2 ^ 56) }
    ensures offset { IfOk result (λ given. given.0 % PAGE_SIZE ≡ request.va % PAGE_SIZE) }
{
    if !entry.leaf_allows(level, request.flags, request.access) {
        return Err(request.access.page_fault());
    }
    let address = entry.address_in(level, request.va);
    if entry.is_marked(request.access) {
        return Ok((address, None));
    }
    unmarked_result(w, request, pa, entry, address)
}

/// The same for a page that allows the access and lacks A, or for a store D.
fn unmarked_result<W: WalkMem>(
    w: &W,
    request: Request,
    pa: u64,
    entry: Entry,
    address: u64,
) -> Result<(u64, Option<u64>), Cause>
    requires { pa % 8 ≡ 0 }
    ensures value { result
        ≡ unmarked_result (tables_for (W.is_readable w.now) (W.is_settable w.now) request)
        request.access pa entry.bits address }
    ensures same { IfOk result (λ given. given.0 ≡ address) }
{
    if !request.marks.are_set() {
        return Err(request.access.page_fault());
    }
    if !w.may_set(pa) {
        return Err(request.access.access_fault());
    }
    Ok((address, Some(entry.with_marks(request.access))))
}
