//! Fetches of instructions.

ghost use Rattle.std.specs.Prelude.{◌≡◌, ◌≤◌, ◌<◌, ◌+◌, ◌-◌, ◌%◌, ◌*◌, ◌^◌, ◌⊎◌, ◌==◌, ◌&&◌, ◌||◌, not, nat_le, length, IfOk, Some, None, if◌then◌else◌};
ghost use Rattle.std.specs.List.{list_all};
ghost use Rattle.hart_words.specs.declared.options.Marks.TheVariants.{Fault};
ghost use Rattle.hart_words.specs.Actions.{Notes};
ghost use Rattle.hart_words.specs.Memory.{number_at};
ghost use Rattle.hart_words.specs.Spans.{holds_all};
ghost use Rattle.csr_file.specs.Registers.{pmp_entries_of};
ghost use Rattle.pmp_check.specs.Protection.{is_machine};
ghost use Rattle.mem_access.specs.Accesses.{parcel_at, fetch_result};
ghost use Rattle.mem_access.specs.Translation.{is_translated};

use crate::accesses::Accesses;
use crate::address_space::{AddressSpace, WALK_READS, WALK_SETS, is_translated};
use crate::place::{AccessRequest, is_open};
use hart_words::{Access, Cause, MOST_READS, MOST_SETS, Mode, PhysMem, Sets};

/// The most reads of a fetch: for each of two parcels three entries of page tables, and the parcel.
pub const FETCH_READS: usize = 2 * PARCEL_READS;

const PARCEL_READS: usize = WALK_READS + 1;

/// The most entries of page tables that a fetch sets: one for each parcel.
pub const FETCH_SETS: usize = 2 * WALK_SETS;

/// So many bytes, from a multiple of them on, are mostly looked up at once.
const LOOKED_UP: u64 = 64;

impl<'a, M: PhysMem> AddressSpace<'a, M> {
    /// The instruction at `pc` and its length in bytes, 2 or 4: a word of 4 where the low two bits
    /// of the first parcel are 3. Each parcel is fetched by itself, with its own check, but where
    /// nothing can refuse either. An exception gives the cause and the address of the parcel that
    /// is refused. `accesses` has room for `FETCH_READS` more reads and `FETCH_SETS` more entries
    /// that are set. What the step has set before is read as it was set.
    ///
    /// From the Unprivileged ISA's chapter "Introduction" (instruction length encoding) and the
    /// Privileged Architecture's chapter "Machine-Level ISA".
    #[tactic(auto, unfolding(crate::specs::Accesses::fetch_result))]
    pub fn fetch(&self, pc: u64, accesses: &mut Accesses) -> Result<(u32, u8), (Cause, u64)>
        requires even { pc % 2 ≡ 0 }
        requires room { length accesses.old.seen + FETCH_READS ≤ MOST_READS }
        requires sets { length accesses.old.sets + FETCH_SETS ≤ MOST_SETS }
        ensures looked { let space = self.now in Notes
            (fetch_result space.csrs.now space.map.now space.choices.now space.mode pc) result
            accesses.old.seen accesses.new.seen accesses.old.sets accesses.new.sets
            (M.bytes space.mem.now) }
        ensures noted { length accesses.new.seen ≤ length accesses.old.seen + FETCH_READS }
        ensures set { length accesses.new.sets ≤ length accesses.old.sets + FETCH_SETS }
        ensures set_none { self.now.choices.now.marks ≡ Fault
            → accesses.new.sets ≡ accesses.old.sets }
        ensures stores { accesses.new.stores ≡ accesses.old.stores }
        ensures lengths { IfOk result (λ word. (word.1 ≡ 2) ⊎ (word.1 ≡ 4)) }
        ensures short { IfOk result (λ word. word.1 ≡ 2 → word.0 < 2 ^ 16) }
    {
        if let Some(word) = plain_word(self, self.mode, pc, &accesses.sets) {
            accesses.seen.put(pc, 2);
            if word % 4 != 3 {
                return Ok((word % 0x1_0000, 2));
            }
            accesses.seen.put(pc + 2, 2);
            return Ok((word, 4));
        }
        // The parcels have a copy to point at, so that the caller's own is never in memory: as a
        // rule no parcel is asked for.
        let space = AddressSpace {
            mem: self.mem,
            csrs: self.csrs,
            map: self.map,
            choices: self.choices,
            mode: self.mode,
        };
        let first = match parcel(&space, self.mode, pc, accesses) {
            Ok(first) => first,
            Err(exception) => return Err(exception),
        };
        if first % 4 != 3 {
            return Ok((u32::from(first), 2));
        }
        match parcel(&space, self.mode, pc.wrapping_add(2), accesses) {
            Ok(second) => Ok((u32::from(first) + 0x1_0000 * u32::from(second), 4)),
            Err(exception) => Err(exception),
        }
    }
}

/// The four bytes at `pc`, where they are looked up at once and nothing is to be asked of
/// translation and of the entries of protection.
fn plain_word<M: PhysMem>(space: &AddressSpace<M>, mode: Mode, pc: u64, sets: &Sets) -> Option<u32>
    ensures { let csrs = space.now.csrs.now in
        let is_open = list_all (λ entry. entry.cfg == 0) csrs.entries
        && (is_machine mode || (length (pmp_entries_of csrs) == 0)) in
        let is_plain = nat_le (pc % LOOKED_UP) (LOOKED_UP - 4) && (length sets.now == 0)
        && not (is_translated csrs mode) && is_open && holds_all space.now.map.now.ram pc 4 in
        result ≡ (if is_plain then Some (number_at (M.bytes space.now.mem.now) pc 4) else None) }
{
    let is_near = pc % LOOKED_UP <= LOOKED_UP - 4;
    if !is_near || !sets.is_empty() || is_translated(space.csrs, mode) {
        return None;
    }
    if !is_open(space.csrs, mode) || !space.map.ram.holds(pc, 4) {
        return None;
    }
    Some(space.mem.read(pc, 4) as u32)
}

/// Two bytes of an instruction.
fn parcel<M: PhysMem>(
    space: &AddressSpace<M>,
    mode: Mode,
    at: u64,
    accesses: &mut Accesses,
) -> Result<u16, (Cause, u64)>
    requires even { at % 2 ≡ 0 }
    requires room { length accesses.old.seen + PARCEL_READS ≤ MOST_READS }
    requires sets { length accesses.old.sets < MOST_SETS }
    ensures looked { Notes
        (parcel_at space.now.csrs.now space.now.map.now space.now.choices.now mode at) result
        accesses.old.seen accesses.new.seen accesses.old.sets accesses.new.sets
        (M.bytes space.now.mem.now) }
    ensures noted { length accesses.new.seen ≤ length accesses.old.seen + PARCEL_READS }
    ensures set { length accesses.new.sets ≤ length accesses.old.sets + WALK_SETS }
    ensures set_none { space.now.choices.now.marks ≡ Fault
        → accesses.new.sets ≡ accesses.old.sets }
    ensures stores { accesses.new.stores ≡ accesses.old.stores }
{
    let request = AccessRequest {
        mode,
        access: Access::Fetch,
        len: 2,
        devices: false,
    };
    match space.reach(request, at, &mut accesses.seen, &mut accesses.sets) {
        Err(cause) => Err((cause, at)),
        Ok(place) => {
            accesses.seen.put(place.pa, 2);
            Ok(space.number(place.pa, 2, &accesses.sets) as u16)
        }
    }
}
