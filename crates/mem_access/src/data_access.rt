//! Loads, and the places of stores.

ghost use Rattle.std.specs.Prelude.{◌≡◌, ◌≤◌, ◌<◌, ◌+◌, ◌-◌, ◌*◌, ◌%◌, ◌^◌, ◌⊎◌, ◌||◌, not, false, true, length, IfOk};
ghost use Rattle.hart_words.specs.declared.options.Marks.TheVariants.{Fault};
ghost use Rattle.hart_words.specs.declared.options.Misaligned.TheVariants.{Trap};
ghost use Rattle.hart_words.specs.declared.span.TheConstants.{PAGE_SIZE};
ghost use Rattle.hart_words.specs.Actions.{Notes};
ghost use Rattle.hart_words.specs.Options.{are_done};
ghost use Rattle.hart_words.specs.AccessSizes.{IsLength};
ghost use Rattle.mem_access.specs.Accesses.{LieInRam, data_request, devices_answer, first_len, is_atomic, load_by, load_result, split_places_of, store_place_of, whole_place_of};

use crate::accesses::Accesses;
use crate::address_space::{AddressSpace, WALK_READS, WALK_SETS};
use crate::place::{AccessRequest, Atomicity, Place, data_mode};
use csr_file::Csrs;
use hart_words::{
    Access, Cause, Choices, MOST_READS, MOST_SETS, Mode, PAGE_SIZE, PhysMem, Read, Seen, Sets,
};

/// The most reads of a data access: for each of two parts three entries of page tables, and its own
/// bytes.
pub const ACCESS_READS: usize = 2 * PART_READS;

const PART_READS: usize = WALK_READS + 1;

/// The most entries of page tables that a data access sets: one for each part.
pub const ACCESS_SETS: usize = 2 * WALK_SETS;

impl<'a, M: PhysMem> AddressSpace<'a, M> {
    /// Loads `len` bytes, 1, 2, 4 or 8, from a virtual address: the place of each of its parts, and
    /// the number that stands there, 0 where a device answers. With MPRV in M the access is one of
    /// MPP. LR is `Reserved`, any other load `Plain`.
    ///
    /// An access at a multiple of its length has one part. Another is misaligned: it traps, unless
    /// it is not atomic and the choices have it done. Then it is split where it runs into the next
    /// page, and no device answers it. Each part in order is translated at its own first byte and
    /// checked over its own bytes. An exception gives the cause and the address of the first part
    /// that is refused, and no byte is read before all parts have their places.
    ///
    /// `accesses` has room for `ACCESS_READS` more reads and `ACCESS_SETS` more entries that are
    /// set. What the step has set before is read as it was set.
    #[tactic(auto, unfolding(crate::specs::Accesses::load_result, crate::specs::Accesses::data_places_of))]
    pub fn load(
        &self,
        va: u64,
        len: u8,
        atomicity: Atomicity,
        accesses: &mut Accesses,
    ) -> Result<(Place, Option<Place>, u64), (Cause, u64)>
        requires length { IsLength len }
        requires room { length accesses.old.seen + ACCESS_READS ≤ MOST_READS }
        requires sets { length accesses.old.sets + ACCESS_SETS ≤ MOST_SETS }
        ensures looked { let space = self.now in Notes
            (load_result space.csrs.now space.map.now space.choices.now space.mode va len atomicity)
            result accesses.old.seen accesses.new.seen accesses.old.sets accesses.new.sets
            (M.bytes space.mem.now) }
        ensures noted { length accesses.new.seen ≤ length accesses.old.seen + ACCESS_READS }
        ensures set { length accesses.new.sets ≤ length accesses.old.sets + ACCESS_SETS }
        ensures set_none { self.now.choices.now.marks ≡ Fault
            → accesses.new.sets ≡ accesses.old.sets }
        ensures stores { accesses.new.stores ≡ accesses.old.stores }
        ensures fits { IfOk result (λ found. found.2 < 2 ^ (8 * len)) }
        ensures one { (is_atomic atomicity ≡ true)
            ⊎ ((self.now.choices.now.misaligned ≡ Trap) ⊎ (va % len ≡ 0))
            → IfOk result (λ found. found.1 ≡ None) }
        ensures memory { devices_answer self.now.choices.now atomicity ≡ false
            → IfOk result (λ found. found.0.is_device ≡ false) }
        ensures placed { IfOk result
            (λ found. LieInRam self.now.map.now.ram va len (found.0, found.1)) }
    {
        let devices = atomicity.devices_answer(self.choices);
        let request = data_request(self.csrs, self.mode, Access::Load, len, devices);
        if va % u64::from(len) == 0 {
            return load_whole(self, request, va, &mut accesses.seen, &mut accesses.sets);
        }
        if is_trapped(self.choices, atomicity) {
            return Err((Cause::LoadAddressMisaligned, va));
        }
        let request = without_devices(request);
        load_split(self, request, va, &mut accesses.seen, &mut accesses.sets)
    }

    /// The places of a store of `len` bytes, 1, 2, 4 or 8, at a virtual address, one for each of
    /// its parts; mode, parts and exceptions are as for a load. SC is `Reserved`, an atomic memory
    /// operation `Amo`, and any other store `Plain`. `accesses` has room for `ACCESS_READS` more
    /// reads and `ACCESS_SETS` more entries that are set.
    #[tactic(auto, unfolding(crate::specs::Accesses::store_place_of, crate::specs::Accesses::data_places_of))]
    pub fn store_place(
        &self,
        va: u64,
        len: u8,
        atomicity: Atomicity,
        accesses: &mut Accesses,
    ) -> Result<(Place, Option<Place>), (Cause, u64)>
        requires length { IsLength len }
        requires room { length accesses.old.seen + ACCESS_READS ≤ MOST_READS }
        requires sets { length accesses.old.sets + ACCESS_SETS ≤ MOST_SETS }
        ensures looked { let space = self.now in Notes
            (store_place_of space.csrs.now space.map.now space.choices.now space.mode va len
            atomicity)
            result accesses.old.seen accesses.new.seen accesses.old.sets accesses.new.sets
            (M.bytes space.mem.now) }
        ensures noted { length accesses.new.seen ≤ length accesses.old.seen + 2 * WALK_READS }
        ensures set { length accesses.new.sets ≤ length accesses.old.sets + ACCESS_SETS }
        ensures set_none { self.now.choices.now.marks ≡ Fault
            → accesses.new.sets ≡ accesses.old.sets }
        ensures stores { accesses.new.stores ≡ accesses.old.stores }
        ensures one { (is_atomic atomicity ≡ true)
            ⊎ ((self.now.choices.now.misaligned ≡ Trap) ⊎ (va % len ≡ 0))
            → IfOk result (λ places. places.1 ≡ None) }
        ensures memory { devices_answer self.now.choices.now atomicity ≡ false
            → IfOk result (λ places. places.0.is_device ≡ false) }
        ensures placed { IfOk result (LieInRam self.now.map.now.ram va len) }
    {
        let devices = atomicity.devices_answer(self.choices);
        let request = data_request(self.csrs, self.mode, Access::Store, len, devices);
        if va % u64::from(len) == 0 {
            return whole_place(self, request, va, &mut accesses.seen, &mut accesses.sets);
        }
        if is_trapped(self.choices, atomicity) {
            return Err((Cause::StoreAddressMisaligned, va));
        }
        let request = without_devices(request);
        split_places(self, request, va, &mut accesses.seen, &mut accesses.sets)
    }
}

/// Whether an access that is misaligned traps.
fn is_trapped(choices: &Choices, atomicity: Atomicity) -> bool
    ensures { result ≡ (is_atomic atomicity || not (are_done choices.now.misaligned)) }
{
    atomicity.is_atomic() || !choices.misaligned.are_done()
}

/// A load or a store as it is asked for, and whether devices answer it.
fn data_request(csrs: &Csrs, mode: Mode, access: Access, len: u8, devices: bool) -> AccessRequest
    ensures { result ≡ data_request csrs.now mode access len devices }
{
    AccessRequest {
        mode: data_mode(csrs, mode),
        access,
        len,
        devices,
    }
}

/// The same, but that no device answers it.
fn without_devices(request: AccessRequest) -> AccessRequest
    ensures { result ≡ record request { devices = false } }
{
    AccessRequest {
        devices: false,
        ..request
    }
}

/// A load of one part.
fn load_whole<M: PhysMem>(
    space: &AddressSpace<M>,
    request: AccessRequest,
    va: u64,
    seen: &mut Seen,
    sets: &mut Sets,
) -> Result<(Place, Option<Place>, u64), (Cause, u64)>
    requires nonempty { 1 ≤ request.len }
    requires at_most_8 { request.len ≤ 8 }
    requires page { va % PAGE_SIZE + request.len ≤ PAGE_SIZE }
    requires room { length seen.old + PART_READS ≤ MOST_READS }
    requires sets { length sets.old < MOST_SETS }
    ensures looked { let s = space.now in
        Notes (load_by (whole_place_of s.csrs.now s.map.now s.choices.now request va) va
        request.len)
        result seen.old seen.new sets.old sets.new (M.bytes s.mem.now) }
    ensures noted { length seen.new ≤ length seen.old + PART_READS }
    ensures set { length sets.new ≤ length sets.old + WALK_SETS }
    ensures set_none { space.now.choices.now.marks ≡ Fault → sets.new ≡ sets.old }
    ensures fits { IfOk result (λ found. found.2 < 2 ^ (8 * request.len)) }
    ensures one { IfOk result (λ found. found.1 ≡ None) }
    ensures memory { request.devices ≡ false → IfOk result (λ found. found.0.is_device ≡ false) }
    ensures placed { IfOk result
        (λ found. LieInRam space.now.map.now.ram va request.len (found.0, found.1)) }
{
    match space.part_place(request, va, seen, sets) {
        Err(exception) => Err(exception),
        Ok(place) => Ok((place, None, space.value_at(place, request.len, seen, sets))),
    }
}

/// A misaligned load, which may run into the next page.
fn load_split<M: PhysMem>(
    space: &AddressSpace<M>,
    request: AccessRequest,
    va: u64,
    seen: &mut Seen,
    sets: &mut Sets,
) -> Result<(Place, Option<Place>, u64), (Cause, u64)>
    requires nonempty { 1 ≤ request.len }
    requires at_most_8 { request.len ≤ 8 }
    requires memory { request.devices ≡ false }
    requires room { length seen.old + ACCESS_READS ≤ MOST_READS }
    requires sets { length sets.old + ACCESS_SETS ≤ MOST_SETS }
    ensures looked { let s = space.now in
        Notes (load_by (split_places_of s.csrs.now s.map.now s.choices.now request va) va
        request.len)
        result seen.old seen.new sets.old sets.new (M.bytes s.mem.now) }
    ensures noted { length seen.new ≤ length seen.old + ACCESS_READS }
    ensures set { length sets.new ≤ length sets.old + ACCESS_SETS }
    ensures set_none { space.now.choices.now.marks ≡ Fault → sets.new ≡ sets.old }
    ensures fits { IfOk result (λ found. found.2 < 2 ^ (8 * request.len)) }
    ensures memory { IfOk result (λ found. found.0.is_device ≡ false) }
    ensures placed { IfOk result
        (λ found. LieInRam space.now.map.now.ram va request.len (found.0, found.1)) }
{
    match split_places(space, request, va, seen, sets) {
        Err(exception) => Err(exception),
        Ok((place, None)) => Ok((place, None, space.value_at(place, request.len, seen, sets))),
        Ok((first, Some(second))) => {
            let len = first_len(va, request.len);
            let low = Read { pa: first.pa, len };
            let high = Read {
                pa: second.pa,
                len: request.len - len,
            };
            let value = space.joined_value(low, high, seen, sets);
            Ok((first, Some(second), value))
        }
    }
}

/// The place of an access of one part.
fn whole_place<M: PhysMem>(
    space: &AddressSpace<M>,
    request: AccessRequest,
    va: u64,
    seen: &mut Seen,
    sets: &mut Sets,
) -> Result<(Place, Option<Place>), (Cause, u64)>
    requires nonempty { 1 ≤ request.len }
    requires at_most_8 { request.len ≤ 8 }
    requires page { va % PAGE_SIZE + request.len ≤ PAGE_SIZE }
    requires room { length seen.old + WALK_READS ≤ MOST_READS }
    requires sets { length sets.old < MOST_SETS }
    ensures found { let s = space.now in
        Notes (whole_place_of s.csrs.now s.map.now s.choices.now request va) result
        seen.old seen.new sets.old sets.new (M.bytes s.mem.now) }
    ensures noted { length seen.new ≤ length seen.old + WALK_READS }
    ensures set { length sets.new ≤ length sets.old + WALK_SETS }
    ensures set_none { space.now.choices.now.marks ≡ Fault → sets.new ≡ sets.old }
    ensures one { IfOk result (λ places. places.1 ≡ None) }
    ensures memory { request.devices ≡ false → IfOk result (λ places. places.0.is_device ≡ false) }
    ensures placed { IfOk result (LieInRam space.now.map.now.ram va request.len) }
{
    match space.part_place(request, va, seen, sets) {
        Err(exception) => Err(exception),
        Ok(place) => Ok((place, None)),
    }
}

/// The places of a misaligned access, which may run into the next page.
#[tactic(auto, unfolding(crate::specs::Accesses::split_places_of))]
fn split_places<M: PhysMem>(
    space: &AddressSpace<M>,
    request: AccessRequest,
    va: u64,
    seen: &mut Seen,
    sets: &mut Sets,
) -> Result<(Place, Option<Place>), (Cause, u64)>
    requires nonempty { 1 ≤ request.len }
    requires at_most_8 { request.len ≤ 8 }
    requires memory { request.devices ≡ false }
    requires room { length seen.old + 2 * WALK_READS ≤ MOST_READS }
    requires sets { length sets.old + ACCESS_SETS ≤ MOST_SETS }
    ensures found { let s = space.now in
        Notes (split_places_of s.csrs.now s.map.now s.choices.now request va) result
        seen.old seen.new sets.old sets.new (M.bytes s.mem.now) }
    ensures noted { length seen.new ≤ length seen.old + 2 * WALK_READS }
    ensures set { length sets.new ≤ length sets.old + ACCESS_SETS }
    ensures set_none { space.now.choices.now.marks ≡ Fault → sets.new ≡ sets.old }
    ensures memory { IfOk result (λ places. places.0.is_device ≡ false) }
    ensures placed { IfOk result (LieInRam space.now.map.now.ram va request.len) }
{
    let low_len = first_len(va, request.len);
    if low_len == request.len {
        return whole_place(space, request, va, seen, sets);
    }
    let low = AccessRequest {
        len: low_len,
        ..request
    };
    let high = AccessRequest {
        len: request.len - low_len,
        ..request
    };
    let next = va.wrapping_add(u64::from(low_len));
    let first = match space.part_place(low, va, seen, sets) {
        Err(exception) => return Err(exception),
        Ok(first) => first,
    };
    match space.part_place(high, next, seen, sets) {
        Err(exception) => Err(exception),
        Ok(second) => Ok((first, Some(second))),
    }
}

/// How many bytes of an access lie in the page of its first.
pub fn first_len(va: u64, len: u8) -> u8
    ensures { result ≡ first_len va len }
{
    let left = PAGE_SIZE - va % PAGE_SIZE;
    if u64::from(len) <= left {
        len
    } else {
        left as u8
    }
}
