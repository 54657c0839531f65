//! The accesses of instructions to memory.

ghost use Rattle.std.specs.Prelude.{◌≡◌, ◌≤◌, ◌<◌, ◌+◌, ◌*◌, ◌++◌, false, true, List, [], None, length, IfOk, IfSome};
ghost use Rattle.hart_words.specs.declared.accesses.Read.{Read};
ghost use Rattle.hart_words.specs.declared.accesses.Write.{Write};
ghost use Rattle.hart_words.specs.declared.span.Span.{Span};
ghost use Rattle.hart_words.specs.Memory.{Bytes};
ghost use Rattle.hart_words.specs.Actions.{Notes};
ghost use Rattle.hart_words.specs.AccessSizes.{bytes_of};
ghost use Rattle.hart_step.specs.MemoryAccess.{fault_of, device_refuses, located_access, load_at, store_places, exchange_at, found_without_value, expected_access, value_found, loaded_value, is_stored, access_result_by, number_written, put_at, memory_access};
ghost use Rattle.mem_access.specs.Accesses.{LieInRam, devices_answer, first_len, is_atomic};
ghost use Rattle.hart_step.specs.Cores.{IsSound, IsSoundReservation};
ghost use Rattle.hart_step.specs.Changes.{AreInRam, AreStores};

use crate::choices::RowChoices;
use crate::instruction::Exception;
use crate::state::Core;
use hart_words::{Cause, MOST_READS, PhysMem, Wrote, sext};
use mem_access::{
    ACCESS_SETS, Accesses, AddressSpace, Atomicity, FETCH_READS, FETCH_SETS, Place, first_len,
};
use rv_atomic::{Reservation, amo};
use rv_integer::{MemoryOp, MemoryRequest};
use rvfi_rows::Accessed;

/// What comes of an access.
#[derive(Clone, Copy, Debug)]
pub struct AccessResult {
    /// The destination's value.
    pub value: u64,
    /// The access that was made; a failed SC makes none.
    pub access: Option<Accessed>,
    /// What is reserved after it.
    pub reservation: Reservation,
}

impl Core {
    /// An access: what comes of it, or the exception that it raises. What it reads, what it sets in
    /// page tables and what it stores is noted.
    pub(crate) fn access<M: PhysMem>(
        &self,
        request: &MemoryRequest,
        choices: &RowChoices,
        mem: &M,
        accesses: &mut Accesses,
    ) -> Result<AccessResult, Exception>
        requires ram { M.ram mem.now ≡ self.now.map.ram }
        requires room { length accesses.old.seen ≤ FETCH_READS }
        requires sets { length accesses.old.sets ≤ FETCH_SETS }
        requires sets_in_ram { AreInRam self.now.map.ram accesses.old.sets }
        requires blank { accesses.old.stores ≡ [] }
        ensures accessed { Notes (memory_access self.now choices.now request.now) result
            accesses.old.seen accesses.new.seen accesses.old.sets
            (accesses.new.sets ++ accesses.new.stores) (M.bytes mem.now) }
        ensures reserved { IsSound self.now → IfOk result (λ answer. IsSoundReservation
            self.now.map.ram self.now.choices.block_size answer.reservation) }
        ensures set { length accesses.new.sets ≤ FETCH_SETS + ACCESS_SETS }
        ensures set_in_ram { AreInRam self.now.map.ram accesses.new.sets }
        ensures stored { AreStores self.now.map.ram accesses.new.stores }
    {
        let (first, second, held) = match self.locate(request, mem, accesses) {
            Ok(found) => found,
            Err(exception) => return Err(exception),
        };
        if self.device_refuses(choices, first) {
            return Err((fault_of(request.op), request.address));
        }
        let answer = self.access_result(request, choices, first, held);
        if let Some(value) = number_written(answer.access) {
            note_store(request, first, second, value, &mut accesses.stores);
        }
        Ok(answer)
    }

    /// Where an access goes, with what memory has there as far as the access reads it.
    #[tactic(auto, unfolding(crate::specs::MemoryAccess::located_access))]
    fn locate<M: PhysMem>(
        &self,
        request: &MemoryRequest,
        mem: &M,
        accesses: &mut Accesses,
    ) -> Result<(Place, Option<Place>, u64), Exception>
        requires ram { M.ram mem.now ≡ self.now.map.ram }
        requires room { length accesses.old.seen ≤ FETCH_READS }
        requires sets { length accesses.old.sets ≤ FETCH_SETS }
        requires sets_in_ram { AreInRam self.now.map.ram accesses.old.sets }
        ensures located { Notes (located_access self.now request.now) result
            accesses.old.seen accesses.new.seen accesses.old.sets accesses.new.sets
            (M.bytes mem.now) }
        ensures set { length accesses.new.sets ≤ FETCH_SETS + ACCESS_SETS }
        ensures set_in_ram { AreInRam self.now.map.ram accesses.new.sets }
        ensures stores { accesses.new.stores ≡ accesses.old.stores }
        ensures in_ram { IfOk result (λ found. LieInRam self.now.map.ram request.now.address
            (bytes_of request.now.size) (found.0, found.1)) }
    {
        match request.op {
            MemoryOp::Load { .. } => self.load_at(request, Atomicity::Plain, mem, accesses),
            MemoryOp::LoadReserved => { self.load_at(request, Atomicity::Reserved, mem, accesses) }
            MemoryOp::Store { .. } => {
                found_without_value(self.store_places(request, Atomicity::Plain, mem, accesses))
            }
            MemoryOp::StoreConditional { .. } => {
                found_without_value(self.store_places(request, Atomicity::Reserved, mem, accesses))
            }
            MemoryOp::Amo { .. } => self.exchange_at(request, mem, accesses),
        }
    }

    /// The place of an atomic memory operation, with what memory has there.
    fn exchange_at<M: PhysMem>(
        &self,
        request: &MemoryRequest,
        mem: &M,
        accesses: &mut Accesses,
    ) -> Result<(Place, Option<Place>, u64), Exception>
        requires ram { M.ram mem.now ≡ self.now.map.ram }
        requires room { length accesses.old.seen ≤ FETCH_READS }
        requires sets { length accesses.old.sets ≤ FETCH_SETS }
        requires sets_in_ram { AreInRam self.now.map.ram accesses.old.sets }
        ensures located { Notes
            (exchange_at self.now request.now.address (bytes_of request.now.size)) result
            accesses.old.seen accesses.new.seen accesses.old.sets accesses.new.sets
            (M.bytes mem.now) }
        ensures set { length accesses.new.sets ≤ FETCH_SETS + ACCESS_SETS }
        ensures set_in_ram { AreInRam self.now.map.ram accesses.new.sets }
        ensures stores { accesses.new.stores ≡ accesses.old.stores }
        ensures in_ram { IfOk result (λ found. LieInRam self.now.map.ram request.now.address
            (bytes_of request.now.size) (found.0, found.1)) }
    {
        let (first, second) = match self.store_places(request, Atomicity::Amo, mem, accesses) {
            Ok(places) => places,
            Err(exception) => return Err(exception),
        };
        if first.is_device {
            return Ok((first, second, 0));
        }
        let len = request.size.bytes();
        accesses.seen.put(first.pa, len);
        let space = AddressSpace {
            mem,
            csrs: &self.csrs,
            map: &self.map,
            choices: &self.choices,
            mode: self.mode,
        };
        let held = space.number(first.pa, len, &accesses.sets);
        Ok((first, second, held))
    }

    /// A load with its places.
    fn load_at<M: PhysMem>(
        &self,
        request: &MemoryRequest,
        atomicity: Atomicity,
        mem: &M,
        accesses: &mut Accesses,
    ) -> Result<(Place, Option<Place>, u64), Exception>
        requires ram { M.ram mem.now ≡ self.now.map.ram }
        requires room { length accesses.old.seen ≤ FETCH_READS }
        requires sets { length accesses.old.sets ≤ FETCH_SETS }
        requires sets_in_ram { AreInRam self.now.map.ram accesses.old.sets }
        ensures located { Notes
            (load_at self.now request.now.address (bytes_of request.now.size) atomicity) result
            accesses.old.seen accesses.new.seen accesses.old.sets accesses.new.sets
            (M.bytes mem.now) }
        ensures set { length accesses.new.sets ≤ FETCH_SETS + ACCESS_SETS }
        ensures set_in_ram { AreInRam self.now.map.ram accesses.new.sets }
        ensures stores { accesses.new.stores ≡ accesses.old.stores }
        ensures in_ram { IfOk result (λ found. LieInRam self.now.map.ram request.now.address
            (bytes_of request.now.size) (found.0, found.1)) }
    {
        let space = AddressSpace {
            mem,
            csrs: &self.csrs,
            map: &self.map,
            choices: &self.choices,
            mode: self.mode,
        };
        space.load(request.address, request.size.bytes(), atomicity, accesses)
    }

    /// The places of a store.
    fn store_places<M: PhysMem>(
        &self,
        request: &MemoryRequest,
        atomicity: Atomicity,
        mem: &M,
        accesses: &mut Accesses,
    ) -> Result<(Place, Option<Place>), Exception>
        requires ram { M.ram mem.now ≡ self.now.map.ram }
        requires room { length accesses.old.seen ≤ FETCH_READS }
        requires sets { length accesses.old.sets ≤ FETCH_SETS }
        requires sets_in_ram { AreInRam self.now.map.ram accesses.old.sets }
        ensures located { Notes
            (store_places self.now request.now.address (bytes_of request.now.size) atomicity) result
            accesses.old.seen accesses.new.seen accesses.old.sets accesses.new.sets
            (M.bytes mem.now) }
        ensures room_left { length accesses.new.seen < MOST_READS }
        ensures set { length accesses.new.sets ≤ FETCH_SETS + ACCESS_SETS }
        ensures set_in_ram { AreInRam self.now.map.ram accesses.new.sets }
        ensures stores { accesses.new.stores ≡ accesses.old.stores }
        ensures memory { devices_answer self.now.choices atomicity ≡ false
            → IfOk result (λ places. places.0.is_device ≡ false) }
        ensures one { is_atomic atomicity ≡ true → IfOk result (λ places. places.1 ≡ None) }
        ensures in_ram { IfOk result (LieInRam self.now.map.ram request.now.address
            (bytes_of request.now.size)) }
    {
        let space = AddressSpace {
            mem,
            csrs: &self.csrs,
            map: &self.map,
            choices: &self.choices,
            mode: self.mode,
        };
        space.store_place(request.address, request.size.bytes(), atomicity, accesses)
    }

    /// What comes of an access to a place where memory has this number.
    #[tactic(auto, unfolding(crate::specs::MemoryAccess::access_result_of))]
    fn access_result(
        &self,
        request: &MemoryRequest,
        choices: &RowChoices,
        place: Place,
        held: u64,
    ) -> AccessResult
        ensures { result ≡ access_result_by self.now choices.now request.now place held request.now.op }
    {
        match request.op {
            MemoryOp::Load { signed } => {
                let value = value_found(choices, request, place, held);
                AccessResult {
                    value: loaded_value(signed, request, value),
                    access: expected_access(request, place, Some(value), None),
                    reservation: self.reservation,
                }
            }
            MemoryOp::LoadReserved => {
                let mut reservation = self.reservation;
                reservation.set(place.pa, self.choices.block_size);
                AccessResult {
                    value: loaded_value(true, request, held),
                    access: expected_access(request, place, Some(held), None),
                    reservation,
                }
            }
            MemoryOp::Store { value } => AccessResult {
                value: 0,
                access: expected_access(request, place, None, Some(value)),
                reservation: self.reservation,
            },
            MemoryOp::StoreConditional { value } => {
                let stored = self.is_stored(choices, request, place);
                let access = expected_access(request, place, None, Some(value));
                AccessResult {
                    value: if stored { 0 } else { 1 },
                    access: if stored { access } else { None },
                    reservation: Reservation::NONE,
                }
            }
            MemoryOp::Amo { op, width, b } => {
                let found = value_found(choices, request, place, held);
                let written = amo(op, width, found, b);
                AccessResult {
                    value: loaded_value(true, request, found),
                    access: expected_access(request, place, Some(found), Some(written)),
                    reservation: self.reservation,
                }
            }
        }
    }

    /// Whether a device refuses the access, where devices may and the row shows a trap.
    fn device_refuses(&self, choices: &RowChoices, place: Place) -> bool
        ensures { result ≡ device_refuses self.now choices.now place }
    {
        place.is_device && self.choices.device_faults.are_by_row() && choices.traps
    }

    /// Whether an SC stores: in the reserved block alone, and there as the row says.
    fn is_stored(&self, choices: &RowChoices, request: &MemoryRequest, place: Place) -> bool
        ensures { result ≡ is_stored self.now choices.now request.now place }
    {
        self.reservation.covers(place.pa, request.size.bytes()) && choices.says_stored()
    }
}

/// The fault of an access that is refused.
fn fault_of(op: MemoryOp) -> Cause
    ensures { result ≡ fault_of op }
{
    match op {
        MemoryOp::Load { .. } | MemoryOp::LoadReserved => Cause::LoadAccessFault,
        MemoryOp::Store { .. } | MemoryOp::StoreConditional { .. } | MemoryOp::Amo { .. } =>
            Cause::StoreAccessFault,
    }
}

/// The places of a store, which does not look at what memory has.
fn found_without_value(
    found: Result<(Place, Option<Place>), Exception>,
) -> Result<(Place, Option<Place>, u64), Exception>
    ensures { result ≡ found_without_value found }
{
    match found {
        Ok((first, second)) => Ok((first, second, 0)),
        Err(exception) => Err(exception),
    }
}

/// The access, as the comparison sees it.
fn expected_access(
    request: &MemoryRequest,
    place: Place,
    read: Option<u64>,
    written: Option<u64>,
) -> Option<Accessed>
    ensures { result ≡ expected_access request.now place read written }
{
    Some(Accessed {
        va: request.address,
        pa: place.pa,
        len: request.size.bytes(),
        read,
        written,
    })
}

/// What a load or an atomic memory operation found: a device gives what the row shows.
fn value_found(choices: &RowChoices, request: &MemoryRequest, place: Place, held: u64) -> u64
    ensures { result ≡ value_found choices.now request.now place held }
{
    if place.is_device {
        choices.device_value(request.address, request.size.bytes())
    } else {
        held
    }
}

/// A number of the access's bytes as a register gets it.
fn loaded_value(signed: bool, request: &MemoryRequest, value: u64) -> u64
    ensures { result ≡ loaded_value signed request.now value }
{
    if signed {
        sext(value, 8 * u32::from(request.size.bytes()))
    } else {
        value
    }
}

/// The number that is written.
fn number_written(access: Option<Accessed>) -> Option<u64>
    ensures { result ≡ number_written access }
{
    match access {
        None => None,
        Some(access) => access.written,
    }
}

/// Notes that a number is to be stored at its place, unless a device takes it; or its low bytes at
/// the first place and the others at the second.
fn note_store(
    request: &MemoryRequest,
    first: Place,
    second: Option<Place>,
    value: u64,
    stores: &mut Wrote,
)
    requires blank { stores.old ≡ [] }
    requires parts { IfSome second (λ _. first_len request.now.address (bytes_of request.now.size)
        < bytes_of request.now.size) }
    ensures put { (seen : List Read) (sets : List Write) (bytes : Bytes)
        → Notes (put_at (first, second) request.now value) tt seen seen sets (sets ++ stores.new)
        bytes }
    ensures stored { (ram : Span)
        → LieInRam ram request.now.address (bytes_of request.now.size) (first, second)
        → AreStores ram stores.new }
{
    let len = request.size.bytes();
    match second {
        None => {
            if !first.is_device {
                stores.put(first.pa, len, value);
            }
        }
        Some(second) => {
            let low = first_len(request.address, len);
            stores.put(first.pa, low, value);
            stores.put(second.pa, len - low, value >> (8 * u32::from(low)));
        }
    }
}
