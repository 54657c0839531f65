ghost use Rattle.std.specs.Prelude.{◌≡◌, ◌≤◌, ◌<◌, ◌+◌, ◌*◌, ◌%◌, ◌^◌};
ghost use Rattle.hart_words.specs.Memory.{after_writes};

use super::*;
use crate::address_space::join_numbers;
use crate::place::is_allowed;
use csr_file::fields::{SATP_MODE, SV39};
use csr_file::{Csrs, EntryCount, StoredCsr};
use hart_words::{
    Access, Cause, Choices, DeviceFaults, InsnBits, Map, Marks, Misaligned, Mode, NoMemory,
    PhysMem, PmpEntry, Sets, Span, TrapValues, Write,
};
use std::test::Fail;

/// 2 GiB of RAM, and a page of devices.
fn ram_and_devices() -> Result<Map, Fail> {
    let ram = Span::new(0x8000_0000, 0x8000_0000).ok_or("no range")?;
    let io = Span::new(0x1000_0000, 0x1000).ok_or("no range")?;
    Ok(Map::new(ram, Some(io)).ok_or("no map")?)
}

/// A memory in which some entries of page tables are set; every other byte is by one more than the
/// low byte of its address. It refuses every write.
#[derive(Drop)]
struct Counted {
    ram: Span,
    entries: Sets,
}

impl PhysMem for Counted {
    ghost use Rattle.std.specs.Prelude.{◌+◌, ◌%◌};
    ghost use Rattle.hart_words.specs.Memory.{after_writes};
    ghost use Rattle.std.proofs.Common.{lit<};
    ghost use Rattle.std.proofs.lemmas.Nat.{mod_below};

    ghost bytes = { λ mem at. after_writes mem.entries (λ a. a + 1) at % 256 };

    ghost ram = { λ mem. mem.ram };

    ghost is_ready = { λ _ _. ⊥ };

    ghost bytes_are_bytes = { λ mem at.
        mod_below (after_writes mem.entries (λ a. a + 1) at) 256 (lit< tt) };

    fn read(&self, pa: u64, len: u8) -> u64 {
        self.number(pa, len)
    }

    fn write(&mut self, _pa: u64, _len: u8, _value: u64) -> Result<(), NoMemory> {
        Err(NoMemory)
    }

    fn ready(&mut self, _pa: u64) -> Result<(), NoMemory> {
        Err(NoMemory)
    }

    fn copy(&self) -> Result<Counted, NoMemory> {
        Err(NoMemory)
    }
}

impl Counted {
    ghost use Rattle.hart_words.specs.Memory.{number_at};

    /// The number of 1 to 8 bytes.
    fn number(&self, pa: u64, len: u8) -> u64
        requires nonempty { 1 ≤ len }
        requires at_most_8 { len ≤ 8 }
        requires narrow { pa + len ≤ 2 ^ 56 }
        ensures value { result
            ≡ number_at (λ at. after_writes self.now.entries (λ a. a + 1) at % 256) pa len }
        ensures fits { result < 2 ^ (8 * len) }
    {
        let byte = u64::from(self.byte(pa));
        if len == 1 {
            return byte;
        }
        join_numbers(1, byte, self.number(pa + 1, len - 1))
    }

    fn byte(&self, pa: u64) -> u8
        requires { pa < 2 ^ 56 }
        ensures { result ≡ after_writes self.now.entries (λ a. a + 1) pa % 256 }
    {
        match self.entries.byte(pa) {
            Some(byte) => byte,
            None => ((pa + 1) % 256) as u8,
        }
    }
}

/// The root table, in page 0x80001, by which S and U access memory.
const ROOT: u64 = 0x8000_1000;

/// Its entries 0, 1 and 511, each for 1 GiB: with the low bits of each.
fn tables(ram: Span, entries: [u64; 3]) -> Counted
    ensures { result.ram ≡ ram }
{
    let mut set = Sets::empty();
    set.put(ROOT, entries[0]);
    set.put(ROOT + 8, entries[1]);
    set.put(ROOT + 8 * 511, entries[2]);
    Counted { ram, entries: set }
}

/// Entries of these tables: 1 GiB at 0xc000_0000 and at 0x8000_0000. The low bits are V, R, W and
/// X, and A at 0x40 and D at 0x80.
const HIGH: u64 = 0xc0000 << 10;

const LOW: u64 = 0x80000 << 10;

const MARKED: u64 = 0xcf;

const BARE: u64 = 0x0f;

/// Registers by which S accesses all of memory by the root table.
fn paging_csrs() -> Csrs {
    let mut csrs = Csrs::reset();
    csrs.entries[0] = PmpEntry {
        cfg: 0x1f,
        addr: 0x3f_ffff_ffff_ffff,
    };
    csrs.set(StoredCsr::Satp, SV39 << SATP_MODE | ROOT >> 12);
    csrs
}

/// A memory as a hart accesses it.
fn space_of<'a>(
    mem: &'a Counted,
    csrs: &'a Csrs,
    map: &'a Map,
    choices: &'a Choices,
    mode: Mode,
) -> AddressSpace<'a, Counted>
    requires { mem.now.ram ≡ map.now.ram }
{
    AddressSpace {
        mem,
        csrs,
        map,
        choices,
        mode,
    }
}

/// Choices by which misaligned accesses are done.
fn done(marks: Marks) -> Result<Choices, Fail> {
    let values = TrapValues::Value;
    Ok(Choices::new(Misaligned::Done, values, marks, 64, false).ok_or("no choices")?)
}

/// A place in memory.
fn memory(pa: u64) -> Place {
    Place {
        pa,
        is_device: false,
    }
}

/// Loads of eight bytes where misaligned accesses trap: the address, whether it is LR, and what
/// comes of it; the place is given by whether a device has it.
#[test]
fn loads(rt: HostRuntime) -> Result<(), Fail> {
    let plain = Atomicity::Plain;
    let reserved = Atomicity::Reserved;
    let map = ram_and_devices()?;
    let mem = tables(map.ram, [0; 3]);
    let misaligned = Cause::LoadAddressMisaligned;
    let fault = Cause::LoadAccessFault;
    let cases = [
        (0x8000_0ff8, plain, Ok(false)),
        (0x8000_0ff8, reserved, Ok(false)),
        (0x8000_0ffc, plain, Err((misaligned, 0x8000_0ffc))),
        (0x1_0000_0000, plain, Err((fault, 0x1_0000_0000))),
        (0x7fff_fff8, plain, Err((fault, 0x7fff_fff8))),
        (0x1000_0000, plain, Ok(true)),
        (0x1000_0000, reserved, Err((fault, 0x1000_0000))),
        (0x1000_0004, reserved, Err((misaligned, 0x1000_0004))),
        (u64::MAX - 7, plain, Err((fault, u64::MAX - 7))),
    ];
    for (va, atomicity, want) in cases {
        let mut accesses = Accesses::nothing();
        let csrs = Csrs::reset();
        let choices = Choices::plain();
        let space = space_of(&mem, &csrs, &map, &choices, Mode::Machine);
        let found = space.load(va, 8, atomicity, &mut accesses);
        let of_device = match found {
            Ok((place, _, _)) => Ok(place.is_device),
            Err(exception) => Err(exception),
        };
        assert_eq!(rt; of_device, want);
        assert_eq!(rt; accesses.seen.as_slice().len() == 1, want == Ok(false));
    }
    Ok(())
}

/// Places of stores where misaligned accesses trap, for SC without devices.
#[test]
fn places_of_stores(rt: HostRuntime) -> Result<(), Fail> {
    let plain = Atomicity::Plain;
    let reserved = Atomicity::Reserved;
    let map = ram_and_devices()?;
    let mem = tables(map.ram, [0; 3]);
    let misaligned = Cause::StoreAddressMisaligned;
    let fault = Cause::StoreAccessFault;
    let cases = [
        (0x8000_0ffc, plain, Ok(false)),
        (0x8000_0ffe, plain, Err((misaligned, 0x8000_0ffe))),
        (0x1_0000_0000, reserved, Err((fault, 0x1_0000_0000))),
        (0x1000_0ffc, plain, Ok(true)),
        (0x1000_0ffc, reserved, Err((fault, 0x1000_0ffc))),
        (0x1000_1000, plain, Err((fault, 0x1000_1000))),
    ];
    for (va, atomicity, want) in cases {
        let csrs = Csrs::reset();
        let choices = Choices::plain();
        let space = space_of(&mem, &csrs, &map, &choices, Mode::Machine);
        let found = space.store_place(va, 4, atomicity, &mut Accesses::nothing());
        let of_device = match found {
            Ok((place, _)) => Ok(place.is_device),
            Err(exception) => Err(exception),
        };
        assert_eq!(rt; of_device, want);
    }
    Ok(())
}

/// Places of atomic memory operations of four bytes, where devices refuse nothing and where the row
/// says what they refuse. None is misaligned, whatever other accesses do.
#[test]
fn places_of_amos(rt: HostRuntime) -> Result<(), Fail> {
    let map = ram_and_devices()?;
    let mem = tables(map.ram, [0; 3]);
    let never = done(Marks::Fault)?;
    let by_row = never.with_rows(InsnBits::Full, DeviceFaults::ByRow);
    let misaligned = Cause::StoreAddressMisaligned;
    let fault = Cause::StoreAccessFault;
    let cases = [
        (never, 0x8000_0ffc, Ok(false)),
        (never, 0x1000_0ffc, Err((fault, 0x1000_0ffc))),
        (by_row, 0x8000_0ffc, Ok(false)),
        (by_row, 0x1000_0ffc, Ok(true)),
        (by_row, 0x1000_0ffe, Err((misaligned, 0x1000_0ffe))),
        (by_row, 0x1000_1000, Err((fault, 0x1000_1000))),
    ];
    for (choices, va, want) in cases {
        let csrs = Csrs::reset();
        let space = space_of(&mem, &csrs, &map, &choices, Mode::Machine);
        let found = space.store_place(va, 4, Atomicity::Amo, &mut Accesses::nothing());
        let of_device = match found {
            Ok((place, _)) => Ok(place.is_device),
            Err(exception) => Err(exception),
        };
        assert_eq!(rt; of_device, want);
    }
    Ok(())
}

/// Whether a supervisor may load, by the number of entries that the core has and the configuration
/// of entry 8, which covers all. Where the core has none, everyone may.
#[test]
fn entries_of_the_core(rt: HostRuntime) -> Result<(), Fail> {
    let cases = [
        (EntryCount::Sixteen, 0x1f, true),
        (EntryCount::Eight, 0x1f, false),
        (EntryCount::Zero, 0x1e, true),
        (EntryCount::Sixteen, 0, false),
        (EntryCount::Eight, 0, false),
        (EntryCount::Zero, 0, true),
    ];
    for (count, cfg, allowed) in cases {
        let mut csrs = Csrs::reset();
        csrs.profile.entry_count = count;
        csrs.entries[8] = PmpEntry {
            cfg,
            addr: 0x3f_ffff_ffff_ffff,
        };
        let found = is_allowed(&csrs, Mode::Supervisor, 0x8000_0000, 8, Access::Load);
        assert_eq!(rt; found, allowed);
    }
    Ok(())
}

/// Fetches: a parcel whose low two bits are 3 is the first of two. Without an entry of physical
/// memory protection that matches, a supervisor may reach nothing.
#[test]
fn fetches(rt: HostRuntime) -> Result<(), Fail> {
    let map = ram_and_devices()?;
    let mem = tables(map.ram, [0; 3]);
    let fault = Cause::InstructionAccessFault;
    let cases = [
        (0x8000_0ffc, Mode::Machine, Ok((0xfefd, 2))),
        (0x8000_2ffe, Mode::Machine, Ok((0x0201_00ff, 4))),
        (0xffff_fffe, Mode::Machine, Err((fault, 0x1_0000_0000))),
        (0x8000_0ffe, Mode::Supervisor, Err((fault, 0x8000_0ffe))),
        (0x1_0000_0000, Mode::Machine, Err((fault, 0x1_0000_0000))),
        (0x1000_0000, Mode::Machine, Err((fault, 0x1000_0000))),
    ];
    for (pc, mode, want) in cases {
        assert!(rt; pc % 2 == 0);
        let csrs = Csrs::reset();
        let choices = Choices::plain();
        let space = space_of(&mem, &csrs, &map, &choices, mode);
        let found = space.fetch(pc, &mut Accesses::nothing());
        assert_eq!(rt; found, want);
    }
    Ok(())
}

/// Loads of the byte at an address by way of page tables: the configuration of entry 0, which
/// covers all, satp, the mode, and what comes of it with the number of reads. The entries that are
/// asked for are 0, which are not valid; those of page 0x100000 are outside RAM.
#[test]
fn loads_by_page_tables(rt: HostRuntime) -> Result<(), Fail> {
    let map = ram_and_devices()?;
    let mem = tables(map.ram, [0; 3]);
    let inside = SV39 << SATP_MODE | 0x80001;
    let outside = SV39 << SATP_MODE | 0x100000;
    let page_fault = Err(Cause::LoadPageFault);
    let access_fault = Err(Cause::LoadAccessFault);
    let cases = [
        (0x1f, inside, Mode::Supervisor, 0x4000_0000, page_fault, 1),
        (0x1f, inside, Mode::User, 0x4000_0000, page_fault, 1),
        (0x1f, inside, Mode::Supervisor, 1 << 38, page_fault, 0),
        (
            0x1f,
            outside,
            Mode::Supervisor,
            0x4000_0000,
            access_fault,
            0,
        ),
        (0x1e, inside, Mode::Supervisor, 0x4000_0000, access_fault, 0),
        (0x1f, inside, Mode::Machine, 0x8000_0000, Ok(false), 1),
        (0x1f, 0x80001, Mode::User, 0x8000_0000, Ok(false), 1),
        (0x1f, 0x80001, Mode::User, 0x1000_0000, Ok(true), 0),
    ];
    for (cfg, satp, mode, va, want, reads) in cases {
        let mut csrs = paging_csrs();
        csrs.entries[0].cfg = cfg;
        csrs.set(StoredCsr::Satp, satp);
        let mut accesses = Accesses::nothing();
        let choices = Choices::plain();
        let space = space_of(&mem, &csrs, &map, &choices, mode);
        let found = space.load(va, 1, Atomicity::Plain, &mut accesses);
        let of_device = match found {
            Ok((place, _, _)) => Ok(place.is_device),
            Err((cause, value)) => {
                assert_eq!(rt; value, va);
                Err(cause)
            }
        };
        assert_eq!(rt; of_device, want);
        assert_eq!(rt; accesses.seen.as_slice().len(), reads);
    }
    Ok(())
}

/// Misaligned loads of eight bytes without translation: within a page, over two, with a part
/// outside RAM, at devices, and near the last address. LR traps at each of these addresses, and so
/// does every load where misaligned accesses trap.
#[test]
fn misaligned_loads(rt: HostRuntime) -> Result<(), Fail> {
    let plain = Atomicity::Plain;
    let reserved = Atomicity::Reserved;
    let map = ram_and_devices()?;
    let mem = tables(map.ram, [0; 3]);
    let carried = done(Marks::Fault)?;
    let within = |pa: u64| -> Place { memory(pa) };
    let fault = |va: u64| -> (Cause, u64) { (Cause::LoadAccessFault, va) };
    let cases = [
        (
            0x8000_0ff1,
            Ok((within(0x8000_0ff1), None, 0xf9f8_f7f6_f5f4_f3f2)),
        ),
        (
            0x8000_2ffc,
            Ok((
                within(0x8000_2ffc),
                Some(within(0x8000_3000)),
                0x0403_0201_00ff_fefd,
            )),
        ),
        (
            0x8000_2fff,
            Ok((
                within(0x8000_2fff),
                Some(within(0x8000_3000)),
                0x0706_0504_0302_0100,
            )),
        ),
        (
            0x8000_2ff9,
            Ok((
                within(0x8000_2ff9),
                Some(within(0x8000_3000)),
                0x0100_fffe_fdfc_fbfa,
            )),
        ),
        (0xffff_fffc, Err(fault(0x1_0000_0000))),
        (0x7fff_fffc, Err(fault(0x7fff_fffc))),
        (0x1000_0004, Err(fault(0x1000_0004))),
        (0x1000_0ffc, Err(fault(0x1000_0ffc))),
        (u64::MAX - 3, Err(fault(u64::MAX - 3))),
    ];
    for (va, want) in cases {
        let ways = [
            (carried, plain, want),
            (carried, reserved, Err((Cause::LoadAddressMisaligned, va))),
            (
                Choices::plain(),
                plain,
                Err((Cause::LoadAddressMisaligned, va)),
            ),
        ];
        for (choices, atomicity, comes) in ways {
            let csrs = Csrs::reset();
            let space = space_of(&mem, &csrs, &map, &choices, Mode::Machine);
            let found = space.load(va, 8, atomicity, &mut Accesses::nothing());
            assert_eq!(rt; found, comes);
        }
    }
    Ok(())
}

/// The places of misaligned stores of four bytes without translation.
#[test]
fn misaligned_stores(rt: HostRuntime) -> Result<(), Fail> {
    let plain = Atomicity::Plain;
    let reserved = Atomicity::Reserved;
    let map = ram_and_devices()?;
    let mem = tables(map.ram, [0; 3]);
    let carried = done(Marks::Fault)?;
    let fault = Cause::StoreAccessFault;
    let misaligned = Cause::StoreAddressMisaligned;
    let one = memory(0x8000_0ff9);
    let low = memory(0x8000_0ffd);
    let high = memory(0x8000_1000);
    let cases = [
        (carried, plain, 0x8000_0ff9, Ok((one, None))),
        (carried, plain, 0x8000_0ffd, Ok((low, Some(high)))),
        (carried, plain, 0xffff_fffd, Err((fault, 0x1_0000_0000))),
        (carried, plain, 0x1000_0001, Err((fault, 0x1000_0001))),
        (
            carried,
            reserved,
            0x8000_0ffd,
            Err((misaligned, 0x8000_0ffd)),
        ),
        (
            Choices::plain(),
            plain,
            0x8000_0ffd,
            Err((misaligned, 0x8000_0ffd)),
        ),
    ];
    for (choices, atomicity, va, want) in cases {
        let csrs = Csrs::reset();
        let space = space_of(&mem, &csrs, &map, &choices, Mode::Machine);
        let found = space.store_place(va, 4, atomicity, &mut Accesses::nothing());
        assert_eq!(rt; found, want);
    }
    Ok(())
}

/// A write of an entry of the root table.
fn set_entry(index: u64, entry: u64) -> Write
    requires { index < 512 }
{
    Write {
        pa: ROOT + 8 * index,
        len: 8,
        value: entry,
    }
}

/// Loads of eight bytes over the pages of two entries: entries 0, 1 and 511, the address, the
/// reads, what comes of it, and what is set. The first part that is refused is the fault; what was
/// set before stays.
#[test]
fn loads_over_two_entries(rt: HostRuntime) -> Result<(), Fail> {
    let map = ram_and_devices()?;
    let choices = done(Marks::Set)?;
    let both = Ok((
        memory(0xffff_fffc),
        Some(memory(0x8000_0000)),
        0x0403_0201_00ff_fefd,
    ));
    let refused = |va: u64| -> (Cause, u64) { (Cause::LoadPageFault, va) };
    let end = 0x3fff_fffc;
    let top = u64::MAX - 3;
    let none = [set_entry(0, 0); 0];
    let first = [set_entry(0, HIGH | 0x4f)];
    let two = [set_entry(0, HIGH | 0x4f), set_entry(1, LOW | 0x4f)];
    let cases = [
        (
            [HIGH | MARKED, LOW | MARKED, 0],
            end,
            4,
            both,
            none.as_slice(),
        ),
        ([HIGH | BARE, LOW | BARE, 0], end, 4, both, two.as_slice()),
        (
            [HIGH | BARE, 0, 0],
            end,
            2,
            Err(refused(0x4000_0000)),
            first.as_slice(),
        ),
        (
            [0, LOW | BARE, 0],
            end,
            1,
            Err(refused(end)),
            none.as_slice(),
        ),
        (
            [LOW | MARKED, 0, HIGH | MARKED],
            top,
            4,
            both,
            none.as_slice(),
        ),
        (
            [0, 0, HIGH | MARKED],
            top,
            2,
            Err(refused(0)),
            none.as_slice(),
        ),
    ];
    for (entries, va, reads, want, sets) in cases {
        let mem = tables(map.ram, entries);
        let mut accesses = Accesses::nothing();
        let csrs = paging_csrs();
        let space = space_of(&mem, &csrs, &map, &choices, Mode::Supervisor);
        let found = space.load(va, 8, Atomicity::Plain, &mut accesses);
        assert_eq!(rt; found, want);
        assert_eq!(rt; accesses.seen.as_slice().len(), reads);
        assert_eq!(rt; accesses.sets.as_slice(), sets);
    }
    Ok(())
}

/// Fetches of four bytes over the pages of two entries. Where the hart does not set A, an entry
/// without it is a page fault.
#[test]
fn fetches_over_two_entries(rt: HostRuntime) -> Result<(), Fail> {
    let map = ram_and_devices()?;
    let fault = Cause::InstructionPageFault;
    let none = [set_entry(0, 0); 0];
    let first = [set_entry(0, HIGH | 0x4f)];
    let two = [set_entry(0, HIGH | 0x4f), set_entry(1, LOW | 0x4f)];
    let unmarked = [HIGH | BARE, LOW | BARE, 0];
    let word = Ok((0x0201_00ff, 4));
    let cases = [
        (Marks::Set, unmarked, word, two.as_slice()),
        (
            Marks::Set,
            [HIGH | BARE, 0, 0],
            Err((fault, 0x4000_0000)),
            first.as_slice(),
        ),
        (
            Marks::Fault,
            unmarked,
            Err((fault, 0x3fff_fffe)),
            none.as_slice(),
        ),
    ];
    for (marks, entries, want, sets) in cases {
        let mut accesses = Accesses::nothing();
        let csrs = paging_csrs();
        let mem = tables(map.ram, entries);
        let choices = done(marks)?;
        let space = space_of(&mem, &csrs, &map, &choices, Mode::Supervisor);
        let found = space.fetch(0x3fff_fffe, &mut accesses);
        assert_eq!(rt; found, want);
        assert_eq!(rt; accesses.sets.as_slice(), sets);
    }
    Ok(())
}

/// What was set before is read as it was set: by loads of the entries themselves, aligned and not,
/// and by the walks of a store, which sets D too.
#[test]
fn entries_set_before(rt: HostRuntime) -> Result<(), Fail> {
    let map = ram_and_devices()?;
    let mem = tables(map.ram, [HIGH | BARE, LOW | BARE, 0]);
    let choices = done(Marks::Set)?;
    let cases = [
        (ROOT, HIGH | 0x4f),
        (ROOT + 4, 0x2000_004f_0000_0000),
        (ROOT + 14, 0x1615_1413_1211_0000),
    ];
    for (va, value) in cases {
        let mut accesses = Accesses::nothing();
        accesses.sets.put(ROOT, HIGH | 0x4f);
        accesses.sets.put(ROOT + 8, LOW | 0x4f);
        let csrs = paging_csrs();
        let space = space_of(&mem, &csrs, &map, &choices, Mode::Machine);
        let found = space.load(va, 8, Atomicity::Plain, &mut accesses);
        assert_eq!(rt; found, Ok((memory(va), None, value)));
    }
    let mut accesses = Accesses::nothing();
    accesses.sets.put(ROOT, HIGH | 0x4f);
    let csrs = paging_csrs();
    let space = space_of(&mem, &csrs, &map, &choices, Mode::Supervisor);
    let found = space.store_place(0x3fff_fffe, 4, Atomicity::Plain, &mut accesses);
    let places = (memory(0xffff_fffe), Some(memory(0x8000_0000)));
    assert_eq!(rt; found, Ok(places));
    let set = [
        set_entry(0, HIGH | 0x4f),
        set_entry(0, HIGH | MARKED),
        set_entry(1, LOW | MARKED),
    ];
    assert_eq!(rt; accesses.sets.as_slice(), set.as_slice());
    Ok(())
}
