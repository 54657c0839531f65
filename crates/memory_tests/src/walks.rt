ghost use Rattle.std.specs.Prelude.{◌≡◌, ◌+◌, ◌<◌, ◌≤◌, ◌^◌, ◌==◌, ◌&&◌, ◌||◌, length, not};
ghost use Rattle.hart_words.specs.Memory.{bytes_after_store};
ghost use Rattle.hart_words.specs.declared.sets.TheConstants.{MOST_SETS};

use hart_words::{
    Access, Cause, Choices, Marks, Mode, Read, Seen, Sets, WalkFlags, WalkMem, Write,
};
use std::test::Fail;
use sv39_walk::translate;

/// Entry 1 of the root table, in page 0x80000.
const ROOT: u64 = 0x8000_0008;

/// Entry 2 of a table in page 0x80001.
const MIDDLE: u64 = 0x8000_1010;

/// Entry 3 of a table in page 0x80002.
const LAST: u64 = 0x8000_2018;

/// The address that these entries translate: 1, 2 and 3 for the levels 2, 1 and 0.
const VA: u64 = 0x4040_3456;

/// A memory with these three entries, of which the one at `hidden` cannot be read, and the one at
/// `locked` cannot be set.
#[derive(Clone, Copy, Debug)]
struct Tables {
    root: u64,
    middle: u64,
    last: u64,
    hidden: u64,
    locked: u64,
}

impl WalkMem for Tables {
    ghost use Rattle.memory_tests.specs.declared.walks.TheConstants.{ROOT, MIDDLE, LAST};

    ghost bytes = { λ t.
        let last_alone = bytes_after_store LAST 8 t.last (λ a. 0) in
        let two = bytes_after_store MIDDLE 8 t.middle last_alone in
        bytes_after_store ROOT 8 t.root two };

    ghost is_readable = { λ t pa.
        not (pa == t.hidden) && (pa == ROOT || pa == MIDDLE || pa == LAST) };

    ghost is_settable = { λ t pa. not (pa == t.locked) };

    fn entry(&self, pa: u64) -> Option<u64> {
        if pa == self.hidden {
            return None;
        }
        match pa {
            ROOT => Some(word(self.root)),
            MIDDLE => Some(word(self.middle)),
            LAST => Some(word(self.last)),
            _ => None,
        }
    }

    fn may_set(&self, pa: u64) -> bool {
        pa != self.locked
    }
}

/// These entries, all of which can be read and set.
fn memory(root: u64, middle: u64, last: u64) -> Tables {
    Tables {
        root: root,
        middle: middle,
        last: last,
        hidden: 0,
        locked: 0,
    }
}

/// The number itself; its clauses tell the proof of `entry` that it has 64 bits.
fn word(bits: u64) -> u64
    ensures same { result ≡ bits }
    ensures fits { result < 2 ^ 64 }
{
    bits
}

/// Pointers to the tables of `MIDDLE` and `LAST`.
const TO_MIDDLE: u64 = 0x80001 << 10 | 1;

const TO_LAST: u64 = 0x80002 << 10 | 1;

/// A page for everything at each level: V, R, W, X, A and D.
const PAGE: u64 = 0x12345 << 10 | 0xcf;

const LARGE: u64 = 0x12200 << 10 | 0xcf;

const HUGE: u64 = 0x80000 << 10 | 0xcf;

const SUPERVISOR: WalkFlags = WalkFlags {
    mode: Mode::Supervisor,
    sum: false,
    mxr: false,
};

/// The choices that say what is done where A, or D, is clear.
fn choices(marks: Marks) -> Choices {
    let mut choices = Choices::plain();
    choices.marks = marks;
    choices
}

/// What the load of `va` by S gives, and how many entries are read for it.
fn load_result(tables: Tables, va: u64) -> (Result<u64, Cause>, usize) {
    let mut seen = Seen::empty();
    let mut sets = Sets::empty();
    let got = translate(
        &tables,
        0x80000,
        SUPERVISOR,
        va,
        Access::Load,
        &Choices::plain(),
        &mut seen,
        &mut sets,
    );
    (got, seen.as_slice().len())
}

/// What an access to a page of 4 KiB gives.
fn page(bits: u64, flags: WalkFlags, access: Access) -> Result<u64, Cause> {
    translate(
        &memory(TO_MIDDLE, TO_LAST, bits),
        0x80000,
        flags,
        VA,
        access,
        &Choices::plain(),
        &mut Seen::empty(),
        &mut Sets::empty(),
    )
}

/// A leaf at each level, with the low bits of the address and the rest of the page number.
#[test]
fn leaves(rt: HostRuntime) -> Result<(), Fail> {
    let cases = [
        (TO_MIDDLE, TO_LAST, PAGE, 0x1234_5456, 3),
        (TO_MIDDLE, LARGE, 0, 0x1220_3456, 2),
        (HUGE, 0, 0, 0x8040_3456, 1),
    ];
    for (root, middle, last, pa, reads) in cases {
        assert_eq!(rt;
            load_result(memory(root, middle, last), VA),
            (Ok(pa), reads)
        );
    }
    Ok(())
}

/// Pointers and leaves whose G bit and RSW bits, 5 and 9:8, are set mean what they mean without.
#[test]
fn bits_without_a_meaning_here(rt: HostRuntime) -> Result<(), Fail> {
    for extra in [0x20, 0x100, 0x200, 0x300, 0x320] {
        let cases = [
            (TO_MIDDLE | extra, TO_LAST, PAGE, 0x1234_5456, 3),
            (TO_MIDDLE, TO_LAST | extra, PAGE, 0x1234_5456, 3),
            (TO_MIDDLE, TO_LAST, PAGE | extra, 0x1234_5456, 3),
            (TO_MIDDLE, LARGE | extra, 0, 0x1220_3456, 2),
            (HUGE | extra, 0, 0, 0x8040_3456, 1),
        ];
        for (root, middle, last, pa, reads) in cases {
            assert_eq!(rt;
                load_result(memory(root, middle, last), VA),
                (Ok(pa), reads)
            );
        }
    }
    Ok(())
}

/// The reads are the three entries, in order.
#[test]
fn reads(rt: HostRuntime) -> Result<(), Fail> {
    let tables = Tables {
        hidden: LAST,
        ..memory(TO_MIDDLE, TO_LAST, PAGE)
    };
    let mut seen = Seen::empty();
    let got = translate(
        &tables,
        0x80000,
        SUPERVISOR,
        VA,
        Access::Load,
        &Choices::plain(),
        &mut seen,
        &mut Sets::empty(),
    );
    assert_eq!(rt; got, Err(Cause::LoadAccessFault));
    let entries = [Read { pa: ROOT, len: 8 }, Read { pa: MIDDLE, len: 8 }];
    assert_eq!(rt; seen.as_slice(), entries.as_slice());
    Ok(())
}

/// Entries that mean nothing, at each level: not valid, writable but not readable, reserved bits.
#[test]
fn meaningless_entries(rt: HostRuntime) -> Result<(), Fail> {
    for flags in [0xce, 0xcd, 0xc5, 1 << 54 | 0xcf, 1 << 63 | 0xcf] {
        assert_eq!(rt;
            load_result(memory(0x80000 << 10 | flags, 0, 0), VA),
            (Err(Cause::LoadPageFault), 1)
        );
        assert_eq!(rt;
            load_result(memory(TO_MIDDLE, 0x12200 << 10 | flags, 0), VA),
            (Err(Cause::LoadPageFault), 2)
        );
        assert_eq!(rt;
            load_result(memory(TO_MIDDLE, TO_LAST, 0x12345 << 10 | flags), VA),
            (Err(Cause::LoadPageFault), 3)
        );
    }
    Ok(())
}

/// Pointers with A, D or U, a pointer at level 0, and large pages that are not aligned.
#[test]
fn misplaced_entries(rt: HostRuntime) -> Result<(), Fail> {
    let cases = [
        (TO_MIDDLE | 0x40, TO_LAST, PAGE, 1),
        (TO_MIDDLE | 0x80, TO_LAST, PAGE, 1),
        (TO_MIDDLE | 0x10, TO_LAST, PAGE, 1),
        (TO_MIDDLE, TO_LAST | 0x40, PAGE, 2),
        (TO_MIDDLE, TO_LAST | 0x80, PAGE, 2),
        (TO_MIDDLE, TO_LAST | 0x10, PAGE, 2),
        (TO_MIDDLE, TO_LAST, TO_LAST, 3),
        (0x80200 << 10 | 0xcf, 0, 0, 1),
        (TO_MIDDLE, 0x12201 << 10 | 0xcf, 0, 2),
    ];
    for (root, middle, last, reads) in cases {
        assert_eq!(rt;
            load_result(memory(root, middle, last), VA),
            (Err(Cause::LoadPageFault), reads)
        );
    }
    Ok(())
}

/// An address has to be the extension of its low 39 bits; a table that cannot be read is another
/// fault.
#[test]
fn addresses(rt: HostRuntime) -> Result<(), Fail> {
    let tables = memory(TO_MIDDLE, TO_LAST, PAGE);
    let cases = [
        (VA | 1 << 39, Err(Cause::LoadPageFault), 0),
        (VA | 1 << 38, Err(Cause::LoadPageFault), 0),
        (VA | 1 << 63, Err(Cause::LoadPageFault), 0),
        (VA | 0xffff_ffc0_0000_0000, Err(Cause::LoadAccessFault), 0),
        (VA + 0x4000_0000, Err(Cause::LoadAccessFault), 0),
        (VA + 0x20_0000, Err(Cause::LoadAccessFault), 1),
        (VA + 0x1000, Err(Cause::LoadAccessFault), 2),
    ];
    for (va, got, reads) in cases {
        assert_eq!(rt; load_result(tables, va), (got, reads));
    }
    Ok(())
}

/// Rights, A and D, the pages of U and of S, SUM and MXR.
#[test]
fn permissions(rt: HostRuntime) -> Result<(), Fail> {
    let user = WalkFlags {
        mode: Mode::User,
        ..SUPERVISOR
    };
    let sum = WalkFlags {
        sum: true,
        ..SUPERVISOR
    };
    let mxr = WalkFlags {
        mxr: true,
        ..SUPERVISOR
    };
    // Whether a fetch, a load and a store pass, by the low bits of the entry.
    let cases = [
        (0xcf, SUPERVISOR, [true, true, true]),
        (0x4f, SUPERVISOR, [true, true, false]),
        (0x8f, SUPERVISOR, [false, false, false]),
        (0x43, SUPERVISOR, [false, true, false]),
        (0xc7, SUPERVISOR, [false, true, true]),
        (0x49, SUPERVISOR, [true, false, false]),
        (0xc9, mxr, [true, true, false]),
        (0xdf, SUPERVISOR, [false, false, false]),
        (0xdf, sum, [false, true, true]),
        (0xd9, sum, [false, false, false]),
        (0xdf, user, [true, true, true]),
        (0xcf, user, [false, false, false]),
    ];
    for (low, flags, [fetch, load, store]) in cases {
        let bits = 0x12345 << 10 | low;
        let found = |passes: bool, fault: Cause| -> Result<u64, Cause> {
            if passes { Ok(0x1234_5456) } else { Err(fault) }
        };
        assert_eq!(rt;
            page(bits, flags, Access::Fetch),
            found(fetch, Cause::InstructionPageFault)
        );
        assert_eq!(rt;
            page(bits, flags, Access::Load),
            found(load, Cause::LoadPageFault)
        );
        assert_eq!(rt;
            page(bits, flags, Access::Store),
            found(store, Cause::StorePageFault)
        );
    }
    Ok(())
}

/// What an access of S to `VA` gives, with the entries set before and now.
fn access_result(
    tables: &Tables,
    access: Access,
    marks: Marks,
    sets: &mut Sets,
) -> Result<u64, Cause>
    requires { length sets.old < MOST_SETS }
    ensures { length sets.new ≤ length sets.old + 1 }
{
    translate(
        tables,
        0x80000,
        SUPERVISOR,
        VA,
        access,
        &choices(marks),
        &mut Seen::empty(),
        sets,
    )
}

/// The kinds of access, with the page fault and the access fault of each, and what it leaves clear
/// of A and D.
const KINDS: [(Access, Cause, Cause, u64); 3] = [
    (
        Access::Fetch,
        Cause::InstructionPageFault,
        Cause::InstructionAccessFault,
        0x80,
    ),
    (
        Access::Load,
        Cause::LoadPageFault,
        Cause::LoadAccessFault,
        0x80,
    ),
    (
        Access::Store,
        Cause::StorePageFault,
        Cause::StoreAccessFault,
        0,
    ),
];

/// Entries that are writable and not readable: two that would name a table, and a page at each level
/// that can be executed. Each is a page fault of every access, and none is set.
#[test]
fn entries_writable_alone(rt: HostRuntime) -> Result<(), Fail> {
    let cases = [
        (TO_MIDDLE | 0x04, TO_LAST, PAGE),
        (TO_MIDDLE, TO_LAST | 0x04, PAGE),
        (HUGE ^ 0x02, 0, 0),
        (TO_MIDDLE, LARGE ^ 0x02, 0),
        (TO_MIDDLE, TO_LAST, PAGE ^ 0x02),
    ];
    for (root, middle, last) in cases {
        for (access, page_fault, _, _) in KINDS {
            let mut sets = Sets::empty();
            assert_eq!(rt;
                access_result(&memory(root, middle, last), access, Marks::Set, &mut sets),
                Err(page_fault)
            );
            assert!(rt; sets.is_empty());
        }
    }
    Ok(())
}

/// A leaf at each level with A and D clear: by the choice it is a page fault, or the entry is set,
/// or an access fault where that may not be.
#[test]
fn marks_at_each_level(rt: HostRuntime) -> Result<(), Fail> {
    let cases = [
        (TO_MIDDLE, TO_LAST, PAGE ^ 0xc0, LAST, PAGE, 0x1234_5456),
        (TO_MIDDLE, LARGE ^ 0xc0, 0, MIDDLE, LARGE, 0x1220_3456),
        (HUGE ^ 0xc0, 0, 0, ROOT, HUGE, 0x8040_3456),
    ];
    for (root, middle, last, at, marked, pa) in cases {
        let open = memory(root, middle, last);
        let shut = Tables { locked: at, ..open };
        for (access, page_fault, access_fault, clear) in KINDS {
            let mut sets = Sets::empty();
            assert_eq!(rt;
                access_result(&open, access, Marks::Fault, &mut sets),
                Err(page_fault)
            );
            assert!(rt; sets.is_empty());
            assert_eq!(rt;
                access_result(&shut, access, Marks::Set, &mut sets),
                Err(access_fault)
            );
            assert!(rt; sets.is_empty());
            assert_eq!(rt; access_result(&open, access, Marks::Set, &mut sets), Ok(pa));
            let set = [Write {
                pa: at,
                len: 8,
                value: marked ^ clear,
            }];
            assert_eq!(rt; sets.as_slice(), set.as_slice());
        }
    }
    Ok(())
}

/// What a page of 4 KiB becomes by its low bits, for a fetch, a load and a store: nothing is noted
/// where nothing is lacking, and nothing but A and D changes.
#[test]
fn marks_that_are_lacking(rt: HostRuntime) -> Result<(), Fail> {
    let cases = [
        (0xcf, [None, None, None]),
        (0x4f, [None, None, Some(0xcf)]),
        (0x8f, [Some(0xcf), Some(0xcf), Some(0xcf)]),
        (0x32f, [Some(0x36f), Some(0x36f), Some(0x3ef)]),
    ];
    let page = 0x12345 << 10;
    for (low, [fetch, load, store]) in cases {
        let tables = memory(TO_MIDDLE, TO_LAST, page | low);
        for (access, set) in [
            (Access::Fetch, fetch),
            (Access::Load, load),
            (Access::Store, store),
        ] {
            let mut sets = Sets::empty();
            assert_eq!(rt;
                access_result(&tables, access, Marks::Set, &mut sets),
                Ok(0x1234_5456)
            );
            assert_eq!(rt; sets.entry(LAST), set.map(|low: u64| page | low));
        }
    }
    Ok(())
}

/// A page that refuses the access stays as it is, also where it could not be set.
#[test]
fn refused_pages_are_not_set(rt: HostRuntime) -> Result<(), Fail> {
    let cases = [
        (0x03, Access::Store, Cause::StorePageFault),
        (0x09, Access::Load, Cause::LoadPageFault),
        (0x07, Access::Fetch, Cause::InstructionPageFault),
        (0x1f, Access::Fetch, Cause::InstructionPageFault),
        (0x1f, Access::Load, Cause::LoadPageFault),
    ];
    for (low, access, fault) in cases {
        let open = memory(TO_MIDDLE, TO_LAST, 0x12345 << 10 | low);
        for locked in [0, LAST] {
            let mut sets = Sets::empty();
            let tables = Tables { locked, ..open };
            assert_eq!(rt;
                access_result(&tables, access, Marks::Set, &mut sets),
                Err(fault)
            );
            assert!(rt; sets.is_empty());
        }
    }
    Ok(())
}

/// A later translation of the same step sees what an earlier one set.
#[test]
fn later_translations(rt: HostRuntime) -> Result<(), Fail> {
    let tables = memory(TO_MIDDLE, TO_LAST, PAGE ^ 0xc0);
    let mut sets = Sets::empty();
    assert_eq!(rt;
        access_result(&tables, Access::Fetch, Marks::Set, &mut sets),
        Ok(0x1234_5456)
    );
    assert_eq!(rt;
        access_result(&tables, Access::Load, Marks::Fault, &mut sets),
        Ok(0x1234_5456)
    );
    let fault = Err(Cause::StorePageFault);
    assert_eq!(rt;
        access_result(&tables, Access::Store, Marks::Fault, &mut sets),
        fault
    );
    assert_eq!(rt; sets.as_slice().len(), 1);
    let mut sets = Sets::empty();
    assert_eq!(rt;
        access_result(&tables, Access::Load, Marks::Set, &mut sets),
        Ok(0x1234_5456)
    );
    assert_eq!(rt;
        access_result(&tables, Access::Store, Marks::Set, &mut sets),
        Ok(0x1234_5456)
    );
    assert_eq!(rt;
        access_result(&tables, Access::Store, Marks::Set, &mut sets),
        Ok(0x1234_5456)
    );
    let set = [PAGE ^ 0x80, PAGE].map(|value: u64| Write {
        pa: LAST,
        len: 8,
        value,
    });
    assert_eq!(rt; sets.as_slice(), set.as_slice());
    Ok(())
}
