use elf_image::{ElfError, ElfFault, read_elf};
use hart_words::Span;
use std::alloc::Global;
use std::test::Fail;

/// A file of one segment, laid out by hand: 4 bytes in the file, 8 in memory. Its virtual address
/// is not its physical one.
const SMALL: [u8; 124] = [
    0x7f, 0x45, 0x4c, 0x46, 2, 1, 1, 0, 0, 0, 0, 0, 0, 0, 0, 0, // class, encoding, version
    2, 0, 243, 0, 1, 0, 0, 0, 0, 0, 0, 0x80, 0, 0, 0, 0, // kind, machine, version, entry
    64, 0, 0, 0, 0, 0, 0, 0, 0, 0, 0, 0, 0, 0, 0, 0, // phoff, shoff
    0, 0, 0, 0, 64, 0, 56, 0, 1, 0, 0, 0, 0, 0, 0, 0, // flags, ehsize, phentsize, phnum
    1, 0, 0, 0, 5, 0, 0, 0, 120, 0, 0, 0, 0, 0, 0, 0, // kind, flags, offset
    0, 0, 0, 0x40, 0, 0, 0, 0, 0, 0, 0, 0x80, 0, 0, 0, 0, // vaddr, paddr
    4, 0, 0, 0, 0, 0, 0, 0, 8, 0, 0, 0, 0, 0, 0, 0, // filesz, memsz
    4, 0, 0, 0, 0, 0, 0, 0, // align
    0x93, 0x00, 0x50, 0x00,
];

/// Where the fields of the ELF header stand.
const CLASS: usize = 4;

const ENCODING: usize = 5;

const KIND: usize = 16;

const MACHINE: usize = 18;

const ENTRY: usize = 24;

const PHOFF: usize = 32;

const PHENTSIZE: usize = 54;

const PHNUM: usize = 56;

/// Where those of the first program header stand.
const FIRST_KIND: usize = 64;

const FIRST_OFFSET: usize = 72;

const FIRST_VADDR: usize = 80;

const FIRST_PADDR: usize = 88;

const FIRST_FILESZ: usize = 96;

const FIRST_MEMSZ: usize = 104;

fn ram() -> Result<Span, Fail> {
    Ok(Span::new(0x8000_0000, 0x1_0000).ok_or("no range")?)
}

/// Puts the low bytes of a number at a place, as far as the bytes there go.
fn put_number(file: &mut Vec<u8>, at: usize, len: usize, value: u64) {
    let mut rest = value;
    for place in at..at.saturating_add(len) {
        if let Some(byte) = file.get_mut(place) {
            *byte = (rest % 256) as u8;
        }
        rest /= 256;
    }
}

/// The small file with some fields changed: where each stands, its bytes and its value.
fn small_with(alloc: Global, changes: &[(usize, usize, u64)]) -> Result<Vec<u8>, Fail> {
    let mut file = Vec::from_slice(alloc, &SMALL)?;
    for (at, len, value) in changes {
        put_number(&mut file, *at, *len, *value);
    }
    Ok(file)
}

/// A segment that is loaded.
#[derive(Clone, Copy)]
struct Load {
    offset: u64,
    paddr: u64,
    filesz: u64,
    memsz: u64,
}

/// A file of these segments, whose last bytes are given.
fn file_of(alloc: Global, loads: &[Load], last: &[u8]) -> Result<Vec<u8>, Fail> {
    let mut file = Vec::from_slice(alloc, &SMALL[..64])?;
    put_number(&mut file, PHNUM, 2, loads.len() as u64);
    for load in loads {
        let at = file.len();
        file.extend_from_slice(&SMALL[64..120])?;
        put_number(&mut file, at.saturating_add(8), 8, load.offset);
        put_number(&mut file, at.saturating_add(24), 8, load.paddr);
        put_number(&mut file, at.saturating_add(32), 8, load.filesz);
        put_number(&mut file, at.saturating_add(40), 8, load.memsz);
    }
    file.extend_from_slice(last)?;
    Ok(file)
}

fn fault_of(alloc: Global, file: &[u8], ram: Span) -> Option<ElfFault> {
    match read_elf(alloc, file, ram) {
        Err(ElfError::Fault(fault)) => Some(fault),
        _ => None,
    }
}

#[test]
fn bytes_of_a_small_file(rt: HostRuntime) -> Result<(), Fail> {
    let (pieces, entry) = read_elf(rt.alloc(), &SMALL, ram()?)?;
    assert_eq!(rt; entry, 0x8000_0000);
    for (address, byte) in [
        (0x7fff_ffff, None),
        (0x8000_0000, Some(0x93)),
        (0x8000_0001, Some(0x00)),
        (0x8000_0002, Some(0x50)),
        (0x8000_0003, Some(0x00)),
        (0x8000_0004, None),
        (0x8000_0007, None),
        (0x4000_0000, None),
    ] {
        assert_eq!(rt; pieces.byte(address), byte);
    }
    assert_eq!(rt; pieces.pages().len(), 1);
    Ok(())
}

#[test]
fn faults_of_a_small_file(rt: HostRuntime) -> Result<(), Fail> {
    let index = 0;
    for len in [0, 3, 63] {
        assert_eq!(rt;
            fault_of(rt.alloc(), &SMALL[..len], ram()?),
            Some(ElfFault::CutShort)
        );
    }
    assert_eq!(rt;
        fault_of(rt.alloc(), &SMALL[..119], ram()?),
        Some(ElfFault::CutShort)
    );
    assert_eq!(rt;
        fault_of(rt.alloc(), &SMALL[..123], ram()?),
        Some(ElfFault::BadSegment { index })
    );
    for (at, len, value, fault) in [
        (CLASS, 1, 1, ElfFault::WrongKind),
        (ENCODING, 1, 2, ElfFault::WrongKind),
        (KIND, 2, 1, ElfFault::WrongKind),
        (KIND, 2, 3, ElfFault::WrongKind),
        (MACHINE, 2, 62, ElfFault::WrongKind),
        (PHENTSIZE, 2, 55, ElfFault::BadTable),
        (PHENTSIZE, 2, 57, ElfFault::BadTable),
        (PHNUM, 2, 65_535, ElfFault::BadTable),
        (PHNUM, 2, 2, ElfFault::CutShort),
        (PHOFF, 8, 69, ElfFault::CutShort),
        (PHOFF, 8, 0xffff_ffff_ffff_ffc8, ElfFault::CutShort),
        (ENTRY, 8, 0x8000_0001, ElfFault::BadEntry),
        (FIRST_FILESZ, 8, 9, ElfFault::BadSegment { index }),
        (FIRST_FILESZ, 8, 5, ElfFault::BadSegment { index }),
        (FIRST_OFFSET, 8, 121, ElfFault::BadSegment { index }),
        (
            FIRST_OFFSET,
            8,
            0xffff_ffff_ffff_fffc,
            ElfFault::BadSegment { index },
        ),
        (FIRST_PADDR, 8, 0x7fff_ffff, ElfFault::OutsideRam { index }),
        (FIRST_PADDR, 8, 0x8000_fff9, ElfFault::OutsideRam { index }),
        (
            FIRST_PADDR,
            8,
            0xffff_ffff_ffff_fffc,
            ElfFault::OutsideRam { index },
        ),
        (FIRST_MEMSZ, 8, 0x1_0001, ElfFault::OutsideRam { index }),
        (
            FIRST_MEMSZ,
            8,
            0xffff_ffff_8000_0004,
            ElfFault::OutsideRam { index },
        ),
    ] {
        let file = small_with(rt.alloc(), &[(at, len, value)])?;
        assert_eq!(rt; fault_of(rt.alloc(), file.as_slice(), ram()?), Some(fault));
    }
    Ok(())
}

#[test]
fn the_first_of_two_faults(rt: HostRuntime) -> Result<(), Fail> {
    let index = 0;
    let machine = (MACHINE, 2, 62);
    let entry_size = (PHENTSIZE, 2, 55);
    let table = (PHOFF, 8, 69);
    let entry = (ENTRY, 8, 0x8000_0001);
    let size = (FIRST_FILESZ, 8, 9);
    let place = (FIRST_PADDR, 8, 0x7fff_ffff);
    for (changes, fault) in [
        ([machine, entry_size], ElfFault::WrongKind),
        ([machine, table], ElfFault::WrongKind),
        ([entry_size, table], ElfFault::BadTable),
        ([entry_size, entry], ElfFault::BadTable),
        ([table, entry], ElfFault::CutShort),
        ([entry, size], ElfFault::BadEntry),
        ([entry, place], ElfFault::BadEntry),
        ([size, place], ElfFault::BadSegment { index }),
    ] {
        let file = small_with(rt.alloc(), &changes)?;
        assert_eq!(rt; fault_of(rt.alloc(), file.as_slice(), ram()?), Some(fault));
    }
    let mut cut = small_with(rt.alloc(), &[machine])?;
    cut.truncate(63);
    assert_eq!(rt;
        fault_of(rt.alloc(), cut.as_slice(), ram()?),
        Some(ElfFault::CutShort)
    );
    Ok(())
}

#[test]
fn what_is_passed_over(rt: HostRuntime) -> Result<(), Fail> {
    for (changes, bytes) in [
        ([(PHNUM, 2, 0), (PHOFF, 8, 1 << 40)], 0),
        ([(PHNUM, 2, 0), (PHENTSIZE, 2, 0)], 0),
        ([(FIRST_MEMSZ, 8, 0), (FIRST_FILESZ, 8, 9)], 0),
        ([(FIRST_KIND, 4, 2), (FIRST_PADDR, 8, 0)], 0),
        ([(FIRST_KIND, 4, 0x7000_0003), (FIRST_FILESZ, 8, 9)], 0),
        ([(FIRST_FILESZ, 8, 0), (FIRST_OFFSET, 8, 1 << 40)], 0),
        ([(FIRST_VADDR, 8, 0x8000_0000), (ENTRY, 8, 0)], 1),
    ] {
        let file = small_with(rt.alloc(), &changes)?;
        let (pieces, _) = read_elf(rt.alloc(), file.as_slice(), ram()?)?;
        assert_eq!(rt; pieces.pages().len(), bytes);
    }
    Ok(())
}

#[test]
fn several_segments(rt: HostRuntime) -> Result<(), Fail> {
    let first = Load {
        offset: 232,
        paddr: 0x8000_0ffe,
        filesz: 4,
        memsz: 4,
    };
    let second = Load {
        offset: 234,
        paddr: 0x8000_1002,
        filesz: 2,
        memsz: 0xeffe,
    };
    let third = Load {
        offset: 232,
        paddr: 0x8000_0000,
        filesz: 1,
        memsz: 0xffe,
    };
    let file = file_of(rt.alloc(), &[first, second, third], b"\x11\x00\x22\x33")?;
    let (pieces, _) = read_elf(rt.alloc(), file.as_slice(), ram()?)?;
    for (address, byte) in [
        (0x8000_0000, Some(0x11)),
        (0x8000_0001, None),
        (0x8000_0ffd, None),
        (0x8000_0ffe, Some(0x11)),
        (0x8000_0fff, Some(0x00)),
        (0x8000_1000, Some(0x22)),
        (0x8000_1001, Some(0x33)),
        (0x8000_1002, Some(0x22)),
        (0x8000_1003, Some(0x33)),
        (0x8000_1004, None),
        (0x8000_ffff, None),
    ] {
        assert_eq!(rt; pieces.byte(address), byte);
    }
    assert_eq!(rt; pieces.pages().len(), 2);
    Ok(())
}

#[test]
fn segments_that_overlap(rt: HostRuntime) -> Result<(), Fail> {
    let zeros = |paddr: u64, memsz: u64| Load {
        offset: 0,
        paddr,
        filesz: 0,
        memsz,
    };
    let middle = zeros(0x8000_0100, 0x100);
    for (paddr, memsz, overlaps) in [
        (0x8000_0000, 0x100, false),
        (0x8000_0000, 0x101, true),
        (0x8000_0200, 1, false),
        (0x8000_01ff, 1, true),
        (0x8000_0100, 1, true),
        (0x8000_0180, 1, true),
        (0x8000_0000, 0x1_0000, true),
    ] {
        let other = zeros(paddr, memsz);
        let far = zeros(0x8000_f000, 0x10);
        let wanted = if overlaps { Some(2) } else { None };
        let file = file_of(rt.alloc(), &[middle, zeros(0, 0), other], b"")?;
        assert_eq!(rt; overlap_of(rt.alloc(), file.as_slice(), ram()?), wanted);
        let file = file_of(rt.alloc(), &[other, zeros(0, 0), middle], b"")?;
        assert_eq!(rt; overlap_of(rt.alloc(), file.as_slice(), ram()?), wanted);
        let wanted = if overlaps { Some(1) } else { Some(3) };
        let file = file_of(rt.alloc(), &[middle, other, far, far], b"")?;
        if memsz < 0x1_0000 {
            assert_eq!(rt; overlap_of(rt.alloc(), file.as_slice(), ram()?), wanted);
        }
    }
    let outside = zeros(0, 1);
    let file = file_of(rt.alloc(), &[middle, outside, middle], b"")?;
    assert_eq!(rt;
        fault_of(rt.alloc(), file.as_slice(), ram()?),
        Some(ElfFault::OutsideRam { index: 1 })
    );
    Ok(())
}

/// The segment that overlaps one before it.
fn overlap_of(alloc: Global, file: &[u8], ram: Span) -> Option<u16> {
    match fault_of(alloc, file, ram) {
        Some(ElfFault::Overlap { index }) => Some(index),
        _ => None,
    }
}

#[test]
fn zeros_take_no_memory(rt: HostRuntime) -> Result<(), Fail> {
    let ram = Span::new(0, 1 << 41).ok_or("no range")?;
    let load = Load {
        offset: 120,
        paddr: 1 << 40,
        filesz: 1,
        memsz: 1 << 40,
    };
    let file = file_of(rt.alloc(), &[load], b"\x42")?;
    let (pieces, _) = read_elf(rt.alloc(), file.as_slice(), ram)?;
    assert_eq!(rt; pieces.byte(1 << 40), Some(0x42));
    assert_eq!(rt; pieces.pages().len(), 1);
    Ok(())
}

#[test]
fn the_most_headers(rt: HostRuntime) -> Result<(), Fail> {
    let ram = Span::new(0, 1 << 20).ok_or("no range")?;
    let mut loads = Vec::new(rt.alloc());
    for index in 0..65_533u64 {
        let paddr = index.wrapping_mul(40_503) % 65_536 * 8;
        loads.push(Load {
            offset: 0,
            paddr,
            filesz: 1,
            memsz: 8,
        })?;
    }
    loads.push(Load {
        offset: 0,
        paddr: 65_533 * 40_503 % 65_536 * 8,
        filesz: 1,
        memsz: 8,
    })?;
    let file = file_of(rt.alloc(), loads.as_slice(), b"")?;
    let (pieces, _) = read_elf(rt.alloc(), file.as_slice(), ram)?;
    assert_eq!(rt; pieces.pages().len(), 128);
    loads.pop();
    loads.push(Load {
        offset: 0,
        paddr: 40_503 * 8 + 7,
        filesz: 0,
        memsz: 1,
    })?;
    let file = file_of(rt.alloc(), loads.as_slice(), b"")?;
    assert_eq!(rt; overlap_of(rt.alloc(), file.as_slice(), ram), Some(65_533));
    Ok(())
}

#[test]
fn texts_of_faults(rt: HostRuntime) -> Result<(), Fail> {
    let index = 65_533;
    for (fault, text) in [
        (ElfFault::CutShort, "elf cut short"),
        (ElfFault::WrongKind, "elf of another kind"),
        (ElfFault::BadTable, "elf table size"),
        (ElfFault::BadEntry, "elf entry odd"),
        (
            ElfFault::BadSegment { index },
            "elf segment 65533: bad size",
        ),
        (
            ElfFault::OutsideRam { index },
            "elf segment 65533: outside RAM",
        ),
        (ElfFault::Overlap { index }, "elf segment 65533: overlap"),
    ] {
        let written = format!(in rt.alloc(); "{fault}")?;
        assert_eq!(rt; written.as_str(), text);
    }
    Ok(())
}
