use hart_words::{
    AccessSize, Cause, Choices, Map, Marks, Misaligned, Mode, NumberFault, Read, Registers, Seen,
    Sets, Span, TrapValues, Write, Wrote, read_number,
};
use std::test::Fail;

#[test]
fn reads_numbers(rt: HostRuntime) {
    assert_eq!(rt; read_number(b"007", 3), Ok(7));
    assert_eq!(rt; read_number(b"0XfF", 8), Ok(255));
    for (text, value) in [
        (b"0x12345abcdefABCDE".as_slice(), 0x1234_5abc_defa_bcde),
        (b"0x00000000000000001", 1),
        (b"00000000000000000001", 1),
        (b"9999999999999999999", 9_999_999_999_999_999_999),
        (b"10000000000000000000", 10_000_000_000_000_000_000),
        (b"18446744073709551615", u64::MAX),
        (b"0x000000000000000000000000ffffffffffffffff", u64::MAX),
    ] {
        assert_eq!(rt; read_number(text, 64), Ok(value));
    }
}

/// Numbers about the most that 1, 63 and 64 bits hold, in the order of these widths.
#[test]
fn numbers_fit_their_width(rt: HostRuntime) {
    let wide = Err(NumberFault::TooWide);
    let half = Ok((1 << 63) - 1);
    let next = Ok(1 << 63);
    let most = Ok(u64::MAX);
    for (text, results) in [
        (b"1".as_slice(), [Ok(1), Ok(1), Ok(1)]),
        (b"2", [wide, Ok(2), Ok(2)]),
        (b"0x7fffffffffffffff", [wide, half, half]),
        (b"0x8000000000000000", [wide, wide, next]),
        (b"0xffffffffffffffff", [wide, wide, most]),
        (b"0x0ffffffffffffffff", [wide, wide, most]),
        (b"0x10000000000000000", [wide, wide, wide]),
        (b"9223372036854775807", [wide, half, half]),
        (b"9223372036854775808", [wide, wide, next]),
        (b"09223372036854775807", [wide, half, half]),
        (b"18446744073709551615", [wide, wide, most]),
        (b"18446744073709551616", [wide, wide, wide]),
        (b"000000000018446744073709551616", [wide, wide, wide]),
    ] {
        for (width, result) in [(1, results[0]), (63, results[1]), (64, results[2])] {
            assert_eq!(rt; read_number(text, width), result);
        }
    }
}

/// Among others, the bytes beside the ranges of digits, and long texts.
#[test]
fn other_texts_are_no_numbers(rt: HostRuntime) {
    for text in [
        b"0x".as_slice(),
        b"",
        b"5x",
        b"-1",
        b"+1",
        b"x1",
        b"1/",
        b"1:",
        b"1\xff",
    ] {
        assert_eq!(rt; read_number(text, 64), Err(NumberFault::NotNumber));
    }
    for text in [
        b"0x1@".as_slice(),
        b"0x1G",
        b"0x1`",
        b"0x1g",
        b"0x0000000000000000g",
    ] {
        assert_eq!(rt; read_number(text, 64), Err(NumberFault::NotNumber));
    }
    assert_eq!(rt;
        read_number(b"0000000000000000000a", 64),
        Err(NumberFault::NotNumber)
    );
}

#[test]
fn ranges_are_whole_pages(rt: HostRuntime) -> Result<(), Fail> {
    for (base, size, is_range) in [
        (0, 0x1000, true),
        (0x8000_0000, 0x800_0000, true),
        ((1 << 56) - 0x1000, 0x1000, true),
        ((1 << 56) - 0x1000, 0x2000, false),
        (u64::MAX - 0xfff, 0x1000, false),
        (0x8000_0000, 0, false),
        (0x8000_0000, 0x1800, false),
        (0x8000_0800, 0x1000, false),
    ] {
        assert_eq!(rt;
            Span::new(base, size).is_some(),
            is_range,
            "{size} bytes at {base}"
        );
    }
    let ram = Span::new(0x8000_0000, 0x1000).ok_or("no range")?;
    assert!(rt; ram.contains(0x8000_0fff));
    assert!(rt; !ram.contains(0x8000_1000));
    assert!(rt; !ram.contains(0x7fff_ffff));
    for (pa, len, is_held) in [
        (0x8000_0000, 8, true),
        (0x8000_0ff8, 8, true),
        (0x8000_0ff9, 8, false),
        (0x8000_0fff, 1, true),
        (0x8000_1000, 1, false),
        (0x7fff_ffff, 2, false),
    ] {
        assert_eq!(rt; ram.holds(pa, len), is_held, "{len} bytes at {pa}");
    }
    let following = Span::new(0x8000_1000, 0x1000).ok_or("no range")?;
    let over = Span::new(0x7fff_f000, 0x2000).ok_or("no range")?;
    assert!(rt; Map::new(ram, None).is_some());
    assert!(rt; Map::new(ram, Some(following)).is_some());
    assert!(rt; Map::new(ram, Some(over)).is_none());
    Ok(())
}

#[test]
fn registers_keep_values_but_x0(rt: HostRuntime) {
    let mut registers = Registers::zeros();
    for number in 0..32 {
        registers.set(number, 100 + u64::from(number));
    }
    registers.set(32, 7);
    for (number, value) in [(0, 0), (1, 101), (31, 131), (32, 0)] {
        assert_eq!(rt; registers.get(number), value);
    }
}

#[test]
fn sizes_of_accesses(rt: HostRuntime) {
    for (size, bytes, bits) in [
        (AccessSize::Byte, 1, 8),
        (AccessSize::Halfword, 2, 16),
        (AccessSize::Word, 4, 32),
        (AccessSize::Doubleword, 8, 64),
    ] {
        assert_eq!(rt; (size.bytes(), size.bits()), (bytes, bits));
    }
}

#[test]
fn accesses_are_noted_in_order(rt: HostRuntime) {
    let mut seen = Seen::empty();
    seen.put(0x8000_0000, 4);
    seen.put(0x8000_1000, 8);
    let reads = [
        Read {
            pa: 0x8000_0000,
            len: 4,
        },
        Read {
            pa: 0x8000_1000,
            len: 8,
        },
    ];
    assert_eq!(rt; seen.as_slice(), reads.as_slice());
    let mut wrote = Wrote::empty();
    wrote.put(0x8000_0002, 2, 0xbbaa);
    wrote.put(0x8000_0000, 1, 7);
    let writes = [
        Write {
            pa: 0x8000_0002,
            len: 2,
            value: 0xbbaa,
        },
        Write {
            pa: 0x8000_0000,
            len: 1,
            value: 7,
        },
    ];
    assert_eq!(rt; wrote.as_slice(), writes.as_slice());
}

/// The sizes of blocks about those that are allowed, and the choices where none is said.
#[test]
fn choices_have_a_block_size(rt: HostRuntime) -> Result<(), Fail> {
    for (size, is_allowed) in [
        (0, false),
        (4, false),
        (8, true),
        (16, true),
        (32, true),
        (48, false),
        (64, true),
        (128, true),
        (256, true),
        (512, true),
        (1024, true),
        (2048, true),
        (4096, true),
        (4097, false),
        (8192, false),
        (65535, false),
    ] {
        let choices = Choices::new(Misaligned::Done, TrapValues::Zero, Marks::Set, size, true);
        assert_eq!(rt; choices.is_some(), is_allowed, "{size}");
    }
    let all = Choices::new(Misaligned::Done, TrapValues::Zero, Marks::Set, 8, true);
    let all = all.ok_or("no choices")?;
    assert!(rt; all.misaligned.are_done() && all.trap_values.is_zero_for(2) && all.marks.are_set());
    assert_eq!(rt; (all.block_size, all.bits), (8, true));
    let plain = Choices::plain();
    assert!(rt; !plain.misaligned.are_done() && !plain.trap_values.is_zero_for(2));
    assert!(rt; !plain.marks.are_set() && !plain.bits);
    assert_eq!(rt; plain.block_size, 64);
    Ok(())
}

/// The last entry that was set at an address stands for it, byte by byte too.
#[test]
fn sets_are_read_again(rt: HostRuntime) {
    let mut sets = Sets::empty();
    assert!(rt; sets.is_empty());
    assert_eq!(rt;
        (sets.entry(0x8000_0008), sets.byte(0x8000_0008)),
        (None, None)
    );
    sets.put(0x8000_0008, 0x1122_3344_5566_7788);
    sets.put(0x8000_0010, 1);
    sets.put(0x8000_0008, 0x1122_3344_5566_77c8);
    assert!(rt; !sets.is_empty());
    assert_eq!(rt; sets.as_slice().len(), 3);
    for (pa, entry) in [
        (0x8000_0000, None),
        (0x8000_0008, Some(0x1122_3344_5566_77c8)),
        (0x8000_0010, Some(1)),
        (0x8000_0018, None),
    ] {
        assert_eq!(rt; sets.entry(pa), entry);
    }
    for (pa, byte) in [
        (0x8000_0007, None),
        (0x8000_0008, Some(0xc8)),
        (0x8000_0009, Some(0x77)),
        (0x8000_000f, Some(0x11)),
        (0x8000_0010, Some(1)),
        (0x8000_0017, Some(0)),
        (0x8000_0018, None),
    ] {
        assert_eq!(rt; sets.byte(pa), byte);
    }
}

/// The encodings of modes, and mcause of exceptions.
#[test]
fn encodings(rt: HostRuntime) {
    for (mode, number) in [(Mode::User, 0), (Mode::Supervisor, 1), (Mode::Machine, 3)] {
        assert_eq!(rt; mode.number(), number);
    }
    for (cause, code) in [
        (Cause::InstructionAccessFault, 1),
        (Cause::IllegalInstruction, 2),
        (Cause::Breakpoint, 3),
        (Cause::LoadAddressMisaligned, 4),
        (Cause::LoadAccessFault, 5),
        (Cause::StoreAddressMisaligned, 6),
        (Cause::StoreAccessFault, 7),
        (Cause::EnvironmentCallFromUser, 8),
        (Cause::EnvironmentCallFromSupervisor, 9),
        (Cause::EnvironmentCallFromMachine, 11),
        (Cause::InstructionPageFault, 12),
        (Cause::LoadPageFault, 13),
        (Cause::StorePageFault, 15),
    ] {
        assert_eq!(rt; cause.code(), code);
    }
}
