use rv_atomic::{Reservation, amo};
use rv_decode::{AmoOp, Width};
use std::test::Fail;

const LEAST: u64 = 1 << 63;

const MINUS_ONE: u64 = u64::MAX;

/// What memory gets on 64 bits and on 32, worked out from the definitions of the instructions.
#[test]
fn combines(rt: HostRuntime) -> Result<(), Fail> {
    let cases = [
        (AmoOp::Amoswap, 5, 0xf_0000_0007, 0xf_0000_0007, 7),
        (AmoOp::Amoadd, MINUS_ONE, 1, 0, 0),
        (AmoOp::Amoadd, 0xffff_ffff, 1, 0x1_0000_0000, 0),
        (AmoOp::Amoxor, 6, MINUS_ONE, MINUS_ONE - 6, 0xffff_fff9),
        (
            AmoOp::Amoand,
            0x3_0000_0006,
            0x5_0000_0003,
            0x1_0000_0002,
            2,
        ),
        (AmoOp::Amoor, 0x3_0000_0006, 0x5_0000_0003, 0x7_0000_0007, 7),
        (AmoOp::Amomin, LEAST, 1, LEAST, 0),
        (AmoOp::Amomin, 0x8000_0000, 1, 1, 0x8000_0000),
        (AmoOp::Amomax, MINUS_ONE, 1, 1, 1),
        (AmoOp::Amomax, 0xffff_ffff, 1, 0xffff_ffff, 1),
        (AmoOp::Amominu, MINUS_ONE, 1, 1, 1),
        (AmoOp::Amominu, 0x1_0000_0002, 3, 3, 2),
        (AmoOp::Amomaxu, LEAST, 1, LEAST, 1),
        (AmoOp::Amomaxu, 0x8000_0000, 1, 0x8000_0000, 0x8000_0000),
    ];
    for (op, old, b, double, word) in cases {
        assert_eq!(rt; amo(op, Width::Doubleword, old, b), double);
        assert_eq!(rt; amo(op, Width::Word, old, b), word);
    }
    Ok(())
}

/// Whether a byte that is reserved, in a block of that size, reserves `len` bytes from `pa` on.
fn covers(
    reservation: &mut Reservation,
    size: u16,
    reserved: u64,
    pa: u64,
    len: u8,
) -> Result<bool, Fail> {
    match size {
        8 => reservation.set(reserved, 8),
        64 => reservation.set(reserved, 64),
        4096 => reservation.set(reserved, 4096),
        _ => return Err(Fail::from("no such size")),
    }
    if len == 0 {
        return Err(Fail::from("no bytes"));
    }
    Ok(reservation.covers(pa, len))
}

/// Blocks of several sizes about the byte that is reserved.
#[test]
fn covers_a_block(rt: HostRuntime) -> Result<(), Fail> {
    let mut reservation = Reservation::NONE;
    assert!(rt; !reservation.covers(0, 4));
    let cases = [
        (64, 0x8000_0044, 0x8000_0040, 1, true),
        (64, 0x8000_0044, 0x8000_0040, 64, true),
        (64, 0x8000_0044, 0x8000_0078, 8, true),
        (64, 0x8000_0044, 0x8000_007c, 8, false),
        (64, 0x8000_0044, 0x8000_003f, 1, false),
        (64, 0x8000_0044, 0x8000_0080, 4, false),
        (64, u64::MAX, u64::MAX, 1, true),
        (64, u64::MAX, u64::MAX, 8, false),
        (64, 0x8000_1000, 0x8000_1008, 8, true),
        (8, 0x8000_1000, 0x8000_1008, 8, false),
        (8, 0x8000_1004, 0x8000_1000, 8, true),
        (4096, 0x8000_1ffc, 0x8000_1000, 4, true),
        (4096, 0x8000_1ffc, 0x8000_2000, 4, false),
    ];
    for (size, reserved, pa, len, covered) in cases {
        let found = covers(&mut reservation, size, reserved, pa, len)?;
        assert_eq!(rt; found, covered, "{len} bytes at {pa}");
    }
    reservation.clear();
    assert!(rt; !reservation.covers(0x8000_1000, 4));
    Ok(())
}

/// Bytes beside a block and in it, as another hart's stores write them.
#[test]
fn loses_a_block(rt: HostRuntime) -> Result<(), Fail> {
    let cases = [
        (0x8000_003c, 4, false),
        (0x8000_003d, 4, true),
        (0x8000_0038, 8, false),
        (0x8000_0040, 1, true),
        (0x8000_007f, 1, true),
        (0x8000_007c, 8, true),
        (0x8000_0080, 8, false),
        (0x8000_0050, 0, false),
        (u64::MAX, 8, false),
    ];
    for (pa, len, lost) in cases {
        let mut reservation = Reservation::NONE;
        assert!(rt; !reservation.touches(pa, len));
        reservation.set(0x8000_0044, 64);
        assert_eq!(rt; reservation.touches(pa, len), lost, "{len} bytes at {pa}");
        reservation.lose(pa, len);
        assert_eq!(rt; reservation.block.is_none(), lost, "{len} bytes at {pa}");
    }
    Ok(())
}
