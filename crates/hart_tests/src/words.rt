use hart_words::{div, divu, mulh, mulhsu, mulhu, rem, remu, sext};
use std::test::Fail;

const LEAST: u64 = 1 << 63;

const MINUS_ONE: u64 = u64::MAX;

#[test]
fn extends_signs(rt: HostRuntime) -> Result<(), Fail> {
    let cases = [
        (0x7f, 8, 0x7f),
        (0x80, 8, 0xffff_ffff_ffff_ff80),
        (0x1_7fff_ffff, 32, 0x7fff_ffff),
        (0x1_8000_0000, 32, 0xffff_ffff_8000_0000),
        (2, 1, 0),
        (3, 1, u64::MAX),
        (LEAST, 64, LEAST),
    ];
    for (x, bits, extended) in cases {
        assert_eq!(rt; sext(x, bits), extended);
    }
    Ok(())
}

/// The high halves of products that are signed, of a signed and an unsigned number, and unsigned.
#[test]
fn multiplies(rt: HostRuntime) -> Result<(), Fail> {
    let cases = [
        (7, 0, [0, 0, 0]),
        (LEAST, MINUS_ONE, [0, LEAST, LEAST - 1]),
        (MINUS_ONE, LEAST, [0, MINUS_ONE, LEAST - 1]),
        (LEAST, LEAST, [1 << 62, 3 << 62, 1 << 62]),
        (MINUS_ONE, MINUS_ONE, [0, MINUS_ONE, MINUS_ONE - 1]),
        (7, MINUS_ONE - 1, [MINUS_ONE, 6, 6]),
    ];
    for (a, b, halves) in cases {
        assert_eq!(rt; [mulh(a, b), mulhsu(a, b), mulhu(a, b)], halves);
    }
    Ok(())
}

/// Quotients and remainders, signed and unsigned.
#[test]
fn divides(rt: HostRuntime) -> Result<(), Fail> {
    let cases = [
        (7, 0, [u64::MAX, 7], [u64::MAX, 7]),
        (LEAST, 0, [MINUS_ONE, LEAST], [u64::MAX, LEAST]),
        (LEAST, MINUS_ONE, [LEAST, 0], [0, LEAST]),
        (MINUS_ONE - 6, 2, [MINUS_ONE - 2, MINUS_ONE], [LEAST - 4, 1]),
        (7, MINUS_ONE - 1, [MINUS_ONE - 2, 1], [0, 7]),
        (MINUS_ONE, MINUS_ONE, [1, 0], [1, 0]),
    ];
    for (a, b, signed, unsigned) in cases {
        assert_eq!(rt; [div(a, b), rem(a, b)], signed);
        assert_eq!(rt; [divu(a, b), remu(a, b)], unsigned);
    }
    Ok(())
}
