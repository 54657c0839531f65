//! Values of the instructions, from a RISC-V processor.
//!
//! They were made so: a C program has a function for each instruction, of one line of inline
//! assembly, and one of 64 for SLLI.UW, whose amount is part of the instruction. It was compiled by
//! GCC 12.2 for riscv64 (Debian's `riscv64-linux-gnu-gcc -static -march=rv64gc_zba_zbb_zbs`) and
//! run by QEMU 7.2 (`qemu-riscv64 -cpu rv64,zba=true,zbb=true,zbs=true`). For each instruction it
//! printed the values at the pairs of operands that stand below.
//!
//! One checksum is not from there, that of CTZW: this QEMU gives 63 for 2^63, where the manual has
//! 32 for a word of zeros. It was made by Python, as `(low & -low).bit_length() - 1` of the low 32
//! bits where they are not 0. At all other operands QEMU gives the same.

use rv_bits::compute_bits;
use rv_decode::BitsOp;
use std::test::Fail;

/// Each instruction at three pairs of operands.
#[test]
fn computes_values(rt: HostRuntime) -> Result<(), Fail> {
    let pairs = [
        (0x0123_4567_89ab_cdef, 0xfedc_ba98_7654_3213),
        (0xffff_00f0_0000_8000, 0x2f),
        (0, 0),
    ];
    let rows = [
        (
            BitsOp::Sh1add,
            [0x123_4567_89ab_cdf1, 0xfffe_01e0_0001_002f, 0],
        ),
        (
            BitsOp::Sh2add,
            [0x369_d036_9d03_69cf, 0xfffc_03c0_0002_002f, 0],
        ),
        (
            BitsOp::Sh3add,
            [0x7f6_e5d4_c3b2_a18b, 0xfff8_0780_0004_002f, 0],
        ),
        (BitsOp::AddUw, [0xfedc_ba99_0000_0002, 0x802f, 0]),
        (BitsOp::Sh1addUw, [0xfedc_ba99_89ab_cdf1, 0x1_002f, 0]),
        (BitsOp::Sh2addUw, [0xfedc_ba9a_9d03_69cf, 0x2_002f, 0]),
        (BitsOp::Sh3addUw, [0xfedc_ba9c_c3b2_a18b, 0x4_002f, 0]),
        (
            BitsOp::SlliUw,
            [0x4_4d5e_6f78_0000, 0x4000_0000_0000_0000, 0],
        ),
        (
            BitsOp::Andn,
            [0x123_4567_89ab_cdec, 0xffff_00f0_0000_8000, 0],
        ),
        (
            BitsOp::Orn,
            [
                0x123_4567_89ab_cdef,
                0xffff_ffff_ffff_ffd0,
                0xffff_ffff_ffff_ffff,
            ],
        ),
        (BitsOp::Xnor, [3, 0xff0f_ffff_7fd0, 0xffff_ffff_ffff_ffff]),
        (BitsOp::Clz, [7, 0, 0x40]),
        (BitsOp::Clzw, [0, 0x10, 0x20]),
        (BitsOp::Ctz, [0, 0xf, 0x40]),
        (BitsOp::Ctzw, [0, 0xf, 0x20]),
        (BitsOp::Cpop, [0x20, 0x15, 0]),
        (BitsOp::Cpopw, [0x14, 1, 0]),
        (BitsOp::Max, [0x123_4567_89ab_cdef, 0x2f, 0]),
        (
            BitsOp::Maxu,
            [0xfedc_ba98_7654_3213, 0xffff_00f0_0000_8000, 0],
        ),
        (
            BitsOp::Min,
            [0xfedc_ba98_7654_3213, 0xffff_00f0_0000_8000, 0],
        ),
        (BitsOp::Minu, [0x123_4567_89ab_cdef, 0x2f, 0]),
        (BitsOp::SextB, [0xffff_ffff_ffff_ffef, 0, 0]),
        (
            BitsOp::SextH,
            [0xffff_ffff_ffff_cdef, 0xffff_ffff_ffff_8000, 0],
        ),
        (BitsOp::ZextH, [0xcdef, 0x8000, 0]),
        (
            BitsOp::Rol,
            [0x2b3c_4d5e_6f78_091a, 0x4000_7fff_8078_0000, 0],
        ),
        (BitsOp::Rolw, [0x6f7c_4d5e, 0x4000_0000, 0]),
        (
            BitsOp::Ror,
            [0x79bd_e024_68ac_f135, 0x1e0_0001_0001_fffe, 0],
        ),
        (BitsOp::Rorw, [0x79bd_f135, 1, 0]),
        (
            BitsOp::OrcB,
            [0xffff_ffff_ffff_ffff, 0xffff_00ff_0000_ff00, 0],
        ),
        (
            BitsOp::Rev8,
            [0xefcd_ab89_6745_2301, 0x80_0000_f000_ffff, 0],
        ),
        (
            BitsOp::Bclr,
            [0x123_4567_89a3_cdef, 0xffff_00f0_0000_8000, 0],
        ),
        (BitsOp::Bext, [1, 0, 0]),
        (
            BitsOp::Binv,
            [0x123_4567_89a3_cdef, 0xffff_80f0_0000_8000, 1],
        ),
        (
            BitsOp::Bset,
            [0x123_4567_89ab_cdef, 0xffff_80f0_0000_8000, 1],
        ),
    ];
    for (op, values) in rows {
        for ((a, b), value) in pairs.into_iter().zip(values) {
            assert_eq!(rt; compute_bits(op, a, b), value, "{op:?} of {a} and {b}");
        }
    }
    Ok(())
}

/// Operands at the edges of bytes, halfwords, words and doublewords, and some mixed ones.
const EDGES: [u64; 16] = [
    0,
    1,
    0x7f,
    0x80,
    0x8000,
    0x7fff_ffff,
    0x8000_0000,
    0xffff_ffff,
    0x1_0000_0000,
    0x7fff_ffff_ffff_ffff,
    0x8000_0000_0000_0000,
    0xffff_ffff_ffff_ffff,
    0x0123_4567_89ab_cdef,
    0xfedc_ba98_7654_3210,
    0x00ff_0010_0000_ab00,
    0xffff_ffff_8000_0000,
];

/// The checksum of an instruction's values at each pair of these operands, the second going first
/// through all: FNV-1a of 64 bits, on numbers of 64 bits.
fn checksum(op: BitsOp) -> u64 {
    let mut sum: u64 = 0xcbf2_9ce4_8422_2325;
    for a in EDGES {
        for b in EDGES {
            sum = (sum ^ compute_bits(op, a, b)).wrapping_mul(0x0000_0100_0000_01b3);
        }
    }
    sum
}

/// Each instruction at each pair of operands at the edges.
#[test]
fn computes_at_edges(rt: HostRuntime) -> Result<(), Fail> {
    let rows = [
        (BitsOp::Sh1add, 0xeb23_1c38_0d2f_2515),
        (BitsOp::Sh2add, 0x57a6_a9f6_038e_a2e5),
        (BitsOp::Sh3add, 0x30a4_6365_69f6_c965),
        (BitsOp::AddUw, 0xee60_9c3a_21f1_dc6b),
        (BitsOp::Sh1addUw, 0x09b3_fad8_0d2f_2515),
        (BitsOp::Sh2addUw, 0xf4d5_282e_038e_a2e5),
        (BitsOp::Sh3addUw, 0x7c3f_eae5_69f6_c965),
        (BitsOp::SlliUw, 0x46e0_b769_5eb7_ae17),
        (BitsOp::Andn, 0x9d76_3cf6_1279_605a),
        (BitsOp::Orn, 0xf418_b19e_4264_6dca),
        (BitsOp::Xnor, 0xbcf5_6d54_c977_b779),
        (BitsOp::Clz, 0x28be_8cd6_c862_dc65),
        (BitsOp::Clzw, 0x850e_d5ed_7e2a_2a25),
        (BitsOp::Ctz, 0xf32a_3dd9_3233_ab55),
        (BitsOp::Ctzw, 0x1c41_5d7c_4f58_d3a5),
        (BitsOp::Cpop, 0x4711_0db9_950a_fd45),
        (BitsOp::Cpopw, 0xb052_b8bc_50a1_6385),
        (BitsOp::Max, 0x2ea6_f2eb_d3b0_38f4),
        (BitsOp::Maxu, 0xa53e_b2ad_191b_6c4e),
        (BitsOp::Min, 0x781e_744a_330b_9124),
        (BitsOp::Minu, 0x741b_e2b1_210b_f82e),
        (BitsOp::SextB, 0x3167_0122_68c3_82b5),
        (BitsOp::SextH, 0xca39_86f5_483b_e6b5),
        (BitsOp::ZextH, 0x8591_39fe_c7c7_e6b5),
        (BitsOp::Rol, 0x5105_438d_8b4d_beb5),
        (BitsOp::Rolw, 0x78ab_0087_f65d_bbb1),
        (BitsOp::Ror, 0x3db9_750a_1ad1_3fec),
        (BitsOp::Rorw, 0xe177_4aa6_797a_f055),
        (BitsOp::OrcB, 0x81b2_ff0b_6649_4295),
        (BitsOp::Rev8, 0x8ee0_9544_09e3_b605),
        (BitsOp::Bclr, 0xec21_8602_50df_e7b5),
        (BitsOp::Bext, 0x5ec7_19d1_ef86_74fe),
        (BitsOp::Binv, 0xaa11_8924_9bc1_e9d5),
        (BitsOp::Bset, 0x7ceb_3fa8_b527_4cd1),
    ];
    for (op, sum) in rows {
        assert_eq!(rt; checksum(op), sum, "{op:?}");
    }
    Ok(())
}
