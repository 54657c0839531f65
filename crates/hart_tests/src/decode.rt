//! Words with their meaning, from the listing of an assembler (GNU binutils for riscv64).

use hart_words::AccessSize;
use rv_decode::{
    AmoOp, BranchOp, CsrOp, ImmediateOp, ImmediateWordOp, LoadOp, Op, RegisterOp, RegisterWordOp,
    StoreOp, Width, decode,
};
use std::test::Fail;

/// The immediate that is so much below zero.
fn minus(magnitude: u64) -> u64 {
    0u64.wrapping_sub(magnitude)
}

fn jal(rd: u8, offset: u64) -> Op {
    Op::Jal { rd, offset }
}

fn branch(op: BranchOp, rs1: u8, rs2: u8, offset: u64) -> Op {
    Op::Branch {
        op,
        rs1,
        rs2,
        offset,
    }
}

fn load(op: LoadOp, rd: u8, rs1: u8, offset: u64) -> Op {
    Op::Load {
        op,
        rd,
        rs1,
        offset,
    }
}

fn store(op: StoreOp, rs1: u8, rs2: u8, offset: u64) -> Op {
    Op::Store {
        op,
        rs1,
        rs2,
        offset,
    }
}

fn immediate(op: ImmediateOp, rd: u8, rs1: u8, imm: u64) -> Op {
    Op::Immediate { op, rd, rs1, imm }
}

fn immediate_word(op: ImmediateWordOp, rd: u8, rs1: u8, imm: u64) -> Op {
    Op::ImmediateWord { op, rd, rs1, imm }
}

fn register(op: RegisterOp, rd: u8, rs1: u8, rs2: u8) -> Op {
    Op::Register { op, rd, rs1, rs2 }
}

fn register_word(op: RegisterWordOp, rd: u8, rs1: u8, rs2: u8) -> Op {
    Op::RegisterWord { op, rd, rs1, rs2 }
}

fn store_conditional(width: Width, rd: u8, rs1: u8, rs2: u8) -> Op {
    Op::StoreConditional {
        width,
        rd,
        rs1,
        rs2,
    }
}

fn csr(op: CsrOp, rd: u8, rs1: u8, csr: u16) -> Op {
    Op::Csr { op, rd, rs1, csr }
}

fn csr_immediate(op: CsrOp, rd: u8, imm: u64, csr: u16) -> Op {
    Op::CsrImmediate { op, rd, imm, csr }
}

fn amo(op: AmoOp, width: Width, rd: u8, rs1: u8, rs2: u8) -> Op {
    Op::Amo {
        op,
        width,
        rd,
        rs1,
        rs2,
    }
}

/// Upper immediates, jumps and branches.
#[test]
fn decodes_upper_immediates_and_jumps(rt: HostRuntime) -> Result<(), Fail> {
    let rows = [
        // lui x5, 0x12345
        (
            0x1234_52b7,
            Op::Lui {
                rd: 5,
                imm: 0x1234_5000,
            },
        ),
        // lui x31, 0x80000
        (
            0x8000_0fb7,
            Op::Lui {
                rd: 31,
                imm: minus(0x8000_0000),
            },
        ),
        // auipc x6, 0xfffff
        (
            0xffff_f317,
            Op::Auipc {
                rd: 6,
                imm: minus(0x1000),
            },
        ),
        // jal x1, .+0x54aaa
        (0x2ab5_40ef, jal(1, 0x5_4aaa)),
        // jal x0, .-0x54aaa
        (0xd56a_b06f, jal(0, minus(0x5_4aaa))),
        // jal x7, .-0x100000
        (0x8000_03ef, jal(7, minus(0x10_0000))),
        // jalr x1, 0x555(x2)
        (
            0x5551_00e7,
            Op::Jalr {
                rd: 1,
                rs1: 2,
                offset: 0x555,
            },
        ),
        // jalr x0, -1(x30)
        (
            0xffff_0067,
            Op::Jalr {
                rd: 0,
                rs1: 30,
                offset: minus(1),
            },
        ),
        // beq x3, x28, .+0xaaa
        (0x2bc1_85e3, branch(BranchOp::Beq, 3, 28, 0xaaa)),
        // bne x4, x27, .-0x556
        (0xabb2_15e3, branch(BranchOp::Bne, 4, 27, minus(0x556))),
        // blt x5, x26, .-0x1000
        (0x81a2_c063, branch(BranchOp::Blt, 5, 26, minus(0x1000))),
        // bge x6, x25, .+0x7e2
        (0x7f93_5163, branch(BranchOp::Bge, 6, 25, 0x7e2)),
        // bltu x7, x24, .+0x81c
        (0x0183_eee3, branch(BranchOp::Bltu, 7, 24, 0x81c)),
        // bgeu x8, x23, .-2
        (0xff74_7fe3, branch(BranchOp::Bgeu, 8, 23, minus(2))),
    ];
    for (word, op) in rows {
        assert_eq!(rt; decode(word), Some(op), "at {word}");
    }
    Ok(())
}

/// Loads and stores.
#[test]
fn decodes_loads_and_stores(rt: HostRuntime) -> Result<(), Fail> {
    let rows = [
        // lb x9, -2048(x22)
        (0x800b_0483, load(LoadOp::Lb, 9, 22, minus(2048))),
        // lh x10, 2047(x21)
        (0x7ffa_9503, load(LoadOp::Lh, 10, 21, 2047)),
        // lw x11, 1365(x20)
        (0x555a_2583, load(LoadOp::Lw, 11, 20, 1365)),
        // ld x12, -1366(x19)
        (0xaaa9_b603, load(LoadOp::Ld, 12, 19, minus(1366))),
        // lbu x13, 1(x18)
        (0x0019_4683, load(LoadOp::Lbu, 13, 18, 1)),
        // lhu x14, -1(x17)
        (0xfff8_d703, load(LoadOp::Lhu, 14, 17, minus(1))),
        // lwu x15, 1024(x16)
        (0x4008_6783, load(LoadOp::Lwu, 15, 16, 1024)),
        // sb x9, -2048(x22)
        (0x809b_0023, store(StoreOp::Sb, 22, 9, minus(2048))),
        // sh x10, 1365(x21)
        (0x54aa_9aa3, store(StoreOp::Sh, 21, 10, 1365)),
        // sw x11, -1366(x20)
        (0xaaba_2523, store(StoreOp::Sw, 20, 11, minus(1366))),
        // sd x12, 2017(x19)
        (0x7ec9_b0a3, store(StoreOp::Sd, 19, 12, 2017)),
    ];
    for (word, op) in rows {
        assert_eq!(rt; decode(word), Some(op), "at {word}");
    }
    Ok(())
}

/// A register with an immediate.
#[test]
fn decodes_immediates(rt: HostRuntime) -> Result<(), Fail> {
    let rows = [
        // addi x1, x31, -2048
        (
            0x800f_8093,
            immediate(ImmediateOp::Addi, 1, 31, minus(2048)),
        ),
        // slti x2, x30, 2047
        (0x7fff_2113, immediate(ImmediateOp::Slti, 2, 30, 2047)),
        // sltiu x3, x29, -1
        (0xfffe_b193, immediate(ImmediateOp::Sltiu, 3, 29, minus(1))),
        // xori x4, x28, 1365
        (0x555e_4213, immediate(ImmediateOp::Xori, 4, 28, 1365)),
        // ori x5, x27, -1366
        (0xaaad_e293, immediate(ImmediateOp::Ori, 5, 27, minus(1366))),
        // andi x6, x26, 2047
        (0x7ffd_7313, immediate(ImmediateOp::Andi, 6, 26, 2047)),
        // slli x7, x25, 63
        (0x03fc_9393, immediate(ImmediateOp::Slli, 7, 25, 63)),
        // srli x8, x24, 33
        (0x021c_5413, immediate(ImmediateOp::Srli, 8, 24, 33)),
        // srai x9, x23, 42
        (0x42ab_d493, immediate(ImmediateOp::Srai, 9, 23, 42)),
        // addiw x11, x21, -291
        (
            0xedda_859b,
            immediate_word(ImmediateWordOp::Addiw, 11, 21, minus(291)),
        ),
        // slliw x12, x20, 31
        (
            0x01fa_161b,
            immediate_word(ImmediateWordOp::Slliw, 12, 20, 31),
        ),
        // srliw x13, x19, 21
        (
            0x0159_d69b,
            immediate_word(ImmediateWordOp::Srliw, 13, 19, 21),
        ),
        // sraiw x14, x18, 10
        (
            0x40a9_571b,
            immediate_word(ImmediateWordOp::Sraiw, 14, 18, 10),
        ),
    ];
    for (word, op) in rows {
        assert_eq!(rt; decode(word), Some(op), "at {word}");
    }
    Ok(())
}

/// Two registers.
#[test]
fn decodes_registers(rt: HostRuntime) -> Result<(), Fail> {
    let rows = [
        // add x1, x30, x3
        (0x003f_00b3, register(RegisterOp::Add, 1, 30, 3)),
        // sub x2, x29, x10
        (0x40ae_8133, register(RegisterOp::Sub, 2, 29, 10)),
        // sll x3, x28, x17
        (0x011e_11b3, register(RegisterOp::Sll, 3, 28, 17)),
        // slt x4, x27, x24
        (0x018d_a233, register(RegisterOp::Slt, 4, 27, 24)),
        // sltu x5, x26, x31
        (0x01fd_32b3, register(RegisterOp::Sltu, 5, 26, 31)),
        // xor x6, x25, x6
        (0x006c_c333, register(RegisterOp::Xor, 6, 25, 6)),
        // srl x7, x24, x13
        (0x00dc_53b3, register(RegisterOp::Srl, 7, 24, 13)),
        // sra x8, x23, x20
        (0x414b_d433, register(RegisterOp::Sra, 8, 23, 20)),
        // or x9, x22, x27
        (0x01bb_64b3, register(RegisterOp::Or, 9, 22, 27)),
        // and x10, x21, x2
        (0x002a_f533, register(RegisterOp::And, 10, 21, 2)),
        // mul x11, x20, x9
        (0x029a_05b3, register(RegisterOp::Mul, 11, 20, 9)),
        // mulh x12, x19, x16
        (0x0309_9633, register(RegisterOp::Mulh, 12, 19, 16)),
        // mulhsu x13, x18, x23
        (0x0379_26b3, register(RegisterOp::Mulhsu, 13, 18, 23)),
        // mulhu x14, x17, x30
        (0x03e8_b733, register(RegisterOp::Mulhu, 14, 17, 30)),
        // div x15, x16, x5
        (0x0258_47b3, register(RegisterOp::Div, 15, 16, 5)),
        // divu x16, x15, x12
        (0x02c7_d833, register(RegisterOp::Divu, 16, 15, 12)),
        // rem x17, x14, x19
        (0x0337_68b3, register(RegisterOp::Rem, 17, 14, 19)),
        // remu x18, x13, x26
        (0x03a6_f933, register(RegisterOp::Remu, 18, 13, 26)),
        // addw x20, x3, x9
        (0x0091_8a3b, register_word(RegisterWordOp::Addw, 20, 3, 9)),
        // subw x21, x4, x14
        (0x40e2_0abb, register_word(RegisterWordOp::Subw, 21, 4, 14)),
        // sllw x22, x5, x19
        (0x0132_9b3b, register_word(RegisterWordOp::Sllw, 22, 5, 19)),
        // srlw x23, x6, x24
        (0x0183_5bbb, register_word(RegisterWordOp::Srlw, 23, 6, 24)),
        // sraw x24, x7, x29
        (0x41d3_dc3b, register_word(RegisterWordOp::Sraw, 24, 7, 29)),
        // mulw x25, x8, x2
        (0x0224_0cbb, register_word(RegisterWordOp::Mulw, 25, 8, 2)),
        // divw x26, x9, x7
        (0x0274_cd3b, register_word(RegisterWordOp::Divw, 26, 9, 7)),
        // divuw x27, x10, x12
        (
            0x02c5_5dbb,
            register_word(RegisterWordOp::Divuw, 27, 10, 12),
        ),
        // remw x28, x11, x17
        (0x0315_ee3b, register_word(RegisterWordOp::Remw, 28, 11, 17)),
        // remuw x29, x12, x22
        (
            0x0366_7ebb,
            register_word(RegisterWordOp::Remuw, 29, 12, 22),
        ),
    ];
    for (word, op) in rows {
        assert_eq!(rt; decode(word), Some(op), "at {word}");
    }
    Ok(())
}

/// Fences, whose fields are ignored, and the calls of the environment.
#[test]
fn decodes_fences_and_traps(rt: HostRuntime) -> Result<(), Fail> {
    let rows = [
        // fence
        (0x0ff0_000f, Op::Fence),
        // fence.tso
        (0x8330_000f, Op::Fence),
        // fence r, w
        (0x0210_000f, Op::Fence),
        // .insn i 0x0f, 0, x5, x6, 0x0ff
        (0x0ff3_028f, Op::Fence),
        // fence.i
        (0x0000_100f, Op::FenceI),
        // .insn i 0x0f, 1, x31, x30, -1
        (0xffff_1f8f, Op::FenceI),
        // ecall
        (0x0000_0073, Op::Ecall),
        // ebreak
        (0x0010_0073, Op::Ebreak),
    ];
    for (word, op) in rows {
        assert_eq!(rt; decode(word), Some(op), "at {word}");
    }
    Ok(())
}

/// Accesses to control and status registers, returns from traps, and what orders accesses to page
/// tables.
#[test]
fn decodes_control(rt: HostRuntime) -> Result<(), Fail> {
    let rows = [
        // csrrw x5, mstatus, x6
        (0x3003_12f3, csr(CsrOp::Write, 5, 6, 0x300)),
        // csrrw x0, mcause, x31
        (0x342f_9073, csr(CsrOp::Write, 0, 31, 0x342)),
        // csrrs x10, cycle, x0
        (0xc000_2573, csr(CsrOp::Set, 10, 0, 0xc00)),
        // csrrs x1, 0xfff, x15
        (0xfff7_a0f3, csr(CsrOp::Set, 1, 15, 0xfff)),
        // csrrc x31, fflags, x17
        (0x0018_bff3, csr(CsrOp::Clear, 31, 17, 0x001)),
        // csrrwi x7, mtvec, 31
        (0x305f_d3f3, csr_immediate(CsrOp::Write, 7, 31, 0x305)),
        // csrrsi x8, mip, 16
        (0x3448_6473, csr_immediate(CsrOp::Set, 8, 16, 0x344)),
        // csrrci x9, mhpmcounter3h, 5
        (0xb832_f4f3, csr_immediate(CsrOp::Clear, 9, 5, 0xb83)),
        // csrrci x0, 0x800, 0
        (0x8000_7073, csr_immediate(CsrOp::Clear, 0, 0, 0x800)),
        // mret
        (0x3020_0073, Op::Mret),
        // sret
        (0x1020_0073, Op::Sret),
        // wfi
        (0x1050_0073, Op::Wfi),
        // sfence.vma
        (0x1200_0073, Op::SfenceVma { rs1: 0, rs2: 0 }),
        // sfence.vma x5
        (0x1202_8073, Op::SfenceVma { rs1: 5, rs2: 0 }),
        // sfence.vma x0, x6
        (0x1260_0073, Op::SfenceVma { rs1: 0, rs2: 6 }),
        // sfence.vma x31, x30
        (0x13ef_8073, Op::SfenceVma { rs1: 31, rs2: 30 }),
    ];
    for (word, op) in rows {
        assert_eq!(rt; decode(word), Some(op), "at {word}");
    }
    Ok(())
}

/// Atomics, whose aq and rl are ignored.
#[test]
fn decodes_atomics(rt: HostRuntime) -> Result<(), Fail> {
    let rows = [
        // lr.w x3, (x17)
        (
            0x1008_a1af,
            Op::LoadReserved {
                width: Width::Word,
                rd: 3,
                rs1: 17,
            },
        ),
        // lr.w.aqrl x3, (x17)
        (
            0x1608_a1af,
            Op::LoadReserved {
                width: Width::Word,
                rd: 3,
                rs1: 17,
            },
        ),
        // sc.w x4, x9, (x18)
        (0x1899_222f, store_conditional(Width::Word, 4, 18, 9)),
        // sc.w.rl x4, x9, (x18)
        (0x1a99_222f, store_conditional(Width::Word, 4, 18, 9)),
        // amoswap.w x5, x19, (x1)
        (0x0930_a2af, amo(AmoOp::Amoswap, Width::Word, 5, 1, 19)),
        // amoadd.w.aq x6, x18, (x4)
        (0x0522_232f, amo(AmoOp::Amoadd, Width::Word, 6, 4, 18)),
        // amoxor.w.rl x7, x17, (x7)
        (0x2313_a3af, amo(AmoOp::Amoxor, Width::Word, 7, 7, 17)),
        // amoand.w.aqrl x8, x16, (x10)
        (0x6705_242f, amo(AmoOp::Amoand, Width::Word, 8, 10, 16)),
        // amoor.w x9, x15, (x13)
        (0x40f6_a4af, amo(AmoOp::Amoor, Width::Word, 9, 13, 15)),
        // amomin.w.aq x10, x14, (x16)
        (0x84e8_252f, amo(AmoOp::Amomin, Width::Word, 10, 16, 14)),
        // amomax.w.rl x11, x13, (x19)
        (0xa2d9_a5af, amo(AmoOp::Amomax, Width::Word, 11, 19, 13)),
        // amominu.w.aqrl x12, x12, (x22)
        (0xc6cb_262f, amo(AmoOp::Amominu, Width::Word, 12, 22, 12)),
        // amomaxu.w x13, x11, (x25)
        (0xe0bc_a6af, amo(AmoOp::Amomaxu, Width::Word, 13, 25, 11)),
        // lr.d x8, (x22)
        (
            0x100b_342f,
            Op::LoadReserved {
                width: Width::Doubleword,
                rd: 8,
                rs1: 22,
            },
        ),
        // lr.d.aqrl x8, (x22)
        (
            0x160b_342f,
            Op::LoadReserved {
                width: Width::Doubleword,
                rd: 8,
                rs1: 22,
            },
        ),
        // sc.d x9, x14, (x23)
        (0x18eb_b4af, store_conditional(Width::Doubleword, 9, 23, 14)),
        // sc.d.rl x9, x14, (x23)
        (0x1aeb_b4af, store_conditional(Width::Doubleword, 9, 23, 14)),
        // amoswap.d x10, x24, (x6)
        (
            0x0983_352f,
            amo(AmoOp::Amoswap, Width::Doubleword, 10, 6, 24),
        ),
        // amoadd.d.aq x11, x23, (x9)
        (
            0x0574_b5af,
            amo(AmoOp::Amoadd, Width::Doubleword, 11, 9, 23),
        ),
        // amoxor.d.rl x12, x22, (x12)
        (
            0x2366_362f,
            amo(AmoOp::Amoxor, Width::Doubleword, 12, 12, 22),
        ),
        // amoand.d.aqrl x13, x21, (x15)
        (
            0x6757_b6af,
            amo(AmoOp::Amoand, Width::Doubleword, 13, 15, 21),
        ),
        // amoor.d x14, x20, (x18)
        (
            0x4149_372f,
            amo(AmoOp::Amoor, Width::Doubleword, 14, 18, 20),
        ),
        // amomin.d.aq x15, x19, (x21)
        (
            0x853a_b7af,
            amo(AmoOp::Amomin, Width::Doubleword, 15, 21, 19),
        ),
        // amomax.d.rl x16, x18, (x24)
        (
            0xa32c_382f,
            amo(AmoOp::Amomax, Width::Doubleword, 16, 24, 18),
        ),
        // amominu.d.aqrl x17, x17, (x27)
        (
            0xc71d_b8af,
            amo(AmoOp::Amominu, Width::Doubleword, 17, 27, 17),
        ),
        // amomaxu.d x18, x16, (x30)
        (
            0xe10f_392f,
            amo(AmoOp::Amomaxu, Width::Doubleword, 18, 30, 16),
        ),
    ];
    for (word, op) in rows {
        assert_eq!(rt; decode(word), Some(op), "at {word}");
    }
    Ok(())
}

/// Words beside the rows of the table.
#[test]
fn refuses_words(rt: HostRuntime) -> Result<(), Fail> {
    let words = [
        // all zero
        0x0000_0000,
        // all ones
        0xffff_ffff,
        // jalr with funct3 1
        0x0000_1067,
        // a branch with funct3 2
        0x0000_2063,
        // a branch with funct3 3
        0x0000_3063,
        // a load with funct3 7
        0x0000_7003,
        // a store with funct3 4
        0x0000_4023,
        // slli by 64
        0x0400_1013,
        // srli with bit 31
        0x8000_5013,
        // srai by 64
        0x4400_5013,
        // slliw by 32
        0x0200_101b,
        // srliw by 32
        0x0200_501b,
        // sraiw by 32
        0x4200_501b,
        // funct3 2 on 32 bits
        0x0000_201b,
        // sll with bit 30
        0x4000_1033,
        // and with bit 30
        0x4000_7033,
        // mul with bit 30
        0x4200_0033,
        // add with bit 26
        0x0400_0033,
        // sllw with bit 30
        0x4000_103b,
        // mulw with funct3 1
        0x0200_103b,
        // funct3 2 on 32 bits
        0x0000_203b,
        // a fence with funct3 2
        0x0000_200f,
        // ecall with rd 1
        0x0000_00f3,
        // ebreak with rs1 1
        0x0010_8073,
        // mret with rd 1
        0x3020_00f3,
        // mret with bits 31:25 of 0111000
        0x7020_0073,
        // sret with rs1 1
        0x1020_8073,
        // a return of user mode
        0x0020_0073,
        // a return of the hypervisor
        0x2020_0073,
        // wfi with rd 1
        0x1050_00f3,
        // sfence.vma with rd 1
        0x1200_00f3,
        // a fence of the hypervisor
        0x2200_0073,
        // an access to a control and status register with funct3 4
        0x3000_4073,
        // lr with rs2 1
        0x1010_202f,
        // an atomic with funct3 1
        0x0000_102f,
        // an atomic with bits 31:27 of 00101
        0x2800_302f,
        // a load of floating point
        0x0000_2007,
    ];
    for word in words {
        assert_eq!(rt; decode(word), None, "at {word}");
    }
    Ok(())
}

/// The registers of a load, a store, a branch and a jump, and the sizes of atomics.
#[test]
fn names_registers(rt: HostRuntime) -> Result<(), Fail> {
    let rows = [
        (load(LoadOp::Lw, 1, 2, 0), (1, 2, 0)),
        (store(StoreOp::Sd, 3, 4, 0), (0, 3, 4)),
        (branch(BranchOp::Beq, 5, 6, 8), (0, 5, 6)),
        (jal(7, 8), (7, 0, 0)),
        (amo(AmoOp::Amoadd, Width::Word, 8, 9, 10), (8, 9, 10)),
        (csr(CsrOp::Set, 11, 12, 0), (11, 12, 0)),
        (csr_immediate(CsrOp::Set, 13, 14, 0), (13, 0, 0)),
        (Op::SfenceVma { rs1: 15, rs2: 16 }, (0, 15, 16)),
        (Op::Ecall, (0, 0, 0)),
    ];
    for (op, registers) in rows {
        let operands = op.operands();
        assert_eq!(rt; (operands.rd, operands.rs1, operands.rs2), registers);
    }
    assert_eq!(rt; Width::Word.size(), AccessSize::Word);
    assert_eq!(rt; Width::Doubleword.size(), AccessSize::Doubleword);
    Ok(())
}

/// A number for each instruction whatever its operands, by its kind and its place in the kind.
pub fn place(op: Op) -> u16 {
    match op {
        Op::Lui { .. } => 1,
        Op::Auipc { .. } => 2,
        Op::Jal { .. } => 3,
        Op::Jalr { .. } => 4,
        Op::Branch { op, .. } => 0x11 + op as u16,
        Op::Load { op, .. } => 0x21 + op as u16,
        Op::Store { op, .. } => 0x31 + op as u16,
        Op::Immediate { op, .. } => 0x41 + op as u16,
        Op::ImmediateWord { op, .. } => 0x51 + op as u16,
        Op::Register { op, .. } => 0x61 + op as u16,
        Op::RegisterWord { op, .. } => 0x81 + op as u16,
        Op::BitsRegister { op, .. } => 0x101 + op as u16,
        Op::BitsImmediate { op, .. } => 0x131 + op as u16,
        Op::BitsUnary { op, .. } => 0x161 + op as u16,
        Op::LoadReserved { width, .. } => 0x91 + width as u16,
        Op::StoreConditional { width, .. } => 0x93 + width as u16,
        Op::Amo { op, width, .. } => 0xa1 + 2 * (op as u16) + width as u16,
        Op::Csr { op, .. } => 0xd1 + op as u16,
        Op::CsrImmediate { op, .. } => 0xd4 + op as u16,
        Op::Fence
        | Op::FenceI
        | Op::Ecall
        | Op::Ebreak
        | Op::Mret
        | Op::Sret
        | Op::Wfi
        | Op::SfenceVma { .. } => 0xff,
    }
}

/// The checksum of the instructions that an opcode has with each funct3, each funct7 and rs2 of x0
/// or x1, in this order, rd being x5 and rs1 x6: 0 stands for a word that is refused. This is
/// FNV-1a of 64 bits.
fn checksum(opcode: u32) -> u64 {
    let mut sum: u64 = 0xcbf2_9ce4_8422_2325;
    for place_of_word in 0..2048u32 {
        let funct3 = place_of_word / 256;
        let funct7 = place_of_word / 2 % 128;
        let rs2 = place_of_word % 2;
        let word = funct7 << 25 | rs2 << 20 | 6 << 15 | funct3 << 12 | 5 << 7 | opcode;
        let number = decode(word).map_or(0, place);
        sum = (sum ^ u64::from(number)).wrapping_mul(0x0000_0100_0000_01b3);
    }
    sum
}

/// Words of each opcode, legal or not, against a disassembler's list of them.
///
/// The list was made so: an assembler (GNU binutils 2.40 for riscv64, as Debian has it) was given
/// each word by `.insn` for rv64ima; `objdump -d -M numeric,no-aliases` printed its instruction, or
/// a plain number where it has none; each instruction's name was numbered as `place` does. For
/// each opcode here is the checksum of the list; the two that it leaves out have a test of their
/// own.
#[test]
fn decodes_as_listed(rt: HostRuntime) -> Result<(), Fail> {
    let listed = [
        (0x37, 0x87e0_04e2_fa1b_cb25),
        (0x17, 0xce28_a120_24f4_2325),
        (0x6f, 0xbb82_7ad6_b54f_8b25),
        (0x67, 0xb6fd_5131_b5dd_4725),
        (0x63, 0xb495_44b6_52b1_9e25),
        (0x03, 0x29bf_fb43_5408_9725),
        (0x23, 0xcc0d_c6cb_c31c_1d25),
        (0x13, 0x199d_b3c9_b03b_9995),
        (0x1b, 0x0ce4_7689_54cf_389b),
        (0x33, 0xdcde_8755_57af_0f07),
        (0x3b, 0x5f09_8d0b_6885_ce7f),
        (0x2f, 0xe7d2_9497_6a6b_f0a5),
    ];
    for (opcode, sum) in listed {
        assert_eq!(rt; checksum(opcode), sum, "opcode {opcode}");
    }
    Ok(())
}

/// Words of MISC-MEM, which the list leaves out: a fence has any other field.
#[test]
fn decodes_fences(rt: HostRuntime) -> Result<(), Fail> {
    for funct3 in 0..8u32 {
        let fence = match funct3 {
            0 => Some(Op::Fence),
            1 => Some(Op::FenceI),
            _ => None,
        };
        for upper in 0..4096u32 {
            let word = upper << 20 | 6 << 15 | funct3 << 12 | 5 << 7 | 0x0f;
            assert_eq!(rt; decode(word), fence, "at {word}");
        }
    }
    Ok(())
}

/// Words of SYSTEM, the other opcode, with rd x5 and rs1 x6: each is an access to a control and
/// status register by its funct3, or illegal.
#[test]
fn decodes_every_csr(rt: HostRuntime) -> Result<(), Fail> {
    for address in 0..4096u16 {
        let forms = [
            (0x0073, None),
            (0x1073, Some(csr(CsrOp::Write, 5, 6, address))),
            (0x2073, Some(csr(CsrOp::Set, 5, 6, address))),
            (0x3073, Some(csr(CsrOp::Clear, 5, 6, address))),
            (0x4073, None),
            (0x5073, Some(csr_immediate(CsrOp::Write, 5, 6, address))),
            (0x6073, Some(csr_immediate(CsrOp::Set, 5, 6, address))),
            (0x7073, Some(csr_immediate(CsrOp::Clear, 5, 6, address))),
        ];
        for (low, form) in forms {
            let word = u32::from(address) << 20 | 6 << 15 | 5 << 7 | low;
            assert_eq!(rt; decode(word), form, "at {word}");
        }
    }
    Ok(())
}

/// Words of SYSTEM with funct3 0 and x0 or x1 as rd and rs1: those that the disassembler of the
/// list above names, without URET, HRET, DRET and the old SFENCE.VM, which RV64IMAC with M, S and U
/// has not.
#[test]
fn decodes_control_words(rt: HostRuntime) -> Result<(), Fail> {
    for upper in 0..4096u32 {
        let call = match upper {
            0x000 => Some(Op::Ecall),
            0x001 => Some(Op::Ebreak),
            0x102 => Some(Op::Sret),
            0x105 => Some(Op::Wfi),
            0x302 => Some(Op::Mret),
            _ => None,
        };
        for rs1 in 0..2u8 {
            let fence = if upper / 32 == 9 {
                Some(Op::SfenceVma {
                    rs1,
                    rs2: (upper % 32) as u8,
                })
            } else {
                None
            };
            let called = if rs1 == 0 { call } else { None };
            let word = upper << 20 | u32::from(rs1) << 15 | 0x73;
            assert_eq!(rt; decode(word), called.or(fence), "at {word}");
            assert_eq!(rt; decode(word | 1 << 7), None, "at {word}");
        }
    }
    Ok(())
}
