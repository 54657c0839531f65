use hart_words::AccessSize;
use rv_decode::{
    AmoOp, BitsOp, BranchOp, CsrOp, ImmediateOp, ImmediateWordOp, LoadOp, Op, RegisterOp,
    RegisterWordOp, StoreOp, Width,
};
use rv_integer::{CsrRequest, IntResult, MemoryOp, MemoryRequest, SystemRequest, compute};
use std::test::Fail;

const LEAST: u64 = 1 << 63;

const LEAST_WORD: u64 = 0xffff_ffff_8000_0000;

const MINUS_ONE: u64 = u64::MAX;

/// Results at the edges, worked out from the definitions of the instructions.
#[test]
fn computes_immediates(rt: HostRuntime) -> Result<(), Fail> {
    let cases = [
        (ImmediateOp::Addi, MINUS_ONE, 1, 0),
        (ImmediateOp::Slti, LEAST, 0, 1),
        (ImmediateOp::Slti, 0, MINUS_ONE, 0),
        (ImmediateOp::Sltiu, 0, MINUS_ONE, 1),
        (ImmediateOp::Xori, 5, MINUS_ONE, MINUS_ONE - 5),
        (ImmediateOp::Ori, 5, 2, 7),
        (ImmediateOp::Andi, 5, 4, 4),
        (ImmediateOp::Slli, 3, 63, LEAST),
        (ImmediateOp::Srli, LEAST, 63, 1),
        (ImmediateOp::Srai, LEAST, 63, MINUS_ONE),
        (ImmediateOp::Srai, MINUS_ONE - 2, 1, MINUS_ONE - 1),
    ];
    for (op, a, imm, value) in cases {
        let op = Op::Immediate {
            op,
            rd: 1,
            rs1: 2,
            imm,
        };
        assert_eq!(rt; compute(op, a, 0, 0, 4), IntResult::Value(value));
    }
    Ok(())
}

#[test]
fn computes_immediate_words(rt: HostRuntime) -> Result<(), Fail> {
    let cases = [
        (ImmediateWordOp::Addiw, 0x1_7fff_ffff, 1, LEAST_WORD),
        (ImmediateWordOp::Addiw, LEAST_WORD, MINUS_ONE, 0x7fff_ffff),
        (ImmediateWordOp::Slliw, 3, 31, LEAST_WORD),
        (ImmediateWordOp::Srliw, LEAST_WORD, 31, 1),
        (ImmediateWordOp::Srliw, LEAST_WORD, 0, LEAST_WORD),
        (ImmediateWordOp::Sraiw, 0x8000_0000, 31, MINUS_ONE),
        (ImmediateWordOp::Sraiw, 0xf_7fff_ffff, 30, 1),
    ];
    for (op, a, imm, value) in cases {
        let op = Op::ImmediateWord {
            op,
            rd: 1,
            rs1: 2,
            imm,
        };
        assert_eq!(rt; compute(op, a, 0, 0, 4), IntResult::Value(value));
    }
    Ok(())
}

#[test]
fn computes_registers(rt: HostRuntime) -> Result<(), Fail> {
    let cases = [
        (RegisterOp::Add, LEAST, LEAST, 0),
        (RegisterOp::Sub, 0, 1, MINUS_ONE),
        (RegisterOp::Sll, 1, 64 + 63, LEAST),
        (RegisterOp::Slt, MINUS_ONE, 0, 1),
        (RegisterOp::Sltu, MINUS_ONE, 0, 0),
        (RegisterOp::Xor, 6, 3, 5),
        (RegisterOp::Srl, MINUS_ONE, 64 + 60, 15),
        (RegisterOp::Sra, LEAST, 64 + 62, MINUS_ONE - 1),
        (RegisterOp::Or, 6, 3, 7),
        (RegisterOp::And, 6, 3, 2),
        (RegisterOp::Mul, LEAST + 3, 3, LEAST + 9),
        (RegisterOp::Mulh, MINUS_ONE, MINUS_ONE, 0),
        (RegisterOp::Mulhsu, MINUS_ONE, MINUS_ONE, MINUS_ONE),
        (RegisterOp::Mulhu, MINUS_ONE, MINUS_ONE, MINUS_ONE - 1),
        (RegisterOp::Div, LEAST, MINUS_ONE, LEAST),
        (RegisterOp::Divu, LEAST, 0, MINUS_ONE),
        (RegisterOp::Rem, LEAST, MINUS_ONE, 0),
        (RegisterOp::Remu, LEAST, MINUS_ONE, LEAST),
    ];
    for (op, a, b, value) in cases {
        let op = Op::Register {
            op,
            rd: 1,
            rs1: 2,
            rs2: 3,
        };
        assert_eq!(rt; compute(op, a, b, 0, 4), IntResult::Value(value));
    }
    Ok(())
}

#[test]
fn computes_register_words(rt: HostRuntime) -> Result<(), Fail> {
    let cases = [
        (RegisterWordOp::Addw, 0x7fff_ffff, 1, LEAST_WORD),
        (RegisterWordOp::Subw, 0x1_0000_0000, 1, MINUS_ONE),
        (RegisterWordOp::Sllw, 1, 32 + 31, LEAST_WORD),
        (RegisterWordOp::Srlw, MINUS_ONE, 32 + 28, 15),
        (RegisterWordOp::Sraw, 0x8000_0000, 32 + 30, MINUS_ONE - 1),
        (RegisterWordOp::Mulw, 0x1_0000_8000, 0x1_0000, LEAST_WORD),
        (RegisterWordOp::Divw, LEAST_WORD, 0xffff_ffff, LEAST_WORD),
        (RegisterWordOp::Divw, 0xffff_fff9, 2, MINUS_ONE - 2),
        (RegisterWordOp::Divw, 7, 1 << 32, MINUS_ONE),
        (RegisterWordOp::Divuw, 0x8000_0000, 1, LEAST_WORD),
        (RegisterWordOp::Divuw, 7, 1 << 32, MINUS_ONE),
        (RegisterWordOp::Remw, LEAST_WORD, MINUS_ONE, 0),
        (RegisterWordOp::Remw, 0xffff_fff9, 2, MINUS_ONE),
        (RegisterWordOp::Remuw, 0x8000_0000, 0, LEAST_WORD),
        (RegisterWordOp::Remuw, 0x1_0000_0007, 4, 3),
    ];
    for (op, a, b, value) in cases {
        let op = Op::RegisterWord {
            op,
            rd: 1,
            rs1: 2,
            rs2: 3,
        };
        assert_eq!(rt; compute(op, a, b, 0, 4), IntResult::Value(value));
    }
    Ok(())
}

/// Bit manipulation takes its second operand from rs2 or from the instruction, or has none.
#[test]
fn computes_bit_manipulation(rt: HostRuntime) -> Result<(), Fail> {
    let register = |op| Op::BitsRegister {
        op,
        rd: 1,
        rs1: 2,
        rs2: 3,
    };
    let immediate = |op, imm| Op::BitsImmediate {
        op,
        rd: 1,
        rs1: 2,
        imm,
    };
    let unary = |op| Op::BitsUnary { op, rd: 1, rs1: 2 };
    let cases = [
        (register(BitsOp::Sh3add), 2, 5, 21),
        (register(BitsOp::Rol), LEAST + 1, 64 + 4, 0x18),
        (register(BitsOp::Bclr), MINUS_ONE, 63, LEAST - 1),
        (immediate(BitsOp::Ror, 4), 0x18, 63, LEAST + 1),
        (immediate(BitsOp::Rorw, 31), 0x4000_0000, 5, LEAST_WORD),
        (
            immediate(BitsOp::SlliUw, 32),
            MINUS_ONE,
            5,
            0xffff_ffff_0000_0000,
        ),
        (immediate(BitsOp::Bext, 63), LEAST, 0, 1),
        (unary(BitsOp::Clzw), 0, 5, 32),
        (unary(BitsOp::SextB), 0x180, 5, MINUS_ONE - 0x7f),
        (unary(BitsOp::Rev8), 1, 5, 1 << 56),
    ];
    for (op, a, b, value) in cases {
        assert_eq!(rt; compute(op, a, b, 0, 4), IntResult::Value(value));
    }
    Ok(())
}

/// Each branch on a signed pair, an unsigned pair and an equal one: where it goes from 0x1000.
#[test]
fn branches(rt: HostRuntime) -> Result<(), Fail> {
    let back = MINUS_ONE - 0xfff;
    let cases = [
        (BranchOp::Beq, [0x1002, 0x1002, 0]),
        (BranchOp::Bne, [0, 0, 0x1002]),
        (BranchOp::Blt, [0, 0x1002, 0x1002]),
        (BranchOp::Bge, [0x1002, 0, 0]),
        (BranchOp::Bltu, [0x1002, 0, 0x1002]),
        (BranchOp::Bgeu, [0, 0x1002, 0]),
    ];
    for (op, [below, above, equal]) in cases {
        let op = Op::Branch {
            op,
            rs1: 1,
            rs2: 2,
            offset: back,
        };
        assert_eq!(rt;
            compute(op, MINUS_ONE, 0, 0x1000, 2),
            IntResult::Continue { next_pc: below }
        );
        assert_eq!(rt;
            compute(op, 0, MINUS_ONE, 0x1000, 2),
            IntResult::Continue { next_pc: above }
        );
        assert_eq!(rt;
            compute(op, 7, 7, 0x1000, 2),
            IntResult::Continue { next_pc: equal }
        );
    }
    Ok(())
}

/// Upper immediates and jumps: the instruction, the value of rs1, pc, the length, and the result.
/// JALR clears bit 0 of its sum.
#[test]
fn computes_upper_immediates_and_jumps(rt: HostRuntime) -> Result<(), Fail> {
    let back = MINUS_ONE - 3;
    let lui = Op::Lui {
        rd: 1,
        imm: LEAST_WORD,
    };
    let auipc = Op::Auipc {
        rd: 1,
        imm: LEAST_WORD,
    };
    let jal = Op::Jal {
        rd: 1,
        offset: back,
    };
    let jalr = Op::Jalr {
        rd: 1,
        rs1: 2,
        offset: 2,
    };
    let cases = [
        (lui, 0, 4, 4, IntResult::Value(LEAST_WORD)),
        (auipc, 0, 0x8000_0004, 4, IntResult::Value(4)),
        (jal, 0, 0, 2, jump(2, back)),
        (jalr, MINUS_ONE, MINUS_ONE - 1, 4, jump(2, 0)),
        (jalr, 5, 0x1000, 4, jump(0x1004, 6)),
        (jalr, 4, 0x1000, 2, jump(0x1002, 6)),
    ];
    for (op, a, pc, len, wanted) in cases {
        assert_eq!(rt; compute(op, a, 0, pc, len), wanted);
    }
    Ok(())
}

fn access(address: u64, size: AccessSize, op: MemoryOp) -> IntResult {
    IntResult::Access(MemoryRequest { address, size, op })
}

fn jump(link: u64, target: u64) -> IntResult {
    IntResult::Jump { link, target }
}

#[test]
fn asks_for_accesses(rt: HostRuntime) -> Result<(), Fail> {
    let loads = [
        (LoadOp::Lb, AccessSize::Byte, true),
        (LoadOp::Lh, AccessSize::Halfword, true),
        (LoadOp::Lw, AccessSize::Word, true),
        (LoadOp::Ld, AccessSize::Doubleword, true),
        (LoadOp::Lbu, AccessSize::Byte, false),
        (LoadOp::Lhu, AccessSize::Halfword, false),
        (LoadOp::Lwu, AccessSize::Word, false),
    ];
    for (op, size, signed) in loads {
        let op = Op::Load {
            op,
            rd: 1,
            rs1: 2,
            offset: MINUS_ONE,
        };
        assert_eq!(rt;
            compute(op, 0, 0, 0, 4),
            access(MINUS_ONE, size, MemoryOp::Load { signed })
        );
    }
    let stores = [
        (StoreOp::Sb, AccessSize::Byte, 0xef),
        (StoreOp::Sh, AccessSize::Halfword, 0xcdef),
        (StoreOp::Sw, AccessSize::Word, 0x89ab_cdef),
        (StoreOp::Sd, AccessSize::Doubleword, 0x0123_4567_89ab_cdef),
    ];
    for (op, size, value) in stores {
        let op = Op::Store {
            op,
            rs1: 2,
            rs2: 3,
            offset: 8,
        };
        assert_eq!(rt;
            compute(op, 0x1000, 0x0123_4567_89ab_cdef, 0, 4),
            access(0x1008, size, MemoryOp::Store { value })
        );
    }
    Ok(())
}

#[test]
fn asks_for_the_rest(rt: HostRuntime) -> Result<(), Fail> {
    let value = 0xffff_ffff_0000_0007;
    let cases = [
        (Op::Fence, IntResult::Continue { next_pc: 6 }),
        (Op::FenceI, IntResult::Continue { next_pc: 6 }),
        (Op::Ecall, IntResult::System(SystemRequest::EnvironmentCall)),
        (Op::Ebreak, IntResult::System(SystemRequest::Breakpoint)),
        (Op::Mret, IntResult::System(SystemRequest::MachineReturn)),
        (Op::Sret, IntResult::System(SystemRequest::SupervisorReturn)),
        (Op::Wfi, IntResult::System(SystemRequest::WaitForInterrupt)),
        (
            Op::SfenceVma { rs1: 2, rs2: 3 },
            IntResult::System(SystemRequest::TranslationFence),
        ),
        (
            Op::LoadReserved {
                width: Width::Word,
                rd: 1,
                rs1: 2,
            },
            access(0x1000, AccessSize::Word, MemoryOp::LoadReserved),
        ),
        (
            Op::StoreConditional {
                width: Width::Doubleword,
                rd: 1,
                rs1: 2,
                rs2: 3,
            },
            access(
                0x1000,
                AccessSize::Doubleword,
                MemoryOp::StoreConditional { value },
            ),
        ),
        (
            Op::StoreConditional {
                width: Width::Word,
                rd: 1,
                rs1: 2,
                rs2: 3,
            },
            access(
                0x1000,
                AccessSize::Word,
                MemoryOp::StoreConditional { value: 7 },
            ),
        ),
        (
            Op::Amo {
                op: AmoOp::Amoadd,
                width: Width::Word,
                rd: 1,
                rs1: 2,
                rs2: 3,
            },
            access(
                0x1000,
                AccessSize::Word,
                MemoryOp::Amo {
                    op: AmoOp::Amoadd,
                    width: Width::Word,
                    b: value,
                },
            ),
        ),
    ];
    for (op, wanted) in cases {
        assert_eq!(rt; compute(op, 0x1000, value, 2, 4), wanted);
    }
    Ok(())
}

/// Accesses to control and status registers: the form, rd, rs1, and whether the register is read
/// and written. The number of rs1 decides that, and not its value, which is 0 here; the same with
/// an immediate.
#[test]
fn asks_for_csr_accesses(rt: HostRuntime) -> Result<(), Fail> {
    let cases = [
        (CsrOp::Write, 0, 0, false, true),
        (CsrOp::Write, 0, 3, false, true),
        (CsrOp::Write, 1, 0, true, true),
        (CsrOp::Set, 0, 0, true, false),
        (CsrOp::Set, 0, 31, true, true),
        (CsrOp::Clear, 31, 0, true, false),
        (CsrOp::Clear, 1, 1, true, true),
    ];
    for (op, rd, source, reads, writes) in cases {
        let request = CsrRequest {
            address: 0x305,
            op,
            operand: 0,
            reads,
            writes,
        };
        let by_register = Op::Csr {
            op,
            rd,
            rs1: source,
            csr: 0x305,
        };
        assert_eq!(rt;
            compute(by_register, 0, 9, 8, 4),
            IntResult::System(SystemRequest::Csr(request))
        );
        let by_immediate = Op::CsrImmediate {
            op,
            rd,
            imm: u64::from(source),
            csr: 0x305,
        };
        assert_eq!(rt;
            compute(by_immediate, 8, 9, 8, 4),
            IntResult::System(SystemRequest::Csr(CsrRequest {
                operand: u64::from(source),
                ..request
            }))
        );
    }
    Ok(())
}
