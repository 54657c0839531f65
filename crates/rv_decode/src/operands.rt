//! The fields of a 32-bit word.

ghost use Rattle.std.specs.Prelude.{◌≡◌, ◌<◌, ◌^◌, ◌%◌};
ghost use Rattle.hart_words.specs.Words.{bit_field};
ghost use Rattle.rv_decode.specs.Fields.{immediate_i, immediate_s, immediate_b, immediate_u, immediate_j, csr, operation_of};
ghost use Rattle.rv_decode.specs.Operands.{HasCsrAddress, HasEvenOffset, HasRegisters};

use crate::operation::Op;
use crate::patterns::Form;
use hart_words::sext;

/// The `count` bits of `word` from bit `first` on.
fn field_of(word: u32, first: u32, count: u32) -> u32
    requires inside { first < 32 }
    requires below_32 { count < 32 }
    ensures { result ≡ bit_field first count word }
{
    (word >> first) % 2u32.pow(count)
}

/// The register whose number stands in the 5 bits from `first` on.
fn register(word: u32, first: u32) -> u8
    requires { first < 32 }
    ensures number { result ≡ bit_field first 5 word }
    ensures below { result < 32 }
{
    field_of(word, first, 5) as u8
}

/// The immediate of the I-format.
fn i_immediate(word: u32) -> u64
    ensures { result ≡ immediate_i word }
{
    sext(u64::from(field_of(word, 20, 12)), 12)
}

/// The offset of the S-format.
fn s_immediate(word: u32) -> u64
    ensures { result ≡ immediate_s word }
{
    sext(
        u64::from(field_of(word, 25, 7) * 0x20 + field_of(word, 7, 5)),
        12,
    )
}

/// The offset of the B-format, a multiple of 2.
#[tactic(auto, using(crate::proofs::Even::even_of_13))]
fn b_immediate(word: u32) -> u64
    ensures number { result ≡ immediate_b word }
    ensures even { result % 2 ≡ 0 }
{
    let number = field_of(word, 31, 1) * 0x1000
        + field_of(word, 7, 1) * 0x800
        + field_of(word, 25, 6) * 0x20
        + field_of(word, 8, 4) * 2;
    sext(u64::from(number), 13)
}

/// The immediate of the U-format: the upper 20 bits of a 32-bit number.
fn u_immediate(word: u32) -> u64
    ensures { result ≡ immediate_u word }
{
    sext(u64::from(field_of(word, 12, 20) * 4096), 32)
}

/// The offset of the J-format, a multiple of 2.
#[tactic(auto, using(crate::proofs::Even::even_of_21))]
fn j_immediate(word: u32) -> u64
    ensures number { result ≡ immediate_j word }
    ensures even { result % 2 ≡ 0 }
{
    let number = field_of(word, 31, 1) * 0x10_0000
        + field_of(word, 12, 8) * 0x1000
        + field_of(word, 20, 1) * 0x800
        + field_of(word, 21, 10) * 2;
    sext(u64::from(number), 21)
}

/// The address of a control and status register.
fn csr_address(word: u32) -> u16
    ensures number { result ≡ csr word }
    ensures below { result < 2 ^ 12 }
{
    field_of(word, 20, 12) as u16
}

/// The instruction of this form with the operands that stand in the word.
pub fn operation(form: Form, word: u32) -> Op
    ensures meaning { result ≡ operation_of form word }
    ensures registers { HasRegisters result }
    ensures csr { HasCsrAddress result }
    ensures even { HasEvenOffset result }
{
    let rd = register(word, 7);
    let rs1 = register(word, 15);
    let rs2 = register(word, 20);
    match form {
        Form::Lui => Op::Lui {
            rd,
            imm: u_immediate(word),
        },
        Form::Auipc => Op::Auipc {
            rd,
            imm: u_immediate(word),
        },
        Form::Jal => Op::Jal {
            rd,
            offset: j_immediate(word),
        },
        Form::Jalr => Op::Jalr {
            rd,
            rs1,
            offset: i_immediate(word),
        },
        Form::Branch(op) => Op::Branch {
            op,
            rs1,
            rs2,
            offset: b_immediate(word),
        },
        Form::Load(op) => Op::Load {
            op,
            rd,
            rs1,
            offset: i_immediate(word),
        },
        Form::Store(op) => Op::Store {
            op,
            rs1,
            rs2,
            offset: s_immediate(word),
        },
        Form::Immediate(op) => Op::Immediate {
            op,
            rd,
            rs1,
            imm: i_immediate(word),
        },
        Form::Shift(op) => Op::Immediate {
            op,
            rd,
            rs1,
            imm: u64::from(field_of(word, 20, 6)),
        },
        Form::ImmediateWord(op) => Op::ImmediateWord {
            op,
            rd,
            rs1,
            imm: i_immediate(word),
        },
        Form::ShiftWord(op) => Op::ImmediateWord {
            op,
            rd,
            rs1,
            imm: u64::from(rs2),
        },
        Form::Register(op) => Op::Register { op, rd, rs1, rs2 },
        Form::RegisterWord(op) => Op::RegisterWord { op, rd, rs1, rs2 },
        Form::BitsRegister(op) => Op::BitsRegister { op, rd, rs1, rs2 },
        Form::BitsShift(op) => Op::BitsImmediate {
            op,
            rd,
            rs1,
            imm: u64::from(field_of(word, 20, 6)),
        },
        Form::BitsShiftWord(op) => Op::BitsImmediate {
            op,
            rd,
            rs1,
            imm: u64::from(rs2),
        },
        Form::BitsUnary(op) => Op::BitsUnary { op, rd, rs1 },
        Form::Fence => Op::Fence,
        Form::FenceI => Op::FenceI,
        Form::Ecall => Op::Ecall,
        Form::Ebreak => Op::Ebreak,
        Form::Mret => Op::Mret,
        Form::Sret => Op::Sret,
        Form::Wfi => Op::Wfi,
        Form::SfenceVma => Op::SfenceVma { rs1, rs2 },
        Form::Csr(op) => Op::Csr {
            op,
            rd,
            rs1,
            csr: csr_address(word),
        },
        Form::CsrImmediate(op) => Op::CsrImmediate {
            op,
            rd,
            imm: u64::from(rs1),
            csr: csr_address(word),
        },
        Form::LoadReserved(width) => Op::LoadReserved { width, rd, rs1 },
        Form::StoreConditional(width) => Op::StoreConditional {
            width,
            rd,
            rs1,
            rs2,
        },
        Form::Amo(op, width) => Op::Amo {
            op,
            width,
            rd,
            rs1,
            rs2,
        },
    }
}
