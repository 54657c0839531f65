//! What an instruction computes or asks for.

ghost use Rattle.std.specs.Prelude.{◌≡◌, ◌%◌, ◌<◌, ◌^◌};
ghost use Rattle.hart_words.specs.AccessSizes.{bits_of};
ghost use Rattle.rv_integer.specs.Results.{result_of, access_at, csr_access_of, is_csr_read, is_csr_written, is_taken, load_of, low_bits, size_of_store, store_of, store_conditional_of};
ghost use Rattle.rv_decode.specs.Operands.{HasEvenOffset};
ghost use Rattle.rv_integer.specs.Even.{GoesToEven};
ghost use Rattle.rv_integer.specs.Stores.{StoresWhatFits};

use crate::arithmetic::{compute_immediate, compute_register};
use crate::int_result::{CsrRequest, IntResult, MemoryOp, MemoryRequest, SystemRequest};
use crate::word_forms::{compute_immediate_word, compute_register_word};
use hart_words::AccessSize;
use rv_bits::compute_bits;
use rv_decode::{BranchOp, CsrOp, LoadOp, Op, StoreOp, Width};

/// What `op` asks for, where rs1 has the value `a` and rs2 the value `b`, and the instruction
/// stands at the address `pc` with `len` bytes (2 or 4). From the Unprivileged ISA's chapters
/// "RV32I Base Integer Instruction Set", "RV64I Base Integer Instruction Set", "M Extension for
/// Integer Multiplication and Division", "A Extension for Atomic Instructions" and "Zicsr Extension
/// for Control and Status Register (CSR) Instructions", the Bit-Manipulation ISA-extensions, and
/// the Privileged Architecture's "Machine-Level ISA" and "Supervisor-Level ISA".
#[tactic(auto, unfolding(crate::specs::Results::result_of))]
pub fn compute(op: Op, a: u64, b: u64, pc: u64, len: u64) -> IntResult
    ensures value { result ≡ result_of op a b pc len }
    ensures fits { StoresWhatFits result }
    ensures even { pc % 2 ≡ 0 → len % 2 ≡ 0 → HasEvenOffset op → GoesToEven result }
{
    let next_pc = pc.wrapping_add(len);
    match op {
        Op::Lui { imm, .. } => IntResult::Value(imm),
        Op::Auipc { imm, .. } => IntResult::Value(pc.wrapping_add(imm)),
        Op::Jal { offset, .. } => IntResult::Jump {
            link: next_pc,
            target: pc.wrapping_add(offset),
        },
        Op::Jalr { offset, .. } => IntResult::Jump {
            link: next_pc,
            target: a.wrapping_add(offset) / 2 * 2,
        },
        Op::Branch { op, offset, .. } => IntResult::Continue {
            next_pc: if is_taken(op, a, b) {
                pc.wrapping_add(offset)
            } else {
                next_pc
            },
        },
        Op::Load { op, offset, .. } => load(op, a.wrapping_add(offset)),
        Op::Store { op, offset, .. } => store(op, a.wrapping_add(offset), b),
        Op::Immediate { op, imm, .. } => IntResult::Value(compute_immediate(op, a, imm)),
        Op::ImmediateWord { op, imm, .. } => IntResult::Value(compute_immediate_word(op, a, imm)),
        Op::Register { op, .. } => IntResult::Value(compute_register(op, a, b)),
        Op::RegisterWord { op, .. } => IntResult::Value(compute_register_word(op, a, b)),
        Op::BitsRegister { op, .. } => IntResult::Value(compute_bits(op, a, b)),
        Op::BitsImmediate { op, imm, .. } => IntResult::Value(compute_bits(op, a, imm)),
        Op::BitsUnary { op, .. } => IntResult::Value(compute_bits(op, a, 0)),
        Op::Fence | Op::FenceI => IntResult::Continue { next_pc },
        Op::Ecall => IntResult::System(SystemRequest::EnvironmentCall),
        Op::Ebreak => IntResult::System(SystemRequest::Breakpoint),
        Op::Mret => IntResult::System(SystemRequest::MachineReturn),
        Op::Sret => IntResult::System(SystemRequest::SupervisorReturn),
        Op::Wfi => IntResult::System(SystemRequest::WaitForInterrupt),
        Op::SfenceVma { .. } => IntResult::System(SystemRequest::TranslationFence),
        Op::Csr { op, rd, rs1, csr } => csr_access(op, rd, u64::from(rs1), a, csr),
        Op::CsrImmediate { op, rd, imm, csr } => csr_access(op, rd, imm, imm, csr),
        Op::LoadReserved { width, .. } => access(a, width.size(), MemoryOp::LoadReserved),
        Op::StoreConditional { width, .. } => store_conditional(width, a, b),
        Op::Amo { op, width, .. } => access(a, width.size(), MemoryOp::Amo { op, width, b }),
    }
}

/// An access to memory.
fn access(address: u64, size: AccessSize, op: MemoryOp) -> IntResult
    ensures { result ≡ access_at address size op }
{
    IntResult::Access(MemoryRequest { address, size, op })
}

/// Whether a branch is taken.
#[tactic(auto, unfolding(crate::specs::Results::is_taken))]
fn is_taken(op: BranchOp, a: u64, b: u64) -> bool
    ensures { result ≡ is_taken op a b }
{
    match op {
        BranchOp::Beq => a == b,
        BranchOp::Bne => a != b,
        BranchOp::Blt => a.cast_signed() < b.cast_signed(),
        BranchOp::Bge => a.cast_signed() >= b.cast_signed(),
        BranchOp::Bltu => a < b,
        BranchOp::Bgeu => a >= b,
    }
}

fn load(op: LoadOp, address: u64) -> IntResult
    ensures { result ≡ load_of op address }
{
    let (size, signed) = match op {
        LoadOp::Lb => (AccessSize::Byte, true),
        LoadOp::Lh => (AccessSize::Halfword, true),
        LoadOp::Lw => (AccessSize::Word, true),
        LoadOp::Ld => (AccessSize::Doubleword, true),
        LoadOp::Lbu => (AccessSize::Byte, false),
        LoadOp::Lhu => (AccessSize::Halfword, false),
        LoadOp::Lwu => (AccessSize::Word, false),
    };
    access(address, size, MemoryOp::Load { signed })
}

fn store(op: StoreOp, address: u64, b: u64) -> IntResult
    ensures { result ≡ store_of op address b }
{
    let size = size_of_store(op);
    let value = low_bits(size, b);
    access(address, size, MemoryOp::Store { value })
}

fn store_conditional(width: Width, address: u64, b: u64) -> IntResult
    ensures { result ≡ store_conditional_of width address b }
{
    let size = width.size();
    let value = low_bits(size, b);
    access(address, size, MemoryOp::StoreConditional { value })
}

/// An access to a control and status register, by rs1's number or an immediate, and the operand.
fn csr_access(op: CsrOp, rd: u8, source: u64, operand: u64, csr: u16) -> IntResult
    ensures { result ≡ csr_access_of op rd source operand csr }
{
    IntResult::System(SystemRequest::Csr(CsrRequest {
        address: csr,
        op,
        operand,
        reads: is_csr_read(op, rd),
        writes: is_csr_written(op, source),
    }))
}

fn is_csr_read(op: CsrOp, rd: u8) -> bool
    ensures { result ≡ is_csr_read op rd }
{
    match op {
        CsrOp::Write => rd != 0,
        CsrOp::Set | CsrOp::Clear => true,
    }
}

fn is_csr_written(op: CsrOp, source: u64) -> bool
    ensures { result ≡ is_csr_written op source }
{
    match op {
        CsrOp::Write => true,
        CsrOp::Set | CsrOp::Clear => source != 0,
    }
}

fn size_of_store(op: StoreOp) -> AccessSize
    ensures { result ≡ size_of_store op }
{
    match op {
        StoreOp::Sb => AccessSize::Byte,
        StoreOp::Sh => AccessSize::Halfword,
        StoreOp::Sw => AccessSize::Word,
        StoreOp::Sd => AccessSize::Doubleword,
    }
}

/// The low bits, as many as an access has.
fn low_bits(size: AccessSize, x: u64) -> u64
    ensures value { result ≡ low_bits size x }
    ensures fits { result < 2 ^ bits_of size }
{
    match size {
        AccessSize::Byte => x % (1 << 8),
        AccessSize::Halfword => x % (1 << 16),
        AccessSize::Word => x % (1 << 32),
        AccessSize::Doubleword => x,
    }
}
