//! Instructions with their operands, in the terms of the Unprivileged ISA and the Privileged
//! Architecture.

use hart_words::AccessSize;

/// An instruction. Registers are numbers from 0 to 31; immediates are extended to 64 bits and
/// scaled as the instruction uses them; offsets are added to pc or to rs1 modulo 2^64.
#[derive(Clone, Copy, Debug, PartialEq, Eq)]
pub enum Op {
    /// Puts the immediate into rd.
    Lui {
        rd: u8,
        imm: u64,
    },
    /// Puts pc plus the immediate into rd.
    Auipc {
        rd: u8,
        imm: u64,
    },
    /// Puts the address of the next instruction into rd and jumps to pc plus the offset.
    Jal {
        rd: u8,
        offset: u64,
    },
    /// Puts the address of the next instruction into rd and jumps to rs1 plus the offset, with bit
    /// 0 cleared.
    Jalr {
        rd: u8,
        rs1: u8,
        offset: u64,
    },
    /// Jumps to pc plus the offset where rs1 and rs2 compare so.
    Branch {
        op: BranchOp,
        rs1: u8,
        rs2: u8,
        offset: u64,
    },
    /// Puts what memory has at rs1 plus the offset into rd.
    Load {
        op: LoadOp,
        rd: u8,
        rs1: u8,
        offset: u64,
    },
    /// Puts the low bytes of rs2 into memory at rs1 plus the offset.
    Store {
        op: StoreOp,
        rs1: u8,
        rs2: u8,
        offset: u64,
    },
    /// Combines rs1 with an immediate, or shifts rs1 by it.
    Immediate {
        op: ImmediateOp,
        rd: u8,
        rs1: u8,
        imm: u64,
    },
    /// The same on 32 bits.
    ImmediateWord {
        op: ImmediateWordOp,
        rd: u8,
        rs1: u8,
        imm: u64,
    },
    /// Combines rs1 with rs2.
    Register {
        op: RegisterOp,
        rd: u8,
        rs1: u8,
        rs2: u8,
    },
    /// The same on 32 bits.
    RegisterWord {
        op: RegisterWordOp,
        rd: u8,
        rs1: u8,
        rs2: u8,
    },
    /// Combines rs1 with rs2 by an instruction of bit manipulation.
    BitsRegister {
        op: BitsOp,
        rd: u8,
        rs1: u8,
        rs2: u8,
    },
    /// The same by an immediate: a shift amount, or the number of a bit.
    BitsImmediate {
        op: BitsOp,
        rd: u8,
        rs1: u8,
        imm: u64,
    },
    /// The same of rs1 alone.
    BitsUnary {
        op: BitsOp,
        rd: u8,
        rs1: u8,
    },
    /// Orders memory accesses: no effect on one hart.
    Fence,
    /// Orders fetches after stores: no effect here, where nothing is cached.
    FenceI,
    /// Raises an environment call.
    Ecall,
    /// Raises a breakpoint.
    Ebreak,
    /// Returns from a trap that was taken in M.
    Mret,
    /// Returns from a trap that was taken in S.
    Sret,
    /// Waits for an interrupt.
    Wfi,
    /// Orders accesses to page tables for the addresses and the address space in rs1 and rs2: no
    /// effect here, where nothing is cached.
    SfenceVma {
        rs1: u8,
        rs2: u8,
    },
    /// Puts what a control and status register has into rd, and writes it by rs1.
    Csr {
        op: CsrOp,
        rd: u8,
        rs1: u8,
        csr: u16,
    },
    /// The same by an immediate of 5 bits.
    CsrImmediate {
        op: CsrOp,
        rd: u8,
        imm: u64,
        csr: u16,
    },
    /// Loads from the address in rs1 and reserves it.
    LoadReserved {
        width: Width,
        rd: u8,
        rs1: u8,
    },
    /// Stores rs2 at the address in rs1 where it is still reserved; rd says whether it did.
    StoreConditional {
        width: Width,
        rd: u8,
        rs1: u8,
        rs2: u8,
    },
    /// Combines what memory has at the address in rs1 with rs2; rd gets what it had before.
    Amo {
        op: AmoOp,
        width: Width,
        rd: u8,
        rs1: u8,
        rs2: u8,
    },
}

/// The registers of an instruction by number, 0 where it has none: the one that it writes, and
/// those that it reads as rs1 and rs2.
#[derive(Clone, Copy, Debug, PartialEq, Eq)]
pub struct Operands {
    pub rd: u8,
    pub rs1: u8,
    pub rs2: u8,
}

impl Op {
    ghost use Rattle.std.specs.Prelude.{◌≡◌};
    ghost use Rattle.rv_decode.specs.Operands.{operands_of};

    /// The registers that it writes and reads.
    pub fn operands(self) -> Operands
        ensures { result ≡ operands_of self }
    {
        match self {
            Op::Lui { rd, .. }
            | Op::Auipc { rd, .. }
            | Op::Jal { rd, .. }
            | Op::CsrImmediate { rd, .. } => Operands { rd, rs1: 0, rs2: 0 },
            Op::Jalr { rd, rs1, .. }
            | Op::Load { rd, rs1, .. }
            | Op::Immediate { rd, rs1, .. }
            | Op::ImmediateWord { rd, rs1, .. }
            | Op::BitsImmediate { rd, rs1, .. }
            | Op::BitsUnary { rd, rs1, .. }
            | Op::Csr { rd, rs1, .. }
            | Op::LoadReserved { rd, rs1, .. } => Operands { rd, rs1, rs2: 0 },
            Op::Register { rd, rs1, rs2, .. }
            | Op::RegisterWord { rd, rs1, rs2, .. }
            | Op::BitsRegister { rd, rs1, rs2, .. }
            | Op::StoreConditional { rd, rs1, rs2, .. }
            | Op::Amo { rd, rs1, rs2, .. } => Operands { rd, rs1, rs2 },
            Op::Branch { rs1, rs2, .. } | Op::Store { rs1, rs2, .. } | Op::SfenceVma { rs1, rs2 } =>
                Operands { rd: 0, rs1, rs2 },
            Op::Fence | Op::FenceI | Op::Ecall | Op::Ebreak | Op::Mret | Op::Sret | Op::Wfi =>
                Operands {
                    rd: 0,
                    rs1: 0,
                    rs2: 0,
                },
        }
    }
}

/// The conditional branches.
#[derive(Clone, Copy, Debug, PartialEq, Eq)]
pub enum BranchOp {
    Beq,
    Bne,
    Blt,
    Bge,
    Bltu,
    Bgeu,
}

/// The loads.
#[derive(Clone, Copy, Debug, PartialEq, Eq)]
pub enum LoadOp {
    Lb,
    Lh,
    Lw,
    Ld,
    Lbu,
    Lhu,
    Lwu,
}

/// The stores.
#[derive(Clone, Copy, Debug, PartialEq, Eq)]
pub enum StoreOp {
    Sb,
    Sh,
    Sw,
    Sd,
}

/// The instructions that combine a register with an immediate.
#[derive(Clone, Copy, Debug, PartialEq, Eq)]
pub enum ImmediateOp {
    Addi,
    Slti,
    Sltiu,
    Xori,
    Ori,
    Andi,
    Slli,
    Srli,
    Srai,
}

/// The same on the low 32 bits.
#[derive(Clone, Copy, Debug, PartialEq, Eq)]
pub enum ImmediateWordOp {
    Addiw,
    Slliw,
    Srliw,
    Sraiw,
}

/// The instructions that combine two registers.
#[derive(Clone, Copy, Debug, PartialEq, Eq)]
pub enum RegisterOp {
    Add,
    Sub,
    Sll,
    Slt,
    Sltu,
    Xor,
    Srl,
    Sra,
    Or,
    And,
    Mul,
    Mulh,
    Mulhsu,
    Mulhu,
    Div,
    Divu,
    Rem,
    Remu,
}

/// The same on the low 32 bits.
#[derive(Clone, Copy, Debug, PartialEq, Eq)]
pub enum RegisterWordOp {
    Addw,
    Subw,
    Sllw,
    Srlw,
    Sraw,
    Mulw,
    Divw,
    Divuw,
    Remw,
    Remuw,
}

/// The instructions of bit manipulation (Zba, Zbb, Zbs). One that takes its second operand from a
/// register or from an immediate stands here once, by the name of its register form.
#[derive(Clone, Copy, Debug, PartialEq, Eq)]
pub enum BitsOp {
    Sh1add,
    Sh2add,
    Sh3add,
    AddUw,
    Sh1addUw,
    Sh2addUw,
    Sh3addUw,
    /// SLLI.UW, which has no register form.
    SlliUw,
    Andn,
    Orn,
    Xnor,
    Clz,
    Clzw,
    Ctz,
    Ctzw,
    Cpop,
    Cpopw,
    Max,
    Maxu,
    Min,
    Minu,
    SextB,
    SextH,
    ZextH,
    Rol,
    Rolw,
    /// ROR and RORI.
    Ror,
    /// RORW and RORIW.
    Rorw,
    OrcB,
    Rev8,
    /// BCLR and BCLRI.
    Bclr,
    /// BEXT and BEXTI.
    Bext,
    /// BINV and BINVI.
    Binv,
    /// BSET and BSETI.
    Bset,
}

/// What an instruction writes to a control and status register.
#[derive(Clone, Copy, Debug, PartialEq, Eq)]
pub enum CsrOp {
    /// The operand (CSRRW, CSRRWI).
    Write,
    /// What it has, with the operand's bits set (CSRRS, CSRRSI).
    Set,
    /// What it has, with the operand's bits cleared (CSRRC, CSRRCI).
    Clear,
}

/// How much memory an atomic instruction accesses: 4 bytes or 8.
#[derive(Clone, Copy, Debug, PartialEq, Eq)]
pub enum Width {
    Word,
    Doubleword,
}

impl Width {
    ghost use Rattle.std.specs.Prelude.{◌≡◌};
    ghost use Rattle.rv_decode.specs.Widths.{size_of};

    /// The size of the access.
    pub fn size(self) -> AccessSize
        ensures { result ≡ size_of self }
    {
        match self {
            Width::Word => AccessSize::Word,
            Width::Doubleword => AccessSize::Doubleword,
        }
    }
}

/// The atomic memory operations.
#[derive(Clone, Copy, Debug, PartialEq, Eq)]
pub enum AmoOp {
    Amoswap,
    Amoadd,
    Amoxor,
    Amoand,
    Amoor,
    Amomin,
    Amomax,
    Amominu,
    Amomaxu,
}
