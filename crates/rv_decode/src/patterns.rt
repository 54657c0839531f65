//! The rows of the instruction table, as masks: the bits that an instruction fixes, and how its
//! operands stand in the word. One list for each opcode, and a further one where bit manipulation
//! adds rows; `rows_with` and `bits_rows_with` hold each row to its columns in `specs/Table.antt`.

ghost use Rattle.std.specs.Prelude.{◌≡◌};
ghost use Rattle.rv_decode.specs.Table.{rows_of_opcode, opcodes, bits_opcodes};

use crate::opcodes;
use crate::operation::{
    AmoOp, BitsOp, BranchOp, CsrOp, ImmediateOp, ImmediateWordOp, LoadOp, RegisterOp,
    RegisterWordOp, StoreOp, Width,
};

/// A row of the table: a word is this instruction where it equals `bits` under `mask`.
#[derive(Clone, Copy, Debug)]
pub struct Pattern {
    pub mask: u32,
    pub bits: u32,
    pub form: Form,
}

/// Which instruction a row is, by the format of its operands.
#[derive(Clone, Copy, Debug)]
pub enum Form {
    Lui,
    Auipc,
    Jal,
    Jalr,
    Branch(BranchOp),
    Load(LoadOp),
    Store(StoreOp),
    /// I-format: a 12-bit signed immediate.
    Immediate(ImmediateOp),
    /// I-format with a 6-bit shift amount.
    Shift(ImmediateOp),
    /// I-format: a 12-bit signed immediate.
    ImmediateWord(ImmediateWordOp),
    /// I-format with a 5-bit shift amount.
    ShiftWord(ImmediateWordOp),
    Register(RegisterOp),
    RegisterWord(RegisterWordOp),
    BitsRegister(BitsOp),
    /// I-format with a 6-bit shift amount or number of a bit.
    BitsShift(BitsOp),
    /// I-format with a 5-bit shift amount.
    BitsShiftWord(BitsOp),
    /// One source, rs1.
    BitsUnary(BitsOp),
    Fence,
    FenceI,
    Ecall,
    Ebreak,
    Mret,
    Sret,
    Wfi,
    SfenceVma,
    /// I-format: the address of a control and status register in place of the immediate.
    Csr(CsrOp),
    /// The same with a 5-bit immediate in place of rs1.
    CsrImmediate(CsrOp),
    LoadReserved(Width),
    StoreConditional(Width),
    Amo(AmoOp, Width),
}

/// Rows as `mask bits form`.
macro_rules! rows {
    ($($mask:literal $bits:literal $form:expr),* $(,)?) => {
        [$(Pattern { mask: $mask, bits: $bits, form: $form }),*]
    };
}

const LUI_ROWS: [Pattern; 1] = rows![0x0000007f 0x00000037 Form::Lui];

const AUIPC_ROWS: [Pattern; 1] = rows![0x0000007f 0x00000017 Form::Auipc];

const JAL_ROWS: [Pattern; 1] = rows![0x0000007f 0x0000006f Form::Jal];

const JALR_ROWS: [Pattern; 1] = rows![0x0000707f 0x00000067 Form::Jalr];

const BRANCH_ROWS: [Pattern; 6] = rows![
    0x0000707f 0x00000063 Form::Branch(BranchOp::Beq),
    0x0000707f 0x00001063 Form::Branch(BranchOp::Bne),
    0x0000707f 0x00004063 Form::Branch(BranchOp::Blt),
    0x0000707f 0x00005063 Form::Branch(BranchOp::Bge),
    0x0000707f 0x00006063 Form::Branch(BranchOp::Bltu),
    0x0000707f 0x00007063 Form::Branch(BranchOp::Bgeu),
];

const LOAD_ROWS: [Pattern; 7] = rows![
    0x0000707f 0x00000003 Form::Load(LoadOp::Lb),
    0x0000707f 0x00001003 Form::Load(LoadOp::Lh),
    0x0000707f 0x00002003 Form::Load(LoadOp::Lw),
    0x0000707f 0x00003003 Form::Load(LoadOp::Ld),
    0x0000707f 0x00004003 Form::Load(LoadOp::Lbu),
    0x0000707f 0x00005003 Form::Load(LoadOp::Lhu),
    0x0000707f 0x00006003 Form::Load(LoadOp::Lwu),
];

const STORE_ROWS: [Pattern; 4] = rows![
    0x0000707f 0x00000023 Form::Store(StoreOp::Sb),
    0x0000707f 0x00001023 Form::Store(StoreOp::Sh),
    0x0000707f 0x00002023 Form::Store(StoreOp::Sw),
    0x0000707f 0x00003023 Form::Store(StoreOp::Sd),
];

const OP_IMM_ROWS: [Pattern; 9] = rows![
    0x0000707f 0x00000013 Form::Immediate(ImmediateOp::Addi),
    0x0000707f 0x00002013 Form::Immediate(ImmediateOp::Slti),
    0x0000707f 0x00003013 Form::Immediate(ImmediateOp::Sltiu),
    0x0000707f 0x00004013 Form::Immediate(ImmediateOp::Xori),
    0x0000707f 0x00006013 Form::Immediate(ImmediateOp::Ori),
    0x0000707f 0x00007013 Form::Immediate(ImmediateOp::Andi),
    0xfc00707f 0x00001013 Form::Shift(ImmediateOp::Slli),
    0xfc00707f 0x00005013 Form::Shift(ImmediateOp::Srli),
    0xfc00707f 0x40005013 Form::Shift(ImmediateOp::Srai),
];

const OP_IMM_BITS_ROWS: [Pattern; 12] = rows![
    0xfff0707f 0x60001013 Form::BitsUnary(BitsOp::Clz),
    0xfff0707f 0x60101013 Form::BitsUnary(BitsOp::Ctz),
    0xfff0707f 0x60201013 Form::BitsUnary(BitsOp::Cpop),
    0xfff0707f 0x60401013 Form::BitsUnary(BitsOp::SextB),
    0xfff0707f 0x60501013 Form::BitsUnary(BitsOp::SextH),
    0xfc00707f 0x48001013 Form::BitsShift(BitsOp::Bclr),
    0xfc00707f 0x68001013 Form::BitsShift(BitsOp::Binv),
    0xfc00707f 0x28001013 Form::BitsShift(BitsOp::Bset),
    0xfc00707f 0x60005013 Form::BitsShift(BitsOp::Ror),
    0xfc00707f 0x48005013 Form::BitsShift(BitsOp::Bext),
    0xfff0707f 0x28705013 Form::BitsUnary(BitsOp::OrcB),
    0xfff0707f 0x6b805013 Form::BitsUnary(BitsOp::Rev8),
];

const OP_IMM_32_ROWS: [Pattern; 4] = rows![
    0x0000707f 0x0000001b Form::ImmediateWord(ImmediateWordOp::Addiw),
    0xfe00707f 0x0000101b Form::ShiftWord(ImmediateWordOp::Slliw),
    0xfe00707f 0x0000501b Form::ShiftWord(ImmediateWordOp::Srliw),
    0xfe00707f 0x4000501b Form::ShiftWord(ImmediateWordOp::Sraiw),
];

const OP_IMM_32_BITS_ROWS: [Pattern; 5] = rows![
    0xfc00707f 0x0800101b Form::BitsShift(BitsOp::SlliUw),
    0xfff0707f 0x6000101b Form::BitsUnary(BitsOp::Clzw),
    0xfff0707f 0x6010101b Form::BitsUnary(BitsOp::Ctzw),
    0xfff0707f 0x6020101b Form::BitsUnary(BitsOp::Cpopw),
    0xfe00707f 0x6000501b Form::BitsShiftWord(BitsOp::Rorw),
];

const OP_ROWS: [Pattern; 18] = rows![
    0xfe00707f 0x00000033 Form::Register(RegisterOp::Add),
    0xfe00707f 0x40000033 Form::Register(RegisterOp::Sub),
    0xfe00707f 0x00001033 Form::Register(RegisterOp::Sll),
    0xfe00707f 0x00002033 Form::Register(RegisterOp::Slt),
    0xfe00707f 0x00003033 Form::Register(RegisterOp::Sltu),
    0xfe00707f 0x00004033 Form::Register(RegisterOp::Xor),
    0xfe00707f 0x00005033 Form::Register(RegisterOp::Srl),
    0xfe00707f 0x40005033 Form::Register(RegisterOp::Sra),
    0xfe00707f 0x00006033 Form::Register(RegisterOp::Or),
    0xfe00707f 0x00007033 Form::Register(RegisterOp::And),
    0xfe00707f 0x02000033 Form::Register(RegisterOp::Mul),
    0xfe00707f 0x02001033 Form::Register(RegisterOp::Mulh),
    0xfe00707f 0x02002033 Form::Register(RegisterOp::Mulhsu),
    0xfe00707f 0x02003033 Form::Register(RegisterOp::Mulhu),
    0xfe00707f 0x02004033 Form::Register(RegisterOp::Div),
    0xfe00707f 0x02005033 Form::Register(RegisterOp::Divu),
    0xfe00707f 0x02006033 Form::Register(RegisterOp::Rem),
    0xfe00707f 0x02007033 Form::Register(RegisterOp::Remu),
];

const OP_BITS_ROWS: [Pattern; 16] = rows![
    0xfe00707f 0x20002033 Form::BitsRegister(BitsOp::Sh1add),
    0xfe00707f 0x20004033 Form::BitsRegister(BitsOp::Sh2add),
    0xfe00707f 0x20006033 Form::BitsRegister(BitsOp::Sh3add),
    0xfe00707f 0x40007033 Form::BitsRegister(BitsOp::Andn),
    0xfe00707f 0x40006033 Form::BitsRegister(BitsOp::Orn),
    0xfe00707f 0x40004033 Form::BitsRegister(BitsOp::Xnor),
    0xfe00707f 0x0a004033 Form::BitsRegister(BitsOp::Min),
    0xfe00707f 0x0a005033 Form::BitsRegister(BitsOp::Minu),
    0xfe00707f 0x0a006033 Form::BitsRegister(BitsOp::Max),
    0xfe00707f 0x0a007033 Form::BitsRegister(BitsOp::Maxu),
    0xfe00707f 0x60001033 Form::BitsRegister(BitsOp::Rol),
    0xfe00707f 0x60005033 Form::BitsRegister(BitsOp::Ror),
    0xfe00707f 0x48001033 Form::BitsRegister(BitsOp::Bclr),
    0xfe00707f 0x48005033 Form::BitsRegister(BitsOp::Bext),
    0xfe00707f 0x68001033 Form::BitsRegister(BitsOp::Binv),
    0xfe00707f 0x28001033 Form::BitsRegister(BitsOp::Bset),
];

const OP_32_ROWS: [Pattern; 10] = rows![
    0xfe00707f 0x0000003b Form::RegisterWord(RegisterWordOp::Addw),
    0xfe00707f 0x4000003b Form::RegisterWord(RegisterWordOp::Subw),
    0xfe00707f 0x0000103b Form::RegisterWord(RegisterWordOp::Sllw),
    0xfe00707f 0x0000503b Form::RegisterWord(RegisterWordOp::Srlw),
    0xfe00707f 0x4000503b Form::RegisterWord(RegisterWordOp::Sraw),
    0xfe00707f 0x0200003b Form::RegisterWord(RegisterWordOp::Mulw),
    0xfe00707f 0x0200403b Form::RegisterWord(RegisterWordOp::Divw),
    0xfe00707f 0x0200503b Form::RegisterWord(RegisterWordOp::Divuw),
    0xfe00707f 0x0200603b Form::RegisterWord(RegisterWordOp::Remw),
    0xfe00707f 0x0200703b Form::RegisterWord(RegisterWordOp::Remuw),
];

const OP_32_BITS_ROWS: [Pattern; 7] = rows![
    0xfe00707f 0x0800003b Form::BitsRegister(BitsOp::AddUw),
    0xfff0707f 0x0800403b Form::BitsUnary(BitsOp::ZextH),
    0xfe00707f 0x2000203b Form::BitsRegister(BitsOp::Sh1addUw),
    0xfe00707f 0x2000403b Form::BitsRegister(BitsOp::Sh2addUw),
    0xfe00707f 0x2000603b Form::BitsRegister(BitsOp::Sh3addUw),
    0xfe00707f 0x6000103b Form::BitsRegister(BitsOp::Rolw),
    0xfe00707f 0x6000503b Form::BitsRegister(BitsOp::Rorw),
];

/// The fields of a fence beside its opcode and funct3 are ignored.
const MISC_MEM_ROWS: [Pattern; 2] = rows![
    0x0000707f 0x0000000f Form::Fence,
    0x0000707f 0x0000100f Form::FenceI,
];

const SYSTEM_ROWS: [Pattern; 12] = rows![
    0xffffffff 0x00000073 Form::Ecall,
    0xffffffff 0x00100073 Form::Ebreak,
    0xffffffff 0x10200073 Form::Sret,
    0xffffffff 0x30200073 Form::Mret,
    0xffffffff 0x10500073 Form::Wfi,
    0xfe007fff 0x12000073 Form::SfenceVma,
    0x0000707f 0x00001073 Form::Csr(CsrOp::Write),
    0x0000707f 0x00002073 Form::Csr(CsrOp::Set),
    0x0000707f 0x00003073 Form::Csr(CsrOp::Clear),
    0x0000707f 0x00005073 Form::CsrImmediate(CsrOp::Write),
    0x0000707f 0x00006073 Form::CsrImmediate(CsrOp::Set),
    0x0000707f 0x00007073 Form::CsrImmediate(CsrOp::Clear),
];

/// Bits 26 and 25, aq and rl, are left open.
const AMO_ROWS: [Pattern; 22] = rows![
    0xf800707f 0x0000202f Form::Amo(AmoOp::Amoadd, Width::Word),
    0xf800707f 0x0800202f Form::Amo(AmoOp::Amoswap, Width::Word),
    0xf9f0707f 0x1000202f Form::LoadReserved(Width::Word),
    0xf800707f 0x1800202f Form::StoreConditional(Width::Word),
    0xf800707f 0x2000202f Form::Amo(AmoOp::Amoxor, Width::Word),
    0xf800707f 0x4000202f Form::Amo(AmoOp::Amoor, Width::Word),
    0xf800707f 0x6000202f Form::Amo(AmoOp::Amoand, Width::Word),
    0xf800707f 0x8000202f Form::Amo(AmoOp::Amomin, Width::Word),
    0xf800707f 0xa000202f Form::Amo(AmoOp::Amomax, Width::Word),
    0xf800707f 0xc000202f Form::Amo(AmoOp::Amominu, Width::Word),
    0xf800707f 0xe000202f Form::Amo(AmoOp::Amomaxu, Width::Word),
    0xf800707f 0x0000302f Form::Amo(AmoOp::Amoadd, Width::Doubleword),
    0xf800707f 0x0800302f Form::Amo(AmoOp::Amoswap, Width::Doubleword),
    0xf9f0707f 0x1000302f Form::LoadReserved(Width::Doubleword),
    0xf800707f 0x1800302f Form::StoreConditional(Width::Doubleword),
    0xf800707f 0x2000302f Form::Amo(AmoOp::Amoxor, Width::Doubleword),
    0xf800707f 0x4000302f Form::Amo(AmoOp::Amoor, Width::Doubleword),
    0xf800707f 0x6000302f Form::Amo(AmoOp::Amoand, Width::Doubleword),
    0xf800707f 0x8000302f Form::Amo(AmoOp::Amomin, Width::Doubleword),
    0xf800707f 0xa000302f Form::Amo(AmoOp::Amomax, Width::Doubleword),
    0xf800707f 0xc000302f Form::Amo(AmoOp::Amominu, Width::Doubleword),
    0xf800707f 0xe000302f Form::Amo(AmoOp::Amomaxu, Width::Doubleword),
];

/// The rows of an opcode, the low 7 bits of a word.
#[tactic(auto, unfolding(crate::specs::Table::opcodes))]
pub fn rows_with(opcode: u32) -> &'static [Pattern]
    ensures { result.now ≡ rows_of_opcode opcodes opcode }
{
    match opcode {
        opcodes::LUI => &LUI_ROWS,
        opcodes::AUIPC => &AUIPC_ROWS,
        opcodes::JAL => &JAL_ROWS,
        opcodes::JALR => &JALR_ROWS,
        opcodes::BRANCH => &BRANCH_ROWS,
        opcodes::LOAD => &LOAD_ROWS,
        opcodes::STORE => &STORE_ROWS,
        opcodes::OP_IMM => &OP_IMM_ROWS,
        opcodes::OP_IMM_32 => &OP_IMM_32_ROWS,
        opcodes::OP => &OP_ROWS,
        opcodes::OP_32 => &OP_32_ROWS,
        opcodes::MISC_MEM => &MISC_MEM_ROWS,
        opcodes::SYSTEM => &SYSTEM_ROWS,
        opcodes::AMO => &AMO_ROWS,
        _ => &[],
    }
}

/// The rows that bit manipulation adds to an opcode.
#[tactic(auto, unfolding(crate::specs::Table::bits_opcodes))]
pub fn bits_rows_with(opcode: u32) -> &'static [Pattern]
    ensures { result.now ≡ rows_of_opcode bits_opcodes opcode }
{
    match opcode {
        opcodes::OP_IMM => &OP_IMM_BITS_ROWS,
        opcodes::OP_IMM_32 => &OP_IMM_32_BITS_ROWS,
        opcodes::OP => &OP_BITS_ROWS,
        opcodes::OP_32 => &OP_32_BITS_ROWS,
        _ => &[],
    }
}
