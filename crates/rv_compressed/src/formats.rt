//! 32-bit words put together from their fields, by the format of the instruction.

ghost use Rattle.std.specs.Prelude.{◌≡◌, ◌<◌, ◌^◌};
ghost use Rattle.rv_compressed.specs.Formats.{r_format, i_format, s_format, b_format, u_format, j_format};

/// From the registers rd, rs1 and rs2.
#[tactic(auto, unfolding(crate::specs::Formats::r_format))]
pub fn r_format(opcode: u32, funct3: u32, funct7: u32, registers: (u32, u32, u32)) -> u32
    requires opcode { opcode < 128 }
    requires funct3 { funct3 < 8 }
    requires funct7 { funct7 < 128 }
    requires rd { registers.0 < 32 }
    requires rs1 { registers.1 < 32 }
    requires rs2 { registers.2 < 32 }
    ensures { result ≡ r_format opcode funct3 funct7 registers.0 registers.1 registers.2 }
{
    let (rd, rs1, rs2) = registers;
    funct7 * 0x200_0000 + rs2 * 0x10_0000 + rs1 * 0x8000 + funct3 * 0x1000 + rd * 0x80 + opcode
}

#[tactic(auto, unfolding(crate::specs::Formats::i_format))]
pub fn i_format(opcode: u32, funct3: u32, rd: u32, rs1: u32, immediate: u32) -> u32
    requires opcode { opcode < 128 }
    requires funct3 { funct3 < 8 }
    requires rd { rd < 32 }
    requires rs1 { rs1 < 32 }
    requires immediate { immediate < 2 ^ 12 }
    ensures { result ≡ i_format opcode funct3 rd rs1 immediate }
{
    immediate * 0x10_0000 + rs1 * 0x8000 + funct3 * 0x1000 + rd * 0x80 + opcode
}

#[tactic(auto, unfolding(crate::specs::Formats::s_format))]
pub fn s_format(opcode: u32, funct3: u32, rs2: u32, rs1: u32, offset: u32) -> u32
    requires opcode { opcode < 128 }
    requires funct3 { funct3 < 8 }
    requires rs2 { rs2 < 32 }
    requires rs1 { rs1 < 32 }
    requires offset { offset < 2 ^ 12 }
    ensures { result ≡ s_format opcode funct3 rs2 rs1 offset }
{
    offset / 0x20 % 0x80 * 0x200_0000
        + rs2 * 0x10_0000
        + rs1 * 0x8000
        + funct3 * 0x1000
        + offset % 0x20 * 0x80
        + opcode
}

#[tactic(auto, unfolding(crate::specs::Formats::b_format))]
pub fn b_format(opcode: u32, funct3: u32, rs1: u32, rs2: u32, offset: u32) -> u32
    requires opcode { opcode < 128 }
    requires funct3 { funct3 < 8 }
    requires rs1 { rs1 < 32 }
    requires rs2 { rs2 < 32 }
    requires offset { offset < 2 ^ 13 }
    ensures { result ≡ b_format opcode funct3 rs1 rs2 offset }
{
    offset / 0x1000 % 2 * 0x8000_0000
        + offset / 0x20 % 0x40 * 0x200_0000
        + rs2 * 0x10_0000
        + rs1 * 0x8000
        + funct3 * 0x1000
        + offset / 2 % 0x10 * 0x100
        + offset / 0x800 % 2 * 0x80
        + opcode
}

#[tactic(auto, unfolding(crate::specs::Formats::u_format))]
pub fn u_format(opcode: u32, rd: u32, upper: u32) -> u32
    requires opcode { opcode < 128 }
    requires rd { rd < 32 }
    requires upper { upper < 2 ^ 20 }
    ensures { result ≡ u_format opcode rd upper }
{
    upper * 0x1000 + rd * 0x80 + opcode
}

#[tactic(auto, unfolding(crate::specs::Formats::j_format))]
pub fn j_format(opcode: u32, rd: u32, offset: u32) -> u32
    requires opcode { opcode < 128 }
    requires rd { rd < 32 }
    requires offset { offset < 2 ^ 21 }
    ensures { result ≡ j_format opcode rd offset }
{
    offset / 0x10_0000 % 2 * 0x8000_0000
        + offset / 2 % 0x400 * 0x20_0000
        + offset / 0x800 % 2 * 0x10_0000
        + offset / 0x1000 % 0x100 * 0x1000
        + rd * 0x80
        + opcode
}
