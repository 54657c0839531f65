//! The instructions of the image.

ghost use Rattle.std.specs.Prelude.{◌≡◌, ◌<◌};
ghost use Rattle.trace_maker.specs.Rows.{addi_of, immediate_of};

/// AUIPC x2, 1.
pub const AUIPC: u32 = 0x0000_1117;
/// XOR x3, x3, x1.
pub const XOR: u32 = 0x0011_c1b3;
/// SD x3, 0(x2).
pub const SD: u32 = 0x0031_3023;
/// LD x4, 0(x2).
pub const LD: u32 = 0x0001_3203;
/// JAL x0, back by 16 to ADDI.
pub const JAL: u32 = 0xff1f_f06f;

/// The number that ADDI adds, which leaves its sign bit 0.
pub fn immediate(number: u32) -> u32
    ensures value { result ≡ immediate_of number }
    ensures small { result < 2048 }
{
    number % 2048
}

/// ADDI x1, x1 with that number, which stands from bit 20 on.
pub fn addi(number: u32) -> u32
    ensures { result ≡ addi_of number }
{
    0x0000_8093 + immediate(number) * 0x0010_0000
}
