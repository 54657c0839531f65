//! What the standard leaves to the maker of a core, and who runs the judge says.

ghost use Rattle.std.specs.Prelude.{◌≡◌, IsTrue};
ghost use Rattle.hart_words.specs.BlockSizes.{is_block_size};

use crate::options::{DeviceFaults, InsnBits, Marks, Misaligned, TrapValues};

/// The choices of an implementation, each made once for all that a hart does.
#[derive(Clone, Copy, Debug)]
pub struct Choices {
    pub misaligned: Misaligned,
    pub trap_values: TrapValues,
    pub marks: Marks,
    /// The bytes of the aligned block that LR reserves: a power of two from 8 to 4,096.
    pub block_size: u16,
    /// Whether the extensions of bit manipulation, Zba, Zbb and Zbs, are there.
    pub bits: bool,
    pub insn_bits: InsnBits,
    pub device_faults: DeviceFaults,
    ghost block: { IsTrue (is_block_size block_size) },
}

impl Choices {
    ghost use Rattle.hart_words.specs.Choices.{choices_of, plain_choices, with_rows};

    /// These choices, where a reservation may have that many bytes. Rows show instructions whole,
    /// and devices refuse nothing.
    pub fn new(
        misaligned: Misaligned,
        trap_values: TrapValues,
        marks: Marks,
        block_size: u16,
        bits: bool,
    ) -> Option<Choices>
        ensures { result ≡ choices_of misaligned trap_values marks block_size bits }
    {
        if is_block_size(block_size) {
            Some(Choices {
                misaligned,
                trap_values,
                marks,
                block_size,
                bits,
                insn_bits: InsnBits::Full,
                device_faults: DeviceFaults::Never,
            })
        } else {
            None
        }
    }

    /// The same, with what rows show of instructions, and say of devices.
    #[tactic(auto, unfolding(crate::specs::Choices::with_rows))]
    pub fn with_rows(self, insn_bits: InsnBits, device_faults: DeviceFaults) -> Choices
        ensures { result ≡ with_rows insn_bits device_faults self }
    {
        Choices {
            misaligned: self.misaligned,
            trap_values: self.trap_values,
            marks: self.marks,
            block_size: self.block_size,
            bits: self.bits,
            insn_bits,
            device_faults,
        }
    }

    /// The choices where none is said: misaligned accesses trap, trap values are as the causes have
    /// them, A and D that are clear are page faults, a reservation has 64 bytes, there is no bit
    /// manipulation, rows show instructions whole, and devices refuse nothing.
    #[tactic(auto, unfolding(crate::specs::Choices::plain_choices))]
    pub fn plain() -> Choices
        ensures { result ≡ plain_choices }
    {
        Choices {
            misaligned: Misaligned::Trap,
            trap_values: TrapValues::Value,
            marks: Marks::Fault,
            block_size: 64,
            bits: false,
            insn_bits: InsnBits::Full,
            device_faults: DeviceFaults::Never,
        }
    }
}

/// Whether a reservation may have that many bytes.
fn is_block_size(size: u16) -> bool
    ensures { result ≡ is_block_size size }
{
    match size {
        8 | 16 | 32 | 64 | 128 | 256 | 512 | 1024 | 2048 | 4096 => true,
        _ => false,
    }
}
