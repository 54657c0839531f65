//! The bits of the registers by name, and bits under a mask. From the Privileged Architecture's
//! chapters "Machine-Level ISA" and "Supervisor-Level ISA".

ghost use Rattle.std.specs.Prelude.{◌≡◌};
ghost use Rattle.csr_file.specs.Fields.{bit_is_set, masked_update, mode_of_encoding};

use hart_words::Mode;

// The bits of mstatus, of which sstatus shows a part. VS, MPP, FS, UXL and SXL have two bits, from
// these on.
pub const SIE: u8 = 1;

pub const MIE: u8 = 3;

pub const SPIE: u8 = 5;

pub const MPIE: u8 = 7;

pub const SPP: u8 = 8;

pub const VS: u8 = 9;

pub const MPP: u8 = 11;

pub const FS: u8 = 13;

pub const MPRV: u8 = 17;

pub const SUM: u8 = 18;

pub const MXR: u8 = 19;

pub const TVM: u8 = 20;

pub const TW: u8 = 21;

pub const TSR: u8 = 22;

pub const UXL: u8 = 32;

pub const SXL: u8 = 34;

pub const SD: u8 = 63;

/// The constants of mstatus: UXL and SXL are 2.
pub const STATUS_CONSTANT: u64 = 0xA_0000_0000;

// The bits of mip, mie, mideleg, sip and sie, which are the codes of interrupts.
pub const SSIP: u8 = 1;

pub const MSIP: u8 = 3;

pub const STIP: u8 = 5;

pub const MTIP: u8 = 7;

pub const SEIP: u8 = 9;

pub const MEIP: u8 = 11;

/// The bits of mip that may be lines from outside on every core.
pub const LINE_BITS: u64 = 1 << MSIP | 1 << MTIP | 1 << SEIP | 1 << MEIP;

/// The bits of mip that may be lines and no more, as a core has it.
pub const ADDABLE_LINES: u64 = 1 << SSIP | 1 << STIP;

// The bits of mcounteren, scounteren and mcountinhibit.
pub const CY: u8 = 0;

pub const TM: u8 = 1;

pub const IR: u8 = 2;

// The bit of menvcfg and senvcfg.
pub const FIOM: u8 = 0;

// The field MODE of satp, from this bit on, and the modes that the hart has.
pub const SATP_MODE: u8 = 60;

pub const BARE: u64 = 0;

pub const SV39: u64 = 8;

// The fields of a configuration byte of physical memory protection: how addresses match, two bits
// from this one on, and the lock.
pub const PMP_MATCHING: u8 = 3;

pub const PMP_LOCK: u8 = 7;

/// Whether a bit of a value is set; bits from 64 on never are.
#[tactic(auto, using(crate::proofs::Bits::no_high_bit))]
pub fn has_bit(value: u64, bit: u8) -> bool
    ensures { result ≡ bit_is_set value bit }
{
    bit < 64 && (value >> bit) % 2 == 1
}

/// The bits of a mask from `value`, all others from `old`.
#[tactic(auto, unfolding(crate::specs::Fields::masked_update))]
pub fn merge(mask: u64, old: u64, value: u64) -> u64
    ensures { result ≡ masked_update mask old value }
{
    old & !mask | value & mask
}

/// The mode of an encoding, as MPP and SPP hold it; 2 is none, and MPP never has it.
pub fn mode_of_encoding(number: u64) -> Mode
    ensures { result ≡ mode_of_encoding number }
{
    match number {
        3 => Mode::Machine,
        1 => Mode::Supervisor,
        _ => Mode::User,
    }
}
