//! The fields of a parcel and its immediates, as the 32-bit instruction has them.

ghost use Rattle.std.specs.Prelude.{◌≡◌, ◌≤◌, ◌<◌, ◌%◌, ◌^◌};
ghost use Rattle.hart_words.specs.Words.{bit_field, sign_extended};
ghost use Rattle.rv_compressed.specs.Immediates.{compressed_register, amount_of_shift, immediate_6, immediate_addi4spn, immediate_addi16sp, offset_w, offset_d, offset_j, offset_b, offset_lwsp, offset_ldsp, offset_swsp, offset_sdsp};

use hart_words::sext;

/// The `count` bits of `parcel` from bit `first` on.
pub fn field_of(parcel: u16, first: u32, count: u32) -> u32
    requires inside { first < 16 }
    requires below_16 { count < 16 }
    ensures value { result ≡ bit_field first count parcel }
    ensures below { result < 2 ^ count }
{
    (u32::from(parcel) >> first) % 2u32.pow(count)
}

/// A compressed register, x8 to x15, by the 3 bits from `first` on.
pub fn compressed_register(parcel: u16, first: u32) -> u32
    requires { first < 16 }
    ensures value { result ≡ compressed_register first parcel }
    ensures below { result < 32 }
{
    8 + field_of(parcel, first, 3)
}

/// A signed number of `bits` bits as one of `width` bits.
fn extended_number(number: u32, bits: u32, width: u32) -> u32
    requires at_least_1 { 1 ≤ bits }
    requires at_most_64 { bits ≤ 64 }
    requires narrow { width < 32 }
    ensures value { result ≡ sign_extended bits number % 2 ^ width }
    ensures below { result < 2 ^ width }
{
    (sext(u64::from(number), bits) % 2u64.pow(width)) as u32
}

/// The amount of a shift: 6 bits.
#[tactic(auto, unfolding(crate::specs::Immediates::amount_of_shift))]
pub fn shift_amount(parcel: u16) -> u32
    ensures value { result ≡ amount_of_shift parcel }
    ensures below { result < 64 }
{
    field_of(parcel, 12, 1) * 0x20 + field_of(parcel, 2, 5)
}

/// The signed immediate of 6 bits, as one of 12.
#[tactic(auto, unfolding(crate::specs::Immediates::immediate_6))]
pub fn small_immediate(parcel: u16) -> u32
    ensures value { result ≡ immediate_6 12 parcel }
    ensures below { result < 2 ^ 12 }
{
    extended_number(shift_amount(parcel), 6, 12)
}

/// The same, as one of 20 bits.
#[tactic(auto, unfolding(crate::specs::Immediates::immediate_6))]
pub fn upper_immediate(parcel: u16) -> u32
    ensures value { result ≡ immediate_6 20 parcel }
    ensures below { result < 2 ^ 20 }
{
    extended_number(shift_amount(parcel), 6, 20)
}

#[tactic(auto, unfolding(crate::specs::Immediates::immediate_addi4spn))]
pub fn addi4spn_immediate(parcel: u16) -> u32
    ensures value { result ≡ immediate_addi4spn parcel }
    ensures below { result < 2 ^ 12 }
{
    field_of(parcel, 7, 4) * 0x40
        + field_of(parcel, 11, 2) * 0x10
        + field_of(parcel, 5, 1) * 8
        + field_of(parcel, 6, 1) * 4
}

#[tactic(auto, unfolding(crate::specs::Immediates::immediate_addi16sp))]
pub fn addi16sp_immediate(parcel: u16) -> u32
    ensures value { result ≡ immediate_addi16sp parcel }
    ensures below { result < 2 ^ 12 }
{
    let number = field_of(parcel, 12, 1) * 0x200
        + field_of(parcel, 3, 2) * 0x80
        + field_of(parcel, 5, 1) * 0x40
        + field_of(parcel, 2, 1) * 0x20
        + field_of(parcel, 6, 1) * 0x10;
    extended_number(number, 10, 12)
}

/// The offset of C.LW and C.SW.
#[tactic(auto, unfolding(crate::specs::Immediates::offset_w))]
pub fn word_offset(parcel: u16) -> u32
    ensures value { result ≡ offset_w parcel }
    ensures below { result < 2 ^ 12 }
{
    field_of(parcel, 5, 1) * 0x40 + field_of(parcel, 10, 3) * 8 + field_of(parcel, 6, 1) * 4
}

/// The offset of C.LD and C.SD.
#[tactic(auto, unfolding(crate::specs::Immediates::offset_d))]
pub fn doubleword_offset(parcel: u16) -> u32
    ensures value { result ≡ offset_d parcel }
    ensures below { result < 2 ^ 12 }
{
    field_of(parcel, 5, 2) * 0x40 + field_of(parcel, 10, 3) * 8
}

#[tactic(auto, unfolding(crate::specs::Immediates::offset_j))]
pub fn jump_offset(parcel: u16) -> u32
    ensures value { result ≡ offset_j parcel }
    ensures below { result < 2 ^ 21 }
{
    let number = field_of(parcel, 12, 1) * 0x800
        + field_of(parcel, 8, 1) * 0x400
        + field_of(parcel, 9, 2) * 0x100
        + field_of(parcel, 6, 1) * 0x80
        + field_of(parcel, 7, 1) * 0x40
        + field_of(parcel, 2, 1) * 0x20
        + field_of(parcel, 11, 1) * 0x10
        + field_of(parcel, 3, 3) * 2;
    extended_number(number, 12, 21)
}

#[tactic(auto, unfolding(crate::specs::Immediates::offset_b))]
pub fn branch_offset(parcel: u16) -> u32
    ensures value { result ≡ offset_b parcel }
    ensures below { result < 2 ^ 13 }
{
    let number = field_of(parcel, 12, 1) * 0x100
        + field_of(parcel, 5, 2) * 0x40
        + field_of(parcel, 2, 1) * 0x20
        + field_of(parcel, 10, 2) * 8
        + field_of(parcel, 3, 2) * 2;
    extended_number(number, 9, 13)
}

#[tactic(auto, unfolding(crate::specs::Immediates::offset_lwsp))]
pub fn lwsp_offset(parcel: u16) -> u32
    ensures value { result ≡ offset_lwsp parcel }
    ensures below { result < 2 ^ 12 }
{
    field_of(parcel, 2, 2) * 0x40 + field_of(parcel, 12, 1) * 0x20 + field_of(parcel, 4, 3) * 4
}

#[tactic(auto, unfolding(crate::specs::Immediates::offset_ldsp))]
pub fn ldsp_offset(parcel: u16) -> u32
    ensures value { result ≡ offset_ldsp parcel }
    ensures below { result < 2 ^ 12 }
{
    field_of(parcel, 2, 3) * 0x40 + field_of(parcel, 12, 1) * 0x20 + field_of(parcel, 5, 2) * 8
}

#[tactic(auto, unfolding(crate::specs::Immediates::offset_swsp))]
pub fn swsp_offset(parcel: u16) -> u32
    ensures value { result ≡ offset_swsp parcel }
    ensures below { result < 2 ^ 12 }
{
    field_of(parcel, 7, 2) * 0x40 + field_of(parcel, 9, 4) * 4
}

#[tactic(auto, unfolding(crate::specs::Immediates::offset_sdsp))]
pub fn sdsp_offset(parcel: u16) -> u32
    ensures value { result ≡ offset_sdsp parcel }
    ensures below { result < 2 ^ 12 }
{
    field_of(parcel, 7, 3) * 0x40 + field_of(parcel, 10, 3) * 8
}
