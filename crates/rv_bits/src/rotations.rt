//! Rotations.

ghost use Rattle.std.specs.Prelude.{◌≡◌, ◌%◌};
ghost use Rattle.hart_words.specs.Words.{sign_extended};
ghost use Rattle.rv_bits.specs.Rotations.{rotated_left, rotated_right};

use hart_words::sext;

/// Rotates left by the low 6 bits of `b`.
#[tactic(auto, using(crate::proofs::Rotated::left_64))]
pub fn rotated_left(a: u64, b: u64) -> u64
    ensures { result ≡ rotated_left 64 a (b % 64) }
{
    a.rotate_left((b % 64) as u32)
}

/// Rotates right by the low 6 bits of `b`.
#[tactic(auto, using(crate::proofs::Rotated::right_64))]
pub fn rotated_right(a: u64, b: u64) -> u64
    ensures { result ≡ rotated_right 64 a (b % 64) }
{
    a.rotate_right((b % 64) as u32)
}

/// Rotates a word of 32 bits left by the low 5 bits of `b`, and extends its sign.
#[tactic(auto, using(crate::proofs::Rotated::left_32))]
pub fn rotated_word_left(word: u32, b: u64) -> u64
    ensures { result ≡ sign_extended 32 (rotated_left 32 word (b % 32)) }
{
    sext(u64::from(word.rotate_left((b % 32) as u32)), 32)
}

/// Rotates a word of 32 bits right by the low 5 bits of `b`, and extends its sign.
#[tactic(auto, using(crate::proofs::Rotated::right_32))]
pub fn rotated_word_right(word: u32, b: u64) -> u64
    ensures { result ≡ sign_extended 32 (rotated_right 32 word (b % 32)) }
{
    sext(u64::from(word.rotate_right((b % 32) as u32)), 32)
}
