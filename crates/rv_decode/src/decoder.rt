//! The instruction of a 32-bit word.

ghost use Rattle.std.specs.Prelude.{◌≡◌, IfSome};
ghost use Rattle.rv_decode.specs.Operands.{HasCsrAddress, HasEvenOffset, HasRegisters};
ghost use Rattle.rv_decode.specs.Table.{decoded_op_of, decoded_op_by, decoded_op_with};

use crate::operands::operation;
use crate::operation::Op;
use crate::patterns::{Pattern, bits_rows_with, rows_with};

/// The instruction that a 32-bit word means, or `None` where it meets no row of the table: it is
/// then illegal.
#[tactic(auto, using(crate::proofs::ByOpcode::scanned), unfolding(crate::specs::Table::decoded_op_of))]
pub fn decode(word: u32) -> Option<Op>
    ensures meaning { result ≡ decoded_op_of word }
    ensures registers { IfSome result HasRegisters }
    ensures csr { IfSome result HasCsrAddress }
    ensures even { IfSome result HasEvenOffset }
{
    decode_by(rows_with(word % 128), word)
}

/// The same where `bits` says whether the instructions of bit manipulation (Zba, Zbb, Zbs) are
/// there: with them, the rows that they add are in the table too.
#[tactic(auto, using(crate::proofs::ByOpcode::without, crate::proofs::ByOpcode::further))]
pub fn decode_with(word: u32, bits: bool) -> Option<Op>
    ensures meaning { result ≡ decoded_op_with word bits }
    ensures registers { IfSome result HasRegisters }
    ensures csr { IfSome result HasCsrAddress }
    ensures even { IfSome result HasEvenOffset }
{
    if !bits {
        return decode(word);
    }
    decode(word).or_else(|| decode_by(bits_rows_with(word % 128), word))
}

/// The instruction of the row that the word meets.
#[tactic(auto, unfolding(crate::specs::Table::decoded_op_by))]
fn decode_by(rows: &[Pattern], word: u32) -> Option<Op>
    ensures meaning { result ≡ decoded_op_by rows.now word }
    ensures registers { IfSome result HasRegisters }
    ensures csr { IfSome result HasCsrAddress }
    ensures even { IfSome result HasEvenOffset }
{
    match rows.iter().find(|row| word & row.mask == row.bits) {
        None => None,
        Some(row) => Some(operation(row.form, word)),
    }
}
