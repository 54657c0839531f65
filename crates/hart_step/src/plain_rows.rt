//! The rows that show all that their instructions change, and the state after one.

ghost use Rattle.std.specs.Prelude.{◌≡◌, ◌⊎◌, ◌<◌, ◌%◌, ◌^◌, Option, true};
ghost use Rattle.rvfi_rows.specs.Cells.{shown_in};
ghost use Rattle.hart_step.specs.Instructions.{op_of};
ghost use Rattle.hart_step.specs.PlainRows.{insn_bits_of, insn_shown, is_plain, is_store, is_system_or_atomic, is_undisturbed, insn_length_of, lies_in_two_pages, shows_bytes, shows_place, shows_store, translates_data};

use crate::choices::row_shows;
use crate::execution::op_of;
use crate::state::Core;
use hart_words::{PAGE_SIZE, Signal};
use mem_access::{data_mode, is_translated};
use rv_decode::Op;
use rv_decode::opcodes::{AMO, STORE, SYSTEM};
use rvfi_rows::Row;

/// C.EBREAK, all of whose bits are fixed: funct4 is 1001, both registers are 0, the quadrant is 2.
pub const C_EBREAK: u32 = 0x9002;

impl Core {
    /// Whether a valid row is plain for this state: it shows all that its instruction changes.
    #[tactic(auto, unfolding(crate::specs::PlainRows::is_plain))]
    pub fn is_plain(&self, row: &Row) -> bool
        ensures { result ≡ is_plain self.now (shown_in row.now) }
    {
        !self.halted
            && !self.trapped_last
            && is_undisturbed(row)
            && !is_system_or_atomic(insn_shown(row))
            && (!shows_store(row) || self.shows_bytes(row))
    }

    /// Whether a store's place and its bytes are known.
    #[tactic(auto, unfolding(crate::specs::PlainRows::shows_bytes))]
    fn shows_bytes(&self, row: &Row) -> bool
        ensures { result ≡ shows_bytes self.now (shown_in row.now) }
    {
        row.shown(Signal::MemAddr).is_some()
            && row.shown(Signal::MemWmask).is_some()
            && row.shown(Signal::MemWdata).is_some()
            && (!self.translates_data() || shows_place(row))
    }

    /// Whether the addresses of loads and stores are translated.
    fn translates_data(&self) -> bool
        ensures { result ≡ translates_data self.now }
    {
        is_translated(&self.csrs, data_mode(&self.csrs, self.mode))
    }
}

/// Whether the physical address that the row shows is that of all its bytes.
fn shows_place(row: &Row) -> bool
    ensures { result ≡ shows_place (shown_in row.now) }
{
    let address = row.shown(Signal::MemAddr).unwrap_or(0);
    let mask = row.shown(Signal::MemWmask).unwrap_or(0);
    row.shown(Signal::MemPaddr).is_some() && !lies_in_two_pages(address, mask)
}

/// Whether the bytes that a mask has, counted from an address on, lie in two pages.
#[tactic(auto, unfolding(crate::specs::PlainRows::lies_in_two_pages), using(crate::proofs::PageEnds::none_after))]
fn lies_in_two_pages(address: u64, mask: u64) -> bool
    ensures { result ≡ lies_in_two_pages address mask }
{
    let here = PAGE_SIZE - address % PAGE_SIZE;
    if here >= 64 {
        return false;
    }
    mask % (1 << here) != 0 && mask >> here != 0
}

/// Neither a trap nor an interrupt nor a halt is shown.
fn is_undisturbed(row: &Row) -> bool
    ensures { result ≡ is_undisturbed (shown_in row.now) }
{
    !row_shows(row, Signal::Trap, 1)
        && !row_shows(row, Signal::Intr, 1)
        && !row_shows(row, Signal::Halt, 1)
}

/// The word that the row shows.
pub(crate) fn insn_shown(row: &Row) -> u64
    ensures { result ≡ insn_shown (shown_in row.now) }
{
    row.shown(Signal::Insn).unwrap_or(0)
}

/// The length of the instruction that a word begins with.
pub(crate) fn length_of(word: u64) -> u8
    ensures value { result ≡ insn_length_of word }
    ensures lengths { (result ≡ 2) ⊎ (result ≡ 4) }
{
    if word % 4 == 3 { 4 } else { 2 }
}

/// The bits of the instruction that a word begins with.
fn bits_of(word: u64) -> u32
    ensures value { result ≡ insn_bits_of word }
    ensures short { insn_length_of word ≡ 2 → result < 2 ^ 16 }
{
    if word % 4 == 3 {
        (word % (1 << 32)) as u32
    } else {
        (word % (1 << 16)) as u32
    }
}

/// Whether it is a SYSTEM or AMO instruction, LR and SC among these, or C.EBREAK.
pub(crate) fn is_system_or_atomic(word: u64) -> bool
    ensures { result ≡ is_system_or_atomic word }
{
    if length_of(word) == 2 {
        bits_of(word) == C_EBREAK
    } else {
        let opcode = (word % 128) as u32;
        opcode == SYSTEM || opcode == AMO
    }
}

/// Whether the row's instruction is a store.
#[tactic(auto, unfolding(crate::specs::PlainRows::shows_store))]
pub(crate) fn shows_store(row: &Row) -> bool
    ensures { result ≡ shows_store (shown_in row.now) }
{
    let word = insn_shown(row);
    may_store(word) && is_store(op_of(bits_of(word), length_of(word)))
}

/// Whether a word may begin with a store: by its opcode, or by its quadrant and the upper two bits
/// of its funct3. So few words are decoded.
#[tactic(auto, using(crate::proofs::StoreWords::store_opcode, crate::proofs::StoreWords::store_parcel))]
pub(crate) fn may_store(word: u64) -> bool
    ensures { is_store (op_of (insn_bits_of word) (insn_length_of word)) ≡ true → result ≡ true }
{
    if word % 4 == 3 {
        (word % 128) as u32 == STORE
    } else {
        word % 4 != 1 && word / (1 << 14) % 4 == 3
    }
}

/// Whether an operation is a store.
fn is_store(op: Option<Op>) -> bool
    ensures { result ≡ is_store op }
{
    matches!(op, Some(Op::Store { .. }))
}
