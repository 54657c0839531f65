//! The plain rows that store nothing, taken as they are kept: most rows are such, and what is
//! looked at of one is little.

ghost use Rattle.std.specs.Prelude.{◌≡◌, ◌%◌, Some, false, true};
ghost use Rattle.hart_words.specs.declared.signal.Signal.TheVariants.{Insn};
ghost use Rattle.rvfi_rows.specs.Meanings.{TakesQuiet};
ghost use Rattle.rvfi_rows.specs.Readings.{kept_shown};
ghost use Rattle.hart_step.specs.Choices.{shows};
ghost use Rattle.hart_step.specs.Cores.{IsSound};
ghost use Rattle.hart_step.specs.Meanings.{core_meaning};
ghost use Rattle.hart_step.specs.PlainRows.{core_shown, is_plain, is_undisturbed, next_pc_shown, shows_store};

use crate::choices::order_after;
use crate::plain_rows::{is_system_or_atomic, length_of, may_store};
use crate::state::Core;
use crate::taken_rows::take_register;
use hart_words::Signal;
use rvfi_rows::KeptRow;

impl Core {
    /// Where a row shows its word, is plain and stores nothing, takes the state after it from what
    /// it shows; else nothing changes. Says whether it is so.
    pub(crate) fn take_quiet_row(&mut self, row: &KeptRow<'_>) -> bool
        ensures taken { result ≡ true
            → TakesQuiet core_meaning self.old (kept_shown row.now) self.new }
        ensures kept { result ≡ false → self.new ≡ self.old }
        ensures sound { IsSound self.old → IsSound self.new }
        ensures map { self.new.map ≡ self.old.map }
        ensures choices { self.new.choices ≡ self.old.choices }
    {
        match row.shown(Signal::Insn) {
            None => false,
            Some(word) => {
                if !self.is_quiet(row, word) {
                    return false;
                }
                self.take_word(row, word);
                true
            }
        }
    }

    /// Whether the row, which shows this word, is plain for this state and no store.
    #[tactic(auto, unfolding(crate::specs::PlainRows::is_plain, crate::specs::PlainRows::shows_store))]
    fn is_quiet(&self, row: &KeptRow<'_>, word: u64) -> bool
        requires { kept_shown row.now Insn ≡ Some word }
        ensures plain { result ≡ true → is_plain self.now (kept_shown row.now) ≡ true }
        ensures no_store { result ≡ true → shows_store (kept_shown row.now) ≡ false }
    {
        !self.halted
            && !self.trapped_last
            && is_undisturbed(row)
            && !is_system_or_atomic(word)
            && !may_store(word)
    }

    /// Takes the state after the row, which shows this word.
    #[tactic(auto, unfolding(crate::specs::PlainRows::core_shown, crate::specs::Steps::core_after_count))]
    fn take_word(&mut self, row: &KeptRow<'_>, word: u64)
        requires { kept_shown row.now Insn ≡ Some word }
        ensures state { self.new ≡ core_shown self.old (kept_shown row.now) }
        ensures sound { IsSound self.old → IsSound self.new }
        ensures map { self.new.map ≡ self.old.map }
        ensures choices { self.new.choices ≡ self.old.choices }
    {
        let order = row.shown(Signal::Order);
        let rd = row.shown(Signal::RdAddr);
        let value = row.shown(Signal::RdWdata);
        let pc = next_pc(row, word);
        self.next_order = order_after(self.next_order, order);
        take_register(&mut self.registers, rd, value);
        self.pc = pc;
    }
}

/// Neither a trap nor an interrupt nor a halt is shown.
fn is_undisturbed(row: &KeptRow<'_>) -> bool
    ensures { result ≡ is_undisturbed (kept_shown row.now) }
{
    !is_one(row.shown(Signal::Trap))
        && !is_one(row.shown(Signal::Intr))
        && !is_one(row.shown(Signal::Halt))
}

/// Whether 1 is shown.
fn is_one(value: Option<u64>) -> bool
    ensures { result ≡ shows value 1 }
{
    match value {
        None => false,
        Some(value) => value == 1,
    }
}

/// The address at which the hart goes on, by the row, which shows this word.
fn next_pc(row: &KeptRow<'_>, word: u64) -> u64
    requires { kept_shown row.now Insn ≡ Some word }
    ensures value { result ≡ next_pc_shown (kept_shown row.now) }
    ensures even { result % 2 ≡ 0 }
{
    let next = match row.shown(Signal::PcWdata) {
        Some(next) => next,
        None => {
            let pc = row.shown(Signal::PcRdata).unwrap_or(0);
            pc.wrapping_add(u64::from(length_of(word)))
        }
    };
    next - next % 2
}
