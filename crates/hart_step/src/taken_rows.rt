//! The state after a plain row, as the row shows it.

ghost use Rattle.std.specs.Prelude.{◌≡◌, ◌%◌, [], IfOk, OnErr, OnOk};
ghost use Rattle.hart_words.specs.Actions.{Performs};
ghost use Rattle.hart_words.specs.Registers.{with_register};
ghost use Rattle.rvfi_rows.specs.Cells.{shown_in};
ghost use Rattle.hart_step.specs.Cores.{IsSound};
ghost use Rattle.hart_step.specs.PlainRows.{next_address_shown, memory_shown, core_shown, next_pc_shown, registers_shown};
ghost use Rattle.hart_step.specs.TakenRows.{taken_of};

use crate::plain_rows::{insn_shown, length_of, shows_store};
use crate::shown_store::ShownStore;
use crate::state::Core;
use hart_words::{NoMemory, PhysMem, Registers, Signal, Wrote};
use rvfi_rows::Row;

impl Core {
    /// Takes the state after a row from what the row shows, and a store's bytes into a memory: the
    /// bytes of RAM that it wrote. Without memory neither the state nor a byte changes.
    #[tactic(auto, unfolding(crate::specs::PlainRows::memory_shown), using(crate::proofs::TakenWrites::took_none, crate::proofs::TakenWrites::took_store))]
    pub(crate) fn take_row<M: PhysMem>(&mut self, mem: &mut M, row: &Row) -> Result<Wrote, NoMemory>
        requires ram { M.ram mem.old ≡ self.old.map.ram }
        ensures taken { IfOk result (λ wrote. Performs (taken_of self.old (shown_in row.now))
            self.new [] [] [] wrote (M.bytes mem.old) (M.bytes mem.new)) }
        ensures bytes { OnOk result (M.bytes mem.new
            ≡ memory_shown self.old (shown_in row.now) (M.bytes mem.old)) }
        ensures err { OnErr result ((self.new ≡ self.old) × (M.bytes mem.new ≡ M.bytes mem.old)) }
        ensures sound { IsSound self.old → IsSound self.new }
        ensures map { self.new.map ≡ self.old.map }
        ensures choices { self.new.choices ≡ self.old.choices }
        ensures ram { M.ram mem.new ≡ M.ram mem.old }
    {
        if shows_store(row) {
            let ram = self.map.ram;
            let store = ShownStore::of(row);
            match store.put(mem, &ram) {
                Err(NoMemory) => return Err(NoMemory),
                Ok(()) => {}
            }
            self.take_core_shown(row);
            return Ok(store.writes(&ram));
        }
        self.take_core_shown(row);
        Ok(Wrote::empty())
    }

    /// Takes the state after a row, but for memory, from what the row shows.
    #[tactic(auto, unfolding(crate::specs::PlainRows::core_shown, crate::specs::Steps::core_after_count))]
    pub(crate) fn take_core_shown(&mut self, row: &Row)
        ensures state { self.new ≡ core_shown self.old (shown_in row.now) }
        ensures sound { IsSound self.old → IsSound self.new }
        ensures map { self.new.map ≡ self.old.map }
        ensures choices { self.new.choices ≡ self.old.choices }
    {
        self.count(row);
        take_register(
            &mut self.registers,
            row.shown(Signal::RdAddr),
            row.shown(Signal::RdWdata),
        );
        self.pc = next_pc_shown(row);
    }
}

/// A value goes to the register that is shown.
pub(crate) fn take_register(registers: &mut Registers, rd: Option<u64>, value: Option<u64>)
    ensures { registers.new ≡ registers_shown registers.old rd value }
{
    if let Some(rd) = rd {
        if let Some(value) = value {
            set_register(registers, rd, value);
        }
    }
}

/// Puts a value into a register; nothing changes where it is x0, or there is none of this number.
fn set_register(registers: &mut Registers, number: u64, value: u64)
    ensures { registers.new ≡ with_register registers.old number value }
{
    if number == 0 {
        return;
    }
    let index = (number - 1) as usize;
    if index < registers.values.len() {
        registers.values[index] = value;
    }
}

/// The address at which the hart goes on: the one that is shown, or else the one after the
/// instruction; bit 0 is cleared.
fn next_pc_shown(row: &Row) -> u64
    ensures value { result ≡ next_pc_shown (shown_in row.now) }
    ensures even { result % 2 ≡ 0 }
{
    let next = match row.shown(Signal::PcWdata) {
        Some(next) => next,
        None => following(row),
    };
    next - next % 2
}

/// The address after the row's instruction.
fn following(row: &Row) -> u64
    ensures { result ≡ next_address_shown (shown_in row.now) }
{
    let pc = row.shown(Signal::PcRdata).unwrap_or(0);
    pc.wrapping_add(u64::from(length_of(insn_shown(row))))
}
