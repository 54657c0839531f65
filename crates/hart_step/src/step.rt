//! The step by one row, in its phases.

ghost use Rattle.std.specs.Prelude.{◌≡◌, true, Err, None, [], IfOk, IsOk, IsOkAnd, IsSomeAnd, OnOk, OnErr};
ghost use Rattle.hart_words.specs.Memory.{after_writes};
ghost use Rattle.hart_words.specs.Actions.{Performs};
ghost use Rattle.rvfi_rows.specs.Cells.{shown_in};
ghost use Rattle.rvfi_rows.specs.declared.expected.Expected.TheVariants as expectation;
ghost use Rattle.csr_file.specs.declared.csrs.Csrs.{Csrs};
ghost use Rattle.hart_step.specs.declared.state.Core.{Core};
ghost use Rattle.hart_step.specs.Cores.{IsSound};
ghost use Rattle.hart_step.specs.Choices.{asks_interrupt};
ghost use Rattle.hart_step.specs.Steps.{before_instruction, core_after_count, core_after_entry, core_after_interrupt, lacks_interrupt, core_after_run, csrs_around, effects_of, step_of};
ghost use Rattle.hart_step.specs.Instructions.{instruction_run};
ghost use Rattle.hart_step.specs.Changes.{run_by, retired_by, CarriesBefore, KeepsSound, AreInRam, AreReady};

use crate::changes::InstructionNotes;
use crate::choices::{lines_of, order_after, row_shows};
use crate::instruction::InstructionOutcome;
use crate::state::Core;
use csr_file::Csrs;
use hart_words::{Cause, NoMemory, PhysMem, Registers, Signal, Write};
use interrupt_pick::pick;
use mem_access::Accesses;
use rvfi_rows::{CsrsAround, Effects, Expected, Retired, Row, Stepped};
use trap_entry::enter;

impl Core {
    /// Steps the hart by a valid row over its memory. What it did, and what it read and wrote, is
    /// put in place of what an earlier step gave: it is large, and who steps by many rows keeps
    /// one. Without memory neither the hart nor a byte changes, and what was given stays: what the
    /// instruction changes is noted until memory has what it writes.
    ///
    /// From the Unprivileged ISA and the Privileged Architecture; what they leave open is taken
    /// from the row, as riscv-formal's description of RVFI has it.
    pub fn step_into<M: PhysMem>(
        &mut self,
        mem: &mut M,
        row: &Row,
        stepped: &mut Stepped,
    ) -> Result<(), NoMemory>
        requires sound { IsSound self.old }
        requires ram { M.ram mem.old ≡ self.old.map.ram }
        ensures stepped { OnOk result (Performs (step_of self.old (shown_in row.now))
            (record { next = self.new; expected = stepped.new.expected }) [] stepped.new.seen []
            stepped.new.wrote (M.bytes mem.old) (M.bytes mem.new)) }
        ensures err { OnErr result ((self.new ≡ self.old) × (M.bytes mem.new ≡ M.bytes mem.old)) }
        ensures kept { OnErr result (stepped.new ≡ stepped.old) }
        ensures sound { IsSound self.new }
        ensures map { self.new.map ≡ self.old.map }
        ensures ram { M.ram mem.new ≡ M.ram mem.old }
    {
        if self.halted {
            set_halted(stepped);
            return Ok(());
        }
        let mut accesses = Accesses::nothing();
        let mut notes = InstructionNotes::nothing();
        let order = self.next_order;
        let lacks_interrupt = match self.begin(mem, row, &mut accesses, &mut notes) {
            Ok(lacks_interrupt) => lacks_interrupt,
            Err(NoMemory) => return Err(NoMemory),
        };
        stepped.seen.copy_from(&accesses.seen);
        stepped.wrote.copy_from(&accesses.stores);
        self.end(&notes, row, order, lacks_interrupt, &mut stepped.expected);
        Ok(())
    }

    /// Puts in place what is noted of the row's instruction, and says what it did in place of what
    /// an earlier one did.
    fn end(
        &mut self,
        notes: &InstructionNotes,
        row: &Row,
        order: Option<u64>,
        lacks_interrupt: bool,
        expected: &mut Expected,
    )
        ensures state { self.new ≡ core_after_run (run_by self.old notes.now) (shown_in row.now) }
        ensures expected { expected.new ≡ expectation.Retired (retired_by order lacks_interrupt
            self.old (shown_in row.now) (run_by self.old notes.now)) }
        ensures sound { IsSound self.old → KeepsSound self.old notes.now.change
            → IsSound self.new }
        ensures map { self.new.map ≡ self.old.map }
    {
        match expected {
            Expected::Retired(retired) => {
                retired.order = order;
                retired.lacks_interrupt = lacks_interrupt;
                self.retire_by(notes, row, retired);
            }
            Expected::Halted => self.end_first(notes, row, order, lacks_interrupt, expected),
        }
    }

    /// The same where nothing was done before. It is done once, and pays for large locals, so it is
    /// kept apart.
    #[cold]
    #[inline(never)]
    fn end_first(
        &mut self,
        notes: &InstructionNotes,
        row: &Row,
        order: Option<u64>,
        lacks_interrupt: bool,
        expected: &mut Expected,
    )
        ensures state { self.new ≡ core_after_run (run_by self.old notes.now) (shown_in row.now) }
        ensures expected { expected.new ≡ expectation.Retired (retired_by order lacks_interrupt
            self.old (shown_in row.now) (run_by self.old notes.now)) }
        ensures sound { IsSound self.old → KeepsSound self.old notes.now.change
            → IsSound self.new }
        ensures map { self.new.map ≡ self.old.map }
    {
        let mut retired = Retired {
            order,
            lacks_interrupt,
            pc: self.pc,
            mode: self.mode,
            insn: None,
            insn_bits: self.choices.insn_bits,
            effects: Err(Cause::IllegalInstruction),
            csrs: None,
            lines: 0,
        };
        self.retire_by(notes, row, &mut retired);
        *expected = Expected::Retired(retired);
    }

    /// Puts in place what is noted of the row's instruction, and says what it did in place of what
    /// an earlier one did, but for the order index and the lack of an interrupt.
    fn retire_by(&mut self, notes: &InstructionNotes, row: &Row, retired: &mut Retired)
        ensures state { self.new ≡ core_after_run (run_by self.old notes.now) (shown_in row.now) }
        ensures retired { retired.new ≡ retired_by retired.old.order retired.old.lacks_interrupt
            self.old (shown_in row.now) (run_by self.old notes.now) }
        ensures sound { IsSound self.old → KeepsSound self.old notes.now.change
            → IsSound self.new }
        ensures map { self.new.map ≡ self.old.map }
    {
        retired.pc = self.pc;
        retired.mode = self.mode;
        retired.insn = notes.executed.insn();
        retired.insn_bits = self.choices.insn_bits;
        retired.lines = lines_of(row).up;
        let carries = row.shows_csr();
        carry_before(&mut retired.csrs, carries, &self.csrs);
        put_registers(&mut retired.effects, &self.registers);
        self.apply(&notes.change);
        put_effects(&mut retired.effects, self, &notes.executed);
        self.finish(&notes.executed, row);
        carry_after(&mut retired.csrs, carries, &self.csrs);
    }

    /// Brings the hart to where the row's instruction finds it, and memory to after that: what is
    /// noted of the instruction, and whether the row asks for an interrupt and none can be taken.
    fn begin<M: PhysMem>(
        &mut self,
        mem: &mut M,
        row: &Row,
        accesses: &mut Accesses,
        notes: &mut InstructionNotes,
    ) -> Result<bool, NoMemory>
        requires sound { IsSound self.old }
        requires ram { M.ram mem.old ≡ self.old.map.ram }
        requires nothing { (accesses.old.seen ≡ []) × (accesses.old.sets ≡ [])
            × (accesses.old.stores ≡ []) }
        ensures ran { OnOk result (Performs (instruction_run self.new (shown_in row.now))
            (run_by self.new notes.new) [] accesses.new.seen [] accesses.new.stores (M.bytes mem.old)
            (M.bytes mem.new)) }
        ensures state { OnOk result (self.new ≡ before_instruction self.old (shown_in row.now)) }
        ensures lacks { IfOk result (λ lacks. lacks
            ≡ lacks_interrupt (core_after_count self.old (shown_in row.now)) (shown_in row.now)) }
        ensures keeps { OnOk result (KeepsSound self.new notes.new.change) }
        ensures err { OnErr result ((self.new ≡ self.old) × (M.bytes mem.new ≡ M.bytes mem.old)) }
        ensures sound { IsSound self.new }
        ensures map { self.new.map ≡ self.old.map }
        ensures ram { M.ram mem.new ≡ M.ram mem.old }
    {
        if self.asks_interrupt(row) {
            return self.begin_by_interrupt(mem, row, accesses, notes);
        }
        match self.run_and_write(mem, row, accesses, notes) {
            Ok(()) => Ok(false),
            Err(NoMemory) => Err(NoMemory),
        }
    }

    /// The same by a row that asks for an interrupt. This is rare, and works on a copy, in which
    /// the interrupt is entered.
    #[cold]
    #[inline(never)]
    fn begin_by_interrupt<M: PhysMem>(
        &mut self,
        mem: &mut M,
        row: &Row,
        accesses: &mut Accesses,
        notes: &mut InstructionNotes,
    ) -> Result<bool, NoMemory>
        requires sound { IsSound self.old }
        requires ram { M.ram mem.old ≡ self.old.map.ram }
        requires nothing { (accesses.old.seen ≡ []) × (accesses.old.sets ≡ [])
            × (accesses.old.stores ≡ []) }
        requires asks { asks_interrupt self.old (shown_in row.now) ≡ true }
        ensures ran { OnOk result (Performs (instruction_run self.new (shown_in row.now))
            (run_by self.new notes.new) [] accesses.new.seen [] accesses.new.stores (M.bytes mem.old)
            (M.bytes mem.new)) }
        ensures state { OnOk result (self.new ≡ before_instruction self.old (shown_in row.now)) }
        ensures lacks { IfOk result (λ lacks. lacks
            ≡ lacks_interrupt (core_after_count self.old (shown_in row.now)) (shown_in row.now)) }
        ensures keeps { OnOk result (KeepsSound self.new notes.new.change) }
        ensures err { OnErr result ((self.new ≡ self.old) × (M.bytes mem.new ≡ M.bytes mem.old)) }
        ensures sound { IsSound self.new }
        ensures map { self.new.map ≡ self.old.map }
        ensures ram { M.ram mem.new ≡ M.ram mem.old }
    {
        let mut next = *self;
        let lacks_interrupt = next.take_interrupt(row);
        match next.run_and_write(mem, row, accesses, notes) {
            Ok(()) => {
                *self = next;
                Ok(lacks_interrupt)
            }
            Err(NoMemory) => Err(NoMemory),
        }
    }

    /// Moves the order index on, runs the instruction, and writes what it writes: what is noted of
    /// it is still to be put in place. Without memory the order index is put back.
    #[tactic(auto, unfolding(crate::specs::Steps::core_after_count))]
    fn run_and_write<M: PhysMem>(
        &mut self,
        mem: &mut M,
        row: &Row,
        accesses: &mut Accesses,
        notes: &mut InstructionNotes,
    ) -> Result<(), NoMemory>
        requires sound { IsSound self.old }
        requires ram { M.ram mem.old ≡ self.old.map.ram }
        requires nothing { (accesses.old.seen ≡ []) × (accesses.old.sets ≡ [])
            × (accesses.old.stores ≡ []) }
        ensures ran { OnOk result (Performs (instruction_run self.new (shown_in row.now))
            (run_by self.new notes.new) [] accesses.new.seen [] accesses.new.stores (M.bytes mem.old)
            (M.bytes mem.new)) }
        ensures state { OnOk result (self.new ≡ core_after_count self.old (shown_in row.now)) }
        ensures keeps { OnOk result (KeepsSound self.new notes.new.change) }
        ensures err { OnErr result ((self.new ≡ self.old) × (M.bytes mem.new ≡ M.bytes mem.old)) }
        ensures sound { IsSound self.new }
        ensures map { self.new.map ≡ self.old.map }
        ensures ram { M.ram mem.new ≡ M.ram mem.old }
    {
        let order = self.next_order;
        self.count(row);
        self.run(mem, row, accesses, notes);
        accesses.put_sets_first();
        match write_all(mem, accesses.stores.as_slice()) {
            Ok(()) => Ok(()),
            Err(NoMemory) => {
                self.next_order = order;
                Err(NoMemory)
            }
        }
    }

    /// The order index moves on.
    #[tactic(auto, unfolding(crate::specs::Steps::core_after_count))]
    pub(crate) fn count(&mut self, row: &Row)
        ensures state { self.new ≡ core_after_count self.old (shown_in row.now) }
        ensures sound { IsSound self.old → IsSound self.new }
        ensures map { self.new.map ≡ self.old.map }
    {
        self.next_order = order_after(self.next_order, row.shown(Signal::Order));
    }

    /// Where the row asks for an interrupt, enters the one that can be taken. Says whether the row
    /// asks for one and none can be taken.
    #[tactic(auto, unfolding(crate::specs::Steps::core_after_interrupt, crate::specs::Steps::lacks_interrupt))]
    fn take_interrupt(&mut self, row: &Row) -> bool
        ensures state { self.new ≡ core_after_interrupt self.old (shown_in row.now) }
        ensures lacks { result ≡ lacks_interrupt self.old (shown_in row.now) }
        ensures sound { IsSound self.old → IsSound self.new }
        ensures map { self.new.map ≡ self.old.map }
    {
        if !self.asks_interrupt(row) {
            return false;
        }
        match pick(&self.csrs, self.mode, lines_of(row).up) {
            None => true,
            Some((code, _)) => {
                self.enter(true, code, 0);
                false
            }
        }
    }

    /// Whether the row says that an interrupt was entered before it.
    #[tactic(auto, unfolding(crate::specs::Choices::asks_interrupt))]
    fn asks_interrupt(&self, row: &Row) -> bool
        ensures { result ≡ asks_interrupt self.now (shown_in row.now) }
    {
        row_shows(row, Signal::Intr, 1)
            && !(self.trapped_last && row_shows(row, Signal::PcRdata, self.pc))
    }

    /// Enters a trap: an interrupt or an exception, by its code, with a trap value.
    #[tactic(auto, unfolding(crate::specs::Steps::core_after_entry))]
    fn enter(&mut self, interrupt: bool, code: u8, value: u64)
        ensures state { self.new ≡ core_after_entry self.old interrupt code value }
        ensures sound { IsSound self.old → IsSound self.new }
        ensures map { self.new.map ≡ self.old.map }
    {
        (self.mode, self.pc) = enter(
            &mut self.csrs,
            self.mode,
            interrupt,
            code,
            value,
            self.pc,
            self.choices.trap_values.is_zero_for(code),
        );
    }

    /// An exception is entered, an instruction that retired is done; and the hart halts where the
    /// row says so.
    #[tactic(auto, unfolding(crate::specs::Steps::core_after_run))]
    fn finish(&mut self, executed: &InstructionOutcome, row: &Row)
        ensures state { self.new
            ≡ core_after_run (record { core = self.old; executed = executed.now })
            (shown_in row.now) }
        ensures sound { IsSound self.old → IsSound self.new }
        ensures map { self.new.map ≡ self.old.map }
    {
        match executed {
            InstructionOutcome::Trapped { exception, .. } => {
                let (cause, value) = *exception;
                self.enter(false, cause.code(), value);
                self.trapped_last = true;
            }
            InstructionOutcome::Retired { .. } => self.trapped_last = false,
        }
        self.halted = row_shows(row, Signal::Halt, 1);
    }
}

/// A hart that had halted does nothing. Few rows come after that, so this is kept apart.
#[cold]
#[inline(never)]
fn set_halted(stepped: &mut Stepped)
    ensures expected { stepped.new.expected ≡ expectation.Halted }
    ensures seen { stepped.new.seen ≡ [] }
    ensures wrote { stepped.new.wrote ≡ [] }
{
    *stepped = Stepped::halted();
}

/// Writes what a step noted. Where memory is refused no byte changes: one write is refused by
/// itself, and before the first of several the pages of all are made ready.
#[tactic(auto, unfolding(hart_words::specs::Memory::after_writes))]
fn write_all<M: PhysMem>(mem: &mut M, writes: &[Write]) -> Result<(), NoMemory>
    requires in_ram { AreInRam (M.ram mem.old) writes.now }
    ensures ok { OnOk result (M.bytes mem.new ≡ after_writes writes.now (M.bytes mem.old)) }
    ensures err { OnErr result (M.bytes mem.new ≡ M.bytes mem.old) }
    ensures ram { M.ram mem.new ≡ M.ram mem.old }
{
    match writes {
        [] => Ok(()),
        [write] => mem.write(write.pa, write.len, write.value),
        _ => {
            ready_all(mem, writes)?;
            write_ready(mem, writes)
        }
    }
}

/// Takes what memory the pages of writes need.
fn ready_all<M: PhysMem>(mem: &mut M, writes: &[Write]) -> Result<(), NoMemory>
    requires in_ram { AreInRam (M.ram mem.old) writes.now }
    ensures bytes { M.bytes mem.new ≡ M.bytes mem.old }
    ensures ok { OnOk result (AreReady (M.is_ready mem.new) writes.now) }
    ensures ram { M.ram mem.new ≡ M.ram mem.old }
{
    for write in writes {
        mem.ready(write.pa)?;
    }
    Ok(())
}

/// Writes where no write is refused.
fn write_ready<M: PhysMem>(mem: &mut M, writes: &[Write]) -> Result<(), NoMemory>
    requires in_ram { AreInRam (M.ram mem.old) writes.now }
    requires ready { AreReady (M.is_ready mem.old) writes.now }
    ensures ok { IsOk result }
    ensures bytes { M.bytes mem.new ≡ after_writes writes.now (M.bytes mem.old) }
    ensures ram { M.ram mem.new ≡ M.ram mem.old }
{
    for write in writes {
        mem.write(write.pa, write.len, write.value)?;
    }
    Ok(())
}

/// Puts the control and status registers before an instruction into what it did, where its row
/// shows a column of one. Elsewhere none are kept from an earlier row.
fn carry_before(csrs: &mut Option<CsrsAround>, carries: bool, before: &Csrs)
    ensures { CarriesBefore carries before.now csrs.new }
{
    if carries {
        put_before(csrs, before);
    } else if csrs.is_some() {
        forget(csrs);
    }
}

/// The registers are large and few rows show such a column, so this is kept apart.
#[inline(never)]
fn put_before(csrs: &mut Option<CsrsAround>, before: &Csrs)
    ensures { IsSomeAnd csrs.new (λ around. around.before ≡ before.now) }
{
    if let Some(around) = csrs {
        around.before = *before;
    } else {
        put_csrs_on(csrs, before);
    }
}

/// The same where the row before carried none.
#[inline(never)]
fn put_csrs_on(csrs: &mut Option<CsrsAround>, before: &Csrs)
    ensures { IsSomeAnd csrs.new (λ around. around.before ≡ before.now) }
{
    *csrs = Some(CsrsAround {
        before: *before,
        after: *before,
    });
}

/// Kept apart, since it pays for a large local. Most rows have nothing to forget.
#[inline(never)]
fn forget(csrs: &mut Option<CsrsAround>)
    ensures { csrs.new ≡ None }
{
    *csrs = None;
}

/// Puts those after the row beside those before the instruction.
fn carry_after(csrs: &mut Option<CsrsAround>, carries: bool, after: &Csrs)
    ensures { (before : Csrs) → CarriesBefore carries before csrs.old
        → csrs.new ≡ csrs_around carries before after.now }
{
    if carries {
        put_after(csrs, after);
    }
}

/// Kept apart, as `put_before` is.
#[inline(never)]
fn put_after(csrs: &mut Option<CsrsAround>, after: &Csrs)
    ensures { (before : Csrs) → IsSomeAnd csrs.old (λ around. around.before ≡ before)
        → csrs.new ≡ csrs_around true before after.now }
{
    if let Some(around) = csrs {
        around.after = *after;
    }
}

/// Puts the registers before an instruction into what it did, where all else is put then.
fn put_registers(effects: &mut Result<Effects, Cause>, registers: &Registers)
    ensures { IsOkAnd effects.new (λ effects. effects.registers ≡ registers.now) }
{
    if let Ok(effects) = effects {
        effects.registers = *registers;
    } else {
        put_effects_on(effects, registers);
    }
}

/// The same where the row before trapped. Few did, so this is kept apart.
#[cold]
#[inline(never)]
fn put_effects_on(effects: &mut Result<Effects, Cause>, registers: &Registers)
    ensures { IsOkAnd effects.new (λ effects. effects.registers ≡ registers.now) }
{
    *effects = Ok(Effects {
        registers: *registers,
        rs1: 0,
        rs2: 0,
        rd: 0,
        rd_value: 0,
        next_pc: 0,
        access: None,
    });
}

/// Puts what the instruction did, of which the registers before it are there, or the cause of its
/// trap.
fn put_effects(effects: &mut Result<Effects, Cause>, after: &Core, executed: &InstructionOutcome)
    ensures { (core : Core) → IsOkAnd effects.old (λ effects. effects.registers ≡ core.registers)
        → effects.new ≡ effects_of core after.now executed.now }
{
    match executed {
        InstructionOutcome::Trapped { exception, .. } => put_cause(effects, exception.0),
        InstructionOutcome::Retired {
            instruction,
            access,
        } => {
            if let Ok(effects) = effects {
                let operands = instruction.op.operands();
                effects.rs1 = operands.rs1;
                effects.rs2 = operands.rs2;
                effects.rd = operands.rd;
                effects.rd_value = after.registers.get(operands.rd);
                effects.next_pc = after.pc;
                effects.access = *access;
            }
        }
    }
}

/// Puts the cause of a trap, which is kept apart as it is rare.
#[cold]
#[inline(never)]
fn put_cause(effects: &mut Result<Effects, Cause>, cause: Cause)
    ensures { effects.new ≡ Err cause }
{
    *effects = Err(cause);
}
