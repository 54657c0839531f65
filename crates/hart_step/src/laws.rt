//! What holds of every step.

ghost use Rattle.std.specs.Prelude.{◌≡◌, ◌≤◌, ◌<◌, ℕ, Bool, true, false, List, Option, Some, None};
ghost use Rattle.hart_words.specs.declared.privilege.Mode.{Mode};
ghost use Rattle.hart_words.specs.Privilege.{mode_number};
ghost use Rattle.hart_words.specs.declared.accesses.Write.{Write};
ghost use Rattle.hart_words.specs.Memory.{Bytes, AgreeOn};
ghost use Rattle.hart_words.specs.Signals.{Shown};
ghost use Rattle.mem_access.specs.Accesses.{Exception};
ghost use Rattle.rv_integer.specs.declared.int_result.IntResult.TheVariants.{Access};
ghost use Rattle.rv_integer.specs.declared.int_result.MemoryRequest.{MemoryRequest};
ghost use Rattle.rv_integer.specs.declared.int_result.MemoryOp.TheVariants.{StoreConditional};
ghost use Rattle.interrupt_pick.specs.Laws.{TakesNone};
ghost use Rattle.rvfi_rows.specs.Rows.{shows_csr};
ghost use Rattle.hart_step.specs.declared.state.Core.{Core};
ghost use Rattle.hart_step.specs.Cores.{IsSound};
ghost use Rattle.hart_step.specs.Choices.{asks_interrupt, pending_lines_of};
ghost use Rattle.hart_step.specs.Steps.{before_instruction, csrs_around, interrupt_of, step_of};
ghost use Rattle.hart_step.specs.Laws.{request_at_pc, next_of, RowsDecideAlike, TrapsStoreNothing, enters_interrupt, RisesByTrapsOnly, FallsByReturnsOnly, ReturnsTo, AsksInterrupt, IsFetched, CarriesCsrs, EntersInterrupt, LacksRightly, StoresInReservedBlock};
ghost use Rattle.hart_step.specs.Meanings.{LosesAlike, LosesByBytes};
ghost use Rattle.hart_step.specs.TrapLaws.{executed_at, Raises, IsRaisedIn, LeadsToHandler, HasCause};

/// Memories that agree on what a step reads give the same step: the same state after it, the same
/// facts about it, the same reads and the same writes.
pub fn steps_are_framed()
    ensures { (core : Core) (shown : Shown) (one other : Bytes)
        → AgreeOn ((step_of core shown).run one).reads one other
        → (step_of core shown).run other ≡ (step_of core shown).run one }
{}

/// A row decides nothing but its choices: rows that agree on them give the same step. What was done
/// carries control and status registers only where its row shows a column of one: it is the same
/// but for them, and with them where both rows show one or neither does.
pub fn rows_decide_choices_alone()
    ensures { (core : Core) (bytes : Bytes) (one other : Shown)
        → RowsDecideAlike core bytes one other }
{}

/// A step that takes a synchronous trap leaves x1 to x31, the reservation and every byte, but for A
/// and D in entries of page tables where the hart sets them: where they are page faults it writes
/// nothing. That an interrupt was entered before, in the same row, is another matter.
pub fn traps_store_nothing()
    ensures { (core : Core) (shown : Shown) (bytes : Bytes)
        → (next_of core shown bytes).trapped_last ≡ true → TrapsStoreNothing core shown bytes }
{}

/// Privilege rises only by a trap or an interrupt, and falls only by MRET and SRET, at the first
/// instruction of an interrupt's handler as anywhere.
pub fn privilege_rises_by_traps_alone()
    ensures elsewhere { (core : Core) (shown : Shown) (bytes : Bytes) → core.halted ≡ false
        → enters_interrupt core shown ≡ false → (next_of core shown bytes).trapped_last ≡ false
        → RisesByTrapsOnly core shown bytes }
    ensures halted { (core : Core) (shown : Shown) (bytes : Bytes) → core.halted ≡ true
        → next_of core shown bytes ≡ core }
    ensures interrupts { (core : Core) (shown : Shown)
        → mode_number core.mode ≤ mode_number (before_instruction core shown).mode }
    ensures traps { (core : Core) (shown : Shown) (bytes : Bytes)
        → (next_of core shown bytes).trapped_last ≡ true
        → mode_number core.mode ≤ mode_number (next_of core shown bytes).mode }
    ensures everywhere { (core : Core) (shown : Shown) (bytes : Bytes) → core.halted ≡ false
        → (next_of core shown bytes).trapped_last ≡ false → FallsByReturnsOnly core shown bytes }
    ensures falls { (core : Core) (shown : Shown) (bytes : Bytes)
        → mode_number (next_of core shown bytes).mode < mode_number core.mode
        → ReturnsTo (before_instruction core shown)
        (request_at_pc (before_instruction core shown) bytes) (next_of core shown bytes).mode }
{}

/// An interrupt is entered exactly where the hart is not halted, the row shows `intr` as 1, it is
/// not the first row of a trap's handler, and one is pending, enabled and taken: then the row's
/// instruction is fetched at its vector. It is the first that M takes in the standard's order, or,
/// where M takes none, the first that S takes. Elsewhere the instruction is fetched at the hart's
/// pc, in its mode; and a row that asks where there is none to take differs in `intr`.
pub fn interrupts_are_entered_where_asked()
    ensures asked { (core : Core) (shown : Shown) → AsksInterrupt core shown
        → asks_interrupt core shown ≡ true }
    ensures asks { (core : Core) (shown : Shown) → asks_interrupt core shown ≡ true
        → AsksInterrupt core shown }
    ensures entered { (core : Core) (shown : Shown) (bytes : Bytes) (code : ℕ) (taker : Mode)
        → core.halted ≡ false → asks_interrupt core shown ≡ true
        → interrupt_of core shown ≡ Some (code, taker)
        → EntersInterrupt core shown ((step_of core shown).run bytes).value.expected code taker }
    ensures elsewhere { (core : Core) (shown : Shown) (bytes : Bytes)
        → core.halted ≡ false → enters_interrupt core shown ≡ false
        → IsFetched ((step_of core shown).run bytes).value.expected core.pc core.mode core.csrs }
    ensures none { (core : Core) (shown : Shown) → interrupt_of core shown ≡ None
        → TakesNone core.csrs core.mode (pending_lines_of shown).up }
    ensures lacks { (core : Core) (shown : Shown) (bytes : Bytes) → core.halted ≡ false
        → LacksRightly core shown ((step_of core shown).run bytes).value.expected }
{}

/// What a hart did carries the control and status registers exactly where its row shows a column of
/// one: as its instruction finds them, after an interrupt's entry, and as the row leaves them.
pub fn registers_are_carried_where_shown()
    ensures { (core : Core) (shown : Shown) (bytes : Bytes) → core.halted ≡ false
        → CarriesCsrs ((step_of core shown).run bytes).value.expected
        (csrs_around (shows_csr shown) (before_instruction core shown).csrs
        (next_of core shown bytes).csrs) }
{}

/// A step whose instruction raises an exception leads to the handler of S, where the instruction
/// ran in S or U and medeleg has the bit of the cause, and else to that of M: at the vector's base,
/// with the cause, the trap value and the instruction's pc in the registers of that mode. The
/// exception of a fetch or of an access is that of its first part that is refused, with the part's
/// cause and its address as the trap value; an access that comes to a device is refused where
/// devices may refuse and the row shows a trap. The trap value of a call is 0, of a breakpoint pc,
/// and of an illegal instruction its bits; or it is 0 in every trap, where a core has it so.
pub fn exceptions_lead_to_handlers()
    ensures leads { (core : Core) (shown : Shown) (bytes : Bytes) (exception : Exception)
        → IsSound core → core.halted ≡ false → Raises (executed_at core shown bytes) exception
        → LeadsToHandler (before_instruction core shown) (next_of core shown bytes) exception }
    ensures raised { (core : Core) (shown : Shown) (bytes : Bytes) (exception : Exception)
        → Raises (executed_at core shown bytes) exception
        → IsRaisedIn (before_instruction core shown) shown bytes exception }
    ensures cause { (core : Core) (shown : Shown) (bytes : Bytes) (exception : Exception)
        → core.halted ≡ false → Raises (executed_at core shown bytes) exception
        → HasCause ((step_of core shown).run bytes).value.expected exception.0 }
    ensures every_trap { (core : Core) (shown : Shown) (bytes : Bytes) → core.halted ≡ false
        → (next_of core shown bytes).trapped_last ≡ true
        → (exception : Exception) × Raises (executed_at core shown bytes) exception }
{}

/// No row makes an SC store outside the reserved block; what it writes besides are A and D in
/// entries of page tables.
pub fn no_row_stores_unreserved()
    ensures { (core : Core) (shown : Shown) (bytes : Bytes) (request : MemoryRequest) (value : ℕ)
        → request_at_pc (before_instruction core shown) bytes ≡ Some (Access request)
        → request.op ≡ StoreConditional value
        → StoresInReservedBlock core shown bytes }
{}

/// By the writes of other harts a hart loses its reservation exactly where one of their bytes lies
/// in the reserved block, and it loses nothing else.
pub fn reservations_are_lost_by_bytes()
    ensures { (core : Core) (writes : List Write) → LosesByBytes core writes }
{}

/// Writes that leave the same bytes in every memory take the same from a hart.
pub fn losses_follow_the_bytes()
    ensures { (core : Core) (one other : List Write) → LosesAlike core one other }
{}
