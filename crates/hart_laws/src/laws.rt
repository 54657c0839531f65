//! What holds of the rows of several harts over one memory.

ghost use Rattle.std.specs.Prelude.{◌≡◌, ◌≢◌, ℕ, true, false, Some, None, List, slice_get};
ghost use Rattle.hart_words.specs.declared.choices.Choices.{Choices};
ghost use Rattle.hart_words.specs.declared.map.Map.{Map};
ghost use Rattle.hart_words.specs.Memory.{Bytes};
ghost use Rattle.hart_words.specs.Signals.{Shown};
ghost use Rattle.rv_atomic.specs.declared.reservation.Block.{Block};
ghost use Rattle.rv_atomic.specs.Blocks.{IsReserved};
ghost use Rattle.rvfi_rows.specs.Rows.{hart_of};
ghost use Rattle.hart_step.specs.declared.state.Core.{Core};
ghost use Rattle.csr_file.specs.declared.profile.CsrProfile.{CsrProfile};
ghost use Rattle.hart_step.specs.Cores.{core_at_reset_of};
ghost use Rattle.hart_step.specs.HartSets.{SetState, set_after_row};
ghost use Rattle.hart_step.specs.Laws.{next_of};
ghost use Rattle.hart_laws.specs.Rows.{IsSameButReservation, after_set_rows};
ghost use Rattle.hart_laws.specs.Rows.{reserved_by, writes_byte};
ghost use Rattle.hart_laws.specs.Reservations.{ReservesByLr, StoresAfterReserving, WasReservedBy};
ghost use Rattle.hart_laws.specs.Reservations.{asks_for, does, is_lr, is_sc, request_of_row};

/// A hart's row leaves each other hart as it is, but for what that one has reserved. A row of a
/// hart that is not there changes nothing.
pub fn other_harts_keep_all_but_reservations()
    ensures others { (state : SetState) (shown : Shown) (other : ℕ) → other ≢ hart_of shown
        → IsSameButReservation (slice_get state.core other)
        (slice_get (set_after_row state shown).core other) }
    ensures absent { (state : SetState) (shown : Shown)
        → slice_get state.core (hart_of shown) ≡ None → set_after_row state shown ≡ state }
{}

/// Another hart's row takes what a hart has reserved exactly where its step writes a byte of the
/// block. Where it writes none, the hart is as it was.
pub fn reservations_are_taken_by_bytes_written()
    ensures taken { (state : SetState) (shown : Shown) (other address : ℕ)
        → other ≢ hart_of shown → IsReserved (reserved_by state other) address
        → writes_byte state shown address ≡ true
        → reserved_by (set_after_row state shown) other ≡ None }
    ensures kept { (state : SetState) (shown : Shown) (other : ℕ) → other ≢ hart_of shown
        → ((address : ℕ) → IsReserved (reserved_by state other) address
        → writes_byte state shown address ≡ false)
        → slice_get (set_after_row state shown).core other ≡ slice_get state.core other }
{}

/// A hart's own row reserves by an LR that retires, the block of the LR's place, and releases by an
/// SC that retires, whether it stored or not. By any other instruction, by one that traps and of a
/// hart that halted, what is reserved stays. The hart goes on as it does alone over that memory.
pub fn own_rows_reserve_by_lr_and_release_by_sc()
    ensures own { (state : SetState) (shown : Shown) (core : Core)
        → slice_get state.core (hart_of shown) ≡ Some core
        → slice_get (set_after_row state shown).core (hart_of shown)
        ≡ Some (next_of core shown state.bytes) }
    ensures kept { (core : Core) (shown : Shown) (bytes : Bytes)
        → does is_lr core shown bytes ≡ false → does is_sc core shown bytes ≡ false
        → (next_of core shown bytes).reservation ≡ core.reservation }
    ensures reserved { (core : Core) (shown : Shown) (bytes : Bytes)
        → does is_lr core shown bytes ≡ true
        → ReservesByLr core shown bytes (next_of core shown bytes).reservation.block }
    ensures released { (core : Core) (shown : Shown) (bytes : Bytes)
        → does is_sc core shown bytes ≡ true
        → (next_of core shown bytes).reservation.block ≡ None }
{}

/// Over whole runs: what a hart has reserved after rows, where it had nothing reserved before them,
/// as at reset, it reserved by an LR among them; and since then no other hart wrote a byte of the
/// block, and no LR and no SC of the hart itself retired. What was so reserved is reserved still.
/// So an SC after the rows stores in such a block alone; what it writes besides are A and D in
/// entries of page tables.
pub fn stores_follow_their_reservation()
    ensures reset { (profile : CsrProfile) (pc : ℕ) (map : Map) (choices : Choices)
        → (core_at_reset_of profile pc map choices).reservation.block ≡ None }
    ensures reserved { (state : SetState) (rows : List Shown) (number : ℕ) (block : Block)
        → reserved_by state number ≡ None
        → reserved_by (after_set_rows state rows) number ≡ Some block
        → WasReservedBy state rows number block }
    ensures still { (state : SetState) (rows : List Shown) (number : ℕ) (block : Block)
        → WasReservedBy state rows number block
        → reserved_by (after_set_rows state rows) number ≡ Some block }
    ensures stores { (state : SetState) (rows : List Shown) (core : Core) (shown : Shown)
        → reserved_by state (hart_of shown) ≡ None
        → slice_get (after_set_rows state rows).core (hart_of shown) ≡ Some core
        → asks_for is_sc (request_of_row core shown (after_set_rows state rows).bytes) ≡ true
        → StoresAfterReserving state rows core shown }
{}
