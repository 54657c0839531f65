//! What holds of the memory after a plain row.

ghost use Rattle.std.specs.Prelude.{◌≡◌, ◌<◌, ◌^◌, ℕ, true};
ghost use Rattle.hart_words.specs.Memory.{Bytes};
ghost use Rattle.hart_words.specs.Signals.{Shown};
ghost use Rattle.hart_step.specs.declared.state.Core.{Core};
ghost use Rattle.hart_step.specs.PlainRows.{memory_shown, shows_store, store_shown, FallsWhereShown};

/// After a store each byte of RAM is the one of its eight that falls there, if the mask has it, and
/// every other byte is as before.
#[tactic(auto, using(crate::proofs::ShownBytes::shown_at))]
pub fn stores_fall_where_shown()
    ensures { (core : Core) (shown : Shown) (bytes : Bytes) (address : ℕ)
        → shows_store shown ≡ true → (store_shown shown).place < 2 ^ 64
        → FallsWhereShown core.map.ram (store_shown shown) bytes (memory_shown core shown bytes)
        address }
{}
