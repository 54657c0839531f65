//! What holds of memories, of what is read from them, and of the table of signals.

ghost use Rattle.std.specs.Prelude.{◌≡◌, ℕ, ◌+◌, ◌≤◌, ◌%◌, ◌^◌, ◌⊎◌};
ghost use Rattle.hart_words.specs.Memory.{AgreeOn, Bytes, number_at, bytes_after_store};
ghost use Rattle.hart_words.specs.Actions.{Action};
ghost use Rattle.hart_words.specs.Signals.{StandsAtItsIndex};
ghost use Rattle.hart_words.specs.declared.signal.Signal.{Signal};

/// Every signal stands in the table, at its index.
pub fn signals_stand_at_their_index()
    ensures { (signal : Signal) → StandsAtItsIndex signal }
{}

/// What was stored is read again, as far as its bytes go.
pub fn read_after_store()
    ensures { (bytes : Bytes) (pa len value : ℕ)
        → number_at (bytes_after_store pa len value bytes) pa len ≡ value % 256 ^ len }
{}

/// What stands apart from a store is read as before.
pub fn read_apart_from_store()
    ensures { (bytes : Bytes) (at size value pa len : ℕ) → (pa + len ≤ at) ⊎ (at + size ≤ pa)
        → number_at (bytes_after_store at size value bytes) pa len ≡ number_at bytes pa len }
{}

/// Memories that agree on what an action reads give the same value, the same reads and the same
/// writes.
pub fn actions_are_framed<T>()
    ensures { (action : Action T) (one other : Bytes) → AgreeOn (action.run one).reads one other
        → action.run other ≡ action.run one }
{}
