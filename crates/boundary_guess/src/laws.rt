//! What holds of the guesses.

ghost use Rattle.std.specs.Prelude.{◌≡◌, ◌<◌, ◌^◌, ℕ, List, [], ◌∷◌, ◌++◌};
ghost use Rattle.std.specs.List.{All};
ghost use Rattle.hart_words.specs.declared.choices.Choices.{Choices};
ghost use Rattle.hart_words.specs.declared.map.Map.{Map};
ghost use Rattle.hart_words.specs.Memory.{Bytes};
ghost use Rattle.rvfi_rows.specs.Columns.{TraceColumns};
ghost use Rattle.rvfi_rows.specs.Rows.{rows_of};
ghost use Rattle.hart_step.specs.Cores.{IsSound};
ghost use Rattle.hart_step.specs.HartSets.{SetHoldsWords, SetState};
ghost use Rattle.boundary_guess.specs.Pieces.{lines_of_pieces};
ghost use Rattle.boundary_guess.specs.Guesses.{guess_after, guesses_of};
ghost use Rattle.csr_file.specs.declared.profile.CsrProfile.{CsrProfile};
ghost use Rattle.boundary_guess.specs.Truth.{Agree, SetNoMarks, ShowChanges, StaysSound, true_state_after, state_at_reset, true_starts};

/// The values of harts at reset are words, and over a memory of bytes the steps by a trace's rows
/// keep that, and keep each hart sound, whatever the implementation chooses.
pub fn states_hold_words()
    ensures reset { (profile : CsrProfile) (harts pc : ℕ) (map : Map) (choices : Choices)
        (bytes : Bytes) → pc < 2 ^ 64 → ((address : ℕ) → bytes address < 2 ^ 8)
        → SetHoldsWords (state_at_reset profile harts pc map choices bytes) }
    ensures rows { (state : SetState) (columns : TraceColumns) (lines : List (List ℕ))
        → All IsSound state.core → SetHoldsWords state → StaysSound state (rows_of columns lines) }
{}

/// Where A and D that are clear are page faults, rows agree with the harts, and each valid one shows
/// `insn`, `trap`, `rd_addr`, `rd_wdata` and `pc_wdata`, the guess after them is the true state;
/// and where the rows of all segments but the last are such, the guess before each segment is.
/// Where a hart sets A and D itself, no row shows the entries that it sets.
pub fn guesses_are_true_where_rows_show_changes()
    ensures rows { (state : SetState) (columns : TraceColumns) (lines : List (List ℕ))
        → All IsSound state.core → SetHoldsWords state → SetNoMarks state.core
        → Agree state (rows_of columns lines) → ShowChanges (rows_of columns lines)
        → guess_after state (rows_of columns lines)
        ≡ true_state_after state (rows_of columns lines) }
    ensures segments { (state : SetState) (columns : TraceColumns)
        (segments : List (List (List ℕ))) (last : List (List ℕ))
        → All IsSound state.core → SetHoldsWords state → SetNoMarks state.core
        → Agree state (rows_of columns (lines_of_pieces segments))
        → ShowChanges (rows_of columns (lines_of_pieces segments))
        → guesses_of state columns (segments ++ last ∷ [])
        ≡ true_starts state columns (segments ++ last ∷ []) }
{}
