//! What holds of every text and every state.

ghost use Rattle.std.specs.Prelude.{◌≡◌, ◌≤◌, ℕ, List, Ok, length};
ghost use Rattle.hart_words.specs.declared.map.Map.{Map};
ghost use Rattle.hart_words.specs.declared.choices.Choices.{Choices};
ghost use Rattle.hart_words.specs.Memory.{Bytes};
ghost use Rattle.csr_file.specs.declared.profile.CsrProfile.{CsrProfile};
ghost use Rattle.hart_step.specs.declared.state.Core.{Core};
ghost use Rattle.state_text.specs.Laws.{IsSaved};
ghost use Rattle.state_text.specs.Texts.{saved_text, state_in};

/// A text that says a state of some harts is the text of that state: a state has one text.
pub fn states_have_one_text()
    ensures { (profile : CsrProfile) (map : Map) (choices : Choices) (harts : ℕ) (text : List ℕ)
        (cores : List Core) (bytes : Bytes) → 1 ≤ harts
        → state_in profile map choices harts text ≡ Ok (cores, bytes)
        → text ≡ saved_text cores bytes }
{}

/// The text of a state is read again as that state, with as many harts and the same platform.
pub fn texts_are_read_back()
    ensures { (profile : CsrProfile) (map : Map) (choices : Choices) (cores : List Core)
        (bytes : Bytes) → IsSaved profile map choices cores bytes
        → state_in profile map choices (length cores) (saved_text cores bytes) ≡ Ok (cores, bytes) }
{}
