//! What holds of the machine after every list of events.

ghost use Rattle.std.specs.Prelude.{◌≡◌, ◌≤◌, ◌⊎◌, ◌↔◌, ◌+◌, ℕ, Contains, List, length};
ghost use Rattle.board_core.specs.declared.event.Event.{Event};
ghost use Rattle.board_core.specs.Machine.{machine_at_start, machine_after_events};
ghost use Rattle.board_core.specs.Sound.{ClaimAmong, IsSoundMachine, Looked};
ghost use Rattle.board_core.specs.Bags.{Has, Names, SameBag, times};

/// The numbers drawn are 0 to `next` less 1, each once, in order. `least` is the least of the
/// posts, or n. Each post is of a segment that its worker drew. A worker draws one number of n or
/// more at most.
pub fn machines_are_sound()
    ensures { (n : ℕ) (events : List Event)
        → IsSoundMachine n (machine_after_events (machine_at_start n) events) }
{}

/// `next` passes n by one at most for each worker that claims.
pub fn next_is_bounded()
    ensures { (n : ℕ) (events : List Event) (workers : List ℕ) → ClaimAmong workers events
        → (machine_after_events (machine_at_start n) events).next ≤ n + length workers }
{}

/// What a look answers is n, or a segment that was posted.
pub fn looks_are_posts()
    ensures { (n : ℕ) (events : List Event) (worker answer : ℕ) → Looked n events worker answer
        → (answer ≡ n) ⊎ Names (machine_after_events (machine_at_start n) events).posts answer }
{}

/// A pair that is counted in a list is one of its elements. Lists that weigh the same, however
/// weighed, are those in which each pair stands as often.
pub fn pairs_are_counted()
    ensures has { (pairs : List (ℕ × ℕ)) (pair : ℕ × ℕ) → Has pairs pair ↔ Contains pairs pair }
    ensures bags { (one other : List (ℕ × ℕ)) → SameBag one other
        ↔ ((pair : ℕ × ℕ) → times pair one ≡ times pair other) }
{}
