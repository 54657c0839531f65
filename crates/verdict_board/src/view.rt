//! What a seat has done.

ghost use Rattle.std.specs.Prelude.{ℕ, List};
ghost use Rattle.std.specs.Borrow.{ftrue};

use std::marker::Model;

/// What a seat has done. No value of it is made: it exists in proofs alone.
pub struct View {
    /// How many segments there are.
    pub ghost segments: { ℕ },
    /// How many seats were opened.
    pub ghost seats: { ℕ },
    /// The numbers of the seats that it stands for.
    pub ghost numbers: { List ℕ },
    /// What was drawn, as pairs of a seat's number and the number drawn.
    pub ghost draws: { List (ℕ × ℕ) },
    /// What was posted, as pairs of a seat's number and the segment.
    pub ghost posts: { List (ℕ × ℕ) },
    /// What looks were answered, as pairs of a seat's number and the answer.
    pub ghost looks: { List (ℕ × ℕ) },
    /// The least word that it has seen, by a look or a post; at first how many segments there are.
    pub ghost least: { ℕ },
}

impl Model for View {
    ghost also_owns = { λ _. ftrue };
}
