//! What a step reads from memory, and what it is to write.

ghost use Rattle.std.specs.Prelude.{◌≡◌, ◌≤◌, ◌+◌, ◌++◌, [], length};
ghost use Rattle.hart_words.specs.declared.accesses.TheConstants.{MOST_WRITES};

use hart_words::{Seen, Sets, Wrote};

/// What a step read from memory, the entries of page tables that it sets, and what it stores, each
/// in their order. Memory gets what is set, and then what is stored, at the end of the step.
#[derive(Debug, Drop)]
pub struct Accesses {
    pub seen: Seen,
    pub sets: Sets,
    pub stores: Wrote,
}

impl Accesses {
    /// Nothing yet.
    pub fn nothing() -> Accesses
        ensures seen { result.seen ≡ [] }
        ensures sets { result.sets ≡ [] }
        ensures stores { result.stores ≡ [] }
    {
        Accesses {
            seen: Seen::empty(),
            sets: Sets::empty(),
            stores: Wrote::empty(),
        }
    }

    /// Puts what is set before what is stored: `stores` is then all that the step writes.
    pub fn put_sets_first(&mut self)
        requires { length self.old.sets + length self.old.stores ≤ MOST_WRITES }
        ensures seen { self.new.seen ≡ self.old.seen }
        ensures writes { self.new.stores ≡ self.old.sets ++ self.old.stores }
    {
        if self.sets.is_empty() {
            return;
        }
        let mut writes = Wrote::empty();
        writes.put_all(self.sets.as_slice());
        writes.put_all(self.stores.as_slice());
        self.stores = writes;
    }
}
