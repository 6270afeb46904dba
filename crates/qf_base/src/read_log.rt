// What the reads of a desk answered: a history that only proofs read. It takes no memory, and its methods do nothing at
// run time.
ghost use Rattle.std.specs.Prelude.{◌≡◌, ℕ, List, [], ◌∷◌, ◌++◌};
ghost use Rattle.std.specs.Borrow.{ftrue};

use std::marker::Model;

// Each name with its bytes, in order.
#[derive(Drop)]
pub(crate) struct ReadLog {
    pub ghost items: { List (List ℕ × List ℕ) },
}

impl Model for ReadLog {
    ghost also_owns = { λ _. ftrue };
}

impl ReadLog {
    pub(crate) fn new() -> ReadLog
        ensures { result.items ≡ [] }
    {
        ReadLog {}
    }

    // One more read.
    pub(crate) fn note(&mut self, _name: &[u8], _bytes: &[u8])
        ensures { self.new.items ≡ self.old.items ++ (_name.now, _bytes.now) ∷ [] }
    {}
}
