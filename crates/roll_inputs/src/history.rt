//! All words that a player ever confirmed, for proofs alone: a queue keeps only the last ones.
ghost use Rattle.std.specs.Prelude.{◌≡◌, List, ℕ, [], ◌∷◌, ◌++◌};
ghost use Rattle.std.specs.Borrow.{ftrue};

use std::marker::Model;

/// It takes no memory, and its methods do nothing at run time.
#[derive(Drop)]
pub(crate) struct History {
    pub(crate) ghost words: { List ℕ },
}

impl Model for History {
    ghost also_owns = { λ _. ftrue };
}

// It owns nothing.
unsafe impl Send for History {}

impl History {
    pub(crate) fn new() -> History
        ensures { result.words ≡ [] }
    {
        History {}
    }

    pub(crate) fn and(&self, _word: &u32) -> History
        ensures { result.words ≡ self.now.words ++ _word.now ∷ [] }
    {
        History {}
    }
}
