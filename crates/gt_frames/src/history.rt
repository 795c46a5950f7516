//! A list of pairs that only proofs read.
ghost use Rattle.std.specs.Prelude.{◌≡◌, List, [], ◌∷◌, ◌++◌};
ghost use Rattle.std.specs.Borrow.{ftrue};

use std::marker::{Model, PhantomData};

/// A list of pairs, which takes no memory. A clause reads the pairs as `items`, the oldest first.
#[derive(Drop)]
pub struct History<A, B> {
    of: PhantomData<(A, B)>,
    pub ghost items: { List (A × B) },
}

impl<A, B> Model for History<A, B> {
    ghost also_owns = { λ _. ftrue };
}

// A history owns nothing, so it may go to another thread.
unsafe impl<A, B> Send for History<A, B> {}

impl<A, B> History<A, B> {
    /// Returns the empty history.
    pub fn new() -> History<A, B>
        ensures { result.items ≡ [] }
    {
        History { of: PhantomData }
    }

    /// Returns this history with one more pair at its end.
    pub fn and(&self, first: &A, second: &B) -> History<A, B>
        ensures { result.items ≡ self.now.items ++ (first.now, second.now) ∷ [] }
    {
        History { of: PhantomData }
    }
}
