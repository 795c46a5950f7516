//! The watch over a search.

/// Watches a search, and may end it. A search that takes long shows by its watch how far it is.
pub trait SearchWatch {
    /// Returns whether the search ends here, as at its limit of states. It has met this number of states. A search asks
    /// before each turn that it tries.
    fn ends(&mut self, states: usize) -> bool;
}

/// Lets each search go to its end.
#[derive(Clone, Copy)]
pub struct Unwatched;

impl SearchWatch for Unwatched {
    fn ends(&mut self, _states: usize) -> bool {
        false
    }
}
