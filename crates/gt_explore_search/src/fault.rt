//! Faults of a search.
use gt_types::Memory;
use std::alloc::{AllocError, AllocFailed};

/// The reason that a search did not finish.
#[derive(Clone, Copy)]
pub enum SearchFault {
    /// An allocation failed.
    Memory,
    /// There are more states than the limit, a number is too large for its field, or no state or part has it.
    States,
    /// A run returned to a state.
    Circle,
}

impl From<AllocError> for SearchFault {
    fn from(_error: AllocError) -> SearchFault {
        SearchFault::Memory
    }
}

impl<T: Drop> From<AllocFailed<T>> for SearchFault {
    fn from(_error: AllocFailed<T>) -> SearchFault {
        SearchFault::Memory
    }
}

impl From<Memory> for SearchFault {
    fn from(_error: Memory) -> SearchFault {
        SearchFault::Memory
    }
}
