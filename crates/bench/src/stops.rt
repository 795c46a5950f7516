//! What ends a benchmark without a result.
use gt_types::{Memory, StartFault};
use std::alloc::{AllocError, AllocFailed};

/// What ends a benchmark without a result.
#[derive(Clone, Copy)]
pub(crate) enum Stop {
    /// An allocation failed.
    Memory,
    /// The words of the command line name no benchmark.
    Words,
    /// A word is not the number that is wanted there.
    Number,
    /// A load does not have this number of threads, or its run this number of domains.
    Extent,
    /// A word names no recording of calls.
    Audit,
    /// The policy can't be parsed.
    Policy,
    /// The run does not start.
    NotStarted,
    /// An entry can't be granted.
    NotGranted,
}

impl Stop {
    /// Returns a text that names it.
    pub(crate) fn text(self) -> &'static str {
        match self {
            Stop::Memory => "memory",
            Stop::Words => {
                "wanted: policy WORK CLASS COUNT, frames WORK COUNT, words LOAD THREADS ROUNDS [DOMAINS], live LOAD THREADS ROUNDS .."
            }
            Stop::Number => "a word is not a number",
            Stop::Extent => "threads: 1 to 4, domains: 6 to 64",
            Stop::Audit => "AUDIT is on, ahead, taken or off",
            Stop::Policy => "the policy can't be parsed",
            Stop::NotStarted => "the run does not start",
            Stop::NotGranted => "an entry can't be granted",
        }
    }
}

impl From<AllocError> for Stop {
    fn from(_error: AllocError) -> Stop {
        Stop::Memory
    }
}

impl<T: Drop> From<AllocFailed<T>> for Stop {
    fn from(_error: AllocFailed<T>) -> Stop {
        Stop::Memory
    }
}

impl From<Memory> for Stop {
    fn from(_error: Memory) -> Stop {
        Stop::Memory
    }
}

impl From<StartFault> for Stop {
    fn from(_error: StartFault) -> Stop {
        Stop::NotStarted
    }
}
