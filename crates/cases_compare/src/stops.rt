//! What ends a comparison without a result.
use gt_types::Memory;
use std::alloc::AllocError;

/// What ends a comparison without a result.
#[derive(Clone, Copy)]
pub enum Stop {
    /// An allocation failed, or all tries of a call did.
    Memory,
    /// The flood does not hold the memory back.
    NotRefused,
    /// A script can't be parsed.
    Fault,
    /// A line of a script is not a whole call.
    NoCall,
    /// A line of a script, or its head, names no domain.
    NoDomain,
    /// The core takes no call of a domain, or does not end one.
    Stuck,
    /// The core or the monitor does not start.
    NotStarted,
    /// The script can't be played.
    NotPlayed,
}

impl Stop {
    /// Returns a text that names it.
    pub fn text(self) -> &'static str {
        match self {
            Stop::Memory => "memory",
            Stop::NotRefused => "memory is not refused",
            Stop::Fault => "a script has a fault",
            Stop::NoCall => "a line is not a whole call",
            Stop::NoDomain => "no such domain",
            Stop::Stuck => "a call of the core does not begin or end",
            Stop::NotStarted => "the core or the monitor does not start",
            Stop::NotPlayed => "the script is not played",
        }
    }
}

impl From<AllocError> for Stop {
    fn from(_error: AllocError) -> Stop {
        Stop::Memory
    }
}

impl From<Memory> for Stop {
    fn from(_error: Memory) -> Stop {
        Stop::Memory
    }
}
