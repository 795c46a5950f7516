//! A reason, with its column and note.
use std::alloc::{AllocError, Global};

/// A note on a reason, at another line.
#[derive(Drop)]
pub struct ReasonNote {
    pub line: usize,
    pub column: usize,
    pub message: Vec<u8>,
}

/// The reason for a fault of a line: the column, the message, and perhaps a note. Lines and columns are counted from 1,
/// columns in bytes.
#[derive(Drop)]
pub struct Reason {
    pub column: usize,
    pub message: Vec<u8>,
    pub note: Option<ReasonNote>,
}

impl Reason {
    /// Makes a reason without a note.
    pub(crate) fn at(column: usize, message: Vec<u8>) -> Reason {
        Reason {
            column,
            message,
            note: None,
        }
    }

    /// Makes a reason that is about a whole line.
    pub fn of_line(alloc: Global, text: &str) -> Result<Reason, AllocError> {
        Ok(Reason::at(1, Vec::from_slice(alloc, text.as_bytes())?))
    }
}
