//! The report of a program about readers and writers that it let fail.
use std::alloc::{AllocError, Global};

/// Returns a line about the failures after each count of bytes: that each failure was reported, or the first count
/// after which one was not.
pub fn failing_line(
    alloc: Global,
    what: &str,
    untold: Option<usize>,
) -> Result<String, AllocError> {
    match untold {
        None => format!(in alloc; "each {what} that fails is told\n"),
        Some(left) => format!(in alloc; "a {what} that fails after {left} bytes is not told\n"),
    }
}
