//! Handles of mappings.

/// The name of a value. Its serial is never given again; its key is used again after the value was taken.
#[derive(Clone, Copy, Debug, PartialEq, Eq)]
pub struct Handle {
    pub serial: u64,
    pub key: usize,
}
