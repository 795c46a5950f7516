//! The layout of the words.
use gt_types::TABLE_ENTRIES;

/// The words from one entry to the next. Three of them are used, so neighbours share no cache line.
pub const ENTRY_WORDS: usize = 8;

/// The rows of `ENTRY_WORDS` words of a domain: one for its header, and one for each entry.
pub const DOMAIN_ROWS: usize = TABLE_ENTRIES as usize + 1;

/// The words of a domain.
pub const DOMAIN_WORDS: usize = DOMAIN_ROWS * ENTRY_WORDS;

/// An entry: the position of its domain in the run, and its reference.
#[derive(Clone, Copy)]
pub struct EntryAt {
    pub position: usize,
    pub gref: usize,
}
