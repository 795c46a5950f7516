//! The options of `entries`.
use gt_types::DomId;

/// The options of `entries`.
#[derive(Clone, Copy)]
pub struct DumpOptions {
    /// The version of the table, 1 or 2. With any other version each entry is refused by its length.
    pub version: u8,
    /// Whether the dump is hexadecimal text.
    pub hex: bool,
    /// Whether entries whose bytes are all zero are printed too.
    pub all: bool,
    /// If given, the lines are those of a script, whose calls this domain makes.
    pub script: Option<DomId>,
}
