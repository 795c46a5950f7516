//! Entries as words.
ghost use Rattle.std.specs.Prelude.{◌≡◌};
ghost use Rattle.gt_model.specs.Spelling.{first_body, second_body, entry_of};

use crate::{Control, Entry, EntryKind};
use gt_types::{DomId, GrantRef};

impl Entry {
    /// Returns the first body word: the frame number, or the next domain and its reference. 0 for an invalid entry.
    pub fn first_body(self) -> u64
        ensures { result ≡ first_body self }
    {
        match self {
            Entry::Invalid => 0,
            Entry::Page { frame, .. } | Entry::Sub { frame, .. } => frame,
            Entry::Via { dom2, gref, .. } => u64::from(dom2.0) + u64::from(gref.0) * 65_536,
        }
    }

    /// Returns the second body word: the offset and the length of a sub-page. 0 for other entries.
    pub fn second_body(self) -> u64
        ensures { result ≡ second_body self }
    {
        match self {
            Entry::Sub { off, len, .. } => u64::from(off) + u64::from(len) * 65_536,
            _ => 0,
        }
    }

    /// Returns the entry that a control and two body words encode. The second body word counts only for a sub-page.
    pub fn spelled(control: Control, first: u64, second: u64) -> Entry
        ensures { result ≡ entry_of control first second }
    {
        let (dom, ro) = (control.dom, control.ro);
        match control.kind {
            EntryKind::Invalid => Entry::Invalid,
            EntryKind::Page => Entry::Page {
                dom,
                ro,
                frame: first,
            },
            EntryKind::Sub => Entry::Sub {
                dom,
                ro,
                frame: first,
                off: (second % 65_536) as u16,
                len: (second / 65_536 % 65_536) as u16,
            },
            EntryKind::Via => Entry::Via {
                dom,
                ro,
                dom2: DomId((first % 65_536) as u16),
                gref: GrantRef((first / 65_536 % 4_294_967_296) as u32),
            },
        }
    }
}
