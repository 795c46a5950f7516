//! What an owner does to an entry, and the two words of its body.
use crate::entry::Entry;

/// One of the two body words of an entry.
#[derive(Clone, Copy, Debug, PartialEq, Eq)]
pub enum BodyWord {
    /// The frame number, or the grant that a transitive entry leads to.
    First,
    /// The offset and length of a sub-page.
    Second,
}

/// What an owner's exchange of a control word does to its entry.
#[derive(Clone, Copy, Debug, PartialEq, Eq)]
pub enum EntryChange {
    /// The entry becomes this one, at the next generation.
    Publish(Entry),
    /// The entry becomes invalid. This succeeds only from a word without pins, and keeps the generation.
    Revoke,
    /// The entry becomes invalid, and keeps its pins and its generation.
    Withdraw,
    /// The entry becomes read-only, at the next generation.
    Demote,
    /// The entry becomes writable, at the next generation.
    Promote,
}

impl EntryChange {
    ghost use Rattle.std.specs.Prelude.{◌≡◌};
    ghost use Rattle.gt_model.specs.Entries.{changed_entry};

    /// Returns the entry that the change makes of this one.
    pub fn applied(self, entry: Entry) -> Entry
        ensures { result ≡ changed_entry self entry }
    {
        match self {
            EntryChange::Publish(new) => new,
            EntryChange::Revoke | EntryChange::Withdraw => Entry::Invalid,
            EntryChange::Demote => entry.with_ro(true),
            EntryChange::Promote => entry.with_ro(false),
        }
    }
}
