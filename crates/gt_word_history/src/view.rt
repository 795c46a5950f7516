//! What a seat knows, as plain data for contracts. No value of these types exists at run time.
use gt_entry::{BodyWord, Entry, EntryChange};
use gt_frames::{FrameBytes, WriteRecord};
use gt_types::{Dir, DomId};
use std::collections::LinkedList;

/// The state of an entry from one change by its owner to the next.
#[derive(Clone, Copy)]
pub struct EntryRecord {
    pub generation: u64,
    pub entry: Entry,
}

/// A step on the words of an entry.
#[derive(Clone, Copy)]
pub enum EntryStep {
    /// A load of the control word, with the word seen.
    Looked(u64),
    /// A load of a body word, with the value seen.
    ReadBody(BodyWord, u64),
    /// A taken pin, with the word expected and the record of the entry.
    Pinned {
        dir: Dir,
        expected: u64,
        record: EntryRecord,
    },
    /// A missed pin: the word found is not the one expected, and the one desired was not stored.
    PinMissed {
        dir: Dir,
        expected: u64,
        desired: u64,
        found: u64,
    },
    /// A release of a pin of this kind and generation.
    Unpinned {
        dir: Dir,
        generation: u64,
    },
    /// A store of a body word by the owner.
    StoredBody(BodyWord, u64),
    /// A taken exchange of the control word by the owner, with the word expected, the word stored and the record that
    /// it encodes.
    Changed {
        change: EntryChange,
        expected: u64,
        stored: u64,
        record: EntryRecord,
    },
    /// A missed exchange of the owner: the word found is not the one expected, and the one desired was not stored.
    ChangeMissed {
        change: EntryChange,
        expected: u64,
        desired: u64,
        found: u64,
    },
}

/// A step on the header word of a domain.
#[derive(Clone, Copy)]
pub enum HeaderStep {
    /// A load, with the word seen.
    Looked(u64),
    /// A store by the owner.
    Stored(u64),
}

/// An access to a frame. It takes place when the frame's lock is freed.
pub enum FrameStep {
    /// A read of bytes, starting at this offset.
    Read(u16, FrameBytes),
    /// A write of a range.
    Wrote(WriteRecord),
    /// A write of a range with the bytes of another frame: the position of that frame's owner, its number, and the
    /// offset of the bytes there.
    Copied(u64, u64, u16, WriteRecord),
}

/// A step on a flag, on which domains wait for one another.
#[derive(Clone, Copy)]
pub enum FlagStep {
    /// A store that raises the flag.
    Raised,
    /// A load that found the flag raised.
    Passed,
}

/// A step on an entry, a header or a frame: the position of its domain, then the reference or the frame's number. Or a
/// step on the flag of this number: flags belong to the run and not to a domain.
pub enum SeatStep {
    Entry(u64, u64, EntryStep),
    Header(u64, HeaderStep),
    Frame(u64, u64, FrameStep),
    Flag(u64, FlagStep),
}

/// The purpose of an exchange of a control word.
#[derive(Clone, Copy)]
pub enum Purpose {
    Pin(Dir),
    Change(EntryChange),
}

/// What a seat knows: its position in the run, what the run began with, and its own steps, the last first.
pub struct View {
    pub position: u64,
    /// The generation that all entries began with.
    pub first: u64,
    /// The headers that the domains began with.
    pub headers: LinkedList<u64>,
    /// The domains of the run, in order.
    pub ids: LinkedList<DomId>,
    /// The number of seats that this one has dealt, its own among them.
    pub dealt: u64,
    pub steps: LinkedList<SeatStep>,
    /// The steps of all seats up to the seat's own last one, each with the position of its seat, the last first.
    pub past: LinkedList<(u64, SeatStep)>,
}

/// The view of a seat, and the views of the seats that it took in. `gone` is true if another seat took this one in.
pub struct Outlook {
    pub own: View,
    pub taken: LinkedList<View>,
    pub gone: bool,
}
