//! The right by which a range is written.
ghost use Rattle.std.specs.Prelude.{◌≡◌, IsTrue};
ghost use Rattle.gt_model.specs.Permits.{is_of_frame, leads_to};
ghost use Rattle.gt_frames.specs.Frames.{permits_writing, covers};

use crate::FrameBytes;
use gt_entry::Entry;
use gt_types::{Dir, DomId, Range, Use};

/// The right by which a domain writes to a frame.
#[derive(Clone, Copy)]
pub enum WriteBasis {
    /// The writer owns the frame.
    Owned,
    /// The entry of the frame's owner permits the writer.
    Granted(Entry),
    /// The transitive entry `via`, of the domain `middle`, forwards the writer to the frame's owner, and `entry`,
    /// of the owner, permits `middle`.
    Forwarded {
        via: Entry,
        middle: DomId,
        entry: Entry,
    },
}

/// The writer, and the right by which it writes. A writ is a plain value that any caller can make. The writing
/// calls require that it covers the range written.
#[derive(Clone, Copy)]
pub struct Writ {
    pub writer: DomId,
    pub basis: WriteBasis,
}

/// One write to a frame: these bytes, starting at offset `off`, by this writ.
#[derive(Drop)]
pub struct WriteRecord {
    pub writ: Writ,
    pub off: u16,
    pub bytes: FrameBytes,
}

// Returns true if the entry grants this frame of its owner.
fn is_of_frame(entry: Entry, number: u64) -> bool
    ensures { result ≡ is_of_frame entry number }
{
    match entry {
        Entry::Page { frame, .. } | Entry::Sub { frame, .. } => frame == number,
        Entry::Invalid | Entry::Via { .. } => false,
    }
}

// Returns true if the entry leads to a grant of this domain.
fn leads_to(entry: Entry, owner: DomId) -> bool
    ensures { result ≡ leads_to entry owner }
{
    match entry {
        Entry::Via { dom2, .. } => dom2.0 == owner.0,
        _ => false,
    }
}

// Returns true if the entry permits the domain to write this range of this frame.
fn permits_writing(entry: Entry, dom: DomId, number: u64, range: Range) -> bool
    ensures { result ≡ permits_writing entry dom number range.off range.len }
{
    is_of_frame(entry, number) && entry.permits(dom, Dir::Write, Use::Copy, range)
}

fn is_domain(a: DomId, b: DomId) -> bool
    ensures { IsTrue result → a ≡ b }
{
    a.0 == b.0
}

// Returns true only if both entries are equal. It compares parts, and not by `==`, which is a call with both entries in
// memory. An invalid entry is of no writ, so it is not compared.
#[inline(always)]
fn is_entry(a: &Entry, b: &Entry) -> bool
    ensures { IsTrue result → a.now ≡ b.now }
{
    match (*a, *b) {
        (
            Entry::Page { dom, ro, frame },
            Entry::Page {
                dom: dom_b,
                ro: ro_b,
                frame: frame_b,
            },
        ) => frame == frame_b && is_domain(dom, dom_b) && ro == ro_b,
        (
            Entry::Sub {
                dom,
                ro,
                frame,
                off,
                len,
            },
            Entry::Sub {
                dom: dom_b,
                ro: ro_b,
                frame: frame_b,
                off: off_b,
                len: len_b,
            },
        ) => {
            frame == frame_b && is_domain(dom, dom_b) && ro == ro_b && off == off_b && len == len_b
        }
        (
            Entry::Via {
                dom,
                ro,
                dom2,
                gref,
            },
            Entry::Via {
                dom: dom_b,
                ro: ro_b,
                dom2: dom2_b,
                gref: gref_b,
            },
        ) => {
            is_domain(dom, dom_b) && ro == ro_b && is_domain(dom2, dom2_b) && gref.0 == gref_b.0
        }
        _ => false,
    }
}

#[inline(always)]
fn is_ground(a: &WriteBasis, b: &WriteBasis) -> bool
    ensures { IsTrue result → a.now ≡ b.now }
{
    match (a, b) {
        (WriteBasis::Owned, WriteBasis::Owned) => true,
        (WriteBasis::Granted(entry), WriteBasis::Granted(entry_b)) => is_entry(entry, entry_b),
        (
            WriteBasis::Forwarded { via, middle, entry },
            WriteBasis::Forwarded {
                via: via_b,
                middle: middle_b,
                entry: entry_b,
            },
        ) => is_entry(via, via_b) && is_domain(*middle, *middle_b) && is_entry(entry, entry_b),
        _ => false,
    }
}

impl Writ {
    /// Returns true only if both writs are equal. False proves nothing.
    #[inline(always)]
    pub(crate) fn equals(&self, other: &Writ) -> bool
        ensures { IsTrue result → self.now ≡ other.now }
    {
        is_domain(self.writer, other.writer) && is_ground(&self.basis, &other.basis)
    }

    /// Returns true if the writ gives the right to write this range of the owner's frame `number`. It does not check
    /// that the range ends inside the frame.
    pub fn covers(&self, owner: DomId, number: u64, range: Range) -> bool
        ensures { result ≡ covers self.now owner number range.off range.len }
    {
        match self.basis {
            WriteBasis::Owned => self.writer.0 == owner.0,
            WriteBasis::Granted(entry) => permits_writing(entry, self.writer, number, range),
            WriteBasis::Forwarded { via, middle, entry } => {
                via.forwards(self.writer, Dir::Write)
                    && leads_to(via, owner)
                    && permits_writing(entry, middle, number, range)
            }
        }
    }
}
