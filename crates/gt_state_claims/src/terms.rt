//! Terms: what an entry must show.
ghost use Rattle.std.specs.Prelude.{◌≡◌};
ghost use Rattle.gt_state_claims.specs.Claims.{entry_number, is_test_met, is_test_met_by, mode_shown, number_shown};
ghost use Rattle.gt_state_claims.specs.Claims.{compares, is_mode, page_number, shown_kind, sub_number, via_number};

use gt_core::EntryView;
use gt_model::{Entry, EntryKind};
use gt_types::{DomId, GrantRef};

/// A number that `show` prints of an entry.
#[derive(Clone, Copy)]
pub enum EntryField {
    /// `grantee`: the domain after the kind.
    Grantee,
    /// `frame`: the frame of a page or a sub-page.
    Frame,
    /// `off`: the first byte of a sub-page.
    Offset,
    /// `len`: the bytes of a sub-page.
    Length,
    /// `to`: the domain of the entry after a transitive one.
    Next,
    /// `ref`: the reference of the entry after a transitive one.
    NextReference,
    /// `gen`: the generation.
    Generation,
    /// `reads`: the live read pins.
    Reads,
    /// `writes`: the live write pins.
    Writes,
}

/// How a number that is shown compares with that of a test.
#[derive(Clone, Copy)]
pub enum Comparison {
    Equal,
    Less,
    Greater,
}

/// What an entry must show. An entry that shows no mode, or not the field, does not meet a test of it.
#[derive(Clone, Copy)]
pub enum EntryTest {
    /// `none`: the reference is beyond the table.
    Missing,
    /// `invalid`, `page`, `sub` or `via`.
    Kind(EntryKind),
    /// `ro` if true, and `rw` if false.
    ReadOnly(bool),
    /// `FIELD=NUMBER`, `FIELD<NUMBER` or `FIELD>NUMBER`.
    Number {
        field: EntryField,
        comparison: Comparison,
        number: u64,
    },
}

/// A term of a claim: an entry, by its domain and its reference, and what it must show.
#[derive(Clone, Copy)]
pub struct StateTerm {
    /// The entry must not show it.
    pub denied: bool,
    pub dom: DomId,
    pub gref: GrantRef,
    pub test: EntryTest,
}

fn shown_kind(entry: Entry) -> EntryKind
    ensures { result ≡ shown_kind entry }
{
    match entry {
        Entry::Invalid => EntryKind::Invalid,
        Entry::Page { .. } => EntryKind::Page,
        Entry::Sub { .. } => EntryKind::Sub,
        Entry::Via { .. } => EntryKind::Via,
    }
}

fn is_mode(mode: bool, read_only: bool) -> bool
    ensures { result ≡ is_mode mode read_only }
{
    if mode { read_only } else { !read_only }
}

// Returns whether an entry shows this mode.
fn shows_mode(entry: Entry, read_only: bool) -> bool
    ensures { result ≡ mode_shown entry read_only }
{
    !entry.is_invalid() && is_mode(entry.is_read_only(), read_only)
}

fn page_number(field: EntryField, dom: DomId, frame: u64) -> Option<u64>
    ensures { result ≡ page_number field dom frame }
{
    match field {
        EntryField::Grantee => Some(u64::from(dom.0)),
        EntryField::Frame => Some(frame),
        _ => None,
    }
}

fn sub_number(field: EntryField, dom: DomId, frame: u64, off: u16, len: u16) -> Option<u64>
    ensures { result ≡ sub_number field dom frame off len }
{
    match field {
        EntryField::Offset => Some(u64::from(off)),
        EntryField::Length => Some(u64::from(len)),
        _ => page_number(field, dom, frame),
    }
}

fn via_number(field: EntryField, dom: DomId, next: DomId, gref: GrantRef) -> Option<u64>
    ensures { result ≡ via_number field dom next gref }
{
    match field {
        EntryField::Grantee => Some(u64::from(dom.0)),
        EntryField::Next => Some(u64::from(next.0)),
        EntryField::NextReference => Some(u64::from(gref.0)),
        _ => None,
    }
}

fn entry_number(field: EntryField, entry: Entry) -> Option<u64>
    ensures { result ≡ entry_number field entry }
{
    match entry {
        Entry::Invalid => None,
        Entry::Page { dom, frame, .. } => page_number(field, dom, frame),
        Entry::Sub {
            dom,
            frame,
            off,
            len,
            ..
        } => sub_number(field, dom, frame, off, len),
        Entry::Via {
            dom,
            dom2,
            gref,
            ..
        } => via_number(field, dom, dom2, gref),
    }
}

// Returns the number of the field, if the entry shows it.
fn number_shown(field: EntryField, shown: EntryView) -> Option<u64>
    ensures { result ≡ number_shown field shown }
{
    match field {
        EntryField::Generation => Some(u64::from(shown.generation)),
        EntryField::Reads => Some(u64::from(shown.reads)),
        EntryField::Writes => Some(u64::from(shown.writes)),
        _ => entry_number(field, shown.entry),
    }
}

impl Comparison {
    // Returns whether a number that may be shown compares so with this one.
    fn is_met(self, shown: Option<u64>, number: u64) -> bool
        ensures { result ≡ compares self shown number }
    {
        match (self, shown) {
            (_, None) => false,
            (Comparison::Equal, Some(shown)) => shown == number,
            (Comparison::Less, Some(shown)) => shown < number,
            (Comparison::Greater, Some(shown)) => shown > number,
        }
    }
}

impl EntryTest {
    // Returns whether an entry that shows this meets the test.
    fn is_met_by(self, shown: EntryView) -> bool
        ensures { result ≡ is_test_met_by self shown }
    {
        match self {
            EntryTest::Missing => false,
            EntryTest::Kind(kind) => shown_kind(shown.entry) == kind,
            EntryTest::ReadOnly(read_only) => shows_mode(shown.entry, read_only),
            EntryTest::Number {
                field,
                comparison,
                number,
            } => comparison.is_met(number_shown(field, shown), number),
        }
    }

    /// Returns whether what is shown of an entry meets the test. None is shown beyond the table.
    pub fn is_met(self, shown: Option<EntryView>) -> bool
        ensures { result ≡ is_test_met self shown }
    {
        match shown {
            Some(shown) => self.is_met_by(shown),
            None => matches!(self, EntryTest::Missing),
        }
    }
}
