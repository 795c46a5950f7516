//! The result of a call, in a layout that C reads.
ghost use Rattle.std.specs.Prelude.{◌≡◌, pos};
ghost use Rattle.gt_attached.specs.Encoding.{bare, encoded, field_number, followed_number, given, mapped, refusal};
ghost use Rattle.gt_attached.specs.Encoding.{released, writes};
ghost use Rattle.gt_attached.specs.Decoding.{AnswersAreReadBack};

use bitflags::Flags;
use gt_calls::Handle;
use gt_live::{CopyWords, Followed, LeftWord};
use gt_types::{Denial, Dir, DomId, Facts, Field, GrantRef, Size};

/// The name of a mapping: its handle, the domain that has it, and the number of its run.
#[derive(Clone, Copy)]
pub struct MappingName {
    pub handle: Handle,
    pub dom: DomId,
    pub run: u32,
}

/// A mapping: its name, and what is mapped: this frame of this owner, by this entry, for reading or for writing.
#[derive(Clone, Copy)]
pub struct NamedMapping {
    pub name: MappingName,
    pub owner: DomId,
    pub gref: GrantRef,
    pub frame: u64,
    pub dir: Dir,
}

/// What remains of a domain that has left its run or was reset: the number of its records that were lost, and the
/// number of its entries still in use.
#[derive(Clone, Copy)]
pub struct Departure {
    pub lost: u64,
    pub in_use: u64,
}

/// What was taken from a domain: the number of its records, and the number that were lost before.
#[derive(Clone, Copy)]
pub struct TakenCounts {
    pub records: u64,
    pub lost: u64,
}

/// The refusal of one map of several: the index of its request, starting at 0, and why it is refused.
#[derive(Clone, Copy)]
pub struct RefusedMap {
    pub index: u64,
    pub denial: Denial,
}

/// The result of a call.
#[derive(Clone, Copy)]
pub enum AttachedOutcome {
    /// Ok, without a value.
    Done,
    /// Ok: this mapping was added.
    Mapped(NamedMapping),
    /// Ok: the table has this many frames.
    Frames(u32),
    /// Ok: the table has this version.
    Version(u32),
    /// Ok: the table has this size.
    Size(Size),
    /// A rule refuses the call.
    Denied(Denial),
    /// The handle has no domain. The call was not made.
    NoDomain,
    /// The domain is in a copy. The call was not made.
    Busy,
    /// Allocation failed. Nothing has changed.
    NoMemory,
    /// The domain is not in a copy that could end.
    NoCopy,
    /// There is no such mapping, record or entry.
    Absent,
    /// Ok: the domain has left its run or was reset, and this remains.
    Left(Departure),
    /// Ok: its records were taken.
    Taken(TakenCounts),
    /// Ok: an entry followed the bytes of its guest, by this change.
    Followed(Followed),
    /// Ok: a mapping's pin was released, which left this control word in this entry.
    Released(LeftWord),
    /// Ok: a copy ended, which left these control words in the entries that it named.
    Ended(CopyWords),
    /// Ok: this is the reference that was searched for.
    Reference(GrantRef),
    /// Ok: this many mappings were added, one for each request.
    MappedAll(u64),
    /// A rule refuses one map of several. No mapping was added.
    RefusedAt(RefusedMap),
}

/// The result of a call, in a layout that C reads. A field without a meaning is 0.
#[repr(C)]
#[derive(Clone, Copy)]
pub struct EncodedAnswer {
    /// 0 if the call is Ok; 1 to 26, the number of the rule, if it is refused; or else one of [`NO_DOMAIN`], [`BUSY`],
    /// [`NO_MEMORY`], [`NO_COPY`] and [`ABSENT`]. The header for C adds 261, a null pointer; no answer has it.
    pub rule: u32,
    /// The status of `grant_table.h` (`GNTST_*`): 0 or negative.
    pub status: i32,
    /// The kind of the other fields: 0 none, 1 a handle, 2 a number of frames, 3 a version, 4 a size, 5 what the policy
    /// denies, 6 a field of an entry's bytes, 7 a header's word, 8 an entry's word, 9 what remains of a domain that
    /// left or was reset, 10 taken records, 11 what was done to an entry that followed its guest's bytes, 12 the word
    /// that an unmap left, 13 the words that a copy left, 14 a reference, 15 a number of mappings that were added.
    pub kind: u32,
    /// The reference of the entry whose word this carries, or of the entry that is mapped; or the reference found.
    pub gref: u32,
    /// The source type that the policy denies the permission, or the owner of the frame that is mapped.
    pub source: u32,
    /// The target type of the denied permission; or 1 for a mapping that may be written, else 0.
    pub target: u32,
    /// The word of the deciding look or exchange, the word that a release left, or the number of the mapped frame.
    pub word: u64,
    /// The serial of a handle, a number of frames, a version, the number of records that a domain had lost when it left
    /// or was reset, the number of records taken, the number of what was done to an entry that followed its guest's
    /// bytes, the word that the end of a copy left at its destination, or the number of mappings that were added. For a
    /// refused map of several it is 1.
    pub value: u64,
    /// The key of a handle, the maximum number of frames of a table, the number of entries still in use of a domain
    /// that left or was reset, the number of records lost before those taken, or the index of a refused map of several.
    pub more: u64,
    /// The denied permission, as its bit; the number of the field, starting at 1; or the number of the mapping's run.
    pub detail: u32,
    /// The domain of the header or entry whose word this carries, or the domain that has the mapping.
    pub dom: u32,
}

/// The `rule` of a call that was not made, since the handle has no domain.
pub const NO_DOMAIN: u32 = 256;

/// The `rule` of a call that was not made, since the domain is in a copy.
pub const BUSY: u32 = 257;

/// The `rule` of a call whose allocation failed.
pub const NO_MEMORY: u32 = 258;

/// The `rule` of the end of a copy if the domain is not in one.
pub const NO_COPY: u32 = 259;

/// The `rule` of a question about a mapping, a record or an entry that does not exist.
pub const ABSENT: u32 = 260;

const DONE: EncodedAnswer = EncodedAnswer {
    rule: 0,
    status: 0,
    kind: 0,
    dom: 0,
    gref: 0,
    source: 0,
    target: 0,
    detail: 0,
    word: 0,
    value: 0,
    more: 0,
};

// Returns the number of a field of an entry's bytes, starting at 1.
fn field_number(field: Field) -> u32
    ensures { result ≡ field_number field }
{
    match field {
        Field::Length => 1,
        Field::Kind => 2,
        Field::Reading => 3,
        Field::Writing => 4,
        Field::Pwt => 5,
        Field::Pcd => 6,
        Field::Pat => 7,
        Field::SubPage => 8,
        Field::Reserved => 9,
    }
}

// Returns the number of what was done to an entry that followed the bytes of its guest.
fn followed_number(followed: Followed) -> u64
    ensures { result ≡ followed_number followed }
{
    match followed {
        Followed::Same => 0,
        Followed::Demoted => 1,
        Followed::Promoted => 2,
        Followed::Withdrawn => 3,
        Followed::Granted => 4,
    }
}

// Makes a result that only has a rule.
fn by_rule(rule: u32) -> EncodedAnswer
    ensures { result ≡ bare rule (pos 0) }
{
    EncodedAnswer { rule, ..DONE }
}

// Makes the result of a refusal.
fn refusal(denial: Denial) -> EncodedAnswer
    ensures { result ≡ refusal denial }
{
    let bare = EncodedAnswer {
        rule: u32::from(denial.rule.number()),
        status: i32::from(denial.status.number()),
        ..DONE
    };
    match denial.facts {
        Facts::None => bare,
        Facts::Policy {
            source,
            target,
            perm,
        } => EncodedAnswer {
            kind: 5,
            source: u32::from(source.0),
            target: u32::from(target.0),
            detail: u32::from(perm.bits()),
            ..bare
        },
        Facts::Field(field) => EncodedAnswer {
            kind: 6,
            detail: field_number(field),
            ..bare
        },
        Facts::Header { dom, word } => EncodedAnswer {
            kind: 7,
            dom: u32::from(dom.0),
            word,
            ..bare
        },
        Facts::Entry { dom, gref, word } => EncodedAnswer {
            kind: 8,
            dom: u32::from(dom.0),
            gref: gref.0,
            word,
            ..bare
        },
    }
}

// Makes an Ok with a value.
fn given(kind: u32, value: u64, more: u64) -> EncodedAnswer
    ensures { result ≡ given kind value more }
{
    EncodedAnswer {
        kind,
        value,
        more,
        ..DONE
    }
}

/// Returns 1 for a mapping that may be written, 0 for one that may only be read.
#[inline(always)]
pub fn writes(dir: Dir) -> u32
    ensures { result ≡ writes dir }
{
    match dir {
        Dir::Read => 0,
        Dir::Write => 1,
    }
}

// Makes an Ok with a mapping and its name.
#[inline(always)]
fn mapped(made: NamedMapping) -> EncodedAnswer
    ensures { result ≡ mapped made }
{
    EncodedAnswer {
        kind: 1,
        dom: u32::from(made.name.dom.0),
        gref: made.gref.0,
        source: u32::from(made.owner.0),
        target: writes(made.dir),
        detail: made.name.run,
        word: made.frame,
        value: made.name.handle.serial,
        more: made.name.handle.key as u64,
        ..DONE
    }
}

// Makes an Ok with the word that a release left in an entry.
#[inline(always)]
fn released(left: LeftWord) -> EncodedAnswer
    ensures { result ≡ released left }
{
    EncodedAnswer {
        kind: 12,
        dom: u32::from(left.dom.0),
        gref: left.gref.0,
        word: left.word,
        ..DONE
    }
}

impl EncodedAnswer {
    ghost use Rattle.std.specs.Prelude.{◌≡◌};
    ghost use Rattle.gt_attached.specs.Encoding.{encoded};

    /// Encodes the result of a call.
    #[inline(always)]
    pub fn of(outcome: AttachedOutcome) -> EncodedAnswer
        ensures { result ≡ encoded outcome }
    {
        match outcome {
            AttachedOutcome::Done => DONE,
            AttachedOutcome::Mapped(made) => mapped(made),
            AttachedOutcome::Frames(frames) => given(2, u64::from(frames), 0),
            AttachedOutcome::Version(version) => given(3, u64::from(version), 0),
            AttachedOutcome::Size(size) => given(4, u64::from(size.frames), u64::from(size.max)),
            AttachedOutcome::Denied(denial) => refusal(denial),
            AttachedOutcome::NoDomain => by_rule(NO_DOMAIN),
            AttachedOutcome::Busy => by_rule(BUSY),
            AttachedOutcome::NoMemory => by_rule(NO_MEMORY),
            AttachedOutcome::NoCopy => by_rule(NO_COPY),
            AttachedOutcome::Absent => by_rule(ABSENT),
            AttachedOutcome::Left(remains) => given(9, remains.lost, remains.in_use),
            AttachedOutcome::Taken(taken) => given(10, taken.records, taken.lost),
            AttachedOutcome::Followed(followed) => given(11, followed_number(followed), 0),
            AttachedOutcome::Released(left) => released(left),
            AttachedOutcome::Ended(left) => EncodedAnswer {
                kind: 13,
                word: left.source,
                value: left.dest,
                ..DONE
            },
            AttachedOutcome::Reference(found) => EncodedAnswer {
                kind: 14,
                gref: found.0,
                ..DONE
            },
            AttachedOutcome::MappedAll(count) => given(15, count, 0),
            AttachedOutcome::RefusedAt(refused) => EncodedAnswer {
                value: 1,
                more: refused.index,
                ..refusal(refused.denial)
            },
        }
    }
}

/// A law: an encoded result decodes to the same result. So no two results have the same encoding.
pub fn answers_are_read_back()
    ensures { AnswersAreReadBack }
{}
