//! A record in the form in which it is kept: 48 bytes, half the size of a [`Record`].
ghost use Rattle.std.specs.Prelude.{◌≡◌};
ghost use Rattle.gt_audit.specs.Compact.{FitsCall, FitsReply, HasCall, HasReply};
ghost use Rattle.gt_audit.specs.Compact.{called, facts_of, field_at, replied};
ghost use Rattle.gt_audit.specs.declared.record.Hypercall.TheVariants.{Copy};
ghost use Rattle.gt_audit.specs.declared.record.Reply.TheVariants.{Denied};

use crate::record::{Hypercall, Record, Reply};
use bitflags::Flags;
use gt_types::{Denial, DomId, End, Facts, Field, GrantRef, Perms, Rule, Size, Status, TypeId};
use std::marker::Model;

// The kind of a request, without its numbers.
#[derive(Clone, Copy)]
enum CallKind {
    Map,
    Unmap,
    UnmapOfNothing,
    Copy,
    QuerySize,
    GetVersion,
    SetVersion,
    SetupTable,
}

// The kind of an answer and of the facts of a refusal, without the numbers.
#[derive(Clone, Copy)]
enum ReplyKind {
    Done,
    Frames,
    Size,
    Version,
    Refused,
    ByPolicy,
    ForField,
    ForHeader,
    ForEntry,
}

// The parts of a record. A number that its call or its answer doesn't have is 0.
#[derive(Clone, Copy)]
struct Packed {
    // The frame or the reference that a copy reads; an entry's reference; the version or the frames requested.
    source: u64,
    // The frame or the reference that a copy writes; the flags of a map.
    dest: u64,
    // The word, the field or the permission among the facts of a refusal; the frames, the version or the maximum
    // size in an answer.
    word: u64,
    // The reference or the target's type among the facts of a refusal; the present size in an answer.
    found: u32,
    caller: u16,
    // The domain that the call names; of a copy, that of the source.
    dom: u16,
    dest_dom: u16,
    source_off: u16,
    dest_off: u16,
    len: u16,
    flags: u16,
    // The domain or the source's type among the facts of a refusal.
    of: u16,
    asked: CallKind,
    answered: ReplyKind,
    rule: Rule,
    status: Status,
}

const _: () = prove!(size_of::<Packed>() == 48);

const BLANK: Packed = Packed {
    source: 0,
    dest: 0,
    word: 0,
    found: 0,
    caller: 0,
    dom: 0,
    dest_dom: 0,
    source_off: 0,
    dest_off: 0,
    len: 0,
    flags: 0,
    of: 0,
    asked: CallKind::UnmapOfNothing,
    answered: ReplyKind::Done,
    rule: Rule::N1,
    status: Status::GeneralError,
};

fn field_at(number: u64) -> Field
    ensures { result ≡ field_at number }
{
    match number {
        0 => Field::Length,
        1 => Field::Kind,
        2 => Field::Reading,
        3 => Field::Writing,
        4 => Field::Pwt,
        5 => Field::Pcd,
        6 => Field::Pat,
        7 => Field::SubPage,
        _ => Field::Reserved,
    }
}

fn number_of(field: Field) -> u64
    ensures { field_at result ≡ field }
{
    match field {
        Field::Length => 0,
        Field::Kind => 1,
        Field::Reading => 2,
        Field::Writing => 3,
        Field::Pwt => 4,
        Field::Pcd => 5,
        Field::Pat => 6,
        Field::SubPage => 7,
        Field::Reserved => 8,
    }
}

#[inline(always)]
fn with_copy(source: End, dest: End, len: u16, flags: u16, rest: Packed) -> Packed
    ensures { HasCall (Copy source dest len flags) rest result }
{
    Packed {
        asked: CallKind::Copy,
        dom: source.domid.0,
        source: source.ptr,
        source_off: source.offset,
        dest_dom: dest.domid.0,
        dest: dest.ptr,
        dest_off: dest.offset,
        len,
        flags,
        ..rest
    }
}

// Packs a call about the caller's own table, and the number that it asks for.
#[inline(always)]
fn with_number(asked: CallKind, number: u32, bare: Packed) -> Packed
    ensures { result ≡ record bare { asked = asked; source = number } }
{
    Packed {
        asked,
        source: u64::from(number),
        ..bare
    }
}

#[inline(always)]
fn with_call(call: Hypercall, rest: Packed) -> Packed
    ensures { HasCall call rest result }
{
    let bare = Packed {
        source: 0,
        dest: 0,
        ..rest
    };
    match call {
        Hypercall::Map { dom, gref, flags } => Packed {
            asked: CallKind::Map,
            dom: dom.0,
            source: u64::from(gref.0),
            dest: u64::from(flags),
            ..rest
        },
        Hypercall::Unmap { subject: None } => Packed {
            asked: CallKind::UnmapOfNothing,
            ..bare
        },
        Hypercall::Unmap {
            subject: Some((dom, gref)),
        } => Packed {
            asked: CallKind::Unmap,
            dom: dom.0,
            source: u64::from(gref.0),
            ..bare
        },
        Hypercall::Copy {
            source,
            dest,
            len,
            flags,
        } => with_copy(source, dest, len, flags, rest),
        Hypercall::QuerySize { dom } => Packed {
            asked: CallKind::QuerySize,
            dom: dom.0,
            ..bare
        },
        Hypercall::GetVersion { dom } => Packed {
            asked: CallKind::GetVersion,
            dom: dom.0,
            ..bare
        },
        Hypercall::SetVersion { version } => with_number(CallKind::SetVersion, version, bare),
        Hypercall::SetupTable { frames } => with_number(CallKind::SetupTable, frames, bare),
    }
}

#[inline(always)]
fn with_refusal(denial: Denial, rest: Packed) -> Packed
    ensures { HasReply (Denied denial) rest result }
{
    let refused = Packed {
        answered: ReplyKind::Refused,
        rule: denial.rule,
        status: denial.status,
        ..rest
    };
    match denial.facts {
        Facts::None => refused,
        Facts::Policy {
            source,
            target,
            perm,
        } => Packed {
            answered: ReplyKind::ByPolicy,
            of: source.0,
            found: u32::from(target.0),
            word: u64::from(perm.bits()),
            ..refused
        },
        Facts::Field(field) => Packed {
            answered: ReplyKind::ForField,
            word: number_of(field),
            ..refused
        },
        Facts::Header { dom, word } => Packed {
            answered: ReplyKind::ForHeader,
            of: dom.0,
            word,
            ..refused
        },
        Facts::Entry { dom, gref, word } => Packed {
            answered: ReplyKind::ForEntry,
            of: dom.0,
            found: gref.0,
            word,
            ..refused
        },
    }
}

#[inline(always)]
fn with_reply(reply: Reply, rest: Packed) -> Packed
    ensures { HasReply reply rest result }
{
    match reply {
        Reply::Done => Packed {
            answered: ReplyKind::Done,
            ..rest
        },
        Reply::Frames(frames) => Packed {
            answered: ReplyKind::Frames,
            word: u64::from(frames),
            ..rest
        },
        Reply::Size(size) => Packed {
            answered: ReplyKind::Size,
            found: size.frames,
            word: u64::from(size.max),
            ..rest
        },
        Reply::Version(version) => Packed {
            answered: ReplyKind::Version,
            word: u64::from(version),
            ..rest
        },
        Reply::Denied(denial) => with_refusal(denial, rest),
    }
}

fn called(parts: &Packed) -> Hypercall
    requires { FitsCall parts.now.asked parts.now }
    ensures { result ≡ called parts.now.asked parts.now }
{
    let dom = DomId(parts.dom);
    match parts.asked {
        CallKind::Map => Hypercall::Map {
            dom,
            gref: GrantRef(parts.source as u32),
            flags: parts.dest as u32,
        },
        CallKind::Unmap => Hypercall::Unmap {
            subject: Some((dom, GrantRef(parts.source as u32))),
        },
        CallKind::UnmapOfNothing => Hypercall::Unmap { subject: None },
        CallKind::Copy => Hypercall::Copy {
            source: End {
                ptr: parts.source,
                domid: dom,
                offset: parts.source_off,
            },
            dest: End {
                ptr: parts.dest,
                domid: DomId(parts.dest_dom),
                offset: parts.dest_off,
            },
            len: parts.len,
            flags: parts.flags,
        },
        CallKind::QuerySize => Hypercall::QuerySize { dom },
        CallKind::GetVersion => Hypercall::GetVersion { dom },
        CallKind::SetVersion => Hypercall::SetVersion {
            version: parts.source as u32,
        },
        CallKind::SetupTable => Hypercall::SetupTable {
            frames: parts.source as u32,
        },
    }
}

fn facts(parts: &Packed) -> Facts
    requires { FitsReply parts.now.answered parts.now }
    ensures { result ≡ facts_of parts.now.answered parts.now }
{
    match parts.answered {
        ReplyKind::ByPolicy => Facts::Policy {
            source: TypeId(parts.of),
            target: TypeId(parts.found as u16),
            perm: Perms::from_bits_retain(parts.word as u8),
        },
        ReplyKind::ForField => Facts::Field(field_at(parts.word)),
        ReplyKind::ForHeader => Facts::Header {
            dom: DomId(parts.of),
            word: parts.word,
        },
        ReplyKind::ForEntry => Facts::Entry {
            dom: DomId(parts.of),
            gref: GrantRef(parts.found),
            word: parts.word,
        },
        _ => Facts::None,
    }
}

fn replied(parts: &Packed) -> Reply
    requires { FitsReply parts.now.answered parts.now }
    ensures { result ≡ replied parts.now.answered parts.now }
{
    match parts.answered {
        ReplyKind::Done => Reply::Done,
        ReplyKind::Frames => Reply::Frames(parts.word as u32),
        ReplyKind::Size => Reply::Size(Size {
            frames: parts.found,
            max: parts.word as u32,
        }),
        ReplyKind::Version => Reply::Version(parts.word as u32),
        _ => Reply::Denied(Denial {
            rule: parts.rule,
            status: parts.status,
            facts: facts(parts),
        }),
    }
}

/// A record in the form in which it is kept. A contract sees the [`Record`].
#[derive(Drop)]
pub(crate) struct Compact {
    parts: Packed,
}

impl Model for Compact {
    ghost use Rattle.gt_audit.specs.declared.record.Record.{Record};

    ghost Value = { Record };

    ghost use Rattle.gt_audit.specs.Compact.{Fits, unpacked};

    ghost view = { λ c. unpacked c.parts };

    ghost invariant = { λ c. Fits c.parts };
}

impl Compact {
    ghost use Rattle.std.specs.Prelude.{◌≡◌};

    /// Packs a record.
    #[inline(always)]
    pub(crate) fn of(recorded: Record) -> Compact
        ensures { result ≡ recorded }
    {
        let rest = Packed {
            caller: recorded.dom.0,
            ..BLANK
        };
        Compact {
            parts: with_call(recorded.call, with_reply(recorded.reply, rest)),
        }
    }

    /// Unpacks the record.
    pub(crate) fn record(&self) -> Record
        ensures { result ≡ self.now }
    {
        Record {
            dom: DomId(self.parts.caller),
            call: called(&self.parts),
            reply: replied(&self.parts),
        }
    }
}
