//! The audit record of a call, in a layout that C reads.
ghost use Rattle.std.specs.Prelude.{◌≡◌};
ghost use Rattle.gt_audit.specs.declared.record.Hypercall.TheVariants.{Copy};
ghost use Rattle.gt_attached.specs.Recording.{end_recorded, outcome_of_reply, plainly, with_call};

use crate::answer::{AttachedOutcome, EncodedAnswer};
use gt_audit::{Hypercall, Reply};
use gt_types::End;

/// An end of a copy as it was passed: a grant reference of the domain, or the number of a frame.
#[repr(C)]
#[derive(Clone, Copy)]
pub struct CopyEnd {
    pub ptr: u64,
    pub dom: u32,
    pub off: u32,
}

/// The audit record of a call, in a layout that C reads. A field without a meaning is 0.
#[repr(C)]
#[derive(Clone, Copy)]
pub struct EncodedRecord {
    /// The call: 1 map, 2 unmap of a mapping, 3 unmap of no mapping, 4 copy, 5 query of a size, 6 query of a version, 7
    /// change of a version, 8 setup of a table.
    pub call: u32,
    /// The domain that called.
    pub caller: u32,
    /// The domain of the entry, or the domain that the query is about.
    pub dom: u32,
    /// The reference of the entry.
    pub gref: u32,
    /// The flags of a map or a copy, the version that is set, or the number of frames that is set up.
    pub flags: u32,
    /// The number of bytes to copy.
    pub len: u32,
    pub source: CopyEnd,
    pub dest: CopyEnd,
    /// The result of the call, without a map's handle.
    pub reply: EncodedAnswer,
}

const NO_END: CopyEnd = CopyEnd {
    ptr: 0,
    dom: 0,
    off: 0,
};

// Converts the reply of a record.
fn replied(reply: Reply) -> AttachedOutcome
    ensures { result ≡ outcome_of_reply reply }
{
    match reply {
        Reply::Done => AttachedOutcome::Done,
        Reply::Frames(frames) => AttachedOutcome::Frames(frames),
        Reply::Size(size) => AttachedOutcome::Size(size),
        Reply::Version(version) => AttachedOutcome::Version(version),
        Reply::Denied(denial) => AttachedOutcome::Denied(denial),
    }
}

fn end_recorded(end: End) -> CopyEnd
    ensures { result ≡ end_recorded end }
{
    CopyEnd {
        ptr: end.ptr,
        dom: u32::from(end.domid.0),
        off: u32::from(end.offset),
    }
}

// Encodes a record without its call.
fn without_call(recorded: &gt_audit::Record) -> EncodedRecord
    ensures { result ≡ plainly recorded.now }
{
    EncodedRecord {
        call: 0,
        caller: u32::from(recorded.dom.0),
        dom: 0,
        gref: 0,
        flags: 0,
        len: 0,
        source: NO_END,
        dest: NO_END,
        reply: EncodedAnswer::of(replied(recorded.reply)),
    }
}

// Adds a copy as the call of a record.
fn with_copy(source: End, dest: End, len: u16, flags: u16, bare: EncodedRecord) -> EncodedRecord
    ensures { result ≡ with_call (Copy source dest len flags) bare }
{
    EncodedRecord {
        call: 4,
        flags: u32::from(flags),
        len: u32::from(len),
        source: end_recorded(source),
        dest: end_recorded(dest),
        ..bare
    }
}

impl EncodedRecord {
    ghost use Rattle.std.specs.Prelude.{◌≡◌};
    ghost use Rattle.gt_attached.specs.Recording.{record_kept};

    /// Encodes a record.
    pub fn of(recorded: gt_audit::Record) -> EncodedRecord
        ensures { result ≡ record_kept recorded }
    {
        let bare = without_call(&recorded);
        match recorded.call {
            Hypercall::Map { dom, gref, flags } => EncodedRecord {
                call: 1,
                dom: u32::from(dom.0),
                gref: gref.0,
                flags,
                ..bare
            },
            Hypercall::Unmap {
                subject: Some((dom, gref)),
            } => EncodedRecord {
                call: 2,
                dom: u32::from(dom.0),
                gref: gref.0,
                ..bare
            },
            Hypercall::Unmap { subject: None } => EncodedRecord { call: 3, ..bare },
            Hypercall::Copy {
                source,
                dest,
                len,
                flags,
            } => with_copy(source, dest, len, flags, bare),
            Hypercall::QuerySize { dom } => EncodedRecord {
                call: 5,
                dom: u32::from(dom.0),
                ..bare
            },
            Hypercall::GetVersion { dom } => EncodedRecord {
                call: 6,
                dom: u32::from(dom.0),
                ..bare
            },
            Hypercall::SetVersion { version } => EncodedRecord {
                call: 7,
                flags: version,
                ..bare
            },
            Hypercall::SetupTable { frames } => EncodedRecord {
                call: 8,
                flags: frames,
                ..bare
            },
        }
    }
}
