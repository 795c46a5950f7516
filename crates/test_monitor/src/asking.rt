//! Calls and answers of domains, as values and texts.
use gt_calls::CopyArgs;
use gt_entry::Entry;
use gt_types::{Denial, Facts, Size};
use std::alloc::{AllocError, Global};

/// The GNTMAP flags of a map for reading and writing.
pub const WRITABLE: u32 = 2;

/// The GNTMAP flags of a map for reading only.
pub const READ_ONLY: u32 = 6;

/// A call of a domain, as a value. Domains, references and frames are numbers. A mapping is the last one that the
/// domain made, or one that never was.
#[derive(Clone, Copy)]
pub enum TestCall<'a> {
    Grant(u32, Entry),
    Bytes(u32, &'a [u8]),
    Revoke(u32),
    Withdraw(u32),
    Demote(u32),
    Promote(u32),
    /// Domain, reference and flags.
    Map(u16, u32, u32),
    Unmap,
    Release,
    Version(u32),
    Setup(u32),
    Size(u16),
    GetVersion(u16),
    /// Offset and length.
    Load(u16, u16),
    Store(u16, &'a [u8]),
    /// Frame, offset and length.
    Peek(u64, u16, u16),
    Poke(u64, u16, &'a [u8]),
    Copy(CopyArgs),
}

/// The answer of a call.
#[derive(Drop)]
pub enum TestReply {
    Done,
    Frames(u32),
    Size(Size),
    Version(u32),
    Bytes(Vec<u8>),
    Denied(Denial),
}

/// Returns an answer as a text: `ok` with its value, or the rule, its status and the word or field that decided.
pub fn text(alloc: Global, said: &TestReply) -> Result<String, AllocError> {
    match said {
        TestReply::Done => format!(in alloc; "ok"),
        TestReply::Frames(frames) => format!(in alloc; "ok frames={frames}"),
        TestReply::Size(size) => format!(in alloc; "ok frames={} max={}", size.frames, size.max),
        TestReply::Version(version) => format!(in alloc; "ok version={version}"),
        TestReply::Bytes(bytes) => format!(in alloc; "ok {:?}", bytes.as_slice()),
        TestReply::Denied(denial) => refusal_text(alloc, denial),
    }
}

fn refusal_text(alloc: Global, denial: &Denial) -> Result<String, AllocError> {
    let (rule, status) = (denial.rule, denial.status.number());
    match denial.facts {
        Facts::None => format!(in alloc; "{rule} {status}"),
        Facts::Policy { source, target, .. } => {
            format!(in alloc; "{rule} {status} {} {}", source.0, target.0)
        }
        Facts::Field(field) => format!(in alloc; "{rule} {status} {field}"),
        Facts::Header { dom, word } => {
            format!(in alloc; "{rule} {status} domain {} {word:x}", dom.0)
        }
        Facts::Entry { dom, gref, word } => {
            format!(in alloc; "{rule} {status} entry {} {} {word:x}", dom.0, gref.0)
        }
    }
}
