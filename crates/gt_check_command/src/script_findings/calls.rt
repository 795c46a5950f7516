//! Warnings about calls that are refused whatever comes before them, and about grants that permit no domain.
ghost use Rattle.std.specs.Prelude.{◌≡◌, OnOk};
ghost use Rattle.gt_findings.specs.Findings.{error_lines};

use crate::script_findings::configured::{Configured, ScriptDomains};
use crate::script_findings::warning::{column_number, push_warning};
use gt_fault_reasons::column_of;
use gt_findings::{Finding, FindingKind};
use gt_model::Entry;
use gt_script_lines::{BodyLine, ScriptCall, ScriptLine, line_words, read_line};
use gt_text::{push_number, push_text};
use gt_types::{CopyArgs, DOMID_SELF, DomId, End, FRAME_SIZE, GrantRef, MAX_TABLE_FRAMES};
use std::alloc::{AllocError, Global};

/// Why a call is always refused, or its grant permits no domain.
#[derive(Clone, Copy)]
enum CallFault {
    /// The script has no domain of this number (N1).
    NoDomain(DomId),
    /// The flags of a map are neither 2 nor 6 (N2).
    Flags(u32),
    /// A version is neither 1 nor 2 (N2).
    Version(u32),
    /// The bytes go past the end of a frame (N3).
    PastEnd,
    /// A frame by its number is that of another domain (N4).
    OtherFrame(DomId),
    /// The table of the domain never has this reference (N9).
    NoReference(DomId, GrantRef),
    /// The domain has no frame of this number (N16).
    NoFrame(DomId, u64),
    /// A table can't have this number of frames (N23).
    TableFrames(u32),
    /// An entry names no domain of the script, so it permits no domain.
    PermitsNone(DomId),
}

/// A fault of a call, and the index of its word in the line.
#[derive(Clone, Copy)]
struct PlacedFault {
    fault: CallFault,
    word: usize,
}

fn placed(fault: CallFault, word: usize) -> Option<PlacedFault> {
    Some(PlacedFault { fault, word })
}

// Returns the number of the domain that a call names.
fn named(caller: DomId, dom: DomId) -> DomId {
    if dom.0 == DOMID_SELF { caller } else { dom }
}

// Returns the fault of a domain that a call names.
fn fault_of_domain(
    domains: &ScriptDomains,
    caller: DomId,
    dom: DomId,
    word: usize,
) -> Option<PlacedFault> {
    match domains.find(named(caller, dom)) {
        Some(_) => None,
        None => placed(CallFault::NoDomain(dom), word),
    }
}

// Returns the fault of a reference into the table of a domain.
fn fault_of_reference(owner: &Configured, gref: GrantRef, word: usize) -> Option<PlacedFault> {
    if owner.may_have(gref) {
        None
    } else {
        placed(CallFault::NoReference(owner.id, gref), word)
    }
}

// Returns the fault of a frame of a domain.
fn fault_of_frame(owner: &Configured, frame: u64, word: usize) -> Option<PlacedFault> {
    if frame < owner.frames {
        None
    } else {
        placed(CallFault::NoFrame(owner.id, frame), word)
    }
}

// Returns the fault of a range of bytes.
fn fault_of_range(off: u16, len: usize, word: usize) -> Option<PlacedFault> {
    if len.saturating_add(off as usize) <= FRAME_SIZE as usize {
        None
    } else {
        placed(CallFault::PastEnd, word)
    }
}

// Returns the first fault of a map.
fn fault_of_map(
    domains: &ScriptDomains,
    caller: DomId,
    dom: DomId,
    gref: GrantRef,
    flags: u32,
) -> Option<PlacedFault> {
    let Some(owner) = domains.find(named(caller, dom)) else {
        return placed(CallFault::NoDomain(dom), 4);
    };
    if flags != 2 && flags != 6 {
        return placed(CallFault::Flags(flags), 6);
    }
    fault_of_reference(owner, gref, 5)
}

// Returns the first fault of an entry that is granted.
fn fault_of_entry(
    domains: &ScriptDomains,
    owner: &Configured,
    entry: &Entry,
) -> Option<PlacedFault> {
    let (dom, frame) = match entry {
        Entry::Invalid => return None,
        Entry::Page { dom, frame, .. } => (*dom, Some(*frame)),
        Entry::Sub { dom, frame, .. } => (*dom, Some(*frame)),
        Entry::Via { dom, .. } => (*dom, None),
    };
    if domains.find(dom).is_none() {
        return placed(CallFault::PermitsNone(dom), 5);
    }
    match frame {
        Some(frame) => fault_of_frame(owner, frame, 7),
        None => None,
    }
}

// Returns the first fault of an end of a copy of this length, whose words begin at `word`.
fn fault_of_end(
    domains: &ScriptDomains,
    caller: &Configured,
    end: End,
    by_reference: bool,
    len: u16,
    word: usize,
) -> Option<PlacedFault> {
    let dom = named(caller.id, end.domid);
    let Some(owner) = domains.find(dom) else {
        return placed(CallFault::NoDomain(end.domid), word.saturating_add(1));
    };
    if let Some(fault) = fault_of_range(end.offset, len as usize, word.saturating_add(3)) {
        return Some(fault);
    }
    if !by_reference && dom.0 != caller.id.0 {
        return placed(CallFault::OtherFrame(dom), word.saturating_add(1));
    }
    if !by_reference {
        return fault_of_frame(owner, end.ptr, word.saturating_add(2));
    }
    match u32::try_from(end.ptr) {
        Ok(gref) => fault_of_reference(owner, GrantRef(gref), word.saturating_add(2)),
        Err(_) => None,
    }
}

// Returns the first fault of a copy.
fn fault_of_copy(
    domains: &ScriptDomains,
    caller: &Configured,
    copy: &CopyArgs,
) -> Option<PlacedFault> {
    let source = fault_of_end(
        domains,
        caller,
        copy.source,
        copy.is_source_granted(),
        copy.len,
        3,
    );
    match source {
        Some(fault) => Some(fault),
        None => fault_of_end(
            domains,
            caller,
            copy.dest,
            copy.is_dest_granted(),
            copy.len,
            7,
        ),
    }
}

// Returns the first fault of an access to bytes of a frame of the caller.
fn fault_of_own(caller: &Configured, frame: u64, off: u16, len: usize) -> Option<PlacedFault> {
    match fault_of_range(off, len, 4) {
        Some(fault) => Some(fault),
        None => fault_of_frame(caller, frame, 3),
    }
}

// Returns the number of bytes of a text in hexadecimal; `-` is none.
fn bytes_in(hex: &[u8]) -> usize {
    hex.len() / 2
}

// Returns why a call on the table of its caller is always refused, or its grant permits no domain.
fn fault_of_owner(
    domains: &ScriptDomains,
    caller: &Configured,
    call: &ScriptCall,
) -> Option<PlacedFault> {
    match call {
        ScriptCall::Grant { gref, entry } => match fault_of_reference(caller, *gref, 3) {
            Some(fault) => Some(fault),
            None => fault_of_entry(domains, caller, entry),
        },
        ScriptCall::GrantBytes { gref, .. }
        | ScriptCall::Revoke { gref }
        | ScriptCall::Withdraw { gref }
        | ScriptCall::Demote { gref }
        | ScriptCall::Promote { gref } => fault_of_reference(caller, *gref, 3),
        ScriptCall::SetVersion { version } if *version != 1 && *version != 2 => {
            placed(CallFault::Version(*version), 3)
        }
        ScriptCall::SetupTable { frames } if *frames > MAX_TABLE_FRAMES => {
            placed(CallFault::TableFrames(*frames), 3)
        }
        _ => None,
    }
}

// Returns why a call of this domain is always refused, or its grant permits no domain.
fn fault_of(
    domains: &ScriptDomains,
    caller: &Configured,
    call: &ScriptCall,
) -> Option<PlacedFault> {
    match call {
        ScriptCall::Map {
            dom,
            gref,
            flags,
            ..
        } => fault_of_map(domains, caller.id, *dom, *gref, *flags),
        ScriptCall::Load { off, len, .. } => fault_of_range(*off, *len as usize, 4),
        ScriptCall::Store { off, hex, .. } => fault_of_range(*off, bytes_in(hex.as_bytes()), 4),
        ScriptCall::Peek { frame, off, len } => fault_of_own(caller, *frame, *off, *len as usize),
        ScriptCall::Poke { frame, off, hex } => {
            fault_of_own(caller, *frame, *off, bytes_in(hex.as_bytes()))
        }
        ScriptCall::Copy(copy) => fault_of_copy(domains, caller, copy),
        ScriptCall::QuerySize { dom } | ScriptCall::GetVersion { dom } => {
            fault_of_domain(domains, caller.id, *dom, 3)
        }
        _ => fault_of_owner(domains, caller, call),
    }
}

// Appends a text, a number and a text.
fn push_three(out: &mut Vec<u8>, front: &str, number: u64, back: &str) -> Result<(), AllocError> {
    push_text(out, front)?;
    push_number(out, number)?;
    push_text(out, back)
}

// Appends a text, a number, a text and the number of a domain.
fn push_of_domain(
    out: &mut Vec<u8>,
    front: &str,
    number: u64,
    middle: &str,
    dom: DomId,
) -> Result<(), AllocError> {
    push_three(out, front, number, middle)?;
    push_number(out, u64::from(dom.0))
}

// Appends the fact that a fault is.
fn push_fact(out: &mut Vec<u8>, fault: CallFault) -> Result<(), AllocError> {
    match fault {
        CallFault::NoDomain(dom) | CallFault::PermitsNone(dom) => {
            push_three(out, "no domain ", u64::from(dom.0), " in this script")
        }
        CallFault::Flags(flags) => push_three(
            out,
            "flags ",
            u64::from(flags),
            " are neither 2 (rw) nor 6 (ro)",
        ),
        CallFault::Version(version) => {
            push_three(out, "no version ", u64::from(version), " of a table")
        }
        CallFault::PastEnd => {
            push_three(
                out,
                "these bytes end after byte ",
                u64::from(FRAME_SIZE),
                "",
            )
        }
        CallFault::OtherFrame(dom) => push_three(
            out,
            "a frame of domain ",
            u64::from(dom.0),
            " needs a grant reference (gref)",
        ),
        CallFault::NoReference(dom, gref) => push_of_domain(
            out,
            "no grant reference ",
            u64::from(gref.0),
            " in the table of domain ",
            dom,
        ),
        CallFault::NoFrame(dom, frame) => {
            push_of_domain(out, "no frame ", frame, " of domain ", dom)
        }
        CallFault::TableFrames(frames) => push_three(
            out,
            "a table has at most 16 frames, not ",
            u64::from(frames),
            "",
        ),
    }
}

// Returns the rule of a fault, if it is one of a call, and what follows from it. Another rule may refuse the call first.
fn consequence(fault: CallFault) -> &'static str {
    match fault {
        CallFault::NoDomain(_) => " (N1), so this is always refused",
        CallFault::Flags(_) | CallFault::Version(_) => " (N2), so this is always refused",
        CallFault::PastEnd => " (N3), so this is always refused",
        CallFault::OtherFrame(_) => " (N4), so this is always refused",
        CallFault::NoReference(..) => " (N9), so this is always refused",
        CallFault::NoFrame(..) => " (N16), so its use is always refused",
        CallFault::TableFrames(_) => " (N23), so this is always refused",
        CallFault::PermitsNone(_) => ", so this grant permits no domain",
    }
}

// Appends why a call is always refused, or its grant permits no domain.
fn push_fault(out: &mut Vec<u8>, fault: CallFault) -> Result<(), AllocError> {
    push_fact(out, fault)?;
    push_text(out, consequence(fault))
}

/// Warns of the call of a line, if it is always refused, or if its grant permits no domain.
pub(crate) fn warn_call(
    alloc: Global,
    found: &mut Vec<Finding>,
    number: u32,
    line: &str,
    domains: &ScriptDomains,
) -> Result<(), AllocError>
    ensures { OnOk result (error_lines found.new.items ≡ error_lines found.old.items) }
{
    let words = line_words(alloc, line)?;
    let Some(ScriptLine::Body { id, asks }) = read_line(words.as_slice()) else {
        return Ok(());
    };
    let (BodyLine::Do(call) | BodyLine::Begin(call)) = &asks else {
        return Ok(());
    };
    let Some(caller) = domains.numbered(id) else {
        return Ok(());
    };
    let Some(placed) = fault_of(domains, caller, call) else {
        return Ok(());
    };
    let mut message = Vec::new(alloc);
    push_fault(&mut message, placed.fault)?;
    push_warning(
        found,
        Finding {
            kind: FindingKind::AlwaysRefused,
            line: number,
            column: column_number(column_of(line.as_bytes(), placed.word)),
            message,
        },
    )
}
