//! The lines of records.
ghost use Rattle.std.specs.Prelude.{◌≡◌, ◌++◌, OnOk, IfOk, codes, decimal, string_bytes};
ghost use Rattle.gt_types.specs.Names.{resolved as resolved_in};
ghost use Rattle.gt_text.specs.Printing.{type_text};
ghost use Rattle.gt_text.specs.Texts.{StaysText, AreTexts};
ghost use Rattle.gt_audit.specs.Lines.{domain_text, reference_text, copy_kind_text, end_text, copy_text};
ghost use Rattle.gt_audit.specs.Lines.{hypercall_text};
ghost use Rattle.gt_audit.specs.Lines.{asked_text, reply_text, line_text, lost_text};

use crate::record::{Hypercall, Record, Reply};
use gt_text::{
    push_denial, push_frames, push_next_number, push_number, push_size, push_text, push_version,
};
use gt_types::{DOMID_SELF, DomId, End, GrantRef, Memory};
use std::alloc::{AllocError, Global};
use std::convert::AsSlice;

// Resolves the domain that a call names: DOMID_SELF is the caller.
fn resolved(caller: DomId, dom: DomId) -> DomId
    ensures { result ≡ resolved_in caller dom }
{
    if dom.0 == DOMID_SELF { caller } else { dom }
}

// Appends a blank and the domain that a call names.
fn push_next_domain(out: &mut Vec<u8>, caller: DomId, dom: DomId) -> Result<(), AllocError>
    ensures text { OnOk result (out.new.items ≡ out.old.items ++ codes " " ++ domain_text caller dom) }
    ensures stays { OnOk result (StaysText out.old.items out.new.items) }
{
    push_next_number(out, resolved(caller, dom).0)
}

// Appends the word of a call, and the domain that it names.
fn push_with_domain(
    out: &mut Vec<u8>,
    word: &str,
    caller: DomId,
    dom: DomId,
) -> Result<(), AllocError>
    ensures text { OnOk result (out.new.items ≡ out.old.items ++ word.now ++ codes " " ++ domain_text caller dom) }
    ensures stays { OnOk result (StaysText out.old.items out.new.items) }
{
    push_text(out, word)?;
    push_next_domain(out, caller, dom)
}

// Appends the word of a call, and a number.
fn push_with_number(out: &mut Vec<u8>, word: &str, number: u32) -> Result<(), AllocError>
    ensures text { OnOk result (out.new.items ≡ out.old.items ++ word.now ++ codes " " ++ decimal number) }
    ensures stays { OnOk result (StaysText out.old.items out.new.items) }
{
    push_text(out, word)?;
    push_next_number(out, number)
}

// Appends an entry, after a blank.
fn push_entry(
    out: &mut Vec<u8>,
    caller: DomId,
    dom: DomId,
    gref: GrantRef,
) -> Result<(), AllocError>
    ensures text { OnOk result (out.new.items ≡ out.old.items ++ reference_text caller dom gref) }
    ensures stays { OnOk result (StaysText out.old.items out.new.items) }
{
    push_next_domain(out, caller, dom)?;
    push_next_number(out, gref.0)
}

// Returns the word for what names an end, after a blank.
fn kind(is_reference: bool) -> &'static str
    ensures { result.now ≡ codes " " ++ copy_kind_text is_reference }
{
    if is_reference { " gref" } else { " frame" }
}

// Appends an end of a copy, after a blank.
fn push_end(
    out: &mut Vec<u8>,
    caller: DomId,
    is_reference: bool,
    end: End,
) -> Result<(), AllocError>
    ensures text { OnOk result (out.new.items ≡ out.old.items ++ end_text caller is_reference end) }
    ensures stays { OnOk result (StaysText out.old.items out.new.items) }
{
    push_text(out, kind(is_reference))?;
    push_next_domain(out, caller, end.domid)?;
    push_next_number(out, end.ptr)?;
    push_next_number(out, end.offset)
}

fn push_copy(
    out: &mut Vec<u8>,
    caller: DomId,
    source: End,
    dest: End,
    len: u16,
    flags: u16,
) -> Result<(), AllocError>
    ensures text { OnOk result (out.new.items ≡ out.old.items ++ copy_text caller source dest len flags) }
    ensures stays { OnOk result (StaysText out.old.items out.new.items) }
{
    push_text(out, "copy")?;
    push_end(out, caller, flags & 1 == 1, source)?;
    push_end(out, caller, flags & 2 == 2, dest)?;
    push_next_number(out, len)?;
    push_next_number(out, flags)
}

fn push_hypercall(out: &mut Vec<u8>, caller: DomId, call: Hypercall) -> Result<(), AllocError>
    ensures text { OnOk result (out.new.items ≡ out.old.items ++ hypercall_text caller call) }
    ensures stays { OnOk result (StaysText out.old.items out.new.items) }
{
    match call {
        Hypercall::Map { dom, gref, flags } => {
            push_text(out, "map")?;
            push_entry(out, caller, dom, gref)?;
            push_next_number(out, flags)
        }
        Hypercall::Unmap { subject: None } => push_text(out, "unmap - -"),
        Hypercall::Unmap {
            subject: Some((dom, gref)),
        } => {
            push_text(out, "unmap")?;
            push_entry(out, caller, dom, gref)
        }
        Hypercall::Copy {
            source,
            dest,
            len,
            flags,
        } => push_copy(out, caller, source, dest, len, flags),
        Hypercall::QuerySize { dom } => push_with_domain(out, "size", caller, dom),
        Hypercall::GetVersion { dom } => push_with_domain(out, "getversion", caller, dom),
        Hypercall::SetVersion { version } => push_with_number(out, "version", version),
        Hypercall::SetupTable { frames } => push_with_number(out, "setup", frames),
    }
}

fn push_reply<N: AsSlice<u8>>(
    out: &mut Vec<u8>,
    reply: Reply,
    names: &[N],
) -> Result<(), AllocError>
    ensures text { OnOk result (out.new.items ≡ out.old.items ++ reply_text (type_text N.items names.now) reply) }
    ensures stays { OnOk result (AreTexts N.items names.now → StaysText out.old.items out.new.items) }
{
    match reply {
        Reply::Done => push_text(out, "ok"),
        Reply::Frames(frames) => push_frames(out, frames),
        Reply::Size(size) => push_size(out, size),
        Reply::Version(version) => push_version(out, version),
        Reply::Denied(denial) => push_denial(out, names, denial),
    }
}

// Appends the part of a line before the answer.
fn push_asked(out: &mut Vec<u8>, caller: DomId, call: Hypercall) -> Result<(), AllocError>
    ensures text { OnOk result (out.new.items ≡ out.old.items ++ asked_text caller call) }
    ensures stays { OnOk result (StaysText out.old.items out.new.items) }
{
    push_text(out, "audit ")?;
    push_number(out, caller.0)?;
    push_text(out, " ")?;
    push_hypercall(out, caller, call)?;
    push_text(out, " : ")
}

/// Appends the line of a record, with its LF. `names` has the name of each type at the type's index; a type without
/// one prints no name. After an Err, `out` may end in a part of the line.
pub fn push_line<N: AsSlice<u8>>(
    out: &mut Vec<u8>,
    recorded: &Record,
    names: &[N],
) -> Result<(), AllocError>
    ensures text { OnOk result (out.new.items ≡ out.old.items ++ line_text (type_text N.items names.now) recorded.now) }
    ensures stays { OnOk result (AreTexts N.items names.now → StaysText out.old.items out.new.items) }
{
    push_asked(out, recorded.dom, recorded.call)?;
    push_reply(out, recorded.reply, names)?;
    push_text(out, "\n")
}

/// Returns the line of a record, with its LF. `names` has the name of each type at the type's index; a type without
/// one prints no name.
pub fn line(alloc: Global, recorded: &Record, names: &[String]) -> Result<String, Memory>
    ensures { IfOk result (λ text. string_bytes text ≡ line_text (type_text string_bytes names.now) recorded.now) }
{
    let mut out = Vec::new(alloc);
    push_line(&mut out, recorded, names)?;
    match String::from_utf8(out) {
        Ok(text) => Ok(text),
        Err(_) => unreachable!(),
    }
}

/// Appends the line with the number of lost records; nothing if none was lost. After an Err, `out` may end in a
/// part of the line.
pub fn push_lost(out: &mut Vec<u8>, lost: u64) -> Result<(), AllocError>
    ensures text { OnOk result (out.new.items ≡ out.old.items ++ lost_text lost) }
    ensures stays { OnOk result (StaysText out.old.items out.new.items) }
{
    if lost == 0 {
        return Ok(());
    }
    push_text(out, "lost ")?;
    push_number(out, lost)?;
    push_text(out, "\n")
}
