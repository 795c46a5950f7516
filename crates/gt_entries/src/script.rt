//! The lines of a script that grants the entries of a dump.
ghost use Rattle.std.specs.Prelude.{◌≡◌, ◌++◌, IfOk, OnOk, codes};
ghost use Rattle.hex.specs.Hex.{encode_lower};
ghost use Rattle.gt_entries.specs.Live.{live_text};
ghost use Rattle.gt_entries.specs.Script.{bytes_call_text, comment_text, frame_note, frame_place, renumbered, with_frame};

use crate::live::push_live;
use gt_entry::Entry;
use gt_text::{push_number, push_part, push_text};
use gt_types::{DomId, MAX_FRAMES};
use std::alloc::{AllocError, Global};

/// A slot of a table in a dump: its reference, its bytes, and the same without the live bits.
#[derive(Drop)]
pub(crate) struct DumpSlot<'b> {
    pub gref: usize,
    pub bytes: &'b [u8],
    pub plain: Vec<u8>,
}

// Returns the offset of the frame number in an entry of this version; it extends to the end of the entry.
fn frame_place(version: u8) -> usize
    ensures { result ≡ frame_place version }
{
    if version == 2 { 8 } else { 4 }
}

// Replaces the frame number of an entry.
fn with_frame(version: u8, number: u8, bytes: Vec<u8>) -> Result<Vec<u8>, AllocError>
    ensures { IfOk result (λ v. v.items ≡ with_frame version number bytes.items) }
{
    let place = frame_place(version);
    let mut bytes = bytes;
    bytes.truncate(place);
    bytes.push(number)?;
    bytes.extend_from_slice(&[0, 0, 0, 0, 0, 0, 0][..place - 1])?;
    Ok(bytes)
}

// Replaces a frame number that is not below MAX_FRAMES by its remainder.
fn renumbered(version: u8, entry: Entry, bytes: Vec<u8>) -> Result<Vec<u8>, AllocError>
    ensures { IfOk result (λ v. v.items ≡ renumbered version entry bytes.items) }
{
    let frame = entry.frame();
    let most = u64::from(MAX_FRAMES);
    if frame < most {
        return Ok(bytes);
    }
    with_frame(version, (frame % most) as u8, bytes)
}

// Appends the true number of a frame that is renumbered.
fn push_frame_note(out: &mut Vec<u8>, entry: Entry) -> Result<(), AllocError>
    ensures { OnOk result (out.new.items ≡ out.old.items ++ frame_note entry) }
{
    let frame = entry.frame();
    if frame < u64::from(MAX_FRAMES) {
        return Ok(());
    }
    push_part(out, "frame", frame)
}

// Appends a comment with the true frame number and the live bits, if there are any.
fn push_comment(
    alloc: Global,
    out: &mut Vec<u8>,
    entry: Entry,
    bytes: &[u8],
) -> Result<(), AllocError>
    ensures { OnOk result (out.new.items ≡ out.old.items ++ comment_text (frame_note entry ++ live_text bytes.now)) }
{
    let mut notes = Vec::new(alloc);
    push_frame_note(&mut notes, entry)?;
    push_live(&mut notes, bytes)?;
    if notes.is_empty() {
        return Ok(());
    }
    push_text(out, " #")?;
    out.extend_from_slice(notes.as_slice())
}

// Appends the bytes for a script, in hexadecimal digits.
fn push_hex(
    alloc: Global,
    out: &mut Vec<u8>,
    version: u8,
    entry: Entry,
    plain: Vec<u8>,
) -> Result<(), AllocError>
    ensures { OnOk result (out.new.items ≡ out.old.items ++ encode_lower (renumbered version entry plain.items)) }
{
    let bytes = renumbered(version, entry, plain)?;
    let digits = hex::encode(alloc, bytes)?;
    push_text(out, digits.as_str())
}

/// Appends the line by which a domain grants an entry, which was decoded from the bytes without the live bits. After an
/// Err, part of it may have been appended.
pub(crate) fn push_call(
    alloc: Global,
    out: &mut Vec<u8>,
    dom: DomId,
    version: u8,
    slot: DumpSlot,
    entry: Entry,
) -> Result<(), AllocError>
    ensures { OnOk result (out.new.items ≡ out.old.items ++ bytes_call_text dom version slot.entry.gref entry
        slot.entry.plain.items (live_text slot.entry.bytes.now)) }
{
    let DumpSlot { gref, bytes, plain } = slot;
    push_text(out, "do ")?;
    push_number(out, dom.0)?;
    push_text(out, " bytes ")?;
    push_number(out, gref)?;
    push_text(out, " ")?;
    push_hex(alloc, out, version, entry, plain)?;
    push_comment(alloc, out, entry, bytes)?;
    push_text(out, "\n")
}
