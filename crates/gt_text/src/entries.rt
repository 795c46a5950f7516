//! The texts of entries.
ghost use Rattle.std.specs.Prelude.{◌≡◌, ◌++◌, OnOk, codes};
ghost use Rattle.gt_text.specs.Entries.{mode_text, entry_kind_text, range_text, entry_text};
ghost use Rattle.gt_text.specs.Texts.{StaysText};

use crate::numbers::{push_number, push_part};
use crate::text::push_text;
use gt_entry::Entry;
use gt_types::DomId;
use std::alloc::AllocError;

fn mode(ro: bool) -> &'static str
    ensures { result.now ≡ mode_text ro }
{
    if ro { "ro" } else { "rw" }
}

fn push_kind(out: &mut Vec<u8>, kind: &str, dom: DomId, ro: bool) -> Result<(), AllocError>
    ensures text { OnOk result (out.new.items ≡ out.old.items ++ entry_kind_text kind.now dom ro) }
    ensures stays { OnOk result (StaysText out.old.items out.new.items) }
{
    push_text(out, kind)?;
    push_text(out, " ")?;
    push_number(out, dom.0)?;
    push_text(out, " ")?;
    push_text(out, mode(ro))
}

fn push_range(out: &mut Vec<u8>, off: u16, len: u16) -> Result<(), AllocError>
    ensures text { OnOk result (out.new.items ≡ out.old.items ++ range_text off len) }
    ensures stays { OnOk result (StaysText out.old.items out.new.items) }
{
    push_part(out, "off", off)?;
    push_part(out, "len", len)
}

/// Appends an entry, as a script's `show` prints it. After an Err, part of it may have been appended.
pub fn push_entry(out: &mut Vec<u8>, entry: Entry) -> Result<(), AllocError>
    ensures text { OnOk result (out.new.items ≡ out.old.items ++ entry_text entry) }
    ensures stays { OnOk result (StaysText out.old.items out.new.items) }
{
    match entry {
        Entry::Invalid => push_text(out, "invalid"),
        Entry::Page { dom, ro, frame } => {
            push_kind(out, "page", dom, ro)?;
            push_part(out, "frame", frame)
        }
        Entry::Sub {
            dom,
            ro,
            frame,
            off,
            len,
        } => {
            push_kind(out, "sub", dom, ro)?;
            push_part(out, "frame", frame)?;
            push_range(out, off, len)
        }
        Entry::Via {
            dom,
            ro,
            dom2,
            gref,
        } => {
            push_kind(out, "via", dom, ro)?;
            push_part(out, "to", dom2.0)?;
            push_part(out, "ref", gref.0)
        }
    }
}
