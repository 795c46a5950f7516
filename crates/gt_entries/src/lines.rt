//! The line of an entry.
ghost use Rattle.std.specs.Prelude.{◌≡◌, ◌==◌, ◌++◌, ℕ, List, OnOk};
ghost use Rattle.std.specs.List.{list_all};
ghost use Rattle.gt_model.specs.Bytes.{entry_size};
ghost use Rattle.gt_entries.specs.Dumps.{Decodes, IsEntryText, is_left_out, dump_line_text, field_text};
ghost use Rattle.gt_entries.specs.Live.{cleared};

use crate::asked::DumpOptions;
use crate::live::{cleared, push_live};
use crate::script::{DumpSlot, push_call};
use crate::showing::push_answer;
use gt_entry::{Entry, decode};
use gt_text::{push_number, push_text};
use gt_types::Field;
use std::alloc::{AllocError, Global};

// Decodes the bytes of an entry without its live bits.
fn answer_of(version: u8, plain: &[u8]) -> Result<Entry, Field>
    ensures { Decodes version plain.now result }
{
    decode(version, plain)
}

// Appends the line of an entry.
fn push_shown(
    out: &mut Vec<u8>,
    gref: usize,
    bytes: &[u8],
    answer: Result<Entry, Field>,
) -> Result<(), AllocError>
    ensures { OnOk result (out.new.items ≡ out.old.items ++ field_text gref bytes.now answer) }
{
    push_number(out, gref)?;
    push_text(out, " ")?;
    push_answer(out, answer)?;
    push_live(out, bytes)?;
    push_text(out, "\n")
}

// Appends the line of an entry, or that of a script if one is asked for.
fn push_answered(
    alloc: Global,
    out: &mut Vec<u8>,
    asked: DumpOptions,
    slot: DumpSlot,
    answer: Result<Entry, Field>,
) -> Result<(), AllocError>
    requires { slot.plain.items ≡ cleared slot.bytes.now }
    ensures { OnOk result (out.new.items ≡ out.old.items
        ++ dump_line_text asked.script asked.version slot.entry.gref slot.entry.bytes.now answer) }
{
    let Some(dom) = asked.script else {
        return push_shown(out, slot.gref, slot.bytes, answer);
    };
    match answer {
        Ok(entry) => push_call(alloc, out, dom, asked.version, slot, entry),
        Err(field) => {
            push_text(out, "# ")?;
            push_shown(out, slot.gref, slot.bytes, Err(field))
        }
    }
}

/// Returns the number of bytes of an entry in a table of this version.
pub(crate) fn entry_size(version: u8) -> usize
    ensures { result ≡ entry_size version }
{
    if version == 2 { 16 } else { 8 }
}

fn is_zero(bytes: &[u8]) -> bool
    ensures { result ≡ list_all (λ byte. byte == 0) bytes.now }
{
    bytes.iter().all(|byte| *byte == 0)
}

fn is_left_out(asked: DumpOptions, bytes: &[u8]) -> bool
    ensures { result ≡ is_left_out asked bytes.now }
{
    !asked.all && bytes.len() == entry_size(asked.version) && is_zero(bytes)
}

/// Appends the line of an entry, or nothing if it is left out. After an Err, part of the line may have been appended.
pub fn push_entry_lines(
    alloc: Global,
    out: &mut Vec<u8>,
    asked: DumpOptions,
    gref: usize,
    bytes: &[u8],
) -> Result<(), AllocError>
    ensures { OnOk result ((text : List ℕ) × IsEntryText asked gref bytes.now text
        × (out.new.items ≡ out.old.items ++ text)) }
{
    if is_left_out(asked, bytes) {
        return Ok(());
    }
    let plain = cleared(alloc, bytes)?;
    let answer = answer_of(asked.version, plain.as_slice());
    push_answered(alloc, out, asked, DumpSlot { gref, bytes, plain }, answer)
}
