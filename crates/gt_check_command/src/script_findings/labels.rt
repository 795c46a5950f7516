//! Warnings about labels that no earlier map has.
ghost use Rattle.std.specs.Prelude.{◌≡◌, OnOk};
ghost use Rattle.gt_findings.specs.Findings.{error_lines};

use crate::script_findings::warning::{column_number, push_warning};
use gt_fault_reasons::column_of;
use gt_findings::{Finding, FindingKind, push_hint, said_of};
use gt_script_lines::{BodyLine, Number, ScriptCall, ScriptLine, line_words, read_line};
use gt_text::text_of;
use std::alloc::{AllocError, Global};

/// A label of a domain, and whether its call is a map.
#[derive(Clone, Copy)]
pub(crate) struct Label<'t> {
    id: u64,
    name: &'t str,
    is_mapped: bool,
}

// Returns the label of a call, and whether the call is a map.
fn label_of<'t>(call: &ScriptCall<'t>) -> Option<(&'t [u8], bool)> {
    match call {
        ScriptCall::Map { label, .. } => Some((label.as_bytes(), true)),
        ScriptCall::Unmap { label }
        | ScriptCall::Load { label, .. }
        | ScriptCall::Store { label, .. } => Some((label.as_bytes(), false)),
        _ => None,
    }
}

// Returns the label in a line of a domain.
fn labelled<'t>(id: Number, asks: &BodyLine<'t>) -> Option<Label<'t>> {
    let call = match asks {
        BodyLine::Do(call) | BodyLine::Begin(call) => call,
        _ => return None,
    };
    let (name, is_mapped) = label_of(call)?;
    match text_of(name) {
        Ok(name) => Some(Label {
            id: id.below(1 << 16)?,
            name,
            is_mapped,
        }),
        Err(_) => None,
    }
}

/// Returns the label of a line, if it has one.
pub(crate) fn label_in<'t>(alloc: Global, line: &'t str) -> Result<Option<Label<'t>>, AllocError> {
    let words = line_words(alloc, line)?;
    match read_line(words.as_slice()) {
        Some(ScriptLine::Body { id, asks }) => Ok(labelled(id, &asks)),
        _ => Ok(None),
    }
}

// Makes the message about a label that no earlier map of its domain has.
fn message_of(
    alloc: Global,
    label: Label<'_>,
    mapped: &[Label<'_>],
) -> Result<Vec<u8>, AllocError> {
    let said = " is not the name of an earlier mapping of this domain";
    let mut message = said_of(alloc, label.name, said)?;
    let mut names = Vec::new(alloc);
    for other in mapped {
        if other.id == label.id {
            names.push(other.name)?;
        }
    }
    push_hint(alloc, &mut message, label.name, names.as_slice())?;
    Ok(message)
}

// Returns whether some map of the domain has the label.
fn is_known(mapped: &[Label<'_>], label: Label<'_>) -> bool {
    mapped
        .iter()
        .any(|other| other.id == label.id && other.name == label.name)
}

/// Warns that the label of a line names no mapping, if no earlier map of the domain has it.
pub(crate) fn warn_label(
    alloc: Global,
    found: &mut Vec<Finding>,
    number: u32,
    line: &str,
    label: Label<'_>,
    mapped: &[Label<'_>],
) -> Result<(), AllocError>
    ensures { OnOk result (error_lines found.new.items ≡ error_lines found.old.items) }
{
    if label.is_mapped || is_known(mapped, label) {
        return Ok(());
    }
    let message = message_of(alloc, label, mapped)?;
    let kind = FindingKind::NeverMapped;
    push_warning(
        found,
        Finding {
            kind,
            line: number,
            column: column_number(column_of(line.as_bytes(), 3)),
            message,
        },
    )
}

impl<'t> Label<'t> {
    /// Returns whether the call of the label is a map.
    pub(crate) fn is_mapped(&self) -> bool {
        self.is_mapped
    }
}
