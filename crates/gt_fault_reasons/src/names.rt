//! The reasons for which a question about a policy has no answer.
ghost use Rattle.std.specs.Prelude.{◌≡◌, ◌++◌, OnOk, codes};
ghost use Rattle.gt_findings.specs.Report.{AddsText};
ghost use Rattle.gt_fault_reasons.specs.Reasons.{AppendsNameReason, IsNameLine};

use crate::limits::push_undeclared;
use crate::texts::push_word;
use gt_findings::{permission_names, push_hint};
use gt_policy::statements_of;
use gt_text::{push_text, text_of};
use std::alloc::{AllocError, Global};

// Appends `FILE: `.
fn push_file(out: &mut Vec<u8>, file: &str) -> Result<(), AllocError>
    ensures { OnOk result (out.new.items ≡ out.old.items ++ file.now ++ codes ": ") }
{
    push_text(out, file)?;
    push_text(out, ": ")
}

// Appends `FILE: "NAME"MESSAGE` and a line feed.
fn push_name(out: &mut Vec<u8>, file: &str, name: &str, message: &[u8]) -> Result<(), AllocError>
    ensures { OnOk result (AddsText (IsNameLine file.now name.now message.now) out.old.items out.new.items) }
{
    push_file(out, file)?;
    push_word(out, name.as_bytes())?;
    push_rest(out, message)
}

// Appends the rest of a line.
fn push_rest(out: &mut Vec<u8>, message: &[u8]) -> Result<(), AllocError>
    ensures { OnOk result (out.new.items ≡ out.old.items ++ message.now ++ codes "\n") }
{
    out.extend_from_slice(message)?;
    push_text(out, "\n")
}

// Makes the message about a name that the policy does not declare as a type.
fn type_message(alloc: Global, input: &[u8], name: &str) -> Result<Vec<u8>, AllocError> {
    let mut message = Vec::new(alloc);
    let text = text_of(input).unwrap_or("");
    let Ok(statements) = statements_of(alloc, text) else {
        return Err(AllocError);
    };
    push_undeclared(alloc, &mut message, statements.as_slice(), name)?;
    Ok(message)
}

/// Appends that a name is not a type of the policy in these bytes: a line `FILE: "NAME" REASON`, with the name that may
/// be meant. After an Err, part of it may have been appended.
pub fn push_type_reason(
    alloc: Global,
    out: &mut Vec<u8>,
    file: &str,
    input: &[u8],
    name: &str,
) -> Result<(), AllocError>
    ensures { OnOk result (AppendsNameReason file.now name.now out.old.items out.new.items) }
{
    let message = type_message(alloc, input, name)?;
    push_name(out, file, name, message.as_slice())
}

// Makes the message about a word that is not a permission.
fn permission_message(alloc: Global, word: &str) -> Result<Vec<u8>, AllocError> {
    let mut message = Vec::new(alloc);
    let names = permission_names(alloc)?;
    push_text(&mut message, " is not one of the permissions ")?;
    for (i, name) in names.iter().enumerate() {
        push_text(&mut message, if i == 0 { "" } else { ", " })?;
        push_text(&mut message, name)?;
    }
    push_hint(alloc, &mut message, word, names.as_slice())?;
    Ok(message)
}

/// Appends that a word is not a permission of class `grant`: a line `FILE: "WORD" REASON`, with the one that may be
/// meant. After an Err, part of it may have been appended.
pub fn push_permission_reason(
    alloc: Global,
    out: &mut Vec<u8>,
    file: &str,
    word: &str,
) -> Result<(), AllocError>
    ensures { OnOk result (AppendsNameReason file.now word.now out.old.items out.new.items) }
{
    let message = permission_message(alloc, word)?;
    push_name(out, file, word, message.as_slice())
}
