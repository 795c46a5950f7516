//! The reasons of faults of texts beside the one that a command is about.
use crate::collecting::read_words;
use crate::copying::KeptInput;
use gt_fault_reasons::{push_read_reason, push_utf8_reason};
use gt_findings::{permission_names, push_hint, said_of};
use gt_policy::{PolicyFault, PolicyFaultKind};
use gt_policy_list::ListingFault;
use gt_policy_reasons::{NeverText, push_policy_reason};
use gt_text::{ReadFault, text_of};
use std::alloc::{AllocError, Global};

// Returns that a word is not a permission, with the one that may be meant.
fn permission_words(alloc: Global, word: &str) -> Result<Vec<u8>, AllocError> {
    let mut words = said_of(alloc, word, " is not a permission of class grant")?;
    let names = permission_names(alloc)?;
    push_hint(alloc, &mut words, word, names.as_slice())?;
    Ok(words)
}

const NO_PART: &str = " is not part of a neverallow or neverflow statement";

// Returns what is wrong with `neverallow` and `neverflow` statements, with what may be meant.
fn never_message(alloc: Global, kind: &PolicyFaultKind) -> Result<Vec<u8>, AllocError> {
    let words: &[u8] = match kind {
        PolicyFaultKind::Unknown(name) => {
            return said_of(alloc, name.as_str(), " is not declared in the policy");
        }
        PolicyFaultKind::Twice(name) => return said_of(alloc, name.as_str(), " is declared twice"),
        PolicyFaultKind::Permission(word) => return permission_words(alloc, word.as_str()),
        PolicyFaultKind::Outside(word) => return said_of(alloc, word.as_str(), NO_PART),
        PolicyFaultKind::Syntax => {
            b"expected neverallow SOURCE TARGET:CLASS PERMISSION; or neverflow SOURCE TARGET;"
        }
        PolicyFaultKind::Limit => b"more than 1048576 bytes",
        PolicyFaultKind::Memory => b"memory",
    };
    Vec::from_slice(alloc, words)
}

/// Returns the reason for which `neverallow` statements were refused, with their place.
pub(crate) fn never_reason(
    alloc: Global,
    never: &str,
    fault: &PolicyFault,
) -> Result<Vec<u8>, AllocError> {
    let mut said = Vec::new(alloc);
    if let PolicyFaultKind::Memory = fault.kind {
        return Ok(said);
    }
    let words = never_message(alloc, &fault.kind)?;
    let place = format!(in alloc; "{never}:{}", fault.line)?;
    push_read_reason(&mut said, place.as_str(), words.as_slice())?;
    Ok(said)
}

// Returns whether a line has no statement: it is blank, or a comment.
fn is_bare(line: &str) -> bool {
    let line = line.trim();
    line.is_empty() || line.starts_with('#')
}

// Returns why a text forbids nothing of class `grant`.
fn nothing_words(text: &str) -> &'static str {
    if text.is_empty() {
        "the text is empty: it forbids nothing"
    } else if text.lines().all(|line| is_bare(line)) {
        "the text has no statement: it forbids nothing"
    } else {
        "no statement forbids a permission of class grant"
    }
}

/// Returns that a policy allows nothing, if its text has no statement.
pub(crate) fn bare_reason(alloc: Global, file: &str, bytes: &[u8]) -> Result<Vec<u8>, AllocError> {
    let mut said = Vec::new(alloc);
    let Ok(text) = text_of(bytes) else {
        return Ok(said);
    };
    if text.is_empty() {
        push_read_reason(&mut said, file, b"the text is empty: it allows nothing")?;
    } else if text.lines().all(|line| is_bare(line)) {
        push_read_reason(
            &mut said,
            file,
            b"the text has no statement: it allows nothing",
        )?;
    }
    Ok(said)
}

/// Returns the reason for which `neverallow` statements that forbid nothing of class `grant` were refused.
pub(crate) fn nothing_reason(
    alloc: Global,
    never: &NeverText,
    line: u32,
) -> Result<Vec<u8>, AllocError> {
    let mut said = Vec::new(alloc);
    let file = never.file;
    let place = format!(in alloc; "{file}:{line}")?;
    push_read_reason(
        &mut said,
        place.as_str(),
        nothing_words(never.text).as_bytes(),
    )?;
    Ok(said)
}

/// Returns the reason for which bytes are not a text, or not a policy.
pub(crate) fn text_reason(
    alloc: Global,
    file: &str,
    bytes: &[u8],
    fault: &ListingFault,
) -> Result<Vec<u8>, AllocError> {
    let mut said = Vec::new(alloc);
    match fault {
        ListingFault::Utf8 { line } => push_utf8_reason(alloc, &mut said, file, bytes, *line)?,
        ListingFault::Policy(fault) => push_policy_reason(alloc, &mut said, file, bytes, fault)?,
        ListingFault::Read | ListingFault::Memory | ListingFault::Write => {}
    }
    Ok(said)
}

/// Returns that a line of the standard input is not a question.
pub(crate) fn question_reason(alloc: Global, number: usize) -> Result<Vec<u8>, AllocError> {
    let mut said = Vec::new(alloc);
    let place = format!(in alloc; "<stdin>:{number}")?;
    push_read_reason(
        &mut said,
        place.as_str(),
        b"expected SOURCE TARGET PERMISSION",
    )?;
    Ok(said)
}

/// Returns the reason for which a text to compare with was not read: a read that failed, or too many bytes.
pub(crate) fn given_reason(
    alloc: Global,
    file: &str,
    input: &KeptInput,
    fault: ReadFault,
) -> Result<Vec<u8>, AllocError> {
    let mut said = Vec::new(alloc);
    match fault {
        ReadFault::Memory => {}
        ReadFault::Read if input.fault().is_empty() => {
            push_read_reason(&mut said, file, b"more than 1048576 bytes")?;
        }
        ReadFault::Read => push_read_reason(&mut said, file, read_words(input.fault()))?,
    }
    Ok(said)
}
