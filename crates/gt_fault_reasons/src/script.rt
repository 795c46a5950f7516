//! The reasons for the faults of a script.
ghost use Rattle.std.specs.Prelude.{◌≡◌, ◌++◌, OnOk, codes};
ghost use Rattle.gt_fault_reasons.specs.Reasons.{AppendsReasonAt};

use crate::blocks::has_policy;
use crate::columns::column_of;
use crate::limits::{config_reason, mode_reason};
use crate::reason::Reason;
use crate::syntax::syntax_reason;
use crate::texts::push_heading;
use crate::waits::stuck_reason;
use gt_explore_choices::{ChoiceWord, first_choice};
use gt_script::{ScriptFault, ScriptFaultKind};
use gt_script_lines::text_lines;
use gt_text::{push_number, push_text, text_of};
use gt_types::LONGEST_TEXT;
use std::alloc::{AllocError, Global};

// Appends the limit of a text.
fn push_limit(out: &mut Vec<u8>, what: &str) -> Result<(), AllocError> {
    push_text(out, what)?;
    push_text(out, " has at most ")?;
    push_number(out, LONGEST_TEXT)?;
    push_text(out, " bytes")
}

/// Returns the reason for a text, called `what`, with more bytes than are read.
pub fn limit_reason(alloc: Global, what: &str) -> Result<Reason, AllocError> {
    let mut message = Vec::new(alloc);
    push_limit(&mut message, what)?;
    Ok(Reason::at(1, message))
}

// Returns the column after these bytes, counted from 1.
fn column_after(front: &[u8]) -> usize {
    let mut column: usize = 1;
    for byte in front {
        column = if *byte == b'\n' {
            1
        } else {
            column.saturating_add(1)
        };
    }
    column
}

/// Returns the reason for bytes that are not UTF-8, with the column of the first bad byte.
pub fn utf8_reason(alloc: Global, input: &[u8]) -> Result<Reason, AllocError> {
    let mut reason = Reason::of_line(alloc, "invalid UTF-8")?;
    if let Err(error) = str::from_utf8(input) {
        reason.column = column_after(&input[..error.valid_up_to()]);
    }
    Ok(reason)
}

// Explains a fault at the end of a script.
fn end_reason(alloc: Global, lines: &[&str], kind: ScriptFaultKind) -> Result<Reason, AllocError> {
    let text = if kind == ScriptFaultKind::Config {
        "the script has no line domain"
    } else if lines.iter().all(|line| line.is_empty()) {
        "the text is empty, and a script begins with a policy block or a line triple"
    } else if has_policy(alloc, lines)? {
        "the policy block is not closed by a line end"
    } else if lines.iter().any(|line| line.as_bytes().contains(&b'\r')) {
        "a line ends with a line feed, and this text has carriage returns alone"
    } else {
        "the script has neither a policy block nor a line triple"
    };
    Reason::of_line(alloc, text)
}

// Explains a fault of a line.
fn line_reason(alloc: Global, lines: &[&str], fault: &ScriptFault) -> Result<Reason, AllocError> {
    let place = fault.line.saturating_sub(1);
    if place >= lines.len() {
        return end_reason(alloc, lines, fault.kind);
    }
    let line = lines[place];
    match fault.kind {
        ScriptFaultKind::Limit | ScriptFaultKind::Utf8 => limit_reason(alloc, "a script"),
        ScriptFaultKind::Syntax => syntax_reason(alloc, line),
        ScriptFaultKind::Config => config_reason(alloc, &lines[..place], line),
        ScriptFaultKind::Mode => mode_reason(alloc, line),
        ScriptFaultKind::Stuck => stuck_reason(alloc, lines, line),
    }
}

// Returns the word of the line of this number, if it is the first line of a script that is a choice.
fn choice_word(alloc: Global, text: &str, line: usize) -> Result<Option<ChoiceWord>, AllocError> {
    match first_choice(alloc, text)? {
        Some(place) if place.line == line => Ok(Some(place.word)),
        _ => Ok(None),
    }
}

// Returns what a line is for that begins with this word.
fn choice_text(word: ChoiceWord) -> &'static str {
    match word {
        ChoiceWord::Maybe => "maybe is for explore: the call may be left out",
        ChoiceWord::Leave => "leave is for explore: the calls of the domain may end here",
    }
}

// Explains that a line is a choice.
fn choice_reason(
    alloc: Global,
    lines: &[&str],
    line: usize,
    word: ChoiceWord,
) -> Result<Reason, AllocError> {
    let mut reason = Reason::of_line(alloc, choice_text(word))?;
    if let Some(line) = lines.get(line.saturating_sub(1)) {
        reason.column = column_of(line.as_bytes(), 0);
    }
    Ok(reason)
}

/// Returns the reason for a fault that `parse` or `parse_run` found in these bytes.
pub fn script_reason(
    alloc: Global,
    input: &[u8],
    fault: &ScriptFault,
) -> Result<Reason, AllocError> {
    match (fault.kind, text_of(input)) {
        (ScriptFaultKind::Limit, _) => limit_reason(alloc, "a script"),
        (_, Err(_)) => utf8_reason(alloc, input),
        (_, Ok(text)) => {
            let lines = text_lines(alloc, text)?;
            match choice_word(alloc, text, fault.line)? {
                Some(word) => choice_reason(alloc, lines.as_slice(), fault.line, word),
                None => line_reason(alloc, lines.as_slice(), fault),
            }
        }
    }
}

/// Appends a reason for a line: `FILE:LINE:COLUMN: REASON`. After an Err, part of it may have been appended.
pub fn push_reason(
    out: &mut Vec<u8>,
    file: &str,
    line: usize,
    reason: &Reason,
) -> Result<(), AllocError>
    ensures { OnOk result (AppendsReasonAt file.now line out.old.items out.new.items) }
{
    push_heading(out, file, line, reason.column)?;
    out.extend_from_slice(reason.message.as_slice())?;
    push_text(out, "\n")
}

/// Appends the reason for a fault that `parse` or `parse_run` found in these bytes: a line `FILE:LINE:COLUMN: REASON`,
/// at the line of the fault. After an Err, part of it may have been appended.
pub fn push_script_reason(
    alloc: Global,
    out: &mut Vec<u8>,
    file: &str,
    input: &[u8],
    fault: &ScriptFault,
) -> Result<(), AllocError>
    ensures { OnOk result (AppendsReasonAt file.now fault.now.line out.old.items out.new.items) }
{
    let reason = script_reason(alloc, input, fault)?;
    push_reason(out, file, fault.line, &reason)
}

/// Appends where bytes are not UTF-8: a line `FILE:LINE:COLUMN: REASON`, at this line. After an Err, part of it may
/// have been appended.
pub fn push_utf8_reason(
    alloc: Global,
    out: &mut Vec<u8>,
    file: &str,
    input: &[u8],
    line: usize,
) -> Result<(), AllocError>
    ensures { OnOk result (AppendsReasonAt file.now line out.old.items out.new.items) }
{
    let reason = utf8_reason(alloc, input)?;
    push_reason(out, file, line, &reason)
}

/// Appends why a file was not read: a line `FILE: REASON`, in the words of the system. After an Err, part of it may
/// have been appended.
pub fn push_read_reason(out: &mut Vec<u8>, file: &str, said: &[u8]) -> Result<(), AllocError>
    ensures { OnOk result (out.new.items ≡ out.old.items ++ file.now ++ codes ": " ++ said.now ++ codes "\n") }
{
    push_text(out, file)?;
    push_text(out, ": ")?;
    out.extend_from_slice(said)?;
    push_text(out, "\n")
}
