//! The reasons for the faults of a policy, and of the policy block of a script.
ghost use Rattle.std.specs.Prelude.{OnOk};
ghost use Rattle.gt_fault_reasons.specs.Reasons.{AppendsReasonAt};

use gt_fault_reasons::{Reason, ReasonNote, block_text, limit_reason, push_reason, utf8_reason};
use gt_findings::{Finding, FindingKind};
use gt_policy::PolicyFault;
use gt_policy_check::check;
use gt_script::BlockFault;
use gt_script_lines::text_lines;
use gt_text::text_of;
use gt_types::LONGEST_TEXT;
use std::alloc::{AllocError, Global};

// Returns the note of an error, if this finding is a note.
fn note_found(alloc: Global, finding: Option<&Finding>) -> Result<Option<ReasonNote>, AllocError> {
    match finding {
        Some(note) if matches!(note.kind, FindingKind::Note) => Ok(Some(ReasonNote {
            line: note.line as usize,
            column: note.column as usize,
            message: Vec::from_slice(alloc, note.message.as_slice())?,
        })),
        _ => Ok(None),
    }
}

// Makes the reason of the findings in a policy block: its error, and the note after it.
fn reason_found(alloc: Global, found: &[Finding]) -> Result<Reason, AllocError> {
    let [error, others @ ..] = found else {
        return Reason::of_line(alloc, "the policy block has a fault");
    };
    Ok(Reason {
        column: error.column as usize,
        message: Vec::from_slice(alloc, error.message.as_slice())?,
        note: note_found(alloc, others.first())?,
    })
}

// Returns the reason for the fault of a text that is not a policy.
fn text_reason(alloc: Global, text: &str) -> Result<Reason, AllocError> {
    match check(alloc, text) {
        Ok(found) => reason_found(alloc, found.as_slice()),
        Err(_) => Err(AllocError),
    }
}

/// Returns the reason for the fault of a script's policy block.
pub fn block_reason(alloc: Global, input: &[u8]) -> Result<Reason, AllocError> {
    let Ok(text) = text_of(input) else {
        return utf8_reason(alloc, input);
    };
    let lines = text_lines(alloc, text)?;
    match block_text(alloc, lines.as_slice())? {
        Some(block) => text_reason(alloc, block.as_str()),
        None => Reason::of_line(alloc, "the script has no policy block"),
    }
}

/// Appends the reason for a fault of a script's policy block: a line `FILE:LINE:COLUMN: REASON`, at the line of the
/// fault. After an Err, part of it may have been appended.
pub fn push_block_reason(
    alloc: Global,
    out: &mut Vec<u8>,
    file: &str,
    input: &[u8],
    fault: &BlockFault,
) -> Result<(), AllocError>
    ensures { OnOk result (AppendsReasonAt file.now fault.now.line out.old.items out.new.items) }
{
    let reason = block_reason(alloc, input)?;
    push_reason(out, file, fault.line, &reason)
}

/// Returns the reason for the fault of a policy text.
pub fn policy_reason(alloc: Global, input: &[u8]) -> Result<Reason, AllocError> {
    if input.len() > LONGEST_TEXT {
        return limit_reason(alloc, "a policy");
    }
    match text_of(input) {
        Ok(text) => text_reason(alloc, text),
        Err(_) => utf8_reason(alloc, input),
    }
}

/// Appends the reason for a fault of a policy text: a line `FILE:LINE:COLUMN: REASON`, at the line of the fault. After
/// an Err, part of it may have been appended.
pub fn push_policy_reason(
    alloc: Global,
    out: &mut Vec<u8>,
    file: &str,
    input: &[u8],
    fault: &PolicyFault,
) -> Result<(), AllocError>
    ensures { OnOk result (AppendsReasonAt file.now fault.now.line out.old.items out.new.items) }
{
    let reason = policy_reason(alloc, input)?;
    push_reason(out, file, fault.line as usize, &reason)
}
