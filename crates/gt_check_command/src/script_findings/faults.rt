//! The error of bytes that are not a script.
ghost use Rattle.std.specs.Prelude.{◌≡◌, ◌⊎◌, ◌∷◌, [], ℕ, Some, IfOk, OnOk};
ghost use Rattle.gt_findings.specs.Findings.{error_lines};
ghost use Rattle.gt_check_command.specs.Judging.{error_line, IsAtLater};

use crate::script_findings::warning::{column_number, push_warning};
use gt_fault_reasons::{Reason, ReasonNote, script_reason};
use gt_findings::{Finding, FindingKind};
use gt_policy_reasons::block_reason;
use gt_script::{ScriptError, ScriptFaultKind};
use gt_types::Memory;
use std::alloc::{AllocError, Global};

// Returns the line of a fault; None for a failed allocation.
fn line_of(error: &ScriptError) -> Option<usize>
    ensures { result ≡ error_line error.now }
{
    match error {
        ScriptError::Memory => None,
        ScriptError::Fault(fault) => Some(fault.line),
        ScriptError::Policy(fault) => Some(fault.line),
    }
}

fn reason_of(alloc: Global, input: &[u8], error: &ScriptError) -> Result<Reason, Memory> {
    match error {
        ScriptError::Memory => Err(Memory),
        ScriptError::Fault(fault) => {
            let reason = script_reason(alloc, input, fault)?;
            Ok(reason)
        }
        ScriptError::Policy(_) => {
            let reason = block_reason(alloc, input)?;
            Ok(reason)
        }
    }
}

// Adds the note of an error, if there is one.
fn push_note(found: &mut Vec<Finding>, note: Option<ReasonNote>) -> Result<(), AllocError>
    ensures { OnOk result (error_lines found.new.items ≡ error_lines found.old.items) }
{
    let Some(note) = note else {
        return Ok(());
    };
    push_warning(
        found,
        Finding {
            kind: FindingKind::Note,
            line: column_number(note.line),
            column: column_number(note.column),
            message: note.message,
        },
    )
}

// Makes the finding of a fault on this line. A script has far fewer lines than 32 bits can count.
fn error_at(
    alloc: Global,
    input: &[u8],
    error: &ScriptError,
    line: usize,
) -> Result<Vec<Finding>, Memory>
    ensures { IfOk result (λ v. error_lines v.items ≡ line ∷ []) }
{
    let Ok(number) = u32::try_from(line) else {
        return Err(Memory);
    };
    let Reason {
        column,
        message,
        note,
    } = reason_of(alloc, input, error)?;
    let mut found = Vec::new(alloc);
    found.push(Finding {
        kind: FindingKind::Fault,
        line: number,
        column: column_number(column),
        message,
    })?;
    push_note(&mut found, note)?;
    Ok(found)
}

// Returns whether the fault is that a line is for the other command.
fn is_mode(error: &ScriptError) -> bool {
    match error {
        ScriptError::Fault(fault) => fault.kind == ScriptFaultKind::Mode,
        ScriptError::Policy(_) | ScriptError::Memory => false,
    }
}

/// Returns the error of bytes that are not a script for `play`, nor for `run`: the one of the two faults that is
/// further down. If both are on one line and one of them is `mode`, it is the other one.
pub(crate) fn errors(
    alloc: Global,
    input: &[u8],
    play: &ScriptError,
    run: &ScriptError,
) -> Result<Vec<Finding>, Memory>
    ensures { IfOk result (λ v. IsAtLater play.now run.now v.items) }
{
    match (line_of(play), line_of(run)) {
        (Some(line), Some(other)) => {
            if line < other || line == other && is_mode(play) {
                error_at(alloc, input, run, other)
            } else {
                error_at(alloc, input, play, line)
            }
        }
        _ => Err(Memory),
    }
}
