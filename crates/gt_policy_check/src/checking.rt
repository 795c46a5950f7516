//! Finds what is wrong or useless in a policy text.
ghost use Rattle.std.specs.Prelude.{◌≡◌, ◌∷◌, [], true, is_some, Some, ℕ, List, All, IfOk, IfSome};
ghost use Rattle.gt_policy.specs.Shown.{fault_shown};
ghost use Rattle.gt_policy.specs.declared.fault.TokenFault.{TokenFault};
ghost use Rattle.gt_findings.specs.Findings.{HasColumn, error_columns, error_lines};
ghost use Rattle.gt_policy_check.specs.Check.{HasFaultColumn, Judges};
ghost use Rattle.gt_findings.specs.Placing.{HasNoteColumn};

use crate::fault::{Explained, explain};
use crate::judging::warnings;
use gt_findings::{Finding, FindingKind, push_note};
use gt_policy::{PolicyFault, PolicyFaultKind};
use gt_policy_statements::read_policy;
use gt_types::Memory;
use std::alloc::Global;

// Makes the findings for the first fault of a text: an error on this line, and its note.
fn fault_found(alloc: Global, line: u32, explained: Explained) -> Result<Vec<Finding>, Memory>
    ensures lines { IfOk result (λ v. error_lines v.items ≡ line ∷ []) }
    ensures columns { IfOk result (λ v. error_columns v.items ≡ explained.column ∷ []) }
    ensures note { (text : List ℕ) → IfSome explained.note (HasNoteColumn text)
        → IfOk result (λ v. All (HasColumn text) v.items) }
{
    let Explained {
        column,
        message,
        note,
    } = explained;
    let mut found = Vec::new(alloc);
    found.push(Finding {
        kind: FindingKind::Fault,
        line,
        column,
        message,
    })?;
    if let Some(note) = note {
        push_note(&mut found, note)?;
    }
    Ok(found)
}

// Returns the findings of a text with a fault.
fn errors(alloc: Global, text: &str, fault: &PolicyFault) -> Result<Vec<Finding>, Memory>
    ensures line { IfOk result (λ v. error_lines v.items ≡ fault.now.line ∷ []) }
    ensures shown { IfOk result (λ _. is_some (fault_shown fault.now) ≡ true) }
    ensures column { IfOk result (λ v. (f : TokenFault) → fault_shown fault.now ≡ Some f
        → HasFaultColumn text.now f v.items) }
    ensures columns { IfOk result (λ v. All (HasColumn text.now) v.items) }
{
    if let PolicyFaultKind::Memory = fault.kind {
        return Err(Memory);
    }
    let mut explained = Explained {
        column: 1,
        message: Vec::new(alloc),
        note: None,
    };
    explain(alloc, &mut explained, text, fault)?;
    fault_found(alloc, fault.line, explained)
}

// Returns the findings of a text. `worn` has the types of the domains of a script.
fn judge(alloc: Global, text: &str, worn: Option<&[&str]>) -> Result<Vec<Finding>, Memory>
    ensures { IfOk result (λ v. Judges text.now v.items) }
{
    match read_policy(alloc, text) {
        Ok(statements) => warnings(alloc, text.as_bytes(), statements.as_slice(), worn),
        Err(fault) => errors(alloc, text, &fault),
    }
}

/// Checks a policy text. A text that is not a policy has one error, at the line of its first fault. A policy has none.
/// Its warnings include exactly the statements that allow nothing, and exactly those that repeat an earlier one. The
/// only Err is a failed allocation.
pub fn check(alloc: Global, text: &str) -> Result<Vec<Finding>, Memory>
    ensures { IfOk result (λ v. Judges text.now v.items) }
{
    judge(alloc, text, None)
}

/// Checks the policy block of a script whose domains have these types, as `check` does. It also warns of types that no
/// domain has, and of statements that allow nothing to the domains.
pub fn check_worn(alloc: Global, text: &str, worn: &[&str]) -> Result<Vec<Finding>, Memory>
    ensures { IfOk result (λ v. Judges text.now v.items) }
{
    judge(alloc, text, Some(worn))
}
