//! The entries that the lines of a script may grant.
ghost use Rattle.std.specs.Prelude.{◌≡◌, ℕ, None, Some, All, IfOk};
ghost use Rattle.gt_explore_moves.specs.Granting.{ActionMayGrant, AsksOnlyFitting, CallMayGrant, IsListed};
ghost use Rattle.gt_explore_moves.specs.declared.granted.GrantedEntry.{GrantedEntry};
ghost use Rattle.gt_model.specs.Bytes.{Spells};
ghost use Rattle.gt_model.specs.declared.entry.Entry.{Entry};
ghost use Rattle.gt_types.specs.declared.GrantRef.{GrantRef};

use crate::moves::said_fits;
use gt_entry::{Entry, decode};
use gt_script::{RunAction, RunTask};
use gt_script_lines::{ScriptCall, hex_bytes};
use gt_types::{DomId, GrantRef};
use std::alloc::{AllocError, Global};

/// An entry that a line may grant.
#[derive(Clone, Copy)]
pub struct GrantedEntry {
    /// The domain of the line.
    pub owner: DomId,
    pub gref: GrantRef,
    pub entry: Entry,
}

// Returns the entry that these bytes encode in a table of either version, if they encode one.
fn entry_in(bytes: &[u8]) -> Option<Entry>
    ensures { (version : ℕ) (entry : Entry) → Spells version bytes.now entry → result ≡ Some entry }
{
    match decode(1, bytes) {
        Ok(entry) => Some(entry),
        Err(_) => match decode(2, bytes) {
            Ok(entry) => Some(entry),
            Err(_) => None,
        },
    }
}

// Returns what a call of this domain may grant.
fn granted_by_call(
    alloc: Global,
    dom: DomId,
    call: &ScriptCall<'_>,
) -> Result<Option<GrantedEntry>, AllocError>
    ensures { IfOk result (λ granted. (r : GrantRef) (e : Entry) → CallMayGrant call.now r e
        → granted ≡ Some (record { owner = dom; gref = r; entry = e })) }
{
    match call {
        ScriptCall::Grant { gref, entry } => Ok(Some(GrantedEntry {
            owner: dom,
            gref: *gref,
            entry: *entry,
        })),
        ScriptCall::GrantBytes { gref, hex } => {
            let bytes = hex_bytes(alloc, hex)?;
            match entry_in(bytes.as_slice()) {
                Some(entry) => Ok(Some(GrantedEntry {
                    owner: dom,
                    gref: *gref,
                    entry,
                })),
                None => Ok(None),
            }
        }
        _ => Ok(None),
    }
}

// Returns what a task may grant.
fn granted_by(alloc: Global, task: &RunTask<'_>) -> Result<Option<GrantedEntry>, AllocError>
    ensures granted { IfOk result (λ granted. (r : GrantRef) (e : Entry) → ActionMayGrant task.now.run_action r e
        → granted ≡ Some (record { owner = task.now.dom; gref = r; entry = e })) }
    ensures fits { AsksOnlyFitting task.now.run_action }
{
    match &task.run_action {
        RunAction::Do(call) => {
            said_fits(call);
            granted_by_call(alloc, task.dom, call)
        }
        _ => Ok(None),
    }
}

/// Lists the entries that these tasks may grant.
///
/// # Errors
/// An allocation failed.
pub fn entries_granted(
    alloc: Global,
    tasks: &[RunTask<'_>],
) -> Result<Vec<GrantedEntry>, AllocError>
    ensures { IfOk result (λ grants. All (IsListed grants.items) tasks.now) }
{
    let mut grants = Vec::new(alloc);
    'tasks: for task in tasks {
        if let Some(granted) = granted_by(alloc, task)? {
            grants.push(granted)?;
        }
    }
    Ok(grants)
}
