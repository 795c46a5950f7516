//! Warnings about the policy block of a script.
ghost use Rattle.std.specs.Prelude.{◌≡◌, OnOk};
ghost use Rattle.gt_findings.specs.Findings.{error_lines};

use crate::script_findings::warning::{is_error, push_warning};
use gt_fault_reasons::block_text;
use gt_findings::Finding;
use gt_policy_check::check_worn;
use gt_types::Memory;
use std::alloc::{AllocError, Global};

// Adds those of the findings that are not errors.
fn push_warnings(found: &mut Vec<Finding>, more: Vec<Finding>) -> Result<(), AllocError>
    ensures { OnOk result (error_lines found.new.items ≡ error_lines found.old.items) }
{
    'more: for finding in more {
        if !is_error(finding.kind) {
            push_warning(found, finding)?;
        }
    }
    Ok(())
}

/// Warns of what is useless in the policy block, if the script has one, for domains of these types.
pub(crate) fn warn_block(
    alloc: Global,
    found: &mut Vec<Finding>,
    lines: &[&str],
    worn: &[&str],
) -> Result<(), Memory>
    ensures { OnOk result (error_lines found.new.items ≡ error_lines found.old.items) }
{
    let Some(block) = block_text(alloc, lines)? else {
        return Ok(());
    };
    let more = check_worn(alloc, block.as_str(), worn)?;
    push_warnings(found, more)?;
    Ok(())
}
