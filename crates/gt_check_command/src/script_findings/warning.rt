//! Findings other than errors.
ghost use Rattle.std.specs.Prelude.{◌≡◌, false, OnOk};
ghost use Rattle.gt_findings.specs.Findings.{error_lines, is_error};

use gt_findings::{Finding, FindingKind};
use std::alloc::AllocError;

/// Returns whether a finding of this kind is an error.
pub(crate) fn is_error(kind: FindingKind) -> bool
    ensures { result ≡ is_error kind }
{
    match kind {
        FindingKind::Fault => true,
        FindingKind::OtherClass
        | FindingKind::OtherPermission
        | FindingKind::AllowsNothing
        | FindingKind::NeverAsked
        | FindingKind::Repeats
        | FindingKind::NeverNamed
        | FindingKind::NoDomain
        | FindingKind::NeverMatters
        | FindingKind::NeverMapped
        | FindingKind::NoStatement
        | FindingKind::AlwaysRefused
        | FindingKind::Note => false,
    }
}

/// Converts a line or column to a number of a finding. One that needs more than 32 bits becomes 1.
pub(crate) fn column_number(column: usize) -> u32 {
    match u32::try_from(column) {
        Ok(column) => column,
        Err(_) => 1,
    }
}

/// Adds a finding that is not an error.
#[tactic(auto, using(crate::proofs::ErrorLemmas::warned))]
pub(crate) fn push_warning(found: &mut Vec<Finding>, finding: Finding) -> Result<(), AllocError>
    requires { is_error finding.kind ≡ false }
    ensures { OnOk result (error_lines found.new.items ≡ error_lines found.old.items) }
{
    found.push(finding)?;
    Ok(())
}
