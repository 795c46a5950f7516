//! Writes findings.
ghost use Rattle.std.specs.Prelude.{◌≡◌, IfOk};
ghost use Rattle.std.specs.List.{list_any};
ghost use Rattle.gt_findings.specs.Findings.{is_error};
ghost use Rattle.gt_findings.specs.Report.{IsReport};
ghost use Rattle.gt_check_command.specs.Reporting.{WritesFindings};

use gt_findings::{Finding, FindingKind, ReportForm, push_findings};
use gt_policy_list::ListingFault;
use gt_text::finish;
use std::alloc::{AllocError, Global};
use std::io::Write;

fn has_error(found: &[Finding]) -> bool
    ensures { result ≡ list_any (λ x. is_error x.kind) found.now }
{
    found
        .iter()
        .any(|finding| matches!(finding.kind, FindingKind::Fault))
}

// Prints the findings in this form.
fn report(
    alloc: Global,
    file: &str,
    form: ReportForm,
    text: &str,
    found: &[Finding],
) -> Result<Vec<u8>, AllocError>
    ensures { IfOk result (λ said. IsReport form file.now found.now said.items) }
{
    let mut out = Vec::new(alloc);
    push_findings(alloc, &mut out, form, file, text, found)?;
    Ok(out)
}

/// Writes findings, and returns whether none of them is an error.
pub(crate) fn write_findings<W: Write>(
    alloc: Global,
    file: &str,
    form: ReportForm,
    text: &str,
    found: &[Finding],
    writer: &mut W,
) -> Result<bool, ListingFault>
    ensures { WritesFindings form file.now found.now (W.contents writer.old) (W.contents writer.new) result }
{
    let Ok(said) = report(alloc, file, form, text, found) else {
        return Err(ListingFault::Memory);
    };
    match finish(writer, said.as_slice()) {
        Ok(()) => Ok(!has_error(found)),
        Err(_) => Err(ListingFault::Write),
    }
}
