//! Reports of findings.
use crate::compare::same;
use gt_findings::{Finding, FindingKind, ReportForm, push_report};
use std::alloc::{AllocError, Global};

// Letters that take two columns and one, a combining mark, and a control character.
const WIDE: &str = "日本 e\u{301}\u{1b}x";

const REPORT: &str = "wide:1:12: note: below the last letter\n日本 e\u{301}\u{fffd}x\n       ^\n";

// Returns whether a finding at the last letter has this report.
fn is_reported(alloc: Global, wanted: &str) -> Result<bool, AllocError> {
    let mut found = Vec::new(alloc);
    found.push(Finding {
        kind: FindingKind::Note,
        line: 1,
        column: 12,
        message: Vec::from_slice(alloc, b"below the last letter")?,
    })?;
    let mut report = Vec::new(alloc);
    push_report(
        alloc,
        &mut report,
        "wide",
        WIDE,
        found.as_slice(),
        ReportForm::Text,
    )?;
    Ok(report.as_slice() == wanted.as_bytes())
}

#[test]
fn a_caret_is_below_its_letter(rt: HostRuntime) {
    same(&rt, &is_reported(rt.alloc(), REPORT), &Ok(true));
}
