//! Prints all that was found: unknown words, breaches of `neverallow` statements, and then breaches of `neverflow`
//! statements, each as an error at that statement.
ghost use Rattle.std.specs.Prelude.{ℕ, List, codes, IfOk, OnOk};
ghost use Rattle.gt_findings.specs.Columns.{AreStarts};
ghost use Rattle.gt_findings.specs.LineWords.{AreWordColumns};
ghost use Rattle.gt_findings.specs.Report.{AddsText};
ghost use Rattle.gt_neverflow.specs.Printing.{IsFlowBreachReport, IsFlowError, IsFlowText, IsNeverReport};

use crate::finding::NeverFindings;
use crate::flowing::FlowBreach;
use gt_findings::{
    Finding, FindingKind, LinedText, ReportForm, WordColumns, line_starts, push_finding,
    push_findings, word_columns,
};
use gt_neverallow::{LinedTexts, push_breaches};
use gt_text::push_text;
use std::alloc::{AllocError, Global};

/// A policy and a text of `neverallow` and `neverflow` statements, each after the name with which lines about it begin.
#[derive(Clone, Copy)]
pub struct BrokenTexts<'t> {
    pub file: &'t str,
    pub policy: &'t str,
    pub never_file: &'t str,
    pub never: &'t str,
}

// Makes the error at a `neverflow` statement, for a text with these columns of `neverflow`.
fn flow_error_of(
    alloc: Global,
    flows: &WordColumns,
    breach: &FlowBreach,
) -> Result<Finding, AllocError>
    ensures { (text : List ℕ) → AreWordColumns text (codes "neverflow") flows.now.columns.items
        → IfOk result (λ x. IsFlowError text breach.now x) }
{
    let column = flows.on_line(breach.forbidden);
    let mut message = Vec::new(alloc);
    push_text(&mut message, "the policy lets bytes flow ")?;
    message.extend_from_slice(breach.path.as_slice())?;
    push_text(&mut message, ", which this statement forbids")?;
    Ok(Finding {
        kind: FindingKind::Fault,
        line: breach.forbidden,
        column,
        message,
    })
}

/// The text of `neverflow` statements after its name, its columns of `neverflow`, and the form in which errors at it are
/// printed.
#[derive(Clone, Copy)]
struct FlowStatements<'t> {
    form: ReportForm,
    file: &'t str,
    never: LinedText<'t>,
    flows: &'t WordColumns,
}

// Appends a breach of a `neverflow` statement: its error.
fn push_flow_breach(
    alloc: Global,
    out: &mut Vec<u8>,
    at: &FlowStatements,
    breach: &FlowBreach,
) -> Result<(), AllocError>
    requires lines { AreStarts at.now.never.text.now at.now.never.lines.now.starts.items }
    requires columns { AreWordColumns at.now.never.text.now (codes "neverflow") at.now.flows.now.columns.items }
    ensures { OnOk result (AddsText (IsFlowText at.now.form at.now.file.now at.now.never.text.now breach.now)
        out.old.items out.new.items) }
{
    let error = flow_error_of(alloc, at.flows, breach)?;
    push_finding(out, at.form, at.file, at.never, &error)
}

// Appends the breaches of `neverflow` statements.
fn push_flow_breaches(
    alloc: Global,
    out: &mut Vec<u8>,
    form: ReportForm,
    file: &str,
    never: LinedText,
    found: &[FlowBreach],
) -> Result<(), AllocError>
    requires { AreStarts never.text.now never.lines.now.starts.items }
    ensures { OnOk result (AddsText (IsFlowBreachReport form file.now never.entry.text.now found.now)
        out.old.items out.new.items) }
{
    let flows = word_columns(alloc, never.text.as_bytes(), never.lines, "neverflow")?;
    let at = FlowStatements {
        form,
        file,
        never,
        flows: &flows,
    };
    'found: for breach in found {
        push_flow_breach(alloc, out, &at, breach)?;
    }
    Ok(())
}

/// Appends what was found, in this form: the words that nothing knows, then the breaches of `neverallow` statements,
/// each as an error at the allow statement and a note at the `neverallow` statement, and then those of `neverflow`
/// statements, each as an error at that statement. After an Err, part of it may have been appended.
pub fn push_never_findings(
    alloc: Global,
    out: &mut Vec<u8>,
    form: ReportForm,
    texts: &BrokenTexts,
    found: &NeverFindings,
) -> Result<(), AllocError>
    ensures { OnOk result (AddsText (IsNeverReport form texts.now.file.now texts.now.policy.now
        texts.now.never_file.now texts.now.never.now found.now) out.old.items out.new.items) }
{
    let policy_lines = line_starts(alloc, texts.policy.as_bytes())?;
    let never_lines = line_starts(alloc, texts.never.as_bytes())?;
    let lined = LinedTexts {
        file: texts.file,
        policy: LinedText {
            text: texts.policy,
            lines: &policy_lines,
        },
        never_file: texts.never_file,
        never: LinedText {
            text: texts.never,
            lines: &never_lines,
        },
    };
    push_findings(
        alloc,
        out,
        form,
        texts.never_file,
        texts.never,
        found.words.as_slice(),
    )?;
    push_breaches(alloc, out, form, &lined, found.breaches.as_slice())?;
    push_flow_breaches(
        alloc,
        out,
        form,
        texts.never_file,
        lined.never,
        found.flows.as_slice(),
    )
}
