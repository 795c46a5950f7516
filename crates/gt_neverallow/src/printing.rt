//! Prints breaches of `neverallow` statements: each as an error at the allow statement, with a note at the `neverallow`
//! statement.
ghost use Rattle.std.specs.Prelude.{ℕ, List, codes, IfOk, OnOk};
ghost use Rattle.gt_findings.specs.LineWords.{AreWordColumns};
ghost use Rattle.gt_findings.specs.Report.{AddsText};
ghost use Rattle.gt_neverallow.specs.Printing.{HaveColumns, HaveLines, IsBreachError, IsBreachNote, IsBreachReport, IsBreachText};

use crate::breaking::Breach;
use gt_findings::{
    Finding, FindingKind, LinedText, ReportForm, WordColumns, push_finding, word_columns,
};
use gt_text::push_text;
use std::alloc::{AllocError, Global};

/// A policy and a text of `neverallow` statements, each after the name with which lines about it begin.
#[derive(Clone, Copy)]
pub struct LinedTexts<'t> {
    pub file: &'t str,
    pub policy: LinedText<'t>,
    pub never_file: &'t str,
    pub never: LinedText<'t>,
}

/// The columns of the first words of statements: of `allow` in the policy, and of `neverallow` in the other text.
#[derive(Drop)]
pub(crate) struct BreachColumns {
    pub allows: WordColumns,
    pub nevers: WordColumns,
}

// Returns the columns of the first words of the statements in these texts.
fn columns_of(alloc: Global, texts: &LinedTexts) -> Result<BreachColumns, AllocError>
    requires { HaveLines texts.now }
    ensures { IfOk result (λ columns. HaveColumns texts.now columns) }
{
    let policy = texts.policy;
    let never = texts.never;
    let allows = word_columns(alloc, policy.text.as_bytes(), policy.lines, "allow")?;
    let nevers = word_columns(alloc, never.text.as_bytes(), never.lines, "neverallow")?;
    Ok(BreachColumns { allows, nevers })
}

// Makes the error at the allow statement, for a policy with these columns of `allow`.
fn error_of(alloc: Global, allows: &WordColumns, breach: &Breach) -> Result<Finding, AllocError>
    ensures { (text : List ℕ) → AreWordColumns text (codes "allow") allows.now.columns.items
        → IfOk result (λ x. IsBreachError text breach.now x) }
{
    let column = allows.on_line(breach.allowed);
    let mut message = Vec::new(alloc);
    push_text(&mut message, "this statement allows ")?;
    message.extend_from_slice(breach.example.as_slice())?;
    push_text(&mut message, ", which a neverallow statement forbids")?;
    Ok(Finding {
        kind: FindingKind::Fault,
        line: breach.allowed,
        column,
        message,
    })
}

// Makes the note at the `neverallow` statement, for a text with these columns of `neverallow`.
fn note_of(alloc: Global, nevers: &WordColumns, breach: &Breach) -> Result<Finding, AllocError>
    ensures { (text : List ℕ) → AreWordColumns text (codes "neverallow") nevers.now.columns.items
        → IfOk result (λ x. IsBreachNote text breach.now x) }
{
    let column = nevers.on_line(breach.forbidden);
    let mut message = Vec::new(alloc);
    push_text(&mut message, "this statement forbids it")?;
    Ok(Finding {
        kind: FindingKind::Note,
        line: breach.forbidden,
        column,
        message,
    })
}

// Appends a breach: its error, and its note.
fn push_breach(
    alloc: Global,
    out: &mut Vec<u8>,
    form: ReportForm,
    texts: &LinedTexts,
    columns: &BreachColumns,
    breach: &Breach,
) -> Result<(), AllocError>
    requires lines { HaveLines texts.now }
    requires columns { HaveColumns texts.now columns.now }
    ensures { OnOk result (AddsText (IsBreachText form texts.now.file.now texts.now.policy.text.now
        texts.now.never_file.now texts.now.never.text.now breach.now) out.old.items out.new.items) }
{
    let error = error_of(alloc, &columns.allows, breach)?;
    push_finding(out, form, texts.file, texts.policy, &error)?;
    let note = note_of(alloc, &columns.nevers, breach)?;
    push_finding(out, form, texts.never_file, texts.never, &note)
}

/// Appends the breaches in this form, each as an error at the allow statement and a note at the `neverallow` statement.
/// After an Err, part of them may have been appended.
pub fn push_breaches(
    alloc: Global,
    out: &mut Vec<u8>,
    form: ReportForm,
    texts: &LinedTexts,
    found: &[Breach],
) -> Result<(), AllocError>
    requires { HaveLines texts.now }
    ensures { OnOk result (AddsText (IsBreachReport form texts.now.file.now texts.now.policy.text.now
        texts.now.never_file.now texts.now.never.text.now found.now) out.old.items out.new.items) }
{
    let columns = columns_of(alloc, texts)?;
    'found: for breach in found {
        push_breach(alloc, out, form, texts, &columns, breach)?;
    }
    Ok(())
}
