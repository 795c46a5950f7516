//! Findings as text, in the layout of compilers, and as JSON.
ghost use Rattle.std.specs.Prelude.{◌≡◌, ◌∷◌, ◌++◌, [], chars, codes, encode_utf8, OnOk};
ghost use Rattle.std.specs.List.{flat_map, AllPass};
ghost use Rattle.gt_json.specs.Strings.{quoted};
ghost use Rattle.gt_findings.specs.Columns.{AreStarts};
ghost use Rattle.gt_findings.specs.Report.{heading_text, object_text, position_text, said_text, severity_text};
ghost use Rattle.gt_findings.specs.Report.{caret_text, is_space_or_tab, shown_letter, shown_text, shown_word, AddsText};
ghost use Rattle.gt_findings.specs.Report.{IsTextOfAll};
ghost use Rattle.gt_findings.specs.Report.{IsExcerpt, IsReport, IsFindingText, IsShownText};

use crate::findings::{Finding, FindingKind};
use crate::places::{LinedText, Span, bytes_of, line_starts};
use gt_json::push_quoted;
use gt_text::{push_number, push_text, text_of};
use std::alloc::{AllocError, Global};
use unicode_width::UnicodeWidthChar;

impl FindingKind {
    ghost use Rattle.std.specs.Prelude.{◌≡◌};
    ghost use Rattle.gt_findings.specs.Report.{severity_text};

    /// Returns the severity: `error`, `warning` or `note`.
    pub fn severity(self) -> &'static str
        ensures { result.now ≡ severity_text self }
    {
        match self {
            FindingKind::Fault => "error",
            FindingKind::Note => "note",
            _ => "warning",
        }
    }
}

// Appends the line and the column of a finding.
#[tactic(auto, unfolding(crate::specs::Report::position_text))]
fn push_position(out: &mut Vec<u8>, finding: &Finding, between: &str) -> Result<(), AllocError>
    ensures { OnOk result (out.new.items ≡ out.old.items ++ position_text between.now finding.now) }
{
    push_number(out, finding.line)?;
    push_text(out, between)?;
    push_number(out, finding.column)
}

// Appends the severity and the message.
#[tactic(auto, unfolding(crate::specs::Report::said_text))]
fn push_said(out: &mut Vec<u8>, finding: &Finding) -> Result<(), AllocError>
    ensures { OnOk result (out.new.items ≡ out.old.items ++ said_text finding.now) }
{
    push_text(out, finding.kind.severity())?;
    push_text(out, ": ")?;
    out.extend_from_slice(finding.message.as_slice())?;
    push_text(out, "\n")
}

// Appends `FILE:LINE:COLUMN: SEVERITY: MESSAGE`.
#[tactic(auto, unfolding(crate::specs::Report::heading_text))]
fn push_heading(out: &mut Vec<u8>, file: &str, finding: &Finding) -> Result<(), AllocError>
    ensures { OnOk result (out.new.items ≡ out.old.items ++ heading_text file.now finding.now) }
{
    push_text(out, file)?;
    push_text(out, ":")?;
    push_position(out, finding, ":")?;
    push_text(out, ": ")?;
    push_said(out, finding)
}

/// Appends a character of a line. A control character could move the cursor of the terminal, so U+FFFD replaces it.
pub(crate) fn push_shown(out: &mut Vec<u8>, letter: char) -> Result<(), AllocError>
    ensures { OnOk result (out.new.items ≡ out.old.items ++ encode_utf8 (shown_letter letter)) }
{
    let mut bytes = [0; 4];
    let shown = if letter.is_control() && letter != '\t' {
        '\u{fffd}'
    } else {
        letter
    };
    push_text(out, shown.encode_utf8(&mut bytes))
}

// Appends blanks as wide as a character of a line. A tab stays a tab, so that the caret is right for any tab width.
fn push_blank(out: &mut Vec<u8>, letter: char) -> Result<(), AllocError>
    ensures { OnOk result (AddsText (AllPass is_space_or_tab) out.old.items out.new.items) }
{
    if letter == '\t' {
        return push_text(out, "\t");
    }
    'width: for _ in 0..letter.width().unwrap_or(1) {
        push_text(out, " ")?;
    }
    Ok(())
}

/// Appends the characters of a line, with control characters replaced.
pub(crate) fn push_all_shown(out: &mut Vec<u8>, line: &str) -> Result<(), AllocError>
    ensures { OnOk result (out.new.items ≡ out.old.items ++ shown_text (chars line.now)) }
{
    'letters: for letter in line.chars() {
        push_shown(out, letter)?;
    }
    Ok(())
}

// The most characters of a word that are shown.
const LONGEST_WORD: usize = 160;

/// Appends a word as it is shown in a message: its characters with control characters replaced, or of a long word the
/// first 160, and `...`.
pub(crate) fn push_word(out: &mut Vec<u8>, word: &str) -> Result<(), AllocError>
    ensures { OnOk result (out.new.items ≡ out.old.items ++ shown_word word.now) }
{
    let mut count: usize = 0;
    'letters: for letter in word.chars() {
        if count == LONGEST_WORD {
            return push_text(out, MORE);
        }
        push_shown(out, letter)?;
        count += 1;
    }
    Ok(())
}

// The most bytes of a line that are shown.
const SHOWN: usize = 160;

// What marks that a line goes on.
const MORE: &str = "...";

// The part of a line that is shown: its text, whether the line begins before it and goes on after it, and how many of
// its bytes are before the column.
#[derive(Clone, Copy)]
struct Shown<'t> {
    text: &'t str,
    begins_before: bool,
    goes_on: bool,
    before: usize,
}

// Returns the bytes of a line without its line end, in the time of a look-up.
fn row_of<'t>(lined: LinedText<'t>, line: u32) -> &'t [u8] {
    let bytes = lined.text.as_bytes();
    let last = bytes.len();
    let number = line as usize;
    let starts = lined.lines.starts.as_slice();
    let start = starts
        .get(number.saturating_sub(1))
        .copied()
        .unwrap_or(last);
    let end = match starts.get(number) {
        Some(next) => next.saturating_sub(1),
        None => last,
    };
    match bytes_of(bytes, Span { start, end }) {
        [row @ .., b'\r'] => row,
        row => row,
    }
}

// Returns the first place from this one on, at most three bytes further, at which a character of a line may begin.
fn character_from(row: &[u8], place: usize) -> usize {
    let mut place = place;
    'bytes: for _ in 0..3 {
        match row.get(place) {
            Some(byte) if *byte >= 0x80 && *byte < 0xC0 => place = place.saturating_add(1),
            _ => break,
        }
    }
    place
}

// Returns the part of a line that is shown: all of it, or if it is long the part around the column.
fn shown_of<'t>(row: &'t [u8], column: u32) -> Shown<'t> {
    let place = (column as usize).saturating_sub(1);
    let last = row.len().saturating_sub(SHOWN);
    let from = place.saturating_sub(SHOWN / 2).min(last);
    let start = character_from(row, from);
    let end = character_from(row, from.saturating_add(SHOWN).min(row.len()));
    let text = match text_of(bytes_of(row, Span { start, end })) {
        Ok(text) => text.trim_end_matches('\r'),
        Err(_) => "",
    };
    Shown {
        text,
        begins_before: start > 0,
        goes_on: end < row.len(),
        before: place.saturating_sub(start),
    }
}

// Appends the mark that a line goes on, if it does.
#[tactic(auto, using(crate::proofs::ReportLemmas::shown_all, crate::proofs::ReportLemmas::shown_none))]
fn push_more(out: &mut Vec<u8>, goes_on: bool) -> Result<(), AllocError>
    ensures { OnOk result (AddsText IsShownText out.old.items out.new.items) }
{
    if goes_on {
        return push_all_shown(out, MORE);
    }
    Ok(())
}

// Appends the part of a line that is shown, with marks where the line goes on.
#[tactic(auto, using(crate::proofs::ReportLemmas::shown_all))]
fn push_shown_part(out: &mut Vec<u8>, shown: &Shown) -> Result<(), AllocError>
    ensures { OnOk result (AddsText IsShownText out.old.items out.new.items) }
{
    push_more(out, shown.begins_before)?;
    push_all_shown(out, shown.text)?;
    push_more(out, shown.goes_on)
}

// Appends blanks as wide as the characters of a text that are among its first bytes.
fn push_blanks(out: &mut Vec<u8>, text: &str, before: usize) -> Result<(), AllocError>
    ensures { OnOk result (AddsText (AllPass is_space_or_tab) out.old.items out.new.items) }
{
    'letters: for (place, letter) in text.char_indices() {
        if place >= before {
            break;
        }
        push_blank(out, letter)?;
    }
    Ok(())
}

// Appends the blanks below what is shown before a column, and below the mark that the line begins before it.
fn push_indent(out: &mut Vec<u8>, shown: &Shown) -> Result<(), AllocError>
    ensures { OnOk result (AddsText (AllPass is_space_or_tab) out.old.items out.new.items) }
{
    if shown.begins_before {
        push_blanks(out, MORE, MORE.len())?;
        return push_blanks(out, shown.text, shown.before);
    }
    push_blanks(out, shown.text, shown.before)
}

/// The form in which findings are printed.
#[derive(Clone, Copy)]
pub enum ReportForm {
    /// As compilers print them.
    Text,
    /// The same, with a coloured caret for a terminal.
    Colored,
    /// As one JSON object per line.
    Json,
}

// Returns a caret with a line end, in the colour of the severity if colours are asked for (ECMA-48).
fn caret(kind: FindingKind, form: ReportForm) -> &'static str
    ensures { result.now ≡ caret_text form kind }
{
    match (form, kind) {
        (ReportForm::Text | ReportForm::Json, _) => "^\n",
        (ReportForm::Colored, FindingKind::Fault) => "\x1b[1;31m^\x1b[0m\n",
        (ReportForm::Colored, FindingKind::Note) => "\x1b[1;36m^\x1b[0m\n",
        (ReportForm::Colored, _) => "\x1b[1;33m^\x1b[0m\n",
    }
}

// Appends the line of a finding, or of a long line the part around the column, and a caret below the column.
fn push_excerpt(
    out: &mut Vec<u8>,
    lined: LinedText,
    finding: &Finding,
    form: ReportForm,
) -> Result<(), AllocError>
    requires { AreStarts lined.text.now lined.lines.now.starts.items }
    ensures { OnOk result (AddsText (IsExcerpt form finding.now.kind) out.old.items out.new.items) }
{
    let shown = shown_of(row_of(lined, finding.line), finding.column);
    if shown.text.is_empty() {
        return Ok(());
    }
    push_shown_part(out, &shown)?;
    push_text(out, "\n")?;
    push_indent(out, &shown)?;
    push_text(out, caret(finding.kind, form))
}

// Appends a finding in the layout of compilers.
fn push_finding_text(
    out: &mut Vec<u8>,
    file: &str,
    lined: LinedText,
    finding: &Finding,
    form: ReportForm,
) -> Result<(), AllocError>
    requires { AreStarts lined.text.now lined.lines.now.starts.items }
    ensures { OnOk result (AddsText (IsFindingText form file.now finding.now) out.old.items out.new.items) }
{
    push_heading(out, file, finding)?;
    push_excerpt(out, lined, finding, form)
}

/// Appends the findings of a text in the layout of compilers: each with its line, or at most 160 bytes of it, and a
/// caret below its column, which is coloured in the form `Colored`. After an Err, part of them may have been appended.
pub fn push_report(
    alloc: Global,
    out: &mut Vec<u8>,
    file: &str,
    text: &str,
    found: &[Finding],
    form: ReportForm,
) -> Result<(), AllocError>
    ensures { OnOk result (AddsText (IsTextOfAll (IsFindingText form file.now) found.now) out.old.items out.new.items) }
{
    let lines = line_starts(alloc, text.as_bytes())?;
    let lined = LinedText {
        text,
        lines: &lines,
    };
    'found: for finding in found {
        push_finding_text(out, file, lined, finding, form)?;
    }
    Ok(())
}

// Appends the severity and the message as the last members of a JSON object.
fn push_members(out: &mut Vec<u8>, finding: &Finding) -> Result<(), AllocError>
    ensures { OnOk result (out.new.items ≡ out.old.items ++ codes ",\"severity\":\"" ++ severity_text finding.now.kind
        ++ codes "\",\"message\":" ++ quoted finding.now.message.items ++ codes "}\n") }
{
    push_text(out, ",\"severity\":\"")?;
    push_text(out, finding.kind.severity())?;
    push_text(out, "\",\"message\":")?;
    push_quoted(out, finding.message.as_slice())?;
    push_text(out, "}\n")
}

// Appends a finding as one line of JSON.
#[tactic(auto, unfolding(crate::specs::Report::object_text))]
fn push_object(out: &mut Vec<u8>, file: &str, finding: &Finding) -> Result<(), AllocError>
    ensures { OnOk result (out.new.items ≡ out.old.items ++ object_text file.now finding.now) }
{
    push_text(out, "{\"file\":")?;
    push_quoted(out, file.as_bytes())?;
    push_text(out, ",\"line\":")?;
    push_position(out, finding, ",\"column\":")?;
    push_members(out, finding)
}

/// Appends the findings as JSON Lines: for each an object with `file`, `line`, `column`, `severity` and `message`.
/// After an Err, part of them may have been appended.
pub fn push_json(out: &mut Vec<u8>, file: &str, found: &[Finding]) -> Result<(), AllocError>
    ensures { OnOk result (out.new.items ≡ out.old.items ++ flat_map (object_text file.now) found.now) }
{
    'found: for finding in found {
        push_object(out, file, finding)?;
    }
    Ok(())
}

/// Appends a finding of a text in this form. After an Err, part of it may have been appended.
pub fn push_finding(
    out: &mut Vec<u8>,
    form: ReportForm,
    file: &str,
    lined: LinedText,
    finding: &Finding,
) -> Result<(), AllocError>
    requires { AreStarts lined.text.now lined.lines.now.starts.items }
    ensures { OnOk result (AddsText (IsReport form file.now (finding.now ∷ [])) out.old.items out.new.items) }
{
    match form {
        ReportForm::Json => push_object(out, file, finding),
        ReportForm::Text | ReportForm::Colored => {
            push_finding_text(out, file, lined, finding, form)
        }
    }
}

/// Appends the findings of a text in this form. After an Err, part of them may have been appended.
pub fn push_findings(
    alloc: Global,
    out: &mut Vec<u8>,
    form: ReportForm,
    file: &str,
    text: &str,
    found: &[Finding],
) -> Result<(), AllocError>
    ensures { OnOk result (AddsText (IsReport form file.now found.now) out.old.items out.new.items) }
{
    match form {
        ReportForm::Json => push_json(out, file, found),
        ReportForm::Text | ReportForm::Colored => push_report(alloc, out, file, text, found, form),
    }
}
