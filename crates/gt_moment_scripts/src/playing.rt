//! Scripts for `play` that come to a moment, and the check that they do.
ghost use Rattle.std.specs.Prelude.{◌≡◌, ◌<◌, ◌++◌, ℕ, List, [], Some, Ok, false, IfOk, IsTrue, OnOk, length};
ghost use Rattle.gt_script.specs.Contents.{contents_of};
ghost use Rattle.gt_script.specs.RunScripts.{CanConfigure};
ghost use Rattle.gt_script.specs.Script.{ReadsAsScript};
ghost use Rattle.gt_script_runs.specs.Playing.{Played};
ghost use Rattle.gt_state_claims.specs.Claims.{claim_asked};
ghost use Rattle.gt_moment_scripts.specs.Naming.{entries_named};
ghost use Rattle.gt_explore_witness.specs.GivingAnswers.{begins_with};
ghost use Rattle.gt_moment_scripts.specs.Showing.{HasPiece, IsWithoutScript, ShowsAfterComment, ShowsMoment, no_script_line};

use crate::naming::{NamedEntry, entries_named};
use crate::rows::{RowEntries, rows_after};
use crate::showing::push_show_lines;
use gt_explore_faults::TextsFault;
use gt_explore_search::Turn;
use gt_explore_witness::{may_not_unmap, witness_of};
use gt_host::play;
use gt_script::RunScript;
use gt_script_runs::PlayFault;
use gt_state_claims::StateClaim;
use gt_text::{push_number, push_text, text_of};
use gt_types::{DomId, LONGEST_TEXT};
use std::alloc::{AllocError, Global};

/// Returns what `play` prints for a script.
///
/// # Errors
/// `Astray` if this is not a script for `play`, and `Memory`.
pub fn played(alloc: Global, script: &[u8]) -> Result<Vec<u8>, TextsFault>
    ensures { IfOk result (λ out. Played (ReadsAsScript script.now) false (Some []) (Some out.items) (Ok tt)) }
{
    let mut out = Vec::new(alloc);
    let mut reader = script;
    match play(alloc, &mut reader, &mut out, false) {
        Ok(()) => Ok(out),
        Err(PlayFault::Memory) | Err(PlayFault::Write) => Err(TextsFault::Memory),
        Err(_) => Err(TextsFault::Astray),
    }
}

// Appends the line in place of a script for `play` that was not found: this domain leaves with a mapping that it may
// not unmap.
fn push_no_script(out: &mut Vec<u8>, dom: DomId) -> Result<(), AllocError>
    ensures { OnOk result (out.new.items ≡ out.old.items ++ no_script_line dom.0) }
{
    push_text(out, "# no script for play gives it: domain ")?;
    push_number(out, dom.0)?;
    push_text(out, " leaves with a mapping that it may not unmap\n")
}

fn begins_with(text: &[u8], piece: &[u8]) -> bool
    ensures { result ≡ begins_with piece.now text.now }
{
    text.starts_with(piece)
}

// Returns whether a text has this piece at this position.
fn is_at(text: &[u8], at: usize, piece: &[u8]) -> bool
    requires { at < length text.now }
    ensures { IsTrue result → HasPiece text.now piece.now }
{
    begins_with(&text[at..], piece)
}

// Returns whether a text has this piece.
fn has_piece(text: &[u8], piece: &[u8]) -> bool
    ensures { IsTrue result → HasPiece text.now piece.now }
{
    'places: for at in 0..text.len() {
        if is_at(text, at, piece) {
            return true;
        }
    }
    false
}

fn line_ends(text: &[u8]) -> usize {
    text.iter().filter(|b| **b == b'\n').count()
}

// Returns the number of the line after this comment and these lines.
fn line_after(comment: &[u8], lines: &[u8]) -> usize {
    line_ends(comment)
        .saturating_add(line_ends(lines))
        .saturating_add(1)
}

// Returns whether `play` prints for a script what the entries show of which the claim holds. Its `show` lines begin on
// this line.
fn shows_moment(
    alloc: Global,
    script: &[u8],
    line: usize,
    claim: &StateClaim,
    named: &[NamedEntry],
    entries: &RowEntries<'_>,
) -> Result<bool, TextsFault>
    requires { named.now ≡ entries_named (claim_asked claim.now) }
    ensures { IfOk result (λ b. IsTrue b → ShowsMoment (claim_asked claim.now) script.now) }
{
    if line > LONGEST_TEXT || named.len() > LONGEST_TEXT {
        return Ok(false);
    }
    if !claim.holds(entries) {
        return Ok(false);
    }
    let mut wanted = Vec::new(alloc);
    push_show_lines(alloc, &mut wanted, line, named, entries)?;
    let out = played(alloc, script)?;
    Ok(has_piece(out.as_slice(), wanted.as_slice()))
}

// Appends a line `show ID REF` for each of these entries.
fn push_shows(out: &mut Vec<u8>, named: &[NamedEntry]) -> Result<(), AllocError> {
    for entry in named {
        push_text(out, "show ")?;
        push_number(out, entry.dom.0)?;
        push_text(out, " ")?;
        push_number(out, entry.gref.0)?;
        push_text(out, "\n")?;
    }
    Ok(())
}

/// Returns this comment, and the line in place of a script that was not found: this domain leaves with a mapping that
/// the policy does not let it unmap, and `play` has no line for that.
///
/// # Errors
/// `Astray` if the policy lets the domain unmap the entries of each domain, and `Memory`.
pub fn without_script(
    alloc: Global,
    script: &RunScript,
    comment: &[u8],
    dom: DomId,
) -> Result<Vec<u8>, TextsFault>
    ensures { IfOk result (λ text. (lines : List ℕ) × (text.items ≡ comment.now ++ lines)
        × IsWithoutScript (contents_of script.now.head) lines) }
{
    if !may_not_unmap(alloc, script.head(), dom)? {
        return Err(TextsFault::Astray);
    }
    let mut text = Vec::from_slice(alloc, comment)?;
    push_no_script(&mut text, dom)?;
    Ok(text)
}

/// Returns this comment, and a script for `play` whose domains make the moves of these turns, and which then shows the
/// entries that the claim names: it was played, and showed entries of which the claim holds. If it does not, and a
/// domain leaves with a mapping that it may not unmap, a line takes its place.
///
/// # Errors
/// `Astray` if the script does not show such entries and no domain leaves with a mapping that it may not unmap, and
/// `Memory`.
pub fn moment_script(
    alloc: Global,
    source: &[u8],
    script: &RunScript,
    turns: &[Turn],
    claim: &StateClaim,
    comment: &[u8],
) -> Result<Vec<u8>, TextsFault>
    requires { CanConfigure (contents_of script.now.head) }
    ensures { IfOk result (λ text.
        ShowsAfterComment (contents_of script.now.head) (claim_asked claim.now) comment.now text.items) }
{
    let Ok(source) = text_of(source) else {
        return Err(TextsFault::Astray);
    };
    let witness = witness_of(alloc, source, script, turns)?;
    let named = entries_named(alloc, claim)?;
    let rows = rows_after(alloc, script, turns, named.as_slice())?;
    let mut lines = witness.lines;
    let line = line_after(comment, lines.as_slice());
    push_shows(&mut lines, named.as_slice())?;
    let mut text = Vec::from_slice(alloc, comment)?;
    text.extend_from_slice(lines.as_slice())?;
    let rows = rows.as_slice();
    let entries = RowEntries { rows };
    let named = named.as_slice();
    if shows_moment(alloc, text.as_slice(), line, claim, named, &entries)? {
        return Ok(text);
    }
    match witness.keeps {
        Some(dom) => without_script(alloc, script, comment, dom),
        None => Err(TextsFault::Astray),
    }
}
