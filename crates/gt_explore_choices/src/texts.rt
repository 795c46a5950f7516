//! The text of a choice.
ghost use Rattle.std.specs.Prelude.{◌≡◌, ◌++◌, ◌≤◌, IfOk, IfSome, OnOk, drop, length, map, min, slice_get};
ghost use Rattle.std.specs.List.{position};
ghost use Rattle.gt_explore_choices.specs.Kinds.{kind_seen, marked_seen};
ghost use Rattle.gt_explore_choices.specs.Choices.{done_at, is_no_blank, line_chosen, line_kept, text_chosen, without_word};

use crate::kinds::{LineKind, MarkedLine};
use gt_text::push_text;
use std::alloc::{AllocError, Global};

// The number of letters of the word `maybe`.
const LETTERS: usize = 5;

// Returns whether a byte is neither a space nor a tab.
fn is_no_blank(byte: u8) -> bool
    ensures { result ≡ is_no_blank byte }
{
    byte != b' ' && byte != b'\t'
}

// Returns the index of the first letter of a line.
fn first_letter(line: &[u8]) -> Option<usize>
    ensures place { result ≡ position is_no_blank line.now }
    ensures within { IfSome result (λ at. at ≤ length line.now) }
{
    line.iter().position(|b| is_no_blank(*b))
}

// Returns the bytes after the word `maybe`, with which these begin.
fn without_word<'a>(line: &'a [u8]) -> &'a [u8]
    ensures { result.now ≡ without_word line.entry.now }
{
    &line[LETTERS.min(line.len())..]
}

// Appends a `maybe` line as a `do` line, whose other words keep their columns.
fn push_done(out: &mut Vec<u8>, line: &[u8]) -> Result<(), AllocError>
    ensures { OnOk result (out.new.items ≡ out.old.items ++ done_at (position is_no_blank line.now) line.now) }
{
    match first_letter(line) {
        Some(at) => {
            out.extend_from_slice(&line[..at])?;
            push_text(out, "do   ")?;
            out.extend_from_slice(without_word(&line[at..]))
        }
        None => out.extend_from_slice(line),
    }
}

// Appends a line that is kept.
fn push_kept(out: &mut Vec<u8>, line: MarkedLine<'_>) -> Result<(), AllocError>
    ensures { OnOk result (out.new.items ≡ out.old.items ++ line_kept (marked_seen line.entry)) }
{
    match line.kind {
        LineKind::May(_) => push_done(out, line.line.as_bytes()),
        LineKind::Fixed | LineKind::Must(_) | LineKind::Leave(_) => {
            out.extend_from_slice(line.line.as_bytes())
        }
    }
}

// Appends a line, or an empty one if it is not kept.
fn push_line(
    out: &mut Vec<u8>,
    line: MarkedLine<'_>,
    is_kept: Option<bool>,
) -> Result<(), AllocError>
    ensures { OnOk result (out.new.items ≡ out.old.items ++ line_chosen is_kept (marked_seen line.entry)) }
{
    if let Some(true) = is_kept {
        push_kept(out, line)?;
    }
    push_text(out, "\n")
}

// Returns the flag at an index.
fn flag_at(kept: &[bool], at: usize) -> Option<bool>
    ensures { result ≡ slice_get kept.now at }
{
    kept.get(at).copied()
}

/// Returns the text of these lines in which those without a flag `true` are empty.
///
/// # Errors
/// An allocation failed.
pub fn text_chosen(
    alloc: Global,
    lines: &[MarkedLine<'_>],
    kept: &[bool],
) -> Result<Vec<u8>, AllocError>
    ensures { IfOk result (λ text. text.items ≡ text_chosen (map marked_seen lines.now) kept.now 0) }
{
    let mut text = Vec::new(alloc);
    let mut at = 0;
    'lines: for line in lines {
        push_line(&mut text, *line, flag_at(kept, at))?;
        at += 1;
    }
    Ok(text)
}
