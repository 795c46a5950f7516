//! What is printed of columns as lines.
ghost use Rattle.std.specs.Prelude.{◌≡◌, ◌++◌, codes, decimal, if◌then◌else◌, [], map, true, OnOk};
ghost use Rattle.gt_explore_summary.specs.Columns.{column_lines};
ghost use Rattle.gt_explore_summary.specs.Counts.{count_of_line};
ghost use Rattle.gt_explore_summary.specs.Shown.{answer_part_of, between, counts_from, counts_line, first_part};
ghost use Rattle.gt_explore_summary.specs.Shown.{later_part};
ghost use Rattle.gt_explore_summary.specs.Shown.{difference_line, steady_line};

use crate::columns::{Column, line_at};
use crate::counts::{count_of_line, different_lines};
use gt_text::{push_number, push_text};
use std::alloc::{AllocError, Global};

/// Returns a line up to its first space.
pub fn first_part<'t>(line: &'t [u8]) -> &'t [u8]
    ensures { result.now ≡ first_part line.entry.now }
{
    match line.iter().position(|b| *b == b' ') {
        Some(at) => &line[..at],
        None => line,
    }
}

/// Returns a line after its first space. It is empty if there is none.
pub fn later_part<'t>(line: &'t [u8]) -> &'t [u8]
    ensures { result.now ≡ later_part line.entry.now }
{
    match line.iter().position(|b| *b == b' ') {
        Some(at) => &line[at + 1..],
        None => &[],
    }
}

/// Returns the answer of a line `LINE ID ANSWER`.
pub fn answer_of<'t>(line: &'t [u8]) -> &'t [u8]
    ensures { result.now ≡ answer_part_of line.entry.now }
{
    later_part(later_part(line))
}

/// Appends these bytes.
pub fn push_bytes(out: &mut Vec<u8>, bytes: &[u8]) -> Result<(), AllocError>
    ensures { OnOk result (out.new.items ≡ out.old.items ++ bytes.now) }
{
    out.extend_from_slice(bytes)
}

// Returns what is before an item of a list.
fn between(is_first: bool) -> &'static str
    ensures { result.now ≡ between is_first }
{
    if is_first { "" } else { ", " }
}

// Appends the answer of a line of a column, and how many texts have it.
fn push_count(
    out: &mut Vec<u8>,
    is_first: bool,
    column: &[&[u8]],
    line: &[u8],
) -> Result<(), AllocError>
    ensures { OnOk result (out.new.items ≡ out.old.items ++ (between is_first ++ answer_part_of line.now
        ++ codes " (" ++ decimal (count_of_line line.now (map (λ l. l.now) column.now)) ++ codes ")")) }
{
    push_text(out, between(is_first))?;
    push_bytes(out, answer_of(line))?;
    push_text(out, " (")?;
    push_number(out, count_of_line(line, column))?;
    push_text(out, ")")
}

// Appends the answers of these lines of a column, and how many texts have each.
fn push_counts(out: &mut Vec<u8>, column: &[&[u8]], lines: &[&[u8]]) -> Result<(), AllocError>
    ensures { OnOk result (out.new.items
        ≡ out.old.items ++ counts_from true (map (λ l. l.now) column.now) (map (λ l. l.now) lines.now)) }
{
    let mut is_first = true;
    'lines: for line in lines {
        push_count(out, is_first, column, line)?;
        is_first = false;
    }
    Ok(())
}

/// Appends the line of a column: the number of the line of the script, and each answer with the number of its texts.
#[tactic(auto, unfolding(crate::specs::Shown::counts_line))]
pub fn push_counts_line(
    alloc: Global,
    out: &mut Vec<u8>,
    column: &Column<'_>,
) -> Result<(), AllocError>
    ensures { OnOk result (out.new.items ≡ out.old.items ++ counts_line (column_lines column.now)) }
{
    let column = column.lines.as_slice();
    let lines = different_lines(alloc, column)?;
    push_bytes(out, first_part(line_at(column, 0)))?;
    push_text(out, ": ")?;
    push_counts(out, column, lines.as_slice())?;
    push_text(out, "\n")
}

/// Appends how many lines have one answer in all texts, and how many texts there are.
#[tactic(auto, unfolding(crate::specs::Shown::steady_line))]
pub fn push_steady_line(out: &mut Vec<u8>, steady: usize, texts: usize) -> Result<(), AllocError>
    ensures { OnOk result (out.new.items ≡ out.old.items ++ steady_line steady texts) }
{
    push_text(out, "lines with one answer: ")?;
    push_number(out, steady)?;
    push_text(out, ", texts: ")?;
    push_number(out, texts)?;
    push_text(out, "\n")
}

/// Appends the line of a column of two texts: the number of the line of the script, and both answers.
#[tactic(auto, unfolding(crate::specs::Shown::difference_line))]
pub fn push_pair_line(out: &mut Vec<u8>, column: &Column<'_>) -> Result<(), AllocError>
    ensures { OnOk result (out.new.items ≡ out.old.items ++ difference_line (column_lines column.now)) }
{
    let one = line_at(column.lines.as_slice(), 0);
    let other = line_at(column.lines.as_slice(), 1);
    push_bytes(out, first_part(one))?;
    push_text(out, ": ")?;
    push_bytes(out, answer_of(one))?;
    push_text(out, " | ")?;
    push_bytes(out, answer_of(other))?;
    push_text(out, "\n")
}
