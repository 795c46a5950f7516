//! What is printed of columns as JSON objects.
ghost use Rattle.std.specs.Prelude.{◌≡◌, ◌++◌, map, true, OnOk};
ghost use Rattle.gt_explore_summary.specs.Columns.{column_lines};
ghost use Rattle.gt_explore_summary.specs.Objects.{comma_after, count_object, count_objects, counts_object};
ghost use Rattle.gt_explore_summary.specs.Objects.{pair_answers};
ghost use Rattle.gt_explore_summary.specs.Objects.{pair_object, place_members, steady_object};

use crate::columns::{Column, line_at};
use crate::counts::{count_of_line, different_lines};
use crate::shown::{answer_of, first_part, later_part, push_bytes};
use gt_json::push_quoted;
use gt_text::{push_number, push_text};
use std::alloc::{AllocError, Global};

// Appends the number of a line of the script and its domain as the first members of an object.
#[tactic(auto, unfolding(crate::specs::Objects::place_members))]
fn push_place_members(out: &mut Vec<u8>, line: &[u8]) -> Result<(), AllocError>
    ensures { OnOk result (out.new.items ≡ out.old.items ++ place_members line.now) }
{
    push_text(out, "{\"line\":")?;
    push_bytes(out, first_part(line))?;
    push_text(out, ",\"domain\":")?;
    push_bytes(out, first_part(later_part(line)))?;
    push_text(out, ",\"answers\":[")
}

// Returns what is before an item of an array.
fn comma(is_first: bool) -> &'static str
    ensures { result.now ≡ comma_after is_first }
{
    if is_first { "" } else { "," }
}

// Appends the object of an answer.
#[tactic(auto, unfolding(crate::specs::Objects::count_object))]
fn push_count_object(out: &mut Vec<u8>, column: &[&[u8]], line: &[u8]) -> Result<(), AllocError>
    ensures { OnOk result (out.new.items ≡ out.old.items ++ count_object (map (λ l. l.now) column.now) line.now) }
{
    push_text(out, "{\"answer\":")?;
    push_quoted(out, answer_of(line))?;
    push_text(out, ",\"texts\":")?;
    push_number(out, count_of_line(line, column))?;
    push_text(out, "}")
}

// Appends the object of an answer as an item of an array.
fn push_item(
    out: &mut Vec<u8>,
    is_first: bool,
    column: &[&[u8]],
    line: &[u8],
) -> Result<(), AllocError>
    ensures { OnOk result (out.new.items
        ≡ out.old.items ++ (comma_after is_first ++ count_object (map (λ l. l.now) column.now) line.now)) }
{
    push_text(out, comma(is_first))?;
    push_count_object(out, column, line)
}

// Appends the objects of the answers of these lines.
fn push_count_objects(
    out: &mut Vec<u8>,
    column: &[&[u8]],
    lines: &[&[u8]],
) -> Result<(), AllocError>
    ensures { OnOk result (out.new.items
        ≡ out.old.items ++ count_objects true (map (λ l. l.now) column.now) (map (λ l. l.now) lines.now)) }
{
    let mut is_first = true;
    'lines: for line in lines {
        push_item(out, is_first, column, line)?;
        is_first = false;
    }
    Ok(())
}

/// Appends the object of a column: its line, its domain, and each answer with the number of its texts.
pub fn push_counts_object(
    alloc: Global,
    out: &mut Vec<u8>,
    column: &Column<'_>,
) -> Result<(), AllocError>
    ensures { OnOk result (out.new.items ≡ out.old.items ++ counts_object (column_lines column.now)) }
{
    let column = column.lines.as_slice();
    let lines = different_lines(alloc, column)?;
    push_place_members(out, line_at(column, 0))?;
    push_count_objects(out, column, lines.as_slice())?;
    push_text(out, "]}\n")
}

/// Appends how many lines have one answer in all texts, and how many texts there are.
#[tactic(auto, unfolding(crate::specs::Objects::steady_object))]
pub fn push_steady_object(out: &mut Vec<u8>, steady: usize, texts: usize) -> Result<(), AllocError>
    ensures { OnOk result (out.new.items ≡ out.old.items ++ steady_object steady texts) }
{
    push_text(out, "{\"one_answer\":")?;
    push_number(out, steady)?;
    push_text(out, ",\"texts\":")?;
    push_number(out, texts)?;
    push_text(out, "}\n")
}

// Appends both answers of a column of two texts.
#[tactic(auto, unfolding(crate::specs::Objects::pair_answers))]
fn push_pair_answers(out: &mut Vec<u8>, column: &Column<'_>) -> Result<(), AllocError>
    ensures { OnOk result (out.new.items ≡ out.old.items ++ pair_answers (column_lines column.now)) }
{
    push_quoted(out, answer_of(line_at(column.lines.as_slice(), 0)))?;
    push_text(out, ",")?;
    push_quoted(out, answer_of(line_at(column.lines.as_slice(), 1)))
}

/// Appends the object of a column of two texts: its line, its domain, and both answers.
pub fn push_pair_object(out: &mut Vec<u8>, column: &Column<'_>) -> Result<(), AllocError>
    ensures { OnOk result (out.new.items ≡ out.old.items ++ pair_object (column_lines column.now)) }
{
    push_place_members(out, line_at(column.lines.as_slice(), 0))?;
    push_pair_answers(out, column)?;
    push_text(out, "]}\n")
}
