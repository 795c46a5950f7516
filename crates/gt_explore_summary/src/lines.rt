//! A summary of texts, and the difference of two, in either form.
ghost use Rattle.std.specs.Prelude.{◌≡◌, ◌++◌, OnOk, length, map};
ghost use Rattle.std.specs.List.{flat_map};
ghost use Rattle.gt_explore_summary.specs.Columns.{column_lines, filled_lines};
ghost use Rattle.gt_explore_summary.specs.Shown.{steady_count};
ghost use Rattle.gt_explore_summary.specs.Lines.{counts_written, difference_written, pair_written, steady_written};
ghost use Rattle.gt_explore_summary.specs.Lines.{summary_written};

use crate::columns::{Column, TextLines, columns, varies};
use crate::objects::{push_counts_object, push_pair_object, push_steady_object};
use crate::shown::{push_counts_line, push_pair_line, push_steady_line};
use std::alloc::{AllocError, Global};

/// The form of an output.
#[derive(Clone, Copy)]
pub enum ColumnForm {
    /// Lines of text.
    Text,
    /// A JSON object a line.
    Json,
}

// Appends what is printed of the answers of a column, if they vary.
fn push_counts_in(
    alloc: Global,
    out: &mut Vec<u8>,
    form: ColumnForm,
    column: &Column<'_>,
) -> Result<(), AllocError>
    ensures { OnOk result (out.new.items ≡ out.old.items ++ counts_written form (column_lines column.now)) }
{
    if !varies(column) {
        return Ok(());
    }
    match form {
        ColumnForm::Text => push_counts_line(alloc, out, column),
        ColumnForm::Json => push_counts_object(alloc, out, column),
    }
}

// Appends what is printed of the answers of these columns.
fn push_all_counts(
    alloc: Global,
    out: &mut Vec<u8>,
    form: ColumnForm,
    columns: &[Column<'_>],
) -> Result<(), AllocError>
    ensures { OnOk result (out.new.items
        ≡ out.old.items ++ flat_map (counts_written form) (map column_lines columns.now)) }
{
    'columns: for column in columns {
        push_counts_in(alloc, out, form, column)?;
    }
    Ok(())
}

// Returns how many columns have one line alone.
fn steady_count(columns: &[Column<'_>]) -> usize
    ensures { result ≡ steady_count (map column_lines columns.now) }
{
    columns.iter().filter(|column| !varies(*column)).count()
}

// Appends how many lines have one answer in all texts.
fn push_steady(
    out: &mut Vec<u8>,
    form: ColumnForm,
    steady: usize,
    texts: usize,
) -> Result<(), AllocError>
    ensures { OnOk result (out.new.items ≡ out.old.items ++ steady_written form steady texts) }
{
    match form {
        ColumnForm::Text => push_steady_line(out, steady, texts),
        ColumnForm::Json => push_steady_object(out, steady, texts),
    }
}

/// Appends the lines of texts whose answers vary, each answer with the number of texts that have it, and how many lines
/// have one answer in all texts.
///
/// # Errors
/// An allocation failed.
pub fn push_summary_lines(
    alloc: Global,
    out: &mut Vec<u8>,
    form: ColumnForm,
    texts: &[TextLines<'_>],
) -> Result<(), AllocError>
    ensures { OnOk result (out.new.items ≡ out.old.items ++ summary_written form (map filled_lines texts.now)) }
{
    let columns = columns(alloc, texts)?;
    push_all_counts(alloc, out, form, columns.as_slice())?;
    push_steady(out, form, steady_count(columns.as_slice()), texts.len())
}

// Appends what is printed of a column of two texts, if they differ there.
fn push_pair_in(out: &mut Vec<u8>, form: ColumnForm, column: &Column<'_>) -> Result<(), AllocError>
    ensures { OnOk result (out.new.items ≡ out.old.items ++ pair_written form (column_lines column.now)) }
{
    if !varies(column) {
        return Ok(());
    }
    match form {
        ColumnForm::Text => push_pair_line(out, column),
        ColumnForm::Json => push_pair_object(out, column),
    }
}

// Appends what is printed of these columns of two texts.
fn push_pairs(out: &mut Vec<u8>, form: ColumnForm, columns: &[Column<'_>]) -> Result<(), AllocError>
    ensures { OnOk result (out.new.items
        ≡ out.old.items ++ flat_map (pair_written form) (map column_lines columns.now)) }
{
    'columns: for column in columns {
        push_pair_in(out, form, column)?;
    }
    Ok(())
}

/// Appends the lines in which the first two of these texts differ, with both answers.
///
/// # Errors
/// An allocation failed.
pub fn push_difference(
    alloc: Global,
    out: &mut Vec<u8>,
    form: ColumnForm,
    texts: &[TextLines<'_>],
) -> Result<(), AllocError>
    ensures { OnOk result (out.new.items ≡ out.old.items ++ difference_written form (map filled_lines texts.now)) }
{
    let columns = columns(alloc, texts)?;
    push_pairs(out, form, columns.as_slice())
}
