//! The lines of several texts at the same index.
ghost use Rattle.std.specs.Prelude.{◌≡◌, [], IfOk, map, slice_index_or};
ghost use Rattle.std.specs.Str.{bytes_eq};
ghost use Rattle.gt_explore_summary.specs.Columns.{column_at, column_lines, columns_of, has_other, is_filled};
ghost use Rattle.gt_explore_summary.specs.Columns.{filled_lines};
ghost use Rattle.gt_explore_summary.specs.Columns.{most_from, split_lines, varies};

use std::alloc::{AllocError, Global};

/// The lines of a text.
#[derive(Drop)]
pub struct TextLines<'t> {
    pub lines: Vec<&'t [u8]>,
}

/// The lines of several texts at one index, in the order of the texts. It is an empty line for a text that ends before.
#[derive(Drop)]
pub struct Column<'t> {
    pub lines: Vec<&'t [u8]>,
}

// Returns whether a line is not empty.
fn is_filled(line: &[u8]) -> bool
    ensures { result ≡ is_filled line.now }
{
    !line.is_empty()
}

/// Splits a text into its lines, without the empty ones.
///
/// # Errors
/// An allocation failed.
pub fn split_lines<'t>(alloc: Global, text: &'t [u8]) -> Result<Vec<&'t [u8]>, AllocError>
    ensures { IfOk result (λ lines. map (λ l. l.now) lines.items ≡ split_lines text.entry.now) }
{
    text.split(|b| *b == b'\n')
        .filter(|line| is_filled(*line))
        .collect(alloc)
}

/// Returns the line at this index, or an empty one if there is none.
pub fn line_at<'t>(lines: &[&'t [u8]], at: usize) -> &'t [u8]
    ensures { result.now ≡ slice_index_or (map (λ l. l.now) lines.now) at [] }
{
    match lines.get(at) {
        Some(line) => *line,
        None => &[],
    }
}

// Returns the line of each text at this index.
fn column_at<'t>(
    alloc: Global,
    texts: &[TextLines<'t>],
    at: usize,
) -> Result<Column<'t>, AllocError>
    ensures { IfOk result (λ column. column_lines column ≡ column_at (map filled_lines texts.now) at) }
{
    let mut lines = Vec::new(alloc);
    'texts: for text in texts {
        lines.push(line_at(text.lines.as_slice(), at))?;
    }
    Ok(Column { lines })
}

// Returns the largest number of lines of a text.
fn most_lines(texts: &[TextLines<'_>]) -> usize
    ensures { result ≡ most_from 0 (map filled_lines texts.now) }
{
    let mut most = 0;
    'texts: for text in texts {
        if text.lines.len() > most {
            most = text.lines.len();
        }
    }
    most
}

/// Returns the columns of these texts.
///
/// # Errors
/// An allocation failed.
pub fn columns<'t>(alloc: Global, texts: &[TextLines<'t>]) -> Result<Vec<Column<'t>>, AllocError>
    ensures { IfOk result (λ columns. map column_lines columns.items ≡ columns_of (map filled_lines texts.now)) }
{
    let mut columns = Vec::new(alloc);
    'places: for at in 0..most_lines(texts) {
        columns.push(column_at(alloc, texts, at)?)?;
    }
    Ok(columns)
}

/// Returns whether two lines are the same.
pub fn is_same(one: &[u8], other: &[u8]) -> bool
    ensures { result ≡ bytes_eq one.now other.now }
{
    one == other
}

// Returns whether one of these lines differs from this one.
fn has_other(line: &[u8], lines: &[&[u8]]) -> bool
    ensures { result ≡ has_other line.now (map (λ l. l.now) lines.now) }
{
    'lines: for other in lines {
        if !is_same(other, line) {
            return true;
        }
    }
    false
}

/// Returns whether two lines of a column differ.
pub fn varies(column: &Column<'_>) -> bool
    ensures { result ≡ varies (column_lines column.now) }
{
    let lines = column.lines.as_slice();
    has_other(line_at(lines, 0), lines)
}
