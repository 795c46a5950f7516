//! The different lines of a column, and how many of its texts have each.
ghost use Rattle.std.specs.Prelude.{◌≡◌, IfOk, OnOk, map};
ghost use Rattle.std.specs.List.{list_any};
ghost use Rattle.std.specs.Str.{bytes_eq};
ghost use Rattle.gt_explore_summary.specs.Counts.{count_of_line, different_lines, with_new_line};

use crate::columns::is_same;
use std::alloc::{AllocError, Global};

// Returns whether this is one of the lines.
fn has_line(lines: &[&[u8]], line: &[u8]) -> bool
    ensures { result ≡ list_any (λ other. bytes_eq other line.now) (map (λ l. l.now) lines.now) }
{
    'lines: for other in lines {
        if is_same(other, line) {
            return true;
        }
    }
    false
}

// Appends a line, unless it is there.
fn push_new<'t>(lines: &mut Vec<&'t [u8]>, line: &'t [u8]) -> Result<(), AllocError>
    ensures { OnOk result (map (λ l. l.now) lines.new.items
        ≡ with_new_line (map (λ l. l.now) lines.old.items) line.entry.now) }
{
    if !has_line(lines.as_slice(), line) {
        lines.push(line)?;
    }
    Ok(())
}

/// Returns the lines of a column, each once, in the order in which each comes first.
///
/// # Errors
/// An allocation failed.
pub fn different_lines<'t>(alloc: Global, column: &[&'t [u8]]) -> Result<Vec<&'t [u8]>, AllocError>
    ensures { IfOk result (λ lines. map (λ l. l.now) lines.items ≡ different_lines (map (λ l. l.now) column.now)) }
{
    let mut lines = Vec::new(alloc);
    'column: for line in column {
        push_new(&mut lines, line)?;
    }
    Ok(lines)
}

/// Returns how many lines of a column are this one.
pub fn count_of_line(line: &[u8], column: &[&[u8]]) -> usize
    ensures { result ≡ count_of_line line.now (map (λ l. l.now) column.now) }
{
    column.iter().filter(|other| is_same(**other, line)).count()
}
