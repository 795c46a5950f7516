//! The terms of expressions that a text meets. Each operation has a number, in the order of the expressions. The mark
//! of a term is its number as a byte.
ghost use Rattle.std.specs.Prelude.{◌≡◌, ◌+◌, ◌++◌, IfOk, OnOk, map};
ghost use Rattle.std.specs.List.{flat_map};
ghost use Rattle.gt_explore_verdict.specs.Formulas.{operation_asked};
ghost use Rattle.gt_explore_verdict.specs.Satisfying.{lines_in};
ghost use Rattle.gt_explore_kinds.specs.Marks.{all_operations, is_met_term, line_marks, marks_from, text_marks};

use gt_explore_search::SearchFault;
use gt_explore_verdict::{Operation, lines_in, satisfies};
use std::alloc::{AllocError, Global};
use std::slice;

// Returns whether an operation is a term, and some line of the text meets it.
fn is_met(alloc: Global, operation: &Operation<'_>, text: &[u8]) -> Result<bool, AllocError>
    ensures { IfOk result (λ b. b ≡ is_met_term (lines_in text.now) (operation_asked operation.now)) }
{
    match operation {
        Operation::Term(_) => satisfies(alloc, slice::from_ref(operation), text),
        Operation::Not | Operation::And | Operation::Or => Ok(false),
    }
}

// Returns a number as a mark.
fn mark_of(number: usize) -> Result<u8, SearchFault>
    ensures { IfOk result (λ mark. mark ≡ number) }
{
    if number < 256 {
        Ok(number as u8)
    } else {
        Err(SearchFault::States)
    }
}

// Returns the sum of two numbers.
fn sum(number: usize, more: usize) -> Result<usize, SearchFault>
    ensures { IfOk result (λ n. n ≡ number + more) }
{
    match number.checked_add(more) {
        Some(n) => Ok(n),
        None => Err(SearchFault::States),
    }
}

// Appends the marks that a line has of these operations, the first of which has this number.
fn push_marks(
    alloc: Global,
    marks: &mut Vec<u8>,
    first: usize,
    operations: &[Operation<'_>],
    line: &[u8],
) -> Result<(), SearchFault>
    ensures { OnOk result (marks.new.items
        ≡ marks.old.items ++ marks_from first (map operation_asked operations.now) (lines_in line.now)) }
{
    let mut number = first;
    'operations: for operation in operations {
        if is_met(alloc, operation, line)? {
            marks.push(mark_of(number)?)?;
        }
        number = sum(number, 1)?;
    }
    Ok(())
}

// Appends the marks of a line.
fn push_line_marks(
    alloc: Global,
    marks: &mut Vec<u8>,
    expressions: &[Vec<Operation<'_>>],
    line: &[u8],
) -> Result<(), SearchFault>
    ensures { OnOk result (marks.new.items
        ≡ marks.old.items ++ line_marks (all_operations expressions.now) line.now) }
{
    let mut first = 0;
    'expressions: for expression in expressions {
        push_marks(alloc, marks, first, expression.as_slice(), line)?;
        first = sum(first, expression.len())?;
    }
    Ok(())
}

// Returns the marks of these lines: those of the first one, then those of the next one, and so on.
fn marks_of_lines(
    alloc: Global,
    expressions: &[Vec<Operation<'_>>],
    lines: &[&[u8]],
) -> Result<Vec<u8>, SearchFault>
    ensures { IfOk result (λ marks. marks.items
        ≡ flat_map (line_marks (all_operations expressions.now)) (map (λ l. l.now) lines.now)) }
{
    let mut marks = Vec::new(alloc);
    'lines: for line in lines {
        push_line_marks(alloc, &mut marks, expressions, line)?;
    }
    Ok(marks)
}

/// Returns the marks of a text, line by line.
///
/// # Errors
/// `States` if a term that is met has a number above 255, and `Memory`.
pub fn text_marks(
    alloc: Global,
    expressions: &[Vec<Operation<'_>>],
    text: &[u8],
) -> Result<Vec<u8>, SearchFault>
    ensures { IfOk result (λ marks. marks.items ≡ text_marks (all_operations expressions.now) text.now) }
{
    let lines = lines_in(alloc, text)?;
    marks_of_lines(alloc, expressions, lines.as_slice())
}
