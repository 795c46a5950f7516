//! The columns at which allow statements begin.
ghost use Rattle.std.specs.Prelude.{◌≡◌, ◌<◌, length, slice_index_or, IfOk, IfSome, OnOk};
ghost use Rattle.gt_findings.specs.Columns.{AreStarts, AreTokens, HasWord};
ghost use Rattle.gt_policy_check.specs.AllowColumns.{AreStatementColumns, IsAllowWalk};

use gt_findings::{LineStarts, LineTokens, Span, bytes_of, column_of, column_of_word, tokens_of};
use gt_policy::{LinedStatement, Statement};
use std::alloc::{AllocError, Global};

/// A walk over the words `allow` of a text: the tokens of its line, the first of them that it has not passed, and the
/// column of the word that it passed last.
#[derive(Drop)]
pub(crate) struct Walk {
    pub line: LineTokens,
    pub next: usize,
    pub column: u32,
}

// Begins a walk over the words `allow` of a line.
fn walk_on(alloc: Global, bytes: &[u8], lines: &LineStarts, line: u32) -> Result<Walk, AllocError>
    requires { AreStarts bytes.now lines.now.starts.items }
    ensures walk { IfOk result (λ walk. IsAllowWalk bytes.now walk) }
    ensures number { IfOk result (λ walk. walk.line.number ≡ line) }
{
    let tokens = tokens_of(alloc, bytes, lines, line)?;
    let column = column_of_word(bytes, &tokens, b"allow".as_slice(), 0);
    Ok(Walk {
        line: tokens,
        next: 0,
        column,
    })
}

// Returns the first token from this one on that is the word.
fn next_of(row: &[u8], tokens: &[Span], word: &[u8], from: usize) -> Option<usize>
    requires { AreTokens row.now tokens.now }
    ensures { IfSome result (λ i. (i < length tokens.now)
        × HasWord row.now word.now (slice_index_or tokens.now i (record { start = 0; end = 0 })).start) }
{
    'tokens: for number in from..tokens.len() {
        if bytes_of(row, tokens[number]) == word {
            return Some(number);
        }
    }
    None
}

// Passes the next word `allow` of the line, if there is one.
fn pass(bytes: &[u8], walk: &mut Walk)
    requires { IsAllowWalk bytes.now walk.old }
    ensures walk { IsAllowWalk bytes.now walk.new }
    ensures number { walk.new.line.number ≡ walk.old.line.number }
{
    let row = bytes_of(bytes, walk.line.span);
    let tokens = walk.line.tokens.as_slice();
    if let Some(number) = next_of(row, tokens, b"allow".as_slice(), walk.next) {
        let column = column_of(tokens[number].start);
        walk.column = column;
        walk.next = number + 1;
    }
}

// Goes to the line of a statement, and passes its word `allow` if it has one.
fn advance(
    alloc: Global,
    bytes: &[u8],
    lines: &LineStarts,
    walk: &mut Walk,
    stated: &LinedStatement,
) -> Result<(), AllocError>
    requires lines { AreStarts bytes.now lines.now.starts.items }
    requires walk { IsAllowWalk bytes.now walk.old }
    ensures walk { OnOk result (IsAllowWalk bytes.now walk.new) }
    ensures number { OnOk result (walk.new.line.number ≡ stated.now.line) }
{
    if walk.line.number != stated.line {
        *walk = walk_on(alloc, bytes, lines, stated.line)?;
    }
    if matches!(stated.statement, Statement::Allow(_)) {
        pass(bytes, walk);
    }
    Ok(())
}

/// Returns for each statement a column on its line: for an allow statement that of its word `allow`. The statements are
/// in the order of the text.
pub(crate) fn statement_columns(
    alloc: Global,
    bytes: &[u8],
    lines: &LineStarts,
    statements: &[LinedStatement],
) -> Result<Vec<u32>, AllocError>
    requires { AreStarts bytes.now lines.now.starts.items }
    ensures { IfOk result (λ columns. AreStatementColumns bytes.now statements.now columns.items) }
{
    let mut columns = Vec::new(alloc);
    let mut walk = walk_on(alloc, bytes, lines, 0)?;
    'statements: for stated in statements {
        advance(alloc, bytes, lines, &mut walk, stated)?;
        columns.push(walk.column)?;
    }
    Ok(columns)
}
