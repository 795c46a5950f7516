//! The token of a line at which a text has its first fault: its place and column, and what was expected there.
ghost use Rattle.std.specs.Prelude.{IfOk};
ghost use Rattle.gt_findings.specs.Columns.{AreOfLine, IsColumnOf, IsEndOf};

use gt_findings::{
    LineTokens, bytes_of, column_at, column_of, column_of_word, first_column, front_of,
    push_quoted_word, tokens_in,
};
use gt_policy::{Policy, PolicyFault, PolicyFaultKind};
use gt_text::{push_text, text_of};
use std::alloc::{AllocError, Global};

/// Tokens that may continue a statement, with what each is called. A permission represents any name, since it fits
/// wherever a name fits.
static CANDIDATES: [(&str, &str); 10] = [
    ("allow", "a statement"),
    (";", "\";\""),
    (",", "\",\""),
    (":", "\":\""),
    ("{", "\"{\""),
    ("}", "\"}\""),
    ("map_read", "a name"),
    ("self", "\"self\""),
    ("-", "\"-\""),
    ("*", "\"*\""),
];

// Returns the line on which a text ends, counted from 1.
fn last_line(bytes: &[u8]) -> u32 {
    let mut line: u32 = 1;
    for byte in bytes {
        if *byte == b'\n' {
            line = line.saturating_add(1);
        }
    }
    line
}

// Returns whether a fault is beyond a line. An undeclared name doesn't count, since it may be declared further on.
fn is_past(fault: &PolicyFault, last: u32) -> Result<bool, AllocError> {
    match fault.kind {
        PolicyFaultKind::Memory => Err(AllocError),
        PolicyFaultKind::Unknown(_) => Ok(true),
        _ => Ok(fault.line > last),
    }
}

// Returns whether the text has no fault up to the end of `front`.
fn fits_so_far(alloc: Global, front: &[u8]) -> Result<bool, AllocError> {
    let Ok(text) = text_of(front) else {
        return Ok(false);
    };
    match Policy::parse(alloc, text) {
        Ok(_) => Ok(true),
        Err(fault) => is_past(&fault, last_line(front)),
    }
}

// Returns whether the text has no fault up to the end of `front` and a token on the next line.
fn fits(alloc: Global, front: &[u8], token: &str) -> Result<bool, AllocError> {
    let mut bytes = Vec::from_slice(alloc, front)?;
    push_text(&mut bytes, "\n")?;
    push_text(&mut bytes, token)?;
    fits_so_far(alloc, bytes.as_slice())
}

/// Finds the first token of a line that does not fit. Binary search serves, since a text with no fault up to a token has
/// none up to the tokens before it.
pub(crate) fn misfit(alloc: Global, bytes: &[u8], line: &LineTokens) -> Result<usize, AllocError> {
    let mut low = 0;
    let mut high = line.tokens.len();
    for _ in 0..64 {
        if low >= high {
            return Ok(low);
        }
        let middle = low + (high - low) / 2;
        let Some(token) = line.tokens.get(middle) else {
            return Ok(low);
        };
        if fits_so_far(alloc, front_of(bytes, line, token.end))? {
            low = middle + 1;
        } else {
            high = middle;
        }
    }
    Ok(low)
}

/// Returns the column of the token that does not fit, which is this word.
pub(crate) fn misfit_column(
    alloc: Global,
    bytes: &[u8],
    line: &LineTokens,
    word: &str,
) -> Result<u32, AllocError>
    requires { AreOfLine bytes.now line.now }
    ensures { IfOk result (λ column. IsColumnOf bytes.now line.now.number word.now column) }
{
    let place = misfit(alloc, bytes, line)?;
    match line.tokens.get(place) {
        Some(token) => Ok(column_at(bytes, line, word.as_bytes(), token.start)),
        None => Ok(column_of_word(bytes, line, word.as_bytes(), 0)),
    }
}

/// Returns the length of the line up to the token before the misfit, and the column there. For the first token of a line
/// the length is 0, and the column is that of the token.
pub(crate) fn end_before(bytes: &[u8], line: &LineTokens, misfit: usize) -> (usize, u32)
    requires { AreOfLine bytes.now line.now }
    ensures { IsEndOf bytes.now line.now.number result.1 }
{
    if misfit > 0 {
        if let Some(token) = line.tokens.get(misfit - 1) {
            return (token.end, column_of(token.end));
        }
    }
    (0, first_column(bytes_of(bytes, line.span)))
}

// Appends one of the expected things.
fn push_expected(out: &mut Vec<u8>, shown: &str) -> Result<(), AllocError> {
    let before = if out.is_empty() { "expected " } else { " or " };
    push_text(out, before)?;
    push_text(out, shown)
}

/// Appends what may follow `front`.
pub(crate) fn push_all_expected(
    alloc: Global,
    out: &mut Vec<u8>,
    front: &[u8],
) -> Result<(), AllocError> {
    for (token, shown) in CANDIDATES.iter() {
        if fits(alloc, front, token)? {
            push_expected(out, shown)?;
        }
    }
    Ok(())
}

/// Appends ` after` and the last token before the fault.
pub(crate) fn push_after(out: &mut Vec<u8>, last: &[u8]) -> Result<(), AllocError> {
    let Ok(word) = text_of(last) else {
        return Ok(());
    };
    if word.is_empty() {
        return Ok(());
    }
    push_text(out, " after ")?;
    push_quoted_word(out, word)
}

// Finds the last token of a line. Returns `before` if it has none.
fn last_token_in<'a>(
    alloc: Global,
    line: &'a [u8],
    before: &'a [u8],
) -> Result<&'a [u8], AllocError> {
    let tokens = tokens_in(alloc, line)?;
    match tokens.last() {
        Some(token) => Ok(bytes_of(line, *token)),
        None => Ok(before),
    }
}

pub(crate) fn last_token<'a>(alloc: Global, text: &'a [u8]) -> Result<&'a [u8], AllocError> {
    let mut last: &'a [u8] = &[];
    let Ok(text) = text_of(text) else {
        return Ok(last);
    };
    for line in text.lines() {
        last = last_token_in(alloc, line.as_bytes(), last)?;
    }
    Ok(last)
}

// Appends what a token is that begins nothing in a policy.
fn push_stray(out: &mut Vec<u8>, token: &[u8]) -> Result<(), AllocError> {
    match token {
        [0xef, 0xbb, 0xbf, ..] => push_text(out, "; a byte order mark is not part of a policy"),
        [b'/', ..] => push_text(out, "; a comment begins with #"),
        [b'[', ..] => push_text(out, "; [ begins nothing in a policy"),
        _ => Ok(()),
    }
}

/// Appends what the token of this number in a line is, if it begins nothing in a policy.
pub(crate) fn push_stray_at(
    out: &mut Vec<u8>,
    bytes: &[u8],
    line: &LineTokens,
    number: usize,
) -> Result<(), AllocError> {
    match line.tokens.get(number) {
        Some(token) => push_stray(out, bytes_of(bytes_of(bytes, line.span), *token)),
        None => Ok(()),
    }
}
