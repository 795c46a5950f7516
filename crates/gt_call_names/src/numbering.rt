//! Expressions with the numbers of lines in place of names.
ghost use Rattle.std.specs.Prelude.{◌≡◌, ◌++◌, ◌≤◌, IfErr, IfOk, IfSome, MatchResult, None, OnOk, filter, length, map};
ghost use Rattle.std.specs.Prelude.{slice_get};
ghost use Rattle.std.specs.List.{position, slice_split};
ghost use Rattle.std.specs.Str.Lines.{lines as lines_in};
ghost use Rattle.gt_call_names.specs.Naming.{HasRepeated, IsNumberingFault, IsExpressionNumbered, first_repeated};
ghost use Rattle.gt_call_names.specs.Naming.{is_break, is_equals, is_field, lines_of_part};
ghost use Rattle.gt_call_names.specs.Naming.{mark_after, numbers_named, part_numbered, parts_numbered, repeated};
ghost use Rattle.gt_call_names.specs.Naming.{with_line_numbers};

use crate::fault::NameFault;
use crate::lines::numbers_named;
use gt_script_lines::{is_word, text_lines};
use gt_text::push_number;
use std::alloc::{AllocError, Global};

// Returns whether a byte is between two words of an expression: a blank or a sign.
fn is_break(byte: u8) -> bool
    ensures { result ≡ is_break byte }
{
    match byte {
        b' ' | b'\t' | b'!' | b'&' | b'(' | b')' | b'|' => true,
        _ => false,
    }
}

fn is_equals(byte: u8) -> bool
    ensures { result ≡ is_equals byte }
{
    byte == b'='
}

// Returns whether a word is before the `=` of a value in answers, and so names no call.
fn is_field(word: &[u8]) -> bool
    ensures { result ≡ is_field word.now }
{
    is_word(word, "frames")
        || is_word(word, "max")
        || is_word(word, "version")
        || is_word(word, "source")
        || is_word(word, "target")
        || is_word(word, "perm")
        || is_word(word, "field")
}

// Returns the index of the first `=` of a word.
fn equals_in(part: &[u8]) -> Option<usize>
    ensures place { result ≡ position is_equals part.now }
    ensures within { IfSome result (λ at. at ≤ length part.now) }
{
    part.iter().position(|b| is_equals(*b))
}

// Returns the numbers of the lines whose calls have the name before the first `=` of a word.
fn lines_of_part(alloc: Global, lines: &[&str], part: &[u8]) -> Result<Vec<usize>, AllocError>
    ensures { IfOk result (λ numbers. numbers.items ≡ lines_of_part (map (λ line. line.now) lines.now) part.now) }
{
    let Some(at) = equals_in(part) else {
        return Ok(Vec::new(alloc));
    };
    let name = &part[..at];
    if is_field(name) {
        return Ok(Vec::new(alloc));
    }
    numbers_named(alloc, lines, name)
}

// Returns the first two of these numbers, if there are two.
fn repeated(numbers: &[usize]) -> Option<(usize, usize)>
    ensures { result ≡ repeated numbers.now }
{
    match numbers {
        [first, second, ..] => Some((*first, *second)),
        _ => None,
    }
}

// Returns the first two lines whose calls both have the name of one of these words.
fn first_repeated(
    alloc: Global,
    lines: &[&str],
    parts: &[&[u8]],
) -> Result<Option<(usize, usize)>, AllocError>
    ensures { IfOk result (λ found.
        found ≡ first_repeated (map (λ line. line.now) lines.now) (map (λ part. part.now) parts.now)) }
{
    'parts: for part in parts {
        let numbers = lines_of_part(alloc, lines, part)?;
        if let Some(both) = repeated(numbers.as_slice()) {
            return Ok(Some(both));
        }
    }
    Ok(None)
}

// Appends a word, with this number in place of what is before its first `=`, if there is a number.
fn push_numbered(out: &mut Vec<u8>, part: &[u8], numbers: &[usize]) -> Result<(), AllocError>
    ensures { OnOk result (out.new.items
        ≡ out.old.items ++ part_numbered part.now numbers.now (position is_equals part.now)) }
{
    match (numbers, equals_in(part)) {
        ([number, ..], Some(at)) => {
            push_number(out, *number)?;
            out.extend_from_slice(&part[at..])
        }
        _ => out.extend_from_slice(part),
    }
}

// Appends the mark at this index, if there is one.
fn push_mark(out: &mut Vec<u8>, marks: &[u8], at: usize) -> Result<(), AllocError>
    ensures { OnOk result (out.new.items ≡ out.old.items ++ mark_after (slice_get marks.now at)) }
{
    match marks.get(at) {
        Some(mark) => {
            out.push(*mark)?;
            Ok(())
        }
        None => Ok(()),
    }
}

// Returns these words with these marks between them, and numbers in place of names.
fn joined(
    alloc: Global,
    lines: &[&str],
    parts: &[&[u8]],
    marks: &[u8],
) -> Result<Vec<u8>, AllocError>
    ensures { IfOk result (λ out. out.items
        ≡ parts_numbered (map (λ line. line.now) lines.now) (map (λ part. part.now) parts.now) marks.now 0) }
{
    let mut out = Vec::new(alloc);
    let mut at = 0;
    'parts: for part in parts {
        let numbers = lines_of_part(alloc, lines, part)?;
        push_numbered(&mut out, part, numbers.as_slice())?;
        push_mark(&mut out, marks, at)?;
        at += 1;
    }
    Ok(out)
}

// Returns the words of an expression.
fn words_in<'e>(alloc: Global, text: &'e [u8]) -> Result<Vec<&'e [u8]>, AllocError>
    ensures { IfOk result (λ words. map (λ word. word.now) words.items ≡ slice_split is_break text.entry.now) }
{
    text.split(|byte| is_break(*byte)).collect(alloc)
}

// Returns the bytes between the words of an expression.
fn marks_in(alloc: Global, expression: &str) -> Result<Vec<u8>, AllocError>
    ensures { IfOk result (λ marks. marks.items ≡ filter is_break expression.now) }
{
    expression
        .as_bytes()
        .iter()
        .copied()
        .filter(|b| is_break(*b))
        .collect(alloc)
}

// Returns an expression with numbers in place of names, or the first two lines whose calls have the same name.
fn numbered_by(
    alloc: Global,
    lines: &[&str],
    expression: &str,
) -> Result<Result<Vec<u8>, (usize, usize)>, AllocError>
    ensures { IfOk result (λ by. MatchResult by
        (λ out. IsExpressionNumbered (map (λ line. line.now) lines.now) expression.now out.items)
        (HasRepeated (map (λ line. line.now) lines.now) expression.now)) }
{
    let parts = words_in(alloc, expression.as_bytes())?;
    let marks = marks_in(alloc, expression)?;
    if let Some(both) = first_repeated(alloc, lines, parts.as_slice())? {
        return Ok(Err(both));
    }
    let out = joined(alloc, lines, parts.as_slice(), marks.as_slice())?;
    Ok(Ok(out))
}

// Returns the same by the lines of a script.
fn numbered_in(
    alloc: Global,
    source: &str,
    expression: &str,
) -> Result<Result<Vec<u8>, (usize, usize)>, AllocError>
    ensures { IfOk result (λ by. MatchResult by
        (λ out. IsExpressionNumbered (lines_in source.now) expression.now out.items)
        (HasRepeated (lines_in source.now) expression.now)) }
{
    let lines = text_lines(alloc, source)?;
    numbered_by(alloc, lines.as_slice(), expression)
}

/// Returns the numbers of the lines of a script whose calls have this name.
///
/// # Errors
/// An allocation failed.
pub fn calls_named(alloc: Global, source: &str, name: &[u8]) -> Result<Vec<usize>, AllocError>
    ensures { IfOk result (λ numbers. numbers.items ≡ numbers_named name.now 1 (lines_in source.now)) }
{
    let lines = text_lines(alloc, source)?;
    numbers_named(alloc, lines.as_slice(), name)
}

/// Returns an expression about a script with the numbers of lines in place of the names of their calls. A name is what
/// is before the first `=` of a word. The fields of answers, such as `frames`, are not names.
///
/// # Errors
/// `Repeated` if a name of the expression is that of two calls, and `Memory`.
pub fn numbered(alloc: Global, source: &str, expression: &str) -> Result<Vec<u8>, NameFault>
    ensures ok { IfOk result (λ out. out.items ≡ with_line_numbers (lines_in source.now) expression.now) }
    ensures once { IfOk result (λ out.
        first_repeated (lines_in source.now) (slice_split is_break expression.now) ≡ None) }
    ensures fault { IfErr result (IsNumberingFault (lines_in source.now) expression.now) }
{
    match numbered_in(alloc, source, expression) {
        Ok(Ok(out)) => Ok(out),
        Ok(Err((first, second))) => Err(NameFault::Repeated { first, second }),
        Err(_) => Err(NameFault::Memory),
    }
}
