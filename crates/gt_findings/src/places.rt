//! The lines and tokens of a text, as ranges of bytes.
ghost use Rattle.std.specs.Prelude.{◌≡◌, ℕ, ◌+◌, ◌^◌, ◌<◌, ◌≤◌, ◌==◌, ◌++◌, ◌∷◌, [], true, false, length, take};
ghost use Rattle.std.specs.Prelude.{count_by, slice_index, if◌then◌else◌, OnOk};
ghost use Rattle.std.specs.Prelude.{slice_range, IfOk, MatchOption};
ghost use Rattle.gt_policy_text.specs.Lexing.{is_blank, is_letter};
ghost use Rattle.gt_findings.specs.Columns.{column_number, continues_token, AreBounds, AreOfLine, AreStarts};
ghost use Rattle.gt_findings.specs.Columns.{AreTokens, HasWord, IsColumnIn, IsColumnOf, IsFirstColumn};

use std::alloc::{AllocError, Global};

/// A range of bytes of a text.
#[derive(Clone, Copy)]
pub struct Span {
    pub start: usize,
    pub end: usize,
}

// Returns the end of the line that begins at this place, without its line feed.
fn line_end(bytes: &[u8], start: usize) -> usize
    requires { start ≤ length bytes.now }
    ensures within { (start ≤ result) × (result ≤ length bytes.now) }
    ensures inside { (k : ℕ) → start ≤ k → k < result → slice_index bytes.now k ≡ 10 → ⊥ }
    ensures ends { result < length bytes.now → slice_index bytes.now result ≡ 10 }
    ensures count { count_by (λ b. b == 10) (take result bytes.now) ≡ count_by (λ b. b == 10) (take start bytes.now) }
{
    'bytes: for place in start..bytes.len() {
        if bytes[place] == b'\n' {
            return place;
        }
    }
    bytes.len()
}

/// Returns the range of a line, without its line feed. A line beyond the last is empty, at the end of the text.
pub fn line_span(bytes: &[u8], line: u32) -> Span
    ensures { AreBounds bytes.now line result }
{
    let last = bytes.len();
    let none = Span {
        start: last,
        end: last,
    };
    if line == 0 {
        return none;
    }
    let mut start = 0;
    'lines: for number in 1..line {
        let end = line_end(bytes, start);
        if end == last {
            return none;
        }
        start = end + 1;
    }
    Span {
        start,
        end: line_end(bytes, start),
    }
}

/// The places where the lines of a text begin, in order.
#[derive(Drop)]
pub struct LineStarts {
    pub starts: Vec<usize>,
}

/// A text, and the places where its lines begin.
#[derive(Clone, Copy)]
pub struct LinedText<'t> {
    pub text: &'t str,
    pub lines: &'t LineStarts,
}

// Adds where the next line begins, if this byte is a line feed.
fn push_start(starts: &mut Vec<usize>, place: usize, byte: u8) -> Result<(), AllocError>
    requires { place + 1 < 2 ^ 64 }
    ensures { OnOk result (starts.new.items ≡ starts.old.items ++ (if byte == 10 then (place + 1) ∷ [] else [])) }
{
    if byte == b'\n' {
        starts.push(place + 1)?;
    }
    Ok(())
}

/// Returns where the lines of a text begin, so that the range of a line can be had without a walk through the text.
pub fn line_starts(alloc: Global, bytes: &[u8]) -> Result<LineStarts, AllocError>
    ensures { IfOk result (λ l. AreStarts bytes.now l.starts.items) }
{
    let mut starts = Vec::new(alloc);
    starts.push(0)?;
    'bytes: for place in 0..bytes.len() {
        push_start(&mut starts, place, bytes[place])?;
    }
    Ok(LineStarts { starts })
}

/// Returns the range of a line, without its line feed. A line beyond the last is empty, at the end of the text.
pub fn span_of(bytes: &[u8], lines: &LineStarts, line: u32) -> Span
    requires { AreStarts bytes.now lines.now.starts.items }
    ensures { AreBounds bytes.now line result }
{
    let last = bytes.len();
    let none = Span {
        start: last,
        end: last,
    };
    if line == 0 {
        return none;
    }
    match lines.starts.get(line as usize - 1) {
        Some(start) => Span {
            start: *start,
            end: line_end(bytes, *start),
        },
        None => none,
    }
}

// Returns whether a byte continues a token: a byte of names continues a name, and the bytes from 128 up continue a
// character that is not ASCII.
fn is_continuation(first: u8, byte: u8) -> bool
    ensures { result ≡ continues_token first byte }
{
    if first.is_ascii_alphabetic() {
        byte.is_ascii_alphabetic()
            || byte.is_ascii_digit()
            || byte == b'_'
            || byte == b'-'
            || byte == b'.'
    } else {
        first >= 128 && byte >= 128
    }
}

fn is_blank(byte: u8) -> bool
    ensures { result ≡ is_blank byte }
{
    byte == b' ' || byte == b'\t' || byte == b'\r'
}

// Returns the place of the first byte from this place on that is not blank.
fn after_blanks(line: &[u8], from: usize) -> usize
    requires { from ≤ length line.now }
    ensures within { (from ≤ result) × (result ≤ length line.now) }
    ensures blanks { (k : ℕ) → from ≤ k → k < result → is_blank (slice_index line.now k) ≡ true }
    ensures ends { is_blank (slice_index line.now result) ≡ false }
{
    'bytes: for place in from..line.len() {
        if !is_blank(line[place]) {
            return place;
        }
    }
    line.len()
}

// Returns the end of the token that begins at this place.
fn token_end(line: &[u8], start: usize) -> usize
    requires { start < length line.now }
    ensures within { (start < result) × (result ≤ length line.now) }
    ensures inside { (k : ℕ) → start < k → k < result
        → continues_token (slice_index line.now start) (slice_index line.now k) ≡ true }
    ensures ends { continues_token (slice_index line.now start) (slice_index line.now result) ≡ false }
{
    let first = line[start];
    'bytes: for place in start + 1..line.len() {
        if !is_continuation(first, line[place]) {
            return place;
        }
    }
    line.len()
}

/// Returns the tokens of a line, up to a comment. Their ranges are relative to the line.
pub fn tokens_in(alloc: Global, line: &[u8]) -> Result<Vec<Span>, AllocError>
    ensures { IfOk result (λ v. AreTokens line.now v.items) }
{
    let mut tokens = Vec::new(alloc);
    let mut start = after_blanks(line, 0);
    'tokens: while start < line.len() && line[start] != b'#' {
        let end = token_end(line, start);
        tokens.push(Span { start, end })?;
        start = after_blanks(line, end);
    }
    Ok(tokens)
}

/// Returns the bytes of a range, or none if it is out of range.
pub fn bytes_of<'a>(bytes: &'a [u8], span: Span) -> &'a [u8]
    ensures { span.start ≤ span.end → span.end ≤ length bytes.entry.now
        → result.now ≡ slice_range bytes.entry.now span.start span.end }
{
    match bytes.get(span.start..span.end) {
        Some(piece) => piece,
        None => &[],
    }
}

/// Returns the column of an offset in a line, counted from 1.
pub fn column_of(place: usize) -> u32
    ensures { result ≡ column_number place }
{
    if place < u32::MAX as usize {
        place as u32 + 1
    } else {
        u32::MAX
    }
}

/// The tokens of a line, and its number and range in the text.
#[derive(Drop)]
pub struct LineTokens {
    pub number: u32,
    pub span: Span,
    pub tokens: Vec<Span>,
}

// Returns the tokens of a line, counted from 1, that is this range.
fn tokens_of_span(
    alloc: Global,
    bytes: &[u8],
    line: u32,
    span: Span,
) -> Result<LineTokens, AllocError>
    requires { AreBounds bytes.now line span }
    ensures of_line { IfOk result (λ l. AreOfLine bytes.now l) }
    ensures number { IfOk result (λ l. l.number ≡ line) }
{
    let tokens = tokens_in(alloc, bytes_of(bytes, span))?;
    Ok(LineTokens {
        number: line,
        span,
        tokens,
    })
}

/// Returns the tokens of a line, counted from 1.
pub fn line_tokens(alloc: Global, bytes: &[u8], line: u32) -> Result<LineTokens, AllocError>
    ensures of_line { IfOk result (λ l. AreOfLine bytes.now l) }
    ensures number { IfOk result (λ l. l.number ≡ line) }
{
    tokens_of_span(alloc, bytes, line, line_span(bytes, line))
}

/// Returns the tokens of a line, counted from 1, by where the lines begin.
pub fn tokens_of(
    alloc: Global,
    bytes: &[u8],
    lines: &LineStarts,
    line: u32,
) -> Result<LineTokens, AllocError>
    requires { AreStarts bytes.now lines.now.starts.items }
    ensures of_line { IfOk result (λ l. AreOfLine bytes.now l) }
    ensures number { IfOk result (λ l. l.number ≡ line) }
{
    tokens_of_span(alloc, bytes, line, span_of(bytes, lines, line))
}

/// Returns the text up to an offset in one of its lines.
pub fn front_of<'a>(bytes: &'a [u8], line: &LineTokens, place: usize) -> &'a [u8] {
    bytes_of(
        bytes,
        Span {
            start: 0,
            end: line.span.start.saturating_add(place),
        },
    )
}

/// Returns the column of the first token of a line; 1 if there is none.
pub fn first_column(line: &[u8]) -> u32
    ensures { IsFirstColumn line.now result }
{
    let place = after_blanks(line, 0);
    if place < line.len() && line[place] != b'#' {
        column_of(place)
    } else {
        1
    }
}

// Returns the place of a word among the tokens of a line, after `skipped` occurrences of the same word. If there are
// fewer, it is the last one.
fn place_of_word(line: &[u8], tokens: &[Span], word: &[u8], skipped: usize) -> Option<usize>
    requires { AreTokens line.now tokens.now }
    ensures { MatchOption result ((place : ℕ) → HasWord line.now word.now place → ⊥)
        (λ place. HasWord line.now word.now place) }
{
    let mut last = None;
    let mut found: usize = 0;
    'tokens: for token in tokens {
        if bytes_of(line, *token) == word {
            last = Some(token.start);
            if found == skipped {
                return last;
            }
            found = found.saturating_add(1);
        }
    }
    last
}

// Returns the column of a word of a line, after `skipped` occurrences of the same word. Without the word it is that of
// the line's first token.
fn column_in(line: &[u8], tokens: &[Span], word: &[u8], skipped: usize) -> u32
    requires { AreTokens line.now tokens.now }
    ensures { IsColumnIn line.now word.now result }
{
    match place_of_word(line, tokens, word, skipped) {
        Some(place) => column_of(place),
        None => first_column(line),
    }
}

// Returns whether the word is the token at this place of a line.
fn is_word_at(line: &[u8], tokens: &[Span], word: &[u8], place: usize) -> bool
    requires { AreTokens line.now tokens.now }
    ensures { result ≡ true → HasWord line.now word.now place }
{
    'tokens: for token in tokens {
        if token.start == place && bytes_of(line, *token) == word {
            return true;
        }
    }
    false
}

// Returns the column of the word at this place of a line. If it is not there, it is that of its first occurrence, and
// without any that of the line's first token.
fn column_near(line: &[u8], tokens: &[Span], word: &[u8], place: usize) -> u32
    requires { AreTokens line.now tokens.now }
    ensures { IsColumnIn line.now word.now result }
{
    if is_word_at(line, tokens, word, place) {
        column_of(place)
    } else {
        column_in(line, tokens, word, 0)
    }
}

/// Returns the column of the word at this place of a line. If it is not there, it is that of its first occurrence, and
/// without any that of the line's first token.
pub fn column_at(bytes: &[u8], line: &LineTokens, word: &[u8], place: usize) -> u32
    requires { AreOfLine bytes.now line.now }
    ensures { IsColumnOf bytes.now line.now.number word.now result }
{
    let text = bytes_of(bytes, line.span);
    column_near(text, line.tokens.as_slice(), word, place)
}

/// Returns the column of a word among the tokens of a line, after `skipped` occurrences of the same word. If there are
/// fewer, it is that of the last one, and without any that of the line's first token.
pub fn column_of_word(bytes: &[u8], line: &LineTokens, word: &[u8], skipped: usize) -> u32
    requires { AreOfLine bytes.now line.now }
    ensures { IsColumnOf bytes.now line.now.number word.now result }
{
    let text = bytes_of(bytes, line.span);
    column_in(text, line.tokens.as_slice(), word, skipped)
}
