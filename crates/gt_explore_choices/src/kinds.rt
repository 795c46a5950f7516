//! The lines of a script, and what each of them is for a choice.
ghost use Rattle.std.specs.Prelude.{◌≡◌, ◌==◌, ◌-◌, IfOk, count_by, if◌then◌else◌, length, map};
ghost use Rattle.std.specs.Str.Lines.{lines as lines_in};
ghost use Rattle.gt_script_lines.specs.Words.{words};
ghost use Rattle.gt_explore_choices.specs.Kinds.{choice_word, first_choice, is_list_word, is_domain_line};
ghost use Rattle.gt_explore_choices.specs.Kinds.{is_domain_words, kind_before, kind_by, kind_of_words, kind_seen};
ghost use Rattle.gt_explore_choices.specs.Kinds.{marked_lines, marked_seen, trimmed};

use gt_script_lines::{is_word, line_words, text_lines};
use std::alloc::{AllocError, Global};
use std::fmt;

/// What a line is for a choice. A domain is the word of its number without leading zeros.
#[derive(Clone, Copy)]
pub enum LineKind<'a> {
    /// It has no domain, and is in each choice.
    Fixed,
    /// `do`, `tell` or `await` of this domain. It is left out only if the domain left before.
    Must(&'a [u8]),
    /// `maybe` of this domain. It may be left out.
    May(&'a [u8]),
    /// `leave` of this domain. The list of the domain may end here.
    Leave(&'a [u8]),
}

/// A line of a script, and what it is for a choice.
#[derive(Clone, Copy)]
pub struct MarkedLine<'a> {
    pub kind: LineKind<'a>,
    pub line: &'a str,
}

/// The word that makes a line a choice.
#[derive(Clone, Copy, Debug, PartialEq, Eq)]
pub enum ChoiceWord {
    Maybe,
    Leave,
}

impl fmt::Display for ChoiceWord {
    ghost use Rattle.std.specs.Prelude.{Some};
    ghost use Rattle.gt_explore_choices.specs.Kinds.{choice_word_text};

    ghost output = { λ word. Some (choice_word_text word) };

    fn fmt<W: fmt::Write>(&self, f: &mut fmt::Formatter<W>) -> fmt::Result {
        match self {
            ChoiceWord::Maybe => f.write_str("maybe"),
            ChoiceWord::Leave => f.write_str("leave"),
        }
    }
}

/// The number of a line that is a choice, counted from 1, and its word.
#[derive(Clone, Copy, Debug, PartialEq, Eq)]
pub struct ChoicePlace {
    pub line: usize,
    pub word: ChoiceWord,
}

// Returns a word without its leading zeros.
fn trimmed<'a>(word: &'a [u8]) -> &'a [u8]
    ensures { result.now ≡ trimmed word.entry.now }
{
    'bytes: for (i, byte) in word.iter().enumerate() {
        if *byte != b'0' {
            return &word[i..];
        }
    }
    &[]
}

// Returns whether a line of a domain's list begins with this word.
fn is_list_word(word: &[u8]) -> bool
    ensures { result ≡ is_list_word word.now }
{
    is_word(word, "do") || is_word(word, "tell") || is_word(word, "await")
}

// Returns what a line is by its first word, its domain, and whether it has only these two words.
fn kind_by<'a>(word: &[u8], dom: &'a [u8], is_short: bool) -> LineKind<'a>
    ensures { kind_seen result ≡ kind_by word.now dom.entry.now is_short }
{
    if is_word(word, "maybe") {
        LineKind::May(dom)
    } else if is_word(word, "leave") && is_short {
        LineKind::Leave(dom)
    } else if is_list_word(word) {
        LineKind::Must(dom)
    } else {
        LineKind::Fixed
    }
}

// Returns what a line after the `domain` lines is by its words.
#[tactic(auto, unfolding(crate::specs::Kinds::kind_of_words))]
fn kind_of_words<'a>(words: &[&'a [u8]]) -> LineKind<'a>
    ensures { kind_seen result ≡ kind_of_words (map (λ w. w.now) words.now) }
{
    match words {
        [word, dom, more @ ..] => kind_by(word, trimmed(dom), more.is_empty()),
        _ => LineKind::Fixed,
    }
}

// Returns whether these are the words of a `domain` line.
#[tactic(auto, unfolding(crate::specs::Kinds::is_domain_words))]
fn is_domain_words(words: &[&[u8]]) -> bool
    ensures { result ≡ is_domain_words (map (λ w. w.now) words.now) }
{
    match words {
        [word, ..] => is_word(word, "domain"),
        _ => false,
    }
}

// Returns whether a line is a `domain` line.
fn is_domain_line(alloc: Global, line: &str) -> Result<bool, AllocError>
    ensures { IfOk result (λ b. b ≡ is_domain_line line.now) }
{
    let words = line_words(alloc, line)?;
    Ok(is_domain_words(words.as_slice()))
}

// Returns the number of `domain` lines.
fn domain_lines(alloc: Global, lines: &[&str]) -> Result<usize, AllocError>
    ensures { IfOk result (λ n. n ≡ count_by is_domain_line (map (λ line. line.now) lines.now)) }
{
    let mut count = 0;
    'lines: for line in lines {
        if is_domain_line(alloc, line)? {
            count += 1;
        }
    }
    Ok(count)
}

// Returns a number of lines less one, if that line is one of them.
fn less(count: usize, is_one: bool) -> usize
    ensures { result ≡ (if is_one then count - 1 else count) }
{
    if is_one {
        count.saturating_sub(1)
    } else {
        count
    }
}

// Marks a line that has `later` lines `domain` after it.
fn marked<'a>(alloc: Global, later: usize, line: &'a str) -> Result<MarkedLine<'a>, AllocError>
    ensures { IfOk result (λ m. marked_seen m ≡ record { kind = kind_before later line.entry.now; line = line.entry.now }) }
{
    if later > 0 {
        let kind = LineKind::Fixed;
        return Ok(MarkedLine { kind, line });
    }
    let words = line_words(alloc, line)?;
    let kind = kind_of_words(words.as_slice());
    Ok(MarkedLine { kind, line })
}

// Marks these lines.
fn marked_lines<'a>(alloc: Global, lines: &[&'a str]) -> Result<Vec<MarkedLine<'a>>, AllocError>
    ensures { IfOk result (λ all. map marked_seen all.items ≡ marked_lines (map (λ line. line.now) lines.now)) }
{
    let mut later = domain_lines(alloc, lines)?;
    let mut all = Vec::new(alloc);
    'lines: for line in lines {
        later = less(later, is_domain_line(alloc, line)?);
        all.push(marked(alloc, later, line)?)?;
    }
    Ok(all)
}

/// Marks the lines of a script.
///
/// # Errors
/// An allocation failed.
pub fn marked_source<'a>(alloc: Global, source: &'a str) -> Result<Vec<MarkedLine<'a>>, AllocError>
    ensures { IfOk result (λ all. map marked_seen all.items ≡ marked_lines (lines_in source.entry.now)) }
{
    let lines = text_lines(alloc, source)?;
    marked_lines(alloc, lines.as_slice())
}

// Returns the word of a line that is a choice.
fn choice_word(kind: LineKind<'_>) -> Option<ChoiceWord>
    ensures { result ≡ choice_word (kind_seen kind.entry) }
{
    match kind {
        LineKind::Fixed | LineKind::Must(_) => None,
        LineKind::May(_) => Some(ChoiceWord::Maybe),
        LineKind::Leave(_) => Some(ChoiceWord::Leave),
    }
}

// Returns the first of these lines that is a choice.
fn first_marked(lines: &[MarkedLine<'_>]) -> Option<ChoicePlace>
    ensures { result ≡ first_choice 1 (map marked_seen lines.now) }
{
    let mut number = 1;
    'lines: for line in lines {
        if let Some(word) = choice_word(line.kind) {
            return Some(ChoicePlace { line: number, word });
        }
        number += 1;
    }
    None
}

/// Returns the first line of a script that is a choice: `maybe` or `leave` after the last `domain` line.
///
/// # Errors
/// An allocation failed.
pub fn first_choice(alloc: Global, source: &str) -> Result<Option<ChoicePlace>, AllocError>
    ensures { IfOk result (λ place. place ≡ first_choice 1 (marked_lines (lines_in source.now))) }
{
    let all = marked_source(alloc, source)?;
    Ok(first_marked(all.as_slice()))
}
