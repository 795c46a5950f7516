//! Lines and words of a text, and whether a line meets a condition.
ghost use Rattle.std.specs.Prelude.{◌≡◌, IfOk, map};
ghost use Rattle.std.specs.List.{list_any};
ghost use Rattle.std.specs.Str.{bytes_eq};
ghost use Rattle.gt_explore_verdict.specs.Expressions.{condition_asked};
ghost use Rattle.gt_explore_verdict.specs.Satisfying.{begins, is_met_by, is_met_in, line_words, lines_in};

use crate::conditions::{Condition, Place};
use std::alloc::{AllocError, Global};

/// Splits a line into its words, at each space.
pub fn line_words<'t>(alloc: Global, line: &'t [u8]) -> Result<Vec<&'t [u8]>, AllocError>
    ensures { IfOk result (λ words. map (λ w. w.now) words.items ≡ line_words line.entry.now) }
{
    line.split(|b| *b == b' ').collect(alloc)
}

/// Splits a text into its lines. What comes after the last line end is a line too.
pub fn lines_in<'t>(alloc: Global, text: &'t [u8]) -> Result<Vec<&'t [u8]>, AllocError>
    ensures { IfOk result (λ lines. map (λ l. l.now) lines.items ≡ lines_in text.entry.now) }
{
    text.split(|b| *b == b'\n').collect(alloc)
}

/// Returns whether two words are the same.
pub fn is_same(one: &[u8], other: &[u8]) -> bool
    ensures { result ≡ bytes_eq one.now other.now }
{
    one == other
}

// Returns whether this is one of the words.
fn has_word(words: &[&[u8]], word: &[u8]) -> bool
    ensures { result ≡ list_any (λ w. bytes_eq w word.now) (map (λ w. w.now) words.now) }
{
    'words: for other in words {
        if is_same(other, word) {
            return true;
        }
    }
    false
}

// Returns whether the words begin with these.
fn begins(words: &[&[u8]], with: &[&[u8]]) -> bool
    ensures { result ≡ begins (map (λ w. w.now) words.now) (map (λ w. w.now) with.now) }
{
    let mut at = 0;
    'with: for word in with {
        if at >= words.len() {
            return false;
        }
        if !is_same(words[at], word) {
            return false;
        }
        at += 1;
    }
    true
}

// Returns whether an answer begins with the words of a condition.
fn begins_as(answer: &[&[u8]], condition: &Condition<'_>) -> bool
    ensures { result ≡ begins (map (λ w. w.now) answer.now) (condition_asked condition.now).words }
{
    match answer {
        [] => false,
        [first, more @ ..] => {
            is_same(first, condition.first) && begins(more, condition.more.as_slice())
        }
    }
}

// Returns whether a line of a text, of which these are the words, meets a condition.
#[tactic(auto, unfolding(crate::specs::Satisfying::is_met_by))]
fn is_met_by(condition: &Condition<'_>, words: &[&[u8]]) -> bool
    ensures { result ≡ is_met_by (condition_asked condition.now) (map (λ w. w.now) words.now) }
{
    match words {
        [line, dom, answer @ ..] => match condition.place {
            Place::Anywhere => has_word(answer, condition.first),
            Place::Line(number) => is_same(line, number) && begins_as(answer, condition),
            Place::Domain(number) => is_same(dom, number) && begins_as(answer, condition),
        },
        _ => false,
    }
}

// Returns whether a line meets a condition.
fn line_meets(alloc: Global, condition: &Condition<'_>, line: &[u8]) -> Result<bool, AllocError>
    ensures { IfOk result (λ b. b ≡ is_met_by (condition_asked condition.now) (line_words line.now)) }
{
    let words = line_words(alloc, line)?;
    Ok(is_met_by(condition, words.as_slice()))
}

/// Returns whether one of these lines meets a condition.
pub fn is_met_in(
    alloc: Global,
    condition: &Condition<'_>,
    lines: &[&[u8]],
) -> Result<bool, AllocError>
    ensures { IfOk result (λ b. b ≡ is_met_in (condition_asked condition.now) (map (λ l. l.now) lines.now)) }
{
    'lines: for line in lines {
        if line_meets(alloc, condition, line)? {
            return Ok(true);
        }
    }
    Ok(false)
}
