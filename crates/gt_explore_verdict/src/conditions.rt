//! Terms of an expression: conditions on the answers of a text.
ghost use Rattle.std.specs.Prelude.{◌≡◌, ◌∷◌, IfOk, map};
ghost use Rattle.std.specs.Option.{option_map};
ghost use Rattle.gt_explore_verdict.specs.Expressions.{is_answer_word, is_nonempty_word};
ghost use Rattle.gt_explore_verdict.specs.Expressions.{agree, condition_asked, excludes, is_excluded, may_be};
ghost use Rattle.gt_explore_verdict.specs.Expressions.{number_after_mark, place_asked, placed, read_term};
ghost use Rattle.gt_explore_verdict.specs.Expressions.{reason};
ghost use Rattle.gt_explore_verdict.specs.Expressions.{term_asked, words_in};

use crate::fault::ConditionFault;
use crate::forms::{may_begin, may_have};
use crate::lines::is_same;
use crate::rules::{at_mark, is_number, is_rule, is_wrong_rule};
use std::alloc::{AllocError, Global};

/// The answers that a condition is about: all answers, the answer to the line of this number, or those of the domain of
/// this number. A number is the text of its digits.
#[derive(Clone, Copy)]
pub enum Place<'e> {
    Anywhere,
    Line(&'e [u8]),
    Domain(&'e [u8]),
}

/// A condition on a text. Anywhere: some answer has this word. Of a line or a domain: one of its answers begins with
/// these words, `first` and then `more`.
#[derive(Drop)]
pub struct Condition<'e> {
    pub place: Place<'e>,
    pub first: &'e [u8],
    pub more: Vec<&'e [u8]>,
}

// Splits a word at the first mark of this kind, if a number is before it.
fn numbered<'e>(mark: u8, word: &'e [u8]) -> Option<(&'e [u8], &'e [u8])>
    ensures { option_map (λ parts. (parts.0.now, parts.1.now)) result ≡ number_after_mark mark word.entry.now }
{
    match at_mark(mark, word) {
        Some((number, answer)) => {
            if is_number(number) {
                Some((number, answer))
            } else {
                None
            }
        }
        None => None,
    }
}

// Returns the place that the first word of a term names, and the rest of that word.
fn placed<'e>(word: &'e [u8]) -> (Place<'e>, &'e [u8])
    ensures { (place_asked result.0, result.1.now) ≡ placed word.entry.now }
{
    match numbered(b'=', word) {
        Some((line, answer)) => (Place::Line(line), answer),
        None => match numbered(b':', word) {
            Some((dom, answer)) => (Place::Domain(dom), answer),
            None => (Place::Anywhere, word),
        },
    }
}

// Returns whether an answer may begin with this word.
fn is_answer_word(word: &[u8]) -> bool
    ensures { result ≡ is_answer_word word.now }
{
    word == b"ok".as_slice() || is_rule(word)
}

// Returns whether some answer can be one that a condition with these words is about.
fn may_be(place: Place<'_>, first: &[u8], more: &[&[u8]]) -> bool
    ensures { result ≡ may_be (place_asked place.entry) (first.now ∷ map (λ w. w.now) more.now) }
{
    match place {
        Place::Anywhere => match more {
            [] => may_have(first),
            [_other, ..] => false,
        },
        Place::Line(_) | Place::Domain(_) => may_begin(first, more),
    }
}

// Returns why no answer can be one that a condition with these words is about.
fn reason(place: Place<'_>, first: &[u8], more: &[&[u8]]) -> ConditionFault
    ensures { result ≡ reason (place_asked place.entry) (first.now ∷ map (λ w. w.now) more.now) }
{
    if is_wrong_rule(first) {
        return ConditionFault::Rule;
    }
    match place {
        Place::Anywhere => match more {
            [] => ConditionFault::Word,
            [_other, ..] => ConditionFault::Words,
        },
        Place::Line(_) | Place::Domain(_) => {
            if is_answer_word(first) {
                ConditionFault::Beginning
            } else {
                ConditionFault::Answer
            }
        }
    }
}

// Returns whether a word is not empty.
fn is_nonempty(word: &[u8]) -> bool
    ensures { result ≡ is_nonempty_word word.now }
{
    !word.is_empty()
}

/// Splits a term into its words, at spaces.
pub fn words_in<'e>(alloc: Global, term: &'e [u8]) -> Result<Vec<&'e [u8]>, AllocError>
    ensures { IfOk result (λ words. map (λ w. w.now) words.items ≡ words_in term.entry.now) }
{
    term.split(|b| *b == b' ')
        .filter(|word| is_nonempty(*word))
        .collect(alloc)
}

/// Reads the words of a term.
pub fn read_term<'e>(mut words: Vec<&'e [u8]>) -> Result<Condition<'e>, ConditionFault>
    ensures { term_asked result ≡ read_term (map (λ w. w.now) words.entry.items) }
{
    if words.is_empty() {
        return Err(ConditionFault::Empty);
    }
    let (place, first) = placed(words.remove(0));
    if !may_be(place, first, words.as_slice()) {
        return Err(reason(place, first, words.as_slice()));
    }
    Ok(Condition {
        place,
        first,
        more: words,
    })
}

// Returns whether these words are the same, as far as there are both.
fn agree(words: &[&[u8]], others: &[&[u8]]) -> bool
    ensures { result ≡ agree (map (λ w. w.now) words.now) (map (λ w. w.now) others.now) }
{
    let mut at = 0;
    'words: for word in words {
        if at >= others.len() {
            return true;
        }
        if !is_same(word, others[at]) {
            return false;
        }
        at += 1;
    }
    true
}

// Returns whether an answer can begin with the words of both conditions.
fn can_agree(one: &Condition<'_>, other: &Condition<'_>) -> bool
    ensures { result ≡ agree (condition_asked one.now).words (condition_asked other.now).words }
{
    is_same(one.first, other.first) && agree(one.more.as_slice(), other.more.as_slice())
}

// Returns whether both conditions are on the answer to one line, and no answer meets both.
fn excludes(one: &Condition<'_>, other: &Condition<'_>) -> bool
    ensures { result ≡ excludes (condition_asked one.now) (condition_asked other.now) }
{
    match (one.place, other.place) {
        (Place::Line(line), Place::Line(same)) => is_same(line, same) && !can_agree(one, other),
        _ => false,
    }
}

/// Returns whether one of these conditions excludes this one.
pub fn is_excluded(conditions: &[Condition<'_>], condition: &Condition<'_>) -> bool
    ensures { result ≡ is_excluded (map condition_asked conditions.now) (condition_asked condition.now) }
{
    'conditions: for earlier in conditions {
        if excludes(earlier, condition) {
            return true;
        }
    }
    false
}

/// Returns the same condition once more.
pub fn copied<'e>(alloc: Global, condition: &Condition<'e>) -> Result<Condition<'e>, AllocError>
    ensures { IfOk result (λ c. condition_asked c ≡ condition_asked condition.now) }
{
    let more = Vec::from_slice(alloc, condition.more.as_slice())?;
    Ok(Condition {
        place: condition.place,
        first: condition.first,
        more,
    })
}
