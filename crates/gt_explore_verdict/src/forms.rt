//! Forms of answers: the words that an answer can have, one after the other.
ghost use Rattle.std.specs.Prelude.{◌≡◌};
ghost use Rattle.std.specs.List.{list_all, list_any};
ghost use Rattle.gt_explore_verdict.specs.Forms.{begins_form, fifth_kind, first_kind, fits, fits_from, fourth_kind};
ghost use Rattle.gt_explore_verdict.specs.Forms.{has_place, is_bytes, is_field_name, is_lower_digit, is_of_word_kind};
ghost use Rattle.gt_explore_verdict.specs.Forms.{is_permission_name, is_status, kind_at, may_begin, may_have};
ghost use Rattle.gt_explore_verdict.specs.Forms.{rule_word, second_kind, third_kind, value_named};
ghost use Rattle.std.specs.Option.{option_map};
ghost use Rattle.std.specs.Prelude.{map, ◌∷◌};

use crate::rules::{at_mark, is_number};
use gt_types::{Field, Perms, Rule, Status};

/// A form of an answer.
#[derive(Clone, Copy, Debug, PartialEq, Eq)]
pub enum AnswerForm {
    /// `ok`.
    Done,
    /// `ok HEX`.
    Bytes,
    /// `ok frames=F`.
    Frames,
    /// `ok frames=F max=M`.
    Size,
    /// `ok version=V`.
    Version,
    /// `RULE STATUS`, and the facts of N5 and N25.
    Refused(Rule),
}

// A kind of word in an answer.
#[derive(Clone, Copy)]
enum WordKind {
    Ok,
    Bytes,
    Frames,
    Max,
    Version,
    Rule(Rule),
    Status(Rule),
    Source,
    Target,
    Permission,
    Field,
}

/// The forms that an answer can have in a text. N26 is not among them: a text is that of a run with memory.
pub(crate) const EVERY_FORM: [AnswerForm; 30] = [
    AnswerForm::Done,
    AnswerForm::Bytes,
    AnswerForm::Frames,
    AnswerForm::Size,
    AnswerForm::Version,
    AnswerForm::Refused(Rule::N1),
    AnswerForm::Refused(Rule::N2),
    AnswerForm::Refused(Rule::N3),
    AnswerForm::Refused(Rule::N4),
    AnswerForm::Refused(Rule::N5),
    AnswerForm::Refused(Rule::N6),
    AnswerForm::Refused(Rule::N7),
    AnswerForm::Refused(Rule::N8),
    AnswerForm::Refused(Rule::N9),
    AnswerForm::Refused(Rule::N10),
    AnswerForm::Refused(Rule::N11),
    AnswerForm::Refused(Rule::N12),
    AnswerForm::Refused(Rule::N13),
    AnswerForm::Refused(Rule::N14),
    AnswerForm::Refused(Rule::N15),
    AnswerForm::Refused(Rule::N16),
    AnswerForm::Refused(Rule::N17),
    AnswerForm::Refused(Rule::N18),
    AnswerForm::Refused(Rule::N19),
    AnswerForm::Refused(Rule::N20),
    AnswerForm::Refused(Rule::N21),
    AnswerForm::Refused(Rule::N22),
    AnswerForm::Refused(Rule::N23),
    AnswerForm::Refused(Rule::N24),
    AnswerForm::Refused(Rule::N25),
];

// All fields that an answer can name.
const EVERY_FIELD: [Field; 9] = [
    Field::Length,
    Field::Kind,
    Field::Reading,
    Field::Writing,
    Field::Pwt,
    Field::Pcd,
    Field::Pat,
    Field::SubPage,
    Field::Reserved,
];

// Returns the name of a rule.
fn rule_name(rule: Rule) -> &'static str
    ensures { result.now ≡ rule_word rule }
{
    match rule {
        Rule::N1 => "N1",
        Rule::N2 => "N2",
        Rule::N3 => "N3",
        Rule::N4 => "N4",
        Rule::N5 => "N5",
        Rule::N6 => "N6",
        Rule::N7 => "N7",
        Rule::N8 => "N8",
        Rule::N9 => "N9",
        Rule::N10 => "N10",
        Rule::N11 => "N11",
        Rule::N12 => "N12",
        Rule::N13 => "N13",
        Rule::N14 => "N14",
        Rule::N15 => "N15",
        Rule::N16 => "N16",
        Rule::N17 => "N17",
        Rule::N18 => "N18",
        Rule::N19 => "N19",
        Rule::N20 => "N20",
        Rule::N21 => "N21",
        Rule::N22 => "N22",
        Rule::N23 => "N23",
        Rule::N24 => "N24",
        Rule::N25 => "N25",
        Rule::N26 => "N26",
    }
}

impl AnswerForm {
    ghost use Rattle.std.specs.Prelude.{◌≡◌};
    ghost use Rattle.gt_explore_verdict.specs.Forms.{form_word};

    /// Returns the word for what an answer of this form has: its rule, or its value.
    pub fn word(self) -> &'static str
        ensures { result.now ≡ form_word self }
    {
        match self {
            AnswerForm::Done => "ok",
            AnswerForm::Bytes => "bytes",
            AnswerForm::Frames => "frames",
            AnswerForm::Size => "max",
            AnswerForm::Version => "version",
            AnswerForm::Refused(rule) => rule_name(rule),
        }
    }
}

// Returns whether the word is the number of this status.
fn is_status(status: Status, word: &[u8]) -> bool
    ensures { result ≡ is_status status word.now }
{
    match status {
        Status::GeneralError => word == b"-1".as_slice(),
        Status::BadDomain => word == b"-2".as_slice(),
        Status::BadGntref => word == b"-3".as_slice(),
        Status::BadHandle => word == b"-4".as_slice(),
        Status::PermissionDenied => word == b"-8".as_slice(),
        Status::BadPage => word == b"-9".as_slice(),
        Status::BadCopyArg => word == b"-10".as_slice(),
        Status::Eagain => word == b"-12".as_slice(),
    }
}

// Returns whether a byte is a hexadecimal digit in lower case.
fn is_lower_digit(byte: u8) -> bool
    ensures { result ≡ is_lower_digit byte }
{
    (b'0' <= byte && byte <= b'9') || (b'a' <= byte && byte <= b'f')
}

fn are_lower_digits(bytes: &[u8]) -> bool
    ensures { result ≡ list_all is_lower_digit bytes.now }
{
    bytes.iter().all(|byte| is_lower_digit(*byte))
}

// Returns whether the word is bytes: two hexadecimal digits in lower case for each, and at least one byte.
fn is_bytes(word: &[u8]) -> bool
    ensures { result ≡ is_bytes word.now }
{
    !word.is_empty() && word.len() % 2 == 0 && are_lower_digits(word)
}

// Returns the value of a word `NAME=VALUE` with this name.
fn value_named<'w>(name: &[u8], word: &'w [u8]) -> Option<&'w [u8]>
    ensures { option_map (λ value. value.now) result ≡ value_named name.now word.entry.now }
{
    match at_mark(b'=', word) {
        Some((before, value)) => { if before == name { Some(value) } else { None } }
        None => None,
    }
}

// Returns whether the word is the name of a permission.
fn is_permission_name(word: &[u8]) -> bool
    ensures { result ≡ is_permission_name word.now }
{
    Perms::named(word).is_some()
}

// Returns whether the word is the name of a field of an entry's bytes.
fn is_field_name(word: &[u8]) -> bool
    ensures { result ≡ is_field_name word.now }
{
    EVERY_FIELD
        .iter()
        .any(|field| field.name().as_bytes() == word)
}

// Returns whether the word is one of this kind.
fn is_of(kind: WordKind, word: &[u8]) -> bool
    ensures { result ≡ is_of_word_kind kind word.now }
{
    match kind {
        WordKind::Ok => word == b"ok".as_slice(),
        WordKind::Bytes => is_bytes(word),
        WordKind::Frames => value_named(b"frames", word).is_some_and(|value| is_number(value)),
        WordKind::Max => value_named(b"max", word).is_some_and(|value| is_number(value)),
        WordKind::Version => value_named(b"version", word).is_some_and(|value| is_number(value)),
        WordKind::Rule(rule) => word == rule_name(rule).as_bytes(),
        WordKind::Status(rule) => is_status(rule.status(), word),
        WordKind::Source => value_named(b"source", word).is_some(),
        WordKind::Target => value_named(b"target", word).is_some(),
        WordKind::Permission => value_named(b"perm", word).is_some_and(|value| is_permission_name(
            value,
        )),
        WordKind::Field => value_named(b"field", word).is_some_and(|value| is_field_name(value)),
    }
}

fn first_kind(form: AnswerForm) -> WordKind
    ensures { result ≡ first_kind form }
{
    match form {
        AnswerForm::Refused(rule) => WordKind::Rule(rule),
        _ => WordKind::Ok,
    }
}

fn second_kind(form: AnswerForm) -> Option<WordKind>
    ensures { result ≡ second_kind form }
{
    match form {
        AnswerForm::Done => None,
        AnswerForm::Bytes => Some(WordKind::Bytes),
        AnswerForm::Frames | AnswerForm::Size => Some(WordKind::Frames),
        AnswerForm::Version => Some(WordKind::Version),
        AnswerForm::Refused(rule) => Some(WordKind::Status(rule)),
    }
}

fn third_kind(form: AnswerForm) -> Option<WordKind>
    ensures { result ≡ third_kind form }
{
    match form {
        AnswerForm::Size => Some(WordKind::Max),
        AnswerForm::Refused(Rule::N5) => Some(WordKind::Source),
        AnswerForm::Refused(Rule::N25) => Some(WordKind::Field),
        _ => None,
    }
}

fn fourth_kind(form: AnswerForm) -> Option<WordKind>
    ensures { result ≡ fourth_kind form }
{
    match form {
        AnswerForm::Refused(Rule::N5) => Some(WordKind::Target),
        _ => None,
    }
}

fn fifth_kind(form: AnswerForm) -> Option<WordKind>
    ensures { result ≡ fifth_kind form }
{
    match form {
        AnswerForm::Refused(Rule::N5) => Some(WordKind::Permission),
        _ => None,
    }
}

// Returns the kind of the word at this index of an answer.
fn kind_at(form: AnswerForm, at: usize) -> Option<WordKind>
    ensures { result ≡ kind_at form at }
{
    match at {
        0 => Some(first_kind(form)),
        1 => second_kind(form),
        2 => third_kind(form),
        3 => fourth_kind(form),
        4 => fifth_kind(form),
        _ => None,
    }
}

// Returns whether an answer of this form can have the word at this index.
#[tactic(auto, unfolding(crate::specs::Forms::fits))]
fn fits(form: AnswerForm, at: usize, word: &[u8]) -> bool
    ensures { result ≡ fits form at word.now }
{
    match kind_at(form, at) {
        Some(kind) => is_of(kind, word),
        None => false,
    }
}

// Returns whether an answer of this form can have these words after its first one.
fn fits_after_first(form: AnswerForm, words: &[&[u8]]) -> bool
    ensures { result ≡ fits_from form 1 (map (λ w. w.now) words.now) }
{
    let mut at = 1;
    'words: for word in words {
        if !fits(form, at, word) {
            return false;
        }
        at += 1;
    }
    true
}

/// Returns whether an answer of this form can begin with these words.
pub(crate) fn begins_form(form: AnswerForm, first: &[u8], more: &[&[u8]]) -> bool
    ensures { result ≡ begins_form form (first.now ∷ map (λ w. w.now) more.now) }
{
    fits(form, 0, first) && fits_after_first(form, more)
}

/// Returns whether an answer of one of these forms can begin with these words.
pub(crate) fn begins_one(forms: &[AnswerForm], first: &[u8], more: &[&[u8]]) -> bool
    ensures { result ≡ list_any (λ form. begins_form form (first.now ∷ map (λ w. w.now) more.now)) forms.now }
{
    forms.iter().any(|form| begins_form(*form, first, more))
}

// Returns whether an answer of this form can have this word.
fn has_place(form: AnswerForm, word: &[u8]) -> bool
    ensures { result ≡ has_place form word.now }
{
    fits(form, 0, word)
        || fits(form, 1, word)
        || fits(form, 2, word)
        || fits(form, 3, word)
        || fits(form, 4, word)
}

/// Returns whether some answer can begin with these words.
#[tactic(auto, unfolding(crate::specs::Forms::may_begin))]
pub fn may_begin(first: &[u8], more: &[&[u8]]) -> bool
    ensures { result ≡ may_begin (first.now ∷ map (λ w. w.now) more.now) }
{
    begins_one(&EVERY_FORM, first, more)
}

/// Returns whether some answer can have this word.
#[tactic(auto, unfolding(crate::specs::Forms::may_have))]
pub fn may_have(word: &[u8]) -> bool
    ensures { result ≡ may_have word.now }
{
    EVERY_FORM.iter().any(|form| has_place(*form, word))
}
