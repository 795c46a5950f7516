//! The reasons for the fault `syntax`.
ghost use Rattle.std.specs.Prelude.{◌≡◌, IfOk, map};
ghost use Rattle.gt_fault_reasons.specs.Fitting.{example_of, example_word, FitMost, IsFitting, IsMisfit};

use crate::columns::column_of;
use crate::forms::{FORMS, example_word, expected_at};
use crate::misfit::fitting;
use crate::reason::Reason;
use crate::texts::{is_listed, push_word};
use gt_findings::{permission_names, push_hint};
use gt_script_lines::{ScriptLine, is_word, line_words, read_line, split_name};
use gt_text::{push_text, text_of};
use std::alloc::{AllocError, Global};

// Lists a word that fits, for each word of a form.
fn example_words<'f>(alloc: Global, form: &[&'f [u8]]) -> Result<Vec<&'f [u8]>, AllocError>
    ensures { IfOk result (λ words. map (λ w. w.now) words.items ≡ map example_word (map (λ w. w.now) form.entry.now)) }
{
    let mut words = Vec::new(alloc);
    'words: for word in form {
        words.push(example_word(*word))?;
    }
    Ok(words)
}

// Returns how many of the first words of a line fit the example of a form.
fn fitting_form(alloc: Global, words: &[&[u8]], form: &str) -> Result<usize, AllocError>
    ensures { IfOk result (IsFitting (map (λ w. w.now) words.now) (example_of form.now)) }
{
    let form = line_words(alloc, form)?;
    let example = example_words(alloc, form.as_slice())?;
    fitting(alloc, words, example.as_slice())
}

// Returns the maximum number of first words of a line that fit one of these forms, or 0 if there are none.
fn most_fitting(alloc: Global, words: &[&[u8]], forms: &[&str]) -> Result<usize, AllocError>
    ensures { IfOk result (FitMost (map example_of (map (λ f. f.now) forms.now)) (map (λ w. w.now) words.now)) }
{
    let mut most = 0;
    'forms: for form in forms {
        let count = fitting_form(alloc, words, *form)?;
        if count > most {
            most = count;
        }
    }
    Ok(most)
}

/// Returns the maximum number of first words of a line that fit a form. It is the index of the word that does not fit,
/// or the number of words if one is missing.
pub fn first_misfit(alloc: Global, words: &[&[u8]]) -> Result<usize, AllocError>
    ensures { IfOk result (IsMisfit (map (λ w. w.now) words.now)) }
{
    most_fitting(alloc, words, &FORMS)
}

// Appends what the forms that fit up to this word expect there, each part once, and returns these parts.
fn push_expected(
    alloc: Global,
    out: &mut Vec<u8>,
    words: &[&[u8]],
    number: usize,
) -> Result<Vec<&'static [u8]>, AllocError> {
    let mut told: Vec<&'static [u8]> = Vec::new(alloc);
    for form in FORMS.iter() {
        if fitting_form(alloc, words, *form)? == number {
            let form = line_words(alloc, *form)?;
            push_next(out, &mut told, form.get(number).copied())?;
        }
    }
    Ok(told)
}

// Appends which word of these parts a misspelt word may be meant as. The first word of a line may be `policy`, too.
fn push_meant(
    alloc: Global,
    out: &mut Vec<u8>,
    word: &[u8],
    is_first: bool,
    expected: &[&'static [u8]],
) -> Result<(), AllocError> {
    let mut names: Vec<&str> = Vec::new(alloc);
    if is_first {
        names.push("policy")?;
    }
    for part in expected {
        if is_word(part, "PERMISSION") {
            for name in permission_names(alloc)? {
                names.push(name)?;
            }
        } else if let (None, Ok(name)) = (expected_at(part), text_of(part)) {
            names.push(name)?;
        }
    }
    match text_of(word) {
        Ok(word) => push_hint(alloc, out, word, names.as_slice()),
        Err(_) => Ok(()),
    }
}

const NOTHING_MORE: &str = "nothing more";

// Appends what is expected at the word of a form, or at its end, unless it was appended before.
fn push_next<'f>(
    out: &mut Vec<u8>,
    told: &mut Vec<&'f [u8]>,
    word: Option<&'f [u8]>,
) -> Result<(), AllocError> {
    let next = word.unwrap_or(NOTHING_MORE.as_bytes());
    if is_listed(told.as_slice(), next) {
        return Ok(());
    }
    push_text(out, if told.is_empty() { "expected " } else { " or " })?;
    told.push(next)?;
    match (word, expected_at(next)) {
        (Some(word), None) => push_word(out, word),
        (None, _) => push_text(out, NOTHING_MORE),
        (Some(_), Some(expected)) => push_text(out, expected),
    }
}

// Appends what is expected in place of this word, and which word it may be meant as.
fn push_unfit(
    alloc: Global,
    out: &mut Vec<u8>,
    words: &[&[u8]],
    number: usize,
    word: &[u8],
) -> Result<(), AllocError> {
    push_word(out, word)?;
    push_text(out, ": ")?;
    let expected = push_expected(alloc, out, words, number)?;
    push_meant(alloc, out, word, number == 0, expected.as_slice())
}

// Appends what is expected after the last word.
fn push_incomplete(
    alloc: Global,
    out: &mut Vec<u8>,
    words: &[&[u8]],
    number: usize,
) -> Result<(), AllocError> {
    push_text(out, "the line is incomplete: ")?;
    let _ = push_expected(alloc, out, words, number)?;
    Ok(())
}

// Returns whether a word begins a statement of a policy.
fn is_of_policy(word: &[u8]) -> bool {
    ["type", "attribute", "typeattribute", "allow", "neverallow"]
        .iter()
        .any(|keyword| is_word(word, *keyword))
}

// Returns of what other kind of text a line is that begins with this word, if the word shows it.
fn other_text(word: &[u8]) -> Option<&'static str> {
    match word {
        [0xef, 0xbb, 0xbf, ..] => Some(
            "the text begins with a byte order mark, and a script has none",
        ),
        _ if word.contains(&b'\r') => {
            Some("a line ends with a line feed, and this one has a carriage return inside")
        }
        _ if is_of_policy(word) => {
            Some("this is a line of a policy, which a script has between policy and end")
        }
        _ => None,
    }
}

// Returns the words of a line without the name of its call.
fn unnamed<'w, 'l>(words: &'w [&'l [u8]]) -> &'w [&'l [u8]] {
    match words {
        [word, _, call @ ..] if is_word(*word, "do") || is_word(*word, "begin") => {
            let (call, _) = split_name(call);
            let count = call.len().saturating_add(2).min(words.len());
            &words[..count]
        }
        _ => words,
    }
}

// Returns the word after `as`, if it is the last word and this one is `as`.
fn bad_name<'l>(words: &[&'l [u8]], number: usize) -> Option<&'l [u8]> {
    match words {
        [.., mark, name] if is_word(*mark, "as") && number.checked_add(2) == Some(words.len()) =>
            Some(*name),
        _ => None,
    }
}

// Explains words that are not a line of a script.
fn misfit_reason(alloc: Global, line: &str, words: &[&[u8]]) -> Result<Reason, AllocError> {
    let words = unnamed(words);
    let number = first_misfit(alloc, words)?;
    if let (0, [first, ..]) = (number, words) {
        if let Some(text) = other_text(*first) {
            return Reason::of_line(alloc, text);
        }
    }
    if let Some(name) = bad_name(words, number) {
        let mut message = Vec::new(alloc);
        push_word(&mut message, name)?;
        push_text(
            &mut message,
            ": expected a name, a letter and then letters, digits or _",
        )?;
        let column = column_of(line.as_bytes(), number.saturating_add(1));
        return Ok(Reason::at(column, message));
    }
    let mut message = Vec::new(alloc);
    match words.get(number) {
        Some(word) => push_unfit(alloc, &mut message, words, number, word)?,
        None => push_incomplete(alloc, &mut message, words, number)?,
    }
    Ok(Reason::at(column_of(line.as_bytes(), number), message))
}

// Returns where such a line has to be.
fn required_place(line: &ScriptLine) -> &'static str {
    match line {
        ScriptLine::Triple(_) =>
            "triple must come before wear and all domains, and not together with a policy block",
        ScriptLine::Wear(_) =>
            "wear must come once, after the policy block or the triples and before all domains",
        ScriptLine::Domain(_) =>
            "domain must come after the policy block or the triples, and before all calls",
        ScriptLine::Body { .. } => "this line must come after the domains",
    }
}

// Returns whether a line begins or ends a policy block.
fn is_of_block(words: &[&[u8]]) -> bool {
    match words.first() {
        Some(word) => is_word(word, "policy") || is_word(word, "end"),
        None => false,
    }
}

/// Returns the reason for the fault `syntax` of a line: a word does not fit, or the line is out of its place.
pub fn syntax_reason(alloc: Global, line: &str) -> Result<Reason, AllocError> {
    let words = line_words(alloc, line)?;
    if is_of_block(words.as_slice()) {
        return Reason::of_line(
            alloc,
            "the policy block must come first, from a line policy to a line end",
        );
    }
    match read_line(words.as_slice()) {
        Some(read) => Reason::of_line(alloc, required_place(&read)),
        None => misfit_reason(alloc, line, words.as_slice()),
    }
}
