//! The names that a text declares, with their lines and places there.
use gt_findings::{bytes_of, tokens_in};
use gt_text::text_of;
use std::alloc::{AllocError, Global};

/// A declared name: whether it is a type or an attribute, its line, and its place there, counted from 0.
#[derive(Clone, Copy)]
pub(crate) struct Declared<'a> {
    pub name: &'a str,
    pub is_type: bool,
    pub line: u32,
    pub place: usize,
}

// Returns what the name after this word is declared as: true for a type, false for an attribute.
fn declares(word: &[u8]) -> Option<bool> {
    if word == b"type".as_slice() {
        return Some(true);
    }
    if word == b"attribute".as_slice() {
        return Some(false);
    }
    None
}

// Adds a name if the word before it declares it.
fn push_name<'a>(
    names: &mut Vec<Declared<'a>>,
    before: Option<bool>,
    word: &'a [u8],
    line: u32,
    place: usize,
) -> Result<(), AllocError> {
    if let (Some(is_type), Ok(name)) = (before, text_of(word)) {
        names.push(Declared {
            name,
            is_type,
            line,
            place,
        })?;
    }
    Ok(())
}

// Adds the names that a line declares. `before` and the result are what the word before the line, and its last word,
// declare the next name as.
fn push_declared<'a>(
    alloc: Global,
    names: &mut Vec<Declared<'a>>,
    text: &'a str,
    line: u32,
    before: Option<bool>,
) -> Result<Option<bool>, AllocError> {
    let mut before = before;
    let tokens = tokens_in(alloc, text.as_bytes())?;
    for token in &tokens {
        let word = bytes_of(text.as_bytes(), *token);
        push_name(names, before, word, line, token.start)?;
        before = declares(word);
    }
    Ok(before)
}

/// Returns the names after `type` and `attribute`, in the order of the text. The text may have faults.
pub(crate) fn declared_in<'a>(
    alloc: Global,
    text: &'a str,
) -> Result<Vec<Declared<'a>>, AllocError> {
    let mut names = Vec::new(alloc);
    let mut number: u32 = 1;
    let mut before = None;
    for line in text.lines() {
        before = push_declared(alloc, &mut names, line, number, before)?;
        number = number.saturating_add(1);
    }
    Ok(names)
}
