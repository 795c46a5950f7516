//! The reasons for which a dump was not printed, and what a dump looks like.
use crate::collecting::read_words;
use crate::copying::KeptInput;
use gt_entries::{DumpFault, DumpLook, DumpOptions, look_of};
use gt_fault_reasons::push_read_reason;
use gt_findings::said_of;
use std::alloc::{AllocError, Global};

// A place in a text: its line and column, counted from 1, and the word that is there.
#[derive(Clone, Copy)]
struct WordPlace<'t> {
    line: usize,
    column: usize,
    word: &'t [u8],
}

// Returns the bytes up to the next blank or line end.
fn word_in(text: &[u8]) -> &[u8] {
    let end = text.iter().position(|byte| byte.is_ascii_whitespace());
    &text[..end.unwrap_or(text.len())]
}

// Returns the first word of a text that has another character than hexadecimal digits.
fn first_misfit<'t>(text: &'t [u8]) -> Option<WordPlace<'t>> {
    let mut place = WordPlace {
        line: 1,
        column: 1,
        word: &[],
    };
    let mut is_in_word = false;
    for (i, byte) in text.iter().enumerate() {
        if byte.is_ascii_whitespace() {
            is_in_word = false;
        } else if !is_in_word {
            is_in_word = true;
            place.word = word_in(&text[i..]);
            if !place.word.iter().all(|digit| digit.is_ascii_hexdigit()) {
                return Some(place);
            }
        }
        if *byte == b'\n' {
            place.line = place.line.saturating_add(1);
            place.column = 0;
        }
        place.column = place.column.saturating_add(1);
    }
    None
}

// Appends where a text is not hexadecimal.
fn push_misfit(
    alloc: Global,
    out: &mut Vec<u8>,
    file: &str,
    text: &[u8],
) -> Result<(), AllocError> {
    let Some(place) = first_misfit(text) else {
        return push_read_reason(out, file, b"the number of hexadecimal digits is odd");
    };
    let word = String::from_utf8_lossy(alloc, place.word)?;
    let rest = " is not made of hexadecimal digits; xxd -p writes a dump in them";
    let message = said_of(alloc, word.as_str(), rest)?;
    let name = format!(in alloc; "{file}:{}:{}", place.line, place.column)?;
    push_read_reason(out, name.as_str(), message.as_slice())
}

/// Returns the reason for which a dump was not printed.
pub(crate) fn dump_reason(
    alloc: Global,
    file: &str,
    input: &KeptInput,
    fault: DumpFault,
) -> Result<Vec<u8>, AllocError> {
    let mut said = Vec::new(alloc);
    match fault {
        DumpFault::Limit => {
            push_read_reason(
                &mut said,
                file,
                b"more than 16 frames, which is 65536 bytes",
            )?;
        }
        DumpFault::Syntax => match input.bytes() {
            Some(bytes) => push_misfit(alloc, &mut said, file, bytes)?,
            None => push_read_reason(&mut said, file, b"not hexadecimal text")?,
        },
        DumpFault::Read => push_read_reason(&mut said, file, read_words(input.fault()))?,
        DumpFault::Memory | DumpFault::Write => {}
    }
    Ok(said)
}

// Returns whether a dump has no byte.
fn is_empty_dump(hex: bool, bytes: &[u8]) -> bool {
    bytes.is_empty() || hex && bytes.iter().all(|byte| byte.is_ascii_whitespace())
}

// Returns what is said of a dump, unless it looks like a table.
fn look_words(
    alloc: Global,
    asked: DumpOptions,
    bytes: &[u8],
) -> Result<Option<&'static str>, AllocError> {
    if is_empty_dump(asked.hex, bytes) {
        return Ok(Some("the dump is empty: it has no entry"));
    }
    Ok(match look_of(alloc, asked, bytes)? {
        DumpLook::Table => None,
        DumpLook::Hexadecimal => Some("this looks like hexadecimal text; try --hex"),
        DumpLook::NoTable => {
            Some("none of these entries can be read; is this a table of that version?")
        }
    })
}

/// Returns what a dump that was printed looks like, unless it looks like a table.
pub(crate) fn look_said(
    alloc: Global,
    file: &str,
    input: &KeptInput,
    asked: DumpOptions,
) -> Result<Vec<u8>, AllocError> {
    let mut said = Vec::new(alloc);
    let Some(bytes) = input.bytes() else {
        return Ok(said);
    };
    if let Some(words) = look_words(alloc, asked, bytes)? {
        said.extend_from_slice(b"gthost: ")?;
        push_read_reason(&mut said, file, words.as_bytes())?;
    }
    Ok(said)
}
