//! The reason for the fault `stuck`.
use crate::columns::column_of;
use crate::reason::{Reason, ReasonNote};
use crate::texts::push_word;
use gt_findings::push_hint;
use gt_script_lines::{is_word, line_words};
use gt_text::{push_number, push_text, text_of};
use std::alloc::{AllocError, Global};

// A line by which a domain raises a flag.
#[derive(Clone, Copy)]
struct TellLine<'t> {
    number: usize,
    column: usize,
    domain: &'t [u8],
    flag: &'t [u8],
}

// Reads a line by which a domain raises a flag. Returns None for another line.
fn teller<'t>(
    alloc: Global,
    number: usize,
    line: &'t str,
) -> Result<Option<TellLine<'t>>, AllocError> {
    let words = line_words(alloc, line)?;
    match words.as_slice() {
        [tell, domain, flag] if is_word(tell, "tell") => Ok(Some(TellLine {
            number,
            column: column_of(line.as_bytes(), 2),
            domain,
            flag,
        })),
        _ => Ok(None),
    }
}

// Finds the lines by which domains raise flags.
fn tellers<'t>(alloc: Global, lines: &[&'t str]) -> Result<Vec<TellLine<'t>>, AllocError> {
    let mut found = Vec::new(alloc);
    for (i, line) in lines.iter().enumerate() {
        if let Some(teller) = teller(alloc, i.saturating_add(1), *line)? {
            found.push(teller)?;
        }
    }
    Ok(found)
}

// Appends a line that would raise the flag.
fn push_teller(out: &mut Vec<u8>, teller: &TellLine) -> Result<(), AllocError> {
    push_text(out, "; line ")?;
    push_number(out, teller.number)?;
    push_text(out, " of domain ")?;
    out.extend_from_slice(teller.domain)?;
    push_text(out, " raises it, but is never reached")
}

// Appends that no line raises a flag, and which flag may be meant.
fn push_untold(
    alloc: Global,
    out: &mut Vec<u8>,
    tellers: &[TellLine],
    flag: &[u8],
) -> Result<(), AllocError> {
    push_text(out, "; no line raises it")?;
    let mut names: Vec<&str> = Vec::new(alloc);
    for teller in tellers {
        if let Ok(name) = text_of(teller.flag) {
            names.push(name)?;
        }
    }
    match text_of(flag) {
        Ok(flag) => push_hint(alloc, out, flag, names.as_slice()),
        Err(_) => Ok(()),
    }
}

// Appends the lines that would raise the flag, and returns a note at the first of them.
fn push_tellers(
    alloc: Global,
    out: &mut Vec<u8>,
    lines: &[&str],
    flag: &[u8],
) -> Result<Option<ReasonNote>, AllocError> {
    let tellers = tellers(alloc, lines)?;
    let mut note = None;
    for teller in tellers.as_slice() {
        if teller.flag == flag {
            push_teller(out, teller)?;
            if note.is_none() {
                note = Some(told_here(alloc, teller)?);
            }
        }
    }
    if note.is_none() {
        push_untold(alloc, out, tellers.as_slice(), flag)?;
    }
    Ok(note)
}

// Makes the note at a line that would raise a flag.
fn told_here(alloc: Global, teller: &TellLine) -> Result<ReasonNote, AllocError> {
    let mut message = Vec::new(alloc);
    push_word(&mut message, teller.flag)?;
    push_text(&mut message, " is raised here")?;
    Ok(ReasonNote {
        line: teller.number,
        column: teller.column,
        message,
    })
}

// Appends which flag a domain waits for.
fn push_waiting(out: &mut Vec<u8>, domain: &[u8], flag: &[u8]) -> Result<(), AllocError> {
    push_text(out, "domain ")?;
    out.extend_from_slice(domain)?;
    push_text(out, " waits for the flag ")?;
    push_word(out, flag)
}

/// Returns the reason why the domain of a line `await` waits for ever: the flag, and the lines that would raise it.
pub fn stuck_reason(alloc: Global, lines: &[&str], line: &str) -> Result<Reason, AllocError> {
    let words = line_words(alloc, line)?;
    let domain = words.get(1).copied().unwrap_or(&[]);
    let flag = words.get(2).copied().unwrap_or(&[]);
    let mut message = Vec::new(alloc);
    push_waiting(&mut message, domain, flag)?;
    let note = push_tellers(alloc, &mut message, lines, flag)?;
    Ok(Reason {
        column: column_of(line.as_bytes(), 2),
        message,
        note,
    })
}
