//! Long scripts, made by repetition.
use crate::gates::Turns;
use crate::running::run_said;
use sha2::{Digest, Sha256};
use std::alloc::{AllocError, Global};
use std::ops::Range;
use std::sync::Wait;
use std::thread::Threads;
use test_cases::UNLIMITED;

/// The domains of a script, numbered from the first on, and the rounds of each. The run has records if it is audited.
#[derive(Clone, Copy)]
pub struct Repetition {
    pub first: usize,
    pub domains: usize,
    pub rounds: usize,
    pub audit: bool,
}

/// Appends the part once for each number, with the number in place of the mark.
pub fn push_each(
    out: &mut String,
    alloc: Global,
    part: &str,
    mark: &str,
    numbers: Range<usize>,
) -> Result<(), AllocError> {
    for number in numbers {
        let number = format!(in alloc; "{number}")?;
        let text = part.replace(alloc, mark, number.as_str())?;
        out.push_str(text.as_str())?;
    }
    Ok(())
}

// Takes the next part of a text, in which lines `====` separate the parts.
fn next_part<'a>(rest: &mut &'a str) -> &'a str {
    match rest.split_once("====\n") {
        Some((part, others)) => {
            *rest = others;
            part
        }
        None => rest,
    }
}

// Returns the script of these parts, which lines `====` separate: the head, the line of a domain, the first lines of
// its list, and the lines of a round. A `@` is the number of the domain, a `#` that of the round, from 0 on.
fn script_of(alloc: Global, parts: &str, repetition: Repetition) -> Result<String, AllocError> {
    let Repetition {
        first,
        domains,
        rounds,
        ..
    } = repetition;
    let mut rest = parts;
    let mut script = String::from_str(alloc, next_part(&mut rest))?;
    let domain = next_part(&mut rest);
    let mut list = String::from_str(alloc, next_part(&mut rest))?;
    push_each(&mut list, alloc, rest, "#", 0..rounds)?;
    let end = first.saturating_add(domains);
    push_each(&mut script, alloc, domain, "@", first..end)?;
    push_each(&mut script, alloc, list.as_str(), "@", first..end)?;
    Ok(script)
}

// Returns the number of lines of an output, and its digest.
fn summary(alloc: Global, said: &[u8]) -> Result<Vec<u8>, AllocError> {
    let mut lines = 0usize;
    for byte in said.iter() {
        if *byte == b'\n' {
            lines = lines.saturating_add(1);
        }
    }
    let digest = hex::encode(alloc, Sha256::digest(said))?;
    Ok(format!(in alloc; "{lines} lines, {digest}\n")?.into_bytes())
}

/// Returns the number of lines that the script of these parts prints, and their digest. Its domains meet at a gate if
/// they come to one.
pub fn made_said<R: Threads + Wait + Sync>(
    rt: &R,
    alloc: Global,
    parts: &[u8],
    repetition: Repetition,
) -> anyhow::Result<Vec<u8>> {
    let script = script_of(alloc, str::from_utf8(parts)?, repetition)?;
    let gate = Turns::meeting(repetition.domains as u64);
    let said = run_said(
        rt,
        alloc,
        script.as_bytes(),
        repetition.audit,
        UNLIMITED,
        &gate,
    )?;
    Ok(summary(alloc, said.as_slice())?)
}
