//! Jobs on texts.
ghost use Rattle.std.specs.Thread.{IsSync};

use std::alloc::{AllocError, Global};
use std::sync::Wait;
use std::thread::Threads;

/// The numbers of bytes after which each read of a job fails, and each write.
#[derive(Clone, Copy)]
pub struct Limits {
    pub reads: usize,
    pub writes: usize,
}

/// No read and no write fails.
pub const UNLIMITED: Limits = Limits {
    reads: usize::MAX,
    writes: usize::MAX,
};

/// What a program does with a text.
pub trait Job {
    /// Does it, with records if it is audited. Returns what was written, and a line with the fault if there was one.
    fn said<R: Threads + Wait + Sync>(
        &self,
        rt: &R,
        alloc: Global,
        text: &[u8],
        audit: bool,
        limits: Limits,
    ) -> anyhow::Result<Vec<u8>>
        requires { IsSync R.row };
}

// Returns whether the audited output is the output, followed by lines of records.
fn adds_records(said: &[u8], audited: &[u8]) -> bool {
    let Some(rest) = audited.strip_prefix(said) else {
        return false;
    };
    for line in str::from_utf8(rest).unwrap_or("?").lines() {
        if !line.starts_with("audit ") {
            return false;
        }
    }
    true
}

// Returns what a job on a text gives, with or without its records. If its audit changes other lines, one more line
// reports it.
fn checked_said<R: Threads + Wait + Sync, J: Job>(
    rt: &R,
    job: &J,
    alloc: Global,
    text: &[u8],
    audit: bool,
) -> anyhow::Result<Vec<u8>> {
    let plain = job.said(rt, alloc, text, false, UNLIMITED)?;
    let audited = job.said(rt, alloc, text, true, UNLIMITED)?;
    let is_same = adds_records(plain.as_slice(), audited.as_slice());
    let mut said = if audit { audited } else { plain };
    if !is_same {
        said.extend_from_slice(b"with its audit it prints other lines\n")?;
    }
    Ok(said)
}

// Appends what was said with a line in the text, and the line.
fn push_tried(out: &mut Vec<u8>, said: &[u8], line: &str) -> Result<(), AllocError> {
    out.extend_from_slice(said.trim_ascii_end())?;
    out.extend_from_slice(b" | ")?;
    out.extend_from_slice(line.as_bytes())?;
    out.push(b'\n')?;
    Ok(())
}

// Does the job on a text with each of these lines instead of the `@`.
fn lines_said<R: Threads + Wait + Sync, J: Job>(
    rt: &R,
    job: &J,
    alloc: Global,
    text: &str,
    lines: &str,
    audit: bool,
) -> anyhow::Result<Vec<u8>> {
    let mut out = Vec::new(alloc);
    'lines: for line in lines.lines() {
        let text = text.replace(alloc, "@", line)?;
        let said = checked_said(rt, job, alloc, text.as_bytes(), audit)?;
        push_tried(&mut out, said.as_slice(), line)?;
    }
    Ok(out)
}

// Returns the text above a line `====` and the lines below it, if it has such a line.
fn parted(text: &[u8]) -> Option<(&str, &str)> {
    let text = str::from_utf8(text).ok()?;
    text.split_once("====\n")
}

/// Returns what a job on a text gives, with or without its records. If its audit changes other lines, one more line
/// reports it. If the text has a line `====`, the lines below that are tried instead of the `@` above it, one after the
/// other.
///
/// # Errors
///
/// As the job's.
pub fn tried_said<R: Threads + Wait + Sync, J: Job>(
    rt: &R,
    job: &J,
    alloc: Global,
    text: &[u8],
    audit: bool,
) -> anyhow::Result<Vec<u8>> {
    match parted(text) {
        Some((text, lines)) => lines_said(rt, job, alloc, text, lines, audit),
        None => checked_said(rt, job, alloc, text, audit),
    }
}

// Appends a line with the count of bytes, and what was said.
fn push_beginning(
    out: &mut Vec<u8>,
    alloc: Global,
    count: usize,
    said: &[u8],
) -> Result<(), AllocError> {
    let line = format!(in alloc; "from {count} bytes on\n")?;
    out.extend_from_slice(line.as_bytes())?;
    out.extend_from_slice(said)?;
    Ok(())
}

/// Returns what a job on each prefix of a text gives with its records, from the empty one to the whole, each time that
/// it changes, after the count of bytes. If a prefix prints other lines with its records than without, one more line
/// reports it.
///
/// # Errors
///
/// As the job's.
pub fn beginnings_said<R: Threads + Wait + Sync, J: Job>(
    rt: &R,
    job: &J,
    alloc: Global,
    text: &[u8],
) -> anyhow::Result<Vec<u8>> {
    let mut out = Vec::new(alloc);
    let mut before = Vec::from_slice(alloc, b"none")?;
    'counts: for count in 0..text.len() + 1 {
        let said = checked_said(rt, job, alloc, &text[..count], true)?;
        if said.as_slice() != before.as_slice() {
            push_beginning(&mut out, alloc, count, said.as_slice())?;
            before = said;
        }
    }
    Ok(out)
}
