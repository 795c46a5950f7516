//! Jobs over readers and writers that fail.
use crate::jobs::{Job, Limits, UNLIMITED};
use std::alloc::{AllocError, Global};
use std::sync::Wait;
use std::thread::Threads;

// Lets each read fail after N bytes, for each N. Returns the first N after which the job reports another fault, or
// writes something.
fn untold_read<R: Threads + Wait + Sync, J: Job>(
    rt: &R,
    job: &J,
    alloc: Global,
    text: &[u8],
    audit: bool,
) -> anyhow::Result<Option<usize>> {
    'counts: for reads in 0..text.len() {
        let limits = Limits { reads, ..UNLIMITED };
        let said = job.said(rt, alloc, text, audit, limits)?;
        if said.as_slice() != b"read\n".as_slice() {
            return Ok(Some(reads));
        }
    }
    Ok(None)
}

// Returns whether these are the first bytes of the whole output, as many of them as were let through, and the fault of
// a write unless all were.
fn is_beginning(said: &[u8], whole: &[u8], writes: usize) -> bool {
    if writes > whole.len() {
        return said == whole;
    }
    said.strip_prefix(&whole[..writes]) == Some(b"write\n".as_slice())
}

// Lets each write fail after N bytes, for each N; then only the flush, and then nothing. Returns the first N after
// which the job reports something else, or what went out is not a prefix of the output.
fn untold_write<R: Threads + Wait + Sync, J: Job>(
    rt: &R,
    job: &J,
    alloc: Global,
    text: &[u8],
    audit: bool,
    whole: &[u8],
) -> anyhow::Result<Option<usize>> {
    'counts: for writes in 0..whole.len() + 2 {
        let limits = Limits {
            writes,
            ..UNLIMITED
        };
        let said = job.said(rt, alloc, text, audit, limits)?;
        if !is_beginning(said.as_slice(), whole, writes) {
            return Ok(Some(writes));
        }
    }
    Ok(None)
}

// Appends a line about the failures after each count of bytes: that each was reported, or the first count after which
// one was not.
fn push_line(
    out: &mut Vec<u8>,
    alloc: Global,
    what: &str,
    untold: Option<usize>,
) -> Result<(), AllocError> {
    let line = match untold {
        None => format!(in alloc; "each {what} that fails is told\n")?,
        Some(left) => format!(in alloc; "a {what} that fails after {left} bytes is not told\n")?,
    };
    out.extend_from_slice(line.as_bytes())?;
    Ok(())
}

/// Returns what a job on a text gives, with or without its records, and whether it reports each read and write that
/// fails.
///
/// # Errors
///
/// As the job's.
pub fn failing_said<R: Threads + Wait + Sync, J: Job>(
    rt: &R,
    job: &J,
    alloc: Global,
    text: &[u8],
    audit: bool,
) -> anyhow::Result<Vec<u8>> {
    let mut out = job.said(rt, alloc, text, audit, UNLIMITED)?;
    let read = untold_read(rt, job, alloc, text, audit)?;
    let write = untold_write(rt, job, alloc, text, audit, out.as_slice())?;
    push_line(&mut out, alloc, "read", read)?;
    push_line(&mut out, alloc, "write", write)?;
    Ok(out)
}
