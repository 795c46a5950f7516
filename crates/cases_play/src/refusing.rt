//! Scripts and policies of which each allocation fails in turn.
use crate::task::{Fault, ROOM, Task, done};
use std::alloc::{AllocError, Global};
use std::sync::Wait;
use std::thread::Threads;
use test_cases::{Job, UNLIMITED};
use test_failing::Flood;

// The memory grows by this number of bytes, and this number of times at most.
const STEP: usize = 16;

const TRIES: usize = 65_536;

const GAP: usize = STEP * TRIES;

// A task on a text, and its whole output.
#[derive(Clone, Copy)]
struct Trial<'a> {
    task: Task,
    audit: bool,
    text: &'a [u8],
    whole: &'a [u8],
}

// Does the task in the space of `written`. Returns whether it ended well: completely, or with a prefix of the output if
// an allocation failed (None).
fn is_right(alloc: Global, trial: Trial<'_>, written: &mut Vec<u8>) -> Option<bool> {
    written.clear();
    let mut text = trial.text;
    match done(alloc, trial.task, trial.audit, &mut text, written) {
        Ok(()) => Some(written.as_slice() == trial.whole),
        Err(Fault::Memory) if trial.whole.starts_with(written.as_slice()) => None,
        Err(_) => Some(false),
    }
}

// Does the task with no memory at first, and then with more and more, until it succeeds. Returns the amount with which
// it succeeded or had a wrong result (lines that are not a prefix of the whole, or another fault), and whether the
// result was right.
fn refused(
    alloc: Global,
    flood: &mut Flood,
    trial: Trial<'_>,
    written: &mut Vec<u8>,
) -> (usize, bool) {
    let mut bytes = 0usize;
    for _ in 0..TRIES {
        if !flood.let_through(bytes) {
            break;
        }
        if let Some(is_right) = is_right(alloc, trial, written) {
            return (bytes, is_right);
        }
        bytes = bytes.saturating_add(STEP);
    }
    (bytes, false)
}

// Returns the same with all memory taken before.
fn refused_by_a_flood(alloc: Global, trial: Trial<'_>) -> Result<(usize, bool), AllocError> {
    let mut written = Vec::with_capacity(alloc, ROOM)?;
    let mut flood = Flood::new(alloc)?;
    flood.close(GAP)?;
    Ok(refused(alloc, &mut flood, trial, &mut written))
}

/// Returns what a text gives, with or without its records, and whether each failed allocation was reported.
pub fn refused_said<R: Threads + Wait + Sync>(
    rt: &R,
    task: Task,
    alloc: Global,
    text: &[u8],
    audit: bool,
) -> anyhow::Result<Vec<u8>> {
    let mut out = task.said(rt, alloc, text, audit, UNLIMITED)?;
    let whole = out.as_slice();
    let trial = Trial {
        task,
        audit,
        text,
        whole,
    };
    let line = match refused_by_a_flood(alloc, trial)? {
        (0, _) | (_, false) => "some request for memory that is refused is not told\n",
        _ => "each request for memory that is refused is told\n",
    };
    out.extend_from_slice(line.as_bytes())?;
    Ok(out)
}
