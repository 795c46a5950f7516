//! Runs over memory.
use gt_audit::SharedLog;
use gt_run::{FlagGate, Gate, RunFault, run};
use gt_types::Memory;
use std::alloc::{AllocError, Global};
use std::sync::Wait;
use std::thread::Threads;
use test_cases::{Job, Limits};
use test_failing::{FailingReader, FailingWriter};

// Appends the line of a fault, if there is one.
fn with_fault(
    alloc: Global,
    said: Vec<u8>,
    ended: Result<(), RunFault>,
) -> Result<Vec<u8>, AllocError> {
    let mut said = said;
    if let Err(fault) = ended {
        let line = format!(in alloc; "{fault}\n")?;
        said.extend_from_slice(line.as_bytes())?;
    }
    Ok(said)
}

/// Runs a script, with its records if there is a log. Each read fails after a number of bytes of it, and each write
/// after a number of bytes of the output. Returns what was written, and a line with the fault if there was one.
pub fn run_logged<R: Threads + Wait + Sync, G: Gate + Sync>(
    rt: &R,
    alloc: Global,
    script: &[u8],
    limits: Limits,
    log: Option<&SharedLog>,
    gate: &G,
) -> Result<Vec<u8>, AllocError> {
    let mut reader = FailingReader::new(script, limits.reads);
    let mut writer = FailingWriter::new(Vec::new(alloc), limits.writes);
    let ended = run(rt, alloc, &mut reader, &mut writer, log, gate);
    with_fault(alloc, writer.taken, ended)
}

/// Runs a script in the same way, with its records if it is audited.
pub fn run_said<R: Threads + Wait + Sync, G: Gate + Sync>(
    rt: &R,
    alloc: Global,
    script: &[u8],
    audit: bool,
    limits: Limits,
    gate: &G,
) -> Result<Vec<u8>, AllocError> {
    let log = SharedLog::new(alloc)?;
    let log = if audit { Some(&log) } else { None };
    run_logged(rt, alloc, script, limits, log, gate)
}

/// Runs a script in which a domain waits for a flag until it is raised.
pub fn flags_said<R: Threads + Wait + Sync>(
    rt: &R,
    alloc: Global,
    script: &[u8],
    audit: bool,
    limits: Limits,
) -> Result<Vec<u8>, Memory> {
    let gate = FlagGate::new(rt, alloc)?;
    Ok(run_said(rt, alloc, script, audit, limits, &gate)?)
}

/// Such a run as a job.
#[derive(Clone, Copy)]
pub struct RunJob;

impl Job for RunJob {
    fn said<R: Threads + Wait + Sync>(
        &self,
        rt: &R,
        alloc: Global,
        text: &[u8],
        audit: bool,
        limits: Limits,
    ) -> anyhow::Result<Vec<u8>> {
        Ok(flags_said(rt, alloc, text, audit, limits)?)
    }
}
