//! Plays and listings.
use anyhow::bail;
use gt_host::play;
use gt_policy_list::{ListingFault, policy};
use gt_script_runs::PlayFault;
use std::alloc::Global;
use std::io::{Read, Write};
use std::sync::Wait;
use std::thread::Threads;
use test_cases::{Job, Limits};
use test_failing::{FailingReader, FailingWriter};

/// More bytes than any worked text prints.
pub const ROOM: usize = 65_536;

/// What is done with a text: a script is played, a policy is listed.
#[derive(Clone, Copy)]
pub enum Task {
    Play,
    List,
}

/// The fault that ended a task.
#[derive(Drop)]
pub enum Fault {
    Memory,
    Play(PlayFault),
    List(ListingFault),
}

/// Does the task.
pub fn done<I: Read, W: Write>(
    alloc: Global,
    task: Task,
    audit: bool,
    reader: &mut I,
    writer: &mut W,
) -> Result<(), Fault> {
    match task {
        Task::Play => match play(alloc, reader, writer, audit) {
            Ok(()) => Ok(()),
            Err(PlayFault::Memory) => Err(Fault::Memory),
            Err(fault) => Err(Fault::Play(fault)),
        },
        Task::List => match policy(alloc, reader, writer) {
            Ok(()) => Ok(()),
            Err(ListingFault::Memory) => Err(Fault::Memory),
            Err(fault) => Err(Fault::List(fault)),
        },
    }
}

// Returns the line of a fault.
fn line_of(alloc: Global, fault: Fault) -> anyhow::Result<String> {
    Ok(match fault {
        Fault::Memory => bail!("memory"),
        Fault::Play(fault) => format!(in alloc; "{fault}\n")?,
        Fault::List(fault) => format!(in alloc; "{fault}\n")?,
    })
}

impl Job for Task {
    fn said<R: Threads + Wait + Sync>(
        &self,
        _rt: &R,
        alloc: Global,
        text: &[u8],
        audit: bool,
        limits: Limits,
    ) -> anyhow::Result<Vec<u8>> {
        let mut reader = FailingReader::new(text, limits.reads);
        let mut writer = FailingWriter::new(Vec::with_capacity(alloc, ROOM)?, limits.writes);
        let ended = done(alloc, *self, audit, &mut reader, &mut writer);
        let mut said = writer.taken;
        if let Err(fault) = ended {
            said.extend_from_slice(line_of(alloc, fault)?.as_bytes())?;
        }
        Ok(said)
    }
}
