//! Runs of a table: calls of domains with their expected answers, and then threads.
use crate::working::{Behind, Part, work_at_once};
use gt_types::{Memory, Rule, StartFault};
use std::alloc::Global;
use std::process::Abort;
use std::sync::Wait;
use std::thread::Threads;
use test_monitor::{Calls, READ_ONLY, TestCall, TestReply, all_running, rights, start, text};

/// A line: the index of the domain, counted from 0, its call, and the expected answer.
pub type Line<'a> = (usize, TestCall<'a>, &'a str);

/// The indices of the domains 1, 2 and 3.
pub const ONE: usize = 0;

pub const TWO: usize = 1;

pub const THREE: usize = 2;

/// A stage of a run.
#[derive(Clone, Copy)]
pub enum Stage<'a> {
    /// Lines, each with its answer.
    Asked(&'a [Line<'a>]),
    /// The same, if a line whose allocation fails is asked again.
    Insisted(&'a [Line<'a>]),
    /// This domain fills a buffer that had other bytes, starting at this offset, through its last mapping or from this
    /// frame of its own, and must get these bytes.
    Fills(usize, Option<u64>, u16, [u8; 5]),
    /// The last domain maps the first entry of domain 1 for reading this number of times.
    MapsOften(u32),
    /// The last domain reserves space for this number of records, and keeps no more.
    KeepsAtMost(usize),
    /// The last domain leaves, with these records and this number of lost ones.
    Leaves(&'a str),
    /// The last domain leaves, with this number of records.
    LeavesMany(usize),
}

/// A run: its name, the number of domains, the version of their tables, the first generation of their entries, and the
/// stages. Then the last domains do their parts for this number of rounds, each in its own thread, and must leave these
/// entries idle.
#[derive(Clone, Copy)]
pub struct Row<'a> {
    pub name: &'a str,
    pub count: u16,
    pub version: u32,
    pub first_gen: u32,
    pub stages: &'a [Stage<'a>],
    pub parts: &'a [(Part, u32)],
    pub behind: &'a [Behind],
}

// Returns the answer of the domain with this index.
fn said<R: Wait + Abort, D: Calls>(
    rt: &R,
    domains: &mut [D],
    by: usize,
    asks: TestCall<'_>,
) -> TestReply {
    match domains.get_mut(by) {
        Some(domain) => domain.ask(rt, asks),
        None => panic!(rt; "no such domain"),
    }
}

fn is_of_memory(said: &TestReply) -> bool {
    match said {
        TestReply::Denied(denial) => denial.rule == Rule::N26,
        _ => false,
    }
}

// Compares each line's answer.
fn play<R: Wait + Abort, D: Calls>(
    rt: &R,
    alloc: Global,
    domains: &mut [D],
    lines: &[Line<'_>],
    insists: bool,
) -> Result<(), Memory> {
    'lines: for (at, (by, asks, wanted)) in lines.iter().enumerate() {
        let mut answer = said(rt, domains, *by, *asks);
        if insists && is_of_memory(&answer) {
            answer = said(rt, domains, *by, *asks);
        }
        let text = text(alloc, &answer)?;
        assert_eq!(rt; text.as_str(), *wanted, "line {at}");
    }
    Ok(())
}

// Returns whether the domain reads these bytes over a buffer, through its last mapping or from one of its own frames.
fn fills<R: Wait, D: Calls>(
    rt: &R,
    domain: Option<&mut D>,
    frame: Option<u64>,
    off: u16,
    wanted: [u8; 5],
) -> bool {
    let Some(domain) = domain else {
        return false;
    };
    let mut buffer = [7; 5];
    let done = match frame {
        Some(frame) => domain.peek_into(rt, frame, off, &mut buffer),
        None => domain.load_into(rt, off, &mut buffer),
    };
    done.is_ok() && buffer == wanted
}

// Maps the first entry of domain 1 for reading this number of times. Returns how often that was Ok.
fn map_often<D: Calls>(domain: Option<&mut D>, times: u32) -> u32 {
    let Some(domain) = domain else {
        return 0;
    };
    let mut done = 0u32;
    'maps: for _ in 0..times {
        if domain.map(1, 0, READ_ONLY).is_ok() {
            done = done.saturating_add(1);
        }
    }
    done
}

// Lets the domain reserve space for this number of records, and keep no more.
fn keep_at_most<D: Calls>(domain: Option<&mut D>, records: usize) -> Result<(), Memory> {
    let Some(domain) = domain else {
        return Ok(());
    };
    domain.reserve_records(records)?;
    domain.keep_at_most(records);
    Ok(())
}

// Returns what a domain leaves, as a text: its records and how many were lost.
fn left<D: Calls + Drop>(alloc: Global, domain: Option<D>) -> Result<String, Memory> {
    let Some(domain) = domain else {
        return Ok(String::new(alloc));
    };
    let left = domain.finish();
    Ok(format!(in alloc; "{:?} {}", left.records()?.as_slice(), left.lost())?)
}

// Counts the records that a domain leaves.
fn count_left<D: Calls + Drop>(domain: Option<D>) -> Result<usize, Memory> {
    match domain {
        Some(domain) => Ok(domain.finish().records()?.len()),
        None => Ok(0),
    }
}

// Plays a stage, and compares the results.
fn make<R: Wait + Abort, D: Calls + Drop>(
    rt: &R,
    alloc: Global,
    domains: &mut Vec<D>,
    stage: Stage<'_>,
) -> Result<(), Memory> {
    match stage {
        Stage::Asked(lines) => play(rt, alloc, domains.as_mut_slice(), lines, false)?,
        Stage::Insisted(lines) => play(rt, alloc, domains.as_mut_slice(), lines, true)?,
        Stage::Fills(by, frame, off, wanted) => {
            let filled = fills(rt, domains.get_mut(by), frame, off, wanted);
            assert!(rt; filled, "domain {by}");
        }
        Stage::MapsOften(times) => {
            let done = map_often(domains.last_mut(), times);
            assert_eq!(rt; done, times);
        }
        Stage::KeepsAtMost(records) => keep_at_most(domains.last_mut(), records)?,
        Stage::Leaves(records) => {
            let text = left(alloc, domains.pop())?;
            assert_eq!(rt; text.as_str(), records);
        }
        Stage::LeavesMany(records) => {
            let count = count_left(domains.pop())?;
            assert_eq!(rt; count, records);
        }
    }
    Ok(())
}

// Plays the stages of a row, and lets the domains that are left do their parts. Returns the number of domains at its
// start.
fn play_stages<R: Threads + Wait + Abort + Sync, D: Calls + Send + Drop>(
    rt: &R,
    alloc: Global,
    mut domains: Vec<D>,
    row: &Row<'_>,
) -> Result<usize, StartFault> {
    let count = domains.len();
    'stages: for stage in row.stages.iter() {
        make(rt, alloc, &mut domains, *stage)?;
    }
    let fair = work_at_once(rt, alloc, domains, row.parts, row.behind)?;
    assert!(rt; fair, "{}", row.name);
    Ok(count)
}

/// Plays a row. Returns the number of domains at its start.
pub fn play_row<R: Threads + Wait + Abort + Sync>(
    rt: &R,
    alloc: Global,
    row: &Row<'_>,
) -> Result<usize, StartFault> {
    let rights = rights(alloc)?;
    let (monitor, domains) = start(alloc, rights, row.count, row.version, row.first_gen)?;
    let domains = all_running(alloc, &monitor, domains)?;
    play_stages(rt, alloc, domains, row)
}
