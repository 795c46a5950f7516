//! Starts of cores and monitors, of which each allocation fails, and starts of each number of domains.
//!
//! A flood takes all memory, and a start gets a number of bytes of it: none at first, then more and more, until it
//! succeeds. With less each start must return the fault of memory. The memory grows by 16 bytes as long as it is small,
//! and again from the last of the larger steps that failed; between them are the long lists of words. Then each number
//! of domains from 1 to 64 starts with ample memory: as a core, as a monitor and as the words of a run.
use crate::starting::{Came, Kind, configured, start};
use crate::stops::Stop;
use crate::sweeping::Starts;
use std::alloc::{AllocError, Global};
use test_monitor::numbered;

// A thing to start, and its number of domains.
#[derive(Clone, Copy)]
struct Row {
    name: &'static str,
    kind: Kind,
    domains: u16,
}

static ROWS: [Row; 4] = [
    Row {
        name: "a core of one domain",
        kind: Kind::Core,
        domains: 1,
    },
    Row {
        name: "a core of three domains",
        kind: Kind::Core,
        domains: 3,
    },
    Row {
        name: "a monitor of one domain",
        kind: Kind::Monitor,
        domains: 1,
    },
    Row {
        name: "a monitor of three domains",
        kind: Kind::Monitor,
        domains: 3,
    },
];

static KINDS: [(&str, Kind); 3] = [
    ("a core", Kind::Core),
    ("a monitor", Kind::Monitor),
    ("the words", Kind::Words),
];

// Returns whether each start of a row with too little memory reports that.
fn is_told(alloc: Global, row: Row) -> Result<bool, Stop> {
    let domains = numbered(alloc, row.domains, 1)?;
    let mut starts = Starts::new(alloc, row.kind, domains.as_slice())?;
    let is_told = starts.is_told();
    starts.open();
    Ok(is_told?)
}

// Appends the line of a row.
fn push_told(said: &mut String, name: &str, is_told: bool) -> Result<(), AllocError> {
    let told = if is_told {
        "each request for memory that is refused is told"
    } else {
        "it ends otherwise"
    };
    writeln!(said, "{name}: {told}")
}

// Returns whether it starts with this number of domains and ample memory.
fn starts(alloc: Global, kind: Kind, count: u16) -> Result<bool, Stop> {
    let domains = numbered(alloc, count, 1)?;
    let config = configured(alloc, domains.as_slice())?;
    Ok(matches!(start(alloc, None, kind, config), Came::Started))
}

// Returns the first number of domains, from 1 to 64, with which it does not start.
fn first_unstarted(alloc: Global, kind: Kind) -> Result<Option<u16>, Stop> {
    for count in 1..65 {
        if !starts(alloc, kind, count)? {
            return Ok(Some(count));
        }
    }
    Ok(None)
}

// Appends a line about the numbers of domains with which it starts.
fn push_counts(said: &mut String, name: &str, unstarted: Option<u16>) -> Result<(), AllocError> {
    match unstarted {
        None => writeln!(
            said,
            "{name} of 1 to 64 domains: each number of them starts"
        ),
        Some(count) => writeln!(said, "{name} of {count} domains: it does not start"),
    }
}

/// Returns a line for each kind of start.
pub fn starts_said(alloc: Global) -> Result<String, Stop> {
    let mut said = String::new(alloc);
    for row in ROWS.iter() {
        push_told(&mut said, row.name, is_told(alloc, *row)?)?;
    }
    for (name, kind) in KINDS.iter() {
        push_counts(&mut said, name, first_unstarted(alloc, *kind)?)?;
    }
    Ok(said)
}
