//! Gates that end the wait after a number of turns.
ghost use Rattle.std.specs.Prelude.{true};

use crate::running::run_logged;
use gt_audit::SharedLog;
use gt_run::Gate;
use gt_types::DomId;
use std::alloc::{AllocError, Global};
use std::hint::spin_loop;
use std::sync::Wait;
use std::sync::atomic::{AtomicU64, Ordering};
use std::thread::Threads;
use test_cases::UNLIMITED;

// The turns of a gate that lets no domain through.
const TURNS: u64 = 100_000_000;

// The turns of a gate at which domains meet. The last thread may start late on a busy machine.
const MEETING_TURNS: u64 = 100 * TURNS;

// A check found the records where the flag was raised, or did not, or found them where a flag was awaited.
const RAISED: u64 = 1;

const MISSED: u64 = 2;

const AWAITED: u64 = 4;

// Returns the bit of a flag, or none of one past 63.
fn bit(flag: usize) -> u64 {
    if flag < 64 { 1 << flag } else { 0 }
}

// The domains that a gate lets through.
#[derive(Clone, Copy)]
enum Way {
    /// Lets no domain through, and returns false at once.
    Closed,
    /// Lets no domain through, and returns false after all turns.
    Deaf,
    /// Lets all callers through, whatever flag they wait for, once this number of them wait.
    Meeting(u64),
    /// Lets each caller through whose flag is raised.
    Flags,
}

// A check that a log has all records of a domain below this number, and no others. It is made each time that a flag is
// awaited, and each time that this one is raised.
#[derive(Clone, Copy)]
struct Look<'l> {
    log: &'l SharedLog,
    dom: DomId,
    wanted: u64,
    flag: usize,
}

impl<'l> Look<'l> {
    fn has_all(&self) -> bool {
        for number in 0..self.wanted {
            if self.log.find(self.dom, number).is_none() {
                return false;
            }
        }
        self.log.find(self.dom, self.wanted).is_none()
    }
}

/// A gate that returns false after a number of turns. It may check a log when a flag is raised and when one is awaited.
#[derive(Drop)]
pub struct Turns<'l> {
    way: Way,
    look: Option<Look<'l>>,
    // The flags raised below 64, a bit each.
    told: AtomicU64,
    callers: AtomicU64,
    // What the checks found, a bit each.
    found: AtomicU64,
}

impl<'l> Turns<'l> {
    fn new(way: Way, look: Option<Look<'l>>) -> Turns<'l> {
        Turns {
            way,
            look,
            told: AtomicU64::new(0),
            callers: AtomicU64::new(0),
            found: AtomicU64::new(0),
        }
    }

    /// Makes a gate that lets no domain through.
    pub fn closed() -> Turns<'l> {
        Turns::new(Way::Closed, None)
    }

    /// Makes a gate that lets no domain through after all turns.
    pub fn deaf() -> Turns<'l> {
        Turns::new(Way::Deaf, None)
    }

    /// Makes a gate at which this number of callers meet, whatever they wait for.
    pub fn meeting(callers: u64) -> Turns<'l> {
        Turns::new(Way::Meeting(callers), None)
    }

    /// Makes a gate that lets a domain through once its flag is raised. It checks whether all records of this domain
    /// below this number are there, and no others.
    pub fn looking(log: &'l SharedLog, dom: DomId, wanted: u64, flag: usize) -> Turns<'l> {
        let look = Look {
            log,
            dom,
            wanted,
            flag,
        };
        Turns::new(Way::Flags, Some(look))
    }

    /// Returns whether the checks where the flag was raised all found the records.
    pub fn found_where_raised(&self) -> bool {
        self.found.load(Ordering::SeqCst) & (RAISED | MISSED) == RAISED
    }

    /// Returns whether a check where a flag was awaited found them.
    pub fn found_where_awaited(&self) -> bool {
        self.found.load(Ordering::SeqCst) & AWAITED != 0
    }

    // Notes the result of the check when a flag is raised.
    fn note_told(&self, flag: usize) {
        if let Some(look) = self.look {
            if look.flag == flag {
                let found = if look.has_all() { RAISED } else { MISSED };
                self.found.fetch_or(found, Ordering::SeqCst);
            }
        }
    }

    // Notes if the check succeeds when a flag is awaited.
    fn note_awaited(&self) {
        if let Some(look) = self.look {
            if look.has_all() {
                self.found.fetch_or(AWAITED, Ordering::SeqCst);
            }
        }
    }

    // Returns whether it lets the domain through now.
    fn lets_on(&self, flag: usize) -> bool {
        match self.way {
            Way::Closed | Way::Deaf => false,
            Way::Meeting(callers) => self.callers.load(Ordering::SeqCst) >= callers,
            Way::Flags => self.told.load(Ordering::SeqCst) & bit(flag) != 0,
        }
    }
}

impl<'l> Gate for Turns<'l> {
    ghost refuses = { λ _ _. true };

    fn tell(&self, flag: usize) {
        self.note_told(flag);
        self.told.fetch_or(bit(flag), Ordering::SeqCst);
    }

    fn pass(&self, flag: usize) -> bool {
        self.note_awaited();
        self.callers.fetch_add(1, Ordering::SeqCst);
        if matches!(self.way, Way::Closed) {
            return false;
        }
        let turns = match self.way {
            Way::Closed | Way::Deaf => TURNS,
            Way::Meeting(_) | Way::Flags => MEETING_TURNS,
        };
        for _ in 0..turns {
            if self.lets_on(flag) {
                return true;
            }
            spin_loop();
        }
        false
    }
}

/// Returns what a script prints at this gate.
pub fn gate_said<R: Threads + Wait + Sync>(
    rt: &R,
    alloc: Global,
    script: &[u8],
    gate: &Turns<'_>,
) -> anyhow::Result<Vec<u8>> {
    Ok(run_logged(rt, alloc, script, UNLIMITED, None, gate)?)
}

// Returns the line about the checks of a gate, where the flag was raised or where one was awaited.
fn records_line(
    alloc: Global,
    log: &SharedLog,
    gate: &Turns<'_>,
    is_raised: bool,
) -> Result<String, AllocError> {
    let (place, found) = if is_raised {
        ("raised", gate.found_where_raised())
    } else {
        ("awaited", gate.found_where_awaited())
    };
    format!(in alloc;
        "records where a flag is {place}: {found}, in the log: {}\n",
        log.count()
    )
}

/// Returns what a script prints with its audit lines, whether a gate finds both records of domain 2 each time that the
/// second flag is raised, or when one is awaited, and how many records there are in the end.
pub fn records_said<R: Threads + Wait + Sync>(
    rt: &R,
    alloc: Global,
    script: &[u8],
    is_raised: bool,
) -> anyhow::Result<Vec<u8>> {
    let log = SharedLog::new(alloc)?;
    let gate = Turns::looking(&log, DomId(2), 2, 1);
    let mut said = run_logged(rt, alloc, script, UNLIMITED, Some(&log), &gate)?;
    let line = records_line(alloc, &log, &gate, is_raised)?;
    said.extend_from_slice(line.as_bytes())?;
    Ok(said)
}
