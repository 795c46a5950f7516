//! Runs in which threads and allocations fail, each in turn.
use crate::likeness::{Shortage, lacks};
use crate::made::push_each;
use crate::running::flags_said;
use crate::scarce::{End, GAP, Place, Scarce, run_scarce};
use gt_audit::SharedLog;
use gt_types::Memory;
use std::alloc::{AllocError, Global};
use std::sync::{Mutex, Wait};
use std::thread::Threads;
use test_cases::UNLIMITED;
use test_failing::Flood;

// More bytes than any worked script prints.
const ROOM: usize = 65_536;

// The memory grows by this number of bytes at first, and then by pages. A domain's thread has no heap while the flood
// is closed, so each of its blocks takes its own pages.
const STEP: usize = 16;

const FINE: usize = 32_768;

const PAGE: usize = 4_096;

const TRIES: usize = 4_096;

// The addresses that domains find when lists run, for the memory that is held back and let through. Without them the
// pieces that an earlier stage left can be too small.
const SPACE: usize = 16 << 20;

// A stack takes a little less: 8 MiB and its guard. This is kept for each until it is wanted, since a flood that was
// closed may leave no piece of that size.
const STACK: usize = 9 << 20;

// The failures in runs whose memory ran out.
#[derive(Drop)]
struct Seen {
    thread: bool,
    memory: bool,
    lost: bool,
    calls: String,
}

// Returns the call of a line of a script.
fn call_of(script: &str, number: usize) -> &str {
    let line = script.lines().nth(number.saturating_sub(1)).unwrap_or("");
    line.split_whitespace().nth(2).unwrap_or("another")
}

impl Seen {
    fn nothing(alloc: Global) -> Seen {
        Seen {
            thread: false,
            memory: false,
            lost: false,
            calls: String::new(alloc),
        }
    }

    // Notes the end of a run that wrote nothing. Returns whether it is one of memory or of a thread.
    fn note_start(&mut self, end: End) -> bool {
        match end {
            End::Memory => self.memory = true,
            End::Thread => self.thread = true,
            _ => return false,
        }
        true
    }

    // Adds the name of a call.
    fn add_call(&mut self, call: &str) -> Result<(), AllocError> {
        if !self.calls.contains(call) {
            self.calls.push(' ')?;
            self.calls.push_str(call)?;
        }
        Ok(())
    }

    // Adds the result of a run.
    fn add(&mut self, script: &str, end: End, lacked: Shortage) -> Result<(), AllocError> {
        self.memory = self.memory || matches!(end, End::Memory);
        self.lost = self.lost || lacked.lost > 0;
        match lacked.denied {
            Some(number) => self.add_call(call_of(script, number)),
            None => Ok(()),
        }
    }

    fn said(&self, alloc: Global, place: &str) -> Result<String, AllocError> {
        let thread = if self.thread { " thread" } else { "" };
        let memory = if self.memory { " memory" } else { "" };
        let lost = if self.lost { " lost" } else { "" };
        let calls = self.calls.as_str();
        format!(in alloc; "{place}:{thread}{memory}{lost}{calls}\n")
    }
}

// Returns what a run lacks of the whole text, if its end is allowed: Ok, or a failed allocation.
fn judged(whole: &str, end: End, text: &[u8]) -> Option<Shortage> {
    let lacked = lacks(whole, str::from_utf8(text).ok()?)?;
    match end {
        End::Done if lacked.is_told() => Some(lacked),
        End::Memory => Some(lacked),
        _ => None,
    }
}

fn count_of(script: &str, start: &str) -> usize {
    let mut count = 0usize;
    for line in script.lines() {
        if line.starts_with(start) {
            count = count.saturating_add(1);
        }
    }
    count
}

// Runs this number of threads to their end. The C library keeps their stacks, and as many further threads get one of
// those if there is no room for others.
fn keep_stacks<R: Threads + Wait + Sync>(
    rt: &R,
    alloc: Global,
    count: usize,
) -> Result<(), Memory> {
    let mut script = String::from_str(alloc, "triple a_t a_t query\n")?;
    let end = count.saturating_add(1);
    push_each(&mut script, alloc, "domain @ u:r:a_t 1 1 1\n", "@", 1..end)?;
    script.push_str("tell 1 x\n")?;
    flags_said(rt, alloc, script.as_bytes(), false, UNLIMITED)?;
    Ok(())
}

// Returns what was seen, unless a run had a wrong result.
fn place_said(
    alloc: Global,
    place: &str,
    seen: &Seen,
    untold: Option<usize>,
) -> Result<String, AllocError> {
    match untold {
        None => seen.said(alloc, place),
        Some(left) => format!(in alloc; "{place}: with {left} bytes it goes otherwise\n"),
    }
}

// The result of a run whose memory ran out.
#[derive(Drop)]
struct Tried {
    end: End,
    text: Vec<u8>,
    // Whether it wrote nothing, no domain came to the gate, and nothing was recorded.
    is_quiet: bool,
}

// A script with what it prints with its records, and the environment of its runs: threads, memory, and the flood that
// takes most of it.
#[derive(Drop)]
struct Trials<'t, R: Wait> {
    rt: &'t R,
    alloc: Global,
    flood: &'t Mutex<Flood>,
    script: &'t str,
    whole: &'t str,
}

impl<'t, R: Threads + Wait + Sync> Trials<'t, R> {
    // Makes a run that has only these bytes at a stage.
    fn try_once(&self, place: Place, left: usize) -> Result<Tried, Memory> {
        let gate = Scarce::new(self.rt, self.alloc, self.flood, place, left)?;
        let log = SharedLog::new(self.alloc)?;
        let mut text = Vec::with_capacity(self.alloc, ROOM)?;
        let end = run_scarce(self.rt, self.alloc, self.script, &log, &gate, &mut text);
        gate.open();
        let is_quiet = text.is_empty() && gate.callers() == 0 && log.count() == 0;
        Ok(Tried {
            end,
            text,
            is_quiet,
        })
    }

    // Refuses each thread in turn: keeps the space of a stack for each at first, and then for one less each time.
    // Returns the number of threads before the first run that did not end with that fault, or that ran a list.
    fn untold_thread(&self, mut stacks: Vec<Vec<u8>>) -> Result<Option<usize>, Memory> {
        for held in 0..stacks.len() {
            let tried = self.try_once(Place::Start, GAP)?;
            if !matches!(tried.end, End::Thread) || !tried.is_quiet {
                return Ok(Some(held));
            }
            drop(stacks.pop());
            keep_stacks(self.rt, self.alloc, held.saturating_add(1))?;
        }
        Ok(None)
    }

    // Lets memory run out before a script is read. Returns the memory that was left to the first run with a wrong
    // result: a run must end with the fault of memory or of a thread and write nothing, or print its whole text.
    fn untold_at_start(&self, seen: &mut Seen) -> Result<Option<usize>, Memory> {
        let mut gate = Scarce::new(self.rt, self.alloc, self.flood, Place::Start, 0)?;
        let log = SharedLog::new(self.alloc)?;
        let mut text = Vec::with_capacity(self.alloc, ROOM)?;
        let (mut left, mut end) = (0usize, End::Other);
        for _ in 0..TRIES {
            gate.leave(left);
            end = run_scarce(self.rt, self.alloc, self.script, &log, &gate, &mut text);
            if gate.callers() > 0 || !text.is_empty() || !seen.note_start(end) {
                break;
            }
            left = left.saturating_add(if left < FINE { STEP } else { PAGE });
        }
        gate.open();
        let is_whole = matches!(end, End::Done) && text.as_slice() == self.whole.as_bytes();
        Ok(if is_whole { None } else { Some(left) })
    }

    // Lets memory run out when lists already run. Returns the memory that was left to the first run with a wrong
    // result.
    fn untold_from(&self, place: Place, seen: &mut Seen) -> Result<Option<usize>, Memory> {
        let mut left = 0usize;
        for _ in 0..TRIES {
            let Tried { end, text, .. } = self.try_once(place, left)?;
            match judged(self.whole, end, text.as_slice()) {
                None => break,
                Some(lacked) if matches!(end, End::Done) && lacked.is_nothing() => return Ok(None),
                Some(lacked) => seen.add(self.script, end, lacked)?,
            }
            left = left.saturating_add(match place {
                Place::Write => STEP,
                _ => PAGE,
            });
        }
        Ok(Some(left))
    }

    // Does the same at every second flag, the second one first.
    fn lists_said(&self) -> Result<String, Memory> {
        let mut seen = Seen::nothing(self.alloc);
        let mut untold = None;
        for pair in 0..count_of(self.script, "tell ") / 2 {
            if untold.is_none() {
                let flag = pair.saturating_mul(2).saturating_add(1);
                untold = self.untold_from(Place::Flag(flag), &mut seen)?;
            }
        }
        Ok(place_said(self.alloc, "while lists run", &seen, untold)?)
    }

    // Returns the result of the runs in which threads are refused.
    fn threads_said(&self) -> Result<String, Memory> {
        let mut stacks = Vec::new(self.alloc);
        for _ in 0..count_of(self.script, "domain ") {
            stacks.push(Vec::with_capacity(self.alloc, STACK)?)?;
        }
        Ok(match self.untold_thread(stacks)? {
            None => {
                String::from_str(
                    self.alloc,
                    "each thread that is refused is told, and no list runs\n",
                )?
            }
            Some(held) => format!(in self.alloc; "with {held} threads it goes otherwise\n")?,
        })
    }

    fn start_said(&self) -> Result<String, Memory> {
        let mut seen = Seen::nothing(self.alloc);
        let untold = self.untold_at_start(&mut seen)?;
        Ok(place_said(self.alloc, "before lists run", &seen, untold)?)
    }

    fn write_said(&self) -> Result<String, Memory> {
        let mut seen = Seen::nothing(self.alloc);
        let untold = self.untold_from(Place::Write, &mut seen)?;
        Ok(place_said(self.alloc, "while it writes", &seen, untold)?)
    }

    // Appends the results of the runs in which memory runs out. The space is kept until lists run.
    fn push_said(&self, space: Vec<u8>, out: &mut String) -> Result<(), Memory> {
        out.push_str(self.start_said()?.as_str())?;
        drop(space);
        out.push_str(self.lists_said()?.as_str())?;
        Ok(out.push_str(self.write_said()?.as_str())?)
    }
}

/// Returns what a script prints with its records, and what fails when threads and memory run out, at each stage and
/// with more left each time, until it prints all of it. Each domain must come to the gate before it makes a call. The
/// flags must be raised one after the other. Between the second one and the third, the fourth and the fifth and so on,
/// a domain makes a call while no other does anything.
pub fn refusing_said<R: Threads + Wait + Sync>(
    rt: &R,
    alloc: Global,
    script: &[u8],
) -> Result<Vec<u8>, Memory> {
    let text = str::from_utf8(script).unwrap_or("");
    let space = Vec::with_capacity(alloc, SPACE)?;
    let flood = Mutex::new(Flood::new(alloc)?);
    // Threads first, before any run leaves its stacks.
    let mut said = Trials {
        rt,
        alloc,
        flood: &flood,
        script: text,
        whole: "",
    }
    .threads_said()?;
    let mut out = flags_said(rt, alloc, script, true, UNLIMITED)?;
    Trials {
        rt,
        alloc,
        flood: &flood,
        script: text,
        whole: str::from_utf8(out.as_slice()).unwrap_or(""),
    }
    .push_said(space, &mut said)?;
    out.extend_from_slice(said.as_bytes())?;
    Ok(out)
}
