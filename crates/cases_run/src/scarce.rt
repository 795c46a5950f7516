//! Memory that runs out in the course of a run.
ghost use Rattle.std.specs.Prelude.{false};

use gt_audit::SharedLog;
use gt_run::{FlagGate, Gate, RunFault, run};
use gt_script_runs::PlayFault;
use gt_types::Memory;
use std::alloc::Global;
use std::io::{self, Write};
use std::sync::atomic::{AtomicBool, AtomicU64, Ordering};
use std::sync::{Mutex, Wait};
use std::thread::Threads;
use test_failing::Flood;

/// The number of bytes that are held back, or let through, before lists run. A monitor of three domains starts with
/// less.
pub const GAP: usize = 4_000_000;

// The same later on.
const SMALL_GAP: usize = 262_144;

/// The stage of a run in which memory runs out.
#[derive(Clone, Copy)]
pub enum Place {
    /// From before the script is read until a domain reaches the gate.
    Start,
    /// From when a domain raises this flag until one raises another.
    Flag(usize),
    /// While the first line is written.
    Write,
}

/// The end of a run.
#[derive(Clone, Copy)]
pub enum End {
    Done,
    Thread,
    Memory,
    Other,
}

/// A gate that leaves a run only a number of bytes in one stage.
#[derive(Drop)]
pub struct Scarce<'r, R: Wait> {
    rt: &'r R,
    flags: FlagGate<'r, R>,
    flood: &'r Mutex<Flood>,
    place: Place,
    left: usize,
    is_closed: AtomicBool,
    callers: AtomicU64,
}

impl<'r, R: Wait> Scarce<'r, R> {
    pub fn new(
        rt: &'r R,
        alloc: Global,
        flood: &'r Mutex<Flood>,
        place: Place,
        left: usize,
    ) -> Result<Self, Memory> {
        Ok(Scarce {
            rt,
            flags: FlagGate::new(rt, alloc)?,
            flood,
            place,
            left,
            is_closed: AtomicBool::new(false),
            callers: AtomicU64::new(0),
        })
    }

    /// Sets the number of bytes for the next run.
    pub fn leave(&mut self, left: usize) {
        self.left = left;
    }

    /// Returns how often a domain came to the gate.
    pub fn callers(&self) -> u64 {
        self.callers.load(Ordering::SeqCst)
    }

    /// Ends the shortage of memory.
    pub fn open(&self) {
        if self.is_closed.swap(false, Ordering::SeqCst) {
            self.flood.lock(self.rt).open();
        }
    }

    // Begins the shortage of memory.
    fn close(&self) {
        let is_closed = self.is_closed.swap(true, Ordering::SeqCst);
        let gap = match self.place {
            Place::Start => GAP,
            _ => SMALL_GAP,
        };
        let mut flood = self.flood.lock(self.rt);
        if is_closed && flood.let_through(self.left) {
            return;
        }
        if flood.close(gap).is_ok() {
            let _ = flood.let_through(self.left);
        }
    }

    fn comes_to_start(&self) {
        if matches!(self.place, Place::Start) {
            self.close();
        }
    }

    fn comes_to_write(&self) {
        if matches!(self.place, Place::Write) {
            self.close();
        }
    }
}

impl<'r, R: Wait> Gate for Scarce<'r, R> {
    ghost refuses = { λ _ _. false };

    fn tell(&self, flag: usize) {
        self.callers.fetch_add(1, Ordering::SeqCst);
        match self.place {
            Place::Flag(closed) if closed == flag => self.close(),
            Place::Write => {}
            _ => self.open(),
        }
        self.flags.tell(flag);
    }

    fn pass(&self, flag: usize) -> bool {
        self.callers.fetch_add(1, Ordering::SeqCst);
        if matches!(self.place, Place::Start) {
            self.open();
        }
        self.flags.pass(flag)
    }
}

// A writer into space that was reserved.
#[derive(Drop)]
struct Room<'t, 'g, 'r, R: Wait> {
    taken: &'t mut Vec<u8>,
    gate: &'g Scarce<'r, R>,
}

impl<'t, 'g, 'r, R: Wait> Write for Room<'t, 'g, 'r, R> {
    fn write(&mut self, buf: &[u8]) -> io::Result<usize> {
        if self.taken.is_empty() {
            self.gate.comes_to_write();
        }
        self.taken.extend_from_slice(buf)?;
        Ok(buf.len())
    }

    fn flush(&mut self) -> io::Result<()> {
        Ok(())
    }
}

/// Runs a script at the gate, into a text with reserved space. The result needs no memory.
pub fn run_scarce<R: Threads + Wait + Sync>(
    rt: &R,
    alloc: Global,
    script: &str,
    log: &SharedLog,
    gate: &Scarce<'_, R>,
    text: &mut Vec<u8>,
) -> End {
    let mut reader = script.as_bytes();
    text.clear();
    let mut writer = Room { taken: text, gate };
    gate.comes_to_start();
    match run(rt, alloc, &mut reader, &mut writer, Some(log), gate) {
        Ok(()) => End::Done,
        Err(RunFault::Thread) => End::Thread,
        Err(RunFault::Play(PlayFault::Memory)) => End::Memory,
        Err(_) => End::Other,
    }
}
