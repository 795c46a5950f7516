//! A program that runs worked scripts, and prints the output of each under its name.
//!
//! The words of the command line are the names. The script `x` is `data/x.gt`, as the program `gthost` runs it. `args`
//! names them all, and `stdout` has the expected output. A script is added by its file, its name in `args` and its
//! lines in `stdout`. A word of `args` that begins with `--` specifies how the scripts after it are run:
//!
//! - `--audit`: with their audit lines.
//! - `--failing`: each read and each write fails after each count of bytes, and a line states whether all were
//!   reported.
//! - `--closed` and `--deaf`: at a gate that lets no domain through, at once or after all its turns.
//! - `--two-meet` and `--three-meet`: at a gate that lets domains through once two or three are there.
//! - `--told` and `--awaited`: at a gate that checks for both records of domain 2. A line states whether it found them
//!   each time that the second flag was raised, or when one was awaited, and how many records the log has.
//! - `--beginnings`: each prefix of the script, from no byte to the whole, with its records and without. Its output is
//!   printed after its count of bytes if it differs from that of one byte less.
//! - `--refusing`: threads and allocations fail in turn, each with the records, and lines report the results. It comes
//!   first, since a thread that could allocate leaves memory to those that come after it. `--run` ends it.
//! - `--many`, `--queries` and `--unmaps`: the file is the parts of a long script, which are repeated (`made.rt`). The
//!   output is stated by its number of lines and its digest.
#![tactic(auto)]

mod gates;
mod likeness;
mod made;
mod refusing;
mod running;
mod scarce;

use gates::{Turns, gate_said, records_said};
use made::{Repetition, made_said};
use refusing::refusing_said;
use running::RunJob;
use std::alloc::Global;
use std::sync::Wait;
use std::thread::Threads;
use test_cases::{Cases, Job, UNLIMITED, beginnings_said, failing_said, mode_of, say_all};

// The treatment of the scripts that follow.
#[derive(Clone, Copy)]
enum Mode {
    Run,
    Audit,
    Failing,
    Closed,
    Deaf,
    Meet(u64),
    Told,
    Awaited,
    Beginnings,
    Refusing,
    Made(Repetition),
}

// The words of command lines, with what they specify.
static MODES: [(&str, Mode); 14] = [
    ("--run", Mode::Run),
    ("--audit", Mode::Audit),
    ("--failing", Mode::Failing),
    ("--closed", Mode::Closed),
    ("--deaf", Mode::Deaf),
    ("--two-meet", Mode::Meet(2)),
    ("--three-meet", Mode::Meet(3)),
    ("--told", Mode::Told),
    ("--awaited", Mode::Awaited),
    ("--beginnings", Mode::Beginnings),
    ("--refusing", Mode::Refusing),
    (
        "--many",
        Mode::Made(Repetition {
            first: 10,
            domains: 64,
            rounds: 100,
            audit: false,
        }),
    ),
    (
        "--queries",
        Mode::Made(Repetition {
            first: 1,
            domains: 1,
            rounds: 87_000,
            audit: false,
        }),
    ),
    (
        "--unmaps",
        Mode::Made(Repetition {
            first: 1,
            domains: 1,
            rounds: 80_000,
            audit: true,
        }),
    ),
];

// The words of `args`, with the mode for the scripts that come next.
#[derive(Drop)]
struct RunCases {
    mode: Mode,
}

impl Cases for RunCases {
    fn takes(&mut self, word: &str) -> bool {
        match mode_of(&MODES, word) {
            Some(mode) => {
                self.mode = mode;
                true
            }
            None => false,
        }
    }

    fn ending(&self) -> &'static str {
        "gt"
    }

    fn said<R: Threads + Wait + Sync>(
        &self,
        rt: &R,
        alloc: Global,
        text: &[u8],
    ) -> anyhow::Result<Vec<u8>> {
        match self.mode {
            Mode::Run => RunJob.said(rt, alloc, text, false, UNLIMITED),
            Mode::Audit => RunJob.said(rt, alloc, text, true, UNLIMITED),
            Mode::Failing => failing_said(rt, &RunJob, alloc, text, true),
            Mode::Beginnings => beginnings_said(rt, &RunJob, alloc, text),
            Mode::Closed => gate_said(rt, alloc, text, &Turns::closed()),
            Mode::Deaf => gate_said(rt, alloc, text, &Turns::deaf()),
            Mode::Meet(count) => gate_said(rt, alloc, text, &Turns::meeting(count)),
            Mode::Told => records_said(rt, alloc, text, true),
            Mode::Awaited => records_said(rt, alloc, text, false),
            Mode::Refusing => Ok(refusing_said(rt, alloc, text)?),
            Mode::Made(repetition) => made_said(rt, alloc, text, repetition),
        }
    }
}

fn main(rt: HostRuntime) -> anyhow::Result<()> {
    let alloc = rt.alloc();
    let words: Vec<String> = std::env::args(&rt)?.collect(alloc)?;
    let mut cases = RunCases { mode: Mode::Run };
    say_all(&rt, alloc, &mut cases, words.as_slice())
}
