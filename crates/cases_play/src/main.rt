//! A program that plays and parses worked scripts, lists worked policies and writes texts as JSON Lines, and prints the
//! output of each under its name.
//!
//! The words of the command line are the names. The script `x` is `data/x.gt`, as the program `gthost` plays it. Those
//! after the word `--audit` are printed with their records. `args` names them all, and `stdout` has the expected
//! output: the answers of the calls, line by line, or the script's first fault. Each is played with its audit and
//! without. If that changes an answer, or adds a line that is not a record, a line reports it.
//!
//! After the word `--failing` each read and each write fails after each count of bytes, and a line states whether all
//! failures were reported; after `--failing-audit` the same with the records. After the word `--policy` come policies:
//! `x` is `data/x.te`, as `gthost` lists it. After `--beginnings` each prefix of a script is played, from no byte to
//! the whole. Its output is printed after its count of bytes if it differs from that of one byte less. After
//! `--policy-beginnings` the prefixes of a policy are listed. After `--refusing`, `--refusing-audit` and
//! `--policy-refusing` each allocation fails in turn, and a line states whether all failures were reported.
//!
//! The scripts after `--parsed` are parsed for `play`, and printed as they are read, or their first fault. Those after
//! `--parsed-run` are parsed for `run`, and those after `--cut` are cut off after each count of bytes. A file with a
//! line `====` has a text above it, and below it lines that are tried instead of its `@`, one after the other: each is
//! printed after its result. A script, a policy or a tried line is added by its file, its name in `args` and its lines
//! in `stdout`; that costs no proof.
//!
//! After `--json` come texts that `play` and `run` print, after `--json-policy` those of `policy`, and after
//! `--json-entries` those of `entries`: `x` is `data/x.txt`, which is printed as JSON Lines. After `--json-failing`
//! each write fails after each count of bytes, and a line states whether all failures were reported. The expected JSON
//! was written by `tools/json_lines.py`, which makes it of the texts independently, checks it by another reader, and
//! makes the text of it again.
//!
//! If an allocation of the program itself fails, it ends with status 1, and its output is a prefix of `stdout`.
#![tactic(auto)]

mod json;
mod parsed;
mod refusing;
mod task;

use gt_json::PrintedText;
use json::{json_failing_said, json_said};
use parsed::{ParsedForm, cut_said, run_said};
use refusing::refused_said;
use std::alloc::Global;
use std::sync::Wait;
use std::thread::Threads;
use task::Task;
use test_cases::{Cases, beginnings_said, failing_said, mode_of, say_all, tried_said};

// The treatment of a text.
#[derive(Clone, Copy)]
enum Way {
    Once,
    Failing,
    Beginnings,
    Refusing,
    Parsed,
    ParsedForRun,
    Cut,
    Json(PrintedText),
    JsonFailing,
}

// A script or a policy is done with or without its records.
type Mode = (Task, bool, Way);

static MODES: [(&str, Mode); 16] = [
    ("--audit", (Task::Play, true, Way::Once)),
    ("--failing", (Task::Play, false, Way::Failing)),
    ("--failing-audit", (Task::Play, true, Way::Failing)),
    ("--beginnings", (Task::Play, true, Way::Beginnings)),
    ("--policy", (Task::List, false, Way::Once)),
    ("--policy-beginnings", (Task::List, false, Way::Beginnings)),
    ("--refusing", (Task::Play, false, Way::Refusing)),
    ("--refusing-audit", (Task::Play, true, Way::Refusing)),
    ("--policy-refusing", (Task::List, false, Way::Refusing)),
    ("--parsed", (Task::Play, false, Way::Parsed)),
    ("--parsed-run", (Task::Play, false, Way::ParsedForRun)),
    ("--cut", (Task::Play, false, Way::Cut)),
    ("--json", (Task::Play, false, Way::Json(PrintedText::Run))),
    (
        "--json-policy",
        (Task::List, false, Way::Json(PrintedText::Policy)),
    ),
    (
        "--json-entries",
        (Task::Play, false, Way::Json(PrintedText::Entries)),
    ),
    ("--json-failing", (Task::Play, false, Way::JsonFailing)),
];

// The words of `args`, with the mode for the texts that come next.
#[derive(Drop)]
struct HostCases {
    mode: Mode,
}

impl Cases for HostCases {
    fn takes(&mut self, word: &str) -> bool {
        match mode_of(&MODES, word) {
            Some(mode) => {
                self.mode = mode;
                true
            }
            None => false,
        }
    }

    fn ending(&self) -> &'static str {
        match self.mode {
            (_, _, Way::Json(_) | Way::JsonFailing) => "txt",
            (Task::Play, ..) => "gt",
            (Task::List, ..) => "te",
        }
    }

    fn said<R: Threads + Wait + Sync>(
        &self,
        rt: &R,
        alloc: Global,
        text: &[u8],
    ) -> anyhow::Result<Vec<u8>> {
        let (task, audit, way) = self.mode;
        match way {
            Way::Once => tried_said(rt, &task, alloc, text, audit),
            Way::Failing => failing_said(rt, &task, alloc, text, audit),
            Way::Beginnings => beginnings_said(rt, &task, alloc, text),
            Way::Refusing => refused_said(rt, task, alloc, text, audit),
            Way::Parsed => tried_said(rt, &ParsedForm, alloc, text, false),
            Way::ParsedForRun => Ok(run_said(alloc, text)?.into_bytes()),
            Way::Cut => Ok(cut_said(alloc, text)?.into_bytes()),
            Way::Json(printed) => json_said(alloc, printed, text),
            Way::JsonFailing => json_failing_said(alloc, text),
        }
    }
}

fn main(rt: HostRuntime) -> anyhow::Result<()> {
    let alloc = rt.alloc();
    let words: Vec<String> = std::env::args(&rt)?.collect(alloc)?;
    let mode = (Task::Play, false, Way::Once);
    say_all(&rt, alloc, &mut HostCases { mode }, words.as_slice())
}
