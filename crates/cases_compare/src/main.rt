//! A program that makes the same calls on running domains and on the core, and compares all answers.
//!
//! The words of the command line are names. `data/x.gt` is for the name `x`: the head of a script, a line `====`, and
//! bodies separated by lines `----`. Each body is a script with that head, whose lines are all `do`. Its calls are made
//! one after the other on one thread, by the domains of a monitor and by a core of the same configuration. After each
//! call these are compared:
//!
//! - the answer, with the word that decided a refusal;
//! - every byte of every frame of every domain;
//! - what the last domain of the script finds in the first entries of each domain when it maps them: the header, or the
//!   entry's word with its kind, owner part, pins and generation. A script that grants nothing to its last domain is
//!   changed by none of this.
//!
//! At the end the lines that these answers print, and the records of the domains except the last, are compared with the
//! text of `gt_host::play` with its audit. For each name the program prints the scripts, the calls and those that were
//! Ok, or the first difference. After the word `--refusing` each allocation of each call fails in turn, on the monitor
//! and on the core, and lines report which calls of each script failed and where. A script is added by its lines in a
//! file, and costs no proof. `bench/compare.sh` makes others.
//!
//! At the word `--starts` cores and monitors start with more and more memory, and a line for each start states whether
//! all results were right (`starts.rt`).
#![tactic(auto)]

mod asking;
mod comparing;
mod scarce;
mod starting;
mod starts;
mod stops;
mod sweeping;
mod texts;

use anyhow::bail;
use comparing::{Compared, compare};
use starts::starts_said;
use std::alloc::{AllocError, Global};
use std::fs;
use std::rt::Runtime;
use std::sync::Wait;
use stops::Stop;

/// The results of the scripts of a file.
#[derive(Drop)]
struct Tally {
    scripts: usize,
    calls: usize,
    done: usize,
    refused: String,
}

impl Tally {
    // Adds the result of a script. Returns a line about its difference, if there is one.
    fn add(&mut self, alloc: Global, compared: Compared) -> Result<Option<String>, AllocError> {
        self.scripts = self.scripts.saturating_add(1);
        self.calls = self.calls.saturating_add(compared.calls);
        self.done = self.done.saturating_add(compared.done);
        self.refused.push_str(compared.refused.as_str())?;
        Ok(match &compared.difference {
            Some(difference) => Some(format!(in alloc; "script {}: {difference}\n", self.scripts)?),
            None => None,
        })
    }

    fn said(&self, alloc: Global) -> Result<String, AllocError> {
        let Tally {
            scripts,
            calls,
            done,
            refused,
        } = self;
        format!(in alloc; "{scripts} scripts, {calls} calls, {done} of them ok\n{refused}")
    }
}

// Compares the script of this head and body.
fn compare_body<R: Wait>(
    rt: &R,
    alloc: Global,
    head: &str,
    body: &str,
    is_refusing: bool,
) -> Result<Compared, Stop> {
    let script = format!(in alloc; "{head}{body}")?;
    compare(rt, alloc, script.as_str(), is_refusing)
}

// Compares the bodies one after the other, up to the first one that differs.
fn compare_all<R: Wait>(
    rt: &R,
    alloc: Global,
    text: &str,
    is_refusing: bool,
) -> Result<String, Stop> {
    let mut tally = Tally {
        scripts: 0,
        calls: 0,
        done: 0,
        refused: String::new(alloc),
    };
    let (head, bodies) = text.split_once("====\n").unwrap_or(("", text));
    for body in bodies.split("----\n") {
        let compared = compare_body(rt, alloc, head, body, is_refusing)?;
        if let Some(line) = tally.add(alloc, compared)? {
            return Ok(line);
        }
    }
    Ok(tally.said(alloc)?)
}

// Prints the results of the scripts of a file.
fn say<R: Runtime + AllocGlobal + Wait>(
    rt: &R,
    alloc: Global,
    name: &str,
    is_refusing: bool,
) -> anyhow::Result<()> {
    let path = format!(in alloc; "{name}.gt")?;
    let text = fs::read_to_string(rt, path.as_str())?;
    match compare_all(rt, alloc, text.as_str(), is_refusing) {
        Ok(said) => print!(rt; "{name}: {said}")?,
        Err(stop) => bail!("{name}: {}", stop.text()),
    }
    Ok(())
}

// Prints the results of starts.
fn say_starts<R: Runtime>(rt: &R, alloc: Global) -> anyhow::Result<()> {
    match starts_said(alloc) {
        Ok(said) => print!(rt; "{said}")?,
        Err(stop) => bail!("--starts: {}", stop.text()),
    }
    Ok(())
}

fn main(rt: HostRuntime) -> anyhow::Result<()> {
    let alloc = rt.alloc();
    let words: Vec<String> = std::env::args(&rt)?.collect(alloc)?;
    let mut is_refusing = false;
    for word in words.iter().skip(1) {
        match word.as_str() {
            "--refusing" => is_refusing = true,
            "--starts" => say_starts(&rt, alloc)?,
            name => say(&rt, alloc, name, is_refusing)?,
        }
    }
    Ok(())
}
