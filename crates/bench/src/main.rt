//! Benchmarks: work of which scripts take the time from outside.
//!
//! `bench policy WORK CLASS COUNT` parses, compiles and asks a large policy (`policy.rt` lists WORK), and `bench frames
//! WORK COUNT` accesses frames and releases map handles (`frames.rt`). `bench words LOAD THREADS ROUNDS [DOMAINS]` runs
//! a load on the words of grant entries (`words.rt`), and `bench live LOAD THREADS ROUNDS [AUDIT [DOMAINS]]` one of
//! whole calls on a running monitor (`live.rt`), both in threads. Each prints what it did, never a time. Several, which
//! the word `then` separates, are done one after the other.
//!
//! It promises nothing beyond the calls that it makes. The scripts `bench/policy.sh`, `bench/frames.sh`,
//! `bench/words.sh`, `bench/live.sh` and `bench/c_speed.sh` run and time it.
#![tactic(auto)]

mod extent;
mod frames;
mod line;
mod live;
mod policy;
mod stops;
mod words;

use crate::line::word_at;
use crate::stops::Stop;
use anyhow::{Result, bail};
use std::alloc::Global;
use std::sync::Wait;
use std::thread::Threads;

// Does what the words name, and appends its lines.
fn measure<R: Threads + Wait + Sync>(
    rt: &R,
    alloc: Global,
    words: &[String],
    said: &mut String,
) -> Result<(), Stop> {
    match word_at(words, 0, "") {
        "policy" => policy::measure(alloc, words, said),
        "frames" => frames::measure(rt, alloc, words, said),
        "words" => words::measure(rt, alloc, words, said),
        "live" => live::measure(rt, alloc, words, said),
        _ => Err(Stop::Words),
    }
}

// Does what the words behind the program's name ask for, one benchmark after the other, and appends their lines.
fn measure_all<R: Threads + Wait + Sync>(
    rt: &R,
    alloc: Global,
    words: &[String],
    said: &mut String,
) -> Result<(), Stop> {
    let [_, words @ ..] = words else {
        return Err(Stop::Words);
    };
    for words in words.split(|word| word.as_str() == "then") {
        measure(rt, alloc, words, said)?;
    }
    Ok(())
}

fn main(rt: HostRuntime) -> Result<()> {
    let alloc = rt.alloc();
    let words: Vec<String> = std::env::args(&rt)?.collect(alloc)?;
    let mut said = String::new(alloc);
    if let Err(stop) = measure_all(&rt, alloc, words.as_slice(), &mut said) {
        bail!("{}", stop.text());
    }
    print!(rt; "{said}")?;
    Ok(())
}
