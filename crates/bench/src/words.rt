//! Loads on the words of grant entries, in threads.
//!
//! `words LOAD THREADS ROUNDS` runs a load, and its line has the number of rounds of its threads. A round is a map and
//! an unmap that succeeded, or a revocation or withdrawal and a grant. LOAD is `apart`, `adjacent` (each thread maps its
//! own entry, with entries between them or adjacent), `one` (all map the same entry, by a transitive entry each),
//! `grants` (the first thread is the owner, who revokes and grants the one entry again, and the others map it) or
//! `withdrawals` (the owner withdraws it and grants it again once it has no pin). A fourth word is the number of
//! domains, from 6 to 64 (6).
mod loads;
mod mapper;
mod owner;

use crate::extent::extent_of;
use crate::line::word_at;
use crate::stops::Stop;
use loads::{Load, Plan, run};
use std::alloc::Global;
use std::thread::Threads;

fn load_of(name: &str) -> Result<Load, Stop> {
    match name {
        "apart" => Ok(Load::Apart),
        "adjacent" => Ok(Load::Adjacent),
        "one" => Ok(Load::One),
        "grants" => Ok(Load::Grants),
        "withdrawals" => Ok(Load::Withdrawals),
        _ => Err(Stop::Words),
    }
}

/// Runs the load that the words name, and appends a line with the number of its rounds.
pub(crate) fn measure<R: Threads + Sync>(
    rt: &R,
    alloc: Global,
    words: &[String],
    said: &mut String,
) -> Result<(), Stop> {
    let load = load_of(word_at(words, 1, ""))?;
    let extent = extent_of(words, 4)?;
    let plan = Plan {
        load,
        threads: extent.threads as usize,
        rounds: extent.rounds,
    };
    let done = run(rt, alloc, plan, extent.domains)?;
    let (load, threads) = (word_at(words, 1, ""), extent.threads);
    Ok(writeln!(said, "{load} {threads} {done}")?)
}
