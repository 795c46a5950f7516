//! Loads of whole calls on a running monitor, in threads.
//!
//! `live LOAD THREADS ROUNDS` runs a load, and its line has the number of rounds of its threads. A round is a map and
//! an unmap that were both answered Ok, a revocation or withdrawal and a grant, or a demotion and a promotion. LOAD is
//! `apart` or `adjacent` (each thread maps its own entry, with entries between them or adjacent), `grants` (the first
//! thread is the owner, who by turns revokes and grants the entries that the others map), `withdrawals` (the owner
//! withdraws each and grants it once it has no pin) or `turns` (the owner demotes and promotes each). The policy is a
//! compiled table.
//!
//! The loads of bytes are `load-64`, `load-4096`, `store-64`, `store-4096`, `copy-64` and `copy-4096`: each thread has
//! its own page, which the owner granted to it, and a round is one access of 64 or 4,096 bytes, through its mapping or
//! as a copy by reference to one of its own frames. A load reads over a buffer of the thread's, and one of `fresh-64`
//! or `fresh-4096` returns fresh memory. A round of `forward-64` or `forward-4096` is a copy from one page of the
//! owner's to another, through a transitive entry at each end.
//!
//! The calls are recorded. With a fourth word `off` they are not, with `ahead` each domain reserves space for its
//! records before its first call, and with `taken` the records of each mapper, and of each thread that moves bytes, are
//! taken while it runs. A fifth word is the number of domains of a load of calls, from 6 to 64 (6).
mod audit;
mod loads;
mod parts;

use crate::extent::extent_of;
use crate::line::word_at;
use crate::stops::Stop;
use audit::Audit;
use loads::{Load, Plan, run};
use parts::Moves;
use std::alloc::Global;
use std::sync::Wait;
use std::thread::Threads;

static LOADS: [(&str, Load); 15] = [
    ("apart", Load::Apart),
    ("adjacent", Load::Adjacent),
    ("grants", Load::Grants),
    ("withdrawals", Load::Withdrawals),
    ("turns", Load::Turns),
    ("load-64", Load::Bytes(Moves::Loads, 64)),
    ("load-4096", Load::Bytes(Moves::Loads, 4096)),
    ("fresh-64", Load::Bytes(Moves::Fresh, 64)),
    ("fresh-4096", Load::Bytes(Moves::Fresh, 4096)),
    ("store-64", Load::Bytes(Moves::Stores, 64)),
    ("store-4096", Load::Bytes(Moves::Stores, 4096)),
    ("copy-64", Load::Bytes(Moves::Copies, 64)),
    ("copy-4096", Load::Bytes(Moves::Copies, 4096)),
    ("forward-64", Load::Bytes(Moves::Forwards, 64)),
    ("forward-4096", Load::Bytes(Moves::Forwards, 4096)),
];

static AUDITS: [(&str, Audit); 4] = [
    ("on", Audit::On),
    ("ahead", Audit::Ahead),
    ("taken", Audit::Taken),
    ("off", Audit::Off),
];

fn load_of(name: &str) -> Result<Load, Stop> {
    for (named, load) in LOADS.iter() {
        if *named == name {
            return Ok(*load);
        }
    }
    Err(Stop::Words)
}

fn audit_of(name: &str) -> Result<Audit, Stop> {
    for (named, audit) in AUDITS.iter() {
        if *named == name {
            return Ok(*audit);
        }
    }
    Err(Stop::Audit)
}

fn plan_of(words: &[String]) -> Result<Plan, Stop> {
    let load = load_of(word_at(words, 1, ""))?;
    let audit = audit_of(word_at(words, 4, "on"))?;
    let extent = extent_of(words, 5)?;
    Ok(Plan {
        load,
        audit,
        extent,
    })
}

/// Runs the load that the words name, and appends a line with the number of its rounds.
pub(crate) fn measure<R: Threads + Wait + Sync>(
    rt: &R,
    alloc: Global,
    words: &[String],
    said: &mut String,
) -> Result<(), Stop> {
    let plan = plan_of(words)?;
    let done = run(rt, alloc, plan)?;
    let (load, threads) = (word_at(words, 1, ""), plan.extent.threads);
    Ok(writeln!(said, "{load} {threads} {done}")?)
}
