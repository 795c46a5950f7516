//! The loads, and their run.
use crate::extent::{Extent, FEWEST, MIDDLE, MOST, OWNER, run_domains};
use crate::live::audit::Audit;
use crate::live::parts::{Accesses, Moves, Part, Spread, Worker, page, work};
use crate::stops::Stop;
use gt_allow::AllowTable;
use gt_entry::Entry;
use gt_policy::Policy;
use gt_types::{DomId, GrantRef};
use std::alloc::{AllocError, Global};
use std::sync::Wait;
use std::thread::{self, Threads};
use test_monitor::{Calls, all_running, start_run};

/// The work of the threads.
#[derive(Clone, Copy)]
pub(crate) enum Load {
    /// Each maps its own entry, far from the others'.
    Apart,
    /// Each maps its own entry, next to the others'.
    Adjacent,
    /// The first is the owner of all entries, who revokes and grants them by turns. The others map one each.
    Grants,
    /// The same with an owner who withdraws each entry, and grants it once it has no pin.
    Withdrawals,
    /// The same with an owner who demotes and promotes each.
    Turns,
    /// Each moves this number of bytes at a time.
    Bytes(Moves, u16),
}

/// The load of a run, the recording of its calls, and its size.
#[derive(Clone, Copy)]
pub(crate) struct Plan {
    pub load: Load,
    pub audit: Audit,
    pub extent: Extent,
}

/// The distance between the entries of threads.
const APART: u32 = 64;

/// The same if they are neighbours.
const ADJACENT: u32 = 1;

/// Each type may map the pages of each and unmap them, and copy.
const POLICY: &str = "type a_t; allow a_t a_t:grant { map_read map_write unmap copy };";

// Grants a page of the owner's to the middle domain, which forwards this domain to it.
fn grant_way<D: Calls>(owner: &mut D, middle: &mut D, number: u32, dom: DomId) -> bool {
    let way = Entry::Via {
        dom,
        ro: false,
        dom2: OWNER,
        gref: GrantRef(number),
    };
    let page = page(MIDDLE, u64::from(number));
    owner.grant(number, &page).is_ok() && middle.grant(number, &way).is_ok()
}

// Grants the entries of a worker: one of the spread, or the page or the two ways by which it moves bytes.
fn grant_one<D: Calls>(
    owner: &mut D,
    middle: &mut D,
    load: Load,
    spread: Spread,
    place: u32,
) -> bool {
    let (gref, dom) = spread.at(u64::from(place));
    match load {
        Load::Bytes(Moves::Forwards, _) => {
            let dest = place.saturating_add(MOST);
            grant_way(owner, middle, place, dom) && grant_way(owner, middle, dest, dom)
        }
        Load::Bytes(..) => owner.grant(place, &page(dom, u64::from(place))).is_ok(),
        _ => owner.grant(gref, &page(dom, 5)).is_ok(),
    }
}

// Grants the entries of all workers.
fn grant_each<D: Calls>(owner: &mut D, middle: &mut D, load: Load, spread: Spread) -> bool {
    let mut all = true;
    'places: for place in 0..spread.count {
        all = grant_one(owner, middle, load, spread, place) && all;
    }
    all
}

// Returns the part of the owner, if it has one.
fn owners_part(load: Load, spread: Spread) -> Option<Part> {
    match load {
        Load::Grants => Some(Part::Grants(spread)),
        Load::Withdrawals => Some(Part::Withdraws(spread)),
        Load::Turns => Some(Part::Turns(spread)),
        _ => None,
    }
}

// Returns the part of the mapper with this index.
fn part_of(load: Load, spread: Spread, place: u32) -> Part {
    match load {
        Load::Bytes(moves, len) => Part::Moves(Accesses {
            moves,
            gref: place,
            len,
        }),
        _ => Part::Maps(spread.at(u64::from(place)).0),
    }
}

// Returns the workers of a load, whose entries are granted: the owner if it has a part, and then the mappers.
fn workers<D: Calls + Drop>(
    alloc: Global,
    mut domains: Vec<D>,
    load: Load,
    threads: u32,
) -> Result<Vec<Worker<D>>, Stop> {
    if domains.len() < FEWEST as usize {
        return Err(Stop::Extent);
    }
    let mut owner = domains.remove(0);
    let mut middle = domains.remove(0);
    let owns = matches!(load, Load::Grants | Load::Withdrawals | Load::Turns);
    let count = threads.saturating_sub(u32::from(owns));
    let spread = Spread {
        count: count.max(1),
        stride: if matches!(load, Load::Apart) {
            APART
        } else {
            ADJACENT
        },
    };
    if !grant_each(&mut owner, &mut middle, load, spread) {
        return Err(Stop::NotGranted);
    }
    let mut workers = Vec::new(alloc);
    if let Some(part) = owners_part(load, spread) {
        workers.push(Worker {
            domain: owner,
            part,
        })?;
    }
    'mappers: for (place, domain) in (0..count).zip(domains) {
        let part = part_of(load, spread, place);
        workers.push(Worker { domain, part })?;
    }
    Ok(workers)
}

// Lets the workers do their parts, each in its own thread. Returns the number of rounds of all threads.
fn run_workers<D: Calls + Send + Drop, R: Threads + Wait + Sync>(
    rt: &R,
    alloc: Global,
    workers: Vec<Worker<D>>,
    plan: Plan,
) -> Result<u64, AllocError> {
    let Plan { audit, extent, .. } = plan;
    let rounds = extent.rounds;
    let done = thread::map_vec(
        rt,
        workers,
        &|worker| { work(rt, alloc, worker, audit, rounds) },
    )?;
    let mut sum = 0u64;
    for more in done.iter() {
        sum = sum.saturating_add(u64::from(*more));
    }
    Ok(sum)
}

// Returns the rights by the policy.
fn rights(alloc: Global) -> Result<AllowTable, Stop> {
    let Ok(policy) = Policy::parse(alloc, POLICY) else {
        return Err(Stop::Policy);
    };
    match AllowTable::compile(alloc, &policy) {
        Ok(table) => Ok(table),
        Err(_) => Err(Stop::Memory),
    }
}

// Runs a load on these domains. Returns the number of rounds of all threads.
fn run_on<D: Calls + Send + Drop, R: Threads + Wait + Sync>(
    rt: &R,
    alloc: Global,
    domains: Vec<D>,
    plan: Plan,
) -> Result<u64, Stop> {
    let workers = workers(alloc, domains, plan.load, plan.extent.threads)?;
    Ok(run_workers(rt, alloc, workers, plan)?)
}

/// Runs a load. Returns the number of rounds of all threads.
pub(crate) fn run<R: Threads + Wait + Sync>(
    rt: &R,
    alloc: Global,
    plan: Plan,
) -> Result<u64, Stop> {
    let version = if matches!(plan.load, Load::Bytes(..)) {
        2
    } else {
        1
    };
    let rights = rights(alloc)?;
    let config = run_domains(alloc, plan.extent.domains, version)?;
    let (monitor, domains) = start_run(alloc, config, rights)?;
    let domains = all_running(alloc, &monitor, domains)?;
    run_on(rt, alloc, domains, plan)
}
