//! The loads, and the words on which they run.
ghost use Rattle.std.specs.Prelude.{◌≡◌, ◌≢◌, ◌+◌, ◌<◌, All, IfOk, IfSome, length, true};
ghost use Rattle.gt_word_history.specs.Rule.{layout_of, position_in};
ghost use Rattle.gt_word_history.specs.Views.{last_of};
ghost use Rattle.gt_words.specs.Conditions.{HasDomain, IsSameSeat, IsSeatOf};
ghost use Rattle.bench.specs.Mapping.{CanMap, IsUnusedFrom};

use crate::extent::{MIDDLE, OWNER, run_domains};
use crate::stops::Stop;
use crate::words::mapper::{Mapper, Target, map_and_unmap, through_via};
use crate::words::owner::{Row, page, publish, revoke_and_grant, withdraw_and_grant};
use gt_entry::Entry;
use gt_roster::Positions;
use gt_types::{Config, DomId, GrantRef, StartFault, TABLE_ENTRIES};
use gt_words::{Seat, Words};
use std::alloc::{AllocError, Global};
use std::thread::{self, Threads, join};

/// The work of the threads.
#[derive(Clone, Copy)]
pub enum Load {
    /// Each maps its own entry, far from the others'.
    Apart,
    /// Each maps its own entry, next to the others'.
    Adjacent,
    /// All map one entry.
    One,
    /// The first is the owner of the one entry, who revokes and grants it. The others map it.
    Grants,
    /// The same with an owner who withdraws the entry, and grants it once it has no pin.
    Withdrawals,
}

/// The entry that the threads of a load share, and the first of those that they have for themselves.
const SHARED: GrantRef = GrantRef(64);

/// The distance between the entries of threads.
const APART: u32 = 64;

/// The same if they are neighbours.
const ADJACENT: u32 = 1;

/// The seats of a run: those of the owner and of the middle, and those of the domains that map or do nothing.
#[derive(Drop)]
pub struct Seats {
    pub owner: Seat,
    pub middle: Seat,
    pub others: Vec<Seat>,
}

/// The work of a run, the number of its threads, and how many rounds each makes.
#[derive(Clone, Copy)]
pub struct Plan {
    pub load: Load,
    pub threads: usize,
    pub rounds: u32,
}

const UNUSED: Row = Row {
    entry: Entry::Invalid,
    generation: 0,
};

// Returns whether a domain with this number is among these.
fn is_placed(positions: &Positions, dom: DomId) -> bool
    ensures { result ≡ true → position_in positions.now dom < length positions.now }
{
    positions.position(dom).is_some()
}

// Returns whether the run has this domain.
fn has_domain(alloc: Global, config: &Config, dom: DomId) -> Result<bool, StartFault>
    ensures { IfOk result (λ b. b ≡ true → HasDomain (layout_of config.now) dom) }
{
    if let Err(fault) = config.check() {
        return Err(StartFault::Config(fault));
    }
    let Ok(positions) = Positions::new(alloc, config) else {
        return Err(StartFault::Memory);
    };
    Ok(is_placed(&positions, dom))
}

// Makes the words, the seats of the owner and the middle, and those of the other domains.
fn seats_of(alloc: Global, config: &Config) -> Result<(Words, Seat, Seat, Vec<Seat>), StartFault>
    requires owner { HasDomain (layout_of config.now) OWNER }
    requires middle { HasDomain (layout_of config.now) MIDDLE }
    requires first { config.now.first_gen ≡ 0 }
    ensures domains { IfOk result (λ r. HasDomain r.0.layout OWNER × HasDomain r.0.layout MIDDLE) }
    ensures owner { IfOk result (λ r. IsSeatOf r.0 r.1 × IsUnusedFrom 0 r.1.view) }
    ensures middle { IfOk result (λ r. IsSeatOf r.0 r.2 × IsUnusedFrom 0 r.2.view) }
    ensures others { IfOk result (λ r. All (λ s. IsSeatOf r.0 s) r.3.items) }
{
    let (words, mut seats) = Words::new(alloc, config)?;
    let owner = seats.remove(0);
    let middle = seats.remove(0);
    Ok((words, owner, middle, seats))
}

// Returns the configuration of this number of domains. The owner and the middle are among them.
fn checked_domains(alloc: Global, count: u16) -> Result<Config, Stop>
    ensures owner { IfOk result (λ c. HasDomain (layout_of c) OWNER) }
    ensures middle { IfOk result (λ c. HasDomain (layout_of c) MIDDLE) }
    ensures first { IfOk result (λ c. c.first_gen ≡ 0) }
{
    let config = run_domains(alloc, count, 1)?;
    if !has_domain(alloc, &config, OWNER)? || !has_domain(alloc, &config, MIDDLE)? {
        return Err(Stop::NotStarted);
    }
    Ok(config)
}

// Starts a run of this number of domains.
fn start(alloc: Global, count: u16) -> Result<(Words, Seats), Stop>
    ensures domains { IfOk result (λ r. HasDomain r.0.layout OWNER × HasDomain r.0.layout MIDDLE) }
    ensures owner { IfOk result (λ r. IsSeatOf r.0 r.1.owner × IsUnusedFrom 0 r.1.owner.view) }
    ensures own { IfOk result (λ r. OWNER ≡ r.1.owner.dom) }
    ensures middle { IfOk result (λ r. IsSeatOf r.0 r.1.middle × IsUnusedFrom 0 r.1.middle.view) }
    ensures others { IfOk result (λ r. All (λ s. IsSeatOf r.0 s) r.1.others.items) }
{
    let config = checked_domains(alloc, count)?;
    let (words, owner, middle, others) = seats_of(alloc, &config)?;
    if owner.dom() != OWNER {
        return Err(Stop::NotStarted);
    }
    let seats = Seats {
        owner,
        middle,
        others,
    };
    Ok((words, seats))
}

// Returns the transitive entry that leads to the shared one.
fn via(dom: DomId) -> Entry
    ensures { result ≢ Entry.Invalid }
{
    Entry::Via {
        dom,
        ro: false,
        dom2: OWNER,
        gref: SHARED,
    }
}

// Makes this number of mappers, to each of which the owner grants an entry, with this distance between them.
fn grant_each(
    alloc: Global,
    words: &Words,
    mut owner: Seat,
    mut seats: Vec<Seat>,
    count: usize,
    stride: u32,
) -> Result<Vec<Mapper>, AllocError>
    requires domain { HasDomain words.now.layout OWNER }
    requires owner { IsSeatOf words.now owner × IsUnusedFrom 0 owner.view }
    requires seats { All (λ s. IsSeatOf words.now s) seats.items }
    requires stride { (0 < stride) × (stride < 256) }
    ensures { IfOk result (λ v. All (λ m. CanMap words.now m.seat m.target) v.items) }
{
    let mut mappers = Vec::new(alloc);
    let mut gref = SHARED;
    for _ in 0..count {
        let Some(seat) = seats.pop() else {
            break;
        };
        if gref.0 >= TABLE_ENTRIES {
            break;
        }
        let named = seat.dom();
        let mut row = UNUSED;
        publish(words, &mut owner, gref, &mut row, page(named));
        let target = Target {
            granter: OWNER,
            gref,
            named,
        };
        mappers.push(Mapper { seat, target })?;
        gref = GrantRef(gref.0 + stride);
    }
    Ok(mappers)
}

// Makes a mapper of the shared entry, to which the middle forwards it by a transitive entry, and which keeps that
// pinned.
fn passed_on(words: &Words, middle: &mut Seat, gref: GrantRef, seat: Seat) -> Option<Mapper>
    requires domains { HasDomain words.now.layout OWNER × HasDomain words.now.layout MIDDLE }
    requires middle { IsSeatOf words.now middle.old × IsUnusedFrom gref.0 middle.old.view }
    requires seat { IsSeatOf words.now seat }
    requires reference { gref.0 < TABLE_ENTRIES }
    ensures middle { IsSameSeat middle.old middle.new × IsUnusedFrom (gref.0 + 1) middle.new.view }
    ensures mapper { IfSome result (λ m. CanMap words.now m.seat m.target) }
{
    let target = Target {
        granter: OWNER,
        gref: SHARED,
        named: MIDDLE,
    };
    let mut row = UNUSED;
    publish(words, middle, gref, &mut row, via(seat.dom()));
    through_via(words, seat, gref, target)
}

// Makes this number of mappers of the shared entry.
fn pass_on(
    alloc: Global,
    words: &Words,
    mut middle: Seat,
    mut seats: Vec<Seat>,
    count: usize,
) -> Result<Vec<Mapper>, AllocError>
    requires domains { HasDomain words.now.layout OWNER × HasDomain words.now.layout MIDDLE }
    requires middle { IsSeatOf words.now middle × IsUnusedFrom 0 middle.view }
    requires seats { All (λ s. IsSeatOf words.now s) seats.items }
    ensures { IfOk result (λ v. All (λ m. CanMap words.now m.seat m.target) v.items) }
{
    let mut mappers = Vec::new(alloc);
    for gref in 0..TABLE_ENTRIES {
        if mappers.len() >= count {
            break;
        }
        let Some(seat) = seats.pop() else {
            break;
        };
        let Some(mapper) = passed_on(words, &mut middle, GrantRef(gref), seat) else {
            break;
        };
        mappers.push(mapper)?;
    }
    Ok(mappers)
}

// Lets each mapper map and unmap this number of times, in its own thread. Returns how often they did in all.
fn map_in_threads<R: Threads + Sync>(
    rt: &R,
    words: &Words,
    mappers: Vec<Mapper>,
    rounds: u32,
) -> Result<u64, Stop>
    requires { All (λ m. CanMap words.now m.seat m.target) mappers.items }
{
    let done = thread::map_vec(
        rt,
        mappers,
        &|mapper: Mapper| map_and_unmap(words, mapper, rounds),
    )?;
    Ok(
        done.iter()
            .fold(0, |all, &more| all.saturating_add(u64::from(more))),
    )
}

// Lets the owner of the shared entry do its part of the load. Returns how often it did.
fn take_back_and_grant(words: &Words, owner: Seat, row: Row, load: Load, rounds: u32) -> u32
    requires seat { IsSeatOf words.now owner }
    requires own { (OWNER ≡ owner.dom) × HasDomain words.now.layout OWNER }
    requires row { last_of SHARED.0 owner.view ≡ record { generation = row.generation; entry = row.entry } }
{
    match load {
        Load::Withdrawals => withdraw_and_grant(words, owner, OWNER, SHARED, row, MIDDLE, rounds),
        _ => revoke_and_grant(words, owner, SHARED, row, MIDDLE, rounds),
    }
}

// Lets the owner and the mappers of the shared entry do their parts of the load at the same time.
fn map_beside_owner<R: Threads + Sync>(
    rt: &R,
    words: &Words,
    owner: Seat,
    row: Row,
    plan: Plan,
    mappers: Vec<Mapper>,
) -> Result<u64, Stop>
    requires seat { IsSeatOf words.now owner }
    requires own { (OWNER ≡ owner.dom) × HasDomain words.now.layout OWNER }
    requires row { last_of SHARED.0 owner.view ≡ record { generation = row.generation; entry = row.entry } }
    requires mappers { All (λ m. CanMap words.now m.seat m.target) mappers.items }
{
    let (granted, mapped) = join(
        rt,
        || -> u32
            requires seat { IsSeatOf words.now owner }
            requires own { (OWNER ≡ owner.dom) × HasDomain words.now.layout OWNER }
            requires row { last_of SHARED.0 owner.view ≡ record { generation = row.generation; entry = row.entry } }
        { take_back_and_grant(words, owner, row, plan.load, plan.rounds) },
        || -> Result<u64, Stop>
            requires { All (λ m. CanMap words.now m.seat m.target) mappers.items }
        { map_in_threads(rt, words, mappers, plan.rounds) },
    );
    Ok(mapped?.saturating_add(u64::from(granted)))
}

// Each thread maps its own entry.
fn run_apart<R: Threads + Sync>(
    rt: &R,
    alloc: Global,
    words: &Words,
    seats: Seats,
    plan: Plan,
) -> Result<u64, Stop>
    requires domain { HasDomain words.now.layout OWNER }
    requires owner { IsSeatOf words.now seats.owner × IsUnusedFrom 0 seats.owner.view }
    requires others { All (λ s. IsSeatOf words.now s) seats.others.items }
{
    let stride = match plan.load {
        Load::Adjacent => ADJACENT,
        _ => APART,
    };
    let mappers = grant_each(
        alloc,
        words,
        seats.owner,
        seats.others,
        plan.threads,
        stride,
    )?;
    map_in_threads(rt, words, mappers, plan.rounds)
}

// Threads map one entry, which the owner may take back and grant again beside them.
fn run_shared<R: Threads + Sync>(
    rt: &R,
    alloc: Global,
    words: &Words,
    seats: Seats,
    plan: Plan,
) -> Result<u64, Stop>
    requires domains { HasDomain words.now.layout OWNER × HasDomain words.now.layout MIDDLE }
    requires owner { IsSeatOf words.now seats.owner × IsUnusedFrom 0 seats.owner.view }
    requires own { OWNER ≡ seats.owner.dom }
    requires middle { IsSeatOf words.now seats.middle × IsUnusedFrom 0 seats.middle.view }
    requires others { All (λ s. IsSeatOf words.now s) seats.others.items }
{
    let Seats {
        mut owner,
        middle,
        others,
    } = seats;
    let mut row = UNUSED;
    if !publish(words, &mut owner, SHARED, &mut row, page(MIDDLE)) {
        return Err(Stop::NotGranted);
    }
    let owns = !matches!(plan.load, Load::One);
    let count = plan.threads.saturating_sub(usize::from(owns));
    let mappers = pass_on(alloc, words, middle, others, count)?;
    if owns {
        map_beside_owner(rt, words, owner, row, plan, mappers)
    } else {
        map_in_threads(rt, words, mappers, plan.rounds)
    }
}

/// Runs a load in this number of threads of a run of this number of domains, with this number of rounds per thread.
/// Returns the number of rounds of all threads.
pub(crate) fn run<R: Threads + Sync>(
    rt: &R,
    alloc: Global,
    plan: Plan,
    domains: u16,
) -> Result<u64, Stop> {
    let (words, seats) = start(alloc, domains)?;
    match plan.load {
        Load::Apart | Load::Adjacent => run_apart(rt, alloc, &words, seats, plan),
        Load::One | Load::Grants | Load::Withdrawals => run_shared(rt, alloc, &words, seats, plan),
    }
}
