//! Trails, and a log that threads share.
use gt_audit::{DomainLog, Hypercall, MOST_RESERVED, Record, Reply, SharedLog, Trail};
use gt_types::{DomId, Memory};
use std::alloc::{AllocError, Global};
use std::process::Abort;
use std::sync::Wait;
use std::thread;
use std::thread::Threads;

const RECORDS: u64 = 1000;

// Returns a record that differs from that of every other domain and number.
fn record(dom: u16, number: u64) -> Record {
    Record {
        dom: DomId(dom),
        call: Hypercall::SetVersion {
            version: (number % 65_536) as u32,
        },
        reply: Reply::Done,
    }
}

// Counts the records that have the numbers from 0 on.
fn in_order(dom: u16, records: &[Record]) -> u64 {
    let mut same: u64 = 0;
    for (number, told) in records.iter().enumerate() {
        if *told == record(dom, number as u64) {
            same = same.wrapping_add(1);
        }
    }
    same
}

// Counts the numbers from 0 on under which a trail has the record of this number.
fn found(trail: &Trail) -> u64 {
    let mut same: u64 = 0;
    for index in 0..trail.len() {
        if trail.get(index) == Some(record(1, index as u64)) {
            same = same.wrapping_add(1);
        }
    }
    same
}

// What a trail shows: the number of its records, how many it lists, how many of those have the numbers from 0 on, how
// many are found under these, and how many it lost; whether it is empty, and the record after the last one.
type Shown = ([u64; 5], bool, Option<Record>);

fn shown(trail: &Trail) -> Result<Shown, Memory> {
    let records = trail.records()?;
    let counts = [
        trail.len() as u64,
        records.len() as u64,
        in_order(1, records.as_slice()),
        found(trail),
        trail.lost(),
    ];
    Ok((counts, trail.is_empty(), trail.get(trail.len())))
}

// An action on a trail.
#[derive(Clone, Copy)]
enum Doing {
    /// Records are pushed, from this number up to the other one.
    Push(u64, u64),
    KeepAtMost(usize),
    /// Room is made for this many records.
    Reserve(usize),
}

// Takes the action. Returns whether it succeeds.
fn done(trail: &mut Trail, doing: Doing) -> bool {
    match doing {
        Doing::Push(from, to) => {
            for number in from..to {
                trail.push(record(1, number));
            }
            true
        }
        Doing::KeepAtMost(records) => {
            trail.keep_at_most(records);
            true
        }
        Doing::Reserve(records) => trail.reserve(records).is_ok(),
    }
}

// An action, whether it succeeds, and the counts of the trail after it.
type Row = (Doing, bool, [u64; 5]);

const EACH_RECORD: [Row; 1] = [(Doing::Push(0, RECORDS), true, [1000, 1000, 1000, 1000, 0])];

const NO_MORE_THAN_IT_MAY: [Row; 6] = [
    (Doing::Reserve(4), true, [0, 0, 0, 0, 0]),
    (Doing::Push(0, 1), true, [1, 1, 1, 1, 0]),
    (Doing::KeepAtMost(2), true, [1, 1, 1, 1, 0]),
    (Doing::Push(1, 5), true, [2, 2, 2, 2, 3]),
    (Doing::KeepAtMost(3), true, [2, 2, 2, 2, 3]),
    (Doing::Push(5, 6), true, [3, 3, 2, 2, 3]),
];

// Too much room is refused before any is taken.
const TOO_MUCH_ROOM: [Row; 3] = [
    (Doing::Reserve(MOST_RESERVED + 1), false, [0, 0, 0, 0, 0]),
    (Doing::Reserve(usize::MAX), false, [0, 0, 0, 0, 0]),
    (Doing::Push(0, 1), true, [1, 1, 1, 1, 0]),
];

// More than a million records.
const MUCH_ROOM: [Row; 2] = [
    (Doing::Reserve(1_000_001), true, [0, 0, 0, 0, 0]),
    (Doing::Push(0, 1), true, [1, 1, 1, 1, 0]),
];

static TRAILS: [&[Row]; 4] = [
    &EACH_RECORD,
    &NO_MORE_THAN_IT_MAY,
    &TOO_MUCH_ROOM,
    &MUCH_ROOM,
];

// Takes the actions, and compares what the trail shows after each.
fn goes(rt: &impl Abort, trail: &mut Trail, rows: &[Row]) {
    for (doing, succeeds, counts) in rows {
        let told = (done(trail, *doing), shown(trail));
        let wanted = (*counts, counts[0] == 0, None);
        assert_eq!(rt; told, (*succeeds, Ok(wanted)));
    }
}

#[test]
fn trails_keep_what_they_may(rt: HostRuntime) {
    for rows in TRAILS.iter() {
        goes(&rt, &mut Trail::new(rt.alloc()), rows);
    }
}

// Takes a trail that has lost records, and again the next ones, into the one that was taken. Returns what the one taken
// and the one left show, both times.
fn taken_twice(alloc: Global) -> [Result<Shown, Memory>; 4] {
    let mut trail = Trail::new(alloc);
    trail.keep_at_most(600);
    let _ = done(&mut trail, Doing::Push(0, RECORDS));
    let mut taken = trail.take(Trail::new(alloc));
    let first = (shown(&taken), shown(&trail));
    let _ = done(&mut trail, Doing::Push(0, 3));
    taken.clear();
    let again = trail.take(taken);
    [first.0, first.1, shown(&again), shown(&trail)]
}

#[test]
fn what_was_taken_and_what_is_left_are_all(rt: HostRuntime) {
    let left = Ok(([0, 0, 0, 0, 0], true, None));
    assert_eq!(rt;
        taken_twice(rt.alloc()),
        [
            Ok(([600, 600, 600, 600, 400], false, None)),
            left,
            Ok(([3, 3, 3, 3, 0], false, None)),
            left,
        ]
    );
}

// Pushes records, and counts those that their token and a look under their number return.
fn pushes<R: Wait>(rt: &R, log: &SharedLog, dom: u16) -> u64 {
    let mut same: u64 = 0;
    for number in 0..RECORDS {
        let wanted = record(dom, number);
        if let Ok(token) = log.push(rt, DomId(dom), number, wanted) {
            if log.get(&token) == wanted && log.find(DomId(dom), number) == Some(wanted) {
                same = same.wrapping_add(1);
            }
        }
    }
    same
}

fn both<R: Threads + Wait + Sync>(rt: &R, log: &SharedLog) -> (u64, u64) {
    thread::join(rt, || pushes(rt, log, 1), || pushes(rt, log, 2))
}

// Returns the counts of both threads, and whether the log has their last record and the one after it.
fn pushed_by_both<R: Threads + Wait + Sync>(
    rt: &R,
    alloc: Global,
) -> Result<((u64, u64), [bool; 2]), AllocError> {
    let log = SharedLog::new(alloc)?;
    let counts = both(rt, &log);
    let found = [
        log.find(DomId(1), 999).is_some(),
        log.find(DomId(1), RECORDS).is_some(),
    ];
    Ok((counts, found))
}

#[test]
fn two_threads_push(rt: HostRuntime) {
    assert_eq!(rt;
        pushed_by_both(&rt, rt.alloc()),
        Ok(((RECORDS, RECORDS), [true, false]))
    );
}

// Pushes records by the log of a domain. Returns how many records that log lists, how many of those have the numbers
// from 0 on, and how many it lost.
fn told<R: Wait>(rt: &R, alloc: Global, log: &SharedLog) -> Result<[u64; 3], AllocError> {
    let mut told = DomainLog::new(alloc, log, DomId(2));
    for number in 0..RECORDS {
        told.push(rt, number, record(2, number));
    }
    let records = told.records(alloc)?;
    Ok([
        records.len() as u64,
        in_order(2, records.as_slice()),
        told.lost(),
    ])
}

// Returns the same, the record that the log has under the number 1, and the number of its records.
fn told_alone<R: Wait>(
    rt: &R,
    alloc: Global,
) -> Result<([u64; 3], Option<Record>, usize), AllocError> {
    let log = SharedLog::new(alloc)?;
    let counts = told(rt, alloc, &log)?;
    Ok((counts, log.find(DomId(2), 1), log.count()))
}

#[test]
fn a_domain_tells_its_records(rt: HostRuntime) {
    assert_eq!(rt;
        told_alone(&rt, rt.alloc()),
        Ok(([RECORDS, RECORDS, 0], Some(record(2, 1)), 1000))
    );
}

// More records than any other test pushes into a log.
const MANY: u64 = 3000;

// Pushes one record of each of two domains under each number.
fn fill<R: Wait>(rt: &R, log: &SharedLog) -> bool {
    let mut all = true;
    for number in 0..MANY {
        all = all
            && log.push(rt, DomId(1), number, record(1, number)).is_ok()
            && log.push(rt, DomId(2), number, record(2, number)).is_ok();
    }
    all
}

// Counts the numbers, from 900 in steps of 50, under which a domain's own record is found.
fn count_found(log: &SharedLog, dom: u16) -> u64 {
    let mut found: u64 = 0;
    for step in 0..42u64 {
        let number = 900 + step * 50;
        if log.find(DomId(dom), number) == Some(record(dom, number)) {
            found = found.wrapping_add(1);
        }
    }
    found
}

// What a long log shows: whether each record was pushed, the number of its records, how many of each domain are found,
// and those of the second domain under the last number and the one after it.
type Long = (bool, u64, [u64; 2], [Option<Record>; 2]);

fn long_log<R: Wait>(rt: &R, alloc: Global) -> Result<Long, AllocError> {
    let log = SharedLog::new(alloc)?;
    let is_full = fill(rt, &log);
    let found = [count_found(&log, 1), count_found(&log, 2)];
    let ends = [log.find(DomId(2), MANY - 1), log.find(DomId(2), MANY)];
    Ok((is_full, log.count() as u64, found, ends))
}

#[test]
fn records_are_found_in_a_long_log(rt: HostRuntime) {
    assert_eq!(rt;
        long_log(&rt, rt.alloc()),
        Ok((true, 2 * MANY, [42, 42], [Some(record(2, MANY - 1)), None]))
    );
}
