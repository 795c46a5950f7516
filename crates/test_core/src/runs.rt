//! Whole runs: the actions, with the expected result of each.
mod accesses;
mod copies;
mod tables;
mod via;

use self::accesses::{
    ORDER_OF_ACCESSES, SHARED_PAGE, STORE_BY_A_TAKEN_HANDLE, STORE_WITH_ITS_STEP,
};
use self::copies::COPIES;
use self::tables::{
    NOT_MAPPED, SIZES, STEPS_OF_GRANTS, STEPS_ON_HEADERS, SUB_PAGE_BEHIND_AN_OLDER_HEADER,
    VERSION_IN_A_MAP,
};
use crate::doing::Doing::{Begin, Do, Show, Tick};
use crate::doing::{OTHER, OWNER, PEER, READ_ONLY, Row, WRITABLE, grant, load, map, said, start};
use crate::pins::{ALL_READ_PINS, BEHIND_ALL_READ_PINS};
use gt_core::{Core, Handle, Request};
use gt_entry::Entry;
use gt_types::{DomId, GrantRef, Memory, StartFault, Triples};
use std::alloc::Global;
use std::process::Abort;
use test_rows::page;

/// A run: the version of the tables, the pairs of domains that may be copied from and to, the first actions, and the
/// others.
pub type Run = (
    u32,
    &'static [(DomId, DomId)],
    &'static [Row],
    &'static [Row],
);

// The calls on the owner's entry 0. Most use a page entry with frame 5, for the peer.
pub const GRANT: Request = grant!(0, page!(PEER, false, 5));

pub const GRANT_RO: Request = grant!(0, page!(PEER, true, 5));

pub const REVOKE: Request = Request::Revoke { gref: GrantRef(0) };

pub const DEMOTE: Request = Request::Demote { gref: GrantRef(0) };

pub const PROMOTE: Request = Request::Promote { gref: GrantRef(0) };

pub const MAP_RO: Request = map!(0, READ_ONLY);

pub const MAP_RW: Request = map!(0, WRITABLE);

// The first mapping of a domain has the first handle. A key is used again once its mapping was unmapped.
pub const FIRST_HANDLE: Handle = Handle { serial: 0, key: 0 };

pub const SECOND_HANDLE: Handle = Handle { serial: 1, key: 0 };

// A handle that was never given.
pub const STRANGE: Handle = Handle {
    serial: u64::MAX,
    key: 0,
};

pub const UNMAP: Request = Request::Unmap {
    handle: FIRST_HANDLE,
};

const RELEASE: Request = Request::Release {
    handle: FIRST_HANDLE,
};

const UNMAP_SECOND: Request = Request::Unmap {
    handle: SECOND_HANDLE,
};

// Another page in the same entry.
pub const GRANT_ANOTHER: Request = grant!(0, page!(PEER, false, 6));

// The first actions of most runs: a grant, or a grant and a map of it.
pub const GRANTED: [Row; 1] = [(Do(OWNER, GRANT), "ok")];

pub const GRANTED_RO: [Row; 1] = [(Do(OWNER, GRANT_RO), "ok")];

const MAPPED_RO: [Row; 2] = [(Do(OWNER, GRANT), "ok"), (Do(PEER, MAP_RO), "ok 0.0")];

pub const MAPPED_RW: [Row; 2] = [(Do(OWNER, GRANT), "ok"), (Do(PEER, MAP_RW), "ok 0.0")];

// Three tries of a map are missed, each because of a demotion or promotion after its look.
const THREE_MISSED_TRIES: [Row; 9] = [
    (Do(OWNER, GRANT), "ok"),
    (Begin(PEER, MAP_RO), "open"),
    (Tick(PEER, 2), "open"),
    (Do(OWNER, DEMOTE), "ok"),
    (Tick(PEER, 3), "open"),
    (Do(OWNER, PROMOTE), "ok"),
    (Tick(PEER, 3), "open"),
    (Do(OWNER, DEMOTE), "ok"),
    (Tick(PEER, 3), "open"),
];

// A revocation between the beginning and the unpin of an unmap.
const REVOKE_BEFORE_THE_UNPIN: [Row; 4] = [
    (Begin(PEER, UNMAP), "open"),
    (Do(OWNER, REVOKE), "N19 100020010001"),
    (Tick(PEER, 1), "ok"),
    (Do(OWNER, REVOKE), "ok"),
];

// Another page is granted between the look and the pin of a map.
const ANOTHER_GRANT_BEFORE_THE_PIN: [Row; 7] = [
    (Begin(PEER, MAP_RO), "open"),
    (Tick(PEER, 3), "open"),
    (Do(OWNER, REVOKE), "ok"),
    (Do(OWNER, GRANT_ANOTHER), "ok"),
    (Tick(PEER, 3), "open"),
    (Tick(PEER, 1), "ok 0.0"),
    (
        Show(0),
        "Page { dom: DomId(2), ro: false, frame: 6 } gen=2 reads=1 writes=0 status=8",
    ),
];

// A map before the grant of a read-only page, and one after it.
const READ_ONLY_PAGE: [Row; 4] = [
    (Do(PEER, MAP_RO), "N10 0"),
    (Do(OWNER, GRANT_RO), "ok"),
    (Do(PEER, MAP_RO), "ok 0.0"),
    (
        Show(0),
        "Page { dom: DomId(2), ro: true, frame: 5 } gen=1 reads=1 writes=0 status=8",
    ),
];

// The check for the domain comes before the one for read-only.
const ANOTHER_DOMAIN: [Row; 2] = [
    (Do(OTHER, MAP_RW), "N11 100020000005"),
    (Do(PEER, MAP_RW), "N13 100020000005"),
];

// The fourth try is missed too.
const FOUR_MISSED_TRIES: [Row; 3] = [
    (Do(OWNER, PROMOTE), "ok"),
    (Tick(PEER, 2), "N18 500020000001"),
    (
        Show(0),
        "Page { dom: DomId(2), ro: false, frame: 5 } gen=5 reads=0 writes=0 status=0",
    ),
];

// The fourth try pins.
const FOURTH_TRY: [Row; 2] = [
    (Tick(PEER, 2), "ok 0.0"),
    (
        Show(0),
        "Page { dom: DomId(2), ro: true, frame: 5 } gen=4 reads=1 writes=0 status=8",
    ),
];

// A frame, and references, beyond the last ones.
const PAST_THE_LAST: [Row; 5] = [
    (Do(OWNER, grant!(0, page!(PEER, false, 8))), "ok"),
    (Do(PEER, MAP_RO), "N16 100020000001"),
    (Do(PEER, map!(512, READ_ONLY)), "N9 5"),
    (Do(PEER, map!(511, READ_ONLY)), "N10 0"),
    (Show(512), "none"),
];

// A demotion leaves a read pin, and a second one changes nothing.
const DEMOTED_UNDER_A_PIN: [Row; 5] = [
    (Do(OWNER, DEMOTE), "ok"),
    (Do(OWNER, DEMOTE), "ok"),
    (Do(PEER, load!(FIRST_HANDLE, 0, 1)), "ok [0]"),
    (Do(PEER, MAP_RW), "N13 200020000015"),
    (
        Show(0),
        "Page { dom: DomId(2), ro: true, frame: 5 } gen=2 reads=1 writes=0 status=8",
    ),
];

// A handle that was unmapped names no later mapping, though its key is used again.
const TAKEN_HANDLE: [Row; 7] = [
    (Do(PEER, UNMAP), "ok"),
    (Do(PEER, MAP_RO), "ok 1.0"),
    (Do(PEER, load!(FIRST_HANDLE, 0, 1)), "N6"),
    (Do(PEER, UNMAP), "N6"),
    (Do(PEER, load!(SECOND_HANDLE, 0, 1)), "ok [0]"),
    (Do(PEER, UNMAP_SECOND), "ok"),
    (Do(PEER, UNMAP_SECOND), "N6"),
];

// A release asks no policy. The owner may map the peer's page, and may not unmap it.
const RELEASED_WITHOUT_A_RIGHT: [Row; 8] = [
    (Do(PEER, grant!(0, page!(OWNER, true, 5))), "ok"),
    (
        Do(
            OWNER,
            Request::Map {
                dom: PEER,
                gref: GrantRef(0),
                flags: READ_ONLY,
            },
        ),
        "ok 0.0",
    ),
    (Do(OWNER, UNMAP), "N5 source=1 target=2 Perms(4)"),
    (Begin(OWNER, RELEASE), "open"),
    (Do(PEER, REVOKE), "N19 100010000015"),
    (Tick(OWNER, 1), "ok"),
    (Do(OWNER, RELEASE), "N6"),
    (Do(PEER, REVOKE), "ok"),
];

// Each run with the version of the tables. No bytes may be copied from one domain to another. A long table costs more
// than two short ones.
static RUNS: [Run; 11] = [
    (1, &[], &[], &RELEASED_WITHOUT_A_RIGHT),
    (1, &[], &MAPPED_RW, &REVOKE_BEFORE_THE_UNPIN),
    (1, &[], &GRANTED, &ANOTHER_GRANT_BEFORE_THE_PIN),
    (1, &[], &[], &READ_ONLY_PAGE),
    (1, &[], &GRANTED_RO, &ANOTHER_DOMAIN),
    (1, &[], &THREE_MISSED_TRIES, &FOUR_MISSED_TRIES),
    (1, &[], &THREE_MISSED_TRIES, &FOURTH_TRY),
    (1, &[], &[], &PAST_THE_LAST),
    (1, &[], &MAPPED_RO, &DEMOTED_UNDER_A_PIN),
    (1, &[], &MAPPED_RO, &TAKEN_HANDLE),
    (1, &[], &ALL_READ_PINS, &BEHIND_ALL_READ_PINS),
];

static ACCESSES: [Run; 4] = [
    (1, &[], &MAPPED_RW, &SHARED_PAGE),
    (1, &[], &MAPPED_RO, &ORDER_OF_ACCESSES),
    (1, &[], &MAPPED_RW, &STORE_BY_A_TAKEN_HANDLE),
    (1, &[], &MAPPED_RW, &STORE_WITH_ITS_STEP),
];

static TABLES: [Run; 6] = [
    (1, &[], &[], &VERSION_IN_A_MAP),
    (2, &[], &[], &SIZES),
    (2, &[], &[], &NOT_MAPPED),
    (1, &[], &[], &SUB_PAGE_BEHIND_AN_OLDER_HEADER),
    (1, &[], &[], &STEPS_ON_HEADERS),
    (2, &[], &[], &STEPS_OF_GRANTS),
];

// Plays a part of a run, and compares the result of each action.
fn goes(
    rt: &impl Abort,
    core: &mut Core<Triples>,
    alloc: Global,
    rows: &[Row],
) -> Result<(), Memory> {
    for (doing, wanted) in rows {
        let text = said(alloc, core, *doing)?;
        assert_eq!(rt; text.as_str(), *wanted);
    }
    Ok(())
}

// Plays both parts of a run.
fn goes_twice(
    rt: &impl Abort,
    core: &mut Core<Triples>,
    alloc: Global,
    run: &Run,
) -> Result<(), Memory> {
    goes(rt, core, alloc, run.2)?;
    goes(rt, core, alloc, run.3)
}

// Plays a run on its own core.
fn run_goes(rt: &impl Abort, alloc: Global, run: &Run) -> Result<(), StartFault> {
    let mut core = start(alloc, run.0, run.1)?;
    goes_twice(rt, &mut core, alloc, run)?;
    Ok(())
}

/// Plays each run on its own core.
pub fn all_go(rt: &impl Abort, alloc: Global, runs: &[Run]) {
    for run in runs {
        assert_eq!(rt; run_goes(rt, alloc, run), Ok(()));
    }
}

// Returns the table. A function that names a table lists it in each of its states, so that no other one does.
fn all_runs() -> &'static [Run] {
    &RUNS
}

#[test]
fn runs_go_as_they_must(rt: HostRuntime) {
    all_go(&rt, rt.alloc(), all_runs());
}

fn all_accesses() -> &'static [Run] {
    &ACCESSES
}

#[test]
fn accesses_go_as_they_must(rt: HostRuntime) {
    all_go(&rt, rt.alloc(), all_accesses());
}

fn all_tables() -> &'static [Run] {
    &TABLES
}

#[test]
fn tables_go_as_they_must(rt: HostRuntime) {
    all_go(&rt, rt.alloc(), all_tables());
}

fn all_copies() -> &'static [Run] {
    &COPIES
}

#[test]
fn copies_go_as_they_must(rt: HostRuntime) {
    all_go(&rt, rt.alloc(), all_copies());
}
