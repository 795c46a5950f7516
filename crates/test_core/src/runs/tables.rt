//! Tables: versions, sizes, entries by their bytes, and the steps on headers and of grants.
use super::MAP_RO;
use crate::doing::Doing::{Begin, Do, Steps, Tick};
use crate::doing::{OTHER, OWNER, PEER, READ_ONLY, Row, grant, map};
use gt_core::Request;
use gt_entry::Entry;
use gt_types::{DomId, GrantRef};
use test_rows::{sub, via};

// Part of a page.
pub const GRANT_PART: Request = grant!(0, sub!(PEER, 5, 100, 50));

const MAP_300: Request = map!(300, READ_ONLY);

const MAP_256: Request = map!(256, READ_ONLY);

// A sub-page entry of a whole page.
const GRANT_SUB: Request = grant!(0, sub!(PEER, 5, 0, 4096));

const GRANT_VIA: Request = grant!(1, via!(PEER, false, OTHER, GrantRef(7)));

// The owner's calls on its table, and the peer's queries.
const VERSION_1: Request = Request::SetVersion { version: 1 };

const VERSION_2: Request = Request::SetVersion { version: 2 };

const SETUP_0: Request = Request::SetupTable { frames: 0 };

const SETUP_3: Request = Request::SetupTable { frames: 3 };

const QUERY_SIZE: Request = Request::QuerySize { dom: OWNER };

const GET_VERSION: Request = Request::GetVersion { dom: OWNER };

// The version changes between the header and the control word that a map looks at.
pub const VERSION_IN_A_MAP: [Row; 5] = [
    (Begin(PEER, MAP_300), "open"),
    (Tick(PEER, 1), "open"),
    (Do(OWNER, VERSION_2), "ok"),
    (Tick(PEER, 1), "N10 0"),
    (Do(PEER, MAP_300), "N9 6"),
];

// The sizes of a table.
pub const SIZES: [Row; 7] = [
    (Do(PEER, MAP_256), "N9 6"),
    (Do(OWNER, Request::SetupTable { frames: 2 }), "ok frames=2"),
    (Do(PEER, QUERY_SIZE), "ok frames=2 max=16"),
    (Do(PEER, MAP_256), "N10 0"),
    (Do(OWNER, SETUP_0), "ok frames=2"),
    (Do(OWNER, Request::SetupTable { frames: 17 }), "N23"),
    (Do(PEER, Request::QuerySize { dom: DomId(9) }), "N1"),
];

// Sub-pages and transitive entries cannot be mapped.
pub const NOT_MAPPED: [Row; 4] = [
    (Do(OWNER, GRANT_SUB), "ok"),
    (Do(OWNER, GRANT_VIA), "ok"),
    (Do(PEER, MAP_RO), "N12 100020000009"),
    (Do(PEER, map!(1, READ_ONLY)), "N12 100020000003"),
];

// A map looks at the older header, and then meets a sub-page.
pub const SUB_PAGE_BEHIND_AN_OLDER_HEADER: [Row; 5] = [
    (Begin(PEER, MAP_RO), "open"),
    (Tick(PEER, 1), "open"),
    (Do(OWNER, VERSION_2), "ok"),
    (Do(OWNER, GRANT_SUB), "ok"),
    (Tick(PEER, 1), "N12 100020000009"),
];

// Calls on tables: one step each, and none if they change nothing.
pub const STEPS_ON_HEADERS: [Row; 10] = [
    (Steps(PEER, QUERY_SIZE), "H 1 5; ok frames=1 max=16"),
    (Steps(OWNER, VERSION_2), "S 2 1 -; ok"),
    (Steps(PEER, GET_VERSION), "H 1 6; ok version=2"),
    (Steps(OWNER, SETUP_3), "S 2 3 -; ok frames=3"),
    (Steps(PEER, QUERY_SIZE), "H 1 e; ok frames=3 max=16"),
    (Steps(OWNER, VERSION_1), "S 1 3 -; ok"),
    (Steps(PEER, GET_VERSION), "H 1 d; ok version=1"),
    (Steps(OWNER, VERSION_1), "ok"),
    (Steps(OWNER, SETUP_3), "ok frames=3"),
    (Steps(OWNER, SETUP_0), "ok frames=3"),
];

// A grant stores the body words, and then publishes.
pub const STEPS_OF_GRANTS: [Row; 3] = [
    (
        Steps(OWNER, GRANT_PART),
        "W 0 First 5 -; \
         W 0 Second 3276900 -; \
         E 0 0 Publish(Sub { dom: DomId(2), ro: false, frame: 5, off: 100, len: 50 }) taken; ok",
    ),
    (
        Steps(OWNER, GRANT_VIA),
        "W 1 First 458755 -; \
         E 1 0 Publish(Via { dom: DomId(2), ro: false, dom2: DomId(3), gref: GrantRef(7) }) taken; ok",
    ),
    (
        Steps(
            OWNER,
            Request::GrantBytes {
                gref: GrantRef(2),
                bytes: &[1, 1, 2, 0, 100, 0, 50, 0, 5, 0, 0, 0, 0, 0, 0, 0],
            },
        ),
        "W 2 First 5 -; \
         W 2 Second 3276900 -; \
         E 2 0 Publish(Sub { dom: DomId(2), ro: false, frame: 5, off: 100, len: 50 }) taken; ok",
    ),
];
