//! Copies through transitive entries.
use super::REVOKE;
use super::copies::{FRAME_0, PEER_0, SOURCE};
use crate::doing::Doing::{Begin, Do, Steps, Tick};
use crate::doing::{OTHER, OWNER, PEER, Row, grant, peek, poke};
use gt_core::Request::Copy;
use gt_core::{CopyArgs, End, Request};
use gt_entry::Entry;
use gt_types::{DomId, GrantRef};
use test_rows::{copy, end, page, via};

// The owner's entry 4.
const GRANT_PAGE: Request = grant!(4, page!(PEER, false, 6));

const POKE: Request = poke!(6, 0, &[0x5a]);

// The peer's entry 0, which leads to the owner's entry 4.
const GRANT_VIA: Request = grant!(0, via!(OTHER, true, OWNER, GrantRef(4)));

// A copy of one byte through the peer's entry 0.
const COPY: Request = Copy(copy!(PEER_0, FRAME_0, 1, SOURCE));

// A copy through a transitive entry is open.
pub const COPY_IS_OPEN: [Row; 4] = [
    (Do(OWNER, GRANT_PAGE), "ok"),
    (Do(OWNER, POKE), "ok"),
    (Do(PEER, GRANT_VIA), "ok"),
    (Begin(OTHER, COPY), "open"),
];

// The transitive entry is pinned until its copy has released its pins.
pub const REVOKED_BEHIND_A_COPY: [Row; 8] = [
    (Tick(OTHER, 4), "open"),
    (Do(PEER, REVOKE), "N19 100030000017"),
    (Tick(OTHER, 5), "open"),
    (Do(PEER, REVOKE), "N19 100030000017"),
    (Tick(OTHER, 2), "ok"),
    (Do(OTHER, peek!(0, 0, 1)), "ok [90]"),
    (Do(PEER, REVOKE), "ok"),
    (Do(OTHER, COPY), "N10 100000000000"),
];

// It is revoked between the look and the pin of the copy.
pub const REVOKED_BEFORE_THE_PIN: [Row; 5] = [
    (Tick(OTHER, 2), "open"),
    (Do(PEER, REVOKE), "ok"),
    (Tick(OTHER, 2), "open"),
    (Tick(OTHER, 1), "N10 100000000000"),
    (Do(OTHER, peek!(0, 0, 1)), "ok [0]"),
];

// A transitive entry leads to another one.
pub const VIA_TO_A_VIA: [Row; 5] = [
    (
        Do(OWNER, grant!(4, via!(PEER, false, OTHER, GrantRef(0)))),
        "ok",
    ),
    (
        Do(PEER, grant!(0, via!(OTHER, false, OWNER, GrantRef(4)))),
        "ok",
    ),
    (
        Steps(OTHER, COPY),
        "H 2 6; C 2 0 100030000003; B 2 0 First 40001; P 2 0 Read taken; \
         H 1 6; C 1 4 100020000003; \
         U 2 0 Read -; N15 100020000003",
    ),
    (Do(PEER, REVOKE), "ok"),
    (Do(OWNER, Request::Revoke { gref: GrantRef(4) }), "ok"),
];

// The owner after a transitive entry may be copied from.
pub const OWNERS_MAY: [Row; 4] = [
    (Do(OWNER, grant!(4, page!(PEER, true, 6))), "ok"),
    (Do(PEER, GRANT_VIA), "ok"),
    (
        Steps(OTHER, COPY),
        "H 2 6; C 2 0 100030000007; B 2 0 First 40001; P 2 0 Read taken; \
         H 1 6; C 1 4 100020000005; B 1 4 First 6; P 1 4 Read taken; \
         A 1 6 0 to 3 0 0 len 1 -; U 1 4 Read -; U 2 0 Read -; ok",
    ),
    (Do(PEER, REVOKE), "ok"),
];

// A transitive entry leads to a domain that does not exist.
pub const VIA_TO_NO_DOMAIN: [Row; 3] = [
    (
        Do(PEER, grant!(1, via!(OTHER, true, DomId(9), GrantRef(0)))),
        "ok",
    ),
    (
        Steps(OTHER, Copy(copy!(end!(1, PEER, 0), FRAME_0, 1, SOURCE))),
        "H 2 6; C 2 1 100030000007; B 2 1 First 9; P 2 1 Read taken; \
         U 2 1 Read -; N1",
    ),
    (Do(PEER, Request::Revoke { gref: GrantRef(1) }), "ok"),
];

// The page to which a transitive entry leads must be for the owner of that entry.
pub const VIA_TO_ANOTHERS_PAGE: [Row; 3] = [
    (Do(OWNER, grant!(4, page!(OTHER, true, 6))), "ok"),
    (Do(PEER, GRANT_VIA), "ok"),
    (Do(OTHER, COPY), "N11 100030000005"),
];
