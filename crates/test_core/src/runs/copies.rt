//! Copies: by pages, by parts of pages and through transitive entries, with their steps.
use super::tables::GRANT_PART;
use super::via::{
    COPY_IS_OPEN, OWNERS_MAY, REVOKED_BEFORE_THE_PIN, REVOKED_BEHIND_A_COPY, VIA_TO_A_VIA,
    VIA_TO_ANOTHERS_PAGE, VIA_TO_NO_DOMAIN,
};
use super::{GRANTED, GRANTED_RO, REVOKE, Run};
use crate::doing::Doing::{Do, Steps};
use crate::doing::{OTHER, OWNER, PEER, Row, grant, peek, poke};
use gt_core::Request::{Copy, Probe};
use gt_core::{CopyArgs, End, Request};
use gt_entry::Entry;
use gt_types::{DomId, GrantRef};
use test_rows::{copy, end, page};

// The caller's own domain (`DOMID_SELF`), in a request.
pub const SELF: DomId = DomId(0x7FF0);

// The flags of a copy: which of its ends are named by a grant reference.
pub const NONE: u16 = 0;

pub const SOURCE: u16 = 1;

pub const BOTH: u16 = 3;

// The ends of most copies: the owner's entry 0, the peer's entry 0, and frames of the caller's own.
pub const OWNER_0: End = end!(0, OWNER, 0);

pub const PEER_0: End = end!(0, PEER, 0);

pub const FRAME_0: End = end!(0, SELF, 0);

pub const FRAME_3: End = end!(3, SELF, 0);

// A copy of this number of bytes, starting at this offset of the owner's entry 0, to frame 3 of the caller's own.
macro_rules! fetch {
    ($offset:expr, $len:expr) => {
        Copy(copy!(end!(0, OWNER, $offset), FRAME_3, $len, SOURCE))
    };
}

// A page can be copied up to its last byte, and not beyond it. A copy of no bytes at its end is Ok.
const PAGE: [Row; 6] = [
    (Do(OWNER, poke!(5, 4094, &[0xab, 0xcd])), "ok"),
    (Do(PEER, fetch!(0, 4096)), "ok"),
    (Do(PEER, peek!(3, 4093, 3)), "ok [0, 171, 205]"),
    (Do(PEER, fetch!(1, 4096)), "N3"),
    (
        Do(
            PEER,
            Copy(copy!(end!(0, OWNER, 4096), end!(3, SELF, 4096), 0, SOURCE)),
        ),
        "ok",
    ),
    (Do(OWNER, REVOKE), "ok"),
];

// Part of a page can be copied only inside its bytes.
const SUB_PAGE: [Row; 6] = [
    (Do(OWNER, GRANT_PART), "ok"),
    (
        Steps(PEER, fetch!(100, 50)),
        "H 1 6; C 1 0 100020000009; B 1 0 First 5; B 1 0 Second 320064; P 1 0 Read taken; \
         A 1 5 100 to 2 3 0 len 50 -; U 1 0 Read -; ok",
    ),
    (Do(PEER, fetch!(149, 2)), "N14 100020000009"),
    (Do(PEER, fetch!(150, 0)), "ok"),
    (Do(PEER, fetch!(151, 0)), "N14 100020000009"),
    (Do(PEER, fetch!(99, 0)), "N14 100020000009"),
];

// The destination is read-only, so the pin of the source is released.
const READ_ONLY_DEST: [Row; 3] = [
    (Do(OWNER, grant!(1, page!(PEER, true, 6))), "ok"),
    (
        Steps(PEER, Copy(copy!(OWNER_0, end!(1, OWNER, 0), 4, BOTH))),
        "H 1 5; C 1 0 100020000005; B 1 0 First 5; P 1 0 Read taken; \
         H 1 5; C 1 1 100020000005; \
         U 1 0 Read -; N13 100020000005",
    ),
    (Do(OWNER, REVOKE), "ok"),
];

// A probe makes the steps of its copy without the access.
const PROBED: [Row; 5] = [
    (Do(OWNER, poke!(5, 0, &[1, 2, 3, 4])), "ok"),
    (
        Steps(PEER, Probe(copy!(OWNER_0, FRAME_3, 4, SOURCE))),
        "H 1 5; C 1 0 100020000001; B 1 0 First 5; P 1 0 Read taken; U 1 0 Read -; ok",
    ),
    (Do(PEER, Probe(copy!(FRAME_0, FRAME_3, 4, NONE))), "ok"),
    (Do(PEER, peek!(3, 0, 4)), "ok [0, 0, 0, 0]"),
    (Do(OWNER, REVOKE), "ok"),
];

// The check for an unknown domain comes before the one for unknown flags.
const FLAGS: [Row; 2] = [
    (Do(PEER, Copy(copy!(OWNER_0, FRAME_3, 1, 4))), "N2"),
    (
        Do(PEER, Copy(copy!(end!(0, DomId(9), 0), FRAME_3, 1, 4))),
        "N1",
    ),
];

// A frame of another domain cannot be named by its number.
const FOREIGN_FRAME: [Row; 1] = [(
    Do(PEER, Copy(copy!(end!(5, OWNER, 0), FRAME_3, 1, NONE))),
    "N4",
)];

// A copy onto an overlapping range writes the bytes that were there before.
const OVERLAP: [Row; 3] = [
    (Do(OWNER, poke!(0, 0, &[1, 2, 3, 4])), "ok"),
    (
        Do(OWNER, Copy(copy!(FRAME_0, end!(0, SELF, 1), 4, NONE))),
        "ok",
    ),
    (Do(OWNER, peek!(0, 0, 6)), "ok [1, 1, 2, 3, 4, 0]"),
];

// Bytes may be copied from each domain to each.
const ALL: [(DomId, DomId); 9] = [
    (OWNER, OWNER),
    (OWNER, PEER),
    (OWNER, OTHER),
    (PEER, OWNER),
    (PEER, PEER),
    (PEER, OTHER),
    (OTHER, OWNER),
    (OTHER, PEER),
    (OTHER, OTHER),
];

/// All runs with copies.
pub static COPIES: [Run; 13] = [
    (1, &ALL, &GRANTED, &PAGE),
    (1, &ALL, &GRANTED, &PROBED),
    (2, &ALL, &[], &SUB_PAGE),
    (1, &ALL, &GRANTED_RO, &READ_ONLY_DEST),
    (1, &ALL, &[], &FLAGS),
    (1, &ALL, &[], &FOREIGN_FRAME),
    (1, &ALL, &[], &OVERLAP),
    (2, &ALL, &COPY_IS_OPEN, &REVOKED_BEHIND_A_COPY),
    (2, &ALL, &COPY_IS_OPEN, &REVOKED_BEFORE_THE_PIN),
    (2, &ALL, &[], &VIA_TO_A_VIA),
    (2, &[(PEER, OTHER), (OWNER, OTHER)], &[], &OWNERS_MAY),
    (2, &ALL, &[], &VIA_TO_NO_DOMAIN),
    (2, &ALL, &[], &VIA_TO_ANOTHERS_PAGE),
];
