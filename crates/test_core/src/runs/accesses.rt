//! Accesses to bytes: loads, stores, peeks and pokes.
use super::{FIRST_HANDLE, MAP_RO, REVOKE, SECOND_HANDLE, STRANGE, UNMAP};
use crate::doing::Doing::{Begin, Do, Tick};
use crate::doing::{OWNER, PEER, Row, load, peek, poke, store};
use gt_core::Request;

// The bytes that one domain stores are the ones that the other peeks.
pub const SHARED_PAGE: [Row; 8] = [
    (
        Do(PEER, store!(FIRST_HANDLE, 10, &[0xc0, 0xff, 0xee])),
        "ok",
    ),
    (Do(OWNER, peek!(5, 9, 5)), "ok [0, 192, 255, 238, 0]"),
    (
        Do(PEER, load!(FIRST_HANDLE, 9, 5)),
        "ok [0, 192, 255, 238, 0]",
    ),
    (Do(OWNER, REVOKE), "N19 100020010001"),
    (Do(PEER, UNMAP), "ok"),
    (Do(OWNER, REVOKE), "ok"),
    (Do(OWNER, peek!(5, 10, 3)), "ok [192, 255, 238]"),
    (Do(PEER, peek!(5, 10, 3)), "ok [0, 0, 0]"),
];

// The range is checked before the mapping, and the mapping before its direction.
pub const ORDER_OF_ACCESSES: [Row; 11] = [
    (Do(PEER, store!(FIRST_HANDLE, 4096, &[1])), "N3"),
    (Do(PEER, store!(FIRST_HANDLE, 4096, &[])), "N7"),
    (Do(PEER, store!(STRANGE, 4097, &[])), "N3"),
    (Do(PEER, store!(STRANGE, 4096, &[])), "N6"),
    (Do(PEER, load!(FIRST_HANDLE, 4096, 0)), "ok []"),
    (Do(OWNER, poke!(7, 4095, &[0xff])), "ok"),
    (Do(OWNER, poke!(8, 0, &[])), "N16"),
    (Do(OWNER, poke!(8, 4095, &[1, 2])), "N3"),
    (Do(PEER, peek!(8, 0, 1)), "N16"),
    (Do(PEER, peek!(8, 4096, 1)), "N3"),
    (Do(OWNER, peek!(7, 4094, 2)), "ok [0, 255]"),
];

// A handle that was unmapped stores nothing.
pub const STORE_BY_A_TAKEN_HANDLE: [Row; 5] = [
    (Do(PEER, UNMAP), "ok"),
    (Do(PEER, UNMAP), "N6"),
    (Do(PEER, MAP_RO), "ok 1.0"),
    (Do(PEER, store!(FIRST_HANDLE, 0, &[1])), "N6"),
    (Do(PEER, store!(SECOND_HANDLE, 0, &[1])), "N7"),
];

// The bytes of a store are those given at its beginning, and are written with its step.
pub const STORE_WITH_ITS_STEP: [Row; 5] = [
    (Begin(PEER, store!(FIRST_HANDLE, 0, &[1, 2])), "open"),
    (Do(OWNER, peek!(5, 0, 3)), "ok [0, 0, 0]"),
    (Do(OWNER, poke!(5, 0, &[3, 3, 3])), "ok"),
    (Tick(PEER, 1), "ok"),
    (Do(OWNER, peek!(5, 0, 3)), "ok [1, 2, 3]"),
];
