//! Runs in which an allocation fails. tools/refused.sh makes each fail in turn: a tick or a beginning that is asked
//! again is answered as without a failure.
use crate::doing::Doing::{self, Do, Show};
use crate::doing::{OWNER, PEER, Row, load, peek, poke, store};
use crate::pins::played;
use crate::runs::{FIRST_HANDLE, GRANT, GRANTED, MAP_RO, MAP_RW, MAPPED_RW, REVOKE, Run, all_go};
use gt_core::{CopyArgs, End, Event, Handle, Request};
use gt_types::StartFault;
use std::test::Fail;
use test_rows::{copy, end};

// The peer loads the last bytes of the page by the handle of this number.
macro_rules! load_by {
    ($number:literal) => {
        (
            Do(
                PEER,
                load!(
                    Handle {
                        serial: $number,
                        key: $number,
                    },
                    4_094,
                    2
                ),
            ),
            "ok [0, 0]",
        )
    };
}

// The peer stores this byte at this offset.
macro_rules! stored {
    ($byte:literal) => {
        (Do(PEER, store!(FIRST_HANDLE, $byte, &[$byte])), "ok")
    };
}

// The owner overwrites the first byte of the page.
macro_rules! poked {
    ($byte:literal) => {
        (Do(OWNER, poke!(5, 0, &[$byte])), "ok")
    };
}

// The peer copies that byte to this offset of a frame that the peer owns.
macro_rules! copied {
    ($offset:literal) => {
        (
            Do(
                PEER,
                Request::Copy(copy!(end!(0, OWNER, 0), end!(3, PEER, $offset), 1, 1)),
            ),
            "ok",
        )
    };
}

const MAP: Doing = Do(PEER, MAP_RO);

// The peer maps the page twenty times, and loads its last bytes by each mapping.
const MAPS: [Row; 43] = [
    (MAP, "ok 0.0"),
    load_by!(0),
    (MAP, "ok 1.1"),
    load_by!(1),
    (MAP, "ok 2.2"),
    load_by!(2),
    (MAP, "ok 3.3"),
    load_by!(3),
    (MAP, "ok 4.4"),
    load_by!(4),
    (MAP, "ok 5.5"),
    load_by!(5),
    (MAP, "ok 6.6"),
    load_by!(6),
    (MAP, "ok 7.7"),
    load_by!(7),
    (MAP, "ok 8.8"),
    load_by!(8),
    (MAP, "ok 9.9"),
    load_by!(9),
    (MAP, "ok 10.10"),
    load_by!(10),
    (MAP, "ok 11.11"),
    load_by!(11),
    (MAP, "ok 12.12"),
    load_by!(12),
    (MAP, "ok 13.13"),
    load_by!(13),
    (MAP, "ok 14.14"),
    load_by!(14),
    (MAP, "ok 15.15"),
    load_by!(15),
    (MAP, "ok 16.16"),
    load_by!(16),
    (MAP, "ok 17.17"),
    load_by!(17),
    (MAP, "ok 18.18"),
    load_by!(18),
    (MAP, "ok 19.19"),
    load_by!(19),
    (Do(PEER, MAP_RW), "ok 20.20"),
    (Do(OWNER, REVOKE), "N19 100020010141"),
    (
        Show(0),
        "Page { dom: DomId(2), ro: false, frame: 5 } gen=1 reads=20 writes=1 status=18",
    ),
];

const PEEK: Doing = Do(OWNER, peek!(5, 0, 1));

// The peer stores a byte, and the owner overwrites the first one and reads it.
const ACCESSES: [Row; 26] = [
    stored!(1),
    poked!(1),
    (PEEK, "ok [1]"),
    stored!(2),
    poked!(2),
    (PEEK, "ok [2]"),
    stored!(3),
    poked!(3),
    (PEEK, "ok [3]"),
    stored!(4),
    poked!(4),
    (PEEK, "ok [4]"),
    stored!(5),
    poked!(5),
    (PEEK, "ok [5]"),
    stored!(6),
    poked!(6),
    (PEEK, "ok [6]"),
    stored!(7),
    poked!(7),
    (PEEK, "ok [7]"),
    stored!(8),
    poked!(8),
    (PEEK, "ok [8]"),
    (
        Do(PEER, load!(FIRST_HANDLE, 0, 9)),
        "ok [8, 1, 2, 3, 4, 5, 6, 7, 8]",
    ),
    (
        Show(0),
        "Page { dom: DomId(2), ro: false, frame: 5 } gen=1 reads=0 writes=1 status=18",
    ),
];

// The owner overwrites the first byte, and the peer copies it.
const COPIES: [Row; 18] = [
    poked!(1),
    copied!(1),
    poked!(2),
    copied!(2),
    poked!(3),
    copied!(3),
    poked!(4),
    copied!(4),
    poked!(5),
    copied!(5),
    poked!(6),
    copied!(6),
    poked!(7),
    copied!(7),
    poked!(8),
    copied!(8),
    (
        Do(PEER, peek!(3, 0, 10)),
        "ok [0, 1, 2, 3, 4, 5, 6, 7, 8, 0]",
    ),
    (
        Show(0),
        "Page { dom: DomId(2), ro: false, frame: 5 } gen=1 reads=0 writes=0 status=0",
    ),
];

static ALL_REFUSED: [Run; 3] = [
    (1, &[], &GRANTED, &MAPS),
    (1, &[], &MAPPED_RW, &ACCESSES),
    (1, &[(OWNER, PEER)], &GRANTED, &COPIES),
];

fn all_refused() -> &'static [Run] {
    &ALL_REFUSED
}

#[test]
fn calls_with_memory_refused(rt: HostRuntime) {
    all_go(&rt, rt.alloc(), all_refused());
}

static EVENTS: [Event; 8] = [
    Event::Begin(OWNER, GRANT),
    Event::Tick(OWNER),
    Event::Tick(OWNER),
    Event::Begin(PEER, MAP_RO),
    Event::Tick(PEER),
    Event::Tick(PEER),
    Event::Tick(PEER),
    Event::Tick(PEER),
];

const TRACE: &str = "1 begins\n1 -\n1 taken ok\n\
2 begins\n2 5\n2 100020000001\n2 5\n2 taken ok 0.0\n";

#[test]
fn play_with_memory_refused(rt: HostRuntime) -> Result<(), Fail> {
    let text = match played(rt.alloc(), &EVENTS) {
        Err(StartFault::Memory) => played(rt.alloc(), &EVENTS)?,
        played => played?,
    };
    assert_eq!(rt; text.as_str(), TRACE);
    Ok(())
}
