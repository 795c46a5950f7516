//! Runs with more than lines: how many domains they may have, what those leave, failed allocations, and threads.
use crate::playing::{Line, ONE, Row, Stage, THREE, TWO, play_row};
use crate::working::{Access, LEN, Part, UNUSED};
use gt_calls::{CopyArgs, End};
use gt_entry::Entry;
use gt_types::{ConfigFault, DOMID_SELF, DomId, StartFault};
use std::test::Fail;
use test_monitor::TestCall::{
    self, Demote, GetVersion, Grant, Load, Map, Peek, Poke, Revoke, Store, Unmap,
};
use test_monitor::{READ_ONLY, WRITABLE};
use test_rows::{copy, end, page};

// A run of two domains that make no call.
const QUIET: Row = Row {
    name: "quiet",
    count: 2,
    version: 1,
    first_gen: 0,
    stages: &[],
    parts: &[],
    behind: &[],
};

#[test]
fn one_to_sixty_four_domains_start(rt: HostRuntime) {
    let one_more = StartFault::Config(ConfigFault::TooMany(DomId(65)));
    let counts = [(1, Ok(1)), (64, Ok(64)), (65, Err(one_more))];
    for (count, answer) in counts {
        let row = Row { count, ..QUIET };
        assert_eq!(rt; play_row(&rt, rt.alloc(), &row), answer);
    }
}

const GRANTED: Line = (ONE, Grant(0, page!(DomId(2), false, 5)), "ok");

const REVOKED: [Line; 1] = [(ONE, Revoke(0), "ok")];

// Two maps hold a revocation back until their domain has left. It leaves the records of its own calls.
const PINS_HELD: [Line; 9] = [
    GRANTED,
    (TWO, Map(1, 0, READ_ONLY), "ok"),
    (TWO, Map(1, 0, WRITABLE), "ok"),
    (TWO, Unmap, "ok"),
    (TWO, Unmap, "N6 -4"),
    (TWO, Map(1, 0, WRITABLE), "ok"),
    (TWO, Map(9, 0, READ_ONLY), "N1 -2"),
    (TWO, GetVersion(1), "ok version=1"),
    (ONE, Revoke(0), "N19 -1 entry 1 0 100020010011"),
];

const RECORDS: &str = "[\
    Record { dom: DomId(2), call: Map { dom: DomId(1), gref: GrantRef(0), flags: 6 }, reply: Done }, \
    Record { dom: DomId(2), call: Map { dom: DomId(1), gref: GrantRef(0), flags: 2 }, reply: Done }, \
    Record { dom: DomId(2), call: Unmap { subject: Some((DomId(1), GrantRef(0))) }, reply: Done }, \
    Record { dom: DomId(2), call: Unmap { subject: None }, \
    reply: Denied(Denial { rule: N6, status: BadHandle, facts: None }) }, \
    Record { dom: DomId(2), call: Map { dom: DomId(1), gref: GrantRef(0), flags: 2 }, reply: Done }, \
    Record { dom: DomId(2), call: Map { dom: DomId(9), gref: GrantRef(0), flags: 6 }, \
    reply: Denied(Denial { rule: N1, status: BadDomain, facts: None }) }, \
    Record { dom: DomId(2), call: GetVersion { dom: DomId(1) }, reply: Version(1) }] 0";

// Four queries, of which a trail keeps two.
const QUERIES: [Line; 4] = [(TWO, GetVersion(1), "ok version=1"); 4];

const FOUR_RECORDS: &str = "[\
    Record { dom: DomId(2), call: GetVersion { dom: DomId(1) }, reply: Version(1) }, \
    Record { dom: DomId(2), call: GetVersion { dom: DomId(1) }, reply: Version(1) }, \
    Record { dom: DomId(2), call: GetVersion { dom: DomId(1) }, reply: Version(1) }, \
    Record { dom: DomId(2), call: GetVersion { dom: DomId(1) }, reply: Version(1) }] 0";

const TWO_RECORDS: &str = "[\
    Record { dom: DomId(2), call: GetVersion { dom: DomId(1) }, reply: Version(1) }, \
    Record { dom: DomId(2), call: GetVersion { dom: DomId(1) }, reply: Version(1) }] 2";

// One mapping for each pin that a word has room for, and one more.
const FULL: [Line; 4] = [
    (TWO, Map(1, 0, READ_ONLY), "N17 -1 entry 1 0 10002000fff1"),
    (TWO, Map(1, 0, WRITABLE), "ok"),
    (ONE, Demote(0), "N19 -1 entry 1 0 10002001fff1"),
    (ONE, Revoke(0), "N19 -1 entry 1 0 10002001fff1"),
];

// Bytes are written by the first call, and read by the second.
macro_rules! accesses {
    ($write:expr, $read:expr) => {
        Part::Accesses(Access {
            write: $write,
            read: $read,
        })
    };
}

// A page that is granted to two domains, which map it.
const MAPPED: [Line; 4] = [
    (ONE, Grant(0, page!(DomId(2), false, 5)), "ok"),
    (ONE, Grant(1, page!(DomId(3), false, 5)), "ok"),
    (TWO, Map(1, 0, WRITABLE), "ok"),
    (THREE, Map(1, 1, WRITABLE), "ok"),
];

// Each domain writes its own byte all over the range, and reads it: no read sees two writes mixed.
const WRITES: [(Part, u32); 3] = [
    (accesses!(Poke(5, 0, &[1; 64]), Peek(5, 0, LEN)), 2_000),
    (accesses!(Store(0, &[2; 64]), Load(0, LEN)), 2_000),
    (accesses!(Store(0, &[3; 64]), Load(0, LEN)), 2_000),
];

// Each domain grants a page to the next one.
const IN_A_RING: [Line; 4] = [
    (ONE, Grant(0, page!(DomId(2), false, 5)), "ok"),
    (TWO, Grant(0, page!(DomId(3), false, 5)), "ok"),
    (THREE, Grant(0, page!(DomId(1), false, 5)), "ok"),
    (ONE, Poke(5, 0, &[7; 64]), "ok"),
];

// Each copies the frame that the domain before it writes, in a ring. If a copy locked its source first, each thread
// could hold the frame that the next one waits for. All must end.
const COPIES: [(Part, u32); 3] = [
    (
        accesses!(fetch!(3, 0, 0, 5, 0, LEN), Peek(5, 0, LEN)),
        2_000,
    ),
    (
        accesses!(fetch!(1, 0, 0, 5, 0, LEN), Peek(5, 0, LEN)),
        2_000,
    ),
    (
        accesses!(fetch!(2, 0, 0, 5, 0, LEN), Peek(5, 0, LEN)),
        2_000,
    ),
];

const OWNS: Part = Part::Owns {
    first: UNUSED,
    second: UNUSED,
};

// Two owners that grant, demote, promote and revoke, while two domains map and unmap.
const STORM: [(Part, u32); 4] = [
    (OWNS, 25_000),
    (OWNS, 25_000),
    (Part::Maps(0), 25_000),
    (Part::Maps(1), 25_000),
];

// Each byte of frame 5 is 0x55, and each of frame 6 is 0x66.
const FILLED: [Line; 2] = [
    (ONE, Poke(5, 0, &[0x55; 4096]), "ok"),
    (ONE, Poke(6, 0, &[0x66; 4096]), "ok"),
];

// An owner that withdraws the page while the other domain copies it.
const TORN: [(Part, u32); 2] = [(Part::Withdraws(UNUSED), 1_000), (Part::Takes, 1_000)];

// The same with revocations.
const TORN_BY_REVOCATION: [(Part, u32); 2] = [(Part::Revokes(UNUSED), 1_000), (Part::Takes, 1_000)];

// An owner and a domain whose entries lead to the owner's page both grant and revoke, while two domains copy through
// those entries.
const STORM_OF_VIAS: [(Part, u32); 4] = [
    (Part::Toggles(UNUSED), 10_000),
    (
        Part::Forwards {
            first: UNUSED,
            second: UNUSED,
        },
        10_000,
    ),
    (Part::Follows(0), 10_000),
    (Part::Follows(1), 10_000),
];

// Each byte of frame 5 is 0x55, and domain 2 has it mapped and wrote three bytes.
const STORED: [Line; 4] = [
    (ONE, Poke(5, 0, &[0x55; 4096]), "ok"),
    (ONE, Grant(0, page!(DomId(2), false, 5)), "ok"),
    (TWO, Map(1, 0, WRITABLE), "ok"),
    (TWO, Store(10, &[1, 2, 3]), "ok"),
];

static ROWS: [Row; 13] = [
    Row {
        name: "bytes are read over a buffer",
        stages: &[
            Stage::Asked(&STORED),
            Stage::Fills(TWO, None, 9, [0x55, 1, 2, 3, 0x55]),
            Stage::Fills(ONE, Some(5), 8, [0x55, 0x55, 1, 2, 3]),
            Stage::Fills(TWO, Some(5), 8, [0; 5]),
        ],
        ..QUIET
    },
    Row {
        name: "a domain that leaves gives its pins back",
        stages: &[
            Stage::Asked(&PINS_HELD),
            Stage::Leaves(RECORDS),
            Stage::Asked(&REVOKED),
        ],
        ..QUIET
    },
    Row {
        name: "a trail keeps no more records than it may, and counts the others",
        stages: &[
            Stage::KeepsAtMost(2),
            Stage::Asked(&QUERIES),
            Stage::Leaves(TWO_RECORDS),
        ],
        ..QUIET
    },
    Row {
        name: "a trail makes room for many records",
        stages: &[
            Stage::KeepsAtMost(100_000),
            Stage::Asked(&QUERIES),
            Stage::Leaves(FOUR_RECORDS),
        ],
        ..QUIET
    },
    Row {
        name: "a word has room for 4095 pins",
        stages: &[
            Stage::Asked(&[GRANTED]),
            Stage::MapsOften(4095),
            Stage::Asked(&FULL),
            Stage::LeavesMany(4097),
            Stage::Asked(&REVOKED),
        ],
        ..QUIET
    },
    Row {
        name: "two threads share a page",
        parts: &[(Part::Lends, 1), (Part::Borrows, 1)],
        ..QUIET
    },
    Row {
        name: "grants beside maps leave the word idle",
        parts: &[(Part::Toggles(UNUSED), 1_000), (Part::Churns, 1_000)],
        behind: &[(ONE, TWO, 1, 0)],
        ..QUIET
    },
    Row {
        name: "no page is torn by a withdrawal",
        stages: &[Stage::Asked(&FILLED)],
        parts: &TORN,
        behind: &[(ONE, TWO, 1, 0)],
        ..QUIET
    },
    Row {
        name: "no page is torn by a revocation",
        stages: &[Stage::Asked(&FILLED)],
        parts: &TORN_BY_REVOCATION,
        behind: &[(ONE, TWO, 1, 0)],
        ..QUIET
    },
    Row {
        name: "a storm through transitive entries leaves every word idle",
        count: 4,
        version: 2,
        parts: &STORM_OF_VIAS,
        behind: &[(ONE, TWO, 1, 0), (TWO, THREE, 2, 0), (TWO, 3, 2, 1)],
        ..QUIET
    },
    Row {
        name: "a storm leaves every word idle",
        count: 4,
        parts: &STORM,
        behind: &[
            (ONE, THREE, 1, 0),
            (ONE, 3, 1, 1),
            (TWO, THREE, 2, 0),
            (TWO, 3, 2, 1),
        ],
        ..QUIET
    },
    Row {
        name: "three threads write to one frame",
        count: 3,
        stages: &[Stage::Asked(&MAPPED)],
        parts: &WRITES,
        ..QUIET
    },
    Row {
        name: "three threads copy in a ring",
        count: 3,
        stages: &[Stage::Asked(&IN_A_RING)],
        parts: &COPIES,
        ..QUIET
    },
];

#[test]
fn runs_go_as_they_must(rt: HostRuntime) -> Result<(), Fail> {
    for row in ROWS.iter() {
        play_row(&rt, rt.alloc(), row)?;
    }
    Ok(())
}

const ACCESSES: [Line; 18] = [
    (ONE, Grant(0, page!(DomId(2), false, 5)), "ok"),
    (ONE, Poke(5, 0, &[1, 2, 3]), "ok"),
    (TWO, Map(1, 0, WRITABLE), "ok"),
    (TWO, Load(0, 3), "ok [1, 2, 3]"),
    (TWO, Store(1, &[9]), "ok"),
    (TWO, Load(0, 4), "ok [1, 9, 3, 0]"),
    (TWO, fetch!(1, 0, 0, 3, 2, 3), "ok"),
    (TWO, Peek(3, 1, 4), "ok [0, 1, 9, 3]"),
    (ONE, Demote(0), "N19 -1 entry 1 0 100020010001"),
    (TWO, Unmap, "ok"),
    (ONE, Demote(0), "ok"),
    (TWO, Map(1, 0, READ_ONLY), "ok"),
    (TWO, Store(0, &[7]), "N7 -8"),
    (TWO, Peek(8, 0, 1), "N16 -9"),
    (ONE, Revoke(0), "N19 -1 entry 1 0 200020000015"),
    (TWO, Unmap, "ok"),
    (ONE, Revoke(0), "ok"),
    (
        TWO,
        fetch!(1, 0, 0, 3, 0, 1),
        "N10 -1 entry 1 0 200000000000",
    ),
];

static REFUSED: Row = Row {
    name: "accesses with memory refused",
    stages: &[Stage::Insisted(&ACCESSES)],
    ..QUIET
};

// With tools/refused.sh, which makes each allocation fail in turn: a call that answers N26 is asked again, and is then
// answered as without a failure. Only the start of the run and the texts of answers allocate.
#[test]
fn accesses_with_memory_refused(rt: HostRuntime) -> Result<(), Fail> {
    match play_row(&rt, rt.alloc(), &REFUSED) {
        Ok(_) => Ok(()),
        Err(fault) => {
            assert_eq!(rt; fault, StartFault::Memory);
            play_row(&rt, rt.alloc(), &REFUSED)?;
            Ok(())
        }
    }
}
