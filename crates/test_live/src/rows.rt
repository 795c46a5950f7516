//! Worked rows, each a list of lines with their answers. A refusal carries the word that decided it, so the entry, its
//! counts and its generation are compared too.
use crate::playing::{Line, ONE, Row, Stage, THREE, TWO, play_row};
use gt_calls::{CopyArgs, End};
use gt_entry::Entry;
use gt_types::{DOMID_SELF, DomId, GrantRef};
use std::test::Fail;
use test_monitor::TestCall::{
    self, Bytes, Copy, Demote, GetVersion, Grant, Load, Map, Peek, Poke, Promote, Release, Revoke,
    Setup, Size, Store, Unmap, Version, Withdraw,
};
use test_monitor::{READ_ONLY, WRITABLE};
use test_rows::{copy, end, page, sub, via};

// A writable page entry for domain 2, with frame 5.
const PAGE: Entry = page!(DomId(2), false, 5);

// The same, read-only.
const READ_ONLY_PAGE: Entry = page!(DomId(2), true, 5);

// Page entries for domain 2, with frame 6 and with frame 8, which no domain has.
const PAGE_6: Entry = page!(DomId(2), false, 6);

const PAGE_8: Entry = page!(DomId(2), false, 8);

// Parts of frame 5, for domain 2: its first byte, the whole, and 50 bytes starting at byte 100.
const FIRST_BYTE: Entry = sub!(DomId(2), 5, 0, 1);

const WHOLE: Entry = sub!(DomId(2), 5, 0, 4096);

const PART: Entry = sub!(DomId(2), 5, 100, 50);

// Transitive entries. The first is for domain 2 and leads to an entry of domain 3 that was never granted. The next two
// are for domain 3 and lead to entries of domain 1, read-only or writable. The last is for domain 2 and leads to the
// first entry of domain 3.
const VIA_7_OF_THREE: Entry = via!(DomId(2), false, DomId(3), GrantRef(7));

const READ_ONLY_VIA_4_OF_ONE: Entry = via!(DomId(3), true, DomId(1), GrantRef(4));

const VIA_4_OF_ONE: Entry = via!(DomId(3), false, DomId(1), GrantRef(4));

const VIA_0_OF_THREE: Entry = via!(DomId(2), false, DomId(3), GrantRef(0));

// A copy of four bytes within a frame of the caller's own, to an offset one byte later.
const OVERLAP: CopyArgs = copy!(
    end!(0, DomId(DOMID_SELF), 0),
    end!(0, DomId(DOMID_SELF), 1),
    4,
    0
);

const A_MAPPING_IS_COUNTED_AND_GIVEN_UP: [Line; 18] = [
    (TWO, Map(1, 0, READ_ONLY), "N10 -1 entry 1 0 0"),
    (ONE, Grant(0, READ_ONLY_PAGE), "ok"),
    (TWO, Map(1, 0, READ_ONLY), "ok"),
    (ONE, Revoke(0), "N19 -1 entry 1 0 100020000015"),
    (TWO, Unmap, "ok"),
    (TWO, Unmap, "N6 -4"),
    (ONE, Revoke(0), "ok"),
    (ONE, Revoke(0), "N10 -1"),
    (TWO, Map(1, 0, READ_ONLY), "N10 -1 entry 1 0 100000000000"),
    (ONE, Grant(0, PAGE_6), "ok"),
    (THREE, Map(1, 0, READ_ONLY), "N11 -1 entry 1 0 200020000001"),
    (TWO, Map(9, 0, READ_ONLY), "N1 -2"),
    (TWO, Map(1, 0, 3), "N2 -1"),
    (TWO, Map(1, 0, READ_ONLY), "ok"),
    (ONE, Revoke(0), "N19 -1 entry 1 0 200020000011"),
    (TWO, Release, "ok"),
    (TWO, Release, "N6 -4"),
    (ONE, Revoke(0), "ok"),
];

// A withdrawal closes the entry to new pins, and the existing mapping stays. Its pin holds back the next grant.
const A_WITHDRAWAL_LEAVES_ITS_PINS: [Line; 12] = [
    (ONE, Grant(0, PAGE), "ok"),
    (TWO, Map(1, 0, WRITABLE), "ok"),
    (ONE, Withdraw(0), "ok"),
    (TWO, Map(1, 0, READ_ONLY), "N10 -1 entry 1 0 100000010000"),
    (TWO, Store(0, &[0x77]), "ok"),
    (ONE, Peek(5, 0, 2), "ok [119, 0]"),
    (ONE, Revoke(0), "N10 -1"),
    (ONE, Withdraw(0), "N10 -1"),
    (ONE, Grant(0, PAGE_6), "N19 -1 entry 1 0 100000010000"),
    (TWO, Unmap, "ok"),
    (ONE, Grant(0, PAGE_6), "ok"),
    (THREE, Map(1, 0, READ_ONLY), "N11 -1 entry 1 0 200020000001"),
];

const THE_FIRST_RULE_REFUSES: [Line; 7] = [
    (ONE, Grant(0, READ_ONLY_PAGE), "ok"),
    (THREE, Map(1, 0, WRITABLE), "N11 -1 entry 1 0 100020000005"),
    (TWO, Map(1, 0, WRITABLE), "N13 -1 entry 1 0 100020000005"),
    (ONE, Grant(1, PAGE_8), "ok"),
    (TWO, Map(1, 1, READ_ONLY), "N16 -9 entry 1 1 100020000001"),
    (TWO, Map(1, 512, READ_ONLY), "N9 -3 domain 1 5"),
    (TWO, Map(1, 511, READ_ONLY), "N10 -1 entry 1 511 0"),
];

const A_DEMOTION_LEAVES_A_READ_PIN: [Line; 12] = [
    (ONE, Grant(0, PAGE), "ok"),
    (TWO, Map(1, 0, READ_ONLY), "ok"),
    (ONE, Demote(0), "ok"),
    (ONE, Demote(0), "ok"),
    (TWO, Map(1, 0, WRITABLE), "N13 -1 entry 1 0 200020000015"),
    (ONE, Revoke(0), "N19 -1 entry 1 0 200020000015"),
    (ONE, Promote(0), "ok"),
    (ONE, Revoke(0), "N19 -1 entry 1 0 300020000011"),
    (TWO, Unmap, "ok"),
    (TWO, Map(1, 0, WRITABLE), "ok"),
    (ONE, Demote(0), "N19 -1 entry 1 0 300020010001"),
    (ONE, Promote(0), "ok"),
];

const A_PART_OR_A_VIA_IS_NOT_MAPPED: [Line; 4] = [
    (ONE, Grant(0, WHOLE), "ok"),
    (ONE, Grant(1, VIA_7_OF_THREE), "ok"),
    (TWO, Map(1, 0, READ_ONLY), "N12 -1 entry 1 0 100020000009"),
    (TWO, Map(1, 1, READ_ONLY), "N12 -1 entry 1 1 100020000003"),
];

const AN_ENTRY_WEARS_OUT: [Line; 5] = [
    (ONE, Grant(0, PAGE), "ok"),
    (ONE, Demote(0), "N22 -1"),
    (ONE, Revoke(0), "ok"),
    (ONE, Grant(0, PAGE), "N22 -1"),
    (
        TWO,
        Map(1, 0, READ_ONLY),
        "N10 -1 entry 1 0 fffff00000000000",
    ),
];

const A_TABLE_GROWS_AND_CHANGES_ITS_VERSION: [Line; 14] = [
    (ONE, Grant(0, FIRST_BYTE), "N21 -1"),
    (ONE, Grant(0, PAGE), "ok"),
    (ONE, Grant(0, PAGE), "N20 -1"),
    (ONE, Version(2), "N24 -1"),
    (ONE, Version(1), "ok"),
    (ONE, Revoke(0), "ok"),
    (ONE, Version(2), "ok"),
    (TWO, GetVersion(1), "ok version=2"),
    (TWO, Map(1, 256, READ_ONLY), "N9 -3 domain 1 6"),
    (ONE, Setup(2), "ok frames=2"),
    (TWO, Size(1), "ok frames=2 max=16"),
    (TWO, Map(1, 256, READ_ONLY), "N10 -1 entry 1 256 0"),
    (ONE, Setup(5), "ok frames=5"),
    (ONE, Version(3), "N2 -1"),
];

const BYTES_ARE_GRANTED: [Line; 7] = [
    (ONE, Bytes(0, &[9, 0, 2, 0, 5, 0, 0, 0]), "N25 -1 reading"),
    (ONE, Bytes(0, &[1, 0, 2, 0, 5, 0, 0, 0]), "ok"),
    (ONE, Bytes(1, &[1, 0, 2, 0, 5, 0, 0]), "N25 -1 length"),
    (ONE, Bytes(1, &[1, 1, 2, 0, 5, 0, 0, 0]), "N25 -1 sub_page"),
    (ONE, Bytes(1, &[3, 0, 2, 0, 5, 0, 0, 0]), "N25 -1 type"),
    (TWO, Map(1, 0, WRITABLE), "ok"),
    (ONE, Revoke(0), "N19 -1 entry 1 0 100020010001"),
];

const BYTES_GO_THROUGH_A_MAPPING: [Line; 14] = [
    (ONE, Grant(0, PAGE), "ok"),
    (TWO, Map(1, 0, WRITABLE), "ok"),
    (TWO, Store(10, &[0xc0, 0xff, 0xee]), "ok"),
    (ONE, Peek(5, 9, 5), "ok [0, 192, 255, 238, 0]"),
    (TWO, Load(9, 5), "ok [0, 192, 255, 238, 0]"),
    (TWO, Peek(5, 9, 5), "ok [0, 0, 0, 0, 0]"),
    (TWO, Load(4096, 0), "ok []"),
    (TWO, Load(4096, 1), "N3 -10"),
    (TWO, Peek(8, 0, 1), "N16 -9"),
    (TWO, Poke(8, 0, &[1]), "N16 -9"),
    (ONE, Revoke(0), "N19 -1 entry 1 0 100020010001"),
    (TWO, Unmap, "ok"),
    (ONE, Revoke(0), "ok"),
    (ONE, Revoke(0), "N10 -1"),
];

const A_PAGE_IS_COPIED: [Line; 7] = [
    (ONE, Grant(0, PAGE), "ok"),
    (ONE, Poke(5, 4094, &[0xab, 0xcd]), "ok"),
    (TWO, fetch!(1, 0, 0, 3, 0, 4096), "ok"),
    (TWO, Peek(3, 4093, 3), "ok [0, 171, 205]"),
    (TWO, fetch!(1, 0, 1, 3, 0, 4096), "N3 -10"),
    (TWO, fetch!(1, 0, 4096, 3, 4096, 0), "ok"),
    (ONE, Revoke(0), "ok"),
];

const A_PART_OF_A_PAGE_IS_COPIED: [Line; 7] = [
    (ONE, Grant(0, PART), "ok"),
    (TWO, fetch!(1, 0, 100, 3, 0, 50), "ok"),
    (
        TWO,
        fetch!(1, 0, 149, 3, 0, 2),
        "N14 -1 entry 1 0 100020000009",
    ),
    (TWO, fetch!(1, 0, 150, 3, 0, 0), "ok"),
    (
        TWO,
        fetch!(1, 0, 151, 3, 0, 0),
        "N14 -1 entry 1 0 100020000009",
    ),
    (
        TWO,
        fetch!(1, 0, 99, 3, 0, 0),
        "N14 -1 entry 1 0 100020000009",
    ),
    (ONE, Revoke(0), "ok"),
];

const A_TRANSITIVE_COPY_TAKES_ONE_STEP_MORE: [Line; 13] = [
    (ONE, Grant(4, PAGE_6), "ok"),
    (ONE, Poke(6, 0, &[0x5a]), "ok"),
    (TWO, Grant(0, READ_ONLY_VIA_4_OF_ONE), "ok"),
    (THREE, fetch!(2, 0, 0, 0, 0, 1), "ok"),
    (THREE, Peek(0, 0, 1), "ok [90]"),
    (TWO, Revoke(0), "ok"),
    (
        THREE,
        fetch!(2, 0, 0, 0, 0, 1),
        "N10 -1 entry 2 0 100000000000",
    ),
    (ONE, Revoke(4), "ok"),
    (ONE, Grant(4, VIA_0_OF_THREE), "ok"),
    (TWO, Grant(0, VIA_4_OF_ONE), "ok"),
    (
        THREE,
        fetch!(2, 0, 0, 0, 0, 1),
        "N15 -1 entry 1 4 200020000003",
    ),
    (TWO, Revoke(0), "ok"),
    (ONE, Revoke(4), "ok"),
];

const A_MAPPING_GIVEN_UP_MOVES_NO_BYTES: [Line; 12] = [
    (ONE, Grant(0, PAGE), "ok"),
    (TWO, Load(0, 1), "N6 -4"),
    (TWO, Map(1, 0, READ_ONLY), "ok"),
    (TWO, Unmap, "ok"),
    (TWO, Unmap, "N6 -4"),
    (TWO, Load(0, 1), "N6 -4"),
    (TWO, Map(1, 0, READ_ONLY), "ok"),
    (TWO, Store(0, &[1]), "N7 -8"),
    (ONE, Demote(0), "ok"),
    (ONE, Demote(0), "ok"),
    (TWO, Load(0, 1), "ok [0]"),
    (TWO, Map(1, 0, WRITABLE), "N13 -1 entry 1 0 200020000015"),
];

const A_COPY_OVERLAPS_ITSELF: [Line; 3] = [
    (ONE, Poke(0, 0, &[1, 2, 3, 4]), "ok"),
    (ONE, Copy(OVERLAP), "ok"),
    (ONE, Peek(0, 0, 6), "ok [1, 1, 2, 3, 4, 0]"),
];

// Each row with its name, the version of the tables and the first generation of their entries.
static ROWS: [(&str, u32, u32, &[Line]); 14] = [
    (
        "a mapping is counted and given up",
        1,
        0,
        &A_MAPPING_IS_COUNTED_AND_GIVEN_UP,
    ),
    (
        "a withdrawal leaves its pins",
        1,
        0,
        &A_WITHDRAWAL_LEAVES_ITS_PINS,
    ),
    ("the first rule refuses", 1, 0, &THE_FIRST_RULE_REFUSES),
    (
        "a demotion leaves a read pin",
        1,
        0,
        &A_DEMOTION_LEAVES_A_READ_PIN,
    ),
    (
        "a part or a via is not mapped",
        2,
        0,
        &A_PART_OR_A_VIA_IS_NOT_MAPPED,
    ),
    ("an entry wears out", 1, 1_048_574, &AN_ENTRY_WEARS_OUT),
    (
        "a table grows and changes its version",
        1,
        0,
        &A_TABLE_GROWS_AND_CHANGES_ITS_VERSION,
    ),
    ("bytes are granted", 1, 0, &BYTES_ARE_GRANTED),
    (
        "bytes go through a mapping",
        1,
        0,
        &BYTES_GO_THROUGH_A_MAPPING,
    ),
    ("a page is copied", 1, 0, &A_PAGE_IS_COPIED),
    (
        "a part of a page is copied",
        2,
        0,
        &A_PART_OF_A_PAGE_IS_COPIED,
    ),
    (
        "a transitive copy takes one step more",
        2,
        0,
        &A_TRANSITIVE_COPY_TAKES_ONE_STEP_MORE,
    ),
    (
        "a mapping given up moves no bytes",
        1,
        0,
        &A_MAPPING_GIVEN_UP_MOVES_NO_BYTES,
    ),
    ("a copy overlaps itself", 1, 0, &A_COPY_OVERLAPS_ITSELF),
];

#[test]
fn rows_are_answered(rt: HostRuntime) -> Result<(), Fail> {
    let alloc = rt.alloc();
    for (name, version, first_gen, lines) in ROWS.iter() {
        let row = Row {
            name: *name,
            count: 4,
            version: *version,
            first_gen: *first_gen,
            stages: &[Stage::Asked(*lines)],
            parts: &[],
            behind: &[],
        };
        play_row(&rt, alloc, &row)?;
    }
    Ok(())
}
