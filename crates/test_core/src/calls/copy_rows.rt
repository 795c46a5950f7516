//! Copies: the requests, and the parts of each call.
use crate::calls::script::Part::{
    Body, Control, Header, Leg, LongLeg, Refused, RefusedAt, Try, Unpin,
};
use crate::calls::script::{CALLER, GRANTED, HEADER, MIDDLE, OWNER, Part, Row, pin, unseen};
use gt_calls::Request::{Copy, Probe};
use gt_calls::{CopyArgs, End, HeldPin, Observation, Request, Spot, Step as CallStep};
use gt_entry::Entry;
use gt_types::{Dir, DomId, Facts, FrameName, GrantRef, Perms, Rule, TypeId};
use test_rows::{copy, end, page, spot, sub, via};

const SELF: DomId = DomId(0x7FF0);

// The ends of most copies: the owner's entry 0, the middle domain's entries 0 and 1, and frames of the caller's own.
const OWNER_0: End = end!(0, OWNER, 0);

const MIDDLE_0: End = end!(0, MIDDLE, 0);

const MIDDLE_1: End = end!(1, MIDDLE, 0);

const FRAME_3: End = end!(3, SELF, 0);

const FRAME_4: End = end!(4, SELF, 0);

// Copies from entries of the owner and of the middle domain to frame 3 of the caller's own, and from one entry of the
// middle domain to the next.
const FROM_OWNER: Request = Copy(copy!(OWNER_0, FRAME_3, 4, 1));

const FROM_MIDDLE: Request = Copy(copy!(MIDDLE_0, FRAME_3, 4, 1));

const THROUGH_MIDDLE: Request = Copy(copy!(MIDDLE_0, MIDDLE_1, 4, 3));

// Entries of the owner: pages and parts for the caller and for the middle domain.
const FOR_CALLER: Entry = page!(CALLER, false, 5);

const READ_ONLY: Entry = page!(CALLER, true, 5);

const SUB_FOR_CALLER: Entry = sub!(CALLER, 6, 0, 8);

const SUB_FOR_MIDDLE: Entry = sub!(MIDDLE, 6, 0, 8);

// Entries of the middle domain for the caller, which lead to entries of the owner.
const VIA_4: Entry = via!(CALLER, false, OWNER, GrantRef(4));

const VIA_5: Entry = via!(CALLER, false, OWNER, GrantRef(5));

// Read pins of the owner's page: also as a read-only page, with the maximum of read pins, and as a part.
const PAGE: HeldPin = pin!(OWNER, 0, Read, FOR_CALLER, 0x1000_3000_0001);

const READ_ONLY_PAGE: HeldPin = pin!(OWNER, 0, Read, READ_ONLY, 0x1000_3000_0005);

const FULL_PAGE: HeldPin = pin!(OWNER, 0, Read, FOR_CALLER, 0x1000_3000_fff1);

const SUB_PAGE: HeldPin = pin!(OWNER, 0, Read, SUB_FOR_CALLER, 0x1000_3000_0009);

// The pins of a source through the middle domain: of the Via, and of the entry to which it leads.
const SOURCE_VIA: HeldPin = pin!(MIDDLE, 0, Read, VIA_4, 0x1000_3000_0003);

const BEHIND_SOURCE: HeldPin = pin!(OWNER, 4, Read, page!(MIDDLE, false, 6), 0x1000_2000_0001);

// Those of a destination.
const DEST_VIA: HeldPin = pin!(MIDDLE, 1, Write, VIA_5, 0x1000_3000_0003);

const BEHIND_DEST: HeldPin = pin!(OWNER, 5, Write, page!(MIDDLE, false, 7), 0x1000_2000_0001);

// In an entry, the number `DOMID_SELF` is not a domain, and not the caller.
const VIA_TO_SELF: HeldPin = HeldPin {
    entry: via!(CALLER, false, SELF, GrantRef(4)),
    ..SOURCE_VIA
};

const VIA_TO_CALLER: HeldPin = HeldPin {
    entry: via!(CALLER, false, CALLER, GrantRef(4)),
    ..SOURCE_VIA
};

const PAGE_OF_CALLER: HeldPin = pin!(CALLER, 4, Read, page!(MIDDLE, false, 6), 0x1000_2000_0001);

// Other entries after a Via, and parts of pages instead of each entry.
const VIA_BEHIND_SOURCE: HeldPin = HeldPin {
    entry: via!(MIDDLE, false, CALLER, GrantRef(0)),
    word: 0x1000_2000_0003,
    ..BEHIND_SOURCE
};

const PAGE_FOR_CALLER: HeldPin = pin!(OWNER, 4, Read, page!(CALLER, false, 6), 0x1000_3000_0001);

const READ_ONLY_BEHIND_DEST: HeldPin = pin!(
    OWNER,
    5,
    Write,
    page!(MIDDLE, true, 7),
    0x1000_2000_0005
);

const SUB_AT_SOURCE: HeldPin = pin!(MIDDLE, 0, Read, SUB_FOR_CALLER, 0x1000_3000_0009);

const SUB_BEHIND_SOURCE: HeldPin = pin!(OWNER, 4, Read, SUB_FOR_MIDDLE, 0x1000_2000_0009);

const SUB_AT_DEST: HeldPin = pin!(MIDDLE, 1, Write, SUB_FOR_CALLER, 0x1000_3000_0009);

const SUB_BEHIND_DEST: HeldPin = pin!(OWNER, 5, Write, SUB_FOR_MIDDLE, 0x1000_2000_0009);

// The spots that are copied from and to: in frames of the caller and of the owner.
const CALLERS_3: Spot = spot!(CALLER, 3, 0);

const CALLERS_4: Spot = spot!(CALLER, 4, 0);

const CALLERS_6: Spot = spot!(CALLER, 6, 0);

const OWNERS_6: Spot = spot!(OWNER, 6, 0);

const OWNERS_7: Spot = spot!(OWNER, 7, 0);

// The access of a copy.
macro_rules! access {
    ($from:expr, $to:expr, $len:expr) => {
        unseen!(CallStep::Copy {
            from: $from,
            to: $to,
            len: $len,
        })
    };
}

/// The domains that are copied from and to.
pub const PAIRS: [(DomId, DomId); 7] = [
    (OWNER, CALLER),
    (OWNER, MIDDLE),
    (MIDDLE, CALLER),
    (MIDDLE, MIDDLE),
    (CALLER, CALLER),
    (CALLER, OWNER),
    (OWNER, OWNER),
];

/// Copies that all these pairs may make.
pub const COPIES: [Row; 18] = [
    // Entries are copied.
    (
        CALLER,
        Copy(copy!(OWNER_0, end!(3, CALLER, 0), 4, 1)),
        7,
        &[
            Leg(READ_ONLY_PAGE),
            access!(spot!(OWNER, 5, 0), CALLERS_3, 4),
            Unpin(&[READ_ONLY_PAGE]),
            GRANTED,
        ],
    ),
    // A probe makes no access.
    (
        CALLER,
        Probe(copy!(OWNER_0, end!(3, CALLER, 0), 4, 1)),
        6,
        &[Leg(READ_ONLY_PAGE), Unpin(&[READ_ONLY_PAGE]), GRANTED],
    ),
    (
        CALLER,
        Probe(copy!(OWNER_0, FRAME_3, 4, 4)),
        1,
        &[Refused(Rule::N2, Facts::None)],
    ),
    // Between own frames it has nothing to do.
    (
        CALLER,
        Probe(copy!(end!(3, CALLER, 0), FRAME_4, 4, 0)),
        1,
        &[GRANTED],
    ),
    // Own frames need no leg.
    (
        CALLER,
        Copy(copy!(end!(3, CALLER, 0), FRAME_4, 4, 0)),
        2,
        &[access!(CALLERS_3, CALLERS_4, 4), GRANTED],
    ),
    // No bytes are copied at the end of a frame.
    (
        CALLER,
        Copy(copy!(end!(0, OWNER, 4_096), FRAME_3, 0, 1)),
        7,
        &[
            Leg(PAGE),
            access!(spot!(OWNER, 5, 4_096), CALLERS_3, 0),
            Unpin(&[PAGE]),
            GRANTED,
        ],
    ),
    // A range beyond a frame is refused.
    (
        CALLER,
        Copy(copy!(end!(0, OWNER, 1), FRAME_3, 4_096, 1)),
        1,
        &[Refused(Rule::N3, Facts::None)],
    ),
    // A frame of another domain is refused.
    (
        CALLER,
        Copy(copy!(FRAME_3, end!(4, OWNER, 0), 4, 0)),
        1,
        &[Refused(Rule::N4, Facts::None)],
    ),
    // A number above 32 bits is not a reference.
    (
        CALLER,
        Copy(copy!(end!(4_294_967_296, OWNER, 0), FRAME_3, 4, 1)),
        2,
        &[
            Header(OWNER),
            Refused(
                Rule::N9,
                Facts::Header {
                    dom: OWNER,
                    word: HEADER,
                },
            ),
        ],
    ),
    // The page that was looked at first is a sub-page in the next try.
    (
        CALLER,
        FROM_OWNER,
        11,
        &[
            Header(OWNER),
            Try(PAGE, Observation::Missed(0x1000_3000_0009)),
            Try(SUB_PAGE, Observation::Taken),
            access!(OWNERS_6, CALLERS_3, 4),
            Unpin(&[SUB_PAGE]),
            GRANTED,
        ],
    ),
    // A word with all pins is looked at twice. The first time it has changed since, the second time not.
    (
        CALLER,
        FROM_OWNER,
        8,
        &[
            Header(OWNER),
            Control(FULL_PAGE),
            Body(FULL_PAGE),
            Control(PAGE),
            Control(FULL_PAGE),
            Body(FULL_PAGE),
            Control(FULL_PAGE),
            RefusedAt(Rule::N17, FULL_PAGE),
        ],
    ),
    // A Via to no domain is refused.
    (
        CALLER,
        FROM_MIDDLE,
        6,
        &[
            Leg(VIA_TO_SELF),
            Unpin(&[VIA_TO_SELF]),
            Refused(Rule::N1, Facts::None),
        ],
    ),
    // A Via leads to the caller.
    (
        CALLER,
        FROM_MIDDLE,
        12,
        &[
            Leg(VIA_TO_CALLER),
            Leg(PAGE_OF_CALLER),
            access!(CALLERS_6, CALLERS_3, 4),
            Unpin(&[PAGE_OF_CALLER, VIA_TO_CALLER]),
            GRANTED,
        ],
    ),
    // A Via to a Via is refused.
    (
        CALLER,
        FROM_MIDDLE,
        8,
        &[
            Leg(SOURCE_VIA),
            Header(OWNER),
            Control(VIA_BEHIND_SOURCE),
            Unpin(&[SOURCE_VIA]),
            RefusedAt(Rule::N15, VIA_BEHIND_SOURCE),
        ],
    ),
    // After a Via the entry must name the owner of the Via, and not the caller.
    (
        CALLER,
        FROM_MIDDLE,
        8,
        &[
            Leg(SOURCE_VIA),
            Header(OWNER),
            Control(PAGE_FOR_CALLER),
            Unpin(&[SOURCE_VIA]),
            RefusedAt(Rule::N11, PAGE_FOR_CALLER),
        ],
    ),
    // Both ends go through Vias.
    (
        CALLER,
        THROUGH_MIDDLE,
        22,
        &[
            Leg(SOURCE_VIA),
            Leg(BEHIND_SOURCE),
            Leg(DEST_VIA),
            Leg(BEHIND_DEST),
            access!(OWNERS_6, OWNERS_7, 4),
            Unpin(&[BEHIND_DEST, DEST_VIA, BEHIND_SOURCE, SOURCE_VIA]),
            GRANTED,
        ],
    ),
    // The last leg is refused.
    (
        CALLER,
        THROUGH_MIDDLE,
        18,
        &[
            Leg(SOURCE_VIA),
            Leg(BEHIND_SOURCE),
            Leg(DEST_VIA),
            Header(OWNER),
            Control(READ_ONLY_BEHIND_DEST),
            Unpin(&[DEST_VIA, BEHIND_SOURCE, SOURCE_VIA]),
            RefusedAt(Rule::N13, READ_ONLY_BEHIND_DEST),
        ],
    ),
    // The longest copy: each first leg meets a sub-page three times, and each second leg takes one in its last try.
    (
        CALLER,
        THROUGH_MIDDLE,
        72,
        &[
            LongLeg(SUB_AT_SOURCE, SOURCE_VIA),
            LongLeg(SUB_BEHIND_SOURCE, SUB_BEHIND_SOURCE),
            LongLeg(SUB_AT_DEST, DEST_VIA),
            LongLeg(SUB_BEHIND_DEST, SUB_BEHIND_DEST),
            access!(OWNERS_6, OWNERS_6, 4),
            Unpin(&[SUB_BEHIND_DEST, DEST_VIA, SUB_BEHIND_SOURCE, SOURCE_VIA]),
            GRANTED,
        ],
    ),
];

/// A caller that may copy only to the middle domain: a Via needs the rights to the owners of both frames.
pub const TO_MIDDLE: [Row; 1] = [(
    CALLER,
    Copy(copy!(FRAME_3, MIDDLE_1, 4, 2)),
    6,
    &[
        Leg(DEST_VIA),
        Unpin(&[DEST_VIA]),
        Refused(
            Rule::N5,
            Facts::Policy {
                source: TypeId(3),
                target: TypeId(1),
                perm: Perms::COPY,
            },
        ),
    ],
)];
