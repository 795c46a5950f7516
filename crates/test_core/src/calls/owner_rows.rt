//! Maps, owners' calls and calls by a handle: the requests, and the parts of each call.
use crate::calls::script::Part::{self, Ends, Header, Leg, Refused, RefusedAt, Step, Try};
use crate::calls::script::{CALLER, GRANTED, OWNER, Row, pin, unseen};
use gt_calls::{
    BodyWord, CallResult, EntryChange, Handle, HeldPin, Observation, PinHolder, Request,
    Step as CallStep,
};
use gt_entry::Entry;
use gt_types::{Dir, Facts, GrantRef, Rule};
use test_rows::page;

/// The entry of the owner's page.
pub const PAGE: Entry = page!(CALLER, false, 5);

// Its control words without a pin, and with one read pin.
const IDLE: u64 = 0x1000_3000_0001;

const PINNED: u64 = 0x1000_3000_0011;

/// The pin of a map of it.
pub const MAPPING: HeldPin = pin!(OWNER, 0, Write, PAGE, IDLE);

// A try of a map of the page that is missed.
const MISSES_MAPPING: Part = Try(MAPPING, Observation::Missed(PINNED));

const MAP: Request = Request::Map {
    dom: OWNER,
    gref: GrantRef(0),
    flags: 2,
};

/// A map pins the entry that it looked at, or misses it four times.
pub const MAPS: [Row; 2] = [
    (
        CALLER,
        MAP,
        5,
        &[Leg(MAPPING), Ends(CallResult::Mapped(MAPPING))],
    ),
    (
        CALLER,
        MAP,
        14,
        &[
            Header(OWNER),
            MISSES_MAPPING,
            MISSES_MAPPING,
            MISSES_MAPPING,
            MISSES_MAPPING,
            RefusedAt(Rule::N18, pin!(OWNER, 0, Write, PAGE, PINNED)),
        ],
    ),
];

// The owner's calls.
const GRANT: Request = Request::Grant {
    gref: GrantRef(0),
    entry: PAGE,
};

const WITHDRAW: Request = Request::Withdraw { gref: GrantRef(1) };

const REVOKE: Request = Request::Revoke { gref: GrantRef(1) };

// An exchange by the owner: reference, the word that was looked at, the change, and the observation.
macro_rules! exchange {
    ($gref:expr, $looked:expr, $change:expr, $seen:expr) => {
        Step(
            CallStep::Exchange {
                gref: GrantRef($gref),
                looked: $looked,
                change: $change,
            },
            $seen,
        )
    };
}

// A grant stores the body of the page.
const STORES_BODY: Part = unseen!(CallStep::StoreBody {
    gref: GrantRef(0),
    body_word: BodyWord::First,
    word: 5,
});

// A withdrawal that looks at an entry with a read pin, and misses it.
const WITHDRAWAL_LOOKS: Part = Step(
    CallStep::LookControl {
        dom: OWNER,
        gref: GrantRef(1),
    },
    Observation::Word(PINNED),
);

const WITHDRAWAL_MISSES: Part = exchange!(
    1,
    PINNED,
    EntryChange::Withdraw,
    Observation::Missed(IDLE)
);

/// An owner that grants or revokes looks at nothing. Its entry 0 was never granted, and its entry 1 grants the page.
pub const OWNERS: [Row; 5] = [
    (
        OWNER,
        GRANT,
        3,
        &[
            STORES_BODY,
            exchange!(0, 0, EntryChange::Publish(PAGE), Observation::Missed(0x10)),
            RefusedAt(Rule::N19, pin!(OWNER, 0, Write, PAGE, 0x10)),
        ],
    ),
    (
        OWNER,
        WITHDRAW,
        5,
        &[
            WITHDRAWAL_LOOKS,
            WITHDRAWAL_MISSES,
            WITHDRAWAL_LOOKS,
            exchange!(1, PINNED, EntryChange::Withdraw, Observation::Taken),
            GRANTED,
        ],
    ),
    (
        OWNER,
        WITHDRAW,
        9,
        &[
            WITHDRAWAL_LOOKS,
            WITHDRAWAL_MISSES,
            WITHDRAWAL_LOOKS,
            WITHDRAWAL_MISSES,
            WITHDRAWAL_LOOKS,
            WITHDRAWAL_MISSES,
            WITHDRAWAL_LOOKS,
            WITHDRAWAL_MISSES,
            RefusedAt(Rule::N18, pin!(OWNER, 1, Write, PAGE, IDLE)),
        ],
    ),
    (
        OWNER,
        GRANT,
        3,
        &[
            STORES_BODY,
            exchange!(0, 0, EntryChange::Publish(PAGE), Observation::Taken),
            GRANTED,
        ],
    ),
    (
        OWNER,
        REVOKE,
        2,
        &[
            exchange!(1, IDLE, EntryChange::Revoke, Observation::Missed(PINNED)),
            RefusedAt(Rule::N19, pin!(OWNER, 1, Write, PAGE, PINNED)),
        ],
    ),
];

// A handle that was unmapped, and the one that has its key now.
pub const OLDER: Handle = Handle { serial: 0, key: 0 };

pub const HANDLE: Handle = Handle { serial: 1, key: 0 };

/// Mappings are named by their handles.
pub const BY_HANDLE: [Row; 3] = [
    (
        CALLER,
        Request::Load {
            handle: HANDLE,
            off: 9,
            len: 2,
        },
        2,
        &[
            unseen!(CallStep::Read {
                dom: OWNER,
                frame: 5,
                off: 9,
                len: 2,
            }),
            GRANTED,
        ],
    ),
    (
        CALLER,
        Request::Unmap { handle: HANDLE },
        2,
        &[
            unseen!(CallStep::Unpin {
                held: MAPPING,
                holder: PinHolder::Mapping(HANDLE),
            }),
            GRANTED,
        ],
    ),
    (
        CALLER,
        Request::Unmap { handle: OLDER },
        1,
        &[Refused(Rule::N6, Facts::None)],
    ),
];
