//! Entries, their words and their bytes.
use crate::compare::same;
use gt_entry::{
    Control, Entry, Header, decode, decode_v1, decode_v2, encode_v1, encode_v2, status_word,
};
use gt_types::{Dir, DomId, Field, GrantRef, Range, Use};
use test_rows::{page, sub, via};

// Page entries for domain 2: with frames 5 and 6, with frame 5 read-only, with the largest frame number of version 1,
// and with the next one.
const PAGE: Entry = page!(DomId(2), false, 5);

const PAGE_6: Entry = page!(DomId(2), false, 6);

const READ_ONLY: Entry = page!(DomId(2), true, 5);

const LAST_FRAME: Entry = page!(DomId(2), true, 4_294_967_295);

const PAST_THE_LAST: Entry = page!(DomId(2), true, 4_294_967_296);

// A read-only part of a page, for domain 3, and a transitive entry.
const SUB: Entry = Entry::Sub {
    dom: DomId(3),
    ro: true,
    frame: 7,
    off: 100,
    len: 50,
};

const VIA: Entry = via!(DomId(2), false, DomId(3), GrantRef(7));

// Entries with their generation, read pins and write pins, and the control word.
static WORDS: [(Entry, u32, u16, u16, u64); 5] = [
    (PAGE, 1, 0, 0, 0x0000_1000_2000_0001),
    (PAGE, 1, 4_095, 1, 0x0000_1000_2001_fff1),
    (Entry::Invalid, 1, 0, 0, 0x0000_1000_0000_0000),
    (Entry::Invalid, 1, 0, 1, 0x0000_1000_0001_0000),
    (PAGE_6, 2, 0, 0, 0x0000_2000_2000_0001),
];

#[test]
fn packs_the_words_of_entries(rt: HostRuntime) {
    for (entry, generation, reads, writes, word) in WORDS.iter() {
        let control = Control::of_entry(*entry, *generation, *reads, *writes);
        same(
            &rt,
            &(control.pack(), Control::unpack(*word)),
            &(*word, control),
        );
    }
}

// Returns the control word of a page with this number of pins.
fn pins(count: (u16, u16)) -> Control {
    Control::of_entry(PAGE, 1, count.0, count.1)
}

// Numbers of read and write pins, their status word, and the numbers with one more pin of this kind, if there is room.
static PINS: [((u16, u16), u16, Dir, Option<(u16, u16)>); 5] = [
    ((0, 0), 0, Dir::Read, Some((1, 0))),
    ((1, 0), 0x0008, Dir::Write, Some((1, 1))),
    ((1, 1), 0x0018, Dir::Write, Some((1, 2))),
    ((4_095, 1), 0x0018, Dir::Read, None),
    ((4_095, 1), 0x0018, Dir::Write, Some((4_095, 2))),
];

#[test]
fn counts_pins(rt: HostRuntime) {
    for (before, status, dir, after) in PINS.iter() {
        let control = pins(*before);
        let pinned = match after {
            Some(after) => Some(pins(*after)),
            None => None,
        };
        let found = (status_word(&control), control.pinned(*dir), control.idle());
        same(&rt, &found, &(*status, pinned, pins((0, 0))));
    }
}

// Entries with their body words.
static BODIES: [(Entry, u64, u64); 3] = [
    (READ_ONLY, 5, 0),
    (SUB, 7, 0x0032_0064),
    (VIA, 0x0007_0003, 0),
];

#[test]
fn spells_every_kind(rt: HostRuntime) {
    for (entry, first, second) in BODIES.iter() {
        let control = Control::of_entry(*entry, 1, 0, 0);
        let spelled = Entry::spelled(control, *first, *second);
        let found = (entry.first_body(), entry.second_body(), spelled);
        same(&rt, &found, &(*first, *second, *entry));
    }
}

#[test]
fn packs_headers(rt: HostRuntime) {
    for (version, frames, word, entries) in [
        (2, 16, 66, 4_096),
        (1, 16, 65, 8_192),
        (1, 1, 5, 512),
    ] {
        let header = Header { version, frames };
        let found = (header.pack(), Header::unpack(word), header.entries());
        same(&rt, &found, &(word, header, entries));
    }
}

// A part of a page that may be written, for domain 2.
const WRITABLE_SUB: Entry = sub!(DomId(2), 5, 100, 50);

// Ranges: the part itself, one that passes its end by a byte, an empty one at its end, and empty ones beyond either
// end.
static RANGES: [Range; 5] = [
    Range { off: 100, len: 50 },
    Range { off: 149, len: 2 },
    Range { off: 150, len: 0 },
    Range { off: 151, len: 0 },
    Range { off: 99, len: 0 },
];

// Entries with the number of a domain and its use, and for each range whether that is permitted.
static PERMITTED: [(Entry, u16, Dir, Use, [bool; 5]); 5] = [
    (
        WRITABLE_SUB,
        2,
        Dir::Write,
        Use::Copy,
        [true, false, true, false, false],
    ),
    (WRITABLE_SUB, 2, Dir::Read, Use::Map, [false; 5]),
    (WRITABLE_SUB, 3, Dir::Read, Use::Copy, [false; 5]),
    (READ_ONLY, 2, Dir::Read, Use::Map, [true; 5]),
    (READ_ONLY, 2, Dir::Write, Use::Map, [false; 5]),
];

#[test]
fn permits_inside_a_sub_page(rt: HostRuntime) {
    for (entry, dom, dir, purpose, wanted) in PERMITTED.iter() {
        for (range, wanted) in RANGES.iter().zip(wanted.iter()) {
            let found = entry.permits(DomId(*dom), *dir, *purpose, *range);
            same(&rt, &found, wanted);
        }
    }
}

// Bytes of version 1 with the entry that they are, or the field that is refused.
static OF_VERSION_1: [([u8; 8], Result<Entry, Field>); 9] = [
    ([9, 0, 2, 0, 5, 0, 0, 0], Err(Field::Reading)),
    ([1, 0, 2, 0, 5, 0, 0, 0], Ok(PAGE)),
    ([1, 1, 2, 0, 5, 0, 0, 0], Err(Field::SubPage)),
    ([3, 0, 2, 0, 5, 0, 0, 0], Err(Field::Kind)),
    ([0x0b, 1, 2, 0, 5, 0, 0, 0], Err(Field::Kind)),
    ([0x21, 1, 2, 0, 5, 0, 0, 0], Err(Field::Pwt)),
    ([3, 1, 2, 0, 5, 0, 0, 0], Err(Field::Kind)),
    ([1, 2, 2, 0, 5, 0, 0, 0], Err(Field::Reserved)),
    ([5, 0, 2, 0, 0xff, 0xff, 0xff, 0xff], Ok(LAST_FRAME)),
];

#[test]
fn reads_version_1(rt: HostRuntime) {
    for (bytes, read) in OF_VERSION_1.iter() {
        same(&rt, &(decode_v1(bytes), decode(1, bytes)), &(*read, *read));
    }
}

// The same of version 2.
static OF_VERSION_2: [([u8; 16], Result<Entry, Field>); 8] = [
    (SUB_BYTES, Ok(SUB)),
    ([3, 0, 2, 0, 3, 0, 9, 9, 7, 0, 0, 0, 8, 8, 8, 8], Ok(VIA)),
    ([1, 0, 2, 0, 9, 9, 9, 9, 5, 0, 0, 0, 0, 0, 0, 0], Ok(PAGE)),
    (
        [0x0b, 1, 2, 0, 3, 0, 0, 0, 7, 0, 0, 0, 0, 0, 0, 0],
        Err(Field::Reading),
    ),
    (
        [0x21, 1, 2, 0, 3, 0, 0, 0, 7, 0, 0, 0, 0, 0, 0, 0],
        Err(Field::Pwt),
    ),
    (
        [3, 1, 2, 0, 3, 0, 0, 0, 7, 0, 0, 0, 0, 0, 0, 0],
        Err(Field::SubPage),
    ),
    (
        [1, 2, 2, 0, 3, 0, 0, 0, 7, 0, 0, 0, 0, 0, 0, 0],
        Err(Field::Reserved),
    ),
    (
        [2, 0, 2, 0, 3, 0, 0, 0, 7, 0, 0, 0, 0, 0, 0, 0],
        Err(Field::Kind),
    ),
];

#[test]
fn reads_version_2(rt: HostRuntime) {
    for (bytes, read) in OF_VERSION_2.iter() {
        same(&rt, &(decode_v2(bytes), decode(2, bytes)), &(*read, *read));
    }
}

// Versions with bytes of a length that they don't have.
static OTHER_LENGTHS: [(u8, &[u8]); 6] = [
    (1, &[1, 0, 2, 0, 5, 0, 0]),
    (1, &[0; 16]),
    (2, &[1, 0, 2, 0, 5, 0, 0, 0]),
    (0, &[1, 0, 2, 0, 5, 0, 0, 0]),
    (3, &[1, 0, 2, 0, 5, 0, 0, 0]),
    (3, &[1, 0, 2, 0, 5, 0, 0, 0, 7, 0, 0, 0, 0, 0, 0, 0]),
];

#[test]
fn refuses_other_lengths(rt: HostRuntime) {
    for (version, bytes) in OTHER_LENGTHS.iter() {
        same(&rt, &decode(*version, bytes), &Err(Field::Length));
    }
}

const PAGE_BYTES: [u8; 8] = [1, 0, 2, 0, 5, 0, 0, 0];

// The same page in version 2, and the one whose frame number needs more than 32 bits.
const LONG_PAGE_BYTES: [u8; 16] = [1, 0, 2, 0, 0, 0, 0, 0, 5, 0, 0, 0, 0, 0, 0, 0];

const PAST_THE_LAST_BYTES: [u8; 16] = [5, 0, 2, 0, 0, 0, 0, 0, 0, 0, 0, 0, 1, 0, 0, 0];

const SUB_BYTES: [u8; 16] = [5, 1, 3, 0, 100, 0, 50, 0, 7, 0, 0, 0, 0, 0, 0, 0];

const VIA_BYTES: [u8; 16] = [3, 0, 2, 0, 3, 0, 0, 0, 7, 0, 0, 0, 0, 0, 0, 0];

// Entries with their bytes in both versions.
static WRITTEN: [(Entry, Option<[u8; 8]>, Option<[u8; 16]>); 5] = [
    (PAGE, Some(PAGE_BYTES), Some(LONG_PAGE_BYTES)),
    (PAST_THE_LAST, None, Some(PAST_THE_LAST_BYTES)),
    (SUB, None, Some(SUB_BYTES)),
    (VIA, None, Some(VIA_BYTES)),
    (Entry::Invalid, None, None),
];

#[test]
fn writes_what_it_reads(rt: HostRuntime) {
    for (entry, bytes_v1, bytes_v2) in WRITTEN.iter() {
        let found = (encode_v1(entry), encode_v2(entry));
        same(&rt, &found, &(*bytes_v1, *bytes_v2));
    }
}

// Decodes an entry with these flags: in version 1 a page, and in version 2 words that fit each kind.
fn of_flags(version: u32, flags: u16) -> Result<Entry, Field> {
    let [low, high] = flags.to_le_bytes();
    if version == 1 {
        decode_v1(&[low, high, 2, 0, 5, 0, 0, 0])
    } else {
        decode_v2(&[low, high, 2, 0, 3, 0, 0, 0, 7, 0, 0, 0, 0, 0, 0, 0])
    }
}

// Counts the flags that are refused by a field.
fn refused(version: u32, field: Field) -> u32 {
    let mut count: u32 = 0;
    for flags in 0..=u16::MAX {
        if of_flags(version, flags) == Err(field) {
            count = count.wrapping_add(1);
        }
    }
    count
}

// Counted by hand. In version 1 three of four flags have another type. Of the rest half have the reading bit, half of
// the remaining ones the writing bit, and so on to the sub-page bit. 256 have none of these, and two of them no bit
// from 9 to 15. In version 2 half of the flags have another type, and of the rest each bit up to PAT takes half. 1,024
// have none of these: 256 are of type 3 with the sub-page bit, and 6 of the others have no bit from 9 to 15.
#[test]
fn counts_the_flags_that_are_refused(rt: HostRuntime) {
    for (field, of_version_1, of_version_2) in [
        (Field::Length, 0, 0),
        (Field::Kind, 49_152, 32_768),
        (Field::Reading, 8_192, 16_384),
        (Field::Writing, 4_096, 8_192),
        (Field::Pwt, 2_048, 4_096),
        (Field::Pcd, 1_024, 2_048),
        (Field::Pat, 512, 1_024),
        (Field::SubPage, 256, 256),
        (Field::Reserved, 254, 762),
    ] {
        let found = (field, refused(1, field), refused(2, field));
        same(&rt, &found, &(field, of_version_1, of_version_2));
    }
}

fn takes(version: u32, flags: u16) -> bool {
    of_flags(version, flags).is_ok()
}

// Two flags are accepted in version 1, and six in version 2.
#[test]
fn takes_two_flags_and_six(rt: HostRuntime) {
    for flags in 0..=u16::MAX {
        let found = (flags, takes(1, flags), takes(2, flags));
        let wanted = (
            flags,
            matches!(flags, 1 | 5),
            matches!(flags, 1 | 3 | 5 | 7 | 257 | 261),
        );
        same(&rt, &found, &wanted);
    }
}
