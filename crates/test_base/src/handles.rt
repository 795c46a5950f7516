//! Handles that are given only once, and keys that are used again.
use crate::compare::{same, text_is};
use gt_handles::{Handle, Handles};
use std::alloc::{AllocError, Global};
use std::process::Abort;

// Adds a value, as a caller would.
fn add(rt: &impl Abort, handles: &mut Handles<u32>, value: u32) -> Handle {
    assert!(rt; handles.reserve().is_ok() && handles.given() < 100);
    handles.insert(value)
}

const TAKEN: &str =
    "Handle { serial: 0, key: 0 } Some(7) Some(7) None Handle { serial: 1, key: 0 } None Some(8) 2";

// Takes a value, and adds another. Returns what is found by both handles.
fn taken(rt: &impl Abort, alloc: Global) -> Result<String, AllocError> {
    let mut handles = Handles::new(alloc);
    let first = add(rt, &mut handles, 7);
    let found = handles.get(first).copied();
    let taken = handles.take(first);
    let gone = handles.take(first);
    let second = add(rt, &mut handles, 8);
    let old = handles.get(first).copied();
    let new = handles.get(second).copied();
    let given = handles.given();
    format!(in alloc; "{first:?} {found:?} {taken:?} {gone:?} {second:?} {old:?} {new:?} {given}")
}

#[test]
fn a_taken_handle_is_not_found_again(rt: HostRuntime) {
    text_is(&rt, taken(&rt, rt.alloc()), TAKEN);
}

// The handles of three values and of one that has the key of the middle one, what was taken there, how many values
// there are then, what is popped, and how many are left.
type Popped = (
    [Handle; 4],
    Option<u32>,
    usize,
    [Option<(Handle, u32)>; 4],
    usize,
);

const FIRST: Handle = Handle { serial: 0, key: 0 };

const MIDDLE: Handle = Handle { serial: 1, key: 1 };

const LAST: Handle = Handle { serial: 2, key: 2 };

const AGAIN: Handle = Handle { serial: 3, key: 1 };

const POPPED: Popped = (
    [FIRST, MIDDLE, LAST, AGAIN],
    Some(11),
    3,
    [Some((FIRST, 10)), Some((AGAIN, 13)), Some((LAST, 12)), None],
    0,
);

fn popped(rt: &impl Abort, alloc: Global) -> Popped {
    let mut handles = Handles::new(alloc);
    let first = add(rt, &mut handles, 10);
    let middle = add(rt, &mut handles, 11);
    let last = add(rt, &mut handles, 12);
    let taken = handles.take(middle);
    let again = add(rt, &mut handles, 13);
    let count = handles.len();
    let popped = [handles.pop(), handles.pop(), handles.pop(), handles.pop()];
    (
        [first, middle, last, again],
        taken,
        count,
        popped,
        handles.len(),
    )
}

// A value that was removed leaves its key to the next. Then the values come by their keys.
#[test]
fn the_least_key_is_popped_first(rt: HostRuntime) {
    same(&rt, &popped(&rt, rt.alloc()), &POPPED);
}

// Returns the numbers of values and of handles given after a failed reservation, or those of an empty map. Then what is
// found after the reservation was made again, and the number of values.
fn reserved_again(rt: &impl Abort, alloc: Global) -> ((usize, u64), Option<u32>, usize) {
    let mut handles = Handles::new(alloc);
    let _ = handles.reserve();
    let before = (handles.len(), handles.given());
    let first = add(rt, &mut handles, 7);
    (before, handles.get(first).copied(), handles.len())
}

// With tools/refused.sh, which makes each allocation fail in turn: after a failed reservation the map is unchanged, and
// the reservation can be tried again.
#[test]
fn refused_room_can_be_asked_for_again(rt: HostRuntime) {
    same(&rt, &reserved_again(&rt, rt.alloc()), &((0, 0), Some(7), 1));
}
