//! Frames in the table of the words, in threads.
ghost use Rattle.std.specs.Prelude.{◌≡◌, IfOk};
ghost use Rattle.gt_frames.specs.declared.writ.WriteBasis.{WriteBasis};
ghost use Rattle.gt_words.specs.Conditions.{IsSeatOf};

use crate::places::{BYTES, at, config, text};
use gt_frames::{FrameName, Spot, Writ, WriteBasis};
use gt_types::{DomId, Range, StartFault};
use gt_words::{FrameCopy, FrameWrite, Seat, Words};
use std::alloc::{AllocError, Global};
use std::process::Abort;
use std::sync::Wait;
use std::test::Fail;
use std::thread;
use std::thread::Threads;
use test_rows::spot;

// Makes the words of two domains, and the seats of both.
fn start(rt: &impl Abort, alloc: Global) -> Result<(Words, Seat, Seat), StartFault>
    ensures { IfOk result (λ r. IsSeatOf r.0 r.1 × IsSeatOf r.0 r.2) }
{
    let Ok(config) = config(alloc) else {
        return Err(StartFault::Memory);
    };
    let (words, mut seats) = Words::new(alloc, &config)?;
    if seats.len() < 2 {
        panic!(rt; "no seats");
    }
    let first = seats.remove(0);
    let second = seats.remove(0);
    Ok((words, first, second))
}

// Returns the first six bytes of a frame.
fn first_bytes<R: Wait>(rt: &R, words: &Words, seat: &mut Seat, frame: FrameName) -> Option<[u8; 6]>
    requires { IsSeatOf words.now seat.old }
    ensures { IsSeatOf words.now seat.new }
{
    let mut out = [7; 6];
    match words.read_frame(rt, seat, frame, 0, &mut out) {
        Some(_) => Some(out),
        None => None,
    }
}

fn by_owner(of: FrameName) -> Writ
    ensures { (result.writer ≡ of.owner) × (result.basis ≡ WriteBasis.Owned) }
{
    Writ {
        writer: of.owner,
        basis: WriteBasis::Owned,
    }
}

// Writes four bytes as the owner, if there is such a frame.
fn wrote<R: Wait>(rt: &R, words: &Words, seat: &mut Seat, to: FrameName) -> bool
    requires { IsSeatOf words.now seat.old }
    ensures { IsSeatOf words.now seat.new }
{
    let writ = by_owner(to);
    let write = FrameWrite {
        writ: &writ,
        off: 0,
        bytes: &BYTES,
    };
    words.write_frame(rt, seat, to, write).is_ok()
}

// Copies four bytes as the owner of the second frame, if there are such frames.
fn copied<R: Wait>(rt: &R, words: &Words, seat: &mut Seat, from: Spot, to: Spot) -> bool
    requires { IsSeatOf words.now seat.old }
    ensures { IsSeatOf words.now seat.new }
{
    let writ = by_owner(to.frame);
    let copy = FrameCopy {
        writ: &writ,
        range: Range {
            off: from.off,
            len: 4,
        },
        to_off: to.off,
    };
    from.off <= 4092
        && to.off <= 4092
        && words
            .copy_frames(rt, seat, from.frame, to.frame, copy)
            .is_ok()
}

// The two ends of a copy, whether it is made, and the first bytes of the frame written then. Both ends are in one
// frame, upwards and downwards over itself, in two frames of a domain and of two domains, with the lower slot as
// source and as destination, and in frames that do not exist.
static COPIES: [(Spot, Spot, &str); 7] = [
    (at!(1, 0, 0), at!(1, 0, 1), "true [1, 1, 2, 3, 4, 0]"),
    (at!(1, 0, 1), at!(1, 0, 0), "true [1, 2, 3, 4, 4, 0]"),
    (at!(1, 0, 0), at!(1, 1, 2), "true [0, 0, 1, 2, 3, 4]"),
    (at!(1, 1, 2), at!(2, 1, 0), "true [1, 2, 3, 4, 0, 0]"),
    (at!(2, 1, 1), at!(1, 0, 0), "true [2, 3, 4, 0, 4, 0]"),
    (at!(1, 0, 0), at!(2, 2, 0), "false none"),
    (at!(3, 0, 0), at!(1, 0, 0), "false [2, 3, 4, 0, 4, 0]"),
];

// Copies, and returns whether it did, and how the frame written to then begins.
fn said<R: Wait>(
    rt: &R,
    alloc: Global,
    words: &Words,
    seat: &mut Seat,
    from: Spot,
    to: Spot,
) -> Result<String, AllocError>
    requires { IsSeatOf words.now seat.old }
    ensures { IsSeatOf words.now seat.new }
{
    let done = copied(rt, words, seat, from, to);
    text(alloc, done, first_bytes(rt, words, seat, to.frame))
}

// The same between frames of the seat's own domain.
static OWN_COPIES: [(Spot, Spot, &str); 5] = [
    (at!(1, 0, 0), at!(1, 0, 1), "true [1, 1, 2, 3, 4, 0]"),
    (at!(1, 0, 1), at!(1, 1, 2), "true [0, 0, 1, 2, 3, 4]"),
    (at!(1, 1, 2), at!(1, 0, 0), "true [1, 2, 3, 4, 4, 0]"),
    (at!(1, 1, 0), at!(1, 2, 0), "false none"),
    (at!(1, 2, 0), at!(1, 1, 0), "false [0, 0, 1, 2, 3, 4]"),
];

// Writes the first bytes and makes these copies. Returns the first copy after which something else is said.
fn first_wrong<R: Wait>(
    rt: &R,
    alloc: Global,
    words: &Words,
    seat: &mut Seat,
    rows: &[(Spot, Spot, &str)],
) -> Result<Option<Spot>, Fail>
    requires { IsSeatOf words.now seat.old }
{
    if !wrote(rt, words, seat, HERE.frame) {
        return Ok(Some(HERE));
    }
    'copies: for (from, to, wanted) in rows.iter() {
        if said(rt, alloc, words, seat, *from, *to)?.as_str() != *wanted {
            return Ok(Some(*from));
        }
    }
    Ok(None)
}

fn first_wrong_of<R: Wait + Abort>(
    rt: &R,
    alloc: Global,
    rows: &[(Spot, Spot, &str)],
) -> Result<Option<Spot>, Fail> {
    let (words, mut seat, _) = start(rt, alloc)?;
    first_wrong(rt, alloc, &words, &mut seat, rows)
}

#[test]
fn frames_are_copied_in_the_table(rt: HostRuntime) -> Result<(), Fail> {
    let wrong = first_wrong_of(&rt, rt.alloc(), &COPIES)?;
    assert_eq!(rt; wrong, None);
    Ok(())
}

#[test]
fn own_frames_are_written_copied_and_read(rt: HostRuntime) -> Result<(), Fail> {
    let wrong = first_wrong_of(&rt, rt.alloc(), &OWN_COPIES)?;
    assert_eq!(rt; wrong, None);
    Ok(())
}

const HERE: Spot = at!(1, 0, 0);

const THERE: Spot = at!(2, 1, 0);

// Copies a thousand times, and counts the copies that were made.
fn copies<R: Wait>(rt: &R, words: &Words, seat: &mut Seat, from: Spot, to: Spot) -> usize
    requires { IsSeatOf words.now seat.old }
    ensures { IsSeatOf words.now seat.new }
{
    let mut done: usize = 0;
    'copies: for _ in 0..1000u32 {
        if copied(rt, words, seat, from, to) {
            done = done.wrapping_add(1);
        }
    }
    done
}

fn forth_and_back<R: Threads + Wait + Sync>(
    rt: &R,
    words: &Words,
    one: &mut Seat,
    mut other: Seat,
) -> (usize, usize)
    requires { IsSeatOf words.now one.old × IsSeatOf words.now other }
    ensures { IsSeatOf words.now one.new }
{
    thread::join_mut(
        rt,
        &mut || copies(rt, words, one, HERE, THERE),
        &mut || copies(rt, words, &mut other, THERE, HERE),
    )
}

// Starts a run in which two threads copy between the same two frames in opposite directions, after a write to each.
// Returns whether these were made, how many copies were, and the first bytes of the second frame.
fn copies_both_ways<R: Threads + Wait + Abort + Sync>(
    rt: &R,
    alloc: Global,
) -> Result<(bool, (usize, usize), Option<[u8; 6]>), StartFault> {
    let (words, mut one, other) = start(rt, alloc)?;
    let begun = wrote(rt, &words, &mut one, HERE.frame) && wrote(rt, &words, &mut one, THERE.frame);
    let counts = forth_and_back(rt, &words, &mut one, other);
    Ok((
        begun,
        counts,
        first_bytes(rt, &words, &mut one, THERE.frame),
    ))
}

// Two threads copy between the same two frames in opposite directions. Neither waits forever.
#[test]
fn two_threads_copy_forth_and_back(rt: HostRuntime) -> Result<(), Fail> {
    let told = copies_both_ways(&rt, rt.alloc())?;
    assert_eq!(rt; told, (true, (1000, 1000), Some([1, 2, 3, 4, 0, 0])));
    Ok(())
}
