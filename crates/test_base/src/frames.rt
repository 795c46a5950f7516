//! Frames: what is written can be read, and a call whose allocation failed can be made again.
use crate::compare::{bytes_are, same};
use gt_entry::Entry;
use gt_frames::{Copied, Frame, Read, Writ, WriteBasis, WriteRecord, Written};
use gt_types::{DomId, GrantRef, Memory, Range};
use std::alloc::Global;
use std::process::Abort;

const OWNER: DomId = DomId(1);

const STRANGER: DomId = DomId(2);

const MIDDLE: DomId = DomId(3);

const BY_OWNER: Writ = Writ {
    writer: OWNER,
    basis: WriteBasis::Owned,
};

const BY_A_PAGE: Writ = Writ {
    writer: STRANGER,
    basis: WriteBasis::Granted(Entry::Page {
        dom: STRANGER,
        ro: false,
        frame: 5,
    }),
};

const BY_A_VIA: Writ = Writ {
    writer: OWNER,
    basis: WriteBasis::Forwarded {
        via: Entry::Via {
            dom: OWNER,
            ro: false,
            dom2: STRANGER,
            gref: GrantRef(9),
        },
        middle: MIDDLE,
        entry: Entry::Sub {
            dom: MIDDLE,
            ro: false,
            frame: 3,
            off: 0,
            len: 4096,
        },
    },
};

const WHOLE: Range = Range { off: 0, len: 4096 };

const FIRST_FOUR: Range = Range { off: 0, len: 4 };

// The four bytes starting at the third.
const NEXT_FOUR: Range = Range { off: 2, len: 4 };

// Reads the bytes of a frame, starting at an offset, as many as `room` has. Returns `room` itself if that is too many.
fn bytes(frame: &Frame, off: u16, room: Vec<u8>) -> Vec<u8> {
    if room.len() > 4096 || usize::from(off) + room.len() > 4096 {
        return room;
    }
    frame.read(off, room).into_bytes()
}

// Writes three bytes by a grant. Returns this number of bytes, starting at an offset.
fn written(alloc: Global, off: u16, count: usize) -> Result<Vec<u8>, Memory> {
    let room = vec![in alloc; 7u8; count]?;
    let mut frame = Frame::new(alloc, OWNER, 5)?;
    let _ = frame.write(&BY_A_PAGE, 10, &[0xc0, 0xff, 0xee])?;
    Ok(bytes(&frame, off, room))
}

// Compares the bytes that are read at an offset.
fn reads_back(rt: &impl Abort, alloc: Global, off: u16, wanted: &[u8]) -> Result<(), Memory> {
    let read = written(alloc, off, wanted.len())?;
    bytes_are(rt, read.as_slice(), wanted);
    Ok(())
}

#[test]
fn bytes_written_are_read(rt: HostRuntime) {
    for (off, wanted) in [(9, [0, 0xc0, 0xff, 0xee, 0].as_slice()), (4096, &[])] {
        same(&rt, &reads_back(&rt, rt.alloc(), off, wanted), &Ok(()));
    }
}

// Copies a frame to another. Returns that one's last bytes, its owner and its number.
fn copied(alloc: Global) -> Result<([u8; 3], DomId, u64), Memory> {
    let mut source = Frame::new(alloc, OWNER, 5)?;
    let mut dest = Frame::new(alloc, STRANGER, 3)?;
    let _ = source.write(&BY_OWNER, 4094, &[0xab, 0xcd])?;
    let _ = Frame::copy_between(&source, &mut dest, &BY_A_VIA, WHOLE, 0)?;
    let mut last = [7; 3];
    let _ = dest.read_into(4093, &mut last);
    Ok((last, dest.owner(), dest.number()))
}

#[test]
fn a_frame_is_copied_to_another(rt: HostRuntime) {
    same(
        &rt,
        &copied(rt.alloc()),
        &Ok(([0, 0xab, 0xcd], STRANGER, 3)),
    );
}

// An action on two frames of one owner.
#[derive(Clone, Copy)]
enum Doing {
    Write,
    OneFurther,
    TwoBack,
    ToTheOther,
}

fn done(rt: &impl Abort, frame: &mut Frame, other: &mut Frame, doing: Doing) -> Result<(), Memory> {
    assert!(rt; frame.owner() == OWNER && other.owner() == OWNER);
    match doing {
        Doing::Write => {
            let _ = frame.write(&BY_OWNER, 0, &[1, 2, 3, 4])?;
        }
        Doing::OneFurther => {
            let _ = frame.copy_within(&BY_OWNER, FIRST_FOUR, 1)?;
        }
        Doing::TwoBack => {
            let _ = frame.copy_within(&BY_OWNER, NEXT_FOUR, 0)?;
        }
        Doing::ToTheOther => {
            let _ = Frame::copy_between(frame, other, &BY_OWNER, FIRST_FOUR, 1)?;
        }
    }
    Ok(())
}

// Each action with the first bytes of both frames after it. An overlapping copy takes the bytes that were there before.
static DONE: [(Doing, [u8; 6], [u8; 6]); 4] = [
    (Doing::Write, [1, 2, 3, 4, 0, 0], [0; 6]),
    (Doing::OneFurther, [1, 1, 2, 3, 4, 0], [0; 6]),
    (Doing::ToTheOther, [1, 1, 2, 3, 4, 0], [0, 1, 1, 2, 3, 0]),
    (Doing::TwoBack, [2, 3, 4, 0, 4, 0], [0, 1, 1, 2, 3, 0]),
];

// Returns the first bytes of a frame.
fn beginning(frame: &Frame) -> [u8; 6] {
    let mut first = [7; 6];
    let _ = frame.read_into(0, &mut first);
    first
}

// Takes an action, and again if an allocation failed, which must leave the frames unchanged. Returns the first bytes of
// both after it.
fn done_at_last(
    rt: &impl Abort,
    frame: &mut Frame,
    other: &mut Frame,
    doing: Doing,
) -> Result<([u8; 6], [u8; 6]), Memory> {
    let before = (beginning(frame), beginning(other));
    if done(rt, frame, other, doing).is_err() {
        same(rt, &(beginning(frame), beginning(other)), &before);
        done(rt, frame, other, doing)?;
    }
    Ok((beginning(frame), beginning(other)))
}

// Takes all actions.
fn all_done(rt: &impl Abort, frame: &mut Frame, other: &mut Frame) -> Result<(), Memory> {
    for (doing, behind, others) in DONE.iter() {
        let found = done_at_last(rt, frame, other, *doing)?;
        same(rt, &found, &(*behind, *others));
    }
    Ok(())
}

// Makes a frame of the owner. Tries again if the allocation failed.
fn frame(alloc: Global, number: u64) -> Result<Frame, Memory> {
    match Frame::new(alloc, OWNER, number) {
        Ok(frame) => Ok(frame),
        Err(Memory) => Frame::new(alloc, OWNER, number),
    }
}

fn both_frames_go(rt: &impl Abort, alloc: Global) -> Result<(), Memory> {
    let (mut one, mut other) = (frame(alloc, 0)?, frame(alloc, 1)?);
    all_done(rt, &mut one, &mut other)
}

// With tools/refused.sh, which makes each allocation fail in turn: a call that fails leaves the frames unchanged, and
// does its work when it is made again.
#[test]
fn a_refused_call_can_be_made_again(rt: HostRuntime) {
    same(&rt, &both_frames_go(&rt, rt.alloc()), &Ok(()));
}
