//! The frames of a run, found by owner and number.
use crate::places::{BYTES, at, config, text};
use gt_frames::{FrameName, Frames, Spot, Writ, WriteBasis};
use gt_types::{DomId, Range};
use std::alloc::{AllocError, Global};
use std::test::Fail;
use test_rows::spot;

fn writ(of: Spot) -> Writ {
    Writ {
        writer: of.frame.owner,
        basis: WriteBasis::Owned,
    }
}

// Writes these bytes as the owner, if the frame has that range.
fn wrote(frames: &mut Frames, to: Spot, bytes: &[u8]) -> bool {
    let Ok(len) = u16::try_from(bytes.len()) else {
        return false;
    };
    let writ = writ(to);
    frames.admits(to.frame, &writ, Range { off: to.off, len })
        && frames.write(to.frame, &writ, to.off, bytes).is_ok()
}

// Copies as the owner of the second spot, if both frames have those ranges.
fn copied(frames: &mut Frames, from: Spot, to: Spot, len: u16) -> bool {
    let writ = writ(to);
    frames.has_range(from.frame, Range { off: from.off, len })
        && frames.admits(to.frame, &writ, Range { off: to.off, len })
        && frames.copy(&writ, from, to, len).is_ok()
}

// Returns the first six bytes of a frame.
fn first_bytes(frames: &Frames, name: FrameName) -> Option<[u8; 6]> {
    let mut out = [7; 6];
    match frames.get(name) {
        Some(frame) => {
            frame.read_into(0, &mut out);
            Some(out)
        }
        None => None,
    }
}

// The two ends of a copy, its length, whether it is made, and the first bytes of the frame written then: two frames of
// a domain, in both directions, one frame upwards and downwards over itself, and two frames of two domains, in both
// directions.
static COPIES: [(Spot, Spot, u16, &str); 11] = [
    (at!(1, 0, 0), at!(1, 1, 1), 4, "true [0, 1, 2, 3, 4, 0]"),
    (at!(1, 1, 1), at!(1, 0, 2), 2, "true [1, 2, 1, 2, 0, 0]"),
    (at!(1, 1, 1), at!(1, 1, 2), 4, "true [0, 1, 1, 2, 3, 4]"),
    (at!(1, 1, 2), at!(1, 1, 0), 4, "true [1, 2, 3, 4, 3, 4]"),
    (at!(1, 1, 0), at!(2, 1, 0), 4096, "true [1, 2, 3, 4, 3, 4]"),
    (at!(2, 1, 4), at!(1, 0, 0), 1, "true [3, 2, 1, 2, 0, 0]"),
    (at!(2, 0, 0), at!(2, 1, 0), 2, "true [0, 0, 3, 4, 3, 4]"),
    (
        at!(2, 1, 4096),
        at!(1, 0, 4096),
        0,
        "true [3, 2, 1, 2, 0, 0]",
    ),
    (at!(2, 1, 4096), at!(1, 0, 0), 1, "false [3, 2, 1, 2, 0, 0]"),
    (at!(2, 2, 0), at!(1, 0, 0), 1, "false [3, 2, 1, 2, 0, 0]"),
    (at!(2, 1, 0), at!(3, 0, 0), 1, "false none"),
];

// Copies, and returns whether it did, and how the frame written to then begins.
fn said(
    alloc: Global,
    frames: &mut Frames,
    from: Spot,
    to: Spot,
    len: u16,
) -> Result<String, AllocError> {
    let done = copied(frames, from, to, len);
    text(alloc, done, first_bytes(frames, to.frame))
}

// Writes the first bytes and makes the copies. Returns the first copy after which something else is said.
fn first_wrong(alloc: Global, frames: &mut Frames) -> Result<Option<Spot>, Fail> {
    if !wrote(frames, at!(1, 0, 0), &BYTES) {
        return Ok(Some(at!(1, 0, 0)));
    }
    for (from, to, len, wanted) in COPIES.iter() {
        if said(alloc, frames, *from, *to, *len)?.as_str() != *wanted {
            return Ok(Some(*from));
        }
    }
    Ok(None)
}

fn first_wrong_among_all(alloc: Global) -> Result<Option<Spot>, Fail> {
    let mut frames = Frames::new(alloc, &config(alloc)?)?;
    first_wrong(alloc, &mut frames)
}

#[test]
fn frames_are_copied_by_name(rt: HostRuntime) -> Result<(), Fail> {
    let wrong = first_wrong_among_all(rt.alloc())?;
    assert_eq!(rt; wrong, None);
    Ok(())
}
