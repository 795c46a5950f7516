//! The bytes that a step accesses, and when two steps conflict.
ghost use Rattle.std.specs.Prelude.{◌≡◌, ◌↔◌, ◌<◌, ◌+◌, Some, IsTrue};
ghost use Rattle.gt_explore_races.specs.Accesses.{Conflict, ShareByte, bytes_read, bytes_written};

use gt_calls::Step;
use gt_types::{DomId, Spot};

/// Bytes of a frame: `len` of them, starting at `off`.
#[derive(Clone, Copy)]
pub struct FrameBytes {
    pub owner: DomId,
    pub frame: u64,
    pub off: usize,
    pub len: usize,
}

// Returns the bytes at this position.
fn bytes_at(spot: Spot, len: u16) -> FrameBytes
    ensures { result ≡ record {
      owner = spot.frame.owner;
      frame = spot.frame.number;
      off = spot.off;
      len = len;
    } }
{
    FrameBytes {
        owner: spot.frame.owner,
        frame: spot.frame.number,
        off: usize::from(spot.off),
        len: usize::from(len),
    }
}

// Returns the bytes that a step reads.
fn bytes_read(step: Step) -> Option<FrameBytes>
    ensures { result ≡ bytes_read step }
{
    match step {
        Step::Read {
            dom,
            frame,
            off,
            len,
        } => Some(FrameBytes {
            owner: dom,
            frame,
            off: usize::from(off),
            len: usize::from(len),
        }),
        Step::Copy { from, len, .. } => Some(bytes_at(from, len)),
        _ => None,
    }
}

// Returns the bytes that a step writes.
fn bytes_written(step: Step) -> Option<FrameBytes>
    ensures { result ≡ bytes_written step }
{
    match step {
        Step::Write {
            dom,
            frame,
            off,
            len,
        } => Some(FrameBytes {
            owner: dom,
            frame,
            off: usize::from(off),
            len,
        }),
        Step::Copy { to, len, .. } => Some(bytes_at(to, len)),
        _ => None,
    }
}

// Returns whether bytes from `off` on, `len` of them, go past the index `start`.
fn reaches(start: usize, off: usize, len: usize) -> bool
    ensures { IsTrue result ↔ (start < off + len) }
{
    start < off || start - off < len
}

// Returns whether these bytes have one in common.
fn overlap(one: FrameBytes, other: FrameBytes) -> bool
    ensures { IsTrue result ↔ ShareByte (Some one) (Some other) }
{
    if one.owner.0 != other.owner.0 || one.frame != other.frame {
        return false;
    }
    if one.len == 0 || other.len == 0 || !reaches(one.off, other.off, other.len) {
        return false;
    }
    reaches(other.off, one.off, one.len)
}

// Returns whether these bytes have one in common, if there are both.
fn share_byte(one: Option<FrameBytes>, other: Option<FrameBytes>) -> bool
    ensures { IsTrue result ↔ ShareByte one other }
{
    match (one, other) {
        (Some(one), Some(other)) => overlap(one, other),
        _ => false,
    }
}

/// Returns whether two steps conflict: they access a common byte, and at least one of them writes it.
pub fn conflict(first: Step, second: Step) -> bool
    ensures { IsTrue result ↔ Conflict first second }
{
    let written = bytes_written(first);
    if share_byte(written, bytes_written(second)) {
        return true;
    }
    if share_byte(written, bytes_read(second)) {
        return true;
    }
    share_byte(bytes_read(first), bytes_written(second))
}
