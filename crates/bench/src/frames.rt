//! Accesses to frames, and releases of map handles, in loops.
//!
//! `frames WORK COUNT` does the work COUNT times. WORK is `writes`, `reads` or `copies` (of 4,096 bytes), `overlaps`
//! (copies of 4,095 bytes within one frame), `words` (writes of 4 bytes), `named` (copies of 4,096 bytes among the 1,024
//! frames of 16 domains), `locks` (reads of no bytes of one of these frames in the shared table), `locked` (copies of
//! 4,096 bytes between two of them) or `handles` (COUNT in use, then all popped).
ghost use Rattle.std.specs.Prelude.{◌≡◌, IfOk};
ghost use Rattle.gt_words.specs.Conditions.{IsSeatOf};

use crate::line::{number_at, word_at};
use crate::stops::Stop;
use gt_frames::{Frame, FrameName, Frames, Spot, Writ, WriteBasis};
use gt_handles::Handles;
use gt_types::{Config, DomId, DomainConfig, FRAME_SIZE, Range, TypeId};
use gt_words::{FrameCopy, Seat, Words};
use std::alloc::{AllocError, Global};
use std::sync::Wait;

const OWNER: DomId = DomId(1);

const BY_OWNER: Writ = Writ {
    writer: OWNER,
    basis: WriteBasis::Owned,
};

/// The range of a whole frame.
const WHOLE: Range = Range {
    off: 0,
    len: FRAME_SIZE,
};

/// The range of a frame without its last byte.
const BUT_THE_LAST: Range = Range {
    off: 0,
    len: FRAME_SIZE - 1,
};

/// Writes these bytes to the start of the frame. Returns how often.
fn write_all(frame: &mut Frame, bytes: &[u8], times: u32) -> u32 {
    for done in 0..times {
        if frame.owner() != OWNER || bytes.len() > usize::from(FRAME_SIZE) {
            return done;
        }
        if frame.write(&BY_OWNER, 0, bytes).is_err() {
            return done;
        }
    }
    times
}

/// Reads the start of the frame over these bytes. Returns how often.
fn read_all(frame: &Frame, bytes: Vec<u8>, times: u32) -> u32 {
    let mut bytes = bytes;
    for done in 0..times {
        if bytes.len() > usize::from(FRAME_SIZE) {
            return done;
        }
        bytes = frame.read(0, bytes).into_bytes();
    }
    times
}

/// Copies one whole frame to another. Returns how often.
fn copy_all(from: &Frame, to: &mut Frame, times: u32) -> u32 {
    for done in 0..times {
        if to.owner() != OWNER {
            return done;
        }
        if Frame::copy_between(from, to, &BY_OWNER, WHOLE, 0).is_err() {
            return done;
        }
    }
    times
}

/// Moves a frame's bytes up by one. Returns how often.
fn shift_all(frame: &mut Frame, times: u32) -> u32 {
    for done in 0..times {
        if frame.owner() != OWNER {
            return done;
        }
        if frame.copy_within(&BY_OWNER, BUT_THE_LAST, 1).is_err() {
            return done;
        }
    }
    times
}

/// Returns a configuration of 16 domains, each with 64 frames.
fn config(alloc: Global) -> Result<Config, AllocError> {
    let mut domains = Vec::new(alloc);
    for id in 0..16u16 {
        domains.push(DomainConfig {
            id: DomId(id),
            label: TypeId(0),
            frames: 64,
            table_frames: 1,
            version: 1,
        })?;
    }
    Ok(Config {
        domains,
        first_gen: 0,
    })
}

/// Returns a frame of a domain other than the owner.
fn far() -> FrameName
    ensures { result ≡ record { owner = record { 0 = 15 }; number = 63 } }
{
    FrameName {
        owner: DomId(15),
        number: 63,
    }
}

/// Returns a frame of the owner.
fn near() -> FrameName
    ensures { result ≡ record { owner = record { 0 = 1 }; number = 2 } }
{
    FrameName {
        owner: OWNER,
        number: 2,
    }
}

/// Copies one whole frame of the run to another. Returns how often.
fn copy_named(frames: &mut Frames, times: u32) -> u32 {
    let from = Spot {
        frame: far(),
        off: 0,
    };
    let to = Spot {
        frame: near(),
        off: 0,
    };
    for done in 0..times {
        if !frames.has_range(from.frame, WHOLE) || !frames.admits(to.frame, &BY_OWNER, WHOLE) {
            return done;
        }
        if frames.copy(&BY_OWNER, from, to, FRAME_SIZE).is_err() {
            return done;
        }
    }
    times
}

/// Reads no bytes of a frame of the table, so its lock is taken and freed. Returns how often.
fn lock_all<R: Wait>(rt: &R, words: &Words, seat: &mut Seat, times: u32) -> u32
    requires { IsSeatOf words.now seat.old }
{
    'reads: for done in 0..times {
        if words.read_frame(rt, seat, far(), 0, &mut []).is_none() {
            return done;
        }
    }
    times
}

/// Copies one whole frame of the table to another. Returns how often.
fn copy_locked<R: Wait>(rt: &R, words: &Words, seat: &mut Seat, times: u32) -> u32
    requires { IsSeatOf words.now seat.old }
{
    let (source, dest) = (far(), near());
    let copy = FrameCopy {
        writ: &BY_OWNER,
        range: WHOLE,
        to_off: 0,
    };
    'copies: for done in 0..times {
        if words.copy_frames(rt, seat, source, dest, copy).is_err() {
            return done;
        }
    }
    times
}

/// Inserts this number of values under handles.
fn fill(handles: &mut Handles<u32>, count: u32) {
    for value in 0..count {
        if handles.reserve().is_err() {
            return;
        }
        if handles.given() < u64::MAX {
            let _ = handles.insert(value);
        }
    }
}

/// Pops all values, at most this number. Returns how many there were.
fn pop_all(handles: &mut Handles<u32>, count: u32) -> u32 {
    for done in 0..count {
        if handles.pop().is_none() {
            return done;
        }
    }
    count
}

// Does the work on two frames, with a page of bytes. Returns how often.
fn repeat(frame: &mut Frame, other: &mut Frame, page: Vec<u8>, work: &str, count: u32) -> u32 {
    match work {
        "writes" => write_all(frame, page.as_slice(), count),
        "words" => write_all(frame, &[1, 2, 3, 4], count),
        "reads" => read_all(frame, page, count),
        "copies" => copy_all(frame, other, count),
        _ => shift_all(frame, count),
    }
}

fn work_on_frames(alloc: Global, work: &str, count: u32) -> Result<u32, Stop> {
    let mut frame = Frame::new(alloc, OWNER, 0)?;
    let mut other = Frame::new(alloc, OWNER, 1)?;
    let page = vec![in alloc; 90u8; FRAME_SIZE as usize]?;
    Ok(repeat(&mut frame, &mut other, page, work, count))
}

fn work_on_run(alloc: Global, count: u32) -> Result<u32, Stop> {
    let mut frames = Frames::new(alloc, &config(alloc)?)?;
    Ok(copy_named(&mut frames, count))
}

/// Makes the words of the run, with its frames, and a seat.
fn start(alloc: Global) -> Result<(Words, Seat), Stop>
    ensures { IfOk result (λ r. IsSeatOf r.0 r.1) }
{
    let (words, mut seats) = Words::new(alloc, &config(alloc)?)?;
    if seats.is_empty() {
        return Err(Stop::NotStarted);
    }
    let seat = seats.remove(0);
    Ok((words, seat))
}

// Does the work on the table. Returns how often.
fn repeat_on_table<R: Wait>(rt: &R, words: &Words, seat: &mut Seat, work: &str, count: u32) -> u32
    requires { IsSeatOf words.now seat.old }
{
    match work {
        "locks" => lock_all(rt, words, seat, count),
        _ => copy_locked(rt, words, seat, count),
    }
}

fn work_on_table<R: Wait>(rt: &R, alloc: Global, work: &str, count: u32) -> Result<u32, Stop> {
    let (words, mut seat) = start(alloc)?;
    Ok(repeat_on_table(rt, &words, &mut seat, work, count))
}

fn work_on_handles(alloc: Global, count: u32) -> u32 {
    let mut handles = Handles::new(alloc);
    fill(&mut handles, count);
    pop_all(&mut handles, count)
}

// Does the work of this name. Returns how often.
fn work_on<R: Wait>(rt: &R, alloc: Global, work: &str, count: u32) -> Result<u32, Stop> {
    match work {
        "writes" | "words" | "reads" | "copies" | "overlaps" => work_on_frames(alloc, work, count),
        "named" => work_on_run(alloc, count),
        "locks" | "locked" => work_on_table(rt, alloc, work, count),
        "handles" => Ok(work_on_handles(alloc, count)),
        _ => Err(Stop::Words),
    }
}

/// Does the work that the words name, and appends a line with what it did.
pub(crate) fn measure<R: Wait>(
    rt: &R,
    alloc: Global,
    words: &[String],
    said: &mut String,
) -> Result<(), Stop> {
    let work = word_at(words, 1, "");
    let done = work_on(rt, alloc, work, number_at(words, 2, "")?)?;
    Ok(writeln!(said, "{work} {done}")?)
}
