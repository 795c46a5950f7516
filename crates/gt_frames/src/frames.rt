//! The frames of a run, for one thread.
ghost use Rattle.std.specs.Prelude.{◌≡◌, ◌+◌, ◌<◌, ◌≤◌, slice_get, Some, ◌^◌, ◌++◌, [], ◌∷◌, length, map, set};
ghost use Rattle.std.specs.Prelude.{get_or, vec_len, IsTrue, IsSome, IfOk, IfSome, OnOk, OnErr, ◌↔◌};
ghost use Rattle.std.specs.List.{flat_map};
ghost use Rattle.gt_frames.specs.Frames.{FrameState, covers};
ghost use Rattle.gt_frames.specs.Receipts.{copying_of};
ghost use Rattle.gt_frames.specs.Sets.{zero_frames, CopiesAmong};

use crate::places::{frame_counts, number_in_pool};
use crate::{Copied, Frame, FrameCount, FrameName, Spot, Writ, Written};
use gt_types::{Config, DomId, FRAME_SIZE, Memory, Range};
use std::alloc::Global;
use std::marker::Model;

/// The frames of a run, each by its owner and number.
#[derive(Drop)]
pub struct Frames {
    domains: Vec<FrameCount>,
    frames: Vec<Frame>,
}

impl Model for Frames {
    ghost use Rattle.std.specs.Prelude.{map};
    ghost use Rattle.gt_frames.specs.Sets.{FrameSet, AreLaidOut, journal_of};

    ghost Value = { FrameSet };

    ghost view = { λ fs. record { domains = fs.domains.items; journals = map journal_of fs.frames.items } };

    ghost invariant = { λ fs. AreLaidOut fs.domains.items fs.frames.items };
}

// Appends the frames of one more domain, all zeros.
fn with_domain(
    alloc: Global,
    frames: Vec<Frame>,
    owner: DomId,
    count: u32,
) -> Result<Vec<Frame>, Memory>
    ensures { IfOk result (λ all.
        all.items ≡ frames.items ++ zero_frames (record { owner = owner; frames = count })) }
{
    let mut all = frames;
    'frames: for number in 0..count {
        all.push(Frame::new(alloc, owner, u64::from(number))?)?;
    }
    Ok(all)
}

/// Returns the frames of these domains, in their order, each of zeros and with its owner and number.
pub fn frames_of_zeros(alloc: Global, domains: &[FrameCount]) -> Result<Vec<Frame>, Memory>
    ensures { IfOk result (λ frames. frames.items ≡ flat_map zero_frames domains.now) }
{
    let mut frames = Vec::new(alloc);
    'domains: for domain in domains {
        frames = with_domain(alloc, frames, domain.owner, domain.frames)?;
    }
    Ok(frames)
}

// Copies between two of these frames, or within one.
fn copy_among(
    frames: &mut [Frame],
    writ: &Writ,
    source: usize,
    range: Range,
    dest: usize,
    to_off: u16,
) -> Result<Copied, Memory>
    requires source_there { source < length frames.old }
    requires dest_there { dest < length frames.old }
    requires source { range.off + range.len ≤ FRAME_SIZE }
    requires dest { to_off + range.len ≤ FRAME_SIZE }
    requires right { (to : FrameState) → slice_get frames.old dest ≡ Some to
        → IsTrue (covers writ.now to.owner to.number to_off range.len) }
    ensures written { OnOk result (CopiesAmong frames.old frames.new source dest writ.now range.off to_off range.len) }
    ensures receipt { IfOk result (λ r. (from to : FrameState)
        → slice_get frames.old source ≡ Some from → slice_get frames.old dest ≡ Some to
        → r ≡ copying_of from range.off to to_off range.len writ.now.writer) }
    ensures refused { OnErr result (frames.new ≡ frames.old) }
{
    if source == dest {
        return frames[dest].copy_within(writ, range, to_off);
    }
    if source < dest {
        let (front, back) = frames.split_at_mut(dest);
        Frame::copy_between(&front[source], &mut back[0], writ, range, to_off)
    } else {
        let (front, back) = frames.split_at_mut(source);
        Frame::copy_between(&back[0], &mut front[dest], writ, range, to_off)
    }
}

impl Frames {
    ghost use Rattle.gt_frames.specs.Frames.{bytes_at, IsKept};
    ghost use Rattle.gt_frames.specs.Places.{frame_counts};
    ghost use Rattle.gt_frames.specs.Receipts.{writing_of, copying_of};
    ghost use Rattle.gt_frames.specs.Sets.{frame_at, place_in, has_frame, has_range, admits, all_zeros};
    ghost use Rattle.gt_frames.specs.Sets.{AreKept, WritesTo};

    /// Returns the frames of all domains, in their order, each of zeros. The bytes of a frame are allocated here, and
    /// never move.
    ///
    /// # Errors
    ///
    /// `Memory`, if an allocation fails.
    pub fn new(alloc: Global, config: &Config) -> Result<Frames, Memory>
        ensures zeros { IfOk result (λ fs. fs ≡ all_zeros (frame_counts config.now.domains.items)) }
        ensures kept { IfOk result AreKept }
    {
        let domains = frame_counts(alloc, config)?;
        let frames = frames_of_zeros(alloc, &domains)?;
        Ok(Frames { domains, frames })
    }

    fn place(&self, name: FrameName) -> Option<usize>
        ensures place { result ≡ place_in self.now name }
        ensures below { IfSome result (λ place. place < length self.now.journals) }
    {
        number_in_pool(&self.domains, name)
    }

    /// Returns the frame of this name, None if there is none.
    pub fn get(&self, name: FrameName) -> Option<&Frame>
        ensures some { IsSome result ↔ IsTrue (has_frame self.now name) }
        ensures frame { IfSome result (λ f. f.now ≡ frame_at self.now name) }
        ensures kept { IfSome result (λ f. IsKept f.now) }
    {
        let place = self.place(name)?;
        let frame = &self.frames[place];
        Some(frame)
    }

    /// Returns true if there is a frame of this name, and the range ends inside it.
    pub fn has_range(&self, name: FrameName, range: Range) -> bool
        ensures { result ≡ has_range self.now name range.off range.len }
    {
        self.place(name).is_some()
            && u32::from(range.off) + u32::from(range.len) <= u32::from(FRAME_SIZE)
    }

    /// Returns true if there is such a range, and the writ covers it. A write requires this of its caller, and a
    /// copy requires it of its destination.
    pub fn admits(&self, name: FrameName, writ: &Writ, range: Range) -> bool
        ensures { result ≡ admits self.now name writ.now range.off range.len }
    {
        self.has_range(name, range) && writ.covers(name.owner, name.number, range)
    }
    /// Writes `bytes` to the frame of this name, starting at offset `off`. All other frames are unchanged.
    ///
    /// # Errors
    ///
    /// `Memory`, if an allocation fails. All frames are then unchanged.
    pub fn write<'a>(
        &mut self,
        name: FrameName,
        writ: &Writ,
        off: u16,
        bytes: &'a [u8],
    ) -> Result<Written<'a>, Memory>
        requires { IsTrue (admits self.old name writ.now off (length bytes.now)) }
        ensures written { OnOk result (WritesTo self.old self.new name writ.now off bytes.now) }
        ensures kept { AreKept self.new }
        ensures receipt { IfOk result (λ r. r ≡ writing_of (frame_at self.old name) off bytes.now writ.now.writer) }
        ensures refused { OnErr result (self.new ≡ self.old) }
    {
        let place = self.place(name).unwrap();
        self.frames[place].write(writ, off, bytes)
    }

    /// Copies `len` bytes from one position to another, in one frame or between two. The bytes written are those
    /// that the source range held before, overlap included. All other frames are unchanged.
    ///
    /// # Errors
    ///
    /// `Memory`, if an allocation fails. All frames are then unchanged.
    pub fn copy(&mut self, writ: &Writ, from: Spot, to: Spot, len: u16) -> Result<Copied, Memory>
        requires source { IsTrue (has_range self.old from.frame from.off len) }
        requires dest { IsTrue (admits self.old to.frame writ.now to.off len) }
        ensures written { OnOk result (WritesTo self.old self.new to.frame writ.now to.off
            (bytes_at (frame_at self.old from.frame) from.off len)) }
        ensures kept { AreKept self.new }
        ensures receipt { IfOk result (λ r.
            r ≡ copying_of (frame_at self.old from.frame) from.off
            (frame_at self.old to.frame) to.off len writ.now.writer) }
        ensures refused { OnErr result (self.new ≡ self.old) }
    {
        let source = self.place(from.frame).unwrap();
        let dest = self.place(to.frame).unwrap();
        let range = Range { off: from.off, len };
        copy_among(&mut self.frames, writ, source, range, dest, to.off)
    }
}
