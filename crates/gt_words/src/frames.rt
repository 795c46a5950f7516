//! The calls that access frames, each one step. Only these calls may wait.
ghost use Rattle.std.specs.Prelude.{◌≡◌, ◌+◌, ◌≤◌, length, IfErr, IfNone, IfOk, IfSome, IsTrue, OnErr, OnOk};
ghost use Rattle.std.specs.Prelude.{vec_capacity, vec_len};
ghost use Rattle.gt_frames.specs.Frames.{covers};
ghost use Rattle.gt_types.specs.declared.limits.TheConstants.{FRAME_SIZE};
ghost use Rattle.gt_shared_table.specs.Accesses.{IsReadIn, copied_in, written_in};
ghost use Rattle.gt_shared_table.specs.Words.{HasFrame, named_at};
ghost use Rattle.gt_word_history.specs.Places.{IsSamePlace};
ghost use Rattle.gt_word_history.specs.Rule.{id_at};
ghost use Rattle.gt_word_history.specs.Views.{own_header};
ghost use Rattle.gt_word_history.specs.declared.view.FrameStep.TheVariants as frame_steps;
ghost use Rattle.gt_words.specs.Conditions.{IsSameSeat, IsSeatOf, position_at};
ghost use Rattle.gt_words.specs.Frames.{AccessesFrame, CopiesAt, IsCopyFault, IsFaultAt, IsReadOf, KeepsFrame};
ghost use Rattle.gt_words.specs.Frames.{copying_at, frame_in, index_of, spot_in, writing_at};

use crate::words::{Seat, Words};
use gt_frames::{Copied, Filled, Read, Written};
use gt_shared_table::{FrameCopy, FrameIndex, FrameWrite, SharedTable, TableSeat};
use gt_types::{DomId, FrameName, Memory};
use std::sync::Wait;

/// Why an access was not made. No frame has changed, and no step was made.
#[derive(Clone, Copy, Debug, PartialEq, Eq)]
pub enum AccessFault {
    /// The table has no such frame.
    Gone,
    /// Allocation failed.
    Memory,
}

impl Words {
    // Finds the position of the owner of a frame. The seat's own is known, so the domain looked up last stays that of
    // the entries that the seat steps on.
    #[inline(always)]
    fn owner_position(&self, seat: &mut Seat, owner: DomId) -> usize
        requires { IsSeatOf self.now seat.old }
        ensures position { result ≡ position_at self.now owner }
        ensures seat { seat.new ≡ seat.old }
    {
        let _ = &self.words;
        if owner.0 == seat.dom.0 {
            return seat.position;
        }
        self.position(seat, owner)
    }

    // Finds a frame in the table.
    #[inline(always)]
    fn frame_at(&self, seat: &mut Seat, name: FrameName) -> Option<FrameIndex>
        requires { IsSeatOf self.now seat.old }
        ensures seat { seat.new ≡ seat.old }
        ensures found { IfSome result (λ f. (f ≡ index_of self.now name) × HasFrame self.now f) }
        ensures named { IfSome result (λ f. id_at self.now.layout.ids f.position ≡ name.owner) }
        ensures none { IfNone result (KeepsFrame self.now name → ⊥) }
    {
        let frame = FrameIndex {
            position: self.owner_position(seat, name.owner),
            number: name.number,
        };
        if self.words.has_frame(frame) {
            Some(frame)
        } else {
            None
        }
    }

    /// Reads a frame, starting at `off`, into all of `out`. Waits while another seat has the frame. The bytes are those
    /// that the steps before this one make. Returns `None`, with `out` unchanged, if the table has no such frame.
    #[inline(always)]
    pub fn read_frame<R: Wait>(
        &self,
        rt: &R,
        seat: &mut Seat,
        name: FrameName,
        off: u16,
        out: &mut [u8],
    ) -> Option<Filled>
        requires seat { IsSeatOf self.now seat.old }
        requires range { off + length out.old ≤ FRAME_SIZE }
        ensures seat { IsSameSeat seat.old seat.new }
        ensures fits { IsSeatOf self.now seat.new }
        ensures step { IfSome result (λ r. AccessesFrame self.now.layout (position_at self.now name.owner) name.number
            (frame_steps.Read off r.bytes) seat.old.view seat.new.view) }
        ensures receipt { IfSome result (λ r. IsReadOf r name off (length out.old)) }
        ensures filled { IfSome result (λ r. out.new ≡ r.bytes) }
        ensures none { IfNone result (KeepsFrame self.now name → ⊥) }
        ensures kept { IfNone result ((out.new ≡ out.old) × (seat.new.view ≡ seat.old.view)) }
    {
        let frame = self.frame_at(seat, name)?;
        Some(self.words.read_frame(rt, &mut seat.place, frame, off, out))
    }

    /// Reads `len` bytes of a frame, starting at `off`, into `room`, which is empty and has room for them. Waits while
    /// another seat has the frame. The bytes are those that the steps before this one make. Returns `None` if the table
    /// has no such frame.
    #[inline(always)]
    pub fn read_frame_to<R: Wait>(
        &self,
        rt: &R,
        seat: &mut Seat,
        name: FrameName,
        off: u16,
        len: u16,
        room: Vec<u8>,
    ) -> Option<Read>
        requires seat { IsSeatOf self.now seat.old }
        requires range { off + len ≤ FRAME_SIZE }
        requires room { (vec_len room ≡ 0) × (len ≤ vec_capacity room) }
        ensures seat { IsSameSeat seat.old seat.new }
        ensures fits { IsSeatOf self.now seat.new }
        ensures step { IfSome result (λ r. AccessesFrame self.now.layout (position_at self.now name.owner) name.number
            (frame_steps.Read off r.bytes) seat.old.view seat.new.view) }
        ensures receipt { IfSome result (λ r. IsReadOf r name off len) }
        ensures none { IfNone result (KeepsFrame self.now name → ⊥) }
        ensures kept { IfNone result (seat.new.view ≡ seat.old.view) }
    {
        let found = self.frame_at(seat, name)?;
        Some(
            self.words
                .read_frame_to(rt, &mut seat.place, found, off, len, room),
        )
    }

    /// Writes bytes to a frame, by the writ of the write. Waits while another seat has the frame.
    ///
    /// # Errors
    /// [`AccessFault`]. No step was made.
    #[inline(always)]
    pub fn write_frame<'a, R: Wait>(
        &self,
        rt: &R,
        seat: &mut Seat,
        name: FrameName,
        write: FrameWrite<'_, 'a>,
    ) -> Result<Written<'a>, AccessFault>
        requires seat { IsSeatOf self.now seat.old }
        requires range { write.off + length write.bytes.now ≤ FRAME_SIZE }
        requires right { IsTrue (covers write.writ.now name.owner name.number write.off (length write.bytes.now)) }
        ensures seat { IsSameSeat seat.old seat.new }
        ensures fits { IsSeatOf self.now seat.new }
        ensures step { OnOk result (AccessesFrame self.now.layout (position_at self.now name.owner) name.number
            (frame_steps.Wrote
            (record { writ = write.entry.writ.now; off = write.entry.off; bytes = write.entry.bytes.now }))
            seat.old.view seat.new.view) }
        ensures receipt { IfOk result (λ r.
            r ≡ writing_at name write.entry.off write.entry.bytes.now write.entry.writ.now.writer) }
        ensures fault { IfErr result (IsFaultAt self.now name) }
        ensures refused { OnErr result (seat.new.view ≡ seat.old.view) }
    {
        let Some(frame) = self.frame_at(seat, name) else {
            return Err(AccessFault::Gone);
        };
        match self.words.write_frame(rt, &mut seat.place, frame, write) {
            Ok(written) => Ok(written),
            Err(Memory) => Err(AccessFault::Memory),
        }
    }

    /// Copies a range of a frame to another one, or to another place of the same frame. Waits while another seat has
    /// one of the frames. Ranges of one frame may overlap: the bytes written are those that the source range held before.
    ///
    /// # Errors
    /// [`AccessFault`]. No step was made.
    #[inline(always)]
    pub fn copy_frames<R: Wait>(
        &self,
        rt: &R,
        seat: &mut Seat,
        source: FrameName,
        dest: FrameName,
        copy: FrameCopy<'_>,
    ) -> Result<Copied, AccessFault>
        requires seat { IsSeatOf self.now seat.old }
        requires ranges { (copy.range.off + copy.range.len ≤ FRAME_SIZE)
            × (copy.to_off + copy.range.len ≤ FRAME_SIZE) }
        requires right { IsTrue (covers copy.writ.now dest.owner dest.number copy.to_off copy.range.len) }
        ensures seat { IsSameSeat seat.old seat.new }
        ensures fits { IsSeatOf self.now seat.new }
        ensures step { OnOk result (CopiesAt self.now.layout
            (frame_in self.now.layout source) (frame_in self.now.layout dest)
            copy.entry.writ.now copy.entry.range copy.entry.to_off seat.old.view seat.new.view) }
        ensures receipt { IfOk result (λ r. r ≡ copying_at (spot_in source copy.entry.range.off)
            (spot_in dest copy.entry.to_off) copy.entry.range.len copy.entry.writ.now.writer) }
        ensures fault { IfErr result (IsCopyFault self.now source dest) }
        ensures refused { OnErr result (seat.new.view ≡ seat.old.view) }
    {
        let Some(from) = self.frame_at(seat, source) else {
            return Err(AccessFault::Gone);
        };
        let Some(to) = self.frame_at(seat, dest) else {
            return Err(AccessFault::Gone);
        };
        match self.words.copy_frames(rt, &mut seat.place, from, to, copy) {
            Ok(copied) => Ok(copied),
            Err(Memory) => Err(AccessFault::Memory),
        }
    }
}
