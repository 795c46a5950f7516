//! The calls that access frames. Each is one step of the history. Only these calls may wait.
ghost use Rattle.std.specs.Prelude.{◌≡◌, ◌≢◌, ◌+◌, ◌≤◌, ◌↔◌, ◌∷◌, length, IfOk, OnErr, OnOk, IsTrue};
ghost use Rattle.std.specs.Prelude.{vec_capacity, vec_len};
ghost use Rattle.gt_frames.specs.Frames.{covers};
ghost use Rattle.gt_types.specs.declared.limits.TheConstants.{FRAME_SIZE};
ghost use Rattle.gt_word_history.specs.Rule.{id_at};
ghost use Rattle.gt_word_history.specs.declared.view.FrameStep.TheVariants as frame_steps;
ghost use Rattle.gt_shared_table.specs.Accesses.{IsReadIn, TakesAccess, TakesCopy, copied_in, written_in};
ghost use Rattle.gt_shared_table.specs.Locking.{LocksOf};
ghost use Rattle.gt_shared_table.specs.Words.{HasFrame, named_at};

use crate::accesses::{FrameCopy, FrameWrite, copy, copy_within, read_out, read_out_to, write_out};
use crate::locks::lock;
use crate::slots::slot_at;
use crate::table::{FrameIndex, SharedTable, TableSeat};
use gt_frames::{Copied, Filled, Read, Written};
use gt_types::Memory;
use std::sync::Wait;

impl SharedTable {
    /// Returns whether the table has the frame.
    #[inline]
    pub fn has_frame(&self, frame: FrameIndex) -> bool
        ensures { IsTrue result ↔ HasFrame self.now frame }
    {
        match self.frames.get(frame.position) {
            Some(count) => frame.number < *count,
            None => false,
        }
    }

    /// Reads a frame, starting at `off`, into all of `out`. Waits while another seat has the frame. The bytes are those
    /// that the steps before this one make.
    #[inline(always)]
    pub fn read_frame<R: Wait>(
        &self,
        rt: &R,
        seat: &mut TableSeat,
        frame: FrameIndex,
        off: u16,
        out: &mut [u8],
    ) -> Filled
        requires table { seat.old.table ≡ self.now.table }
        requires inside { HasFrame self.now frame }
        requires range { off + length out.old ≤ FRAME_SIZE }
        ensures table { seat.new.table ≡ seat.old.table }
        ensures locks { seat.new.locks ≡ named_at frame ∷ seat.old.locks }
        ensures step { TakesAccess self.now.layout (named_at frame) (frame_steps.Read off result.bytes)
            seat.old.view seat.new.view }
        ensures filled { (out.new ≡ result.bytes) × (length result.bytes ≡ length out.old) }
        ensures receipt { IsReadIn self.now.layout (named_at frame) off result }
    {
        let cells = &self.table.shared;
        let source = slot_at(cells, &self.firsts, frame);
        lock(rt, cells, &mut seat.seat, source);
        read_out(cells, &mut seat.seat, source, off, out)
    }

    /// Reads `len` bytes of a frame, starting at `off`, into `room`, which is empty and has room for them. Waits while
    /// another seat has the frame. The bytes are those that the steps before this one make.
    #[inline(always)]
    pub fn read_frame_to<R: Wait>(
        &self,
        rt: &R,
        seat: &mut TableSeat,
        frame: FrameIndex,
        off: u16,
        len: u16,
        room: Vec<u8>,
    ) -> Read
        requires table { seat.old.table ≡ self.now.table }
        requires inside { HasFrame self.now frame }
        requires range { off + len ≤ FRAME_SIZE }
        requires room { (vec_len room ≡ 0) × (len ≤ vec_capacity room) }
        ensures table { seat.new.table ≡ seat.old.table }
        ensures locks { seat.new.locks ≡ named_at frame ∷ seat.old.locks }
        ensures step { TakesAccess self.now.layout (named_at frame) (frame_steps.Read off result.bytes)
            seat.old.view seat.new.view }
        ensures len { length result.bytes ≡ len }
        ensures receipt { IsReadIn self.now.layout (named_at frame) off result }
    {
        let cells = &self.table.shared;
        let source = slot_at(cells, &self.firsts, frame);
        lock(rt, cells, &mut seat.seat, source);
        read_out_to(cells, &mut seat.seat, source, off, len, room)
    }

    /// Writes to a frame. Waits while another seat has the frame.
    ///
    /// # Errors
    /// `Memory`. The frame is unchanged, and no step was made.
    #[inline(always)]
    pub fn write_frame<'a, R: Wait>(
        &self,
        rt: &R,
        seat: &mut TableSeat,
        frame: FrameIndex,
        args: FrameWrite<'_, 'a>,
    ) -> Result<Written<'a>, Memory>
        requires table { seat.old.table ≡ self.now.table }
        requires inside { HasFrame self.now frame }
        requires range { args.off + length args.bytes.now ≤ FRAME_SIZE }
        requires right { IsTrue (covers args.writ.now (id_at self.now.layout.ids frame.position) frame.number
            args.off (length args.bytes.now)) }
        ensures table { seat.new.table ≡ seat.old.table }
        ensures locks { seat.new.locks ≡ named_at frame ∷ seat.old.locks }
        ensures step { OnOk result (TakesAccess self.now.layout (named_at frame)
            (frame_steps.Wrote
            (record { writ = args.entry.writ.now; off = args.entry.off; bytes = args.entry.bytes.now }))
            seat.old.view seat.new.view) }
        ensures receipt { IfOk result (λ r. r ≡ written_in self.now.layout (named_at frame)
            args.entry.writ.now args.entry.off args.entry.bytes.now) }
        ensures refused { OnErr result (seat.new.view ≡ seat.old.view) }
    {
        let cells = &self.table.shared;
        let dest = slot_at(cells, &self.firsts, frame);
        lock(rt, cells, &mut seat.seat, dest);
        write_out(cells, &mut seat.seat, dest, args)
    }

    /// Copies a range of one frame to another, or to another place of the same frame. Ranges of one frame may overlap:
    /// the bytes written are those that the source range held before. Takes both frames, the one with the lower slot
    /// first, and waits while another seat has one of them. It is one step, in which the source is read and the
    /// destination written.
    ///
    /// # Errors
    /// `Memory`. Both frames are unchanged, and no step was made.
    #[inline(always)]
    pub fn copy_frames<R: Wait>(
        &self,
        rt: &R,
        seat: &mut TableSeat,
        source: FrameIndex,
        dest: FrameIndex,
        args: FrameCopy<'_>,
    ) -> Result<Copied, Memory>
        requires table { seat.old.table ≡ self.now.table }
        requires source { HasFrame self.now source }
        requires dest { HasFrame self.now dest }
        requires ranges { (args.range.off + args.range.len ≤ FRAME_SIZE)
            × (args.to_off + args.range.len ≤ FRAME_SIZE) }
        requires right { IsTrue (covers args.writ.now (id_at self.now.layout.ids dest.position) dest.number args.to_off
            args.range.len) }
        ensures table { seat.new.table ≡ seat.old.table }
        ensures locks { LocksOf (named_at source) (named_at dest) seat.old.locks seat.new.locks }
        ensures step { OnOk result (TakesCopy self.now.layout (named_at source) (named_at dest) args.entry.writ.now
            args.entry.range args.entry.to_off seat.old.view seat.new.view) }
        ensures receipt { IfOk result (λ r. r ≡ copied_in self.now.layout (named_at source) (named_at dest)
            args.entry.writ.now args.entry.range args.entry.to_off) }
        ensures refused { OnErr result (seat.new.view ≡ seat.old.view) }
    {
        let cells = &self.table.shared;
        let from = slot_at(cells, &self.firsts, source);
        let to = slot_at(cells, &self.firsts, dest);
        if from.index == to.index {
            copy_within(rt, cells, &mut seat.seat, to, args)
        } else {
            copy(rt, cells, &mut seat.seat, from, to, args)
        }
    }
}
