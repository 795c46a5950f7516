//! Accesses to frames. Each locks a frame, works on it in its slot and frees its lock. A copy takes its source out of
//! its slot meanwhile.
ghost use Rattle.std.specs.Prelude.{◌≡◌, ◌≢◌, ◌+◌, ◌≤◌, [], ◌∷◌, Bool, false, length, IfOk};
ghost use Rattle.std.specs.Prelude.{IsTrue, OnOk, OnErr, Some, None, nat_lt, true, vec_capacity, vec_len};
ghost use Rattle.atomic_table.specs.Table.{Allows, rest};
ghost use Rattle.gt_frames.specs.Frames.{FrameState, bytes_at, covers};
ghost use Rattle.gt_types.specs.declared.limits.TheConstants.{FRAME_SIZE};
ghost use Rattle.gt_word_history.specs.Rule.{layout_of, id_at};
ghost use Rattle.gt_word_history.specs.Views.{IsAmong};
ghost use Rattle.gt_word_history.specs.declared.view.FrameStep.TheVariants as frame_steps;
ghost use Rattle.gt_shared_table.specs.Accesses.{IsReadIn, copied_in, written_in};
ghost use Rattle.gt_shared_table.specs.Rule.{HoldsAll, IsNamed, IsSlotOf, slot_frame, places_of};
ghost use Rattle.gt_shared_table.specs.Recording.{CopiedBy, Frees, HasBoth, IsOut, OnlyLocked, Returns, both_locks};
ghost use Rattle.gt_shared_table.specs.Recording.{without_taken_frame};

use crate::locks::{free_lock, lock, return_lock};
use crate::rule::{CellSeat, Cells, FrameSlot, OfAccess};
use gt_frames::{Copied, Filled, Frame, Read, Writ, Written};
use gt_types::{Memory, Range};
use std::marker::Brand;
use std::sync::Wait;

/// Bytes to be written to a frame, starting at `off`, by this writ.
#[derive(Clone, Copy)]
pub struct FrameWrite<'w, 'b> {
    pub writ: &'w Writ,
    pub off: u16,
    pub bytes: &'b [u8],
}

/// A copy to be made by this writ: the range of the source, and the offset in the destination.
#[derive(Clone, Copy)]
pub struct FrameCopy<'w> {
    pub writ: &'w Writ,
    pub range: Range,
    pub to_off: u16,
}

// Frees a frame that was read. Only the proof uses the arguments after `slot`.
#[inline(always)]
fn free_read<J: OfAccess>(cells: &Cells, seat: &mut CellSeat, slot: FrameSlot, off: u16, out: &[u8])
    requires fits { (seat.old.table_id ≡ cells.now.table_id)
        × IsSlotOf (places_of cells.now.key) cells.now.table_id slot }
    requires allowed { Allows (HoldsAll (places_of cells.now.key)) cells.now.table_id.slots seat.old.id seat.old.me
        slot.lock (λ _. 0) (λ _ m. Frees J.places J.name J.access J.left seat.old.me m) }
    ensures seat { (seat.new.table_id ≡ seat.old.table_id) × (seat.new.id ≡ seat.old.id) }
    ensures frees { Frees J.places J.name J.access J.left seat.old.me seat.new.me }
{
    let _ = off;
    let _ = out;
    free_lock::<J>(cells, seat, slot);
}

// Frees a frame that was read into memory of the reader's. Only the proof uses the arguments after `slot`.
#[inline(always)]
fn free_read_to<J: OfAccess>(
    cells: &Cells,
    seat: &mut CellSeat,
    slot: FrameSlot,
    off: u16,
    read: &Read,
)
    requires fits { (seat.old.table_id ≡ cells.now.table_id)
        × IsSlotOf (places_of cells.now.key) cells.now.table_id slot }
    requires allowed { Allows (HoldsAll (places_of cells.now.key)) cells.now.table_id.slots seat.old.id seat.old.me
        slot.lock (λ _. 0) (λ _ m. Frees J.places J.name J.access J.left seat.old.me m) }
    ensures seat { (seat.new.table_id ≡ seat.old.table_id) × (seat.new.id ≡ seat.old.id) }
    ensures frees { Frees J.places J.name J.access J.left seat.old.me seat.new.me }
{
    let _ = off;
    let _ = read;
    free_lock::<J>(cells, seat, slot);
}

// Frees a frame that was written. Only the proof uses `write`.
#[inline(always)]
fn free_written<J: OfAccess>(
    cells: &Cells,
    seat: &mut CellSeat,
    slot: FrameSlot,
    write: FrameWrite<'_, '_>,
)
    requires fits { (seat.old.table_id ≡ cells.now.table_id)
        × IsSlotOf (places_of cells.now.key) cells.now.table_id slot }
    requires allowed { Allows (HoldsAll (places_of cells.now.key)) cells.now.table_id.slots seat.old.id seat.old.me
        slot.lock (λ _. 0) (λ _ m. Frees J.places J.name J.access J.left seat.old.me m) }
    ensures seat { (seat.new.table_id ≡ seat.old.table_id) × (seat.new.id ≡ seat.old.id) }
    ensures frees { Frees J.places J.name J.access J.left seat.old.me seat.new.me }
{
    let _ = write;
    free_lock::<J>(cells, seat, slot);
}

// Frees a frame that was copied to. Only the proof uses the arguments after `slot`.
#[inline(always)]
fn free_copied<J: OfAccess>(
    cells: &Cells,
    seat: &mut CellSeat,
    slot: FrameSlot,
    source: FrameSlot,
    from: &Frame,
    copy: FrameCopy<'_>,
)
    requires fits { (seat.old.table_id ≡ cells.now.table_id)
        × IsSlotOf (places_of cells.now.key) cells.now.table_id slot }
    requires allowed { Allows (HoldsAll (places_of cells.now.key)) cells.now.table_id.slots seat.old.id seat.old.me
        slot.lock (λ _. 0) (λ _ m. Frees J.places J.name J.access J.left seat.old.me m) }
    ensures seat { (seat.new.table_id ≡ seat.old.table_id) × (seat.new.id ≡ seat.old.id) }
    ensures frees { Frees J.places J.name J.access J.left seat.old.me seat.new.me }
{
    let _ = source;
    let _ = from;
    let _ = copy;
    free_lock::<J>(cells, seat, slot);
}

// Frees a frame that is unchanged. No view gains a step.
#[inline(always)]
fn return_as_taken<J: OfAccess>(cells: &Cells, seat: &mut CellSeat, slot: FrameSlot, last: bool)
    requires fits { (seat.old.table_id ≡ cells.now.table_id)
        × IsSlotOf (places_of cells.now.key) cells.now.table_id slot }
    requires allowed { Allows (HoldsAll (places_of cells.now.key)) cells.now.table_id.slots seat.old.id seat.old.me
        slot.lock (λ _. 0) (λ _ m. Returns J.left seat.old.me m) }
    ensures seat { (seat.new.table_id ≡ seat.old.table_id) × (seat.new.id ≡ seat.old.id) }
    ensures returned { Returns J.left seat.old.me seat.new.me }
{
    let _ = last;
    return_lock::<J>(cells, seat, slot);
}

// Moves a frame out of its slot.
fn take_out(cells: &Cells, seat: &mut CellSeat, slot: FrameSlot, last: bool) -> Frame
    requires mine { seat.old.table_id ≡ cells.now.table_id }
    requires out { (x : FrameState) × IsOut (layout_of cells.now.key) slot last x seat.old.me }
    ensures seat { (seat.new.table_id ≡ seat.old.table_id) × (seat.new.id ≡ seat.old.id) }
    ensures out { IsOut (layout_of cells.now.key) slot last result seat.old.me }
    ensures me { seat.new.me ≡ (seat.old.me.0, (slot.index, None) ∷ rest seat.old.me.1) }
{
    let _ = last;
    let Some(frame) = cells.exchange(seat, slot.index, None) else {
        unreachable!()
    };
    frame
}

// Reads a frame that is out into all of `out`, and frees it.
#[inline(always)]
pub(crate) fn read_out(
    cells: &Cells,
    seat: &mut CellSeat,
    slot: FrameSlot,
    off: u16,
    out: &mut [u8],
) -> Filled
    requires mine { (seat.old.table_id ≡ cells.now.table_id) × (seat.old.me.0.own.gone ≡ false) }
    requires slot { IsSlotOf (places_of cells.now.key) cells.now.table_id slot }
    requires out { (x : FrameState) × IsOut (layout_of cells.now.key) slot true x seat.old.me }
    requires range { off + length out.old ≤ FRAME_SIZE }
    ensures seat { (seat.new.table_id ≡ seat.old.table_id) × (seat.new.id ≡ seat.old.id) }
    ensures read { Frees (places_of cells.now.key) (slot_frame slot) (frame_steps.Read off result.bytes)
        (without_taken_frame true seat.old.me.0.held) seat.old.me seat.new.me }
    ensures filled { (out.new ≡ result.bytes) × (length result.bytes ≡ length out.old) }
    ensures receipt { IsReadIn (layout_of cells.now.key) (slot_frame slot) off result }
{
    let filled = match seat.slot_mut(cells, slot.index) {
        Some(frame) => frame.read_into(off, out),
        None => unreachable!(),
    };
    free_read::<Brand>(cells, seat, slot, off, out);
    filled
}

// Reads `len` bytes of a frame that is out into `room`, which is empty and has room for them, and frees the frame.
#[inline(always)]
pub(crate) fn read_out_to(
    cells: &Cells,
    seat: &mut CellSeat,
    slot: FrameSlot,
    off: u16,
    len: u16,
    room: Vec<u8>,
) -> Read
    requires mine { (seat.old.table_id ≡ cells.now.table_id) × (seat.old.me.0.own.gone ≡ false) }
    requires slot { IsSlotOf (places_of cells.now.key) cells.now.table_id slot }
    requires out { (x : FrameState) × IsOut (layout_of cells.now.key) slot true x seat.old.me }
    requires range { off + len ≤ FRAME_SIZE }
    requires room { (vec_len room ≡ 0) × (len ≤ vec_capacity room) }
    ensures seat { (seat.new.table_id ≡ seat.old.table_id) × (seat.new.id ≡ seat.old.id) }
    ensures read { Frees (places_of cells.now.key) (slot_frame slot) (frame_steps.Read off result.bytes)
        (without_taken_frame true seat.old.me.0.held) seat.old.me seat.new.me }
    ensures len { length result.bytes ≡ len }
    ensures receipt { IsReadIn (layout_of cells.now.key) (slot_frame slot) off result }
{
    let read = match seat.slot_mut(cells, slot.index) {
        Some(frame) => frame.read_to(off, usize::from(len), room),
        None => unreachable!(),
    };
    free_read_to::<Brand>(cells, seat, slot, off, &read);
    read
}

// Writes to a frame that is out, and frees it. If allocation fails, the frame returns to its slot unchanged.
#[inline(always)]
pub(crate) fn write_out<'a>(
    cells: &Cells,
    seat: &mut CellSeat,
    slot: FrameSlot,
    write: FrameWrite<'_, 'a>,
) -> Result<Written<'a>, Memory>
    requires mine { (seat.old.table_id ≡ cells.now.table_id) × (seat.old.me.0.own.gone ≡ false) }
    requires slot { IsSlotOf (places_of cells.now.key) cells.now.table_id slot }
    requires out { (x : FrameState) × IsOut (layout_of cells.now.key) slot true x seat.old.me }
    requires range { write.off + length write.bytes.now ≤ FRAME_SIZE }
    requires right { IsTrue (covers write.writ.now (id_at (layout_of cells.now.key).ids slot.owner) slot.number
        write.off (length write.bytes.now)) }
    ensures seat { (seat.new.table_id ≡ seat.old.table_id) × (seat.new.id ≡ seat.old.id) }
    ensures wrote { OnOk result (Frees (places_of cells.now.key) (slot_frame slot)
        (frame_steps.Wrote
        (record { writ = write.entry.writ.now; off = write.entry.off; bytes = write.entry.bytes.now }))
        (without_taken_frame true seat.old.me.0.held) seat.old.me seat.new.me) }
    ensures receipt { IfOk result (λ r. r ≡ written_in (layout_of cells.now.key) (slot_frame slot)
        write.entry.writ.now write.entry.off write.entry.bytes.now) }
    ensures refused { OnErr result (Returns (without_taken_frame true seat.old.me.0.held) seat.old.me seat.new.me) }
{
    let written = match seat.slot_mut(cells, slot.index) {
        Some(frame) => frame.write(write.writ, write.off, write.bytes),
        None => unreachable!(),
    };
    match written {
        Ok(written) => {
            free_written::<Brand>(cells, seat, slot, write);
            Ok(written)
        }
        Err(refused) => {
            return_as_taken::<Brand>(cells, seat, slot, true);
            Err(refused)
        }
    }
}

// Copies a range to a frame that is out, and frees that frame. The source is out too, and is still held after. If
// allocation fails, the destination returns to its slot unchanged.
#[inline(always)]
fn copy_out(
    cells: &Cells,
    seat: &mut CellSeat,
    source: FrameSlot,
    from: &Frame,
    slot: FrameSlot,
    copy: FrameCopy<'_>,
) -> Result<Copied, Memory>
    requires mine { (seat.old.table_id ≡ cells.now.table_id) × (seat.old.me.0.own.gone ≡ false) }
    requires slot { IsSlotOf (places_of cells.now.key) cells.now.table_id slot }
    requires out { (x : FrameState) × IsOut (layout_of cells.now.key) slot
        (nat_lt source.index slot.index) x seat.old.me }
    requires source { IsAmong (source.index, from.now) seat.old.me.0.held
        × IsNamed (places_of cells.now.key) source.index (slot_frame source) }
    requires named { (from.now.owner ≡ id_at (layout_of cells.now.key).ids source.owner)
        × (from.now.number ≡ source.number) }
    requires ranges { (copy.range.off + copy.range.len ≤ FRAME_SIZE)
        × (copy.to_off + copy.range.len ≤ FRAME_SIZE) }
    requires right { IsTrue (covers copy.writ.now (id_at (layout_of cells.now.key).ids slot.owner) slot.number
        copy.to_off copy.range.len) }
    ensures seat { (seat.new.table_id ≡ seat.old.table_id) × (seat.new.id ≡ seat.old.id) }
    ensures copied { OnOk result (Frees (places_of cells.now.key) (slot_frame slot)
        (frame_steps.Copied source.owner source.number copy.entry.range.off (record {
          writ = copy.entry.writ.now;
          off = copy.entry.to_off;
          bytes = bytes_at from.now copy.entry.range.off copy.entry.range.len;
        }))
        (without_taken_frame (nat_lt source.index slot.index) seat.old.me.0.held) seat.old.me seat.new.me) }
    ensures receipt { IfOk result (λ r. r ≡ copied_in (layout_of cells.now.key) (slot_frame source) (slot_frame slot)
        copy.entry.writ.now copy.entry.range copy.entry.to_off) }
    ensures refused { OnErr result (Returns (without_taken_frame (nat_lt source.index slot.index) seat.old.me.0.held)
        seat.old.me seat.new.me) }
{
    let _owner = from.owner();
    let copied = match seat.slot_mut(cells, slot.index) {
        Some(to) => Frame::copy_between(from, to, copy.writ, copy.range, copy.to_off),
        None => unreachable!(),
    };
    match copied {
        Ok(copied) => {
            free_copied::<Brand>(cells, seat, slot, source, from, copy);
            Ok(copied)
        }
        Err(refused) => {
            let last = source.index < slot.index;
            return_as_taken::<Brand>(cells, seat, slot, last);
            Err(refused)
        }
    }
}

// Takes two frames, the one with the lower slot first, and moves the source out of its slot.
#[inline(always)]
fn lock_both<R: Wait>(
    rt: &R,
    cells: &Cells,
    seat: &mut CellSeat,
    source: FrameSlot,
    dest: FrameSlot,
) -> Frame
    requires mine { seat.old.table_id ≡ cells.now.table_id }
    requires slots { IsSlotOf (places_of cells.now.key) cells.now.table_id source
        × IsSlotOf (places_of cells.now.key) cells.now.table_id dest × (source.index ≢ dest.index) }
    requires free { (seat.old.me.1 ≡ []) × (seat.old.me.0.held ≡ []) }
    ensures seat { (seat.new.table_id ≡ seat.old.table_id) × (seat.new.id ≡ seat.old.id) }
    ensures both { HasBoth (layout_of cells.now.key) source dest result seat.old.me seat.new.me }
{
    if source.index < dest.index {
        lock(rt, cells, seat, source);
        let frame = take_out(cells, seat, source, true);
        lock(rt, cells, seat, dest);
        frame
    } else {
        lock(rt, cells, seat, dest);
        lock(rt, cells, seat, source);
        let frame = take_out(cells, seat, source, true);
        seat.turn();
        frame
    }
}

// Returns the source of a copy to its slot, unchanged.
#[inline(always)]
fn return_source(cells: &Cells, seat: &mut CellSeat, slot: FrameSlot, frame: Frame)
    requires mine { (seat.old.table_id ≡ cells.now.table_id)
        × IsSlotOf (places_of cells.now.key) cells.now.table_id slot }
    requires held { (seat.old.me.1 ≡ (slot.index, None) ∷ []) × (seat.old.me.0.held ≡ (slot.index, frame) ∷ []) }
    ensures seat { (seat.new.table_id ≡ seat.old.table_id) × (seat.new.id ≡ seat.old.id) }
    ensures returned { Returns [] seat.old.me seat.new.me }
{
    let _ = cells.exchange(seat, slot.index, Some(frame));
    return_as_taken::<Brand>(cells, seat, slot, true);
}

// Copies a range of one frame to another. Takes both frames, the one with the lower slot first, and waits while another
// seat has one of them. It is one step of the history, made when the destination is freed and while the source is still
// held.
// After `Memory`, both frames are unchanged and no step was made.
#[inline(always)]
pub(crate) fn copy<R: Wait>(
    rt: &R,
    cells: &Cells,
    seat: &mut CellSeat,
    source: FrameSlot,
    dest: FrameSlot,
    copy: FrameCopy<'_>,
) -> Result<Copied, Memory>
    requires mine { (seat.old.table_id ≡ cells.now.table_id) × (seat.old.me.0.own.gone ≡ false) }
    requires slots { IsSlotOf (places_of cells.now.key) cells.now.table_id source
        × IsSlotOf (places_of cells.now.key) cells.now.table_id dest × (source.index ≢ dest.index) }
    requires free { (seat.old.me.1 ≡ []) × (seat.old.me.0.held ≡ []) }
    requires ranges { (copy.range.off + copy.range.len ≤ FRAME_SIZE)
        × (copy.to_off + copy.range.len ≤ FRAME_SIZE) }
    requires right { IsTrue (covers copy.writ.now (id_at (layout_of cells.now.key).ids dest.owner) dest.number
        copy.to_off copy.range.len) }
    ensures seat { (seat.new.table_id ≡ seat.old.table_id) × (seat.new.id ≡ seat.old.id) }
    ensures copied { OnOk result (CopiedBy (layout_of cells.now.key) (slot_frame source) (slot_frame dest)
        copy.entry.writ.now copy.entry.range copy.entry.to_off
        (both_locks (nat_lt source.index dest.index) source dest seat.old.me.0.locks) seat.old.me seat.new.me) }
    ensures receipt { IfOk result (λ r. r ≡ copied_in (layout_of cells.now.key) (slot_frame source) (slot_frame dest)
        copy.entry.writ.now copy.entry.range copy.entry.to_off) }
    ensures refused { OnErr result (OnlyLocked
        (both_locks (nat_lt source.index dest.index) source dest seat.old.me.0.locks) seat.old.me seat.new.me) }
{
    let frame = lock_both(rt, cells, seat, source, dest);
    let copied = copy_out(cells, seat, source, &frame, dest, copy);
    return_source(cells, seat, source, frame);
    copied
}

// Frees a frame in which a range was copied. Only the proof uses `copy`.
#[inline(always)]
fn free_copied_within<J: OfAccess>(
    cells: &Cells,
    seat: &mut CellSeat,
    slot: FrameSlot,
    copy: FrameCopy<'_>,
)
    requires fits { (seat.old.table_id ≡ cells.now.table_id)
        × IsSlotOf (places_of cells.now.key) cells.now.table_id slot }
    requires allowed { Allows (HoldsAll (places_of cells.now.key)) cells.now.table_id.slots seat.old.id seat.old.me
        slot.lock (λ _. 0) (λ _ m. Frees J.places J.name J.access J.left seat.old.me m) }
    ensures seat { (seat.new.table_id ≡ seat.old.table_id) × (seat.new.id ≡ seat.old.id) }
    ensures frees { Frees J.places J.name J.access J.left seat.old.me seat.new.me }
{
    let _ = copy;
    free_lock::<J>(cells, seat, slot);
}

// Copies a range of a frame to another place in it. The ranges may overlap: the bytes written are those that the source
// range held before. Waits while another seat has the frame. It is one step of the history.
// After `Memory`, the frame is unchanged and no step was made.
pub(crate) fn copy_within<R: Wait>(
    rt: &R,
    cells: &Cells,
    seat: &mut CellSeat,
    slot: FrameSlot,
    copy: FrameCopy<'_>,
) -> Result<Copied, Memory>
    requires mine { (seat.old.table_id ≡ cells.now.table_id) × (seat.old.me.0.own.gone ≡ false) }
    requires slot { IsSlotOf (places_of cells.now.key) cells.now.table_id slot }
    requires free { (seat.old.me.1 ≡ []) × (seat.old.me.0.held ≡ []) }
    requires ranges { (copy.range.off + copy.range.len ≤ FRAME_SIZE)
        × (copy.to_off + copy.range.len ≤ FRAME_SIZE) }
    requires right { IsTrue (covers copy.writ.now (id_at (layout_of cells.now.key).ids slot.owner) slot.number
        copy.to_off copy.range.len) }
    ensures seat { (seat.new.table_id ≡ seat.old.table_id) × (seat.new.id ≡ seat.old.id) }
    ensures copied { OnOk result (CopiedBy (layout_of cells.now.key) (slot_frame slot) (slot_frame slot)
        copy.entry.writ.now
        copy.entry.range copy.entry.to_off (slot_frame slot ∷ seat.old.me.0.locks) seat.old.me seat.new.me) }
    ensures receipt { IfOk result (λ r. r ≡ copied_in (layout_of cells.now.key) (slot_frame slot) (slot_frame slot)
        copy.entry.writ.now copy.entry.range copy.entry.to_off) }
    ensures refused { OnErr result (OnlyLocked (slot_frame slot ∷ seat.old.me.0.locks) seat.old.me seat.new.me) }
{
    lock(rt, cells, seat, slot);
    let copied = match seat.slot_mut(cells, slot.index) {
        Some(frame) => {
            let _owner = frame.owner();
            frame.copy_within(copy.writ, copy.range, copy.to_off)
        }
        None => unreachable!(),
    };
    match copied {
        Ok(copied) => {
            free_copied_within::<Brand>(cells, seat, slot, copy);
            Ok(copied)
        }
        Err(refused) => {
            return_as_taken::<Brand>(cells, seat, slot, true);
            Err(refused)
        }
    }
}
