//! The steps on the locks of frames. A lock word is 0 if its frame is free, `TAKEN` if a seat has it, and `AWAITED` if
//! another seat may wait for it besides. Only then the step that frees it wakes a seat, which is a system call.
ghost use Rattle.std.specs.Prelude.{◌≡◌, ◌<◌, ◌==◌, MatchBool};
ghost use prog.Atomic.{either};
ghost use Rattle.atomic_table.specs.Table.{Allows};
ghost use Rattle.gt_shared_table.specs.Rule.{HoldsAll, IsSlotOf, places_of};
ghost use Rattle.gt_shared_table.specs.Locking.{AreBelow};
ghost use Rattle.gt_shared_table.specs.Recording.{Frees, Locks, Returns, Took};

use crate::rule::{CellSeat, Cells, FrameSlot, FreesBy, LocksSlot, OfAccess, OfSlot, ReturnsTo};
use std::marker::Brand;
use std::sync::Wait;

// The value of a lock word if a seat has its frame, and no other seat waits for it.
const TAKEN: u64 = 1;
// The value of a lock word if a seat has its frame, and another may wait for it.
const AWAITED: u64 = 2;

// Exchanges a lock word, once. Only the proof uses `slot`, except for its lock.
fn lock_word<J: OfSlot>(cells: &Cells, seat: &mut CellSeat, slot: FrameSlot) -> u64
    requires fits { (seat.old.table_id ≡ cells.now.table_id) × (slot.lock < cells.now.table_id.words) }
    requires allowed { Allows (HoldsAll (places_of cells.now.key)) cells.now.table_id.slots seat.old.id seat.old.me
        slot.lock (λ n. either (n == 0) 1 n) (λ n m. Locks J.places J.name J.slot seat.old.me n m) }
    ensures seat { (seat.new.table_id ≡ seat.old.table_id) × (seat.new.id ≡ seat.old.id) }
    ensures locks { Locks J.places J.name J.slot seat.old.me result seat.new.me }
{
    cells.compare_exchange::<LocksSlot<J>>(seat, slot.lock, 0, TAKEN)
}

// Swaps a lock word for `AWAITED`. Only the proof uses `slot`, except for its lock.
fn await_word<J: OfSlot>(cells: &Cells, seat: &mut CellSeat, slot: FrameSlot) -> u64
    requires fits { (seat.old.table_id ≡ cells.now.table_id) × (slot.lock < cells.now.table_id.words) }
    requires allowed { Allows (HoldsAll (places_of cells.now.key)) cells.now.table_id.slots seat.old.id seat.old.me
        slot.lock (λ _. 2) (λ n m. Locks J.places J.name J.slot seat.old.me n m) }
    ensures seat { (seat.new.table_id ≡ seat.old.table_id) × (seat.new.id ≡ seat.old.id) }
    ensures locks { Locks J.places J.name J.slot seat.old.me result seat.new.me }
{
    cells.swap::<LocksSlot<J>>(seat, slot.lock, AWAITED)
}

// Frees a lock word. By this step the access to its frame takes place.
#[inline(always)]
pub(crate) fn free_lock<J: OfAccess>(cells: &Cells, seat: &mut CellSeat, slot: FrameSlot)
    requires fits { (seat.old.table_id ≡ cells.now.table_id) × (slot.lock < cells.now.table_id.words) }
    requires allowed { Allows (HoldsAll (places_of cells.now.key)) cells.now.table_id.slots seat.old.id seat.old.me
        slot.lock (λ _. 0) (λ _ m. Frees J.places J.name J.access J.left seat.old.me m) }
    ensures seat { (seat.new.table_id ≡ seat.old.table_id) × (seat.new.id ≡ seat.old.id) }
    ensures frees { Frees J.places J.name J.access J.left seat.old.me seat.new.me }
{
    if cells.swap::<FreesBy<J>>(seat, slot.lock, 0) == AWAITED {
        cells.wake_one(slot.lock);
    }
}

// Frees the lock word of a frame that returns unchanged.
#[inline(always)]
pub(crate) fn return_lock<J: OfAccess>(cells: &Cells, seat: &mut CellSeat, slot: FrameSlot)
    requires fits { (seat.old.table_id ≡ cells.now.table_id) × (slot.lock < cells.now.table_id.words) }
    requires allowed { Allows (HoldsAll (places_of cells.now.key)) cells.now.table_id.slots seat.old.id seat.old.me
        slot.lock (λ _. 0) (λ _ m. Returns J.left seat.old.me m) }
    ensures seat { (seat.new.table_id ≡ seat.old.table_id) × (seat.new.id ≡ seat.old.id) }
    ensures returned { Returns J.left seat.old.me seat.new.me }
{
    if cells.swap::<ReturnsTo<J>>(seat, slot.lock, 0) == AWAITED {
        cells.wake_one(slot.lock);
    }
}

// Takes the frame of a slot if no other seat has it. Otherwise returns false, with the seat unchanged.
pub(crate) fn try_lock(cells: &Cells, seat: &mut CellSeat, slot: FrameSlot) -> bool
    requires mine { seat.old.table_id ≡ cells.now.table_id }
    requires slot { IsSlotOf (places_of cells.now.key) cells.now.table_id slot }
    ensures seat { (seat.new.table_id ≡ seat.old.table_id) × (seat.new.id ≡ seat.old.id) }
    ensures took { MatchBool result (Took (places_of cells.now.key) slot seat.old.me seat.new.me)
        (seat.new.me ≡ seat.old.me) }
{
    lock_word::<Brand>(cells, seat, slot) == 0
}

// Takes the frame of a slot if no other seat has it, and marks its lock as awaited in either case. Otherwise returns
// false, with the seat unchanged.
fn take_awaited(cells: &Cells, seat: &mut CellSeat, slot: FrameSlot) -> bool
    requires mine { seat.old.table_id ≡ cells.now.table_id }
    requires slot { IsSlotOf (places_of cells.now.key) cells.now.table_id slot }
    ensures seat { (seat.new.table_id ≡ seat.old.table_id) × (seat.new.id ≡ seat.old.id) }
    ensures took { MatchBool result (Took (places_of cells.now.key) slot seat.old.me seat.new.me)
        (seat.new.me ≡ seat.old.me) }
{
    await_word::<Brand>(cells, seat, slot) == 0
}

// Takes the frame of a slot that another seat has, or had just now. Waits until that frees it. Each frame that the seat
// holds meanwhile lies in a lower slot, so seats never wait in a ring. A seat that waited takes the frame with the mark
// that others may wait too, so the next wakes when it frees the frame. It is inlined: a call would have its slot in
// memory, and each lock of a free frame would write it there.
#[inline(always)]
fn lock_awaited<R: Wait>(rt: &R, cells: &Cells, seat: &mut CellSeat, slot: FrameSlot)
    requires mine { seat.old.table_id ≡ cells.now.table_id }
    requires slot { IsSlotOf (places_of cells.now.key) cells.now.table_id slot }
    requires upwards { AreBelow slot.index seat.old.me.0.held }
    ensures seat { (seat.new.table_id ≡ seat.old.table_id) × (seat.new.id ≡ seat.old.id) }
    ensures took { Took (places_of cells.now.key) slot seat.old.me seat.new.me }
{
    'tries: for _try in rt.forever() {
        if take_awaited(cells, seat, slot) {
            return;
        }
        cells.park(rt, slot.lock, AWAITED as u32);
    }
    unreachable!()
}

// Takes the frame of a slot. Waits while another seat has it, and meanwhile holds only frames in lower slots. Most
// frames are free, so the one exchange that takes such a frame is inlined.
#[inline(always)]
pub(crate) fn lock<R: Wait>(rt: &R, cells: &Cells, seat: &mut CellSeat, slot: FrameSlot)
    requires mine { seat.old.table_id ≡ cells.now.table_id }
    requires slot { IsSlotOf (places_of cells.now.key) cells.now.table_id slot }
    requires upwards { AreBelow slot.index seat.old.me.0.held }
    ensures seat { (seat.new.table_id ≡ seat.old.table_id) × (seat.new.id ≡ seat.old.id) }
    ensures took { Took (places_of cells.now.key) slot seat.old.me seat.new.me }
{
    if try_lock(cells, seat, slot) {
        return;
    }
    lock_awaited(rt, cells, seat, slot)
}
