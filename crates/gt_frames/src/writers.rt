//! The last writer of each byte of a frame, and the right by which it wrote.
ghost use Rattle.std.specs.Prelude.{◌≡◌, ◌+◌, ◌<◌, ◌≤◌, ℕ, IfSome, None, false, true, length, replicate};
ghost use Rattle.std.specs.Prelude.{slice_index_or};
ghost use Rattle.gt_model.specs.Written.{overlay};
ghost use Rattle.gt_frames.specs.Writers.{IsUsed, LiesIn, count_used, numbers_of};

use crate::{Writ, WriteBasis};
use gt_types::{DomId, FRAME_SIZE, Memory};
use std::alloc::Global;
use std::mem;

// The last writ of a frame that was not written yet. No access is compared with it.
const NO_WRIT: Writ = Writ {
    writer: DomId(0),
    basis: WriteBasis::Owned,
};

// The least number of writs at which unused ones are searched for.
const MIN_LIMIT: usize = 128;

// Consecutive bytes with the same number.
#[derive(Clone, Copy)]
struct Stretch {
    off: usize,
    len: usize,
    number: u16,
}

const EMPTY: Stretch = Stretch {
    off: 0,
    len: 0,
    number: 0,
};

/// The writ by which each byte of a frame was last written. It does not allocate before the first write.
///
/// A writ is kept while a byte has it; later its slot is reused. There are at most 128 slots, or twice as many as writs
/// were ever in use at once, if that is more.
#[derive(Drop)]
pub(crate) struct Writers {
    alloc: Global,
    // The number of each byte's writ: its slot plus one, or 0 if the byte was never written. Empty before the first
    // write. Entries within the latest stretch are stale.
    below: Vec<u16>,
    // The bytes written last. Their number is copied to `below` only if a write needs another stretch. So writing
    // the same bytes again takes the same time, however many they are.
    latest: Stretch,
    writs: Vec<Writ>,
    // For each slot, whether a byte may have its writ.
    used: Vec<bool>,
    // The number of the writ used last, or 0. Its slot is marked as used, and there are numbers for all bytes.
    last: u16,
    // The writ with that number, beside it: an access by the writ of the access before looks into no list.
    last_writ: Writ,
    // The number of the writ used before that one, or 0. Two writs that alternate keep their slots.
    previous: u16,
    // The slot at which the search for a free one begins.
    next: usize,
    // With this many slots, unused ones are searched for before another is added.
    limit: usize,
}

// Returns the first unused slot, starting at `from`.
fn first_free(used: &[bool], from: usize) -> Option<usize>
    ensures some { IfSome result (λ n. (n < length used.now) × (slice_index_or used.now n true ≡ false)) }
    ensures none { result ≡ None → (at : ℕ) → from ≤ at → slice_index_or used.now at true ≡ true }
{
    'places: for place in from..used.len() {
        if !used[place] {
            return Some(place);
        }
    }
    None
}

// Marks the slots of these numbers, and no others.
fn mark(numbers: &[u16], used: &mut [bool])
    requires within { (at : ℕ) → slice_index_or numbers.now at 0 ≤ length used.old }
    ensures marked { (at : ℕ) → IsUsed used.new (slice_index_or numbers.now at 0) }
    ensures len { length used.new ≡ length used.old }
    ensures few { count_used used.new ≤ length numbers.now }
{
    clear(used);
    'bytes: for at in 0..numbers.len() {
        let number = usize::from(numbers[at]);
        if number > 0 {
            used[number - 1] = true;
        }
    }
}

fn clear(used: &mut [bool])
    ensures len { length used.new ≡ length used.old }
    ensures none { count_used used.new ≡ 0 }
{
    'places: for at in 0..used.len() {
        used[at] = false;
    }
}

fn count(used: &[bool]) -> usize
    ensures { result ≡ count_used used.now }
{
    let mut count = 0;
    'places: for at in 0..used.len() {
        if used[at] {
            count += 1;
        }
    }
    count
}

#[inline(always)]
fn fill(numbers: &mut Vec<u16>, off: usize, len: usize, number: u16)
    requires { off + len ≤ length numbers.old.items }
    ensures { numbers.new.items ≡ overlay numbers.old.items off (replicate len number) }
{
    set_all(&mut numbers[off..off + len], number);
}

// Sets each of these numbers. The loop is vectorized, 8 numbers at a time.
#[inline(always)]
fn set_all(numbers: &mut [u16], number: u16)
    ensures { numbers.new ≡ replicate (length numbers.old) number }
{
    'numbers: for at in 0..numbers.len() {
        numbers[at] = number;
    }
}

// Copies the number of the latest stretch to the numbers below it, and empties the stretch.
#[cold]
#[inline(never)]
fn flush(below: &mut Vec<u16>, latest: &mut Stretch)
    requires { LiesIn latest.old below.old.items }
    ensures below { below.new.items ≡ numbers_of below.old.items latest.old }
    ensures all { numbers_of below.new.items latest.new ≡ below.new.items }
    ensures lies { LiesIn latest.new below.new.items }
    ensures len { length below.new.items ≡ length below.old.items }
{
    fill(below, latest.off, latest.len, latest.number);
    *latest = EMPTY;
}

// Gives this number to the bytes of this range. Copies no number if the range contains the whole latest stretch, or
// continues it with the same number.
#[inline(always)]
fn assign(below: &mut Vec<u16>, latest: &mut Stretch, number: u16, off: usize, len: usize)
    requires lies { LiesIn latest.old below.old.items }
    requires range { off + len ≤ length below.old.items }
    ensures numbers { numbers_of below.new.items latest.new
        ≡ overlay (numbers_of below.old.items latest.old) off (replicate len number) }
    ensures lies { LiesIn latest.new below.new.items }
    ensures len { length below.new.items ≡ length below.old.items }
{
    let end = latest.off + latest.len;
    if number == latest.number && latest.off <= off && off <= end {
        if end < off + len {
            latest.len = off + len - latest.off;
        }
        return;
    }
    if off > latest.off || end > off + len {
        flush(below, latest);
    }
    *latest = Stretch { off, len, number };
}

impl Writers {
    ghost use Rattle.std.specs.Prelude.{◌≡◌, ◌+◌, ◌<◌, ◌≤◌, ◌-◌, ℕ, Some, None, IfOk, OnOk, OnErr, true, length};
    ghost use Rattle.std.specs.Prelude.{replicate, slice_get, slice_index_or};
    ghost use Rattle.gt_model.specs.Written.{overlay};
    ghost use Rattle.gt_frames.specs.Writers.{AreWriters, HasWrit, IsFree, IsUsed, KeepsWriters, ShowsSame, shown};
    ghost use Rattle.gt_frames.specs.Writers.{count_used, most_writs, numbers_of};

    /// Returns the writers of a frame in which no byte was written.
    pub(crate) fn new(alloc: Global) -> Writers
        ensures sound { AreWriters result }
        ensures none { (at : ℕ) → shown result at ≡ None }
    {
        Writers {
            alloc,
            below: Vec::new(alloc),
            latest: EMPTY,
            writs: Vec::new(alloc),
            used: Vec::new(alloc),
            last: 0,
            last_writ: NO_WRIT,
            previous: 0,
            next: 0,
            limit: MIN_LIMIT,
        }
    }

    // Makes room for the numbers of all bytes, unless there is room.
    fn make_numbers(&mut self) -> Result<(), Memory>
        requires { AreWriters self.old }
        ensures sound { AreWriters self.new }
        ensures same { ShowsSame self.old self.new }
        ensures len { OnOk result (length self.new.below.items ≡ FRAME_SIZE) }
    {
        if self.below.is_empty() {
            self.below = vec![in self.alloc; 0; FRAME_SIZE as usize]?;
        }
        Ok(())
    }

    // Adds a slot for this writ, which no byte has yet.
    fn add(&mut self, writ: &Writ) -> Result<usize, Memory>
        requires sound { AreWriters self.old }
        requires few { length self.old.writs.items < most_writs }
        ensures same { KeepsWriters self.old self.new }
        ensures free { IfOk result (IsFree self.new) }
    {
        self.writs.reserve(1)?;
        self.used.reserve(1)?;
        let place = self.writs.len();
        self.writs.push_reserved(*writ);
        self.used.push_reserved(false);
        Ok(place)
    }

    // Finds the slots that no byte uses.
    fn find_unused(&mut self)
        requires { AreWriters self.old }
        ensures same { KeepsWriters self.old self.new }
        ensures few { count_used self.new.used.items ≤ FRAME_SIZE }
    {
        flush(&mut self.below, &mut self.latest);
        self.previous = self.last;
        self.last = 0;
        mark(&self.below, &mut self.used);
        self.limit = (2 * count(&self.used)).max(MIN_LIMIT);
    }

    // Returns a slot whose writ no byte has. If none is known, searches for unused slots once there are enough of
    // them, and otherwise adds one.
    fn free_place(&mut self, writ: &Writ) -> Result<usize, Memory>
        requires { AreWriters self.old }
        ensures same { KeepsWriters self.old self.new }
        ensures free { IfOk result (IsFree self.new) }
    {
        if let Some(place) = first_free(&self.used, self.next) {
            return Ok(place);
        }
        if self.writs.len() >= self.limit {
            self.find_unused();
            if let Some(place) = first_free(&self.used, 0) {
                return Ok(place);
            }
        }
        self.add(writ)
    }

    // Puts the writ into a slot that no byte uses.
    fn put(&mut self, place: usize, writ: &Writ)
        requires sound { AreWriters self.old }
        requires free { IsFree self.old place }
        ensures same { KeepsWriters self.old self.new }
        ensures has { HasWrit self.new (place + 1) writ.now }
    {
        self.writs[place] = *writ;
        self.used[place] = true;
        self.next = place + 1;
    }

    // Returns true only if this number is that of this writ.
    #[inline(always)]
    fn is_writ(&self, number: u16, writ: &Writ) -> bool
        ensures { result ≡ true →
            (0 < number) × (number ≤ length self.now.writs.items)
            × (slice_get self.now.writs.items (number - 1) ≡ Some writ.now) }
    {
        let number = usize::from(number);
        if number == 0 || number > self.writs.len() {
            return false;
        }
        self.writs[number - 1].equals(writ)
    }

    // Returns the number of this byte's writ, or 0.
    fn number_at(&self, at: usize) -> usize
        requires { AreWriters self.now }
        ensures { result ≡ slice_index_or (numbers_of self.now.below.items self.now.latest) at 0 }
    {
        let latest = &self.latest;
        if latest.off <= at && at - latest.off < latest.len {
            return usize::from(latest.number);
        }
        match self.below.get(at) {
            Some(number) => usize::from(*number),
            None => 0,
        }
    }

    /// Returns the writ by which this byte was last written.
    pub(crate) fn last_writ(&self, at: usize) -> Option<Writ>
        requires { AreWriters self.now }
        ensures { result ≡ shown self.now at }
    {
        let number = self.number_at(at);
        if number == 0 {
            None
        } else {
            self.writs.get(number - 1).copied()
        }
    }

    /// Returns the number of this writ, for `show`. Adds the writ if it is new.
    ///
    /// # Errors
    ///
    /// `Memory`, if an allocation fails. The writ of each byte is then unchanged.
    #[inline(always)]
    pub(crate) fn number_of(&mut self, writ: &Writ) -> Result<u16, Memory>
        requires { AreWriters self.old }
        ensures sound { AreWriters self.new }
        ensures same { ShowsSame self.old self.new }
        ensures len { OnOk result (length self.new.below.items ≡ FRAME_SIZE) }
        ensures has { IfOk result (λ n. HasWrit self.new n writ.now) }
    {
        if self.last != 0 && self.last_writ.equals(writ) {
            return Ok(self.last);
        }
        let mut other = *writ;
        self.number_of_other(&mut other)
    }

    // Marks the slot of the previous writ as used, and returns its number.
    fn use_previous(&mut self) -> u16
        requires sound { AreWriters self.old }
        requires there { (0 < self.old.previous) × (self.old.previous ≤ length self.old.writs.items) }
        ensures sound { AreWriters self.new }
        ensures same { ShowsSame self.old self.new }
        ensures below { self.new.below ≡ self.old.below }
        ensures writs { self.new.writs ≡ self.old.writs }
        ensures number { result ≡ self.old.previous }
        ensures used { IsUsed self.new.used.items result }
    {
        let number = self.previous;
        let place = usize::from(number) - 1;
        self.used[place] = true;
        number
    }

    // Makes the writ with this number the last one, in exchange for the one before.
    fn make_last(&mut self, number: u16, writ: &mut Writ)
        requires sound { AreWriters self.old }
        requires has { HasWrit self.old number writ.old }
        requires len { length self.old.below.items ≡ FRAME_SIZE }
        ensures sound { AreWriters self.new }
        ensures same { ShowsSame self.old self.new }
        ensures below { self.new.below ≡ self.old.below }
        ensures has { HasWrit self.new number writ.old }
    {
        if self.last != 0 {
            self.previous = self.last;
        }
        self.last = number;
        mem::swap(&mut self.last_writ, writ);
    }

    // The slow path of `number_of`: a writ other than the last, or the frame's first write. Exchanges the writ for the
    // last one. It takes a copy that it may change, which is made on this path only: the fast path has its writ in
    // registers.
    #[cold]
    #[inline(never)]
    fn number_of_other(&mut self, writ: &mut Writ) -> Result<u16, Memory>
        requires { AreWriters self.old }
        ensures sound { AreWriters self.new }
        ensures same { ShowsSame self.old self.new }
        ensures len { OnOk result (length self.new.below.items ≡ FRAME_SIZE) }
        ensures has { IfOk result (λ n. HasWrit self.new n writ.old) }
    {
        self.make_numbers()?;
        let number = if self.is_writ(self.previous, writ) {
            self.use_previous()
        } else {
            let place = self.free_place(writ)?;
            self.put(place, writ);
            place as u16 + 1
        };
        self.make_last(number, writ);
        Ok(number)
    }

    /// Records that the bytes of this range were written by the writ with this number.
    #[inline(always)]
    pub(crate) fn show(&mut self, number: u16, off: usize, len: usize)
        requires sound { AreWriters self.old }
        requires size { length self.old.below.items ≡ FRAME_SIZE }
        requires range { off + len ≤ FRAME_SIZE }
        requires has { (number ≤ length self.old.writs.items) × IsUsed self.old.used.items number }
        ensures sound { AreWriters self.new }
        ensures writs { self.new.writs ≡ self.old.writs }
        ensures numbers { numbers_of self.new.below.items self.new.latest
            ≡ overlay (numbers_of self.old.below.items self.old.latest) off (replicate len number) }
        ensures len { length self.new.below.items ≡ length self.old.below.items }
    {
        assign(&mut self.below, &mut self.latest, number, off, len);
    }
}
