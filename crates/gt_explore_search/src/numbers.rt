//! Lists of numbers, each kept once.
ghost use Rattle.std.specs.Prelude.{◌≡◌, ◌≤◌, ◌-◌, ◌++◌, [], ◌∷◌, IfOk, IfSome, IsTrue, OnErr, drop, length, slice_get};
ghost use Rattle.std.specs.Prelude.{slice_index_or, take, Some};
ghost use Rattle.std.specs.Option.{option_map};
ghost use Rattle.gt_explore_search.specs.Numbers.{IsKeptAs};

use crate::fault::SearchFault;
use std::alloc::{AllocError, Global};
use std::marker::Model;

/// Lists of numbers, each kept once under a number. All items are in one vector, a list after the other.
#[derive(Drop)]
pub struct NumberLists {
    items: Vec<u32>,
    // The end of each list, where the next one begins.
    ends: Vec<u32>,
    // For each list one more than its number, in a slot that its hash leads to. A free slot has a 0.
    slots: Vec<u32>,
    // The number that `number_of` returned last.
    last: u32,
}

impl Model for NumberLists {
    ghost use Rattle.std.specs.Prelude.{List, ℕ};
    ghost use Rattle.gt_explore_search.specs.Numbers.{AreCut, lists_cut};

    ghost Value = { List (List ℕ) };

    ghost view = { λ a. lists_cut 0 a.items.items a.ends.items };

    ghost invariant = { λ a. AreCut 0 a.items.items a.ends.items };
}

// Returns a number that is equal for equal lists, and rarely for others.
fn hash_of(list: &[u32]) -> usize {
    let mut hash = list.len();
    for number in list {
        hash = (hash.rotate_left(5) ^ *number as usize).wrapping_mul(0x517c_c1b7_2722_0a95);
    }
    hash ^ (hash >> 32)
}

// Returns whether both lists are the same.
fn same_list(one: &[u32], other: &[u32]) -> bool
    ensures { IsTrue result → one.now ≡ other.now }
{
    if one.len() != other.len() {
        return false;
    }
    'items: for at in 0..one.len() {
        if one[at] != other[at] {
            return false;
        }
    }
    true
}

// Puts this entry into the first free slot that the hash leads to.
fn file(slots: &mut [u32], hash: usize, entry: u32) {
    let mask = slots.len().saturating_sub(1);
    let mut at = hash & mask;
    for _ in 0..slots.len() {
        if at < slots.len() && slots[at] == 0 {
            slots[at] = entry;
            return;
        }
        at = at.wrapping_add(1) & mask;
    }
}

// Files each of the lists with these ends in a free table.
fn file_all(slots: &mut [u32], items: &[u32], ends: &[u32]) {
    let mut begin = 0;
    let mut entry: u32 = 0;
    for end in ends {
        let end = *end as usize;
        entry = entry.saturating_add(1);
        if let Some(list) = items.get(begin..end) {
            file(slots, hash_of(list), entry);
        }
        begin = end;
    }
}

// Returns where the list with this number begins, by the ends of the lists.
fn begin_of(ends: &[u32], number: usize) -> usize
    ensures { result ≡ slice_index_or (0 ∷ ends.now) number 0 }
{
    if number == 0 {
        return 0;
    }
    ends.get(number - 1).copied().unwrap_or(0) as usize
}

// Returns where the list with this number ends, by the ends of the lists.
fn end_of(ends: &[u32], number: usize) -> Option<u32>
    ensures { result ≡ slice_get ends.now number }
{
    ends.get(number).copied()
}

// Returns the items between these places.
fn between(items: &[u32], begin: usize, end: usize) -> &[u32]
    requires order { begin ≤ end }
    requires within { end ≤ length items.now }
    ensures { result.now ≡ take (end - begin) (drop begin items.now) }
{
    &items[begin..end]
}

impl NumberLists {
    /// Makes an index without lists.
    pub fn new(alloc: Global) -> NumberLists
        ensures { result ≡ [] }
    {
        NumberLists {
            items: Vec::new(alloc),
            ends: Vec::new(alloc),
            slots: Vec::new(alloc),
            last: 0,
        }
    }

    /// Returns the number of lists.
    pub fn len(&self) -> usize
        ensures { result ≡ length self.now }
    {
        self.ends.len()
    }

    /// Returns the list with this number, if there is one.
    pub fn get(&self, number: usize) -> Option<&[u32]>
        ensures { option_map (λ l. l.now) result ≡ slice_get self.now number }
    {
        let ends = self.ends.as_slice();
        match end_of(ends, number) {
            Some(end) => Some(between(self.items.as_slice(), begin_of(ends, number), end as usize)),
            None => None,
        }
    }

    // Returns whether the list with this number is this one.
    fn is_list(&self, number: u32, list: &[u32]) -> bool
        ensures { IsTrue result → slice_get self.now number ≡ Some list.now }
    {
        match self.get(number as usize) {
            Some(kept) => same_list(kept, list),
            None => false,
        }
    }

    // Returns the number of this list with this hash, if it is kept.
    fn find_hashed(&self, list: &[u32], hash: usize) -> Option<u32>
        ensures { IfSome result (λ n. slice_get self.now n ≡ Some list.now) }
    {
        let mask = self.slots.len().saturating_sub(1);
        let mut at = hash & mask;
        'slots: for _ in 0..self.slots.len() {
            let entry = self.slots.get(at).copied().unwrap_or(0);
            let number = entry.checked_sub(1)?;
            if self.is_list(number, list) {
                return Some(number);
            }
            at = at.wrapping_add(1) & mask;
        }
        None
    }

    /// Returns the number of this list, if it is kept.
    pub fn find(&self, list: &[u32]) -> Option<u32>
        ensures { IfSome result (λ n. slice_get self.now n ≡ Some list.now) }
    {
        self.find_hashed(list, hash_of(list))
    }

    // Returns the number of this list, if it is the list with the number `last` or the one after it.
    fn find_near(&self, list: &[u32]) -> Option<u32>
        ensures { IfSome result (λ n. slice_get self.now n ≡ Some list.now) }
    {
        let last = self.last;
        let next = last.saturating_add(1);
        if self.is_list(last, list) {
            Some(last)
        } else if self.is_list(next, list) {
            Some(next)
        } else {
            None
        }
    }

    // Makes the table larger if three of four slots are taken.
    fn make_room(&mut self) -> Result<(), AllocError>
        ensures { self.new ≡ self.old }
    {
        let count = self.slots.len();
        if self.ends.len() < count / 4 * 3 {
            return Ok(());
        }
        self.slots.clear();
        self.slots.resize(count.saturating_mul(2).max(16), 0)?;
        file_all(
            self.slots.as_mut_slice(),
            self.items.as_slice(),
            self.ends.as_slice(),
        );
        Ok(())
    }

    // Appends a list with this hash, under the next number.
    fn push(&mut self, list: &[u32], hash: usize) -> Result<u32, SearchFault>
        ensures pushed { IfOk result (λ n. (n ≡ length self.old) × (self.new ≡ self.old ++ list.now ∷ [])) }
        ensures err { OnErr result (self.new ≡ self.old) }
    {
        let number = self.ends.len();
        let end = self.items.len().saturating_add(list.len());
        if number >= 4_294_967_295 || end >= 4_294_967_296 {
            return Err(SearchFault::States);
        }
        self.ends.reserve(1)?;
        self.items.extend_from_slice(list)?;
        self.ends.push_reserved(end as u32);
        file(self.slots.as_mut_slice(), hash, number as u32 + 1);
        self.last = number as u32;
        Ok(number as u32)
    }

    /// Returns the number of a list, which is the next one if the list is new.
    ///
    /// # Errors
    /// `Memory`, or `States` if the lists, or their items in all, are too many for numbers of 32 bits. The lists are
    /// then unchanged.
    pub fn number_of(&mut self, list: &[u32]) -> Result<u32, SearchFault>
        ensures kept { IfOk result (λ n. IsKeptAs self.old list.now n self.new) }
        ensures err { OnErr result (self.new ≡ self.old) }
    {
        if let Some(number) = self.find_near(list) {
            self.last = number;
            return Ok(number);
        }
        let hash = hash_of(list);
        if let Some(number) = self.find_hashed(list, hash) {
            self.last = number;
            return Ok(number);
        }
        self.make_room()?;
        self.push(list, hash)
    }

    /// Returns the number of a list, which is the next one if the list is new. The number `likely` is tried first.
    ///
    /// # Errors
    /// `Memory`, or `States` if the lists, or their items in all, are too many for numbers of 32 bits. The lists are
    /// then unchanged.
    pub fn number_near(&mut self, list: &[u32], likely: u32) -> Result<u32, SearchFault>
        ensures kept { IfOk result (λ n. IsKeptAs self.old list.now n self.new) }
        ensures err { OnErr result (self.new ≡ self.old) }
    {
        if self.is_list(likely, list) {
            return Ok(likely);
        }
        self.number_of(list)
    }
}
