//! Map handles over a slab.
ghost use Rattle.std.specs.Prelude.{◌≡◌, ◌+◌, ◌<◌, ◌≤◌, ◌^◌, ◌==◌, IsOk, IsSome, IfSome, IfNone, OnOk, OnSome};
ghost use Rattle.std.specs.Prelude.{Some, None, option_copied, slice_index_or, slice_set};

pub use gt_model::Handle;
use gt_types::Memory;
use slab::Slab;
use std::alloc::Global;
use std::marker::Model;

/// A value, with the serial of its handle.
#[derive(Drop)]
pub struct HandleSlot<T> {
    pub serial: u64,
    pub value: T,
}

/// A finite map from handles to values, with the number of serials given so far.
#[derive(Drop)]
pub struct Handles<T> {
    slab: Slab<HandleSlot<T>>,
    given: u64,
    // No key below it has a value. So a run of `pop`s looks at each key once.
    lowest: usize,
}

impl<T> Model for Handles<T> {
    ghost use Rattle.std.specs.Prelude.{◌-◌};
    ghost use Rattle.slab.specs.Slab.{slab_len};
    ghost use Rattle.gt_handles.specs.Handles.{HandleMap, kept_code, IsInOrder};

    ghost Value = { HandleMap T };

    ghost coded = { kept_code T.code };

    ghost view = { λ h. record { slots = h.slab.slots; given = h.given; room = h.slab.capacity - slab_len h.slab } };

    ghost invariant = { λ h. IsInOrder h.slab.slots h.given h.lowest };
}

impl<T> Handles<T> {
    ghost use Rattle.std.specs.Prelude.{[]};
    ghost use Rattle.gt_handles.specs.Handles.{value_of, count_of, Updates, IsSpent, KeepsSpent, IsLeast};
    ghost use Rattle.gt_handles.specs.Handles.{IsEmpty, FindsNext, HasSoundHandles};

    /// Returns a map with no values, which has given no serial. It does not allocate.
    pub fn new(alloc: Global) -> Self
        ensures { result ≡ record { slots = []; given = 0; room = 0 } }
    {
        Handles {
            slab: Slab::new(alloc),
            given: 0,
            lowest: 0,
        }
    }

    /// Makes room for one more value. If the allocation fails, the map is unchanged.
    pub fn reserve(&mut self) -> Result<(), Memory>
        ensures room { OnOk result (1 ≤ self.new.room) }
        ensures succeeds { 1 ≤ self.old.room → IsOk result }
        ensures grows { self.old.room ≤ self.new.room }
        ensures kept { self.new ≡ record self.old { room = self.new.room } }
    {
        self.slab.reserve(1)?;
        Ok(())
    }

    /// Keeps a value under a new handle, and returns the handle. Its serial is the number of serials given before.
    /// The caller has reserved room, and fewer than 2^64 - 1 serials were given.
    pub fn insert(&mut self, value: T) -> Handle
        requires room { 1 ≤ self.old.room }
        requires serial { self.old.given + 1 < 2 ^ 64 }
        ensures serial { result.serial ≡ self.old.given }
        ensures fresh { value_of self.old result ≡ None }
        ensures given { self.new.given ≡ self.old.given + 1 }
        ensures updates { Updates self.old self.new result (Some value) }
        ensures count { count_of self.new ≡ count_of self.old + 1 }
        ensures room { self.new.room + 1 ≡ self.old.room }
        ensures spent { KeepsSpent self.old self.new }
    {
        let serial = self.given;
        self.given += 1;
        let key = self.slab.insert_reserved(HandleSlot { serial, value });
        if key < self.lowest {
            self.lowest = key;
        }
        Handle { serial, key }
    }

    /// Returns the value under a handle. `None` if this map never gave the handle, or its value was taken.
    pub fn get(&self, handle: Handle) -> Option<&T>
        ensures value { option_copied result ≡ value_of self.now handle }
        ensures sound { HasSoundHandles self.now }
    {
        match self.slab.get(handle.key) {
            Some(slot) if slot.serial == handle.serial => Some(&slot.value),
            _ => None,
        }
    }

    /// Takes the value under a handle out. `None`, and no change, if there is no value.
    pub fn take(&mut self, handle: Handle) -> Option<T>
        ensures value { result ≡ value_of self.old handle }
        ensures updates { Updates self.old self.new handle None }
        ensures slots { OnSome result (self.new.slots ≡ slice_set self.old.slots handle.key None) }
        ensures given { self.new.given ≡ self.old.given }
        ensures count { OnSome result (count_of self.new + 1 ≡ count_of self.old) }
        ensures room { OnSome result (self.new.room ≡ self.old.room + 1) }
        ensures absent { IfNone result (self.new ≡ self.old) }
        ensures spent { OnSome result (IsSpent self.new handle) }
        ensures still_spent { KeepsSpent self.old self.new }
    {
        match self.slab.get(handle.key) {
            Some(slot) if slot.serial == handle.serial => {}
            _ => return None,
        }
        let slot = self.slab.remove(handle.key);
        Some(slot.value)
    }

    /// Takes the value with the least key out. `None`, and no change, if the map is empty.
    pub fn pop(&mut self) -> Option<(Handle, T)>
        ensures value { IfSome result (λ r. value_of self.old r.0 ≡ Some r.1) }
        ensures least { IfSome result (λ r. IsLeast self.old r.0.key) }
        ensures updates { IfSome result (λ r. Updates self.old self.new r.0 None) }
        ensures given { self.new.given ≡ self.old.given }
        ensures count { OnSome result (count_of self.new + 1 ≡ count_of self.old) }
        ensures room { OnSome result (self.new.room ≡ self.old.room + 1) }
        ensures spent { IfSome result (λ r. IsSpent self.new r.0) }
        ensures still_spent { KeepsSpent self.old self.new }
        ensures empty { IfNone result (IsEmpty self.old) }
        ensures absent { IfNone result (self.new ≡ self.old) }
    {
        let key = self.least_key()?;
        let slot = self.slab.remove(key);
        self.lowest = key;
        let handle = Handle {
            serial: slot.serial,
            key,
        };
        Some((handle, slot.value))
    }

    // Returns the least key that has a value.
    fn least_key(&self) -> Option<usize>
        ensures found { IfSome result (λ key. IsSome (slice_index_or self.now.slots key None)) }
        ensures least { IfSome result (λ key. IsLeast self.now key) }
        ensures empty { IfNone result (IsEmpty self.now) }
    {
        if self.slab.is_empty() {
            return None;
        }
        for key in self.lowest..self.slab.capacity() {
            if self.slab.contains(key) {
                return Some(key);
            }
        }
        None
    }

    /// Returns the handle with the least key from `from` on that has a value. `None` if no such key has one. Looks at each
    /// key before it.
    pub fn next_from(&self, from: usize) -> Option<Handle>
        ensures { FindsNext self.now from result }
    {
        'keys: for key in from..self.slab.capacity() {
            if let Some(slot) = self.slab.get(key) {
                let serial = slot.serial;
                return Some(Handle { serial, key });
            }
        }
        None
    }

    /// Returns the number of values.
    pub fn len(&self) -> usize
        ensures { result ≡ count_of self.now }
    {
        self.slab.len()
    }

    /// Returns true if there is no value.
    pub fn is_empty(&self) -> bool
        ensures { result ≡ (count_of self.now == 0) }
    {
        self.len() == 0
    }

    /// Returns the number of serials given so far.
    pub fn given(&self) -> u64
        ensures value { result ≡ self.now.given }
        ensures sound { HasSoundHandles self.now }
    {
        self.given
    }
}
