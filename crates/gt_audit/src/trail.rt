//! A domain's own list of records.
ghost use Rattle.std.specs.Prelude.{◌≡◌};
ghost use Rattle.gt_audit.specs.Trails.{one_more_lost};

use crate::pieces::Pieces;
use crate::record::Record;
use gt_types::Memory;
use std::alloc::Global;
use std::marker::Model;

/// The records of one domain, in order, and how many were lost: because an allocation failed, or because the trail
/// was at its bound. Each record takes 48 bytes. It does not move when the trail grows.
#[derive(Drop)]
pub struct Trail {
    alloc: Global,
    pieces: Pieces,
    len: usize,
    lost: u64,
    most: usize,
}

impl Model for Trail {
    ghost use Rattle.std.specs.Prelude.{◌≡◌, length};
    ghost use Rattle.gt_audit.specs.Trails.{TrailState};

    ghost Value = { TrailState };

    ghost view = { λ t. record {
      records = t.pieces.records;
      lost = t.lost;
      most = t.most;
      room = t.pieces.room;
    } };

    ghost invariant = { λ t. t.len ≡ length t.pieces.records };
}

// Counts one more, up to `u64::MAX`. A saturating sum would take two more instructions.
#[inline(always)]
fn count_lost(lost: &mut u64)
    ensures { lost.new ≡ one_more_lost lost.old }
{
    if *lost < u64::MAX {
        *lost += 1;
    }
}

impl Trail {
    ghost use Rattle.std.specs.Prelude.{◌≡◌, ◌==◌, ◌≤◌, OnErr, OnOk, IfOk, length, slice_get};
    ghost use Rattle.gt_audit.specs.Trails.{silent, ArePartsOf, HasNone, AppendsRecord, KeepsRoom};
    ghost use Rattle.gt_audit.specs.declared.pieces.TheConstants.{MOST_RESERVED};

    /// Returns a trail with no records and no bound. It does not allocate.
    pub fn new(alloc: Global) -> Trail
        ensures { result ≡ silent }
    {
        Trail {
            alloc,
            pieces: Pieces::new(alloc),
            len: 0,
            lost: 0,
            most: usize::MAX,
        }
    }

    /// Sets the bound. A later record is kept only if the trail has fewer than `records` then, and is otherwise
    /// lost. The trail keeps all records that it has.
    pub fn keep_at_most(&mut self, records: usize)
        ensures { self.new ≡ record self.old { most = records } }
    {
        self.most = records;
    }

    /// Makes room for this many more records. Writes the room once, so that its pages are there before the records
    /// are.
    ///
    /// # Errors
    ///
    /// `Memory` if an allocation fails. Also for more than [`MOST_RESERVED`] records, without any allocation. The
    /// trail is then unchanged, and the memory taken for records is released.
    pub fn reserve(&mut self, records: usize) -> Result<(), Memory>
        ensures bound { OnOk result (records ≤ MOST_RESERVED) }
        ensures refused { OnErr result (self.new ≡ self.old) }
        ensures room { OnOk result (records ≤ self.new.room) }
        ensures grows { self.old.room ≤ self.new.room }
        ensures kept { self.new ≡ record self.old { room = self.new.room } }
    {
        self.pieces.reserve(records)?;
        Ok(())
    }

    /// Appends a record. If an allocation fails or the trail is at its bound, the records stay unchanged and the
    /// count of lost ones rises by one. The count stops at [`u64::MAX`].
    #[inline(always)]
    pub fn push(&mut self, recorded: Record)
        ensures { AppendsRecord self.old recorded self.new }
    {
        if self.len >= self.most || self.pieces.push(recorded).is_err() {
            count_lost(&mut self.lost);
        } else {
            self.len += 1;
        }
    }

    /// Returns the number of records.
    pub fn len(&self) -> usize
        ensures { result ≡ length self.now.records }
    {
        self.len
    }

    /// Returns true if the trail has no record.
    pub fn is_empty(&self) -> bool
        ensures { result ≡ (length self.now.records == 0) }
    {
        self.len == 0
    }

    /// Returns the record at this index, from 0, or None if there is none.
    pub fn get(&self, index: usize) -> Option<Record>
        ensures { result ≡ slice_get self.now.records index }
    {
        self.pieces.get(index)
    }

    /// Returns a list of the records, in order.
    pub fn records(&self) -> Result<Vec<Record>, Memory>
        ensures { IfOk result (λ v. v.items ≡ self.now.records) }
    {
        let mut records = Vec::new(self.alloc);
        'records: for index in 0..self.len() {
            if let Some(recorded) = self.get(index) {
                records.push(recorded)?;
            }
        }
        Ok(records)
    }

    /// Returns the number of lost records.
    pub fn lost(&self) -> u64
        ensures { result ≡ self.now.lost }
    {
        self.lost
    }

    /// Drops all records and the count of lost ones. Keeps the room that they took, and the room that was free.
    pub fn clear(&mut self)
        ensures emptied { HasNone self.new }
        ensures bound { self.new.most ≡ self.old.most }
        ensures room { KeepsRoom self.old self.new }
    {
        self.pieces.clear();
        self.len = 0;
        self.lost = 0;
    }

    /// Swaps in `next`, which is empty, and returns the records so far. The bound stays. A caller that alternates two
    /// trails, and clears the one returned, uses their room again.
    pub fn take(&mut self, next: Trail) -> Trail
        requires empty { HasNone next }
        ensures parts { ArePartsOf self.old result self.new }
        ensures taken { result ≡ self.old }
        ensures goes_on { self.new ≡ record next { most = self.old.most } }
    {
        let most = self.most;
        let taken = std::mem::replace(self, next);
        self.most = most;
        taken
    }
}
