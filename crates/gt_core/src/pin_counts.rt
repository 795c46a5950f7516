//! What the core keeps of an entry, besides what its owner knows.
use gt_calls::BodyWord;
use gt_types::{Dir, MAX_PINS};
use std::marker::Model;

/// The pins and body words of an entry.
#[derive(Clone, Copy)]
pub struct PinCounts {
    pub(crate) reads: u16,
    pub(crate) writes: u16,
    first: u64,
    second: u64,
}

impl Model for PinCounts {
    ghost use Rattle.std.specs.Prelude.{◌≤◌};
    ghost use Rattle.gt_types.specs.declared.limits.TheConstants.{MAX_PINS};
    ghost use Rattle.gt_core.specs.Rows.{PinCountsRow};

    ghost Value = { PinCountsRow };

    ghost view = { λ s. record { reads = s.reads; writes = s.writes; first = s.first; second = s.second } };

    ghost invariant = { λ s. (s.reads ≤ MAX_PINS) × (s.writes ≤ MAX_PINS) };

    ghost inverse = { λ v. record { reads = v.reads; writes = v.writes; first = v.first; second = v.second } };
}

/// What a step does to the pins and body words of an entry.
#[derive(Clone, Copy)]
pub enum CountsChange {
    Pinned(Dir),
    Unpinned(Dir),
    Stored(BodyWord, u64),
}

impl PinCounts {
    ghost use Rattle.std.specs.Prelude.{◌≡◌, ◌≤◌, Some};
    ghost use Rattle.gt_core.specs.Effects.{slot_after};
    ghost use Rattle.gt_core.specs.Sight.{slot_body};

    /// Returns no pins, and zero for both body words.
    pub fn new() -> PinCounts
        ensures { result ≡ record { reads = 0; writes = 0; first = 0; second = 0 } }
    {
        PinCounts {
            reads: 0,
            writes: 0,
            first: 0,
            second: 0,
        }
    }

    /// Returns the number of read pins, at most [`MAX_PINS`].
    pub fn reads(self) -> u16
        ensures value { result ≡ self.reads }
        ensures bound { result ≤ MAX_PINS }
    {
        self.reads
    }

    /// Returns the number of write pins, at most [`MAX_PINS`].
    pub fn writes(self) -> u16
        ensures value { result ≡ self.writes }
        ensures bound { result ≤ MAX_PINS }
    {
        self.writes
    }

    /// Returns one of the body words.
    pub fn body(self, body_word: BodyWord) -> u64
        ensures { result ≡ slot_body (Some self) body_word }
    {
        match body_word {
            BodyWord::First => self.first,
            BodyWord::Second => self.second,
        }
    }

    /// Returns the pins and body words after a change. A count of pins stays between 0 and [`MAX_PINS`].
    pub fn after(self, change: CountsChange) -> PinCounts
        ensures { result ≡ slot_after change self }
    {
        let mut slot = self;
        match change {
            CountsChange::Pinned(Dir::Read) => slot.reads = (slot.reads + 1).min(MAX_PINS),
            CountsChange::Pinned(Dir::Write) => slot.writes = (slot.writes + 1).min(MAX_PINS),
            CountsChange::Unpinned(Dir::Read) => slot.reads = slot.reads.saturating_sub(1),
            CountsChange::Unpinned(Dir::Write) => slot.writes = slot.writes.saturating_sub(1),
            CountsChange::Stored(BodyWord::Second, word) => slot.second = word,
            CountsChange::Stored(BodyWord::First, word) => slot.first = word,
        }
        slot
    }
}
