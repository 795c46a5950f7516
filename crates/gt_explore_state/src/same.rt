//! Equality of tables and pages, and of calls, steps and ends of calls.
//!
//! Each function here returns true only for equal values, and may return false for them: a search then keeps a state
//! twice. They are functions rather than a derived `PartialEq` on the types of `gt_calls`, since each crate above that
//! one would read the derive.
ghost use Rattle.std.specs.Prelude.{◌≡◌, IsTrue};

use crate::pages::SparsePage;
use crate::rows::TableRow;
use crate::table::SparseTable;
use gt_calls::{BodyWord, OwnerEntry};
use gt_core::PinCounts;

mod calls;
mod steps;

pub use calls::{same_call, same_result};
pub use steps::same_step;

fn same_entry(one: OwnerEntry, other: OwnerEntry) -> bool
    ensures { IsTrue result → other ≡ one }
{
    one.entry() == other.entry() && one.generation() == other.generation()
}

fn same_own(one: &[TableRow<OwnerEntry>], other: &[TableRow<OwnerEntry>]) -> bool
    ensures { IsTrue result → other.now ≡ one.now }
{
    if one.len() != other.len() {
        return false;
    }
    'rows: for at in 0..one.len() {
        if one[at].gref != other[at].gref || !same_entry(one[at].value, other[at].value) {
            return false;
        }
    }
    true
}

fn same_pins(one: PinCounts, other: PinCounts) -> bool
    ensures { IsTrue result → other ≡ one }
{
    one.reads() == other.reads()
        && one.writes() == other.writes()
        && one.body(BodyWord::First) == other.body(BodyWord::First)
        && one.body(BodyWord::Second) == other.body(BodyWord::Second)
}

fn same_counts(one: &[TableRow<PinCounts>], other: &[TableRow<PinCounts>]) -> bool
    ensures { IsTrue result → other.now ≡ one.now }
{
    if one.len() != other.len() {
        return false;
    }
    'rows: for at in 0..one.len() {
        if one[at].gref != other[at].gref || !same_pins(one[at].value, other[at].value) {
            return false;
        }
    }
    true
}

impl SparseTable {
    ghost use Rattle.std.specs.Prelude.{IsTrue};
    ghost use Rattle.gt_explore_state.specs.Tables.{SameTable};

    /// Returns whether the tables are the same.
    pub fn is_same(&self, other: &SparseTable) -> bool
        ensures { IsTrue result → SameTable self.now other.now }
    {
        self.header == other.header
            && same_own(self.own.as_slice(), other.own.as_slice())
            && same_counts(self.counts.as_slice(), other.counts.as_slice())
    }
}

impl SparsePage {
    ghost use Rattle.std.specs.Prelude.{IsTrue};
    ghost use Rattle.gt_explore_state.specs.Copies.{SamePage};

    /// Returns whether the pages are the same.
    pub fn is_same(&self, other: &SparsePage) -> bool
        ensures { IsTrue result → SamePage self.now other.now }
    {
        self.owner == other.owner
            && self.frame == other.frame
            && self.bytes.as_slice() == other.bytes.as_slice()
    }
}
