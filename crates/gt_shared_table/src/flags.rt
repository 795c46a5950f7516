//! The steps on flags, on which domains wait for one another.
ghost use Rattle.std.specs.Prelude.{◌≡◌, ◌<◌, ◌↔◌, IsTrue, MatchBool};
ghost use Rattle.atomic_table.specs.Table.{Allows};
ghost use Rattle.gt_word_history.specs.declared.view.FlagStep.TheVariants.{Passed, Raised};
ghost use Rattle.gt_word_history.specs.declared.view.SeatStep.TheVariants.{Flag};
ghost use Rattle.gt_shared_table.specs.Accesses.{TakesFlagStep};
ghost use Rattle.gt_shared_table.specs.Rule.{HoldsAll, places_of};
ghost use Rattle.gt_shared_table.specs.Recording.{AddsStep, LooksAtFlag as looks_at_flag};

use crate::rule::{CellSeat, Cells, LooksAtFlag, OfFlag, RaisesFlag};
use crate::table::{SharedTable, TableSeat};
use std::marker::Brand;

// Stores the word of a flag, once. Only the proof uses `flag`.
fn raise_word<J: OfFlag>(cells: &Cells, seat: &mut CellSeat, word: usize, flag: usize)
    requires fits { (seat.old.table_id ≡ cells.now.table_id) × (word < cells.now.table_id.words) }
    requires allowed { Allows (HoldsAll (places_of cells.now.key)) cells.now.table_id.slots seat.old.id seat.old.me
        word (λ _. 1) (λ _ m. AddsStep J.layout (Flag J.flag Raised) seat.old.me m) }
    ensures seat { (seat.new.table_id ≡ seat.old.table_id) × (seat.new.id ≡ seat.old.id) }
    ensures raised { AddsStep J.layout (Flag J.flag Raised) seat.old.me seat.new.me }
{
    let _ = flag;
    cells.store::<RaisesFlag<J>>(seat, word, 1);
}

// Loads the word of a flag, once. Only the proof uses `flag`.
fn load_word<J: OfFlag>(cells: &Cells, seat: &mut CellSeat, word: usize, flag: usize) -> u64
    requires fits { (seat.old.table_id ≡ cells.now.table_id) × (word < cells.now.table_id.words) }
    requires allowed { Allows (HoldsAll (places_of cells.now.key)) cells.now.table_id.slots seat.old.id seat.old.me
        word (λ n. n) (λ n m. looks_at_flag J.layout J.flag seat.old.me n m) }
    ensures seat { (seat.new.table_id ≡ seat.old.table_id) × (seat.new.id ≡ seat.old.id) }
    ensures looked { looks_at_flag J.layout J.flag seat.old.me result seat.new.me }
{
    let _ = flag;
    cells.load::<LooksAtFlag<J>>(seat, word)
}

impl SharedTable {
    /// Returns whether the table has the flag.
    #[inline]
    pub fn has_flag(&self, flag: usize) -> bool
        ensures { IsTrue result ↔ (flag < self.now.flags) }
    {
        flag < self.flags as usize
    }

    /// Raises a flag. This is one step of the history.
    pub fn raise_flag(&self, seat: &mut TableSeat, flag: usize)
        requires table { seat.old.table ≡ self.now.table }
        requires inside { flag < self.now.flags }
        ensures table { seat.new.table ≡ seat.old.table }
        ensures locks { seat.new.locks ≡ seat.old.locks }
        ensures step { TakesFlagStep self.now.layout flag Raised seat.old.view seat.new.view }
    {
        let word = self.first_flag + flag;
        raise_word::<Brand>(&self.table.shared, &mut seat.seat, word, flag);
    }

    /// Passes a flag if it is raised. This is one step of the history, and an earlier one raised the flag. Otherwise
    /// returns false and makes no step.
    pub fn pass_flag(&self, seat: &mut TableSeat, flag: usize) -> bool
        requires table { seat.old.table ≡ self.now.table }
        requires inside { flag < self.now.flags }
        ensures table { seat.new.table ≡ seat.old.table }
        ensures locks { seat.new.locks ≡ seat.old.locks }
        ensures step { MatchBool result (TakesFlagStep self.now.layout flag Passed seat.old.view seat.new.view)
            (seat.new.view ≡ seat.old.view) }
    {
        let word = self.first_flag + flag;
        load_word::<Brand>(&self.table.shared, &mut seat.seat, word, flag) != 0
    }
}
