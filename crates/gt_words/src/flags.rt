//! The steps on flags, on which domains wait for one another.
ghost use Rattle.std.specs.Prelude.{◌≡◌, ◌<◌, ◌↔◌, IsTrue, MatchBool};
ghost use Rattle.gt_word_history.specs.Places.{IsSamePlace};
ghost use Rattle.gt_word_history.specs.Views.{own_header};
ghost use Rattle.gt_word_history.specs.declared.view.FlagStep.TheVariants.{Passed, Raised};
ghost use Rattle.gt_words.specs.Conditions.{IsSameSeat, IsSeatOf};
ghost use Rattle.gt_words.specs.Flags.{StepsOnFlag};

use crate::words::{Seat, Words};
use gt_shared_table::{SharedTable, TableSeat};

// Raises a flag of the table.
fn raise_at(words: &SharedTable, seat: &mut TableSeat, flag: usize)
    requires table { seat.old.table ≡ words.now.table }
    requires inside { flag < words.now.flags }
    ensures seat { IsSamePlace seat.old seat.new }
    ensures step { StepsOnFlag words.now.layout flag Raised seat.old.view seat.new.view }
    ensures header { own_header seat.new.view ≡ own_header seat.old.view }
{
    words.raise_flag(seat, flag);
}

// Passes a flag of the table if it is raised.
fn pass_at(words: &SharedTable, seat: &mut TableSeat, flag: usize) -> bool
    requires table { seat.old.table ≡ words.now.table }
    requires inside { flag < words.now.flags }
    ensures seat { IsSamePlace seat.old seat.new }
    ensures step { MatchBool result (StepsOnFlag words.now.layout flag Passed seat.old.view seat.new.view)
        (seat.new.view ≡ seat.old.view) }
    ensures header { own_header seat.new.view ≡ own_header seat.old.view }
{
    words.pass_flag(seat, flag)
}

impl Words {
    /// Returns whether the run has the flag.
    #[inline]
    pub fn has_flag(&self, flag: usize) -> bool
        ensures { IsTrue result ↔ (flag < self.now.flags) }
    {
        self.words.has_flag(flag)
    }

    /// Raises a flag. This is one step of the history.
    pub fn raise_flag(&self, seat: &mut Seat, flag: usize)
        requires seat { IsSeatOf self.now seat.old }
        requires inside { flag < self.now.flags }
        ensures seat { IsSameSeat seat.old seat.new }
        ensures fits { IsSeatOf self.now seat.new }
        ensures step { StepsOnFlag self.now.layout flag Raised seat.old.view seat.new.view }
    {
        raise_at(&self.words, &mut seat.place, flag);
    }

    /// Passes a flag if it is raised. This is one step of the history, and an earlier one raised the flag. Otherwise
    /// returns false and makes no step.
    pub fn pass_flag(&self, seat: &mut Seat, flag: usize) -> bool
        requires seat { IsSeatOf self.now seat.old }
        requires inside { flag < self.now.flags }
        ensures seat { IsSameSeat seat.old seat.new }
        ensures fits { IsSeatOf self.now seat.new }
        ensures step { MatchBool result (StepsOnFlag self.now.layout flag Passed seat.old.view seat.new.view)
            (seat.new.view ≡ seat.old.view) }
    {
        pass_at(&self.words, &mut seat.place, flag)
    }
}
