//! The seats of a whole run, gathered to show one state.
ghost use Rattle.std.specs.Prelude.{◌≡◌, ◌∷◌, []};
ghost use Rattle.gt_word_history.specs.Joining.{StandTogether, with_view};
ghost use Rattle.gt_words.specs.Conditions.{IsSeatOf};

use crate::words::{Seat, Words};
use gt_shared_table::Gathered;

impl Words {
    /// Begins to gather the seats of a run, with the seat of the first domain. A gathered seat makes no more steps.
    pub fn gather(&self, first: Seat) -> Gathered
        requires { IsSeatOf self.now first × (first.view.position ≡ 0) }
        ensures { (result.table ≡ self.now.table) × (result.views ≡ first.view ∷ []) }
    {
        let Seat { place, .. } = first;
        Gathered::new(place)
    }

    /// Adds a seat to the gathered ones.
    pub fn gather_more(&self, all: &mut Gathered, other: Seat)
        requires { (all.old.table ≡ self.now.table) × IsSeatOf self.now other }
        ensures { (all.new.table ≡ all.old.table) × (all.new.views ≡ with_view other.view all.old.views) }
    {
        let Seat { place, .. } = other;
        self.words.take_in(all, place);
    }

    /// Loads one word with all gathered seats. By its contract, words and views show one state with the views of all of
    /// them, so their steps have one order.
    pub fn learn_of_all(&self, all: &mut Gathered)
        requires { all.old.table ≡ self.now.table }
        ensures same { all.new.views ≡ all.old.views }
        ensures together { StandTogether self.now.layout all.old.views }
    {
        self.words.learn_of_all(all);
    }
}
