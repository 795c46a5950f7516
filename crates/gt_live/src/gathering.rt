//! The seats of domains that have left, gathered to show one state.
ghost use Rattle.std.specs.Prelude.{◌≡◌, ◌∷◌, []};
ghost use Rattle.gt_word_history.specs.Joining.{StandTogether, with_view};
ghost use Rattle.gt_words.specs.Conditions.{IsSeatOf};
ghost use Rattle.gt_live.specs.Parts.{seat_left, words_of};

use crate::domain::Departed;
use crate::monitor::Monitor;
use gt_words::Gathered;

impl<P> Monitor<P> {
    /// Begins to gather what the domains of the run left behind, with that of the first domain.
    pub fn gather(&self, first: Departed) -> Gathered
        requires seat { IsSeatOf (words_of self.now) (seat_left first) }
        requires first { (seat_left first).view.position ≡ 0 }
        ensures { (result.table ≡ (words_of self.now).table) × (result.views ≡ (seat_left first).view ∷ []) }
    {
        let Departed { seat, .. } = first;
        self.words.gather(seat)
    }

    /// Adds what another domain left behind.
    pub fn gather_more(&self, all: &mut Gathered, other: Departed)
        requires table { all.old.table ≡ (words_of self.now).table }
        requires seat { IsSeatOf (words_of self.now) (seat_left other) }
        ensures { (all.new.table ≡ all.old.table) × (all.new.views ≡ with_view (seat_left other).view all.old.views) }
    {
        let Departed { seat, .. } = other;
        self.words.gather_more(all, seat);
    }

    /// Loads one word with all gathered seats. By its contract, words and views show one state, in which each of these
    /// domains has the view with which it left. So the steps of the whole run have one order.
    pub fn learn_of_all(&self, all: &mut Gathered)
        requires { all.old.table ≡ (words_of self.now).table }
        ensures same { all.new.views ≡ all.old.views }
        ensures together { StandTogether (words_of self.now).layout all.old.views }
    {
        self.words.learn_of_all(all);
    }
}
