//! How the first seat deals the others, and how it takes them in.
ghost use Rattle.std.specs.Prelude.{◌≡◌, ◌∷◌, ◌<◌, [], false};
ghost use Rattle.gt_word_history.specs.Joining.{GatheredOf, StandTogether, with_view};
ghost use Rattle.gt_word_history.specs.Places.{dealer_after, dealt_to};

use crate::raw::learn_all;
use crate::rule::{CellSeat, Deal, TakeIn};
use crate::table::{SharedTable, TableSeat};
use std::marker::{Brand, Model};

/// Seats of one run that make no more steps, the first domain's among them.
#[derive(Drop)]
pub struct Gathered {
    seat: CellSeat,
}

impl Model for Gathered {
    ghost Value = { GatheredOf };

    ghost view = { λ g. record { table = g.seat.table_id; views = g.seat.me.0.own.own ∷ g.seat.me.0.own.taken } };

    ghost invariant = { λ g. (g.seat.me.1 ≡ []) × (g.seat.me.0.own.gone ≡ false)
        × (g.seat.me.0.own.own.position ≡ 0) };
}

impl Gathered {
    /// Begins with the first seat, which makes no more steps.
    pub fn new(first: TableSeat) -> Gathered
        requires { first.view.position ≡ 0 }
        ensures { (result.table ≡ first.table) × (result.views ≡ first.view ∷ []) }
    {
        let TableSeat { seat } = first;
        Gathered { seat }
    }
}

impl SharedTable {
    /// Deals the next seat. Only the first seat deals, and it counts the seats that it dealt.
    pub fn deal(&self, first: &mut TableSeat) -> TableSeat
        requires table { first.old.table ≡ self.now.table }
        requires first { first.old.view.position ≡ 0 }
        requires room { first.old.view.dealt < self.now.layout.domains }
        ensures dealer { first.new ≡ record first.old { view = dealer_after first.old.view } }
        ensures dealt { result ≡ record first.old { view = dealt_to first.old.view; locks = [] } }
    {
        TableSeat {
            seat: self.table.shared.split_seat::<Deal>(&mut first.seat),
        }
    }

    /// Takes another seat in, which makes no more steps.
    pub fn take_in(&self, all: &mut Gathered, other: TableSeat)
        requires { (all.old.table ≡ self.now.table) × (other.table ≡ self.now.table) }
        ensures { (all.new.table ≡ all.old.table) × (all.new.views ≡ with_view other.view all.old.views) }
    {
        let TableSeat { seat } = other;
        self.table.shared.join_seat::<TakeIn>(&mut all.seat, seat);
    }

    /// Loads one word with all gathered seats. Afterwards a proof may use the views of all of them at one moment. No
    /// view grows.
    pub fn learn_of_all(&self, all: &mut Gathered)
        requires { all.old.table ≡ self.now.table }
        ensures same { all.new ≡ all.old }
        ensures together { StandTogether self.now.layout all.old.views }
    {
        learn_all::<Brand>(&self.table.shared, &mut all.seat);
    }
}
