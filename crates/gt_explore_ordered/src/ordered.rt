//! The search for each text with the precedences of its orders.
ghost use Rattle.std.specs.Prelude.{All, IfOk};
ghost use Rattle.gt_script.specs.Contents.{contents_of};
ghost use Rattle.gt_script.specs.RunContents.{run_contents};
ghost use Rattle.gt_script.specs.RunScripts.{CanConfigure};
ghost use Rattle.gt_precedence.specs.Precedence.{IsOrderly};
ghost use Rattle.gt_explore_search.specs.Parts.{Pairwise};
ghost use Rattle.gt_explore_ordered.specs.Holding.{HoldsAs, IsNotedBy};
ghost use Rattle.gt_explore_ordered.specs.Ordered.{HasEachOrdered};

use crate::following::{held_of, replayed};
use crate::notes::{has_marks, letters_in};
use crate::places::{CallOrder, orders_of};
use crate::space::OrderedSpace;
use gt_explore_faults::TextsFault;
use gt_explore_moves::SearchContext;
use gt_explore_replay::every_order_has_turns;
use gt_explore_search::{FoundText, SearchWatch, Turn, search_within};
use gt_script::{Precedence, RunScript};
use std::alloc::Global;

/// A text that a script may give, with turns that led the search to an order with this text. `held` has for each
/// precedence whether it holds in that order.
#[derive(Drop)]
pub struct OrderedText {
    pub text: Vec<u8>,
    pub turns: Vec<Turn>,
    pub held: Vec<bool>,
}

/// Texts with the precedences of their orders, and the number of states that the search met. `whole`: each order has
/// its text among these, with the precedences that hold in it. If not, the search met more states than its limit, or
/// its watch ended it, and `depth` is the number of states on the way to the last of them.
#[derive(Drop)]
pub struct OrderedFound {
    pub texts: Vec<OrderedText>,
    pub states: usize,
    pub whole: bool,
    pub depth: usize,
}

// Makes the turns of an order again on the core. Returns its text, and which precedences hold in it.
fn ordered_text(
    alloc: Global,
    script: &RunScript<'_>,
    orders: &[Option<CallOrder>],
    found: FoundText,
) -> Result<OrderedText, TextsFault>
    requires { CanConfigure (contents_of script.now.head) }
    ensures possible { IfOk result (HoldsAs (run_contents script.now) orders.now) }
    ensures noted { IfOk result (IsNotedBy found.text.items) }
{
    let turns = found.turns;
    let Some(order) = replayed(alloc, script, turns.as_slice())? else {
        return Err(TextsFault::Astray);
    };
    let held = held_of(alloc, orders, order.moves.as_slice())?;
    let text = letters_in(alloc, found.text.as_slice())?;
    if text.as_slice() != order.text.as_slice()
        || !has_marks(found.text.as_slice(), held.as_slice())
    {
        return Err(TextsFault::Astray);
    }
    Ok(OrderedText { text, turns, held })
}

// Does the same with each of these orders.
fn ordered_texts(
    alloc: Global,
    script: &RunScript<'_>,
    orders: &[Option<CallOrder>],
    found: Vec<FoundText>,
) -> Result<Vec<OrderedText>, TextsFault>
    requires { CanConfigure (contents_of script.now.head) }
    ensures possible { IfOk result (λ texts. All (HoldsAs (run_contents script.now) orders.now) texts.items) }
    ensures noted { IfOk result (λ texts. Pairwise (λ o t. IsNotedBy o.text.items t) found.items texts.items) }
{
    let mut texts = Vec::new(alloc);
    'found: for order in found {
        let made = ordered_text(alloc, script, orders, order)?;
        texts.push(made)?;
    }
    Ok(texts)
}

/// Returns texts that a script may give, each with the ones of these precedences that hold in an order with that text.
/// If the search meets at most `limit` states and its watch does not end it, each order of the script has its text
/// among these, with exactly the precedences that hold in it. Otherwise they are those found until then. A text may
/// come several times, with other precedences or with the same. A precedence holds in no order if one of its lines has
/// no call.
///
/// # Errors
/// `Astray` if the core does not follow the turns that were found, or if a run returned to a state; `States` if the
/// search has too many states to number, or if a precedence after the first 256 holds; and `Memory`.
pub fn ordered_within<W: SearchWatch>(
    alloc: Global,
    script: &RunScript<'_>,
    all: &[Precedence],
    limit: usize,
    watch: &mut W,
) -> Result<OrderedFound, TextsFault>
    requires fits { CanConfigure (contents_of script.now.head) }
    requires orderly { IsOrderly (run_contents script.now) }
    ensures { IfOk result (HasEachOrdered (run_contents script.now) all.now) }
{
    every_order_has_turns();
    let scene = SearchContext::new(alloc, script)?;
    let orders = orders_of(&scene, all)?;
    let space = OrderedSpace {
        scene,
        orders: orders.as_slice(),
    };
    let partial = search_within(alloc, &space, limit, watch)?;
    let whole = partial.whole;
    let depth = partial.depth;
    let states = partial.found.states;
    let texts = ordered_texts(alloc, script, orders.as_slice(), partial.found.orders)?;
    Ok(OrderedFound {
        texts,
        states,
        whole,
        depth,
    })
}
