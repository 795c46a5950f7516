//! The search for a moment.
ghost use Rattle.std.specs.Prelude.{◌≡◌, IfOk, IsTrue};
ghost use Rattle.gt_explore_moves.specs.Scenes.{IsSceneOf};
ghost use Rattle.gt_explore_search.specs.Exploring.{AllTextsFound};
ghost use Rattle.gt_script.specs.Contents.{contents_of};
ghost use Rattle.gt_script.specs.RunContents.{run_contents};
ghost use Rattle.gt_script.specs.RunScripts.{CanConfigure};
ghost use Rattle.gt_script.specs.Stuck.{AreNumbered};
ghost use Rattle.gt_state_claims.specs.Claims.{claim_asked};
ghost use Rattle.gt_explore_states.specs.Moments.{IsFinding, LeadsToMoment};
ghost use Rattle.gt_explore_states.specs.Spaces.{moment_ways};

use crate::ending::ends;
use crate::following::replayed;
use crate::space::MomentSpace;
use gt_explore_faults::TextsFault;
use gt_explore_moves::SearchContext;
use gt_explore_replay::every_order_has_turns;
use gt_explore_search::{PartialResult, SearchFault, SearchWatch, Turn, search_within};
use gt_script::RunScript;
use gt_state_claims::StateClaim;
use std::alloc::Global;
use std::cell::Cell;

/// What a search for a moment found.
#[derive(Drop)]
pub enum StateFinding {
    /// These turns lead from the beginning of the run to a moment at which the claim holds.
    Found(Vec<Turn>),
    /// No order has such a moment.
    Nowhere,
    /// No such moment was found. The search did not meet all states, since it came to its limit, its watch ended it, or
    /// memory was wanting.
    Undecided,
}

/// The result of a search for a moment. `states` is the number of states met, at most the limit.
#[derive(Drop)]
pub struct StateSearch {
    pub finding: StateFinding,
    pub states: usize,
}

// The watch of a search that ends it once the claim holds of a state, and keeps the number of states met.
#[derive(Drop)]
struct MomentWatch<'w, T> {
    watch: &'w mut T,
    met: &'w Cell<bool>,
    states: usize,
}

impl<T: SearchWatch> SearchWatch for MomentWatch<'_, T> {
    fn ends(&mut self, states: usize) -> bool {
        self.states = states;
        self.met.get() || self.watch.ends(states)
    }
}

// Returns whether these turns lead to a moment at which the claim holds.
fn leads_to_moment(
    alloc: Global,
    script: &RunScript<'_>,
    space: &MomentSpace<'_, '_>,
    turns: &[Turn],
) -> Result<bool, TextsFault>
    requires { CanConfigure (contents_of script.now.head) }
    ensures { IsSceneOf (run_contents script.now) space.now.scene → IfOk result (λ b. IsTrue b →
        LeadsToMoment (run_contents script.now) (claim_asked space.now.claim.now) turns.now) }
{
    let roster = &space.scene.roster;
    match replayed(alloc, script, space.claim, roster, turns)? {
        Some(run) => Ok(ends(run)?),
        None => Ok(false),
    }
}

// Returns what a search of this space found.
fn finding_of(
    alloc: Global,
    script: &RunScript<'_>,
    space: &MomentSpace<'_, '_>,
    partial: PartialResult,
) -> Result<StateFinding, TextsFault>
    requires { CanConfigure (contents_of script.now.head) }
    ensures { IsSceneOf (run_contents script.now) space.now.scene →
        (IsTrue partial.whole →
        AllTextsFound (moment_ways space.now.scene (claim_asked space.now.claim.now)) partial.found) →
        IfOk result (IsFinding (run_contents script.now) (claim_asked space.now.claim.now)) }
{
    every_order_has_turns();
    let whole = partial.whole;
    let mut orders = partial.found.orders;
    let Some(order) = orders.pop() else {
        if whole {
            return Ok(StateFinding::Nowhere);
        }
        return Ok(StateFinding::Undecided);
    };
    let leads = leads_to_moment(alloc, script, space, order.turns.as_slice())?;
    if leads {
        Ok(StateFinding::Found(order.turns))
    } else {
        Err(TextsFault::Astray)
    }
}

/// Searches for a moment of a script's run at which the claim holds. Visits at most `limit` states, and ends at the
/// first one of which the claim holds. If memory is wanting before that, the answer is `Undecided`.
///
/// # Errors
/// `Astray` if the core does not follow the turns that were found to such a moment, and on to the end of an order, or if
/// a run returned to a state; `States` if the search has too many states to number; and `Memory`.
pub fn search_state<'s, 'a, W: SearchWatch>(
    alloc: Global,
    script: &'s RunScript<'a>,
    claim: &StateClaim,
    limit: usize,
    watch: &mut W,
) -> Result<StateSearch, TextsFault>
    requires fits { CanConfigure (contents_of script.now.head) }
    requires numbered { AreNumbered script.now.flags script.now.tasks }
    ensures { IfOk result (λ search.
        IsFinding (run_contents script.entry.now) (claim_asked claim.now) search.finding) }
{
    let met = Cell::new(false);
    let scene: SearchContext<'s, 's> = SearchContext::new(alloc, script)?;
    let space = MomentSpace {
        scene,
        claim,
        met: &met,
    };
    let mut watching = MomentWatch {
        watch,
        met: &met,
        states: 0,
    };
    match search_within(alloc, &space, limit, &mut watching) {
        Ok(partial) => {
            let states = partial.found.states;
            let finding = finding_of(alloc, script, &space, partial)?;
            Ok(StateSearch { finding, states })
        }
        Err(SearchFault::Memory) if !met.get() => Ok(StateSearch {
            finding: StateFinding::Undecided,
            states: watching.states.min(limit),
        }),
        Err(fault) => Err(TextsFault::from(fault)),
    }
}
