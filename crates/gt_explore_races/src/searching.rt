//! The search for races.
ghost use Rattle.std.specs.Prelude.{◌≤◌, ◌<◌, ◌^◌, IfOk, IsTrue};
ghost use Rattle.gt_explore_moves.specs.Scenes.{IsSceneOf};
ghost use Rattle.gt_explore_search.specs.Exploring.{AllTextsFound};
ghost use Rattle.gt_script.specs.Contents.{contents_of};
ghost use Rattle.gt_script.specs.RunContents.{run_contents};
ghost use Rattle.gt_script.specs.RunScripts.{CanConfigure};
ghost use Rattle.gt_script.specs.Stuck.{AreNumbered};
ghost use Rattle.gt_explore_races.specs.Listing.{AreSmall};
ghost use Rattle.gt_explore_races.specs.Races.{AreRacesOf};
ghost use Rattle.gt_explore_races.specs.Spaces.{race_ways};

use crate::listing::races_found;
use crate::racing::Race;
use crate::space::RaceSpace;
use gt_explore_faults::TextsFault;
use gt_explore_moves::SearchContext;
use gt_explore_replay::every_order_has_turns;
use gt_explore_search::{FoundText, PartialResult, SearchFault, SearchWatch, search_within};
use gt_script::{RunScript, RunTask};
use std::alloc::Global;

/// The result of a search for races, which are in ascending order. If `whole` is true, the search met all states, and
/// these are all races. `states` is the number of states met, at most the limit. `orders` has turns that lead to the
/// races, for [`path_to_race`](crate::path_to_race).
#[derive(Drop)]
pub struct RaceSearch {
    pub races: Vec<Race>,
    pub orders: Vec<FoundText>,
    pub whole: bool,
    pub states: usize,
}

// The watch of a search that keeps the number of states met.
#[derive(Drop)]
struct CountingWatch<'w, T> {
    watch: &'w mut T,
    states: usize,
}

impl<T: SearchWatch> SearchWatch for CountingWatch<'_, T> {
    fn ends(&mut self, states: usize) -> bool {
        self.states = states;
        self.watch.ends(states)
    }
}

// A law: the line of a task is a number of 64 bits.
fn line_is_small(task: &RunTask<'_>)
    ensures { task.now.line < 2 ^ 64 }
{
    let _line = task.line;
}

// A law: the same for the lines of all tasks.
fn lines_are_small(tasks: &[RunTask<'_>])
    ensures { AreSmall tasks.now }
{
    'tasks: for task in tasks {
        line_is_small(task);
    }
}

// Returns the races that a search of this space found.
fn races_of(
    alloc: Global,
    script: &RunScript<'_>,
    space: &RaceSpace<'_>,
    partial: PartialResult,
    limit: usize,
) -> Result<RaceSearch, TextsFault>
    requires { CanConfigure (contents_of script.now.head) }
    ensures races { IsSceneOf (run_contents script.now) space.now.scene →
        (IsTrue partial.whole → AllTextsFound (race_ways space.now.scene) partial.found) →
        IfOk result (λ search. AreRacesOf (run_contents script.now) search.whole search.races.items) }
    ensures few { IfOk result (λ search. search.states ≤ limit) }
{
    every_order_has_turns();
    lines_are_small(script.tasks());
    let whole = partial.whole;
    let found = partial.found;
    let races = races_found(alloc, script, found.orders.as_slice())?;
    let states = found.states.min(limit);
    let orders = found.orders;
    Ok(RaceSearch {
        races,
        orders,
        whole,
        states,
    })
}

/// Searches for the races of a script's run. Visits at most `limit` states. If memory is wanting, it returns no races,
/// and `whole` is false.
///
/// # Errors
/// `Astray` if the core does not follow the turns that were found to a race, and on to the end of an order, or if a run
/// returned to a state; `States` if the search has too many states to number; and `Memory`.
pub fn search_races<'s, 'a, W: SearchWatch>(
    alloc: Global,
    script: &'s RunScript<'a>,
    limit: usize,
    watch: &mut W,
) -> Result<RaceSearch, TextsFault>
    requires fits { CanConfigure (contents_of script.now.head) }
    requires numbered { AreNumbered script.now.flags script.now.tasks }
    ensures races { IfOk result (λ search.
        AreRacesOf (run_contents script.entry.now) search.whole search.races.items) }
    ensures few { IfOk result (λ search. search.states ≤ limit) }
{
    let scene: SearchContext<'s, 's> = SearchContext::new(alloc, script)?;
    let space = RaceSpace { scene };
    let mut watching = CountingWatch { watch, states: 0 };
    match search_within(alloc, &space, limit, &mut watching) {
        Ok(partial) => races_of(alloc, script, &space, partial, limit),
        Err(SearchFault::Memory) => Ok(RaceSearch {
            races: Vec::new(alloc),
            orders: Vec::new(alloc),
            whole: false,
            states: watching.states.min(limit),
        }),
        Err(fault) => Err(TextsFault::from(fault)),
    }
}
