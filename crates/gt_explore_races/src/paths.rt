//! The ways of runs to races.
ghost use Rattle.std.specs.Prelude.{◌≡◌, ◌≢◌, ◌++◌, ◌∷◌, [], Some, IfOk, IfSome, IsTrue, slice_get};
ghost use Rattle.gt_script.specs.Contents.{contents_of};
ghost use Rattle.gt_script.specs.RunContents.{run_contents};
ghost use Rattle.gt_script.specs.RunScripts.{CanConfigure, list_of};
ghost use Rattle.gt_types.specs.declared.config.DomainConfig.{DomainConfig};
ghost use Rattle.gt_explore_races.specs.Paths.{LeadsToRace};
ghost use Rattle.gt_explore_races.specs.Races.{last_line};
ghost use Rattle.gt_explore_races.specs.Replays.{HasApproached};
ghost use Rattle.gt_explore_races.specs.declared.events.EventKind.TheVariants as event_kinds;

use crate::events::EventKind;
use crate::racing::{Race, race_text};
use crate::replaying::{Approach, after_turns, line_of, races};
use crate::searching::RaceSearch;
use gt_explore_faults::TextsFault;
use gt_explore_search::Turn;
use gt_script::RunScript;
use std::alloc::{AllocError, Global};

/// The way of a run to a race, and its two accesses: the turns, and the events that they make.
#[derive(Drop)]
pub struct RacePath {
    pub turns: Vec<Turn>,
    pub events: Vec<EventKind>,
}

// Appends the event of a step of the domain at this position. Returns whether there is such a domain.
fn push_access(
    script: &RunScript<'_>,
    place: usize,
    events: &mut Vec<EventKind>,
) -> Result<bool, AllocError>
    ensures { (d : DomainConfig) → slice_get (contents_of script.now.head).domains place ≡ Some d →
        IfOk result (λ b. IsTrue b → events.new.items ≡ events.old.items ++ event_kinds.Tick d.id ∷ []) }
{
    let Some(domain) = script.head().domains().get(place) else {
        return Ok(false);
    };
    events.push(EventKind::Tick(domain.id))?;
    Ok(true)
}

// Returns whether the last of this number of tasks of the domain at this position has this line.
fn has_line(
    alloc: Global,
    script: &RunScript<'_>,
    place: usize,
    begun: usize,
    line: usize,
) -> Result<bool, AllocError>
    ensures { IfOk result (λ b. IsTrue b → (d : DomainConfig) →
        slice_get (contents_of script.now.head).domains place ≡ Some d →
        last_line (list_of script.now.tasks d.id) begun ≡ Some line) }
{
    match line_of(alloc, script, place, begun)? {
        Some(last) => Ok(last == line),
        None => Ok(false),
    }
}

// Returns the events up to this race and those of its accesses, if the next steps of the domains at these positions are
// these accesses: the domain of the race's first line comes first.
fn events_near(
    alloc: Global,
    script: &RunScript<'_>,
    race: Race,
    near: Approach<'_, '_>,
    first: usize,
    second: usize,
) -> Result<Option<Vec<EventKind>>, TextsFault>
    requires { first ≢ second }
    ensures { HasApproached (run_contents script.now) first second near.entry →
        IfOk result (λ o. IfSome o (λ events. LeadsToRace (run_contents script.now) race events.items)) }
{
    let Approach {
        run,
        first_begun,
        second_begun,
        mut events,
    } = near;
    if !has_line(alloc, script, first, first_begun, race.first)? {
        return Ok(None);
    }
    if !has_line(alloc, script, second, second_begun, race.second)? {
        return Ok(None);
    }
    if !races(run, first, second)? {
        return Ok(None);
    }
    if !push_access(script, first, &mut events)? {
        return Ok(None);
    }
    if !push_access(script, second, &mut events)? {
        return Ok(None);
    }
    Ok(Some(events))
}

// Returns these turns, and one more of each of the domains at these positions.
fn turns_with(
    alloc: Global,
    turns: &[Turn],
    first: usize,
    second: usize,
) -> Result<Vec<Turn>, AllocError> {
    let mut all = Vec::from_slice(alloc, turns)?;
    for place in [first, second] {
        all.push(Turn { place, choice: 0 })?;
    }
    Ok(all)
}

// Returns the path to this race, if these turns lead to it: the domain at the first position has the race's first line.
fn path_by(
    alloc: Global,
    script: &RunScript<'_>,
    race: Race,
    turns: &[Turn],
    first: usize,
    second: usize,
) -> Result<Option<RacePath>, TextsFault>
    requires fits { CanConfigure (contents_of script.now.head) }
    requires apart { first ≢ second }
    ensures { IfOk result (λ o. IfSome o (λ path. LeadsToRace (run_contents script.now) race path.events.items)) }
{
    let Some(near) = after_turns(alloc, script, turns, first, second)? else {
        return Ok(None);
    };
    let Some(events) = events_near(alloc, script, race, near, first, second)? else {
        return Ok(None);
    };
    let turns = turns_with(alloc, turns, first, second)?;
    Ok(Some(RacePath { turns, events }))
}

// Returns the path to this race, if these turns lead to it: the last one ends the run there.
fn path_of_turns(
    alloc: Global,
    script: &RunScript<'_>,
    race: Race,
    turns: &[Turn],
) -> Result<Option<RacePath>, TextsFault>
    requires { CanConfigure (contents_of script.now.head) }
    ensures { IfOk result (λ o. IfSome o (λ path. LeadsToRace (run_contents script.now) race path.events.items)) }
{
    let Some((last, before)) = turns.split_last() else {
        return Ok(None);
    };
    let first = last.place;
    let second = last.choice.saturating_sub(1);
    if first == second {
        return Ok(None);
    }
    match path_by(alloc, script, race, before, first, second)? {
        Some(path) => Ok(Some(path)),
        None => path_by(alloc, script, race, before, second, first),
    }
}

/// Returns the path to a race that a search found: turns that lead to it, and its two accesses.
///
/// # Errors
/// `Astray` if the search did not find this race, or if the core does not follow its turns to it; and `Memory`.
pub fn path_to_race(
    alloc: Global,
    script: &RunScript<'_>,
    search: &RaceSearch,
    race: Race,
) -> Result<RacePath, TextsFault>
    requires { CanConfigure (contents_of script.now.head) }
    ensures { IfOk result (λ path. LeadsToRace (run_contents script.now) race path.events.items) }
{
    let text = race_text(alloc, race)?;
    'found: for order in search.orders.as_slice() {
        if order.text.as_slice() == text.as_slice() {
            return match path_of_turns(alloc, script, race, order.turns.as_slice())? {
                Some(path) => Ok(path),
                None => Err(TextsFault::Astray),
            };
        }
    }
    Err(TextsFault::Astray)
}
