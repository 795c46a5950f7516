//! The turns that lead to a race, made again on the core.
ghost use Rattle.std.specs.Prelude.{◌≡◌, ◌≢◌, ◌++◌, ◌∷◌, [], List, Some, IfOk, IfSome, IsTrue, slice_get};
ghost use Rattle.gt_explore_replay.specs.Orders.{Happening};
ghost use Rattle.gt_explore_replay.specs.Walking.{ComesOn, HasWalked};
ghost use Rattle.gt_explore_replay.specs.declared.replay.Replay.{Replay};
ghost use Rattle.gt_script.specs.Contents.{contents_of};
ghost use Rattle.gt_script.specs.RunContents.{RunContents, run_contents};
ghost use Rattle.gt_script.specs.RunScripts.{CanConfigure, list_of};
ghost use Rattle.gt_types.specs.declared.config.DomainConfig.{DomainConfig};
ghost use Rattle.gt_explore_races.specs.Races.{Races, last_line};
ghost use Rattle.gt_explore_races.specs.Replays.{ConflictNext, HasApproached, HasBegun, HasMade};

use crate::accesses::conflict;
use crate::ending::ends;
use crate::events::{EventKind, push_event};
use crate::racing::{Race, race_of};
use gt_calls::Step;
use gt_explore_faults::TextsFault;
use gt_explore_replay::{Moved, Replay};
use gt_explore_search::Turn;
use gt_script::RunScript;
use gt_types::Memory;
use std::alloc::{AllocError, Global};

/// A run shortly before a race, the numbers of tasks that the two domains of the race have begun, and its events.
#[derive(Drop)]
pub struct Approach<'s, 'a> {
    pub run: Replay<'s, 'a>,
    pub first_begun: usize,
    pub second_begun: usize,
    pub events: Vec<EventKind>,
}

// Returns the number of tasks that the domain at `place` has begun, after a move of the domain at `mover`. Returns None
// if it is too large.
fn begun_after(begun: usize, place: usize, mover: usize, moved: &Moved) -> Option<usize>
    ensures { (c : RunContents) (hs : List Happening) (r : Replay) → HasBegun c hs place begun →
        (on : ComesOn c hs mover moved.now r) → IfSome result (HasBegun c (hs ++ on.happened ∷ []) place) }
{
    if mover != place {
        return Some(begun);
    }
    match moved {
        Moved::Stepped(..) => Some(begun),
        Moved::Began(_) | Moved::Raised | Moved::Passed => begun.checked_add(1),
    }
}

// Makes one more turn of a script, and counts the tasks that the domains at these two positions begin. Returns false if
// the domain could not take its turn.
fn follow(
    script: &RunScript<'_>,
    near: &mut Approach<'_, '_>,
    turn: Turn,
    first: usize,
    second: usize,
) -> Result<bool, Memory>
    ensures { HasApproached (run_contents script.now) first second near.old →
        IfOk result (λ b. IsTrue b → HasApproached (run_contents script.now) first second near.new) }
{
    let Some(domain) = script.head().domains().get(turn.place) else {
        return Ok(false);
    };
    let Some(moved) = near.run.advance(turn)? else {
        return Ok(false);
    };
    let Some(first_begun) = begun_after(near.first_begun, first, turn.place, &moved) else {
        return Ok(false);
    };
    let Some(second_begun) = begun_after(near.second_begun, second, turn.place, &moved) else {
        return Ok(false);
    };
    near.first_begun = first_begun;
    near.second_begun = second_begun;
    push_event(&mut near.events, domain.id, &moved)?;
    Ok(true)
}

/// Makes these turns of a script, and counts the tasks that the domains at these two positions begin. Returns None if a
/// domain could not take its turn.
pub fn after_turns<'s, 'a>(
    alloc: Global,
    script: &'s RunScript<'a>,
    turns: &[Turn],
    first: usize,
    second: usize,
) -> Result<Option<Approach<'s, 'a>>, Memory>
    requires { CanConfigure (contents_of script.now.head) }
    ensures { IfOk result (λ o. IfSome o (HasApproached (run_contents script.entry.now) first second)) }
{
    let mut near = Approach {
        run: Replay::new(alloc, script)?,
        first_begun: 0,
        second_begun: 0,
        events: Vec::new(alloc),
    };
    'turns: for turn in turns {
        if !follow(script, &mut near, *turn, first, second)? {
            return Ok(None);
        }
    }
    Ok(Some(near))
}

// Makes the next step of the domain at this position. Returns None if its next move is not a step of a call.
fn made_step(run: &mut Replay<'_, '_>, place: usize) -> Result<Option<Step>, Memory>
    ensures { (c : RunContents) (hs : List Happening) → HasWalked c hs run.old →
        IfOk result (λ o. IfSome o (λ y. HasMade c hs place y run.new)) }
{
    match run.advance(Turn { place, choice: 0 })? {
        Some(Moved::Stepped(step, _, _)) => Ok(Some(step)),
        _ => Ok(None),
    }
}

/// Returns the line of the last of this number of tasks of the domain at this position.
pub fn line_of(
    alloc: Global,
    script: &RunScript<'_>,
    place: usize,
    begun: usize,
) -> Result<Option<usize>, AllocError>
    ensures { IfOk result (λ o. IfSome o (λ line. (d : DomainConfig) →
        slice_get (contents_of script.now.head).domains place ≡ Some d →
        last_line (list_of script.now.tasks d.id) begun ≡ Some line)) }
{
    let Some(domain) = script.head().domains().get(place) else {
        return Ok(None);
    };
    let list = script.list_of(alloc, domain.id)?;
    if begun == 0 || begun > list.len() {
        return Ok(None);
    }
    Ok(Some(list[begun - 1].line))
}

/// Makes the next steps of the domains at two positions, one directly after the other, and lets the run go on to its
/// end. Returns whether these steps conflict and the run reached its end.
pub fn races(mut run: Replay<'_, '_>, first: usize, second: usize) -> Result<bool, Memory>
    ensures { (c : RunContents) (hs : List Happening) → HasWalked c hs run.entry →
        IfOk result (λ b. IsTrue b → ConflictNext c hs first second) }
{
    let Some(one) = made_step(&mut run, first)? else {
        return Ok(false);
    };
    let Some(other) = made_step(&mut run, second)? else {
        return Ok(false);
    };
    if !conflict(one, other) {
        return Ok(false);
    }
    ends(run)
}

// Returns the race of the domains at these positions, if their next steps conflict.
fn race_near(
    alloc: Global,
    script: &RunScript<'_>,
    near: Approach<'_, '_>,
    first: usize,
    second: usize,
) -> Result<Option<Race>, TextsFault>
    requires { first ≢ second }
    ensures { HasApproached (run_contents script.now) first second near.entry →
        IfOk result (λ o. IfSome o (Races (run_contents script.now))) }
{
    let Approach {
        run,
        first_begun,
        second_begun,
        events: _events,
    } = near;
    let Some(line) = line_of(alloc, script, first, first_begun)? else {
        return Ok(None);
    };
    let Some(other) = line_of(alloc, script, second, second_begun)? else {
        return Ok(None);
    };
    if !races(run, first, second)? {
        return Ok(None);
    }
    Ok(Some(race_of(line, other)))
}

// Returns the race of the domains at these positions to which these turns lead, if they do.
fn race_after(
    alloc: Global,
    script: &RunScript<'_>,
    turns: &[Turn],
    first: usize,
    second: usize,
) -> Result<Option<Race>, TextsFault>
    requires fits { CanConfigure (contents_of script.now.head) }
    requires apart { first ≢ second }
    ensures { IfOk result (λ o. IfSome o (Races (run_contents script.now))) }
{
    match after_turns(alloc, script, turns, first, second)? {
        None => Ok(None),
        Some(near) => race_near(alloc, script, near, first, second),
    }
}

/// Returns the race to which these turns lead: the last one ends the run there. Returns None if they lead to no race.
///
/// # Errors
/// `Memory` if an allocation fails.
pub fn race_of_turns(
    alloc: Global,
    script: &RunScript<'_>,
    turns: &[Turn],
) -> Result<Option<Race>, TextsFault>
    requires { CanConfigure (contents_of script.now.head) }
    ensures { IfOk result (λ o. IfSome o (Races (run_contents script.now))) }
{
    let Some((last, before)) = turns.split_last() else {
        return Ok(None);
    };
    let first = last.place;
    let second = last.choice.saturating_sub(1);
    if first == second {
        return Ok(None);
    }
    race_after(alloc, script, before, first, second)
}
