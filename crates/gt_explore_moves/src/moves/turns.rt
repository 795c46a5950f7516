//! The turns of a state, and which of them are tried.
ghost use Rattle.std.specs.Prelude.{◌≡◌, ◌++◌, OnOk, false, IfOk};
ghost use Rattle.gt_explore_moves.specs.Ends.{choices};

use super::flags::is_set;
use crate::actor::Actor;
use crate::scene::{SearchContext, SearchState};
use gt_explore_search::Turn;
use std::alloc::AllocError;

// Appends this number of moves of a domain, each with its own choice.
fn push_choices(turns: &mut Vec<Turn>, place: usize, count: usize) -> Result<(), AllocError>
    ensures { OnOk result (turns.new.items ≡ turns.old.items ++ choices place count) }
{
    for choice in 0..count {
        turns.push(Turn { place, choice })?;
    }
    Ok(())
}

impl<'s, 'a> SearchContext<'s, 'a> {
    ghost use Rattle.std.specs.Prelude.{◌≡◌, ◌<◌, Option, Some, None, true, slice_get};
    ghost use Rattle.std.specs.Prelude.{IfOk, IsTrue};
    ghost use Rattle.gt_explore_moves.specs.declared.actor.Actor.{Actor};
    ghost use Rattle.std.specs.Prelude.{IfSome};
    ghost use Rattle.gt_explore_moves.specs.Ends.{AreDone, choices_at, choices_in, is_done, is_ended, turns_by};
    ghost use Rattle.gt_explore_moves.specs.Ends.{turns_from};
    ghost use Rattle.gt_explore_moves.specs.Spaces.{scene_ways};
    ghost use Rattle.gt_explore_search.specs.Ways.{HasEachTurn};
    ghost use Rattle.gt_explore_moves.specs.Touches.{AreToBeTried};
    ghost use Rattle.gt_explore_moves.specs.declared.scene.SearchState.{SearchState};

    // Returns whether the domain at this position has no call open, and has begun all tasks of its list.
    fn is_ended(&self, place: usize, actor: &Actor<'a>) -> bool
        ensures { result ≡ is_ended self.now place actor.now }
    {
        actor.open.is_none() && self.task(place, actor.next).is_none()
    }

    // Returns whether it also has no mapping.
    pub(super) fn is_done(&self, place: usize, actor: &Actor<'a>) -> bool
        ensures { result ≡ is_done self.now place actor.now }
    {
        self.is_ended(place, actor) && actor.mappings.is_empty()
    }

    // Counts its moves: at the end of its list it can release each of its mappings.
    fn choices(&self, place: usize, actor: &Actor<'a>) -> usize
        ensures { result ≡ choices_at self.now place actor.now }
    {
        if self.is_ended(place, actor) {
            actor.mappings.len()
        } else {
            1
        }
    }

    // Returns the moves of all domains.
    fn all_turns(&self, world: &SearchState<'a>) -> Result<Vec<Turn>, AllocError>
        ensures { IfOk result (λ turns. turns.items ≡ turns_from self.now 0 world.now.actors.items) }
    {
        let mut turns = Vec::new(self.alloc);
        for (place, actor) in world.actors.as_slice().iter().enumerate() {
            push_choices(&mut turns, place, self.choices(place, actor))?;
        }
        Ok(turns)
    }

    // Counts the moves of a domain that is in a set.
    fn choices_in(&self, inside: &[bool], place: usize, actor: &Actor<'a>) -> usize
        ensures { result ≡ choices_in self.now inside.now place actor.now }
    {
        if is_set(inside, place) {
            self.choices(place, actor)
        } else {
            0
        }
    }

    // Returns the moves of a set of domains.
    fn turns_of(&self, world: &SearchState<'a>, inside: &[bool]) -> Result<Vec<Turn>, AllocError>
        ensures { IfOk result (λ turns. turns.items
            ≡ turns_by (choices_in self.now inside.now) 0 world.now.actors.items) }
    {
        let mut turns = Vec::new(self.alloc);
        for (place, actor) in world.actors.as_slice().iter().enumerate() {
            push_choices(&mut turns, place, self.choices_in(inside, place, actor))?;
        }
        Ok(turns)
    }

    /// Returns the moves of all domains: each turn by which a run that the state shows can continue is among them.
    ///
    /// # Errors
    /// An allocation failed.
    pub fn every_turn(&self, world: &SearchState<'a>) -> Result<Vec<Turn>, AllocError>
        ensures { IfOk result (λ turns. HasEachTurn (scene_ways self.now) world.now turns.items) }
    {
        self.all_turns(world)
    }

    /// Returns the moves to try: those of a set of domains that no domain outside can disturb, if one was found, and
    /// otherwise all.
    pub fn turns(&self, world: &SearchState<'a>) -> Result<Vec<Turn>, AllocError>
        ensures { IfOk result (λ turns. AreToBeTried self.now world.now turns.items) }
    {
        let set = self.smallest_set(world)?;
        if self.goes_alone(world, set.inside.as_slice(), set.shut.as_slice()) {
            self.turns_of(world, set.inside.as_slice())
        } else {
            self.all_turns(world)
        }
    }

    /// Returns whether all domains are at the ends of their lists, with no call open and no mapping.
    pub fn is_finished(&self, world: &SearchState<'a>) -> bool
        ensures finished { IsTrue result → AreDone self.now world.now.actors.items }
        ensures end { AreDone self.now world.now.actors.items → IsTrue result }
    {
        for (place, actor) in world.actors.as_slice().iter().enumerate() {
            if !self.is_done(place, actor) {
                return false;
            }
        }
        true
    }
}
