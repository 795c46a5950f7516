//! The states of a script, where a run may end at a race.
ghost use Rattle.std.specs.Prelude.{◌≡◌, IfOk};
ghost use Rattle.gt_explore_search.specs.Parts.{Pairwise};
ghost use Rattle.gt_explore_search.specs.Ways.{IsShownSo};
ghost use Rattle.gt_explore_moves.specs.Parts.{parts_of, splitting};
ghost use Rattle.gt_explore_moves.specs.declared.scene.SearchState.{SearchState};
ghost use Rattle.gt_explore_races.specs.Spaces.{race_ways, quieted};

use crate::accesses::conflict;
use crate::racing::{Race, race_of, race_text};
use gt_calls::Step;
use gt_explore_moves::{SearchContext, SearchState, StatePart};
use gt_explore_search::{SearchFault, TransitionSystem, Turn, TurnResult};
use gt_explore_state::SparseState;
use std::alloc::{AllocError, Global};

/// The states of a script, where a run may end at a race, with the race as its text. It ends by a turn of the first of
/// the two domains, whose choice is the position of the other one, counted from 1. So the texts that are found are those
/// of the races, and the empty one.
#[derive(Drop)]
pub struct RaceSpace<'s> {
    pub scene: SearchContext<'s, 's>,
}

// The next step of an open call, and the line of the call.
#[derive(Clone, Copy)]
struct NextStep {
    line: usize,
    step: Step,
}

// Returns the result of a turn without what it printed.
fn quieted(led: TurnResult) -> TurnResult
    ensures { result ≡ quieted led }
{
    match led {
        TurnResult::Nowhere => TurnResult::Nowhere,
        TurnResult::On | TurnResult::Answered(_) => TurnResult::On,
    }
}

// Returns the state of a run that ended at a race. It has no moves.
fn over<'s>(alloc: Global) -> SearchState<'s> {
    SearchState {
        actors: Vec::new(alloc),
        ground: SparseState {
            tables: Vec::new(alloc),
            pages: Vec::new(alloc),
        },
        told: Vec::new(alloc),
    }
}

impl<'s> RaceSpace<'s> {
    ghost use Rattle.std.specs.Prelude.{◌≡◌, ◌<◌, ◌+◌, ◌^◌, ℕ, suc, Some, IsSome, OnOk, length};
    ghost use Rattle.gt_explore_moves.specs.Spaces.{Point, RunComesTo, scene_ways};
    ghost use Rattle.gt_explore_search.specs.Parts.{Extends};
    ghost use Rattle.gt_model.specs.declared.action.Step.{Step};
    ghost use Rattle.gt_explore_races.specs.Spaces.{AreToRace, HasRaceAt, HasRacesBelow, HasRacesOf, IsToAccess};
    ghost use Rattle.gt_explore_races.specs.Texts.{race_of};

    // Returns the next step of the call that the domain at this position has open, and the call's line.
    fn next_step(&self, state: &SearchState<'s>, place: usize) -> Option<NextStep>
        ensures next { (p : Point) (line : ℕ) (y : Step) → (scene_ways self.now.scene).shows state.now p →
            IsToAccess p place line y → result ≡ Some (record { line = line; step = y }) }
        ensures one { IsSome result → (p q : Point) (choice : ℕ) → (scene_ways self.now.scene).shows state.now p →
            RunComesTo p (record { place = place; choice = choice }) q → choice ≡ 0 }
    {
        let Some(actor) = state.actors.get(place) else {
            return None;
        };
        let Some(open) = actor.open else {
            return None;
        };
        let Some(index) = open.task else {
            return None;
        };
        let Some(task) = self.scene.task(place, index) else {
            return None;
        };
        Some(NextStep {
            line: task.line,
            step: open.step,
        })
    }

    // Returns the race of the domains at these positions, if their next steps conflict.
    fn race_between(&self, state: &SearchState<'s>, first: usize, second: usize) -> Option<Race>
        ensures race { (p : Point) (k l : ℕ) → (scene_ways self.now.scene).shows state.now p →
            AreToRace p first second k l → result ≡ Some (race_of k l) }
        ensures one { IsSome result → (p q : Point) (choice : ℕ) → (scene_ways self.now.scene).shows state.now p →
            RunComesTo p (record { place = first; choice = choice }) q → choice ≡ 0 }
    {
        let Some(one) = self.next_step(state, first) else {
            return None;
        };
        let Some(other) = self.next_step(state, second) else {
            return None;
        };
        if conflict(one.step, other.step) {
            Some(race_of(one.line, other.line))
        } else {
            None
        }
    }

    // Returns the race at which a turn ends a run.
    fn race_by(&self, state: &SearchState<'s>, turn: Turn) -> Option<Race>
        ensures race { (p : Point) (other k l : ℕ) → (scene_ways self.now.scene).shows state.now p →
            turn.choice ≡ suc other → AreToRace p turn.place other k l → result ≡ Some (race_of k l) }
        ensures none { IsSome result → (p q : Point) → (scene_ways self.now.scene).shows state.now p →
            RunComesTo p turn q → ⊥ }
    {
        if turn.choice == 0 {
            return None;
        }
        self.race_between(state, turn.place, turn.choice - 1)
    }

    // Appends the turn that ends a run at the race of the domains at these positions, if their next steps conflict.
    fn push_race(
        &self,
        state: &SearchState<'s>,
        first: usize,
        second: usize,
        turns: &mut Vec<Turn>,
    ) -> Result<(), AllocError>
        requires { second + 1 < 2 ^ 64 }
        ensures kept { OnOk result (Extends turns.old.items turns.new.items) }
        ensures listed { OnOk result (HasRaceAt self.now.scene state.now first second turns.new.items) }
    {
        match self.race_between(state, first, second) {
            None => Ok(()),
            Some(_) => {
                let place = first;
                let choice = second + 1;
                turns.push(Turn { place, choice })?;
                Ok(())
            }
        }
    }

    // Appends the turns that end a run at a race of the domain at this position and a later one.
    fn push_races_of(
        &self,
        state: &SearchState<'s>,
        first: usize,
        turns: &mut Vec<Turn>,
    ) -> Result<(), AllocError>
        requires { first < length state.now.actors.items }
        ensures kept { OnOk result (Extends turns.old.items turns.new.items) }
        ensures listed { OnOk result
            (HasRacesOf self.now.scene state.now first (length state.now.actors.items) turns.new.items) }
    {
        'others: for second in first + 1..state.actors.len() {
            self.push_race(state, first, second, turns)?;
        }
        Ok(())
    }

    // Appends the turns that end a run at a race.
    fn push_races(&self, state: &SearchState<'s>, turns: &mut Vec<Turn>) -> Result<(), AllocError>
        ensures kept { OnOk result (Extends turns.old.items turns.new.items) }
        ensures listed { OnOk result
            (HasRacesBelow self.now.scene state.now (length state.now.actors.items) turns.new.items) }
    {
        'domains: for first in 0..state.actors.len() {
            self.push_races_of(state, first, turns)?;
        }
        Ok(())
    }
}

impl<'s> TransitionSystem for RaceSpace<'s> {
    type State = SearchState<'s>;

    type Part = StatePart<'s>;

    ghost ways = { λ space. race_ways space.scene };

    ghost parts = { λ space. splitting };

    fn domains(&self) -> usize {
        TransitionSystem::domains(&self.scene)
    }

    fn start(&self) -> Result<SearchState<'s>, SearchFault> {
        TransitionSystem::start(&self.scene)
    }

    fn turns(&self, state: &SearchState<'s>) -> Result<Vec<Turn>, SearchFault> {
        let mut turns = self.scene.every_turn(state)?;
        self.push_races(state, &mut turns)?;
        Ok(turns)
    }

    fn advance(&self, state: &mut SearchState<'s>, turn: Turn) -> Result<TurnResult, SearchFault> {
        match self.race_by(state, turn) {
            Some(race) => {
                let text = race_text(self.scene.alloc, race)?;
                *state = over(self.scene.alloc);
                Ok(TurnResult::Answered(text))
            }
            None => {
                let led = TransitionSystem::advance(&self.scene, state, turn)?;
                Ok(quieted(led))
            }
        }
    }

    fn is_finished(&self, _state: &SearchState<'s>) -> bool {
        true
    }

    fn alike(&self) {
        self.scene.alike()
    }

    fn is_past(&self, state: &SearchState<'s>, at: usize) -> bool {
        self.scene.is_past(state, at)
    }

    fn has_part(&self, state: &SearchState<'s>, at: usize, part: &StatePart<'s>) -> bool {
        self.scene.has_part(state, at, part)
    }

    fn copy_part(&self, state: &SearchState<'s>, at: usize) -> Result<StatePart<'s>, SearchFault> {
        self.scene.copy_part(state, at)
    }

    fn digest(&self, state: &SearchState<'s>, at: usize) -> u64 {
        TransitionSystem::digest(&self.scene, state, at)
    }

    fn join(&self, made: Vec<StatePart<'s>>) -> Result<SearchState<'s>, AllocError>
        ensures { (w : SearchState) → Pairwise splitting.same (parts_of w) made.entry.items →
            IfOk result (IsShownSo (race_ways self.now.scene) w) }
    {
        self.scene.join(made)
    }

    fn copy(&self, part: &StatePart<'s>) -> Result<StatePart<'s>, AllocError> {
        self.scene.copy(part)
    }
}
