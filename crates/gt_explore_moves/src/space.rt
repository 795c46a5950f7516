//! A search context as a transition system.
ghost use Rattle.std.specs.Prelude.{IfOk};
ghost use Rattle.gt_explore_search.specs.Parts.{Pairwise};
ghost use Rattle.gt_explore_search.specs.Ways.{IsShownSo};
ghost use Rattle.gt_explore_moves.specs.Parts.{parts_of, splitting};
ghost use Rattle.gt_explore_moves.specs.Spaces.{scene_ways};
ghost use Rattle.gt_explore_moves.specs.declared.scene.SearchState.{SearchState};

use crate::parts::StatePart;
use crate::same::same_parts;
use crate::scene::{SearchContext, SearchState};
use gt_explore_search::{SearchFault, TransitionSystem, Turn, TurnResult};
use std::alloc::AllocError;

impl<'s> TransitionSystem for SearchContext<'s, 's> {
    type State = SearchState<'s>;

    type Part = StatePart<'s>;

    ghost ways = { scene_ways };

    ghost parts = { λ scene. splitting };

    fn domains(&self) -> usize {
        self.roster.config().domains.len()
    }

    fn start(&self) -> Result<SearchState<'s>, SearchFault> {
        Ok(self.start()?)
    }

    fn turns(&self, state: &SearchState<'s>) -> Result<Vec<Turn>, SearchFault> {
        Ok(self.turns(state)?)
    }

    fn advance(&self, state: &mut SearchState<'s>, turn: Turn) -> Result<TurnResult, SearchFault> {
        self.advance(state, turn)
    }

    fn is_finished(&self, state: &SearchState<'s>) -> bool {
        self.is_finished(state)
    }

    fn alike(&self) {}

    fn is_past(&self, state: &SearchState<'s>, at: usize) -> bool {
        match state.part_at(at) {
            Some(_) => false,
            None => true,
        }
    }

    fn has_part(&self, state: &SearchState<'s>, at: usize, part: &StatePart<'s>) -> bool {
        match state.part_at(at) {
            Some(one) => same_parts(one, part),
            None => false,
        }
    }

    fn copy_part(&self, state: &SearchState<'s>, at: usize) -> Result<StatePart<'s>, SearchFault> {
        match state.part_at(at) {
            Some(part) => Ok(part.copy(self.alloc)?),
            None => Err(SearchFault::States),
        }
    }

    fn digest(&self, state: &SearchState<'s>, at: usize) -> u64 {
        match state.part_at(at) {
            Some(part) => self.digest(part),
            None => 0,
        }
    }

    fn join(&self, made: Vec<StatePart<'s>>) -> Result<SearchState<'s>, AllocError>
        ensures { (w : SearchState) → Pairwise splitting.same (parts_of w) made.entry.items →
            IfOk result (IsShownSo (scene_ways self.now) w) }
    {
        SearchState::join(self.alloc, made)
    }

    fn copy(&self, part: &StatePart<'s>) -> Result<StatePart<'s>, AllocError> {
        part.copy(self.alloc)
    }
}
