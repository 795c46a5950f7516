//! The states of a script, with marks in place of the answers.
ghost use Rattle.std.specs.Prelude.{IfOk};
ghost use Rattle.gt_explore_search.specs.Parts.{Pairwise};
ghost use Rattle.gt_explore_search.specs.Ways.{IsShownSo};
ghost use Rattle.gt_explore_moves.specs.Parts.{parts_of, splitting};
ghost use Rattle.gt_explore_moves.specs.declared.scene.SearchState.{SearchState};
ghost use Rattle.gt_explore_kinds.specs.Marks.{all_operations};
ghost use Rattle.gt_explore_kinds.specs.Spaces.{MovePrints, kind_ways};

use crate::marks::text_marks;
use gt_explore_moves::{SearchContext, SearchState, StatePart};
use gt_explore_search::{SearchFault, TransitionSystem, Turn, TurnResult};
use gt_explore_verdict::Operation;
use std::alloc::AllocError;

/// The states of a script, and expressions. A move that answers a call prints the marks of its answer.
#[derive(Drop)]
pub struct KindSpace<'s, 'e, 'c> {
    pub scene: SearchContext<'s, 's>,
    pub expressions: &'e [Vec<Operation<'c>>],
}

// Returns the result of a move that prints these marks.
fn printed(marks: Vec<u8>) -> TurnResult
    ensures { MovePrints result marks.items }
{
    if marks.is_empty() {
        return TurnResult::On;
    }
    TurnResult::Answered(marks)
}

impl KindSpace<'_, '_, '_> {
    ghost use Rattle.std.specs.Prelude.{IfOk};
    ghost use Rattle.gt_explore_kinds.specs.Marks.{all_operations};
    ghost use Rattle.gt_explore_kinds.specs.Spaces.{IsMarked};

    // Returns the result of a move with marks in place of the answer.
    fn marked(&self, led: TurnResult) -> Result<TurnResult, SearchFault>
        ensures { IfOk result (IsMarked (all_operations self.now.expressions.now) led) }
    {
        match led {
            TurnResult::Nowhere => Ok(TurnResult::Nowhere),
            TurnResult::On => Ok(TurnResult::On),
            TurnResult::Answered(line) => {
                let marks = text_marks(self.scene.alloc, self.expressions, line.as_slice())?;
                Ok(printed(marks))
            }
        }
    }
}

impl<'s> TransitionSystem for KindSpace<'s, '_, '_> {
    type State = SearchState<'s>;

    type Part = StatePart<'s>;

    ghost ways = { λ space. kind_ways space.scene (all_operations space.expressions.now) };

    ghost parts = { λ space. splitting };

    fn domains(&self) -> usize {
        TransitionSystem::domains(&self.scene)
    }

    fn start(&self) -> Result<SearchState<'s>, SearchFault> {
        TransitionSystem::start(&self.scene)
    }

    fn turns(&self, state: &SearchState<'s>) -> Result<Vec<Turn>, SearchFault> {
        TransitionSystem::turns(&self.scene, state)
    }

    fn advance(&self, state: &mut SearchState<'s>, turn: Turn) -> Result<TurnResult, SearchFault> {
        let led = TransitionSystem::advance(&self.scene, state, turn)?;
        self.marked(led)
    }

    fn is_finished(&self, state: &SearchState<'s>) -> bool {
        TransitionSystem::is_finished(&self.scene, state)
    }

    fn alike(&self) {
        self.scene.alike()
    }

    fn is_past(&self, state: &SearchState<'s>, at: usize) -> bool {
        self.scene.is_past(state, at)
    }

    fn has_part(&self, state: &SearchState<'s>, at: usize, part: &StatePart<'s>) -> bool {
        self.scene.has_part(state, at, part)
    }

    fn copy_part(&self, state: &SearchState<'s>, at: usize) -> Result<StatePart<'s>, SearchFault> {
        self.scene.copy_part(state, at)
    }

    fn digest(&self, state: &SearchState<'s>, at: usize) -> u64 {
        TransitionSystem::digest(&self.scene, state, at)
    }

    fn join(&self, made: Vec<StatePart<'s>>) -> Result<SearchState<'s>, AllocError>
        ensures { (w : SearchState) → Pairwise splitting.same (parts_of w) made.entry.items →
            IfOk result (IsShownSo (kind_ways self.now.scene (all_operations self.now.expressions.now)) w) }
    {
        self.scene.join(made)
    }

    fn copy(&self, part: &StatePart<'s>) -> Result<StatePart<'s>, AllocError> {
        self.scene.copy(part)
    }
}
