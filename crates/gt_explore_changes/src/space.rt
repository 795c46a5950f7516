//! The states of a script with their blocks, as a transition system.
ghost use Rattle.std.specs.Prelude.{IfOk};
ghost use Rattle.gt_explore_search.specs.Parts.{Pairwise};
ghost use Rattle.gt_explore_search.specs.Ways.{IsShownSo};
ghost use Rattle.gt_explore_changes.specs.Parts.{block_parts_of, block_splitting};
ghost use Rattle.gt_explore_changes.specs.Ways.{block_ways};
ghost use Rattle.gt_explore_changes.specs.declared.parts.BlockState.{BlockState};

use crate::blocks::{blocks_within, is_last};
use crate::parts::{BlockPart, BlockState, JoinedParts, is_same_last};
use gt_explore_moves::SearchContext;
use gt_explore_search::{SearchFault, TransitionSystem, Turn, TurnResult};
use std::alloc::AllocError;

/// The states of a script that runs reach in at most `most` blocks.
#[derive(Drop)]
pub struct BlockSpace<'s> {
    pub scene: SearchContext<'s, 's>,
    pub most: usize,
}

impl<'s> BlockSpace<'s> {
    ghost use Rattle.std.specs.Prelude.{◌≡◌, ◌+◌, ◌≤◌, filter, nat_le, Some, IfOk};
    ghost use Rattle.gt_explore_changes.specs.Blocks.{blocks_with};
    ghost use Rattle.gt_explore_changes.specs.Waiting.{actor_waits, may_end_within, waiting_by};
    ghost use Rattle.gt_explore_search.specs.Ways.{HasEnoughTurns};

    // Counts the domains with tasks left to begin, without the one at this position.
    fn waiting(&self, state: &BlockState<'s>, place: usize) -> usize
        ensures { result ≡ waiting_by (actor_waits self.now.scene) (Some place) 0
            state.now.scene_state.actors.items }
    {
        let mut waiting = 0;
        for (at, actor) in state.scene_state.actors.as_slice().iter().enumerate() {
            if !is_last(Some(place), at) && self.scene.task(at, actor.next).is_some() {
                waiting += 1;
            }
        }
        waiting
    }

    // Returns whether a run that continues with this turn may end in at most `most` blocks: each other domain with
    // tasks left needs a block.
    fn may_end(&self, state: &BlockState<'s>, turn: Turn) -> bool
        ensures { result ≡ may_end_within self.now.most self.now.scene state.now turn }
    {
        match blocks_within(self.most, state.last, state.blocks, turn.place) {
            Some(blocks) => self.waiting(state, turn.place) <= self.most - blocks,
            None => false,
        }
    }

    // Returns those of these turns by which a run may end in at most `most` blocks.
    fn turns_left(&self, state: &BlockState<'s>, all: &[Turn]) -> Result<Vec<Turn>, AllocError>
        ensures { IfOk result (λ turns. turns.items
            ≡ filter (may_end_within self.now.most self.now.scene state.now) all.now) }
    {
        let mut turns = Vec::new(self.scene.alloc);
        'turns: for turn in all {
            if self.may_end(state, *turn) {
                turns.push(*turn)?;
            }
        }
        Ok(turns)
    }
}

impl<'s> TransitionSystem for BlockSpace<'s> {
    type State = BlockState<'s>;

    type Part = BlockPart<'s>;

    ghost ways = { λ space. block_ways space.scene space.most };

    ghost parts = { λ space. block_splitting };

    fn domains(&self) -> usize {
        TransitionSystem::domains(&self.scene)
    }

    fn start(&self) -> Result<BlockState<'s>, SearchFault> {
        let scene_state = TransitionSystem::start(&self.scene)?;
        Ok(BlockState {
            scene_state,
            last: None,
            blocks: 0,
        })
    }

    fn turns(&self, state: &BlockState<'s>) -> Result<Vec<Turn>, SearchFault> {
        let all = self.scene.every_turn(&state.scene_state)?;
        Ok(self.turns_left(state, all.as_slice())?)
    }

    fn advance(&self, state: &mut BlockState<'s>, turn: Turn) -> Result<TurnResult, SearchFault> {
        let Some(blocks) = blocks_within(self.most, state.last, state.blocks, turn.place) else {
            return Ok(TurnResult::Nowhere);
        };
        state.last = Some(turn.place);
        state.blocks = blocks;
        TransitionSystem::advance(&self.scene, &mut state.scene_state, turn)
    }

    fn is_finished(&self, state: &BlockState<'s>) -> bool {
        TransitionSystem::is_finished(&self.scene, &state.scene_state)
    }

    fn alike(&self) {
        self.scene.alike()
    }

    fn is_past(&self, state: &BlockState<'s>, at: usize) -> bool {
        match at.checked_sub(1) {
            Some(at) => self.scene.is_past(&state.scene_state, at),
            None => false,
        }
    }

    fn has_part(&self, state: &BlockState<'s>, at: usize, part: &BlockPart<'s>) -> bool {
        match (at.checked_sub(1), part) {
            (Some(at), BlockPart::Scene(part)) => self.scene.has_part(&state.scene_state, at, part),
            (None, BlockPart::Blocks { last, blocks }) => {
                is_same_last(state.last, *last) && state.blocks == *blocks
            }
            _ => false,
        }
    }

    fn copy_part(&self, state: &BlockState<'s>, at: usize) -> Result<BlockPart<'s>, SearchFault> {
        match at.checked_sub(1) {
            Some(at) => {
                let part = self.scene.copy_part(&state.scene_state, at)?;
                Ok(BlockPart::Scene(part))
            }
            None => Ok(BlockPart::Blocks {
                last: state.last,
                blocks: state.blocks,
            }),
        }
    }

    fn digest(&self, state: &BlockState<'s>, at: usize) -> u64 {
        match at.checked_sub(1) {
            Some(at) => TransitionSystem::digest(&self.scene, &state.scene_state, at),
            None => (state.last.unwrap_or(0) as u64).wrapping_add(
                (state.blocks as u64).wrapping_mul(65_537),
            ),
        }
    }

    fn join(&self, made: Vec<BlockPart<'s>>) -> Result<BlockState<'s>, AllocError>
        ensures { (w : BlockState) → Pairwise block_splitting.same (block_parts_of w) made.entry.items →
            IfOk result (IsShownSo (block_ways self.now.scene self.now.most) w) }
    {
        let joined = JoinedParts::of(self.scene.alloc, made)?;
        let scene_state = self.scene.join(joined.parts)?;
        Ok(BlockState {
            scene_state,
            last: joined.last,
            blocks: joined.blocks,
        })
    }

    fn copy(&self, part: &BlockPart<'s>) -> Result<BlockPart<'s>, AllocError> {
        match part {
            BlockPart::Blocks { last, blocks } => Ok(BlockPart::Blocks {
                last: *last,
                blocks: *blocks,
            }),
            BlockPart::Scene(part) => Ok(BlockPart::Scene(self.scene.copy(part)?)),
        }
    }
}
