//! The states of a script, searched for one of which a claim holds.
ghost use Rattle.std.specs.Prelude.{◌≡◌, IfOk};
ghost use Rattle.gt_explore_search.specs.Parts.{Pairwise};
ghost use Rattle.gt_explore_search.specs.Ways.{IsShownSo};
ghost use Rattle.gt_explore_moves.specs.Parts.{parts_of, splitting};
ghost use Rattle.gt_explore_moves.specs.declared.scene.SearchState.{SearchState};
ghost use Rattle.gt_state_claims.specs.Claims.{claim_asked};
ghost use Rattle.gt_explore_states.specs.Spaces.{moment_ways, unprinted};

use crate::entries::TableEntries;
use gt_explore_moves::{SearchContext, SearchState, StatePart};
use gt_explore_search::{SearchFault, TransitionSystem, Turn, TurnResult};
use gt_state_claims::StateClaim;
use std::alloc::AllocError;
use std::cell::Cell;

/// The states of a script. A run ends at the first moment at which the claim holds, and prints nothing. So a text is
/// found exactly if there is such a moment.
#[derive(Drop)]
pub struct MomentSpace<'s, 'c> {
    pub scene: SearchContext<'s, 's>,
    pub claim: &'c StateClaim,
    /// Whether the search has met a state of which the claim holds.
    pub met: &'c Cell<bool>,
}

// Returns the result of a turn without what it printed.
fn unprinted(led: TurnResult) -> TurnResult
    ensures { result ≡ unprinted led }
{
    match led {
        TurnResult::Nowhere => TurnResult::Nowhere,
        TurnResult::On | TurnResult::Answered(_) => TurnResult::On,
    }
}

impl<'s> MomentSpace<'s, '_> {
    ghost use Rattle.std.specs.Prelude.{◌≡◌};
    ghost use Rattle.gt_explore_moves.specs.Spaces.{Point, scene_ways};
    ghost use Rattle.gt_explore_states.specs.Moments.{holds_after};

    /// Returns whether the claim holds of a state.
    pub fn is_moment(&self, state: &SearchState<'s>) -> bool
        ensures { (p : Point) → (scene_ways self.now.scene).shows state.now p →
            result ≡ holds_after p.script (claim_asked self.now.claim.now) p.happened }
    {
        let entries = TableEntries {
            roster: &self.scene.roster,
            tables: state.ground.tables.as_slice(),
        };
        self.claim.holds(&entries)
    }
}

impl<'s> TransitionSystem for MomentSpace<'s, '_> {
    type State = SearchState<'s>;

    type Part = StatePart<'s>;

    ghost ways = { λ space. moment_ways space.scene (claim_asked space.claim.now) };

    ghost parts = { λ space. splitting };

    fn domains(&self) -> usize {
        TransitionSystem::domains(&self.scene)
    }

    fn start(&self) -> Result<SearchState<'s>, SearchFault> {
        TransitionSystem::start(&self.scene)
    }

    fn turns(&self, state: &SearchState<'s>) -> Result<Vec<Turn>, SearchFault> {
        if self.is_moment(state) {
            return Ok(Vec::new(self.scene.alloc));
        }
        Ok(self.scene.every_turn(state)?)
    }

    fn advance(&self, state: &mut SearchState<'s>, turn: Turn) -> Result<TurnResult, SearchFault> {
        let led = TransitionSystem::advance(&self.scene, state, turn)?;
        Ok(unprinted(led))
    }

    fn is_finished(&self, state: &SearchState<'s>) -> bool {
        let holds = self.is_moment(state);
        if holds {
            self.met.set(true);
        }
        holds
    }

    fn alike(&self) {
        self.scene.alike()
    }

    fn is_past(&self, state: &SearchState<'s>, at: usize) -> bool {
        self.scene.is_past(state, at)
    }

    fn has_part(&self, state: &SearchState<'s>, at: usize, part: &StatePart<'s>) -> bool {
        self.scene.has_part(state, at, part)
    }

    fn copy_part(&self, state: &SearchState<'s>, at: usize) -> Result<StatePart<'s>, SearchFault> {
        self.scene.copy_part(state, at)
    }

    fn digest(&self, state: &SearchState<'s>, at: usize) -> u64 {
        TransitionSystem::digest(&self.scene, state, at)
    }

    fn join(&self, made: Vec<StatePart<'s>>) -> Result<SearchState<'s>, AllocError>
        ensures { (w : SearchState) → Pairwise splitting.same (parts_of w) made.entry.items →
            IfOk result (IsShownSo (moment_ways self.now.scene (claim_asked self.now.claim.now)) w) }
    {
        self.scene.join(made)
    }

    fn copy(&self, part: &StatePart<'s>) -> Result<StatePart<'s>, AllocError> {
        self.scene.copy(part)
    }
}
