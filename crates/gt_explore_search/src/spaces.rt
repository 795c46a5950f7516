//! Transition systems.
ghost use Rattle.std.specs.Prelude.{◌≡◌, ◌≤◌, IfOk, IsTrue, length};
ghost use Rattle.gt_explore_search.specs.Parts.{HasPart, Pairwise, Splitting};
ghost use Rattle.gt_explore_search.specs.Ways.{Ways, HasEnoughTurns, IsShownSo, MayEnd, MovesTo, ShowsFirst};

use crate::fault::SearchFault;
use std::alloc::AllocError;

/// A turn: the next move of the domain at this position among the domains. If it has several moves, `choice` is the
/// index of this one. At the end of its list a script's domain releases the mapping at that index.
#[derive(Clone, Copy)]
pub struct Turn {
    pub place: usize,
    pub choice: usize,
}

/// The result of a turn.
#[derive(Drop)]
pub enum TurnResult {
    /// The domain has no such move.
    Nowhere,
    /// It has moved, and prints nothing.
    On,
    /// Its move answers a call, and prints this line.
    Answered(Vec<u8>),
}

/// The states that runs can reach, and the turns that lead from one to another. A state must show all that a run that
/// has reached it can still do. It may show many runs. A state is split into parts. The search keeps each part once,
/// and a state as a list of the numbers of its parts.
pub trait TransitionSystem {
    type State: Drop;

    type Part: Drop;

    // The runs that the states show.
    ghost ways: { Self → Ways Self.State };

    // The parts that the states have.
    ghost parts: { Self → Splitting Self.State Self.Part };

    /// Returns the number of domains.
    fn domains(&self) -> usize
        ensures { result ≡ (ways self.now).domains };

    /// Returns the state in which runs begin.
    fn start(&self) -> Result<Self::State, SearchFault>
        ensures { IfOk result (ShowsFirst (ways self.now)) };

    /// Returns the turns to try. They must be enough to find each text.
    fn turns(&self, state: &Self::State) -> Result<Vec<Turn>, SearchFault>
        ensures { IfOk result (λ turns. HasEnoughTurns (ways self.now) state.now turns.items) };

    /// Makes a move. After one that leads nowhere the state is not used again.
    fn advance(&self, state: &mut Self::State, turn: Turn) -> Result<TurnResult, SearchFault>
        ensures { IfOk result (λ led. MovesTo (ways self.now) state.old turn led state.new) };

    /// Returns whether a run may end here. It may return true in other states too.
    fn is_finished(&self, state: &Self::State) -> bool
        ensures { MayEnd (ways self.now) state.now → IsTrue result };

    /// A law: states with the same parts show the same runs.
    fn alike(&self)
        ensures { (w v : Self.State) →
            Pairwise (parts self.now).same ((parts self.now).of w) ((parts self.now).of v) →
            IsShownSo (ways self.now) w v };

    /// Returns whether the parts of a state end before this index.
    fn is_past(&self, state: &Self::State, at: usize) -> bool
        ensures { IsTrue result → length ((parts self.now).of state.now) ≤ at };

    /// Returns whether the part of a state at this index is the same as this one.
    fn has_part(&self, state: &Self::State, at: usize, part: &Self::Part) -> bool
        ensures { IsTrue result → HasPart (parts self.now) state.now at part.now };

    /// Copies the part of a state at this index. Fails with `States` if the state has no part there.
    fn copy_part(&self, state: &Self::State, at: usize) -> Result<Self::Part, SearchFault>
        ensures { IfOk result (HasPart (parts self.now) state.now at) };

    /// Returns a number for the part of a state at this index. It is equal for parts that are the same, and rarely for
    /// others.
    fn digest(&self, state: &Self::State, at: usize) -> u64;

    /// Returns a state that shows each run that a state with the same parts shows.
    fn join(&self, made: Vec<Self::Part>) -> Result<Self::State, AllocError>
        ensures { (w : Self.State) → Pairwise (parts self.now).same ((parts self.now).of w) made.items →
            IfOk result (IsShownSo (ways self.now) w) };

    /// Copies a part.
    fn copy(&self, part: &Self::Part) -> Result<Self::Part, AllocError>
        ensures { IfOk result ((parts self.now).same part.now) };
}
