//! The states that a search has met.
ghost use Rattle.std.specs.Prelude.{◌≡◌, [], ℕ, List, None, OnOk, length, IfOk};
ghost use Rattle.std.specs.Global.{Vec};
ghost use Rattle.gt_explore_search.specs.Exploring.{IsNumbered};
ghost use Rattle.gt_explore_search.specs.Parts.{Extends, HandHolds, HasNumbers, IsStateAt, by_numbers};

use crate::fault::SearchFault;
use crate::packed::PackedLists;
use crate::parts::PartIndex;
use crate::spaces::TransitionSystem;
use std::alloc::Global;

/// A state that was met, as a whole, and its number.
#[derive(Drop)]
pub struct WholeState<W> {
    pub number: usize,
    pub state: W,
}

/// The states that were met, each with a number. A state is kept as the numbers of its parts.
#[derive(Drop)]
pub struct StateIndex<P> {
    alloc: Global,
    parts: PartIndex<P>,
    met: PackedLists,
    // The numbers of a state from which a turn led to another.
    near: Vec<u32>,
}

impl<P: Drop> StateIndex<P> {
    /// Makes an empty index.
    pub fn new(alloc: Global) -> StateIndex<P>
        ensures { result.met ≡ [] }
    {
        StateIndex {
            alloc,
            parts: PartIndex::new(alloc),
            met: PackedLists::new(alloc),
            near: Vec::new(alloc),
        }
    }

    /// Returns the number of states.
    pub fn len(&self) -> usize
        ensures { result ≡ length self.now.met }
    {
        self.met.len()
    }

    /// Returns the state with this number.
    ///
    /// # Errors
    /// `Memory`, or `States` if the number has no state.
    pub fn state<S: TransitionSystem<Part = P>>(
        &self,
        space: &S,
        number: usize,
    ) -> Result<S::State, SearchFault>
        ensures { (all : List P) → Extends self.now.parts.kept.items all →
            IfOk result (IsStateAt (S.ways space.now) (S.parts space.now) all self.now.met number) }
    {
        let mut numbers = Vec::new(self.alloc);
        let is_met = self.met.read(number, &mut numbers)?;
        if is_met {
            let parts = self.parts.copies(space, numbers.as_slice())?;
            return Ok(space.join(parts)?);
        }
        Err(SearchFault::States)
    }

    /// Takes the cached state if it has this number, and otherwise rebuilds it from its parts. Empties the cache.
    ///
    /// # Errors
    /// `Memory`, or `States` if the number has no state.
    pub fn take<S: TransitionSystem<Part = P>>(
        &self,
        space: &S,
        hand: &mut Option<WholeState<S::State>>,
        number: usize,
    ) -> Result<S::State, SearchFault>
        ensures hand { OnOk result (hand.new ≡ None) }
        ensures state { (all : List P) → Extends self.now.parts.kept.items all →
            HandHolds (S.ways space.now) (S.parts space.now) all self.now.met hand.old →
            IfOk result (IsStateAt (S.ways space.now) (S.parts space.now) all self.now.met number) }
    {
        if let Some(whole) = hand.take() {
            if whole.number == number {
                return Ok(whole.state);
            }
        }
        self.state(space, number)
    }

    /// Returns the number of a state, which is the next one if the state is new. Its parts are first compared with
    /// those of the state with the number `last`, from which a turn may have led to it.
    ///
    /// # Errors
    /// `Memory`, `States` if there are too many parts or states for numbers of 32 bits, or a fault of the space.
    pub fn number<S: TransitionSystem<Part = P>>(
        &mut self,
        space: &S,
        state: &S::State,
        last: usize,
    ) -> Result<usize, SearchFault>
        ensures grows { OnOk result (Extends self.old.parts.kept.items self.new.parts.kept.items) }
        ensures number { (all : List P) → Extends self.new.parts.kept.items all → IfOk result (λ n. (k : List ℕ)
            × HasNumbers (S.parts space.now) all state.now k
            × IsNumbered (by_numbers (S.ways space.now) (S.parts space.now) all) self.old.met k n self.new.met) }
    {
        self.met.read(last, &mut self.near)?;
        let numbers = self.parts.numbers(space, state, self.near.as_slice())?;
        let number = self.met.number_of(numbers.as_slice(), last)?;
        Ok(number as usize)
    }
}
