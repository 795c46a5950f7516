//! A search that returns what it found until it met too many states, or until its watch ended it.
ghost use Rattle.std.specs.Prelude.{IfOk, IsTrue};
ghost use Rattle.gt_explore_search.specs.Exploring.{AllTextsFound, SearchStarts};

use crate::exploring::{Explorer, OpenNode, SearchResult, new_explorer};
use crate::fault::SearchFault;
use crate::spaces::TransitionSystem;
use crate::watching::SearchWatch;
use std::alloc::Global;

/// What a search found: orders, and whether these are all. If not, the search met more states than the limit, or its
/// watch ended it, and `depth` is the number of states on the way to the last of them.
#[derive(Drop)]
pub struct PartialResult {
    pub found: SearchResult,
    pub whole: bool,
    pub depth: usize,
}

impl<P: Drop> Explorer<P> {
    ghost use Rattle.std.specs.Prelude.{◌≡◌, false, List, IfOk, IfNone, OnOk};
    ghost use Rattle.gt_explore_search.specs.Exploring.{SearchHolds, VisitHolds, Grew, PartsGrew, SearchStarts, SearchFinishes};
    ghost use Rattle.gt_explore_search.specs.Parts.{Extends, by_numbers};

    // Visits all states that can be reached from this one, if there are no more than the limit and the watch lets it.
    // Otherwise returns the states whose moves are being tried.
    fn walk_within<S: TransitionSystem<Part = P>, W: SearchWatch>(
        &mut self,
        space: &S,
        first: OpenNode,
        limit: usize,
        watch: &mut W,
    ) -> Result<Option<Vec<OpenNode>>, SearchFault>
        ensures grows { OnOk result (PartsGrew self.old self.new) }
        ensures holds { (all : List P) → Extends self.new.states.parts.kept.items all →
            let ways = by_numbers (S.ways space.now) (S.parts space.now) all in
            SearchHolds ways self.old → VisitHolds ways self.old first →
            IfOk result (λ left. IfNone left (SearchHolds ways self.new × Grew self.old self.new)) }
    {
        let mut hand = None;
        let mut stack = Vec::new(self.alloc);
        stack.push(first)?;
        'tries: for _ in 0..u64::MAX {
            if self.states.len() > limit || watch.ends(self.states.len()) {
                return Ok(Some(stack));
            }
            if !self.try_next(space, &mut hand, &mut stack)? {
                return Ok(None);
            }
        }
        Err(SearchFault::States)
    }

    // Visits the states of the space, if there are no more than the limit and the watch lets it. Otherwise returns the
    // states whose moves are being tried.
    pub(super) fn run_within<S: TransitionSystem<Part = P>, W: SearchWatch>(
        &mut self,
        space: &S,
        limit: usize,
        watch: &mut W,
    ) -> Result<Option<Vec<OpenNode>>, SearchFault>
        ensures { (all : List P) → Extends self.new.states.parts.kept.items all →
            let ways = by_numbers (S.ways space.now) (S.parts space.now) all in
            SearchStarts ways self.old → IfOk result (λ left. IfNone left (SearchFinishes ways self.new)) }
    {
        let world = space.start()?;
        let state = self.states.number(space, &world, 0)?;
        space.alike();
        let first = self.visit(space, state, &world)?;
        self.walk_within(space, first, limit, watch)
    }

    // Gathers the ends of the turn that is being tried, if it leads to a state that is done.
    fn gather_turn<S: TransitionSystem<Part = P>>(
        &mut self,
        space: &S,
        visit: &mut OpenNode,
    ) -> Result<(), SearchFault> {
        let Some(turn) = visit.turn() else {
            return Ok(());
        };
        if visit.made.is_none() {
            self.make(space, &mut None, visit, turn)?;
        }
        match visit.made {
            Some(made) if self.node_of(made.state).is_some() => {
                self.back(space, visit, turn, made)
            }
            _ => Ok(()),
        }
    }

    // Finishes these states with the ends found so far, the last one first.
    fn unwind<S: TransitionSystem<Part = P>>(
        &mut self,
        space: &S,
        mut stack: Vec<OpenNode>,
    ) -> Result<(), SearchFault> {
        for _ in 0..stack.len() {
            let Some(mut visit) = stack.pop() else {
                return Ok(());
            };
            self.gather_turn(space, &mut visit)?;
            self.finish(space, visit)?;
        }
        Ok(())
    }

    // Returns what was found when these states were being tried.
    fn found_until<S: TransitionSystem<Part = P>>(
        &mut self,
        space: &S,
        stack: Vec<OpenNode>,
        limit: usize,
    ) -> Result<PartialResult, SearchFault>
        ensures { IfOk result (λ partial. partial.whole ≡ false) }
    {
        let depth = stack.len();
        let states = self.states.len().min(limit);
        self.unwind(space, stack)?;
        let orders = self.found(space)?.orders;
        Ok(PartialResult {
            found: SearchResult { orders, states },
            whole: false,
            depth,
        })
    }

    // Visits the states of the space, at most `limit` of them and as far as the watch lets it, and returns what was
    // found.
    fn found_within<S: TransitionSystem<Part = P>, W: SearchWatch>(
        &mut self,
        space: &S,
        limit: usize,
        watch: &mut W,
    ) -> Result<PartialResult, SearchFault>
        ensures { (all : List P) → Extends self.new.states.parts.kept.items all →
            SearchStarts (by_numbers (S.ways space.now) (S.parts space.now) all) self.old →
            IfOk result (λ partial. IsTrue partial.whole → AllTextsFound (S.ways space.now) partial.found) }
    {
        match self.run_within(space, limit, watch)? {
            Some(stack) => self.found_until(space, stack, limit),
            None => {
                let found = self.found(space)?;
                Ok(PartialResult {
                    found,
                    whole: true,
                    depth: 0,
                })
            }
        }
    }
}

/// Visits the states of a space, at most `limit` of them, and returns an order for each list of answers found. If there
/// are more states, or the watch ends the search, it returns the orders found until then, and that they are not all.
///
/// # Errors
/// `Circle` if a run returns to a state, `States` if a number is too large for its field, `Memory`, or a fault of the
/// space.
pub fn search_within<S: TransitionSystem, W: SearchWatch>(
    alloc: Global,
    space: &S,
    limit: usize,
    watch: &mut W,
) -> Result<PartialResult, SearchFault>
    ensures { IfOk result (λ partial. IsTrue partial.whole → AllTextsFound (S.ways space.now) partial.found) }
{
    let mut explorer = new_explorer(alloc, space)?;
    explorer.found_within(space, limit, watch)
}
