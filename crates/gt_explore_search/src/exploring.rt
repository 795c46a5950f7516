//! The depth-first search over the states of a space.
ghost use Rattle.std.specs.Prelude.{◌≡◌, ◌⊎◌, ℕ, List, IfOk, IsTrue, slice_get, Some};
ghost use Rattle.std.specs.Option.{option_map};
ghost use Rattle.gt_explore_search.specs.Exploring.{AllTextsFound, SearchStarts};
ghost use Rattle.gt_explore_search.specs.Parts.{by_numbers};

use crate::fault::SearchFault;
use crate::marks::Marks;
use crate::numbers::NumberLists;
use crate::sharing::{TriedTurn, tried_turn};
use crate::spaces::{TransitionSystem, Turn, TurnResult};
use crate::states::{StateIndex, WholeState};
use crate::suffixes::{AnswerLine, AnswerLists};
use crate::watching::Unwatched;
use std::alloc::{AllocError, Global};

mod orders;
mod partial;

pub use partial::{PartialResult, search_within};

/// A text that a run may give, and turns that led the search to it.
#[derive(Drop)]
pub struct FoundText {
    pub turns: Vec<Turn>,
    pub text: Vec<u8>,
}

/// The result of a search: an order for each list of answers, and the number of states met.
#[derive(Drop)]
pub struct SearchResult {
    pub orders: Vec<FoundText>,
    pub states: usize,
}

/// A state whose moves have all been tried. `set` is the number of the set of the lists of answers that it leads to.
/// The turns that were tried are those from the index `tried` on, up to those of the next node.
#[derive(Clone, Copy)]
pub struct Node {
    pub state: u32,
    pub tried: u32,
    pub set: u32,
}

/// A turn that was made: the number of the state that it led to, and the line that it printed.
#[derive(Clone, Copy)]
pub struct MadeTurn {
    pub state: usize,
    pub line: Option<AnswerLine>,
}

/// A state whose moves are being tried. `next` is the index of the turn to try. `made` is that turn, if it was made:
/// its ends are gathered when the state that it led to is done. `ends` has the numbers of the lists of answers that the
/// state leads to.
#[derive(Drop)]
pub struct OpenNode {
    pub state: usize,
    pub turns: Vec<Turn>,
    pub next: usize,
    pub made: Option<MadeTurn>,
    pub tried: Vec<TriedTurn>,
    pub ends: Vec<u32>,
}

/// A search in progress. `done` has the number of the node of each state that is done. `sets` has sets of lists of
/// answers, each as the numbers of its lists.
#[derive(Drop)]
pub struct Explorer<P> {
    pub alloc: Global,
    pub states: StateIndex<P>,
    pub done: Vec<Option<u32>>,
    pub nodes: Vec<Node>,
    pub tried: Vec<TriedTurn>,
    pub suffixes: AnswerLists,
    pub sets: NumberLists,
    pub marks: Marks,
}

impl OpenNode {
    ghost use Rattle.std.specs.Prelude.{◌≡◌, ◌≤◌, Some, IfNone, IfSome, OnOk, length, slice_get};
    ghost use Rattle.gt_explore_search.specs.Exploring.{Notes};

    // Returns the turn to try next.
    fn turn(&self) -> Option<Turn>
        ensures turn { IfSome result (λ t. slice_get self.now.turns.items self.now.next ≡ Some t) }
        ensures over { IfNone result (length self.now.turns.items ≤ self.now.next) }
    {
        if self.next >= self.turns.len() {
            return None;
        }
        Some(self.turns[self.next])
    }

    // Notes that the state leads to this list of answers, if that is new.
    fn note(&mut self, marks: &mut Marks, list: u32) -> Result<(), AllocError>
        ensures { OnOk result (Notes self.old list self.new) }
    {
        if marks.has(self.ends.as_slice(), list) {
            return Ok(());
        }
        marks.set(list, self.ends.len())?;
        self.ends.push(list)?;
        Ok(())
    }
}

// Returns the node with this number.
fn node_at(nodes: &[Node], node: usize) -> Option<&Node>
    ensures { option_map (λ n. n.now) result ≡ slice_get nodes.now node }
{
    nodes.get(node)
}

// Records that the state with this number has this node.
fn set_done(done: &mut Vec<Option<u32>>, state: usize, node: usize)
    ensures { (s i : ℕ) → slice_get done.new.items s ≡ Some (Some i) →
        (slice_get done.old.items s ≡ Some (Some i)) ⊎ ((s ≡ state) × (i ≡ node)) }
{
    if state >= done.len() || node >= 4_294_967_296 {
        return;
    }
    done[state] = Some(node as u32);
}

// Returns whether the move led nowhere.
fn leads_nowhere(led: &TurnResult) -> bool
    ensures { IsTrue result → led.now ≡ TurnResult.Nowhere }
{
    match led {
        TurnResult::Nowhere => true,
        TurnResult::On | TurnResult::Answered(_) => false,
    }
}

impl<P: Drop> Explorer<P> {
    ghost use Rattle.std.specs.Prelude.{◌≡◌, ◌≤◌, List, Some, IfOk, IfSome, OnOk, length, map, slice_get};
    ghost use Rattle.gt_explore_search.specs.Lists.{HasItsLine};
    ghost use Rattle.gt_explore_search.specs.Exploring.{SearchHolds, EachVisitHolds, VisitHolds, Grew, TurnLeads, Gathered};
    ghost use Rattle.gt_explore_search.specs.Exploring.{Stepped};
    ghost use Rattle.gt_explore_search.specs.Exploring.{AllTextsFound, IsLineOf, PartsGrew, SearchStarts, SearchFinishes};
    ghost use Rattle.gt_explore_search.specs.Parts.{Extends, HandHolds, IsStateAt, by_numbers};

    // Returns the number of the node of a state, if the state is done.
    fn node_of(&self, state: usize) -> Option<usize>
        ensures { IfSome result (λ node. slice_get self.now.done.items state ≡ Some (Some node)) }
    {
        if state >= self.done.len() {
            return None;
        }
        match self.done[state] {
            Some(node) => Some(node as usize),
            None => None,
        }
    }

    // Opens a state that is met for the first time. Its moves are to be tried.
    fn visit<S: TransitionSystem<Part = P>>(
        &mut self,
        space: &S,
        state: usize,
        world: &S::State,
    ) -> Result<OpenNode, SearchFault>
        ensures states { OnOk result (self.new.states ≡ self.old.states) }
        ensures holds { (all : List P) → let ways = by_numbers (S.ways space.now) (S.parts space.now) all in
            SearchHolds ways self.old →
            IsStateAt (S.ways space.now) (S.parts space.now) all self.old.states.met state world.now →
            IfOk result (λ v. SearchHolds ways self.new × Grew self.old self.new × VisitHolds ways self.new v) }
    {
        let alloc = self.alloc;
        self.done.push(None)?;
        let mut visit = OpenNode {
            state,
            turns: space.turns(world)?,
            next: 0,
            made: None,
            tried: Vec::new(alloc),
            ends: Vec::new(alloc),
        };
        if !space.is_finished(world) {
            return Ok(visit);
        }
        visit.note(&mut self.marks, 0)?;
        Ok(visit)
    }

    // Returns the line of the answer that a move of the domain at this position gave.
    fn line(&mut self, place: usize, led: TurnResult) -> Result<Option<AnswerLine>, SearchFault>
        ensures { IfOk result (λ line. IsLineOf self.old place led line self.new) }
    {
        match led {
            TurnResult::Answered(line) => {
                let number = self.suffixes.line(line)?;
                if place >= 4_294_967_296 {
                    return Err(SearchFault::States);
                }
                Ok(Some(AnswerLine {
                    place: place as u32,
                    number,
                }))
            }
            TurnResult::On | TurnResult::Nowhere => Ok(None),
        }
    }

    // Gathers the ends of a turn that led to a state that is done, and printed this line.
    fn gather<S: TransitionSystem<Part = P>>(
        &mut self,
        _space: &S,
        visit: &mut OpenNode,
        node: usize,
        line: Option<AnswerLine>,
    ) -> Result<(), SearchFault>
        ensures states { OnOk result (self.new.states ≡ self.old.states) }
        ensures gathered { (all : List P) (turn : Turn) → let ways = by_numbers (S.ways _space.now) (S.parts _space.now) all in
            SearchHolds ways self.old → VisitHolds ways self.old visit.old → HasItsLine self.old.suffixes line →
            TurnLeads ways self.old visit.old turn node line →
            OnOk result (Gathered ways self.old visit.old turn self.new visit.new) }
    {
        let Some(done) = node_at(self.nodes.as_slice(), node) else {
            return Ok(());
        };
        let Some(lists) = self.sets.get(done.set as usize) else {
            return Ok(());
        };
        let suffixes = &mut self.suffixes;
        let marks = &mut self.marks;
        marks.set_all(visit.ends.as_slice())?;
        'ends: for end in lists {
            let list = suffixes.longer(*end, line)?;
            visit.note(marks, list)?;
        }
        Ok(())
    }

    // Makes this turn of the state. Returns the state that it leads to, if that is new, which is then at hand.
    fn make<S: TransitionSystem<Part = P>>(
        &mut self,
        space: &S,
        hand: &mut Option<WholeState<S::State>>,
        visit: &mut OpenNode,
        turn: Turn,
    ) -> Result<Option<OpenNode>, SearchFault>
        ensures grows { OnOk result (PartsGrew self.old self.new) }
        ensures hand { (all : List P) → Extends self.new.states.parts.kept.items all →
            OnOk result (HandHolds (S.ways space.now) (S.parts space.now) all self.new.states.met hand.new) }
        ensures steps { (all : List P) → Extends self.new.states.parts.kept.items all →
            let ways = by_numbers (S.ways space.now) (S.parts space.now) all in
            SearchHolds ways self.old → VisitHolds ways self.old visit.old →
            HandHolds (S.ways space.now) (S.parts space.now) all self.old.states.met hand.old →
            slice_get visit.old.turns.items visit.old.next ≡ Some turn →
            IfOk result (λ deeper. Stepped ways self.old visit.new deeper self.new) }
    {
        space.alike();
        let mut world = self.states.take(space, hand, visit.state)?;
        let led = space.advance(&mut world, turn)?;
        if leads_nowhere(&led) {
            visit.made = None;
            visit.next = visit.next.saturating_add(1);
            return Ok(None);
        }
        let line = self.line(turn.place, led)?;
        let met = self.states.len();
        let state = self.states.number(space, &world, visit.state)?;
        visit.made = Some(MadeTurn { state, line });
        if state == met {
            let deeper = self.visit(space, state, &world)?;
            *hand = Some(WholeState {
                number: state,
                state: world,
            });
            return Ok(Some(deeper));
        }
        Ok(None)
    }

    // Gathers the ends of the next turn of a state, which was made. The state that it led to is done.
    fn back<S: TransitionSystem<Part = P>>(
        &mut self,
        space: &S,
        visit: &mut OpenNode,
        turn: Turn,
        made: MadeTurn,
    ) -> Result<(), SearchFault>
        ensures states { OnOk result (self.new.states ≡ self.old.states) }
        ensures steps { (all : List P) → let ways = by_numbers (S.ways space.now) (S.parts space.now) all in
            SearchHolds ways self.old → VisitHolds ways self.old visit.old →
            slice_get visit.old.turns.items visit.old.next ≡ Some turn → visit.old.made ≡ Some made →
            OnOk result (Stepped ways self.old visit.new None self.new) }
    {
        let Some(node) = self.node_of(made.state) else {
            return Err(SearchFault::Circle);
        };
        self.gather(space, visit, node, made.line)?;
        visit.tried.push(tried_turn(turn, node, made.line)?)?;
        visit.made = None;
        visit.next = visit.next.saturating_add(1);
        Ok(())
    }

    // Finishes a state whose moves have all been tried.
    fn finish<S: TransitionSystem<Part = P>>(
        &mut self,
        _space: &S,
        visit: OpenNode,
    ) -> Result<(), SearchFault>
        ensures states { OnOk result (self.new.states ≡ self.old.states) }
        ensures holds { (all : List P) → let ways = by_numbers (S.ways _space.now) (S.parts _space.now) all in
            SearchHolds ways self.old → VisitHolds ways self.old visit →
            length visit.turns.items ≤ visit.next →
            OnOk result (SearchHolds ways self.new × Grew self.old self.new) }
    {
        let node = self.nodes.as_slice().len();
        let state = visit.state;
        let first = self.tried.len();
        if state >= 4_294_967_296 || first >= 4_294_967_296 {
            return Err(SearchFault::States);
        }
        let set = self.sets.number_of(visit.ends.as_slice())?;
        self.tried.extend_from_slice(visit.tried.as_slice())?;
        self.nodes.push(Node {
            state: state as u32,
            tried: first as u32,
            set,
        })?;
        set_done(&mut self.done, state, node);
        Ok(())
    }

    // Continues with the last of these states. Returns whether there was one.
    fn try_next<S: TransitionSystem<Part = P>>(
        &mut self,
        space: &S,
        hand: &mut Option<WholeState<S::State>>,
        stack: &mut Vec<OpenNode>,
    ) -> Result<bool, SearchFault>
        ensures grows { OnOk result (PartsGrew self.old self.new) }
        ensures holds { (all : List P) → Extends self.new.states.parts.kept.items all →
            let ways = by_numbers (S.ways space.now) (S.parts space.now) all in
            SearchHolds ways self.old → EachVisitHolds ways self.old stack.old.items →
            HandHolds (S.ways space.now) (S.parts space.now) all self.old.states.met hand.old →
            OnOk result (SearchHolds ways self.new × Grew self.old self.new
            × EachVisitHolds ways self.new stack.new.items
            × HandHolds (S.ways space.now) (S.parts space.now) all self.new.states.met hand.new) }
    {
        let Some(mut visit) = stack.pop() else {
            return Ok(false);
        };
        let Some(turn) = visit.turn() else {
            self.finish(space, visit)?;
            return Ok(true);
        };
        if let Some(made) = visit.made {
            self.back(space, &mut visit, turn, made)?;
            stack.push(visit)?;
            return Ok(true);
        }
        let deeper = self.make(space, hand, &mut visit, turn)?;
        stack.push(visit)?;
        if let Some(deeper) = deeper {
            stack.push(deeper)?;
        }
        Ok(true)
    }

    // Visits all states of the space. Fails with `States` if there are more than the limit.
    fn run<S: TransitionSystem<Part = P>>(
        &mut self,
        space: &S,
        limit: usize,
    ) -> Result<(), SearchFault>
        ensures { (all : List P) → Extends self.new.states.parts.kept.items all →
            let ways = by_numbers (S.ways space.now) (S.parts space.now) all in
            SearchStarts ways self.old → OnOk result (SearchFinishes ways self.new) }
    {
        match self.run_within(space, limit, &mut Unwatched)? {
            Some(_) => Err(SearchFault::States),
            None => Ok(()),
        }
    }

    // Returns an order for each list of answers that the first state leads to.
    fn found<S: TransitionSystem<Part = P>>(&self, space: &S) -> Result<SearchResult, SearchFault>
        ensures { (all : List P) → SearchFinishes (by_numbers (S.ways space.now) (S.parts space.now) all) self.now →
            IfOk result (AllTextsFound (S.ways space.now)) }
    {
        let Some(first) = self.node_of(0) else {
            return Err(SearchFault::Circle);
        };
        let Some(done) = node_at(self.nodes.as_slice(), first) else {
            return Err(SearchFault::Circle);
        };
        let Some(lists) = self.sets.get(done.set as usize) else {
            return Err(SearchFault::Circle);
        };
        let mut orders = Vec::new(self.alloc);
        let mut scratch = Vec::new(self.alloc);
        let domains = space.domains();
        'ends: for end in lists {
            let turns = self.turns(first, *end, orders.len(), &mut scratch)?;
            let text = self.suffixes.text(*end, domains)?;
            orders.push(FoundText { turns, text })?;
        }
        let states = self.states.len();
        Ok(SearchResult { orders, states })
    }
}

// Makes a search that has met no state yet.
fn new_explorer<S: TransitionSystem>(
    alloc: Global,
    space: &S,
) -> Result<Explorer<S::Part>, SearchFault>
    ensures { (all : List S.Part) → IfOk result (SearchStarts (by_numbers (S.ways space.now) (S.parts space.now) all)) }
{
    Ok(Explorer {
        alloc,
        states: StateIndex::new(alloc),
        done: Vec::new(alloc),
        nodes: Vec::new(alloc),
        tried: Vec::new(alloc),
        suffixes: AnswerLists::new(alloc)?,
        sets: NumberLists::new(alloc),
        marks: Marks::new(alloc),
    })
}

/// Visits the states of a space, at most `limit` of them, and returns an order for each list of answers found.
///
/// # Errors
/// `States` beyond the limit, or if a number is too large for its field; `Circle` if a run returns to a state;
/// `Memory`; or a fault of the space.
pub fn search<S: TransitionSystem>(
    alloc: Global,
    space: &S,
    limit: usize,
) -> Result<SearchResult, SearchFault>
    ensures { IfOk result (AllTextsFound (S.ways space.now)) }
{
    let mut explorer = new_explorer(alloc, space)?;
    explorer.run(space, limit)?;
    explorer.found(space)
}
