//! The states of a script, with notes in place of answers.
ghost use Rattle.std.specs.Prelude.{◌≡◌, IfOk};
ghost use Rattle.gt_explore_search.specs.Parts.{Pairwise};
ghost use Rattle.gt_explore_search.specs.Ways.{IsShownSo};
ghost use Rattle.gt_explore_moves.specs.Parts.{parts_of, splitting};
ghost use Rattle.gt_explore_moves.specs.declared.scene.SearchState.{SearchState};
ghost use Rattle.gt_explore_ordered.specs.Spaces.{IsNoted, NotesPrinted, ordered_ways};
ghost use Rattle.gt_explore_ordered.specs.States.{begins_at, completes, is_answered_at};

use crate::notes::{push_letters, push_mark};
use crate::places::{CallOrder, CallPlace};
use gt_explore_moves::{SearchContext, SearchState, StatePart};
use gt_explore_search::{SearchFault, TransitionSystem, Turn, TurnResult};
use std::alloc::AllocError;

/// The states of a script, and the places of the calls of precedences. A move that begins the second call of one prints
/// its mark, if the first call has its answer. A move that answers a call prints the letters of its line.
#[derive(Drop)]
pub struct OrderedSpace<'s, 'o> {
    pub scene: SearchContext<'s, 's>,
    pub orders: &'o [Option<CallOrder>],
}

// Returns whether this turn begins the call at this place.
fn begins_at(state: &SearchState<'_>, turn: Turn, call: &CallPlace) -> bool
    ensures { result ≡ begins_at state.now turn call.now }
{
    if turn.place != call.place {
        return false;
    }
    match state.actors.get(call.place) {
        Some(actor) => actor.open.is_none() && actor.next == call.index,
        None => false,
    }
}

// Returns whether the call at this place has its answer.
fn is_answered_at(state: &SearchState<'_>, call: &CallPlace) -> bool
    ensures { result ≡ is_answered_at state.now call.now }
{
    let Some(actor) = state.actors.get(call.place) else {
        return false;
    };
    match actor.open {
        Some(open) => call.index < actor.next && open.task != Some(call.index),
        None => call.index < actor.next,
    }
}

// Returns whether this turn completes a precedence.
fn completes(state: &SearchState<'_>, turn: Turn, order: &Option<CallOrder>) -> bool
    ensures { result ≡ completes state.now turn order.now }
{
    match order {
        Some(order) => {
            begins_at(state, turn, &order.second) && is_answered_at(state, &order.first)
        }
        None => false,
    }
}

// Returns the result of a move that prints these notes.
fn printed(notes: Vec<u8>) -> TurnResult
    ensures { NotesPrinted result notes.items }
{
    if notes.is_empty() {
        return TurnResult::On;
    }
    TurnResult::Answered(notes)
}

// Returns the result of a move that prints these marks, and the letters of its answer in place of the answer.
fn noted(mut marks: Vec<u8>, led: TurnResult) -> Result<TurnResult, AllocError>
    ensures { IfOk result (IsNoted marks.items led) }
{
    match led {
        TurnResult::Nowhere => Ok(TurnResult::Nowhere),
        TurnResult::On => Ok(printed(marks)),
        TurnResult::Answered(line) => {
            push_letters(&mut marks, line.as_slice())?;
            Ok(printed(marks))
        }
    }
}

impl<'s> OrderedSpace<'s, '_> {
    ghost use Rattle.std.specs.Prelude.{◌≡◌, IfOk};
    ghost use Rattle.gt_explore_ordered.specs.Notes.{bytes_of_notes};
    ghost use Rattle.gt_explore_ordered.specs.States.{completes, marks_of_orders};

    // Returns the marks of the precedences that this turn completes.
    fn marks(&self, state: &SearchState<'s>, turn: Turn) -> Result<Vec<u8>, SearchFault>
        ensures { IfOk result (λ marks. marks.items
            ≡ bytes_of_notes (marks_of_orders (completes state.now turn) 0 self.now.orders.now)) }
    {
        let mut marks = Vec::new(self.scene.alloc);
        for (number, order) in self.orders.iter().enumerate() {
            push_mark(&mut marks, number, completes(state, turn, order))?;
        }
        Ok(marks)
    }
}

impl<'s> TransitionSystem for OrderedSpace<'s, '_> {
    type State = SearchState<'s>;

    type Part = StatePart<'s>;

    ghost ways = { λ space. ordered_ways space.scene space.orders.now };

    ghost parts = { λ space. splitting };

    fn domains(&self) -> usize {
        TransitionSystem::domains(&self.scene)
    }

    fn start(&self) -> Result<SearchState<'s>, SearchFault> {
        TransitionSystem::start(&self.scene)
    }

    fn turns(&self, state: &SearchState<'s>) -> Result<Vec<Turn>, SearchFault> {
        Ok(self.scene.every_turn(state)?)
    }

    fn advance(&self, state: &mut SearchState<'s>, turn: Turn) -> Result<TurnResult, SearchFault> {
        let marks = self.marks(state, turn)?;
        let led = TransitionSystem::advance(&self.scene, state, turn)?;
        let made = noted(marks, led)?;
        Ok(made)
    }

    fn is_finished(&self, state: &SearchState<'s>) -> bool {
        TransitionSystem::is_finished(&self.scene, state)
    }

    fn alike(&self) {
        self.scene.alike()
    }

    fn is_past(&self, state: &SearchState<'s>, at: usize) -> bool {
        self.scene.is_past(state, at)
    }

    fn has_part(&self, state: &SearchState<'s>, at: usize, part: &StatePart<'s>) -> bool {
        self.scene.has_part(state, at, part)
    }

    fn copy_part(&self, state: &SearchState<'s>, at: usize) -> Result<StatePart<'s>, SearchFault> {
        self.scene.copy_part(state, at)
    }

    fn digest(&self, state: &SearchState<'s>, at: usize) -> u64 {
        TransitionSystem::digest(&self.scene, state, at)
    }

    fn join(&self, made: Vec<StatePart<'s>>) -> Result<SearchState<'s>, AllocError>
        ensures { (w : SearchState) → Pairwise splitting.same (parts_of w) made.entry.items →
            IfOk result (IsShownSo (ordered_ways self.now.scene self.now.orders.now) w) }
    {
        self.scene.join(made)
    }

    fn copy(&self, part: &StatePart<'s>) -> Result<StatePart<'s>, AllocError> {
        self.scene.copy(part)
    }
}
