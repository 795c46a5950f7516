//! Turns that are made again on the core, and the precedences that hold in their order.
ghost use Rattle.std.specs.Prelude.{◌≡◌, [], List, IfOk, IfSome, is_some, map, slice_get};
ghost use Rattle.std.specs.Option.{option_map};
ghost use Rattle.gt_explore_replay.specs.Orders.{Happening, doer};
ghost use Rattle.gt_explore_replay.specs.Walking.{IsShownBy};
ghost use Rattle.gt_precedence.specs.Precedence.{answers_call, begins_call};
ghost use Rattle.gt_script.specs.Contents.{contents_of};
ghost use Rattle.gt_script.specs.RunContents.{run_contents};
ghost use Rattle.gt_script.specs.RunScripts.{CanConfigure};
ghost use Rattle.gt_explore_ordered.specs.Holding.{IsReplayOf, calls_answered_by, calls_begun_by, held_from, held_if};
ghost use Rattle.gt_explore_ordered.specs.Holding.{is_completed_by, move_shown};

use crate::places::CallOrder;
use gt_core::Answer;
use gt_explore_replay::{Moved, Replay};
use gt_explore_search::Turn;
use gt_script::RunScript;
use gt_types::{DomId, Memory};
use std::alloc::{AllocError, Global};

/// A move of a domain: whether it begins a call, and whether a call has its answer by it.
#[derive(Clone, Copy)]
pub struct CallMove {
    pub dom: DomId,
    pub begins: bool,
    pub answers: bool,
}

/// An order that was made again: its text and its moves.
#[derive(Drop)]
pub struct ReplayedOrder {
    pub text: Vec<u8>,
    pub moves: Vec<CallMove>,
}

// Returns whether a move begins a call.
fn begins(moved: &Moved) -> bool
    ensures { (x : Happening) → IsShownBy moved.now x → result ≡ begins_call x }
{
    match moved {
        Moved::Began(_) => true,
        Moved::Raised => false,
        Moved::Passed => false,
        Moved::Stepped(_, _, _) => false,
    }
}

fn is_given(answer: &Option<Answer>) -> bool
    ensures { result ≡ is_some answer.now }
{
    answer.is_some()
}

// Returns whether a call has its answer by a move.
fn answers(moved: &Moved) -> bool
    ensures { (x : Happening) → IsShownBy moved.now x → result ≡ answers_call x }
{
    match moved {
        Moved::Raised => false,
        Moved::Passed => false,
        Moved::Began(answer) => is_given(answer),
        Moved::Stepped(_, _, answer) => is_given(answer),
    }
}

// Returns a move of this domain.
fn call_move(dom: DomId, moved: &Moved) -> CallMove
    ensures { (x : Happening) → IsShownBy moved.now x → dom ≡ doer x → result ≡ move_shown x }
{
    CallMove {
        dom,
        begins: begins(moved),
        answers: answers(moved),
    }
}

// Returns the number of the domain at this position.
fn domain_at(script: &RunScript<'_>, place: usize) -> Option<DomId>
    ensures { result ≡ option_map (λ d. d.id) (slice_get (run_contents script.now).head.domains place) }
{
    match script.head().domains().get(place) {
        Some(domain) => Some(domain.id),
        None => None,
    }
}

/// Makes these turns of a script, from the beginning of its run to its end. Returns None if they do not lead there.
///
/// # Errors
/// `Memory` if an allocation fails.
pub fn replayed(
    alloc: Global,
    script: &RunScript<'_>,
    turns: &[Turn],
) -> Result<Option<ReplayedOrder>, Memory>
    requires { CanConfigure (contents_of script.now.head) }
    ensures { IfOk result (λ r. IfSome r (IsReplayOf (run_contents script.now))) }
{
    let mut moves = Vec::new(alloc);
    let mut run = Replay::new(alloc, script)?;
    'turns: for turn in turns {
        let moved = run.advance(*turn)?;
        match (domain_at(script, turn.place), &moved) {
            (Some(dom), Some(moved)) => moves.push(call_move(dom, moved))?,
            _ => return Ok(None),
        }
    }
    let made = run.text()?;
    match made {
        Some(text) => Ok(Some(ReplayedOrder { text, moves })),
        None => Ok(None),
    }
}

// Returns whether a precedence holds by this move: it begins the second call, and the first one has its answer. So many
// calls of the two domains have begun and have their answers before it.
fn is_completed(order: &CallOrder, begun: usize, answered: usize, call_move: &CallMove) -> bool
    ensures { result ≡ is_completed_by order.now begun answered call_move.now }
{
    (call_move.begins && call_move.dom.0 == order.second.dom.0)
        && (begun == order.second.before && order.first.before < answered)
}

// Returns 1 if the move begins a call of this domain, and otherwise 0.
fn calls_begun_by(dom: DomId, call_move: &CallMove) -> usize
    ensures { result ≡ calls_begun_by dom call_move.now }
{
    if call_move.begins && call_move.dom.0 == dom.0 {
        1
    } else {
        0
    }
}

// Returns 1 if a call of this domain has its answer by the move, and otherwise 0.
fn calls_answered_by(dom: DomId, call_move: &CallMove) -> usize
    ensures { result ≡ calls_answered_by dom call_move.now }
{
    if call_move.answers && call_move.dom.0 == dom.0 {
        1
    } else {
        0
    }
}

// Returns whether a precedence holds in an order with these moves.
fn is_held(order: &CallOrder, moves: &[CallMove]) -> bool
    ensures { (hs : List Happening) → moves.now ≡ map move_shown hs → result ≡ held_from order.now [] hs }
{
    let mut begun = 0;
    let mut answered = 0;
    for (at, call_move) in moves.iter().enumerate() {
        if is_completed(order, begun, answered, call_move) {
            return true;
        }
        begun += calls_begun_by(order.second.dom, call_move);
        answered += calls_answered_by(order.first.dom, call_move);
    }
    false
}

// Returns the same, if both lines have calls. Otherwise it does not hold.
fn is_held_if(order: &Option<CallOrder>, moves: &[CallMove]) -> bool
    ensures { (hs : List Happening) → moves.now ≡ map move_shown hs → result ≡ held_if hs order.now }
{
    match order {
        Some(order) => is_held(order, moves),
        None => false,
    }
}

/// Returns for each of these precedences whether it holds in an order with these moves. One without calls does not.
pub fn held_of(
    alloc: Global,
    orders: &[Option<CallOrder>],
    moves: &[CallMove],
) -> Result<Vec<bool>, AllocError>
    ensures { (hs : List Happening) → moves.now ≡ map move_shown hs →
        IfOk result (λ held. held.items ≡ map (held_if hs) orders.now) }
{
    let mut held = Vec::new(alloc);
    'orders: for order in orders {
        held.push(is_held_if(order, moves))?;
    }
    Ok(held)
}
