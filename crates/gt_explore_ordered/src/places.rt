//! The places of the calls of precedences in the lists of their domains.
ghost use Rattle.std.specs.Prelude.{◌≡◌, IfOk, if◌then◌else◌};
ghost use Rattle.gt_explore_moves.specs.Ends.{tasks_at};
ghost use Rattle.gt_explore_search.specs.Parts.{Pairwise};
ghost use Rattle.gt_script.specs.Preceding.{is_call};
ghost use Rattle.gt_explore_ordered.specs.Places.{IsFoundAs, IsCallFoundIn, OrderIsFound, is_call_of, task_lists};

use gt_explore_moves::SearchContext;
use gt_script::{Precedence, RunAction, RunTask};
use gt_types::DomId;
use std::alloc::AllocError;

/// The place of a call: the position and the number of its domain, the index of its task in the domain's list, and the
/// number of calls before it there.
#[derive(Clone, Copy)]
pub struct CallPlace {
    pub place: usize,
    pub dom: DomId,
    pub index: usize,
    pub before: usize,
}

/// The places of the two calls of a precedence.
#[derive(Clone, Copy)]
pub struct CallOrder {
    pub first: CallPlace,
    pub second: CallPlace,
}

// Returns whether a task is a call.
fn is_call(task: &RunTask<'_>) -> bool
    ensures { result ≡ is_call task.now.run_action }
{
    match &task.run_action {
        RunAction::Do(_) => true,
        RunAction::Tell(_) | RunAction::Await(_) => false,
    }
}

// Returns whether a task is a call of this line.
fn is_call_of(task: &RunTask<'_>, line: usize) -> bool
    ensures { result ≡ is_call_of line task.now }
{
    is_call(task) && task.line == line
}

// Returns 1 for a call, and otherwise 0.
fn call_count(task: &RunTask<'_>) -> usize
    ensures { result ≡ (if is_call task.now.run_action then 1 else 0) }
{
    if is_call(task) { 1 } else { 0 }
}

// Returns the place of the call of this line in the list of the domain at the position `place`.
fn place_in(scene: &SearchContext<'_, '_>, place: usize, line: usize) -> Option<CallPlace>
    ensures { IsCallFoundIn line place (tasks_at scene.now place) result }
{
    let mut before = 0;
    for index in 0..usize::MAX {
        let Some(task) = scene.task(place, index) else {
            return None;
        };
        if is_call_of(task, line) {
            return Some(CallPlace {
                place,
                dom: task.dom,
                index,
                before,
            });
        }
        before += call_count(task);
    }
    None
}

/// Returns the place of the call of this line.
pub fn place_of(scene: &SearchContext<'_, '_>, line: usize) -> Option<CallPlace>
    ensures { IsFoundAs line (task_lists scene.now.lists.items) result }
{
    for place in 0..scene.lists.len() {
        if let Some(found) = place_in(scene, place, line) {
            return Some(found);
        }
    }
    None
}

// Returns the places of the two calls of a precedence, if both lines have calls.
fn order_of(scene: &SearchContext<'_, '_>, lines: Precedence) -> Option<CallOrder>
    ensures { OrderIsFound (task_lists scene.now.lists.items) lines result }
{
    let first = place_of(scene, lines.first)?;
    let second = place_of(scene, lines.second)?;
    Some(CallOrder { first, second })
}

/// Returns the places of the calls of these precedences.
pub fn orders_of(
    scene: &SearchContext<'_, '_>,
    all: &[Precedence],
) -> Result<Vec<Option<CallOrder>>, AllocError>
    ensures { IfOk result (λ orders.
        Pairwise (OrderIsFound (task_lists scene.now.lists.items)) all.now orders.items) }
{
    let mut orders = Vec::new(scene.alloc);
    'all: for lines in all {
        orders.push(order_of(scene, *lines))?;
    }
    Ok(orders)
}
