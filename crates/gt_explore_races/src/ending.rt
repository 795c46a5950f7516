//! Runs that go on to the ends of all lists.
ghost use Rattle.std.specs.Prelude.{List, IfOk, IsTrue};
ghost use Rattle.gt_explore_replay.specs.Orders.{Happening};
ghost use Rattle.gt_explore_replay.specs.Walking.{HasWalked};
ghost use Rattle.gt_script.specs.RunContents.{RunContents};
ghost use Rattle.gt_explore_races.specs.Replays.{BeginsOrder};

use gt_explore_replay::{Replay, Walker};
use gt_explore_search::Turn;
use gt_script::RunAction;
use gt_types::Memory;

// Returns whether this flag is raised.
fn is_raised(told: &[bool], flag: usize) -> bool {
    told.get(flag).copied().unwrap_or(false)
}

// Returns whether a domain has a next move, if these flags are raised.
fn can_move(walker: &Walker<'_, '_>, told: &[bool]) -> bool {
    if walker.is_calling() {
        return true;
    }
    match walker.task() {
        Some(task) => match &task.run_action {
            RunAction::Await(flag) => is_raised(told, *flag),
            RunAction::Do(_) | RunAction::Tell(_) => true,
        },
        None => !walker.held().is_empty(),
    }
}

// Returns the position of the first domain that has a next move.
fn first_mover(run: &Replay<'_, '_>) -> Option<usize> {
    let told = run.told();
    for (place, walker) in run.walkers().iter().enumerate() {
        if can_move(walker, told) {
            return Some(place);
        }
    }
    None
}

/// Lets the domains of a run move to the ends of their lists. Returns whether all reached them: then an order begins as
/// the run did.
///
/// # Errors
/// `Memory` if an allocation fails.
pub fn ends(mut run: Replay<'_, '_>) -> Result<bool, Memory>
    ensures { (c : RunContents) (hs : List Happening) → HasWalked c hs run.entry →
        IfOk result (λ b. IsTrue b → BeginsOrder c hs) }
{
    'moves: for _ in 0..usize::MAX {
        let Some(place) = first_mover(&run) else {
            break;
        };
        let moved = run.advance(Turn { place, choice: 0 })?;
        if moved.is_none() {
            return Ok(false);
        }
    }
    let text = run.text()?;
    Ok(text.is_some())
}
