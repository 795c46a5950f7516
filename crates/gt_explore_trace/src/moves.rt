//! The moves of an order.
ghost use Rattle.std.specs.Prelude.{IfOk, IfSome};
ghost use Rattle.gt_script.specs.Contents.{contents_of};
ghost use Rattle.gt_script.specs.RunContents.{run_contents};
ghost use Rattle.gt_script.specs.RunScripts.{CanConfigure};
ghost use Rattle.gt_explore_trace.specs.Moves.{AreByTurns, GivesText};

use gt_explore_replay::{Moved, Replay};
use gt_explore_search::Turn;
use gt_script::RunScript;
use gt_types::{DomId, Memory};
use std::alloc::Global;

/// A move, and the domain that made it.
#[derive(Drop)]
pub struct TracedMove {
    pub dom: DomId,
    pub moved: Moved,
}

/// The moves of an order, and its text.
#[derive(Drop)]
pub struct TracedOrder {
    pub moves: Vec<TracedMove>,
    pub text: Vec<u8>,
}

/// Makes these turns of a script, and returns the moves, one for each turn, and the text. Returns None if some domain
/// is not at its end after them, or could not take its turn.
///
/// # Errors
/// `Memory` if an allocation fails.
pub fn traced(
    alloc: Global,
    script: &RunScript,
    turns: &[Turn],
) -> Result<Option<TracedOrder>, Memory>
    requires { CanConfigure (contents_of script.now.head) }
    ensures gives { IfOk result (λ t. IfSome t (λ order.
        GivesText (run_contents script.now) order.moves.items order.text.items)) }
    ensures turned { IfOk result (λ t. IfSome t (λ order.
        AreByTurns (run_contents script.now).head.domains turns.now order.moves.items)) }
{
    let domains = script.head().domains();
    let mut run = Replay::new(alloc, script)?;
    let mut moves = Vec::new(alloc);
    'turns: for turn in turns {
        let Some(domain) = domains.get(turn.place) else {
            return Ok(None);
        };
        let Some(moved) = run.advance(*turn)? else {
            return Ok(None);
        };
        let dom = domain.id;
        moves.push(TracedMove { dom, moved })?;
    }
    match run.text()? {
        Some(text) => Ok(Some(TracedOrder { moves, text })),
        None => Ok(None),
    }
}
