//! The moves of an order with the fewest blocks.
ghost use Rattle.std.specs.Prelude.{◌≡◌, ◌≤◌, if◌then◌else◌, IfOk};
ghost use Rattle.gt_script.specs.Contents.{contents_of};
ghost use Rattle.gt_script.specs.RunContents.{run_contents};
ghost use Rattle.gt_script.specs.RunScripts.{CanConfigure};
ghost use Rattle.gt_script.specs.Stuck.{AreNumbered};
ghost use Rattle.gt_explore_answers.specs.Outputs.{found_from};
ghost use Rattle.gt_explore_changes.specs.Blocks.{is_again};
ghost use Rattle.gt_explore_trace.specs.Moves.{AreByTurns, GivesText};
ghost use Rattle.gt_explore_tracing.specs.MoveBlocks.{LeadToNumbered, move_blocks};

use gt_explore_answers::{FoundTexts, numbered};
use gt_explore_changes::{FewestBlocks, with_fewest_blocks};
use gt_explore_faults::TextsFault;
use gt_explore_search::{FoundText, SearchWatch};
use gt_explore_trace::{TracedMove, traced};
use gt_script::RunScript;
use gt_types::DomId;
use std::alloc::{AllocError, Global};

/// The moves of an order, and the text that it gives. If `is_fewest` is true, no order with this text has fewer blocks.
#[derive(Drop)]
pub struct FewestMoves {
    pub text: Vec<u8>,
    pub moves: Vec<TracedMove>,
    pub is_fewest: bool,
}

// Returns whether the last move was of this domain too.
fn is_again(last: Option<DomId>, dom: DomId) -> bool
    ensures { result ≡ is_again last dom }
{
    match last {
        Some(other) => other.0 == dom.0,
        None => false,
    }
}

// Returns how many blocks a move of this domain begins after the last one: none if it goes on with that one's.
fn begun_by(last: Option<DomId>, dom: DomId) -> usize
    ensures begun { result ≡ (if is_again last dom then 0 else 1) }
    ensures one { result ≤ 1 }
{
    if is_again(last, dom) { 0 } else { 1 }
}

/// Returns the number of blocks of these moves: longest sequences of moves of one domain.
pub fn blocks_of(moves: &[TracedMove]) -> usize
    ensures { result ≡ move_blocks moves.now }
{
    let mut last = None;
    let mut blocks = 0;
    'moves: for (at, traced) in moves.iter().enumerate() {
        blocks += begun_by(last, traced.dom);
        last = Some(traced.dom);
    }
    blocks
}

// Copies an order.
fn copy_of(alloc: Global, order: &FoundText) -> Result<FoundText, AllocError>
    ensures { IfOk result (λ copy. copy.text.items ≡ order.now.text.items) }
{
    let turns = Vec::from_slice(alloc, order.turns.as_slice())?;
    let text = Vec::from_slice(alloc, order.text.as_slice())?;
    Ok(FoundText { turns, text })
}

// Returns the moves of an order, if they lead to its text.
fn moves_of(
    alloc: Global,
    script: &RunScript,
    order: &FoundText,
) -> Result<Vec<TracedMove>, TextsFault>
    requires { CanConfigure (contents_of script.now.head) }
    ensures gives { IfOk result (λ moves. GivesText (run_contents script.now) moves.items order.now.text.items) }
    ensures turned { IfOk result (λ moves.
        AreByTurns (run_contents script.now).head.domains order.now.turns.items moves.items) }
{
    let Some(made) = traced(alloc, script, order.turns.as_slice())? else {
        return Err(TextsFault::Astray);
    };
    if order.text.as_slice() != made.text.as_slice() {
        return Err(TextsFault::Astray);
    }
    Ok(made.moves)
}

/// Returns the moves of an order that gives the text of this number among those that were found. It has the fewest
/// blocks of all orders that give the text, if the search for it meets at most `limit` states, the watch does not end
/// it, and memory suffices. Otherwise it is the order that was found.
///
/// # Errors
/// `Astray` if no text has this number, or if the order does not lead to it; `States` if the search has too many states
/// to number; and `Memory`.
pub fn fewest_moves<W: SearchWatch>(
    alloc: Global,
    script: &RunScript<'_>,
    found: &FoundTexts,
    number: usize,
    limit: usize,
    watch: &mut W,
) -> Result<FewestMoves, TextsFault>
    requires fits { CanConfigure (contents_of script.now.head) }
    requires numbered { AreNumbered script.now.flags script.now.tasks }
    ensures { IfOk result (LeadToNumbered (run_contents script.now) (found_from found.now) number) }
{
    let given = copy_of(alloc, numbered(found, number)?)?;
    let fewest = with_fewest_blocks(alloc, script, given, limit, watch)?;
    let moves = moves_of(alloc, script, &fewest.order)?;
    let FewestBlocks { order, is_fewest } = fewest;
    Ok(FewestMoves {
        text: order.text,
        moves,
        is_fewest,
    })
}
