//! The order with the fewest blocks.
ghost use Rattle.std.specs.List.{list_any};
ghost use Rattle.std.specs.Prelude.{◌≡◌, None, false, IfOk, IsTrue};
ghost use Rattle.std.specs.Str.{bytes_eq};
ghost use Rattle.gt_script.specs.Contents.{contents_of};
ghost use Rattle.gt_script.specs.RunContents.{run_contents};
ghost use Rattle.gt_script.specs.RunScripts.{CanConfigure};
ghost use Rattle.gt_script.specs.Stuck.{AreNumbered};
ghost use Rattle.gt_explore_changes.specs.Fewest.{HasFewestBlocks, IsSearchedWithin};

use crate::blocks::blocks_in;
use crate::space::BlockSpace;
use gt_explore_faults::TextsFault;
use gt_explore_moves::SearchContext;
use gt_explore_replay::every_order_has_turns;
use gt_explore_search::{FoundText, SearchWatch, Turn, search_within};
use gt_script::RunScript;
use std::alloc::Global;

/// An order that gives a text. If `is_fewest` is true, no order with this text has fewer blocks.
#[derive(Drop)]
pub struct FewestBlocks {
    pub order: FoundText,
    pub is_fewest: bool,
}

// What a search for an order in at most a number of blocks came to.
#[derive(Drop)]
enum FewerBlocks {
    // These turns make an order.
    Found(Vec<Turn>),
    // No such order exists. The search met this number of states.
    Nowhere(usize),
    // None was found. The search did not meet all states, or memory was wanting.
    Unknown,
}

// Returns the turns of the first of these orders that has this text.
fn turns_giving<'o>(orders: &'o [FoundText], text: &[u8]) -> Option<&'o [Turn]>
    ensures { result ≡ None → list_any (λ o. bytes_eq o.text.items text.now) orders.entry.now ≡ false }
{
    'orders: for order in orders {
        if order.text.as_slice() == text {
            return Some(order.turns.as_slice());
        }
    }
    None
}

// Searches for an order with this text in at most `most` blocks.
fn searched_within<W: SearchWatch>(
    alloc: Global,
    script: &RunScript<'_>,
    text: &[u8],
    most: usize,
    limit: usize,
    watch: &mut W,
) -> Result<FewerBlocks, TextsFault>
    requires fits { CanConfigure (contents_of script.now.head) }
    requires numbered { AreNumbered script.now.flags script.now.tasks }
    ensures { IfOk result (IsSearchedWithin (run_contents script.now) text.now most) }
{
    every_order_has_turns();
    let scene = SearchContext::new(alloc, script)?;
    let space = BlockSpace { scene, most };
    let partial = search_within(alloc, &space, limit, watch)?;
    match turns_giving(partial.found.orders.as_slice(), text) {
        None => {
            if partial.whole {
                Ok(FewerBlocks::Nowhere(partial.found.states))
            } else {
                Ok(FewerBlocks::Unknown)
            }
        }
        Some(turns) => {
            if blocks_in(turns) <= most {
                Ok(FewerBlocks::Found(Vec::from_slice(alloc, turns)?))
            } else {
                Err(TextsFault::Astray)
            }
        }
    }
}

// Searches as `searched_within` does. Want of memory ends the search as its limit does.
fn searched_in_memory<W: SearchWatch>(
    alloc: Global,
    script: &RunScript<'_>,
    text: &[u8],
    most: usize,
    limit: usize,
    watch: &mut W,
) -> Result<FewerBlocks, TextsFault>
    requires fits { CanConfigure (contents_of script.now.head) }
    requires numbered { AreNumbered script.now.flags script.now.tasks }
    ensures { IfOk result (IsSearchedWithin (run_contents script.now) text.now most) }
{
    match searched_within(alloc, script, text, most, limit, watch) {
        Err(TextsFault::Memory) => Ok(FewerBlocks::Unknown),
        ending => ending,
    }
}

/// Returns an order with the same text that has the fewest blocks of all orders with this text. The searches for it
/// meet at most `limit` states in all. If they would meet more, a watch ends one, or memory is wanting, it returns the
/// order itself. Nothing is claimed of the turns of an order: replay them to see what they lead to.
///
/// # Errors
/// Those of a search, except `Memory`.
pub fn with_fewest_blocks<W: SearchWatch>(
    alloc: Global,
    script: &RunScript<'_>,
    order: FoundText,
    limit: usize,
    watch: &mut W,
) -> Result<FewestBlocks, TextsFault>
    requires fits { CanConfigure (contents_of script.now.head) }
    requires numbered { AreNumbered script.now.flags script.now.tasks }
    ensures text { IfOk result (λ r. r.order.text.items ≡ order.text.items) }
    ensures fewest { IfOk result (λ r. IsTrue r.is_fewest →
        HasFewestBlocks (run_contents script.now) order.text.items r.order.turns.items) }
{
    let blocks = blocks_in(order.turns.as_slice());
    let mut left = limit;
    for most in 0..blocks {
        match searched_in_memory(alloc, script, order.text.as_slice(), most, left, watch)? {
            FewerBlocks::Found(turns) => {
                let order = FoundText {
                    turns,
                    text: order.text,
                };
                return Ok(FewestBlocks {
                    order,
                    is_fewest: true,
                });
            }
            FewerBlocks::Nowhere(states) => left = left.saturating_sub(states),
            FewerBlocks::Unknown => {
                return Ok(FewestBlocks {
                    order,
                    is_fewest: false,
                });
            }
        }
    }
    Ok(FewestBlocks {
        order,
        is_fewest: true,
    })
}
