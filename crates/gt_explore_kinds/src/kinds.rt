//! The search for a text of each kind.
ghost use Rattle.std.specs.Prelude.{◌≡◌, All, IfOk, map};
ghost use Rattle.gt_explore_replay.specs.Orders.{MayGive};
ghost use Rattle.gt_script.specs.Contents.{contents_of};
ghost use Rattle.gt_script.specs.RunContents.{run_contents};
ghost use Rattle.gt_script.specs.RunScripts.{CanConfigure};
ghost use Rattle.gt_script.specs.Stuck.{AreNumbered};
ghost use Rattle.gt_explore_kinds.specs.Kinds.{HasEachKind, formulas_asked, order_text};
ghost use Rattle.gt_explore_kinds.specs.Marks.{all_operations, text_marks};

use crate::marks::text_marks;
use crate::space::KindSpace;
use gt_explore_faults::TextsFault;
use gt_explore_moves::SearchContext;
use gt_explore_replay::{every_order_has_turns, text_of};
use gt_explore_search::{FoundText, SearchWatch, search_within};
use gt_explore_verdict::Operation;
use gt_script::RunScript;
use std::alloc::Global;

/// Texts that a script may give, each with turns that lead to it, and the number of states that the search met.
/// `whole`: they have one of each kind. If not, the search met more states than its limit, or its watch ended it, and
/// `depth` is the number of states on the way to the last of them.
#[derive(Drop)]
pub struct KindsFound {
    pub texts: Vec<FoundText>,
    pub states: usize,
    pub whole: bool,
    pub depth: usize,
}

// Makes the turns of an order again on the core. Returns them with their text in place of its marks.
fn replayed(
    alloc: Global,
    script: &RunScript,
    expressions: &[Vec<Operation<'_>>],
    order: FoundText,
) -> Result<FoundText, TextsFault>
    requires { CanConfigure (contents_of script.now.head) }
    ensures possible { IfOk result (λ o. MayGive (run_contents script.now) o.text.items) }
    ensures marks { IfOk result (λ o. text_marks (all_operations expressions.now) o.text.items ≡ order.text.items) }
{
    let turns = order.turns;
    let Some(text) = text_of(alloc, script, turns.as_slice())? else {
        return Err(TextsFault::Astray);
    };
    let marks = text_marks(alloc, expressions, text.as_slice())?;
    if marks.as_slice() != order.text.as_slice() {
        return Err(TextsFault::Astray);
    }
    Ok(FoundText { turns, text })
}

// Does the same with each of these orders.
fn all_replayed(
    alloc: Global,
    script: &RunScript,
    expressions: &[Vec<Operation<'_>>],
    orders: Vec<FoundText>,
) -> Result<Vec<FoundText>, TextsFault>
    requires { CanConfigure (contents_of script.now.head) }
    ensures possible { IfOk result (λ texts. All (MayGive (run_contents script.now)) (map order_text texts.items)) }
    ensures marks { IfOk result (λ texts. map (text_marks (all_operations expressions.now)) (map order_text texts.items)
        ≡ map order_text orders.items) }
{
    let mut texts = Vec::new(alloc);
    'orders: for order in orders {
        let made = replayed(alloc, script, expressions, order)?;
        texts.push(made)?;
    }
    Ok(texts)
}

/// Returns texts that a script may give: at least one of each kind, if the search meets at most `limit` states and its
/// watch does not end it. Otherwise they are those found until then. Two texts are of one kind if they satisfy the same
/// ones of these expressions.
///
/// # Errors
/// `Astray` if the core does not follow the turns that were found to a text that meets the same terms, or if a run
/// returned to a state; `States` if the search has too many states to number, or if a term after the first 256
/// operations is met; and `Memory`.
pub fn kinds_within<T: SearchWatch>(
    alloc: Global,
    script: &RunScript,
    expressions: &[Vec<Operation<'_>>],
    limit: usize,
    watch: &mut T,
) -> Result<KindsFound, TextsFault>
    requires fits { CanConfigure (contents_of script.now.head) }
    requires numbered { AreNumbered script.now.flags script.now.tasks }
    ensures { IfOk result (HasEachKind (run_contents script.now) (formulas_asked expressions.now)) }
{
    every_order_has_turns();
    let scene = SearchContext::new(alloc, script)?;
    let space = KindSpace { scene, expressions };
    let partial = search_within(alloc, &space, limit, watch)?;
    let whole = partial.whole;
    let depth = partial.depth;
    let states = partial.found.states;
    let texts = all_replayed(alloc, script, expressions, partial.found.orders)?;
    Ok(KindsFound {
        texts,
        states,
        whole,
        depth,
    })
}
