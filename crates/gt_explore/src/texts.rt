//! The texts that a script may give.
ghost use Rattle.std.specs.Prelude.{◌≡◌, ℕ, Some, slice_get, All, IfOk, OnOk};
ghost use Rattle.std.specs.List.Sorted.{IsPermutation};
ghost use Rattle.gt_script.specs.Contents.{contents_of};
ghost use Rattle.gt_script.specs.RunContents.{run_contents};
ghost use Rattle.gt_script.specs.RunScripts.{CanConfigure};
ghost use Rattle.gt_script.specs.Stuck.{AreNumbered};
ghost use Rattle.gt_explore_replay.specs.Orders.{MayGive};
ghost use Rattle.gt_explore_search.specs.declared.exploring.FoundText.{FoundText};
ghost use Rattle.gt_explore.specs.Adding.{AddsOrder, last_compared};
ghost use Rattle.gt_explore_answers.specs.Texts.{AreAscending, IsTextAmong, texts_of_orders};
ghost use Rattle.gt_explore_answers.specs.Exploring.{AreTextsOf};
ghost use Rattle.gt_explore_answers.specs.Outputs.{found_from};

use gt_explore_answers::FoundTexts;
use gt_explore_faults::TextsFault;
use gt_explore_moves::search_within;
use gt_explore_replay::text_of;
use gt_explore_search::{FoundText, SearchWatch};
use gt_script::RunScript;
use std::alloc::{AllocError, Global};
use std::cmp::Ordering;

// The bytes of a block that is freed before the first replay. The C library then keeps freed memory up to twice as much,
// so that the core of a replay takes the memory of the one before it, and no page is asked of the system again.
const FREED_BLOCK: usize = 16 * 1024 * 1024;

// Frees a block of that size, if it can be had. No byte of it is written.
fn keep_freed_memory(alloc: Global) {
    let block: Result<Vec<u8>, AllocError> = Vec::with_capacity(alloc, FREED_BLOCK);
    drop(block);
}

// Compares the last of these texts with a text. If there is none, the result is `Less`.
fn last_compared(texts: &[FoundText], text: &[u8]) -> Ordering
    ensures { result ≡ last_compared (texts_of_orders texts.now) text.now }
{
    match texts.len().checked_sub(1) {
        Some(at) => texts[at].text.as_slice().cmp(text),
        None => Ordering::Less,
    }
}

/// Adds an order whose text comes after all others, unless its text is the last.
///
/// # Errors
/// `Astray` if its text comes before the last, and `Memory`.
pub fn add_order(texts: &mut Vec<FoundText>, order: FoundText) -> Result<(), TextsFault>
    ensures { OnOk result (AddsOrder texts.old.items order texts.new.items) }
{
    match last_compared(texts.as_slice(), order.text.as_slice()) {
        Ordering::Less => {
            texts.push(order)?;
            Ok(())
        }
        Ordering::Equal => Ok(()),
        Ordering::Greater => Err(TextsFault::Astray),
    }
}

// Returns the order, if the core follows it to its text.
fn replayed(alloc: Global, script: &RunScript, order: FoundText) -> Result<FoundText, TextsFault>
    requires { CanConfigure (contents_of script.now.head) }
    ensures same { IfOk result (λ o. o ≡ order) }
    ensures possible { IfOk result (λ o. MayGive (run_contents script.now) o.text.items) }
{
    let Some(text) = text_of(alloc, script, order.turns.as_slice())? else {
        return Err(TextsFault::Astray);
    };
    if order.text.as_slice() != text.as_slice() {
        return Err(TextsFault::Astray);
    }
    Ok(order)
}

/// Sorts orders by the bytes of their texts.
///
/// # Errors
/// An allocation failed.
pub fn in_order(mut orders: Vec<FoundText>) -> Result<Vec<FoundText>, AllocError>
    ensures { IfOk result (λ sorted. IsPermutation orders.items sorted.items) }
{
    orders.sort_by(|one, other| one.text.as_slice().cmp(other.text.as_slice()))?;
    Ok(orders)
}

// Returns one order for each text that these orders have. They are in the order of the bytes of their texts.
fn distinct(
    alloc: Global,
    script: &RunScript,
    orders: Vec<FoundText>,
) -> Result<Vec<FoundText>, TextsFault>
    requires { CanConfigure (contents_of script.now.head) }
    ensures possible { IfOk result (λ texts. All (MayGive (run_contents script.now)) (texts_of_orders texts.items)) }
    ensures whole { (at : ℕ) (o : FoundText) → slice_get orders.items at ≡ Some o →
        IfOk result (λ texts. IsTextAmong o.text.items (texts_of_orders texts.items)) }
    ensures ascending { IfOk result (λ texts. AreAscending (texts_of_orders texts.items)) }
{
    let mut texts = Vec::new(alloc);
    'orders: for order in orders {
        add_order(&mut texts, replayed(alloc, script, order)?)?;
    }
    Ok(texts)
}

// Returns texts that a script may give: all of them if the search meets at most `limit` states and its watch does not
// end it, and otherwise those that it found until then.
fn texts_within<T: SearchWatch>(
    alloc: Global,
    script: &RunScript,
    limit: usize,
    watch: &mut T,
) -> Result<FoundTexts, TextsFault>
    requires fits { CanConfigure (contents_of script.now.head) }
    requires numbered { AreNumbered script.now.flags script.now.tasks }
    ensures { IfOk result (λ all. AreTextsOf (run_contents script.now) (found_from all)) }
{
    let partial = search_within(alloc, script, limit, watch)?;
    let whole = partial.whole;
    let depth = partial.depth;
    let states = partial.found.states;
    let orders = in_order(partial.found.orders)?;
    keep_freed_memory(alloc);
    let texts = distinct(alloc, script, orders)?;
    Ok(FoundTexts {
        texts,
        states,
        whole,
        depth,
    })
}

// The watch of a search that keeps the number of states met.
#[derive(Drop)]
struct CountingWatch<'w, T> {
    watch: &'w mut T,
    states: usize,
}

impl<T: SearchWatch> SearchWatch for CountingWatch<'_, T> {
    fn ends(&mut self, states: usize) -> bool {
        self.states = states;
        self.watch.ends(states)
    }
}

/// Returns texts that a script may give, in the order of their bytes: all of them if the search meets at most `limit`
/// states and its watch does not end it, and otherwise those that it found until then. Want of memory ends a search as
/// its limit does: the texts are then those of a search with a limit of half the states met.
///
/// # Errors
/// `Astray` if the search found an order that the core does not follow to its text, or a run that returned to a state;
/// `States` if the search has too many states to number; and `Memory` if even a search of one state lacks memory.
pub fn texts_found<T: SearchWatch>(
    alloc: Global,
    script: &RunScript,
    limit: usize,
    watch: &mut T,
) -> Result<FoundTexts, TextsFault>
    requires fits { CanConfigure (contents_of script.now.head) }
    requires numbered { AreNumbered script.now.flags script.now.tasks }
    ensures { IfOk result (λ all. AreTextsOf (run_contents script.now) (found_from all)) }
{
    let mut counting = CountingWatch { watch, states: 0 };
    let mut limit = limit;
    for _ in 0..usize::BITS {
        match texts_within(alloc, script, limit, &mut counting) {
            Err(TextsFault::Memory) => limit = counting.states / 2,
            ending => return ending,
        }
    }
    Err(TextsFault::Memory)
}
