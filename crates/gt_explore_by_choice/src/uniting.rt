//! The texts of all choices of a script.
ghost use Rattle.std.specs.Prelude.{◌≡◌, ℕ, List, All, IfErr, IfOk, Some, slice_get};
ghost use Rattle.gt_explore_answers.specs.Outputs.{found_from};
ghost use Rattle.gt_explore_answers.specs.Texts.{AreAscending, IsTextAmong, texts_of_orders};
ghost use Rattle.gt_explore_choices.specs.Choices.{IsOneOf, IsChoiceOf};
ghost use Rattle.gt_explore_search.specs.declared.exploring.FoundText.{FoundText};
ghost use Rattle.gt_explore_by_choice.specs.Gathering.{AreUnited, IsFaultAmong};

use crate::gathering::{Gathered, gather_all};
use gt_explore::{add_order, in_order};
use gt_explore_answers::FoundTexts;
use gt_explore_choices::Choices;
use gt_explore_faults::{ExploreFault, TextsFault};
use gt_explore_search::{FoundText, SearchWatch};
use std::alloc::Global;

// Returns one of these orders for each text that they have. The orders are in the order of the bytes of their texts.
fn sorted_once(alloc: Global, orders: Vec<FoundText>) -> Result<Vec<FoundText>, TextsFault>
    ensures among { IfOk result (λ texts.
        All (λ t. IsTextAmong t (texts_of_orders orders.items)) (texts_of_orders texts.items)) }
    ensures whole { (at : ℕ) (o : FoundText) → slice_get orders.items at ≡ Some o →
        IfOk result (λ texts. IsTextAmong o.text.items (texts_of_orders texts.items)) }
    ensures ascending { IfOk result (λ texts. AreAscending (texts_of_orders texts.items)) }
{
    let mut texts = Vec::new(alloc);
    'orders: for order in orders {
        add_order(&mut texts, order)?;
    }
    Ok(texts)
}

// Returns one of these orders for each text that they have, in the order of the bytes of their texts.
fn each_once(alloc: Global, orders: Vec<FoundText>) -> Result<Vec<FoundText>, TextsFault>
    ensures among { IfOk result (λ texts.
        All (λ t. IsTextAmong t (texts_of_orders orders.items)) (texts_of_orders texts.items)) }
    ensures whole { (text : List ℕ) → IsTextAmong text (texts_of_orders orders.items) →
        IfOk result (λ texts. IsTextAmong text (texts_of_orders texts.items)) }
    ensures ascending { IfOk result (λ texts. AreAscending (texts_of_orders texts.items)) }
{
    let sorted = in_order(orders)?;
    sorted_once(alloc, sorted)
}

/// The texts that a script with choices may give, and the number of choices in which a domain waits for ever.
#[derive(Drop)]
pub struct UnitedTexts {
    pub found: FoundTexts,
    pub waiting: usize,
}

// Returns the texts of choices, each once.
fn united(alloc: Global, all: Gathered) -> Result<UnitedTexts, TextsFault>
    ensures among { IfOk result (λ u.
        All (λ t. IsTextAmong t (texts_of_orders all.orders.items)) (texts_of_orders u.found.texts.items)) }
    ensures every { (text : List ℕ) → IsTextAmong text (texts_of_orders all.orders.items) →
        IfOk result (λ u. IsTextAmong text (texts_of_orders u.found.texts.items)) }
    ensures ascending { IfOk result (λ u. AreAscending (texts_of_orders u.found.texts.items)) }
    ensures whole { IfOk result (λ u. u.found.whole ≡ all.whole) }
    ensures waiting { IfOk result (λ u. u.waiting ≡ all.waiting) }
{
    let states = all.states;
    let whole = all.whole;
    let depth = all.depth;
    let waiting = all.waiting;
    let texts = each_once(alloc, all.orders)?;
    let found = FoundTexts {
        texts,
        states,
        whole,
        depth,
    };
    Ok(UnitedTexts { found, waiting })
}

/// Returns the texts that these choices of a script may give: all of them if the searches meet at most `limit` states
/// together and their watch ends none, and otherwise those that they found until then. `run` refuses a choice in which a
/// domain waits for ever. Such a choice gives no text, and is counted.
///
/// # Errors
/// `Play` with the first fault of a choice as a script; `Texts` with a fault of a search, or if an allocation failed.
pub fn texts_of_choices<T: SearchWatch>(
    alloc: Global,
    choices: &Choices<'_>,
    limit: usize,
    watch: &mut T,
) -> Result<UnitedTexts, ExploreFault>
    ensures ok { (source : List ℕ) → All (IsChoiceOf source) choices.now →
        ((text : List ℕ) → IsChoiceOf source text → IsOneOf text choices.now) →
        IfOk result (λ u. AreUnited source (found_from u.found) u.waiting) }
    ensures fault { IfErr result (IsFaultAmong choices.now) }
{
    let all = gather_all(alloc, choices, limit, watch)?;
    match united(alloc, all) {
        Ok(texts) => Ok(texts),
        Err(fault) => Err(ExploreFault::Texts(fault)),
    }
}
