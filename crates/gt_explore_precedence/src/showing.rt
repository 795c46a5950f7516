//! What is printed of a claim about orders.
ghost use Rattle.std.specs.Prelude.{◌≡◌, ◌+◌, IfOk, length};
ghost use Rattle.gt_explore_answers.specs.Outputs.{found_from, texts_output};
ghost use Rattle.gt_explore_precedence.specs.Showing.{IsCounterexample, IsObjectOutput, IsOrderOutput};
ghost use Rattle.gt_explore_precedence.specs.Showing.{IsShownObject, IsTextOutput, IsVerdictShown, orders_found};

use gt_explore_answers::{
    ExploreFormat, FoundTexts, numbered, push_counterexample, push_found_texts, push_summary,
    push_text_object, push_verdict,
};
use gt_explore_faults::TextsFault;
use gt_explore_ordered::OrderedFound;
use gt_explore_search::FoundText;
use gt_explore_verdict::{Claim, Judgement};
use std::alloc::{AllocError, Global};

/// A claim that was judged, and how it is printed: `states` is the largest number of states that the search might meet.
#[derive(Clone, Copy)]
pub struct ShownClaim {
    pub claim: Claim,
    pub judgement: Judgement,
    pub states: usize,
    pub format: ExploreFormat,
}

/// Returns the texts of orders without their precedences.
pub fn texts_of_found(alloc: Global, found: OrderedFound) -> Result<FoundTexts, AllocError>
    ensures { IfOk result (λ made. found_from made ≡ orders_found found) }
{
    let mut texts = Vec::new(alloc);
    'orders: for order in found.texts {
        texts.push(FoundText {
            turns: order.turns,
            text: order.text,
        })?;
    }
    Ok(FoundTexts {
        texts,
        states: found.states,
        whole: found.whole,
        depth: found.depth,
    })
}

// Returns the number of the text at this index.
fn number_at(at: usize) -> Result<usize, TextsFault>
    ensures { IfOk result (λ number. number ≡ at + 1) }
{
    match at.checked_add(1) {
        Some(number) => Ok(number),
        None => Err(TextsFault::Astray),
    }
}

// Returns the text at this index as a comment: it shows that a claim does not hold.
fn counterexample(alloc: Global, found: &FoundTexts, at: usize) -> Result<Vec<u8>, TextsFault>
    ensures { IfOk result (λ text. IsCounterexample (found_from found.now) at text.items) }
{
    let number = number_at(at)?;
    let order = numbered(found, number)?;
    let mut text = Vec::new(alloc);
    push_counterexample(alloc, &mut text, found, number, order.text.as_slice())?;
    Ok(text)
}

// Returns the verdict, or the text that shows that a claim does not hold, as a comment.
fn verdict_output(
    alloc: Global,
    found: &FoundTexts,
    judgement: Judgement,
) -> Result<Vec<u8>, TextsFault>
    ensures { IfOk result (λ text. IsVerdictShown (found_from found.now) judgement.verdict judgement.shown_by
        text.items) }
{
    match judgement.shown_by {
        Some(at) => counterexample(alloc, found, at),
        None => {
            let mut text = Vec::new(alloc);
            push_verdict(&mut text, found, judgement.verdict)?;
            Ok(text)
        }
    }
}

// Returns the texts that satisfy a claim.
fn texts_output(alloc: Global, found: &FoundTexts, met: &[bool]) -> Result<Vec<u8>, TextsFault>
    requires { length met.now ≡ length found.now.texts.items }
    ensures { IfOk result (λ text. text.items ≡ texts_output (found_from found.now) met.now) }
{
    let mut text = Vec::new(alloc);
    push_found_texts(&mut text, found, met)?;
    Ok(text)
}

// Returns the output for a claim in lines.
fn output_in_text(
    alloc: Global,
    shown: &ShownClaim,
    found: &FoundTexts,
    met: &[bool],
) -> Result<Vec<u8>, TextsFault>
    requires { length met.now ≡ length found.now.texts.items }
    ensures { IfOk result (λ text. IsTextOutput shown.now.claim (found_from found.now) met.now shown.now.judgement
        text.items) }
{
    match shown.claim {
        Claim::Find => texts_output(alloc, found, met),
        Claim::Never => verdict_output(alloc, found, shown.judgement),
        Claim::Always => verdict_output(alloc, found, shown.judgement),
    }
}

// Returns the object of the text that shows the verdict, if one does.
fn shown_object(
    alloc: Global,
    found: &FoundTexts,
    shown_by: Option<usize>,
) -> Result<Vec<u8>, TextsFault>
    ensures { IfOk result (λ text. IsShownObject (found_from found.now) shown_by text.items) }
{
    let mut object = Vec::new(alloc);
    let Some(at) = shown_by else {
        return Ok(object);
    };
    let number = number_at(at)?;
    let order = numbered(found, number)?;
    push_text_object(alloc, &mut object, found, number, order.text.as_slice())?;
    Ok(object)
}

// Returns the output for a claim in objects.
fn output_in_objects(
    alloc: Global,
    shown: &ShownClaim,
    found: &FoundTexts,
) -> Result<Vec<u8>, TextsFault>
    ensures { IfOk result (λ text. IsObjectOutput shown.now.states (found_from found.now) shown.now.judgement
        text.items) }
{
    let mut text = shown_object(alloc, found, shown.judgement.shown_by)?;
    push_summary(&mut text, found, shown.states, shown.judgement.verdict)?;
    Ok(text)
}

/// Returns what is printed of a claim about orders, by the texts found and whether the order of each satisfies its
/// expression.
///
/// # Errors
/// `Astray` if no text has the index that the judgement names, and `Memory`.
pub fn order_output(
    alloc: Global,
    shown: &ShownClaim,
    found: &FoundTexts,
    met: &[bool],
) -> Result<Vec<u8>, TextsFault>
    requires { length met.now ≡ length found.now.texts.items }
    ensures { IfOk result (λ text. IsOrderOutput shown.now (found_from found.now) met.now text.items) }
{
    match shown.format {
        ExploreFormat::Text => output_in_text(alloc, shown, found, met),
        ExploreFormat::Json => output_in_objects(alloc, shown, found),
    }
}
