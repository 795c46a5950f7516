//! The answers to requests about a script with choices.
ghost use Rattle.std.specs.Prelude.{◌≡◌, ◌<◌, ℕ, List, All, IfOk, IfSome, Some, is_some, length, map, slice_get};
ghost use Rattle.std.specs.List.{position};
ghost use Rattle.std.specs.Option.{option_map};
ghost use Rattle.std.specs.Str.{bytes_eq};
ghost use Rattle.gt_explore_answers.specs.Exploring.{GivesTexts};
ghost use Rattle.gt_explore_answers.specs.Outputs.{found_from};
ghost use Rattle.gt_explore_choices.specs.Choices.{IsChoiceOf};
ghost use Rattle.gt_explore_by_choice.specs.Answering.{AnswersByChoices, DecidesByChoices, IsClaimByChoices};
ghost use Rattle.gt_explore_by_choice.specs.Answering.{IsVerdictByChoices, IsWitnessByChoice, NumbersByChoices};
ghost use Rattle.gt_explore_by_choice.specs.Possible.{AreTextsOfChoices};
ghost use Rattle.gt_explore_verdict.specs.Formulas.{operation_asked};
ghost use Rattle.gt_explore_verdict.specs.Judging.{verdict_at};
ghost use Rattle.gt_explore_verdict.specs.declared.judging.Claim.TheVariants.{Find};

use crate::listing::{counterexample_comment, place_shown, texts_output, verdict_shown};
use crate::scripts::script_of;
use gt_explore_answers::{
    ExploreOutput, ExploreRequest, FoundTexts, numbered, satisfied, verdict_of_all,
};
use gt_explore_choices::Choices;
use gt_explore_faults::TextsFault;
use gt_explore_search::FoundText;
use gt_explore_verdict::{Claim, Judgement, Operation, Verdict, judge, verdict_at};
use std::alloc::Global;

// Returns all texts that were found.
fn all_texts(alloc: Global, found: &FoundTexts) -> Result<ExploreOutput, TextsFault>
    ensures { IfOk result (λ made. GivesTexts (found_from found.now) made.text.items made.verdict) }
{
    let met = satisfied(alloc, &[], found.texts.as_slice())?;
    let text = texts_output(alloc, found, met.as_slice())?;
    let verdict = verdict_of_all(found.whole);
    Ok(ExploreOutput { text, verdict })
}

// Returns the order at this index.
fn order_at(orders: &[FoundText], at: usize) -> Option<&FoundText>
    ensures { option_map (λ o. o.now) result ≡ slice_get orders.now at }
{
    orders.get(at)
}

// Returns the text at this index, which shows that a claim does not hold, as a comment, and a script for `play` that
// gives it, or the line in its place.
fn counterexample(
    alloc: Global,
    choices: &Choices<'_>,
    found: &FoundTexts,
    at: usize,
) -> Result<Vec<u8>, TextsFault>
    ensures { (source : List ℕ) → All (IsChoiceOf source) choices.now → (verdict : Verdict) →
        IfOk result (λ out. IsVerdictByChoices source (found_from found.now) verdict (Some at) out.items) }
{
    let Some(order) = order_at(found.texts.as_slice(), at) else {
        return Err(TextsFault::Astray);
    };
    let Some(number) = at.checked_add(1) else {
        return Err(TextsFault::Astray);
    };
    let lines = script_of(alloc, choices, order)?;
    let mut out = counterexample_comment(alloc, found, number, order.text.as_slice())?;
    out.extend_from_slice(lines.as_slice())?;
    Ok(out)
}

// Returns the output for a verdict, by the index of the text that shows it.
fn verdict_output(
    alloc: Global,
    choices: &Choices<'_>,
    found: &FoundTexts,
    judgement: Judgement,
) -> Result<Vec<u8>, TextsFault>
    ensures { (source : List ℕ) → All (IsChoiceOf source) choices.now →
        IfOk result (λ out. IsVerdictByChoices source (found_from found.now) judgement.verdict judgement.shown_by
        out.items) }
{
    match judgement.shown_by {
        Some(at) => counterexample(alloc, choices, found, at),
        None => Ok(verdict_shown(alloc, found, judgement.verdict)?),
    }
}

// Returns the output for a claim, by whether each text satisfies the conditions, and by the judgement.
fn claim_output(
    alloc: Global,
    choices: &Choices<'_>,
    found: &FoundTexts,
    met: &[bool],
    claim: Claim,
    judgement: Judgement,
) -> Result<Vec<u8>, TextsFault>
    requires { length met.now ≡ length found.now.texts.items }
    ensures { (source : List ℕ) → All (IsChoiceOf source) choices.now →
        IfOk result (λ out. IsClaimByChoices source claim (found_from found.now) met.now judgement out.items) }
{
    match claim {
        Claim::Find => Ok(texts_output(alloc, found, met)?),
        Claim::Never => verdict_output(alloc, choices, found, judgement),
        Claim::Always => verdict_output(alloc, choices, found, judgement),
    }
}

// Returns the output for a claim on these conditions, and the verdict.
fn claim_made(
    alloc: Global,
    choices: &Choices<'_>,
    found: &FoundTexts,
    claim: Claim,
    conditions: &[Operation<'_>],
) -> Result<ExploreOutput, TextsFault>
    ensures { (source : List ℕ) → All (IsChoiceOf source) choices.now →
        AreTextsOfChoices source (found_from found.now) →
        IfOk result (λ made. DecidesByChoices source claim (map operation_asked conditions.now) (found_from found.now)
        made.text.items made.verdict) }
{
    let met = satisfied(alloc, conditions, found.texts.as_slice())?;
    let judgement = judge(claim, met.as_slice(), found.whole);
    let text = claim_output(alloc, choices, found, met.as_slice(), claim, judgement)?;
    let verdict = judgement.verdict;
    Ok(ExploreOutput { text, verdict })
}

// Returns the index of a text among those of these orders, if it is one of them.
fn text_place(orders: &[FoundText], text: &[u8]) -> Option<usize>
    ensures place { result ≡ position (λ o. bytes_eq o.text.items text.now) orders.now }
    ensures within { IfSome result (λ at. at < length orders.now) }
{
    orders
        .iter()
        .position(|order| order.text.as_slice() == text)
}

// Returns the verdict on a text, by its index among those that were found.
fn verdict_on(place: Option<usize>, whole: bool) -> Verdict
    ensures { result ≡ verdict_at Find (is_some place) whole }
{
    verdict_at(Claim::Find, place.is_some(), whole)
}

// Returns the number of this text, if it was found.
fn number_of(alloc: Global, found: &FoundTexts, given: &[u8]) -> Result<ExploreOutput, TextsFault>
    ensures { (source : List ℕ) → AreTextsOfChoices source (found_from found.now) →
        IfOk result (λ made. NumbersByChoices source given.now (found_from found.now) made.text.items made.verdict) }
{
    let place = text_place(found.texts.as_slice(), given);
    let verdict = verdict_on(place, found.whole);
    let text = place_shown(alloc, found, place)?;
    Ok(ExploreOutput { text, verdict })
}

// Returns a script for `play` that gives the text of this number, or the line in its place.
fn witness(
    alloc: Global,
    choices: &Choices<'_>,
    found: &FoundTexts,
    number: usize,
) -> Result<ExploreOutput, TextsFault>
    ensures { (source : List ℕ) → All (IsChoiceOf source) choices.now →
        IfOk result (λ made. IsWitnessByChoice source number (found_from found.now) made.text.items made.verdict) }
{
    let order = numbered(found, number)?;
    let text = script_of(alloc, choices, order)?;
    let verdict = verdict_of_all(found.whole);
    Ok(ExploreOutput { text, verdict })
}

/// Answers a request about a script with choices by the texts that were found.
///
/// # Errors
/// `Astray` if no text has the number of the witness, if an order does not lead to its text, or for scripts for `play`
/// for all texts, which have no answer for such a script; and `Memory`.
pub fn answer(
    alloc: Global,
    request: ExploreRequest<'_>,
    choices: &Choices<'_>,
    found: &FoundTexts,
    conditions: &[Operation<'_>],
) -> Result<ExploreOutput, TextsFault>
    ensures { (source : List ℕ) → All (IsChoiceOf source) choices.now →
        AreTextsOfChoices source (found_from found.now) →
        IfOk result (λ made. AnswersByChoices source request.entry (map operation_asked conditions.now)
        (found_from found.now) made.text.items made.verdict) }
{
    match request {
        ExploreRequest::Texts => all_texts(alloc, found),
        ExploreRequest::Decide { claim, .. } => {
            claim_made(alloc, choices, found, claim, conditions)
        }
        ExploreRequest::Has(text) => number_of(alloc, found, text),
        ExploreRequest::Witness(number) => witness(alloc, choices, found, number),
        ExploreRequest::Witnesses => Err(TextsFault::Astray),
    }
}
