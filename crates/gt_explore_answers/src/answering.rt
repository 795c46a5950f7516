//! The answer to a request about a script: the output and the verdict.
ghost use Rattle.std.specs.Prelude.{◌≡◌, ◌++◌, ◌<◌, ℕ, List, [], IfOk, IfSome, OnOk, Some, is_some, length, map, slice_get};
ghost use Rattle.std.specs.List.{position};
ghost use Rattle.std.specs.Option.{option_map};
ghost use Rattle.std.specs.Str.{bytes_eq};
ghost use Rattle.gt_script.specs.Contents.{contents_of};
ghost use Rattle.gt_script.specs.RunContents.{RunContents, run_contents};
ghost use Rattle.gt_script.specs.RunScripts.{CanConfigure};
ghost use Rattle.gt_explore_verdict.specs.Formulas.{operation_asked};
ghost use Rattle.gt_explore_answers.specs.Texts.{texts_of_orders};
ghost use Rattle.gt_explore_verdict.specs.Judging.{verdict_at};
ghost use Rattle.gt_explore_verdict.specs.declared.judging.Claim.TheVariants.{Find};
ghost use Rattle.gt_explore_verdict.specs.declared.judging.Verdict.{Verdict};
ghost use Rattle.gt_explore_answers.specs.Exploring.{AreTextsOf, DecidesClaim, GivesTexts};
ghost use Rattle.gt_explore_answers.specs.Exploring.{GivesWitness, GivesWitnesses, NumbersText};
ghost use Rattle.gt_explore_answers.specs.Exploring.{IsOutputBy, IsClaimOutputBy, IsVerdictOutput, AreWitnessOutputs};
ghost use Rattle.gt_explore_answers.specs.Exploring.{verdict_of_all};
ghost use Rattle.gt_explore_answers.specs.Outputs.{found_from, texts_output};
ghost use Rattle.gt_explore_answers.specs.Witness.{IsUnplayableOutput, ShowsAfter};

use crate::asking::ExploreRequest;
use crate::conditions::satisfied;
use crate::found::{FoundTexts, numbered};
use crate::outputs::{
    push_counterexample, push_found_texts, push_place, push_unplayable, push_verdict,
    push_witness_comment,
};
use gt_explore_faults::TextsFault;
use gt_explore_search::FoundText;
use gt_explore_verdict::{Claim, Judgement, Operation, Verdict, judge, verdict_at};
use gt_explore_witness::{gives_answers, may_not_unmap, witness_of};
use gt_script::RunScript;
use gt_text::text_of;
use gt_types::DomId;
use std::alloc::Global;

/// The output of a request, and the verdict.
#[derive(Drop)]
pub struct ExploreOutput {
    pub text: Vec<u8>,
    pub verdict: Verdict,
}

/// Returns the verdict on a request that decides nothing: `Holds` if all texts were found, and otherwise `Undecided`.
pub fn verdict_of_all(whole: bool) -> Verdict
    ensures { result ≡ verdict_of_all whole }
{
    if whole {
        Verdict::Holds
    } else {
        Verdict::Undecided
    }
}

// Returns the output for the texts that satisfy these conditions.
fn texts_output(alloc: Global, found: &FoundTexts, met: &[bool]) -> Result<Vec<u8>, TextsFault>
    requires { length met.now ≡ length found.now.texts.items }
    ensures { IfOk result (λ text. text.items ≡ texts_output (found_from found.now) met.now) }
{
    let mut text = Vec::new(alloc);
    push_found_texts(&mut text, found, met)?;
    Ok(text)
}

// Returns this comment, and the line in place of a script for `play` that was not found: this domain leaves with a
// mapping that the policy does not let it unmap, and `play` has no line for that.
fn without_script(
    alloc: Global,
    script: &RunScript,
    comment: &[u8],
    dom: DomId,
) -> Result<Vec<u8>, TextsFault>
    ensures { IfOk result (λ text. (lines : List ℕ) × (text.items ≡ comment.now ++ lines)
        × IsUnplayableOutput (contents_of script.now.head) lines) }
{
    if !may_not_unmap(alloc, script.head(), dom)? {
        return Err(TextsFault::Astray);
    }
    let mut text = Vec::from_slice(alloc, comment)?;
    push_unplayable(&mut text, dom)?;
    Ok(text)
}

// Returns this comment, and a script for `play` that gives the text of an order: it was played, and gave it. If the
// script does not give the text, and a domain leaves with a mapping that it may not unmap, a line takes its place.
fn script_after(
    alloc: Global,
    source: &[u8],
    script: &RunScript,
    order: &FoundText,
    comment: &[u8],
) -> Result<Vec<u8>, TextsFault>
    requires { CanConfigure (contents_of script.now.head) }
    ensures { IfOk result (λ text.
        ShowsAfter (contents_of script.now.head) comment.now text.items order.now.text.items) }
{
    let Ok(source) = text_of(source) else {
        return Err(TextsFault::Astray);
    };
    let witness = witness_of(alloc, source, script, order.turns.as_slice())?;
    let mut text = Vec::from_slice(alloc, comment)?;
    text.extend_from_slice(witness.lines.as_slice())?;
    let domains = script.head().domains();
    if gives_answers(alloc, domains, text.as_slice(), order.text.as_slice())? {
        return Ok(text);
    }
    match witness.keeps {
        Some(dom) => without_script(alloc, script, comment, dom),
        None => Err(TextsFault::Astray),
    }
}

/// Returns a script for `play` that gives the text of an order, or the line in its place.
///
/// # Errors
/// `Astray` if the script does not give the text and no domain leaves with a mapping that it may not unmap, and
/// `Memory`.
pub fn script_of(
    alloc: Global,
    source: &[u8],
    script: &RunScript,
    order: &FoundText,
) -> Result<Vec<u8>, TextsFault>
    requires { CanConfigure (contents_of script.now.head) }
    ensures { IfOk result (λ text.
        ShowsAfter (contents_of script.now.head) [] text.items order.now.text.items) }
{
    script_after(alloc, source, script, order, &[])
}

// Returns the order at this index.
fn order_at(orders: &[FoundText], at: usize) -> Option<&FoundText>
    ensures { option_map (λ o. o.now) result ≡ slice_get orders.now at }
{
    orders.get(at)
}

// Returns the text at this index, which shows that a claim does not hold, as a comment, and a script for `play` that
// gives it, or the line in its place.
fn counterexample(
    alloc: Global,
    source: &[u8],
    script: &RunScript,
    found: &FoundTexts,
    at: usize,
) -> Result<Vec<u8>, TextsFault>
    requires { CanConfigure (contents_of script.now.head) }
    ensures { IfOk result (λ text. (verdict : Verdict) →
        IsVerdictOutput (run_contents script.now) (found_from found.now) verdict (Some at) text.items) }
{
    let Some(order) = order_at(found.texts.as_slice(), at) else {
        return Err(TextsFault::Astray);
    };
    let Some(number) = at.checked_add(1) else {
        return Err(TextsFault::Astray);
    };
    let mut comment = Vec::new(alloc);
    push_counterexample(alloc, &mut comment, found, number, order.text.as_slice())?;
    script_after(alloc, source, script, order, comment.as_slice())
}

// Returns the output for a verdict, by the index of the text that shows it.
fn verdict_output(
    alloc: Global,
    source: &[u8],
    script: &RunScript,
    found: &FoundTexts,
    judgement: Judgement,
) -> Result<Vec<u8>, TextsFault>
    requires { CanConfigure (contents_of script.now.head) }
    ensures { IfOk result (λ text. IsVerdictOutput (run_contents script.now) (found_from found.now)
        judgement.verdict judgement.shown_by text.items) }
{
    match judgement.shown_by {
        Some(at) => counterexample(alloc, source, script, found, at),
        None => {
            let mut text = Vec::new(alloc);
            push_verdict(&mut text, found, judgement.verdict)?;
            Ok(text)
        }
    }
}

// A claim, and the judgement of the texts that were found.
#[derive(Drop)]
struct JudgedClaim {
    claim: Claim,
    judgement: Judgement,
}

// Returns the output for a claim, by whether each text satisfies the conditions, and by the judgement.
fn claim_output(
    alloc: Global,
    source: &[u8],
    script: &RunScript,
    found: &FoundTexts,
    met: &[bool],
    claimed: JudgedClaim,
) -> Result<Vec<u8>, TextsFault>
    requires fits { CanConfigure (contents_of script.now.head) }
    requires many { length met.now ≡ length found.now.texts.items }
    ensures { IfOk result (λ text. IsClaimOutputBy (run_contents script.now) claimed.claim (found_from found.now)
        met.now claimed.judgement text.items) }
{
    match claimed.claim {
        Claim::Find => texts_output(alloc, found, met),
        Claim::Never => verdict_output(alloc, source, script, found, claimed.judgement),
        Claim::Always => verdict_output(alloc, source, script, found, claimed.judgement),
    }
}

// Returns the output for a claim on these conditions, and the verdict.
fn claim_made(
    alloc: Global,
    source: &[u8],
    script: &RunScript,
    found: &FoundTexts,
    claim: Claim,
    conditions: &[Operation<'_>],
) -> Result<ExploreOutput, TextsFault>
    requires fits { CanConfigure (contents_of script.now.head) }
    requires texts { AreTextsOf (run_contents script.now) (found_from found.now) }
    ensures { IfOk result (λ made. DecidesClaim (run_contents script.now) claim (map operation_asked conditions.now)
        (found_from found.now) made.text.items made.verdict) }
{
    let met = satisfied(alloc, conditions, found.texts.as_slice())?;
    let judgement = judge(claim, met.as_slice(), found.whole);
    let claimed = JudgedClaim { claim, judgement };
    let text = claim_output(alloc, source, script, found, met.as_slice(), claimed)?;
    let verdict = judgement.verdict;
    Ok(ExploreOutput { text, verdict })
}

// Returns all texts that were found.
fn all_texts(alloc: Global, found: &FoundTexts) -> Result<ExploreOutput, TextsFault>
    ensures { IfOk result (λ made. GivesTexts (found_from found.now) made.text.items made.verdict) }
{
    let met = satisfied(alloc, &[], found.texts.as_slice())?;
    let text = texts_output(alloc, found, met.as_slice())?;
    let verdict = verdict_of_all(found.whole);
    Ok(ExploreOutput { text, verdict })
}

/// Returns the index of a text among those of these orders, if it is one of them.
pub fn text_place(orders: &[FoundText], text: &[u8]) -> Option<usize>
    ensures place { result ≡ position (λ o. bytes_eq o.text.items text.now) orders.now }
    ensures within { IfSome result (λ at. at < length orders.now) }
{
    orders
        .iter()
        .position(|order| order.text.as_slice() == text)
}

/// Returns the verdict on a text, by its index among those that were found.
pub fn verdict_on(place: Option<usize>, whole: bool) -> Verdict
    ensures { result ≡ verdict_at Find (is_some place) whole }
{
    verdict_at(Claim::Find, place.is_some(), whole)
}

// Returns the number of this text, if it was found.
fn number_of(alloc: Global, found: &FoundTexts, given: &[u8]) -> Result<ExploreOutput, TextsFault>
    ensures { (c : RunContents) → AreTextsOf c (found_from found.now) →
        IfOk result (λ made. NumbersText c given.now (found_from found.now) made.text.items made.verdict) }
{
    let place = text_place(found.texts.as_slice(), given);
    let verdict = verdict_on(place, found.whole);
    let mut text = Vec::new(alloc);
    push_place(&mut text, found, place)?;
    Ok(ExploreOutput { text, verdict })
}

// Returns a script for `play` that gives the text of this number, or the line in its place.
fn witness(
    alloc: Global,
    source: &[u8],
    script: &RunScript,
    found: &FoundTexts,
    number: usize,
) -> Result<ExploreOutput, TextsFault>
    requires { CanConfigure (contents_of script.now.head) }
    ensures { IfOk result (λ made. GivesWitness (run_contents script.now) number (found_from found.now) made.text.items
        made.verdict) }
{
    let order = numbered(found, number)?;
    let text = script_of(alloc, source, script, order)?;
    let verdict = verdict_of_all(found.whole);
    Ok(ExploreOutput { text, verdict })
}

// Appends a script for `play` for each of these texts.
fn push_witnesses(
    alloc: Global,
    out: &mut Vec<u8>,
    source: &[u8],
    script: &RunScript,
    found: &FoundTexts,
) -> Result<(), TextsFault>
    requires { CanConfigure (contents_of script.now.head) }
    ensures { OnOk result ((more : List ℕ) × (out.new.items ≡ out.old.items ++ more)
        × AreWitnessOutputs (run_contents script.now) (found_from found.now) 0
        (texts_of_orders found.now.texts.items) more) }
{
    let mut number = 0;
    let orders = found.texts.as_slice();
    'orders: for order in orders {
        number += 1;
        push_witness_comment(alloc, out, found, number)?;
        let text = script_of(alloc, source, script, order)?;
        out.extend_from_slice(text.as_slice())?;
    }
    Ok(())
}

// Returns a script for `play` for each text.
fn witnesses(
    alloc: Global,
    source: &[u8],
    script: &RunScript,
    found: &FoundTexts,
) -> Result<ExploreOutput, TextsFault>
    requires { CanConfigure (contents_of script.now.head) }
    ensures { IfOk result (λ made. GivesWitnesses (run_contents script.now) (found_from found.now) made.text.items
        made.verdict) }
{
    let mut text = Vec::new(alloc);
    push_witnesses(alloc, &mut text, source, script, found)?;
    let verdict = verdict_of_all(found.whole);
    Ok(ExploreOutput { text, verdict })
}

/// Answers a request about a script by the texts that were found. A claim is one on these conditions.
///
/// # Errors
/// `Astray` if no text has the number of the witness, or if a witness does not give its text; and `Memory`.
pub fn answer_in_text(
    alloc: Global,
    request: ExploreRequest<'_>,
    source: &[u8],
    script: &RunScript,
    found: &FoundTexts,
    conditions: &[Operation<'_>],
) -> Result<ExploreOutput, TextsFault>
    requires fits { CanConfigure (contents_of script.now.head) }
    requires texts { AreTextsOf (run_contents script.now) (found_from found.now) }
    ensures { IfOk result (λ made. IsOutputBy (run_contents script.now) request.entry
        (map operation_asked conditions.now) (found_from found.now) made.text.items made.verdict) }
{
    match request {
        ExploreRequest::Texts => all_texts(alloc, found),
        ExploreRequest::Decide { claim, .. } => {
            claim_made(alloc, source, script, found, claim, conditions)
        }
        ExploreRequest::Has(text) => number_of(alloc, found, text),
        ExploreRequest::Witness(number) => witness(alloc, source, script, found, number),
        ExploreRequest::Witnesses => witnesses(alloc, source, script, found),
    }
}
