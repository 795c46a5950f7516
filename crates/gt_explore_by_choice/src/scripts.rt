//! Scripts for `play` that give a text of a script with choices.
ghost use Rattle.std.specs.Prelude.{◌≡◌, ℕ, List, [], ◌∷◌, All, IfOk, IfSome, Ok, false, true};
ghost use Rattle.gt_explore_answers.specs.Witness.{ShowsAfter};
ghost use Rattle.gt_explore_choices.specs.Choices.{IsChoiceOf};
ghost use Rattle.gt_explore_by_choice.specs.Answering.{ShowsByChoice};
ghost use Rattle.gt_explore_answers.specs.Texts.{texts_of_orders};
ghost use Rattle.gt_explore_replay.specs.Orders.{MayGive};
ghost use Rattle.gt_script.specs.Contents.{contents_of};
ghost use Rattle.gt_script.specs.RunContents.{RunContents, run_contents};
ghost use Rattle.gt_script.specs.RunScripts.{CanConfigure, ReadsAsRun};

use gt_explore_answers::{
    ExploreFormat, ExploreOptions, ExploreRequest, FoundTexts, answer_request,
};
use gt_explore_choices::Choices;
use gt_explore_faults::TextsFault;
use gt_explore_replay::text_of;
use gt_explore_search::FoundText;
use gt_script::{RunScript, ScriptError, parse_run};
use std::alloc::{AllocError, Global};

// Returns an order alone, as one of several texts.
fn alone(alloc: Global, order: &FoundText) -> Result<FoundTexts, AllocError>
    ensures text { IfOk result (λ one. texts_of_orders one.texts.items ≡ order.now.text.items ∷ []) }
    ensures whole { IfOk result (λ one. one.whole ≡ false) }
{
    let turns = Vec::from_slice(alloc, order.turns.as_slice())?;
    let text = Vec::from_slice(alloc, order.text.as_slice())?;
    let mut texts = Vec::new(alloc);
    texts.push(FoundText { turns, text })?;
    Ok(FoundTexts {
        texts,
        states: 0,
        whole: false,
        depth: 0,
    })
}

// Returns whether a script follows an order to its text.
fn follows(alloc: Global, script: &RunScript, order: &FoundText) -> Result<bool, TextsFault>
    requires { CanConfigure (contents_of script.now.head) }
    ensures { IfOk result (λ b. b ≡ true → MayGive (run_contents script.now) order.now.text.items) }
{
    match text_of(alloc, script, order.turns.as_slice())? {
        Some(text) => Ok(text.as_slice() == order.text.as_slice()),
        None => Ok(false),
    }
}

// Returns a script for `play` that gives the text of an order of a script, or the line in its place.
fn script_for(
    alloc: Global,
    choice: &[u8],
    script: &RunScript,
    order: &FoundText,
) -> Result<Vec<u8>, TextsFault>
    requires fits { CanConfigure (contents_of script.now.head) }
    requires may { MayGive (run_contents script.now) order.now.text.items }
    ensures { IfOk result (λ lines.
        ShowsAfter (contents_of script.now.head) [] lines.items order.now.text.items) }
{
    let one = alone(alloc, order)?;
    let asked = ExploreOptions {
        request: ExploreRequest::Witness(1),
        states: 0,
        format: ExploreFormat::Text,
    };
    let made = answer_request(alloc, &asked, choice, script, &one, &[])?;
    Ok(made.text)
}

// Returns such a script, if this choice is a script that follows the order to its text.
fn script_by(alloc: Global, choice: &[u8], order: &FoundText) -> Result<Option<Vec<u8>>, TextsFault>
    ensures { IfOk result (λ some. IfSome some (λ lines. (c : RunContents) × ReadsAsRun choice.now (Ok c)
        × ShowsAfter c.head [] lines.items order.now.text.items)) }
{
    match parse_run(alloc, choice) {
        Ok(script) => {
            if follows(alloc, &script, order)? {
                Ok(Some(script_for(alloc, choice, &script, order)?))
            } else {
                Ok(None)
            }
        }
        Err(ScriptError::Memory) => Err(TextsFault::Memory),
        Err(_) => Ok(None),
    }
}

/// Returns a script for `play` that gives the text of an order, or the line in its place: for the first choice that
/// follows the order to its text.
///
/// # Errors
/// `Astray` if no choice does, and `Memory`.
pub fn script_of(
    alloc: Global,
    choices: &Choices<'_>,
    order: &FoundText,
) -> Result<Vec<u8>, TextsFault>
    ensures { (source : List ℕ) → All (IsChoiceOf source) choices.now →
        IfOk result (λ lines. ShowsByChoice source lines.items order.now.text.items) }
{
    'choices: for at in 0..choices.len() {
        let choice = choices.text(alloc, at)?;
        let shown = script_by(alloc, choice.as_slice(), order)?;
        if let Some(lines) = shown {
            return Ok(lines);
        }
    }
    Err(TextsFault::Astray)
}
