//! What is made of the texts of the choices for a request.
ghost use Rattle.std.specs.Prelude.{◌≡◌, ℕ, List, IfErr, IfOk, None, Some, Ok, if◌then◌else◌, map};
ghost use Rattle.std.specs.Option.{option_map};
ghost use Rattle.gt_script.specs.RunContents.{RunContents, run_contents};
ghost use Rattle.gt_script.specs.RunScripts.{ReadsAsRun};
ghost use Rattle.gt_explore_answers.specs.Exploring.{AreConditions, IsExpressionFault};
ghost use Rattle.gt_explore_answers.specs.Outputs.{found_from};
ghost use Rattle.gt_explore_choices.specs.Choices.{whole_text};
ghost use Rattle.gt_explore_faults.specs.declared.fault.ExploreFault.TheVariants.{Number, Unfound};
ghost use Rattle.gt_explore_by_choice.specs.Gathering.{AreUnited};
ghost use Rattle.gt_explore_verdict.specs.Formulas.{operation_asked};
ghost use Rattle.gt_explore_by_choice.specs.Answering.{IsOnConditions};
ghost use Rattle.gt_explore_by_choice.specs.Exploring.{AreChoicesOf, MakesOfChoices, MakesOnConditions};
ghost use Rattle.gt_explore_by_choice.specs.Exploring.{MakesOnExpression, expression_numbered, names_unread, request_expression};

use crate::answering::answer;
use crate::listing::push_waiting;
use crate::uniting::{UnitedTexts, texts_of_choices};
use gt_call_names::{NameFault, numbered};
use gt_explore_answers::{
    ExploreOptions, ExploreOutput, ExploreRequest, conditions_asked, has_its_text,
};
use gt_explore_choices::Choices;
use gt_explore_faults::{ClaimsFault, ExploreFault, TextsFault};
use gt_explore_search::SearchWatch;
use gt_explore_verdict::{Claim, ExpressionFault, Operation};
use gt_script::RunScript;
use gt_text::text_of;
use std::alloc::Global;

// Returns an answer with its last line.
fn answered(
    alloc: Global,
    request: ExploreRequest<'_>,
    choices: &Choices<'_>,
    all: &UnitedTexts,
    conditions: &[Operation<'_>],
) -> Result<ExploreOutput, TextsFault>
    ensures { (source : List ℕ) → AreChoicesOf source choices.now →
        AreUnited source (found_from all.now.found) all.now.waiting →
        IfOk result (λ made. IsOnConditions source request.entry (map operation_asked conditions.now) made.text.items
        made.verdict) }
{
    let mut made = answer(alloc, request, choices, &all.found, conditions)?;
    push_waiting(&mut made.text, all.waiting)?;
    Ok(made)
}

// Returns the fault that no text has a number: none of all texts, or none of those that were found.
fn lacking(whole: bool) -> ExploreFault
    ensures { result ≡ (if whole then Number else Unfound) }
{
    if whole {
        ExploreFault::Number
    } else {
        ExploreFault::Unfound
    }
}

// Answers a request by the texts of the choices, on these conditions.
fn made_of(
    alloc: Global,
    request: ExploreRequest<'_>,
    choices: &Choices<'_>,
    all: &UnitedTexts,
    conditions: &[Operation<'_>],
) -> Result<ExploreOutput, ExploreFault>
    ensures { (source : List ℕ) → AreChoicesOf source choices.now →
        AreUnited source (found_from all.now.found) all.now.waiting →
        MakesOnConditions source request.entry (map operation_asked conditions.now) result }
{
    if !has_its_text(request, &all.found) {
        return Err(lacking(all.found.whole));
    }
    match answered(alloc, request, choices, all, conditions) {
        Ok(made) => Ok(made),
        Err(fault) => Err(ExploreFault::Texts(fault)),
    }
}

/// Finds the texts of the choices, and answers a request by them, on these conditions.
///
/// # Errors
/// `Play` with the first fault of a choice; `Number` and `Unfound` if no text has the number that is asked for; and
/// `Texts`.
pub fn made_on<T: SearchWatch>(
    alloc: Global,
    asked: &ExploreOptions,
    choices: &Choices<'_>,
    conditions: &[Operation<'_>],
    watch: &mut T,
) -> Result<ExploreOutput, ExploreFault>
    ensures { (source : List ℕ) → AreChoicesOf source choices.now →
        MakesOnConditions source asked.now.request (map operation_asked conditions.now) result }
{
    match texts_of_choices(alloc, choices, asked.states, watch) {
        Ok(all) => made_of(alloc, asked.request, choices, &all, conditions),
        Err(fault) => Err(fault),
    }
}

// Reads the conditions of an expression with numbers in place of names.
fn conditions_numbered<'e>(
    alloc: Global,
    base: &RunScript,
    expression: &'e str,
) -> Result<Vec<Operation<'e>>, ExpressionFault>
    ensures ok { IfOk result (λ cs.
        AreConditions (run_contents base.now) expression.entry.now (map operation_asked cs.items)) }
    ensures fault { IfErr result (IsExpressionFault (run_contents base.now) expression.entry.now) }
{
    let claim = Claim::Find;
    conditions_asked(alloc, base, ExploreRequest::Decide { claim, expression })
}

// Answers a request whose expression is this one, with numbers in place of names.
fn made_read<T: SearchWatch>(
    alloc: Global,
    asked: &ExploreOptions,
    choices: &Choices<'_>,
    base: &RunScript,
    expression: &str,
    watch: &mut T,
) -> Result<ExploreOutput, ExploreFault>
    ensures { (source : List ℕ) → AreChoicesOf source choices.now →
        MakesOnExpression source asked.now.request (run_contents base.now) expression.now result }
{
    match conditions_numbered(alloc, base, expression) {
        Ok(conditions) => made_on(alloc, asked, choices, conditions.as_slice(), watch),
        Err(fault) => Err(ExploreFault::from(fault)),
    }
}

// The same, from the bytes of the expression.
fn made_numbered<T: SearchWatch>(
    alloc: Global,
    asked: &ExploreOptions,
    choices: &Choices<'_>,
    base: &RunScript,
    expression: &[u8],
    watch: &mut T,
) -> Result<ExploreOutput, ClaimsFault>
    ensures { (source named : List ℕ) → AreChoicesOf source choices.now →
        ReadsAsRun (whole_text source) (Ok (run_contents base.now)) →
        request_expression asked.now.request ≡ Some named → expression.now ≡ expression_numbered source named →
        MakesOfChoices source asked.now.request result }
{
    let Ok(text) = text_of(expression) else {
        return Err(ClaimsFault::Astray);
    };
    match made_read(alloc, asked, choices, base, text, watch) {
        Ok(made) => Ok(made),
        Err(fault) => Err(ClaimsFault::Explore(fault)),
    }
}

// Returns the fault of the names of an expression as one of an exploration.
fn unnamed(fault: NameFault) -> ClaimsFault
    ensures { result ≡ names_unread fault }
{
    match fault {
        NameFault::Memory => ClaimsFault::Explore(ExploreFault::Texts(TextsFault::Memory)),
        NameFault::Repeated { first, second } => ClaimsFault::Repeated { first, second },
    }
}

// Answers a request without an expression.
fn made_plain<T: SearchWatch>(
    alloc: Global,
    asked: &ExploreOptions,
    choices: &Choices<'_>,
    watch: &mut T,
) -> Result<ExploreOutput, ClaimsFault>
    requires { request_expression asked.now.request ≡ None }
    ensures { (source : List ℕ) → (base : RunContents) → AreChoicesOf source choices.now →
        ReadsAsRun (whole_text source) (Ok base) → MakesOfChoices source asked.now.request result }
{
    match made_on(alloc, asked, choices, &[], watch) {
        Ok(made) => Ok(made),
        Err(fault) => Err(ClaimsFault::Explore(fault)),
    }
}

// Returns the expression of a request, if it has one.
fn expression_of<'e>(request: ExploreRequest<'e>) -> Option<&'e str>
    ensures { option_map (λ e. e.now) result ≡ request_expression request.entry }
{
    match request {
        ExploreRequest::Decide { expression, .. } => Some(expression),
        ExploreRequest::Texts | ExploreRequest::Has(_) => None,
        ExploreRequest::Witness(_) | ExploreRequest::Witnesses => None,
    }
}

/// Answers a request by the choices of a script. `whole` is the text of the first, and `base` the script.
///
/// # Errors
/// `Explore` with the first fault of a choice, of the expression or of a search, or if no text has the number that is
/// asked for; `Repeated` if a name of the expression is that of two calls; and `Astray`.
pub fn made_by<T: SearchWatch>(
    alloc: Global,
    asked: &ExploreOptions,
    choices: &Choices<'_>,
    base: &RunScript,
    whole: &str,
    watch: &mut T,
) -> Result<ExploreOutput, ClaimsFault>
    ensures { (source : List ℕ) → AreChoicesOf source choices.now → whole.now ≡ whole_text source →
        ReadsAsRun (whole_text source) (Ok (run_contents base.now)) →
        MakesOfChoices source asked.now.request result }
{
    let Some(expression) = expression_of(asked.request) else {
        return made_plain(alloc, asked, choices, watch);
    };
    match numbered(alloc, whole, expression) {
        Ok(text) => made_numbered(alloc, asked, choices, base, text.as_slice(), watch),
        Err(fault) => Err(unnamed(fault)),
    }
}
