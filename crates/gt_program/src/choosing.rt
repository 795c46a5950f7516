//! Explorations of scripts with choices.
ghost use Rattle.std.specs.Prelude.{◌≡◌, ℕ, List, IfOk, take};
ghost use Rattle.gt_text.specs.declared.streams.TheConstants.{READ_LIMIT};
ghost use Rattle.gt_program.specs.Obeying.{IsSourceWithChoice, IsWithChoice, SearchesByChoices};
ghost use Rattle.gt_program.specs.Obeying.{SearchesOne, failure_united};

use crate::exploring::{SearchAsked, of_verdict, precedence_asked};
use gt_command_reasons::{KeptInput, Reasons};
use gt_explore_answers::ExploreOptions;
use gt_explore_by_choice::{UnitedFault, explore_choices};
use gt_explore_choices::{ChoicesFault, choices_of, first_choice};
use gt_explore_faults::ClaimsFault;
use gt_explore_search::SearchWatch;
use gt_file_commands::{Failure, Outcome};
use gt_text::text_of;
use gt_types::LONGEST_TEXT;
use std::alloc::{AllocError, Global};
use std::io::Write;

// Returns a text if one of its lines is a choice.
fn with_choice<'t>(alloc: Global, text: &'t str) -> Result<Option<&'t str>, AllocError>
    ensures { IfOk result (λ found. IsWithChoice text.entry.now found) }
{
    let place = first_choice(alloc, text)?;
    if place.is_some() {
        Ok(Some(text))
    } else {
        Ok(None)
    }
}

/// Returns the text of a script, if one of its lines is a choice: `maybe` or `leave`. The bytes are a whole text, or the
/// first 1,048,577 of a longer one, which is no script.
///
/// # Errors
/// An allocation failed.
pub(crate) fn source_with_choice<'t>(
    alloc: Global,
    input: &'t [u8],
) -> Result<Option<&'t str>, AllocError>
    ensures { (all : List ℕ) → input.entry.now ≡ take READ_LIMIT all →
        IfOk result (λ found. IsSourceWithChoice all found) }
{
    if input.len() > LONGEST_TEXT {
        return Ok(None);
    }
    match text_of(input) {
        Ok(text) => with_choice(alloc, text),
        Err(_) => Ok(None),
    }
}

// Returns the script in which nothing is left out.
fn whole_script(alloc: Global, source: &str) -> Option<Vec<u8>> {
    match choices_of(alloc, source) {
        Ok(choices) if choices.len() > 0 => choices.text(alloc, 0).ok(),
        _ => None,
    }
}

// Adds the reason for which a script with choices was not explored. The faults of a choice are those of the script in
// which nothing is left out.
fn add_fault(alloc: Global, source: &str, fault: &ClaimsFault, reasons: &mut Reasons) {
    if let Some(whole) = whole_script(alloc, source) {
        reasons.add_explore(&KeptInput::of(alloc, whole.as_slice()), fault);
    }
}

// Returns the failure for a fault, and adds the reason.
fn failed(alloc: Global, source: &str, fault: UnitedFault, reasons: &mut Reasons) -> Failure
    ensures { result ≡ failure_united fault }
{
    match fault {
        UnitedFault::Claims(fault) => {
            add_fault(alloc, source, &fault, reasons);
            Failure::Explore(fault)
        }
        UnitedFault::Choices(fault) => {
            reasons.add_choices(fault);
            Failure::Choices(fault)
        }
    }
}

// Answers a request on the texts that a script with choices may give.
fn search_one<W: Write, X: SearchWatch>(
    alloc: Global,
    options: &ExploreOptions,
    source: &str,
    out: &mut W,
    reasons: &mut Reasons,
    watch: &mut X,
) -> Result<Outcome, Failure>
    ensures { SearchesOne options.now source.now (W.contents out.old) (W.contents out.new) result }
{
    match explore_choices(alloc, options, source, out, watch) {
        Ok(verdict) => Ok(of_verdict(verdict)),
        Err(fault) => Err(failed(alloc, source, fault, reasons)),
    }
}

// Returns that what is asked has no answer for a script with choices, and adds the reason.
fn unanswered(reasons: &mut Reasons) -> Failure
    ensures { result ≡ Failure.Choices ChoicesFault.Unanswered }
{
    let fault = ChoicesFault::Unanswered;
    reasons.add_choices(fault);
    Failure::Choices(fault)
}

/// Answers what is asked on the texts that a script with choices may give. Several claims, claims with terms of order,
/// summaries, moves, claims about what entries show and races have no answer.
pub(crate) fn search_choices<W: Write, X: SearchWatch>(
    alloc: Global,
    asked: &SearchAsked,
    source: &str,
    out: &mut W,
    reasons: &mut Reasons,
    watch: &mut X,
) -> Result<Outcome, Failure>
    ensures { SearchesByChoices asked.now source.now (W.contents out.old) (W.contents out.new) result }
{
    match asked {
        SearchAsked::One(options) => match precedence_asked(options) {
            None => search_one(alloc, options, source, out, reasons, watch),
            Some(_) => Err(unanswered(reasons)),
        },
        SearchAsked::Several(_)
        | SearchAsked::Together(_)
        | SearchAsked::Moves(_)
        | SearchAsked::Moment(_)
        | SearchAsked::Races(_) => { Err(unanswered(reasons)) }
    }
}
