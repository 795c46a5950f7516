//! The command `explore` for a script with choices.
ghost use Rattle.std.specs.Prelude.{◌≡◌, ◌<◌, ℕ, List, IfErr, IfOk, length};
ghost use Rattle.gt_explore_by_choice.specs.Exploring.{AreChoicesOf, ExploresByChoices, MakesByChoices, MakesOfChoices};
ghost use Rattle.gt_explore_by_choice.specs.Exploring.{has_answer, is_answered_in_text};
ghost use Rattle.gt_explore_choices.specs.Choices.{whole_text};

use crate::fault::UnitedFault;
use crate::making::made_by;
use gt_explore_answers::{ExploreFormat, ExploreOptions, ExploreOutput, ExploreRequest};
use gt_explore_choices::{Choices, ChoicesFault, choices_of};
use gt_explore_faults::{ClaimsFault, ExploreFault, TextsFault};
use gt_explore_search::SearchWatch;
use gt_explore_verdict::Verdict;
use gt_script::parse_run;
use gt_script_runs::PlayFault;
use gt_text::{text_of, write_text};
use std::alloc::Global;
use std::io::Write;

// Returns whether a request has an answer as text.
fn is_answered_in_text(request: ExploreRequest<'_>) -> bool
    ensures { result ≡ is_answered_in_text request.entry }
{
    match request {
        ExploreRequest::Texts | ExploreRequest::Decide { .. } => true,
        ExploreRequest::Has(_) | ExploreRequest::Witness(_) => true,
        ExploreRequest::Witnesses => false,
    }
}

// Returns whether a request has an answer in a format.
fn has_answer(request: ExploreRequest<'_>, format: ExploreFormat) -> bool
    ensures { result ≡ has_answer request.entry format }
{
    match format {
        ExploreFormat::Json => false,
        ExploreFormat::Text => is_answered_in_text(request),
    }
}

// Answers a request by the choices of a script. These bytes are the first of them.
fn made_whole<T: SearchWatch>(
    alloc: Global,
    asked: &ExploreOptions,
    choices: &Choices<'_>,
    whole: &[u8],
    watch: &mut T,
) -> Result<ExploreOutput, ClaimsFault>
    ensures { (source : List ℕ) → AreChoicesOf source choices.now → whole.now ≡ whole_text source →
        MakesOfChoices source asked.now.request result }
{
    let Ok(text) = text_of(whole) else {
        return Err(ClaimsFault::Astray);
    };
    match parse_run(alloc, whole) {
        Ok(base) => made_by(alloc, asked, choices, &base, text, watch),
        Err(error) => Err(ClaimsFault::Explore(ExploreFault::Play(PlayFault::from(error)))),
    }
}

// Answers a request by the choices of a script.
fn made_from<T: SearchWatch>(
    alloc: Global,
    asked: &ExploreOptions,
    choices: &Choices<'_>,
    watch: &mut T,
) -> Result<ExploreOutput, ClaimsFault>
    requires { 0 < length choices.now }
    ensures { (source : List ℕ) → AreChoicesOf source choices.now → MakesOfChoices source asked.now.request result }
{
    match choices.text(alloc, 0) {
        Ok(whole) => made_whole(alloc, asked, choices, whole.as_slice(), watch),
        Err(_) => Err(ClaimsFault::Explore(ExploreFault::Texts(TextsFault::Memory))),
    }
}

// Answers a request about a script with choices.
fn made_chosen<T: SearchWatch>(
    alloc: Global,
    asked: &ExploreOptions,
    source: &str,
    watch: &mut T,
) -> Result<ExploreOutput, UnitedFault>
    ensures { MakesByChoices source.now asked.now result }
{
    match choices_of(alloc, source) {
        Ok(choices) => match made_from(alloc, asked, &choices, watch) {
            Ok(made) => Ok(made),
            Err(fault) => Err(UnitedFault::Claims(fault)),
        },
        Err(ChoicesFault::Many) => Err(UnitedFault::Choices(ChoicesFault::Many)),
        Err(_) => Err(UnitedFault::Choices(ChoicesFault::Memory)),
    }
}

// The same, if the request has an answer.
fn made<T: SearchWatch>(
    alloc: Global,
    asked: &ExploreOptions,
    source: &str,
    watch: &mut T,
) -> Result<ExploreOutput, UnitedFault>
    ensures { MakesByChoices source.now asked.now result }
{
    if has_answer(asked.request, asked.format) {
        made_chosen(alloc, asked, source, watch)
    } else {
        Err(UnitedFault::Choices(ChoicesFault::Unanswered))
    }
}

/// Answers a request on the texts that a script with choices may give, as `explore` of `gt_explore` does for a plain
/// one. The texts are those of all choices, each once, in the order of their bytes. `states` is the largest number of
/// states that all searches may meet together. The expression of a claim may have the names of calls. A script for
/// `play` that is printed is that of one of the choices.
///
/// `run` refuses a choice in which a domain waits for ever, so such a choice gives no text. If there are such choices, the
/// last line of the output is a comment with their number.
///
/// # Errors
/// `Choices` if there are too many choices, if what is asked has no answer here, or if an allocation failed. Otherwise
/// `Claims`: the first fault of the script in which nothing is left out, or of another choice; a fault of the
/// expression; that no text has the wanted number; a fault of a search; or a failed allocation or write. Only after a
/// failed write was anything written: a prefix of the output.
pub fn explore_choices<W: Write, T: SearchWatch>(
    alloc: Global,
    asked: &ExploreOptions,
    source: &str,
    writer: &mut W,
    watch: &mut T,
) -> Result<Verdict, UnitedFault>
    ensures { ExploresByChoices source.now asked.now (W.contents writer.old) (W.contents writer.new) result }
{
    match made(alloc, asked, source, watch) {
        Err(fault) => Err(fault),
        Ok(made) => match write_text(writer, made.text.as_slice()) {
            Ok(()) => Ok(made.verdict),
            Err(_) => {
                let fault = ExploreFault::Play(PlayFault::Write);
                Err(UnitedFault::Claims(ClaimsFault::Explore(fault)))
            }
        },
    }
}
