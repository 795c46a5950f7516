//! The output for the moves that lead to a text, and the verdict.
ghost use Rattle.std.specs.Prelude.{◌≡◌, IfOk};
ghost use Rattle.gt_script.specs.Contents.{contents_of};
ghost use Rattle.gt_script.specs.RunContents.{run_contents};
ghost use Rattle.gt_script.specs.RunScripts.{CanConfigure};
ghost use Rattle.gt_script.specs.Stuck.{AreNumbered};
ghost use Rattle.gt_explore_answers.specs.AsObjects.{ShowsObjects};
ghost use Rattle.gt_explore_answers.specs.Outputs.{found_from};
ghost use Rattle.gt_explore_tracing.specs.Answering.{GivesMoves, IsTraceBy, ShowsTrace, TracedAs, has_its_moves};
ghost use Rattle.gt_explore_tracing.specs.MoveBlocks.{LeadToNumbered};

use crate::asking::{TraceOptions, TraceRequest};
use crate::fewest::{FewestMoves, fewest_moves};
use crate::moves::moves_shown;
use gt_explore_answers::{ExploreFormat, ExploreOutput, FoundTexts, push_summary, verdict_of_all};
use gt_explore_faults::TextsFault;
use gt_explore_search::SearchWatch;
use gt_explore_trace::TraceForm;
use gt_script::RunScript;
use std::alloc::Global;

/// Returns whether one of this number of texts has the number that a request names.
pub fn has_its_moves(request: TraceRequest, count: usize) -> bool
    ensures { result ≡ has_its_moves request count }
{
    match request {
        TraceRequest::Trace(number) | TraceRequest::Diagram(number) => {
            0 < number && number <= count
        }
    }
}

// Returns the moves that lead to the text of this number, in this form.
fn moves_made(
    alloc: Global,
    form: TraceForm,
    script: &RunScript,
    found: &FoundTexts,
    number: usize,
    moves: &FewestMoves,
) -> Result<ExploreOutput, TextsFault>
    requires { LeadToNumbered (run_contents script.now) (found_from found.now) number moves.now }
    ensures { IfOk result (λ made. GivesMoves (run_contents script.now) form number (found_from found.now)
        made.text.items made.verdict) }
{
    let text = moves_shown(alloc, form, script, found, number, moves)?;
    let verdict = verdict_of_all(found.whole);
    Ok(ExploreOutput { text, verdict })
}

// Returns the object of the text of this number, one for each move, that of their blocks, and the last one.
fn objects_made(
    alloc: Global,
    limit: usize,
    script: &RunScript,
    found: &FoundTexts,
    number: usize,
    moves: &FewestMoves,
) -> Result<ExploreOutput, TextsFault>
    requires { LeadToNumbered (run_contents script.now) (found_from found.now) number moves.now }
    ensures { IfOk result (λ made. ShowsObjects limit (ShowsTrace (run_contents script.now) number)
        (found_from found.now) made.text.items made.verdict) }
{
    let mut text = moves_shown(alloc, TraceForm::Json, script, found, number, moves)?;
    let verdict = verdict_of_all(found.whole);
    push_summary(&mut text, found, limit, verdict)?;
    Ok(ExploreOutput { text, verdict })
}

// Returns the moves that lead to the text of this number, in the format that is asked for.
fn trace_made(
    alloc: Global,
    asked: &TraceOptions,
    script: &RunScript,
    found: &FoundTexts,
    number: usize,
    moves: &FewestMoves,
) -> Result<ExploreOutput, TextsFault>
    requires { LeadToNumbered (run_contents script.now) (found_from found.now) number moves.now }
    ensures { IfOk result (λ made. IsTraceBy (run_contents script.now) asked.now.states number asked.now.format
        (found_from found.now) made.text.items made.verdict) }
{
    match asked.format {
        ExploreFormat::Text => moves_made(alloc, TraceForm::Text, script, found, number, moves),
        ExploreFormat::Json => objects_made(alloc, asked.states, script, found, number, moves),
    }
}

/// Returns the moves that are asked for, of a text among those that were found, and whether these are all texts. They
/// are those of an order with the fewest blocks, if the search for it is not cut off.
///
/// # Errors
/// `Astray` if no text has the number that the request names, or if the order of the text does not lead to it; `States`
/// if the search has too many states to number; and `Memory`.
pub fn trace_answer<W: SearchWatch>(
    alloc: Global,
    asked: &TraceOptions,
    script: &RunScript<'_>,
    found: &FoundTexts,
    watch: &mut W,
) -> Result<ExploreOutput, TextsFault>
    requires fits { CanConfigure (contents_of script.now.head) }
    requires numbered { AreNumbered script.now.flags script.now.tasks }
    ensures { IfOk result (λ made. TracedAs (run_contents script.now) asked.now.format asked.now.states
        asked.now.request (found_from found.now) made.text.items made.verdict) }
{
    match asked.request {
        TraceRequest::Trace(number) => {
            let moves = fewest_moves(alloc, script, found, number, asked.states, watch)?;
            trace_made(alloc, asked, script, found, number, &moves)
        }
        TraceRequest::Diagram(number) => {
            let moves = fewest_moves(alloc, script, found, number, asked.states, watch)?;
            moves_made(alloc, TraceForm::Mermaid, script, found, number, &moves)
        }
    }
}
