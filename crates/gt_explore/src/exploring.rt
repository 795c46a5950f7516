//! The command `explore`.
ghost use Rattle.std.specs.Prelude.{◌≡◌, ℕ, List, IfOk, map, take};
ghost use Rattle.gt_script.specs.Contents.{contents_of};
ghost use Rattle.gt_script.specs.RunContents.{run_contents};
ghost use Rattle.gt_script.specs.RunScripts.{CanConfigure, ReadsAsRun};
ghost use Rattle.gt_text.specs.Streams.{ConsumesAtMost, OfInput};
ghost use Rattle.gt_text.specs.declared.streams.TheConstants.{READ_LIMIT};
ghost use Rattle.gt_script.specs.Stuck.{AreNumbered};
ghost use Rattle.gt_explore_verdict.specs.Formulas.{operation_asked};
ghost use Rattle.gt_explore_answers.specs.Exploring.{AreAsked, AreTextsOf};
ghost use Rattle.gt_explore_answers.specs.Outputs.{found_from};
ghost use Rattle.gt_explore.specs.Writing.{Explored, Explores, MakesOutput};

use crate::deciding::{ClaimTest, texts_enough};
use crate::texts::texts_found;
use gt_explore_answers::{
    ExploreOptions, ExploreOutput, ExploreRequest, FoundTexts, answer_request, conditions_asked,
    has_its_text, refused_text,
};
use gt_explore_faults::{ExploreFault, TextsFault};
use gt_explore_search::SearchWatch;
use gt_explore_verdict::{Operation, Verdict};
use gt_script::{RunScript, parse_run};
use gt_script_runs::PlayFault;
use gt_text::{read_text, write_text};
use std::alloc::Global;
use std::io::{Read, Write};

// Finds the texts of a script that a request needs, which states these conditions.
fn texts_needed<T: SearchWatch>(
    alloc: Global,
    asked: &ExploreOptions,
    script: &RunScript,
    conditions: &[Operation<'_>],
    watch: &mut T,
) -> Result<FoundTexts, TextsFault>
    requires fits { CanConfigure (contents_of script.now.head) }
    requires numbered { AreNumbered script.now.flags script.now.tasks }
    ensures { IfOk result (λ all. AreTextsOf (run_contents script.now) (found_from all)) }
{
    match asked.request {
        ExploreRequest::Decide { claim, .. } => {
            let test = ClaimTest { claim, conditions };
            texts_enough(alloc, script, asked.states, &test, watch)
        }
        _ => texts_found(alloc, script, asked.states, watch),
    }
}

// Finds the texts of a script, and answers a request by them, which states these conditions.
fn made_as<T: SearchWatch>(
    alloc: Global,
    asked: &ExploreOptions,
    source: &[u8],
    script: &RunScript,
    conditions: &[Operation<'_>],
    watch: &mut T,
) -> Result<ExploreOutput, ExploreFault>
    requires fits { CanConfigure (contents_of script.now.head) }
    requires numbered { AreNumbered script.now.flags script.now.tasks }
    requires read { AreAsked (run_contents script.now) asked.now.request (map operation_asked conditions.now) }
    ensures { MakesOutput (run_contents script.now) asked.now result }
{
    let found = match texts_needed(alloc, asked, script, conditions, watch) {
        Ok(found) => found,
        Err(fault) => return Err(ExploreFault::Texts(fault)),
    };
    if !has_its_text(asked.request, &found) {
        return if found.whole {
            Err(ExploreFault::Number)
        } else {
            Err(ExploreFault::Unfound)
        };
    }
    match refused_text(alloc, script, asked.request, &found) {
        Ok(None) => match answer_request(alloc, asked, source, script, &found, conditions) {
            Ok(made) => Ok(made),
            Err(fault) => Err(ExploreFault::Texts(fault)),
        },
        Ok(Some((line, fault))) => Err(ExploreFault::Text { line, fault }),
        Err(_) => Err(ExploreFault::Texts(TextsFault::Memory)),
    }
}

/// Answers a request as [`explore`] does, on the texts of a script that was parsed. `source` has its lines.
///
/// # Errors
/// Those of [`explore`], but for faults of a script and for failed reads.
pub fn explore_script<W: Write, T: SearchWatch>(
    alloc: Global,
    asked: &ExploreOptions,
    source: &[u8],
    script: &RunScript,
    writer: &mut W,
    watch: &mut T,
) -> Result<Verdict, ExploreFault>
    requires fits { CanConfigure (contents_of script.now.head) }
    requires numbered { AreNumbered script.now.flags script.now.tasks }
    ensures { Explores (run_contents script.now) asked.now (W.contents writer.old) (W.contents writer.new) result }
{
    let conditions = conditions_asked(alloc, script, asked.request)?;
    match made_as(alloc, asked, source, script, conditions.as_slice(), watch) {
        Err(fault) => Err(fault),
        Ok(made) => match write_text(writer, made.text.as_slice()) {
            Ok(()) => Ok(made.verdict),
            Err(_) => Err(ExploreFault::Play(PlayFault::Write)),
        },
    }
}

/// Answers a request as [`explore`] does, on the texts of the script in these bytes. They are a whole text, or the first
/// 1,048,577 bytes of a longer one.
///
/// # Errors
/// Those of [`explore`], but for failed reads.
pub fn explore_bytes<W: Write, T: SearchWatch>(
    alloc: Global,
    asked: &ExploreOptions,
    input: &[u8],
    writer: &mut W,
    watch: &mut T,
) -> Result<Verdict, ExploreFault>
    ensures { (all : List ℕ) → input.now ≡ take READ_LIMIT all →
        Explored asked.now (ReadsAsRun all) (W.contents writer.old) (W.contents writer.new) result }
{
    match parse_run(alloc, input) {
        Ok(script) => explore_script(alloc, asked, input, &script, writer, watch),
        Err(error) => Err(ExploreFault::Play(PlayFault::from(error))),
    }
}

/// Answers a request on the texts that the script of a reader may give. In the format `Text`, texts are printed under
/// lines `text K of M`, in the order of their bytes, with a line `states S` at the end. In `Json`, each is an object. A
/// script for `play` that is printed was played before, and each domain had the answers that it has in its text.
///
/// The verdict on a claim and on a given text is what is known of it. On another request it is `Holds` if the search
/// met all states, and otherwise `Undecided`. If the search did not meet all, since it came to its limit, its watch ended
/// it or memory was wanting, the answer is by the texts found until then, and a list of texts ends with a line that has
/// the words `not all texts`. A search for a claim ends after 1,000 or 32,000 states if the texts found until then decide
/// it.
///
/// # Errors
/// The script's first fault. If it has none: the first fault of the expression; that no text has the wanted number, or
/// that none of those found has it, if these are not all; the first line of the given text that is not an answer line
/// of the script, if it is not one of the texts; or that an order or a script for `play` does not give its text. Or an
/// allocation, a read or a write failed. Only after a failed write was anything written: a prefix of the text.
pub fn explore<R: Read, W: Write, T: SearchWatch>(
    alloc: Global,
    asked: &ExploreOptions,
    reader: &mut R,
    writer: &mut W,
    watch: &mut T,
) -> Result<Verdict, ExploreFault>
    ensures text { OfInput (R.remaining reader.old) (λ input.
        Explored asked.now (ReadsAsRun input) (W.contents writer.old) (W.contents writer.new) result) }
    ensures read { ConsumesAtMost READ_LIMIT (R.remaining reader.old) (R.remaining reader.new) }
{
    match read_text(alloc, reader) {
        Ok(input) => explore_bytes(alloc, asked, input.as_slice(), writer, watch),
        Err(error) => Err(ExploreFault::Play(PlayFault::from(error))),
    }
}
