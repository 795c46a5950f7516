//! A summary of the texts of a script, as it is written.
ghost use Rattle.std.specs.Prelude.{◌≡◌, ℕ, List, take};
ghost use Rattle.gt_script.specs.Contents.{contents_of};
ghost use Rattle.gt_script.specs.RunContents.{run_contents};
ghost use Rattle.gt_script.specs.RunScripts.{CanConfigure, ReadsAsRun};
ghost use Rattle.gt_script.specs.Stuck.{AreNumbered};
ghost use Rattle.gt_text.specs.declared.streams.TheConstants.{READ_LIMIT};
ghost use Rattle.gt_explore_summary.specs.Written.{MakesSummary, Summarized, Sums};

use crate::asking::SummaryOptions;
use crate::summing::{has_its_numbers, summary_output};
use gt_explore::texts_found;
use gt_explore_answers::ExploreOutput;
use gt_explore_faults::{ExploreFault, TextsFault};
use gt_explore_search::SearchWatch;
use gt_explore_verdict::Verdict;
use gt_script::{RunScript, parse_run};
use gt_script_runs::PlayFault;
use gt_text::write_text;
use std::alloc::Global;
use std::io::Write;

// Finds the texts of a script, and returns what is printed of them.
fn summary_made<T: SearchWatch>(
    alloc: Global,
    asked: &SummaryOptions,
    script: &RunScript,
    watch: &mut T,
) -> Result<ExploreOutput, ExploreFault>
    requires fits { CanConfigure (contents_of script.now.head) }
    requires numbered { AreNumbered script.now.flags script.now.tasks }
    ensures { MakesSummary (run_contents script.now) asked.now result }
{
    let found = match texts_found(alloc, script, asked.states, watch) {
        Ok(found) => found,
        Err(fault) => return Err(ExploreFault::Texts(fault)),
    };
    if !has_its_numbers(asked.request, found.texts.len()) {
        return if found.whole {
            Err(ExploreFault::Number)
        } else {
            Err(ExploreFault::Unfound)
        };
    }
    match summary_output(alloc, asked, &found) {
        Ok(made) => Ok(made),
        Err(_) => Err(ExploreFault::Texts(TextsFault::Memory)),
    }
}

// Summarizes the texts of a script that was parsed.
fn summarize_script<W: Write, T: SearchWatch>(
    alloc: Global,
    asked: &SummaryOptions,
    script: &RunScript,
    writer: &mut W,
    watch: &mut T,
) -> Result<Verdict, ExploreFault>
    requires fits { CanConfigure (contents_of script.now.head) }
    requires numbered { AreNumbered script.now.flags script.now.tasks }
    ensures { Sums (run_contents script.now) asked.now (W.contents writer.old) (W.contents writer.new) result }
{
    match summary_made(alloc, asked, script, watch) {
        Err(fault) => Err(fault),
        Ok(made) => match write_text(writer, made.text.as_slice()) {
            Ok(()) => Ok(made.verdict),
            Err(_) => Err(ExploreFault::Play(PlayFault::Write)),
        },
    }
}

/// Summarizes the texts that a script may give. Of each line whose answers vary it prints how many texts have each
/// answer, and for a difference both answers. In the format `Json`, each line is an object. The last line has the
/// numbers of the search. The bytes of the script are a whole text, or the first 1,048,577 of a longer one.
///
/// The verdict is `Holds` if the search met all states, and otherwise `Undecided`: the summary is then of the texts
/// found until then.
///
/// # Errors
/// The script's first fault. If it has none: `Number` if no text has a number that is named, `Unfound` if none of those
/// found has it and these are not all, or `Texts` with a fault of the search. Or an allocation or a write failed. Only
/// after a failed write was anything written: a prefix of the text.
pub fn summarize<W: Write, T: SearchWatch>(
    alloc: Global,
    asked: &SummaryOptions,
    input: &[u8],
    writer: &mut W,
    watch: &mut T,
) -> Result<Verdict, ExploreFault>
    ensures { (all : List ℕ) → input.now ≡ take READ_LIMIT all →
        Summarized asked.now (ReadsAsRun all) (W.contents writer.old) (W.contents writer.new) result }
{
    match parse_run(alloc, input) {
        Ok(script) => summarize_script(alloc, asked, &script, writer, watch),
        Err(error) => Err(ExploreFault::Play(PlayFault::from(error))),
    }
}
