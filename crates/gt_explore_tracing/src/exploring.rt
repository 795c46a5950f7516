//! The moves that lead to a text of a script, as they are written.
ghost use Rattle.std.specs.Prelude.{◌≡◌, ℕ, List, take};
ghost use Rattle.gt_script.specs.Contents.{contents_of};
ghost use Rattle.gt_script.specs.RunContents.{run_contents};
ghost use Rattle.gt_script.specs.RunScripts.{CanConfigure, ReadsAsRun};
ghost use Rattle.gt_script.specs.Stuck.{AreNumbered};
ghost use Rattle.gt_text.specs.Streams.{ConsumesAtMost, OfInput};
ghost use Rattle.gt_text.specs.declared.streams.TheConstants.{READ_LIMIT};
ghost use Rattle.gt_explore_tracing.specs.Writing.{MakesTrace, Traced, Traces};

use crate::answering::{has_its_moves, trace_answer};
use crate::asking::TraceOptions;
use gt_explore::texts_found;
use gt_explore_answers::ExploreOutput;
use gt_explore_faults::ExploreFault;
use gt_explore_search::SearchWatch;
use gt_explore_verdict::Verdict;
use gt_script::{RunScript, parse_run};
use gt_script_runs::PlayFault;
use gt_text::{read_text, write_text};
use std::alloc::Global;
use std::io::{Read, Write};

// Finds the texts of a script, and returns the moves that lead to one of them.
fn made<T: SearchWatch>(
    alloc: Global,
    asked: &TraceOptions,
    script: &RunScript,
    watch: &mut T,
) -> Result<ExploreOutput, ExploreFault>
    requires fits { CanConfigure (contents_of script.now.head) }
    requires numbered { AreNumbered script.now.flags script.now.tasks }
    ensures { MakesTrace (run_contents script.now) asked.now result }
{
    let found = match texts_found(alloc, script, asked.states, watch) {
        Ok(found) => found,
        Err(fault) => return Err(ExploreFault::Texts(fault)),
    };
    if !has_its_moves(asked.request, found.texts.len()) {
        return if found.whole {
            Err(ExploreFault::Number)
        } else {
            Err(ExploreFault::Unfound)
        };
    }
    match trace_answer(alloc, asked, script, &found, watch) {
        Ok(made) => Ok(made),
        Err(fault) => Err(ExploreFault::Texts(fault)),
    }
}

// Writes the moves that lead to a text of a script that was parsed.
fn trace_script<W: Write, T: SearchWatch>(
    alloc: Global,
    asked: &TraceOptions,
    script: &RunScript,
    writer: &mut W,
    watch: &mut T,
) -> Result<Verdict, ExploreFault>
    requires fits { CanConfigure (contents_of script.now.head) }
    requires numbered { AreNumbered script.now.flags script.now.tasks }
    ensures { Traces (run_contents script.now) asked.now (W.contents writer.old) (W.contents writer.new) result }
{
    match made(alloc, asked, script, watch) {
        Err(fault) => Err(fault),
        Ok(made) => match write_text(writer, made.text.as_slice()) {
            Ok(()) => Ok(made.verdict),
            Err(_) => Err(ExploreFault::Play(PlayFault::Write)),
        },
    }
}

/// Writes the moves that lead to a text as [`trace`] does, of the script in these bytes. They are a whole text, or the
/// first 1,048,577 bytes of a longer one.
///
/// # Errors
/// Those of [`trace`], but for failed reads.
pub fn trace_bytes<W: Write, T: SearchWatch>(
    alloc: Global,
    asked: &TraceOptions,
    input: &[u8],
    writer: &mut W,
    watch: &mut T,
) -> Result<Verdict, ExploreFault>
    ensures { (all : List ℕ) → input.now ≡ take READ_LIMIT all →
        Traced asked.now (ReadsAsRun all) (W.contents writer.old) (W.contents writer.new) result }
{
    match parse_run(alloc, input) {
        Ok(script) => trace_script(alloc, asked, &script, writer, watch),
        Err(error) => Err(ExploreFault::Play(PlayFault::from(error))),
    }
}

/// Writes the moves of an order that leads to the text of a number, among the texts that the script of a reader may give.
/// These are numbered as `explore` of `gt_explore` numbers them. In the format `Text`, each move is a line under the line
/// `text K of M`, with the lines `blocks B, the fewest` and `states S` at the end. In `Json` the text, each move and the
/// blocks are an object, and the last object has the numbers of the search. A sequence diagram is the same in both
/// formats.
///
/// A second search, with the same limit, is for the order with the fewest blocks. If it reaches its limit, the watch
/// ends it, or memory is wanting, the moves are those of the order that was found, and `perhaps not the fewest` is
/// written.
///
/// The verdict is `Holds` if the search met all states, and otherwise `Undecided`: there may then be more texts, and the
/// text may have another number among all of them.
///
/// # Errors
/// The script's first fault. If it has none: `Number` if no text has the number, `Unfound` if none of those found has it
/// and these are not all, or `Texts` with a fault of the search, or if the order of the text does not lead to it. Or an
/// allocation, a read or a write failed. Only after a failed write was anything written: a prefix of the output.
pub fn trace<R: Read, W: Write, T: SearchWatch>(
    alloc: Global,
    asked: &TraceOptions,
    reader: &mut R,
    writer: &mut W,
    watch: &mut T,
) -> Result<Verdict, ExploreFault>
    ensures text { OfInput (R.remaining reader.old) (λ input.
        Traced asked.now (ReadsAsRun input) (W.contents writer.old) (W.contents writer.new) result) }
    ensures read { ConsumesAtMost READ_LIMIT (R.remaining reader.old) (R.remaining reader.new) }
{
    match read_text(alloc, reader) {
        Ok(input) => trace_bytes(alloc, asked, input.as_slice(), writer, watch),
        Err(error) => Err(ExploreFault::Play(PlayFault::from(error))),
    }
}
