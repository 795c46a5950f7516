//! The command, from the bytes of a script to the answer.
ghost use Rattle.std.specs.Prelude.{◌≡◌, ◌≤◌, ◌+◌, ℕ, List, Some, IfOk, length, slice_get, take};
ghost use Rattle.gt_script.specs.Contents.{contents_of};
ghost use Rattle.gt_explore_races.specs.Races.{AreRacesOf};
ghost use Rattle.gt_script.specs.RunContents.{run_contents};
ghost use Rattle.gt_script.specs.RunScripts.{CanConfigure, ReadsAsRun};
ghost use Rattle.gt_script.specs.Stuck.{AreNumbered};
ghost use Rattle.gt_text.specs.declared.streams.TheConstants.{READ_LIMIT};
ghost use Rattle.gt_explore_racing.specs.Exploring.{IsRaceOutput, IsRaceScript, MakesRaces};
ghost use Rattle.gt_explore_racing.specs.Exploring.{RacesExplored, RacesWritten};

use crate::asking::{RaceOptions, RaceRequest};
use crate::making::race_script;
use crate::outputs::{has_its_race, race_comment, race_verdict, races_text};
use gt_explore_faults::{ExploreFault, TextsFault};
use gt_explore_races::{RaceSearch, path_to_race, search_races};
use gt_explore_search::SearchWatch;
use gt_explore_verdict::Verdict;
use gt_script::{RunScript, parse_run};
use gt_script_runs::PlayFault;
use gt_text::write_text;
use std::alloc::Global;
use std::io::Write;

// An answer, and the verdict.
#[derive(Drop)]
struct RaceAnswer {
    text: Vec<u8>,
    verdict: Verdict,
}

// Returns a script for `play` that shows the race of this number, or the line in its place.
fn script_of(
    alloc: Global,
    number: usize,
    source: &[u8],
    script: &RunScript,
    search: &RaceSearch,
) -> Result<Vec<u8>, TextsFault>
    requires { CanConfigure (contents_of script.now.head) }
    ensures { IfOk result (λ text. IsRaceScript (run_contents script.now) number search.now.races.items
        search.now.whole search.now.states text.items) }
{
    let Some(at) = number.checked_sub(1) else {
        return Err(TextsFault::Astray);
    };
    let Some(race) = search.races.get(at) else {
        return Err(TextsFault::Astray);
    };
    let path = path_to_race(alloc, script, search, *race)?;
    let count = search.races.len();
    let comment = race_comment(alloc, *race, number, count, search.whole, search.states)?;
    race_script(alloc, source, script, *race, &path, comment.as_slice())
}

// Returns the output for what a search found.
fn output_of(
    alloc: Global,
    request: RaceRequest,
    source: &[u8],
    script: &RunScript,
    search: &RaceSearch,
) -> Result<Vec<u8>, TextsFault>
    requires { CanConfigure (contents_of script.now.head) }
    ensures { IfOk result (λ text. IsRaceOutput (run_contents script.now) request search.now.races.items
        search.now.whole search.now.states text.items) }
{
    match request {
        RaceRequest::Lines => {
            let races = search.races.as_slice();
            let text = races_text(alloc, races, search.whole, search.states)?;
            Ok(text)
        }
        RaceRequest::Witness(number) => script_of(alloc, number, source, script, search),
    }
}

// Returns the answer for what a search found.
fn answer_of(
    alloc: Global,
    asked: &RaceOptions,
    source: &[u8],
    script: &RunScript,
    search: &RaceSearch,
) -> Result<RaceAnswer, ExploreFault>
    requires fits { CanConfigure (contents_of script.now.head) }
    requires are { AreRacesOf (run_contents script.now) search.now.whole search.now.races.items }
    requires few { search.now.states ≤ asked.now.states }
    ensures { MakesRaces (run_contents script.now) asked.now result }
{
    if !has_its_race(asked.request, search.races.len()) {
        return if search.whole {
            Err(ExploreFault::Number)
        } else {
            Err(ExploreFault::Unfound)
        };
    }
    match output_of(alloc, asked.request, source, script, search) {
        Ok(text) => {
            let verdict = race_verdict(search.races.as_slice(), search.whole);
            Ok(RaceAnswer { text, verdict })
        }
        Err(fault) => Err(ExploreFault::Texts(fault)),
    }
}

// Searches for the races of a script, and answers a request by them.
fn answered<T: SearchWatch>(
    alloc: Global,
    asked: &RaceOptions,
    source: &[u8],
    script: &RunScript,
    watch: &mut T,
) -> Result<RaceAnswer, ExploreFault>
    requires fits { CanConfigure (contents_of script.now.head) }
    requires numbered { AreNumbered script.now.flags script.now.tasks }
    ensures { MakesRaces (run_contents script.now) asked.now result }
{
    match search_races(alloc, script, asked.states, watch) {
        Ok(search) => answer_of(alloc, asked, source, script, &search),
        Err(fault) => Err(ExploreFault::Texts(fault)),
    }
}

// Searches for the races of a script that was parsed, and writes the answer. `source` has its lines.
fn explore_parsed<W: Write, T: SearchWatch>(
    alloc: Global,
    asked: &RaceOptions,
    source: &[u8],
    script: &RunScript,
    writer: &mut W,
    watch: &mut T,
) -> Result<Verdict, ExploreFault>
    requires fits { CanConfigure (contents_of script.now.head) }
    requires numbered { AreNumbered script.now.flags script.now.tasks }
    ensures { RacesWritten (run_contents script.now) asked.now (W.contents writer.old) (W.contents writer.new) result }
{
    match answered(alloc, asked, source, script, watch) {
        Err(fault) => Err(fault),
        Ok(made) => match write_text(writer, made.text.as_slice()) {
            Ok(()) => Ok(made.verdict),
            Err(_) => Err(ExploreFault::Play(PlayFault::Write)),
        },
    }
}

/// Answers a request about the races of a script's run. It meets at most `asked.states` states. The verdict is that on
/// the claim that nothing races.
///
/// `Lines` writes a line `race K L` for each race, with the lines of its two calls, or `no race`, and then the number
/// of states that the search met. If there are more states, the last line has that, and `not decided` takes the place
/// of `no race`.
///
/// `Witness` writes a script for `play` that makes the moves up to a race, and then the access of the call of line K
/// and that of line L. If a domain leaves in it with a mapping that it may not unmap, a line may take its place.
///
/// The bytes are a whole text, or the first 1,048,577 of a longer one.
///
/// # Errors
/// `Play` with the script's first fault, or if an allocation or a write failed. `Number` if no race has the number, and
/// `Unfound` if none of those found has it and there may be more. `Texts` with a fault of the search, with `Astray` if
/// the script for `play` does not show the race, or if an allocation failed. Only after a failed write was anything
/// written: a prefix of the answer.
pub fn explore_races<W: Write, T: SearchWatch>(
    alloc: Global,
    asked: &RaceOptions,
    input: &[u8],
    writer: &mut W,
    watch: &mut T,
) -> Result<Verdict, ExploreFault>
    ensures { (all : List ℕ) → input.now ≡ take READ_LIMIT all →
        RacesExplored asked.now (ReadsAsRun all) (W.contents writer.old) (W.contents writer.new) result }
{
    match parse_run(alloc, input) {
        Ok(script) => explore_parsed(alloc, asked, input, &script, writer, watch),
        Err(error) => Err(ExploreFault::Play(PlayFault::from(error))),
    }
}
