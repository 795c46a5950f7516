//! A script for `play` that shows a race, and the check that it does.
ghost use Rattle.std.specs.Prelude.{◌≡◌, Ok, IfOk, IsTrue};
ghost use Rattle.gt_script.specs.Contents.{contents_of};
ghost use Rattle.gt_script.specs.RunContents.{run_contents};
ghost use Rattle.gt_script.specs.RunScripts.{CanConfigure};
ghost use Rattle.gt_script.specs.Script.{ReadsAsScript};
ghost use Rattle.gt_explore_races.specs.Paths.{LeadsToRace};
ghost use Rattle.gt_explore_racing.specs.Showing.{MakesRace, ShowsRaceAfter};

use crate::calls::begins_call_of;
use crate::lines::are_lines_of;
use gt_explore_faults::TextsFault;
use gt_explore_races::{EventKind, Race, RacePath};
use gt_explore_witness::witness_of;
use gt_moment_scripts::{played, without_script};
use gt_script::{RunScript, Script, ScriptError, parse};
use gt_text::text_of;
use gt_types::DomainConfig;
use std::alloc::Global;

fn is_same(one: DomainConfig, other: DomainConfig) -> bool
    ensures { IsTrue result → one ≡ other }
{
    one == other
}

// Returns whether these are the same domains.
fn are_same(domains: &[DomainConfig], others: &[DomainConfig]) -> bool
    ensures { IsTrue result → domains.now ≡ others.now }
{
    if domains.len() != others.len() {
        return false;
    }
    'domains: for at in 0..domains.len() {
        if !is_same(domains[at], others[at]) {
            return false;
        }
    }
    true
}

// Returns whether these bytes, which are this script for `play`, have the domains of `source`, a line for each of these
// events and the calls of a race, and whether `play` runs them to their end.
fn plays_race(
    alloc: Global,
    source: &RunScript<'_>,
    race: Race,
    events: &[EventKind],
    bytes: &[u8],
    script: &Script<'_>,
) -> Result<bool, TextsFault>
    requires { ReadsAsScript bytes.now (Ok (contents_of script.now)) }
    ensures { IfOk result (λ b. IsTrue b → MakesRace (run_contents source.now) race events.now bytes.now) }
{
    if !are_same(script.head().domains(), source.head().domains()) {
        return Ok(false);
    }
    if !are_lines_of(script.steps(), events) {
        return Ok(false);
    }
    if !begins_call_of(source.tasks(), script.steps(), race.first) {
        return Ok(false);
    }
    if !begins_call_of(source.tasks(), script.steps(), race.second) {
        return Ok(false);
    }
    let _out = played(alloc, bytes)?;
    Ok(true)
}

// Returns whether these bytes are a script for `play` that has the domains of `source`, a line for each of these events
// and the calls of a race, and that `play` runs to its end.
fn makes_race(
    alloc: Global,
    source: &RunScript<'_>,
    race: Race,
    events: &[EventKind],
    bytes: &[u8],
) -> Result<bool, TextsFault>
    ensures { IfOk result (λ b. IsTrue b → MakesRace (run_contents source.now) race events.now bytes.now) }
{
    match parse(alloc, bytes) {
        Ok(script) => plays_race(alloc, source, race, events, bytes, &script),
        Err(ScriptError::Memory) => Err(TextsFault::Memory),
        Err(_) => Ok(false),
    }
}

/// Returns this comment, and a script for `play` whose lines make the events of this path to a race: the last two are
/// the accesses. If the script does not have these lines, and a domain leaves with a mapping that it may not unmap, a
/// line takes its place.
///
/// # Errors
/// `Astray` if the script does not have these lines and no domain leaves with a mapping that it may not unmap, and
/// `Memory`.
pub fn race_script(
    alloc: Global,
    source: &[u8],
    script: &RunScript,
    race: Race,
    path: &RacePath,
    comment: &[u8],
) -> Result<Vec<u8>, TextsFault>
    requires fits { CanConfigure (contents_of script.now.head) }
    requires leads { LeadsToRace (run_contents script.now) race path.now.events.items }
    ensures { IfOk result (λ text. ShowsRaceAfter (run_contents script.now) race comment.now text.items) }
{
    let Ok(source) = text_of(source) else {
        return Err(TextsFault::Astray);
    };
    let witness = witness_of(alloc, source, script, path.turns.as_slice())?;
    let mut text = Vec::from_slice(alloc, comment)?;
    text.extend_from_slice(witness.lines.as_slice())?;
    if makes_race(alloc, script, race, path.events.as_slice(), text.as_slice())? {
        return Ok(text);
    }
    match witness.keeps {
        Some(dom) => without_script(alloc, script, comment, dom),
        None => Err(TextsFault::Astray),
    }
}
