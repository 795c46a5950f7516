//! Lists of races.
ghost use Rattle.std.specs.Prelude.{IfOk};
ghost use Rattle.std.specs.List.Sorted.{IsStrictlySortedBy};
ghost use Rattle.gt_script.specs.Contents.{contents_of};
ghost use Rattle.gt_script.specs.RunContents.{run_contents};
ghost use Rattle.gt_script.specs.RunScripts.{CanConfigure};
ghost use Rattle.gt_explore_races.specs.Listing.{HasRacesOfTexts, IsTextOfRace};
ghost use Rattle.gt_explore_races.specs.Races.{EachRaces};
ghost use Rattle.gt_explore_races.specs.Texts.{race_cmp};

use crate::racing::{Race, race_text};
use crate::replaying::race_of_turns;
use gt_explore_faults::TextsFault;
use gt_explore_search::FoundText;
use gt_script::RunScript;
use std::alloc::Global;

// Returns the race whose text was found. The turns with it lead to the race.
fn race_of_text(
    alloc: Global,
    script: &RunScript<'_>,
    found: &FoundText,
) -> Result<Race, TextsFault>
    requires { CanConfigure (contents_of script.now.head) }
    ensures { IfOk result (IsTextOfRace (run_contents script.now) found.now) }
{
    let Some(race) = race_of_turns(alloc, script, found.turns.as_slice())? else {
        return Err(TextsFault::Astray);
    };
    let text = race_text(alloc, race)?;
    if text.as_slice() == found.text.as_slice() {
        Ok(race)
    } else {
        Err(TextsFault::Astray)
    }
}

// Returns the races whose texts were found. An empty text is that of a run that did not end at a race.
fn races_of_texts(
    alloc: Global,
    script: &RunScript<'_>,
    found: &[FoundText],
) -> Result<Vec<Race>, TextsFault>
    requires { CanConfigure (contents_of script.now.head) }
    ensures each { IfOk result (λ races. EachRaces (run_contents script.now) races.items) }
    ensures said { IfOk result (λ races. HasRacesOfTexts found.now races.items) }
{
    let mut races = Vec::new(alloc);
    'found: for order in found {
        if order.text.is_empty() {
            continue;
        }
        races.push(race_of_text(alloc, script, order)?)?;
    }
    Ok(races)
}

/// Returns the races whose texts were found, each once, in ascending order.
///
/// # Errors
/// `Astray` if the core does not follow the turns of a text to its race, and `Memory`.
pub fn races_found(
    alloc: Global,
    script: &RunScript<'_>,
    found: &[FoundText],
) -> Result<Vec<Race>, TextsFault>
    requires { CanConfigure (contents_of script.now.head) }
    ensures ascending { IfOk result (λ races. IsStrictlySortedBy race_cmp races.items) }
    ensures each { IfOk result (λ races. EachRaces (run_contents script.now) races.items) }
    ensures said { IfOk result (λ races. HasRacesOfTexts found.now races.items) }
{
    let mut races = races_of_texts(alloc, script, found)?;
    races.sort()?;
    races.dedup();
    Ok(races)
}
