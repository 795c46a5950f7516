//! The lines of an answer.
ghost use Rattle.std.specs.Prelude.{◌≡◌, ◌++◌, IfOk, OnOk};
ghost use Rattle.gt_explore_racing.specs.Outputs.{no_race_line, race_line, race_lines, race_verdict, races_text};
ghost use Rattle.gt_explore_racing.specs.Outputs.{has_its_race, met_end, met_line, of_races, race_comment};
ghost use Rattle.gt_explore_racing.specs.Outputs.{race_name, race_number};

use crate::asking::RaceRequest;
use gt_explore_races::Race;
use gt_explore_verdict::Verdict;
use gt_text::{push_number, push_text};
use std::alloc::{AllocError, Global};

// Appends the lines of a race.
fn push_race_name(out: &mut Vec<u8>, race: Race) -> Result<(), AllocError>
    ensures { OnOk result (out.new.items ≡ out.old.items ++ race_name race) }
{
    push_text(out, "race ")?;
    push_number(out, race.first)?;
    push_text(out, " ")?;
    push_number(out, race.second)?;
    Ok(())
}

// Appends the same as a line.
fn push_race(out: &mut Vec<u8>, race: Race) -> Result<(), AllocError>
    ensures { OnOk result (out.new.items ≡ out.old.items ++ race_line race) }
{
    push_race_name(out, race)?;
    push_text(out, "\n")?;
    Ok(())
}

// Appends a line for each race.
fn push_races(out: &mut Vec<u8>, races: &[Race]) -> Result<(), AllocError>
    ensures { OnOk result (out.new.items ≡ out.old.items ++ race_lines races.now) }
{
    'races: for race in races {
        push_race(out, *race)?;
    }
    Ok(())
}

// Returns the line in place of races.
fn no_race_line(whole: bool) -> &'static str
    ensures { result.now ≡ no_race_line whole }
{
    if whole { "no race\n" } else { "not decided\n" }
}

// Returns what comes after the number of states that the search met.
fn met_end(whole: bool) -> &'static str
    ensures { result.now ≡ met_end whole }
{
    if whole {
        "\n"
    } else {
        ": not all states; raise --states\n"
    }
}

// Appends the number of states that the search met.
fn push_states(out: &mut Vec<u8>, whole: bool, states: usize) -> Result<(), AllocError>
    ensures { OnOk result (out.new.items ≡ out.old.items ++ met_line whole states) }
{
    push_text(out, "states ")?;
    push_number(out, states)?;
    push_text(out, met_end(whole))?;
    Ok(())
}

/// Returns the answer for these races, which are all if the search was whole.
pub fn races_text(
    alloc: Global,
    races: &[Race],
    whole: bool,
    states: usize,
) -> Result<Vec<u8>, AllocError>
    ensures { IfOk result (λ text. text.items ≡ races_text races.now whole states) }
{
    let mut text = Vec::new(alloc);
    if races.is_empty() {
        push_text(&mut text, no_race_line(whole))?;
        push_states(&mut text, whole, states)?;
        return Ok(text);
    }
    push_races(&mut text, races)?;
    push_states(&mut text, whole, states)?;
    Ok(text)
}

// Returns the words between the number of a race and that of all races that were found.
fn of_races(whole: bool) -> &'static str
    ensures { result.now ≡ of_races whole }
{
    if whole { " of " } else { " of at least " }
}

// Appends the number of a race, and that of all races that were found.
fn push_race_number(
    out: &mut Vec<u8>,
    number: usize,
    count: usize,
    whole: bool,
) -> Result<(), AllocError>
    ensures { OnOk result (out.new.items ≡ out.old.items ++ race_number number count whole) }
{
    push_text(out, ": ")?;
    push_number(out, number)?;
    push_text(out, of_races(whole))?;
    push_number(out, count)?;
    push_text(out, "\n# ")?;
    Ok(())
}

/// Returns the comment over a script that shows the race of this number, one of `count` races.
pub fn race_comment(
    alloc: Global,
    race: Race,
    number: usize,
    count: usize,
    whole: bool,
    states: usize,
) -> Result<Vec<u8>, AllocError>
    ensures { IfOk result (λ text. text.items ≡ race_comment race number count whole states) }
{
    let mut text = Vec::new(alloc);
    push_text(&mut text, "# ")?;
    push_race_name(&mut text, race)?;
    push_race_number(&mut text, number, count, whole)?;
    push_states(&mut text, whole, states)?;
    Ok(text)
}

/// Returns whether one of this number of races has the number that a request names. A request that names none has what
/// it needs.
pub fn has_its_race(request: RaceRequest, count: usize) -> bool
    ensures { result ≡ has_its_race request count }
{
    match request {
        RaceRequest::Lines => true,
        RaceRequest::Witness(number) => 0 < number && number <= count,
    }
}

/// Returns the verdict on the claim that nothing races, if these races were found.
pub fn race_verdict(races: &[Race], whole: bool) -> Verdict
    ensures { result ≡ race_verdict races.now whole }
{
    if !races.is_empty() {
        return Verdict::Fails;
    }
    if whole {
        Verdict::Holds
    } else {
        Verdict::Undecided
    }
}
