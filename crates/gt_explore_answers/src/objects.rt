//! The output as JSON: an object for each text that is shown, and one with the verdict at the end.
ghost use Rattle.std.specs.Prelude.{◌≡◌, ◌++◌, IfOk, OnOk, codes, map, true};
ghost use Rattle.gt_explore_answers.specs.Objects.{bool_name, comma, depth_member, is_nonempty_line, items_from, lines_member};
ghost use Rattle.gt_explore_answers.specs.Objects.{object_start, search_members, summary, text_lines, text_object, verdict_name};
ghost use Rattle.gt_explore_answers.specs.Objects.{witness_member, witness_object};
ghost use Rattle.gt_explore_answers.specs.Outputs.{found_from};
ghost use Rattle.gt_json.specs.Strings.{quoted};

use crate::found::FoundTexts;
use crate::outputs::push_count;
use gt_explore_verdict::Verdict;
use gt_json::push_quoted;
use gt_text::push_text;
use std::alloc::{AllocError, Global};

// Returns whether a line is not empty.
fn is_nonempty(line: &[u8]) -> bool
    ensures { result ≡ is_nonempty_line line.now }
{
    !line.is_empty()
}

// Returns the lines of a text.
fn text_lines<'t>(alloc: Global, text: &'t [u8]) -> Result<Vec<&'t [u8]>, AllocError>
    ensures { IfOk result (λ lines. map (λ l. l.now) lines.items ≡ text_lines text.entry.now) }
{
    text.split(|b| *b == b'\n')
        .filter(|line| is_nonempty(*line))
        .collect(alloc)
}

// Returns what is before an item of an array.
fn comma(is_first: bool) -> &'static str
    ensures { result.now ≡ comma is_first }
{
    if is_first { "" } else { "," }
}

// Appends a line as an item of an array.
fn push_item(out: &mut Vec<u8>, is_first: bool, line: &[u8]) -> Result<(), AllocError>
    ensures { OnOk result (out.new.items ≡ out.old.items ++ (comma is_first ++ quoted line.now)) }
{
    push_text(out, comma(is_first))?;
    push_quoted(out, line)
}

// Appends lines as an array.
fn push_array(out: &mut Vec<u8>, lines: &[&[u8]]) -> Result<(), AllocError>
    ensures { OnOk result (out.new.items
        ≡ out.old.items ++ codes ",\"lines\":[" ++ items_from true (map (λ l. l.now) lines.now) ++ codes "]") }
{
    push_text(out, ",\"lines\":[")?;
    let mut is_first = true;
    'lines: for line in lines {
        push_item(out, is_first, *line)?;
        is_first = false;
    }
    push_text(out, "]")
}

// Appends the lines of a text.
#[tactic(auto, unfolding(crate::specs::Objects::lines_member))]
fn push_lines_member(alloc: Global, out: &mut Vec<u8>, text: &[u8]) -> Result<(), AllocError>
    ensures { OnOk result (out.new.items ≡ out.old.items ++ lines_member text.now) }
{
    let lines = text_lines(alloc, text)?;
    push_array(out, lines.as_slice())
}

// Appends the number of a text, how many there are, and its lines.
#[tactic(auto, unfolding(crate::specs::Objects::object_start))]
fn push_object_start(
    alloc: Global,
    out: &mut Vec<u8>,
    found: &FoundTexts,
    number: usize,
    text: &[u8],
) -> Result<(), AllocError>
    ensures { OnOk result (out.new.items ≡ out.old.items ++ object_start (found_from found.now) number text.now) }
{
    push_count(out, "{\"text\":", number)?;
    push_count(out, ",\"of\":", found.texts.len())?;
    push_lines_member(alloc, out, text)
}

// Appends a script for `play`.
fn push_witness_member(out: &mut Vec<u8>, script: &[u8]) -> Result<(), AllocError>
    ensures { OnOk result (out.new.items ≡ out.old.items ++ witness_member script.now) }
{
    push_text(out, ",\"witness\":")?;
    push_quoted(out, script)
}

/// Appends the object of a text.
pub fn push_text_object(
    alloc: Global,
    out: &mut Vec<u8>,
    found: &FoundTexts,
    number: usize,
    text: &[u8],
) -> Result<(), AllocError>
    ensures { OnOk result (out.new.items ≡ out.old.items ++ text_object (found_from found.now) number text.now) }
{
    push_object_start(alloc, out, found, number, text)?;
    push_text(out, "}\n")
}

/// Appends the object of a text, with a script for `play`.
pub fn push_witness_object(
    alloc: Global,
    out: &mut Vec<u8>,
    found: &FoundTexts,
    number: usize,
    text: &[u8],
    script: &[u8],
) -> Result<(), AllocError>
    ensures { OnOk result (out.new.items
        ≡ out.old.items ++ witness_object (found_from found.now) number text.now script.now) }
{
    push_object_start(alloc, out, found, number, text)?;
    push_witness_member(out, script)?;
    push_text(out, "}\n")
}

fn verdict_name(verdict: Verdict) -> &'static str
    ensures { result.now ≡ verdict_name verdict }
{
    match verdict {
        Verdict::Holds => "holds",
        Verdict::Fails => "fails",
        Verdict::Undecided => "undecided",
    }
}

fn bool_name(value: bool) -> &'static str
    ensures { result.now ≡ bool_name value }
{
    if value { "true" } else { "false" }
}

// Appends the numbers of the search, and whether it found all texts.
#[tactic(auto, unfolding(crate::specs::Objects::search_members))]
fn push_search_members(
    out: &mut Vec<u8>,
    found: &FoundTexts,
    limit: usize,
) -> Result<(), AllocError>
    ensures { OnOk result (out.new.items ≡ out.old.items ++ search_members (found_from found.now) limit) }
{
    push_count(out, "{\"states\":", found.states)?;
    push_count(out, ",\"limit\":", limit)?;
    push_text(out, ",\"whole\":")?;
    push_text(out, bool_name(found.whole))
}

// Appends the number of states on the way to the last one, if the search did not find all texts.
fn push_depth_member(out: &mut Vec<u8>, found: &FoundTexts) -> Result<(), AllocError>
    ensures { OnOk result (out.new.items ≡ out.old.items ++ depth_member (found_from found.now)) }
{
    if found.whole {
        return Ok(());
    }
    push_count(out, ",\"depth\":", found.depth)
}

/// Appends the last object: the numbers of the search, and the verdict.
#[tactic(auto, unfolding(crate::specs::Objects::summary))]
pub fn push_summary(
    out: &mut Vec<u8>,
    found: &FoundTexts,
    limit: usize,
    verdict: Verdict,
) -> Result<(), AllocError>
    ensures { OnOk result (out.new.items ≡ out.old.items ++ summary (found_from found.now) limit verdict) }
{
    push_search_members(out, found, limit)?;
    push_depth_member(out, found)?;
    push_text(out, ",\"verdict\":\"")?;
    push_text(out, verdict_name(verdict))?;
    push_text(out, "\"}\n")
}
