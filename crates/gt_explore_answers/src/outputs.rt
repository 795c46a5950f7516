//! The output of `explore`: texts under their numbers, verdicts, and the comments over scripts.
ghost use Rattle.std.specs.Prelude.{◌≡◌, ◌++◌, ◌<◌, [], codes, decimal, if◌then◌else◌, length, IfSome, OnOk};
ghost use Rattle.std.specs.List.{flat_map};
ghost use Rattle.gt_explore_answers.specs.Exploring.{number_output, verdict_line};
ghost use Rattle.gt_explore_answers.specs.Outputs.{comment_byte, commented, counterexample_comment};
ghost use Rattle.gt_explore_answers.specs.Outputs.{counterexample_lines};
ghost use Rattle.gt_explore_answers.specs.Outputs.{found_from, heading, heading_line};
ghost use Rattle.gt_explore_answers.specs.Outputs.{states_line, states_output, text_shown, texts_listed, texts_output};
ghost use Rattle.gt_explore_answers.specs.Outputs.{unplayable_line, witness_comment};
ghost use Rattle.gt_explore_answers.specs.Texts.{texts_of_orders};

use crate::found::FoundTexts;
use gt_explore_search::FoundText;
use gt_explore_verdict::Verdict;
use gt_text::{push_number, push_text};
use gt_types::DomId;
use std::alloc::{AllocError, Global};

/// Appends a text and a number.
pub fn push_count(out: &mut Vec<u8>, before: &str, count: usize) -> Result<(), AllocError>
    ensures { OnOk result (out.new.items ≡ out.old.items ++ before.now ++ decimal count) }
{
    push_text(out, before)?;
    push_number(out, count)
}

// Returns the words between the number of a text and that of all texts.
fn of_count(whole: bool) -> &'static str
    ensures { result.now ≡ (if whole then codes " of " else codes " of at least ") }
{
    if whole { " of " } else { " of at least " }
}

/// Appends the number of a text, and how many there are.
#[tactic(auto, unfolding(crate::specs::Outputs::heading))]
pub fn push_heading(
    out: &mut Vec<u8>,
    whole: bool,
    count: usize,
    number: usize,
) -> Result<(), AllocError>
    ensures { OnOk result (out.new.items ≡ out.old.items ++ heading whole count number) }
{
    push_count(out, "text ", number)?;
    push_count(out, of_count(whole), count)
}

/// Appends the number of a text as a line.
pub fn push_heading_line(
    out: &mut Vec<u8>,
    found: &FoundTexts,
    number: usize,
) -> Result<(), AllocError>
    ensures { OnOk result (out.new.items ≡ out.old.items ++ heading_line (found_from found.now) number) }
{
    push_heading(out, found.whole, found.texts.len(), number)?;
    push_text(out, "\n")
}

// Appends a text under its number, if it is wanted.
fn push_shown(
    out: &mut Vec<u8>,
    wanted: bool,
    whole: bool,
    count: usize,
    number: usize,
    text: &[u8],
) -> Result<(), AllocError>
    ensures { OnOk result (out.new.items ≡ out.old.items ++ text_shown wanted whole count number text.now) }
{
    if !wanted {
        return Ok(());
    }
    push_heading(out, whole, count, number)?;
    push_text(out, "\n")?;
    out.extend_from_slice(text)
}

// Appends the wanted ones of these texts under their numbers.
fn push_listed(
    out: &mut Vec<u8>,
    whole: bool,
    texts: &[FoundText],
    wanted: &[bool],
) -> Result<(), AllocError>
    requires { length wanted.now ≡ length texts.now }
    ensures { OnOk result (out.new.items
        ≡ out.old.items ++ texts_listed whole (length texts.now) 0 (texts_of_orders texts.now) wanted.now) }
{
    let mut number = 0;
    'texts: for order in texts {
        let wants = wanted[number];
        number += 1;
        push_shown(
            out,
            wants,
            whole,
            texts.len(),
            number,
            order.text.as_slice(),
        )?;
    }
    Ok(())
}

// Appends that there may be more texts, if these are not all.
fn push_limit(out: &mut Vec<u8>, found: &FoundTexts) -> Result<(), AllocError>
    ensures { OnOk result (out.new.items ≡ out.old.items ++ (if found.now.whole then []
        else codes ", depth " ++ decimal found.now.depth ++ codes ": not all texts; raise --states")) }
{
    if found.whole {
        return Ok(());
    }
    push_count(out, ", depth ", found.depth)?;
    push_text(out, ": not all texts; raise --states")
}

// Appends the number of states, and that there may be more texts.
#[tactic(auto, unfolding(crate::specs::Outputs::states_output))]
fn push_states(out: &mut Vec<u8>, found: &FoundTexts) -> Result<(), AllocError>
    ensures { OnOk result (out.new.items ≡ out.old.items ++ states_output (found_from found.now)) }
{
    push_count(out, "states ", found.states)?;
    push_limit(out, found)
}

/// Appends the last line of the output: the number of states, and whether there may be more texts.
pub fn push_states_line(out: &mut Vec<u8>, found: &FoundTexts) -> Result<(), AllocError>
    ensures { OnOk result (out.new.items ≡ out.old.items ++ states_line (found_from found.now)) }
{
    push_states(out, found)?;
    push_text(out, "\n")
}

/// Appends the whole output for the wanted ones of these texts.
pub fn push_found_texts(
    out: &mut Vec<u8>,
    found: &FoundTexts,
    wanted: &[bool],
) -> Result<(), AllocError>
    requires { length wanted.now ≡ length found.now.texts.items }
    ensures { OnOk result (out.new.items ≡ out.old.items ++ texts_output (found_from found.now) wanted.now) }
{
    push_listed(out, found.whole, found.texts.as_slice(), wanted)?;
    push_states_line(out, found)
}

// Returns the first line of a verdict that no text shows.
fn verdict_line(verdict: Verdict) -> &'static str
    ensures { result.now ≡ verdict_line verdict }
{
    match verdict {
        Verdict::Holds => "holds\n",
        Verdict::Fails => "does not hold\n",
        Verdict::Undecided => "not decided\n",
    }
}

/// Appends a verdict that no text shows.
pub fn push_verdict(
    out: &mut Vec<u8>,
    found: &FoundTexts,
    verdict: Verdict,
) -> Result<(), AllocError>
    ensures { OnOk result (out.new.items
        ≡ out.old.items ++ (verdict_line verdict ++ states_line (found_from found.now))) }
{
    push_text(out, verdict_line(verdict))?;
    push_states_line(out, found)
}

/// Appends the number of the text at this index, if there is one.
pub fn push_place(
    out: &mut Vec<u8>,
    found: &FoundTexts,
    place: Option<usize>,
) -> Result<(), AllocError>
    requires { IfSome place (λ at. at < length found.now.texts.items) }
    ensures { OnOk result (out.new.items ≡ out.old.items ++ number_output (found_from found.now) place) }
{
    if let Some(at) = place {
        push_heading_line(out, found, at + 1)?;
    }
    push_states_line(out, found)
}

// Appends a byte of a comment.
#[tactic(auto, unfolding(crate::specs::Outputs::comment_byte))]
fn push_comment_byte(out: &mut Vec<u8>, byte: u8) -> Result<(), AllocError>
    ensures { OnOk result (out.new.items ≡ out.old.items ++ comment_byte byte) }
{
    if byte == b'\n' {
        push_text(out, "\n# ")
    } else {
        out.push(byte)?;
        Ok(())
    }
}

// Appends a text without its last line end as a comment of a script.
#[tactic(auto, unfolding(crate::specs::Outputs::commented))]
fn push_commented(out: &mut Vec<u8>, text: &[u8]) -> Result<(), AllocError>
    ensures { OnOk result (out.new.items ≡ out.old.items ++ commented text.now) }
{
    push_text(out, "# ")?;
    'bytes: for byte in text {
        push_comment_byte(out, *byte)?;
    }
    push_text(out, "\n")
}

// Appends the lines of the comment over a script that shows that a claim does not hold.
#[tactic(auto, unfolding(crate::specs::Outputs::counterexample_lines))]
fn push_counterexample_lines(
    out: &mut Vec<u8>,
    found: &FoundTexts,
    number: usize,
    text: &[u8],
) -> Result<(), AllocError>
    ensures { OnOk result (out.new.items
        ≡ out.old.items ++ counterexample_lines (found_from found.now) number text.now) }
{
    push_text(out, "does not hold: ")?;
    push_heading_line(out, found, number)?;
    out.extend_from_slice(text)?;
    push_states(out, found)
}

/// Appends the comment over a script that shows that a claim does not hold.
pub fn push_counterexample(
    alloc: Global,
    out: &mut Vec<u8>,
    found: &FoundTexts,
    number: usize,
    text: &[u8],
) -> Result<(), AllocError>
    ensures { OnOk result (out.new.items
        ≡ out.old.items ++ counterexample_comment (found_from found.now) number text.now) }
{
    let mut lines = Vec::new(alloc);
    push_counterexample_lines(&mut lines, found, number, text)?;
    push_commented(out, lines.as_slice())
}

/// Appends the line in place of a script for `play` that was not found: this domain leaves with a mapping that it may
/// not unmap.
pub fn push_unplayable(out: &mut Vec<u8>, dom: DomId) -> Result<(), AllocError>
    ensures { OnOk result (out.new.items ≡ out.old.items ++ unplayable_line dom.0) }
{
    push_text(out, "# no script for play gives it: domain ")?;
    push_number(out, dom.0)?;
    push_text(out, " leaves with a mapping that it may not unmap\n")
}

/// Appends the comment over a script that gives the text of this number.
pub fn push_witness_comment(
    alloc: Global,
    out: &mut Vec<u8>,
    found: &FoundTexts,
    number: usize,
) -> Result<(), AllocError>
    ensures { OnOk result (out.new.items
        ≡ out.old.items ++ witness_comment (found_from found.now) number) }
{
    let mut block = Vec::new(alloc);
    push_heading(&mut block, found.whole, found.texts.len(), number)?;
    push_commented(out, block.as_slice())
}
