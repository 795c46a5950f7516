//! Whether a given text has the lines and the domains of a run of the script.
ghost use Rattle.std.specs.Prelude.{◌≡◌, ◌++◌, ◌<◌, IfOk, OnOk, is_some, length, map};
ghost use Rattle.std.specs.List.{flat_map};
ghost use Rattle.gt_script.specs.RunContents.{run_contents};
ghost use Rattle.gt_explore_verdict.specs.Satisfying.{line_words};
ghost use Rattle.gt_explore_answers.specs.Exploring.{index_of_text};
ghost use Rattle.gt_explore_answers.specs.Given.{answer_places, ends_in_cr, fault_by, first_wrong, is_answer_at};
ghost use Rattle.gt_explore_answers.specs.Given.{is_right_at, line_fault, answer_places_of, refused_text, wrong_from};
ghost use Rattle.gt_explore_answers.specs.Outputs.{found_from};

use crate::answering::text_place;
use crate::asking::ExploreRequest;
use crate::conditions::is_call;
use crate::found::FoundTexts;
use gt_explore_faults::TextFault;
use gt_explore_verdict::{is_written, line_words, lines_in, may_begin};
use gt_script::{RunScript, RunTask};
use gt_types::{DomId, DomainConfig};
use std::alloc::{AllocError, Global};

// The line and the domain of an answer.
#[derive(Clone, Copy)]
struct AnswerPlace {
    line: usize,
    dom: DomId,
}

// Appends the places of the answers of a domain, in the order of its list.
fn push_places(
    places: &mut Vec<AnswerPlace>,
    tasks: &[RunTask],
    dom: DomId,
) -> Result<(), AllocError>
    ensures { OnOk result (places.new.items ≡ places.old.items ++ flat_map (answer_places_of dom) tasks.now) }
{
    'tasks: for task in tasks {
        if task.dom.0 == dom.0 && is_call(&task.run_action) {
            places.push(AnswerPlace {
                line: task.line,
                dom,
            })?;
        }
    }
    Ok(())
}

// Returns the places of all answers, in the order of a text.
fn answer_places(alloc: Global, script: &RunScript) -> Result<Vec<AnswerPlace>, AllocError>
    ensures { IfOk result (λ places. places.items ≡ answer_places (run_contents script.now)) }
{
    let mut places = Vec::new(alloc);
    'domains: for domain in script.head().domains() {
        push_places(&mut places, script.tasks(), domain.id)?;
    }
    Ok(places)
}

// Returns whether a line is an answer of this place, by its words.
#[tactic(auto, unfolding(crate::specs::Given::is_answer_at))]
fn is_answer_at(alloc: Global, place: AnswerPlace, words: &[&[u8]]) -> Result<bool, AllocError>
    ensures { IfOk result (λ b. b ≡ is_answer_at place (map (λ w. w.now) words.now)) }
{
    match words {
        [number, dom, first, more @ ..] => {
            let is_line = is_written(alloc, place.line, number)?;
            let is_domain = is_written(alloc, usize::from(place.dom.0), dom)?;
            Ok(is_line && is_domain && may_begin(first, more))
        }
        _ => Ok(false),
    }
}

// Returns whether a line is an answer of this place.
fn line_is_answer(alloc: Global, place: AnswerPlace, line: &[u8]) -> Result<bool, AllocError>
    ensures { IfOk result (λ b. b ≡ is_answer_at place (line_words line.now)) }
{
    let words = line_words(alloc, line)?;
    is_answer_at(alloc, place, words.as_slice())
}

// Returns whether the line at this index, of `count` lines, is the one that each text has there. What follows the last
// line end is a line too, and empty.
fn is_right_at(
    alloc: Global,
    places: &[AnswerPlace],
    count: usize,
    at: usize,
    line: &[u8],
) -> Result<bool, AllocError>
    requires { at < count }
    ensures { IfOk result (λ b. b ≡ is_right_at places.now count at line.now) }
{
    if at + 1 == count {
        return Ok(at == places.len() && line.is_empty());
    }
    match places.get(at) {
        Some(place) => line_is_answer(alloc, *place, line),
        None => Ok(false),
    }
}

// Returns whether a line ends with a carriage return.
fn ends_in_cr(line: &[u8]) -> bool
    ensures { result ≡ ends_in_cr line.now }
{
    line.ends_with(b"\r")
}

// Returns why a line is not an answer line.
fn line_fault(line: &[u8]) -> TextFault
    ensures { result ≡ line_fault line.now }
{
    if ends_in_cr(line) {
        TextFault::CarriageReturn
    } else if line.starts_with(b"audit ") {
        TextFault::Audit
    } else if line.starts_with(b"{") {
        TextFault::Json
    } else {
        TextFault::Line
    }
}

// Returns the same, if the text ends in this line or before it, too early.
fn fault_by(is_cut: bool, line: &[u8]) -> TextFault
    ensures { result ≡ fault_by is_cut line.now }
{
    match line_fault(line) {
        TextFault::Line => {
            if is_cut {
                TextFault::Cut
            } else {
                TextFault::Line
            }
        }
        fault => fault,
    }
}

// Returns the number and the fault of the first of these lines that no text has there.
fn wrong_line(
    alloc: Global,
    places: &[AnswerPlace],
    lines: &[&[u8]],
) -> Result<Option<(usize, TextFault)>, AllocError>
    ensures { IfOk result (λ o. o ≡ wrong_from places.now (length lines.now) 0 (map (λ l. l.now) lines.now)) }
{
    let mut at = 0;
    'lines: for line in lines {
        if !is_right_at(alloc, places, lines.len(), at, line)? {
            let is_cut = at + 1 == lines.len() && at < places.len();
            return Ok(Some((at + 1, fault_by(is_cut, line))));
        }
        at += 1;
    }
    Ok(None)
}

// Returns the number and the fault of the first line of a text that no text of the script has there.
fn first_wrong(
    alloc: Global,
    script: &RunScript,
    text: &[u8],
) -> Result<Option<(usize, TextFault)>, AllocError>
    ensures { IfOk result (λ o. o ≡ first_wrong (run_contents script.now) text.now) }
{
    let places = answer_places(alloc, script)?;
    let lines = lines_in(alloc, text)?;
    wrong_line(alloc, places.as_slice(), lines.as_slice())
}

// Returns whether a text is one of those found.
fn is_found(found: &FoundTexts, text: &[u8]) -> bool
    ensures { result ≡ is_some (index_of_text text.now (found_from found.now).texts) }
{
    match text_place(found.texts.as_slice(), text) {
        Some(_) => true,
        None => false,
    }
}

/// Returns the number and the fault of the first line of a given text that no text of the script has there. `None` if
/// the request gives none, or if it is one of the texts found, or if these are not all texts.
pub fn refused_text(
    alloc: Global,
    script: &RunScript,
    request: ExploreRequest<'_>,
    found: &FoundTexts,
) -> Result<Option<(usize, TextFault)>, AllocError>
    ensures { IfOk result (λ o. o ≡ refused_text (run_contents script.now) request.entry (found_from found.now)) }
{
    match request {
        ExploreRequest::Has(text) => {
            if found.whole && !is_found(found, text) {
                first_wrong(alloc, script, text)
            } else {
                Ok(None)
            }
        }
        ExploreRequest::Texts | ExploreRequest::Decide { .. } => Ok(None),
        ExploreRequest::Witness(_) | ExploreRequest::Witnesses => Ok(None),
    }
}
