//! The output for texts that were found.
ghost use Rattle.std.specs.Prelude.{◌≡◌, ◌++◌, ◌∷◌, ◌-◌, ◌&&◌, [], codes, decimal, IfOk, OnOk, length, map, true};
ghost use Rattle.std.specs.Prelude.{slice_index_or};
ghost use Rattle.gt_explore_summary.specs.Columns.{filled_lines, split_lines};
ghost use Rattle.gt_explore_summary.specs.Lines.{difference_written};
ghost use Rattle.gt_explore_answers.specs.Exploring.{verdict_of_all};
ghost use Rattle.gt_explore_answers.specs.Outputs.{found_from, heading};
ghost use Rattle.gt_explore_answers.specs.Texts.{texts_of_orders};
ghost use Rattle.gt_explore_summary.specs.Summing.{column_form, has_its_numbers, is_a_number, pair_heading};
ghost use Rattle.gt_explore_summary.specs.Summing.{search_ended};
ghost use Rattle.gt_explore_summary.specs.Summing.{summed, text_numbered};

use crate::asking::{SummaryOptions, SummaryRequest};
use crate::columns::{TextLines, split_lines};
use crate::lines::{ColumnForm, push_difference, push_summary_lines};
use gt_explore_answers::{
    ExploreFormat, ExploreOutput, FoundTexts, push_heading, push_states_line, push_summary,
};
use gt_explore_search::FoundText;
use gt_explore_verdict::Verdict;
use gt_text::{push_number, push_text};
use std::alloc::{AllocError, Global};

// Returns the form of the lines of a format.
fn column_form(format: ExploreFormat) -> ColumnForm
    ensures { result ≡ column_form format }
{
    match format {
        ExploreFormat::Text => ColumnForm::Text,
        ExploreFormat::Json => ColumnForm::Json,
    }
}

// Returns whether one of this number of texts has a number.
fn is_a_number(number: usize, count: usize) -> bool
    ensures { result ≡ is_a_number number count }
{
    0 < number && number <= count
}

/// Returns whether the texts that a request names are among this number of texts.
pub fn has_its_numbers(request: SummaryRequest, count: usize) -> bool
    ensures { result ≡ has_its_numbers request count }
{
    match request {
        SummaryRequest::Answers => true,
        SummaryRequest::Difference(one, other) => {
            is_a_number(one, count) && is_a_number(other, count)
        }
    }
}

// Returns the lines of these texts.
fn lines_of_texts<'f>(
    alloc: Global,
    orders: &'f [FoundText],
) -> Result<Vec<TextLines<'f>>, AllocError>
    ensures { IfOk result (λ texts. map filled_lines texts.items
        ≡ map split_lines (texts_of_orders orders.entry.now)) }
{
    let mut texts = Vec::new(alloc);
    'orders: for order in orders {
        let lines = split_lines(alloc, order.text.as_slice())?;
        texts.push(TextLines { lines })?;
    }
    Ok(texts)
}

// Returns the text of this number, or an empty one if there is none.
fn text_numbered<'f>(found: &'f FoundTexts, number: usize) -> &'f [u8]
    ensures { result.now ≡ text_numbered (found_from found.entry.now) number }
{
    match found.texts.get(number.saturating_sub(1)) {
        Some(order) => order.text.as_slice(),
        None => &[],
    }
}

// Returns the lines of the text of this number.
fn numbered_lines<'f>(
    alloc: Global,
    found: &'f FoundTexts,
    number: usize,
) -> Result<TextLines<'f>, AllocError>
    ensures { IfOk result (λ text.
        filled_lines text ≡ split_lines (text_numbered (found_from found.entry.now) number)) }
{
    let lines = split_lines(alloc, text_numbered(found, number))?;
    Ok(TextLines { lines })
}

// Returns the lines of the texts of these numbers.
fn lines_of_both<'f>(
    alloc: Global,
    found: &'f FoundTexts,
    one: usize,
    other: usize,
) -> Result<Vec<TextLines<'f>>, AllocError>
    ensures { IfOk result (λ texts. map filled_lines texts.items
        ≡ split_lines (text_numbered (found_from found.entry.now) one)
        ∷ split_lines (text_numbered (found_from found.entry.now) other) ∷ []) }
{
    let mut texts = Vec::new(alloc);
    texts.push(numbered_lines(alloc, found, one)?)?;
    texts.push(numbered_lines(alloc, found, other)?)?;
    Ok(texts)
}

// Appends the numbers of two texts as a line, or as an object.
#[tactic(auto, unfolding(crate::specs::Summing::pair_heading))]
fn push_pair_heading(
    out: &mut Vec<u8>,
    format: ExploreFormat,
    found: &FoundTexts,
    one: usize,
    other: usize,
) -> Result<(), AllocError>
    ensures { OnOk result (out.new.items ≡ out.old.items ++ pair_heading format (found_from found.now) one other) }
{
    let count = found.texts.len();
    match format {
        ExploreFormat::Text => {
            push_heading(out, found.whole, count, one)?;
            push_text(out, " | ")?;
            push_heading(out, found.whole, count, other)?;
            push_text(out, "\n")
        }
        ExploreFormat::Json => {
            push_text(out, "{\"texts\":[")?;
            push_number(out, one)?;
            push_text(out, ",")?;
            push_number(out, other)?;
            push_text(out, "],\"of\":")?;
            push_number(out, count)?;
            push_text(out, "}\n")
        }
    }
}

// Appends the lines in which two texts differ, under their numbers.
fn push_pair(
    alloc: Global,
    out: &mut Vec<u8>,
    format: ExploreFormat,
    found: &FoundTexts,
    one: usize,
    other: usize,
) -> Result<(), AllocError>
    ensures { OnOk result (out.new.items ≡ out.old.items
        ++ (pair_heading format (found_from found.now) one other ++ difference_written (column_form format)
        (split_lines (text_numbered (found_from found.now) one)
        ∷ split_lines (text_numbered (found_from found.now) other) ∷ []))) }
{
    let texts = lines_of_both(alloc, found, one, other)?;
    push_pair_heading(out, format, found, one, other)?;
    push_difference(alloc, out, column_form(format), texts.as_slice())
}

// Appends what is asked for about the texts.
fn push_summed(
    alloc: Global,
    out: &mut Vec<u8>,
    asked: &SummaryOptions,
    found: &FoundTexts,
) -> Result<(), AllocError>
    ensures { OnOk result (out.new.items
        ≡ out.old.items ++ summed asked.now.format (found_from found.now) asked.now.request) }
{
    match asked.request {
        SummaryRequest::Answers => {
            let texts = lines_of_texts(alloc, found.texts.as_slice())?;
            push_summary_lines(alloc, out, column_form(asked.format), texts.as_slice())
        }
        SummaryRequest::Difference(one, other) => {
            push_pair(alloc, out, asked.format, found, one, other)
        }
    }
}

// Returns the verdict of a summary: whether these are all texts.
fn verdict_of_all(whole: bool) -> Verdict
    ensures { result ≡ verdict_of_all whole }
{
    if whole {
        Verdict::Holds
    } else {
        Verdict::Undecided
    }
}

// Appends the numbers of the search.
fn push_end(out: &mut Vec<u8>, asked: &SummaryOptions, found: &FoundTexts) -> Result<(), AllocError>
    ensures { OnOk result (out.new.items
        ≡ out.old.items ++ search_ended asked.now.format asked.now.states (found_from found.now)) }
{
    match asked.format {
        ExploreFormat::Text => push_states_line(out, found),
        ExploreFormat::Json => {
            push_summary(out, found, asked.states, verdict_of_all(found.whole))
        }
    }
}

/// Returns what is printed for texts that were found, and whether these are all.
///
/// # Errors
/// An allocation failed.
pub fn summary_output(
    alloc: Global,
    asked: &SummaryOptions,
    found: &FoundTexts,
) -> Result<ExploreOutput, AllocError>
    ensures { IfOk result (λ made. (made.text.items
        ≡ summed asked.now.format (found_from found.now) asked.now.request
        ++ search_ended asked.now.format asked.now.states (found_from found.now))
        × (made.verdict ≡ verdict_of_all found.now.whole)) }
{
    let mut text = Vec::new(alloc);
    push_summed(alloc, &mut text, asked, found)?;
    push_end(&mut text, asked, found)?;
    let verdict = verdict_of_all(found.whole);
    Ok(ExploreOutput { text, verdict })
}
