//! What is printed of the texts of a script with choices.
ghost use Rattle.std.specs.Prelude.{◌≡◌, ◌++◌, ◌<◌, IfOk, IfSome, OnOk, length};
ghost use Rattle.gt_explore_answers.specs.Exploring.{number_output, verdict_line};
ghost use Rattle.gt_explore_answers.specs.Outputs.{counterexample_comment, found_from, states_line, texts_output};
ghost use Rattle.gt_explore_by_choice.specs.Answering.{waiting_comment, waiting_line};

use gt_explore_answers::{
    FoundTexts, push_counterexample, push_found_texts, push_place, push_verdict,
};
use gt_explore_verdict::Verdict;
use gt_text::{push_number, push_text};
use std::alloc::{AllocError, Global};

/// Returns the wanted ones of these texts under their numbers, and the number of states.
///
/// # Errors
/// An allocation failed.
pub fn texts_output(
    alloc: Global,
    found: &FoundTexts,
    wanted: &[bool],
) -> Result<Vec<u8>, AllocError>
    requires { length wanted.now ≡ length found.now.texts.items }
    ensures { IfOk result (λ out. out.items ≡ texts_output (found_from found.now) wanted.now) }
{
    let mut out = Vec::new(alloc);
    push_found_texts(&mut out, found, wanted)?;
    Ok(out)
}

/// Returns a verdict that no text shows, and the number of states.
///
/// # Errors
/// An allocation failed.
pub fn verdict_shown(
    alloc: Global,
    found: &FoundTexts,
    verdict: Verdict,
) -> Result<Vec<u8>, AllocError>
    ensures { IfOk result (λ out. out.items ≡ verdict_line verdict ++ states_line (found_from found.now)) }
{
    let mut out = Vec::new(alloc);
    push_verdict(&mut out, found, verdict)?;
    Ok(out)
}

/// Returns the number of the text at this index, if there is one, and the number of states.
///
/// # Errors
/// An allocation failed.
pub fn place_shown(
    alloc: Global,
    found: &FoundTexts,
    place: Option<usize>,
) -> Result<Vec<u8>, AllocError>
    requires { IfSome place (λ at. at < length found.now.texts.items) }
    ensures { IfOk result (λ out. out.items ≡ number_output (found_from found.now) place) }
{
    let mut out = Vec::new(alloc);
    push_place(&mut out, found, place)?;
    Ok(out)
}

/// Returns the comment over a script that gives a text of this number, which shows that a claim does not hold.
///
/// # Errors
/// An allocation failed.
pub fn counterexample_comment(
    alloc: Global,
    found: &FoundTexts,
    number: usize,
    text: &[u8],
) -> Result<Vec<u8>, AllocError>
    ensures { IfOk result (λ out. out.items ≡ counterexample_comment (found_from found.now) number text.now) }
{
    let mut out = Vec::new(alloc);
    push_counterexample(alloc, &mut out, found, number, text)?;
    Ok(out)
}

// Appends the number of choices in which a domain waits for ever as a comment.
fn push_waiting_line(out: &mut Vec<u8>, waiting: usize) -> Result<(), AllocError>
    ensures { OnOk result (out.new.items ≡ out.old.items ++ waiting_comment waiting) }
{
    push_text(out, "# choices in which a domain waits for ever: ")?;
    push_number(out, waiting)?;
    push_text(out, "\n")
}

/// Appends the number of choices in which a domain waits for ever as a comment, if there are such.
///
/// # Errors
/// An allocation failed.
pub fn push_waiting(out: &mut Vec<u8>, waiting: usize) -> Result<(), AllocError>
    ensures { OnOk result (out.new.items ≡ out.old.items ++ waiting_line waiting) }
{
    if waiting == 0 {
        Ok(())
    } else {
        push_waiting_line(out, waiting)
    }
}
