//! The lines of an answer.
ghost use Rattle.std.specs.Prelude.{◌≡◌, IfOk};
ghost use Rattle.gt_explore_moments.specs.Outputs.{holds_lines, moment_comment, undecided_lines};

use gt_text::{push_number, push_text};
use std::alloc::{AllocError, Global};

/// Returns the answer `holds`: no order has such a moment.
pub fn holds_lines(alloc: Global, states: usize) -> Result<Vec<u8>, AllocError>
    ensures { IfOk result (λ text. text.items ≡ holds_lines states) }
{
    let mut text = Vec::new(alloc);
    push_text(&mut text, "holds\nstates ")?;
    push_number(&mut text, states)?;
    push_text(&mut text, "\n")?;
    Ok(text)
}

/// Returns the answer that no such moment was found.
pub fn undecided_lines(alloc: Global, states: usize) -> Result<Vec<u8>, AllocError>
    ensures { IfOk result (λ text. text.items ≡ undecided_lines states) }
{
    let mut text = Vec::new(alloc);
    push_text(&mut text, "not decided\nstates ")?;
    push_number(&mut text, states)?;
    push_text(&mut text, ": not all states; raise --states\n")?;
    Ok(text)
}

/// Returns the comment over a script that reaches a moment at which this claim holds.
pub fn moment_comment(alloc: Global, claim: &str, states: usize) -> Result<Vec<u8>, AllocError>
    ensures { IfOk result (λ text. text.items ≡ moment_comment claim.now states) }
{
    let mut text = Vec::new(alloc);
    push_text(&mut text, "# does not hold: at its end ")?;
    push_text(&mut text, claim)?;
    push_text(&mut text, "\n# states ")?;
    push_number(&mut text, states)?;
    push_text(&mut text, "\n")?;
    Ok(text)
}
