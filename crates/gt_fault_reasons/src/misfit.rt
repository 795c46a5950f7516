//! The number of words of a line that fit a form.
ghost use Rattle.std.specs.Prelude.{◌≡◌, ◌≤◌, IfOk, length, map};
ghost use Rattle.gt_fault_reasons.specs.Fitting.{fits_example, IsFitting};

use gt_script_lines::read_line;
use std::alloc::{AllocError, Global};

// Returns whether the first `count` words, continued by the rest of the example, are a line that can be read.
fn fits<'w>(
    alloc: Global,
    words: &[&'w [u8]],
    example: &[&'w [u8]],
    count: usize,
) -> Result<bool, AllocError>
    requires words { count ≤ length words.now }
    requires example { count ≤ length example.now }
    ensures { IfOk result (λ b. b ≡ fits_example (map (λ w. w.now) words.now) (map (λ w. w.now) example.now) count) }
{
    let mut line = Vec::from_slice(alloc, &words[..count])?;
    line.extend_from_slice(&example[count..])?;
    Ok(read_line(line.as_slice()).is_some())
}

/// Returns how many of the first words of a line fit an example: continued by the rest of the example they are a line
/// that can be read, and with one more word they are not, or the line or the example has no more words. It is 0 if the
/// first word doesn't fit.
pub fn fitting<'w>(
    alloc: Global,
    words: &[&'w [u8]],
    example: &[&'w [u8]],
) -> Result<usize, AllocError>
    ensures { IfOk result (IsFitting (map (λ w. w.now) words.now) (map (λ w. w.now) example.now)) }
{
    let most = words.len().min(example.len());
    'counts: for count in 0..most {
        if !fits(alloc, words, example, count + 1)? {
            return Ok(count);
        }
    }
    Ok(most)
}
