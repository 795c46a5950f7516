//! The policy block of a script, as a text.
ghost use Rattle.std.specs.Prelude.{◌≡◌, ◌++◌, map, replicate, string_bytes, IfOk};
ghost use Rattle.std.specs.Option.{option_map};
ghost use Rattle.gt_script.specs.Blocks.{block_text as text_in, opening};
ghost use Rattle.gt_fault_reasons.specs.Blocks.{block_from, policy_block};

use gt_script::{block_closing, block_opening};
use gt_script_lines::text_lines;
use std::alloc::{AllocError, Global};

/// Returns whether the first line with words is a line `policy`.
pub fn has_policy(alloc: Global, lines: &[&str]) -> Result<bool, AllocError> {
    let place = block_opening(alloc, lines)?;
    Ok(place.is_some())
}

// Returns these lines, each with a line feed, after this number of empty lines.
fn lines_after(alloc: Global, before: usize, lines: &[&str]) -> Result<String, AllocError>
    ensures { IfOk result (λ text. string_bytes text
        ≡ replicate before 10 ++ text_in (map (λ line. line.now) lines.now)) }
{
    let mut text = "\n".repeat(alloc, before)?;
    'lines: for line in lines {
        text.push_str(line)?;
        text.push('\n')?;
    }
    Ok(text)
}

/// Returns the policy block of these lines of a script, with an empty line for each line before it, so that its lines
/// have their numbers in the script. None if no line opens a block, or if no line `end` closes it.
///
/// # Errors
/// An allocation failed.
pub fn block_text(alloc: Global, lines: &[&str]) -> Result<Option<String>, AllocError>
    ensures { let said = map (λ line. line.now) lines.now in
        IfOk result (λ block. option_map (λ b. string_bytes b) block ≡ block_from said (opening said)) }
{
    let Some(place) = block_opening(alloc, lines)? else {
        return Ok(None);
    };
    let rest = &lines[place + 1..];
    let Some(end) = block_closing(alloc, rest)? else {
        return Ok(None);
    };
    let text = lines_after(alloc, place + 1, &rest[..end])?;
    Ok(Some(text))
}

/// Returns the policy block of a script in the same way.
///
/// # Errors
/// An allocation failed.
pub fn policy_block(alloc: Global, script: &str) -> Result<Option<String>, AllocError>
    ensures { IfOk result (λ block. option_map (λ b. string_bytes b) block ≡ policy_block script.now) }
{
    let lines = text_lines(alloc, script)?;
    block_text(alloc, lines.as_slice())
}
