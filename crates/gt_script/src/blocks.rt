//! The policy block of a script: its lines, and its policy.
ghost use Rattle.std.specs.Prelude.{◌≡◌, ◌+◌, ◌<◌, ◌^◌, ℕ, List, IfOk, IfSome, map, length, string_bytes};
ghost use Rattle.gt_script.specs.Blocks.{closing, is_just as says_just, opening};
ghost use Rattle.gt_script.specs.Blocks.{block_text as text_in, IsPolicyOf};

use crate::faults::ScriptError;
use gt_policy::Policy;
use gt_script_lines::{is_word, line_words};
use std::alloc::{AllocError, Global};

fn is_just(words: &[&[u8]], word: &str) -> bool
    ensures { result ≡ says_just word.now (map (λ w. w.now) words.now) }
{
    match words {
        [only] => is_word(only, word),
        _ => false,
    }
}

/// Returns the index of the line `policy` that opens the policy block, if it is the first line with words.
///
/// # Errors
/// An allocation failed.
pub fn block_opening(alloc: Global, lines: &[&str]) -> Result<Option<usize>, AllocError>
    ensures opens { IfOk result (λ place. place ≡ opening (map (λ line. line.now) lines.now)) }
    ensures within { IfOk result (λ place. IfSome place (λ i. i < length lines.now)) }
{
    'lines: for (i, line) in lines.iter().enumerate() {
        let words = line_words(alloc, line)?;
        if !words.is_empty() {
            let opens = is_just(words.as_slice(), "policy");
            return Ok(if opens { Some(i) } else { None });
        }
    }
    Ok(None)
}

/// Returns the index of the first line `end`, which closes the policy block.
///
/// # Errors
/// An allocation failed.
pub fn block_closing(alloc: Global, lines: &[&str]) -> Result<Option<usize>, AllocError>
    ensures closes { IfOk result (λ place. place ≡ closing (map (λ line. line.now) lines.now)) }
    ensures within { IfOk result (λ place. IfSome place (λ i. i < length lines.now)) }
{
    'lines: for (i, line) in lines.iter().enumerate() {
        if is_just(line_words(alloc, line)?.as_slice(), "end") {
            return Ok(Some(i));
        }
    }
    Ok(None)
}

// Joins the lines of a block to its text.
fn block_text(alloc: Global, lines: &[&str]) -> Result<String, AllocError>
    ensures { IfOk result (λ text. string_bytes text ≡ text_in (map (λ line. line.now) lines.now)) }
{
    let mut text = String::new(alloc);
    'lines: for line in lines {
        text.push_str(line)?;
        text.push('\n')?;
    }
    Ok(text)
}

/// Parses the policy of the lines of a block. A fault has its line in the script, in which `before` lines precede the
/// block.
pub fn read_policy(alloc: Global, before: usize, lines: &[&str]) -> Result<Policy, ScriptError>
    requires { before < 2 ^ 63 }
    ensures { IsPolicyOf before (map (λ line. line.now) lines.now) result }
{
    let text = block_text(alloc, lines)?;
    match Policy::parse(alloc, text.as_str()) {
        Ok(policy) => Ok(policy),
        Err(fault) => Err(ScriptError::in_block(before, fault)),
    }
}
