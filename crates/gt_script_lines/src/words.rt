//! Lines and words.
ghost use Rattle.std.specs.Prelude.{◌≡◌, IfOk, map};
ghost use Rattle.std.specs.Str.Lines.{lines as lines_in};
ghost use Rattle.gt_script_lines.specs.Words.{words as words_in, uncommented as without_comment};

use std::alloc::{AllocError, Global};

/// Splits a text into lines at each LF, and drops a CR before it.
pub fn text_lines<'a>(alloc: Global, text: &'a str) -> Result<Vec<&'a str>, AllocError>
    ensures { IfOk result (λ v. map (λ line. line.now) v.items ≡ lines_in text.entry.now) }
{
    text.lines().collect(alloc)
}

fn uncommented<'a>(line: &'a str) -> &'a str
    ensures { result.now ≡ without_comment line.entry.now }
{
    match line.split_once('#') {
        Some((front, _)) => front,
        None => line,
    }
}

/// Splits a line into its words, at spaces and tabs, up to its comment.
pub fn line_words<'a>(alloc: Global, line: &'a str) -> Result<Vec<&'a [u8]>, AllocError>
    ensures { IfOk result (λ v. map (λ word. word.now) v.items ≡ words_in line.entry.now) }
{
    uncommented(line)
        .as_bytes()
        .split(|byte| *byte == b' ' || *byte == b'\t')
        .filter(|word| !word.is_empty())
        .collect(alloc)
}
