//! Letters for long flags.
ghost use Rattle.std.specs.Prelude.{◌≡◌, IfOk, map, string_bytes};
ghost use Rattle.gt_command_line.specs.Letters.{long_word, with_long_flags};

use std::alloc::{AllocError, Global};

// Returns the word, with `--verbose` for `-v` before the mark.
fn long_word(alloc: Global, is_marked: bool, word: &str) -> Result<String, AllocError>
    ensures { IfOk result (λ s. string_bytes s ≡ long_word is_marked word.now) }
{
    if !is_marked && word == "-v" {
        String::from_str(alloc, "--verbose")
    } else {
        String::from_str(alloc, word)
    }
}

/// Returns the words with `--verbose` instead of `-v`, up to the mark `--`.
pub fn with_long_flags(alloc: Global, words: &[String]) -> Result<Vec<String>, AllocError>
    ensures { IfOk result (λ all. map string_bytes all.items ≡ with_long_flags (map string_bytes words.now)) }
{
    let mut all = Vec::new(alloc);
    let mut is_marked = false;
    'words: for word in words {
        is_marked = is_marked || word.as_str() == "--";
        all.push(long_word(alloc, is_marked, word.as_str())?)?;
    }
    Ok(all)
}
