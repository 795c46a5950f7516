//! The names that the lines of a script have.
ghost use Rattle.std.specs.Prelude.{◌≡◌, ◌++◌, IfOk, OnOk, map};
ghost use Rattle.gt_call_names.specs.Naming.{has_given_name, is_given_name, line_name, number_if, numbers_named};

use gt_script_lines::{Text, is_word, line_words, split_name};
use std::alloc::{AllocError, Global};

// Returns the name of the call of a line, if it has one.
fn line_name<'a>(words: &[&'a [u8]]) -> Option<Text<'a>>
    ensures { result ≡ line_name (map (λ word. word.now) words.now) }
{
    match words {
        [word, _, call @ ..] if is_word(word, "do") => split_name(call).1,
        _ => None,
    }
}

// Returns whether a name is this one.
fn is_given_name(found: Option<Text<'_>>, name: &[u8]) -> bool
    ensures { result ≡ is_given_name found.entry name.now }
{
    match found {
        Some(text) => text.as_bytes() == name,
        None => false,
    }
}

// Returns whether the call of a line has this name.
fn has_given_name(alloc: Global, line: &str, name: &[u8]) -> Result<bool, AllocError>
    ensures { IfOk result (λ b. b ≡ has_given_name name.now line.now) }
{
    let words = line_words(alloc, line)?;
    Ok(is_given_name(line_name(words.as_slice()), name))
}

// Appends the number of a line, if it is wanted.
fn push_if(numbers: &mut Vec<usize>, wanted: bool, number: usize) -> Result<(), AllocError>
    ensures { OnOk result (numbers.new.items ≡ numbers.old.items ++ number_if wanted number) }
{
    if wanted {
        numbers.push(number)?;
    }
    Ok(())
}

/// Returns the numbers of the lines whose calls have this name.
pub(crate) fn numbers_named(
    alloc: Global,
    lines: &[&str],
    name: &[u8],
) -> Result<Vec<usize>, AllocError>
    ensures { IfOk result (λ numbers. numbers.items ≡ numbers_named name.now 1 (map (λ line. line.now) lines.now)) }
{
    let mut numbers = Vec::new(alloc);
    let mut number = 1;
    'lines: for line in lines {
        let wanted = has_given_name(alloc, line, name)?;
        push_if(&mut numbers, wanted, number)?;
        number += 1;
    }
    Ok(numbers)
}
