//! The words before a command.
ghost use Rattle.std.specs.Prelude.{◌≡◌, ◌&&◌, ◌++◌, IfOk, Some, map, string_bytes};
ghost use Rattle.std.specs.Option.{option_map};
ghost use Rattle.gt_command_line.specs.Leading.{command_first, first_or, help_first, is_help, is_verbose, leading_word};

use std::alloc::{AllocError, Global};

fn is_verbose(word: &str) -> bool
    ensures { result ≡ is_verbose word.now }
{
    word == "-v" || word == "--verbose"
}

fn is_help(word: &str) -> bool
    ensures { result ≡ is_help word.now }
{
    word == "help"
}

// Returns whether these two words are a flag for reasons and `help`.
fn is_help_behind(flag: &str, word: &str) -> bool
    ensures { result ≡ (is_verbose flag.now && is_help word.now) }
{
    is_verbose(flag) && is_help(word)
}

/// Returns these words and then the others.
pub(crate) fn joined(
    alloc: Global,
    first: &[&str],
    others: &[String],
) -> Result<Vec<String>, AllocError>
    ensures { IfOk result (λ all. map string_bytes all.items
        ≡ map (λ w. w.now) first.now ++ map string_bytes others.now) }
{
    let mut all = Vec::new(alloc);
    'first: for word in first {
        all.push(String::from_str(alloc, word)?)?;
    }
    'others: for word in others {
        all.push(String::from_str(alloc, word.as_str())?)?;
    }
    Ok(all)
}

// Returns the words that ask for help on the command that comes first, or on the program if there are no words.
fn help_first(alloc: Global, program: &str, words: &[String]) -> Result<Vec<String>, AllocError>
    ensures { IfOk result (λ all. map string_bytes all.items
        ≡ help_first program.now (map string_bytes words.now)) }
{
    match words {
        [command, others @ ..] => {
            let first = [program, command.as_str(), "--help"];
            joined(alloc, first.as_slice(), others)
        }
        [] => {
            let first = [program, "--help"];
            joined(alloc, first.as_slice(), &[])
        }
    }
}

/// Returns the words of a command line, the program's name first, with the command before its flags: a flag `-v` or
/// `--verbose` before the command comes after its name instead, and `help` before a command becomes its flag `--help`.
/// A flag before `help` is dropped.
pub fn command_first(alloc: Global, words: &[String]) -> Result<Vec<String>, AllocError>
    ensures { IfOk result (λ all. map string_bytes all.items ≡ command_first (map string_bytes words.now)) }
{
    match words {
        [program, help, others @ ..] if is_help(help.as_str()) => {
            help_first(alloc, program.as_str(), others)
        }
        [program, flag, help, others @ ..] if is_help_behind(flag.as_str(), help.as_str()) => {
            help_first(alloc, program.as_str(), others)
        }
        [program, flag, command, others @ ..] if is_verbose(flag.as_str()) => {
            let first = [program.as_str(), command.as_str(), flag.as_str()];
            joined(alloc, first.as_slice(), others)
        }
        _ => joined(alloc, [].as_slice(), words),
    }
}

// Returns the first of the other words, or `word` if there are no others.
fn first_or<'a>(word: &'a String, others: &'a [String]) -> &'a str
    ensures { Some result.now ≡ first_or (string_bytes word.entry.now) (map string_bytes others.entry.now) }
{
    match others {
        [first, ..] => first.as_str(),
        [] => word.as_str(),
    }
}

/// Returns the word of a command line where a command is expected. It is the first word after the program's name, or
/// the one after a flag `-v` or `--verbose`, after `help`, or after both.
pub fn leading_word(words: &[String]) -> Option<&str>
    ensures { option_map (λ w. w.now) result ≡ leading_word (map string_bytes words.now) }
{
    match words {
        [_, help, others @ ..] if is_help(help.as_str()) => Some(first_or(help, others)),
        [_, flag, help, others @ ..] if is_help_behind(flag.as_str(), help.as_str()) => {
            Some(first_or(help, others))
        }
        [_, flag, command, ..] if is_verbose(flag.as_str()) => Some(command.as_str()),
        [_, word, ..] => Some(word.as_str()),
        _ => None,
    }
}
