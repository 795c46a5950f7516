//! What is printed of a command line that the parser refuses.
use crate::invocation::Mode;
use crate::line::{Part, parts_of};
use crate::planning::{mode_of, usage_text};
use clap::Error;
use std::alloc::{AllocError, Global};

// What is said of a flag for reasons without a command.
const NO_COMMAND: &str =
    "unexpected argument '--verbose' found\n\n  tip: it goes with a command, as in 'gthost play -v'";

// What is said of letters behind `-v` in one word.
const LETTERS: &str =
    "unexpected argument '-v' found\n\n  tip: '-v' is given once, and as a word by itself";

// What is said of a command with the flag of the program.
const VERSION: &str =
    "unexpected argument '--version' found\n\n  tip: 'gthost --version' prints the version";

// What is said of the words `version` and `help` where a command is expected.
const NO_VERSION: &str =
    "unrecognized subcommand 'version'\n\n  tip: 'gthost --version' prints the version";

const NO_HELP: &str = "unrecognized subcommand 'help'\n\n  tip: 'gthost help' lists the commands";

// Returns the word in quotes between these parts of a text.
fn quoted_in<'t>(text: &'t str, front: &str, back: &str) -> Option<&'t str> {
    let rest = text.strip_prefix(front)?;
    let (word, _) = rest.split_once(back)?;
    Some(word)
}

// Returns whether a word is the option of a command that takes a value.
fn takes_value(mode: Mode, word: &str) -> bool {
    let Some(name) = word.strip_prefix("--") else {
        return false;
    };
    parts_of(mode).iter().any(|part| match part {
        Part::Free(id, _) | Part::Needed(id, _) => *id == name,
        Part::Word(..) | Part::Flag(_) => false,
    })
}

// Returns what is said of a word that is taken for a flag, if it was to be the value of the option before it.
fn value_said(
    alloc: Global,
    mode: Mode,
    words: &[String],
    word: &str,
) -> Result<Option<String>, AllocError> {
    for pair in words.windows(2) {
        let [option, value] = pair else {
            continue;
        };
        if value.as_str().starts_with(word) && takes_value(mode, option.as_str()) {
            let said = format!(in alloc;
                "unexpected argument '{word}' found\n\n  tip: a value that begins with - comes after =, as in '{option}={value}'"
            )?;
            return Ok(Some(said));
        }
    }
    Ok(None)
}

// Returns what is said of an argument that a command does not expect, in place of the words of the parser.
fn argument_said(
    alloc: Global,
    mode: Option<Mode>,
    words: &[String],
    word: &str,
) -> Result<Option<String>, AllocError> {
    let said = match (mode, word) {
        (_, "-v") => LETTERS,
        (None, "--verbose") => NO_COMMAND,
        (Some(_), "--version") => VERSION,
        (Some(Mode::Check), file) if !file.starts_with('-') => {
            let said = format!(in alloc;
                "check takes at most 8 FILEs, each checked alone, and '{file}' is one more"
            )?;
            return Ok(Some(said));
        }
        (Some(mode), word) if word.starts_with('-') => return value_said(alloc, mode, words, word),
        _ => return Ok(None),
    };
    Ok(Some(String::from_str(alloc, said)?))
}

// Returns what is said of words in place of the text of the parser, if that would mislead.
fn said_instead(
    alloc: Global,
    mode: Option<Mode>,
    words: &[String],
    text: &str,
) -> Result<Option<String>, AllocError> {
    if let Some(word) = quoted_in(text, "error: unexpected argument '", "' found") {
        return argument_said(alloc, mode, words, word);
    }
    let said = match quoted_in(text, "error: unrecognized subcommand '", "'\n") {
        Some("version") => NO_VERSION,
        Some("help") => NO_HELP,
        _ => return Ok(None),
    };
    Ok(Some(String::from_str(alloc, said)?))
}

/// Returns the text for a command line of these words that the parser refuses with an error: that of the parser, or
/// what fits better where it would mislead. The program's name is the first of the words.
pub fn refusal_text(alloc: Global, words: &[String], error: &Error) -> Result<String, AllocError> {
    let text = format!(in alloc; "{error}")?;
    let mode = match words.get(1) {
        Some(word) => mode_of(word.as_str()),
        None => None,
    };
    match said_instead(alloc, mode, words, text.as_str())? {
        Some(said) => {
            let usage = usage_text(mode);
            format!(in alloc;
                "error: {said}\n\nUsage: {usage}\n\nFor more information, try '--help'.\n"
            )
        }
        None => Ok(text),
    }
}
