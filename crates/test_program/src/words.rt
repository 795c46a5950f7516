//! The words of command lines: flags by their letters, and commands after their flags.
use gt_command_line::{command_first, leading_word, with_claims, with_long_flags};
use std::alloc::{AllocError, Global};
use std::test::Fail;

/// Returns the words of a command line.
pub(crate) fn words_of(alloc: Global, line: &str) -> Result<Vec<String>, AllocError> {
    let mut words = Vec::new(alloc);
    for word in line.split(' ') {
        words.push(String::from_str(alloc, word)?)?;
    }
    Ok(words)
}

// Lines, and the same with their long flags.
static SPELLED: [(&str, &str); 5] = [
    ("gthost play -v a.gt", "gthost play --verbose a.gt"),
    ("gthost -v run -v", "gthost --verbose run --verbose"),
    ("gthost play -v -- -v", "gthost play --verbose -- -v"),
    ("gthost play -vv -V -", "gthost play -vv -V -"),
    ("gthost rules", "gthost rules"),
];

#[test]
fn a_letter_is_a_long_flag_before_the_mark(rt: HostRuntime) -> Result<(), Fail> {
    let alloc = rt.alloc();
    for (line, wanted) in SPELLED.iter() {
        let words = words_of(alloc, line)?;
        let wanted = words_of(alloc, wanted)?;
        let spelled = with_long_flags(alloc, words.as_slice())?;
        assert!(rt; spelled == wanted);
    }
    Ok(())
}

// Lines, the same with the command before its flags, and the word where the command is expected.
static LED: [(&str, &str, &str); 8] = [
    ("gthost -v play a.gt", "gthost play -v a.gt", "play"),
    (
        "gthost --verbose why a b copy",
        "gthost why --verbose a b copy",
        "why",
    ),
    ("gthost help run", "gthost run --help", "run"),
    ("gthost help", "gthost --help", "help"),
    ("gthost -v help", "gthost --help", "help"),
    ("gthost -v help run", "gthost run --help", "run"),
    ("gthost -v", "gthost -v", "-v"),
    ("gthost play -v help", "gthost play -v help", "play"),
];

#[test]
fn a_command_comes_before_its_flags(rt: HostRuntime) -> Result<(), Fail> {
    let alloc = rt.alloc();
    for (line, wanted, leading) in LED.iter() {
        let words = words_of(alloc, line)?;
        let wanted = words_of(alloc, wanted)?;
        let first = command_first(alloc, words.as_slice())?;
        assert!(rt; first == wanted);
        assert_eq!(rt; leading_word(words.as_slice()), Some(*leading));
    }
    Ok(())
}

// Lines of `explore`, and the same with one option for several claims, whose lines end with `;` here.
static CLAIMED: [(&str, &str); 7] = [
    (
        "gthost explore --never a --find=b f.gt --always c",
        "gthost explore --claims=never~a;find~b;always~c; f.gt",
    ),
    (
        "gthost explore --never a=b f.gt",
        "gthost explore --never a=b f.gt",
    ),
    (
        "gthost explore --never a --find -b",
        "gthost explore --never a --find -b",
    ),
    (
        "gthost explore --never=a --never=b --find",
        "gthost explore --claims=never~a;never~b; --find",
    ),
    (
        "gthost explore --find a --find b -- --find c",
        "gthost explore --claims=find~a;find~b; -- --find c",
    ),
    (
        "gthost check --never a --never b",
        "gthost check --never a --never b",
    ),
    ("gthost explore", "gthost explore"),
];

// Returns a word with a space for each `~` and a line feed for each `;`.
fn unfolded(alloc: Global, word: &str) -> Result<String, AllocError> {
    let mut all = String::new(alloc);
    for letter in word.chars() {
        all.push(match letter {
            '~' => ' ',
            ';' => '\n',
            other => other,
        })?;
    }
    Ok(all)
}

#[test]
fn several_claims_are_one_option(rt: HostRuntime) -> Result<(), Fail> {
    let alloc = rt.alloc();
    for (line, wanted) in CLAIMED.iter() {
        let words = words_of(alloc, line)?;
        let mut unfolded_words = Vec::new(alloc);
        for word in words_of(alloc, wanted)? {
            unfolded_words.push(unfolded(alloc, word.as_str())?)?;
        }
        let all = with_claims(alloc, words.as_slice())?;
        assert!(rt; all == unfolded_words);
    }
    Ok(())
}
