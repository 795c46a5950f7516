//! Several claims of a command line as one option.
ghost use Rattle.std.specs.Prelude.{◌≡◌, ◌++◌, ◌∷◌, [], codes, IfOk, OnOk, map, string_bytes};
ghost use Rattle.std.specs.Option.{option_map};
ghost use Rattle.gt_command_line.specs.Claiming.{claim_word, claim_words, words_ended, is_dashed, kind_of_option, no_words};
ghost use Rattle.gt_command_line.specs.Claiming.{option_of, stated_in, words_taken, with_claim, with_claims, with_option};
ghost use Rattle.gt_command_line.specs.Claiming.{with_other, with_returned, with_value, with_word, words_joined};

use crate::leading::joined;
use gt_explore_verdict::Claim;
use std::alloc::{AllocError, Global};

// The claims among the words of a command line, and the other words.
#[derive(Drop)]
struct ClaimWords {
    alloc: Global,
    // The claims, a line each.
    text: String,
    others: Vec<String>,
    // The claim whose expression comes next.
    waiting: Option<Claim>,
    // The mark `--` was met.
    is_marked: bool,
    has_one: bool,
    has_several: bool,
}

// Returns the option that states a claim.
fn option_of(claim: Claim) -> &'static str
    ensures { result.now ≡ option_of claim }
{
    match claim {
        Claim::Find => "--find",
        Claim::Never => "--never",
        Claim::Always => "--always",
    }
}

// Returns the word by which a claim begins.
fn claim_word(claim: Claim) -> &'static str
    ensures { result.now ≡ claim_word claim }
{
    match claim {
        Claim::Find => "find ",
        Claim::Never => "never ",
        Claim::Always => "always ",
    }
}

// Returns the claim that an option states.
fn kind_of_option(word: &str) -> Option<Claim>
    ensures { result ≡ kind_of_option word.now }
{
    match word {
        "--find" => Some(Claim::Find),
        "--never" => Some(Claim::Never),
        "--always" => Some(Claim::Always),
        _ => None,
    }
}

// Returns the claim that an option states with its expression attached: `--never=EXPR`.
fn stated_in<'w>(word: &'w str) -> Option<(Claim, &'w str)>
    ensures { option_map (λ p. (p.0, p.1.now)) result ≡ stated_in word.entry.now }
{
    match word.split_once('=') {
        Some((option, expression)) => match kind_of_option(option) {
            Some(claim) => Some((claim, expression)),
            None => None,
        },
        None => None,
    }
}

// Returns whether a word begins with `-`, and so can't be the value of an option.
fn is_dashed(word: &str) -> bool
    ensures { result ≡ is_dashed word.now }
{
    match word.as_bytes() {
        [first, ..] => *first == b'-',
        [] => false,
    }
}

// Makes a collection of no words.
fn no_words(alloc: Global) -> ClaimWords
    ensures { claim_words result ≡ no_words }
{
    ClaimWords {
        alloc,
        text: String::new(alloc),
        others: Vec::new(alloc),
        waiting: None,
        is_marked: false,
        has_one: false,
        has_several: false,
    }
}

impl ClaimWords {
    ghost use Rattle.std.specs.Prelude.{◌≡◌, OnOk};
    ghost use Rattle.gt_command_line.specs.Claiming.{claim_words, words_ended, with_claim, with_option, with_other, with_returned};
    ghost use Rattle.gt_command_line.specs.Claiming.{with_value, with_word};

    // Adds a claim.
    fn push_claim(&mut self, claim: Claim, expression: &str) -> Result<(), AllocError>
        ensures { OnOk result (claim_words self.new ≡ with_claim (claim_words self.old) claim expression.now) }
    {
        self.text.push_str(claim_word(claim))?;
        self.text.push_str(expression)?;
        self.text.push_str("\n")?;
        self.waiting = None;
        self.has_several = self.has_several || self.has_one;
        self.has_one = true;
        Ok(())
    }

    // Adds a word that states no claim.
    fn push_other(&mut self, word: &str) -> Result<(), AllocError>
        ensures { OnOk result (claim_words self.new ≡ with_other (claim_words self.old) word.now) }
    {
        let alloc = self.alloc;
        self.others.push(String::from_str(alloc, word)?)?;
        self.is_marked = self.is_marked || word == "--";
        Ok(())
    }

    // Adds an option whose expression did not come as another word.
    fn return_option(&mut self, claim: Claim) -> Result<(), AllocError>
        ensures { OnOk result (claim_words self.new ≡ with_returned (claim_words self.old) claim) }
    {
        self.waiting = None;
        self.push_other(option_of(claim))
    }

    // Adds the word after the option of a claim: its expression, unless the word is an option.
    fn take_value(&mut self, claim: Claim, word: &str) -> Result<(), AllocError>
        ensures { OnOk result (claim_words self.new ≡ with_value (claim_words self.old) claim word.now) }
    {
        if is_dashed(word) {
            self.return_option(claim)?;
            self.push_other(word)
        } else {
            self.push_claim(claim, word)
        }
    }

    // Adds a word that no option waits for.
    fn take_option(&mut self, word: &str) -> Result<(), AllocError>
        ensures { OnOk result (claim_words self.new ≡ with_option (claim_words self.old) word.now) }
    {
        if let Some(claim) = kind_of_option(word) {
            self.waiting = Some(claim);
            return Ok(());
        }
        match stated_in(word) {
            Some((claim, expression)) => self.push_claim(claim, expression),
            None => self.push_other(word),
        }
    }

    // Adds a word.
    fn take(&mut self, word: &str) -> Result<(), AllocError>
        ensures { OnOk result (claim_words self.new ≡ with_word (claim_words self.old) word.now) }
    {
        if self.is_marked {
            return self.push_other(word);
        }
        match self.waiting {
            Some(claim) => self.take_value(claim, word),
            None => self.take_option(word),
        }
    }

    // Ends the words.
    fn end(&mut self) -> Result<(), AllocError>
        ensures { OnOk result (claim_words self.new ≡ words_ended (claim_words self.old)) }
    {
        match self.waiting {
            Some(claim) => self.return_option(claim),
            None => Ok(()),
        }
    }
}

// Returns the claims among these words, and the others.
fn words_taken(alloc: Global, words: &[String]) -> Result<ClaimWords, AllocError>
    ensures { IfOk result (λ all. claim_words all ≡ words_ended (words_taken no_words (map string_bytes words.now))) }
{
    let mut all = no_words(alloc);
    'words: for word in words {
        all.take(word.as_str())?;
    }
    all.end()?;
    Ok(all)
}

// Returns the option for these claims.
fn claims_option(alloc: Global, text: &str) -> Result<String, AllocError>
    ensures { IfOk result (λ option. string_bytes option ≡ codes "--claims=" ++ text.now) }
{
    let mut option = String::from_str(alloc, "--claims=")?;
    option.push_str(text)?;
    Ok(option)
}

// Returns the words of `explore` with one option for its claims, if there are several.
fn words_joined(
    alloc: Global,
    program: &str,
    command: &str,
    words: &[String],
) -> Result<Vec<String>, AllocError>
    ensures { IfOk result (λ all. map string_bytes all.items
        ≡ words_joined program.now command.now (map string_bytes words.now)) }
{
    let all = words_taken(alloc, words)?;
    if !all.has_several {
        return joined(alloc, [program, command].as_slice(), words);
    }
    let option = claims_option(alloc, all.text.as_str())?;
    let first = [program, command, option.as_str()];
    joined(alloc, first.as_slice(), all.others.as_slice())
}

/// Returns the words of a command line, the program's name first, with one option `--claims` in place of the claims of
/// `explore`, if there are several: `--find`, `--never` and `--always` with their expressions. The value has a line for
/// each. Other words are unchanged, and so are the words after the mark `--`.
pub fn with_claims(alloc: Global, words: &[String]) -> Result<Vec<String>, AllocError>
    ensures { IfOk result (λ all. map string_bytes all.items ≡ with_claims (map string_bytes words.now)) }
{
    match words {
        [program, command, others @ ..] if command.as_str() == "explore" => {
            words_joined(alloc, program.as_str(), command.as_str(), others)
        }
        _ => joined(alloc, [].as_slice(), words),
    }
}
