//! Claims: from a text to its terms.
ghost use Rattle.std.specs.Prelude.{◌≡◌, ◌+◌, ◌<◌, ◌^◌, IfErr, IfOk, Ok, length, map};
ghost use Rattle.std.specs.List.{list_any};
ghost use Rattle.gt_state_claims.specs.Claims.{claim_asked};
ghost use Rattle.gt_state_claims.specs.Reading.{about_read, claim_read, denied_read, denied_words, has_bracket};
ghost use Rattle.gt_state_claims.specs.Reading.{has_bytes, is_between, one_word};
ghost use Rattle.gt_state_claims.specs.Reading.{parts_at, signed_read, state_term_read, term_words};
ghost use Rattle.gt_state_claims.specs.Reading.{choices_read, terms_in, terms_read, unbracketed_read};
ghost use Rattle.gt_state_claims.specs.Reading.{IsFaultOfClaim, IsReadFault};
ghost use Rattle.std.specs.Result.{result_map_both};

use crate::claims::StateClaim;
use crate::fault::{StateClaimFault, StateTermFault};
use crate::terms::StateTerm;
use crate::words::{entry_of, test_of};
use gt_types::LONGEST_TEXT;
use std::alloc::{AllocError, Global};

// Splits a text at each mark of this kind.
fn parts_at<'e>(alloc: Global, mark: u8, text: &'e [u8]) -> Result<Vec<&'e [u8]>, AllocError>
    ensures { IfOk result (λ parts. map (λ p. p.now) parts.items ≡ parts_at mark text.entry.now) }
{
    text.split(|b| *b == mark).collect(alloc)
}

fn is_between(byte: u8) -> bool
    ensures { result ≡ is_between byte }
{
    byte == b' ' || byte == b':'
}

fn has_bytes(word: &[u8]) -> bool
    ensures { result ≡ has_bytes word.now }
{
    !word.is_empty()
}

// Splits a term into its words.
fn term_words<'e>(alloc: Global, text: &'e [u8]) -> Result<Vec<&'e [u8]>, AllocError>
    ensures { IfOk result (λ words. map (λ w. w.now) words.items ≡ term_words text.entry.now) }
{
    text.split(|b| is_between(*b))
        .filter(|word| has_bytes(*word))
        .collect(alloc)
}

fn has_bracket(word: &[u8]) -> bool
    ensures { result ≡ has_bracket word.now }
{
    word.iter().any(|b| *b == b'(' || *b == b')')
}

// Returns whether one of these words has a bracket.
fn have_bracket(words: &[&[u8]]) -> bool
    ensures { result ≡ list_any has_bracket (map (λ w. w.now) words.now) }
{
    'words: for word in words {
        if has_bracket(word) {
            return true;
        }
    }
    false
}

// Returns the only word after `ID.REF`.
fn one_word<'e>(words: &[&'e [u8]]) -> Result<&'e [u8], StateTermFault>
    ensures { result_map_both (λ w. w.now) (λ fault. fault) result ≡ one_word (map (λ w. w.now) words.now) }
{
    match words {
        [] => Err(StateTermFault::Ended),
        [word] => Ok(*word),
        [_word, _other, ..] => Err(StateTermFault::Words),
    }
}

// Reads `ID.REF` and the words after it.
fn about(denied: bool, place: &[u8], words: &[&[u8]]) -> Result<StateTerm, StateTermFault>
    ensures { result ≡ about_read denied place.now (map (λ w. w.now) words.now) }
{
    let (dom, gref) = entry_of(place)?;
    let test = test_of(one_word(words)?)?;
    Ok(StateTerm {
        denied,
        dom,
        gref,
        test,
    })
}

// Reads the words after a `!` that is a word.
fn denied_words(words: &[&[u8]]) -> Result<StateTerm, StateTermFault>
    ensures { result ≡ denied_words (map (λ w. w.now) words.now) }
{
    match words {
        [] => Err(StateTermFault::Empty),
        [place, words @ ..] => about(true, place, words),
    }
}

// Reads the rest of a word after a `!`, and the words after that.
fn denied_read(rest: &[u8], words: &[&[u8]]) -> Result<StateTerm, StateTermFault>
    ensures { result ≡ denied_read rest.now (map (λ w. w.now) words.now) }
{
    match rest {
        [] => denied_words(words),
        [_first, ..] => about(true, rest, words),
    }
}

// Reads the first word of a term, and the words after it.
fn signed_read(word: &[u8], words: &[&[u8]]) -> Result<StateTerm, StateTermFault>
    ensures { result ≡ signed_read word.now (map (λ w. w.now) words.now) }
{
    match word {
        [b'!', rest @ ..] => denied_read(rest, words),
        _ => about(false, word, words),
    }
}

fn unbracketed_read(words: &[&[u8]]) -> Result<StateTerm, StateTermFault>
    ensures { result ≡ unbracketed_read (map (λ w. w.now) words.now) }
{
    match words {
        [] => Err(StateTermFault::Empty),
        [word, words @ ..] => signed_read(word, words),
    }
}

// Reads the words of a term.
fn state_term_read(words: &[&[u8]]) -> Result<StateTerm, StateTermFault>
    ensures { result ≡ state_term_read (map (λ w. w.now) words.now) }
{
    if have_bracket(words) {
        return Err(StateTermFault::Bracket);
    }
    unbracketed_read(words)
}

// Reads the terms of a choice, after `before` terms.
fn terms_read(
    alloc: Global,
    before: usize,
    texts: &[&[u8]],
) -> Result<Vec<StateTerm>, StateClaimFault>
    requires { before + length texts.now < 2 ^ 64 }
    ensures ok { IfOk result (λ terms. terms_read before (map (λ t. t.now) texts.now) ≡ Ok terms.items) }
    ensures fault { IfErr result (IsFaultOfClaim (terms_read before (map (λ t. t.now) texts.now))) }
{
    let mut terms = Vec::new(alloc);
    let mut number = before;
    'texts: for text in texts {
        number += 1;
        let words = term_words(alloc, text)?;
        match state_term_read(words.as_slice()) {
            Ok(term) => terms.push(term)?,
            Err(fault) => return Err(StateClaimFault::Term { number, fault }),
        }
    }
    Ok(terms)
}

// Reads the choices of a claim.
fn choices_read(alloc: Global, texts: &[&[u8]]) -> Result<Vec<Vec<StateTerm>>, StateClaimFault>
    requires { terms_in (map (λ t. t.now) texts.now) < 2 ^ 64 }
    ensures ok { IfOk result (λ choices.
        choices_read 0 (map (λ t. t.now) texts.now) ≡ Ok (map (λ terms. terms.items) choices.items)) }
    ensures fault { IfErr result (IsFaultOfClaim (choices_read 0 (map (λ t. t.now) texts.now))) }
{
    let mut choices = Vec::new(alloc);
    let mut before = 0;
    'texts: for text in texts {
        let parts = parts_at(alloc, b'&', text)?;
        let terms = terms_read(alloc, before, parts.as_slice())?;
        choices.push(terms)?;
        before += parts.len();
    }
    Ok(choices)
}

impl StateClaim {
    /// Reads a claim: choices with `|` between them, each of terms with `&` between them. A term is `ID.REF WORD` or
    /// `ID.REF:WORD`, with a `!` before it if the entry must not show it: the number of a domain, a grant reference, and
    /// `none`, `invalid`, `page`, `sub`, `via`, `rw`, `ro`, or a field, one of `=`, `<` and `>`, and a number below
    /// 2^64. The fields are those of `show` (`frame`, `off`, `len`, `to`, `ref`, `gen`, `reads`, `writes`), and
    /// `grantee`.
    ///
    /// # Errors
    /// The first fault, with the number of its term; `Long` for a text of more than 1,048,576 bytes; and `Memory`.
    #[tactic(auto, using(crate::proofs::ReadLemmas::as_read_fault))]
    pub fn read(alloc: Global, text: &str) -> Result<StateClaim, StateClaimFault>
        ensures ok { IfOk result (λ claim. claim_read text.now ≡ Ok (claim_asked claim)) }
        ensures fault { IfErr result (IsReadFault text.now) }
    {
        if text.len() > LONGEST_TEXT {
            return Err(StateClaimFault::Long);
        }
        let texts = parts_at(alloc, b'|', text.as_bytes())?;
        let choices = choices_read(alloc, texts.as_slice())?;
        Ok(StateClaim { choices })
    }
}
