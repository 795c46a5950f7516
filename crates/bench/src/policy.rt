//! A large policy that is parsed, compiled and asked.
//!
//! `policy WORK CLASS COUNT` makes a text of 256 types and COUNT statements `allow SOURCE TARGET:CLASS *;`, each of
//! another pair of types as long as there are any. WORK is `make` (nothing more), `parse` (the text is parsed),
//! `compile` (and its table is made), `table` (and the table is asked for every triple) or `walk` (the text is parsed,
//! and the statements are walked for each triple of a type on itself).
use crate::line::{number_at, word_at};
use crate::stops::Stop;
use gt_allow::AllowTable;
use gt_policy::Policy;
use gt_types::{Allows, Perms, TypeId};
use std::alloc::{AllocError, Global};

const TYPES: u32 = 256;

const LETTERS: &str = "abcdefghijklmnopqrstuvwxyzABCDEFGHIJKLMNOPQRSTUVWXYZ";

/// Returns a letter, cyclically.
fn letter(number: u32) -> char {
    match LETTERS.as_bytes().get(number as usize % LETTERS.len()) {
        Some(byte) => char::from(*byte),
        None => 'a',
    }
}

/// Appends the name of a type: one letter or two, so that many statements fit into a text.
fn push_name(text: &mut String, number: u32) -> Result<(), AllocError> {
    let letters = LETTERS.len() as u32;
    if number >= letters {
        text.push(letter(number / letters - 1))?;
    }
    text.push(letter(number))
}

fn push_type(text: &mut String, number: u32) -> Result<(), AllocError> {
    text.push_str("type ")?;
    push_name(text, number)?;
    text.push(';')
}

fn push_allow(text: &mut String, source: u32, target: u32, class: &str) -> Result<(), AllocError> {
    text.push_str("allow ")?;
    push_name(text, source)?;
    text.push(' ')?;
    push_name(text, target)?;
    write!(text, ":{class} *;")
}

fn large_text(alloc: Global, class: &str, count: u32) -> Result<String, AllocError> {
    let mut text = String::new(alloc);
    for number in 0..TYPES {
        push_type(&mut text, number)?;
    }
    for i in 0..count {
        push_allow(&mut text, i % TYPES, i / TYPES % TYPES, class)?;
    }
    Ok(text)
}

/// Counts the permissions that the source has on the target.
fn count_on<R: Allows>(rights: &R, source: u16, target: u16) -> u32 {
    let mut yes = 0u32;
    for perm in Perms::EVERY {
        if rights.allows(TypeId(source), TypeId(target), perm) {
            yes = yes.saturating_add(1);
        }
    }
    yes
}

/// Counts the allowed triples of these types.
fn count_triples<R: Allows>(rights: &R, types: u16) -> u32 {
    let mut triples = 0u32;
    for source in 0..types {
        for target in 0..types {
            triples = triples.saturating_add(count_on(rights, source, target));
        }
    }
    triples
}

/// Counts the allowed triples of one of these types on itself.
fn count_own<R: Allows>(rights: &R, types: u16) -> u32 {
    let mut triples = 0u32;
    for id in 0..types {
        triples = triples.saturating_add(count_on(rights, id, id));
    }
    triples
}

// Compiles the table of the policy, and asks it if that is the work.
fn compile(alloc: Global, work: &str, policy: &Policy, said: &mut String) -> Result<(), Stop> {
    let table = AllowTable::compile(alloc, policy)?;
    if work == "table" {
        writeln!(said, "{} triples", count_triples(&table, policy.count()))?;
    }
    Ok(())
}

// Does what the work does with a parsed policy.
fn ask(alloc: Global, work: &str, policy: &Policy, said: &mut String) -> Result<(), Stop> {
    let types = policy.count();
    writeln!(said, "{types} types")?;
    match work {
        "parse" => Ok(()),
        "walk" => Ok(writeln!(said, "{} own triples", count_own(policy, types))?),
        _ => compile(alloc, work, policy, said),
    }
}

// Parses the text, and does the work.
fn parse(alloc: Global, work: &str, text: &str, said: &mut String) -> Result<(), Stop> {
    match Policy::parse(alloc, text) {
        Ok(policy) => ask(alloc, work, &policy, said),
        Err(_) => Err(Stop::Policy),
    }
}

/// Does the work that the words name, and appends a line for each of its steps.
pub(crate) fn measure(alloc: Global, words: &[String], said: &mut String) -> Result<(), Stop> {
    let work = word_at(words, 1, "");
    let count = number_at(words, 3, "")?;
    let text = large_text(alloc, word_at(words, 2, ""), count)?;
    writeln!(said, "{} bytes, {count} statements", text.len())?;
    if work == "make" {
        return Ok(());
    }
    parse(alloc, work, text.as_str(), said)
}
