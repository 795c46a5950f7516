//! Words as members of an object.
ghost use Rattle.std.specs.Prelude.{◌≡◌, ◌++◌, OnOk};
ghost use Rattle.gt_json.specs.Lines.{is_fact, member_of, is_hex, lead, member_text, piece};

use crate::places::WordPlace;
use crate::values::{push_quoted, push_value};
use crate::words::{is_word, split_at_equals};
use gt_text::push_text;
use std::alloc::AllocError;

// Splits a word into its name and its value.
fn member_of<'w>(place: WordPlace, word: &'w [u8]) -> (&'w [u8], &'w [u8])
    ensures { (result.0.now, result.1.now) ≡ member_of place word.entry.now }
{
    let called = place.name(word).as_bytes();
    if !place.is_fact() {
        return (called, word);
    }
    match split_at_equals(word) {
        Some(parts) => parts,
        None => (called, word),
    }
}

// Returns whether the value with this name is hexadecimal.
fn is_hex(place: WordPlace, name: &[u8]) -> bool
    ensures { result ≡ is_hex place name.now }
{
    place.is_fact() && (is_word(name, "bytes") || is_word(name, "status"))
}

// Returns the mark in front of a member.
fn lead(place: WordPlace) -> &'static str
    ensures { result.now ≡ lead place }
{
    if place.is_start() { "{" } else { "," }
}

// Appends a word as a member.
#[tactic(auto, unfolding(crate::specs::Lines::member_text))]
fn push_member(out: &mut Vec<u8>, place: WordPlace, word: &[u8]) -> Result<(), AllocError>
    ensures { OnOk result (out.new.items ≡ out.old.items ++ member_text place word.now) }
{
    let (name, value) = member_of(place, word);
    push_text(out, lead(place))?;
    push_quoted(out, name)?;
    push_text(out, ":")?;
    push_value(out, is_hex(place, name), value)
}

/// Appends the member of a word, or nothing for the colon of an audit line. After an Err, part of it may have been
/// appended.
#[tactic(auto, unfolding(crate::specs::Lines::piece))]
pub fn push_word_member(out: &mut Vec<u8>, place: WordPlace, word: &[u8]) -> Result<(), AllocError>
    ensures { OnOk result (out.new.items ≡ out.old.items ++ piece place word.now) }
{
    if place.is_mark(word) {
        Ok(())
    } else {
        push_member(out, place, word)
    }
}
