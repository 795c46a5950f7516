//! The choices of a script.
ghost use Rattle.std.specs.Prelude.{◌≡◌, ◌<◌, ℕ, List, All, IfOk, Some, length, map, slice_get};
ghost use Rattle.gt_explore_choices.specs.Kinds.{marked_seen};
ghost use Rattle.gt_explore_choices.specs.Choices.{IsOneOf, IsChoiceIn, IsChoiceOf, whole_in, whole_text};

use crate::choosing::{OpenChoice, open_choices};
use crate::fault::ChoicesFault;
use crate::kinds::{MarkedLine, marked_source};
use crate::texts::text_chosen;
use std::alloc::{AllocError, Global};
use std::marker::Model;

/// The choices of a script. A contract sees the list of their texts.
#[derive(Drop)]
pub struct Choices<'a> {
    lines: Vec<MarkedLine<'a>>,
    begun: Vec<OpenChoice<'a>>,
}

impl<'a> Model for Choices<'a> {
    ghost use Rattle.std.specs.Prelude.{ℕ, List, map};
    ghost use Rattle.gt_explore_choices.specs.Kinds.{marked_seen};
    ghost use Rattle.gt_explore_choices.specs.Choosing.{open_seen};
    ghost use Rattle.gt_explore_choices.specs.Choices.{text_by};

    ghost Value = { List (List ℕ) };

    ghost view = { λ c. map (text_by (map marked_seen c.lines.items)) (map open_seen c.begun.items) };
}

impl<'a> Choices<'a> {
    /// Returns the number of choices. There is at least one.
    pub fn len(&self) -> usize
        ensures { result ≡ length self.now }
    {
        self.begun.len()
    }

    /// Returns the text of the choice at this index.
    ///
    /// # Errors
    /// An allocation failed.
    pub fn text(&self, alloc: Global, at: usize) -> Result<Vec<u8>, AllocError>
        requires { at < length self.now }
        ensures { IfOk result (λ text. slice_get self.now at ≡ Some text.items) }
    {
        let choice = &self.begun[at];
        text_chosen(alloc, self.lines.as_slice(), choice.kept.as_slice())
    }
}

// Returns the choices of these lines.
fn choices_in<'a>(alloc: Global, lines: Vec<MarkedLine<'a>>) -> Result<Choices<'a>, ChoicesFault>
    ensures each { IfOk result (λ all. All (IsChoiceIn (map marked_seen lines.entry.items)) all) }
    ensures whole { (text : List ℕ) → IsChoiceIn (map marked_seen lines.entry.items) text →
        IfOk result (λ all. IsOneOf text all) }
    ensures first { IfOk result (λ all. slice_get all 0 ≡ Some (whole_in (map marked_seen lines.entry.items))) }
{
    let begun = open_choices(alloc, lines.as_slice())?;
    Ok(Choices { lines, begun })
}

/// Returns the choices of a script. The first keeps each `maybe` line, and no domain leaves in it.
///
/// # Errors
/// `Many` if there are more than [`MOST_CHOICES`](crate::MOST_CHOICES), and `Memory`.
pub fn choices_of<'a>(alloc: Global, source: &'a str) -> Result<Choices<'a>, ChoicesFault>
    ensures each { IfOk result (λ all. All (IsChoiceOf source.entry.now) all) }
    ensures whole { (text : List ℕ) → IsChoiceOf source.entry.now text → IfOk result (λ all. IsOneOf text all) }
    ensures first { IfOk result (λ all. slice_get all 0 ≡ Some (whole_text source.entry.now)) }
{
    let lines = marked_source(alloc, source)?;
    choices_in(alloc, lines)
}
