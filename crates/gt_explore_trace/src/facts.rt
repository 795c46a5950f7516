//! The facts of a line: a name and a value each.
ghost use Rattle.std.specs.Prelude.{◌≡◌, ◌++◌, OnOk};
ghost use Rattle.gt_explore_trace.specs.Facts.{fact_middle, fact_start, move_part, move_start, number_part, quote};
ghost use Rattle.gt_explore_trace.specs.Facts.{value_part, word_part};

use gt_text::{push_number, push_text};
use itoa::Integer;
use std::alloc::{AllocError, Global};

/// The form of a trace: lines of text, a JSON object a line, or a sequence diagram of mermaid.
#[derive(Clone, Copy)]
pub enum TraceForm {
    Text,
    Json,
    Mermaid,
}

// Returns what is before the name of a fact.
fn fact_start(form: TraceForm) -> &'static str
    ensures { result.now ≡ fact_start form }
{
    match form {
        TraceForm::Json => ",\"",
        TraceForm::Text | TraceForm::Mermaid => " ",
    }
}

// Returns what is between the name of a fact and its value.
fn fact_middle(form: TraceForm) -> &'static str
    ensures { result.now ≡ fact_middle form }
{
    match form {
        TraceForm::Json => "\":",
        TraceForm::Text | TraceForm::Mermaid => "=",
    }
}

// Returns the mark around a value that is not a number.
fn quote(form: TraceForm) -> &'static str
    ensures { result.now ≡ quote form }
{
    match form {
        TraceForm::Json => "\"",
        TraceForm::Text | TraceForm::Mermaid => "",
    }
}

// Returns what is before the letters of a step.
fn move_start(form: TraceForm) -> &'static str
    ensures { result.now ≡ move_start form }
{
    match form {
        TraceForm::Json => ",\"move\":\"",
        TraceForm::Text | TraceForm::Mermaid => "",
    }
}

/// Appends a number under its name.
#[tactic(auto, unfolding(crate::specs::Facts::number_part))]
pub fn push_number_part<I: Integer>(
    out: &mut Vec<u8>,
    form: TraceForm,
    name: &str,
    number: I,
) -> Result<(), AllocError>
    ensures { OnOk result (out.new.items ≡ out.old.items ++ number_part form name.now (I.text number)) }
{
    push_text(out, fact_start(form))?;
    push_text(out, name)?;
    push_text(out, fact_middle(form))?;
    push_number(out, number)
}

/// Appends a value that needs no escapes under its name.
#[tactic(auto, unfolding(crate::specs::Facts::value_part))]
pub fn push_value_part(
    out: &mut Vec<u8>,
    form: TraceForm,
    name: &str,
    value: &str,
) -> Result<(), AllocError>
    ensures { OnOk result (out.new.items ≡ out.old.items ++ value_part form name.now value.now) }
{
    push_text(out, fact_start(form))?;
    push_text(out, name)?;
    push_text(out, fact_middle(form))?;
    push_text(out, quote(form))?;
    push_text(out, value)?;
    push_text(out, quote(form))
}

/// Appends a shared word under its name, with 16 hexadecimal digits.
pub fn push_word_part(
    alloc: Global,
    out: &mut Vec<u8>,
    form: TraceForm,
    name: &str,
    word: u64,
) -> Result<(), AllocError>
    ensures { OnOk result (out.new.items ≡ out.old.items ++ word_part form name.now word) }
{
    let digits = hex::encode(alloc, word.to_be_bytes())?;
    push_value_part(out, form, name, digits.as_str())
}

/// Appends the letters of a step, or the word for another move.
#[tactic(auto, unfolding(crate::specs::Facts::move_part))]
pub fn push_move_part(out: &mut Vec<u8>, form: TraceForm, letters: &str) -> Result<(), AllocError>
    ensures { OnOk result (out.new.items ≡ out.old.items ++ move_part form letters.now) }
{
    push_text(out, move_start(form))?;
    push_text(out, letters)?;
    push_text(out, quote(form))
}
