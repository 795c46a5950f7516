//! Adds findings.
ghost use Rattle.std.specs.Prelude.{◌≡◌, ◌++◌, ℕ, List, true, false, OnOk};
ghost use Rattle.gt_findings.specs.Findings.{Quiet, AddsUseless, is_error, is_of_nothing, is_of_repeat, is_of_word};
ghost use Rattle.gt_findings.specs.Findings.{is_of_statement, line_if};
ghost use Rattle.gt_findings.specs.Findings.{KeepsColumns, QuotesWord, error_columns};
ghost use Rattle.gt_findings.specs.Placing.{IsPlace, HasNoteColumn};
ghost use Rattle.gt_findings.specs.Findings.{class_line, class_lines};

use crate::findings::{Finding, FindingKind};
use crate::words::LineWords;
use std::alloc::AllocError;

/// The position of a statement: the words of its line, and its column if it is an allow statement.
#[derive(Clone, Copy)]
pub struct Place<'t, 'w> {
    pub words: &'w LineWords<'t>,
    pub column: u32,
}

/// A note on an error or a warning.
#[derive(Drop)]
pub struct FindingNote {
    pub line: u32,
    pub column: u32,
    pub message: Vec<u8>,
}

/// Adds a note on the finding before it.
#[tactic(auto, using(crate::proofs::FindingLemmas::quiet_push, crate::proofs::KeepLemmas::keeps_push, crate::proofs::KeepLemmas::same_columns))]
pub fn push_note(found: &mut Vec<Finding>, note: FindingNote) -> Result<(), AllocError>
    ensures quiet { OnOk result (Quiet found.old.items found.new.items) }
    ensures errors { OnOk result (error_columns found.new.items ≡ error_columns found.old.items) }
    ensures columns { (text : List ℕ) → HasNoteColumn text note
        → OnOk result (KeepsColumns text found.old.items found.new.items) }
{
    found.push(Finding {
        kind: FindingKind::Note,
        line: note.line,
        column: note.column,
        message: note.message,
    })?;
    Ok(())
}

/// Adds a finding about a word of a line. Its kind is other than an error, a statement that allows nothing, or a
/// statement that repeats another.
#[tactic(auto, using(crate::proofs::FindingLemmas::quiet_push, crate::proofs::FindingLemmas::class_push))]
pub fn push_of_word(
    found: &mut Vec<Finding>,
    kind: FindingKind,
    place: &Place,
    word: &str,
    message: Vec<u8>,
) -> Result<(), AllocError>
    requires no_error { is_error kind ≡ false }
    requires no_statement { is_of_nothing kind ≡ false }
    requires no_repeat { is_of_repeat kind ≡ false }
    requires of_word { is_of_word kind ≡ true }
    requires quotes { QuotesWord word.now message.items }
    requires position { IsPlace place.now }
    ensures quiet { OnOk result (Quiet found.old.items found.new.items) }
    ensures columns { OnOk result (KeepsColumns place.now.words.now.bytes.now found.old.items found.new.items) }
    ensures classes { OnOk result (class_lines found.new.items
        ≡ class_lines found.old.items ++ class_line kind place.now.words.now.number) }
{
    let column = place.words.column(word);
    found.push(Finding {
        kind,
        line: place.words.number,
        column,
        message,
    })?;
    Ok(())
}

/// Adds a finding about the allow statement of a place, with its column.
#[tactic(auto, using(crate::proofs::FindingLemmas::statement_push, crate::proofs::KeepLemmas::keeps_statement))]
pub fn push_of_statement(
    found: &mut Vec<Finding>,
    kind: FindingKind,
    place: &Place,
    message: Vec<u8>,
) -> Result<(), AllocError>
    requires no_error { is_error kind ≡ false }
    requires of_statement { is_of_statement kind ≡ true }
    requires position { IsPlace place.now }
    ensures useless { OnOk result (AddsUseless found.old.items found.new.items
        (line_if (is_of_nothing kind) place.now.words.now.number) (line_if (is_of_repeat kind) place.now.words.now.number)) }
    ensures columns { OnOk result (KeepsColumns place.now.words.now.bytes.now found.old.items found.new.items) }
{
    found.push(Finding {
        kind,
        line: place.words.number,
        column: place.column,
        message,
    })?;
    Ok(())
}
