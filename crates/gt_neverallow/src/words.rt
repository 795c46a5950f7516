//! The words of `neverallow` statements that nothing knows.
ghost use Rattle.std.specs.Prelude.{◌≡◌, ◌++◌, IfOk, OnOk};
ghost use Rattle.std.specs.List.{flat_map};
ghost use Rattle.gt_findings.specs.Findings.{KeepsColumns, error_lines};
ghost use Rattle.gt_findings.specs.LineWords.{IsLineWords};
ghost use Rattle.gt_findings.specs.Findings.{class_lines};
ghost use Rattle.gt_policy_words.specs.Words.{unknown_line};
ghost use Rattle.gt_neverallow.specs.Breaking.{AreUnknown, classes_in};

use crate::statement::{Forbidden, NeverStatement};
use gt_findings::{Finding, LineWords, line_starts, line_words};
use gt_policy_words::push_unknown_words;
use std::alloc::{AllocError, Global};

// Adds the findings of the words of a statement, which is on the line of these words.
fn push_words_of(
    alloc: Global,
    found: &mut Vec<Finding>,
    words: &LineWords,
    never: &NeverStatement,
) -> Result<(), AllocError>
    requires words { IsLineWords words.now }
    requires on_line { words.now.number ≡ never.now.line }
    ensures errors { OnOk result (error_lines found.new.items ≡ error_lines found.old.items) }
    ensures classes { OnOk result (class_lines found.new.items
        ≡ class_lines found.old.items ++ flat_map (unknown_line never.now.line) (classes_in never.now.what)) }
    ensures columns { OnOk result (KeepsColumns words.now.bytes.now found.old.items found.new.items) }
{
    match &never.what {
        Forbidden::Grants { classes, perms } => {
            push_unknown_words(alloc, found, words, classes.as_slice(), perms)
        }
        Forbidden::Flow => Ok(()),
    }
}

/// Returns the findings of the words of these statements that Xen's FLASK policy doesn't have. The text has the
/// statements.
pub fn unknown_words(
    alloc: Global,
    text: &str,
    nevers: &[NeverStatement],
) -> Result<Vec<Finding>, AllocError>
    ensures { IfOk result (λ found. AreUnknown text.now nevers.now found.items) }
{
    let lines = line_starts(alloc, text.as_bytes())?;
    let mut words = line_words(alloc, text.as_bytes(), &lines, 0)?;
    let mut found = Vec::new(alloc);
    'nevers: for never in nevers {
        words.go_to(alloc, &lines, never.line)?;
        push_words_of(alloc, &mut found, &words, never)?;
    }
    Ok(found)
}
