//! Warnings about triples that allow nothing to the domains of the script.
ghost use Rattle.std.specs.Prelude.{◌≡◌, OnOk};
ghost use Rattle.gt_findings.specs.Findings.{error_lines};

use crate::script_findings::warning::{column_number, push_warning};
use gt_fault_reasons::column_of;
use gt_findings::{Finding, FindingKind, said_of};
use gt_script_lines::{ScriptLine, line_words, read_line};
use gt_text::text_of;
use std::alloc::{AllocError, Global};

// A type of a triple that no domain has, and the index of its word in the line.
#[derive(Clone, Copy)]
struct Unworn<'t> {
    name: &'t str,
    place: usize,
}

fn is_unworn(worn: &[&str], name: &[u8]) -> bool {
    !worn.iter().any(|one| one.as_bytes() == name)
}

// Finds the first type of a triple that no domain has. Returns None for another line.
fn unworn_in<'t>(
    alloc: Global,
    line: &'t str,
    worn: &[&str],
) -> Result<Option<Unworn<'t>>, AllocError> {
    let words = line_words(alloc, line)?;
    let Some(ScriptLine::Triple(triple)) = read_line(words.as_slice()) else {
        return Ok(None);
    };
    let (name, place) = if is_unworn(worn, triple.source.as_bytes()) {
        (triple.source.as_bytes(), 1)
    } else {
        (triple.target.as_bytes(), 2)
    };
    match text_of(name) {
        Ok(name) if is_unworn(worn, name.as_bytes()) => Ok(Some(Unworn { name, place })),
        _ => Ok(None),
    }
}

/// Warns of a triple that allows nothing to domains of these types.
pub(crate) fn warn_triple(
    alloc: Global,
    found: &mut Vec<Finding>,
    number: u32,
    line: &str,
    worn: &[&str],
) -> Result<(), AllocError>
    ensures { OnOk result (error_lines found.new.items ≡ error_lines found.old.items) }
{
    let Some(unworn) = unworn_in(alloc, line, worn)? else {
        return Ok(());
    };
    let said = " is not the type of any domain in this script, so this triple allows nothing";
    let message = said_of(alloc, unworn.name, said)?;
    let kind = FindingKind::NeverMatters;
    push_warning(
        found,
        Finding {
            kind,
            line: number,
            column: column_number(column_of(line.as_bytes(), unworn.place)),
            message,
        },
    )
}
