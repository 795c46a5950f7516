//! The lines that `play` prints for the entries that a claim names.
ghost use Rattle.std.specs.Prelude.{◌≡◌, ◌+◌, ◌++◌, ◌<◌, ◌^◌, OnOk, codes, length};
ghost use Rattle.gt_script_runs.specs.Showing.{counts_text, entry_view_text, show_line, status_text};
ghost use Rattle.gt_state_claims.specs.Claims.{EntriesShown, ShowsOnly};
ghost use Rattle.gt_moment_scripts.specs.Showing.{show_lines, shown_among};

use crate::naming::NamedEntry;
use crate::rows::RowEntries;
use gt_core::EntryView;
use gt_model::{Control, status_word};
use gt_state_claims::ShowsEntries;
use gt_text::{push_entry, push_number, push_part, push_text};
use std::alloc::{AllocError, Global};

fn push_status(alloc: Global, out: &mut Vec<u8>, status: u16) -> Result<(), AllocError>
    ensures { OnOk result (out.new.items ≡ out.old.items ++ status_text status) }
{
    let digits = hex::encode(alloc, status.to_be_bytes())?;
    push_text(out, digits.as_str())
}

fn push_counts(out: &mut Vec<u8>, shown: EntryView) -> Result<(), AllocError>
    ensures { OnOk result (out.new.items
        ≡ out.old.items ++ counts_text shown.generation shown.reads shown.writes) }
{
    push_part(out, "gen", shown.generation)?;
    push_part(out, "reads", shown.reads)?;
    push_part(out, "writes", shown.writes)
}

// Appends what a `show` prints of an entry.
fn push_shown(alloc: Global, out: &mut Vec<u8>, shown: Option<EntryView>) -> Result<(), AllocError>
    ensures { OnOk result (out.new.items ≡ out.old.items ++ entry_view_text shown) }
{
    let Some(shown) = shown else {
        return push_text(out, "none");
    };
    push_entry(out, shown.entry)?;
    push_counts(out, shown)?;
    push_text(out, " status=")?;
    let control = Control::of_entry(shown.entry, shown.generation, shown.reads, shown.writes);
    push_status(alloc, out, status_word(&control))
}

// Appends the line that `play` prints for a `show` of an entry on this line.
fn push_show_line(
    alloc: Global,
    out: &mut Vec<u8>,
    line: usize,
    entry: NamedEntry,
    shown: Option<EntryView>,
) -> Result<(), AllocError>
    ensures { OnOk result (out.new.items ≡ out.old.items ++ show_line line entry.dom entry.gref shown) }
{
    push_number(out, line)?;
    push_text(out, " show ")?;
    push_number(out, entry.dom.0)?;
    push_text(out, " ")?;
    push_number(out, entry.gref.0)?;
    push_text(out, " ")?;
    push_shown(alloc, out, shown)?;
    push_text(out, "\n")
}

/// Appends the lines that `play` prints for a `show` of each of these entries, the first on this line.
pub fn push_show_lines(
    alloc: Global,
    out: &mut Vec<u8>,
    line: usize,
    named: &[NamedEntry],
    entries: &RowEntries<'_>,
) -> Result<(), AllocError>
    requires { line + length named.now < 2 ^ 64 }
    ensures { OnOk result (out.new.items
        ≡ out.old.items ++ show_lines line named.now (shown_among entries.now.rows.now)) }
{
    let mut number = line;
    'named: for entry in named {
        let shown = entries.entry(entry.dom, entry.gref);
        push_show_line(alloc, out, number, *entry, shown)?;
        number += 1;
    }
    Ok(())
}
