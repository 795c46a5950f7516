//! What the entries that a claim names show at the end of some turns.
ghost use Rattle.std.specs.Prelude.{◌≡◌, ◌+◌, ◌++◌, OnOk};
ghost use Rattle.gt_script.specs.Contents.{contents_of};
ghost use Rattle.gt_script.specs.RunScripts.{CanConfigure};
ghost use Rattle.gt_moment_scripts.specs.Showing.{shown_among};

use crate::naming::{NamedEntry, is_same_entry};
use gt_core::{Core, EntryView};
use gt_explore_faults::TextsFault;
use gt_explore_replay::Replay;
use gt_explore_search::Turn;
use gt_script::RunScript;
use gt_state_claims::ShowsEntries;
use gt_types::{Allows, DomId, GrantRef};
use std::alloc::{AllocError, Global};

/// An entry, and what it shows.
#[derive(Clone, Copy)]
pub struct EntryRow {
    pub entry: NamedEntry,
    pub shown: Option<EntryView>,
}

/// The entries of these rows. No other entry shows anything.
#[derive(Clone, Copy)]
pub struct RowEntries<'r> {
    pub rows: &'r [EntryRow],
}

fn shown_among(rows: &[EntryRow], dom: DomId, gref: GrantRef) -> Option<EntryView>
    ensures { result ≡ shown_among rows.now dom gref.0 }
{
    'rows: for row in rows {
        if is_same_entry(row.entry, dom, gref) {
            return row.shown;
        }
    }
    None
}

impl ShowsEntries for RowEntries<'_> {
    ghost use Rattle.std.specs.Prelude.{◌≡◌};
    ghost use Rattle.gt_moment_scripts.specs.Showing.{shown_among};

    ghost shows = { λ entries dom r view. view ≡ shown_among entries.rows.now dom r };

    fn entry(&self, dom: DomId, gref: GrantRef) -> Option<EntryView> {
        shown_among(self.rows, dom, gref)
    }
}

// Returns what these entries show in a core.
fn rows_in<P: Allows>(
    alloc: Global,
    core: &Core<P>,
    entries: &[NamedEntry],
) -> Result<Vec<EntryRow>, AllocError> {
    let mut rows = Vec::new(alloc);
    for entry in entries {
        let shown = core.show(entry.dom, entry.gref);
        rows.push(EntryRow {
            entry: *entry,
            shown,
        })?;
    }
    Ok(rows)
}

/// Returns what these entries show on the core after these turns of the script. That is not proved here: it is for a
/// comparison with what `play` prints.
///
/// # Errors
/// `Astray` if the core does not follow the turns, and `Memory`.
pub fn rows_after(
    alloc: Global,
    script: &RunScript,
    turns: &[Turn],
    entries: &[NamedEntry],
) -> Result<Vec<EntryRow>, TextsFault>
    requires { CanConfigure (contents_of script.now.head) }
{
    let mut run = Replay::new(alloc, script)?;
    for turn in turns {
        if run.advance(*turn)?.is_none() {
            return Err(TextsFault::Astray);
        }
    }
    Ok(rows_in(alloc, run.core(), entries)?)
}
