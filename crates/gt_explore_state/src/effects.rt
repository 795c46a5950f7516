//! The effects of steps on tables.
ghost use Rattle.std.specs.Prelude.{◌≡◌, OnOk, length};
ghost use Rattle.gt_explore_state.specs.Tables.{among, CountsChangeOf, HeaderStored, OneBecomes, OwnChangeOf, TablesAfter};

use crate::table::SparseTable;
use gt_calls::{EntryChange, Observation, Step};
use gt_core::CountsChange;
use gt_roster::Roster;
use gt_types::GrantRef;
use std::alloc::AllocError;

// Returns the position, if there is a table at it.
fn place_among(tables: &[SparseTable], place: Option<usize>) -> Option<usize>
    ensures { result ≡ among place (length tables.now) }
{
    match place {
        Some(at) => { if at < tables.len() { Some(at) } else { None } }
        None => None,
    }
}

fn change_counts(
    tables: &mut [SparseTable],
    place: Option<usize>,
    gref: GrantRef,
    change: CountsChange,
) -> Result<(), AllocError>
    ensures { OnOk result (OneBecomes place (CountsChangeOf gref.0 change) tables.old tables.new) }
{
    match place_among(tables, place) {
        Some(at) => tables[at].change_counts(gref, change),
        None => Ok(()),
    }
}

fn change_own(
    tables: &mut [SparseTable],
    place: Option<usize>,
    first_gen: u32,
    gref: GrantRef,
    change: EntryChange,
) -> Result<(), AllocError>
    ensures { OnOk result (OneBecomes place (OwnChangeOf first_gen gref.0 change) tables.old tables.new) }
{
    match place_among(tables, place) {
        Some(at) => tables[at].change_own(first_gen, gref, change),
        None => Ok(()),
    }
}

fn store_header(tables: &mut [SparseTable], place: Option<usize>, version: u32, frames: u32)
    ensures { OneBecomes place (HeaderStored version frames) tables.old tables.new }
{
    match place_among(tables, place) {
        Some(at) => tables[at].store_header(version, frames),
        None => {}
    }
}

/// Applies a step with this observation to the tables, if it is one of the domain at this position.
pub fn apply_to(
    config: &Roster,
    tables: &mut [SparseTable],
    at: usize,
    step: Step,
    seen: Observation,
) -> Result<(), AllocError>
    ensures { OnOk result
        (TablesAfter config.now.domains.items config.now.first_gen at step seen tables.old tables.new) }
{
    match (step, seen) {
        (Step::Pin { held }, Observation::Taken) => {
            let place = config.position(held.dom);
            change_counts(tables, place, held.gref, CountsChange::Pinned(held.dir))
        }
        (Step::Unpin { held, .. }, _) => {
            let place = config.position(held.dom);
            change_counts(tables, place, held.gref, CountsChange::Unpinned(held.dir))
        }
        (
            Step::StoreBody {
                gref,
                body_word,
                word,
            },
            _,
        ) => {
            change_counts(
                tables,
                Some(at),
                gref,
                CountsChange::Stored(body_word, word),
            )
        }
        (Step::StoreHeader { version, frames }, _) => {
            store_header(tables, Some(at), version, frames);
            Ok(())
        }
        (Step::Exchange { gref, change, .. }, Observation::Taken) => {
            change_own(tables, Some(at), config.config().first_gen, gref, change)
        }
        _ => Ok(()),
    }
}
