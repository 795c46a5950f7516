//! The rows of a domain's entries, each with its reference. An entry without a row is in its initial state.
ghost use Rattle.std.specs.Prelude.{◌≡◌, ◌≤◌, None, OnOk, IfOk, length};
ghost use Rattle.gt_explore_state.specs.Rows.{counts_in, counts_kept, kept_entry, kept_generation, value_at, word_in};
ghost use Rattle.gt_explore_state.specs.Rows.{CountsBecome, ListsEntries, OwnBecomes, RowsBecome};

use crate::lists::put;
use gt_calls::{BodyWord, EntryChange, OwnerEntry, own_at};
use gt_core::PinCounts;
use gt_entry::Control;
use gt_types::GrantRef;
use std::alloc::{AllocError, Global};

/// A row: a reference, and what is kept of its entry.
#[derive(Clone, Copy)]
pub struct TableRow<T> {
    pub gref: GrantRef,
    pub value: T,
}

// Returns what the row of this reference keeps, if there is one.
fn value_at<T: Copy>(rows: &[TableRow<T>], gref: GrantRef) -> Option<T>
    ensures { result ≡ value_at rows.now gref.0 }
{
    'rows: for row in rows {
        if row.gref.0 == gref.0 {
            return Some(row.value);
        }
    }
    None
}

// Returns the index at which a row of this reference lies in ascending order.
fn place_of<T: Copy>(rows: &[TableRow<T>], gref: GrantRef) -> usize
    ensures { result ≤ length rows.now }
{
    'rows: for at in 0..rows.len() {
        if rows[at].gref.0 >= gref.0 {
            return at;
        }
    }
    rows.len()
}

// Removes the row of this reference.
fn remove<T: Copy>(rows: &mut Vec<TableRow<T>>, gref: GrantRef)
    ensures { RowsBecome rows.old.items rows.new.items gref.0 None }
{
    rows.retain(|row| row.gref.0 != gref.0);
}

// Replaces the row of this reference by one with this value, or removes it.
fn set_row<T: Copy>(
    rows: &mut Vec<TableRow<T>>,
    gref: GrantRef,
    value: Option<T>,
) -> Result<(), AllocError>
    ensures { OnOk result (RowsBecome rows.old.items rows.new.items gref.0 value) }
{
    remove(rows, gref);
    if let Some(value) = value {
        let place = place_of(rows.as_slice(), gref);
        rows.insert(place, TableRow { gref, value })?;
    }
    Ok(())
}

/// Returns the counts of an entry: its pins, and its body words. Without a row all are zero.
pub fn counts_at(counts: &[TableRow<PinCounts>], gref: GrantRef) -> PinCounts
    ensures { result ≡ counts_in counts.now gref.0 }
{
    match value_at(counts, gref) {
        Some(kept) => kept,
        None => PinCounts::new(),
    }
}

/// Returns what the owner knows of an entry.
pub fn owner_entry_at(own: &[TableRow<OwnerEntry>], first_gen: u32, gref: GrantRef) -> OwnerEntry
    ensures entry { result.entry ≡ kept_entry own.now gref.0 }
    ensures generation { result.generation ≡ kept_generation first_gen own.now gref.0 }
{
    match value_at(own, gref) {
        Some(kept) => kept,
        None => own_at(&[], first_gen, gref),
    }
}

/// Returns the control word of an entry.
pub fn word_at(
    own: &[TableRow<OwnerEntry>],
    counts: &[TableRow<PinCounts>],
    first_gen: u32,
    gref: GrantRef,
) -> u64
    ensures { result ≡ word_in first_gen own.now counts.now gref.0 }
{
    let row = owner_entry_at(own, first_gen, gref);
    let pins = counts_at(counts, gref);
    Control::of_entry(row.entry(), row.generation(), pins.reads(), pins.writes()).pack()
}

// Returns the counts to keep in a row: none if all are zero.
fn counts_kept(counts: PinCounts) -> Option<PinCounts>
    ensures { counts_kept result ≡ counts }
{
    if counts.reads() == 0
        && counts.writes() == 0
        && counts.body(BodyWord::First) == 0
        && counts.body(BodyWord::Second) == 0
    {
        None
    } else {
        Some(counts)
    }
}

/// Sets the counts of an entry.
pub fn set_counts(
    counts: &mut Vec<TableRow<PinCounts>>,
    gref: GrantRef,
    new: PinCounts,
) -> Result<(), AllocError>
    ensures { OnOk result (CountsBecome counts.old.items counts.new.items gref.0 new) }
{
    set_row(counts, gref, counts_kept(new))
}

/// Applies the owner's change of an entry.
pub fn change_own(
    own: &mut Vec<TableRow<OwnerEntry>>,
    first_gen: u32,
    gref: GrantRef,
    change: EntryChange,
) -> Result<(), AllocError>
    ensures { OnOk result (OwnBecomes first_gen own.old.items own.new.items gref.0 change) }
{
    let changed = owner_entry_at(own.as_slice(), first_gen, gref).after(change);
    set_row(own, gref, Some(changed))
}

/// Lists what the owner knows of its entries, up to the last one with a row, in the order of their references.
pub fn owner_entries(
    alloc: Global,
    own: &[TableRow<OwnerEntry>],
    first_gen: u32,
) -> Result<Vec<OwnerEntry>, AllocError>
    ensures { IfOk result (λ list. ListsEntries first_gen own.now list.items) }
{
    let mut list = Vec::new(alloc);
    'rows: for done in 0..own.len() {
        let row = own[own.len() - 1 - done];
        let untouched = own_at(&[], first_gen, row.gref);
        put(&mut list, row.gref.0 as usize, row.value, untouched)?;
    }
    Ok(list)
}
