//! A domain's grant table in a small state.
ghost use Rattle.std.specs.Prelude.{◌≡◌};
ghost use Rattle.gt_model.specs.Words.{header_word};

use crate::rows::{
    TableRow, change_own, counts_at, owner_entries, owner_entry_at, set_counts, word_at,
};
use gt_calls::{BodyWord, EntryChange, OwnerEntry};
use gt_core::{CountsChange, PinCounts};
use gt_entry::Header;
use gt_types::GrantRef;
use std::alloc::{AllocError, Global};

/// A grant table: its header, and rows of what its owner knows of entries and of their counts, each list in ascending
/// order of references. An entry without a row is in its initial state.
#[derive(Drop)]
pub struct SparseTable {
    pub header: Header,
    pub own: Vec<TableRow<OwnerEntry>>,
    pub counts: Vec<TableRow<PinCounts>>,
}

// Returns the word of a header.
fn header_word(header: Header) -> u64
    ensures { result ≡ header_word header }
{
    u64::from(header.version) + u64::from(header.frames) * 4
}

impl SparseTable {
    ghost use Rattle.std.specs.Prelude.{◌≡◌, ◌%◌, [], IfOk, OnOk};
    ghost use Rattle.gt_model.specs.Words.{header_word};
    ghost use Rattle.gt_explore_state.specs.Rows.{ListsEntries, body_in_rows, counts_in, kept_entry, kept_generation, word_in};
    ghost use Rattle.gt_explore_state.specs.Tables.{CountsChangeOf, OwnChangeOf, HeaderStored, SameTable};

    /// Makes a table whose entries are all untouched.
    pub fn new(alloc: Global, header: Header) -> SparseTable
        ensures header { result.header ≡ header }
        ensures own { result.own.items ≡ [] }
        ensures counts { result.counts.items ≡ [] }
    {
        SparseTable {
            header,
            own: Vec::new(alloc),
            counts: Vec::new(alloc),
        }
    }

    /// Copies the table.
    pub fn copy(&self, alloc: Global) -> Result<SparseTable, AllocError>
        ensures { IfOk result (SameTable self.now) }
    {
        Ok(SparseTable {
            header: self.header,
            own: Vec::from_slice(alloc, self.own.as_slice())?,
            counts: Vec::from_slice(alloc, self.counts.as_slice())?,
        })
    }

    /// Returns what the owner knows of an entry.
    pub fn owner_entry(&self, first_gen: u32, gref: GrantRef) -> OwnerEntry
        ensures entry { result.entry ≡ kept_entry self.now.own.items gref.0 }
        ensures generation { result.generation ≡ kept_generation first_gen self.now.own.items gref.0 }
    {
        owner_entry_at(self.own.as_slice(), first_gen, gref)
    }

    /// Lists what the owner knows of its entries, in the order of their references, up to the last one with a row.
    ///
    /// # Errors
    /// `AllocError` if an allocation fails.
    pub fn owner_entries(
        &self,
        alloc: Global,
        first_gen: u32,
    ) -> Result<Vec<OwnerEntry>, AllocError>
        ensures { IfOk result (λ list. ListsEntries first_gen self.now.own.items list.items) }
    {
        owner_entries(alloc, self.own.as_slice(), first_gen)
    }

    /// Returns the counts of an entry: its pins, and its body words.
    pub fn entry_counts(&self, gref: GrantRef) -> PinCounts
        ensures { result ≡ counts_in self.now.counts.items gref.0 }
    {
        counts_at(self.counts.as_slice(), gref)
    }

    /// Returns the header word.
    pub fn header_word(&self) -> u64
        ensures { result ≡ header_word self.now.header }
    {
        header_word(self.header)
    }

    /// Returns the control word of an entry.
    pub fn word(&self, first_gen: u32, gref: GrantRef) -> u64
        ensures { result ≡ word_in first_gen self.now.own.items self.now.counts.items gref.0 }
    {
        word_at(self.own.as_slice(), self.counts.as_slice(), first_gen, gref)
    }

    /// Returns a body word of an entry.
    pub fn body(&self, gref: GrantRef, body_word: BodyWord) -> u64
        ensures { result ≡ body_in_rows self.now.counts.items gref.0 body_word }
    {
        self.entry_counts(gref).body(body_word)
    }

    /// Changes the pins or a body word of an entry.
    pub fn change_counts(&mut self, gref: GrantRef, change: CountsChange) -> Result<(), AllocError>
        ensures { OnOk result (CountsChangeOf gref.0 change self.old self.new) }
    {
        let new = self.entry_counts(gref).after(change);
        set_counts(&mut self.counts, gref, new)
    }

    /// Applies the owner's change of an entry.
    pub fn change_own(
        &mut self,
        first_gen: u32,
        gref: GrantRef,
        change: EntryChange,
    ) -> Result<(), AllocError>
        ensures { OnOk result (OwnChangeOf first_gen gref.0 change self.old self.new) }
    {
        change_own(&mut self.own, first_gen, gref, change)
    }

    /// Stores the header. Its word has room for versions below 4 and for up to 255 frames.
    pub fn store_header(&mut self, version: u32, frames: u32)
        ensures { HeaderStored version frames self.old self.new }
    {
        self.header = Header {
            version: (version % 4) as u8,
            frames: (frames % 256) as u8,
        };
    }
}
