//! The parts of states.
use crate::actor::Actor;
use crate::flag_runs::FlagRuns;
use crate::kept_actor::KeptActor;
use crate::scene::SearchState;
use gt_explore_state::{SparsePage, SparseState, SparseTable};
use std::alloc::{AllocError, Global};

/// A part of a state. A search keeps each part once.
#[derive(Drop)]
pub enum StatePart<'a> {
    /// For each flag, whether it was raised.
    Flags(FlagRuns),
    /// A domain.
    Domain(KeptActor<'a>),
    /// The grant table of a domain.
    Table(SparseTable),
    /// The bytes of a frame.
    Page(SparsePage),
}

impl<'a> StatePart<'a> {
    ghost use Rattle.std.specs.Prelude.{IfOk};
    ghost use Rattle.gt_explore_moves.specs.Parts.{SamePart};

    /// Copies the part.
    pub fn copy(&self, alloc: Global) -> Result<StatePart<'a>, AllocError>
        ensures { IfOk result (SamePart self.now) }
    {
        match self {
            StatePart::Flags(told) => Ok(StatePart::Flags(told.copy(alloc)?)),
            StatePart::Domain(actor) => Ok(StatePart::Domain(actor.copy(alloc)?)),
            StatePart::Table(table) => Ok(StatePart::Table(table.copy(alloc)?)),
            StatePart::Page(page) => Ok(StatePart::Page(page.copy(alloc)?)),
        }
    }
}

/// A part of a state, borrowed from the state.
#[derive(Clone, Copy)]
pub enum PartInState<'p, 'a> {
    /// For each flag, whether it was raised.
    Flags(&'p Vec<bool>),
    /// A domain.
    Domain(&'p Actor<'a>),
    /// The grant table of a domain.
    Table(&'p SparseTable),
    /// The bytes of a frame.
    Page(&'p SparsePage),
}

impl<'p, 'a> PartInState<'p, 'a> {
    ghost use Rattle.std.specs.Prelude.{IfOk};
    ghost use Rattle.gt_explore_moves.specs.Parts.{SamePart, part_shown};

    /// Copies the part.
    pub fn copy(self, alloc: Global) -> Result<StatePart<'a>, AllocError>
        ensures { IfOk result (SamePart (part_shown self.entry)) }
    {
        match self {
            PartInState::Flags(told) => Ok(StatePart::Flags(FlagRuns::of(alloc, told.as_slice())?)),
            PartInState::Domain(actor) => Ok(StatePart::Domain(KeptActor::of(alloc, actor)?)),
            PartInState::Table(table) => Ok(StatePart::Table(table.copy(alloc)?)),
            PartInState::Page(page) => Ok(StatePart::Page(page.copy(alloc)?)),
        }
    }
}

impl<'a> SearchState<'a> {
    ghost use Rattle.std.specs.Prelude.{◌≡◌, IfOk, OnOk, map, slice_get};
    ghost use Rattle.std.specs.Option.{option_map};
    ghost use Rattle.gt_explore_moves.specs.Parts.{all_but_flags, lists_in, no_parts, part_shown, parts_of};
    ghost use Rattle.gt_explore_moves.specs.Parts.{tables_and_pages, with_part, with_parts};
    ghost use Rattle.gt_explore_moves.specs.declared.parts.StatePart.TheVariants.{Page};

    // Returns the page at this index.
    fn page_at(&self, at: usize) -> Option<PartInState<'_, 'a>>
        ensures { option_map part_shown result ≡ slice_get (map Page self.now.ground.pages.items) at }
    {
        let pages = self.ground.pages.as_slice();
        if at < pages.len() {
            Some(PartInState::Page(&pages[at]))
        } else {
            None
        }
    }

    // Returns the table or page at this index, tables first.
    fn table_at(&self, at: usize) -> Option<PartInState<'_, 'a>>
        ensures { option_map part_shown result ≡ slice_get (tables_and_pages self.now) at }
    {
        let tables = self.ground.tables.as_slice();
        if at < tables.len() {
            Some(PartInState::Table(&tables[at]))
        } else {
            self.page_at(at - tables.len())
        }
    }

    // Returns the domain, table or page at this index, in this order.
    fn actor_at(&self, at: usize) -> Option<PartInState<'_, 'a>>
        ensures { option_map part_shown result ≡ slice_get (all_but_flags self.now) at }
    {
        let actors = self.actors.as_slice();
        if at < actors.len() {
            Some(PartInState::Domain(&actors[at]))
        } else {
            self.table_at(at - actors.len())
        }
    }

    /// Returns the part at this index: the flags come first, then the domains, the tables and the pages.
    pub fn part_at(&self, at: usize) -> Option<PartInState<'_, 'a>>
        ensures { option_map part_shown result ≡ slice_get (parts_of self.now) at }
    {
        if at < 1 {
            Some(PartInState::Flags(&self.told))
        } else {
            self.actor_at(at - 1)
        }
    }

    // Makes a state without any parts.
    fn empty(alloc: Global) -> SearchState<'a>
        ensures { lists_in result ≡ no_parts }
    {
        SearchState {
            actors: Vec::new(alloc),
            ground: SparseState {
                tables: Vec::new(alloc),
                pages: Vec::new(alloc),
            },
            told: Vec::new(alloc),
        }
    }

    // Appends a part to those of its kind.
    fn put(&mut self, part: StatePart<'a>) -> Result<(), AllocError>
        ensures { OnOk result (lists_in self.new ≡ with_part (lists_in self.old) part.entry) }
    {
        match part {
            StatePart::Flags(told) => {
                self.told.clear();
                told.append_to(&mut self.told)?;
            }
            StatePart::Domain(actor) => self.actors.push(actor.into_actor())?,
            StatePart::Table(table) => self.ground.tables.push(table)?,
            StatePart::Page(page) => self.ground.pages.push(page)?,
        }
        Ok(())
    }

    /// Makes the state that has these parts.
    pub fn join(alloc: Global, parts: Vec<StatePart<'a>>) -> Result<SearchState<'a>, AllocError>
        ensures { IfOk result (λ state. lists_in state ≡ with_parts no_parts parts.entry.items) }
    {
        let mut state = SearchState::empty(alloc);
        'parts: for part in parts {
            state.put(part)?;
        }
        Ok(state)
    }
}
