//! What the tables of a state show of entries.
ghost use Rattle.std.specs.Prelude.{◌≡◌};
ghost use Rattle.std.specs.Option.{option_copied};
ghost use Rattle.gt_model.specs.History.{History, Setting};
ghost use Rattle.gt_core.specs.Shown.{shown_at};
ghost use Rattle.gt_types.specs.declared.DomId.{DomId};
ghost use Rattle.gt_explore_state.specs.Shows.{IsSettingOf, TableShows, TablesShow};
ghost use Rattle.gt_explore_state.specs.Tables.{table_in};
ghost use Rattle.gt_explore_states.specs.Tables.{shown_in_table};

use gt_core::EntryView;
use gt_explore_state::SparseTable;
use gt_roster::Roster;
use gt_state_claims::ShowsEntries;
use gt_types::{DomId, GrantRef};

/// The entries of all domains, by the tables of a small state.
#[derive(Clone, Copy)]
pub struct TableEntries<'t> {
    pub roster: &'t Roster,
    pub tables: &'t [SparseTable],
}

// Returns the table of a domain, None if the run has no such domain.
fn table_of<'t>(roster: &Roster, tables: &'t [SparseTable], dom: DomId) -> Option<&'t SparseTable>
    ensures { option_copied result ≡ table_in roster.now.domains.items tables.now dom.0 }
{
    match roster.position(dom) {
        Some(at) => tables.get(at),
        None => None,
    }
}

// Returns what an entry of a table shows, None for a reference beyond the table.
fn shown_in_table(table: &SparseTable, first_gen: u32, gref: GrantRef) -> Option<EntryView>
    ensures { (s : Setting) (h : History) (d : DomId) → TableShows s h d table.now →
        first_gen ≡ s.first_generation → result ≡ shown_in_table s h d gref.0 }
{
    if gref.0 >= table.header.entries() {
        return None;
    }
    let own = table.owner_entry(first_gen, gref);
    let counts = table.entry_counts(gref);
    Some(EntryView {
        entry: own.entry(),
        generation: own.generation(),
        reads: counts.reads(),
        writes: counts.writes(),
    })
}

impl ShowsEntries for TableEntries<'_> {
    ghost shows = { λ entries dom r view. (s : Setting) (h : History) → IsSettingOf entries.roster.now s →
        TablesShow s h entries.tables.now → view ≡ shown_at s h dom r };

    fn entry(&self, dom: DomId, gref: GrantRef) -> Option<EntryView> {
        match table_of(self.roster, self.tables, dom) {
            Some(table) => shown_in_table(table, self.roster.config().first_gen, gref),
            None => None,
        }
    }
}
