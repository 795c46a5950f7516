//! Claims, and whether they hold.
ghost use Rattle.std.specs.Prelude.{◌≡◌, map};
ghost use Rattle.gt_state_claims.specs.Claims.{EntriesShown, ShowsOnly, choice_holds, claim_asked, claim_holds};
ghost use Rattle.gt_state_claims.specs.Claims.{term_holds};

use crate::terms::StateTerm;
use gt_core::EntryView;
use gt_types::{DomId, GrantRef};

/// What shows the entries of all domains at one moment.
pub trait ShowsEntries {
    ghost use Rattle.std.specs.Prelude.{ℕ, Option};
    ghost use Rattle.gt_types.specs.declared.DomId.{DomId};
    ghost use Rattle.gt_core.specs.declared.core_state.EntryView.{EntryView};

    // What may be returned for an entry of a domain.
    ghost shows: { Self → DomId → ℕ → Option EntryView → Type 0 };

    /// Returns what an entry of a domain shows. None for a reference beyond the table, or if the run has no such
    /// domain.
    fn entry(&self, dom: DomId, gref: GrantRef) -> Option<EntryView>
        ensures { shows self.now dom gref.0 result };
}

/// A claim about the entries of one moment: the choices that `|` joins, and of each the terms that `&` joins.
#[derive(Drop)]
pub struct StateClaim {
    pub choices: Vec<Vec<StateTerm>>,
}

fn term_holds<V: ShowsEntries>(term: StateTerm, entries: &V) -> bool
    ensures { (view : EntriesShown) → ShowsOnly (V.shows entries.now) view → result ≡ term_holds term view }
{
    let is_met = term.test.is_met(entries.entry(term.dom, term.gref));
    if term.denied { !is_met } else { is_met }
}

// Returns whether all terms of a choice hold.
fn choice_holds<V: ShowsEntries>(terms: &[StateTerm], entries: &V) -> bool
    ensures { (view : EntriesShown) → ShowsOnly (V.shows entries.now) view → result ≡ choice_holds terms.now view }
{
    'terms: for term in terms {
        if !term_holds(*term, entries) {
            return false;
        }
    }
    true
}

// Returns whether all terms of one of these choices hold.
fn claim_holds<V: ShowsEntries>(choices: &[Vec<StateTerm>], entries: &V) -> bool
    ensures { (view : EntriesShown) → ShowsOnly (V.shows entries.now) view
        → result ≡ claim_holds (map (λ terms. terms.items) choices.now) view }
{
    'choices: for terms in choices {
        if choice_holds(terms.as_slice(), entries) {
            return true;
        }
    }
    false
}

impl StateClaim {
    /// Returns whether the claim holds of these entries: whether all terms of one of its choices do. It allocates
    /// nothing.
    pub fn holds<V: ShowsEntries>(&self, entries: &V) -> bool
        ensures { (view : EntriesShown) → ShowsOnly (V.shows entries.now) view
            → result ≡ claim_holds (claim_asked self.now) view }
    {
        claim_holds(self.choices.as_slice(), entries)
    }
}
