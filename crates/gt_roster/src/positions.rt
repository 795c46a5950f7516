//! A table from the number of a domain to its position.
ghost use Rattle.std.specs.Prelude.{◌≡◌, ◌==◌, ◌<◌, ℕ, All, IfOk, length, map, position};
ghost use Rattle.gt_types.specs.Config.{IsWithinLimits};
ghost use Rattle.gt_roster.specs.Places.{HasPlaces};

use gt_types::{Config, DomId};
use std::alloc::{AllocError, Global};
use std::marker::Model;

/// The numbers of the domains of a run, in order, and the position of each.
///
/// A contract sees it as the list of the numbers.
#[derive(Drop)]
pub struct Positions {
    ids: Vec<DomId>,
    table: Vec<u8>,
}

impl Model for Positions {
    ghost use Rattle.std.specs.Prelude.{List};
    ghost use Rattle.gt_types.specs.declared.DomId.{DomId};
    ghost use Rattle.gt_roster.specs.Places.{HasPlaces};

    ghost Value = { List DomId };

    ghost view = { λ p. p.ids.items };

    ghost invariant = { λ p. HasPlaces p.ids.items p.table.items };
}

fn ids_of(alloc: Global, config: &Config) -> Result<Vec<DomId>, AllocError>
    ensures { IfOk result (λ v. v.items ≡ map (λ d. d.id) config.now.domains.items) }
{
    let mut ids = Vec::with_capacity(alloc, config.domains.len())?;
    for domain in &config.domains {
        ids.push(domain.id)?;
    }
    Ok(ids)
}

// Returns the first number above all of these.
fn end_of(ids: &[DomId]) -> usize
    ensures { All (λ x. x.0 < result) ids.now }
{
    let mut end = 0;
    for id in ids {
        end = end.max(usize::from(id.0) + 1);
    }
    end
}

// Builds the table: at each number up to the highest one, its position. A number that no domain has gets the count
// of domains.
fn places_of(alloc: Global, ids: &[DomId]) -> Result<Vec<u8>, AllocError>
    requires { length ids.now < 256 }
    ensures { IfOk result (λ v. HasPlaces ids.now v.items) }
{
    let mut table = vec![in alloc; ids.len() as u8; end_of(ids)]?;
    let mut at = ids.len();
    'places: while at > 0 {
        at -= 1;
        table[usize::from(ids[at].0)] = at as u8;
    }
    Ok(table)
}

impl Positions {
    /// Builds the table for the domains of a configuration. It takes a byte for each number up to the highest one,
    /// so at most 32 KB.
    ///
    /// # Errors
    /// `AllocError`, if an allocation fails.
    pub fn new(alloc: Global, config: &Config) -> Result<Positions, AllocError>
        requires { IsWithinLimits config.now }
        ensures { IfOk result (λ p. p ≡ map (λ d. d.id) config.now.domains.items) }
    {
        let ids = ids_of(alloc, config)?;
        let table = places_of(alloc, &ids)?;
        Ok(Positions { ids, table })
    }

    /// Returns the number of domains.
    pub fn count(&self) -> usize
        ensures { result ≡ length self.now }
    {
        self.ids.len()
    }

    /// Returns the position of the first domain with this number, None if there is none.
    pub fn position(&self, dom: DomId) -> Option<usize>
        ensures { result ≡ position (λ x. x.0 == dom.0) self.now }
    {
        let at = match self.table.get(usize::from(dom.0)) {
            Some(&at) => usize::from(at),
            None => return None,
        };
        if at < self.ids.len() { Some(at) } else { None }
    }
}
