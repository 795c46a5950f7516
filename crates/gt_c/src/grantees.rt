//! To whom the entries of a domain were last granted.
ghost use Rattle.std.specs.Prelude.{◌≡◌, IfOk, slice_index_or};
ghost use Rattle.gt_c.specs.Grantees.{no_grantee, noted, unnoted};

use gt_entry::Entry;
use gt_types::{DomId, GrantRef, TABLE_ENTRIES};
use std::alloc::{AllocError, Global};
use std::marker::Model;

/// The number of no domain of a run: that of an entry which was never granted.
pub const NOBODY: DomId = DomId(65535);

/// For each reference of a domain, the domain to which its entry was last granted. A withdrawn entry permits no domain,
/// but still has the pins of this one. A contract sees the list.
#[derive(Drop)]
pub struct Grantees {
    rows: Vec<DomId>,
}

impl Model for Grantees {
    ghost use Rattle.std.specs.Prelude.{List};
    ghost use Rattle.gt_types.specs.declared.DomId.{DomId};

    ghost Value = { List DomId };

    ghost view = { λ g. g.rows.items };
}

impl Grantees {
    ghost use Rattle.std.specs.Prelude.{◌≡◌, IfOk, slice_index_or};
    ghost use Rattle.gt_c.specs.Grantees.{no_grantee, noted, unnoted};

    /// Makes the list of a domain that has granted no entry.
    pub fn new(alloc: Global) -> Result<Grantees, AllocError>
        ensures { IfOk result (λ g. g ≡ unnoted) }
    {
        let rows = vec![in alloc; NOBODY; TABLE_ENTRIES as usize]?;
        Ok(Grantees { rows })
    }

    /// Notes to whom this entry of this reference is granted, unless it is Invalid.
    #[inline(always)]
    pub fn note(&mut self, gref: GrantRef, entry: Entry)
        ensures { self.new ≡ noted self.old gref.0 entry }
    {
        let at = gref.0 as usize;
        if at >= self.rows.len() {
            return;
        }
        match entry {
            Entry::Invalid => {}
            Entry::Page { dom, .. } | Entry::Sub { dom, .. } | Entry::Via { dom, .. } => {
                self.rows[at] = dom;
            }
        }
    }

    /// Returns the domain to which the entry of this reference was last granted, or [`NOBODY`].
    pub fn last(&self, gref: GrantRef) -> DomId
        ensures { result ≡ slice_index_or self.now gref.0 no_grantee }
    {
        match self.rows.get(gref.0 as usize).copied() {
            Some(dom) => dom,
            None => NOBODY,
        }
    }
}
