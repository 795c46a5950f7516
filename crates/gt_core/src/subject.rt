//! The entry that a mapping is of.
ghost use Rattle.std.specs.Prelude.{◌≡◌, option_copied};
ghost use Rattle.gt_handles.specs.Handles.{value_of};
ghost use Rattle.gt_model.specs.History.{History};
ghost use Rattle.gt_core.specs.Standing.{DomainsStand};
ghost use Rattle.gt_core.specs.Acting.{setting_by};
ghost use Rattle.gt_core.specs.Subject.{subject_at};

use crate::kept::Machine;
use crate::state::{DomainState, find};
use gt_calls::{Handle, HeldPin};
use gt_types::{Allows, DomId, GrantRef};

impl DomainState {
    fn mapping(&self, handle: Handle) -> Option<&HeldPin>
        ensures { option_copied result ≡ value_of self.now.mappings handle }
    {
        self.mappings.get(handle)
    }
}

impl<P: Allows> Machine<P> {
    /// Returns the entry that the domain has mapped with this handle.
    pub(crate) fn subject(&self, dom: DomId, handle: Handle) -> Option<(DomId, GrantRef)>
        ensures { (h : History) → DomainsStand (setting_by P.may self.now) h self.now.domains.items →
            result ≡ subject_at (setting_by P.may self.now) h dom handle }
    {
        let at = find(&self.config, &self.domains, dom)?;
        let held = self.domains[at].mapping(handle)?;
        Some((held.dom, held.gref))
    }
}
