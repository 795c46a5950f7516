//! The labels of mappings.
use gt_core::Handle;
use gt_types::DomId;
use std::alloc::{AllocError, Global};
use std::collections::BTreeMap;

/// The handle that no map returns: its serial is never given.
pub const NEVER_GIVEN: Handle = Handle {
    serial: u64::MAX,
    key: 0,
};

/// The handles of labels, by domain and label.
#[derive(Drop)]
pub struct Labels<'a> {
    handles: BTreeMap<(u16, &'a [u8]), Handle>,
}

impl<'a> Labels<'a> {
    ghost use Rattle.std.specs.Prelude.{◌≡◌, ℕ, List, OnOk, None, Some, unwrap_or};
    ghost use Rattle.gt_script_runs.specs.declared.labels.TheConstants.{NEVER_GIVEN};
    ghost use Rattle.gt_script_runs.specs.Labels.{handle_in, RenamesOnly};

    /// Makes an empty table of labels.
    pub fn new(alloc: Global) -> Labels<'a>
        ensures { (dom : ℕ) → (label : List ℕ) → handle_in result dom label ≡ None }
    {
        Labels {
            handles: BTreeMap::new(alloc),
        }
    }

    /// Returns the handle of a domain's label, or `NEVER_GIVEN` if it has none.
    pub fn handle(&self, dom: DomId, label: &'a [u8]) -> Handle
        ensures { result ≡ unwrap_or (handle_in self.now dom.0 label.entry.now) NEVER_GIVEN }
    {
        let key = (dom.0, label);
        self.handles.get(&key).copied().unwrap_or(NEVER_GIVEN)
    }

    /// Gives the handle to the domain's label.
    pub fn name(&mut self, dom: DomId, label: &'a [u8], handle: Handle) -> Result<(), AllocError>
        ensures named { OnOk result (handle_in self.new dom.0 label.entry.now ≡ Some handle) }
        ensures others { OnOk result (RenamesOnly self.old self.new dom.0 label.entry.now) }
    {
        self.handles.insert((dom.0, label), handle)?;
        Ok(())
    }
}
