//! A search for entries that are invalid and still have pins.
ghost use Rattle.std.specs.Prelude.{◌≡◌};
ghost use Rattle.gt_attached.specs.Unused.{is_unused};

use crate::attached::AttachedDomain;
use gt_entry::{Control, EntryKind};
use gt_types::{Allows, GrantRef, TABLE_ENTRIES};

// Returns whether an entry is invalid and still has pins, of either kind.
fn is_unused(control: Control) -> bool
    ensures { result ≡ is_unused control }
{
    matches!(control.kind, EntryKind::Invalid) && (control.reads > 0 || control.writes > 0)
}

impl<P: Allows + Drop> AttachedDomain<P> {
    ghost use Rattle.std.specs.Prelude.{◌≡◌, None};
    ghost use Rattle.gt_live.specs.Parts.{words_of};
    ghost use Rattle.gt_attached.specs.Seated.{StaysIdle};
    ghost use Rattle.gt_attached.specs.Unused.{FindsUnused};

    /// Returns the least reference from this one on whose entry is invalid and still has pins: its owner uses it no
    /// more, and others do. Looks once at each entry before it. Returns `None` if there is none in the table.
    pub fn unused(&mut self, from: GrantRef) -> Option<GrantRef>
        requires idle { self.old.copying ≡ None }
        ensures stays { StaysIdle self.old self.new }
        ensures finds { FindsUnused (words_of self.old.monitor).layout self.old.domain from.0 result self.new.domain }
    {
        'entries: for at in from.0..TABLE_ENTRIES {
            let Some(control) = self.status(GrantRef(at)) else {
                return None;
            };
            if is_unused(control) {
                return Some(GrantRef(at));
            }
        }
        None
    }
}
