//! A domain together with its monitor.
ghost use Rattle.std.specs.Prelude.{◌≡◌, None};
ghost use Rattle.std.specs.Arc.{arc_value};
ghost use Rattle.gt_live.specs.Domains.{BelongsTo};
ghost use Rattle.gt_attached.specs.Seated.{LeavesSettled, unrecorded};
ghost use Rattle.gt_attached.specs.declared.attachment.LeftDomain.{LeftDomain as Gone};

use crate::attachment::{Attachment, LeftDomain};
use gt_live::{Domain, Monitor};
use gt_types::Allows;
use std::alloc::Global;
use std::marker::Model;
use std::sync::Arc;

/// A domain with a share of its monitor, and the copy that it is in, if it is in one. When it is dropped, it ends the
/// copy, closes its table and leaves the run, as by `finish`. A contract sees these three parts.
pub struct AttachedDomain<P: Allows + Drop> {
    pub(crate) monitor: Arc<Monitor<P>, Global>,
    pub(crate) attachment: Attachment,
}

impl<P: Allows + Drop> Model for AttachedDomain<P> {
    ghost use Rattle.std.specs.Arc.{arc_value};
    ghost use Rattle.gt_attached.specs.Seated.{Seated, StandsBy, copy_in_place};

    ghost Value = { Seated P };

    ghost view = { λ g. record {
      monitor = arc_value g.monitor;
      domain = g.attachment.domain;
      copying = copy_in_place g.attachment.is_copying g.attachment.pending;
    } };

    ghost invariant = { λ g. StandsBy P.may (arc_value g.monitor) g.attachment.domain
        (copy_in_place g.attachment.is_copying g.attachment.pending) };
}

impl<P: Allows + Drop> Drop for AttachedDomain<P> {
    fn drop(self)
        ensures { (gone : Gone) × LeavesSettled P.may self gone }
    {
        let AttachedDomain {
            monitor,
            attachment,
        } = self;
        let _ = attachment.leave(&monitor);
    }
}

impl<P: Allows + Drop> AttachedDomain<P> {
    /// Attaches the domain to its monitor. It records no call until `keep_at_most` asks for records.
    pub(crate) fn new(monitor: Arc<Monitor<P>, Global>, domain: Domain) -> Self
        requires { BelongsTo P.may (arc_value monitor) domain }
        ensures { result ≡ record { monitor = arc_value monitor; domain = unrecorded domain; copying = None } }
    {
        let mut domain = domain;
        domain.keep_at_most(0);
        AttachedDomain {
            monitor,
            attachment: Attachment::new(domain),
        }
    }

    /// Leaves the run: ends the copy that the domain is in, if it is in one, releases each of its mappings, and withdraws
    /// each of its valid entries. Returns the number of records that were lost, the number of the domain's entries still
    /// in use, and the seat that left.
    pub fn finish(self) -> LeftDomain
        ensures { LeavesSettled P.may self result }
    {
        let AttachedDomain {
            monitor,
            attachment,
        } = self;
        attachment.leave(&monitor)
    }
}
