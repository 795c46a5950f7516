//! The start of a run, for a caller outside Rattle.
ghost use Rattle.std.specs.Prelude.{◌≡◌, All, length, map, IfOk, IfErr, OnOk};
ghost use Rattle.gt_roster.specs.Frameless.{IsFramelessFault, IsRunnable};
ghost use Rattle.gt_live.specs.Domains.{BelongsTo};
ghost use Rattle.gt_attached.specs.Starting.{AreNewGuests, attached_to};
ghost use Rattle.std.specs.Arc.{arc_value};

use crate::attached::AttachedDomain;
use gt_live::{Domain, Monitor};
use gt_types::{Allows, Config, StartFault};
use std::alloc::{AllocError, Global};
use std::sync::Arc;

// Finishes domains that have made no call.
fn finish_all<P: Allows + Drop>(monitor: &Monitor<P>, domains: Vec<Domain>)
    requires { All (λ d. BelongsTo P.may monitor.now d) domains.items }
{
    let mut rest = domains.into_iter();
    'rest: while let Some(domain) = rest.next() {
        let _ = domain.finish(monitor);
    }
    rest.destroy_empty();
}

// Attaches each domain to its monitor.
fn all_guests<P: Allows + Drop>(
    alloc: Global,
    monitor: &Arc<Monitor<P>, Global>,
    domains: Vec<Domain>,
) -> Result<Vec<AttachedDomain<P>>, AllocError>
    requires { All (λ d. BelongsTo P.may (arc_value monitor.now) d) domains.items }
    ensures { IfOk result (λ v. v.items ≡ map (attached_to (arc_value monitor.now)) domains.items) }
{
    let count = domains.len();
    let Ok(room) = Vec::with_capacity(alloc, count) else {
        finish_all(monitor, domains);
        return Err(AllocError);
    };
    let mut all: Vec<AttachedDomain<P>> = room;
    let mut rest = domains.into_iter();
    'rest: while let Some(domain) = rest.next() {
        match Arc::try_clone(monitor) {
            Ok(own) => all.push_reserved(AttachedDomain::new(own, domain)),
            Err(_) => {
                let _ = domain.finish(monitor);
            }
        }
    }
    rest.destroy_empty();
    if all.len() == count {
        Ok(all)
    } else {
        Err(AllocError)
    }
}

/// Starts a run whose frames the caller keeps, and returns an attached domain for each one configured, in order. They
/// share one monitor, which has this configuration and these rights and keeps no frame. A domain may have any number of
/// frames from 1 on. None of them records its calls until `keep_at_most` asks for it.
///
/// # Errors
/// The first fault of the configuration, or `Memory` if allocation fails, which may be before the check. No domain is
/// left.
pub fn start<P: Allows + Drop>(
    alloc: Global,
    config: Config,
    rights: P,
) -> Result<Vec<AttachedDomain<P>>, StartFault>
    ensures ok { OnOk result (IsRunnable config) }
    ensures guests { IfOk result (λ v. AreNewGuests P.may config rights v.items) }
    ensures count { IfOk result (λ v. length v.items ≡ length config.domains.items) }
    ensures err { IfErr result (IsFramelessFault config) }
{
    let (monitor, domains) = match Monitor::without_frames(alloc, config, rights) {
        Ok(made) => made,
        Err(fault) => return Err(fault),
    };
    let monitor = match Arc::new(alloc, monitor) {
        Ok(monitor) => monitor,
        Err(refused) => {
            finish_all(&refused.value, domains);
            return Err(StartFault::Memory);
        }
    };
    match all_guests(alloc, &monitor, domains) {
        Ok(guests) => Ok(guests),
        Err(_) => Err(StartFault::Memory),
    }
}
