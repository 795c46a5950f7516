//! What steps do to the states of the domains.
ghost use Rattle.std.specs.Prelude.{◌≡◌};
ghost use Rattle.gt_core.specs.States.{changed_in, IsPlaced};
ghost use Rattle.gt_core.specs.Effects.{with_slot, applied, without_holder, with_own, with_header};

use crate::pin_counts::CountsChange;
use crate::state::{DomainState, find};
use gt_calls::{EntryChange, Observation, PinHolder, Step};
use gt_roster::Roster;
use gt_types::{DomId, GrantRef};

fn change_slot(
    config: &Roster,
    domains: &mut [DomainState],
    dom: DomId,
    gref: GrantRef,
    change: CountsChange,
)
    requires { IsPlaced config.now.domains.items domains.old }
    ensures { domains.new ≡ changed_in dom.0 (with_slot gref.0 change) domains.old }
{
    if let Some(at) = find(config, domains, dom) {
        domains[at].change_slot(gref, change);
    }
}

fn change_own(
    config: &Roster,
    domains: &mut [DomainState],
    dom: DomId,
    gref: GrantRef,
    change: EntryChange,
)
    requires { IsPlaced config.now.domains.items domains.old }
    ensures { domains.new ≡ changed_in dom.0 (with_own gref.0 change) domains.old }
{
    if let Some(at) = find(config, domains, dom) {
        domains[at].change_own(gref, change);
    }
}

fn forget(config: &Roster, domains: &mut [DomainState], dom: DomId, holder: PinHolder)
    requires { IsPlaced config.now.domains.items domains.old }
    ensures { domains.new ≡ changed_in dom.0 (without_holder holder) domains.old }
{
    if let Some(at) = find(config, domains, dom) {
        domains[at].forget(holder);
    }
}

fn store_header(config: &Roster, domains: &mut [DomainState], dom: DomId, version: u32, frames: u32)
    requires { IsPlaced config.now.domains.items domains.old }
    ensures { domains.new ≡ changed_in dom.0 (with_header version frames) domains.old }
{
    if let Some(at) = find(config, domains, dom) {
        domains[at].store_header(version, frames);
    }
}

/// Applies a step of `actor`, which saw `seen`, to the states of the domains. A step that releases the pin of a mapping
/// drops that mapping.
pub fn apply(
    config: &Roster,
    domains: &mut [DomainState],
    actor: DomId,
    step: Step,
    seen: Observation,
)
    requires { IsPlaced config.now.domains.items domains.old }
    ensures { domains.new ≡ applied actor step seen domains.old }
{
    match (step, seen) {
        (Step::Pin { held }, Observation::Taken) => {
            change_slot(
                config,
                domains,
                held.dom,
                held.gref,
                CountsChange::Pinned(held.dir),
            );
        }
        (Step::Unpin { held, holder }, _) => {
            change_slot(
                config,
                domains,
                held.dom,
                held.gref,
                CountsChange::Unpinned(held.dir),
            );
            forget(config, domains, actor, holder);
        }
        (
            Step::StoreBody {
                gref,
                body_word,
                word,
            },
            _,
        ) => {
            change_slot(
                config,
                domains,
                actor,
                gref,
                CountsChange::Stored(body_word, word),
            );
        }
        (Step::StoreHeader { version, frames }, _) => {
            store_header(config, domains, actor, version, frames);
        }
        (Step::Exchange { gref, change, .. }, Observation::Taken) => {
            change_own(config, domains, actor, gref, change);
        }
        _ => {}
    }
}
