//! The events of a run, without the requests of calls.
ghost use Rattle.std.specs.Prelude.{◌≡◌, ◌++◌, ◌∷◌, [], OnOk};
ghost use Rattle.gt_explore_replay.specs.Orders.{Happening, doer};
ghost use Rattle.gt_explore_replay.specs.Walking.{IsShownBy};
ghost use Rattle.gt_explore_races.specs.Paths.{event_kinds_in};

use gt_explore_replay::Moved;
use gt_types::DomId;
use std::alloc::AllocError;

/// An event of the core, without the request of a call. A script for `play` has a line for each: `begin ID CALL` and
/// `tick ID 1`.
#[derive(Clone, Copy, Debug, PartialEq, Eq)]
pub enum EventKind {
    /// This domain begins a call.
    Begin(DomId),
    /// The call of this domain makes a step.
    Tick(DomId),
}

/// Appends the event of a move of this domain, if it is one of the core.
pub fn push_event(events: &mut Vec<EventKind>, dom: DomId, moved: &Moved) -> Result<(), AllocError>
    ensures { (x : Happening) → IsShownBy moved.now x → doer x ≡ dom →
        OnOk result (events.new.items ≡ events.old.items ++ event_kinds_in (x ∷ [])) }
{
    match moved {
        Moved::Began(_) => events.push(EventKind::Begin(dom))?,
        Moved::Stepped(..) => events.push(EventKind::Tick(dom))?,
        Moved::Raised | Moved::Passed => {}
    }
    Ok(())
}
