//! Calls, as functions of what their domains know.
ghost use Rattle.std.specs.Prelude.{◌≡◌};
ghost use Rattle.gt_calls.specs.Following.{Goes, IsLeftAlike};
ghost use Rattle.gt_model.specs.Rules.{CallerKnowledge};
ghost use Rattle.gt_calls.specs.Known.{knows};
ghost use Rattle.gt_explore_moves.specs.Beginnings.{BeginsAlike, OpensSo};

use gt_calls::{Action, Call, CallResult, CallerState, Judged, Observation, Request, Step};
use gt_types::{Allows, DomId};

/// The start of a call: open, with its first step, or over.
#[derive(Clone, Copy)]
pub enum CallOpening {
    Open(Call, Step),
    Done(CallResult),
}

/// Starts a call by what its domain knows. The result holds for any other knowledge by which the call begins alike
/// (`BeginsAlike`).
pub fn open_call<P: Allows>(
    known: &CallerState<'_, P>,
    dom: DomId,
    request: Request<'_>,
) -> CallOpening
    ensures { (k : CallerKnowledge) → BeginsAlike k (knows P.may known.now) dom request.entry →
        OpensSo k dom request.entry result }
{
    match Call::begin(dom, request, known) {
        Judged::Answered(verdict) => CallOpening::Done(verdict),
        Judged::Open(first) => {
            let mut call = first;
            match call.next(known, Observation::Nothing) {
                Action::Step(step) => CallOpening::Open(call, step),
                Action::Done(verdict) => CallOpening::Done(verdict),
            }
        }
    }
}

/// Continues a call after a step with this observation.
pub fn go_on<P: Allows>(known: &CallerState<'_, P>, last: Call, seen: Observation) -> (Call, Action)
    ensures caller { result.0.caller ≡ last.caller }
    ensures request { result.0.request ≡ last.request }
    ensures goes { (k : CallerKnowledge) → IsLeftAlike k (knows P.may known.now) last seen →
        Goes k last seen result.0 result.1 }
{
    let mut call = last;
    let action = call.next(known, seen);
    (call, action)
}
