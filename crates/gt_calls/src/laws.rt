//! Laws of calls: the room that a caller has, and how a call continues. A law is a function with an
//! empty body, whose contract is the law.
ghost use Rattle.std.specs.Prelude.{◌≡◌};
ghost use Rattle.gt_types.specs.declared.limits.TheConstants.{FRAME_SIZE, TABLE_ENTRIES};
ghost use Rattle.gt_calls.specs.Following.{GoesByPhase};
ghost use Rattle.gt_model.specs.Rules.{CallerKnowledge};
ghost use Rattle.gt_model.specs.declared.action.Observation.{Observation};
ghost use Rattle.gt_calls.specs.declared.call.Call.{Call};

use crate::known::{ENTRIES, FRAME_LEN};

/// States that a caller has room for the largest table and for a whole frame.
pub fn the_rooms_of_a_caller()
    ensures entries { ENTRIES ≡ TABLE_ENTRIES }
    ensures bytes { FRAME_LEN ≡ FRAME_SIZE }
{}

/// Proves that a call continues by its phase. Before its first step this is the first phase, and after a step the
/// phase that follows what the step saw. Its next action is that of the phase.
pub fn every_call_goes_on_by_its_phase()
    ensures { (k : CallerKnowledge) (call : Call) (seen : Observation) → GoesByPhase k call seen }
{}
