//! The moves by which a domain raises a flag, or passes one.
ghost use Rattle.std.specs.Prelude.{◌≡◌, false, get_or};

use crate::scene::{SearchContext, SearchState};
use gt_explore_search::TurnResult;

// Returns whether there is a flag at this index, and it is set. A set of domains is a list of flags, too.
pub(super) fn is_set(flags: &[bool], at: usize) -> bool
    ensures { result ≡ get_or flags.now at false }
{
    at < flags.len() && flags[at]
}

impl<'s, 'a> SearchContext<'s, 'a> {
    ghost use Rattle.std.specs.Prelude.{◌≡◌, ◌<◌, List, ◌∷◌, Some, true, length, slice_get, slice_set};
    ghost use Rattle.gt_model.specs.History.{History, Setting};
    ghost use Rattle.gt_explore_replay.specs.Courses.{Course, resting};
    ghost use Rattle.gt_script.specs.Lists.{RunTask};
    ghost use Rattle.gt_explore_moves.specs.Calls.{ShowsCalls};
    ghost use Rattle.gt_explore_moves.specs.Ends.{tasks_at};
    ghost use Rattle.gt_explore_moves.specs.Starting.{PassesTo};
    ghost use Rattle.gt_explore_moves.specs.declared.actor.Actor.{Actor};

    // Makes the move by which a domain raises a flag.
    pub(super) fn raise(&self, world: &mut SearchState<'a>, at: usize, flag: usize) -> TurnResult
        ensures { (s : Setting) (h : History) (k : Course) (t : RunTask) (ts : List RunTask) (a : Actor) →
            slice_get world.old.actors.items at ≡ Some a → ShowsCalls s h (tasks_at self.now at) k a →
            k.opened ≡ resting → k.tasks ≡ t ∷ ts → flag < length world.old.told.items →
            (result ≡ TurnResult.On) × (world.new.told.items ≡ slice_set world.old.told.items flag true)
            × PassesTo s h (tasks_at self.now at) a (record k { tasks = ts }) world.old world.new at }
    {
        let Some(actor) = world.actors.get_mut(at) else {
            return TurnResult::Nowhere;
        };
        let Some(told) = world.told.get_mut(flag) else {
            return TurnResult::Nowhere;
        };
        *told = true;
        actor.pass();
        TurnResult::On
    }

    // Makes the move by which a domain passes a flag, if that was raised.
    pub(super) fn go_past(&self, world: &mut SearchState<'a>, at: usize, flag: usize) -> TurnResult
        ensures raised { (s : Setting) (h : History) (k : Course) (t : RunTask) (ts : List RunTask) (a : Actor) →
            slice_get world.old.actors.items at ≡ Some a → ShowsCalls s h (tasks_at self.now at) k a →
            k.opened ≡ resting → k.tasks ≡ t ∷ ts → slice_get world.old.told.items flag ≡ Some true →
            (result ≡ TurnResult.On) × (world.new.told ≡ world.old.told)
            × PassesTo s h (tasks_at self.now at) a (record k { tasks = ts }) world.old world.new at }
    {
        let is_raised = is_set(world.told.as_slice(), flag);
        let Some(actor) = world.actors.get_mut(at) else {
            return TurnResult::Nowhere;
        };
        if is_raised {
            actor.pass();
            TurnResult::On
        } else {
            TurnResult::Nowhere
        }
    }
}
