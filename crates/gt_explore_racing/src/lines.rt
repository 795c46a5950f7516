//! The lines of a script for `play`, as events.
ghost use Rattle.std.specs.Prelude.{◌≡◌, IsTrue, Some, map};
ghost use Rattle.gt_explore_racing.specs.Showing.{event_of_line};

use gt_explore_races::EventKind;
use gt_script::{ScriptAction, ScriptStep};

// Returns whether this line makes this event.
fn makes_event(step: &ScriptStep<'_>, event: EventKind) -> bool
    ensures { IsTrue result → event_of_line step.now ≡ Some event }
{
    match (&step.action, event) {
        (ScriptAction::Begin(_), EventKind::Begin(dom)) => step.dom.0 == dom.0,
        (ScriptAction::Tick(most), EventKind::Tick(dom)) => *most == 1 && step.dom.0 == dom.0,
        _ => false,
    }
}

/// Returns whether these lines make these events, one each.
pub fn are_lines_of(steps: &[ScriptStep<'_>], events: &[EventKind]) -> bool
    ensures { IsTrue result → map event_of_line steps.now ≡ map (λ e. Some e) events.now }
{
    if steps.len() != events.len() {
        return false;
    }
    'steps: for at in 0..steps.len() {
        if !makes_event(&steps[at], events[at]) {
            return false;
        }
    }
    true
}
