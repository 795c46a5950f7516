//! The calls of a race, in a script for `play`.
ghost use Rattle.std.specs.Prelude.{◌≡◌, IsTrue};
ghost use Rattle.std.specs.Option.{option_map};
ghost use Rattle.gt_explore_racing.specs.Calls.{BeginsCallOf, last_begun, task_of_line, unlabelled};

use gt_script::{RunAction, RunTask, ScriptAction, ScriptCall, ScriptStep};
use gt_types::DomId;

// Returns whether these are the same call, one that may access bytes, but for their labels.
fn is_same_access(one: &ScriptCall<'_>, other: &ScriptCall<'_>) -> bool
    ensures { IsTrue result → unlabelled one.now ≡ unlabelled other.now }
{
    match (one, other) {
        (
            ScriptCall::Load { off, len, .. },
            ScriptCall::Load {
                off: at,
                len: n,
                ..
            },
        ) => { *off == *at && *len == *n }
        (
            ScriptCall::Store { off, hex, .. },
            ScriptCall::Store {
                off: at,
                hex: to,
                ..
            },
        ) => { *off == *at && hex.as_bytes() == to.as_bytes() }
        (
            ScriptCall::Peek { frame, off, len },
            ScriptCall::Peek {
                frame: of,
                off: at,
                len: n,
            },
        ) => { *frame == *of && *off == *at && *len == *n }
        (
            ScriptCall::Poke { frame, off, hex },
            ScriptCall::Poke {
                frame: of,
                off: at,
                hex: to,
            },
        ) => { *frame == *of && *off == *at && hex.as_bytes() == to.as_bytes() }
        (ScriptCall::Copy(args), ScriptCall::Copy(others)) => *args == *others,
        _ => false,
    }
}

// Returns the call that a domain begins last in these lines.
fn last_begun<'s, 'a>(steps: &'s [ScriptStep<'a>], dom: DomId) -> Option<&'s ScriptCall<'a>>
    ensures { option_map (λ r. r.now) result ≡ last_begun dom steps.entry.now }
{
    let mut last = None;
    'steps: for step in steps {
        if step.dom.0 != dom.0 {
            continue;
        }
        if let ScriptAction::Begin(call) = &step.action {
            last = Some(call);
        }
    }
    last
}

// Returns the task of this line.
fn task_of_line<'s, 'a>(tasks: &'s [RunTask<'a>], line: usize) -> Option<&'s RunTask<'a>>
    ensures { option_map (λ r. r.now) result ≡ task_of_line line tasks.entry.now }
{
    'tasks: for task in tasks {
        if task.line == line {
            return Some(task);
        }
    }
    None
}

/// Returns whether the last call that its domain begins in these lines is the call of this line, but for its label.
pub fn begins_call_of(tasks: &[RunTask<'_>], steps: &[ScriptStep<'_>], line: usize) -> bool
    ensures { IsTrue result → BeginsCallOf tasks.now steps.now line }
{
    let Some(task) = task_of_line(tasks, line) else {
        return false;
    };
    let RunAction::Do(call) = &task.run_action else {
        return false;
    };
    let Some(begun) = last_begun(steps, task.dom) else {
        return false;
    };
    is_same_access(begun, call)
}
