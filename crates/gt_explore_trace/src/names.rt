//! The words of a script for what a domain begins.
ghost use Rattle.std.specs.Prelude.{◌≡◌};
ghost use Rattle.std.specs.Option.{option_map};
ghost use Rattle.gt_explore_trace.specs.Places.{action_name, begun_name, call_name};

use gt_script::{RunAction, RunTask};
use gt_script_lines::ScriptCall;

fn call_name(call: &ScriptCall) -> &'static str
    ensures { result.now ≡ call_name call.now }
{
    match call {
        ScriptCall::Grant { .. } => "grant",
        ScriptCall::GrantBytes { .. } => "bytes",
        ScriptCall::Revoke { .. } => "revoke",
        ScriptCall::Withdraw { .. } => "withdraw",
        ScriptCall::Demote { .. } => "demote",
        ScriptCall::Promote { .. } => "promote",
        ScriptCall::Map { .. } => "map",
        ScriptCall::Unmap { .. } => "unmap",
        ScriptCall::Load { .. } => "load",
        ScriptCall::Store { .. } => "store",
        ScriptCall::Peek { .. } => "peek",
        ScriptCall::Poke { .. } => "poke",
        ScriptCall::Copy(_) => "copy",
        ScriptCall::SetVersion { .. } => "version",
        ScriptCall::SetupTable { .. } => "setup",
        ScriptCall::QuerySize { .. } => "size",
        ScriptCall::GetVersion { .. } => "getversion",
    }
}

fn action_name(action: &RunAction) -> &'static str
    ensures { result.now ≡ action_name action.now }
{
    match action {
        RunAction::Do(call) => call_name(call),
        RunAction::Tell(_) => "tell",
        RunAction::Await(_) => "await",
    }
}

/// Returns the word for what a domain begins: the call of a line, or a release at the end of its list.
pub fn begun_name(task: Option<&RunTask>) -> &'static str
    ensures { result.now ≡ begun_name (option_map (λ u. u.now) task.entry) }
{
    match task {
        Some(task) => action_name(&task.run_action),
        None => "release",
    }
}
