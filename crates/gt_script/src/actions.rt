//! What a line of the body is for each of the two commands.
ghost use Rattle.std.specs.Prelude.{◌≡◌, IfOk, OnOk};
ghost use Rattle.gt_script.specs.Flags.{with_flag_of};
ghost use Rattle.gt_script.specs.Script.{play_action_in, run_action_in};

use crate::flags::FlagNames;
use crate::tasks::RunAction;
use gt_script_lines::{BodyLine, ScriptCall};
use gt_types::GrantRef;
use std::alloc::AllocError;

/// What a line of the body is for `play`.
#[derive(Debug, Drop)]
pub enum ScriptAction<'a> {
    /// `do ID CALL`: makes the call from its beginning to its answer.
    Do(ScriptCall<'a>),
    /// `begin ID CALL`: begins the call.
    Begin(ScriptCall<'a>),
    /// `tick ID N`: makes up to N steps, 1 to 100,000, of the open call of the domain.
    Tick(u32),
    /// `show ID REF`: prints a line about the entry, and changes nothing.
    Show(GrantRef),
}

/// Returns what a line of the body is for `play`; None if it is one for `run`.
#[tactic(auto, unfolding(crate::specs::Script::play_action_in))]
pub fn play_action_in<'a>(asks: BodyLine<'a>) -> Option<ScriptAction<'a>>
    ensures { result ≡ play_action_in asks.entry }
{
    match asks {
        BodyLine::Do(call) => Some(ScriptAction::Do(call)),
        BodyLine::Begin(call) => Some(ScriptAction::Begin(call)),
        BodyLine::Tick(most) => Some(ScriptAction::Tick(most)),
        BodyLine::Show(gref) => Some(ScriptAction::Show(gref)),
        BodyLine::Tell(_) | BodyLine::Await(_) => None,
    }
}

/// Returns what a line of the body is for `run`: a whole call, or a flag that is raised or awaited; None if it is one
/// for `play`. A flag that is new gets the next number.
///
/// # Errors
/// An allocation failed.
#[tactic(auto, unfolding(crate::specs::Script::run_action_in))]
pub fn run_action_in<'a>(
    flags: &mut FlagNames<'a>,
    asks: BodyLine<'a>,
) -> Result<Option<RunAction<'a>>, AllocError>
    ensures flags { OnOk result (flags.new ≡ with_flag_of flags.old asks.entry) }
    ensures action { IfOk result (λ action. action ≡ run_action_in flags.new asks.entry) }
{
    Ok(match asks {
        BodyLine::Do(call) => Some(RunAction::Do(call)),
        BodyLine::Begin(_) | BodyLine::Tick(_) | BodyLine::Show(_) => None,
        BodyLine::Tell(flag) => Some(RunAction::Tell(flags.number(flag.as_bytes())?)),
        BodyLine::Await(flag) => Some(RunAction::Await(flags.number(flag.as_bytes())?)),
    })
}
