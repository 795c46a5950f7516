//! Turns that are made again on the core, with the tables that they leave.
ghost use Rattle.std.specs.Prelude.{◌≡◌, ◌++◌, ◌∷◌, [], List, IfOk, IfSome, OnOk};
ghost use Rattle.gt_explore_replay.specs.Abreast.{history_in};
ghost use Rattle.gt_explore_replay.specs.Orders.{Happening};
ghost use Rattle.gt_explore_state.specs.Shows.{IsSettingOf, TablesShow};
ghost use Rattle.gt_model.specs.History.{Setting};
ghost use Rattle.gt_types.specs.Config.{IsWithinLimits};
ghost use Rattle.gt_script_runs.specs.Playing.{setting_of_script};
ghost use Rattle.gt_script.specs.Contents.{contents_of};
ghost use Rattle.gt_script.specs.RunContents.{run_contents};
ghost use Rattle.gt_script.specs.RunScripts.{CanConfigure};
ghost use Rattle.gt_state_claims.specs.Claims.{claim_asked};
ghost use Rattle.gt_explore_states.specs.Moves.{ComesNext, IsAtMoment};

use crate::entries::TableEntries;
use gt_explore_faults::TextsFault;
use gt_explore_replay::{Moved, Replay};
use gt_explore_search::Turn;
use gt_explore_state::{SparseState, every_beginning_changes_nothing, every_right_step_fits};
use gt_roster::Roster;
use gt_script::RunScript;
use gt_state_claims::StateClaim;
use std::alloc::{AllocError, Global};

// Applies a move of the domain at this position to the tables.
fn follow(
    roster: &Roster,
    ground: &mut SparseState,
    place: usize,
    moved: &Moved,
) -> Result<(), AllocError>
    ensures { (s : Setting) (hs : List Happening) (x : Happening) → IsSettingOf roster.now s →
        TablesShow s (history_in hs) ground.old.tables.items → ComesNext s hs place moved.now x →
        OnOk result (TablesShow s (history_in (hs ++ x ∷ [])) ground.new.tables.items) }
{
    every_beginning_changes_nothing();
    every_right_step_fits();
    match moved {
        Moved::Stepped(step, seen, _) => ground.apply(roster, place, *step, *seen),
        Moved::Began(_) => Ok(()),
        Moved::Raised => Ok(()),
        Moved::Passed => Ok(()),
    }
}

/// Makes these turns of a script, from the beginning of its run. Returns the run at the moment to which they lead, if
/// the claim holds there. `roster` has the domains of the script.
///
/// # Errors
/// `Memory` if an allocation fails.
pub fn replayed<'s, 'a>(
    alloc: Global,
    script: &'s RunScript<'a>,
    claim: &StateClaim,
    roster: &Roster,
    turns: &[Turn],
) -> Result<Option<Replay<'s, 'a>>, TextsFault>
    requires { CanConfigure (contents_of script.now.head) }
    ensures { IsSettingOf roster.now (setting_of_script (contents_of script.entry.now.head)) →
        IsWithinLimits roster.now → IfOk result (λ r. IfSome r
        (IsAtMoment (run_contents script.entry.now) (claim_asked claim.now) turns.now)) }
{
    let mut ground = SparseState::new(alloc, roster.config().domains.as_slice())?;
    let mut run = Replay::new(alloc, script)?;
    'turns: for turn in turns {
        let Some(moved) = run.advance(*turn)? else {
            return Ok(None);
        };
        follow(roster, &mut ground, turn.place, &moved)?;
    }
    let entries = TableEntries {
        roster,
        tables: ground.tables.as_slice(),
    };
    if claim.holds(&entries) {
        Ok(Some(run))
    } else {
        Ok(None)
    }
}
