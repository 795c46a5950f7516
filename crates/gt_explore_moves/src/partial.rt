//! The search of a script's run that returns what it found until it met too many states, or until its watch ended it.
ghost use Rattle.std.specs.Prelude.{IfOk, IsTrue};
ghost use Rattle.gt_script.specs.Contents.{contents_of};
ghost use Rattle.gt_script.specs.RunContents.{run_contents};
ghost use Rattle.gt_script.specs.RunScripts.{CanConfigure};
ghost use Rattle.gt_script.specs.Stuck.{AreNumbered};
ghost use Rattle.gt_explore_moves.specs.Spaces.{FindsAll};

use crate::scene::SearchContext;
use gt_explore_search::{PartialResult, SearchFault, SearchWatch};
use gt_script::RunScript;
use std::alloc::Global;

/// Visits the states of a script's run, at most `limit` of them. Returns for each text that the script may give one
/// list of turns that led to it. If there are more states, or the watch ends the search, it returns those found until
/// then, and that they are not all.
///
/// # Errors
/// `Memory` if an allocation fails; `Circle` if a run returns to a state; `States` if a number is too large for its
/// field.
pub fn search_within<'s, 'a, W: SearchWatch>(
    alloc: Global,
    script: &'s RunScript<'a>,
    limit: usize,
    watch: &mut W,
) -> Result<PartialResult, SearchFault>
    requires { CanConfigure (contents_of script.now.head) }
    ensures { AreNumbered script.now.flags script.now.tasks →
        IfOk result (λ partial. IsTrue partial.whole → FindsAll (run_contents script.now) partial.found) }
{
    let scene: SearchContext<'s, 's> = SearchContext::new(alloc, script)?;
    gt_explore_search::search_within(alloc, &scene, limit, watch)
}
