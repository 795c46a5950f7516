//! The search of a script's run.
ghost use Rattle.std.specs.Prelude.{IfOk};
ghost use Rattle.gt_script.specs.Contents.{contents_of};
ghost use Rattle.gt_script.specs.RunContents.{run_contents};
ghost use Rattle.gt_script.specs.RunScripts.{CanConfigure};
ghost use Rattle.gt_script.specs.Stuck.{AreNumbered};
ghost use Rattle.gt_explore_moves.specs.Spaces.{FindsAll};

use crate::scene::SearchContext;
use gt_explore_search::{SearchFault, SearchResult};
use gt_script::RunScript;
use std::alloc::Global;

/// Visits the states of a script's run, at most `limit` of them. Returns for each text that the script may give one
/// list of turns that led to it.
///
/// # Errors
/// `Memory` if an allocation fails; `States` beyond the limit, or if a number is too large for its field; `Circle` if a
/// run returns to a state.
pub fn search<'s, 'a>(
    alloc: Global,
    script: &'s RunScript<'a>,
    limit: usize,
) -> Result<SearchResult, SearchFault>
    requires { CanConfigure (contents_of script.now.head) }
    ensures { AreNumbered script.now.flags script.now.tasks → IfOk result (FindsAll (run_contents script.now)) }
{
    let scene: SearchContext<'s, 's> = SearchContext::new(alloc, script)?;
    gt_explore_search::search(alloc, &scene, limit)
}
