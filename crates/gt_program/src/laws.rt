//! A law about the outputs of `run` and `explore`. It is a function that does nothing; its contract is the law.
ghost use Rattle.gt_program.specs.Laws.{RunsAreAmongTheExplored, RunsAreAmongTheTraced};

use gt_script::every_text_has_one_run;

/// A law: if `run` wrote a text for these bytes, and the search of `explore` for the same bytes met all states, that
/// text is among those that `explore` found, also for moves. It presumes that no call of the text is answered with N26,
/// and that no gate refused a flag. The gate of this program refuses none.
pub fn every_run_is_among_the_explored()
    ensures explored { RunsAreAmongTheExplored }
    ensures traced { RunsAreAmongTheTraced }
{
    every_text_has_one_run();
}
