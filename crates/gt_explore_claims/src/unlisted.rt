//! Claims that are decided without a list of all texts: by one text of each kind.
ghost use Rattle.std.specs.Prelude.{◌≡◌, ◌++◌, IfOk, IfSome, OnOk, map};
ghost use Rattle.std.specs.List.{list_any};
ghost use Rattle.gt_script.specs.Contents.{contents_of};
ghost use Rattle.gt_script.specs.RunContents.{run_contents};
ghost use Rattle.gt_script.specs.RunScripts.{CanConfigure};
ghost use Rattle.gt_script.specs.Stuck.{AreNumbered};
ghost use Rattle.gt_explore_answers.specs.Outputs.{found_from};
ghost use Rattle.gt_explore_kinds.specs.Kinds.{formulas_asked};
ghost use Rattle.gt_explore_claims.specs.Deciding.{numbered_claim};
ghost use Rattle.gt_explore_claims.specs.Unlisted.{HasEachKindOf, ShowNone, formula_of_claim, is_shown};

use crate::deciding::{NumberedClaim, claim_answer, conditions_of};
use gt_explore_answers::FoundTexts;
use gt_explore_faults::TextsFault;
use gt_explore_kinds::kinds_within;
use gt_explore_search::SearchWatch;
use gt_explore_verdict::Operation;
use gt_script::RunScript;
use std::alloc::Global;

// The numbers of states after which a search looks whether a text shows a verdict. A search that goes on begins anew,
// so they are few, and far apart.
const FIRST_LOOK: usize = 1_000;

const SECOND_LOOK: usize = 32_000;

// The watch of a search that keeps whether it ended the search.
#[derive(Drop)]
struct KindsWatch<'w, T> {
    watch: &'w mut T,
    ended: bool,
}

impl<T: SearchWatch> SearchWatch for KindsWatch<'_, T> {
    fn ends(&mut self, states: usize) -> bool {
        self.ended = self.watch.ends(states);
        self.ended
    }
}

// Returns the largest number of states of the look of this number.
fn states_of_look(look: usize, limit: usize) -> usize {
    match look {
        0 => limit.min(FIRST_LOOK),
        1 => limit.min(SECOND_LOOK),
        _ => limit,
    }
}

// Reads the expressions of these claims about a script.
fn expressions_of<'n>(
    alloc: Global,
    script: &RunScript,
    claims: &'n [NumberedClaim<'_>],
) -> Result<Vec<Vec<Operation<'n>>>, TextsFault>
    ensures { IfOk result (λ all. formulas_asked all.items ≡ map formula_of_claim (map numbered_claim claims.entry.now)) }
{
    let mut all = Vec::new(alloc);
    'claims: for named in claims {
        let conditions = conditions_of(alloc, script, named)?;
        all.push(conditions)?;
    }
    Ok(all)
}

// Finds texts of a script, one of each kind for these expressions.
fn kinds_found<T: SearchWatch>(
    alloc: Global,
    script: &RunScript,
    expressions: &[Vec<Operation<'_>>],
    limit: usize,
    watch: &mut T,
) -> Result<FoundTexts, TextsFault>
    requires fits { CanConfigure (contents_of script.now.head) }
    requires numbered { AreNumbered script.now.flags script.now.tasks }
    ensures { IfOk result (λ found.
        HasEachKindOf (run_contents script.now) (formulas_asked expressions.now) (found_from found)) }
{
    let kinds = kinds_within(alloc, script, expressions, limit, watch)?;
    Ok(FoundTexts {
        texts: kinds.texts,
        states: kinds.states,
        whole: kinds.whole,
        depth: kinds.depth,
    })
}

// Returns whether one of these texts shows the verdict on one of these claims.
fn shows_one(
    alloc: Global,
    script: &RunScript,
    found: &FoundTexts,
    claims: &[NumberedClaim<'_>],
) -> Result<bool, TextsFault>
    ensures { IfOk result (λ shows. shows
        ≡ list_any (is_shown (found_from found.now)) (map numbered_claim claims.now)) }
{
    'claims: for named in claims {
        let answer = claim_answer(alloc, script, found, named)?;
        if answer.number.is_some() {
            return Ok(true);
        }
    }
    Ok(false)
}

// Returns texts of one of each kind, if none of them shows the verdict on one of these claims.
fn kinds_unshown<T: SearchWatch>(
    alloc: Global,
    script: &RunScript,
    claims: &[NumberedClaim<'_>],
    limit: usize,
    watch: &mut T,
) -> Result<Option<FoundTexts>, TextsFault>
    requires fits { CanConfigure (contents_of script.now.head) }
    requires numbered { AreNumbered script.now.flags script.now.tasks }
    ensures { IfOk result (λ some. IfSome some (λ found.
        ShowNone (run_contents script.now) (map numbered_claim claims.now) (found_from found))) }
{
    let expressions = expressions_of(alloc, script, claims)?;
    let found = kinds_found(alloc, script, expressions.as_slice(), limit, watch)?;
    let is_shown = shows_one(alloc, script, &found, claims)?;
    if is_shown {
        return Ok(None);
    }
    Ok(Some(found))
}

/// Returns texts of a script of which none shows the verdict on one of these claims. If they have one of each kind, each
/// `never` and `always` among the claims holds. Returns None if some text shows a verdict. The search visits at most
/// `limit` states, and ends after 1,000 or 32,000 of them if a text that was found until then shows a verdict.
///
/// # Errors
/// Those of a search for texts of each kind, and `Astray` if an expression has a fault.
pub fn unshown<T: SearchWatch>(
    alloc: Global,
    script: &RunScript,
    claims: &[NumberedClaim<'_>],
    limit: usize,
    watch: &mut T,
) -> Result<Option<FoundTexts>, TextsFault>
    requires fits { CanConfigure (contents_of script.now.head) }
    requires numbered { AreNumbered script.now.flags script.now.tasks }
    ensures { IfOk result (λ some. IfSome some (λ found.
        ShowNone (run_contents script.now) (map numbered_claim claims.now) (found_from found))) }
{
    let mut watching = KindsWatch {
        watch,
        ended: false,
    };
    'looks: for look in 0..3 {
        let states = states_of_look(look, limit);
        let Some(found) = kinds_unshown(alloc, script, claims, states, &mut watching)? else {
            return Ok(None);
        };
        if found.whole || watching.ended || states >= limit {
            return Ok(Some(found));
        }
    }
    Ok(None)
}
