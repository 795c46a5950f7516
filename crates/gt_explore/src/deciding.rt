//! Texts by which claims are decided. The search ends before its limit if few states are enough for that.
ghost use Rattle.std.specs.Prelude.{IfOk, IfSome};
ghost use Rattle.gt_script.specs.Contents.{contents_of};
ghost use Rattle.gt_script.specs.RunContents.{run_contents};
ghost use Rattle.gt_script.specs.RunScripts.{CanConfigure};
ghost use Rattle.gt_script.specs.Stuck.{AreNumbered};
ghost use Rattle.gt_explore_answers.specs.Exploring.{AreTextsOf};
ghost use Rattle.gt_explore_answers.specs.Outputs.{found_from};

use crate::texts::texts_found;
use gt_explore_answers::{FoundTexts, satisfied};
use gt_explore_faults::TextsFault;
use gt_explore_search::SearchWatch;
use gt_explore_verdict::{Claim, Operation, Verdict, judge};
use gt_script::RunScript;
use std::alloc::Global;

// The numbers of states after which a search looks whether its texts are enough. A search that goes on begins anew, so
// they are few, and far apart.
const FIRST_LOOK: usize = 1_000;

const SECOND_LOOK: usize = 32_000;

/// Says of texts that were found whether they are enough.
pub trait TextsTest {
    /// Returns whether no further text is needed.
    ///
    /// # Errors
    /// An allocation failed.
    fn is_enough(&self, alloc: Global, found: &FoundTexts) -> Result<bool, TextsFault>;
}

/// The test of whether texts decide a claim.
#[derive(Clone, Copy)]
pub struct ClaimTest<'c> {
    pub claim: Claim,
    pub conditions: &'c [Operation<'c>],
}

impl TextsTest for ClaimTest<'_> {
    fn is_enough(&self, alloc: Global, found: &FoundTexts) -> Result<bool, TextsFault> {
        let met = satisfied(alloc, self.conditions, found.texts.as_slice())?;
        let judgement = judge(self.claim, met.as_slice(), found.whole);
        Ok(judgement.verdict != Verdict::Undecided)
    }
}

// The watch of a search that keeps whether it ended the search.
#[derive(Drop)]
struct EndingWatch<'w, T> {
    watch: &'w mut T,
    ended: bool,
}

impl<T: SearchWatch> SearchWatch for EndingWatch<'_, T> {
    fn ends(&mut self, states: usize) -> bool {
        self.ended = self.watch.ends(states);
        self.ended
    }
}

// Returns texts of a search with a small limit, if they are all, if they are enough, or if the watch ended the search.
fn texts_early<D: TextsTest, T: SearchWatch>(
    alloc: Global,
    script: &RunScript,
    limit: usize,
    test: &D,
    watch: &mut T,
) -> Result<Option<FoundTexts>, TextsFault>
    requires fits { CanConfigure (contents_of script.now.head) }
    requires numbered { AreNumbered script.now.flags script.now.tasks }
    ensures { IfOk result (λ some. IfSome some (λ all. AreTextsOf (run_contents script.now) (found_from all))) }
{
    let mut ending = EndingWatch {
        watch,
        ended: false,
    };
    let found = texts_found(alloc, script, limit, &mut ending)?;
    if found.whole || ending.ended || test.is_enough(alloc, &found)? {
        Ok(Some(found))
    } else {
        Ok(None)
    }
}

/// Returns texts that a script may give, as [`texts_found`] does. The search ends after 1,000 or 32,000 states if the
/// texts found until then are enough.
///
/// # Errors
/// Those of [`texts_found`].
pub fn texts_enough<D: TextsTest, T: SearchWatch>(
    alloc: Global,
    script: &RunScript,
    limit: usize,
    test: &D,
    watch: &mut T,
) -> Result<FoundTexts, TextsFault>
    requires fits { CanConfigure (contents_of script.now.head) }
    requires numbered { AreNumbered script.now.flags script.now.tasks }
    ensures { IfOk result (λ all. AreTextsOf (run_contents script.now) (found_from all)) }
{
    if limit > FIRST_LOOK {
        if let Some(found) = texts_early(alloc, script, FIRST_LOOK, test, watch)? {
            return Ok(found);
        }
    }
    if limit > SECOND_LOOK {
        if let Some(found) = texts_early(alloc, script, SECOND_LOOK, test, watch)? {
            return Ok(found);
        }
    }
    texts_found(alloc, script, limit, watch)
}
