//! The answer to a request about a script as JSON.
ghost use Rattle.std.specs.Prelude.{◌≡◌, ◌++◌, IfOk};
ghost use Rattle.gt_explore_answers.specs.Objects.{summary};
ghost use Rattle.gt_explore_answers.specs.Outputs.{found_from};

use crate::answering::{ExploreOutput, script_of, text_place, verdict_of_all, verdict_on};
use crate::asking::ExploreRequest;
use crate::conditions::satisfied;
use crate::found::FoundTexts;
use crate::objects::{push_summary, push_text_object, push_witness_object};
use gt_explore_faults::TextsFault;
use gt_explore_search::FoundText;
use gt_explore_verdict::{Claim, Operation, Verdict, judge};
use gt_script::RunScript;
use std::alloc::Global;

/// The texts that were found for a script, and what their objects need.
#[derive(Drop)]
pub struct ObjectWriter<'x, 'a> {
    pub alloc: Global,
    pub source: &'x [u8],
    pub script: &'x RunScript<'a>,
    pub found: &'x FoundTexts,
}

// Ends an output with the last object.
fn ended(
    mut text: Vec<u8>,
    found: &FoundTexts,
    limit: usize,
    verdict: Verdict,
) -> Result<ExploreOutput, TextsFault>
    ensures { IfOk result (λ made. (made.verdict ≡ verdict)
        × (made.text.items ≡ text.items ++ summary (found_from found.now) limit verdict)) }
{
    push_summary(&mut text, found, limit, verdict)?;
    Ok(ExploreOutput { text, verdict })
}

impl ObjectWriter<'_, '_> {
    ghost use Rattle.std.specs.Prelude.{◌≡◌, ◌++◌, ℕ, List, IfOk, OnOk, false, length, map};
    ghost use Rattle.gt_script.specs.Contents.{contents_of};
    ghost use Rattle.gt_script.specs.RunContents.{run_contents};
    ghost use Rattle.gt_script.specs.RunScripts.{CanConfigure};
    ghost use Rattle.gt_explore_verdict.specs.Formulas.{operation_asked};
    ghost use Rattle.gt_explore_answers.specs.AsObjects.{ShowsAll, ShowsBy, ShowsClaim, ShowsClaimedBy, ShowsGiven, ShowsObjects};
    ghost use Rattle.gt_explore_answers.specs.AsObjects.{ShowsWitness};
    ghost use Rattle.gt_explore_answers.specs.Exploring.{AreTextsOf};
    ghost use Rattle.gt_explore_answers.specs.Texts.{texts_of_orders};
    ghost use Rattle.gt_explore_answers.specs.Objects.{IsObject, IsObjectIf, ShowsText, ShowsTexts};
    ghost use Rattle.gt_explore_answers.specs.Outputs.{found_from};

    // Appends the object of a text, with a script for `play` if scripts are wanted.
    fn push_object(
        &self,
        out: &mut Vec<u8>,
        scripts: bool,
        number: usize,
        order: &FoundText,
    ) -> Result<(), TextsFault>
        requires { CanConfigure (contents_of self.now.script.now.head) }
        ensures { OnOk result ((object : List ℕ) × (out.new.items ≡ out.old.items ++ object)
            × IsObject (contents_of self.now.script.now.head) (found_from self.now.found.now) scripts number
            order.now.text.items object) }
    {
        let text = order.text.as_slice();
        if !scripts {
            push_text_object(self.alloc, out, self.found, number, text)?;
            return Ok(());
        }
        let script = script_of(self.alloc, self.source, self.script, order)?;
        push_witness_object(self.alloc, out, self.found, number, text, script.as_slice())?;
        Ok(())
    }

    // Appends the object of a text, if it is wanted.
    fn push_wanted(
        &self,
        out: &mut Vec<u8>,
        scripts: bool,
        wanted: bool,
        number: usize,
        order: &FoundText,
    ) -> Result<(), TextsFault>
        requires { CanConfigure (contents_of self.now.script.now.head) }
        ensures { OnOk result ((object : List ℕ) × (out.new.items ≡ out.old.items ++ object)
            × IsObjectIf (contents_of self.now.script.now.head) (found_from self.now.found.now) scripts wanted
            number order.now.text.items object) }
    {
        if !wanted {
            return Ok(());
        }
        self.push_object(out, scripts, number, order)
    }

    // Appends the objects of the wanted ones of the texts.
    fn push_texts(
        &self,
        out: &mut Vec<u8>,
        scripts: bool,
        wanted: &[bool],
    ) -> Result<(), TextsFault>
        requires fits { CanConfigure (contents_of self.now.script.now.head) }
        requires many { length wanted.now ≡ length self.now.found.now.texts.items }
        ensures { OnOk result ((more : List ℕ) × (out.new.items ≡ out.old.items ++ more)
            × ShowsTexts (contents_of self.now.script.now.head) (found_from self.now.found.now) scripts 0
            (texts_of_orders self.now.found.now.texts.items) wanted.now more) }
    {
        let mut number = 0;
        let orders = self.found.texts.as_slice();
        'orders: for order in orders {
            let wants = wanted[number];
            number += 1;
            self.push_wanted(out, scripts, wants, number, order)?;
        }
        Ok(())
    }

    // Appends the object of the text at this index, if there is one.
    fn push_text(
        &self,
        out: &mut Vec<u8>,
        scripts: bool,
        place: Option<usize>,
    ) -> Result<(), TextsFault>
        requires { CanConfigure (contents_of self.now.script.now.head) }
        ensures { OnOk result ((more : List ℕ) × (out.new.items ≡ out.old.items ++ more)
            × ShowsText (contents_of self.now.script.now.head) (found_from self.now.found.now) scripts place more) }
    {
        let Some(at) = place else {
            return Ok(());
        };
        let Some(order) = self.found.texts.get(at) else {
            return Err(TextsFault::Astray);
        };
        let Some(number) = at.checked_add(1) else {
            return Err(TextsFault::Astray);
        };
        self.push_object(out, scripts, number, order)
    }

    // Appends the objects for a claim, by whether each text satisfies the conditions, and by the text that shows the
    // verdict.
    fn push_claimed(
        &self,
        out: &mut Vec<u8>,
        claim: Claim,
        met: &[bool],
        shown_by: Option<usize>,
    ) -> Result<(), TextsFault>
        requires fits { CanConfigure (contents_of self.now.script.now.head) }
        requires many { length met.now ≡ length self.now.found.now.texts.items }
        ensures { OnOk result ((more : List ℕ) × (out.new.items ≡ out.old.items ++ more)
            × ShowsClaimedBy (contents_of self.now.script.now.head) claim met.now (found_from self.now.found.now)
            shown_by more) }
    {
        match claim {
            Claim::Find => self.push_texts(out, false, met),
            Claim::Never => self.push_text(out, true, shown_by),
            Claim::Always => self.push_text(out, true, shown_by),
        }
    }

    // Shows all texts, with scripts for `play` or without.
    fn all(&self, limit: usize, scripts: bool) -> Result<ExploreOutput, TextsFault>
        requires { CanConfigure (contents_of self.now.script.now.head) }
        ensures { IfOk result (λ made. ShowsObjects limit (ShowsAll (run_contents self.now.script.now) scripts)
            (found_from self.now.found.now) made.text.items made.verdict) }
    {
        let met = satisfied(self.alloc, &[], self.found.texts.as_slice())?;
        let mut text = Vec::new(self.alloc);
        self.push_texts(&mut text, scripts, met.as_slice())?;
        ended(text, self.found, limit, verdict_of_all(self.found.whole))
    }

    // Decides a claim on these conditions.
    fn decided(
        &self,
        limit: usize,
        claim: Claim,
        conditions: &[Operation<'_>],
    ) -> Result<ExploreOutput, TextsFault>
        requires fits { CanConfigure (contents_of self.now.script.now.head) }
        requires texts { AreTextsOf (run_contents self.now.script.now) (found_from self.now.found.now) }
        ensures { IfOk result (λ made. ShowsObjects limit
            (ShowsClaim (run_contents self.now.script.now) claim (map operation_asked conditions.now))
            (found_from self.now.found.now) made.text.items made.verdict) }
    {
        let met = satisfied(self.alloc, conditions, self.found.texts.as_slice())?;
        let judgement = judge(claim, met.as_slice(), self.found.whole);
        let mut text = Vec::new(self.alloc);
        self.push_claimed(&mut text, claim, met.as_slice(), judgement.shown_by)?;
        ended(text, self.found, limit, judgement.verdict)
    }

    // Shows this text, if it was found.
    fn given(&self, limit: usize, given: &[u8]) -> Result<ExploreOutput, TextsFault>
        requires fits { CanConfigure (contents_of self.now.script.now.head) }
        requires texts { AreTextsOf (run_contents self.now.script.now) (found_from self.now.found.now) }
        ensures { IfOk result (λ made. ShowsObjects limit (ShowsGiven (run_contents self.now.script.now) given.now)
            (found_from self.now.found.now) made.text.items made.verdict) }
    {
        let place = text_place(self.found.texts.as_slice(), given);
        let mut text = Vec::new(self.alloc);
        self.push_text(&mut text, false, place)?;
        ended(text, self.found, limit, verdict_on(place, self.found.whole))
    }

    // Shows the text of this number, with a script for `play`.
    fn witness(&self, limit: usize, number: usize) -> Result<ExploreOutput, TextsFault>
        requires { CanConfigure (contents_of self.now.script.now.head) }
        ensures { IfOk result (λ made. ShowsObjects limit (ShowsWitness (run_contents self.now.script.now) number)
            (found_from self.now.found.now) made.text.items made.verdict) }
    {
        let Some(at) = number.checked_sub(1) else {
            return Err(TextsFault::Astray);
        };
        if at >= self.found.texts.len() {
            return Err(TextsFault::Astray);
        }
        let mut text = Vec::new(self.alloc);
        self.push_text(&mut text, true, Some(at))?;
        ended(text, self.found, limit, verdict_of_all(self.found.whole))
    }

    /// Answers a request as JSON. A claim is one on these conditions.
    ///
    /// # Errors
    /// Those of `answer_in_text`.
    pub fn answer(
        &self,
        request: ExploreRequest<'_>,
        limit: usize,
        conditions: &[Operation<'_>],
    ) -> Result<ExploreOutput, TextsFault>
        requires fits { CanConfigure (contents_of self.now.script.now.head) }
        requires texts { AreTextsOf (run_contents self.now.script.now) (found_from self.now.found.now) }
        ensures { IfOk result (λ made. ShowsBy (run_contents self.now.script.now) limit request.entry
            (map operation_asked conditions.now) (found_from self.now.found.now) made.text.items made.verdict) }
    {
        match request {
            ExploreRequest::Texts => self.all(limit, false),
            ExploreRequest::Decide { claim, .. } => self.decided(limit, claim, conditions),
            ExploreRequest::Has(given) => self.given(limit, given),
            ExploreRequest::Witness(number) => self.witness(limit, number),
            ExploreRequest::Witnesses => self.all(limit, true),
        }
    }
}
