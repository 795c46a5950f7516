//! Requests whose expression names calls.
ghost use Rattle.std.specs.Prelude.{◌≡◌, ◌++◌, ◌∷◌, [], ℕ, List, false, IfOk, IfSome, Ok, OnOk, take};
ghost use Rattle.std.specs.Str.{IsUtf8};
ghost use Rattle.gt_text.specs.declared.streams.TheConstants.{READ_LIMIT};
ghost use Rattle.gt_script.specs.Contents.{contents_of};
ghost use Rattle.gt_script.specs.RunContents.{RunContents, run_contents};
ghost use Rattle.gt_script.specs.RunScripts.{CanConfigure, ReadsAsRun};
ghost use Rattle.gt_script.specs.Stuck.{AreNumbered};
ghost use Rattle.gt_explore_answers.specs.Outputs.{found_from};
ghost use Rattle.gt_explore_verdict.specs.Judging.{verdict_at};
ghost use Rattle.gt_explore_answers.specs.declared.asking.ExploreRequest.{ExploreRequest};
ghost use Rattle.gt_explore_claims.specs.Exploring.{AreOptionsNamed, IsDecision, IsNamedRequest, NamedExplored};
ghost use Rattle.gt_explore_claims.specs.Deciding.{numbered_claim};
ghost use Rattle.gt_explore_claims.specs.Unlisted.{IsDecidedUnshown, ShowNone, unshown_line, unshown_output};

use crate::deciding::{NumberedClaim, conditions_of, numbered_expression};
use crate::stated::StatedClaim;
use crate::unlisted::unshown;
use gt_explore::explore_bytes;
use gt_explore_answers::{
    ExploreFormat, ExploreOptions, ExploreOutput, ExploreRequest, FoundTexts, push_states_line,
    push_summary, push_verdict,
};
use gt_explore_faults::{ClaimsFault, ExploreFault};
use gt_explore_search::SearchWatch;
use gt_explore_verdict::{Claim, Verdict, verdict_at};
use gt_script::{RunScript, parse_run};
use gt_script_runs::PlayFault;
use gt_text::{text_of, write_text};
use std::alloc::{AllocError, Global};
use std::io::Write;
use std::slice;

/// Returns bytes as the text of a script. Bytes that are no text have no lines, and no names.
pub fn source_of<'i>(input: &'i [u8]) -> &'i str
    ensures { IsUtf8 input.entry.now → result.now ≡ input.entry.now }
{
    match text_of(input) {
        Ok(text) => text,
        Err(_) => "",
    }
}

// Answers a request without names.
fn explore_numbered<W: Write, T: SearchWatch>(
    alloc: Global,
    asked: &ExploreOptions,
    input: &[u8],
    writer: &mut W,
    watch: &mut T,
) -> Result<Verdict, ClaimsFault>
    ensures { (all : List ℕ) → input.now ≡ take READ_LIMIT all → (first : ExploreOptions) →
        AreOptionsNamed all first asked.now → NamedExplored first all (W.contents writer.old) (W.contents writer.new) result }
{
    match explore_bytes(alloc, asked, input, writer, watch) {
        Ok(verdict) => Ok(verdict),
        Err(fault) => Err(ClaimsFault::Explore(fault)),
    }
}

// Appends what is printed in text of a claim of which no text shows the verdict.
fn push_unshown(
    out: &mut Vec<u8>,
    claim: Claim,
    verdict: Verdict,
    found: &FoundTexts,
) -> Result<(), AllocError>
    ensures { OnOk result (out.new.items ≡ out.old.items ++ unshown_line claim verdict (found_from found.now)) }
{
    match claim {
        Claim::Find => push_states_line(out, found),
        Claim::Never | Claim::Always => push_verdict(out, found, verdict),
    }
}

// Returns what is printed of a claim of which no text shows the verdict.
fn unshown_output(
    alloc: Global,
    asked: &ExploreOptions,
    claim: Claim,
    found: &FoundTexts,
) -> Result<ExploreOutput, AllocError>
    ensures is { IfOk result (λ made. made.verdict ≡ verdict_at claim false found.now.whole) }
    ensures text { IfOk result (λ made. made.text.items
        ≡ unshown_output asked.now.format asked.now.states claim made.verdict (found_from found.now)) }
{
    let verdict = verdict_at(claim, false, found.whole);
    let mut text = Vec::new(alloc);
    match asked.format {
        ExploreFormat::Text => push_unshown(&mut text, claim, verdict, found)?,
        ExploreFormat::Json => push_summary(&mut text, found, asked.states, verdict)?,
    }
    Ok(ExploreOutput { text, verdict })
}

// Returns texts of a script of which none shows the verdict on a claim. Returns None if one does, or if the search
// failed.
fn unshown_one<T: SearchWatch>(
    alloc: Global,
    script: &RunScript,
    claim: &NumberedClaim<'_>,
    limit: usize,
    watch: &mut T,
) -> Option<FoundTexts>
    requires fits { CanConfigure (contents_of script.now.head) }
    requires numbered { AreNumbered script.now.flags script.now.tasks }
    ensures { IfSome result (λ found.
        ShowNone (run_contents script.now) (numbered_claim claim.now ∷ []) (found_from found)) }
{
    match unshown(alloc, script, slice::from_ref(claim), limit, watch) {
        Ok(found) => found,
        Err(_) => None,
    }
}

// Decides a claim about a script by texts of which none shows the verdict. Returns None if one does, or if the search
// failed.
fn decided<T: SearchWatch>(
    alloc: Global,
    asked: &ExploreOptions,
    claim: &NumberedClaim<'_>,
    script: &RunScript,
    watch: &mut T,
) -> Option<ExploreOutput>
    requires fits { CanConfigure (contents_of script.now.head) }
    requires numbered { AreNumbered script.now.flags script.now.tasks }
    ensures { IfSome result (λ made. IsDecidedUnshown (run_contents script.now) asked.now.format asked.now.states
        claim.now.stated.claim claim.now.numbered.items made.text.items made.verdict) }
{
    let Ok(_) = conditions_of(alloc, script, claim) else {
        return None;
    };
    let found = unshown_one(alloc, script, claim, asked.states, watch)?;
    match unshown_output(alloc, asked, claim.stated.claim, &found) {
        Ok(made) => Some(made),
        Err(_) => None,
    }
}

// Does the same with the script in these bytes.
fn decided_in<T: SearchWatch>(
    alloc: Global,
    asked: &ExploreOptions,
    claim: &NumberedClaim<'_>,
    input: &[u8],
    watch: &mut T,
) -> Option<ExploreOutput>
    ensures { (all : List ℕ) → input.now ≡ take READ_LIMIT all → IfSome result (λ made. (c : RunContents)
        × ReadsAsRun all (Ok c) × IsDecidedUnshown c asked.now.format asked.now.states claim.now.stated.claim
        claim.now.numbered.items made.text.items made.verdict) }
{
    match parse_run(alloc, input) {
        Ok(script) => decided(alloc, asked, claim, &script, watch),
        Err(_) => None,
    }
}

// Answers a request to decide this claim, which has its expression.
fn explore_decision<W: Write, T: SearchWatch>(
    alloc: Global,
    asked: &ExploreOptions,
    claim: &NumberedClaim<'_>,
    input: &[u8],
    writer: &mut W,
    watch: &mut T,
) -> Result<Verdict, ClaimsFault>
    ensures { (all : List ℕ) → input.now ≡ take READ_LIMIT all → (first : ExploreOptions) →
        AreOptionsNamed all first asked.now →
        IsDecision claim.now.stated.claim claim.now.numbered.items asked.now.request →
        NamedExplored first all (W.contents writer.old) (W.contents writer.new) result }
{
    match decided_in(alloc, asked, claim, input, watch) {
        Some(made) => match write_text(writer, made.text.as_slice()) {
            Ok(()) => Ok(made.verdict),
            Err(_) => Err(ClaimsFault::Explore(ExploreFault::Play(PlayFault::Write))),
        },
        None => explore_numbered(alloc, asked, input, writer, watch),
    }
}

// Answers a request of which this is the claim.
fn explore_claim<W: Write, T: SearchWatch>(
    alloc: Global,
    asked: &ExploreOptions,
    claim: &NumberedClaim<'_>,
    input: &[u8],
    writer: &mut W,
    watch: &mut T,
) -> Result<Verdict, ClaimsFault>
    ensures { (all : List ℕ) → input.now ≡ take READ_LIMIT all → ((request : ExploreRequest) →
        IsDecision claim.now.stated.claim claim.now.numbered.items request →
        IsNamedRequest all asked.now.request request) →
        NamedExplored asked.now all (W.contents writer.old) (W.contents writer.new) result }
{
    let Ok(expression) = text_of(claim.numbered.as_slice()) else {
        return Err(ClaimsFault::Astray);
    };
    let claim_asked = claim.stated.claim;
    let named = ExploreOptions {
        request: ExploreRequest::Decide {
            claim: claim_asked,
            expression,
        },
        states: asked.states,
        format: asked.format,
    };
    explore_decision(alloc, &named, claim, input, writer, watch)
}

/// Answers a request on the texts that a script may give, as `explore` of `gt_explore` does. The expression of a claim
/// may have the names of calls in place of the numbers of their lines. A claim of which no text shows the verdict is
/// decided without a list of all texts. The bytes of the script are a whole text, or the first 1,048,577 of a longer
/// one.
///
/// # Errors
/// `Explore` with a fault of `explore`, but for failed reads; `Repeated` if a name of the expression is that of two
/// calls. Nothing was written then, but for a prefix of the text if a write failed.
pub fn explore_named<W: Write, T: SearchWatch>(
    alloc: Global,
    asked: &ExploreOptions,
    input: &[u8],
    writer: &mut W,
    watch: &mut T,
) -> Result<Verdict, ClaimsFault>
    ensures { (all : List ℕ) → input.now ≡ take READ_LIMIT all →
        NamedExplored asked.now all (W.contents writer.old) (W.contents writer.new) result }
{
    let ExploreRequest::Decide { claim, expression } = asked.request else {
        return explore_numbered(alloc, asked, input, writer, watch);
    };
    let numbered = match numbered_expression(alloc, source_of(input), expression) {
        Ok(numbered) => numbered,
        Err(fault) => return Err(fault),
    };
    let named = NumberedClaim {
        stated: StatedClaim { claim, expression },
        numbered,
    };
    explore_claim(alloc, asked, &named, input, writer, watch)
}
