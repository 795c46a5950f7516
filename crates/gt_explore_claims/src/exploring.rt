//! Several claims about a script, decided together.
ghost use Rattle.std.specs.Prelude.{◌≡◌, ◌⊎◌, ◌++◌, ℕ, List, IfOk, OnOk, map, take};
ghost use Rattle.std.specs.Str.Lines.{lines as lines_in};
ghost use Rattle.gt_text.specs.declared.streams.TheConstants.{READ_LIMIT};
ghost use Rattle.gt_script.specs.Contents.{contents_of};
ghost use Rattle.gt_script.specs.RunContents.{run_contents};
ghost use Rattle.gt_script.specs.RunScripts.{CanConfigure};
ghost use Rattle.gt_script.specs.Stuck.{AreNumbered};
ghost use Rattle.gt_explore_answers.specs.Exploring.{AreTextsOf};
ghost use Rattle.gt_explore_answers.specs.Outputs.{found_from};
ghost use Rattle.gt_explore_claims.specs.Deciding.{numbered_claim};
ghost use Rattle.gt_explore_claims.specs.Stating.{IsStatedAs, stated};
ghost use Rattle.gt_explore_claims.specs.Exploring.{AnswersClaims, AreClaimsOf, ClaimsExplored, MakesAnswers};
ghost use Rattle.gt_explore_claims.specs.Exploring.{answers_ended, claims_output};
ghost use Rattle.gt_explore_claims.specs.Unlisted.{ShowNone};

use crate::deciding::{
    ClaimsTest, NumberedClaim, first_fault, numbered_claims, push_answers, verdict_of_claims,
};
use crate::naming::source_of;
use crate::stated::{StatedClaim, claims_in};
use crate::unlisted::unshown;
use gt_explore::texts_enough;
use gt_explore_answers::{
    ExploreFormat, ExploreOutput, FoundTexts, push_states_line, push_summary,
};
use gt_explore_faults::{ClaimsFault, ExploreFault, TextsFault};
use gt_explore_search::SearchWatch;
use gt_explore_verdict::Verdict;
use gt_script::{RunScript, parse_run};
use gt_script_runs::PlayFault;
use gt_text::write_text;
use std::alloc::{AllocError, Global};
use std::io::Write;

/// Several claims, one in each line: `find EXPRESSION`, `never EXPRESSION` or `always EXPRESSION`. `states` is the
/// largest number of states that the search may meet.
#[derive(Clone, Copy)]
pub struct ClaimsOptions<'c> {
    pub claims: &'c str,
    pub states: usize,
    pub format: ExploreFormat,
}

// Appends the last line of an output, or its last object.
fn push_end(
    out: &mut Vec<u8>,
    asked: &ClaimsOptions<'_>,
    found: &FoundTexts,
    verdict: Verdict,
) -> Result<(), AllocError>
    ensures { OnOk result (out.new.items
        ≡ out.old.items ++ answers_ended asked.now.format asked.now.states (found_from found.now) verdict) }
{
    match asked.format {
        ExploreFormat::Text => push_states_line(out, found),
        ExploreFormat::Json => push_summary(out, found, asked.states, verdict),
    }
}

// Returns what is printed of claims, and the verdict of all.
fn claims_output(
    alloc: Global,
    asked: &ClaimsOptions<'_>,
    script: &RunScript,
    found: &FoundTexts,
    claims: &[NumberedClaim<'_>],
) -> Result<ExploreOutput, TextsFault>
    ensures { IfOk result (λ made. (made.text.items, made.verdict)
        ≡ claims_output asked.now.format asked.now.states (found_from found.now) (map numbered_claim claims.now)) }
{
    let mut text = Vec::new(alloc);
    let verdicts = push_answers(alloc, &mut text, asked.format, script, found, claims)?;
    let verdict = verdict_of_claims(verdicts.as_slice());
    push_end(&mut text, asked, found, verdict)?;
    Ok(ExploreOutput { text, verdict })
}

// Finds texts of a script by which these claims are answered: some of which none shows a verdict, or all.
fn texts_for<T: SearchWatch>(
    alloc: Global,
    states: usize,
    script: &RunScript,
    claims: &[NumberedClaim<'_>],
    watch: &mut T,
) -> Result<FoundTexts, TextsFault>
    requires fits { CanConfigure (contents_of script.now.head) }
    requires numbered { AreNumbered script.now.flags script.now.tasks }
    ensures { IfOk result (λ found. AreTextsOf (run_contents script.now) (found_from found)
        ⊎ ShowNone (run_contents script.now) (map numbered_claim claims.now) (found_from found)) }
{
    match unshown(alloc, script, claims, states, watch) {
        Ok(Some(found)) => Ok(found),
        Ok(None) | Err(_) => {
            let test = ClaimsTest { script, claims };
            texts_enough(alloc, script, states, &test, watch)
        }
    }
}

// Finds texts of a script, and answers claims by them.
fn answered<T: SearchWatch>(
    alloc: Global,
    asked: &ClaimsOptions<'_>,
    script: &RunScript,
    claims: &[NumberedClaim<'_>],
    watch: &mut T,
) -> Result<ExploreOutput, ClaimsFault>
    requires fits { CanConfigure (contents_of script.now.head) }
    requires numbered { AreNumbered script.now.flags script.now.tasks }
    ensures { MakesAnswers (run_contents script.now) asked.now (map numbered_claim claims.now) result }
{
    match first_fault(alloc, script, claims) {
        Ok(None) => (),
        Ok(Some((claim, number, fault))) => {
            return Err(ClaimsFault::Term {
                claim,
                number,
                fault,
            });
        }
        Err(fault) => return Err(ClaimsFault::Explore(ExploreFault::Texts(fault))),
    }
    let found = match texts_for(alloc, asked.states, script, claims, watch) {
        Ok(found) => found,
        Err(fault) => return Err(ClaimsFault::Explore(ExploreFault::Texts(fault))),
    };
    match claims_output(alloc, asked, script, &found, claims) {
        Ok(made) => Ok(made),
        Err(fault) => Err(ClaimsFault::Explore(ExploreFault::Texts(fault))),
    }
}

// Answers claims about a script that was parsed, and writes the output.
fn explore_script<W: Write, T: SearchWatch>(
    alloc: Global,
    asked: &ClaimsOptions<'_>,
    script: &RunScript,
    claims: &[NumberedClaim<'_>],
    writer: &mut W,
    watch: &mut T,
) -> Result<Verdict, ClaimsFault>
    requires fits { CanConfigure (contents_of script.now.head) }
    requires numbered { AreNumbered script.now.flags script.now.tasks }
    ensures { AnswersClaims (run_contents script.now) asked.now (map numbered_claim claims.now) (W.contents writer.old)
        (W.contents writer.new) result }
{
    match answered(alloc, asked, script, claims, watch) {
        Err(fault) => Err(fault),
        Ok(made) => match write_text(writer, made.text.as_slice()) {
            Ok(()) => Ok(made.verdict),
            Err(_) => Err(ClaimsFault::Explore(ExploreFault::Play(PlayFault::Write))),
        },
    }
}

// Answers claims about the script in these bytes, which are those read up to the limit.
fn explore_numbered<W: Write, T: SearchWatch>(
    alloc: Global,
    asked: &ClaimsOptions<'_>,
    claims: &[NumberedClaim<'_>],
    input: &[u8],
    writer: &mut W,
    watch: &mut T,
) -> Result<Verdict, ClaimsFault>
    ensures { (all : List ℕ) → input.now ≡ take READ_LIMIT all →
        AreClaimsOf all asked.now (map numbered_claim claims.now) →
        ClaimsExplored asked.now all (W.contents writer.old) (W.contents writer.new) result }
{
    match parse_run(alloc, input) {
        Ok(script) => explore_script(alloc, asked, &script, claims, writer, watch),
        Err(error) => Err(ClaimsFault::Explore(ExploreFault::Play(PlayFault::from(error)))),
    }
}

// Answers claims as they are stated about the script in these bytes.
fn explore_stated<W: Write, T: SearchWatch>(
    alloc: Global,
    asked: &ClaimsOptions<'_>,
    claims: &[StatedClaim<'_>],
    input: &[u8],
    writer: &mut W,
    watch: &mut T,
) -> Result<Verdict, ClaimsFault>
    ensures { (all : List ℕ) → input.now ≡ take READ_LIMIT all →
        IsStatedAs (lines_in asked.now.claims.now) (map stated claims.now) →
        ClaimsExplored asked.now all (W.contents writer.old) (W.contents writer.new) result }
{
    match numbered_claims(alloc, source_of(input), claims) {
        Ok(numbered) => {
            explore_numbered(alloc, asked, numbered.as_slice(), input, writer, watch)
        }
        Err(fault) => Err(fault),
    }
}

/// Decides claims on the texts that a script may give. One search finds a text of each kind. If one of them shows a
/// verdict, or the search fails, another one finds all texts. Each ends after 1,000 or 32,000 states if the texts found
/// until then are enough. Each claim has a line: the verdict, the claim, and the number of the first text that shows the
/// verdict, if one does. In `Json` it is an object. The bytes of the script are a whole text, or the first 1,048,577 of a
/// longer one.
///
/// The verdict fails if that on one of the claims does, is undecided if that on another is, and holds otherwise.
///
/// # Errors
/// `Kind` for the first line that states no claim; `Repeated` if a name of an expression is that of two calls; the
/// first fault of the script; `Term` for the first fault of an expression; and `Explore` with a fault of the search, or
/// if an allocation or a write failed. Only after a failed write was anything written: a prefix of the text.
pub fn explore_claims<W: Write, T: SearchWatch>(
    alloc: Global,
    asked: &ClaimsOptions<'_>,
    input: &[u8],
    writer: &mut W,
    watch: &mut T,
) -> Result<Verdict, ClaimsFault>
    ensures { (all : List ℕ) → input.now ≡ take READ_LIMIT all →
        ClaimsExplored asked.now all (W.contents writer.old) (W.contents writer.new) result }
{
    match claims_in(alloc, asked.claims) {
        Ok(claims) => explore_stated(alloc, asked, claims.as_slice(), input, writer, watch),
        Err(fault) => Err(fault),
    }
}
