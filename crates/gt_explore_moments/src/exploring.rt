//! The command.
ghost use Rattle.std.specs.Prelude.{◌≡◌, ℕ, List, IfErr, IfOk, None, Ok, take};
ghost use Rattle.gt_script.specs.Contents.{contents_of};
ghost use Rattle.gt_script.specs.RunContents.{run_contents};
ghost use Rattle.gt_script.specs.RunScripts.{CanConfigure, ReadsAsRun};
ghost use Rattle.gt_script.specs.Stuck.{AreNumbered};
ghost use Rattle.gt_state_claims.specs.Claims.{claim_asked};
ghost use Rattle.gt_state_claims.specs.Reading.{claim_read};
ghost use Rattle.gt_text.specs.declared.streams.TheConstants.{READ_LIMIT};
ghost use Rattle.gt_explore_moments.specs.Exploring.{IsClaimFault, IsMomentAnswer, IsMomentOutput, MakesAnswer};
ghost use Rattle.gt_explore_moments.specs.Exploring.{MomentExplored, MomentWritten};
ghost use Rattle.gt_moment_scripts.specs.Naming.{entries_named, foreign_domain};

use crate::asking::{MomentFault, MomentOptions};
use crate::outputs::{holds_lines, moment_comment, undecided_lines};
use gt_explore_faults::TextsFault;
use gt_explore_search::{SearchWatch, Turn};
use gt_explore_states::{StateFinding, search_state};
use gt_explore_verdict::Verdict;
use gt_moment_scripts::{entries_named, foreign_domain, moment_script};
use gt_script::{RunScript, parse_run};
use gt_script_runs::PlayFault;
use gt_state_claims::{StateClaim, StateClaimFault};
use gt_text::write_text;
use gt_types::DomainConfig;
use std::alloc::Global;
use std::io::Write;

// An answer, and the verdict.
#[derive(Drop)]
struct MomentAnswer {
    text: Vec<u8>,
    verdict: Verdict,
}

// Reads a claim about a script with these domains.
#[tactic(auto, using(crate::proofs::Asked::unread_claim, crate::proofs::Asked::foreign_claim))]
fn claim_about(
    alloc: Global,
    text: &str,
    domains: &[DomainConfig],
) -> Result<StateClaim, StateClaimFault>
    ensures ok { IfOk result (λ claim. claim_read text.now ≡ Ok (claim_asked claim)) }
    ensures known { IfOk result (λ claim. foreign_domain domains.now (entries_named (claim_asked claim)) ≡ None) }
    ensures fault { IfErr result (IsClaimFault domains.now text.now) }
{
    let claim = match StateClaim::read(alloc, text) {
        Ok(claim) => claim,
        Err(fault) => return Err(fault),
    };
    let Ok(named) = entries_named(alloc, &claim) else {
        return Err(StateClaimFault::Memory);
    };
    match foreign_domain(domains, named.as_slice()) {
        Some(dom) => Err(StateClaimFault::Domain(dom.0)),
        None => Ok(claim),
    }
}

// The turns that lead to a moment, and the number of states that the search met.
#[derive(Drop)]
struct FoundMoment {
    turns: Vec<Turn>,
    states: usize,
}

// Returns the answer that these turns lead to a moment at which the claim holds.
fn moment_answer(
    alloc: Global,
    words: &str,
    source: &[u8],
    script: &RunScript,
    claim: &StateClaim,
    found: &FoundMoment,
) -> Result<Vec<u8>, TextsFault>
    requires { CanConfigure (contents_of script.now.head) }
    ensures { IfOk result (λ text. IsMomentOutput (contents_of script.now.head) (claim_asked claim.now) words.now
        text.items) }
{
    let comment = moment_comment(alloc, words, found.states)?;
    let turns = found.turns.as_slice();
    moment_script(alloc, source, script, turns, claim, comment.as_slice())
}

// Decides a claim about a script.
fn answered<T: SearchWatch>(
    alloc: Global,
    asked: &MomentOptions<'_>,
    source: &[u8],
    script: &RunScript,
    claim: &StateClaim,
    watch: &mut T,
) -> Result<MomentAnswer, TextsFault>
    requires fits { CanConfigure (contents_of script.now.head) }
    requires numbered { AreNumbered script.now.flags script.now.tasks }
    ensures { IfOk result (λ made. IsMomentAnswer (run_contents script.now) (claim_asked claim.now)
        asked.now.claim.now made.verdict made.text.items) }
{
    let search = search_state(alloc, script, claim, asked.states, watch)?;
    let states = search.states;
    match search.finding {
        StateFinding::Nowhere => {
            let held = holds_lines(alloc, states)?;
            Ok(MomentAnswer {
                text: held,
                verdict: Verdict::Holds,
            })
        }
        StateFinding::Undecided => {
            let open = undecided_lines(alloc, states)?;
            Ok(MomentAnswer {
                text: open,
                verdict: Verdict::Undecided,
            })
        }
        StateFinding::Found(turns) => {
            let found = FoundMoment { turns, states };
            let shown = moment_answer(alloc, asked.claim, source, script, claim, &found)?;
            Ok(MomentAnswer {
                text: shown,
                verdict: Verdict::Fails,
            })
        }
    }
}

// Reads the claim, and decides it for a script.
fn made<T: SearchWatch>(
    alloc: Global,
    asked: &MomentOptions<'_>,
    source: &[u8],
    script: &RunScript,
    watch: &mut T,
) -> Result<MomentAnswer, MomentFault>
    requires fits { CanConfigure (contents_of script.now.head) }
    requires numbered { AreNumbered script.now.flags script.now.tasks }
    ensures { MakesAnswer (run_contents script.now) asked.now result }
{
    let claim = match claim_about(alloc, asked.claim, script.head().domains()) {
        Ok(claim) => claim,
        Err(fault) => return Err(MomentFault::Claim(fault)),
    };
    match answered(alloc, asked, source, script, &claim, watch) {
        Ok(made) => Ok(made),
        Err(fault) => Err(MomentFault::Texts(fault)),
    }
}

// Decides the claim for a script that was parsed.
fn explore_parsed<W: Write, T: SearchWatch>(
    alloc: Global,
    asked: &MomentOptions<'_>,
    source: &[u8],
    script: &RunScript,
    writer: &mut W,
    watch: &mut T,
) -> Result<Verdict, MomentFault>
    requires fits { CanConfigure (contents_of script.now.head) }
    requires numbered { AreNumbered script.now.flags script.now.tasks }
    ensures { MomentWritten (run_contents script.now) asked.now (W.contents writer.old) (W.contents writer.new) result }
{
    match made(alloc, asked, source, script, watch) {
        Err(fault) => Err(fault),
        Ok(made) => match write_text(writer, made.text.as_slice()) {
            Ok(()) => Ok(made.verdict),
            Err(_) => Err(MomentFault::Play(PlayFault::Write)),
        },
    }
}

/// Decides the claim that no moment of a script's run has entries that show this. If it holds, the answer is `holds` and
/// the number of states that the search met. If not, it is a script for `play` that reaches such a moment and then has
/// a `show` line for each entry that the claim names. It was played, and showed entries of which the claim holds. If a
/// domain leaves in it with a mapping that it may not unmap, a line may take its place. The bytes are a whole text, or
/// the first 1,048,577 of a longer one.
///
/// # Errors
/// `Play` with the script's first fault, or if an allocation or a write failed. `Claim` if the text is not a claim, or
/// if it names a domain that the script does not have. `Texts` with a fault of the search, or with `Astray` if the
/// script for `play` does not show such entries. Only after a failed write was anything written: a prefix of the answer.
pub fn explore_moment<W: Write, T: SearchWatch>(
    alloc: Global,
    asked: &MomentOptions<'_>,
    input: &[u8],
    writer: &mut W,
    watch: &mut T,
) -> Result<Verdict, MomentFault>
    ensures { (all : List ℕ) → input.now ≡ take READ_LIMIT all →
        MomentExplored asked.now (ReadsAsRun all) (W.contents writer.old) (W.contents writer.new) result }
{
    match parse_run(alloc, input) {
        Ok(script) => explore_parsed(alloc, asked, input, &script, writer, watch),
        Err(error) => Err(MomentFault::Play(PlayFault::from(error))),
    }
}
