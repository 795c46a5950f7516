//! Explorations of the moments of a script.
ghost use Rattle.std.specs.Prelude.{◌≡◌, ℕ, List, take};
ghost use Rattle.gt_text.specs.declared.streams.TheConstants.{READ_LIMIT};
ghost use Rattle.gt_explore_faults.specs.declared.claims.ClaimsFault.TheVariants as claims_faults;
ghost use Rattle.gt_program.specs.Obeying.{SearchesMoment, moment_failure};

use crate::exploring::of_verdict;
use gt_command_reasons::{KeptInput, Reasons};
use gt_explore_faults::{ClaimsFault, ExploreFault};
use gt_explore_moments::{MomentFault, MomentOptions, explore_moment};
use gt_explore_search::SearchWatch;
use gt_file_commands::{Failure, Outcome};
use std::alloc::Global;
use std::io::Write;

// Returns the failure for a fault that explorations of texts can have too, and adds the reason.
fn unexplored(alloc: Global, input: &[u8], fault: ExploreFault, reasons: &mut Reasons) -> Failure
    ensures { result ≡ Failure.Explore (claims_faults.Explore fault) }
{
    let fault = ClaimsFault::Explore(fault);
    reasons.add_explore(&KeptInput::of(alloc, input), &fault);
    Failure::Explore(fault)
}

// Returns the failure for a fault, and adds the reason.
fn moment_failure(alloc: Global, input: &[u8], fault: MomentFault, reasons: &mut Reasons) -> Failure
    ensures { result ≡ moment_failure fault }
{
    match fault {
        MomentFault::Claim(fault) => {
            reasons.add_state(fault);
            Failure::State(fault)
        }
        MomentFault::Play(fault) => unexplored(alloc, input, ExploreFault::Play(fault), reasons),
        MomentFault::Texts(fault) => unexplored(alloc, input, ExploreFault::Texts(fault), reasons),
    }
}

/// Decides a claim about what the entries of a script show, which has no choices, and adds the reason of a fault.
pub(crate) fn search_moment<W: Write, X: SearchWatch>(
    alloc: Global,
    asked: &MomentOptions,
    input: &[u8],
    out: &mut W,
    reasons: &mut Reasons,
    watch: &mut X,
) -> Result<Outcome, Failure>
    ensures { (all : List ℕ) → input.now ≡ take READ_LIMIT all →
        SearchesMoment asked.now all (W.contents out.old) (W.contents out.new) result }
{
    match explore_moment(alloc, asked, input, out, watch) {
        Ok(verdict) => Ok(of_verdict(verdict)),
        Err(fault) => Err(moment_failure(alloc, input, fault, reasons)),
    }
}
