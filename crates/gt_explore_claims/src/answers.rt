//! The output for several claims.
ghost use Rattle.std.specs.Prelude.{◌≡◌, ◌++◌, OnOk, [], decimal, codes};
ghost use Rattle.gt_explore_answers.specs.Outputs.{found_from};
ghost use Rattle.gt_explore_claims.specs.Answering.{answer_members, answer_shown, claim_line, claim_members};
ghost use Rattle.gt_explore_claims.specs.Answering.{claim_object, place_member, place_shown, verdict_member};
ghost use Rattle.gt_explore_claims.specs.Answering.{verdict_text, verdict_word};
ghost use Rattle.gt_explore_claims.specs.Stating.{stated};
ghost use Rattle.gt_json.specs.Strings.{quoted};

use crate::stated::{StatedClaim, claim_name};
use gt_explore_answers::{ExploreFormat, FoundTexts, push_heading};
use gt_explore_verdict::Verdict;
use gt_json::push_quoted;
use gt_text::{push_number, push_text};
use std::alloc::AllocError;

/// What is known of a claim: the verdict, and the number of the first text that shows it, if one does.
#[derive(Clone, Copy)]
pub struct ClaimAnswer {
    pub verdict: Verdict,
    pub number: Option<usize>,
}

// Returns a verdict in words.
fn verdict_text(verdict: Verdict) -> &'static str
    ensures { result.now ≡ verdict_text verdict }
{
    match verdict {
        Verdict::Holds => "holds: ",
        Verdict::Fails => "does not hold: ",
        Verdict::Undecided => "not decided: ",
    }
}

// Returns a verdict as JSON has it.
fn verdict_word(verdict: Verdict) -> &'static str
    ensures { result.now ≡ verdict_word verdict }
{
    match verdict {
        Verdict::Holds => "holds",
        Verdict::Fails => "fails",
        Verdict::Undecided => "undecided",
    }
}

// Appends the number of the text that shows a verdict, if there is one.
fn push_place(
    out: &mut Vec<u8>,
    found: &FoundTexts,
    number: Option<usize>,
) -> Result<(), AllocError>
    ensures { OnOk result (out.new.items ≡ out.old.items ++ place_shown (found_from found.now) number) }
{
    let Some(number) = number else {
        return Ok(());
    };
    push_text(out, " (")?;
    push_heading(out, found.whole, found.texts.len(), number)?;
    push_text(out, ")")
}

// Appends the line of a claim.
#[tactic(auto, unfolding(crate::specs::Answering::claim_line))]
fn push_claim_line(
    out: &mut Vec<u8>,
    found: &FoundTexts,
    claim: &StatedClaim<'_>,
    answer: ClaimAnswer,
) -> Result<(), AllocError>
    ensures { OnOk result (out.new.items
        ≡ out.old.items ++ claim_line (found_from found.now) (stated claim.now) answer) }
{
    push_text(out, verdict_text(answer.verdict))?;
    push_text(out, claim_name(claim.claim))?;
    push_text(out, " ")?;
    push_text(out, claim.expression)?;
    push_place(out, found, answer.number)?;
    push_text(out, "\n")
}

// Appends the number of the text that shows a verdict as a member of an object, if there is one.
fn push_place_member(out: &mut Vec<u8>, number: Option<usize>) -> Result<(), AllocError>
    ensures { OnOk result (out.new.items ≡ out.old.items ++ place_member number) }
{
    let Some(number) = number else {
        return Ok(());
    };
    push_text(out, ",\"text\":")?;
    push_number(out, number)
}

// Appends a claim as the first members of an object.
#[tactic(auto, unfolding(crate::specs::Answering::claim_members))]
fn push_claim_members(out: &mut Vec<u8>, claim: &StatedClaim<'_>) -> Result<(), AllocError>
    ensures { OnOk result (out.new.items ≡ out.old.items ++ claim_members (stated claim.now)) }
{
    push_text(out, "{\"claim\":\"")?;
    push_text(out, claim_name(claim.claim))?;
    push_text(out, "\",\"expression\":")?;
    push_quoted(out, claim.expression.as_bytes())
}

// Appends a verdict as the last member of an object.
fn push_verdict_member(out: &mut Vec<u8>, verdict: Verdict) -> Result<(), AllocError>
    ensures { OnOk result (out.new.items ≡ out.old.items ++ verdict_member verdict) }
{
    push_text(out, ",\"verdict\":\"")?;
    push_text(out, verdict_word(verdict))?;
    push_text(out, "\"}\n")
}

// Appends an answer as the last members of an object.
fn push_answer_members(out: &mut Vec<u8>, answer: ClaimAnswer) -> Result<(), AllocError>
    ensures { OnOk result (out.new.items ≡ out.old.items ++ answer_members answer) }
{
    push_place_member(out, answer.number)?;
    push_verdict_member(out, answer.verdict)
}

// Appends the object of a claim.
fn push_claim_object(
    out: &mut Vec<u8>,
    claim: &StatedClaim<'_>,
    answer: ClaimAnswer,
) -> Result<(), AllocError>
    ensures { OnOk result (out.new.items ≡ out.old.items ++ claim_object (stated claim.now) answer) }
{
    push_claim_members(out, claim)?;
    push_answer_members(out, answer)
}

/// Appends what is printed of a claim in a format: a line, or an object.
pub fn push_answer(
    out: &mut Vec<u8>,
    format: ExploreFormat,
    found: &FoundTexts,
    claim: &StatedClaim<'_>,
    answer: ClaimAnswer,
) -> Result<(), AllocError>
    ensures { OnOk result (out.new.items
        ≡ out.old.items ++ answer_shown format (found_from found.now) (stated claim.now) answer) }
{
    match format {
        ExploreFormat::Text => push_claim_line(out, found, claim, answer),
        ExploreFormat::Json => push_claim_object(out, claim, answer),
    }
}
